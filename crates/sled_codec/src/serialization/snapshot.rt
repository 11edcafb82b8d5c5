//! Snapshots of the page table (`docs/FORMATS.md`, "Snapshots").
ghost use Rattle.std.specs.Prelude.{◌≡◌, ◌+◌, ◌-◌, ◌^◌, ◌<◌, [], None, true};
ghost use Rattle.sled_codec.specs.Coords.{coords_of, HasCoords, raised};
ghost use Rattle.sled_codec.specs.Snapshots.{model_of, is_sound, stable_place};

use crate::result::{DiskPtr, LogOffset, Lsn, Result};
use crate::serialization::each::{
    can_serialize_each, deserialize_all, deserialize_many, serialize_each, size_of_each,
};
use crate::serialization::{Delimited, Serialize};
use std::alloc::Global;

/// Where a message of a page lies: its place in the log, its pointer, and how long its record is.
pub type Entry = (Lsn, DiskPtr, u64);

/// What a page is in the table.
#[derive(Debug, Clone, PartialEq, Drop)]
pub enum PageState {
    /// It was begun.
    Present {
        /// Its last Replace.
        base: Entry,
        /// The Links on it, the first one first.
        frags: Vec<Entry>,
    },
    /// It was given back, by this message.
    Free(Lsn, DiskPtr),
    /// No message of it was seen.
    Uninitialized,
}

/// How many Links a page has at most where it has a spelling: one byte counts its entries.
const MAX_FRAGS: usize = 254;

/// 0, the place and the pointer; or how many entries the page has, and then they, each as a triple.
/// A page with more than 254 Links has no spelling, and neither has one that was not seen.
impl Serialize for PageState {
    ghost use Rattle.sled_codec.specs.Snapshots.{Page, page_of, SpellsPage, FitsPage, short_page};
    ghost use Rattle.sled_codec.specs.SnapshotLaws.{short_spells-page};

    ghost Meaning = { Page };

    ghost meaning = { page_of };

    ghost Spells = { SpellsPage };

    ghost Follows = { λ rest. Unit {0} };

    ghost fits = { FitsPage };

    ghost short = { short_page };

    ghost takes_memory = { true };

    fn can_serialize(&self) -> bool {
        match self {
            PageState::Present { base, frags } => {
                frags.len() <= MAX_FRAGS && base.can_serialize() && can_serialize_each(frags)
            }
            PageState::Free(place, pointer) => place.can_serialize() && pointer.can_serialize(),
            PageState::Uninitialized => false,
        }
    }

    fn serialized_size(&self) -> u64 {
        match self {
            PageState::Present { base, frags } => 1 + base.serialized_size() + size_of_each(frags),
            PageState::Free(place, pointer) => {
                1 + place.serialized_size() + pointer.serialized_size()
            }
            PageState::Uninitialized => 0,
        }
    }

    fn serialize_into(&self, buf: &mut [u8], at: usize) -> usize {
        match self {
            PageState::Present { base, frags } => {
                let count = 1 + frags.len() as u8;
                let next = count.serialize_into(buf, at);
                let next = base.serialize_into(buf, next);
                serialize_each(frags, buf, next)
            }
            PageState::Free(place, pointer) => {
                let next = 0u8.serialize_into(buf, at);
                let next = place.serialize_into(buf, next);
                pointer.serialize_into(buf, next)
            }
            PageState::Uninitialized => at,
        }
    }

    fn deserialize(alloc: Global, buf: &mut &[u8]) -> Result<PageState> {
        let mut rest: &[u8] = *buf;
        let count = u8::deserialize(alloc, &mut rest)?;
        if count == 0 {
            let (place, pointer) = <(Lsn, DiskPtr)>::deserialize(alloc, &mut rest)?;
            *buf = rest;
            return Ok(PageState::Free(place, pointer));
        }
        let base = Entry::deserialize(alloc, &mut rest)?;
        let frags = deserialize_many(alloc, count as usize - 1, &mut rest)?;
        *buf = rest;
        Ok(PageState::Present { base, frags })
    }

    ghost short_spells = { short_spells-page };
}

impl Delimited for PageState {
    ghost use Rattle.sled_codec.specs.SnapshotLaws.{one_value-page, no_front-page};

    ghost one_value = { one_value-page };

    ghost no_front = { no_front-page };

    ghost open = { λ rest. tt };
}

/// The page table up to a place, and where the log goes on.
#[derive(Debug, PartialEq, Drop)]
pub struct Snapshot {
    /// The place up to which the table is complete. `None`: nothing was written yet.
    pub stable_lsn: Option<Lsn>,
    /// The offset of the segment that holds that place, where it has room left.
    pub active_segment: Option<LogOffset>,
    /// The pages, by their number.
    pub pt: Vec<PageState>,
}

/// The place and the segment as numbers that may be missing, and then the pages, up to the end of the
/// bytes. Each page has to have a spelling, and the length of the whole fits in a `u64`.
impl Serialize for Snapshot {
    ghost use Rattle.std.specs.Prelude.{List, ℕ};
    ghost use Rattle.sled_codec.specs.Snapshots.{SnapshotModel, model_of, SpellsSnapshot, FitsSnapshot, short_snapshot};
    ghost use Rattle.sled_codec.specs.SnapshotLaws.{short_spells-snapshot};

    ghost Meaning = { SnapshotModel };

    ghost meaning = { model_of };

    ghost Spells = { SpellsSnapshot };

    ghost Follows = { λ rest. rest ≡ [] };

    ghost fits = { FitsSnapshot };

    ghost short = { short_snapshot };

    ghost takes_memory = { true };

    fn can_serialize(&self) -> bool {
        let coords = (self.stable_lsn, self.active_segment);
        if !coords.can_serialize() || !can_serialize_each(&self.pt) {
            return false;
        }
        let front = coords.serialized_size();
        front.checked_add(size_of_each(&self.pt)).is_some()
    }

    fn serialized_size(&self) -> u64 {
        let coords = (self.stable_lsn, self.active_segment);
        coords.serialized_size() + size_of_each(&self.pt)
    }

    fn serialize_into(&self, buf: &mut [u8], at: usize) -> usize {
        let coords = (self.stable_lsn, self.active_segment);
        let next = coords.serialize_into(buf, at);
        serialize_each(&self.pt, buf, next)
    }

    fn deserialize(alloc: Global, buf: &mut &[u8]) -> Result<Snapshot> {
        let mut rest: &[u8] = *buf;
        let (stable_lsn, active_segment) = <(Option<Lsn>, Option<LogOffset>)>::deserialize(
            alloc, &mut rest,
        )?;
        let pt = deserialize_all(alloc, rest)?;
        *buf = &[];
        Ok(Snapshot {
            stable_lsn,
            active_segment,
            pt,
        })
    }

    ghost short_spells = { short_spells-snapshot };
}

impl Snapshot {
    /// Returns the snapshot of a log that nothing was written to. It takes no memory.
    pub fn empty(alloc: Global) -> Snapshot
        ensures stable { result.stable_lsn ≡ None }
        ensures active { result.active_segment ≡ None }
        ensures pages { result.pt.items ≡ [] }
    {
        Snapshot {
            stable_lsn: None,
            active_segment: None,
            pt: Vec::new(alloc),
        }
    }

    /// Returns where a log with segments of this size goes on: the offset in the file and the place. It asks
    /// for a stable place that is not negative, and for an offset and a place that are in range.
    pub fn recovered_coords(&self, segment_size: u64) -> (Option<LogOffset>, Option<Lsn>)
        requires { HasCoords segment_size self.now.stable_lsn self.now.active_segment }
        ensures { result ≡ coords_of segment_size self.now.stable_lsn self.now.active_segment }
    {
        match (self.stable_lsn, self.active_segment) {
            (None, _) => (None, None),
            (Some(stable), Some(segment)) => {
                let offset = stable.unsigned_abs() % segment_size;
                (Some(segment + offset), Some(stable))
            }
            (Some(stable), None) => {
                let raised = raised(stable.unsigned_abs(), segment_size);
                (None, Some(raised as i64))
            }
        }
    }

    /// Returns whether a log can have it: it has a stable place that is not negative, or it is the one of a log that
    /// was never begun.
    pub fn is_sound(&self) -> bool
        ensures { result ≡ is_sound (model_of self.now) }
    {
        match self.stable_lsn {
            Some(place) => place >= 0,
            None => self.active_segment.is_none() && self.pt.is_empty(),
        }
    }

    /// Returns the place that it ends with; 0 where there is none, or a negative one.
    pub fn stable_place(&self) -> u64
        ensures place { result ≡ stable_place self.now.stable_lsn }
        ensures small { result < 2 ^ 63 }
    {
        match self.stable_lsn {
            Some(place) => u64::try_from(place).unwrap_or(0),
            None => 0,
        }
    }
}

// A place, raised to the next multiple of a size.
fn raised(place: u64, size: u64) -> u64
    requires some { 0 < size }
    requires fits { place + (size - 1) < 2 ^ 63 }
    ensures value { result ≡ raised size place }
    ensures small { result < 2 ^ 63 }
{
    (place + (size - 1)) / size * size
}
