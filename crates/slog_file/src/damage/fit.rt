//! Whether a snapshot can be of a log file: else no log begins on it.
ghost use Rattle.std.specs.Prelude.{◌<◌};

use crate::damage::reading::of_log;
use crate::damage::{Damage, Kind};
use sled_log::config::RunningConfig;
use sled_log::device::{Checksum, Device};
use sled_log::logger::{DiskPtr, LogOffset};
use sled_log::result::{Lsn, PageId, Result};
use sled_log::snapshot::{PageState, Snapshot};
use sled_store::segment::may_begin;
use std::alloc::Global;
use std::collections::BTreeMap;

// The log file, and which segment each of its slots has, as far as the snapshot tells.
#[derive(Drop)]
struct Slots {
    size: u64,
    // How many there are.
    count: u64,
    stable: u64,
    // The number of the segment in a slot, and the slot of the segment of a number.
    segments: BTreeMap<u64, u64>,
    slots: BTreeMap<u64, u64>,
    ghost some: { 0 < size },
}

/// What a snapshot has that can't be in the log file.
pub(crate) fn unfit<D: Device, C: Checksum>(
    config: &mut RunningConfig<D, C>,
    snapshot: &Snapshot,
) -> Result<Option<Damage>> {
    let size = config.config.segment_size;
    let len = config.device.len()?;
    let mut slots = Slots::new(config.alloc(), size, len, snapshot.stable_place());
    if let Some(active) = snapshot.active_segment {
        if !slots.take_active(active)? {
            return Ok(Some(of_log(active, Kind::NoActive(snapshot.stable_place()))));
        }
    }
    for (number, page) in snapshot.pt.iter().enumerate() {
        if let Some(damage) = slots.take_page(number as u64, page)? {
            return Ok(Some(damage));
        }
    }
    Ok(None)
}

impl Slots {
    fn new(alloc: Global, size: u64, len: u64, stable: u64) -> Slots
        requires { 0 < size }
    {
        Slots {
            size,
            count: len.div_ceil(size),
            stable,
            segments: BTreeMap::new(alloc),
            slots: BTreeMap::new(alloc),
        }
    }

    // Takes the segment in which the log goes on. Answers whether it can be there.
    fn take_active(&mut self, active: LogOffset) -> Result<bool> {
        let can_be = active % self.size == 0 && may_begin(self.stable, self.size);
        Ok(can_be && self.take(active, self.stable)?)
    }

    // Takes the messages of a page, and answers with the first that can't be where it is said to be.
    fn take_page(&mut self, number: PageId, page: &PageState) -> Result<Option<Damage>> {
        match page {
            PageState::Present { base, frags } => {
                if !self.take_message(base.0, base.1)? {
                    return Ok(Some(not_there(number, base.0, base.1)));
                }
                for entry in frags {
                    if !self.take_message(entry.0, entry.1)? {
                        return Ok(Some(not_there(number, entry.0, entry.1)));
                    }
                }
                Ok(None)
            }
            PageState::Free(place, pointer) => {
                if self.take_message(*place, *pointer)? {
                    Ok(None)
                } else {
                    Ok(Some(not_there(number, *place, *pointer)))
                }
            }
            PageState::Uninitialized => Ok(Some(of_log(0, Kind::NotBegun(number)))),
        }
    }

    // Takes a message. Answers whether it can be there.
    fn take_message(&mut self, place: Lsn, pointer: DiskPtr) -> Result<bool> {
        let Ok(place) = u64::try_from(place) else {
            return Ok(false);
        };
        let offset = pointer.lid();
        let can_be = place < self.stable
            && place % self.size == offset % self.size
            && may_begin(offset, self.size);
        Ok(can_be && self.take(offset, place)?)
    }

    // Takes it that the slot of an offset has the segment of a place. Answers whether it can.
    fn take(&mut self, offset: LogOffset, place: u64) -> Result<bool> {
        let (slot, number) = (offset / self.size, place / self.size);
        let before = self.segments.insert(slot, number)?;
        let other = self.slots.insert(number, slot)?;
        Ok(slot < self.count && before.unwrap_or(number) == number && other.unwrap_or(slot) == slot)
    }
}

fn not_there(page: PageId, place: Lsn, pointer: DiskPtr) -> Damage {
    of_log(pointer.lid(), Kind::NotThere(page, place))
}
