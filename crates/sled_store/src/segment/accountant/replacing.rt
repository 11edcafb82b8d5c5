//! A message that is there in place of older ones (`specs/SegmentStates.antt`).
//!
//! A replacement frees no slot: the segment that replaces is active, so the free waits for its deactivation.
ghost use Rattle.std.specs.Prelude.{◌≡◌, ◌⊎◌, ◌∷◌, [], ◌+◌, ◌*◌, ◌/◌, ◌≤◌, ◌<◌, ◌^◌, ℕ, length, slice_index_or, true, false, OnOk, OnErr, IsOkUnless};
ghost use Rattle.std.specs.List.{All, list_any};
ghost use Rattle.sled_codec.specs.Pointers.{lid_of};
ghost use Rattle.sled_store.specs.declared.segment.slot.Slot.{Slot as SlotRecord};
ghost use Rattle.sled_store.specs.SegmentStates.{MayMark, is_active, is_inactive, slot_at, with_slot, beside, by_place, replaced_slot, all_outdated, outdating, drained, replaced_one, replaced_all, replaced, is_sparse};
ghost use Rattle.sled_store.specs.inside.Stabilizing.{not_beside};
ghost use Rattle.sled_store.specs.Accounts.{IsAccountant, machine_of, size_of};
ghost use Rattle.sled_store.specs.inside.Accounts.{IsUsed, GoneFits, HasRoomToLink, HasRoomForBlobs};

use crate::segment::accountant::SegmentAccountant;
use crate::segment::slot::{CacheInfo, Slot};
use crate::segment::sorted::SortedSet;
use crate::{Device, RunningConfig};
use sled_codec::result::{DiskPtr, Error, Lsn, PageId, Result};
use sled_codec::serialization::Checksum;

impl SegmentAccountant {
    /// Notes that a message of a page is there in place of all that the page had. `lsn` is its place.
    ///
    /// # Errors
    ///
    /// `OutOfMemory`: nothing was changed.
    pub fn mark_replace<D: Device, C: Checksum>(
        &mut self,
        config: &mut RunningConfig<D, C>,
        pid: PageId,
        lsn: Lsn,
        old: &[CacheInfo],
        new: CacheInfo,
    ) -> Result<()>
        requires account { IsAccountant config.old.config.segment_size self.old }
        requires lsn { lsn ≡ new.lsn }
        requires may { MayMark config.old.config.segment_size (machine_of self.old) new old.now }
        ensures done { OnOk result (machine_of self.new ≡ replaced config.old.config.segment_size pid new old.now (machine_of self.old)) }
        ensures unchanged { OnErr result (machine_of self.new ≡ machine_of self.old) }
        ensures memory { IsOkUnless result Error.OutOfMemory }
        ensures account { IsAccountant config.old.config.segment_size self.new }
        ensures config { config.new ≡ config.old }
    {
        let _ = config;
        self.reserve_gone(pid, old)?;
        self.reserve_slot(new.pointer.lid() / self.size, old.len())?;
        self.replace(pid, lsn, old, new);
        Ok(())
    }

    /// The same, where there is room.
    fn replace(&mut self, pid: PageId, lsn: Lsn, old: &[CacheInfo], new: CacheInfo)
        requires account { IsAccountant (size_of self.old) self.old }
        requires lsn { lsn ≡ new.lsn }
        requires may { MayMark (size_of self.old) (machine_of self.old) new old.now }
        requires gone { All (λ o. GoneFits pid self.old (lid_of o.pointer / size_of self.old)) old.now }
        requires link { (d : SlotRecord) → HasRoomToLink (slice_index_or self.old.slots.items (lid_of new.pointer / size_of self.old) d) }
        requires blobs { (d : SlotRecord) → HasRoomForBlobs (length old.now) (slice_index_or self.old.slots.items (lid_of new.pointer / size_of self.old) d) }
        ensures done { machine_of self.new ≡ replaced (size_of self.old) pid new old.now (machine_of self.old) }
        ensures account { IsAccountant (size_of self.old) self.new }
    {
        self.link(pid, new);
        self.outdate(new, old);
        let place = lsn.unsigned_abs() / self.size * self.size;
        self.replace_all(pid, place, old);
    }

    /// The blobs of older messages go with the segment of the one that replaces them, but for its own.
    fn outdate(&mut self, info: CacheInfo, old: &[CacheInfo])
        requires account { IsAccountant (size_of self.old) self.old }
        requires slot { lid_of info.pointer / size_of self.old < length (machine_of self.old).slots }
        requires active { is_active (slot_at (machine_of self.old) (lid_of info.pointer / size_of self.old)).state ≡ true }
        requires room { (d : SlotRecord) → HasRoomForBlobs (length old.now) (slice_index_or self.old.slots.items (lid_of info.pointer / size_of self.old) d) }
        ensures done { machine_of self.new ≡ outdating (size_of self.old) info old.now (machine_of self.old) }
        ensures account { IsAccountant (size_of self.old) self.new }
        ensures gone { (pid k : ℕ) → GoneFits pid self.old k → GoneFits pid self.new k }
    {
        let s = &mut self.slots[(info.pointer.lid() / self.size) as usize];
        outdate_all(s, info.pointer, old);
    }

    /// Makes room for a replaced page in the slot of each of these messages.
    fn reserve_gone(&mut self, pid: PageId, old: &[CacheInfo]) -> Result<()>
        requires account { IsAccountant (size_of self.old) self.old }
        requires used { All (λ o. IsUsed (machine_of self.old) (lid_of o.pointer / size_of self.old)) old.now }
        ensures machine { machine_of self.new ≡ machine_of self.old }
        ensures account { IsAccountant (size_of self.old) self.new }
        ensures gone { OnOk result (All (λ o. GoneFits pid self.new (lid_of o.pointer / size_of self.old)) old.now) }
        ensures memory { IsOkUnless result Error.OutOfMemory }
    {
        let _ = pid;
        let size = self.size;
        for o in old {
            self.reserve_gone_in(o.pointer.lid() / size)?;
        }
        Ok(())
    }

    /// Makes room for a replaced page in a slot.
    fn reserve_gone_in(&mut self, slot: u64) -> Result<()>
        requires account { IsAccountant (size_of self.old) self.old }
        requires slot { slot < length (machine_of self.old).slots }
        ensures machine { machine_of self.new ≡ machine_of self.old }
        ensures account { IsAccountant (size_of self.old) self.new }
        ensures gone { OnOk result ((pid : ℕ) → GoneFits pid self.new slot) }
        ensures kept { (pid k : ℕ) → GoneFits pid self.old k → GoneFits pid self.new k }
        ensures memory { IsOkUnless result Error.OutOfMemory }
    {
        let s = &mut self.slots[slot as usize];
        s.reserve_gone()?;
        Ok(())
    }

    /// An older message of a page, of this length, was replaced in the segment at a place.
    fn replace_in(&mut self, slot: u64, pid: PageId, len: u64, place: u64)
        requires account { IsAccountant (size_of self.old) self.old }
        requires used { IsUsed (machine_of self.old) slot }
        requires gone { GoneFits pid self.old slot }
        ensures done { machine_of self.new ≡ with_slot slot (replaced_slot pid len place (slot_at (machine_of self.old) slot)) (machine_of self.old) }
        ensures account { IsAccountant (size_of self.old) self.new }
        ensures kept { (k : ℕ) → GoneFits pid self.old k → GoneFits pid self.new k }
    {
        let s = &mut self.slots[slot as usize];
        let before = s.waited_place();
        s.replace(pid, len, place);
        let after = s.waited_place();
        forget_waiting(&mut self.waiting, before, slot);
        note_waiting(&mut self.waiting, after, slot);
    }

    /// Drains an inactive slot.
    pub(super) fn drain(&mut self, slot: u64)
        requires account { IsAccountant (size_of self.old) self.old }
        requires slot { slot < length (machine_of self.old).slots }
        requires inactive { is_inactive (slot_at (machine_of self.old) slot).state ≡ true }
        ensures done { machine_of self.new ≡ drained slot (machine_of self.old) }
        ensures account { IsAccountant (size_of self.old) self.new }
        ensures active { self.new.active ≡ self.old.active }
        ensures kept { (pid k : ℕ) → GoneFits pid self.old k → GoneFits pid self.new k }
    {
        let s = &mut self.slots[slot as usize];
        let left = s.drain();
        let after = s.waited_place();
        self.inactive.remove(slot);
        note_waiting(&mut self.waiting, after, slot);
        self.cleaner.insert(slot, left);
    }

    /// An older message of a page was replaced in the segment at a place.
    fn replace_one(&mut self, pid: PageId, place: u64, o: &CacheInfo)
        requires account { IsAccountant (size_of self.old) self.old }
        requires used { IsUsed (machine_of self.old) (lid_of o.now.pointer / size_of self.old) }
        requires gone { GoneFits pid self.old (lid_of o.now.pointer / size_of self.old) }
        ensures done { machine_of self.new ≡ replaced_one (size_of self.old) pid place o.now (machine_of self.old) }
        ensures account { IsAccountant (size_of self.old) self.new }
        ensures kept { (k : ℕ) → GoneFits pid self.old k → GoneFits pid self.new k }
    {
        let slot = o.pointer.lid() / self.size;
        self.replace_in(slot, pid, o.log_size, place);
        if self.slots[slot as usize].is_sparse(self.size) {
            self.drain(slot);
        }
    }

    /// Older messages of a page were replaced in the segment at a place.
    fn replace_all(&mut self, pid: PageId, place: u64, old: &[CacheInfo])
        requires account { IsAccountant (size_of self.old) self.old }
        requires used { All (λ o. IsUsed (machine_of self.old) (lid_of o.pointer / size_of self.old)) old.now }
        requires gone { All (λ o. GoneFits pid self.old (lid_of o.pointer / size_of self.old)) old.now }
        ensures done { machine_of self.new ≡ replaced_all (size_of self.old) pid place old.now (machine_of self.old) }
        ensures account { IsAccountant (size_of self.old) self.new }
    {
        for o in old {
            self.replace_one(pid, place, o);
        }
    }
}

/// The blobs of older messages go with a segment, but for that of the message in it that replaces them.
fn outdate_all(slot: &mut Slot, pointer: DiskPtr, old: &[CacheInfo])
    requires { HasRoomForBlobs (length old.now) slot.old }
    ensures blobs { slot.new.blobs.0 ≡ all_outdated pointer old.now slot.old.blobs.0 }
    ensures rest { slot.new ≡ record slot.old { blobs = slot.new.blobs } }
{
    for o in old {
        slot.outdate(pointer, o.pointer);
    }
}

/// A slot no longer waits for a place, if it waited.
pub(super) fn forget_waiting(waiting: &mut SortedSet<(u64, u64)>, before: Option<u64>, slot: u64)
    ensures keys { waiting.new.0 ≡ not_beside before slot waiting.old.0 }
    ensures room { waiting.new.1 ≡ waiting.old.1 }
{
    if let Some(place) = before {
        waiting.remove((place, slot));
    }
}

/// A slot waits for a place, if it waits.
fn note_waiting(waiting: &mut SortedSet<(u64, u64)>, after: Option<u64>, slot: u64)
    requires { length waiting.old.0 < waiting.old.1 }
    ensures keys { waiting.new.0 ≡ beside after slot waiting.old.0 }
    ensures room { waiting.old.1 ≤ waiting.new.1 }
{
    if let Some(place) = after {
        waiting.insert((place, slot));
    }
}
