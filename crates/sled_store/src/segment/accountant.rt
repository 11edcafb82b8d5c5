//! The accountant: which slot a segment gets, and when a segment's slot is free again (`specs/SegmentStates.antt`).
//!
//! What a call looks for it finds by an index: free slots, and active and waiting ones by their places, in sorted sets,
//! inactive and draining ones in trees over all slots. All room is reserved before anything is changed, so that nothing
//! has changed after `OutOfMemory`.
ghost use Rattle.std.specs.Prelude.{◌≡◌, ◌↔◌, ◌≤ℤ◌, ◌≤◌, ◌+◌, ◌*◌, ◌/◌, ◌^◌, ◌<◌, length, slice_index_or, true, ℕ, [], pos, unsigned_abs, IsTrue, IsOkUnless, OnOk, OnErr, IfOk};
ghost use Rattle.std.specs.List.{All};
ghost use Rattle.sled_codec.specs.Pointers.{lid_of};
ghost use Rattle.sled_store.specs.declared.segment.slot.Slot.{Slot as SlotRecord};
ghost use Rattle.sled_store.specs.SegmentStates.{LiesIn, MayMark, is_active, segment_in, slot_at, unused_machine, next_slot, handed_out, linked, popped, first_page};
ghost use Rattle.sled_store.specs.inside.SegmentStates.{with_free_slot};
ghost use Rattle.sled_store.specs.Accounts.{IsAccountant, machine_of, size_of, MayHandOut, NextAnswers};
ghost use Rattle.sled_store.specs.Accounts.{HasRooms, HasRoomToClean};
ghost use Rattle.sled_store.specs.inside.Accounts.{HasRoomToLink, HasRoomForBlobs, GoneFits};

mod freeing;
mod replacing;
mod starting;

use crate::segment::cleaner::SegmentCleaner;
pub use crate::segment::slot::CacheInfo;
use crate::segment::slot::Slot;
use crate::segment::slot_set::SlotSet;
use crate::segment::sorted::SortedSet;
use crate::{Device, RunningConfig};
use sled_codec::result::{Error, LogOffset, Lsn, PageId, Result};
use sled_codec::serialization::Checksum;
use std::alloc::Global;

/// The segments of a log.
#[derive(Drop)]
pub struct SegmentAccountant {
    size: u64,
    slots: Vec<Slot>,
    // How many of them are not cut off.
    tip: u64,
    // The slots below the tip that no segment is in.
    free: SortedSet<u64>,
    // The active segments, by place and slot.
    active: SortedSet<(u64, u64)>,
    inactive: SlotSet,
    // The slots that are done, by the place of their latest replacement.
    waiting: SortedSet<(u64, u64)>,
    cleaner: SegmentCleaner,
}

impl SegmentAccountant {
    /// Returns the accountant of an empty log file.
    pub fn fresh<D, C>(config: &RunningConfig<D, C>) -> SegmentAccountant
        ensures account { IsAccountant config.now.config.segment_size result }
        ensures machine { machine_of result ≡ unused_machine }
    {
        let alloc = config.alloc();
        let size = config.config.segment_size;
        SegmentAccountant {
            size,
            slots: Vec::new(alloc),
            tip: 0,
            free: SortedSet::new(alloc),
            active: SortedSet::new(alloc),
            inactive: SlotSet::new(alloc),
            waiting: SortedSet::new(alloc),
            cleaner: SegmentCleaner::new(alloc, size),
        }
    }

    /// Hands out a slot for the segment at a place: the lowest free one, or else the one behind the last. Returns its
    /// offset in the file.
    ///
    /// # Errors
    ///
    /// `PlacesUsedUp` where the segment, in the log or in the file, would not end below 2^63, and `OutOfMemory`.
    /// Nothing was changed by either.
    pub fn next<D: Device, C: Checksum>(
        &mut self,
        config: &mut RunningConfig<D, C>,
        lsn: Lsn,
    ) -> Result<LogOffset>
        requires account { IsAccountant config.old.config.segment_size self.old }
        requires place { pos 0 ≤ℤ lsn }
        ensures offset { IfOk result (λ offset. offset ≡ next_slot (machine_of self.old) * config.old.config.segment_size) }
        ensures done { OnOk result (machine_of self.new ≡ handed_out (unsigned_abs lsn) (machine_of self.old)) }
        ensures unchanged { OnErr result (machine_of self.new ≡ machine_of self.old) }
        ensures answers { NextAnswers result (MayHandOut config.old.config.segment_size (unsigned_abs lsn) (machine_of self.old)) }
        ensures account { IsAccountant config.old.config.segment_size self.new }
        ensures config { config.new ≡ config.old }
    {
        let place = lsn.unsigned_abs();
        let slot = self.next_slot();
        if place >= (1 << 63) - self.size || slot * self.size >= (1 << 63) - self.size {
            return Err(Error::PlacesUsedUp);
        }
        if slot as usize >= self.slots.len() {
            self.add_slot(config.alloc())?;
        }
        self.hand_out(slot, place);
        Ok(slot * self.size)
    }

    /// Returns the slot that is handed out next: the lowest free one that is not cut off, or else the one behind all of
    /// them.
    pub fn next_slot(&self) -> u64
        requires { IsAccountant (size_of self.now) self.now }
        ensures slot { result ≡ next_slot (machine_of self.now) }
        ensures within { result ≤ length (machine_of self.now).slots }
        ensures in_reach { result * size_of self.now < 2 ^ 63 }
    {
        self.free.first().unwrap_or(self.tip)
    }

    /// Returns how many slots were ever handed out or found, also those that were cut off since.
    pub fn slot_count(&self) -> u64
        ensures { result ≡ length (machine_of self.now).slots }
    {
        self.slots.len() as u64
    }

    /// Returns the place where the segment in a slot begins, where one lies there. The slots are counted from 0.
    pub fn segment_in(&self, slot: u64) -> Option<u64>
        requires { slot < length (machine_of self.now).slots }
        ensures { result ≡ segment_in (slot_at (machine_of self.now) slot) }
    {
        self.slots[slot as usize].segment()
    }

    /// One more slot, behind all others, and room for it wherever a slot may be noted.
    fn add_slot(&mut self, alloc: Global) -> Result<()>
        requires account { IsAccountant (size_of self.old) self.old }
        requires in_reach { (length (machine_of self.old).slots + 1) * size_of self.old < 2 ^ 63 }
        ensures done { OnOk result (machine_of self.new ≡ with_free_slot (machine_of self.old)) }
        ensures unchanged { OnErr result (machine_of self.new ≡ machine_of self.old) }
        ensures memory { IsOkUnless result Error.OutOfMemory }
        ensures account { IsAccountant (size_of self.old) self.new }
    {
        let count = self.slots.len() + 1;
        self.reserve(count)?;
        self.slots.reserve(1)?;
        let _ = self.slots.push(Slot::new(alloc));
        Ok(())
    }

    /// Makes room for more slots wherever a slot may be noted.
    fn reserve(&mut self, more: usize) -> Result<()>
        ensures machine { machine_of self.new ≡ machine_of self.old }
        ensures slots { self.new.slots ≡ self.old.slots }
        ensures room { OnOk result (HasRooms more self.new) }
        ensures cleaner { OnOk result (HasRoomToClean more self.new.cleaner) }
        ensures memory { IsOkUnless result Error.OutOfMemory }
        ensures account { IsAccountant (size_of self.old) self.old → IsAccountant (size_of self.old) self.new }
    {
        self.free.reserve(more)?;
        self.active.reserve(more)?;
        self.inactive.reserve(more)?;
        self.waiting.reserve(more)?;
        self.cleaner.reserve(more)?;
        Ok(())
    }

    /// Puts the segment at a place in the next slot.
    fn hand_out(&mut self, slot: u64, place: u64)
        requires account { IsAccountant (size_of self.old) self.old }
        requires next { slot ≡ next_slot (machine_of self.old) }
        requires slot { slot < length (machine_of self.old).slots }
        requires place { place < 2 ^ 63 }
        ensures done { machine_of self.new ≡ handed_out place (machine_of self.old) }
        ensures account { IsAccountant (size_of self.old) self.new }
    {
        let s = &mut self.slots[slot as usize];
        s.take(place);
        self.free.remove(slot);
        self.tip = self.tip.max(slot + 1);
        self.active.insert((place, slot));
    }

    /// Whether a message may be marked in place of older ones: its segment is active, and each older one lies in the
    /// segment that its slot holds.
    pub fn can_mark(&self, new: CacheInfo, old: &[CacheInfo]) -> bool
        requires { IsAccountant (size_of self.now) self.now }
        ensures { IsTrue result ↔ MayMark (size_of self.now) (machine_of self.now) new old.now }
    {
        self.lies(&new) && self.is_active(new.pointer.lid() / self.size) && self.all_lie(old)
    }

    /// Whether the segment in a slot is active.
    fn is_active(&self, slot: u64) -> bool
        requires { slot < length (machine_of self.now).slots }
        ensures { result ≡ is_active (slot_at (machine_of self.now) slot).state }
    {
        self.slots[slot as usize].is_active()
    }

    /// Whether each of these messages lies in the segment that its slot holds.
    fn all_lie(&self, infos: &[CacheInfo]) -> bool
        requires { IsAccountant (size_of self.now) self.now }
        ensures { IsTrue result ↔ All (LiesIn (size_of self.now) (machine_of self.now)) infos.now }
    {
        for info in infos {
            if !self.lies(info) {
                return false;
            }
        }
        true
    }

    /// Whether a message lies in the segment that its slot holds.
    fn lies(&self, info: &CacheInfo) -> bool
        requires { IsAccountant (size_of self.now) self.now }
        ensures { IsTrue result ↔ LiesIn (size_of self.now) (machine_of self.now) info.now }
    {
        let slot = info.pointer.lid() / self.size;
        if info.lsn < 0 || slot >= self.slots.len() as u64 {
            return false;
        }
        let place = info.lsn.unsigned_abs() / self.size * self.size;
        self.slots[slot as usize].holds(place)
    }

    /// Notes that a message of a page is linked to what the page has.
    ///
    /// # Errors
    ///
    /// `OutOfMemory`: nothing was changed.
    pub fn mark_link<D: Device, C: Checksum>(
        &mut self,
        config: &mut RunningConfig<D, C>,
        pid: PageId,
        info: CacheInfo,
    ) -> Result<()>
        requires account { IsAccountant config.old.config.segment_size self.old }
        requires may { MayMark config.old.config.segment_size (machine_of self.old) info [] }
        ensures done { OnOk result (machine_of self.new ≡ linked config.old.config.segment_size pid info (machine_of self.old)) }
        ensures unchanged { OnErr result (machine_of self.new ≡ machine_of self.old) }
        ensures memory { IsOkUnless result Error.OutOfMemory }
        ensures account { IsAccountant config.old.config.segment_size self.new }
        ensures config { config.new ≡ config.old }
    {
        let _ = config;
        self.reserve_slot(info.pointer.lid() / self.size, 0)?;
        self.link(pid, info);
        Ok(())
    }

    /// Makes room in a slot for a page and for `blobs` blobs.
    fn reserve_slot(&mut self, slot: u64, blobs: usize) -> Result<()>
        requires account { IsAccountant (size_of self.old) self.old }
        requires slot { slot < length (machine_of self.old).slots }
        ensures machine { machine_of self.new ≡ machine_of self.old }
        ensures account { IsAccountant (size_of self.old) self.new }
        ensures link { OnOk result ((d : SlotRecord) → HasRoomToLink (slice_index_or self.new.slots.items slot d)) }
        ensures gone { (pid k : ℕ) → GoneFits pid self.old k → GoneFits pid self.new k }
        ensures blobs { OnOk result ((d : SlotRecord) → HasRoomForBlobs blobs (slice_index_or self.new.slots.items slot d)) }
        ensures memory { IsOkUnless result Error.OutOfMemory }
    {
        let s = &mut self.slots[slot as usize];
        s.reserve(blobs)?;
        Ok(())
    }

    /// Links a page to an active segment.
    fn link(&mut self, pid: PageId, info: CacheInfo)
        requires account { IsAccountant (size_of self.old) self.old }
        requires slot { lid_of info.pointer / size_of self.old < length (machine_of self.old).slots }
        requires active { is_active (slot_at (machine_of self.old) (lid_of info.pointer / size_of self.old)).state ≡ true }
        requires room { (d : SlotRecord) → HasRoomToLink (slice_index_or self.old.slots.items (lid_of info.pointer / size_of self.old) d) }
        ensures done { machine_of self.new ≡ linked (size_of self.old) pid info (machine_of self.old) }
        ensures account { IsAccountant (size_of self.old) self.new }
        ensures blobs { (n : ℕ) (d : SlotRecord) → HasRoomForBlobs n (slice_index_or self.old.slots.items (lid_of info.pointer / size_of self.old) d)
            → HasRoomForBlobs n (slice_index_or self.new.slots.items (lid_of info.pointer / size_of self.old) d) }
        ensures gone { (page k : ℕ) → GoneFits page self.old k → GoneFits page self.new k }
    {
        let s = &mut self.slots[(info.pointer.lid() / self.size) as usize];
        s.link(pid, info.log_size);
    }

    /// Returns a page that is to be written again, so that its segment comes free, with the offset of its slot.
    pub fn clean_pop(&mut self) -> Option<(PageId, LogOffset)>
        requires { IsAccountant (size_of self.old) self.old }
        ensures page { result ≡ first_page (size_of self.old) (machine_of self.old).cleaner }
        ensures cleaner { (machine_of self.new).cleaner ≡ popped (machine_of self.old).cleaner }
        ensures slots { (machine_of self.new).slots ≡ (machine_of self.old).slots }
        ensures tip { (machine_of self.new).tip ≡ (machine_of self.old).tip }
        ensures account { IsAccountant (size_of self.old) self.new }
    {
        self.cleaner.pop()
    }
}
