//! Segments that are no longer active, and slots that come free (`specs/SegmentStates.antt`, `specs/Stabilizing.antt`).
//!
//! Each function makes one step of the machine: its state afterwards, and the calls of the device that were due, in
//! order. Where the device fails, one of them was due, and the first of them were made.
ghost use Rattle.std.specs.Prelude.{◌≡◌, ◌≢◌, ◌&&◌, ◌↔◌, ◌<◌, ℤ, not, true, slice_get, Some, length, IsTrue, OnOk, OnErr, IfErr, []};
ghost use Rattle.std.specs.BTreeMap.{is_at};
ghost use Rattle.std.specs.Set.{remove_key};
ghost use Rattle.sled_store.specs.Blobs.{RemoveAnswers, removing_blobs};
ghost use Rattle.sled_store.specs.Script.{Performs, after_all};
ghost use Rattle.sled_store.specs.SegmentStates.{slot_at, active_place, by_place, is_due, with_slot, inactive_slot, stabilized, deactivated, freed, tested, freed_if_done, is_done, is_active_place, is_wasteful, drained_if_sparse, drained_if_wasteful};
ghost use Rattle.sled_store.specs.inside.Stabilizing.{not_beside, slots_at, waiting_freed, MakesStep};
ghost use Rattle.sled_store.specs.Stabilizing.{cut_back, emptied, HasEnded, MayCut, MovesSlots, shorter, cutting_last};
ghost use Rattle.sled_store.specs.Accounts.{IsAccountant, machine_of, size_of};

use crate::segment::accountant::SegmentAccountant;
use crate::segment::accountant::replacing::forget_waiting;
use crate::segment::sorted::SortedSet;
use crate::{Device, RunningConfig};
use sled_codec::result::{Error, Lsn, Result};
use sled_codec::serialization::Checksum;

impl SegmentAccountant {
    /// Deactivates the active segments that a mark leaves behind, the lowest first: their blobs go, slots that waited for
    /// them are freed, and segments that hold little are drained.
    ///
    /// # Errors
    ///
    /// `Io` where the device failed, in one of the calls that were due: the first of them were made, and the accountant stays
    /// one, in a state on the way. Where none was due it doesn't fail.
    pub fn stabilize<D: Device, C: Checksum>(
        &mut self,
        config: &mut RunningConfig<D, C>,
        mark: Lsn,
    ) -> Result<()>
        requires account { IsAccountant config.old.config.segment_size self.old }
        ensures done { OnOk result (machine_of self.new ≡ (stabilized config.old.config.segment_size mark (machine_of self.old)).machine) }
        ensures made { OnOk result (D.trace config.new.device
            ≡ after_all (stabilized config.old.config.segment_size mark (machine_of self.old)).calls (D.trace config.old.device)) }
        ensures calls { Performs (stabilized config.old.config.segment_size mark (machine_of self.old)).calls
            (D.trace config.old.device) (D.trace config.new.device) }
        ensures moves { MovesSlots config.old.config.segment_size mark result (machine_of self.old) (machine_of self.new)
            (D.trace config.old.device) (D.trace config.new.device) }
        ensures due { OnErr result ((stabilized config.old.config.segment_size mark (machine_of self.old)).calls ≢ []) }
        ensures answers { RemoveAnswers result (D.faults config.old.device) (D.faults config.new.device) }
        ensures memory { IfErr result (λ e. e ≢ Error.OutOfMemory) }
        ensures account { IsAccountant config.old.config.segment_size self.new }
        ensures config { config.new.config ≡ config.old.config }
        ensures checksum { config.new.checksum ≡ config.old.checksum }
    {
        if mark < 0 {
            return Ok(());
        }
        let limit = mark.unsigned_abs() / self.size * self.size;
        while let Some((place, slot)) = self.active.first() {
            if place + self.size > limit {
                return Ok(());
            }
            self.deactivate(&mut config.device, place, slot)?;
        }
        Ok(())
    }

    /// Deactivates the lowest active segment.
    fn deactivate<D: Device>(&mut self, device: &mut D, place: u64, slot: u64) -> Result<()>
        requires account { IsAccountant (size_of self.old) self.old }
        requires slot { slot < length (machine_of self.old).slots }
        requires active { active_place (slot_at (machine_of self.old) slot) ≡ Some place }
        ensures step { MakesStep (size_of self.old) (deactivated (size_of self.old) (place, slot) (machine_of self.old)) result
            (D.trace device.old) (D.trace device.new) (D.faults device.old) (D.faults device.new) self.new }
        ensures moves { (mark : ℤ) → is_due (size_of self.old) mark place ≡ true
            → MovesSlots (size_of self.old) mark result (machine_of self.old) (machine_of self.new) (D.trace device.old) (D.trace device.new) }
        ensures active { OnOk result (self.new.active.0 ≡ remove_key (is_at (by_place (place, slot))) self.old.active.0) }
    {
        let s = &self.slots[slot as usize];
        remove_blobs(device, s.blobs.keys())?;
        self.make_inactive(place, slot);
        self.free_waiting(device, place)?;
        self.test(device, slot)?;
        self.drain_if_wasteful();
        Ok(())
    }

    /// The segment at a place is no longer active, and its blobs are gone.
    fn make_inactive(&mut self, place: u64, slot: u64)
        requires account { IsAccountant (size_of self.old) self.old }
        requires slot { slot < length (machine_of self.old).slots }
        requires active { active_place (slot_at (machine_of self.old) slot) ≡ Some place }
        ensures machine { machine_of self.new ≡ with_slot slot (inactive_slot (slot_at (machine_of self.old) slot)) (machine_of self.old) }
        ensures account { IsAccountant (size_of self.old) self.new }
        ensures active { self.new.active.0 ≡ remove_key (is_at (by_place (place, slot))) self.old.active.0 }
    {
        let s = &mut self.slots[slot as usize];
        s.deactivate();
        self.active.remove((place, slot));
        self.inactive.insert(slot);
    }

    /// Frees the slots that waited for the segment at a place.
    fn free_waiting<D: Device>(&mut self, device: &mut D, place: u64) -> Result<()>
        requires { IsAccountant (size_of self.old) self.old }
        ensures step { MakesStep (size_of self.old) (waiting_freed (size_of self.old) place (machine_of self.old)) result
            (D.trace device.old) (D.trace device.new) (D.faults device.old) (D.faults device.new) self.new }
        ensures moves { (mark : ℤ) → is_due (size_of self.old) mark place ≡ true
            → MovesSlots (size_of self.old) mark result (machine_of self.old) (machine_of self.new) (D.trace device.old) (D.trace device.new) }
        ensures active { self.new.active ≡ self.old.active }
        ensures count { OnOk result (length (machine_of self.new).slots ≡ length (machine_of self.old).slots) }
    {
        while let Some(slot) = first_at(&self.waiting, place) {
            self.free(device, slot)?;
        }
        Ok(())
    }

    /// Drains a slot that holds little, and frees one that is done, unless its free has to wait.
    fn test<D: Device>(&mut self, device: &mut D, slot: u64) -> Result<()>
        requires account { IsAccountant (size_of self.old) self.old }
        requires slot { slot < length (machine_of self.old).slots }
        ensures step { MakesStep (size_of self.old) (tested (size_of self.old) slot (machine_of self.old)) result
            (D.trace device.old) (D.trace device.new) (D.faults device.old) (D.faults device.new) self.new }
        ensures moves { (mark : ℤ) → MovesSlots (size_of self.old) mark result (machine_of self.old) (machine_of self.new)
            (D.trace device.old) (D.trace device.new) }
        ensures active { self.new.active ≡ self.old.active }
    {
        self.drain_if_sparse(slot);
        self.free_if_done(device, slot)
    }

    /// Drains an inactive slot that holds little.
    fn drain_if_sparse(&mut self, slot: u64)
        requires account { IsAccountant (size_of self.old) self.old }
        requires slot { slot < length (machine_of self.old).slots }
        ensures machine { machine_of self.new ≡ drained_if_sparse (size_of self.old) slot (machine_of self.old) }
        ensures account { IsAccountant (size_of self.old) self.new }
        ensures active { self.new.active ≡ self.old.active }
    {
        let s = &self.slots[slot as usize];
        if !s.is_sparse(self.size) {
            return;
        }
        self.drain(slot);
    }

    /// Frees a slot that is done, unless its free has to wait.
    fn free_if_done<D: Device>(&mut self, device: &mut D, slot: u64) -> Result<()>
        requires account { IsAccountant (size_of self.old) self.old }
        requires slot { slot < length (machine_of self.old).slots }
        ensures step { MakesStep (size_of self.old) (freed_if_done (size_of self.old) slot (machine_of self.old)) result
            (D.trace device.old) (D.trace device.new) (D.faults device.old) (D.faults device.new) self.new }
        ensures moves { (mark : ℤ) → MovesSlots (size_of self.old) mark result (machine_of self.old) (machine_of self.new)
            (D.trace device.old) (D.trace device.new) }
        ensures active { self.new.active ≡ self.old.active }
    {
        if !self.may_be_freed(slot) {
            return Ok(());
        }
        self.free(device, slot)
    }

    /// Whether a slot is done, and its free has not to wait.
    fn may_be_freed(&self, slot: u64) -> bool
        requires account { IsAccountant (size_of self.now) self.now }
        requires slot { slot < length (machine_of self.now).slots }
        ensures { result ≡ (is_done (slot_at (machine_of self.now) slot)
            && not (is_active_place (machine_of self.now) (slot_at (machine_of self.now) slot).latest)) }
    {
        let s = &self.slots[slot as usize];
        s.is_done() && !self.is_active_place(s.latest)
    }

    /// Whether a place is that of an active segment.
    fn is_active_place(&self, place: Option<u64>) -> bool
        requires { IsAccountant (size_of self.now) self.now }
        ensures { result ≡ is_active_place (machine_of self.now) place }
    {
        match place {
            Some(place) => first_at(&self.active, place).is_some(),
            None => false,
        }
    }

    /// Frees a slot that is done, and cuts off free slots at the end of the file while another one is left.
    fn free<D: Device>(&mut self, device: &mut D, slot: u64) -> Result<()>
        requires account { IsAccountant (size_of self.old) self.old }
        requires slot { slot < length (machine_of self.old).slots }
        requires done { is_done (slot_at (machine_of self.old) slot) ≡ true }
        ensures step { MakesStep (size_of self.old) (freed (size_of self.old) slot (machine_of self.old)) result
            (D.trace device.old) (D.trace device.new) (D.faults device.old) (D.faults device.new) self.new }
        ensures moves { (mark : ℤ) → HasEnded (size_of self.old) mark (machine_of self.old) (slot_at (machine_of self.old) slot).latest
            → MovesSlots (size_of self.old) mark result (machine_of self.old) (machine_of self.new) (D.trace device.old) (D.trace device.new) }
        ensures active { self.new.active ≡ self.old.active }
        ensures waiting { self.new.waiting.0 ≡ not_beside (slot_at (machine_of self.old) slot).latest slot self.old.waiting.0 }
    {
        self.empty(slot);
        self.cut_off(device)
    }

    /// Takes the segment out of a slot that is done.
    fn empty(&mut self, slot: u64)
        requires account { IsAccountant (size_of self.old) self.old }
        requires slot { slot < length (machine_of self.old).slots }
        requires done { is_done (slot_at (machine_of self.old) slot) ≡ true }
        ensures machine { machine_of self.new ≡ emptied slot (machine_of self.old) }
        ensures account { IsAccountant (size_of self.old) self.new }
        ensures active { self.new.active ≡ self.old.active }
        ensures waiting { self.new.waiting.0 ≡ not_beside (slot_at (machine_of self.old) slot).latest slot self.old.waiting.0 }
    {
        let s = &mut self.slots[slot as usize];
        let latest = s.latest;
        s.free();
        forget_waiting(&mut self.waiting, latest, slot);
        self.cleaner.remove(slot);
        self.free.insert(slot);
    }

    /// Cuts off free slots at the end of the file while another one is left.
    pub(super) fn cut_off<D: Device>(&mut self, device: &mut D) -> Result<()>
        requires { IsAccountant (size_of self.old) self.old }
        ensures step { MakesStep (size_of self.old) (cut_back (size_of self.old) (machine_of self.old)) result
            (D.trace device.old) (D.trace device.new) (D.faults device.old) (D.faults device.new) self.new }
        ensures moves { (mark : ℤ) → MovesSlots (size_of self.old) mark result (machine_of self.old) (machine_of self.new)
            (D.trace device.old) (D.trace device.new) }
        ensures active { self.new.active ≡ self.old.active }
        ensures waiting { self.new.waiting ≡ self.old.waiting }
    {
        while self.may_cut() {
            self.cut_last(device)?;
        }
        Ok(())
    }

    /// Whether the last slot is free, and another one is.
    fn may_cut(&self) -> bool
        requires { IsAccountant (size_of self.now) self.now }
        ensures { IsTrue result ↔ MayCut (machine_of self.now) }
    {
        if self.free.len() <= 1 {
            return false;
        }
        match self.free.last() {
            Some(last) => last == self.tip - 1,
            None => false,
        }
    }

    /// Cuts off the last slot, and syncs that.
    fn cut_last<D: Device>(&mut self, device: &mut D) -> Result<()>
        requires account { IsAccountant (size_of self.old) self.old }
        requires may { MayCut (machine_of self.old) }
        ensures machine { machine_of self.new ≡ shorter (machine_of self.old) }
        ensures made { OnOk result (D.trace device.new ≡ after_all (cutting_last (size_of self.old) (machine_of self.old)) (D.trace device.old)) }
        ensures calls { Performs (cutting_last (size_of self.old) (machine_of self.old)) (D.trace device.old) (D.trace device.new) }
        ensures answers { RemoveAnswers result (D.faults device.old) (D.faults device.new) }
        ensures memory { IfErr result (λ e. e ≢ Error.OutOfMemory) }
        ensures account { IsAccountant (size_of self.old) self.new }
        ensures active { self.new.active ≡ self.old.active }
        ensures waiting { self.new.waiting ≡ self.old.waiting }
    {
        self.tip -= 1;
        self.free.remove(self.tip);
        device.cut(self.tip * self.size)?;
        device.sync()?;
        Ok(())
    }

    /// Drains the highest inactive segment where that is wasteful.
    fn drain_if_wasteful(&mut self)
        requires { IsAccountant (size_of self.old) self.old }
        ensures machine { machine_of self.new ≡ drained_if_wasteful (machine_of self.old) }
        ensures account { IsAccountant (size_of self.old) self.new }
        ensures active { self.new.active ≡ self.old.active }
    {
        if !self.is_wasteful() {
            return;
        }
        match self.inactive.last() {
            Some(slot) => self.drain(slot),
            None => {}
        }
    }

    /// Whether more than five segments are inactive, and the free slots are at least half of the number of free and inactive
    /// ones plus one.
    fn is_wasteful(&self) -> bool
        requires { IsAccountant (size_of self.now) self.now }
        ensures { result ≡ is_wasteful (machine_of self.now).slots }
    {
        let free = self.free.len() + (self.slots.len() - self.tip as usize);
        let inactive = self.inactive.len();
        inactive > 5 && free as u128 * 100 / (1 + free + inactive) as u128 >= 50
    }
}

/// Returns the first slot that is there behind a place.
fn first_at(slots: &SortedSet<(u64, u64)>, place: u64) -> Option<u64>
    ensures { result ≡ slice_get (slots_at place slots.now.0) 0 }
{
    let at = slots.place((place, 0));
    match slots.get(at) {
        Some((other, slot)) => { if other == place { Some(slot) } else { None } }
        None => None,
    }
}

/// Removes the blobs of these places.
fn remove_blobs<D: Device>(device: &mut D, places: &[i64]) -> Result<()>
    ensures made { OnOk result (D.trace device.new ≡ after_all (removing_blobs places.now) (D.trace device.old)) }
    ensures calls { Performs (removing_blobs places.now) (D.trace device.old) (D.trace device.new) }
    ensures due { OnErr result (removing_blobs places.now ≢ []) }
    ensures answers { RemoveAnswers result (D.faults device.old) (D.faults device.new) }
    ensures memory { IfErr result (λ e. e ≢ Error.OutOfMemory) }
{
    for place in places {
        device.blob_remove(*place)?;
    }
    Ok(())
}
