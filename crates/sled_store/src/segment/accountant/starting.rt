//! An accountant on a log file that a recovery left (`specs/Started.antt`, `specs/inside/Starting.antt`).
//!
//! First the slots are made, each with the segment that lies there; then each page is linked to the slots of its
//! entries; then the slots are noted in the indexes. The file is written once there is memory for all of it.
ghost use Rattle.std.specs.Prelude.{◌≡◌, ◌+◌, ◌*◌, ◌^◌, ◌<◌, ℕ, [], length, map, take, IfOk, IfSome, OnOk, IsOkUnless};
ghost use Rattle.std.specs.BTreeMap.{get};
ghost use Rattle.std.specs.List.{All, range_with_len};
ghost use Rattle.std.specs.Ordering.{nat_cmp};
ghost use Rattle.sled_codec.specs.Snapshots.{model_of, page_of};
ghost use Rattle.sled_store.specs.Device.{state_of};
ghost use Rattle.sled_store.specs.Script.{Performs, after_all};
ghost use Rattle.sled_store.specs.Begin.{entries_in, entries_of, slot_of, is_active, IsStartable, IsInReach};
ghost use Rattle.sled_store.specs.SegmentStates.{unused_machine};
ghost use Rattle.sled_store.specs.Accounts.{IsAccountant, machine_of, size_of, slot_state, HasRoomToDrain, HasRooms};
ghost use Rattle.sled_store.specs.Started.{found, started, FoundOrRefuses};
ghost use Rattle.sled_store.specs.inside.Starting.{begun_slot, entry_linked, entries_linked, pages_linked, FillsSlots, AreNoted};

use crate::segment::MAX_MSG_HEADER_LEN;
use crate::segment::accountant::SegmentAccountant;
use crate::segment::slot::{Slot, State};
use crate::segment::slot_table::SlotTable;
use crate::segment::start::{check_snapshot, fill_unused};
use crate::{Device, RunningConfig};
use sled_codec::result::{Error, LogOffset, PageId, Result};
use sled_codec::serialization::Checksum;
use sled_codec::serialization::snapshot::{Entry, PageState, Snapshot};
use std::alloc::Global;

impl SegmentAccountant {
    /// Starts on what a recovery left: a slot that the snapshot has entries in is inactive, the active one active, each with
    /// its pages and what they sum up to; slots that it doesn't use are filled with zeros, in ascending order, and synced,
    /// and are free. While more than one is free and the last slot of the file is, that is cut off, and the log synced.
    ///
    /// # Errors
    ///
    /// `Corruption` where no log can begin from the snapshot, whatever its places are; `PlacesUsedUp` exactly where one can, but one
    /// more slot of the file, or the segment in which the log goes on, would not end below 2^63: nothing was written then.
    /// `Io` where the device failed, and `OutOfMemory`.
    pub fn start<D: Device, C: Checksum>(
        config: &mut RunningConfig<D, C>,
        snapshot: &Snapshot,
    ) -> Result<SegmentAccountant>
        ensures account { IfOk result (λ a. IsAccountant config.old.config.segment_size a) }
        ensures machine { let size = config.old.config.segment_size in
            IfOk result (λ a. machine_of a ≡ (started size (length (state_of (D.trace config.old.device)).log.bytes) (model_of snapshot.now)).machine) }
        ensures made { let size = config.old.config.segment_size in
            OnOk result (D.trace config.new.device ≡ after_all
            (started size (length (state_of (D.trace config.old.device)).log.bytes) (model_of snapshot.now)).calls (D.trace config.old.device)) }
        ensures calls { let size = config.old.config.segment_size in
            Performs (started size (length (state_of (D.trace config.old.device)).log.bytes) (model_of snapshot.now)).calls
            (D.trace config.old.device) (D.trace config.new.device) }
        ensures answers { let size = config.old.config.segment_size in let len = length (state_of (D.trace config.old.device)).log.bytes in
            FoundOrRefuses result (IsStartable size len (model_of snapshot.now)) (IsInReach size len (model_of snapshot.now))
            (D.trace config.new.device ≡ D.trace config.old.device) (D.faults config.old.device) (D.faults config.new.device) }
        ensures config { config.new.config ≡ config.old.config }
        ensures checksum { config.new.checksum ≡ config.old.checksum }
    {
        let size = config.config.segment_size;
        let len = config.device.len()?;
        let (table, slots) = match check_snapshot(config.alloc(), size, len, snapshot) {
            Ok(check_snapshot) => check_snapshot,
            Err(e) => return Err(e),
        };
        let mut accountant = SegmentAccountant::fresh(config);
        match accountant.find(config.alloc(), &table, slots, snapshot) {
            Ok(()) => {}
            Err(e) => return Err(e),
        }
        match fill_unused(config, &table, slots) {
            Ok(_) => {}
            Err(e) => return Err(e),
        }
        match accountant.cut_off(&mut config.device) {
            Ok(()) => Ok(accountant),
            Err(e) => Err(e),
        }
    }

    /// Takes over what a snapshot has in the slots of a file.
    fn find(
        &mut self,
        alloc: Global,
        table: &SlotTable,
        slots: u64,
        snapshot: &Snapshot,
    ) -> Result<()>
        requires account { IsAccountant (size_of self.old) self.old }
        requires unused { machine_of self.old ≡ unused_machine }
        requires fills { FillsSlots (size_of self.old) slots (model_of snapshot.now) table.now }
        ensures machine { OnOk result (machine_of self.new ≡ found (size_of self.old) slots (model_of snapshot.now)) }
        ensures account { OnOk result (IsAccountant (size_of self.old) self.new) }
        ensures memory { IsOkUnless result Error.OutOfMemory }
    {
        self.reserve(slots as usize)?;
        let mut found = begun_slots(alloc, self.size, table, slots, snapshot.active_segment)?;
        link_pages(&mut found, self.size, &snapshot.pt)?;
        self.slots = found;
        self.tip = slots;
        self.note_all();
        Ok(())
    }

    /// Notes each slot in the index that it belongs to.
    fn note_all(&mut self)
        requires room { HasRooms (length self.old.slots.items) self.old }
        requires empty { AreNoted [] self.old.free.0 self.old.active.0 self.old.inactive.0 }
        ensures noted { AreNoted (map slot_state self.old.slots.items) self.new.free.0 self.new.active.0 self.new.inactive.0 }
        ensures room { HasRooms (length self.old.slots.items) self.new }
        ensures rest { self.new ≡ record self.old { free = self.new.free; active = self.new.active; inactive = self.new.inactive } }
    {
        for slot in 0..self.slots.len() {
            self.note(slot);
        }
    }

    /// Notes one more slot.
    fn note(&mut self, slot: usize)
        requires slot { slot < length self.old.slots.items }
        requires room { HasRooms (length self.old.slots.items) self.old }
        requires noted { AreNoted (take slot (map slot_state self.old.slots.items)) self.old.free.0 self.old.active.0 self.old.inactive.0 }
        ensures noted { AreNoted (take (slot + 1) (map slot_state self.old.slots.items)) self.new.free.0 self.new.active.0 self.new.inactive.0 }
        ensures room { HasRooms (length self.old.slots.items) self.new }
        ensures rest { self.new ≡ record self.old { free = self.new.free; active = self.new.active; inactive = self.new.inactive } }
    {
        let s = &self.slots[slot];
        match s.state {
            State::Free => self.free.insert(slot as u64),
            State::Active => self.active.insert((s.lsn, slot as u64)),
            State::Inactive => self.inactive.insert(slot as u64),
            State::Draining => {}
        }
    }
}

/// The slots of a file, each with the segment that a snapshot has there, and with no page yet.
fn begun_slots(
    alloc: Global,
    size: u64,
    table: &SlotTable,
    slots: u64,
    active: Option<LogOffset>,
) -> Result<Vec<Slot>>
    requires some { 0 < size }
    requires in_reach { (k : ℕ) → IfSome (get nat_cmp table.now.held k) (λ v. v.0 * size < 2 ^ 63) }
    ensures slots { IfOk result (λ r. map slot_state r.items ≡ map (λ k. begun_slot size active k (get nat_cmp table.now.held k)) (range_with_len 0 slots)) }
    ensures room { IfOk result (λ r. All HasRoomToDrain r.items) }
    ensures memory { IsOkUnless result Error.OutOfMemory }
{
    let mut begun = Vec::new(alloc);
    for slot in 0..slots {
        begun.push(begun_slot(alloc, size, table, slot, active))?;
    }
    Ok(begun)
}

/// A slot with the segment that a snapshot has there, and with no page yet.
fn begun_slot(
    alloc: Global,
    size: u64,
    table: &SlotTable,
    slot: u64,
    active: Option<LogOffset>,
) -> Slot
    requires some { 0 < size }
    requires in_reach { IfSome (get nat_cmp table.now.held slot) (λ v. v.0 * size < 2 ^ 63) }
    ensures state { slot_state result ≡ begun_slot size active slot (get nat_cmp table.now.held slot) }
    ensures room { HasRoomToDrain result }
{
    let mut begun = Slot::new(alloc);
    if let Some(&(number, _)) = table.held.get(&slot) {
        begun.take(number * size);
        if !is_active_slot(size, slot, active) {
            begun.deactivate();
        }
    }
    begun
}

/// Whether a slot is the active one.
fn is_active_slot(size: u64, slot: u64, active: Option<LogOffset>) -> bool
    requires { 0 < size }
    ensures { result ≡ is_active size active slot }
{
    match active {
        Some(offset) => offset / size == slot,
        None => false,
    }
}

/// Links pages to the slots of their entries.
fn link_pages(slots: &mut Vec<Slot>, size: u64, pages: &[PageState]) -> Result<()>
    requires some { 0 < size }
    requires placed { All (λ e. slot_of size e < length slots.old.items) (entries_of (map page_of pages.now)) }
    requires room { All HasRoomToDrain slots.old.items }
    ensures slots { OnOk result (map slot_state slots.new.items ≡ pages_linked size 0 (map page_of pages.now) (map slot_state slots.old.items)) }
    ensures room { OnOk result (All HasRoomToDrain slots.new.items) }
    ensures memory { IsOkUnless result Error.OutOfMemory }
{
    for pid in 0..pages.len() {
        link_page(slots, size, pid as u64, &pages[pid])?;
    }
    Ok(())
}

/// Links a page to the slots of its entries.
fn link_page(slots: &mut Vec<Slot>, size: u64, pid: PageId, page: &PageState) -> Result<()>
    requires some { 0 < size }
    requires placed { All (λ e. slot_of size e < length slots.old.items) (entries_in (page_of page.now)) }
    requires room { All HasRoomToDrain slots.old.items }
    ensures slots { OnOk result (map slot_state slots.new.items ≡ entries_linked size pid (entries_in (page_of page.now)) (map slot_state slots.old.items)) }
    ensures room { OnOk result (All HasRoomToDrain slots.new.items) }
    ensures memory { IsOkUnless result Error.OutOfMemory }
{
    match page {
        PageState::Present { base, frags } => {
            link(slots, size, pid, base)?;
            link_all(slots, size, pid, frags)
        }
        PageState::Free(place, pointer) => {
            link(
                slots,
                size,
                pid,
                &(*place, *pointer, MAX_MSG_HEADER_LEN as u64),
            )
        }
        PageState::Uninitialized => Ok(()),
    }
}

/// Links a page to the slots of these entries.
fn link_all(slots: &mut Vec<Slot>, size: u64, pid: PageId, entries: &[Entry]) -> Result<()>
    requires some { 0 < size }
    requires placed { All (λ e. slot_of size e < length slots.old.items) entries.now }
    requires room { All HasRoomToDrain slots.old.items }
    ensures slots { OnOk result (map slot_state slots.new.items ≡ entries_linked size pid entries.now (map slot_state slots.old.items)) }
    ensures room { OnOk result (All HasRoomToDrain slots.new.items) }
    ensures memory { IsOkUnless result Error.OutOfMemory }
{
    for entry in entries {
        link(slots, size, pid, entry)?;
    }
    Ok(())
}

/// Links a page to the slot of an entry.
fn link(slots: &mut Vec<Slot>, size: u64, pid: PageId, entry: &Entry) -> Result<()>
    requires some { 0 < size }
    requires placed { slot_of size entry.now < length slots.old.items }
    requires room { All HasRoomToDrain slots.old.items }
    ensures slots { OnOk result (map slot_state slots.new.items ≡ entry_linked size pid entry.now (map slot_state slots.old.items)) }
    ensures room { OnOk result (All HasRoomToDrain slots.new.items) }
    ensures memory { IsOkUnless result Error.OutOfMemory }
{
    let (_, pointer, len) = *entry;
    let s = &mut slots[(pointer.lid() / size) as usize];
    s.reserve(0)?;
    s.link(pid, len);
    Ok(())
}
