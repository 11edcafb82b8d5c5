//! The slots of a file and what a snapshot has in them, gone through entry by entry.
//!
//! `specs/SlotTables.antt` says what a book knows of the entries that it was given.
ghost use Rattle.std.specs.Prelude.{◌≡◌, ◌≢◌, ◌↔◌, ◌/◌, ◌-◌, ◌<◌, ◌^◌, ◌++◌, ◌∷◌, [], ℕ, List, map, is_some, IsTrue, IfSome, OnOk, IfErr};
ghost use Rattle.std.specs.BTreeMap.{get};
ghost use Rattle.std.specs.BTreeSet.{contains};
ghost use Rattle.std.specs.List.{All};
ghost use Rattle.std.specs.Ordering.{nat_cmp};
ghost use Rattle.sled_codec.specs.Errors.{IsCorruption, IsDecodeError};
ghost use Rattle.sled_codec.specs.Snapshots.{Entry, Uninitialized, page_of};
ghost use Rattle.sled_store.specs.Begin.{entries_in, entries_of, IsPlacedIn, MayBeActive};
ghost use Rattle.sled_store.specs.SlotTables.{IsSlotTable, AreFit, active_entry};
ghost use Rattle.sled_store.specs.inside.SlotTables.{sum_in};

use crate::segment::{MAX_MSG_HEADER_LEN, may_begin};
use sled_codec::result::{DiskPtr, Error, LogOffset, Result};
use sled_codec::serialization::snapshot::{Entry, PageState};
use std::alloc::Global;
use std::collections::{BTreeMap, BTreeSet};

/// Within what the entries of a snapshot lie.
#[derive(Debug, Clone, Copy)]
pub(crate) struct Limits {
    /// The size of segments.
    pub(crate) size: u64,
    /// How many slots the file has.
    pub(crate) slots: u64,
    /// The stable place.
    pub(crate) stable: u64,
    ghost some: { 0 < size },
    ghost small: { stable < 2 ^ 63 },
}

impl Limits {
    /// Whether an entry lies within them.
    fn hold(&self, entry: &Entry) -> bool
        ensures { IsTrue result ↔ IsPlacedIn self.now.size self.now.slots self.now.stable entry.now }
    {
        let (place, pointer, len) = *entry;
        if place < 0 {
            return false;
        }
        let place = place.unsigned_abs();
        let offset = pointer.lid() % self.size;
        place < self.stable
            && offset == place % self.size
            && pointer.lid() / self.size < self.slots
            && may_begin(pointer.lid(), self.size)
            && len <= self.size - offset
    }

    /// Whether a slot of the file may be the active one.
    fn may_be_active(&self, active: LogOffset) -> bool
        ensures { IsTrue result ↔ MayBeActive self.now.size self.now.slots self.now.stable active }
    {
        active % self.size == 0
            && active / self.size < self.slots
            && may_begin(self.stable, self.size)
    }
}

/// Which slots are in use, and by which segments.
#[derive(Drop)]
pub struct SlotTable {
    /// By slot, the number of the segment in it and what its entries sum up to.
    pub held: BTreeMap<u64, (u64, u64)>,
    /// The numbers of these segments.
    pub numbers: BTreeSet<u64>,
}

impl SlotTable {
    /// It knows of no entry.
    pub(crate) fn new(alloc: Global) -> SlotTable
        ensures { (size : ℕ) → IsSlotTable size result [] }
    {
        SlotTable {
            held: BTreeMap::new(alloc),
            numbers: BTreeSet::new(alloc),
        }
    }

    /// Whether a slot is in use.
    pub(crate) fn has(&self, slot: u64) -> bool
        ensures { result ≡ is_some (get nat_cmp self.now.held slot) }
    {
        self.held.contains_key(&slot)
    }

    /// What the entries in a slot sum up to, unless that slot is of another segment or this segment lies in
    /// another slot.
    fn sum_in(&self, slot: u64, number: u64) -> Option<u64>
        ensures { result ≡ sum_in (get nat_cmp self.now.held slot) (contains nat_cmp self.now.numbers number) number }
    {
        match self.held.get(&slot) {
            Some(&(segment, sum)) => { if segment == number { Some(sum) } else { None } }
            None => {
                if self.numbers.contains(&number) {
                    None
                } else {
                    Some(0)
                }
            }
        }
    }

    /// One more entry. `Corruption` comes where it can't lie beside the others.
    fn note(&mut self, size: u64, entry: &Entry) -> Result<()>
        requires { 0 < size }
        ensures ok { (es : List Entry) → IsSlotTable size self.old es → OnOk result (IsSlotTable size self.new (es ++ entry.now ∷ [])) }
        ensures corrupt { (es : List Entry) → IsSlotTable size self.old es → IsCorruption result → AreFit size (es ++ entry.now ∷ []) → ⊥ }
        ensures errors { IfErr result IsDecodeError }
    {
        let (place, pointer, len) = *entry;
        let slot = pointer.lid() / size;
        let number = place.unsigned_abs() / size;
        let Some(sum) = self.sum_in(slot, number) else {
            return Err(Error::Corruption { at: None });
        };
        if len >= 1 << 63 || sum >= (1 << 63) - len {
            return Err(Error::Corruption { at: None });
        }
        self.held.insert(slot, (number, sum + len))?;
        self.numbers.insert(number)?;
        Ok(())
    }

    /// The active segment, before all entries.
    pub(crate) fn put_active(&mut self, limits: Limits, active: Option<LogOffset>) -> Result<()>
        requires { IsSlotTable limits.size self.old [] }
        ensures ok { OnOk result (IsSlotTable limits.size self.new (active_entry limits.stable active)) }
        ensures active { OnOk result (IfSome active (MayBeActive limits.size limits.slots limits.stable)) }
        ensures corrupt { IsCorruption result → IfSome active (MayBeActive limits.size limits.slots limits.stable) → ⊥ }
        ensures errors { IfErr result IsDecodeError }
    {
        match active {
            Some(slot) => {
                if !limits.may_be_active(slot) {
                    return Err(Error::Corruption { at: None });
                }
                self.note(
                    limits.size,
                    &(limits.stable as i64, DiskPtr::Inline(slot), 0),
                )
            }
            None => Ok(()),
        }
    }

    /// One more entry, where it lies within the limits.
    fn put(&mut self, limits: Limits, entry: &Entry) -> Result<()>
        ensures ok { (es : List Entry) → IsSlotTable limits.size self.old es → OnOk result (IsSlotTable limits.size self.new (es ++ entry.now ∷ [])) }
        ensures placed { OnOk result (IsPlacedIn limits.size limits.slots limits.stable entry.now) }
        ensures corrupt { (es : List Entry) → IsSlotTable limits.size self.old es → IsCorruption result
            → IsPlacedIn limits.size limits.slots limits.stable entry.now → AreFit limits.size (es ++ entry.now ∷ []) → ⊥ }
        ensures errors { IfErr result IsDecodeError }
    {
        if !limits.hold(entry) {
            return Err(Error::Corruption { at: None });
        }
        self.note(limits.size, entry)
    }

    /// More entries, one after another.
    fn put_all(&mut self, limits: Limits, entries: &[Entry]) -> Result<()>
        ensures ok { (es : List Entry) → IsSlotTable limits.size self.old es → OnOk result (IsSlotTable limits.size self.new (es ++ entries.now)) }
        ensures placed { OnOk result (All (IsPlacedIn limits.size limits.slots limits.stable) entries.now) }
        ensures corrupt { (es : List Entry) → IsSlotTable limits.size self.old es → IsCorruption result
            → All (IsPlacedIn limits.size limits.slots limits.stable) entries.now → AreFit limits.size (es ++ entries.now) → ⊥ }
        ensures errors { IfErr result IsDecodeError }
    {
        for entry in entries {
            match self.put(limits, entry) {
                Ok(()) => {}
                Err(e) => return Err(e),
            }
        }
        Ok(())
    }

    /// The entries of a page. `Corruption` comes for one that was not seen, too.
    fn put_page(&mut self, limits: Limits, page: &PageState) -> Result<()>
        ensures ok { (es : List Entry) → IsSlotTable limits.size self.old es
            → OnOk result (IsSlotTable limits.size self.new (es ++ entries_in (page_of page.now))) }
        ensures placed { OnOk result (All (IsPlacedIn limits.size limits.slots limits.stable) (entries_in (page_of page.now))) }
        ensures seen { OnOk result (page_of page.now ≢ Uninitialized) }
        ensures corrupt { (es : List Entry) → IsSlotTable limits.size self.old es → IsCorruption result → page_of page.now ≢ Uninitialized
            → All (IsPlacedIn limits.size limits.slots limits.stable) (entries_in (page_of page.now))
            → AreFit limits.size (es ++ entries_in (page_of page.now)) → ⊥ }
        ensures errors { IfErr result IsDecodeError }
    {
        match page {
            PageState::Present { base, frags } => match self.put(limits, base) {
                Ok(()) => self.put_all(limits, frags),
                Err(e) => Err(e),
            },
            PageState::Free(place, pointer) => {
                self.put(limits, &(*place, *pointer, MAX_MSG_HEADER_LEN as u64))
            }
            PageState::Uninitialized => Err(Error::Corruption { at: None }),
        }
    }

    /// The entries of all pages.
    pub(crate) fn put_pages(&mut self, limits: Limits, pages: &[PageState]) -> Result<()>
        ensures ok { (es : List Entry) → IsSlotTable limits.size self.old es
            → OnOk result (IsSlotTable limits.size self.new (es ++ entries_of (map page_of pages.now))) }
        ensures placed { OnOk result (All (IsPlacedIn limits.size limits.slots limits.stable) (entries_of (map page_of pages.now))) }
        ensures seen { OnOk result (All (λ p. p ≢ Uninitialized) (map page_of pages.now)) }
        ensures corrupt { (es : List Entry) → IsSlotTable limits.size self.old es → IsCorruption result → All (λ p. p ≢ Uninitialized) (map page_of pages.now)
            → All (IsPlacedIn limits.size limits.slots limits.stable) (entries_of (map page_of pages.now))
            → AreFit limits.size (es ++ entries_of (map page_of pages.now)) → ⊥ }
        ensures errors { IfErr result IsDecodeError }
    {
        for page in pages {
            match self.put_page(limits, page) {
                Ok(()) => {}
                Err(e) => return Err(e),
            }
        }
        Ok(())
    }
}
