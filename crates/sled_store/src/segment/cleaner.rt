//! The pages that are to be written again, so that their segments come free.
//!
//! Which slots are being drained says a tree over all slots, and what pages each of them has left a set by slot. So a
//! page is asked for, and a slot is put in or taken out, in as many steps as the tree is deep, whatever else is being
//! drained. Only a reservation takes memory.
ghost use Rattle.std.specs.Prelude.{◌≡◌, [], ◌*◌, ◌≤◌, ◌<◌, ◌^◌, ℕ, length, map, slice_index_or, OnOk};
ghost use Rattle.std.specs.List.Sorted.{IsStrictlySortedBy, IsStrictlySortedBy-prop};
ghost use Rattle.std.specs.Ordering.{nat_cmp};
ghost use Rattle.std.specs.BTreeMap.{insert_entry, is_at};
ghost use Rattle.std.specs.Map.{remove_entry};
ghost use Rattle.std.specs.List.{All};
ghost use Rattle.sled_store.specs.SegmentStates.{popped, first_page};

use crate::segment::slot_set::SlotSet;
use crate::segment::sorted::SortedSet;
use sled_codec::result::{LogOffset, PageId};
use std::alloc::{AllocError, Global};

/// The pages that are to be written again, by slot.
#[derive(Drop)]
pub struct SegmentCleaner {
    pub(crate) size: u64,
    /// The slots that are being drained.
    pub(crate) draining: SlotSet,
    /// The pages of each slot that were not asked for yet; no memory is taken for one that isn't being drained.
    pub(crate) entries: Vec<SortedSet<PageId>>,
    ghost ascending: { IsStrictlySortedBy nat_cmp draining.0 } by { IsStrictlySortedBy-prop nat_cmp draining.0 },
    ghost within: { All (λ k. k < length entries.items) draining.0 },
    ghost in_reach: { All (λ k. k * size < 2 ^ 63) draining.0 },
}

impl SegmentCleaner {
    ghost use Rattle.sled_store.specs.Accounts.{IsCleaner, HasRoomToClean, cleaner_of};

    /// Returns one with no pages, for segments of a size.
    pub(crate) fn new(alloc: Global, size: u64) -> SegmentCleaner
        ensures tie { IsCleaner size 0 result }
        ensures cleaner { cleaner_of result ≡ [] }
    {
        SegmentCleaner {
            size,
            draining: SlotSet::new(alloc),
            entries: Vec::new(alloc),
        }
    }

    /// Returns the least page of the lowest slot, with the offset of the slot in the file. Where that slot has none
    /// left, it is forgotten, and the answer is `None`. It takes as many steps as the logarithm of the number of slots.
    pub fn pop(&mut self) -> Option<(PageId, LogOffset)>
        ensures page { result ≡ first_page self.old.size (cleaner_of self.old) }
        ensures left { cleaner_of self.new ≡ popped (cleaner_of self.old) }
        ensures tie { (count : ℕ) → IsCleaner self.old.size count self.old → IsCleaner self.old.size count self.new }
    {
        let Some(slot) = self.draining.first() else {
            return None;
        };
        let Some(page) = self.entries[slot as usize].take_first() else {
            self.remove(slot);
            return None;
        };
        Some((page, slot * self.size))
    }

    /// Makes room for all slots below a bound.
    pub(crate) fn reserve(&mut self, slots: usize) -> Result<(), AllocError>
        ensures cleaner { cleaner_of self.new ≡ cleaner_of self.old }
        ensures size { self.new.size ≡ self.old.size }
        ensures room { OnOk result (HasRoomToClean slots self.new) }
        ensures kept { (count : ℕ) → HasRoomToClean count self.old → HasRoomToClean count self.new }
    {
        self.draining.reserve(slots)?;
        while self.entries.len() < slots {
            self.lengthen()?;
        }
        Ok(())
    }

    /// Makes room for the pages of one more slot.
    fn lengthen(&mut self) -> Result<(), AllocError>
        ensures cleaner { cleaner_of self.new ≡ cleaner_of self.old }
        ensures size { self.new.size ≡ self.old.size }
        ensures draining { self.new.draining ≡ self.old.draining }
        ensures room { OnOk result (length self.old.entries.items < length self.new.entries.items) }
        ensures kept { length self.old.entries.items ≤ length self.new.entries.items }
    {
        let alloc = *self.entries.allocator();
        self.entries.push(SortedSet::new(alloc))?;
        Ok(())
    }

    /// Notes the pages of a slot that is not there yet. There is room for it. It takes as many steps as the logarithm of
    /// the number of slots.
    pub(crate) fn insert(&mut self, slot: u64, pages: SortedSet<PageId>)
        requires room { slot < self.old.draining.1 }
        requires entry { slot < length self.old.entries.items }
        requires in_reach { slot * self.old.size < 2 ^ 63 }
        ensures cleaner { cleaner_of self.new ≡ insert_entry nat_cmp (cleaner_of self.old) slot pages.0 }
        ensures tie { (count : ℕ) → slot < count → IsCleaner self.old.size count self.old → IsCleaner self.old.size count self.new }
    {
        self.draining.insert(slot);
        self.entries[slot as usize] = pages;
    }

    /// Forgets a slot, and gives the memory of its pages back. It takes as many steps as the logarithm of the number of
    /// slots.
    pub(crate) fn remove(&mut self, slot: u64)
        ensures cleaner { cleaner_of self.new ≡ remove_entry (is_at (nat_cmp slot)) (cleaner_of self.old) }
        ensures tie { (count : ℕ) → IsCleaner self.old.size count self.old → IsCleaner self.old.size count self.new }
        ensures memory { slice_index_or (map (λ e. e.1) self.new.entries.items) slot 0 ≡ 0 }
    {
        self.draining.remove(slot);
        if slot >= self.entries.len() as u64 {
            return;
        }
        let alloc = *self.entries.allocator();
        self.entries[slot as usize] = SortedSet::new(alloc);
    }
}
