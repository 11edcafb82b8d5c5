//! A slot of the log file, and what is known of the segment in it (`specs/SegmentStates.antt`).
ghost use Rattle.std.specs.Prelude.{ℕ, ◌≡◌, ◌↔◌, false, [], ◌∷◌, ◌≤◌, ◌<◌, ◌+◌, ◌++◌, ◌⊎◌, IsTrue, IfErr, OnOk, Some, filter, length, ◌==◌, if◌then◌else◌, not};
ghost use Rattle.std.specs.declared.cmp.Ordering.TheVariants.{Less};
ghost use Rattle.std.specs.List.{All};
ghost use Rattle.std.specs.Ordering.{nat_cmp};
ghost use Rattle.std.specs.BTreeSet.{insert_key};
ghost use Rattle.sled_store.specs.SegmentStates.{inactive_slot, free_slot, taken_slot, linked_slot, replaced_slot, outdated, has_page, is_free, is_active, is_sparse, is_done, is_draining, waited_place, left_pages, drained_slot, segment_in};
ghost use Rattle.sled_store.specs.Accounts.{slot_state, HasRoomToDrain};
ghost use Rattle.sled_store.specs.inside.Accounts.{HasRoomForGone, HasRoomForBlobs, HasRoomToLink};

use crate::segment::sorted::SortedSet;
use sled_codec::result::{DiskPtr, Lsn, PageId};
use std::alloc::{AllocError, Global};
use std::mem;

/// What a message of a page is known by: its place, where it lies and how long its record is.
#[derive(Debug, Clone, Copy, PartialEq)]
pub struct CacheInfo {
    /// The place of the message in the log.
    pub lsn: Lsn,
    /// Where its record lies.
    pub pointer: DiskPtr,
    /// The length of its record, in bytes.
    pub log_size: u64,
}

/// What a slot is in.
#[derive(Debug, Clone, Copy, PartialEq)]
pub(crate) enum State {
    /// No segment lies there.
    Free,
    /// Messages are still linked to its segment.
    Active,
    /// All of its segment is stable.
    Inactive,
    /// Its pages are to be written again elsewhere.
    Draining,
}

/// A slot of the log file.
#[derive(Drop)]
pub(crate) struct Slot {
    pub(crate) state: State,
    /// The place where its segment begins.
    pub(crate) lsn: u64,
    /// What the records sum up to that were linked here and not replaced since.
    pub(crate) held: u64,
    /// The pages that were linked here.
    pub(crate) pages: SortedSet<PageId>,
    /// The pages that another segment has replaced.
    pub(crate) gone: SortedSet<PageId>,
    /// The greatest place of a segment that replaced one of them.
    pub(crate) latest: Option<u64>,
    /// The blobs that go when the segment is deactivated.
    pub(crate) blobs: SortedSet<Lsn>,
    /// Room for the pages that a drain gives to the cleaner.
    pub(crate) left: SortedSet<PageId>,
}

impl Slot {
    /// Returns a slot with no segment in it.
    pub(crate) fn new(alloc: Global) -> Slot
        ensures state { slot_state result ≡ free_slot }
        ensures room { HasRoomToDrain result }
    {
        Slot {
            state: State::Free,
            lsn: 0,
            held: 0,
            pages: SortedSet::new(alloc),
            gone: SortedSet::new(alloc),
            latest: None,
            blobs: SortedSet::new(alloc),
            left: SortedSet::new(alloc),
        }
    }

    /// Puts a segment that begins at a place in a free slot.
    pub(crate) fn take(&mut self, lsn: u64)
        requires { slot_state self.old ≡ free_slot }
        ensures state { slot_state self.new ≡ taken_slot lsn }
        ensures room { HasRoomToDrain self.new }
    {
        self.state = State::Active;
        self.lsn = lsn;
    }

    /// The segment is no longer active, and its blobs are gone.
    pub(crate) fn deactivate(&mut self)
        requires { is_draining self.old.state ≡ false }
        ensures state { slot_state self.new ≡ inactive_slot (slot_state self.old) }
        ensures room { HasRoomToDrain self.old → HasRoomToDrain self.new }
    {
        self.state = State::Inactive;
        self.blobs.clear();
    }

    /// Takes the segment out.
    pub(crate) fn free(&mut self)
        ensures state { slot_state self.new ≡ free_slot }
        ensures room { HasRoomToDrain self.new }
    {
        self.state = State::Free;
        self.lsn = 0;
        self.held = 0;
        self.pages.clear();
        self.gone.clear();
        self.latest = None;
        self.blobs.clear();
    }

    /// Makes room for a page and for `blobs` blobs.
    pub(crate) fn reserve(&mut self, blobs: usize) -> Result<(), AllocError>
        ensures state { slot_state self.new ≡ slot_state self.old }
        ensures link { OnOk result (HasRoomToLink self.new) }
        ensures blobs { OnOk result (HasRoomForBlobs blobs self.new) }
        ensures drain { HasRoomToDrain self.old → HasRoomToDrain self.new }
        ensures gone { self.new.gone ≡ self.old.gone }
    {
        self.pages.reserve(1)?;
        let Some(pages) = self.pages.len().checked_add(1) else {
            return Err(AllocError);
        };
        self.left.reserve(pages)?;
        self.blobs.reserve(blobs)?;
        Ok(())
    }

    /// Makes room for a replaced page.
    pub(crate) fn reserve_gone(&mut self) -> Result<(), AllocError>
        ensures state { slot_state self.new ≡ slot_state self.old }
        ensures drain { HasRoomToDrain self.old → HasRoomToDrain self.new }
        ensures gone { OnOk result ((pid : ℕ) → HasRoomForGone pid self.new) }
        ensures kept { (pid : ℕ) → HasRoomForGone pid self.old → HasRoomForGone pid self.new }
    {
        self.gone.reserve(1)
    }

    /// Links a page by a record of this length.
    pub(crate) fn link(&mut self, pid: PageId, len: u64)
        requires { HasRoomToLink self.old }
        ensures state { slot_state self.new ≡ linked_slot pid len (slot_state self.old) }
        ensures room { HasRoomToDrain self.new }
        ensures gone { self.new.gone ≡ self.old.gone }
        ensures blobs { self.new.blobs ≡ self.old.blobs }
    {
        self.held = self.held.saturating_add(len);
        self.pages.insert(pid);
    }

    /// A record of a page, of this length, was replaced by one in the segment at a place.
    pub(crate) fn replace(&mut self, pid: PageId, len: u64, place: u64)
        requires { HasRoomForGone pid self.old }
        ensures state { slot_state self.new ≡ replaced_slot pid len place (slot_state self.old) }
        ensures room { HasRoomForGone pid self.new }
        ensures drain { HasRoomToDrain self.old → HasRoomToDrain self.new }
    {
        self.held = self.held.saturating_sub(len);
        self.note_gone(pid, place);
        self.latest = Some(match self.latest {
            Some(other) => place.max(other),
            None => place,
        });
    }

    /// Another segment, the one at a place, has replaced a page.
    fn note_gone(&mut self, pid: PageId, place: u64)
        requires { HasRoomForGone pid self.old }
        ensures gone { self.new.gone.0 ≡ (if place == self.old.lsn then self.old.gone.0 else insert_key nat_cmp self.old.gone.0 pid) }
        ensures rest { self.new ≡ record self.old { gone = self.new.gone } }
        ensures room { HasRoomForGone pid self.new }
    {
        if place != self.lsn {
            self.gone.insert(pid);
        }
    }

    /// The blob of a message goes with this segment, unless the message in it that replaces that one has the blob.
    pub(crate) fn outdate(&mut self, pointer: DiskPtr, old: DiskPtr)
        requires { length self.old.blobs.0 < self.old.blobs.1 }
        ensures blobs { self.new.blobs.0 ≡ outdated pointer old self.old.blobs.0 }
        ensures rest { self.new ≡ record self.old { blobs = self.new.blobs } }
        ensures room { self.old.blobs.1 ≤ self.new.blobs.1 }
    {
        let DiskPtr::Blob(_, then) = old else {
            return;
        };
        if let DiskPtr::Blob(_, place) = pointer
            && place == then
        {
            return;
        }
        self.blobs.insert(then);
    }

    /// Whether its segment is active.
    pub(crate) fn is_active(&self) -> bool
        ensures { result ≡ is_active self.now.state }
    {
        match self.state {
            State::Active => true,
            _ => false,
        }
    }

    /// The place where its segment begins, where one lies there.
    pub(crate) fn segment(&self) -> Option<u64>
        ensures { result ≡ segment_in (slot_state self.now) }
    {
        match self.state {
            State::Free => None,
            _ => Some(self.lsn),
        }
    }

    /// Whether the segment at a place is in it.
    pub(crate) fn holds(&self, place: u64) -> bool
        ensures { IsTrue result ↔ ((is_free self.now.state ≡ false) × (place ≡ self.now.lsn)) }
    {
        match self.state {
            State::Free => false,
            _ => place == self.lsn,
        }
    }

    /// Whether it is inactive and holds little enough to write it again.
    pub(crate) fn is_sparse(&self, size: u64) -> bool
        requires { 0 < size }
        ensures { result ≡ is_sparse size (slot_state self.now) }
    {
        self.state == State::Inactive && self.held as u128 * 100 / size as u128 <= 50
    }

    /// Whether it is drained and all of its pages are replaced.
    pub(crate) fn is_done(&self) -> bool
        ensures { result ≡ is_done (slot_state self.now) }
    {
        match self.state {
            State::Draining => self.pages.keys() == self.gone.keys(),
            _ => false,
        }
    }

    /// The segment that its free has to wait for, or had to.
    pub(crate) fn waited_place(&self) -> Option<u64>
        ensures { result ≡ waited_place (slot_state self.now) }
    {
        if self.is_done() { self.latest } else { None }
    }

    /// Drains it: its pages that were not replaced.
    pub(crate) fn drain(&mut self) -> SortedSet<PageId>
        requires { length self.old.pages.0 ≤ self.old.left.1 }
        ensures pages { result.0 ≡ left_pages (slot_state self.old) }
        ensures state { slot_state self.new ≡ drained_slot (slot_state self.old) }
        ensures room { HasRoomToDrain self.new }
        ensures gone { self.new.gone ≡ self.old.gone }
    {
        self.state = State::Draining;
        let alloc = self.left.allocator();
        let mut left = mem::replace(&mut self.left, SortedSet::new(alloc));
        left.clear();
        push_left(&mut left, &self.pages, &self.gone);
        left
    }
}

/// Puts the pages that were not replaced in, where there is room for them.
fn push_left(left: &mut SortedSet<PageId>, pages: &SortedSet<PageId>, gone: &SortedSet<PageId>)
    requires empty { left.old.0 ≡ [] }
    requires room { length pages.now.0 ≤ left.old.1 }
    ensures { left.new.0 ≡ filter (λ p. not (has_page gone.now.0 p)) pages.now.0 }
{
    for pid in pages.keys() {
        push_if_left(left, *pid, gone);
    }
}

/// Puts a page behind what is there, where it was not replaced.
fn push_if_left(left: &mut SortedSet<PageId>, pid: PageId, gone: &SortedSet<PageId>)
    requires greatest { All (λ p. nat_cmp p pid ≡ Less) left.old.0 }
    requires room { length left.old.0 < left.old.1 }
    ensures items { left.new.0 ≡ left.old.0 ++ filter (λ p. not (has_page gone.now.0 p)) (pid ∷ []) }
    ensures len { length left.new.0 ≤ length left.old.0 + 1 }
    ensures room { left.old.1 ≤ left.new.1 }
{
    if !gone.contains(pid) {
        left.push(pid);
    }
}
