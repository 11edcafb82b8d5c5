//! A set of slots below a bound, as a complete binary tree in one vector (`specs/SlotSets.antt`): a leaf says whether its
//! slot is in the set, and an inner node whether any below it is. So the least and the greatest slot are found, and a slot
//! is put in or taken out, in as many steps as the tree is deep. Only a reservation takes memory.
ghost use Rattle.std.specs.Prelude.{◌≡◌, ◌≢◌, ◌≤◌, ◌<◌, ◌+◌, ◌-◌, ◌*◌, ◌/◌, ◌^◌, ℕ, [], true, false, length, slice_get, OnOk};
ghost use Rattle.std.specs.Ordering.{nat_cmp};
ghost use Rattle.std.specs.BTreeMap.{is_at};
ghost use Rattle.std.specs.BTreeSet.{insert_key};
ghost use Rattle.std.specs.Set.{remove_key};
ghost use Rattle.sled_store.specs.SlotSets.{mark, AreTied, IsTied};

use std::alloc::{AllocError, Global};
use std::marker::Model;

/// Slots below a bound. Contracts see the slots in ascending order, and beside them the bound.
#[derive(Drop)]
pub(crate) struct SlotSet {
    // Whether each node is marked; no node is 0.
    marks: Vec<bool>,
    // How many leaves there are, and how many levels lie above them.
    width: usize,
    depth: usize,
    // How many leaves are marked.
    count: usize,
}

impl Model for SlotSet {
    ghost use Rattle.std.specs.Prelude.{ℕ, List};
    ghost use Rattle.sled_store.specs.SlotSets.{marked_slots, IsSlotTree};

    ghost Value = { List ℕ × ℕ };

    ghost view = { λ s. (marked_slots s.width s.marks.items, s.width) };

    ghost invariant = { λ s. IsSlotTree s.depth s.width s.count s.marks.items };
}

impl SlotSet {
    /// Returns one with no slots, and room for none.
    pub(crate) fn new(alloc: Global) -> SlotSet
        ensures { result.0 ≡ [] }
    {
        SlotSet {
            marks: Vec::new(alloc),
            width: 0,
            depth: 0,
            count: 0,
        }
    }

    /// Returns how many slots it has.
    pub(crate) fn len(&self) -> usize
        ensures { result ≡ length self.now.0 }
    {
        self.count
    }

    /// Returns the least slot.
    pub(crate) fn first(&self) -> Option<u64>
        ensures { result ≡ slice_get self.now.0 0 }
    {
        if self.count == 0 {
            return None;
        }
        let leaf = lowest(self.marks.as_slice(), self.depth);
        Some((leaf - self.width) as u64)
    }

    /// Returns the greatest slot.
    pub(crate) fn last(&self) -> Option<u64>
        ensures { result ≡ slice_get self.now.0 (length self.now.0 - 1) }
    {
        if self.count == 0 {
            return None;
        }
        let leaf = highest(self.marks.as_slice(), self.depth);
        Some((leaf - self.width) as u64)
    }

    /// Makes room for all slots below a bound.
    pub(crate) fn reserve(&mut self, slots: usize) -> Result<(), AllocError>
        ensures keys { self.new.0 ≡ self.old.0 }
        ensures room { OnOk result (slots ≤ self.new.1) }
        ensures kept { self.old.1 ≤ self.new.1 }
    {
        while self.width < slots {
            self.grow()?;
        }
        Ok(())
    }

    /// Makes room for twice as many slots, and for one at least.
    fn grow(&mut self) -> Result<(), AllocError>
        ensures keys { self.new.0 ≡ self.old.0 }
        ensures room { OnOk result (self.old.1 < self.new.1) }
        ensures kept { self.old.1 ≤ self.new.1 }
    {
        let old = self.width;
        let (width, depth) = if old == 0 {
            (1, 0)
        } else {
            (2 * old, self.depth + 1)
        };
        self.marks.resize(2 * width, false)?;
        self.marks.copy_within(old..2 * old, width);
        mark_inner(&mut self.marks, width);
        self.width = width;
        self.depth = depth;
        Ok(())
    }

    /// Puts a slot in, where it is missing. There is room for it.
    pub(crate) fn insert(&mut self, slot: u64)
        requires { slot < self.old.1 }
        ensures keys { self.new.0 ≡ insert_key nat_cmp self.old.0 slot }
        ensures room { self.old.1 ≤ self.new.1 }
    {
        let leaf = self.width + slot as usize;
        if self.marks[leaf] {
            return;
        }
        self.marks[leaf] = true;
        self.count += 1;
        mark_above(&mut self.marks, self.width, leaf);
    }

    /// Takes a slot out, where it is there.
    pub(crate) fn remove(&mut self, slot: u64)
        ensures keys { self.new.0 ≡ remove_key (is_at (nat_cmp slot)) self.old.0 }
        ensures room { self.new.1 ≡ self.old.1 }
    {
        if slot >= self.width as u64 {
            return;
        }
        let leaf = self.width + slot as usize;
        if !self.marks[leaf] {
            return;
        }
        self.marks[leaf] = false;
        self.count -= 1;
        mark_above(&mut self.marks, self.width, leaf);
    }
}

/// Marks the nodes above a leaf by their children, from the lowest on.
fn mark_above(marks: &mut Vec<bool>, width: usize, leaf: usize)
    requires len { length marks.old.items ≡ 2 * width }
    requires leaf { leaf < 2 * width }
    requires others { (i : ℕ) → 0 < i → i < width → i ≢ leaf / 2 → IsTied marks.old.items i }
    ensures len { length marks.new.items ≡ 2 * width }
    ensures tied { AreTied width marks.new.items }
    ensures leaves { (i : ℕ) → width ≤ i → mark marks.new.items i ≡ mark marks.old.items i }
{
    let mut node = leaf / 2;
    while node > 0 {
        let marked = marks[2 * node] || marks[2 * node + 1];
        marks[node] = marked;
        node /= 2;
    }
}

/// Marks all inner nodes by their children, from the last on.
fn mark_inner(marks: &mut Vec<bool>, width: usize)
    requires { length marks.old.items ≡ 2 * width }
    ensures len { length marks.new.items ≡ 2 * width }
    ensures tied { AreTied width marks.new.items }
    ensures leaves { (i : ℕ) → width ≤ i → mark marks.new.items i ≡ mark marks.old.items i }
{
    let mut node = width;
    while node > 1 {
        node -= 1;
        let marked = marks[2 * node] || marks[2 * node + 1];
        marks[node] = marked;
    }
}

/// Returns the first leaf that is marked, of a tree of this depth.
fn lowest(marks: &[bool], depth: usize) -> usize
    requires len { length marks.now ≡ 2 * 2 ^ depth }
    requires tied { AreTied (2 ^ depth) marks.now }
    requires some { mark marks.now 1 ≡ true }
    ensures from { 2 ^ depth ≤ result }
    ensures within { result < 2 * 2 ^ depth }
    ensures marked { mark marks.now result ≡ true }
    ensures least { (i : ℕ) → 2 ^ depth ≤ i → i < result → mark marks.now i ≡ false }
{
    let mut node = 1;
    for _ in 0..depth {
        node *= 2;
        if !marks[node] {
            node += 1;
        }
    }
    node
}

/// Returns the last leaf that is marked, of a tree of this depth.
fn highest(marks: &[bool], depth: usize) -> usize
    requires len { length marks.now ≡ 2 * 2 ^ depth }
    requires tied { AreTied (2 ^ depth) marks.now }
    requires some { mark marks.now 1 ≡ true }
    ensures from { 2 ^ depth ≤ result }
    ensures within { result < 2 * 2 ^ depth }
    ensures marked { mark marks.now result ≡ true }
    ensures greatest { (i : ℕ) → result < i → i < 2 * 2 ^ depth → mark marks.now i ≡ false }
{
    let mut node = 1;
    for _ in 0..depth {
        node = 2 * node + 1;
        if !marks[node] {
            node -= 1;
        }
    }
    node
}
