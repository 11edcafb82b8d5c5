//! Values by key, in a vector in ascending order of the keys.
ghost use Rattle.std.specs.Prelude.{ℕ, ◌≡◌, ◌≤◌, ◌<◌, ◌+◌, ◌^◌, ◌⊎◌, [], length, OnOk, IsTrue, IfOk, IfErr};
ghost use Rattle.std.specs.declared.cmp.Ordering.TheVariants.{Less, Equal, Greater};
ghost use Rattle.std.specs.List.{list_any, HoldsAt};
ghost use Rattle.std.specs.List.Sorted.{IsPartitionPoint, IsSearchInRange, IsStrictlySortedBy};
ghost use Rattle.std.specs.BTreeMap.{is_at, insert_entry};
ghost use Rattle.std.specs.Map.{keys_of, lookup, remove_entry};

use crate::segment::sorted::count::Count;
use crate::segment::sorted::front::FrontVec;
use std::alloc::{AllocError, Global};
use std::cmp::Ordering;
use std::marker::Model;

/// Values by key, in ascending order of their keys, each key once. Contracts see the entries, and beside them how many
/// there is room for.
#[derive(Drop)]
pub struct SortedMap<K: Ord + Copy, V: Copy> {
    entries: FrontVec<(K, V)>,
}

impl<K: Ord + Copy, V: Copy> Model for SortedMap<K, V> {
    ghost use Rattle.std.specs.Prelude.{ℕ, List};
    ghost use Rattle.std.specs.List.Sorted.{IsStrictlySortedBy};
    ghost use Rattle.std.specs.Map.{keys_of};

    ghost Value = { List (K × V) × ℕ };

    ghost view = { λ s. s.entries };

    ghost invariant = { λ s. IsStrictlySortedBy K.cmp (keys_of s.entries.0) };
}

impl<K: Ord + Copy, V: Copy> SortedMap<K, V> {
    /// Returns one with no entries.
    pub fn new(alloc: Global) -> SortedMap<K, V>
        ensures entries { result.0 ≡ [] }
        ensures room { result.1 ≡ 0 }
    {
        SortedMap {
            entries: FrontVec::new(alloc),
        }
    }

    /// Returns its entries.
    pub fn entries(&self) -> &[(K, V)]
        ensures entries { result.now ≡ self.now.0 }
        ensures ascending { IsStrictlySortedBy K.cmp (keys_of self.now.0) }
    {
        self.entries.as_slice()
    }

    /// Returns how many entries it has.
    pub fn len(&self) -> usize
        ensures { result ≡ length self.now.0 }
    {
        self.entries.len()
    }

    /// Returns the index of a key, or else the one where it belongs. It makes at most as many comparisons as the number of
    /// entries has binary digits: none among none, 1 among 1, 2 among 2 or 3, 8 among 255, 9 among 256.
    ///
    /// # Errors
    ///
    /// The index where the key belongs, exactly where it is missing.
    pub fn find(&self, key: &K, count: &mut Count) -> Result<usize, usize>
        ensures within { IsSearchInRange result (length self.now.0) }
        ensures found { IfOk result (HoldsAt (λ k. K.cmp k key.now ≡ Equal) (keys_of self.now.0)) }
        ensures missing { IfErr result (IsPartitionPoint (λ k. K.cmp k key.now ≡ Less) (λ k. K.cmp k key.now ≡ Greater) (keys_of self.now.0)) }
        ensures steps { (d : ℕ) → length self.now.0 < 2 ^ d → count.new ≤ count.old + d }
        ensures counted { count.old ≤ count.new }
        ensures ascending { IsStrictlySortedBy K.cmp (keys_of self.now.0) }
    {
        search(self.entries(), key, count)
    }

    /// Returns the value of a key.
    pub fn get(&self, key: K) -> Option<V>
        ensures { result ≡ lookup (is_at (K.cmp key)) self.now.0 }
    {
        match self.find(&key, &mut Count::new()) {
            Ok(at) => Some(self.entries()[at].1),
            Err(_) => None,
        }
    }

    /// Makes room for more entries.
    ///
    /// # Errors
    ///
    /// `AllocError` where there is no memory for them: no entry has changed.
    pub fn reserve(&mut self, more: usize) -> Result<(), AllocError>
        ensures entries { self.new.0 ≡ self.old.0 }
        ensures room { OnOk result (length self.new.0 + more ≤ self.new.1) }
        ensures kept { self.old.1 ≤ self.new.1 }
    {
        self.entries.reserve(more)
    }

    /// Gives a key a value, in place of the one that it has. There is room for it, where it is missing.
    pub fn insert(&mut self, key: K, value: V)
        requires { IsTrue (list_any (is_at (K.cmp key)) (keys_of self.old.0)) ⊎ (length self.old.0 < self.old.1) }
        ensures entries { self.new.0 ≡ insert_entry K.cmp self.old.0 key value }
        ensures room { self.old.1 ≤ self.new.1 }
    {
        match self.find(&key, &mut Count::new()) {
            Ok(at) => {
                let key = self.entries.as_slice()[at].0;
                self.entries.set(at, (key, value));
            }
            Err(at) => self.entries.insert(at, (key, value)),
        }
    }

    /// Takes a key out, where it is there.
    pub fn remove(&mut self, key: K)
        ensures entries { self.new.0 ≡ remove_entry (is_at (K.cmp key)) self.old.0 }
        ensures room { self.new.1 ≡ self.old.1 }
    {
        match self.find(&key, &mut Count::new()) {
            Ok(at) => self.entries.remove(at),
            Err(_) => {}
        }
    }
}

/// Returns the index of a key among ascending ones, or else the one where it belongs.
fn search<K: Ord + Copy, V: Copy>(
    entries: &[(K, V)],
    key: &K,
    count: &mut Count,
) -> Result<usize, usize>
    requires { IsStrictlySortedBy K.cmp (keys_of entries.now) }
    ensures within { IsSearchInRange result (length entries.now) }
    ensures found { IfOk result (HoldsAt (λ k. K.cmp k key.now ≡ Equal) (keys_of entries.now)) }
    ensures missing { IfErr result (IsPartitionPoint (λ k. K.cmp k key.now ≡ Less) (λ k. K.cmp k key.now ≡ Greater) (keys_of entries.now)) }
    ensures steps { (d : ℕ) → length entries.now < 2 ^ d → count.new ≤ count.old + d }
    ensures counted { count.old ≤ count.new }
{
    let mut low = 0;
    let mut high = entries.len();
    while low < high {
        let middle = low + (high - low) / 2;
        match count.compare(&entries[middle].0, key) {
            Ordering::Less => low = middle + 1,
            Ordering::Equal => return Ok(middle),
            Ordering::Greater => high = middle,
        }
    }
    Err(low)
}
