//! Keys in ascending order, each once, in a vector.
ghost use Rattle.std.specs.Prelude.{ℕ, ◌≡◌, ◌≢◌, ◌≤◌, ◌<◌, ◌+◌, ◌-◌, ◌^◌, ◌⊎◌, ◌++◌, [], ◌∷◌};
ghost use Rattle.std.specs.Prelude.{drop, length, slice_get, OnOk, IsTrue, IfOk, IfErr};
ghost use Rattle.std.specs.declared.cmp.Ordering.TheVariants.{Less, Equal, Greater};
ghost use Rattle.std.specs.List.{All, list_any, HoldsAt};
ghost use Rattle.std.specs.List.Sorted.{IsPartitionPoint, IsSearchInRange, IsStrictlySortedBy};
ghost use Rattle.std.specs.BTreeMap.{is_at};
ghost use Rattle.std.specs.BTreeSet.{insert_key};
ghost use Rattle.std.specs.Set.{remove_key};

use crate::segment::sorted::count::Count;
use crate::segment::sorted::front::FrontVec;
use std::alloc::{AllocError, Global};
use std::cmp::Ordering;
use std::marker::Model;

/// Keys in ascending order, each once. Contracts see the keys, and beside them how many there is room for.
#[derive(Drop)]
pub struct SortedSet<K: Ord + Copy> {
    items: FrontVec<K>,
}

impl<K: Ord + Copy> Model for SortedSet<K> {
    ghost use Rattle.std.specs.Prelude.{ℕ, List};
    ghost use Rattle.std.specs.List.Sorted.{IsStrictlySortedBy};

    ghost Value = { List K × ℕ };

    ghost view = { λ s. s.items };

    ghost invariant = { λ s. IsStrictlySortedBy K.cmp s.items.0 };
}

impl<K: Ord + Copy> SortedSet<K> {
    /// Returns one with no keys.
    pub fn new(alloc: Global) -> SortedSet<K>
        ensures keys { result.0 ≡ [] }
        ensures room { result.1 ≡ 0 }
    {
        SortedSet {
            items: FrontVec::new(alloc),
        }
    }

    /// Returns the allocator that it was made with.
    pub(crate) fn allocator(&self) -> Global {
        self.items.allocator()
    }

    /// Returns its keys.
    pub fn keys(&self) -> &[K]
        ensures keys { result.now ≡ self.now.0 }
        ensures ascending { IsStrictlySortedBy K.cmp self.now.0 }
    {
        self.items.as_slice()
    }

    /// Returns the index of a key, or else the one where it belongs. It makes at most as many comparisons as the number of
    /// keys has binary digits: none among none, 1 among 1, 2 among 2 or 3, 8 among 255, 9 among 256.
    ///
    /// # Errors
    ///
    /// The index where the key belongs, exactly where it is missing.
    pub fn find(&self, key: &K, count: &mut Count) -> Result<usize, usize>
        ensures within { IsSearchInRange result (length self.now.0) }
        ensures found { IfOk result (HoldsAt (λ k. K.cmp k key.now ≡ Equal) self.now.0) }
        ensures missing { IfErr result (IsPartitionPoint (λ k. K.cmp k key.now ≡ Less) (λ k. K.cmp k key.now ≡ Greater) self.now.0) }
        ensures steps { (d : ℕ) → length self.now.0 < 2 ^ d → count.new ≤ count.old + d }
        ensures counted { count.old ≤ count.new }
        ensures ascending { IsStrictlySortedBy K.cmp self.now.0 }
    {
        search(self.items.as_slice(), key, count)
    }

    /// Returns how many keys it has.
    pub fn len(&self) -> usize
        ensures { result ≡ length self.now.0 }
    {
        self.items.len()
    }

    /// Returns the least key.
    pub fn first(&self) -> Option<K>
        ensures { result ≡ slice_get self.now.0 0 }
    {
        self.keys().first().copied()
    }

    /// Returns the greatest key.
    pub fn last(&self) -> Option<K>
        ensures { result ≡ slice_get self.now.0 (length self.now.0 - 1) }
    {
        self.keys().last().copied()
    }

    /// Returns the key at an index.
    pub fn get(&self, index: usize) -> Option<K>
        ensures { result ≡ slice_get self.now.0 index }
    {
        self.keys().get(index).copied()
    }

    /// Returns the index of the least key that isn't less than this one.
    pub fn place(&self, key: K) -> usize
        ensures place { IsPartitionPoint (λ k. K.cmp k key ≡ Less) (λ k. K.cmp k key ≢ Less) self.now.0 result }
        ensures within { result ≤ length self.now.0 }
        ensures sorted { IsStrictlySortedBy K.cmp self.now.0 }
    {
        match self.find(&key, &mut Count::new()) {
            Ok(at) => at,
            Err(at) => at,
        }
    }

    /// Whether it has a key.
    pub fn contains(&self, key: K) -> bool
        ensures { result ≡ list_any (is_at (K.cmp key)) self.now.0 }
    {
        self.find(&key, &mut Count::new()).is_ok()
    }

    /// Makes room for more keys.
    ///
    /// # Errors
    ///
    /// `AllocError` where there is no memory for them: no key has changed.
    pub fn reserve(&mut self, more: usize) -> Result<(), AllocError>
        ensures keys { self.new.0 ≡ self.old.0 }
        ensures room { OnOk result (length self.new.0 + more ≤ self.new.1) }
        ensures kept { self.old.1 ≤ self.new.1 }
    {
        self.items.reserve(more)
    }

    /// Puts a key in, where it is missing. There is room for it.
    pub fn insert(&mut self, key: K)
        requires { IsTrue (list_any (is_at (K.cmp key)) self.old.0) ⊎ (length self.old.0 < self.old.1) }
        ensures keys { self.new.0 ≡ insert_key K.cmp self.old.0 key }
        ensures room { self.old.1 ≤ self.new.1 }
    {
        match self.find(&key, &mut Count::new()) {
            Ok(_) => {}
            Err(at) => self.items.insert(at, key),
        }
    }

    /// Puts a key in that is greater than all others. There is room for it.
    pub(crate) fn push(&mut self, key: K)
        requires greatest { All (λ k. K.cmp k key ≡ Less) self.old.0 }
        requires room { length self.old.0 < self.old.1 }
        ensures keys { self.new.0 ≡ self.old.0 ++ key ∷ [] }
        ensures room { self.old.1 ≤ self.new.1 }
    {
        self.items.push(key);
    }

    /// Takes the least key out, where there is one, and returns it.
    pub fn take_first(&mut self) -> Option<K>
        ensures key { result ≡ slice_get self.old.0 0 }
        ensures keys { self.new.0 ≡ drop 1 self.old.0 }
        ensures room { self.new.1 ≡ self.old.1 }
    {
        let Some(key) = self.first() else {
            return None;
        };
        self.items.remove(0);
        Some(key)
    }

    /// Takes a key out, where it is there.
    pub fn remove(&mut self, key: K)
        ensures keys { self.new.0 ≡ remove_key (is_at (K.cmp key)) self.old.0 }
        ensures room { self.new.1 ≡ self.old.1 }
    {
        match self.find(&key, &mut Count::new()) {
            Ok(at) => self.items.remove(at),
            Err(_) => {}
        }
    }

    /// Takes all keys out.
    pub fn clear(&mut self)
        ensures keys { self.new.0 ≡ [] }
        ensures room { self.new.1 ≡ self.old.1 }
    {
        self.items.clear();
    }
}

/// Returns the index of a key among ascending ones, or else the one where it belongs.
fn search<K: Ord>(keys: &[K], key: &K, count: &mut Count) -> Result<usize, usize>
    requires { IsStrictlySortedBy K.cmp keys.now }
    ensures within { IsSearchInRange result (length keys.now) }
    ensures found { IfOk result (HoldsAt (λ k. K.cmp k key.now ≡ Equal) keys.now) }
    ensures missing { IfErr result (IsPartitionPoint (λ k. K.cmp k key.now ≡ Less) (λ k. K.cmp k key.now ≡ Greater) keys.now) }
    ensures steps { (d : ℕ) → length keys.now < 2 ^ d → count.new ≤ count.old + d }
    ensures counted { count.old ≤ count.new }
{
    let mut low = 0;
    let mut high = keys.len();
    while low < high {
        let middle = low + (high - low) / 2;
        match count.compare(&keys[middle], key) {
            Ordering::Less => low = middle + 1,
            Ordering::Equal => return Ok(middle),
            Ordering::Greater => high = middle,
        }
    }
    Err(low)
}
