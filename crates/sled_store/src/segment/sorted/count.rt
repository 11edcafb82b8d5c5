//! A count of comparisons. It stands in proofs alone: a `Count` has no bytes, so that counting costs nothing.
//!
//! What ties it to comparisons is `Count::compare`, the only call that raises it. The two functions of `GhostCount` have
//! the only proofs by hand over one. Another could set it to anything, so there is none.
ghost use Rattle.std.specs.Prelude.{◌≡◌, ◌+◌, ℕ};

use std::cmp::Ordering;
use std::marker::Model;

/// How many comparisons were made. It has no bytes; contracts see the number.
#[derive(Drop)]
pub struct Count {
    made: GhostCount,
}

impl Model for Count {
    ghost use Rattle.std.specs.Prelude.{ℕ};

    ghost Value = { ℕ };

    ghost view = { λ c. c.made.number };
}

impl Count {
    /// Returns a count of no comparisons.
    pub fn new() -> Count
        ensures { result ≡ 0 }
    {
        Count {
            made: GhostCount::new(),
        }
    }

    /// Returns how two keys compare, and counts that as one comparison.
    pub fn compare<K: Ord>(&mut self, a: &K, b: &K) -> Ordering
        ensures order { result ≡ K.cmp a.now b.now }
        ensures counted { self.new ≡ self.old + 1 }
    {
        self.made = self.made.next();
        a.cmp(b)
    }
}

// A number that stands in proofs alone.
#[derive(Drop)]
struct GhostCount {
    ghost number: { ℕ },
}

impl Model for GhostCount {
    ghost use Rattle.std.specs.Borrow.{ftrue};

    ghost also_owns = { λ _. ftrue };
}

impl GhostCount {
    // Zero.
    fn new() -> GhostCount
        ensures { result.number ≡ 0 }
    {
        GhostCount {}
    }

    // The next number.
    fn next(&self) -> GhostCount
        ensures { result.number ≡ self.now.number + 1 }
    {
        GhostCount {}
    }
}
