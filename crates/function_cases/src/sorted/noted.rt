//! A key that notes each comparison of it.
ghost use Rattle.std.specs.Prelude.{◌==◌};
ghost use Rattle.std.proofs.Common.{rules};
ghost use Rattle.std.specs.Cmp.{partial_order_from_own_ties};
ghost use Rattle.std.specs.Cmp.Rules.{comparing};
ghost use Rattle.std.specs.Ordering.{as_partial_cmp, nat_cmp, on};

use std::cell::Cell;
use std::cmp::Ordering;

/// A number that notes each comparison of it.
#[derive(Clone, Copy)]
pub struct Noted<'a> {
    /// The number.
    pub number: u64,
    /// How many comparisons were made so far.
    pub made: &'a Cell<usize>,
}

impl Ord for Noted<'_> {
    ghost cmp = { on (λ n. n.number) nat_cmp };

    ghost total = { Prim.search (comparing, rules) };

    ghost matches_partial_cmp = { Prim.search (comparing, rules) };

    ghost matches_eq = { Prim.search (comparing, rules) };

    fn cmp(&self, other: &Noted<'_>) -> Ordering {
        self.made.set(self.made.get().wrapping_add(1));
        self.number.cmp(&other.number)
    }
}

impl PartialOrd for Noted<'_> {
    ghost partial_cmp = { as_partial_cmp (on (λ n. n.number) nat_cmp) };

    ghost laws = { partial_order_from_own_ties (Prim.search (comparing, rules)) (Prim.search (comparing, rules)) };

    fn partial_cmp(&self, other: &Noted<'_>) -> Option<Ordering> {
        Some(self.number.cmp(&other.number))
    }
}

impl Eq for Noted<'_> {
    ghost laws = { Prim.search (comparing, rules) };
}

impl PartialEq for Noted<'_> {
    ghost eq = { on (λ n. n.number) ◌==◌ };

    ghost laws = { Prim.search (comparing, rules) };

    fn eq(&self, other: &Noted<'_>) -> bool {
        self.number == other.number
    }
}
