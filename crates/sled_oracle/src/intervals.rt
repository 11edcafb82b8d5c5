//! The stable end by its definition, for tests: slow, and with nothing kept from call to call.
ghost use Rattle.std.specs.Prelude.{◌≡◌, ◌≤ℤ◌, ◌<ℤ◌, ◌+ℤ◌, ℤ, pos, List, [], ◌∷◌, ◌++◌, All, Any, MatchBool, MatchOption};
ghost use Rattle.sled_core.specs.StableEnds.{LiesIn, IsContiguousEnd, IsHalfSynced, IsStableEnd, HasPlaceBefore};
ghost use Rattle.sled_oracle.specs.LowestHalf.{IsLowestHalf};

use sled_codec::result::Lsn;

/// Returns the last place up to which all above the start is in the intervals and no batch is cut in two.
///
/// It takes time in the square of the number of intervals. The lowest place of a batch is no `Lsn::MIN`.
pub fn stable_end_of(start: Lsn, intervals: &[(Lsn, Lsn)], batches: &[(Lsn, Lsn)]) -> Lsn
    ensures { All HasPlaceBefore batches.now → IsStableEnd start intervals.now batches.now result }
{
    let end = contiguous_end_of(start, intervals);
    match lowest_half_synced(end, batches) {
        Some(batch) => batch.0.saturating_sub(1),
        None => end,
    }
}

// The last place up to which all above the start is in the intervals.
fn contiguous_end_of(start: Lsn, intervals: &[(Lsn, Lsn)]) -> Lsn
    ensures { IsContiguousEnd start intervals.now result }
{
    let mut end = start;
    while let Some(further) = further_end(end, intervals) {
        end = further;
    }
    end
}

// The last place of an interval that begins one place behind the end at most, and goes further.
fn further_end(end: Lsn, intervals: &[(Lsn, Lsn)]) -> Option<Lsn>
    ensures { MatchOption result (All (λ i. LiesIn (end +ℤ pos 1) i → ⊥) intervals.now)
        (λ e. (end <ℤ e) × Any (λ i. (i.0 ≤ℤ (end +ℤ pos 1)) × (i.1 ≡ e)) intervals.now) }
{
    for interval in intervals {
        if leads_on(end, *interval) {
            return Some(interval.1);
        }
    }
    None
}

// Whether the interval begins one place behind the end at most, and goes further.
fn leads_on(end: Lsn, interval: (Lsn, Lsn)) -> bool
    ensures { MatchBool result ((end <ℤ interval.1) × (interval.0 ≤ℤ (end +ℤ pos 1))) (LiesIn (end +ℤ pos 1) interval → ⊥) }
{
    end < interval.1 && !is_beyond(end, interval.0)
}

// Whether a place is more than one behind the end.
fn is_beyond(end: Lsn, place: Lsn) -> bool
    ensures { MatchBool result ((end +ℤ pos 1) <ℤ place) (place ≤ℤ (end +ℤ pos 1)) }
{
    end < place && end < place - 1
}

// The lowest of the batches that are half synced at the end.
fn lowest_half_synced(end: Lsn, batches: &[(Lsn, Lsn)]) -> Option<(Lsn, Lsn)>
    ensures { IsLowestHalf end batches.now result }
{
    let mut lowest = None;
    for batch in batches {
        lowest = lower(end, lowest, *batch);
    }
    lowest
}

// The lowest, with one more batch.
fn lower(end: Lsn, lowest: Option<(Lsn, Lsn)>, batch: (Lsn, Lsn)) -> Option<(Lsn, Lsn)>
    ensures { (bs : List (ℤ × ℤ)) → IsLowestHalf end bs lowest → IsLowestHalf end (bs ++ batch ∷ []) result }
{
    if !is_half_synced(end, batch) {
        return lowest;
    }
    match lowest {
        None => Some(batch),
        Some(other) => {
            if other.0 <= batch.0 {
                Some(other)
            } else {
                Some(batch)
            }
        }
    }
}

// Whether the end lies inside the batch.
fn is_half_synced(end: Lsn, batch: (Lsn, Lsn)) -> bool
    ensures { MatchBool result (IsHalfSynced end batch) (IsHalfSynced end batch → ⊥) }
{
    batch.0 <= end && end < batch.1
}
