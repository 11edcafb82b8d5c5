//! Which places of the log are durable. Intervals of places are synced in any order, and a batch counts only as a whole:
//! the stable end is the last place up to which all is durable, with no batch cut in two (`specs/StableEnds.antt`). Kept are
//! the contiguous end, the intervals beyond it, of which the lowest comes out first, and by place the batches that aren't
//! wholly synced. What was given since the beginning is `Knows` (`specs/Synced.antt`).
ghost use Rattle.std.specs.Prelude.{◌≡◌, ◌≤◌, ◌<◌, ◌+◌, ◌≤ℤ◌, ◌<ℤ◌, ◌+ℤ◌, pos, MatchBool, OnSome, ℤ, List, [], ◌∷◌, length, All, Contains, Some, IfOk, OnOk, OnErr, IfSome, IfNone, IsOk, IsOkUnless};
ghost use Rattle.std.specs.List.{AllWithin};
ghost use Rattle.std.specs.BinaryHeap.{IsHeap, HeapUnchanged, heap_items, heap_len, heap_capacity};
ghost use Rattle.std.specs.VecDeque.{deque_len, deque_capacity};
ghost use Rattle.std.proofs.Props.{props};
ghost use Rattle.sled_core.specs.StableEnds.{IsContiguousEnd, IsStableEnd, IsOpenAround, AreApart, AreInOrder, Reaches, AreWaiting, HasPlaceBefore, end_before, turned};
ghost use Rattle.sled_core.specs.inside.StableEnds.{lowest_first};

use sled_codec::result::{Error, Lsn, Result};
use std::alloc::Global;
use std::cmp::Reverse;
use std::collections::{BinaryHeap, VecDeque};

/// Which places of the log are durable: the intervals that were synced and the batches that were noted since it began.
#[derive(Drop)]
pub struct StabilityIntervals {
    /// All places up to here are synced.
    contiguous: Lsn,
    /// The intervals beyond it; the lowest is the greatest.
    ahead: BinaryHeap<Reverse<(Lsn, Lsn)>>,
    /// The batches that aren't wholly synced, by place.
    batches: VecDeque<(Lsn, Lsn)>,
    ghost ordered: { IsHeap lowest_first (heap_items ahead) } by { Prim.hlevel props },
    ghost bounded: { All HasPlaceBefore batches.items },
}

impl StabilityIntervals {
    ghost use Rattle.sled_core.specs.Synced.{Knows, IntervalsUnchanged, contiguous_of, stable_of, sync_room, batch_room};

    /// Returns one that knows of no interval and no batch, for the places above this one. It takes no memory.
    pub fn new(alloc: Global, lsn: Lsn) -> StabilityIntervals
        ensures knows { Knows result lsn [] [] }
        ensures stable { stable_of result ≡ lsn }
        ensures contiguous { contiguous_of result ≡ lsn }
    {
        StabilityIntervals {
            contiguous: lsn,
            ahead: BinaryHeap::new(alloc),
            batches: VecDeque::new(alloc),
        }
    }

    /// Returns the last place up to which all is synced, whatever batches lie there.
    pub fn contiguous_end(&self) -> Lsn
        ensures is { result ≡ contiguous_of self.now }
        ensures contiguous { (s : ℤ) (is bs : List (ℤ × ℤ)) → Knows self.now s is bs → IsContiguousEnd s is result }
    {
        // Batches don't count here.
        self.contiguous
    }

    /// Returns the last place up to which all is synced and no batch is cut in two.
    pub fn stable_end(&self) -> Lsn
        ensures is { result ≡ stable_of self.now }
        ensures stable { (s : ℤ) (is bs : List (ℤ × ℤ)) → Knows self.now s is bs → IsStableEnd s is bs result }
    {
        match self.batches.front() {
            Some(batch) if batch.0 <= self.contiguous => batch.0 - 1,
            _ => self.contiguous,
        }
    }

    /// Returns the peg of the batch that this place is in, below its peg, if there is one that isn't wholly synced.
    pub fn batch_end(&self, place: Lsn) -> Option<Lsn>
        ensures found { (s : ℤ) (is bs : List (ℤ × ℤ)) → Knows self.now s is bs → (batch : ℤ × ℤ) → Contains bs batch
            → IsOpenAround (contiguous_of self.now) place batch → result ≡ Some batch.1 }
        ensures only { IfSome result (λ peg. (s : ℤ) (is bs : List (ℤ × ℤ)) → Knows self.now s is bs
            → (low : ℤ) × Contains bs (low, peg) × IsOpenAround (contiguous_of self.now) place (low, peg)) }
    {
        let batch = *self.batches.get(ended_by(&self.batches, place))?;
        if batch.0 <= place {
            Some(batch.1)
        } else {
            None
        }
    }

    /// Makes room for more intervals, so that as many calls of `mark_fsync` take no memory.
    ///
    /// # Errors
    ///
    /// `OutOfMemory` where memory was refused.
    pub fn reserve_syncs(&mut self, more: usize) -> Result<()>
        ensures unchanged { IntervalsUnchanged self.old self.new }
        ensures room { OnOk result (more ≤ sync_room self.new) }
        ensures err { IsOkUnless result Error.OutOfMemory }
    {
        self.ahead.reserve(more)?;
        Ok(())
    }

    /// Makes room for more batches, so that as many calls of `mark_batch` take no memory.
    ///
    /// # Errors
    ///
    /// `OutOfMemory` where memory was refused.
    pub fn reserve_batches(&mut self, more: usize) -> Result<()>
        ensures unchanged { IntervalsUnchanged self.old self.new }
        ensures room { OnOk result (more ≤ batch_room self.new) }
        ensures err { IsOkUnless result Error.OutOfMemory }
    {
        self.batches.reserve(more)?;
        Ok(())
    }

    /// Notes a batch: its lowest place, above the stable end, and its peg. It shares no place with another one.
    ///
    /// # Errors
    ///
    /// `OutOfMemory` where memory was refused; nothing has changed then.
    pub fn mark_batch(&mut self, batch: (Lsn, Lsn)) -> Result<()>
        requires ordered { batch.0 ≤ℤ batch.1 }
        requires above { stable_of self.old <ℤ batch.0 }
        ensures knows { OnOk result ((s : ℤ) (is bs : List (ℤ × ℤ)) → Knows self.old s is bs → All (AreApart batch) bs → Knows self.new s is (batch ∷ bs)) }
        ensures stays { (s : ℤ) (is bs : List (ℤ × ℤ)) → Knows self.old s is bs → All (AreApart batch) bs → stable_of self.new ≡ stable_of self.old }
        ensures contiguous { contiguous_of self.new ≡ contiguous_of self.old }
        ensures unchanged { OnErr result (IntervalsUnchanged self.old self.new) }
        ensures err { IsOkUnless result Error.OutOfMemory }
        ensures fits { 0 < batch_room self.old → IsOk result }
        ensures room { batch_room self.old ≤ batch_room self.new + 1 }
        ensures sync_room { sync_room self.new ≡ sync_room self.old }
    {
        prove!(self.stable_end() < batch.0);
        let at = ended_by(&self.batches, batch.0);
        self.batches.insert(at, batch)?;
        Ok(())
    }

    /// Notes that an interval beyond the contiguous end was synced, both of its places included. Returns the stable end.
    ///
    /// # Errors
    ///
    /// `OutOfMemory` where memory was refused; nothing has changed then.
    pub fn mark_fsync(&mut self, interval: (Lsn, Lsn)) -> Result<Lsn>
        requires ordered { interval.0 ≤ℤ interval.1 }
        requires beyond { contiguous_of self.old <ℤ interval.0 }
        ensures knows { OnOk result ((s : ℤ) (is bs : List (ℤ × ℤ)) → Knows self.old s is bs → Knows self.new s (interval ∷ is) bs) }
        ensures stable { IfOk result (λ r. (s : ℤ) (is bs : List (ℤ × ℤ)) → Knows self.old s is bs → IsStableEnd s (interval ∷ is) bs r) }
        ensures is { IfOk result (λ r. r ≡ stable_of self.new) }
        ensures rises { IfOk result (λ r. (s : ℤ) (is bs : List (ℤ × ℤ)) → Knows self.old s is bs → stable_of self.old ≤ℤ r) }
        ensures contiguous { contiguous_of self.old ≤ℤ contiguous_of self.new }
        ensures unchanged { OnErr result (IntervalsUnchanged self.old self.new) }
        ensures err { IsOkUnless result Error.OutOfMemory }
        ensures fits { 0 < sync_room self.old → IsOk result }
        ensures room { sync_room self.old ≤ sync_room self.new + 1 }
        ensures batch_room { batch_room self.old ≤ batch_room self.new }
    {
        if is_beyond(self.contiguous, interval.0) {
            self.ahead.push(Reverse(interval))?;
            return Ok(self.stable_end());
        }
        self.contiguous = take_in(interval.1, &mut self.ahead);
        drop_synced(&mut self.batches, self.contiguous);
        Ok(self.stable_end())
    }
}

// Whether a place is more than one behind the end.
fn is_beyond(end: Lsn, place: Lsn) -> bool
    ensures { MatchBool result ((end +ℤ pos 1) <ℤ place) (place ≤ℤ (end +ℤ pos 1)) }
{
    end < place && end < place - 1
}

// Moves the end over the intervals that begin one place behind it at most, and takes them out.
fn take_in(from: Lsn, ahead: &mut BinaryHeap<Reverse<(Lsn, Lsn)>>) -> Lsn
    requires { IsHeap lowest_first (heap_items ahead.old) }
    ensures ordered { IsHeap lowest_first (heap_items ahead.new) }
    ensures reaches { (s : ℤ) (is : List (ℤ × ℤ)) → Reaches s is from (turned (heap_items ahead.old)) → Reaches s is result (turned (heap_items ahead.new)) }
    ensures end { (s : ℤ) (is : List (ℤ × ℤ)) → Reaches s is from (turned (heap_items ahead.old)) → IsContiguousEnd s is result }
    ensures beyond { All (λ i. (result +ℤ pos 1) <ℤ i.0) (turned (heap_items ahead.new)) }
    ensures forward { from ≤ℤ result }
    ensures fewer { heap_len ahead.new ≤ heap_len ahead.old }
    ensures room { heap_capacity ahead.new ≡ heap_capacity ahead.old }
{
    let mut end = from;
    while let Some(further) = take_next(end, ahead) {
        end = further;
    }
    end
}

// Takes out the lowest interval, where it begins one place behind the end at most, and returns the end behind it.
fn take_next(end: Lsn, ahead: &mut BinaryHeap<Reverse<(Lsn, Lsn)>>) -> Option<Lsn>
    requires { IsHeap lowest_first (heap_items ahead.old) }
    ensures ordered { IsHeap lowest_first (heap_items ahead.new) }
    ensures reaches { IfSome result (λ e. (s : ℤ) (is : List (ℤ × ℤ)) → Reaches s is end (turned (heap_items ahead.old))
        → Reaches s is e (turned (heap_items ahead.new))) }
    ensures forward { IfSome result (λ e. end ≤ℤ e) }
    ensures fewer { OnSome result (heap_len ahead.new < heap_len ahead.old) }
    ensures end { IfNone result ((s : ℤ) (is : List (ℤ × ℤ)) → Reaches s is end (turned (heap_items ahead.old)) → IsContiguousEnd s is end) }
    ensures beyond { IfNone result (All (λ i. (end +ℤ pos 1) <ℤ i.0) (turned (heap_items ahead.new))) }
    ensures unchanged { IfNone result (HeapUnchanged ahead.old ahead.new) }
    ensures room { heap_capacity ahead.new ≡ heap_capacity ahead.old }
{
    let Reverse((low, high)) = *ahead.peek()?;
    if is_beyond(end, low) {
        return None;
    }
    let _ = ahead.pop();
    Some(end.max(high))
}

// Drops the batches that are wholly synced at the end.
fn drop_synced(batches: &mut VecDeque<(Lsn, Lsn)>, end: Lsn)
    ensures awaits { (bs : List (ℤ × ℤ)) → AreWaiting bs end batches.old.items → AreWaiting bs end batches.new.items }
    ensures open_yet { AreInOrder batches.old.items → All (λ b. end <ℤ b.1) batches.new.items }
    ensures rises { AreInOrder batches.old.items → end_before end batches.old.items ≤ℤ end_before end batches.new.items }
    ensures bounded { All HasPlaceBefore batches.old.items → All HasPlaceBefore batches.new.items }
    ensures fewer { deque_len batches.new ≤ deque_len batches.old }
    ensures room { deque_capacity batches.new ≡ deque_capacity batches.old }
{
    while let Some(batch) = batches.front() {
        if end < batch.1 {
            break;
        }
        let _ = batches.pop_front();
    }
}

// How many of the batches, which are in order, have their peg at the place or before it.
fn ended_by(batches: &VecDeque<(Lsn, Lsn)>, place: Lsn) -> usize
    ensures within { result ≤ deque_len batches.now }
    ensures below { AreInOrder batches.now.items → AllWithin (λ b. b.1 ≤ℤ place) batches.now.items 0 result }
    ensures above { AreInOrder batches.now.items → AllWithin (λ b. place <ℤ b.1) batches.now.items result (length batches.now.items) }
{
    batches.partition_point(|batch| batch.1 <= place)
}
