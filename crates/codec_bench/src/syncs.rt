//! Intervals of places that are synced: what one costs, in order and out of order.

use crate::figure::{RUNS, Shortest, VALUES};
use crate::sequence::Sequence;
use sled_log::iobuf::StabilityIntervals;
use sled_log::logger::Lsn;
use std::alloc::{AllocError, Global};
use std::io;
use std::time::Instant;

/// How many places an interval has.
const PLACES: Lsn = 100;

/// Measures what an interval takes, where they come in order, and prints the shortest run.
pub fn measure_in_order(rt: &HostRuntime) -> io::Result<()> {
    let intervals = in_order(rt.alloc())?;
    measure(rt, "intervals in order", &intervals)
}

/// Measures what an interval takes, where windows of so many come one behind another, each in random order.
pub fn measure_shuffled(
    rt: &HostRuntime,
    name: &str,
    window: usize,
    sequence: &mut Sequence,
) -> io::Result<()> {
    let mut intervals = in_order(rt.alloc())?;
    for part in intervals.chunks_mut(window.max(1)) {
        shuffle(part, sequence);
    }
    measure(rt, name, &intervals)
}

// Prints the shortest run over these intervals.
fn measure(rt: &HostRuntime, name: &str, intervals: &[(Lsn, Lsn)]) -> io::Result<()> {
    let mut mark = Shortest::new();
    for _ in 0..RUNS {
        let start = Instant::now(rt)?;
        let end = mark_all(rt.alloc(), intervals)?;
        mark.add(start.elapsed(rt)?);
        if end != i64::from(VALUES) * PLACES - 1 {
            return Err(wrong());
        }
    }
    mark.print(rt, name, "mark_fsync", VALUES)
}

// Intervals one behind another.
fn in_order(alloc: Global) -> Result<Vec<(Lsn, Lsn)>, AllocError> {
    let mut intervals = Vec::new(alloc);
    for i in 0..VALUES {
        let low = i64::from(i) * PLACES;
        intervals.push((low, low + PLACES - 1))?;
    }
    Ok(intervals)
}

// Brings them into a random order.
fn shuffle(intervals: &mut [(Lsn, Lsn)], sequence: &mut Sequence) {
    for i in 1..intervals.len() {
        let j = sequence.word() as usize % (i + 1);
        intervals.swap(i, j);
    }
}

// Notes them one after the other, and answers the stable end.
fn mark_all(alloc: Global, intervals: &[(Lsn, Lsn)]) -> io::Result<Lsn> {
    let mut known = StabilityIntervals::new(alloc, -1);
    for interval in intervals {
        if interval.0 > interval.1 || interval.0 <= known.contiguous_end() {
            return Err(wrong());
        }
        if known.mark_fsync(*interval).is_err() {
            return Err(wrong());
        }
    }
    Ok(known.stable_end())
}

fn wrong() -> io::Error {
    io::Error::other("the intervals don't reach their end")
}
