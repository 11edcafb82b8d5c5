//! Which places of the log are durable: intervals that are synced, batches that wait for them, and the stable end behind each
//! (`data/README.md`). Each stable end is compared with the slow one as well, over all that was given since the beginning.

use case_lines::lines::{Fault, Words, asked_and_wanted};
use case_lines::tally::Tally;
use case_lines::texts::Text;
use sled_log::iobuf::StabilityIntervals;
use sled_log::logger::Lsn;
use sled_oracle::intervals::stable_end_of;
use std::alloc::Global;

/// Runs the lines of a file.
pub fn run(alloc: Global, text: &str, tally: &mut Tally<'_>) {
    let mut case = Case::new(alloc, -1);
    for (at, line) in text.lines().enumerate() {
        if let Some((asked, wanted)) = asked_and_wanted(line) {
            let mut came = Text::new(alloc);
            case.line(asked, &mut came);
            tally.case(at.wrapping_add(1), wanted, came.as_str());
        }
    }
}

// What was given since the last beginning, and what knows of it.
#[derive(Drop)]
struct Case {
    alloc: Global,
    start: Lsn,
    synced: Vec<(Lsn, Lsn)>,
    batches: Vec<(Lsn, Lsn)>,
    intervals: StabilityIntervals,
}

impl Case {
    // Nothing, behind this place.
    fn new(alloc: Global, start: Lsn) -> Case {
        Case {
            alloc,
            start,
            synced: Vec::new(alloc),
            batches: Vec::new(alloc),
            intervals: StabilityIntervals::new(alloc, start),
        }
    }

    // Runs a line, and writes what it answers.
    fn line(&mut self, asked: &str, out: &mut Text) {
        let mut words = Words::new(asked);
        match words.word() {
            "new" => *self = Case::new(self.alloc, words.signed()),
            "reserve" => self.reserve(words.number() as usize, words.number() as usize, out),
            "batch" => self.batch((words.signed(), words.signed()), out),
            "fsync" => self.fsync((words.signed(), words.signed()), out),
            "stable" => out.signed(self.intervals.stable_end()),
            "contiguous" => out.signed(self.intervals.contiguous_end()),
            "ask" => out.signed_or_dash(self.intervals.batch_end(words.signed())),
            _ => words.bad("no such line"),
        }
        if let Err(Fault(why)) = words.end() {
            out.push(why);
        }
    }

    // Makes room for so many more intervals and batches.
    fn reserve(&mut self, syncs: usize, batches: usize, out: &mut Text) {
        if self.intervals.reserve_syncs(syncs).is_err()
            || self.intervals.reserve_batches(batches).is_err()
        {
            out.push("out of memory");
        }
    }

    // Notes a batch.
    fn batch(&mut self, batch: (Lsn, Lsn), out: &mut Text) {
        if batch.0 > batch.1 || batch.0 <= self.intervals.stable_end() {
            out.push("no batch above the stable end");
            return;
        }
        if self.batches.push(batch).is_err() || self.intervals.mark_batch(batch).is_err() {
            out.push("out of memory");
        }
    }

    // Notes that an interval was synced, and writes the stable end.
    fn fsync(&mut self, interval: (Lsn, Lsn), out: &mut Text) {
        if interval.0 > interval.1 || interval.0 <= self.intervals.contiguous_end() {
            out.push("no interval beyond the contiguous end");
            return;
        }
        if self.synced.push(interval).is_err() {
            out.push("out of memory");
            return;
        }
        match self.intervals.mark_fsync(interval) {
            Ok(end) => self.compared(end, out),
            Err(e) => out.error(&e),
        }
    }

    // Writes a stable end, and beside it the slow one where that is another.
    fn compared(&self, end: Lsn, out: &mut Text) {
        out.signed(end);
        let slow = stable_end_of(self.start, &self.synced, &self.batches);
        if slow != end {
            out.push(", and slowly ");
            out.signed(slow);
        }
    }
}
