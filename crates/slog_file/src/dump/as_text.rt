//! A dump as lines of words.

use crate::dump::Dump;
use crate::named_files::Faulty;
use crate::records::{Record, Slot, Walk, word_of};
use crate::words::{Optional, pointer_of};
use sled_log::logger::{LogOffset, MessageKind};
use sled_log::snapshot::Snapshot;
use std::io::{self, Write};

/// A line for each slot, record, blob and snapshot.
#[derive(Drop)]
pub(crate) struct TextDump<'a, W> {
    writer: &'a mut W,
}

impl<'a, W: Write> TextDump<'a, W> {
    /// Nothing is printed yet.
    pub(crate) fn new(writer: &'a mut W) -> TextDump<'a, W> {
        TextDump { writer }
    }

    // The records of a segment, and what ended them.
    fn walk(&mut self, walk: &Walk) -> io::Result<()> {
        for record in &walk.records {
            self.record(record)?;
        }
        writeln!(self.writer, "  end {} {}", walk.end, walk.ending)
    }

    fn record(&mut self, record: &Record) -> io::Result<()> {
        let (kind, page, place, len) = (
            word_of(record.kind),
            record.page,
            record.place,
            record.len,
        );
        let at = pointer_of(record.offset, record.blob);
        write!(
            self.writer,
            "  {kind} page {page} place {place} {at} length {len}"
        )?;
        match record.peg {
            Some(peg) => writeln!(self.writer, " peg {peg}"),
            None => writeln!(self.writer),
        }
    }
}

impl<W: Write> Dump for TextDump<'_, W> {
    fn log(&mut self, len: u64, segment_size: u64) -> io::Result<()> {
        writeln!(self.writer, "log {len} bytes, segments of {segment_size}")
    }

    fn slot(&mut self, offset: LogOffset, slot: &Slot) -> io::Result<()> {
        match slot {
            Slot::Segment { place, mark, walk } => {
                writeln!(
                    self.writer,
                    "slot {offset} segment place {place} mark {mark}"
                )?;
                self.walk(walk)
            }
            Slot::Misplaced { place, mark } => {
                writeln!(
                    self.writer,
                    "slot {offset} misplaced place {place} mark {mark}"
                )
            }
            Slot::Zeros => writeln!(self.writer, "slot {offset} zeros"),
            Slot::NoHeader => writeln!(self.writer, "slot {offset} no-header"),
            Slot::Short => writeln!(self.writer, "slot {offset} short"),
        }
    }

    fn blobs(&mut self) -> io::Result<()> {
        Ok(())
    }

    fn blob(&mut self, place: i64, len: u64, kind: &Result<MessageKind, Faulty>) -> io::Result<()> {
        write!(self.writer, "blob {place} {len} bytes ")?;
        match kind {
            Ok(kind) => writeln!(self.writer, "{}", word_of(*kind)),
            Err((at, fault)) => writeln!(self.writer, "damaged at {at}: {fault}"),
        }
    }

    fn snapshots(&mut self) -> io::Result<()> {
        Ok(())
    }

    fn snapshot(
        &mut self,
        number: i64,
        len: u64,
        snapshot: &Result<Snapshot, Faulty>,
    ) -> io::Result<()> {
        write!(self.writer, "snapshot {number} {len} bytes ")?;
        match snapshot {
            Ok(snapshot) => {
                let stable = Optional(snapshot.stable_lsn);
                let active = Optional(snapshot.active_segment);
                let pages = snapshot.pt.len();
                writeln!(self.writer, "stable {stable} active {active} pages {pages}")
            }
            Err((at, fault)) => writeln!(self.writer, "damaged at {at}: {fault}"),
        }
    }

    fn end(&mut self) -> io::Result<()> {
        Ok(())
    }
}
