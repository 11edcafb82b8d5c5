//! A dump as one object of JSON.

use crate::dump::Dump;
use crate::json::Json;
use crate::named_files::Faulty;
use crate::records::{Record, Slot, Walk, word_of};
use sled_log::logger::{LogOffset, MessageKind};
use sled_log::snapshot::Snapshot;
use std::alloc::Global;
use std::io::{self, Write};

/// An object with the log file, and lists of slots, blobs and snapshots.
#[derive(Drop)]
pub(crate) struct JsonDump<'a, W> {
    alloc: Global,
    folder: &'a str,
    json: Json<'a, W>,
}

impl<'a, W: Write> JsonDump<'a, W> {
    /// Nothing is printed yet.
    pub(crate) fn new(alloc: Global, folder: &'a str, writer: &'a mut W) -> JsonDump<'a, W> {
        JsonDump {
            alloc,
            folder,
            json: Json::new(writer),
        }
    }

    // What a slot is, with its place and its mark if it has them.
    fn state(&mut self, state: &str, place: Option<i64>, mark: Option<i64>) -> io::Result<()> {
        self.json.text(self.alloc, "state", state)?;
        self.json.place_or_null("place", place)?;
        self.json.place_or_null("mark", mark)
    }

    // The records of a segment, and what ended them.
    fn walk(&mut self, walk: &Walk) -> io::Result<()> {
        self.json.key("records")?;
        self.json.open("[")?;
        for record in &walk.records {
            self.record(record)?;
        }
        self.json.close("]")?;
        self.json.number("end", walk.end)?;
        let ending = format!(in self.alloc; "{}", walk.ending)?;
        self.json.text(self.alloc, "ended_by", ending.as_str())
    }

    fn record(&mut self, record: &Record) -> io::Result<()> {
        self.json.open("{")?;
        self.json.text(self.alloc, "kind", word_of(record.kind))?;
        self.json.number("page", record.page)?;
        self.json.number("place", record.place)?;
        self.json.number("offset", record.offset)?;
        self.json.place_or_null("blob", record.blob)?;
        self.json.number("length", record.len)?;
        self.json.place_or_null("peg", record.peg)?;
        self.json.close("}")
    }

    // What is wrong with a file.
    fn fault(&mut self, faulty: &Faulty) -> io::Result<()> {
        self.json.number("damaged_at", faulty.0)?;
        let fault = format!(in self.alloc; "{}", faulty.1)?;
        self.json.text(self.alloc, "damage", fault.as_str())
    }
}

impl<W: Write> Dump for JsonDump<'_, W> {
    fn log(&mut self, len: u64, segment_size: u64) -> io::Result<()> {
        self.json.open("{")?;
        self.json.text(self.alloc, "folder", self.folder)?;
        self.json.number("log_bytes", len)?;
        self.json.number("segment_size", segment_size)?;
        self.json.key("slots")?;
        self.json.open("[")
    }

    fn slot(&mut self, offset: LogOffset, slot: &Slot) -> io::Result<()> {
        self.json.open("{")?;
        self.json.number("offset", offset)?;
        match slot {
            Slot::Segment { place, mark, walk } => {
                self.state("segment", i64::try_from(*place).ok(), Some(*mark))?;
                self.walk(walk)?;
            }
            Slot::Misplaced { place, mark } => {
                self.state("misplaced", Some(*place), Some(*mark))?
            }
            Slot::Zeros => self.state("zeros", None, None)?,
            Slot::NoHeader => self.state("no-header", None, None)?,
            Slot::Short => self.state("short", None, None)?,
        }
        self.json.close("}")
    }

    fn blobs(&mut self) -> io::Result<()> {
        self.json.close("]")?;
        self.json.key("blobs")?;
        self.json.open("[")
    }

    fn blob(&mut self, place: i64, len: u64, kind: &Result<MessageKind, Faulty>) -> io::Result<()> {
        self.json.open("{")?;
        self.json.place("place", place)?;
        self.json.number("bytes", len)?;
        match kind {
            Ok(kind) => self.json.text(self.alloc, "kind", word_of(*kind))?,
            Err(faulty) => self.fault(faulty)?,
        }
        self.json.close("}")
    }

    fn snapshots(&mut self) -> io::Result<()> {
        self.json.close("]")?;
        self.json.key("snapshots")?;
        self.json.open("[")
    }

    fn snapshot(
        &mut self,
        number: i64,
        len: u64,
        snapshot: &Result<Snapshot, Faulty>,
    ) -> io::Result<()> {
        self.json.open("{")?;
        self.json.place("number", number)?;
        self.json.number("bytes", len)?;
        match snapshot {
            Ok(snapshot) => self.json.coordinates(snapshot)?,
            Err(faulty) => self.fault(faulty)?,
        }
        self.json.close("}")
    }

    fn end(&mut self) -> io::Result<()> {
        self.json.close("]")?;
        self.json.close("}")?;
        self.json.end_line()
    }
}
