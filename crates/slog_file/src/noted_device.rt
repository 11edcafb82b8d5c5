//! A device in memory that notes what is changed of its content.
ghost use Rattle.std.specs.Prelude.{◌≡◌};

use sled_log::device::{Device, MemDevice};
use std::alloc::Global;
use std::{fmt, io, mem};

/// A change of the content.
#[derive(Debug, Clone, Copy, PartialEq)]
pub(crate) enum Change {
    /// So many bytes of the log file become zeros, from an offset on.
    Zeros { at: u64, len: u64 },
    /// So many bytes are written to the log file, from an offset on.
    Write { at: u64, len: u64 },
    /// The log file is cut to a length.
    Cut { len: u64 },
    /// A blob is made.
    MakeBlob { place: i64 },
    /// A blob is removed.
    RemoveBlob { place: i64 },
    /// A snapshot is published under a number.
    Publish { number: i64 },
    /// A snapshot is removed.
    RemoveSnapshot { number: i64 },
}

impl Change {
    /// The word for it.
    pub(crate) fn word(&self) -> &'static str {
        match self {
            Change::Zeros { at: _, len: _ } => "zeros",
            Change::Write { at: _, len: _ } => "write",
            Change::Cut { len: _ } => "cut",
            Change::MakeBlob { place: _ } => "make-blob",
            Change::RemoveBlob { place: _ } => "remove-blob",
            Change::Publish { number: _ } => "publish",
            Change::RemoveSnapshot { number: _ } => "remove-snapshot",
        }
    }
}

impl fmt::Display for Change {
    fn fmt<W: fmt::Write>(&self, f: &mut fmt::Formatter<W>) -> fmt::Result {
        let word = self.word();
        match *self {
            Change::Zeros { at, len } | Change::Write { at, len } => {
                write!(f, "{word} {at} {len}")
            }
            Change::Cut { len } => write!(f, "{word} {len}"),
            Change::MakeBlob { place } | Change::RemoveBlob { place } => {
                write!(f, "{word} {place}")
            }
            Change::Publish { number } | Change::RemoveSnapshot { number } => {
                write!(f, "{word} {number}")
            }
        }
    }
}

/// The device.
#[derive(Drop)]
pub(crate) struct NotedDevice {
    memory: MemDevice,
    // The changes, in order.
    changes: Vec<Change>,
    /// Whether there was memory for all of them.
    pub(crate) is_complete: bool,
}

impl NotedDevice {
    /// A device of this content, of which nothing was changed yet.
    pub(crate) fn new(alloc: Global, memory: MemDevice) -> NotedDevice
        ensures { ⟦<NotedDevice as Device>⟧.trace result ≡ ⟦<MemDevice as Device>⟧.trace memory }
    {
        NotedDevice {
            memory,
            changes: Vec::new(alloc),
            is_complete: true,
        }
    }

    /// What was noted so far, which is forgotten.
    pub(crate) fn take_changes(&mut self, alloc: Global) -> Vec<Change>
        ensures { self.new.memory ≡ self.old.memory }
    {
        mem::replace(&mut self.changes, Vec::new(alloc))
    }

    // Notes a change.
    fn note(&mut self, change: Change)
        ensures { self.new.memory ≡ self.old.memory }
    {
        let is_noted = self.changes.push(change).is_ok();
        self.is_complete &= is_noted;
    }
}

// What writing these bytes makes of the log file.
fn written(at: u64, bytes: &[u8]) -> Change {
    let len = bytes.len() as u64;
    if bytes.iter().all(|byte| *byte == 0) {
        Change::Zeros { at, len }
    } else {
        Change::Write { at, len }
    }
}

// What is read, and what is done and fails, is what the device in memory has and does.
impl Device for NotedDevice {
    ghost trace = { λ device. ⟦<MemDevice as Device>⟧.trace device.memory };

    ghost faults = { λ device. ⟦<MemDevice as Device>⟧.faults device.memory };

    fn len(&mut self) -> io::Result<u64> {
        self.memory.len()
    }

    fn read_at(&mut self, at: u64, buf: &mut [u8]) -> io::Result<usize> {
        self.memory.read_at(at, buf)
    }

    fn write_at(&mut self, at: u64, bytes: &[u8]) -> io::Result<()> {
        self.note(written(at, bytes));
        self.memory.write_at(at, bytes)
    }

    fn cut(&mut self, len: u64) -> io::Result<()> {
        self.note(Change::Cut { len });
        self.memory.cut(len)
    }

    fn sync(&mut self) -> io::Result<()> {
        self.memory.sync()
    }

    fn blob_create(&mut self, place: i64, bytes: &[u8]) -> io::Result<()> {
        self.note(Change::MakeBlob { place });
        self.memory.blob_create(place, bytes)
    }

    fn blob_sync(&mut self, place: i64) -> io::Result<()> {
        self.memory.blob_sync(place)
    }

    fn blob_read(&mut self, place: i64) -> io::Result<Vec<u8>> {
        self.memory.blob_read(place)
    }

    fn blob_remove(&mut self, place: i64) -> io::Result<()> {
        self.note(Change::RemoveBlob { place });
        self.memory.blob_remove(place)
    }

    fn blobs(&mut self) -> io::Result<Vec<i64>> {
        self.memory.blobs()
    }

    fn snapshot_write(&mut self, bytes: &[u8]) -> io::Result<()> {
        self.memory.snapshot_write(bytes)
    }

    fn snapshot_publish(&mut self, number: i64) -> io::Result<()> {
        self.note(Change::Publish { number });
        self.memory.snapshot_publish(number)
    }

    fn snapshot_read(&mut self, number: i64) -> io::Result<Vec<u8>> {
        self.memory.snapshot_read(number)
    }

    fn snapshot_remove(&mut self, number: i64) -> io::Result<()> {
        self.note(Change::RemoveSnapshot { number });
        self.memory.snapshot_remove(number)
    }

    fn snapshots(&mut self) -> io::Result<Vec<i64>> {
        self.memory.snapshots()
    }

    fn sync_names(&mut self) -> io::Result<()> {
        self.memory.sync_names()
    }

    fn failures(&self) -> u64 {
        self.memory.failures()
    }
}
