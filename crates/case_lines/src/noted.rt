//! A device that passes each call on to another one, and notes those that change or sync.
ghost use Rattle.std.specs.Prelude.{◌≡◌};

use crate::texts::Text;
use sled_store::Device;
use std::alloc::Global;
use std::io;

/// The calls that were made, in order.
#[derive(Drop)]
pub struct Calls {
    /// A line for each.
    pub lines: Vec<Text>,
    /// Whether there was memory for all of them.
    pub is_complete: bool,
    alloc: Global,
}

impl Calls {
    /// No call.
    pub fn new(alloc: Global) -> Calls {
        Calls {
            lines: Vec::new(alloc),
            is_complete: true,
            alloc,
        }
    }

    // A line that begins with the name of a call.
    fn begun(&self, name: &str) -> Text {
        let mut line = Text::new(self.alloc);
        line.push("call ");
        line.push(name);
        line
    }

    // Notes a call by this name.
    fn note(&mut self, name: &str) {
        let line = self.begun(name);
        self.push(line);
    }

    // Notes a call of a number.
    fn note_number(&mut self, name: &str, number: u64) {
        let mut line = self.begun(name);
        line.push(" ");
        line.number(number);
        self.push(line);
    }

    // Notes a call of a place or of a snapshot's number.
    fn note_place(&mut self, name: &str, place: i64) {
        let mut line = self.begun(name);
        line.push(" ");
        line.signed(place);
        self.push(line);
    }

    // Notes a write: its offset, its length, and its bytes without the zeros at their end.
    fn note_write(&mut self, at: u64, bytes: &[u8]) {
        let mut line = self.begun("write_at ");
        line.number(at);
        line.push(" ");
        line.number(bytes.len() as u64);
        line.push(" ");
        line.hex(without_zeros(bytes));
        self.push(line);
    }

    // Notes a call with bytes.
    fn note_bytes(&mut self, name: &str, bytes: &[u8]) {
        let mut line = self.begun(name);
        line.push(" ");
        line.hex(bytes);
        self.push(line);
    }

    // Notes a call with bytes for a blob.
    fn note_blob(&mut self, place: i64, bytes: &[u8]) {
        let mut line = self.begun("blob_create ");
        line.signed(place);
        line.push(" ");
        line.hex(bytes);
        self.push(line);
    }

    fn push(&mut self, line: Text) {
        let is_noted = self.lines.push(line).is_ok();
        self.is_complete &= is_noted;
    }
}

// The bytes up to the last one that isn't zero.
fn without_zeros(bytes: &[u8]) -> &[u8] {
    match bytes.iter().rposition(|byte| *byte != 0) {
        Some(last) => bytes
            .split_at_checked(last.wrapping_add(1))
            .map(|(front, _)| front)
            .unwrap_or(bytes),
        None => &[],
    }
}

/// The device.
#[derive(Drop)]
pub struct Noted<D> {
    /// What each call is passed on to.
    pub device: D,
    /// What was noted.
    pub calls: Calls,
}

impl<D: Device> Device for Noted<D> {
    ghost trace = { λ noted. D.trace noted.device };

    ghost faults = { λ noted. D.faults noted.device };

    fn len(&mut self) -> io::Result<u64> {
        self.device.len()
    }

    fn read_at(&mut self, at: u64, buf: &mut [u8]) -> io::Result<usize> {
        self.device.read_at(at, buf)
    }

    fn write_at(&mut self, at: u64, bytes: &[u8]) -> io::Result<()> {
        self.calls.note_write(at, bytes);
        self.device.write_at(at, bytes)
    }

    fn cut(&mut self, len: u64) -> io::Result<()> {
        self.calls.note_number("cut", len);
        self.device.cut(len)
    }

    fn sync(&mut self) -> io::Result<()> {
        self.calls.note("sync");
        self.device.sync()
    }

    fn blob_create(&mut self, place: i64, bytes: &[u8]) -> io::Result<()> {
        self.calls.note_blob(place, bytes);
        self.device.blob_create(place, bytes)
    }

    fn blob_sync(&mut self, place: i64) -> io::Result<()> {
        self.calls.note_place("blob_sync", place);
        self.device.blob_sync(place)
    }

    fn blob_read(&mut self, place: i64) -> io::Result<Vec<u8>> {
        self.device.blob_read(place)
    }

    fn blob_remove(&mut self, place: i64) -> io::Result<()> {
        self.calls.note_place("blob_remove", place);
        self.device.blob_remove(place)
    }

    fn blobs(&mut self) -> io::Result<Vec<i64>> {
        self.device.blobs()
    }

    fn snapshot_write(&mut self, bytes: &[u8]) -> io::Result<()> {
        self.calls.note_bytes("snapshot_write", bytes);
        self.device.snapshot_write(bytes)
    }

    fn snapshot_publish(&mut self, number: i64) -> io::Result<()> {
        self.calls.note_place("snapshot_publish", number);
        self.device.snapshot_publish(number)
    }

    fn snapshot_read(&mut self, number: i64) -> io::Result<Vec<u8>> {
        self.device.snapshot_read(number)
    }

    fn snapshot_remove(&mut self, number: i64) -> io::Result<()> {
        self.calls.note_place("snapshot_remove", number);
        self.device.snapshot_remove(number)
    }

    fn snapshots(&mut self) -> io::Result<Vec<i64>> {
        self.device.snapshots()
    }

    fn sync_names(&mut self) -> io::Result<()> {
        self.calls.note("sync_names");
        self.device.sync_names()
    }

    fn failures(&self) -> u64 {
        self.device.failures()
    }
}
