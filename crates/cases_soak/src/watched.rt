//! A device that passes each call on to another one, and notes what of the log file a crash may lose.
//!
//! So patches can be chosen in that range, and the answer to a crash be judged. Where it is asked for, it also notes each
//! write and each content of the log file, by which `sled_oracle` tells whether a crash left something foreign.

use crate::ledger::Ledger;
use sled_log::device::{Choice, CrashDevice, Device};
use std::alloc::Global;
use std::io;

/// What was noted.
#[derive(Drop)]
pub struct Notes {
    // How long the log file is, and how long it was at the last sync or crash.
    len: u64,
    settled: u64,
    // What was written since then, each from an offset to another.
    unsynced: Vec<(u64, u64)>,
    // All from here on was cut off since then.
    cut: u64,
    /// The last write: its offset, and its bytes.
    pub latest: (u64, Vec<u8>),
    /// How often the log file was cut.
    pub cuts: u64,
    /// A crash was answered otherwise than it should have been.
    pub is_misjudged: bool,
    /// What is needed to tell what is foreign, where that is asked for.
    pub ledger: Option<Ledger>,
}

impl Notes {
    /// Nothing.
    pub fn new(alloc: Global, ledger: Option<Ledger>) -> Notes {
        Notes {
            len: 0,
            settled: 0,
            unsynced: Vec::new(alloc),
            cut: 0,
            latest: (0, Vec::new(alloc)),
            cuts: 0,
            is_misjudged: false,
            ledger,
        }
    }

    /// Returns the last range that was written and not synced, of which the file has something.
    pub fn unsynced(&self) -> Option<(u64, u64)> {
        self.unsynced.last().copied()
    }

    /// Returns how long the log file is, or was at the last sync.
    pub fn len(&self, is_old: bool) -> u64 {
        if is_old { self.settled } else { self.len }
    }

    /// Whether something foreign was left by a crash, where that was to be told.
    pub fn is_foreign(&self) -> bool {
        match &self.ledger {
            Some(ledger) => ledger.is_foreign,
            None => false,
        }
    }

    fn wrote(&mut self, at: u64, bytes: &[u8]) {
        let end = at.wrapping_add(bytes.len() as u64);
        let _ = self.unsynced.push((at.min(self.len), end));
        self.len = end.max(self.len);
        self.latest.0 = at;
        self.latest.1.clear();
        let _ = self.latest.1.extend_from_slice(bytes);
        if let Some(ledger) = &mut self.ledger {
            ledger.write(at, bytes);
        }
    }

    fn cut(&mut self, len: u64) {
        self.cuts = self.cuts.wrapping_add(1);
        self.len = len.min(self.len);
        self.cut = len.min(self.cut);
        if let Some(ledger) = &mut self.ledger {
            ledger.cut(len);
        }
    }

    fn synced(&mut self) {
        self.settle(self.len);
        if let Some(ledger) = &mut self.ledger {
            ledger.sync();
        }
    }

    // All is settled, and the file so long.
    fn settle(&mut self, len: u64) {
        self.len = len;
        self.settled = len;
        self.cut = len;
        self.unsynced.clear();
    }

    // Whether a crash may leave what was chosen, as far as it is known here.
    fn may_leave(&self, choice: &Choice) -> Option<bool> {
        match choice {
            Choice::Old(patch) => self.may_patch(patch, self.settled),
            Choice::New(patch) => self.may_patch(patch, self.len),
            Choice::Whole(_) => None,
        }
    }

    // Whether a patch may be left in a file of this length: not where it lies outside, and always where all of it may be
    // lost. Of other bytes nothing is known here.
    fn may_patch(&self, patch: &[(u64, u8)], len: u64) -> Option<bool> {
        let mut is_known = true;
        for (at, _) in patch {
            if *at >= len {
                return Some(false);
            }
            is_known &= self.may_lose(*at);
        }
        if is_known { Some(true) } else { None }
    }

    // Whether a crash may leave any byte at an offset.
    fn may_lose(&self, at: u64) -> bool {
        if at >= self.cut {
            return true;
        }
        for (from, to) in &self.unsynced {
            if *from <= at && at < *to {
                return true;
            }
        }
        false
    }

    // Compares the answer to a crash with what was wanted, and goes on with what is left.
    fn crashed(&mut self, wanted: Option<bool>, is_old: bool, is_taken: bool) {
        if let Some(wanted) = wanted
            && wanted != is_taken
        {
            self.is_misjudged = true;
        }
        let len = self.len(is_old || !is_taken);
        self.settle(len);
        if let Some(ledger) = &mut self.ledger {
            ledger.crash(is_taken);
        }
    }

    // Notes what is to be left of the log file.
    fn chosen(&mut self, choice: &Choice) {
        if let Some(ledger) = &mut self.ledger {
            ledger.choose(choice);
        }
    }
}

/// The device.
#[derive(Drop)]
pub struct Watched<D> {
    /// What each call is passed on to.
    pub device: D,
    /// What was noted.
    pub notes: Notes,
}

impl<D: Device> Device for Watched<D> {
    ghost trace = { λ watched. D.trace watched.device };

    ghost faults = { λ watched. D.faults watched.device };

    fn len(&mut self) -> io::Result<u64> {
        self.device.len()
    }

    fn read_at(&mut self, at: u64, buf: &mut [u8]) -> io::Result<usize> {
        self.device.read_at(at, buf)
    }

    fn write_at(&mut self, at: u64, bytes: &[u8]) -> io::Result<()> {
        self.notes.wrote(at, bytes);
        self.device.write_at(at, bytes)
    }

    fn cut(&mut self, len: u64) -> io::Result<()> {
        self.notes.cut(len);
        self.device.cut(len)
    }

    fn sync(&mut self) -> io::Result<()> {
        let answer = self.device.sync();
        if answer.is_ok() {
            self.notes.synced();
        }
        answer
    }

    fn blob_create(&mut self, place: i64, bytes: &[u8]) -> io::Result<()> {
        self.device.blob_create(place, bytes)
    }

    fn blob_sync(&mut self, place: i64) -> io::Result<()> {
        self.device.blob_sync(place)
    }

    fn blob_read(&mut self, place: i64) -> io::Result<Vec<u8>> {
        self.device.blob_read(place)
    }

    fn blob_remove(&mut self, place: i64) -> io::Result<()> {
        self.device.blob_remove(place)
    }

    fn blobs(&mut self) -> io::Result<Vec<i64>> {
        self.device.blobs()
    }

    fn snapshot_write(&mut self, bytes: &[u8]) -> io::Result<()> {
        self.device.snapshot_write(bytes)
    }

    fn snapshot_publish(&mut self, number: i64) -> io::Result<()> {
        self.device.snapshot_publish(number)
    }

    fn snapshot_read(&mut self, number: i64) -> io::Result<Vec<u8>> {
        self.device.snapshot_read(number)
    }

    fn snapshot_remove(&mut self, number: i64) -> io::Result<()> {
        self.device.snapshot_remove(number)
    }

    fn snapshots(&mut self) -> io::Result<Vec<i64>> {
        self.device.snapshots()
    }

    fn sync_names(&mut self) -> io::Result<()> {
        self.device.sync_names()
    }

    fn failures(&self) -> u64 {
        self.device.failures()
    }
}

impl<D: CrashDevice> CrashDevice for Watched<D> {
    ghost is_stopped = { λ watched. D.is_stopped watched.device };

    ghost fails_in = { λ watched. D.fails_in watched.device };

    fn stop_after(&mut self, n: u64) {
        self.device.stop_after(n);
    }

    fn stopped(&self) -> bool {
        self.device.stopped()
    }

    fn crash(&mut self, choice: Choice) -> bool {
        let wanted = self.notes.may_leave(&choice);
        let is_old = matches!(&choice, Choice::Old(_));
        self.notes.chosen(&choice);
        let is_taken = self.device.crash(choice);
        self.notes.crashed(wanted, is_old, is_taken);
        is_taken
    }
}
