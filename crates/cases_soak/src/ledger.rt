//! What a log file was and is, byte by byte, so that what a crash left can be tested for bytes that the log never placed.

use sled_log::device::{Choice, PlaceSum};
use sled_oracle::foreign::{LogNote, LogPast, LogWrite, is_log_own};
use std::alloc::{AllocError, Global};

/// A log file's past, and its bytes.
#[derive(Drop)]
pub struct Ledger {
    alloc: Global,
    size: u64,
    past: LogPast,
    bytes: Vec<u8>,
    settled: Vec<u8>,
    // What a crash is to leave.
    chosen: Vec<u8>,
    /// Whether some crash left what the log never placed.
    pub is_foreign: bool,
}

impl Ledger {
    /// Returns that of an empty file with segments of this size.
    pub fn new(alloc: Global, size: u64) -> Ledger {
        Ledger {
            alloc,
            size,
            past: LogPast {
                notes: Vec::new(alloc),
            },
            bytes: Vec::new(alloc),
            settled: Vec::new(alloc),
            chosen: Vec::new(alloc),
            is_foreign: false,
        }
    }

    /// Notes a write.
    pub fn write(&mut self, at: u64, bytes: &[u8]) {
        let _ = put(&mut self.bytes, at, bytes);
        if let Ok(copy) = bytes.to_vec(self.alloc) {
            let write = LogWrite::new(at, copy);
            let _ = self.past.notes.push(LogNote::Wrote(write));
        }
    }

    /// Notes that the file was cut to a length.
    pub fn cut(&mut self, len: u64) {
        self.bytes.truncate(len as usize);
    }

    /// Notes a sync.
    pub fn sync(&mut self) {
        if let Ok(copy) = self.bytes.to_vec(self.alloc) {
            let _ = self.past.notes.push(LogNote::Settled(copy));
        }
        copy_to(&mut self.settled, &self.bytes);
    }

    /// Notes what a crash is to leave.
    pub fn choose(&mut self, choice: &Choice) {
        match choice {
            Choice::Old(patch) => {
                copy_to(&mut self.chosen, &self.settled);
                patch_all(&mut self.chosen, patch);
            }
            Choice::New(patch) => {
                copy_to(&mut self.chosen, &self.bytes);
                patch_all(&mut self.chosen, patch);
            }
            Choice::Whole(_) => copy_to(&mut self.chosen, &self.settled),
        }
    }

    /// Notes that the device crashed, and left what was chosen or what was settled.
    pub fn crash(&mut self, is_taken: bool) {
        if is_taken {
            copy_to(&mut self.bytes, &self.chosen);
        } else {
            copy_to(&mut self.bytes, &self.settled);
        }
        let is_own = if self.size == 0 {
            true
        } else {
            is_log_own(self.alloc, &PlaceSum, self.size, &self.past, &self.bytes).unwrap_or(true)
        };
        self.is_foreign |= !is_own;
        self.sync();
    }
}

// Puts bytes at an offset, behind zeros where the file is shorter.
fn put(to: &mut Vec<u8>, at: u64, bytes: &[u8]) -> Result<(), AllocError> {
    let end = (at as usize).wrapping_add(bytes.len());
    if end > to.len() {
        to.resize(end, 0)?;
    }
    for (i, byte) in bytes.iter().enumerate() {
        if let Some(old) = to.get_mut((at as usize).wrapping_add(i)) {
            *old = *byte;
        }
    }
    Ok(())
}

// Puts the bytes of a patch in.
fn patch_all(to: &mut Vec<u8>, patch: &[(u64, u8)]) {
    for (at, byte) in patch {
        if let Some(old) = to.get_mut(*at as usize) {
            *old = *byte;
        }
    }
}

// Makes bytes the same as others.
fn copy_to(to: &mut Vec<u8>, from: &[u8]) {
    to.clear();
    let _ = to.extend_from_slice(from);
}
