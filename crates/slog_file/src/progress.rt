//! How far the opening of a folder came, told on standard error where it takes long.
//!
//! The log file is told of each second, as it is read. Each further stage is told of as it begins, if a second or more has
//! passed since the opening began: so an opening that takes less says nothing.

use sled_file::Progress;
use std::fmt;
use std::time::Instant;

/// A stage of an opening, behind the reading of the log file.
#[derive(Debug, Clone, Copy, PartialEq)]
pub(crate) enum Stage {
    /// The files of blobs and snapshots are read.
    Named,
    /// The bytes are copied in memory.
    Copying,
    /// The pages are recovered from the copy.
    Recovering,
}

/// Which files the stage is about, and what is done with them.
impl fmt::Display for Stage {
    fn fmt<W: fmt::Write>(&self, f: &mut fmt::Formatter<W>) -> fmt::Result {
        match self {
            Stage::Named => write!(f, "blobs and snapshots are being read"),
            Stage::Copying => write!(f, "all files are being copied in memory"),
            Stage::Recovering => write!(f, "the pages are being recovered from the copy"),
        }
    }
}

/// Tells each second how much of the log file was read, and which stage follows.
#[derive(Drop)]
pub(crate) struct Told<'a> {
    rt: &'a HostRuntime,
    folder: &'a str,
    // When the opening began. Where there is no clock nothing is told.
    begun: Option<Instant>,
    // The second that was told of last.
    second: u64,
}

impl<'a> Told<'a> {
    /// The opening of a folder begins.
    pub(crate) fn begin(rt: &'a HostRuntime, folder: &'a str) -> Told<'a> {
        Told {
            rt,
            folder,
            begun: Instant::now(rt).ok(),
            second: 0,
        }
    }

    /// A stage begins.
    pub(crate) fn enter(&mut self, stage: Stage) {
        self.second = self.now();
        if self.second > 0 {
            let folder = self.folder;
            let _ = eprintln!(self.rt; "slog_file: {folder}: {stage}");
        }
    }

    // The second that the opening is in.
    fn now(&self) -> u64 {
        let Some(begun) = &self.begun else {
            return 0;
        };
        match begun.elapsed(self.rt) {
            Ok(passed) => passed.as_secs(),
            Err(_) => 0,
        }
    }
}

impl Progress for Told<'_> {
    fn has_read(&mut self, bytes: u64, of: u64) {
        let now = self.now();
        if now > self.second {
            self.second = now;
            let folder = self.folder;
            let _ = eprintln!(self.rt; "slog_file: {folder}/log: {bytes} of {of} bytes are read");
        }
        if bytes == of {
            self.enter(Stage::Named);
        }
    }
}
