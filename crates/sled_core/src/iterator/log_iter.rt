//! The messages of a log file by place, each once (`specs/Iterates.antt`).
//!
//! An iterator keeps the segments that it goes over, and of one of them the records. A segment is read when its first record
//! is asked for, and a blob when it is the turn of the record that names it.
ghost use Rattle.std.specs.Prelude.{◌≡◌, None, Some, IfSome};
ghost use Rattle.std.specs.Iterator.{at_most};
ghost use Rattle.std.proofs.Props.{props};
ghost use Rattle.sled_codec.specs.Errors.{IsCorrupt};
ghost use Rattle.sled_core.specs.Ahead.{CanGoOn};
ghost use Rattle.sled_core.specs.inside.Ahead.{IsSpent};
ghost use Rattle.sled_core.specs.inside.Sources.{size_in};

use crate::iterator::rest::Rest;
use crate::logger::Log;
use sled_codec::result::{DiskPtr, Error, Lsn, PageId, Result};
use sled_codec::serialization::{Checksum, LogKind};
use sled_store::{Device, RunningConfig};

/// What an iterator borrows: what a log file is on, or the log itself, which keeps a failure of its device.
#[derive(Drop)]
pub(crate) enum Source<'a, D, C> {
    /// No log runs on it.
    File(&'a mut RunningConfig<D, C>),
    /// A log.
    Log(&'a mut Log<D, C>),
}

/// Goes over the messages of a log file, and borrows what that is on, or the log (`into_config` and `into_log` give it back).
/// It ends: a number bounds what is ahead of it. What a call of `next` gives is `IsNext` of `specs/Iterators.antt`.
#[derive(Drop)]
pub struct LogIter<'a, D, C> {
    pub(crate) source: Source<'a, D, C>,
    /// Why nothing can be gone over. That is its one item then.
    pub(crate) refusal: Option<Error>,
    pub(crate) rest: Rest,
    ghost fits: { CanGoOn (size_in source) rest },
    ghost undamaged: { IfSome refusal (λ e. IsCorrupt e → ⊥) } by { Prim.hlevel props },
    ghost spent: { IfSome refusal (λ e. IsSpent rest) } by { Prim.hlevel props },
}

impl<'a, D, C> LogIter<'a, D, C> {
    ghost use Rattle.sled_core.specs.Iterators.{BorrowsFile, BorrowsLog};

    /// Returns an iterator over what is left, on the device of this configuration.
    pub fn new(config: &'a mut RunningConfig<D, C>, rest: Rest) -> LogIter<'a, D, C>
        requires { CanGoOn config.old.config.segment_size rest }
        ensures rest { result.rest ≡ rest }
        ensures begun { result.refusal ≡ None }
        ensures borrows { BorrowsFile config.entry config.old result }
    {
        LogIter {
            source: Source::File(config),
            refusal: None,
            rest,
        }
    }

    /// Returns an iterator over what is left of a log.
    pub(crate) fn over_log(log: &'a mut Log<D, C>, rest: Rest) -> LogIter<'a, D, C>
        requires { CanGoOn log.old.config.config.segment_size rest }
        ensures rest { result.rest ≡ rest }
        ensures begun { result.refusal ≡ None }
        ensures borrows { BorrowsLog log.entry result }
    {
        LogIter {
            source: Source::Log(log),
            refusal: None,
            rest,
        }
    }

    /// Returns an iterator of a log with this error for its one item. Nothing is left.
    pub(crate) fn refused(log: &'a mut Log<D, C>, rest: Rest, e: Error) -> LogIter<'a, D, C>
        requires can { CanGoOn log.old.config.config.segment_size rest }
        requires spent { IsSpent rest }
        requires undamaged { IsCorrupt e → ⊥ }
        ensures refusal { result.refusal ≡ Some e }
        ensures borrows { BorrowsLog log.entry result }
    {
        LogIter {
            source: Source::Log(log),
            refusal: Some(e),
            rest,
        }
    }
}

impl<'a, D, C> LogIter<'a, D, C> {
    ghost use Rattle.sled_core.specs.Iterators.{IsFileOf, IsLogOf};

    /// Ends the iteration, and gives the log back, where it is over one. What is known of the log then is what the iterator kept of it.
    pub fn into_log(self) -> Option<&'a mut Log<D, C>>
        ensures { IsLogOf self.entry result }
    {
        let LogIter {
            source,
            refusal: _,
            rest: _,
        } = self;
        match source {
            Source::Log(log) => Some(log),
            Source::File(_) => None,
        }
    }

    /// Ends the iteration, and gives the configuration back, where no log runs on it.
    pub fn into_config(self) -> Option<&'a mut RunningConfig<D, C>>
        ensures { IsFileOf self.entry result }
    {
        let LogIter {
            source,
            refusal: _,
            rest: _,
        } = self;
        match source {
            Source::File(config) => Some(config),
            Source::Log(_) => None,
        }
    }
}

impl<D: Device, C: Checksum> Iterator for LogIter<'_, D, C> {
    /// What a message does, its page, its place, its pointer and the length of its record.
    type Item = Result<(LogKind, PageId, Lsn, DiskPtr, u64)>;

    ghost use Rattle.sled_core.specs.Iterators.{IsNext};
    ghost use Rattle.sled_core.specs.inside.Iterators.{most_ahead};

    ghost next_gives = { IsNext D.trace D.faults C.sum_of };

    ghost remaining = { λ it. at_most (most_ahead it) };

    /// Returns the next message. `None` where none is left, and from then on; and also behind an error.
    ///
    /// # Errors
    ///
    /// `Io` where the device failed in this call, which a log keeps, and `OutOfMemory`; `Corruption` where the next record that is met is
    /// damaged, or its blob doesn't pass for it (named where its checksum fails): all messages ahead of it were given. The first item of an
    /// iterator of a log may be the failure that the log kept before, or lack of memory for the list of its segments.
    fn next(&mut self) -> Option<Result<(LogKind, PageId, Lsn, DiskPtr, u64)>> {
        if let Some(e) = self.refusal.take() {
            return Some(Err(e));
        }
        match &mut self.source {
            Source::File(config) => self.rest.next(config),
            Source::Log(log) => log.next_of(&mut self.rest),
        }
    }
}
