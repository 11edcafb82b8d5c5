//! The failure of its device that a log keeps: the first one, which it answers from then on. Nothing is written behind it.
ghost use Rattle.std.specs.Prelude.{◌≡◌, ◌≢◌, None, Some};
ghost use Rattle.std.specs.IoError.{error_kind};
ghost use Rattle.std.specs.declared.io.ErrorKind.TheVariants.{OutOfMemory};
ghost use Rattle.sled_codec.specs.Errors.{IsErrorOf};
ghost use Rattle.sled_core.specs.inside.Causes.{fault_in};
ghost use Rattle.sled_core.specs.Iterators.{first_failure};

use sled_codec::result::{DiskPtr, Error, Lsn, PageId, Result};
use sled_codec::serialization::LogKind;
use std::io;
use std::io::ErrorKind;

/// The first failure of a log's device, if there was one.
#[derive(Drop)]
pub(crate) struct Fault {
    pub(crate) kept: Option<io::Error>,
}

impl Fault {
    /// Keeps a failure of the device, and says which error it is. Running out of memory is none.
    pub(crate) fn keep(&mut self, e: io::Error) -> Error
        requires { self.old.kept ≡ None }
        ensures error { IsErrorOf e result }
        ensures memory { error_kind e ≡ OutOfMemory → self.new.kept ≡ None }
        ensures kept { error_kind e ≢ OutOfMemory → self.new.kept ≡ Some e }
    {
        if e.kind() != ErrorKind::OutOfMemory {
            self.kept = Some(e);
        }
        Error::from(e)
    }

    /// Keeps the failure that an answer tells of; none was kept before. A missing blob is none.
    pub(crate) fn note<T>(&mut self, answer: &Result<T>)
        requires { self.old.kept ≡ None }
        ensures { self.new.kept ≡ fault_in answer.now }
    {
        self.kept = fault_in(answer);
    }

    /// Keeps that of an item of an iterator, unless there was one before.
    pub(crate) fn note_item(&mut self, item: &Option<Result<(LogKind, PageId, Lsn, DiskPtr, u64)>>)
        ensures { self.new.kept ≡ first_failure self.old.kept item.now }
    {
        self.kept = first_failure(self.kept, item);
    }
}

/// The failure of the device that an answer tells of.
fn fault_in<T>(answer: &Result<T>) -> Option<io::Error>
    ensures { result ≡ fault_in answer.now }
{
    match answer {
        Err(Error::Io(e)) => match e.kind() {
            ErrorKind::OutOfMemory | ErrorKind::NotFound | ErrorKind::AlreadyExists => None,
            _ => Some(*e),
        },
        _ => None,
    }
}

/// The first failure of a device: the one that was kept, or that of an item.
fn first_failure(
    kept: Option<io::Error>,
    item: &Option<Result<(LogKind, PageId, Lsn, DiskPtr, u64)>>,
) -> Option<io::Error>
    ensures { result ≡ first_failure kept item.now }
{
    match (kept, item) {
        (Some(e), _) => Some(e),
        (None, Some(Err(Error::Io(e)))) => Some(*e),
        (None, _) => None,
    }
}
