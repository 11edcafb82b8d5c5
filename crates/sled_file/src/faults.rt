//! The failures of a device over files: how many there were, the first one of the files, and that this one ends it.
ghost use Rattle.std.specs.Prelude.{◌≡◌, ◌||◌, ◌+◌, ◌%◌, ◌^◌, not, is_ok, is_some, true, None, Err, IfErr, IsTrue};
ghost use Rattle.std.specs.IoError.{error_kind};
ghost use Rattle.std.specs.declared.io.ErrorKind.TheVariants.{Other};
ghost use Rattle.sled_store.specs.Answers.{Counts, Fails, is_fault};
ghost use Rattle.sled_file.specs.Failures.{kept_by};

use crate::failure::{Doing, Failure};
use std::io;

// The count, and the first call on the files that failed, if one did.
#[derive(Drop)]
pub(crate) struct Faults {
    pub(crate) count: u64,
    pub(crate) first: Option<Failure>,
}

impl Faults {
    // None yet.
    pub(crate) fn new() -> Faults
        ensures count { result.count ≡ 0 }
        ensures first { result.first ≡ None }
    {
        Faults {
            count: 0,
            first: None,
        }
    }

    // A call came. It goes on where no call on the files failed so far.
    pub(crate) fn begin(&mut self) -> io::Result<()>
        ensures goes_on { is_ok result ≡ not (is_some self.old.first) }
        ensures count { Counts result self.old.count self.new.count }
        ensures error { Fails result }
        ensures first { self.new.first ≡ self.old.first }
    {
        if self.first.is_some() {
            return Err(self.fail("an earlier call on the files failed"));
        }
        Ok(())
    }

    // A call on the files answered that was to do this. If it failed, no other one is made, and the failure is kept.
    pub(crate) fn end(&mut self, doing: Doing, answer: io::Result<()>) -> io::Result<()>
        ensures same { is_ok result ≡ is_ok answer }
        ensures count { Counts result self.old.count self.new.count }
        ensures error { Fails result }
        ensures told { IfErr answer (λ e. IsTrue (is_fault e) → result ≡ Err e) }
        ensures failed { is_some self.new.first ≡ (is_some self.old.first || not (is_ok answer)) }
        ensures kept { self.new.first ≡ kept_by self.old.first doing result }
    {
        match answer {
            Ok(()) => Ok(()),
            Err(error) => {
                let error = answered(error);
                self.first = self.first.or(Some(Failure { doing, error }));
                self.count = self.count.wrapping_add(1);
                Err(error)
            }
        }
    }

    // Counts a failure of the device itself.
    pub(crate) fn fail(&mut self, words: &str) -> io::Error
        ensures fault { is_fault result ≡ true }
        ensures rest { self.new ≡ record self.old { count = (self.old.count + 1) % 2 ^ 64 } }
    {
        self.count = self.count.wrapping_add(1);
        io::Error::other(words)
    }
}

// What a device answers where the files answered this. Of the system's errors those three kinds are told as others that
// mean a refusal of the device (`docs/DEVICE.md`, "Errors").
fn answered(error: io::Error) -> io::Error
    ensures fault { is_fault result ≡ true }
    ensures same { IsTrue (is_fault error) → result ≡ error }
{
    match error.kind() {
        io::ErrorKind::NotFound => io::Error::other("a file or a folder is missing"),
        io::ErrorKind::AlreadyExists => io::Error::other(
            "a file is there that the log didn't make",
        ),
        io::ErrorKind::OutOfMemory => io::Error::other("the system is out of memory"),
        _ => error,
    }
}
