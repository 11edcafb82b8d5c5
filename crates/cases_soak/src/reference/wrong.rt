//! What a reply should have been.

use sled_log::session::Refusal;
use std::alloc::{AllocError, AllocFailed};

/// What was wanted in place of a reply.
#[derive(Clone, Copy)]
pub enum Wrong {
    /// This, in words.
    Wanted(&'static str),
    /// This, and a number behind it.
    With(&'static str, u64),
    /// That the command is refused.
    Refused(Refusal),
    /// The items of a page that is present.
    Items(u64),
}

/// Memory was refused to the reference itself.
impl From<AllocError> for Wrong {
    fn from(_e: AllocError) -> Wrong {
        Wrong::Wanted("memory for the reference")
    }
}

/// Memory was refused to the reference itself.
impl<T: Drop> From<AllocFailed<T>> for Wrong {
    fn from(_e: AllocFailed<T>) -> Wrong {
        Wrong::Wanted("memory for the reference")
    }
}

/// Returns an error with what was wanted, unless something is so.
pub fn unless(is_so: bool, wanted: &'static str) -> Result<(), Wrong> {
    if is_so {
        Ok(())
    } else {
        Err(Wrong::Wanted(wanted))
    }
}
