//! Constants, and errors: when two are equal, and what they are converted from and to.

use sled_log::header::MAX_WRITERS;
use sled_log::iobuf::MAX_POOLED;
use sled_log::logger::{
    BATCH_MANIFEST_PID, COUNTER_PID, MAX_MSG_HEADER_LEN, META_PID, MINIMUM_ITEMS_PER_SEGMENT,
    SEG_HEADER_LEN,
};
use sled_log::result::{Error, Result};
use std::alloc::{AllocError, Global};
use std::io::{self, ErrorKind};

pub(crate) fn has_constants() -> bool {
    META_PID == 0
        && COUNTER_PID == 1
        && BATCH_MANIFEST_PID == 18446744073709550949
        && MAX_MSG_HEADER_LEN == 32
        && SEG_HEADER_LEN == 20
        && MINIMUM_ITEMS_PER_SEGMENT == 4
        && MAX_WRITERS == 127
        && MAX_POOLED == 4
}

// An error is equal to its copy, and to no other one.
pub(crate) fn are_equal(alloc: Global) -> Result<bool> {
    let held = Error::Held(20);
    let name = Error::CollectionNotFound([7].to_vec(alloc)?);
    let copies = (held.clone()?, name.clone()?);
    Ok(copies.0 == held && copies.1 == name && held != Error::Held(21) && are_of_one_kind())
}

// Errors of std are equal where their kinds are.
fn are_of_one_kind() -> bool {
    let missing = Error::Io(io::Error::new(ErrorKind::NotFound, "one text"));
    let other = Error::Io(io::Error::new(ErrorKind::NotFound, "another text"));
    missing == other
        && missing != Error::Io(io::Error::from(ErrorKind::Other))
        && Error::Held(20) != Error::NotReserved(20)
}

// Out of memory is an error of its own.
pub(crate) fn are_from_std() -> bool {
    Error::from(AllocError) == Error::OutOfMemory
        && Error::from(io::Error::from(ErrorKind::OutOfMemory)) == Error::OutOfMemory
        && Error::from(io::Error::other("it broke")) != Error::OutOfMemory
}

// What std knows of an error is its kind alone.
pub(crate) fn are_for_std(alloc: Global) -> Result<bool> {
    let missing = io::Error::new(ErrorKind::NotFound, "no blob");
    let unknown = Error::Unsupported(String::from_str(alloc, "a kind")?);
    let bug = Error::ReportableBug(String::from_str(alloc, "a bug")?);
    let name = Error::CollectionNotFound([7].to_vec(alloc)?);
    Ok(
        kind_of(Error::Corruption { at: None }) == ErrorKind::InvalidData
            && kind_of(unknown) == ErrorKind::InvalidInput
            && kind_of(Error::Io(missing)) == ErrorKind::NotFound
            && kind_of(Error::OutOfMemory) == ErrorKind::OutOfMemory
            && kind_of(Error::Held(20)) == ErrorKind::WouldBlock
            && kind_of(Error::NotReserved(5)) == ErrorKind::InvalidInput
            && kind_of(Error::PlacesUsedUp) == ErrorKind::Other
            && kind_of(name) == ErrorKind::NotFound
            && kind_of(bug) == ErrorKind::Other,
    )
}

// The kind of an error as std has it.
fn kind_of(e: Error) -> ErrorKind {
    io::Error::from(e).kind()
}
