//! What the kernel keeps of the log file is dropped, so that what is read of it is what stands on the disk.
//!
//! After a sync that failed Linux may take pages for written that never reached the disk: the next sync answers Ok, and
//! they are read as long as the kernel keeps them. `std` has no call that drops them. The kit's `sqlite_std_file` makes it
//! (`posix_fadvise`) for the two files of a database: its `open` syncs them, and tells the kernel that their pages aren't
//! wanted. So the log file is opened as if it were a database, and closed again; no byte of it is read or written by
//! that. The second file, `log-wal`, is made beside it, and goes again.

use sqlite_std_file::{OpenError, Unknown};
use std::fs;
use std::io::{self, ErrorKind};

// Syncs a file, and drops the kernel's copies of its pages.
pub(crate) fn settle(rt: &HostRuntime, name: &str) -> io::Result<()> {
    let real = fs::canonicalize(rt, name)?;
    let path = real.as_str();
    let beside = format!(in rt.alloc(); "{path}-wal")?;
    let answer = match sqlite_std_file::open(rt, path, Unknown) {
        Ok(_) => Ok(()),
        Err(OpenError::Io(error)) => Err(error),
        Err(OpenError::OutOfMemory) => Err(ErrorKind::OutOfMemory.into()),
        Err(OpenError::Busy) => Err(io::Error::other("it is open as a database")),
        Err(OpenError::HotJournal) => Err(io::Error::other("a database's journal is beside it")),
    };
    remove_empty(rt, beside.as_str())?;
    answer
}

// Removes a file that has no bytes, where it is there.
fn remove_empty(rt: &HostRuntime, name: &str) -> io::Result<()> {
    match fs::symlink_metadata(rt, name) {
        Ok(found) if found.is_file() && found.len() == 0 => fs::remove_file(rt, name),
        Ok(_) => Ok(()),
        Err(error) if error.kind() == ErrorKind::NotFound => Ok(()),
        Err(error) => Err(error),
    }
}
