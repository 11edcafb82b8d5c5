//! Where the bytes of a folder are damaged, and how: what an error `Corruption` of a recovery doesn't say.
//!
//! It goes over the files in the order of a recovery: the newest snapshot, the headers of segments, the records and blobs of
//! the tail, those of the segments before it, and the table of pages that comes of them (`docs/ARCHITECTURE.md`). At last it
//! looks whether the newest snapshot is one of this log file: if it isn't, no log can begin on it.

mod fit;
pub(crate) mod reading;
mod table;

use crate::damage::reading::{find, find_behind};
use crate::entries::Why;
use crate::named_files::Fault;
use anyhow::{Error, anyhow};
use sled_log::config::RunningConfig;
use sled_log::device::{Checksum, Device};
use sled_log::result::{Error as LogError, Lsn, PageId};
use std::alloc::Global;
use std::fmt;

/// The file that is damaged.
#[derive(Debug, Clone, Copy, PartialEq)]
pub(crate) enum Damaged {
    Log,
    Blob(Lsn),
    Snapshot(i64),
}

/// Its name in the folder.
impl fmt::Display for Damaged {
    fn fmt<W: fmt::Write>(&self, f: &mut fmt::Formatter<W>) -> fmt::Result {
        match *self {
            Damaged::Log => write!(f, "log"),
            Damaged::Blob(place) => write!(f, "blobs/{place}"),
            Damaged::Snapshot(number) => write!(f, "snapshots/{number}"),
        }
    }
}

/// What is wrong there.
#[derive(Debug, Clone, Copy, PartialEq)]
pub(crate) enum Kind {
    /// A header passes with a place at which no segment begins.
    Misplaced(Lsn),
    /// Two segments begin at one place; the other one's offset.
    Twice(u64, u64),
    /// A record with the right checksum that has to hold a place, and doesn't have 8 bytes.
    Malformed,
    /// A message of the page that there can't be.
    NoPage,
    /// A message of a page, while this one below it was never begun.
    NotBegun(PageId),
    /// The page has more than 254 links.
    TooManyLinks(PageId),
    /// The log ends at the first place, below that of the newest snapshot.
    EndsBelow(u64, u64),
    /// The log goes on at the place of the newest snapshot, which can't be in the segment at this offset.
    NoActive(u64),
    /// The newest snapshot has a message of the page at the place, and none can stand at this offset of the log file.
    NotThere(PageId, Lsn),
    /// A blob or a snapshot with something wrong.
    File(Fault),
    /// The table has a message of the page at the place, which can't be read.
    Unread(PageId, Lsn, Why),
}

impl fmt::Display for Kind {
    fn fmt<W: fmt::Write>(&self, f: &mut fmt::Formatter<W>) -> fmt::Result {
        match self {
            Kind::Misplaced(place) => write!(f, "a segment can't begin at place {place}"),
            Kind::Twice(place, other) => {
                write!(f, "the segment of place {place} is at offset {other} too")
            }
            Kind::Malformed => write!(f, "a record that has to hold a place doesn't"),
            Kind::NoPage => write!(f, "a message of page {}, which there can't be", u64::MAX),
            Kind::NotBegun(page) => {
                write!(
                    f,
                    "a message of a page above page {page}, which isn't begun"
                )
            }
            Kind::TooManyLinks(page) => write!(f, "page {page} has more than 254 links"),
            Kind::EndsBelow(end, stable) => {
                write!(
                    f,
                    "the log ends at place {end}, and the snapshot at {stable}"
                )
            }
            Kind::NoActive(stable) => {
                write!(
                    f,
                    "the snapshot goes on here at place {stable}, which can't be"
                )
            }
            Kind::NotThere(page, place) => {
                write!(
                    f,
                    "the snapshot has a message of page {page} here, of place {place}, which can't be"
                )
            }
            Kind::File(fault) => write!(f, "{fault}"),
            Kind::Unread(page, place, why) => {
                write!(f, "the message of page {page} at place {place}: {why}")
            }
        }
    }
}

/// What is damaged, at which offset of the file, and how.
#[derive(Debug, Clone, Copy, PartialEq)]
pub(crate) struct Damage {
    pub(crate) file: Damaged,
    pub(crate) at: u64,
    pub(crate) kind: Kind,
}

/// The error of a recovery, with what is damaged and where, if that is what it says.
pub(crate) fn explained<D: Device, C: Checksum>(
    alloc: Global,
    folder: &str,
    config: &mut RunningConfig<D, C>,
    error: LogError,
) -> Error {
    if is_damage(&error) {
        located(alloc, folder, config)
    } else {
        named(alloc, folder, Error::from(error))
    }
}

/// What a recovery finds damaged, and where, as an error.
pub(crate) fn located<D: Device, C: Checksum>(
    alloc: Global,
    folder: &str,
    config: &mut RunningConfig<D, C>,
) -> Error {
    told(alloc, folder, find(config))
}

/// The same of an iteration from a place on.
pub(crate) fn explained_behind<D: Device, C: Checksum>(
    alloc: Global,
    folder: &str,
    config: &mut RunningConfig<D, C>,
    from: Lsn,
    error: LogError,
) -> Error {
    if is_damage(&error) {
        told(alloc, folder, find_behind(config, from))
    } else {
        named(alloc, folder, Error::from(error))
    }
}

/// Whether an error of the log says that bytes are damaged.
pub(crate) fn is_damage(error: &LogError) -> bool {
    matches!(error, LogError::Corruption { at: _ })
}

// What came of a search, as an error.
fn told(alloc: Global, folder: &str, found: Result<Option<Damage>, LogError>) -> Error {
    match found {
        Ok(Some(damage)) => in_file(alloc, folder, &damage),
        Ok(None) => named(alloc, folder, anyhow!("damaged, and it isn't found where")),
        Err(error) => named(alloc, folder, Error::from(error)),
    }
}

/// An error with the file or the folder that it is of.
pub(crate) fn named(alloc: Global, path: &str, error: Error) -> Error {
    match String::from_str(alloc, path) {
        Ok(path) => error.context(path),
        Err(_) => error,
    }
}

/// A damage as an error.
pub(crate) fn in_file(alloc: Global, folder: &str, damage: &Damage) -> Error {
    let (file, at, kind) = (damage.file, damage.at, damage.kind);
    let error = anyhow!("damaged at offset {at}: {kind}");
    match format!(in alloc; "{folder}/{file}") {
        Ok(path) => error.context(path),
        Err(_) => error,
    }
}
