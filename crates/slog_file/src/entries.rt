//! The messages that a table of pages has, each of which is read as a reader of its page reads it.

use crate::damage::{Damage, Damaged, Kind};
use crate::named_files::{Fault, blob_kind};
use crate::records::{Ending, ending_at};
use sled_log::config::RunningConfig;
use sled_log::device::{Checksum, Device};
use sled_log::logger::{DiskPtr, LogOffset, LogRead, SegmentNumber, read_message};
use sled_log::result::{Error, Lsn, PageId, Result};
use sled_log::snapshot::{Entry, PageState, Snapshot};
use sled_store::segment::may_begin;
use std::fmt;
use std::io::ErrorKind;

/// Why a message can't be read.
#[derive(Debug, Clone, Copy, PartialEq)]
pub(crate) enum Why {
    /// No record can begin there.
    NoPlace,
    /// No record of its segment stands there, for this cause.
    NoRecord(Ending),
    /// The record is no message with an item.
    NoMessage,
    /// The record is of another page.
    OtherPage(PageId),
    /// Its blob is missing.
    NoBlob,
    /// Its blob has this fault.
    Blob(Fault),
}

impl fmt::Display for Why {
    fn fmt<W: fmt::Write>(&self, f: &mut fmt::Formatter<W>) -> fmt::Result {
        match self {
            Why::NoPlace => write!(f, "no-place"),
            Why::NoRecord(ending) => write!(f, "{ending}"),
            Why::NoMessage => write!(f, "no-message"),
            Why::OtherPage(page) => write!(f, "of-page-{page}"),
            Why::NoBlob => write!(f, "missing"),
            Why::Blob(fault) => write!(f, "{fault}"),
        }
    }
}

/// A message that can't be read.
#[derive(Debug, Clone, Copy, PartialEq)]
pub(crate) struct Unread {
    pub(crate) page: PageId,
    pub(crate) place: Lsn,
    pub(crate) pointer: DiskPtr,
    /// The offset in its file at which something is wrong.
    pub(crate) at: u64,
    pub(crate) why: Why,
}

impl Unread {
    /// The file in which something is wrong.
    pub(crate) fn file(&self) -> Damaged {
        match self.pointer {
            DiskPtr::Inline(_) => Damaged::Log,
            DiskPtr::Blob(_, place) => Damaged::Blob(place),
        }
    }

    /// The same as damage of that file.
    pub(crate) fn damage(&self) -> Damage {
        Damage {
            file: self.file(),
            at: self.at,
            kind: Kind::Unread(self.page, self.place, self.why),
        }
    }
}

// The encoding of an item, or the offset in its file at which something is wrong, and what.
type Item = std::result::Result<Vec<u8>, (u64, Why)>;

/// The encoding of the item of a message, or why it can't be read.
pub(crate) fn read_item<D: Device, C: Checksum>(
    config: &mut RunningConfig<D, C>,
    page: PageId,
    entry: &Entry,
) -> Result<std::result::Result<Vec<u8>, Unread>> {
    let (place, pointer) = (entry.0, entry.1);
    let item = match pointer {
        DiskPtr::Inline(offset) => inline_item(config, page, place, offset)?,
        DiskPtr::Blob(_, blob) => blob_item(config, blob)?,
    };
    match item {
        Ok(item) => Ok(Ok(item)),
        Err((at, why)) => Ok(Err(Unread {
            page,
            place,
            pointer,
            at,
            why,
        })),
    }
}

// The item in a record.
fn inline_item<D: Device, C: Checksum>(
    config: &mut RunningConfig<D, C>,
    page: PageId,
    place: Lsn,
    offset: LogOffset,
) -> Result<Item> {
    let size = config.config.segment_size;
    if place < 0 || !may_begin(offset, size) {
        return Ok(Err((offset, Why::NoPlace)));
    }
    let number = place.unsigned_abs() / size;
    match read_message(config, None, offset, SegmentNumber(number)) {
        Ok(LogRead::Inline(header, item, _)) => {
            if header.pid == page {
                Ok(Ok(item))
            } else {
                Ok(Err((offset, Why::OtherPage(header.pid))))
            }
        }
        Ok(LogRead::Corrupted) => {
            let ending = ending_at(config, number, offset)?;
            Ok(Err((offset, Why::NoRecord(ending))))
        }
        Ok(_) => Ok(Err((offset, Why::NoMessage))),
        Err(Error::Corruption { at: _ }) => Ok(Err((offset, Why::NoRecord(Ending::Malformed)))),
        Err(error) => Err(error),
    }
}

// The item that a blob is: what stands behind its checksum in four bytes and its kind in one.
fn blob_item<D: Device, C: Checksum>(config: &mut RunningConfig<D, C>, place: Lsn) -> Result<Item> {
    let bytes = match config.device.blob_read(place) {
        Ok(bytes) => bytes,
        Err(error) if error.kind() == ErrorKind::NotFound => return Ok(Err((0, Why::NoBlob))),
        Err(error) => return Err(error.into()),
    };
    match blob_kind(&config.checksum, &bytes) {
        Ok(_) => {
            let [_, _, _, _, _, item @ ..] = &bytes[..] else {
                return Ok(Err((0, Why::Blob(Fault::TooShort))));
            };
            Ok(Ok(item.to_vec(config.alloc())?))
        }
        Err((at, fault)) => Ok(Err((at, Why::Blob(fault)))),
    }
}

/// The encodings of a page's items, that of its Replace first, or the first message of it that can't be read.
pub(crate) fn read_items<D: Device, C: Checksum>(
    config: &mut RunningConfig<D, C>,
    page: PageId,
    base: &Entry,
    frags: &[Entry],
) -> Result<std::result::Result<Vec<Vec<u8>>, Unread>> {
    let mut items = Vec::new(config.alloc());
    match read_item(config, page, base)? {
        Ok(item) => items.push(item)?,
        Err(unread) => return Ok(Err(unread)),
    }
    for entry in frags {
        match read_item(config, page, entry)? {
            Ok(item) => items.push(item)?,
            Err(unread) => return Ok(Err(unread)),
        }
    }
    Ok(Ok(items))
}

/// The messages of a table that can't be read.
pub(crate) fn find_unread<D: Device, C: Checksum>(
    config: &mut RunningConfig<D, C>,
    snapshot: &Snapshot,
) -> Result<Vec<Unread>> {
    let mut unread = Vec::new(config.alloc());
    for (number, page) in snapshot.pt.iter().enumerate() {
        if let PageState::Present { base, frags } = page {
            try_entry(config, number as u64, base, &mut unread)?;
            for entry in frags {
                try_entry(config, number as u64, entry, &mut unread)?;
            }
        }
    }
    Ok(unread)
}

// Reads a message, and notes it if it can't be read.
fn try_entry<D: Device, C: Checksum>(
    config: &mut RunningConfig<D, C>,
    page: PageId,
    entry: &Entry,
    unread: &mut Vec<Unread>,
) -> Result<()> {
    if let Err(found) = read_item(config, page, entry)? {
        unread.push(found)?;
    }
    Ok(())
}
