//! The files of blobs and of snapshots: what is right or wrong with them.

use sled_log::device::Checksum;
use sled_log::logger::MessageKind;
use sled_log::result::{Error, Result};
use sled_log::serialization::{Serialize, Snapshot};
use std::alloc::Global;
use std::fmt;

/// What is wrong with the file of a blob or of a snapshot.
#[derive(Debug, Clone, Copy, PartialEq)]
pub(crate) enum Fault {
    /// It has too few bytes.
    TooShort,
    /// The length that it ends with isn't that of what stands in front.
    WrongLength,
    /// The checksum is wrong.
    WrongSum,
    /// The blob is of another kind than the record that names it.
    OtherKind,
    /// The bytes encode no snapshot.
    NoSnapshot,
    /// The place of the snapshot is negative, or missing where there are pages or an active segment.
    NoPlace,
}

impl fmt::Display for Fault {
    fn fmt<W: fmt::Write>(&self, f: &mut fmt::Formatter<W>) -> fmt::Result {
        match self {
            Fault::TooShort => write!(f, "too-short"),
            Fault::WrongLength => write!(f, "wrong-length"),
            Fault::WrongSum => write!(f, "wrong-checksum"),
            Fault::OtherKind => write!(f, "of-another-kind"),
            Fault::NoSnapshot => write!(f, "no-snapshot"),
            Fault::NoPlace => write!(f, "no-place"),
        }
    }
}

/// What is wrong with a file, and the offset in it.
pub(crate) type Faulty = (u64, Fault);

/// The kind of a blob's item, by the bytes of its file: a checksum in four bytes, the kind in one, and the item.
pub(crate) fn blob_kind<C: Checksum>(
    checksum: &C,
    bytes: &[u8],
) -> std::result::Result<MessageKind, Faulty> {
    let [a, b, c, d, rest @ ..] = bytes else {
        return Err((0, Fault::TooShort));
    };
    let [kind, ..] = rest else {
        return Err((0, Fault::TooShort));
    };
    if checksum.sum(rest) != u32::from_le_bytes([*a, *b, *c, *d]) {
        return Err((0, Fault::WrongSum));
    }
    Ok(MessageKind::from(*kind))
}

// How many bytes stand behind the encoding of a snapshot: its length in eight, and its checksum in four.
const TRAILER_LEN: usize = 12;

/// The snapshot that the bytes of a file are, or what is wrong with them.
pub(crate) fn snapshot_in<C: Checksum>(
    alloc: Global,
    checksum: &C,
    bytes: &[u8],
) -> Result<std::result::Result<Snapshot, Faulty>> {
    let Some((text, trailer)) = bytes.split_last_chunk::<TRAILER_LEN>() else {
        return Ok(Err((0, Fault::TooShort)));
    };
    let [a, b, c, d, e, f, g, h, s, t, u, v] = *trailer;
    let at = text.len() as u64;
    if u64::from_le_bytes([a, b, c, d, e, f, g, h]) != at {
        return Ok(Err((at, Fault::WrongLength)));
    }
    if u32::from_le_bytes([s, t, u, v]) != checksum.sum(text) {
        return Ok(Err((at.saturating_add(8), Fault::WrongSum)));
    }
    let mut rest = text;
    match Snapshot::deserialize(alloc, &mut rest) {
        Ok(snapshot) => Ok(sound(snapshot)),
        Err(Error::OutOfMemory) => Err(Error::OutOfMemory),
        Err(_error) => Ok(Err((0, Fault::NoSnapshot))),
    }
}

// A snapshot that a log can have.
fn sound(snapshot: Snapshot) -> std::result::Result<Snapshot, Faulty> {
    if snapshot.is_sound() {
        Ok(snapshot)
    } else {
        Err((0, Fault::NoPlace))
    }
}
