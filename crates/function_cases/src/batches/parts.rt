//! The parts of a log file, byte by byte: headers of segments, and the records of messages and of manifests.
//!
//! They are made from the formats alone, with the codecs of headers, so that what the log writes is compared with something
//! else. Each message has the same item.

use sled_codec::serialization::message::message_kind;
use sled_log::device::{Checksum, PlaceSum};
use sled_log::logger::{
    BATCH_MANIFEST_PID, LogKind, Lsn, MessageHeader, MessageKind, PageId, SegmentHeader,
    SegmentNumber,
};
use sled_log::result::{Error, Result};
use sled_log::serialization::Serialize;
use std::alloc::Global;

/// What stands at a place of the log file.
#[derive(Clone, Copy)]
pub enum Part {
    /// The header of a segment. Nothing is stable behind the durable records when it is made.
    Header,
    /// A message that replaces a page.
    Page(PageId),
    /// A message that was aborted.
    Canceled,
    /// The rest of a segment, which is given up.
    Cap,
    /// The manifest of a batch up to this place.
    Manifest(Lsn),
}

// The body of each message: eleven sevens behind their count.
const BODY: [u8; 12] = [11, 7, 7, 7, 7, 7, 7, 7, 7, 7, 7, 7];

/// The item of each message.
pub fn item(alloc: Global) -> Result<Vec<u8>> {
    Ok([7; 11].to_vec(alloc)?)
}

/// The bytes of a part at a place.
pub fn text_of(alloc: Global, place: u64, part: Part) -> Result<Vec<u8>> {
    match part {
        Part::Header => header(alloc, place),
        Part::Page(page) => match message_kind(LogKind::Replace, page, false) {
            Some(kind) => record(alloc, place, kind, page, &BODY),
            None => Err(Error::Corruption { at: None }),
        },
        Part::Canceled => record(alloc, place, MessageKind::Canceled, 0, &BODY),
        Part::Cap => {
            let rest = vec![in alloc; 0u8; 224usize.saturating_sub((place % 256) as usize)]?;
            record(alloc, place, MessageKind::Cap, u64::MAX, &rest)
        }
        Part::Manifest(peg) => {
            let kind = MessageKind::BatchManifest;
            record(alloc, place, kind, BATCH_MANIFEST_PID, &peg.to_le_bytes())
        }
    }
}

// The header of the segment at a place.
fn header(alloc: Global, place: u64) -> Result<Vec<u8>> {
    let header = SegmentHeader {
        lsn: place.cast_signed(),
        max_stable_lsn: if place == 0 { -1 } else { 159 },
        ok: true,
    };
    Ok(header.to_bytes(&PlaceSum).to_vec(alloc)?)
}

// The record of a message at a place: the checksum is that of the body and of the header behind its checksum.
fn record(
    alloc: Global,
    place: u64,
    kind: MessageKind,
    pid: PageId,
    body: &[u8],
) -> Result<Vec<u8>> {
    let mut header = MessageHeader {
        crc32: 0,
        kind,
        segment_number: SegmentNumber(place / 256),
        pid,
        len: body.len() as u64,
    };
    let head = header.serialize(alloc)?;
    let mut summed = body.to_vec(alloc)?;
    summed.extend_from_slice(head.get(4..).unwrap_or(&[]))?;
    header.crc32 = !PlaceSum.sum(&summed);
    let mut record = header.serialize(alloc)?;
    record.extend_from_slice(body)?;
    Ok(record)
}
