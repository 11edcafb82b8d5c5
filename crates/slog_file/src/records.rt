//! The slots of a log file: the header of each, and its records one behind another.
ghost use Rattle.std.specs.Prelude.{◌≤◌, ◌<◌, ◌^◌, IfSome};
ghost use Rattle.sled_codec.specs.Places.{MayBegin};

use sled_core::iterator::read_slot;
use sled_core::{BasedBuf, LogRead, read_record};
use sled_log::config::RunningConfig;
use sled_log::device::{Checksum, Device};
use sled_log::iobuf::{MAX_MSG_HEADER_LEN, SEG_HEADER_LEN};
use sled_log::logger::{MessageHeader, MessageKind, SegmentHeader, SegmentNumber};
use sled_log::result::{Error, LogOffset, Lsn, PageId, Result};
use sled_log::serialization::Serialize;
use std::alloc::Global;
use std::fmt;

/// A record.
#[derive(Debug, Clone, Copy)]
pub(crate) struct Record {
    pub(crate) kind: MessageKind,
    pub(crate) page: PageId,
    /// Where it begins in the log.
    pub(crate) place: u64,
    /// Where it begins in the file.
    pub(crate) offset: LogOffset,
    /// The place of its blob, where its item is one.
    pub(crate) blob: Option<Lsn>,
    /// The place of the last byte of the batch that it begins, where it begins one.
    pub(crate) peg: Option<Lsn>,
    pub(crate) len: u64,
}

/// Why the records of a slot end.
#[derive(Debug, Clone, Copy, PartialEq)]
pub(crate) enum Ending {
    /// Fewer than 32 bytes of the slot are left.
    Full,
    /// A Cap: the rest was given up.
    Cap,
    /// There are zeros alone.
    Zeros,
    /// The bytes are no header of a record.
    NoHeader,
    /// The header has no kind that there is.
    NoKind,
    /// The record would run past the end of the slot, or of the file.
    TooLong,
    /// The record was written for another segment, of this number.
    OtherSegment(u64),
    /// The checksum is wrong.
    WrongSum,
    /// The checksum is right, and the record, which has to hold a place, doesn't have 8 bytes. This is damage.
    Malformed,
}

impl fmt::Display for Ending {
    fn fmt<W: fmt::Write>(&self, f: &mut fmt::Formatter<W>) -> fmt::Result {
        match self {
            Ending::Full => write!(f, "full"),
            Ending::Cap => write!(f, "cap"),
            Ending::Zeros => write!(f, "zeros"),
            Ending::NoHeader => write!(f, "no-header"),
            Ending::NoKind => write!(f, "no-kind"),
            Ending::TooLong => write!(f, "too-long"),
            Ending::OtherSegment(number) => write!(f, "of-segment-{number}"),
            Ending::WrongSum => write!(f, "wrong-checksum"),
            Ending::Malformed => write!(f, "malformed"),
        }
    }
}

/// The records of a slot.
#[derive(Debug, Drop)]
pub(crate) struct Walk {
    pub(crate) records: Vec<Record>,
    /// The offset in the file at which they end.
    pub(crate) end: LogOffset,
    pub(crate) ending: Ending,
}

/// Which records of a slot are kept.
#[derive(Debug, Clone, Copy, PartialEq)]
pub(crate) enum Kept {
    All,
    /// Those that begin a batch.
    Batches,
}

/// What a slot of the log file is.
#[derive(Debug, Drop)]
pub(crate) enum Slot {
    /// A segment: its place, its mark and its records.
    Segment { place: u64, mark: Lsn, walk: Walk },
    /// A header that passes, with a place at which no segment begins.
    Misplaced { place: Lsn, mark: Lsn },
    /// Zeros alone.
    Zeros,
    /// No header passes.
    NoHeader,
    /// The file ends within the header.
    Short,
}

// What is found at an offset.
enum Step {
    Meets(Record),
    Ends(Ending),
}

/// How many slots the log file has. A part of one at its end counts.
pub(crate) fn count_slots<D: Device, C>(config: &mut RunningConfig<D, C>) -> Result<u64> {
    let len = config.device.len()?;
    Ok(len.div_ceil(config.config.segment_size))
}

/// Reads the slot at an offset, with its records.
pub(crate) fn read<D: Device, C: Checksum>(
    config: &mut RunningConfig<D, C>,
    slot: LogOffset,
) -> Result<Slot> {
    let buf = read_slot(config, slot)?;
    let Some(first) = buf.buf.first_chunk::<SEG_HEADER_LEN>() else {
        return Ok(Slot::Short);
    };
    let header = SegmentHeader::from_bytes(first, &config.checksum);
    if !header.ok {
        return Ok(if is_zeros(&buf.buf) {
            Slot::Zeros
        } else {
            Slot::NoHeader
        });
    }
    let mark = header.max_stable_lsn;
    match begins_at(config.config.segment_size, header.lsn) {
        Some(place) => Ok(Slot::Segment {
            place,
            mark,
            walk: walk_over(config, &buf, place, Kept::All)?,
        }),
        None => Ok(Slot::Misplaced {
            place: header.lsn,
            mark,
        }),
    }
}

/// The place and the mark of the segment whose header stands at an offset; `None` where no header passes, or where none can
/// begin at its place.
pub(crate) fn head_at<D: Device, C: Checksum>(
    config: &mut RunningConfig<D, C>,
    slot: LogOffset,
) -> Result<Option<(u64, Lsn)>> {
    let mut bytes = [0u8; SEG_HEADER_LEN];
    if config.device.read_at(slot, &mut bytes)? < SEG_HEADER_LEN {
        return Ok(None);
    }
    let header = SegmentHeader::from_bytes(&bytes, &config.checksum);
    if !header.ok {
        return Ok(None);
    }
    let place = begins_at(config.config.segment_size, header.lsn);
    Ok(place.map(|place| (place, header.max_stable_lsn)))
}

/// The place of a segment, where one of this size can begin there.
pub(crate) fn begins_at(size: u64, lsn: Lsn) -> Option<u64>
    requires { (256 ≤ size) × (size < 2 ^ 32) }
{
    let place = u64::try_from(lsn).ok()?;
    if place % size == 0 && place < (1 << 63) - size {
        Some(place)
    } else {
        None
    }
}

/// Goes over the records of the segment that begins at a place, whose slot is in the buffer.
pub(crate) fn walk_over<D: Device, C: Checksum>(
    config: &mut RunningConfig<D, C>,
    buf: &BasedBuf,
    place: u64,
    kept: Kept,
) -> Result<Walk> {
    let mut records = Vec::new(config.alloc());
    let mut at = SEG_HEADER_LEN as u64;
    for _ in 0..config.config.segment_size {
        match step_at(config, buf, place, at)? {
            Step::Meets(record) => {
                at = at.saturating_add(record.len);
                if kept == Kept::All || record.peg.is_some() {
                    records.push(record)?;
                }
            }
            Step::Ends(ending) => {
                return Ok(Walk {
                    records,
                    end: buf.offset.saturating_add(at),
                    ending,
                });
            }
        }
    }
    Ok(Walk {
        records,
        end: buf.offset.saturating_add(at),
        ending: Ending::Full,
    })
}

/// Why no record of the segment of a number stands at an offset of the log file.
pub(crate) fn ending_at<D: Device, C: Checksum>(
    config: &mut RunningConfig<D, C>,
    number: u64,
    offset: LogOffset,
) -> Result<Ending> {
    let size = config.config.segment_size;
    let within = offset % size;
    let buf = read_slot(config, offset - within)?;
    match step_at(config, &buf, number.saturating_mul(size), within)? {
        Step::Ends(ending) => Ok(ending),
        Step::Meets(_) => Ok(Ending::WrongSum),
    }
}

// An offset of a slot, at which a record may stand.
#[derive(Clone, Copy)]
struct Spot<'b> {
    // The number of the slot's segment.
    number: u64,
    // Its place in the log, and its offset in the file.
    place: u64,
    offset: LogOffset,
    // How many bytes of the slot are left, and those of them that the file has.
    room: u64,
    bytes: &'b [u8],
}

// The spot at an offset of the slot in the buffer; `None` where no record can begin.
fn spot_at(size: u64, buf: &BasedBuf, place: u64, at: u64) -> Option<Spot<'_>>
    requires { (256 ≤ size) × (size < 2 ^ 32) }
    ensures { IfSome result (λ spot. (buf.now.offset ≤ spot.offset) × MayBegin size spot.offset) }
{
    let offset = buf.offset.checked_add(at)?;
    let within = offset % size;
    if within < SEG_HEADER_LEN as u64 || within > size - MAX_MSG_HEADER_LEN as u64 {
        return None;
    }
    let (_, bytes) = buf.buf.split_at_checked(at as usize)?;
    Some(Spot {
        number: place / size,
        place: place.saturating_add(at),
        offset,
        room: size - within,
        bytes,
    })
}

// What stands at an offset of a slot.
fn step_at<D: Device, C: Checksum>(
    config: &mut RunningConfig<D, C>,
    buf: &BasedBuf,
    place: u64,
    at: u64,
) -> Result<Step> {
    let Some(spot) = spot_at(config.config.segment_size, buf, place, at) else {
        return Ok(Step::Ends(Ending::Full));
    };
    let Some((header, _)) = header_in(config.alloc(), spot.bytes) else {
        return Ok(Step::Ends(unread(spot.bytes)));
    };
    match read_record(config, Some(buf), spot.offset, SegmentNumber(spot.number)) {
        Ok(read) => Ok(met(config.alloc(), &spot, &header, &read)),
        Err(Error::Corruption { at: _ }) => Ok(Step::Ends(Ending::Malformed)),
        Err(error) => Err(error),
    }
}

// The header that bytes begin with, and how many bytes it has.
fn header_in(alloc: Global, bytes: &[u8]) -> Option<(MessageHeader, u64)> {
    let mut rest = bytes;
    let header = MessageHeader::deserialize(alloc, &mut rest).ok()?;
    let len = bytes.len().saturating_sub(rest.len());
    Some((header, len as u64))
}

// Why bytes are no header.
fn unread(bytes: &[u8]) -> Ending {
    if is_zeros(bytes) {
        Ending::Zeros
    } else {
        Ending::NoHeader
    }
}

// What was read at a spot.
fn met(alloc: Global, spot: &Spot<'_>, header: &MessageHeader, read: &LogRead) -> Step {
    let (blob, peg, len) = match read {
        LogRead::Inline(_, _, len) | LogRead::Canceled(len) => (None, None, *len),
        LogRead::Blob(_, _, place, len) | LogRead::DanglingBlob(_, place, len) => {
            (Some(*place), None, *len)
        }
        LogRead::BatchManifest(peg, len) => (None, Some(*peg), *len),
        LogRead::Cap(_) => return Step::Ends(Ending::Cap),
        LogRead::Corrupted => return Step::Ends(refused(alloc, spot)),
    };
    Step::Meets(Record {
        kind: header.kind,
        page: header.pid,
        place: spot.place,
        offset: spot.offset,
        blob,
        peg,
        len: u64::from(len),
    })
}

// Why no record of the segment stands at a spot.
fn refused(alloc: Global, spot: &Spot<'_>) -> Ending {
    if is_zeros(spot.bytes) {
        return Ending::Zeros;
    }
    let Some((header, len)) = header_in(alloc, spot.bytes) else {
        return Ending::NoHeader;
    };
    if header.kind == MessageKind::Corrupted {
        return Ending::NoKind;
    }
    let whole = header.len.saturating_add(len);
    if whole > spot.room || whole > spot.bytes.len() as u64 {
        return Ending::TooLong;
    }
    if header.segment_number.0 != spot.number {
        return Ending::OtherSegment(header.segment_number.0);
    }
    Ending::WrongSum
}

/// Whether bytes are zeros alone.
pub(crate) fn is_zeros(bytes: &[u8]) -> bool {
    bytes.iter().all(|byte| *byte == 0)
}

/// How many of so many bytes from an offset on aren't zeros.
pub(crate) fn count_nonzero(bytes: &[u8], at: u64, len: u64) -> u64 {
    let Some((_, behind)) = bytes.split_at_checked(at as usize) else {
        return 0;
    };
    let count = behind.len().min(len as usize);
    behind.iter().take(count).filter(|byte| **byte != 0).count() as u64
}

/// The word for a kind of record.
pub(crate) fn word_of(kind: MessageKind) -> &'static str {
    match kind {
        MessageKind::Corrupted => "corrupted",
        MessageKind::Canceled => "canceled",
        MessageKind::Cap => "cap",
        MessageKind::BatchManifest => "batch-manifest",
        MessageKind::Free => "free",
        MessageKind::Counter => "counter",
        MessageKind::InlineMeta => "inline-meta",
        MessageKind::BlobMeta => "blob-meta",
        MessageKind::InlineNode => "inline-node",
        MessageKind::BlobNode => "blob-node",
        MessageKind::InlineLink => "inline-link",
        MessageKind::BlobLink => "blob-link",
    }
}
