//! All that a reader meets in one segment, record by record (`specs/Scan.antt`).
ghost use Rattle.std.specs.Prelude.{◌≡◌, ◌+◌, ◌%◌, ◌^◌, ◌≤◌, ◌<◌, [], IfOk, IfErr};
ghost use Rattle.std.specs.List.{All};
ghost use Rattle.sled_codec.specs.Errors.{IsCorruption, IsDecodeError};
ghost use Rattle.sled_core.specs.Reading.{file_of};
ghost use Rattle.sled_core.specs.Scan.{IsScan, IsDamagedIn};

use crate::iterator::step::meet;
use crate::logger::read_at::BasedBuf;
use sled_codec::result::{BlobPointer, DiskPtr, LogOffset, Lsn, PageId, Result};
use sled_codec::serialization::{Checksum, LogKind, MessageKind, SegmentNumber};
use sled_store::RunningConfig;
use sled_store::segment::{MAX_MSG_HEADER_LEN, SEG_HEADER_LEN};
use std::alloc::Global;

/// What a record is to a reader of the log file, who asks for no blob.
#[derive(Debug, Clone, Copy)]
pub enum RecordContent {
    /// A message with its item: what it does to a page, which page that is, and where it lies.
    Gives(LogKind, PageId, DiskPtr),
    /// A message whose item is a blob: its kind, its page, where its record lies, and the blob's place.
    NamesBlob(MessageKind, PageId, LogOffset, BlobPointer),
    /// A message that was aborted.
    Skipped,
    /// The beginning of a batch whose last byte has this place.
    BatchStart(Lsn),
}

/// A record that is met, unless it is a Cap.
#[derive(Debug, Clone, Copy)]
pub struct ScannedRecord {
    /// Where it begins in the log.
    pub place: u64,
    /// How long it is.
    pub len: u64,
    /// What it is.
    pub what: RecordContent,
}

/// Why the reading of a segment ends at an offset.
#[derive(Debug, Clone, Copy, PartialEq)]
pub enum ScanEnd {
    /// Fewer than 32 bytes of the segment are left.
    Full,
    /// A Cap: the rest of the segment was given up.
    Capped,
    /// No record of the segment stands there.
    Broken,
}

/// What a reader finds at an offset.
#[derive(Debug, Clone, Copy)]
pub enum Step {
    /// A record.
    Meets(ScannedRecord),
    /// The end.
    Ends(ScanEnd),
}

/// All that is met in a segment.
#[derive(Debug, Drop)]
pub struct SegmentScan {
    /// The records, by place.
    pub met: Vec<ScannedRecord>,
    /// The offset in the segment at which the reading ended.
    pub stop: u64,
    /// Why it ended there.
    pub ending: ScanEnd,
}

impl SegmentScan {
    /// Nothing was met yet: the reading stands behind the header.
    pub(crate) fn begin(alloc: Global) -> SegmentScan
        ensures met { result.met.items ≡ [] }
        ensures stop { result.stop ≡ 20 }
        ensures ending { result.ending ≡ ScanEnd.Full }
    {
        SegmentScan {
            met: Vec::new(alloc),
            stop: SEG_HEADER_LEN as u64,
            ending: ScanEnd::Full,
        }
    }
}

/// Returns all that is met in a segment, by place. The buffer has the bytes of its slot, and has them behind the call too. It asks that the slot begins
/// at a multiple of the size of segments, and that the slot and the segment end below 2^63. `segment_in` does not test
/// that, so its caller does.
///
/// # Errors
///
/// `Corruption` where a record is met that has to hold a place and does not, and `OutOfMemory`.
pub fn scan<D, C: Checksum>(
    config: &RunningConfig<D, C>,
    buf: &mut BasedBuf,
    place: u64,
) -> Result<SegmentScan>
    requires place { place + config.now.config.segment_size < 2 ^ 63 }
    requires slot { buf.old.offset + config.now.config.segment_size < 2 ^ 63 }
    requires aligned { buf.old.offset % config.now.config.segment_size ≡ 0 }
    ensures scan { IfOk result (λ s. IsScan C.sum_of config.now.config.segment_size (file_of buf.old) buf.old.offset place s.met.items s.stop s.ending) }
    ensures stop { IfOk result (λ s. (20 ≤ s.stop) × (s.stop ≤ config.now.config.segment_size)) }
    ensures places { IfOk result (λ s. All (λ m. m.place < place + config.now.config.segment_size) s.met.items) }
    ensures damaged { IsCorruption result → IsDamagedIn C.sum_of config.now.config.segment_size (file_of buf.old) buf.old.offset place }
    ensures errors { IfErr result IsDecodeError }
    ensures bytes { buf.new.buf.items ≡ buf.old.buf.items }
    ensures offset { buf.new.offset ≡ buf.old.offset }
{
    let number = SegmentNumber(place / config.config.segment_size);
    let last = config.config.segment_size - MAX_MSG_HEADER_LEN as u64;
    let mut met = Vec::new(config.alloc());
    let mut stop = SEG_HEADER_LEN as u64;
    while stop <= last {
        match meet(config, buf, number, place, stop) {
            Ok(Step::Meets(m)) => {
                met.push(m)?;
                stop += m.len;
            }
            Ok(Step::Ends(ending)) => return Ok(SegmentScan { met, stop, ending }),
            Err(e) => return Err(e),
        }
    }
    Ok(SegmentScan {
        met,
        stop,
        ending: ScanEnd::Full,
    })
}
