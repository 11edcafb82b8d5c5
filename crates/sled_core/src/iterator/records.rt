//! What is met in a segment up to a batch that is open, record by record: nothing is looked at behind it, where a record may be
//! damaged (`IsReplayed`, `specs/Replayed.antt`).
ghost use Rattle.std.specs.Prelude.{◌≡◌, ◌+◌, ◌^◌, ◌≤◌, ◌<◌, [], IfOk, IfErr, OnOk};
ghost use Rattle.std.specs.List.{All};
ghost use Rattle.sled_codec.specs.Errors.{IsCorruption, IsDecodeError};
ghost use Rattle.sled_core.specs.Reading.{file_of};
ghost use Rattle.sled_core.specs.inside.Ahead.{IsDamagedBehind};
ghost use Rattle.sled_core.specs.Replayed.{CanBeRead, IsDamagedBefore, IsReplayed, scanned_of};
ghost use Rattle.sled_core.specs.Tail.{opens};

use crate::iterator::Segment;
use crate::iterator::scan::{RecordContent, ScanEnd, SegmentScan, Step};
use crate::iterator::step::meet;
use crate::logger::read_at::BasedBuf;
use sled_codec::result::Result;
use sled_codec::serialization::{Checksum, SegmentNumber};
use sled_store::RunningConfig;
use sled_store::segment::MAX_MSG_HEADER_LEN;

/// Returns what is met in a segment, up to and with the first batch that does not end below `end`. The buffer has the bytes of
/// its slot, and has them behind the call too. Where such a batch is met, why the reading ends says nothing.
///
/// # Errors
///
/// `Corruption` where a damaged record is met before such a batch, and `OutOfMemory`.
pub fn scan_slot<D, C: Checksum>(
    config: &RunningConfig<D, C>,
    buf: &mut BasedBuf,
    segment: &Segment,
    end: u64,
) -> Result<SegmentScan>
    requires ready { CanBeRead config.now.config.segment_size (file_of buf.old) segment.now }
    requires slot { buf.old.offset ≡ segment.now.slot }
    requires end { end < 2 ^ 63 }
    ensures passed { IfOk result (λ s. IsReplayed C.sum_of config.now.config.segment_size (file_of buf.old) end (scanned_of segment.now s)) }
    ensures stop { IfOk result (λ s. s.stop ≤ config.now.config.segment_size) }
    ensures places { IfOk result (λ s. All (λ m. m.place < segment.now.place + config.now.config.segment_size) s.met.items) }
    ensures damaged { IsCorruption result → IsDamagedBefore C.sum_of config.now.config.segment_size (file_of buf.old) end segment.now }
    ensures errors { IfErr result IsDecodeError }
    ensures bytes { buf.new.buf.items ≡ buf.old.buf.items }
    ensures offset { buf.new.offset ≡ buf.old.offset }
{
    let mut scan = SegmentScan::begin(config.alloc());
    match scan_into(config, buf, segment, end, &mut scan) {
        Ok(()) => Ok(scan),
        Err(e) => Err(e),
    }
}

/// The same, into a scan that has nothing yet. Where `Corruption` comes, the scan has what was met ahead of the damaged record, and
/// stops where that stands.
pub(crate) fn scan_into<D, C: Checksum>(
    config: &RunningConfig<D, C>,
    buf: &mut BasedBuf,
    segment: &Segment,
    end: u64,
    scan: &mut SegmentScan,
) -> Result<()>
    requires ready { CanBeRead config.now.config.segment_size (file_of buf.old) segment.now }
    requires slot { buf.old.offset ≡ segment.now.slot }
    requires end { end < 2 ^ 63 }
    requires met { scan.old.met.items ≡ [] }
    requires begins { scan.old.stop ≡ 20 }
    requires ending { scan.old.ending ≡ ScanEnd.Full }
    ensures passed { OnOk result (IsReplayed C.sum_of config.now.config.segment_size (file_of buf.old) end (scanned_of segment.now scan.new)) }
    ensures stop { scan.new.stop ≤ config.now.config.segment_size }
    ensures places { All (λ m. m.place < segment.now.place + config.now.config.segment_size) scan.new.met.items }
    ensures damaged { IsCorruption result → IsDamagedBehind C.sum_of config.now.config.segment_size (file_of buf.old) end segment.now scan.new }
    ensures errors { IfErr result IsDecodeError }
    ensures bytes { buf.new.buf.items ≡ buf.old.buf.items }
    ensures offset { buf.new.offset ≡ buf.old.offset }
{
    let number = SegmentNumber(segment.place / config.config.segment_size);
    let last = config.config.segment_size - MAX_MSG_HEADER_LEN as u64;
    while scan.stop <= last {
        match meet(config, buf, number, segment.place, scan.stop) {
            Ok(Step::Meets(m)) => {
                scan.met.push(m)?;
                scan.stop += m.len;
                if opens(&m.what, end) {
                    return Ok(());
                }
            }
            Ok(Step::Ends(ending)) => {
                scan.ending = ending;
                return Ok(());
            }
            Err(e) => return Err(e),
        }
    }
    Ok(())
}

/// Whether a record is the beginning of a batch that does not end below a place.
pub fn opens(what: &RecordContent, end: u64) -> bool
    requires { end < 2 ^ 63 }
    ensures { result ≡ opens end what.now }
{
    match *what {
        RecordContent::BatchStart(peg) => end as i64 <= peg,
        RecordContent::Gives(_, _, _)
        | RecordContent::NamesBlob(_, _, _, _)
        | RecordContent::Skipped => false,
    }
}
