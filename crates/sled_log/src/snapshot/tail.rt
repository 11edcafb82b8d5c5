//! The tail of the log: where it begins, what is met in its segments, and their blobs (`IsTail`,
//! `crates/sled_core/specs/Tail.antt`).
ghost use Rattle.std.specs.Prelude.{IfSome, List, IsTrue, ◌↔◌, ◌≡◌, ◌+◌, ◌^◌, ◌%◌, ◌≤◌, ◌<◌, ℕ, map, take, drop, length, true, None, IfOk, OnOk};
ghost use Rattle.std.specs.List.{All};
ghost use Rattle.sled_codec.specs.Errors.{IsCorruption};
ghost use Rattle.sled_store.specs.Blobs.{OnDamage};
ghost use Rattle.sled_store.specs.Device.{state_of};
ghost use Rattle.sled_store.specs.Causes.{DeviceAnswers};
ghost use Rattle.sled_core.specs.Causes.{ItemAnswersOver};
ghost use Rattle.sled_core.specs.Keeps.{OnlyReads};
ghost use Rattle.sled_core.specs.Scan.{IsDamagedIn};
ghost use Rattle.sled_log.specs.Recovery.{IsScanned, IsTail, IsDamagedTail, AreScanned, begun_below, is_ascending, tail_begins, tail_end, scanned_of, HaveGoodBlobs};
ghost use Rattle.sled_log.specs.Passes.{CanAllBeRead, CanBeRead, GetBlobs, HasKinds, IsPass, NamesBadTail, pass_of};

use crate::snapshot::blobs::check;
use crate::snapshot::pass::{Pass, resolve_passes};
use sled_codec::result::Result;
use sled_codec::serialization::Checksum;
use sled_core::iterator::scan::{ScanEnd, SegmentScan, scan};
use sled_core::iterator::{Segment, read_slot_into};
use sled_core::logger::read_at::BasedBuf;
use sled_store::{Device, RunningConfig};

/// The segments of a tail that was read, and where the reading ended, where one was.
#[derive(Drop)]
pub(crate) struct Tail {
    pub(crate) passes: Vec<Pass>,
    pub(crate) end: Option<u64>,
}

/// Where the tail begins.
pub(crate) fn tail_begins(size: u64, least: u64, segments: &[Segment]) -> u64
    requires { 0 < size }
    ensures { result ≡ tail_begins size least segments.now }
{
    let mut greatest = least;
    let mut i = segments.len();
    while i > 0 {
        i -= 1;
        let mark = u64::try_from(segments[i].mark).unwrap_or(0);
        greatest = mark.max(greatest);
    }
    greatest / size * size
}

/// How many segments, which are sorted by place, begin below a place.
pub(crate) fn count_below(segments: &[Segment], begin: u64) -> usize
    requires { is_ascending segments.now ≡ true }
    ensures within { result ≤ length segments.now }
    ensures below { All (λ s. s.place < begin) (take result segments.now) }
    ensures above { All (λ s. begin ≤ s.place) (drop result segments.now) }
{
    segments.partition_point(|segment| segment.place < begin)
}

/// Reads the tail that begins at this place, of segments that are sorted by place and begin there or above: each that begins
/// where the one before it ends, up to one that is broken. `Corruption` comes where a damaged record is met.
pub(crate) fn read_tail<D: Device, C: Checksum>(
    config: &mut RunningConfig<D, C>,
    segments: &[Segment],
    begin: u64,
) -> Result<Tail>
    requires ready { CanAllBeRead config.old.config.segment_size (state_of (D.trace config.old.device)).log.bytes segments.now }
    requires ascending { is_ascending segments.now ≡ true }
    requires placed { All (λ s. (s.place % config.old.config.segment_size ≡ 0) × (begin ≤ s.place)) segments.now }
    requires begin { begin % config.old.config.segment_size ≡ 0 }
    ensures tail { IfOk result (λ t. IsTail C.sum_of config.old.config.segment_size (state_of (D.trace config.old.device)).log.bytes segments.now begin
        (map pass_of t.passes.items)) }
    ensures end { IfOk result (λ t. tail_end (map pass_of t.passes.items) ≡ t.end) }
    ensures begun { IfOk result (λ t. IfSome t.end (λ end. (end < 2 ^ 63) × AreScanned C.sum_of config.old.config.segment_size
        (state_of (D.trace config.old.device)).log.bytes (begun_below end segments.now) (map pass_of t.passes.items))) }
    ensures fits { IfOk result (λ t. All (IsPass config.old.config.segment_size) t.passes.items) }
    ensures damaged { let old = state_of (D.trace config.old.device) in
        IsCorruption result → IsDamagedTail C.sum_of config.old.config.segment_size old.log.bytes old.blobs.file segments.now begin None }
    ensures answers { DeviceAnswers result (D.faults config.old.device) (D.faults config.new.device) }
    ensures reads { OnlyReads D.trace config.old config.new }
{
    let size = config.config.segment_size;
    let mut passes = Vec::new(config.alloc());
    let mut buf = BasedBuf::new(config.alloc());
    let mut end = None;
    let mut place = begin;
    for segment in segments {
        if segment.place != place {
            return Ok(Tail { passes, end });
        }
        match scan_of(config, segment, &mut buf) {
            Ok(scan) => {
                end = Some(place + scan.stop);
                let breaks = is_broken(scan.ending);
                let segment = *segment;
                passes.push(Pass { segment, scan })?;
                if breaks {
                    return Ok(Tail { passes, end });
                }
            }
            Err(e) => return Err(e),
        }
        place += size;
    }
    Ok(Tail { passes, end })
}

/// Looks for the blobs of all records of segments: of those up to a batch that does not end below `end`, which get them,
/// and of those behind it. `Corruption` comes where a blob doesn't pass for its record, and names the blob where its checksum
/// fails.
pub(crate) fn look_up<D: Device, C: Checksum>(
    config: &mut RunningConfig<D, C>,
    passes: &mut [Pass],
    end: u64,
) -> Result<()>
    requires end { end < 2 ^ 63 }
    requires kinds { All HasKinds passes.old }
    ensures passes { OnOk result (GetBlobs (state_of (D.trace config.old.device)).blobs.file end passes.old passes.new) }
    ensures good { let blobs = (state_of (D.trace config.old.device)).blobs.file in OnOk result (HaveGoodBlobs C.sum_of blobs (map pass_of passes.old)) }
    ensures bad { let blobs = (state_of (D.trace config.old.device)).blobs.file in
        OnDamage result (NamesBadTail C.sum_of blobs (map pass_of passes.old)) }
    ensures answers { ItemAnswersOver D.trace D.faults C.sum_of result config.old config.new }
    ensures reads { OnlyReads D.trace config.old config.new }
{
    match resolve_passes(config, passes, end) {
        Ok(()) => check_passes(config, passes),
        Err(e) => Err(e),
    }
}

/// Reads the blob of each record of these segments that names one. `Corruption` comes where a blob doesn't pass for its record,
/// and names the blob where its checksum fails.
pub(crate) fn check_passes<D: Device, C: Checksum>(
    config: &mut RunningConfig<D, C>,
    passes: &[Pass],
) -> Result<()>
    requires kinds { All HasKinds passes.now }
    ensures good { let blobs = (state_of (D.trace config.old.device)).blobs.file in OnOk result (HaveGoodBlobs C.sum_of blobs (map pass_of passes.now)) }
    ensures bad { let blobs = (state_of (D.trace config.old.device)).blobs.file in
        OnDamage result (NamesBadTail C.sum_of blobs (map pass_of passes.now)) }
    ensures answers { ItemAnswersOver D.trace D.faults C.sum_of result config.old config.new }
    ensures reads { OnlyReads D.trace config.old config.new }
{
    for pass in passes {
        match check(config, &pass.scan.met) {
            Ok(()) => {}
            Err(e) => return Err(e),
        }
    }
    Ok(())
}

/// What is met in a segment, whose slot is read into this buffer. `Corruption` comes where a damaged record is met.
pub(crate) fn scan_of<D: Device, C: Checksum>(
    config: &mut RunningConfig<D, C>,
    segment: &Segment,
    buf: &mut BasedBuf,
) -> Result<SegmentScan>
    requires { CanBeRead config.old.config.segment_size (state_of (D.trace config.old.device)).log.bytes segment.now }
    ensures scan { IfOk result (λ s. IsScanned C.sum_of config.old.config.segment_size (state_of (D.trace config.old.device)).log.bytes
        (scanned_of segment.now s)) }
    ensures stop { IfOk result (λ s. (20 ≤ s.stop) × (s.stop ≤ config.old.config.segment_size)) }
    ensures places { IfOk result (λ s. All (λ m. m.place < segment.now.place + config.old.config.segment_size) s.met.items) }
    ensures damaged { IsCorruption result → IsDamagedIn C.sum_of config.old.config.segment_size
        (state_of (D.trace config.old.device)).log.bytes segment.now.slot segment.now.place }
    ensures answers { DeviceAnswers result (D.faults config.old.device) (D.faults config.new.device) }
    ensures reads { OnlyReads D.trace config.old config.new }
{
    match read_slot_into(config, segment.slot, buf) {
        Ok(()) => scan(config, buf, segment.place),
        Err(e) => Err(e),
    }
}

/// Whether the reading ends where no record stands.
pub(crate) fn is_broken(ending: ScanEnd) -> bool
    ensures { IsTrue result ↔ (ending ≡ ScanEnd.Broken) }
{
    match ending {
        ScanEnd::Broken => true,
        ScanEnd::Full | ScanEnd::Capped => false,
    }
}
