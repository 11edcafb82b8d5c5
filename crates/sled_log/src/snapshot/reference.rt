//! A plain, slow recovery, for tests. It follows the definition of what recovery makes of a log file
//! (`specs/Recovery.antt`) step by step, for any number of segments, and has no care for speed.
ghost use Rattle.std.specs.Prelude.{IfSome, IfNone, List, Option, ◌≡◌, ◌+◌, ◌^◌, ◌≤◌, ◌<◌, Some, length, IfOk, Contains};
ghost use Rattle.sled_codec.specs.Errors.{IsCorruption};
ghost use Rattle.sled_codec.specs.declared.result.DiskPtr.{DiskPtr};
ghost use Rattle.sled_codec.specs.Snapshots.{model_of};
ghost use Rattle.sled_store.specs.Blobs.{OnDamage};
ghost use Rattle.sled_store.specs.Device.{state_of, content_of};
ghost use Rattle.sled_store.specs.Causes.{DeviceAnswers};
ghost use Rattle.sled_core.specs.Causes.{ItemAnswersOver};
ghost use Rattle.sled_core.specs.Keeps.{OnlyReads};
ghost use Rattle.sled_core.specs.Scan.{IsDamagedIn};
ghost use Rattle.sled_core.specs.declared.iterator.Segment.{Segment};
ghost use Rattle.sled_log.specs.Recovery.{Scanned, IsScanned, IsOrdering, IsTail, IsDamagedTail, tail_end, Recovered, Damaged, RecoveryResult, least_place, scanned_of, Recovers, MeetsBadBlob, NamesDamageIn, HaveGoodBlobs};
ghost use Rattle.sled_log.specs.WritesBack.{result_of};
ghost use Rattle.sled_log.specs.Passes.{CanAllBeRead, CanBeRead, ContinuesOn, PassesOn};

use crate::snapshot::blobs::check;
use crate::snapshot::file::read_newest;
use crate::snapshot::ordering::find_segments;
use crate::snapshot::pass::{outcome_of, replay_below, slots_of};
use crate::snapshot::recovery::Recovery;
use crate::snapshot::replay::unchanged;
use crate::snapshot::tail::{is_broken, scan_of, tail_begins};
use sled_codec::result::{Error, Result};
use sled_codec::serialization::Checksum;
use sled_codec::serialization::snapshot::Snapshot;
use sled_core::iterator::Segment;
use sled_core::iterator::scan::SegmentScan;
use sled_core::logger::read_at::BasedBuf;
use sled_store::{Device, RunningConfig};

/// Returns what recovery makes of what a device has, for any number of segments: the snapshot, or `None` where the
/// content is damaged. It only reads, and is slow: it is for tests.
///
/// # Errors
///
/// `Io` where the device failed, and `OutOfMemory` where memory was refused, or where the log file ends so near to
/// 2^63 that a segment in it could end above that.
pub fn reference_recovery<D: Device, C: Checksum>(
    config: &mut RunningConfig<D, C>,
) -> Result<Option<Snapshot>>
    ensures some { let old = state_of (D.trace config.old.device) in
        IfOk result (λ o. IfSome o (λ s. (x : RecoveryResult)
        × Recovers C.sum_of config.old.config.segment_size (content_of old) (Recovered x) × (model_of s ≡ x.model))) }
    ensures none { let old = state_of (D.trace config.old.device) in
        IfOk result (λ o. IfNone o ((at : Option DiskPtr) × Recovers C.sum_of config.old.config.segment_size (content_of old) (Damaged at))) }
    ensures readable { IsCorruption result → ⊥ }
    ensures answers { DeviceAnswers result (D.faults config.old.device) (D.faults config.new.device) }
    ensures reads { OnlyReads D.trace config.old config.new }
{
    match recover_by_definition(config) {
        Ok(recovery) => Ok(Some(recovery.snapshot)),
        Err(Error::Corruption { at: _ }) => Ok(None),
        Err(e) => Err(e),
    }
}

/// The same, with what is left to be written. `Corruption` comes where the content is damaged.
fn recover_by_definition<D: Device, C: Checksum>(
    config: &mut RunningConfig<D, C>,
) -> Result<Recovery>
    ensures ok { let old = state_of (D.trace config.old.device) in
        IfOk result (λ x. Recovers C.sum_of config.old.config.segment_size (content_of old) (Recovered (result_of x))) }
    ensures corrupt { let old = state_of (D.trace config.old.device) in
        OnDamage result (λ at. Recovers C.sum_of config.old.config.segment_size (content_of old) (Damaged at)) }
    ensures answers { ItemAnswersOver D.trace D.faults C.sum_of result config.old config.new }
    ensures reads { OnlyReads D.trace config.old config.new }
{
    match read_newest(config) {
        Ok(first) => continue_by_definition(config, first),
        Err(e) => Err(e),
    }
}

/// What recovery makes of the log file from a snapshot on.
fn continue_by_definition<D: Device, C: Checksum>(
    config: &mut RunningConfig<D, C>,
    first: Snapshot,
) -> Result<Recovery>
    ensures ok { IfOk result (λ x. ContinuesOn D.trace C.sum_of config.old first (Recovered (result_of x))) }
    ensures corrupt { OnDamage result (λ at. ContinuesOn D.trace C.sum_of config.old first (Damaged at)) }
    ensures answers { ItemAnswersOver D.trace D.faults C.sum_of result config.old config.new }
    ensures reads { OnlyReads D.trace config.old config.new }
{
    let size = config.config.segment_size;
    let least = first.stable_place() / size * size;
    match find_segments(config, least) {
        Ok(segments) => replay_by_definition(config, &segments, first),
        Err(e) => Err(e),
    }
}

/// The same, where these are the segments that are found.
fn replay_by_definition<D: Device, C: Checksum>(
    config: &mut RunningConfig<D, C>,
    segments: &[Segment],
    first: Snapshot,
) -> Result<Recovery>
    requires ordering { IsOrdering C.sum_of config.old.config.segment_size (state_of (D.trace config.old.device)).log.bytes
        (least_place config.old.config.segment_size (model_of first)) segments.now }
    requires small { length (state_of (D.trace config.old.device)).log.bytes + config.old.config.segment_size < 2 ^ 63 }
    ensures ok { IfOk result (λ x. ContinuesOn D.trace C.sum_of config.old first (Recovered (result_of x))) }
    ensures corrupt { OnDamage result (λ at. ContinuesOn D.trace C.sum_of config.old first (Damaged at)) }
    ensures answers { ItemAnswersOver D.trace D.faults C.sum_of result config.old config.new }
    ensures reads { OnlyReads D.trace config.old config.new }
{
    let size = config.config.segment_size;
    let least = first.stable_place() / size * size;
    match tail_end(config, segments, tail_begins(size, least, segments)) {
        Ok(Some(end)) => pass_over(config, segments, first, end),
        Ok(None) => Ok(unchanged(first, slots_of(config.alloc(), segments)?)),
        Err(e) => Err(e),
    }
}

/// What comes of the pass over these segments, where the tail ends there.
fn pass_over<D: Device, C: Checksum>(
    config: &mut RunningConfig<D, C>,
    segments: &[Segment],
    first: Snapshot,
    end: u64,
) -> Result<Recovery>
    requires ready { CanAllBeRead config.old.config.segment_size (state_of (D.trace config.old.device)).log.bytes segments.now }
    requires end { end < 2 ^ 63 }
    ensures ok { IfOk result (λ x. PassesOn D.trace C.sum_of config.old first segments.now end (Recovered (result_of x))) }
    ensures corrupt { OnDamage result (λ at. PassesOn D.trace C.sum_of config.old first segments.now end (Damaged at)) }
    ensures answers { ItemAnswersOver D.trace D.faults C.sum_of result config.old config.new }
    ensures reads { OnlyReads D.trace config.old config.new }
{
    match replay_below(config, segments, first, end) {
        Ok(replay) => {
            let size = config.config.segment_size;
            outcome_of(config.alloc(), size, replay, segments)
        }
        Err(e) => Err(e),
    }
}

// The tail.

/// The segment that begins at a place.
fn segment_at(segments: &[Segment], place: u64) -> Option<Segment>
    ensures some { IfSome result (λ s. Contains segments.now s × (s.place ≡ place)) }
    ensures none { IfNone result ((s : Segment) → Contains segments.now s → s.place ≡ place → ⊥) }
{
    for segment in segments {
        if segment.place == place {
            return Some(*segment);
        }
    }
    None
}

/// The same, with its blobs. `Corruption` comes also where a record is met whose blob doesn't pass for it.
fn sound_scan_of<D: Device, C: Checksum>(
    config: &mut RunningConfig<D, C>,
    segment: &Segment,
) -> Result<SegmentScan>
    requires { CanBeRead config.old.config.segment_size (state_of (D.trace config.old.device)).log.bytes segment.now }
    ensures scan { IfOk result (λ s. IsScanned C.sum_of config.old.config.segment_size (state_of (D.trace config.old.device)).log.bytes
        (scanned_of segment.now s)) }
    ensures stop { IfOk result (λ s. (20 ≤ s.stop) × (s.stop ≤ config.old.config.segment_size)) }
    ensures good { let blobs = (state_of (D.trace config.old.device)).blobs.file in IfOk result (λ s. MeetsBadBlob C.sum_of blobs s.met.items → ⊥) }
    ensures damaged { let old = state_of (D.trace config.old.device) in let size = config.old.config.segment_size in
        OnDamage result (NamesDamageIn C.sum_of size old.log.bytes old.blobs.file segment.now) }
    ensures answers { ItemAnswersOver D.trace D.faults C.sum_of result config.old config.new }
    ensures reads { OnlyReads D.trace config.old config.new }
{
    match scan_alone(config, segment) {
        Ok(scan) => match check(config, &scan.met) {
            Ok(()) => Ok(scan),
            Err(e) => Err(e),
        },
        Err(e) => Err(e),
    }
}

/// What is met in a segment, whose slot is read by itself. `Corruption` comes where a damaged record is met.
fn scan_alone<D: Device, C: Checksum>(
    config: &mut RunningConfig<D, C>,
    segment: &Segment,
) -> Result<SegmentScan>
    requires { CanBeRead config.old.config.segment_size (state_of (D.trace config.old.device)).log.bytes segment.now }
    ensures scan { IfOk result (λ s. IsScanned C.sum_of config.old.config.segment_size (state_of (D.trace config.old.device)).log.bytes
        (scanned_of segment.now s)) }
    ensures stop { IfOk result (λ s. (20 ≤ s.stop) × (s.stop ≤ config.old.config.segment_size)) }
    ensures damaged { IsCorruption result → IsDamagedIn C.sum_of config.old.config.segment_size
        (state_of (D.trace config.old.device)).log.bytes segment.now.slot segment.now.place }
    ensures answers { DeviceAnswers result (D.faults config.old.device) (D.faults config.new.device) }
    ensures reads { OnlyReads D.trace config.old config.new }
{
    let mut buf = BasedBuf::new(config.alloc());
    scan_of(config, segment, &mut buf)
}

/// Where the reading of the tail ends, where a segment of it is there. `Corruption` comes where a damaged
/// record is met, or one whose blob doesn't pass for it.
fn tail_end<D: Device, C: Checksum>(
    config: &mut RunningConfig<D, C>,
    segments: &[Segment],
    begin: u64,
) -> Result<Option<u64>>
    requires ready { CanAllBeRead config.old.config.segment_size (state_of (D.trace config.old.device)).log.bytes segments.now }
    ensures end { let old = state_of (D.trace config.old.device) in
        IfOk result (λ o. (scanned : List Scanned) × IsTail C.sum_of config.old.config.segment_size old.log.bytes segments.now begin scanned
        × HaveGoodBlobs C.sum_of old.blobs.file scanned × (tail_end scanned ≡ o)) }
    ensures small { IfOk result (λ o. IfSome o (λ end. end < 2 ^ 63)) }
    ensures damaged { let old = state_of (D.trace config.old.device) in
        OnDamage result (IsDamagedTail C.sum_of config.old.config.segment_size old.log.bytes old.blobs.file segments.now begin) }
    ensures answers { ItemAnswersOver D.trace D.faults C.sum_of result config.old config.new }
    ensures reads { OnlyReads D.trace config.old config.new }
{
    let size = config.config.segment_size;
    let mut place = begin;
    let mut end = None;
    while let Some(segment) = segment_at(segments, place) {
        match sound_scan_of(config, &segment) {
            Ok(scan) => {
                end = Some(place + scan.stop);
                if is_broken(scan.ending) {
                    return Ok(end);
                }
            }
            Err(e) => return Err(e),
        }
        place += size;
    }
    Ok(end)
}
