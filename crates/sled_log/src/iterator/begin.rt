//! Where an iterator begins: the segments are found and the tail of the log is read, and then nothing more.
ghost use Rattle.std.specs.Prelude.{◌≡◌, ◌+◌, ◌*◌, ◌/◌, ◌%◌, ◌^◌, ◌<◌, ℕ, true, false, None, List, [], IfOk, IfErr, unwrap_or};
ghost use Rattle.std.specs.List.{All};
ghost use Rattle.sled_store.specs.Blobs.{OnDamage};
ghost use Rattle.sled_store.specs.Device.{state_of};
ghost use Rattle.sled_core.specs.Causes.{ItemAnswersOver};
ghost use Rattle.sled_core.specs.Keeps.{OnlyReads};
ghost use Rattle.sled_core.specs.Iterators.{BorrowsFile, reads_of, refusal_of};
ghost use Rattle.sled_core.specs.invariants.Iterators.{IsAhead};
ghost use Rattle.sled_core.specs.Ahead.{CanGoOn};
ghost use Rattle.sled_core.specs.inside.Ahead.{IsLeft};
ghost use Rattle.sled_log.specs.Recovery.{Scanned, IsTail, IsDamagedTail, HaveGoodBlobs, begun_below, is_ascending, place_of_mark, tail_end};
ghost use Rattle.sled_log.specs.Passes.{CanAllBeRead};
ghost use Rattle.sled_log.specs.IteratorBegins.{Begins, IsDamagedFrom, SaysDamageFrom, begins_from, IsGivenBack};

use crate::snapshot::ordering::find_segments;
use crate::snapshot::tail::{check_passes, count_below, read_tail, tail_begins};
use sled_codec::result::{Error, Lsn, Result};
use sled_codec::serialization::Checksum;
use sled_core::iterator::rest::Rest;
use sled_core::iterator::{LogIter, Segment, begins_from};
use sled_store::{Device, RunningConfig};

/// Returns an iterator over the messages of a device's log file, from the beginning of the segment that holds a place;
/// a negative place counts as 0. The segments are found and the tail is read as a recovery does from a snapshot with that
/// place. Nothing is written.
///
/// # Errors
///
/// `Corruption` where segments are found that can't be of one log, where a damaged record is met in the tail, or where the
/// blob of one of its records doesn't pass for it (named where its checksum fails); `Io` where the device failed, and
/// `OutOfMemory`. With the error the configuration comes back, of which nothing was changed.
pub fn raw_segment_iter_from<'a, D: Device, C: Checksum>(
    lsn: Lsn,
    config: &'a mut RunningConfig<D, C>,
) -> std::result::Result<LogIter<'a, D, C>, (Error, &'a mut RunningConfig<D, C>)>
    ensures begins { let size = config.old.config.segment_size in let s = state_of (D.trace config.old.device) in
        IfOk result (λ it. Begins C.sum_of size s.log.bytes s.blobs.file (begins_from size lsn) (IsAhead D.trace C.sum_of it)) }
    ensures corrupt { let size = config.old.config.segment_size in let s = state_of (D.trace config.old.device) in
        IfErr result (λ x. SaysDamageFrom C.sum_of size s.log.bytes s.blobs.file (begins_from size lsn) x.0) }
    ensures given_back { IfErr result (λ x. IsGivenBack D.trace D.faults C.sum_of config.entry x.0 x.1) }
    ensures begun { IfOk result (λ it. refusal_of it ≡ None) }
    ensures faults { IfOk result (λ it. D.faults (reads_of it).device ≡ D.faults config.old.device) }
    ensures reads { IfOk result (λ it. OnlyReads D.trace config.old (reads_of it)) }
    ensures borrows { IfOk result (λ it. BorrowsFile config.entry (reads_of it) it) }
{
    match begin_at(config, begins_from(config.config.segment_size, lsn)) {
        Ok(rest) => Ok(LogIter::new(config, rest)),
        Err(e) => Err((e, config)),
    }
}

/// What is left for an iterator from where a segment begins.
fn begin_at<D: Device, C: Checksum>(config: &mut RunningConfig<D, C>, least: u64) -> Result<Rest>
    requires { least % config.old.config.segment_size ≡ 0 }
    ensures begins { let size = config.old.config.segment_size in let s = state_of (D.trace config.old.device) in
        IfOk result (λ r. Begins C.sum_of size s.log.bytes s.blobs.file least (IsLeft D.trace C.sum_of config.old r)) }
    ensures fits { IfOk result (CanGoOn config.old.config.segment_size) }
    ensures corrupt { let size = config.old.config.segment_size in let s = state_of (D.trace config.old.device) in
        OnDamage result (IsDamagedFrom C.sum_of size s.log.bytes s.blobs.file least) }
    ensures answers { ItemAnswersOver D.trace D.faults C.sum_of result config.old config.new }
    ensures reads { OnlyReads D.trace config.old config.new }
{
    let size = config.config.segment_size;
    match find_segments(config, least) {
        Ok(segments) => {
            let begin = tail_begins(size, least, &segments);
            match tail_end(config, &segments, begin) {
                Ok(end) => Ok(rest_of(config, segments, end)),
                Err(e) => Err(e),
            }
        }
        Err(e) => Err(e),
    }
}

/// Where the tail of these segments ends, where a segment of it is there. `Corruption` comes where a damaged record is met in
/// it, or one whose blob doesn't pass for it.
fn tail_end<D: Device, C: Checksum>(
    config: &mut RunningConfig<D, C>,
    segments: &[Segment],
    begin: u64,
) -> Result<Option<u64>>
    requires ready { CanAllBeRead config.old.config.segment_size (state_of (D.trace config.old.device)).log.bytes segments.now }
    requires ascending { is_ascending segments.now ≡ true }
    requires placed { All (λ s. s.place % config.old.config.segment_size ≡ 0) segments.now }
    requires begin { begin % config.old.config.segment_size ≡ 0 }
    ensures end { let old = state_of (D.trace config.old.device) in
        IfOk result (λ o. (scanned : List Scanned) × IsTail C.sum_of config.old.config.segment_size old.log.bytes segments.now begin scanned
        × HaveGoodBlobs C.sum_of old.blobs.file scanned × (tail_end scanned ≡ o)) }
    ensures small { IfOk result (λ o. unwrap_or o 0 < 2 ^ 63) }
    ensures damaged { let old = state_of (D.trace config.old.device) in
        OnDamage result (IsDamagedTail C.sum_of config.old.config.segment_size old.log.bytes old.blobs.file segments.now begin) }
    ensures answers { ItemAnswersOver D.trace D.faults C.sum_of result config.old config.new }
    ensures reads { OnlyReads D.trace config.old config.new }
{
    let from = count_below(segments, begin);
    match read_tail(config, &segments[from..], begin) {
        Ok(tail) => match check_passes(config, &tail.passes) {
            Ok(()) => Ok(tail.end),
            Err(e) => Err(e),
        },
        Err(e) => Err(e),
    }
}

/// What is left of segments, where the tail ends there, or where no segment of it was read.
fn rest_of<D, C>(config: &RunningConfig<D, C>, segments: Vec<Segment>, end: Option<u64>) -> Rest
    requires ascending { is_ascending segments.items ≡ true }
    ensures segments { result.segments.items ≡ begun_below (unwrap_or end 0) segments.items }
    ensures strict { result.strict ≡ false }
    ensures end { result.end ≡ unwrap_or end 0 }
    ensures read { result.read ≡ 0 }
    ensures met { result.met.items ≡ [] }
    ensures given { result.given ≡ 0 }
    ensures undamaged { result.damaged ≡ false }
{
    let mut segments = segments;
    let end = end.unwrap_or(0);
    let count = count_below(&segments, end);
    segments.truncate(count);
    Rest::new(config.alloc(), segments, end, false)
}
