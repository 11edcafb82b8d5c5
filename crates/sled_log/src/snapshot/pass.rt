//! The pass over the segments of a log file: what is met in each, its blobs, and what comes of all of it
//! (`specs/Recovery.antt`). One segment is read, its blobs are looked for and it is applied, before the next one is read.
ghost use Rattle.std.specs.Prelude.{List, ◌≡◌, ◌++◌, ◌∷◌, [], ◌+◌, ◌^◌, ◌≤◌, ◌<◌, ℕ, map, drop, length, true, false, None, IfOk, IfErr, OnOk, Option, IsOkUnless};
ghost use Rattle.std.specs.List.{All};
ghost use Rattle.sled_codec.specs.Errors.{IsCorruption, IsDecodeError};
ghost use Rattle.sled_codec.specs.Snapshots.{SnapshotModel, model_of};
ghost use Rattle.sled_store.specs.Blobs.{OnDamage};
ghost use Rattle.sled_store.specs.Device.{state_of};
ghost use Rattle.sled_core.specs.Causes.{ItemAnswersOver};
ghost use Rattle.sled_core.specs.Keeps.{OnlyReads};
ghost use Rattle.sled_log.specs.Recovery.{AreClosed, Scanned, begun_below, IsDamagedPass, Recovered, Damaged, outcome_of, NamesKind, MeetsBadBlob, NamesBadBlob, resolved_scan, before_open, slots_in_order};
ghost use Rattle.sled_log.specs.WritesBack.{result_of};
ghost use Rattle.sled_log.specs.Passes.{CanAllBeRead, FitsStop, GetBlobs, GoesOnBehind, HasKinds, HasMade, IsBadPass, IsPass, IsReplay, IsSoFar, MeetsBadPass, NamesBadPass, pass_of, up_to_open};

pub(crate) mod records;

use crate::snapshot::blobs::resolve;
use crate::snapshot::page_table::apply_all;
use crate::snapshot::pass::records::{is_open, scan_up_to};
use crate::snapshot::recovery::Recovery;
use crate::snapshot::replay::{conclude, cut_of, unchanged};
use sled_codec::result::{Error, LogOffset, Result};
use sled_codec::serialization::Checksum;
use sled_codec::serialization::snapshot::Snapshot;
use sled_core::iterator::Segment;
use sled_core::iterator::scan::SegmentScan;
use sled_core::logger::read_at::BasedBuf;
use sled_store::{Device, RunningConfig};
use std::alloc::Global;

/// A segment, and what is met in it.
#[derive(Drop)]
pub(crate) struct Pass {
    pub(crate) segment: Segment,
    pub(crate) scan: SegmentScan,
}

/// What a pass has come to.
#[derive(Drop)]
pub(crate) struct Replay {
    /// The snapshot that it began from, with what the segments so far made of its table.
    pub(crate) snapshot: Snapshot,
    /// A message of the page that no table has was met. Nothing is applied from then on.
    pub(crate) has_no_table: bool,
    /// The last segment that was applied, and the place where the pass stopped in it.
    pub(crate) stop: Option<(Segment, u64)>,
    /// How many segments there were.
    pub(crate) count: usize,
    /// A batch is open in the last one, so that the pass goes no further.
    pub(crate) is_open: bool,
}

/// What comes of each segment that begins below `end`, with its blobs, up to the first batch that does not end below
/// it. `Corruption` comes where a damaged record is met before that, or one whose blob doesn't pass for it, which it names
/// where the checksum of the blob fails.
pub(crate) fn replay_below<D: Device, C: Checksum>(
    config: &mut RunningConfig<D, C>,
    segments: &[Segment],
    first: Snapshot,
    end: u64,
) -> Result<Replay>
    requires ready { CanAllBeRead config.old.config.segment_size (state_of (D.trace config.old.device)).log.bytes segments.now }
    requires end { end < 2 ^ 63 }
    ensures made { let s = state_of (D.trace config.old.device) in
        IfOk result (λ r. IsReplay C.sum_of config.old.config.segment_size s.log.bytes s.blobs.file end (model_of first)
        (begun_below end segments.now) None r) }
    ensures stop { IfOk result (λ r. FitsStop config.old.config.segment_size r.stop) }
    ensures corrupt { let s = state_of (D.trace config.old.device) in
        OnDamage result (IsBadPass C.sum_of config.old.config.segment_size s.log.bytes s.blobs.file end (begun_below end segments.now)) }
    ensures answers { ItemAnswersOver D.trace D.faults C.sum_of result config.old config.new }
    ensures reads { OnlyReads D.trace config.old config.new }
{
    let mut replay = Replay {
        snapshot: first,
        has_no_table: false,
        stop: None,
        count: 0,
        is_open: false,
    };
    match replay_each(config, segments, &mut replay, end) {
        Ok(None) => Ok(replay),
        Ok(Some(e)) => Err(e),
        Err(e) => Err(e),
    }
}

/// The same, segment by segment. What comes of a pass is defined over all that it meets, so behind a blob that doesn't pass
/// for its record the rest is read still: a damaged record there, or a failure of the device, is answered first.
fn replay_each<D: Device, C: Checksum>(
    config: &mut RunningConfig<D, C>,
    segments: &[Segment],
    replay: &mut Replay,
    end: u64,
) -> Result<Option<Error>>
    requires ready { CanAllBeRead config.old.config.segment_size (state_of (D.trace config.old.device)).log.bytes segments.now }
    requires end { end < 2 ^ 63 }
    requires closed { replay.old.is_open ≡ false }
    requires count { replay.old.count ≡ 0 }
    ensures made { let s = state_of (D.trace config.old.device) in
        (first : SnapshotModel) → HasMade end first [] replay.old
        → IfOk result (λ bad. IsReplay C.sum_of config.old.config.segment_size s.log.bytes s.blobs.file end first
        (begun_below end segments.now) bad replay.new) }
    ensures stop { FitsStop config.old.config.segment_size replay.old.stop → IfOk result (λ bad. FitsStop config.old.config.segment_size replay.new.stop) }
    ensures damaged { OnDamage result (λ at. (at ≡ None) × IsDamagedPass C.sum_of config.old.config.segment_size
        (state_of (D.trace config.old.device)).log.bytes end (begun_below end segments.now)) }
    ensures answers { ItemAnswersOver D.trace D.faults C.sum_of result config.old config.new }
    ensures reads { OnlyReads D.trace config.old config.new }
{
    let mut buf = BasedBuf::new(config.alloc());
    let mut bad_blob = None;
    for segment in segments {
        if segment.place >= end {
            continue;
        }
        match scan_up_to(config, segment, end, &mut buf) {
            Ok(scan) => {
                let stops = is_open(&scan.met, end);
                let segment = *segment;
                match replay_one(config, replay, bad_blob, Pass { segment, scan }, end) {
                    Ok(bad) => bad_blob = bad,
                    Err(e) => return Err(e),
                }
                if stops {
                    replay.is_open = true;
                    return Ok(bad_blob);
                }
            }
            Err(e) => return Err(e),
        }
    }
    Ok(bad_blob)
}

/// Looks for the blobs of one more segment, and applies what is met in it. Where a blob doesn't pass for its record, that is
/// what the pass has come to, and nothing is done from then on.
fn replay_one<D: Device, C: Checksum>(
    config: &mut RunningConfig<D, C>,
    replay: &mut Replay,
    bad_blob: Option<Error>,
    pass: Pass,
    end: u64,
) -> Result<Option<Error>>
    requires end { end < 2 ^ 63 }
    requires count { replay.old.count + 1 < 2 ^ 64 }
    requires kinds { HasKinds pass }
    requires fits { IsPass config.old.config.segment_size pass }
    ensures made { let blobs = (state_of (D.trace config.old.device)).blobs.file in
        (first : SnapshotModel) (passes : List Scanned) → AreClosed end passes → IsSoFar C.sum_of blobs end first passes bad_blob replay.old
        → IfOk result (λ bad. IsSoFar C.sum_of blobs end first (passes ++ pass_of pass ∷ []) bad replay.new) }
    ensures stop { FitsStop config.old.config.segment_size replay.old.stop → IfOk result (λ bad. FitsStop config.old.config.segment_size replay.new.stop) }
    ensures count { replay.new.count ≤ replay.old.count + 1 }
    ensures goes_on { replay.new.is_open ≡ replay.old.is_open }
    ensures readable { IsCorruption result → ⊥ }
    ensures answers { ItemAnswersOver D.trace D.faults C.sum_of result config.old config.new }
    ensures reads { OnlyReads D.trace config.old config.new }
{
    if bad_blob.is_some() {
        return Ok(bad_blob);
    }
    let mut pass = pass;
    match resolve_pass(config, &mut pass, end) {
        Ok(()) => {
            apply_pass(config.alloc(), replay, &pass, end)?;
            Ok(None)
        }
        Err(Error::Corruption { at }) => Ok(Some(Error::Corruption { at })),
        Err(e) => Err(e),
    }
}

/// Looks for the blobs of all that was met in these segments, in each up to a batch that does not end below `end`.
/// `Corruption` comes where a blob doesn't pass for its record, and names the blob where its checksum fails.
pub(crate) fn resolve_passes<D: Device, C: Checksum>(
    config: &mut RunningConfig<D, C>,
    passes: &mut [Pass],
    end: u64,
) -> Result<()>
    requires end { end < 2 ^ 63 }
    requires kinds { All HasKinds passes.old }
    ensures passes { OnOk result (GetBlobs (state_of (D.trace config.old.device)).blobs.file end passes.old passes.new) }
    ensures good { let blobs = (state_of (D.trace config.old.device)).blobs.file in
        OnOk result (MeetsBadPass C.sum_of blobs end (map pass_of passes.old) → ⊥) }
    ensures bad { let blobs = (state_of (D.trace config.old.device)).blobs.file in
        OnDamage result (NamesBadPass C.sum_of blobs end (map pass_of passes.old)) }
    ensures answers { ItemAnswersOver D.trace D.faults C.sum_of result config.old config.new }
    ensures reads { OnlyReads D.trace config.old config.new }
{
    for i in 0..passes.len() {
        match resolve_pass(config, &mut passes[i], end) {
            Ok(()) => {}
            Err(e) => return Err(e),
        }
    }
    Ok(())
}

/// Looks for the blobs of what was met in one segment, up to such a batch.
fn resolve_pass<D: Device, C: Checksum>(
    config: &mut RunningConfig<D, C>,
    pass: &mut Pass,
    end: u64,
) -> Result<()>
    requires end { end < 2 ^ 63 }
    requires kinds { All (λ m. NamesKind m.what) pass.old.scan.met.items }
    ensures pass { let blobs = (state_of (D.trace config.old.device)).blobs.file in
        OnOk result (pass_of pass.new ≡ resolved_scan blobs end (pass_of pass.old)) }
    ensures good { let blobs = (state_of (D.trace config.old.device)).blobs.file in
        OnOk result (MeetsBadBlob C.sum_of blobs (before_open end pass.old.scan.met.items) → ⊥) }
    ensures bad { let blobs = (state_of (D.trace config.old.device)).blobs.file in
        OnDamage result (NamesBadBlob C.sum_of blobs (before_open end pass.old.scan.met.items)) }
    ensures answers { ItemAnswersOver D.trace D.faults C.sum_of result config.old config.new }
    ensures reads { OnlyReads D.trace config.old config.new }
{
    resolve(config, &mut pass.scan.met, end)
}

/// Applies what is met in the segments of the tail, which have their blobs, up to the first batch that does not end below
/// `end`, where the pass goes on to them.
pub(crate) fn apply_tail(alloc: Global, replay: &mut Replay, tail: &[Pass], end: u64) -> Result<()>
    requires end { end < 2 ^ 63 }
    requires count { replay.old.count + length tail.now < 2 ^ 64 }
    requires fits { (size : ℕ) × All (IsPass size) tail.now }
    ensures made { (first : SnapshotModel) (passes : List Scanned) → GoesOnBehind end replay.old.is_open passes → HasMade end first passes replay.old
        → OnOk result (HasMade end first (up_to_open end (passes ++ map pass_of tail.now)) replay.new) }
    ensures stop { (size : ℕ) → All (IsPass size) tail.now → FitsStop size replay.old.stop → OnOk result (FitsStop size replay.new.stop) }
    ensures err { IsOkUnless result Error.OutOfMemory }
{
    if replay.is_open {
        return Ok(());
    }
    for pass in tail {
        apply_pass(alloc, replay, pass, end)?;
        if is_open(&pass.scan.met, end) {
            return Ok(());
        }
    }
    Ok(())
}

/// Applies what is met in one more segment, up to a batch that does not end below `end`.
fn apply_pass(alloc: Global, replay: &mut Replay, pass: &Pass, end: u64) -> Result<()>
    requires end { end < 2 ^ 63 }
    requires count { replay.old.count + 1 < 2 ^ 64 }
    requires fits { (size : ℕ) × IsPass size pass.now }
    ensures made { (first : SnapshotModel) (passes : List Scanned) → AreClosed end passes → HasMade end first passes replay.old
        → OnOk result (HasMade end first (passes ++ pass_of pass.now ∷ []) replay.new) }
    ensures stop { (size : ℕ) → IsPass size pass.now → FitsStop size replay.old.stop → OnOk result (FitsStop size replay.new.stop) }
    ensures count { replay.new.count ≡ replay.old.count + 1 }
    ensures goes_on { replay.new.is_open ≡ replay.old.is_open }
    ensures err { IsOkUnless result Error.OutOfMemory }
{
    replay.count += 1;
    if replay.has_no_table {
        return Ok(());
    }
    let least = replay.snapshot.stable_place();
    match apply_all(alloc, &mut replay.snapshot.pt, &pass.scan.met, least, end) {
        Ok(open) => {
            let ends = pass.segment.place + pass.scan.stop;
            replay.stop = Some((pass.segment, open.unwrap_or(ends)));
            Ok(())
        }
        Err(Error::Corruption { at: _ }) => {
            replay.has_no_table = true;
            Ok(())
        }
        Err(e) => Err(e),
    }
}

/// What comes of the pass, over the first ones of all segments that were found. `Corruption` comes where the table can't be
/// one.
pub(crate) fn outcome_of(
    alloc: Global,
    size: u64,
    replay: Replay,
    segments: &[Segment],
) -> Result<Recovery>
    requires some { 0 < size }
    requires stop { FitsStop size replay.stop }
    requires long { replay.count ≤ length segments.now }
    ensures ok { (end : ℕ) (first : SnapshotModel) (passes : List Scanned) → HasMade end first passes replay
        → IfOk result (λ x. outcome_of size first end passes (slots_in_order (drop (length passes) segments.now)) ≡ Recovered (result_of x)) }
    ensures corrupt { (end : ℕ) (first : SnapshotModel) (passes : List Scanned) → HasMade end first passes replay
        → IsCorruption result → outcome_of size first end passes (slots_in_order (drop (length passes) segments.now)) ≡ Damaged None }
    ensures errors { IfErr result IsDecodeError }
{
    let unread = slots_of(alloc, &segments[replay.count..])?;
    if replay.has_no_table {
        return Err(Error::Corruption { at: None });
    }
    let least = replay.snapshot.stable_place();
    match replay.stop {
        Some((segment, at)) => conclude(
            size,
            replay.snapshot.pt,
            replay.snapshot.stable_lsn,
            least,
            cut_of(size, &segment, at),
            unread,
        ),
        None => Ok(unchanged(replay.snapshot, unread)),
    }
}

/// The slots of these segments.
pub(crate) fn slots_of(alloc: Global, segments: &[Segment]) -> Result<Vec<LogOffset>>
    ensures slots { IfOk result (λ v. v.items ≡ slots_in_order segments.now) }
    ensures err { IsOkUnless result Error.OutOfMemory }
{
    let mut slots = Vec::new(alloc);
    for segment in segments {
        slots.push(segment.slot)?;
    }
    Ok(slots)
}
