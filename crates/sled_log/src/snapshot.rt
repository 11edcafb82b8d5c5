//! Recovery: what the device has, read into a table of pages (`specs/Recovery.antt`).
ghost use Rattle.std.specs.Prelude.{true, ◌↔◌, ◌≢◌, IsTrue, ◌≡◌, ◌⊎◌, ◌+◌, ◌^◌, ◌%◌, ◌≤◌, ◌<◌, ℕ, [], ◌∷◌, length, drop, map, IfOk, OnOk};
ghost use Rattle.sled_codec.specs.Errors.{IsCorruption};
ghost use Rattle.sled_codec.specs.History.{History, below};
ghost use Rattle.sled_codec.specs.Snapshots.{model_of, stable_place};
ghost use Rattle.sled_store.specs.Device.{state_of, content_of, Synced, NamesSynced};
ghost use Rattle.sled_store.specs.Moments.{IsLater, LeavesOnly};
ghost use Rattle.sled_store.specs.Script.{Performs};
ghost use Rattle.std.specs.List.{All};
ghost use Rattle.sled_store.specs.Begin.{IsStartable};
ghost use Rattle.sled_store.specs.Blobs.{OnDamage};
ghost use Rattle.sled_store.specs.Causes.{DeviceAnswers};
ghost use Rattle.sled_core.specs.Causes.{ItemAnswersOver};
ghost use Rattle.sled_core.specs.Good.{IsGood};
ghost use Rattle.sled_core.specs.Recoverable.{LeavesRecoverable, RecoverableIfOwn};
ghost use Rattle.sled_core.specs.invariants.Recoverable.{Recoverable};
ghost use Rattle.sled_core.specs.invariants.Running.{Ready};
ghost use Rattle.sled_core.specs.Keeps.{ConfigKept, OnlyReads};
ghost use Rattle.sled_log.specs.Restores.{ComesTo, MeetsDamage, RecoveryCalls, Restores, TakesForDamage};
ghost use Rattle.sled_log.specs.Orderly.{CanRecover, IsOrderly, IsReadWell, RecoversFor};
ghost use Rattle.sled_log.specs.Recovery.{least_place, IsOrdering, AreScanned, begun_below, Recovered, Damaged, Recovers};
ghost use Rattle.sled_log.specs.Passes.{CanAllBeRead, ContinuesOn, IsPass, pass_of, AreLookedUp, NamesBadTail, PassesBehind, PassesOn};
ghost use Rattle.sled_log.specs.WritesBack.{result_of};

pub(crate) mod blobs;
pub(crate) mod file;
pub(crate) mod ordering;
pub(crate) mod page_table;
pub(crate) mod pass;
pub(crate) mod recovery;
pub mod reference;
pub(crate) mod replay;
pub(crate) mod tail;
pub(crate) mod write_back;

use crate::snapshot::file::read_newest;
use crate::snapshot::ordering::find_segments;
use crate::snapshot::pass::{Pass, apply_tail, outcome_of, replay_below, slots_of};
use crate::snapshot::recovery::Recovery;
use crate::snapshot::replay::unchanged;
use crate::snapshot::tail::{count_below, look_up, read_tail, tail_begins};
use crate::snapshot::write_back::write_back;
use sled_codec::result::{Error, Result};
use sled_codec::serialization::Checksum;
pub use sled_codec::serialization::snapshot::{Entry, PageState, Snapshot};
use sled_core::iterator::Segment;
use sled_store::segment::start::check_snapshot;
use sled_store::{Device, RunningConfig};

/// Recovers the table of pages from a device, and returns it. First it syncs the device. Then it reads the newest
/// snapshot and the log file, and at last it writes back what it concludes: it fills the rest of the active segment
/// with zeros; where the table goes beyond that snapshot, it publishes a new one and removes all others; it overwrites
/// each segment that it found and did not read with zeros; and it removes every blob at or above the place of the table.
///
/// Where the snapshots, the log file and the blobs that it reads are recoverable with one cut, for a history, the end of
/// what was acknowledged and a floor, it meets no damage, and the snapshot is good for what it read, for any number of
/// segments. Where that is so of each content that a crash leaves, it stays so at each moment, the snapshot is good for
/// what is left, and then all of this holds of what lies below its place, with that for the floor, and a log can go on
/// from the snapshot.
///
/// # Errors
///
/// `Corruption` where the newest snapshot is damaged, where segments are found that can't be of one log, where a
/// damaged record is met, where the blob of a record doesn't pass for it (exactly then a blob is named, where its checksum
/// fails), or where the table can't be one; nothing was written then. `Io` where the device failed, and `OutOfMemory`.
pub fn read_snapshot_or_default<D: Device, C: Checksum>(
    config: &mut RunningConfig<D, C>,
) -> Result<Snapshot>
    ensures ok { IfOk result (λ s. Restores C.sum_of config.old.config.segment_size (D.trace config.old.device) (D.trace config.new.device) (model_of s)) }
    ensures calls { RecoveryCalls C.sum_of config.old.config.segment_size (D.trace config.old.device) (D.trace config.new.device) }
    ensures corrupt { let size = config.old.config.segment_size in let old = D.trace config.old.device in
        OnDamage result (λ at. Recovers C.sum_of size (content_of (state_of old)) (Damaged at) × (D.trace config.new.device ≡ NamesSynced ∷ Synced ∷ old)) }
    ensures answers { ItemAnswersOver D.trace D.faults C.sum_of result config.old config.new }
    ensures config { ConfigKept config.old config.new }
    ensures later { IsLater (D.trace config.old.device) (D.trace config.new.device) }
    ensures recoverable { let size = config.old.config.segment_size in let old = D.trace config.old.device in
        (H : History) (A f : ℕ) → CanRecover C.sum_of size (state_of old) H A f
        → LeavesOnly (RecoverableIfOwn C.sum_of size H A f) old (D.trace config.new.device) }
    ensures read { let size = config.old.config.segment_size in let old = content_of (state_of (D.trace config.old.device)) in
        (H : History) (A f : ℕ) → IsOrderly H → Recoverable C.sum_of size old H A f → IsReadWell C.sum_of size old H A f result }
    ensures good { let size = config.old.config.segment_size in let new = state_of (D.trace config.new.device) in
        (H : History) (A f : ℕ) → CanRecover C.sum_of size (state_of (D.trace config.old.device)) H A f
        → IfOk result (λ s. IsGood C.sum_of size (content_of new) H A f (model_of s)) }
    ensures kept { let size = config.old.config.segment_size in let new = state_of (D.trace config.new.device) in
        (H : History) (A f : ℕ) → CanRecover C.sum_of size (state_of (D.trace config.old.device)) H A f
        → IfOk result (λ s. let cut = stable_place s.stable_lsn in LeavesRecoverable C.sum_of size (below H cut) A cut new) }
    ensures ready { let size = config.old.config.segment_size in let new = state_of (D.trace config.new.device) in
        (H : History) (A f : ℕ) → CanRecover C.sum_of size (state_of (D.trace config.old.device)) H A f
        → IfOk result (λ s. let cut = stable_place s.stable_lsn in Ready C.sum_of size new (model_of s) (below H cut) A cut) }
{
    read_and_write_back(config, false)
}

/// Recovers the table of pages from a device for a log that is to begin on it (`Log::start`), and returns it. It does what
/// `read_snapshot_or_default` does, but it takes for damage, too, what no log can begin on (`IsStartable`): a table that
/// names what isn't in the log file, as after that was cut off. So an opening that meets damage has written nothing, and
/// what is missing can still be put back.
///
/// # Errors
///
/// Those of `read_snapshot_or_default`, and `Corruption` that names no blob where no log can begin on what is recovered;
/// nothing was written then either. Of what it gives `Log::start` never answers `Corruption`.
pub fn read_startable_snapshot<D: Device, C: Checksum>(
    config: &mut RunningConfig<D, C>,
) -> Result<Snapshot>
    ensures ok { IfOk result (λ s. Restores C.sum_of config.old.config.segment_size (D.trace config.old.device) (D.trace config.new.device) (model_of s)) }
    ensures starts { IfOk result (λ s. IsStartable config.old.config.segment_size (length (state_of (D.trace config.new.device)).log.bytes) (model_of s)) }
    ensures calls { RecoveryCalls C.sum_of config.old.config.segment_size (D.trace config.old.device) (D.trace config.new.device) }
    ensures damage { let size = config.old.config.segment_size in let old = D.trace config.old.device in
        OnDamage result (λ at. MeetsDamage C.sum_of size (content_of (state_of old)) at × (D.trace config.new.device ≡ NamesSynced ∷ Synced ∷ old)) }
    ensures answers { ItemAnswersOver D.trace D.faults C.sum_of result config.old config.new }
    ensures config { ConfigKept config.old config.new }
    ensures recovers { let size = config.old.config.segment_size in let old = D.trace config.old.device in
        (H : History) (A f : ℕ) → CanRecover C.sum_of size (state_of old) H A f → RecoversFor C.sum_of size H A f old (D.trace config.new.device) result }
{
    read_and_write_back(config, true)
}

/// Recovers what the device has, and writes back what is left to be written. It says whether a log is to begin on that.
fn read_and_write_back<D: Device, C: Checksum>(
    config: &mut RunningConfig<D, C>,
    is_to_start: bool,
) -> Result<Snapshot>
    ensures comes { let size = config.old.config.segment_size in
        ComesTo (TakesForDamage is_to_start C.sum_of size) C.sum_of size (D.trace config.old.device) (D.trace config.new.device) result }
    ensures starts { let old = state_of (D.trace config.old.device) in
        is_to_start ≡ true → IfOk result (λ s. IsStartable config.old.config.segment_size (length old.log.bytes) (model_of s)) }
    ensures answers { ItemAnswersOver D.trace D.faults C.sum_of result config.old config.new }
    ensures config { ConfigKept config.old config.new }
{
    settle(&mut config.device)?;
    match conclude(config, is_to_start) {
        Ok(recovery) => match write_back(config, &recovery) {
            Ok(()) => Ok(recovery.snapshot),
            Err(e) => Err(e),
        },
        Err(e) => Err(e),
    }
}

/// What recovery makes of what the device has. Where a log is to begin on that, it is damage if none can. It only reads.
fn conclude<D: Device, C: Checksum>(
    config: &mut RunningConfig<D, C>,
    is_to_start: bool,
) -> Result<Recovery>
    ensures ok { let old = state_of (D.trace config.old.device) in
        IfOk result (λ x. Recovers C.sum_of config.old.config.segment_size (content_of old) (Recovered (result_of x))) }
    ensures starts { let old = state_of (D.trace config.old.device) in
        is_to_start ≡ true → IfOk result (λ x. IsStartable config.old.config.segment_size (length old.log.bytes) (model_of x.snapshot)) }
    ensures corrupt { let old = state_of (D.trace config.old.device) in
        OnDamage result (TakesForDamage is_to_start C.sum_of config.old.config.segment_size (content_of old)) }
    ensures answers { ItemAnswersOver D.trace D.faults C.sum_of result config.old config.new }
    ensures reads { OnlyReads D.trace config.old config.new }
{
    match recover(config) {
        Ok(recovery) => {
            if is_to_start {
                match require_startable(config, &recovery.snapshot) {
                    Ok(()) => Ok(recovery),
                    Err(e) => Err(e),
                }
            } else {
                Ok(recovery)
            }
        }
        Err(e) => Err(e),
    }
}

/// Asks that a log can begin on what is recovered; else it is `Corruption`. It only reads.
fn require_startable<D: Device, C: Checksum>(
    config: &mut RunningConfig<D, C>,
    snapshot: &Snapshot,
) -> Result<()>
    ensures startable { let len = length (state_of (D.trace config.old.device)).log.bytes in
        OnOk result (IsStartable config.old.config.segment_size len (model_of snapshot.now)) }
    ensures corrupt { let len = length (state_of (D.trace config.old.device)).log.bytes in
        IsCorruption result → IsStartable config.old.config.segment_size len (model_of snapshot.now) → ⊥ }
    ensures answers { DeviceAnswers result (D.faults config.old.device) (D.faults config.new.device) }
    ensures reads { OnlyReads D.trace config.old config.new }
{
    let len = config.device.len()?;
    match check_snapshot(config.alloc(), config.config.segment_size, len, snapshot) {
        Ok(_) | Err(Error::PlacesUsedUp) => Ok(()),
        Err(e) => Err(e),
    }
}

/// Settles the log file and the names.
fn settle<D: Device>(device: &mut D) -> Result<()>
    ensures done { OnOk result (D.trace device.new ≡ NamesSynced ∷ Synced ∷ D.trace device.old) }
    ensures calls { Performs (Synced ∷ NamesSynced ∷ []) (D.trace device.old) (D.trace device.new) }
    ensures answers { DeviceAnswers result (D.faults device.old) (D.faults device.new) }
    ensures readable { IsCorruption result → ⊥ }
{
    device.sync()?;
    device.sync_names()?;
    Ok(())
}

/// What recovery makes of what the device has. It only reads. `Corruption` comes where the newest snapshot is damaged, where
/// segments are found that can't be of one log, where a damaged record is met or one whose blob doesn't pass for it, and
/// where the table can't be one. It names the blob where one doesn't pass and its checksum fails, and else none.
pub(crate) fn recover<D: Device, C: Checksum>(config: &mut RunningConfig<D, C>) -> Result<Recovery>
    ensures ok { let old = state_of (D.trace config.old.device) in
        IfOk result (λ x. Recovers C.sum_of config.old.config.segment_size (content_of old) (Recovered (result_of x))) }
    ensures corrupt { let old = state_of (D.trace config.old.device) in
        OnDamage result (λ at. Recovers C.sum_of config.old.config.segment_size (content_of old) (Damaged at)) }
    ensures answers { ItemAnswersOver D.trace D.faults C.sum_of result config.old config.new }
    ensures reads { OnlyReads D.trace config.old config.new }
{
    match read_newest(config) {
        Ok(first) => continue_from(config, first),
        Err(e) => Err(e),
    }
}

/// What recovery makes of the log file from a snapshot on.
fn continue_from<D: Device, C: Checksum>(
    config: &mut RunningConfig<D, C>,
    first: Snapshot,
) -> Result<Recovery>
    ensures ok { IfOk result (λ x. ContinuesOn D.trace C.sum_of config.old first (Recovered (result_of x))) }
    ensures corrupt { OnDamage result (λ at. ContinuesOn D.trace C.sum_of config.old first (Damaged at)) }
    ensures answers { ItemAnswersOver D.trace D.faults C.sum_of result config.old config.new }
    ensures reads { OnlyReads D.trace config.old config.new }
{
    let size = config.config.segment_size;
    let least = first.stable_place() / size * size;
    match find_segments(config, least) {
        Ok(segments) => continue_over(config, &segments, first),
        Err(e) => Err(e),
    }
}

/// The same, where these are the segments that are found.
fn continue_over<D: Device, C: Checksum>(
    config: &mut RunningConfig<D, C>,
    segments: &[Segment],
    first: Snapshot,
) -> Result<Recovery>
    requires ordering { IsOrdering C.sum_of config.old.config.segment_size (state_of (D.trace config.old.device)).log.bytes
        (least_place config.old.config.segment_size (model_of first)) segments.now }
    requires small { length (state_of (D.trace config.old.device)).log.bytes + config.old.config.segment_size < 2 ^ 63 }
    ensures ok { IfOk result (λ x. ContinuesOn D.trace C.sum_of config.old first (Recovered (result_of x))) }
    ensures corrupt { OnDamage result (λ at. ContinuesOn D.trace C.sum_of config.old first (Damaged at)) }
    ensures answers { ItemAnswersOver D.trace D.faults C.sum_of result config.old config.new }
    ensures reads { OnlyReads D.trace config.old config.new }
{
    let size = config.config.segment_size;
    let least = first.stable_place() / size * size;
    let begin = tail_begins(size, least, segments);
    let from = count_below(segments, begin);
    match read_tail(config, &segments[from..], begin) {
        Ok(tail) => match tail.end {
            Some(end) => replay_tail(config, segments, from, tail.passes, end, first),
            None => Ok(unchanged(first, slots_of(config.alloc(), segments)?)),
        },
        Err(e) => Err(e),
    }
}

/// What comes of the tail, which begins with the segment at `from` and ends at `end`: its blobs, and the pass.
fn replay_tail<D: Device, C: Checksum>(
    config: &mut RunningConfig<D, C>,
    segments: &[Segment],
    from: usize,
    tail: Vec<Pass>,
    end: u64,
    first: Snapshot,
) -> Result<Recovery>
    requires ready { CanAllBeRead config.old.config.segment_size (state_of (D.trace config.old.device)).log.bytes segments.now }
    requires from { from ≤ length segments.now }
    requires end { end < 2 ^ 63 }
    requires fits { All (IsPass config.old.config.segment_size) tail.items }
    requires scanned { AreScanned C.sum_of config.old.config.segment_size (state_of (D.trace config.old.device)).log.bytes
        (begun_below end (drop from segments.now)) (map pass_of tail.items) }
    ensures ok { let s = state_of (D.trace config.old.device) in
        IfOk result (λ x. PassesBehind C.sum_of config.old.config.segment_size s.log.bytes s.blobs.file (model_of first) segments.now end
        (map pass_of tail.items) (Recovered (result_of x))) }
    ensures corrupt { let s = state_of (D.trace config.old.device) in
        OnDamage result (λ at. NamesBadTail C.sum_of s.blobs.file (map pass_of tail.items) at
        ⊎ PassesBehind C.sum_of config.old.config.segment_size s.log.bytes s.blobs.file (model_of first) segments.now end
        (map pass_of tail.items) (Damaged at)) }
    ensures answers { ItemAnswersOver D.trace D.faults C.sum_of result config.old config.new }
    ensures reads { OnlyReads D.trace config.old config.new }
{
    let mut tail = tail;
    match look_up(config, &mut tail, end) {
        Ok(()) => pass_over(config, segments, from, tail, end, first),
        Err(e) => Err(e),
    }
}

/// What comes of the pass over the segments before that tail and over the tail, which has its blobs.
fn pass_over<D: Device, C: Checksum>(
    config: &mut RunningConfig<D, C>,
    segments: &[Segment],
    from: usize,
    tail: Vec<Pass>,
    end: u64,
    first: Snapshot,
) -> Result<Recovery>
    requires ready { CanAllBeRead config.old.config.segment_size (state_of (D.trace config.old.device)).log.bytes segments.now }
    requires from { from ≤ length segments.now }
    requires end { end < 2 ^ 63 }
    requires fits { All (IsPass config.old.config.segment_size) tail.items }
    requires tail { let s = state_of (D.trace config.old.device) in
        AreLookedUp C.sum_of config.old.config.segment_size s.log.bytes s.blobs.file end (begun_below end (drop from segments.now)) (map pass_of tail.items) }
    ensures ok { IfOk result (λ x. PassesOn D.trace C.sum_of config.old first segments.now end (Recovered (result_of x))) }
    ensures corrupt { OnDamage result (λ at. PassesOn D.trace C.sum_of config.old first segments.now end (Damaged at)) }
    ensures answers { ItemAnswersOver D.trace D.faults C.sum_of result config.old config.new }
    ensures reads { OnlyReads D.trace config.old config.new }
{
    match replay_below(config, &segments[..from], first, end) {
        Ok(replay) => {
            let mut replay = replay;
            apply_tail(config.alloc(), &mut replay, &tail, end)?;
            let size = config.config.segment_size;
            outcome_of(config.alloc(), size, replay, segments)
        }
        Err(e) => Err(e),
    }
}

/// Whether a segment can't begin at a place.
pub(crate) fn is_misplaced(size: u64, place: u64) -> bool
    requires { (0 < size) × (size < 2 ^ 32) }
    ensures { IsTrue result ↔ ((place % size ≢ 0) ⊎ (2 ^ 63 ≤ place + size)) }
{
    place % size != 0 || place >= (1 << 63) - size
}
