//! A log that is given up in order, and comes back.
//!
//! What a flush left is what a recovery reads: its table is that of the whole history, and a log that begins on
//! it holds that history again (`specs/Recovery.antt`; `Log::start`).
ghost use Rattle.std.specs.Prelude.{◌+◌, ◌≤◌, ℕ, List, IfOk, max};
ghost use Rattle.std.specs.List.{All};
ghost use Rattle.sled_codec.specs.Errors.{IsCorruption};
ghost use Rattle.sled_codec.specs.History.{History, Message};
ghost use Rattle.sled_codec.specs.PageTables.{IsTable};
ghost use Rattle.sled_codec.specs.Snapshots.{model_of, stable_place};
ghost use Rattle.sled_store.specs.Device.{state_of};
ghost use Rattle.sled_core.specs.Fits.{IsUsedUpBelow, NoneOpen, config_of, device_of, fault_of, flushing, reserved_end, segment_size_of};
ghost use Rattle.sled_core.specs.Keeps.{ConfigKept};
ghost use Rattle.sled_core.specs.invariants.Running.{Ready};
ghost use Rattle.sled_core.specs.Running.{end_below};
ghost use Rattle.sled_log.specs.Restarts.{CanRestart, LeavesInTwo, Restarts};

use crate::snapshot::{Snapshot, read_snapshot_or_default};
use sled_codec::result::Result;
use sled_codec::serialization::Checksum;
use sled_core::logger::Log;
use sled_store::{Device, RunningConfig};

/// Writes what a log holds, gives the log up, and recovers its device. Returns what the log ran on, and what was
/// recovered. Where all of this succeeds, for a log that fits an orderly history, and only what the log wrote is read as
/// its own, as it is while no mark joins above the floor, or nothing of a segment that is gone stands in the file
/// (`CanRestart`), the table is that of all completed messages, its place lies past each of them, and `Log::start` on the
/// snapshot gives a log that holds them again. No reservation may be open.
///
/// A crash within it leaves what can be recovered: until all is flushed for a log that fits its history, and from there
/// on where what the recovery reads is the log's own too (`LeavesInTwo`).
///
/// # Errors
///
/// Those of `Log::flush`, and then nothing else was done; else those of `read_snapshot_or_default`, which finds no damage
/// (`Corruption`) where a log can be restarted so. The configuration comes back with each of them.
pub fn restart<D: Device, C: Checksum>(log: Log<D, C>) -> (RunningConfig<D, C>, Result<Snapshot>)
    requires ended { NoneOpen log }
    ensures table { (H : History) (A f : ℕ) (U : List Message) → CanRestart D.trace C.sum_of log H A f U
        → IfOk result.1 (λ s. IsTable (model_of s).pages H (stable_place s.stable_lsn)) }
    ensures past { (H : History) (A f : ℕ) (U : List Message) → CanRestart D.trace C.sum_of log H A f U
        → IfOk result.1 (λ s. All (λ m. m.place + m.size ≤ stable_place s.stable_lsn) H.messages) }
    ensures ready { (H : History) (A f : ℕ) (U : List Message) → CanRestart D.trace C.sum_of log H A f U
        → IfOk result.1 (λ s. Ready C.sum_of (segment_size_of log) (state_of (D.trace result.0.device)) (model_of s) H
        (max A (end_below (reserved_end log) H)) (stable_place s.stable_lsn)) }
    ensures undamaged { (H : History) (A f : ℕ) (U : List Message) → CanRestart D.trace C.sum_of log H A f U → IsCorruption result.1 → ⊥ }
    ensures did { let old = device_of log in let new = result.0.device in
        Restarts C.sum_of (segment_size_of log) (flushing C.sum_of log) (IsUsedUpBelow log (reserved_end log)) (fault_of log) result.1
        (D.trace old) (D.trace new) (D.faults old) (D.faults new) }
    ensures crash { LeavesInTwo D.trace C.sum_of log (D.trace (device_of log)) (D.trace result.0.device) }
    ensures kept { ConfigKept (config_of log) result.0 }
{
    let mut log = log;
    let flushed = log.flush();
    let mut config = log.halt();
    match flushed {
        Ok(_) => {
            let snapshot = read_snapshot_or_default(&mut config);
            (config, snapshot)
        }
        Err(e) => (config, Err(e)),
    }
}
