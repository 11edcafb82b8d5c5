//! Making what was reserved durable up to a place, and closing a log.
//!
//! Both write buffers as `Log::flush` does (`specs/Stable.antt`).
ghost use Rattle.std.specs.Prelude.{List, ℕ, [], ◌≡◌, ◌+◌, ◌≤◌, ◌<ℤ◌, pos, Some, IfOk, OnOk, OnErr, max, ◌⊎◌};
ghost use Rattle.std.specs.declared.io.Error.{Error as IoError};
ghost use Rattle.sled_codec.specs.History.{History, Message};
ghost use Rattle.sled_store.specs.Device.{state_of};
ghost use Rattle.sled_store.specs.Moments.{LeavesOnly};
ghost use Rattle.sled_store.specs.Script.{after_all, Performs};
ghost use Rattle.sled_core.specs.Causes.{OnDone};
ghost use Rattle.sled_core.specs.Fits.{IsUsedUpBelow, config_of, device_of, fault_of, flushing, holding_below, reserved_end, segment_size_of, stable_end};
ghost use Rattle.sled_core.specs.Fronts.{CameTo, ClosedAt};
ghost use Rattle.sled_core.specs.Keeps.{KeepsWriting, ConfigKept, WritesBelow};
ghost use Rattle.sled_core.specs.LogStatus.{HasStatus, left_above, status_below};
ghost use Rattle.sled_core.specs.Recoverable.{LeavesRecoverable, RecoverableIfOwn};
ghost use Rattle.sled_core.specs.Pooled.{PoolsSome};
ghost use Rattle.sled_core.specs.invariants.Running.{Fits};
ghost use Rattle.sled_core.specs.Running.{end_below};
ghost use Rattle.sled_core.specs.Stable.{held_for, stabilizing, stable_behind, target_for, IsNotReserved, SparesDevice, StableAnswers, CloseAnswers};

use crate::logger::Log;
use sled_codec::result::{Error, Lsn, Result};
use sled_codec::serialization::Checksum;
use sled_store::{Device, RunningConfig};

impl<D: Device, C: Checksum> Log<D, C> {
    /// Makes the message at this place durable, and all before it. Returns by how many bytes the stable end grew: 0
    /// where the place is stable already, and then nothing is written. The buffers that begin at or below the place are written,
    /// one by one; where it lies in a batch, in front of its peg, those up to the peg are.
    ///
    /// # Errors
    ///
    /// `Held` where one of these has an open reservation, with the least place of its open ones; `Io`, `PlacesUsedUp` and
    /// `OutOfMemory` as of `flush`, and the last two only where the place is to be made durable; `NotReserved` exactly where
    /// the place lies above both the stable end and the greatest reserved place, and the log keeps no failure of its device:
    /// the log is as it was.
    pub fn make_stable(&mut self, lsn: Lsn) -> Result<usize>
        ensures answer { IfOk result (λ n. stable_end self.new ≡ stable_end self.old + n) }
        ensures target { OnOk result (lsn <ℤ pos (stable_end self.new)) }
        ensures status { OnOk result (HasStatus (left_above C.sum_of (target_for self.old lsn) self.old)
            (status_below C.sum_of (target_for self.old lsn) self.old) self.new) }
        ensures made { OnDone result (D.trace (device_of self.new) ≡ after_all (stabilizing C.sum_of self.old lsn) (D.trace (device_of self.old))) }
        ensures at_most { Performs (stabilizing C.sum_of self.old lsn) (D.trace (device_of self.old)) (D.trace (device_of self.new)) }
        ensures keeps { KeepsWriting D.trace C.sum_of self.old self.new }
        ensures acknowledges { (H : History) (A f : ℕ) (U : List Message) → Fits D.trace C.sum_of self.old H A f U
            → OnOk result (Fits D.trace C.sum_of self.new H (max A (end_below (stable_end self.new) H)) f U) }
        ensures answers { StableAnswers result lsn (stable_end self.old) (reserved_end self.old) (held_for C.sum_of self.old lsn)
            (IsUsedUpBelow self.old (target_for self.old lsn))
            (fault_of self.old) (fault_of self.new) (D.faults (device_of self.old)) (D.faults (device_of self.new)) }
        ensures spares { SparesDevice D.faults (stabilizing C.sum_of self.old lsn) self.old self.new }
        ensures refused { IsNotReserved result → self.new ≡ self.old }
        ensures buffers { WritesBelow C.sum_of result (target_for self.old lsn) self.old self.new
            × OnErr result (IsNotReserved result ⊎ CameTo D.trace C.sum_of (target_for self.old lsn) self.old self.new) }
        ensures pooled { PoolsSome self.old self.new }
    {
        if let Some(e) = self.fault.kept {
            return Err(Error::Io(e));
        }
        if lsn <= self.stable_offset() {
            return Ok(0);
        }
        if lsn >= self.reserved_to as Lsn {
            return Err(Error::NotReserved(lsn));
        }
        let before = self.stable_end();
        let to = self.behind_batch(lsn as u64 + 1);
        self.write_below(to)?;
        Ok((self.stable_end() - before) as usize)
    }

    /// Writes what was completed and syncs it, gives the log up, and returns what it ran on, with by how many bytes the
    /// stable end grew.
    ///
    /// # Errors
    ///
    /// Those of `flush`. The configuration comes back with each of them.
    pub fn close(self) -> (RunningConfig<D, C>, Result<usize>)
        ensures answer { IfOk result.1 (λ n. stable_behind C.sum_of (reserved_end self) self ≡ stable_end self + n) }
        ensures whole { IfOk result.1 (λ n. reserved_end self ≤ stable_end self + n) }
        ensures made { OnDone result.1 (D.trace result.0.device ≡ after_all (flushing C.sum_of self) (D.trace (device_of self))) }
        ensures at_most { Performs (flushing C.sum_of self) (D.trace (device_of self)) (D.trace result.0.device) }
        ensures acknowledges { (H : History) (A f : ℕ) (U : List Message) → Fits D.trace C.sum_of self H A f U
            → OnOk result.1 (LeavesRecoverable C.sum_of (segment_size_of self) H (max A (end_below (reserved_end self) H)) f
            (state_of (D.trace result.0.device))) }
        ensures crash { (H : History) (A f : ℕ) (U : List Message) → Fits D.trace C.sum_of self H A f U
            → LeavesOnly (RecoverableIfOwn C.sum_of (segment_size_of self) H A f) (D.trace (device_of self)) (D.trace result.0.device) }
        ensures answers { CloseAnswers result.1 (holding_below C.sum_of self (reserved_end self)) (IsUsedUpBelow self (reserved_end self)) (fault_of self)
            (D.faults (device_of self)) (D.faults result.0.device) }
        ensures came { OnErr result.1 (ClosedAt D.trace C.sum_of result.1 self (D.trace result.0.device)) }
        ensures faulty { (e : IoError) → fault_of self ≡ Some e → D.trace result.0.device ≡ D.trace (device_of self) }
        ensures idle { flushing C.sum_of self ≡ [] → D.faults result.0.device ≡ D.faults (device_of self) }
        ensures config { ConfigKept (config_of self) result.0 }
    {
        let mut log = self;
        let flushed = log.flush();
        (log.halt(), flushed)
    }
}
