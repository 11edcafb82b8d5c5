//! Bringing the buffer of one place to the device.
//!
//! The others aren't written, so it may lie behind a gap (`specs/ReadBuffer.antt`).
ghost use Rattle.std.specs.Prelude.{◌≡◌, ◌<◌, ◌≤◌, ◌<ℤ◌, ◌≤ℤ◌, ◌⊎◌, Contains, pos, unsigned_abs, None, true, OnErr, OnOk};
ghost use Rattle.sled_store.specs.Script.{after_all, Performs};
ghost use Rattle.sled_store.specs.SegmentStates.{Machine};
ghost use Rattle.sled_core.specs.Causes.{HeldAnswers, OnDone};
ghost use Rattle.sled_core.specs.Fits.{NoneSealed, current_begin, device_of, fault_of, ledger_of, position_with, reserved_end, segment_size_of, start_of, synced_end, waiting_of};
ghost use Rattle.sled_core.specs.Fronts.{CameAround, WroteNone, WroteThenFailed};
ghost use Rattle.sled_core.specs.Keeps.{KeepsWriting};
ghost use Rattle.sled_core.specs.Ledger.{ledger_behind};
ghost use Rattle.sled_core.specs.inside.Marked.{JoinsBelow, KeepsSegment};
ghost use Rattle.sled_core.specs.Pooled.{PoolsSome, PoolsWith};
ghost use Rattle.sled_core.specs.ReadBuffer.{IsUsedUpAt, IsWrittenPlace, SealsAround, WritesAround, held_at, settling};
ghost use Rattle.sled_core.specs.inside.ReadBuffer.{SettleAnswers};
ghost use Rattle.sled_core.specs.Stable.{IsNotReserved};
ghost use Rattle.sled_core.specs.Waiting.{BufferAt, has_place, one_around, without_around};

use crate::logger::Log;
use sled_codec::result::{Error, Lsn, Result};
use sled_codec::serialization::Checksum;
use sled_store::Device;

impl<D: Device, C: Checksum> Log<D, C> {
    /// Brings the buffer of a place to the device, where that was reserved and isn't stable. A negative place is before all.
    pub(crate) fn settle_at(&mut self, place: Lsn) -> Result<()>
        requires { fault_of self.old ≡ None }
        ensures written { OnOk result (pos 0 ≤ℤ place → IsWrittenPlace self.new (unsigned_abs place)) }
        ensures still { place <ℤ pos (synced_end self.old) → self.new ≡ self.old }
        ensures unchanged { IsNotReserved result → self.new ≡ self.old }
        ensures calls { OnDone result (D.trace (device_of self.new) ≡ after_all (settling C.sum_of self.old place) (D.trace (device_of self.old))) }
        ensures at_most { Performs (settling C.sum_of self.old place) (D.trace (device_of self.old)) (D.trace (device_of self.new)) }
        ensures keeps { KeepsWriting D.trace C.sum_of self.old self.new }
        ensures answers { SettleAnswers result place (synced_end self.old) (reserved_end self.old) (held_at C.sum_of self.old place) (IsUsedUpAt self.old place)
            (fault_of self.new) (D.faults (device_of self.old)) (D.faults (device_of self.new)) }
        ensures seals { SealsAround result place self.old self.new }
        ensures joined { JoinsBelow D.trace C.sum_of self.old self.new }
        ensures buffers { WritesAround C.sum_of result place self.old self.new
            × OnErr result (CameAround D.trace C.sum_of place self.old self.new) }
        ensures pooled { PoolsSome self.old self.new }
    {
        if place < 0 {
            return Ok(());
        }
        let at = place.unsigned_abs();
        if at >= self.synced_end() && at >= self.reserved_to {
            return Err(Error::NotReserved(place));
        }
        self.settle(at)
    }

    /// Brings the buffer of a place to the device, where the place isn't stable. The current one is sealed for that.
    fn settle(&mut self, place: u64) -> Result<()>
        requires fault { fault_of self.old ≡ None }
        requires reserved { (place < synced_end self.old) ⊎ (place < reserved_end self.old) }
        ensures written { OnOk result (IsWrittenPlace self.new place) }
        ensures still { place < synced_end self.old → self.new ≡ self.old }
        ensures calls { OnDone result (D.trace (device_of self.new) ≡ after_all (settling C.sum_of self.old (pos place)) (D.trace (device_of self.old))) }
        ensures at_most { Performs (settling C.sum_of self.old (pos place)) (D.trace (device_of self.old)) (D.trace (device_of self.new)) }
        ensures keeps { KeepsWriting D.trace C.sum_of self.old self.new }
        ensures answers { HeldAnswers result (held_at C.sum_of self.old (pos place)) (IsUsedUpAt self.old (pos place)) None (fault_of self.new)
            (D.faults (device_of self.old)) (D.faults (device_of self.new)) }
        ensures seals { SealsAround result (pos place) self.old self.new }
        ensures joined { JoinsBelow D.trace C.sum_of self.old self.new }
        ensures buffers { WritesAround C.sum_of result (pos place) self.old self.new
            × OnErr result (CameAround D.trace C.sum_of (pos place) self.old self.new) }
        ensures pooled { PoolsSome self.old self.new }
    {
        if place < self.synced_end() {
            return Ok(());
        }
        if place >= self.current_begin() {
            self.seal()?;
        }
        self.write_around(place)
    }

    /// Writes the one buffer that has a place, unless it is on the device or has an open reservation. It is sealed.
    fn write_around(&mut self, place: u64) -> Result<()>
        requires fault { fault_of self.old ≡ None }
        requires behind { synced_end self.old ≤ place }
        requires sealed { place < current_begin self.old }
        ensures written { OnOk result (IsWrittenPlace self.new place) }
        ensures calls { OnDone result (D.trace (device_of self.new) ≡ after_all (settling C.sum_of self.old (pos place)) (D.trace (device_of self.old))) }
        ensures at_most { Performs (settling C.sum_of self.old (pos place)) (D.trace (device_of self.old)) (D.trace (device_of self.new)) }
        ensures keeps { KeepsWriting D.trace C.sum_of self.old self.new }
        ensures answers { HeldAnswers result (held_at C.sum_of self.old (pos place)) ⊥ None (fault_of self.new)
            (D.faults (device_of self.old)) (D.faults (device_of self.new)) }
        ensures start { (start_of self.new ≡ start_of self.old) × ((m : Machine) → position_with self.new m ≡ position_with self.old m) }
        ensures without { OnOk result ((waiting_of self.new ≡ without_around place (waiting_of self.old))
            × (ledger_of self.new ≡ ledger_behind (segment_size_of self.old) (one_around place (waiting_of self.old)) (ledger_of self.old))) }
        ensures same { OnErr result (((waiting_of self.new ≡ waiting_of self.old) × WroteNone D.trace self.old self.new
            × (ledger_of self.new ≡ ledger_of self.old))
            ⊎ (WroteThenFailed D.trace (one_around place (waiting_of self.old)) (without_around place (waiting_of self.old)) self.old self.new
            × (held_at C.sum_of self.old (pos place) ≡ None))) }
        ensures one { ((b : BufferAt) → Contains (waiting_of self.old) b → has_place place b ≡ true) → OnOk result (NoneSealed self.new) }
        ensures segment { KeepsSegment self.old self.new }
        ensures joined { JoinsBelow D.trace C.sum_of self.old self.new }
        ensures pooled { PoolsWith 0 self.old self.new }
    {
        let n = self.segment_of(place);
        let (site, buffer) = self.segment(n);
        let at = (place - site.place) as usize;
        if at < buffer.written_len {
            return Ok(());
        }
        let (k, b) = buffer.around(at);
        if b.is_written {
            return Ok(());
        }
        if b.open_count > 0 {
            let first = buffer.first_of(k);
            return Err(Error::Held(buffer.least_open(first, &site)));
        }
        self.write_buffer(n, k)
    }
}
