//! Sealing and writing the buffers of a log.
//!
//! A sealed buffer is written as a whole, by one write and one sync, in any order. The stable end lies behind those at the
//! front that are written (`specs/Waiting.antt`).
ghost use Rattle.std.specs.Prelude.{List, ℕ, ◌≡◌, ◌⊎◌, ◌+◌, ◌<◌, ◌≤◌, ◌^◌, ◌∷◌, [], pos, None, Some, false, length, slice_get, set, Contains, IfOk, IfErr, OnOk, OnErr, max};
ghost use Rattle.std.specs.declared.io.Error.{Error as IoError};
ghost use Rattle.std.specs.IoError.{error_kind};
ghost use Rattle.std.specs.declared.io.ErrorKind.TheVariants.{OutOfMemory};
ghost use Rattle.sled_codec.specs.History.{History, Message};
ghost use Rattle.sled_store.specs.Answers.{Counts, FailsOr};
ghost use Rattle.sled_store.specs.Blobs.{UnlessFault};
ghost use Rattle.sled_store.specs.Device.{state_of, Wrote, Synced};
ghost use Rattle.sled_store.specs.Script.{after_all, Performs};
ghost use Rattle.sled_store.specs.SegmentStates.{Machine};
ghost use Rattle.sled_core.specs.Account.{account_of, written_account};
ghost use Rattle.sled_core.specs.Among.{AreAmong};
ghost use Rattle.sled_core.specs.Begun.{SegmentView};
ghost use Rattle.sled_core.specs.Buffers.{first_open_in, open_in};
ghost use Rattle.sled_core.specs.Causes.{Answers, FaultOrMemory, HeldAnswers, OnDone};
ghost use Rattle.sled_core.specs.Fits.{IsUnchanged, IsUsedUp, IsUsedUpBelow, IsWritten, NoneSealed, buffers_of, config_of, current_begin, device_of, fault_of, fillings_of, flushing, heads_of, held_len, holding_below, ledger_of, line_of, machine_at, pending_of, position_with, reserved_end, segment_size_of, stable_end, start_of, synced_end, waiting_of, writing_below, writing_pending};
ghost use Rattle.sled_core.specs.Fronts.{CameTo, IsOnTheWay, WroteThenFailed, synced_writes, syncs};
ghost use Rattle.sled_core.specs.Keeps.{FailedStep, HoldsFast, KeepsLog, KeepsWriting, WritesBelow};
ghost use Rattle.sled_core.specs.Ledger.{ledger_step, stepped_ledger, written_ledger};
ghost use Rattle.sled_core.specs.LogStatus.{HasStatus, left_above, status_behind, status_below, status_rolled};
ghost use Rattle.sled_core.specs.Marked.{BeginsMarked};
ghost use Rattle.sled_core.specs.inside.Fronts.{WroteParts};
ghost use Rattle.sled_core.specs.inside.LeavesAbove.{LeavesAbove};
ghost use Rattle.sled_core.specs.inside.Marked.{JoinsBelow, KeepsSegment};
ghost use Rattle.sled_core.specs.inside.OneWritten.{KeepsOne, WritesNone, WroteOne};
ghost use Rattle.sled_core.specs.invariants.Running.{Fits};
ghost use Rattle.sled_core.specs.Running.{end_below};
ghost use Rattle.sled_core.specs.Pooled.{PoolsSome, PoolsWith, begun_rolled};
ghost use Rattle.sled_core.specs.Stable.{SparesDevice, SyncsAll};
ghost use Rattle.sled_core.specs.inside.Turned.{ChangesDevice, FreesSlots, IsReadyIn, mark_of, promoted, ready_below, write_in, writing_in, written_now};
ghost use Rattle.sled_core.specs.Waiting.{BufferAt, one_pending, unwritten, without_pending, write_pending};

use crate::logger::Log;
use crate::logger::joined_marks::mark_at;
use sled_codec::result::{Error, LogOffset, Lsn, Result};
use sled_codec::serialization::Checksum;
use sled_store::Device;
use std::io;

impl<D: Device, C: Checksum> Log<D, C> {
    /// Returns how many sealed buffers can be written: they aren't yet, and have no open or abandoned reservation.
    pub fn pending(&self) -> usize
        ensures { result ≡ pending_of self.now }
    {
        self.ready.places.len()
    }

    /// Writes the i-th of the buffers that can be written, by place, and syncs it. Where no pin is out the accountant makes a step
    /// behind that: segments come free that no table from the mark on needs, and blobs go that were replaced.
    ///
    /// # Errors
    ///
    /// `Io` where the log keeps a failure of its device, or where the device failed in this call: the log keeps that.
    /// `OutOfMemory`: nothing was written. After each of them no further buffer counts as written, but for this one where the
    /// device failed in the accountant's step behind it.
    pub fn write_to_log(&mut self, i: usize) -> Result<()>
        requires { i < pending_of self.old }
        ensures calls { OnOk result (D.trace (device_of self.new) ≡ after_all (writing_pending self.old i) (D.trace (device_of self.old))) }
        ensures at_most { Performs (writing_pending self.old i) (D.trace (device_of self.old)) (D.trace (device_of self.new)) }
        ensures status { OnOk result (HasStatus (without_pending i (waiting_of self.old)) (status_behind i self.old) self.new) }
        ensures keeps { KeepsWriting D.trace C.sum_of self.old self.new }
        ensures start { (start_of self.new ≡ start_of self.old) × ((m : Machine) → position_with self.new m ≡ position_with self.old m) }
        ensures heads { AreAmong (heads_of self.new) (heads_of self.old) }
        ensures fillings { AreAmong (fillings_of self.new) (fillings_of self.old) }
        ensures answers { Answers result (fault_of self.old) (fault_of self.new) (D.faults (device_of self.old)) (D.faults (device_of self.new)) }
        ensures faulty { (e : IoError) → fault_of self.old ≡ Some e → self.new ≡ self.old }
        ensures err { OnErr result (((synced_end self.new ≡ synced_end self.old) × (waiting_of self.new ≡ waiting_of self.old)
            × (syncs (D.trace (device_of self.new)) ≡ syncs (D.trace (device_of self.old))) × (ledger_of self.new ≡ ledger_of self.old))
            ⊎ WroteThenFailed D.trace (one_pending i (waiting_of self.old)) (without_pending i (waiting_of self.old)) self.old self.new) }
        ensures refused { UnlessFault result (D.trace (device_of self.old)) (D.trace (device_of self.new)) }
        ensures pooled { PoolsWith 0 self.old self.new }
    {
        if let Some(e) = self.fault.kept {
            return Err(Error::Io(e));
        }
        let (n, k) = self.ready_at(i);
        self.write_buffer(n, k)
    }

    /// Which segment the i-th of the buffers that can be written is of, and which of its sealed ones it is.
    fn ready_at(&self, i: usize) -> (usize, usize)
        requires { i < pending_of self.now }
        ensures ready { IsReadyIn (line_of self.now) result.0 result.1 }
        ensures writes { write_in (line_of self.now) result.0 result.1 ≡ write_pending i (waiting_of self.now) }
        ensures left { (v : SegmentView) → slice_get (line_of self.now) result.0 ≡ Some v
            → unwritten (set (line_of self.now) result.0 (written_now result.1 v)) ≡ without_pending i (waiting_of self.now) }
        ensures one { (v : SegmentView) → slice_get (line_of self.now) result.0 ≡ Some v
            → (b : BufferAt) × (one_pending i (waiting_of self.now) ≡ b ∷ []) × (b.mark ≡ mark_of result.1 v) }
    {
        let place = self.ready.places[i];
        let n = self.segment_of(place);
        let (site, buffer) = self.segment(n);
        let (k, _) = buffer.around((place - site.place) as usize);
        (n, k)
    }

    /// Seals the current buffer, where it holds anything, so that a further reservation begins another one: to the end of
    /// its segment, where no further record has room, and then the next one is begun. Returns how many bytes the buffer has,
    /// those of its segment's header counted, and those that fill the segment not.
    ///
    /// # Errors
    ///
    /// `Io` exactly where the log keeps a failure of its device; `PlacesUsedUp` exactly where it keeps none, and the next segment
    /// is to be begun and would not end below 2^63 in the log and in the file; and `OutOfMemory`. The log is as it was.
    pub fn roll_iobuf(&mut self) -> Result<usize>
        ensures answer { IfOk result (λ n. n ≡ held_len self.old) }
        ensures status { OnOk result (HasStatus (buffers_of C.sum_of self.old) (status_rolled self.old) self.new) }
        ensures marked { OnOk result (BeginsMarked C.sum_of self.old self.new) }
        ensures keeps { KeepsLog D.trace C.sum_of self.old self.new }
        ensures untouched { config_of self.new ≡ config_of self.old }
        ensures answers { FaultOrMemory result ((0 < held_len self.old) × IsUsedUp self.old) (fault_of self.old) }
        ensures err { OnErr result (IsUnchanged self.old self.new) }
        ensures pooled { OnOk result (PoolsWith (begun_rolled self.old) self.old self.new) }
    {
        if let Some(e) = self.fault.kept {
            return Err(Error::Io(e));
        }
        let (_, buffer) = self.current();
        let held = buffer.bytes.len() - buffer.begin;
        if held == 0 {
            return Ok(0);
        }
        self.seal()?;
        Ok(held)
    }

    /// Writes all that was reserved, buffer by buffer, and syncs it, and returns by how many bytes the stable end grew. It
    /// lies behind what fills a segment, too, where that is written.
    /// Where nothing was reserved since the last write it does nothing. What a crash leaves at any moment of it can be recovered.
    /// Behind each buffer segments may come free, as of `write_to_log`.
    ///
    /// # Errors
    ///
    /// `Held` where a reservation is open, with the least place of those that are: the buffers below that one's are
    /// written, and its own is sealed. `Io` where the log keeps a failure of its device, or where the device failed in
    /// this call, which it can only where a buffer is to be written: the log keeps that. `PlacesUsedUp` where the current buffer
    /// is to be sealed, no further record has room in its segment, and the next one would not end below 2^63 in the log and in
    /// the file. `OutOfMemory`, where that isn't so: the flush can be tried again. Where no buffer was sealed, the stable end is
    /// where it was after each of them, but where the device failed as segments came free: then all may be written.
    pub fn flush(&mut self) -> Result<usize>
        ensures answer { IfOk result (λ n. stable_end self.new ≡ stable_end self.old + n) }
        ensures status { OnOk result (HasStatus (left_above C.sum_of (reserved_end self.old) self.old)
            (status_below C.sum_of (reserved_end self.old) self.old) self.new) }
        ensures synced { OnOk result (SyncsAll self.old self.new) }
        ensures records { (H : History) → HoldsFast D.trace C.sum_of self.old H → OnOk result (IsWritten D.trace C.sum_of self.new H) }
        ensures calls { OnDone result (D.trace (device_of self.new) ≡ after_all (flushing C.sum_of self.old) (D.trace (device_of self.old))) }
        ensures at_most { Performs (flushing C.sum_of self.old) (D.trace (device_of self.old)) (D.trace (device_of self.new)) }
        ensures keeps { KeepsWriting D.trace C.sum_of self.old self.new }
        ensures acknowledges { (H : History) (A f : ℕ) (U : List Message) → Fits D.trace C.sum_of self.old H A f U
            → OnOk result (Fits D.trace C.sum_of self.new H (max A (end_below (synced_end self.new) H)) f U) }
        ensures answers { HeldAnswers result (holding_below C.sum_of self.old (reserved_end self.old)) (IsUsedUpBelow self.old (reserved_end self.old))
            (fault_of self.old) (fault_of self.new) (D.faults (device_of self.old)) (D.faults (device_of self.new)) }
        ensures spares { SparesDevice D.faults (flushing C.sum_of self.old) self.old self.new }
        ensures buffers { WritesBelow C.sum_of result (reserved_end self.old) self.old self.new
            × OnErr result (CameTo D.trace C.sum_of (reserved_end self.old) self.old self.new) }
        ensures pooled { PoolsSome self.old self.new }
    {
        if let Some(kept) = self.fault.kept {
            return Err(Error::Io(kept));
        }
        let before = self.stable_end();
        let to = self.reserved_to;
        self.write_below(to)?;
        Ok((self.stable_end() - before) as usize)
    }

    /// The place behind all that is on the device without a gap.
    pub(crate) fn synced_end(&self) -> u64
        ensures is { result ≡ synced_end self.now }
        ensures in_reach { result < 2 ^ 63 }
    {
        self.segments.first.site.place + self.segments.first.buffer.written_len as u64
    }

    /// Writes the buffers that begin below a place, by place, up to the first that has an open reservation, which holds it
    /// up. The current one is sealed where it begins there.
    pub(crate) fn write_below(&mut self, to: u64) -> Result<()>
        requires fault { fault_of self.old ≡ None }
        requires reserved { to ≤ reserved_end self.old }
        ensures written { OnOk result (to ≤ synced_end self.new) }
        ensures calls { OnDone result (D.trace (device_of self.new) ≡ after_all (writing_below C.sum_of self.old to) (D.trace (device_of self.old))) }
        ensures at_most { Performs (writing_below C.sum_of self.old to) (D.trace (device_of self.old)) (D.trace (device_of self.new)) }
        ensures keeps { KeepsWriting D.trace C.sum_of self.old self.new }
        ensures answers { HeldAnswers result (holding_below C.sum_of self.old to) (IsUsedUpBelow self.old to) None (fault_of self.new)
            (D.faults (device_of self.old)) (D.faults (device_of self.new)) }
        ensures idle { writing_below C.sum_of self.old to ≡ [] → D.faults (device_of self.new) ≡ D.faults (device_of self.old) }
        ensures above { OnOk result (LeavesAbove C.sum_of to self.old self.new) }
        ensures buffers { WritesBelow C.sum_of result to self.old self.new }
        ensures came { OnErr result (CameTo D.trace C.sum_of to self.old self.new) }
        ensures pooled { PoolsSome self.old self.new }
    {
        if self.current_begin() < to {
            self.seal()?;
        }
        self.write_sealed_below(to)
    }

    /// Does that where those that begin below the place are sealed.
    fn write_sealed_below(&mut self, to: u64) -> Result<()>
        requires fault { fault_of self.old ≡ None }
        requires reserved { to ≤ reserved_end self.old }
        requires sealed { to ≤ current_begin self.old }
        ensures written { OnOk result (to ≤ synced_end self.new) }
        ensures calls { OnDone result (D.trace (device_of self.new) ≡ after_all (writing_below C.sum_of self.old to) (D.trace (device_of self.old))) }
        ensures at_most { Performs (writing_below C.sum_of self.old to) (D.trace (device_of self.old)) (D.trace (device_of self.new)) }
        ensures keeps { KeepsWriting D.trace C.sum_of self.old self.new }
        ensures answers { HeldAnswers result (holding_below C.sum_of self.old to) ⊥ None (fault_of self.new)
            (D.faults (device_of self.old)) (D.faults (device_of self.new)) }
        ensures current { (current_begin self.new ≡ current_begin self.old) × KeepsSegment self.old self.new }
        ensures none { ((b : BufferAt) → Contains (waiting_of self.old) b → b.place < to) → OnOk result (NoneSealed self.new) }
        ensures one { length (waiting_of self.old) ≤ 1 → OnErr result (FailedStep self.old self.new ⊎ (synced_end self.new ≡ synced_end self.old)) }
        ensures above { OnOk result (LeavesAbove C.sum_of to self.old self.new) }
        ensures front { OnErr result (WroteParts D.trace C.sum_of to self.old self.new) }
        ensures idle { writing_below C.sum_of self.old to ≡ [] → D.faults (device_of self.new) ≡ D.faults (device_of self.old) }
        ensures pooled { PoolsWith 0 self.old self.new }
    {
        while self.has_ready_below(to) {
            self.write_buffer(0, 0)?;
        }
        if self.synced_end() < to {
            return Err(Error::Held(self.least_held()));
        }
        Ok(())
    }

    /// The least place of an open reservation of the first segment, of which one is.
    fn least_held(&self) -> Lsn
        requires { 0 < open_in self.now.segments.first.buffer.reserved.items }
        ensures { (from : ℕ) → first_open_in self.now.segments.first.buffer.reserved.items ≡ Some from
            → result ≡ pos (self.now.segments.first.site.place + from) }
    {
        let s = &self.segments.first;
        s.buffer.least_open(0, &s.site)
    }

    /// The first of the sealed buffers begins below a place, and can be written.
    fn has_ready_below(&self, to: u64) -> bool
        ensures { result ≡ ready_below (line_of self.now) to }
    {
        match self.segments.first.buffer.sealed.front() {
            Some(first) => self.synced_end() < to && first.is_ready(),
            None => false,
        }
    }

    /// Writes one of the sealed buffers of a segment, which can be written, and syncs it, as `write_one` does. Behind it the
    /// accountant makes a step.
    pub(crate) fn write_buffer(&mut self, n: usize, k: usize) -> Result<()>
        requires fault { fault_of self.old ≡ None }
        requires ready { IsReadyIn (line_of self.old) n k }
        ensures line { (v : SegmentView) → slice_get (line_of self.old) n ≡ Some v
            → OnOk result (line_of self.new ≡ promoted (segment_size_of self.old) (set (line_of self.old) n (written_now k v))) }
        ensures ledger { (v : SegmentView) → slice_get (line_of self.old) n ≡ Some v
            → OnOk result (ledger_of self.new ≡ written_ledger (segment_size_of self.old) (mark_of k v) (ledger_of self.old)) }
        ensures calls { OnOk result (D.trace (device_of self.new)
            ≡ after_all (writing_in (segment_size_of self.old) (ledger_of self.old) (line_of self.old) n k) (D.trace (device_of self.old))) }
        ensures at_most { Performs (writing_in (segment_size_of self.old) (ledger_of self.old) (line_of self.old) n k)
            (D.trace (device_of self.old)) (D.trace (device_of self.new)) }
        ensures position { (m : Machine) → position_with self.new m ≡ position_with self.old m }
        ensures keeps { KeepsWriting D.trace C.sum_of self.old self.new }
        ensures answers { Answers result None (fault_of self.new) (D.faults (device_of self.old)) (D.faults (device_of self.new)) }
        ensures refused { UnlessFault result (D.trace (device_of self.old)) (D.trace (device_of self.new)) }
        ensures unwritten { OnErr result (WritesNone D.trace self.old self.new ⊎ WroteOne D.trace n k self.old self.new) }
        ensures joined { JoinsBelow D.trace C.sum_of self.old self.new }
        ensures pooled { PoolsWith 0 self.old self.new }
    {
        self.write_one(n, k)?;
        self.free_segments()
    }

    /// Writes one of the sealed buffers of a segment, which can be written, and syncs it. Segments that are wholly on the
    /// device then are left out. Where it begins with the header of its segment the mark of that is on the device then,
    /// and where no pin is out all marks join that are.
    fn write_one(&mut self, n: usize, k: usize) -> Result<()>
        requires fault { fault_of self.old ≡ None }
        requires ready { IsReadyIn (line_of self.old) n k }
        ensures line { (v : SegmentView) → slice_get (line_of self.old) n ≡ Some v
            → OnOk result (line_of self.new ≡ promoted (segment_size_of self.old) (set (line_of self.old) n (written_now k v))) }
        ensures account { (v : SegmentView) → slice_get (line_of self.old) n ≡ Some v
            → OnOk result (account_of self.new ≡ written_account (mark_of k v) (account_of self.old)) }
        ensures machine { machine_at self.new ≡ machine_at self.old }
        ensures calls { OnOk result (D.trace (device_of self.new) ≡ after_all (write_in (line_of self.old) n k) (D.trace (device_of self.old))) }
        ensures at_most { Performs (write_in (line_of self.old) n k) (D.trace (device_of self.old)) (D.trace (device_of self.new)) }
        ensures position { (m : Machine) → position_with self.new m ≡ position_with self.old m }
        ensures keeps { KeepsOne D.trace C.sum_of self.old self.new }
        ensures answers { Answers result None (fault_of self.new) (D.faults (device_of self.old)) (D.faults (device_of self.new)) }
        ensures refused { UnlessFault result (D.trace (device_of self.old)) (D.trace (device_of self.new)) }
        ensures unwritten { OnErr result (WritesNone D.trace self.old self.new) }
        ensures joined { JoinsBelow D.trace C.sum_of self.old self.new }
        ensures pooled { PoolsWith 0 self.old self.new }
    {
        self.write_bytes(n, k)?;
        let mark = self.mark_of(n, k);
        let size = self.config.config.segment_size;
        let s = self.segments.segment_mut(n);
        self.ready.note_written(&s.site, &s.buffer, k);
        s.buffer.mark_written(k);
        s.buffer
            .retire(self.config.alloc(), size as usize, &mut self.pool);
        self.segments.promote(size);
        self.marks.note_mark(mark, self.pins > 0);
        Ok(())
    }

    /// The accountant's step for the mark that joined, unless a pin is out: blobs go that were replaced, and segments come free. It
    /// keeps a failure of the device.
    fn free_segments(&mut self) -> Result<()>
        requires fault { fault_of self.old ≡ None }
        ensures ledger { OnOk result (ledger_of self.new ≡ stepped_ledger (segment_size_of self.old) (ledger_of self.old)) }
        ensures rest { FreesSlots self.old self.new }
        ensures calls { OnOk result (D.trace (device_of self.new)
            ≡ after_all (ledger_step (segment_size_of self.old) (ledger_of self.old)).calls (D.trace (device_of self.old))) }
        ensures at_most { Performs (ledger_step (segment_size_of self.old) (ledger_of self.old)).calls
            (D.trace (device_of self.old)) (D.trace (device_of self.new)) }
        ensures keeps { KeepsWriting D.trace C.sum_of self.old self.new }
        ensures answers { Answers result None (fault_of self.new) (D.faults (device_of self.old)) (D.faults (device_of self.new)) }
        ensures failed { OnErr result (FailedStep self.old self.new × IsOnTheWay D.trace self.new (machine_at self.old)) }
        ensures written { synced_writes (D.trace (device_of self.new)) ≡ synced_writes (D.trace (device_of self.old)) }
    {
        if self.pins > 0 {
            return Ok(());
        }
        let freed = self
            .accountant
            .stabilize(&mut self.config, self.marks.joined);
        self.fault.note(&freed);
        freed
    }

    /// The mark of its segment, where that buffer begins with the header of it.
    fn mark_of(&self, n: usize, k: usize) -> Option<Lsn>
        requires ready { IsReadyIn (line_of self.now) n k }
        ensures { (v : SegmentView) → slice_get (line_of self.now) n ≡ Some v → result ≡ mark_of k v }
    {
        let s = self.segments.segment(n);
        let (from, to) = s.buffer.span(k);
        mark_at(
            &self.config.checksum,
            from,
            &s.buffer.bytes.as_slice()[from..to],
        )
    }

    /// Writes the bytes of that buffer, and syncs them. It keeps a failure of the device.
    fn write_bytes(&mut self, n: usize, k: usize) -> Result<()>
        requires fault { fault_of self.old ≡ None }
        requires ready { IsReadyIn (line_of self.old) n k }
        ensures calls { OnOk result (D.trace (device_of self.new) ≡ after_all (write_in (line_of self.old) n k) (D.trace (device_of self.old))) }
        ensures at_most { Performs (write_in (line_of self.old) n k) (D.trace (device_of self.old)) (D.trace (device_of self.new)) }
        ensures answers { Answers result None (fault_of self.new) (D.faults (device_of self.old)) (D.faults (device_of self.new)) }
        ensures rest { ChangesDevice self.old self.new }
        ensures snapshots { (state_of (D.trace (device_of self.new))).snapshots ≡ (state_of (D.trace (device_of self.old))).snapshots }
        ensures refused { OnErr result (fault_of self.new ≡ None → D.trace (device_of self.new) ≡ D.trace (device_of self.old)) }
        ensures unsynced { OnErr result ((syncs (D.trace (device_of self.new)) ≡ syncs (D.trace (device_of self.old)))
            × (synced_writes (D.trace (device_of self.new)) ≡ synced_writes (D.trace (device_of self.old)))) }
    {
        let s = self.segments.segment(n);
        let (from, to) = s.buffer.span(k);
        let at = s.site.slot + from as u64;
        let written = write_out(
            &mut self.config.device,
            at,
            &s.buffer.bytes.as_slice()[from..to],
        );
        if let Err(e) = written {
            return Err(self.fault.keep(e));
        }
        Ok(())
    }
}

/// Writes bytes to the log file, and syncs it.
fn write_out<D: Device>(device: &mut D, at: LogOffset, bytes: &[u8]) -> io::Result<()>
    requires { at + length bytes.now < 2 ^ 63 }
    ensures done { OnOk result (D.trace device.new ≡ Synced ∷ Wrote at bytes.now bytes.now ∷ D.trace device.old) }
    ensures refused { IfErr result (λ e. error_kind e ≡ OutOfMemory → D.trace device.new ≡ D.trace device.old) }
    ensures faults { Counts result (D.faults device.old) (D.faults device.new) }
    ensures error { FailsOr OutOfMemory result }
    ensures names { (state_of (D.trace device.new)).snapshots ≡ (state_of (D.trace device.old)).snapshots }
    ensures calls { Performs (Wrote at bytes.now bytes.now ∷ Synced ∷ []) (D.trace device.old) (D.trace device.new) }
    ensures unsynced { OnErr result ((syncs (D.trace device.new) ≡ syncs (D.trace device.old))
        × (synced_writes (D.trace device.new) ≡ synced_writes (D.trace device.old))) }
{
    device.write_at(at, bytes)?;
    device.sync()
}
