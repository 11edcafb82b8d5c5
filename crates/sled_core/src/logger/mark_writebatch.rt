//! Ending the manifest of a batch.
//!
//! Its record has the peg of the batch as its body, which a recovery reads: where what it finds doesn't go up to the peg, it
//! ends in front of the manifest, so that none of the batch's messages counts (`specs/Batches.antt`).
ghost use Rattle.std.specs.Prelude.{ℕ, List, ◌≡◌, ◌<◌, ◌⊎◌, ◌↔◌, ◌<ℤ◌, Contains, IsTrue, pos, true, IfOk, OnOk, OnErr};
ghost use Rattle.sled_codec.specs.History.{Batch, Batched, History, Message, Step};
ghost use Rattle.sled_core.specs.Batches.{EndsBatch, LiesInNoFilling, MayEndAt, NotesBatchOf, batch_for};
ghost use Rattle.sled_core.specs.Causes.{FaultAnswers};
ghost use Rattle.sled_core.specs.invariants.Fits.{Holds};
ghost use Rattle.sled_core.specs.Fits.{IsOpen, fault_of, given_up_of, line_of, noted_in, reserved_end, segment_size_of};
ghost use Rattle.sled_core.specs.Endings.{EndsTicket, GivesUp};
ghost use Rattle.sled_core.specs.Among.{AreAmong};
ghost use Rattle.sled_core.specs.Keeps.{GoesOn, Preserves};
ghost use Rattle.sled_core.specs.invariants.Running.{Fits};
ghost use Rattle.sled_core.specs.Tickets.{IsPlaceOf, is_manifest_of, place_of};

use crate::logger::Log;
use crate::reservation::Reservation;
use sled_codec::result::{DiskPtr, Error, Lsn, Result};
use sled_codec::serialization::Checksum;
use sled_store::Device;

impl<D: Device, C: Checksum> Log<D, C> {
    /// Ends the manifest of a batch, which goes from the manifest's own place up to the peg, both included: a recovery gives all
    /// messages that were completed there, or none of them, and the stable end stays in front of the batch until all of it is on
    /// the device. With the manifest's own place as the peg there is no batch, and the manifest is given up as by `abort`.
    /// Returns the place and the pointer of the manifest. It takes no memory.
    ///
    /// The peg lies mostly in the record of the batch's last message. It may lie in the manifest's own, for a batch of no messages, in
    /// one that was given up, and in the header of a segment, but not in what fills one behind its records.
    ///
    /// # Errors
    ///
    /// `Io` exactly where the log keeps a failure of its device. The ticket is spent all the same, and the log is as it was.
    pub fn mark_writebatch(&mut self, ticket: Reservation, peg: Lsn) -> Result<(Lsn, DiskPtr)>
        requires awaited { IsOpen self.old ticket }
        requires manifest { is_manifest_of ticket ≡ true }
        requires pegged { MayEndAt self.old ticket peg }
        ensures place { IfOk result (IsPlaceOf ticket) }
        ensures history { (H : History) → Holds D.trace C.sum_of self.old H
            → OnOk result ((H' : History) × EndsBatch H ticket peg H' × Holds D.trace C.sum_of self.new H') }
        ensures fits { (H : History) (A f : ℕ) (U : List Message) → Fits D.trace C.sum_of self.old H A f U
            → OnOk result ((H' : History) × EndsBatch H ticket peg H' × Fits D.trace C.sum_of self.new H' A f U) }
        ensures canceled { peg ≡ place_of ticket → Preserves D.trace C.sum_of self.old self.new }
        ensures ends { EndsTicket D.trace C.sum_of result ticket self.old self.new }
        ensures given_up { peg ≡ place_of ticket → GivesUp ticket self.old self.new }
        ensures ended { place_of ticket <ℤ peg → AreAmong (given_up_of self.new) (given_up_of self.old) }
        ensures answers { FaultAnswers result (fault_of self.old) }
        ensures goes_on { GoesOn D.trace C.sum_of self.old self.new }
        ensures same { OnOk result (NotesBatchOf ticket peg self.old self.new) }
        ensures err { OnErr result (self.new ≡ self.old) }
    {
        if peg == ticket.lsn() {
            return self.give_up(ticket);
        }
        self.end_batch(ticket, peg.unsigned_abs())
    }

    /// Returns whether the batch of a ticket's manifest may end at a place, as `mark_writebatch` asks: the place isn't below the
    /// manifest, was reserved, and lies in nothing that fills a segment behind its records; and it has no place in common with a
    /// batch that was noted and isn't wholly on the device.
    pub fn may_end_at(&self, ticket: &Reservation, peg: Lsn) -> bool
        ensures { IsTrue result ↔ MayEndAt self.now ticket.now peg }
    {
        let place = ticket.lsn();
        if peg < place || peg >= self.reserved_to as Lsn {
            return false;
        }
        self.is_apart(place, peg) && self.is_in_no_filling(peg)
    }

    /// Returns whether a place, in front of where what was reserved ends, lies in nothing that fills a segment.
    fn is_in_no_filling(&self, place: Lsn) -> bool
        requires { place <ℤ pos (reserved_end self.now) }
        ensures { IsTrue result ↔ LiesInNoFilling (segment_size_of self.now) (line_of self.now) place }
    {
        if place < self.segments.first.site.place as Lsn {
            return true;
        }
        let place = place.unsigned_abs();
        let (site, buffer) = self.segment(self.segment_of(place));
        match buffer.filled {
            Some(from) => place - site.place < from as u64,
            None => true,
        }
    }

    /// Ends a manifest whose batch has a peg above its own place.
    fn end_batch(&mut self, ticket: Reservation, peg: u64) -> Result<(Lsn, DiskPtr)>
        requires awaited { IsOpen self.old ticket }
        requires manifest { is_manifest_of ticket ≡ true }
        requires above { place_of ticket <ℤ pos peg }
        requires reserved { peg < reserved_end self.old }
        requires filled { LiesInNoFilling (segment_size_of self.old) (line_of self.old) (pos peg) }
        requires apart { (b : Batch) → Contains (noted_in self.old) b → (pos b.peg <ℤ place_of ticket) ⊎ (peg < b.low) }
        ensures place { IfOk result (IsPlaceOf ticket) }
        ensures history { (H : History) → Holds D.trace C.sum_of self.old H
            → OnOk result ((H' : History) × Step H (Batched (batch_for ticket (pos peg))) H' × Holds D.trace C.sum_of self.new H') }
        ensures fits { (H : History) (A f : ℕ) (U : List Message) → Fits D.trace C.sum_of self.old H A f U
            → OnOk result ((H' : History) × Step H (Batched (batch_for ticket (pos peg))) H' × Fits D.trace C.sum_of self.new H' A f U) }
        ensures ends { EndsTicket D.trace C.sum_of result ticket self.old self.new }
        ensures given_up { AreAmong (given_up_of self.new) (given_up_of self.old) }
        ensures answers { FaultAnswers result (fault_of self.old) }
        ensures goes_on { GoesOn D.trace C.sum_of self.old self.new }
        ensures same { OnOk result (NotesBatchOf ticket (pos peg) self.old self.new) }
        ensures err { OnErr result (self.new ≡ self.old) }
    {
        let place = ticket.lsn();
        let pointer = ticket.pointer();
        let index = ticket.index();
        ticket.abandon();
        if let Some(e) = self.fault.kept {
            return Err(Error::Io(e));
        }
        let low = place.unsigned_abs();
        let n = self.segment_of(low);
        self.mark_batch_in(n, index, peg);
        self.note(low, peg);
        Ok((place, pointer))
    }
}
