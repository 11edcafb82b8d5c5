//! Giving a reservation up.
//!
//! Its record is written all the same, as one that every reader passes over (`specs/Canceled.antt`). Where its item went to a
//! blob, that goes first (`specs/OwnBlobs.antt`).
ghost use Rattle.std.specs.Prelude.{◌≡◌, IfOk, IsSome, None, OnErr, OnOk};
ghost use Rattle.sled_codec.specs.History.{History, Message};
ghost use Rattle.sled_core.specs.Canceled.{WritesCanceled};
ghost use Rattle.sled_core.specs.Causes.{FaultAnswers};
ghost use Rattle.sled_core.specs.Fits.{Awaits, IsOpen, KeepsAll, KeepsTickets, device_of, fault_of};
ghost use Rattle.sled_core.specs.invariants.Fits.{Holds};
ghost use Rattle.sled_core.specs.Endings.{EndsTicket, GivesUp};
ghost use Rattle.sled_core.specs.Keeps.{KeepsSeen, Preserves};
ghost use Rattle.sled_core.specs.OwnBlobs.{PreservesWithout, RemovedAnswers, RemovesBlob};
ghost use Rattle.sled_core.specs.Tickets.{IsPlaceOf, own_blob};
ghost use Rattle.sled_core.specs.inside.Turned.{ChangesDevice};

use crate::logger::Log;
use crate::reservation::Reservation;
use sled_codec::result::{BlobPointer, DiskPtr, Error, Lsn, Result};
use sled_codec::serialization::Checksum;
use sled_store::Device;
use sled_store::blob_io::remove_blob;

impl<D: Device, C: Checksum> Log<D, C> {
    /// Gives a message up: its record is written as one of kind `Canceled`, of the same length, and the log's history
    /// stays as it is. Where its item is in a blob that its own reservation made, that is removed first; the blob of a
    /// rewritten pointer stays, whatever its place. Returns the place and the pointer that were kept for it. It takes no memory.
    ///
    /// A blob that goes must be named by no completed message: the caller owes the log that no pointer is rewritten to the
    /// blob of a message that isn't completed.
    ///
    /// # Errors
    ///
    /// `Io` where the log keeps a failure of its device: the log is as it was then. `Io` too where the device failed to remove
    /// the blob, which the log keeps: the blob may be there or not. The ticket is spent all the same, and its reservation
    /// stays open.
    pub fn abort(&mut self, ticket: Reservation) -> Result<(Lsn, DiskPtr)>
        requires { IsOpen self.old ticket }
        ensures place { IfOk result (IsPlaceOf ticket) }
        ensures canceled { (H : History) (m : Message) → Holds D.trace C.sum_of self.old H → Awaits self.old ticket m
            → OnOk result (WritesCanceled C.sum_of self.new m) }
        ensures ends { EndsTicket D.trace C.sum_of result ticket self.old self.new }
        ensures given_up { GivesUp ticket self.old self.new }
        ensures answers { RemovedAnswers result (own_blob ticket) (fault_of self.old) (fault_of self.new)
            (D.faults (device_of self.old)) (D.faults (device_of self.new)) }
        ensures device { RemovesBlob D.trace result (own_blob ticket) self.old self.new }
        ensures keeps { PreservesWithout D.trace C.sum_of (own_blob ticket) self.old self.new }
        ensures seen { KeepsSeen self.old self.new }
        ensures err { OnErr result (KeepsTickets self.old self.new × (IsSome (fault_of self.old) → self.new ≡ self.old)) }
    {
        let own = ticket.own_blob;
        if let Some(fault) = self.fault.kept {
            ticket.abandon();
            return Err(Error::Io(fault));
        }
        match self.remove_own(own) {
            Ok(()) => self.give_up(ticket),
            Err(e) => {
                ticket.abandon();
                Err(e)
            }
        }
    }

    /// Removes a blob, if there is one, and keeps a failure of the device.
    fn remove_own(&mut self, own: Option<BlobPointer>) -> Result<()>
        requires { fault_of self.old ≡ None }
        ensures changes { ChangesDevice self.old self.new }
        ensures device { RemovesBlob D.trace result own self.old self.new }
        ensures answers { RemovedAnswers result own (fault_of self.old) (fault_of self.new)
            (D.faults (device_of self.old)) (D.faults (device_of self.new)) }
        ensures keeps { PreservesWithout D.trace C.sum_of own self.old self.new }
    {
        let Some(place) = own else {
            return Ok(());
        };
        let answer = remove_blob(&mut self.config, place);
        self.fault.note(&answer);
        answer
    }

    /// Gives a message up, and leaves its blob alone, if it has one: its record is written as one of kind `Canceled`, of the
    /// same length, and the log's history stays as it is. Returns the place and the pointer that were kept for it. It takes
    /// no memory.
    ///
    /// # Errors
    ///
    /// `Io` exactly where the log keeps a failure of its device. The ticket is spent all the same, and the log is as
    /// it was.
    pub(crate) fn give_up(&mut self, ticket: Reservation) -> Result<(Lsn, DiskPtr)>
        requires { IsOpen self.old ticket }
        ensures place { IfOk result (IsPlaceOf ticket) }
        ensures canceled { (H : History) (m : Message) → Holds D.trace C.sum_of self.old H → Awaits self.old ticket m
            → OnOk result (WritesCanceled C.sum_of self.new m) }
        ensures ends { EndsTicket D.trace C.sum_of result ticket self.old self.new }
        ensures given_up { GivesUp ticket self.old self.new }
        ensures answers { FaultAnswers result (fault_of self.old) }
        ensures keeps { Preserves D.trace C.sum_of self.old self.new }
        ensures same { KeepsAll self.old self.new }
        ensures err { OnErr result (self.new ≡ self.old) }
    {
        let place = ticket.lsn();
        let pointer = ticket.pointer();
        let index = ticket.index();
        let manifest = ticket.is_manifest();
        ticket.abandon();
        if let Some(e) = self.fault.kept {
            return Err(Error::Io(e));
        }
        let n = self.segment_of(place.unsigned_abs());
        self.abort_in(n, index, manifest);
        Ok((place, pointer))
    }
}
