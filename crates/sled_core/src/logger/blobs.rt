//! Messages whose items are in blobs: the blob is made before any room is claimed for the record.
ghost use Rattle.std.specs.Prelude.{◌≡◌, ℕ, List, pos, true, false, None, Some, IfOk, OnOk, OnErr};
ghost use Rattle.sled_codec.specs.Kinds.{code_of};
ghost use Rattle.sled_store.specs.Blobs.{UnlessFault, blob_bytes, making};
ghost use Rattle.sled_store.specs.Device.{state_of};
ghost use Rattle.sled_store.specs.Script.{Performs, after_all};
ghost use Rattle.sled_codec.specs.History.{Message};
ghost use Rattle.sled_codec.specs.declared.serialization.message.LogKind.TheVariants.{Replace};
ghost use Rattle.sled_core.specs.Causes.{RewriteAnswers};
ghost use Rattle.sled_core.specs.Fits.{Awaits, IsLeastOpen, IsUnchanged, IsUsedUpFor, KeepsAll, device_of, fault_of, message_rewriting, next_place, open_for};
ghost use Rattle.sled_core.specs.Keeps.{Preserves};
ghost use Rattle.sled_core.specs.Manifests.{kind_for};
ghost use Rattle.sled_core.specs.Tickets.{is_manifest_of, own_blob};
ghost use Rattle.sled_core.specs.inside.Prepared.{next_here};
ghost use Rattle.sled_core.specs.Reserves.{MadeAnswers};
ghost use Rattle.sled_core.specs.Reserves.{ReservesAs, StandsBehind};
ghost use Rattle.sled_core.specs.inside.Turned.{ChangesDevice};

use crate::iobuf::Purpose;
use crate::iobuf::record::Head;
use crate::logger::Log;
use crate::logger::reserving::kind_for;
use crate::reservation::{Guard, Reservation};
use sled_codec::result::{BlobPointer, Error, PageId, Result};
use sled_codec::serialization::message::META_PID;
use sled_codec::serialization::{Checksum, LogKind, MessageKind, Serialize};
use sled_store::Device;
use sled_store::blob_io::write_blob;

/// How long the body of a record is that has the place of a blob.
const PLACE_LEN: usize = 8;

impl<D: Device, C: Checksum> Log<D, C> {
    /// Keeps a place for a Replace of this page whose item stays in a blob that is there, and returns the ticket for it. Its record has the
    /// blob's place. `abort` leaves the blob alone, whatever its place. The guard shows that a pin is out.
    ///
    /// The caller owes the log that at each moment the page's state below the record's place is the single Replace of that blob, which no
    /// crash takes; and that the page is that still when the message is completed, for a log that fits a history (`complete`). So no
    /// other ticket of the page is open beside this one.
    ///
    /// # Errors
    ///
    /// As of `reserve`, but for `Unsupported`: `Io` where the log keeps a failure of its device, `PlacesUsedUp`, `Held` and `OutOfMemory`.
    /// After each of them the log is as it was.
    pub fn rewrite_blob_pointer(
        &mut self,
        pid: PageId,
        blob: BlobPointer,
        _guard: &Guard,
    ) -> Result<Reservation>
        ensures ticket { IfOk result (λ ticket. (item : List ℕ) → Awaits self.new ticket (message_rewriting self.old pid blob item)) }
        ensures manifest { IfOk result (λ ticket. is_manifest_of ticket ≡ false) }
        ensures own { IfOk result (λ ticket. own_blob ticket ≡ None) }
        ensures behind { OnOk result (StandsBehind C.sum_of self.old self.new pid 8) }
        ensures others { (ticket : Reservation) (m : Message) → Awaits self.old ticket m → Awaits self.new ticket m }
        ensures answers { RewriteAnswers result (fault_of self.old) (IsUsedUpFor self.old pid 8) (open_for self.old pid 8) (IsLeastOpen self.old) }
        ensures keeps { Preserves D.trace C.sum_of self.old self.new }
        ensures same { KeepsAll self.old self.new }
        ensures err { OnErr result (IsUnchanged self.old self.new) }
    {
        if let Some(e) = self.fault.kept {
            return Err(Error::Io(e));
        }
        let purpose = Purpose {
            log_kind: LogKind::Replace,
            kind: rewritten_kind(pid),
            page: pid,
            blob: Some(blob),
        };
        let mut head = Head::new();
        match self.prepare(&purpose, PLACE_LEN, &mut head) {
            Ok(()) => Ok(self.append(&head, &purpose, &blob, PLACE_LEN)),
            Err(e) => Err(e),
        }
    }

    /// Keeps a place for a message whose item goes to a blob, which is made under that place.
    pub(crate) fn reserve_in_blob<T: Serialize>(
        &mut self,
        kind: LogKind,
        pid: PageId,
        item: &T,
    ) -> Result<Reservation>
        requires fits { T.fits (T.meaning item.now) }
        requires fault { fault_of self.old ≡ None }
        ensures { ReservesAs D.trace D.faults C.sum_of result kind pid (T.short (T.meaning item.now)) true 8 self.old self.new }
    {
        let Some(message_kind) = kind_for(kind, pid, true, PLACE_LEN) else {
            return Err(Error::Unsupported(String::new(self.config.alloc())));
        };
        let plain = Purpose {
            log_kind: kind,
            kind: message_kind,
            page: pid,
            blob: None,
        };
        let mut head = Head::new();
        match self.prepare(&plain, PLACE_LEN, &mut head) {
            Ok(()) => {
                let place = self.next_here();
                match self.make_blob(message_kind, place, item) {
                    Ok(()) => {
                        let purpose = Purpose {
                            log_kind: kind,
                            kind: message_kind,
                            page: pid,
                            blob: Some(place),
                        };
                        let mut ticket = self.append(&head, &purpose, &place, PLACE_LEN);
                        ticket.own_blob = Some(place);
                        Ok(ticket)
                    }
                    Err(e) => Err(e),
                }
            }
            Err(e) => Err(e),
        }
    }

    /// The place behind all bytes of the current segment.
    fn next_here(&self) -> BlobPointer
        ensures { result ≡ pos (next_here self.now).place }
    {
        let (site, buffer) = self.current();
        (site.place + buffer.bytes.len() as u64) as i64
    }

    /// Makes the blob of a message of this kind under the next place, and keeps a failure of the device.
    fn make_blob<T: Serialize>(
        &mut self,
        kind: MessageKind,
        place: BlobPointer,
        item: &T,
    ) -> Result<()>
        requires fits { T.fits (T.meaning item.now) }
        requires fault { fault_of self.old ≡ None }
        requires place { place ≡ pos (next_place self.old) }
        ensures changes { ChangesDevice self.old self.new }
        ensures done { let bytes = blob_bytes C.sum_of (code_of kind) (T.short (T.meaning item.now)) in
            OnOk result (D.trace (device_of self.new) ≡ after_all (making place bytes) (D.trace (device_of self.old))) }
        ensures calls { let bytes = blob_bytes C.sum_of (code_of kind) (T.short (T.meaning item.now)) in
            Performs (making place bytes) (D.trace (device_of self.old)) (D.trace (device_of self.new)) }
        ensures refused { UnlessFault result (D.trace (device_of self.old)) (D.trace (device_of self.new)) }
        ensures keeps { Preserves D.trace C.sum_of self.old self.new }
        ensures answers { let file = (state_of (D.trace (device_of self.old))).blobs.file place in
            MadeAnswers result file (fault_of self.new) (D.faults (device_of self.old)) (D.faults (device_of self.new)) }
    {
        let answer = write_blob(&mut self.config, kind, place, item);
        self.fault.note(&answer);
        answer
    }
}

/// The kind of the record of a Replace of a page whose item is in a blob.
fn rewritten_kind(pid: PageId) -> MessageKind
    ensures { kind_for Replace pid true 8 ≡ Some result }
{
    if pid == META_PID {
        MessageKind::BlobMeta
    } else {
        MessageKind::BlobNode
    }
}
