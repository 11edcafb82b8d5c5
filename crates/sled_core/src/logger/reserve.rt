//! Keeping a place for a message: with its item in its record, or in a blob that is made first.
ghost use Rattle.std.specs.Prelude.{◌≡◌, length, pos, true, false, None, IfOk, OnOk};
ghost use Rattle.sled_codec.specs.History.{Message};
ghost use Rattle.sled_core.specs.Causes.{ReserveAnswers};
ghost use Rattle.sled_core.specs.Fits.{Awaits, FitsInline, IsLeastOpen, IsUsedUpFor, blob_at, body_length, fault_of, in_blob_of, message_for, segment_size_of, target_of};
ghost use Rattle.sled_core.specs.Keeps.{KeepsSeen, Preserves};
ghost use Rattle.sled_core.specs.Manifests.{is_manifest, kind_for};
ghost use Rattle.sled_core.specs.Reserves.{RefusalLeaves, ReservesAs, StandsBehind, TouchesBlob, reserve_causes};
ghost use Rattle.sled_core.specs.Running.{IsStored};
ghost use Rattle.sled_core.specs.Tickets.{is_manifest_of, own_blob};

use crate::iobuf::Purpose;
use crate::iobuf::record::Head;
use crate::logger::Log;
use crate::logger::reserving::kind_for;
use crate::reservation::{Guard, Reservation};
use sled_codec::result::{Error, PageId, Result};
use sled_codec::serialization::{Checksum, LogKind, Serialize};
use sled_store::Device;

impl<D: Device, C: Checksum> Log<D, C> {
    /// Keeps a place for a message of this page, at the end of what was reserved, and returns the ticket for it. Where its
    /// record has no room in the current segment, that is filled to its end and sealed, and the record begins the next one.
    /// The guard shows that a pin is out.
    ///
    /// An item whose record may take more than a quarter of a segment (`fits_inline` tells) goes to a blob, a file of its own
    /// under the message's place. That is durable before any room is claimed for the record, which has the place in its stead.
    ///
    /// The caller owes the log an order of pages, which is not tested here: a page is begun by a Replace, and only once
    /// all lower pages have one. Where page 1 is begun before page 0, this call and `complete` answer Ok, and so does a flush; but as long as
    /// page 1 is durable and page 0 isn't, a recovery of the device is `Corruption`, for no table of pages has a gap. No log can
    /// be started on one, so after a crash or a halt nothing mends it (`docs/USING.md`, "Write").
    ///
    /// # Errors
    ///
    /// `Io` where the log keeps a failure of its device, `Unsupported` where the page has no messages of this kind, and for the manifest of a
    /// batch (a `Skip` of the page `BATCH_MANIFEST_PID`) whose item hasn't 8 bytes,
    /// `PlacesUsedUp` where the record needs a further segment and that would not end below 2^63 in the log and in the file,
    /// `Held` with the least place of an open reservation where 127 are open in the buffer that the record would be of, and
    /// `OutOfMemory` where none of these is so. After each of them the log is as it was; where the blob could not be had memory for, the next segment may
    /// have been begun. `Io` for a blob where the device failed in this call, which the log keeps, and of kind `AlreadyExists` where
    /// there is a blob of that name, which it doesn't keep: the next segment may have been begun then too.
    #[inline(always)]
    pub fn reserve<T: Serialize>(
        &mut self,
        kind: LogKind,
        pid: PageId,
        item: &T,
        _guard: &Guard,
    ) -> Result<Reservation>
        requires { T.fits (T.meaning item.now) }
        ensures ticket { IfOk result (λ ticket. Awaits self.new ticket (message_for self.old kind pid (T.short (T.meaning item.now)))) }
        ensures stored { let m = message_for self.old kind pid (T.short (T.meaning item.now)) in OnOk result (IsStored D.trace C.sum_of self.new m) }
        ensures manifest { IfOk result (λ ticket. is_manifest_of ticket ≡ is_manifest kind pid) }
        ensures own { let n = length (T.short (T.meaning item.now)) in
            IfOk result (λ ticket. own_blob ticket ≡ blob_at (in_blob_of self.old n) (target_of self.old pid (body_length self.old n)).place) }
        ensures behind { let n = body_length self.old (length (T.short (T.meaning item.now))) in
            OnOk result (StandsBehind C.sum_of self.old self.new pid n) }
        ensures others { (ticket : Reservation) (m : Message) → Awaits self.old ticket m → Awaits self.new ticket m }
        ensures answers { let n = length (T.short (T.meaning item.now)) in
            ReserveAnswers result (IsUsedUpFor self.old pid (body_length self.old n)) (IsLeastOpen self.old)
            (reserve_causes D.trace D.faults kind pid (in_blob_of self.old n) (body_length self.old n) self.old self.new) }
        ensures device { let item = T.short (T.meaning item.now) in let blob = in_blob_of self.old (length item) in
            let place = pos (target_of self.old pid (body_length self.old (length item))).place in
            TouchesBlob D.trace C.sum_of result blob (kind_for kind pid true 8) place item self.old self.new }
        ensures keeps { Preserves D.trace C.sum_of self.old self.new }
        ensures seen { KeepsSeen self.old self.new }
        ensures left { let n = length (T.short (T.meaning item.now)) in
            RefusalLeaves C.sum_of result (in_blob_of self.old n) self.old self.new pid (body_length self.old n) }
    {
        if let Some(e) = self.fault.kept {
            return Err(Error::Io(e));
        }
        if !self.fits_inline(item) {
            return self.reserve_in_blob(kind, pid, item);
        }
        self.reserve_inline(kind, pid, item)
    }

    /// Keeps a place for a message that has its item in its record.
    #[inline(always)]
    fn reserve_inline<T: Serialize>(
        &mut self,
        kind: LogKind,
        pid: PageId,
        item: &T,
    ) -> Result<Reservation>
        requires fits { T.fits (T.meaning item.now) }
        requires fault { fault_of self.old ≡ None }
        requires inline { FitsInline (segment_size_of self.old) (length (T.short (T.meaning item.now))) }
        ensures { let item = T.short (T.meaning item.now) in
            ReservesAs D.trace D.faults C.sum_of result kind pid item false (length item) self.old self.new }
    {
        let item_len = item.serialized_size() as usize;
        let Some(message_kind) = kind_for(kind, pid, false, item_len) else {
            return Err(Error::Unsupported(String::new(self.config.alloc())));
        };
        let purpose = Purpose {
            log_kind: kind,
            kind: message_kind,
            page: pid,
            blob: None,
        };
        let mut head = Head::new();
        match self.prepare(&purpose, item_len, &mut head) {
            Ok(()) => Ok(self.append(&head, &purpose, item, item_len)),
            Err(e) => Err(e),
        }
    }
}
