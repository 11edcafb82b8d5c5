//! The parts of a reservation: whether its record has a place in the current segment, the room for it, and its placeholder.
ghost use Rattle.std.specs.Prelude.{◌≡◌, ◌+◌, ◌-◌, ◌/◌, ◌^◌, ◌<◌, ◌++◌, None, drop, length, take, true, IsTrue, OnOk, OnErr, ◌↔◌};
ghost use Rattle.sled_codec.specs.Spelling.{short_header_tail};
ghost use Rattle.sled_core.specs.inside.Begun.{last_buffer_in};
ghost use Rattle.sled_core.specs.inside.Buffers.{placeholder_head, reserved_for};
ghost use Rattle.sled_core.specs.inside.Causes.{MakesRoom};
ghost use Rattle.sled_core.specs.Fits.{FitsInline, IsLeastOpen, IsUnchanged, IsUsedUpFor, KeepsAll, current_of, line_of, open_for, open_of, segment_size_of};
ghost use Rattle.sled_core.specs.Manifests.{is_manifest, kind_for};
ghost use Rattle.sled_core.specs.inside.Prepared.{IsPrepared, PrepareAnswers};
ghost use Rattle.sled_core.specs.Tickets.{is_manifest_of, own_blob};
ghost use Rattle.sled_core.specs.inside.Turned.{ChangesLine, ChangesSlots, HasRoomForBatch, HasRoomIn, HasPlace, IsTicketFor, reserved_now};
ghost use Rattle.sled_core.specs.Waiting.{at_last};

use crate::iobuf::Purpose;
use crate::iobuf::record::Head;
use crate::logger::Log;
use crate::logger::segments::segments_in;
use crate::reservation::Reservation;
use sled_codec::result::{DiskPtr, Error, PageId, Result};
use sled_codec::serialization::message::{BATCH_MANIFEST_PID, message_kind};
use sled_codec::serialization::{Checksum, LogKind, MessageKind, SegmentNumber, Serialize};
use sled_store::Device;
use sled_store::segment::MAX_MSG_HEADER_LEN;

impl<D: Device, C: Checksum> Log<D, C> {
    /// Makes the log ready for a record with a body of this length, in the current segment or, where it has no room there,
    /// in a further one, which is begun. The header becomes that of the record.
    #[inline(always)]
    pub(crate) fn prepare(
        &mut self,
        purpose: &Purpose,
        body_len: usize,
        head: &mut Head,
    ) -> Result<()>
        requires { FitsInline (segment_size_of self.old) body_len }
        ensures prepared { OnOk result (IsPrepared D.trace C.sum_of self.old self.new purpose.now head.new body_len) }
        ensures same { KeepsAll self.old self.new }
        ensures err { OnErr result (IsUnchanged self.old self.new) }
        ensures answers { let page = purpose.now.page in
            PrepareAnswers result (IsUsedUpFor self.old page body_len) (open_for self.old page body_len) (IsLeastOpen self.old) }
    {
        let manifest = is_manifest(purpose.log_kind, purpose.page);
        self.fill_head(purpose, body_len, head);
        if self.has_place(head.len + body_len) {
            self.room_for(head.len + body_len, manifest)?;
            return Ok(());
        }
        self.begin_next(manifest)?;
        self.fill_head(purpose, body_len, head);
        Ok(())
    }

    /// It becomes the header of a message of the current segment whose body is this long.
    #[inline(always)]
    fn fill_head(&self, purpose: &Purpose, item_len: usize, head: &mut Head)
        ensures bytes { drop 4 (take head.new.len head.new.bytes)
            ≡ short_header_tail purpose.now.kind item_len ((current_of self.now).parts.site.place / segment_size_of self.now) purpose.now.page }
        ensures len { head.new.len
            ≡ 4 + length (short_header_tail purpose.now.kind item_len ((current_of self.now).parts.site.place / segment_size_of self.now) purpose.now.page) }
    {
        let (site, _) = self.current();
        let number = SegmentNumber(segments_in(site.place, &self.config.config));
        head.fill(purpose.kind, number, purpose.page, item_len as u64);
    }

    /// A record of this length has a place in the current segment.
    #[inline(always)]
    pub(crate) fn has_place(&self, len: usize) -> bool
        ensures { IsTrue result ↔ HasPlace self.now len }
    {
        let size = self.config.config.segment_size as usize;
        let (_, buffer) = self.current();
        let next = buffer.bytes.len();
        next <= size - MAX_MSG_HEADER_LEN && len <= size - next
    }

    /// Makes room for a record of this length in the current buffer, for its reservation, and for the batch of a manifest.
    #[inline(always)]
    pub(crate) fn room_for(&mut self, len: usize, manifest: bool) -> Result<()>
        requires { len < 2 ^ 32 }
        ensures line { line_of self.new ≡ line_of self.old }
        ensures room { OnOk result (HasRoomIn (last_buffer_in self.new.segments) len) }
        ensures batch { OnOk result (manifest ≡ true → HasRoomForBatch self.new) }
        ensures rest { ChangesLine self.old self.new }
        ensures answers { MakesRoom result (open_of self.old) (IsLeastOpen self.old) }
    {
        let (site, buffer) = self.current();
        if buffer.is_full_of_open() {
            return Err(Error::Held(buffer.least_open(buffer.first, &site)));
        }
        self.batches.make_room_for(manifest)?;
        self.segments.last_mut().buffer.make_room(len)
    }

    /// Lays out the placeholder of a record behind what is there in the current segment, and returns its ticket.
    #[inline(always)]
    pub(crate) fn append<T: Serialize>(
        &mut self,
        head: &Head,
        purpose: &Purpose,
        item: &T,
        item_len: usize,
    ) -> Reservation
        requires fits { T.fits (T.meaning item.now) }
        requires len { item_len ≡ length (T.short (T.meaning item.now)) }
        requires room { HasRoomIn (last_buffer_in self.old.segments) (head.now.len + item_len) }
        requires place { HasPlace self.old (head.now.len + item_len) }
        requires batch { is_manifest purpose.now.log_kind purpose.now.page ≡ true → HasRoomForBatch self.old }
        requires body { is_manifest purpose.now.log_kind purpose.now.page ≡ true → item_len ≡ 8 }
        ensures line { line_of self.new ≡ at_last (reserved_now (placeholder_head (take head.now.len head.now.bytes) ++ T.short (T.meaning item.now))
            (reserved_for purpose.now (length (current_of self.old).parts.bytes) head.now.len item_len (C.sum_of (T.short (T.meaning item.now)
            ++ drop 4 (take head.now.len head.now.bytes))))) (line_of self.old) }
        ensures ticket { IsTicketFor self.old result purpose.now.blob (head.now.len + item_len) }
        ensures manifest { is_manifest_of result ≡ is_manifest purpose.now.log_kind purpose.now.page }
        ensures own { own_blob result ≡ None }
        ensures reserved { self.new.reserved_to ≡ (current_of self.old).parts.site.place + length (current_of self.old).parts.bytes + head.now.len + item_len }
        ensures rest { ChangesSlots self.old self.new }
        ensures accountant { self.new.accountant ≡ self.old.accountant }
        ensures pool { self.new.pool ≡ self.old.pool }
    {
        let (site, buffer) = self.current();
        let at = buffer.bytes.len() as u64;
        let index = buffer.gone + buffer.reserved.len();
        let place = (site.place + at) as i64;
        let to = site.place + at + (head.len + item_len) as u64;
        self.lay_out(head, purpose, item, item_len, to);
        let manifest = is_manifest(purpose.log_kind, purpose.page);
        let lid = site.slot + at;
        let pointer = match purpose.blob {
            None => DiskPtr::Inline(lid),
            Some(blob) => DiskPtr::Blob(lid, blob),
        };
        Reservation::new(place, pointer, index, head.len + item_len, manifest)
    }

    /// Lays out the placeholder. What is reserved ends there then, and a manifest counts.
    #[inline(always)]
    fn lay_out<T: Serialize>(
        &mut self,
        head: &Head,
        purpose: &Purpose,
        item: &T,
        item_len: usize,
        to: u64,
    )
        requires fits { T.fits (T.meaning item.now) }
        requires len { item_len ≡ length (T.short (T.meaning item.now)) }
        requires room { HasRoomIn (last_buffer_in self.old.segments) (head.now.len + item_len) }
        requires place { HasPlace self.old (head.now.len + item_len) }
        requires batch { is_manifest purpose.now.log_kind purpose.now.page ≡ true → HasRoomForBatch self.old }
        requires body { is_manifest purpose.now.log_kind purpose.now.page ≡ true → item_len ≡ 8 }
        requires end { to ≡ (current_of self.old).parts.site.place + length (current_of self.old).parts.bytes + (head.now.len + item_len) }
        ensures line { line_of self.new ≡ at_last (reserved_now (placeholder_head (take head.now.len head.now.bytes) ++ T.short (T.meaning item.now))
            (reserved_for purpose.now (length (current_of self.old).parts.bytes) head.now.len item_len (C.sum_of (T.short (T.meaning item.now)
            ++ drop 4 (take head.now.len head.now.bytes))))) (line_of self.old) }
        ensures reserved { self.new.reserved_to ≡ to }
        ensures rest { ChangesSlots self.old self.new }
        ensures accountant { self.new.accountant ≡ self.old.accountant }
        ensures pool { self.new.pool ≡ self.old.pool }
    {
        let checksum = &self.config.checksum;
        let manifest = is_manifest(purpose.log_kind, purpose.page);
        self.batches.begin_manifest(manifest);
        let s = self.segments.last_mut();
        s.buffer.append(checksum, head, purpose, item, item_len);
        self.reserved_to = to;
    }
}

/// How long the item of a manifest is: it has the peg of its batch.
const MANIFEST_LEN: usize = 8;

/// Whether a message of this kind and page is the manifest of a batch.
#[inline(always)]
pub(crate) fn is_manifest(kind: LogKind, pid: PageId) -> bool
    ensures { result ≡ is_manifest kind pid }
{
    match kind {
        LogKind::Skip => pid == BATCH_MANIFEST_PID,
        LogKind::Replace | LogKind::Link | LogKind::Free | LogKind::Corrupted => false,
    }
}

/// The kind of the record of a message of a page with a body of this length, which has its item in a blob or not; `None`
/// where the page has no such message. A manifest has no blob.
#[inline(always)]
pub(crate) fn kind_for(
    kind: LogKind,
    pid: PageId,
    blob: bool,
    body_len: usize,
) -> Option<MessageKind>
    ensures { result ≡ kind_for kind pid blob body_len }
{
    if !is_manifest(kind, pid) {
        return message_kind(kind, pid, blob);
    }
    if !blob && body_len == MANIFEST_LEN {
        Some(MessageKind::BatchManifest)
    } else {
        None
    }
}
