//! Which reservation a ticket is for, and ending it.
ghost use Rattle.std.specs.Prelude.{◌≡◌, ◌+◌, ◌-◌, ◌<◌, ◌^◌, ◌↔◌, false, true, Some, IsTrue, length, set, slice_get};
ghost use Rattle.sled_core.specs.declared.iobuf.Reserved.{Reserved};
ghost use Rattle.sled_core.specs.Begun.{SegmentView};
ghost use Rattle.sled_core.specs.inside.Buffers.{canceling, completing, marking};
ghost use Rattle.sled_core.specs.Buffers.{none_open};
ghost use Rattle.sled_core.specs.Fits.{IsOpen, NoneOpen, line_of};
ghost use Rattle.sled_core.specs.Manifests.{is_manifest};
ghost use Rattle.sled_core.specs.Tickets.{IsFor};
ghost use Rattle.sled_core.specs.inside.Turned.{ChangesLine, HasOpenIn, HasRoomForBatch, IsOpenIn, ended_now};

use crate::iobuf::{IoBuf, ReservationState, Reserved, SegmentPosition};
use crate::logger::Log;
use crate::logger::reserving::is_manifest;
use crate::reservation::Reservation;
use sled_codec::result::DiskPtr;
use sled_codec::serialization::Checksum;
use sled_store::Device;

impl<D: Device, C: Checksum> Log<D, C> {
    /// Completes a reservation of a segment, by their numbers. It isn't of a manifest.
    #[inline(always)]
    pub(crate) fn complete_in(&mut self, n: usize, index: usize)
        requires awaited { HasOpenIn (line_of self.old) n index }
        requires message { (v : SegmentView) (r : Reserved) → slice_get (line_of self.old) n ≡ Some v → slice_get v.parts.reserved (index - v.gone) ≡ Some r
            → is_manifest r.log_kind r.page ≡ false }
        ensures line { (v : SegmentView) (r : Reserved) → slice_get (line_of self.old) n ≡ Some v → slice_get v.parts.reserved (index - v.gone) ≡ Some r
            → line_of self.new ≡ set (line_of self.old) n (ended_now (index - v.gone) r (completing r) ReservationState.Completed v) }
        ensures rest { ChangesLine self.old self.new }
    {
        let s = self.segments.segment_mut(n);
        let i = index - s.buffer.gone;
        s.buffer.complete(i);
        self.ready.note_ended(&s.site, &s.buffer, i);
    }

    /// Aborts one, of a manifest or not.
    pub(crate) fn abort_in(&mut self, n: usize, index: usize, manifest: bool)
        requires awaited { HasOpenIn (line_of self.old) n index }
        requires kind { (v : SegmentView) (r : Reserved) → slice_get (line_of self.old) n ≡ Some v → slice_get v.parts.reserved (index - v.gone) ≡ Some r
            → is_manifest r.log_kind r.page ≡ manifest }
        ensures line { (v : SegmentView) (r : Reserved) → slice_get (line_of self.old) n ≡ Some v → slice_get v.parts.reserved (index - v.gone) ≡ Some r
            → line_of self.new ≡ set (line_of self.old) n (ended_now (index - v.gone) r (canceling C.sum_of v.parts.bytes r) ReservationState.Canceled v) }
        ensures rest { ChangesLine self.old self.new }
    {
        let checksum = &self.config.checksum;
        self.batches.end_manifest(manifest);
        let s = self.segments.segment_mut(n);
        let i = index - s.buffer.gone;
        s.buffer.abort(checksum, i);
        self.ready.note_ended(&s.site, &s.buffer, i);
    }

    /// Ends one that is the manifest of a batch, with the peg of this. The room that was made for the batch is left for it.
    pub(crate) fn mark_batch_in(&mut self, n: usize, index: usize, peg: u64)
        requires awaited { HasOpenIn (line_of self.old) n index }
        requires body { (v : SegmentView) (r : Reserved) → slice_get (line_of self.old) n ≡ Some v → slice_get v.parts.reserved (index - v.gone) ≡ Some r
            → r.len ≡ r.header_len + 8 }
        requires kind { (v : SegmentView) (r : Reserved) → slice_get (line_of self.old) n ≡ Some v → slice_get v.parts.reserved (index - v.gone) ≡ Some r
            → is_manifest r.log_kind r.page ≡ true }
        ensures line { (v : SegmentView) (r : Reserved) → slice_get (line_of self.old) n ≡ Some v → slice_get v.parts.reserved (index - v.gone) ≡ Some r
            → line_of self.new ≡ set (line_of self.old) n (ended_now (index - v.gone) r (marking C.sum_of v.parts.bytes r peg) ReservationState.Manifest v) }
        ensures rest { ChangesLine self.old self.new }
        ensures room { HasRoomForBatch self.new }
    {
        let checksum = &self.config.checksum;
        self.batches.end_manifest(true);
        let s = self.segments.segment_mut(n);
        let i = index - s.buffer.gone;
        s.buffer.mark_batch(checksum, i, peg);
        self.ready.note_ended(&s.site, &s.buffer, i);
    }

    /// Returns whether this ticket is for an open reservation of the log.
    pub fn is_open(&self, ticket: &Reservation) -> bool
        ensures { IsTrue result ↔ IsOpen self.now ticket.now }
    {
        let place = ticket.lsn();
        if place < 0 || (place as u64) < self.segments.first.site.place {
            return false;
        }
        let n = self.segment_of(place as u64);
        if n > self.segments.last_index() {
            return false;
        }
        let (site, buffer) = self.segment(n);
        is_open_in(&site, buffer, ticket)
    }

    /// Returns whether no reservation is open. One whose ticket was abandoned is.
    pub fn none_open(&self) -> bool
        ensures { IsTrue result ↔ NoneOpen self.now }
    {
        self.segments.none_open()
    }
}

/// Whether a ticket is for an open reservation of this segment.
fn is_open_in(site: &SegmentPosition, buffer: &IoBuf, ticket: &Reservation) -> bool
    requires place { site.now.place + length buffer.now.bytes.items < 2 ^ 63 }
    requires slot { site.now.slot + length buffer.now.bytes.items < 2 ^ 63 }
    ensures { IsTrue result ↔ IsOpenIn site.now buffer.now ticket.now }
{
    let Some(index) = ticket.index().checked_sub(buffer.gone) else {
        return false;
    };
    match buffer.reserved.get(index) {
        Some(r) => is_for(site, r, ticket),
        None => false,
    }
}

/// Whether a ticket is for this reservation in a segment, and it is open.
fn is_for(site: &SegmentPosition, r: &Reserved, ticket: &Reservation) -> bool
    requires place { site.now.place + r.now.from < 2 ^ 64 }
    requires slot { site.now.slot + r.now.from < 2 ^ 64 }
    ensures { IsTrue result ↔ IsFor site.now r.now ticket.now }
{
    let offset = site.slot + r.from as u64;
    let same_pointer = match ticket.pointer() {
        DiskPtr::Inline(lid) => r.blob.is_none() && lid == offset,
        DiskPtr::Blob(lid, place) => match r.blob {
            Some(own) => lid == offset && place == own,
            None => false,
        },
    };
    let same_place = ticket.lsn() >= 0 && ticket.lsn() as u64 == site.place + r.from as u64;
    let same_len = ticket.reservation_len() == r.len;
    let same_batch = ticket.is_manifest() == is_manifest(r.log_kind, r.page);
    r.state.is_open() && same_place && same_pointer && same_len && same_batch
}
