//! The segments of a log: the first one that isn't wholly on the device, and those that were begun behind it, of which the
//! last one is being filled (`specs/Begun.antt`).
ghost use Rattle.std.specs.Prelude.{ℕ, [], MatchOption, vec_capacity, ◌≡◌, ◌+◌, ◌-◌, ◌*◌, ◌/◌, ◌<◌, ◌≤◌, ◌^◌, true, false, length, pos, slice_get, OnOk, OnErr, IfOk, IsOkUnless, IsTrue, ◌↔◌, ◌-ℤ◌, None, Some};
ghost use Rattle.std.specs.VecDeque.{deque_len, deque_capacity};
ghost use Rattle.sled_codec.specs.Record.{short_header};
ghost use Rattle.sled_store.specs.Accounts.{MayHandOut, NextAnswers};
ghost use Rattle.sled_store.specs.SegmentStates.{Machine, handed_out};
ghost use Rattle.sled_core.specs.inside.Begun.{last_buffer_in};
ghost use Rattle.sled_core.specs.Begun.{view_at};
ghost use Rattle.sled_core.specs.Causes.{FaultOrMemory};
ghost use Rattle.sled_core.specs.inside.Fits.{AddsBuffers};
ghost use Rattle.sled_core.specs.Fits.{IsUnchanged, IsUsedUp, KeepsAll, buffers_of, current_begin, current_of, line_of, machine_at, pooled_of, position_sealed, position_with, reserved_end, sealing_end, segment_size_of, stable_end, start_of, waiting_of};
ghost use Rattle.sled_core.specs.Keeps.{KeepsLog, start_sealed};
ghost use Rattle.sled_core.specs.Marked.{BeginsMarked};
ghost use Rattle.sled_core.specs.Pooled.{PoolsWith, begun_sealed};
ghost use Rattle.sled_core.specs.Positions.{is_short};
ghost use Rattle.sled_core.specs.inside.Turned.{CanClose, ChangesLine, ChangesSlots, HasRoomForBatch, HasRoomIn, next_line};
ghost use Rattle.sled_core.specs.Waiting.{at_last, holds_any, sealed_now};

use crate::iobuf::{IoBuf, Reserved, SegmentPosition, room_for_one};
use crate::logger::Log;
use crate::logger::pool::SegmentPool;
use sled_codec::result::{Error, Lsn, Result};
use sled_codec::serialization::{Checksum, SegmentHeader};
use sled_store::segment::MAX_MSG_HEADER_LEN;
use sled_store::{Config, Device};
use std::alloc::Global;
use std::collections::VecDeque;

impl<D: Device, C: Checksum> Log<D, C> {
    /// The segment that is being filled.
    #[inline(always)]
    pub(crate) fn current(&self) -> (SegmentPosition, &IoBuf)
        ensures view { view_at result.0 result.1.now ≡ current_of self.now }
        ensures buffer { result.1.now ≡ last_buffer_in self.now.segments }
        ensures there { 0 < result.1.now.bytes.room }
        ensures short { length result.1.now.bytes.items ≤ self.now.config.config.segment_size }
        ensures place_in_reach { result.0.place + self.now.config.config.segment_size < 2 ^ 63 }
        ensures slot_in_reach { result.0.slot + self.now.config.config.segment_size < 2 ^ 63 }
    {
        let s = self.segments.segment(self.segments.last_index());
        (s.site, &s.buffer)
    }

    /// A segment, by its number, counted from the first one.
    pub(crate) fn segment(&self, n: usize) -> (SegmentPosition, &IoBuf)
        requires { n ≤ length self.now.segments.behind.items }
        ensures view { slice_get (line_of self.now) n ≡ Some (view_at result.0 result.1.now) }
        ensures short { length result.1.now.bytes.items ≤ self.now.config.config.segment_size }
        ensures place_in_reach { result.0.place + self.now.config.config.segment_size < 2 ^ 63 }
        ensures slot_in_reach { result.0.slot + self.now.config.config.segment_size < 2 ^ 63 }
        ensures place { result.0.place ≡ self.now.segments.first.site.place + n * self.now.config.config.segment_size }
    {
        let s = self.segments.segment(n);
        (s.site, &s.buffer)
    }

    /// Where the current buffer begins.
    pub(crate) fn current_begin(&self) -> u64
        ensures is { result ≡ current_begin self.now }
        ensures in_reach { result < 2 ^ 63 }
    {
        let (site, buffer) = self.current();
        site.place + buffer.begin as u64
    }

    /// The current segment has no room for a further record.
    fn is_short(&self) -> bool
        ensures { result ≡ is_short (segment_size_of self.now) (length (current_of self.now).parts.bytes) }
    {
        let (_, buffer) = self.current();
        buffer.bytes.len() as u64 + MAX_MSG_HEADER_LEN as u64 > self.config.config.segment_size
    }

    /// Seals the current buffer, which holds something: to the end of its segment, where no further record has room, and
    /// then the next one is begun.
    pub(crate) fn seal(&mut self) -> Result<()>
        requires some { holds_any (current_of self.old) ≡ true }
        ensures waiting { OnOk result (waiting_of self.new ≡ buffers_of C.sum_of self.old) }
        ensures buffers { OnOk result (AddsBuffers C.sum_of self.old self.new) }
        ensures begins { OnOk result (current_begin self.new ≡ sealing_end self.old) }
        ensures start { OnOk result (start_of self.new ≡ start_sealed self.old) }
        ensures position { OnOk result ((m : Machine) → position_with self.new m ≡ position_sealed self.old m) }
        ensures marked { OnOk result (BeginsMarked C.sum_of self.old self.new) }
        ensures keeps { KeepsLog D.trace C.sum_of self.old self.new }
        ensures same { KeepsAll self.old self.new }
        ensures answers { FaultOrMemory result (IsUsedUp self.old) None }
        ensures err { OnErr result (IsUnchanged self.old self.new) }
        ensures pooled { OnOk result (PoolsWith (begun_sealed self.old) self.old self.new) }
    {
        if self.is_short() {
            return self.begin_next(false);
        }
        self.seal_unfilled()
    }

    /// Does that where a further record has room.
    fn seal_unfilled(&mut self) -> Result<()>
        requires some { holds_any (current_of self.old) ≡ true }
        requires room { is_short (segment_size_of self.old) (length (current_of self.old).parts.bytes) ≡ false }
        ensures line { OnOk result (line_of self.new ≡ at_last sealed_now (line_of self.old)) }
        ensures unsealed { OnErr result (line_of self.new ≡ line_of self.old) }
        ensures rest { ChangesLine self.old self.new }
        ensures memory { IsOkUnless result Error.OutOfMemory }
    {
        self.ready.make_room()?;
        let s = self.segments.last_mut();
        s.buffer.seal()?;
        self.ready.note_sealed(&s.site, &s.buffer);
        Ok(())
    }

    /// Fills the current segment, which has more than its header, to its end, seals its buffer, and begins the next segment, in
    /// the slot that the accountant hands out, and in bytes of the pool, where that has any. What was reserved ends where it did.
    /// All memory is taken before anything is changed, for a manifest that of its batch too.
    pub(crate) fn begin_next(&mut self, manifest: bool) -> Result<()>
        requires used { 20 < length (current_of self.old).parts.bytes }
        ensures line { OnOk result (line_of self.new
            ≡ next_line C.sum_of (segment_size_of self.old) (machine_at self.old) (stable_end self.old) (line_of self.old)) }
        ensures machine { OnOk result (machine_at self.new
            ≡ handed_out ((current_of self.old).parts.site.place + segment_size_of self.old) (machine_at self.old)) }
        ensures reserved { reserved_end self.new ≡ reserved_end self.old }
        ensures room { OnOk result (HasRoomIn (last_buffer_in self.new.segments) (segment_size_of self.old - 20)) }
        ensures batch { OnOk result (manifest ≡ true → HasRoomForBatch self.new) }
        ensures pooled { OnOk result (pooled_of self.new ≡ pooled_of self.old - 1) }
        ensures rest { ChangesSlots self.old self.new }
        ensures err { OnErr result (IsUnchanged self.old self.new) }
        ensures answers { NextAnswers result
            (MayHandOut (segment_size_of self.old) ((current_of self.old).parts.site.place + segment_size_of self.old) (machine_at self.old)) }
    {
        let size = self.config.config.segment_size;
        let (site, _) = self.current();
        let next = site.place + size;
        if !self.has_further(next) {
            return Err(Error::PlacesUsedUp);
        }
        let parts = self.next_parts(next)?;
        self.room_to_close(manifest)?;
        let slot = self.accountant.next(&mut self.config, next as Lsn)?;
        let s = self.segments.last_mut();
        s.buffer.close(&self.config.checksum, &site, size as usize);
        self.ready.note_sealed(&site, &s.buffer);
        let buffer = parts.into_buffer(&mut self.pool);
        self.segments
            .begin(SegmentPosition { place: next, slot }, buffer);
        Ok(())
    }

    /// A further segment at this place ends in reach, in the log and in the file.
    fn has_further(&self, next: u64) -> bool
        ensures { IsTrue result ↔ MayHandOut (segment_size_of self.now) next (machine_at self.now) }
    {
        let size = self.config.config.segment_size;
        let end = (1 << 63) - size;
        next < end && self.accountant.next_slot() * size < end
    }

    /// What a further segment at this place begins with. Its bytes are new ones only where the pool has none.
    fn next_parts(&self, next: u64) -> Result<NextParts>
        requires { next < 2 ^ 63 }
        ensures header { IfOk result (λ p. p.header ≡ short_header C.sum_of (pos next) (pos (stable_end self.now) -ℤ pos 1)) }
        ensures fresh { let pool = self.now.pool in
            IfOk result (λ p. MatchOption p.fresh (0 < pool.count) (λ v. (pool.count ≡ 0) × (v.items ≡ []) × (pool.room ≤ vec_capacity v))) }
        ensures none { IfOk result (λ p. p.reserved.items ≡ []) }
        ensures place { IfOk result (λ p. 0 < deque_capacity p.reserved) }
        ensures memory { IsOkUnless result Error.OutOfMemory }
    {
        let alloc = self.config.alloc();
        let header = self.next_header(next);
        let fresh = self.pool.new_if_empty(alloc)?;
        let reserved = room_for_one(alloc)?;
        Ok(NextParts {
            alloc,
            header,
            fresh,
            reserved,
        })
    }

    /// The header of a further segment at this place, whose mark is the last stable place.
    fn next_header(&self, next: u64) -> [u8; 20]
        requires { next < 2 ^ 63 }
        ensures { result ≡ short_header C.sum_of (pos next) (pos (stable_end self.now) -ℤ pos 1) }
    {
        let header = SegmentHeader {
            lsn: next as Lsn,
            max_stable_lsn: self.stable_offset(),
            ok: true,
        };
        header.to_bytes(&self.config.checksum)
    }

    /// Makes room for what fills the current segment, for the buffer that is sealed then, for one more segment, and for the batch of a manifest.
    fn room_to_close(&mut self, manifest: bool) -> Result<()>
        ensures line { line_of self.new ≡ line_of self.old }
        ensures rest { ChangesLine self.old self.new }
        ensures room { OnOk result (CanClose (last_buffer_in self.new.segments) (segment_size_of self.old)) }
        ensures place { OnOk result (deque_len self.new.segments.behind < deque_capacity self.new.segments.behind) }
        ensures ready { OnOk result (deque_len self.new.ready.places + self.new.ready.held < deque_capacity self.new.ready.places) }
        ensures batch { OnOk result (manifest ≡ true → HasRoomForBatch self.new) }
        ensures memory { IsOkUnless result Error.OutOfMemory }
    {
        let size = self.config.config.segment_size as usize;
        self.batches.make_room_for(manifest)?;
        self.ready.make_room()?;
        self.segments.make_room()?;
        self.segments.last_mut().buffer.room_to_close(size)
    }

    /// The number of the segment that has a place, counted from the first one.
    #[inline(always)]
    pub(crate) fn segment_of(&self, place: u64) -> usize
        requires { self.now.segments.first.site.place ≤ place }
        ensures { result ≡ (place - self.now.segments.first.site.place) / segment_size_of self.now }
    {
        segments_in(place - self.segments.first.site.place, &self.config.config) as usize
    }
}

/// What a further segment begins with, once its memory is taken.
#[derive(Drop)]
struct NextParts {
    alloc: Global,
    header: [u8; 20],
    /// New bytes; `None` where the pool has some.
    fresh: Option<Vec<u8>>,
    reserved: VecDeque<Reserved>,
}

impl NextParts {
    /// Makes the segment of them, in bytes of the pool where they have none of their own.
    fn into_buffer(self, pool: &mut SegmentPool) -> IoBuf
        requires fresh { MatchOption self.fresh (0 < pool.old.count) (λ v. (pool.old.count ≡ 0) × (v.items ≡ []) × (pool.old.room ≤ vec_capacity v)) }
        requires roomy { 52 ≤ pool.old.room }
        requires none { self.reserved.items ≡ [] }
        requires place { 0 < deque_capacity self.reserved }
        ensures bytes { result.bytes.items ≡ self.header }
        ensures from { result.written_len ≡ 0 }
        ensures reserved { result.reserved.items ≡ [] }
        ensures sealed { result.sealed.items ≡ [] }
        ensures gone { result.gone ≡ 0 }
        ensures filled { result.filled ≡ None }
        ensures there { pool.old.room ≤ result.bytes.room }
        ensures room { (len : ℕ) → len + 52 ≤ pool.old.room → HasRoomIn result len }
        ensures fewer { pool.new.count ≡ pool.old.count - 1 }
        ensures same { pool.new.room ≡ pool.old.room }
    {
        let NextParts {
            alloc,
            header,
            fresh,
            reserved,
        } = self;
        IoBuf::begun(alloc, &header, pool.take(fresh), reserved)
    }
}

/// How many whole segments so many bytes are. Their size is a power of two, so this takes no division.
#[inline(always)]
pub(crate) fn segments_in(len: u64, config: &Config) -> u64
    ensures { result ≡ len / config.now.segment_size }
{
    len >> config.segment_size.trailing_zeros()
}
