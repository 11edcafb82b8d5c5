//! The bytes of the segment that is being filled. The current buffer is the part of them that was not
//! written yet, and the reservations in it lie one behind another.
ghost use Rattle.std.specs.Prelude.{◌≡◌, ◌+◌, ◌-◌, ◌<◌, ◌≤◌, ◌^◌, ◌++◌, [], ℕ, true, false, length, max, take, drop, set, vec_capacity, slice_get, OnOk, IfOk, IsOkUnless, IsTrue, ◌↔◌, pos, All, None, Some};
ghost use Rattle.std.specs.VecDeque.{deque_len, deque_capacity};
ghost use Rattle.sled_codec.specs.Written.{written};
ghost use Rattle.sled_store.specs.Words.{writers_of};
ghost use Rattle.sled_core.specs.declared.iobuf.Reserved.{Reserved};
ghost use Rattle.sled_core.specs.inside.Buffers.{IsChain, IsHeaded, canceling, completing, ended, ending, ending_as, marking, placeholder_head, reserved_for};
ghost use Rattle.sled_core.specs.Buffers.{first_open_in, most_open, open_in, open_state};
ghost use Rattle.sled_core.specs.Manifests.{is_manifest};
ghost use Rattle.sled_core.specs.inside.Laid.{IsLaid, IsLaid-prop};
ghost use Rattle.sled_core.specs.inside.SealedBuffers.{AreSealed, FirstUnwritten};
ghost use Rattle.sled_core.specs.SealedBuffers.{sealed_count, sealed_end};
ghost use Rattle.sled_core.specs.inside.SealedProps.{IsChain-prop, AreSealed-prop, FirstUnwritten-prop};

pub(crate) mod bytes;
pub(crate) mod closing;
pub mod intervals;
pub(crate) mod record;
pub(crate) mod sealing;
pub(crate) mod start;

use crate::iobuf::bytes::SegmentBytes;
use crate::iobuf::record::Head;
use crate::iobuf::sealing::{all_ended, end_sealed};
use sled_codec::result::{Error, LogOffset, Lsn, PageId, Result};
use sled_codec::serialization::{Checksum, LogKind, MessageKind, Serialize};
use sled_store::header::{Header, MAX_WRITERS, decr_writers, incr_writers, n_writers};
use sled_store::segment::MAX_MSG_HEADER_LEN;
use std::alloc::Global;
use std::collections::VecDeque;

/// Where a segment lies.
#[derive(Debug, Clone, Copy)]
pub(crate) struct SegmentPosition {
    /// Where it begins in the log.
    pub(crate) place: u64,
    /// Where its slot begins in the file.
    pub(crate) slot: LogOffset,
}

/// What a reservation is for.
#[derive(Clone, Copy)]
pub(crate) struct Purpose {
    pub(crate) log_kind: LogKind,
    pub(crate) kind: MessageKind,
    pub(crate) page: PageId,
    /// The place of the blob that has the item; `None` where the record has it.
    pub(crate) blob: Option<Lsn>,
}

/// What became of a reservation, or what there is in its place.
#[derive(Debug, Clone, Copy)]
pub(crate) enum ReservationState {
    /// It was neither completed nor aborted. It counts as open too where its ticket was abandoned.
    Open,
    /// Its message is in the history.
    Completed,
    /// It was aborted: its record is one that is passed over.
    Canceled,
    /// The manifest of a batch, which has ended: its record has the peg.
    Manifest,
    /// No reservation: what fills the segment behind its last record.
    Padding,
}

impl ReservationState {
    pub(crate) fn is_open(self) -> bool
        ensures { result ≡ open_state self }
    {
        match self {
            ReservationState::Open => true,
            ReservationState::Completed
            | ReservationState::Canceled
            | ReservationState::Manifest
            | ReservationState::Padding => false,
        }
    }
}

/// A range of a segment that was reserved for a record.
#[derive(Debug, Clone, Copy)]
pub(crate) struct Reserved {
    /// Where the record begins in the segment.
    pub(crate) from: usize,
    /// How long its header is.
    pub(crate) header_len: usize,
    /// How long the record is.
    pub(crate) len: usize,
    pub(crate) page: PageId,
    /// The sum and the kind that complete the record.
    pub(crate) sum: u32,
    pub(crate) kind: MessageKind,
    /// What the message does to its page.
    pub(crate) log_kind: LogKind,
    /// The place of the blob that has its item, which the body spells then; `None` where the body is the item.
    pub(crate) blob: Option<Lsn>,
    pub(crate) state: ReservationState,
}

/// A buffer that was sealed: it begins where the one before it ends, and is written as a whole.
#[derive(Debug, Clone, Copy)]
pub(crate) struct Sealed {
    /// Where it ends in the segment.
    pub(crate) end: usize,
    /// How many reservations it has.
    pub(crate) count: usize,
    /// How many of them are open.
    pub(crate) open_count: usize,
    /// It is on the device.
    pub(crate) is_written: bool,
}

/// A segment's bytes from its beginning on. Those of a segment that a log goes on in are zeros as far as
/// they were on the device before, since nothing looks at them. Its buffers lie one behind another: those at the front
/// that are on the device, the sealed ones, and the current one.
#[derive(Drop)]
pub(crate) struct IoBuf {
    pub(crate) bytes: SegmentBytes,
    /// Where the first sealed buffer begins: all before it is on the device.
    pub(crate) written_len: usize,
    /// The reservations behind that, by place.
    pub(crate) reserved: VecDeque<Reserved>,
    /// How many there were before them: a ticket's number counts those too.
    pub(crate) gone: usize,
    /// Where what fills the segment begins, behind its records, if anything does.
    pub(crate) filled: Option<usize>,
    /// The sealed buffers, by place. The first one isn't on the device.
    pub(crate) sealed: VecDeque<Sealed>,
    /// Where the current buffer begins.
    pub(crate) begin: usize,
    /// How many of the reservations are of sealed buffers.
    pub(crate) first: usize,
    /// The packed word of the current buffer: how many of its reservations are open, and a salt that tells its uses apart.
    pub(crate) word: Header,
    ghost begun: { 20 ≤ length bytes.items },
    ghost behind: { begin ≤ length bytes.items },
    ghost within: { All (λ r. r.from + r.len ≤ length bytes.items) reserved.items },
    ghost headed: { All IsHeaded reserved.items },
    ghost numbered: { gone + length reserved.items ≤ length bytes.items },
    ghost head: { FirstUnwritten sealed.items } by { FirstUnwritten-prop sealed.items },
    ghost are: { AreSealed written_len reserved.items sealed.items } by { AreSealed-prop written_len reserved.items sealed.items },
    ghost begins: { begin ≡ sealed_end written_len sealed.items },
    ghost before: { first ≡ sealed_count sealed.items },
    ghost parted: { first ≤ length reserved.items },
    ghost chain: { IsChain (max 20 begin) (drop first reserved.items) (length bytes.items) } by { IsChain-prop _ _ _ },
    ghost counted: { writers_of word ≡ open_in (drop first reserved.items) },
    ghost few: { writers_of word ≤ most_open },
    ghost laid: { IsLaid bytes reserved.items sealed.items } by { IsLaid-prop bytes reserved.items sealed.items },
}

impl IoBuf {
    ghost use Rattle.sled_core.specs.Begun.{view_at};
    ghost use Rattle.sled_core.specs.inside.Turned.{EndsAs, HasRoomIn, reserved_now};
    ghost use Rattle.sled_core.specs.Buffers.{none_open};

    /// A segment that has its header alone, with room for so many bytes, and for a reservation.
    pub(crate) fn new(alloc: Global, header: &[u8; 20], room: usize) -> Result<IoBuf>
        requires { 52 ≤ room }
        ensures bytes { IfOk result (λ b. b.bytes.items ≡ header.now) }
        ensures from { IfOk result (λ b. b.written_len ≡ 0) }
        ensures reserved { IfOk result (λ b. b.reserved.items ≡ []) }
        ensures sealed { IfOk result (λ b. b.sealed.items ≡ []) }
        ensures filled { IfOk result (λ b. b.filled ≡ None) }
        ensures there { IfOk result (λ b. 0 < b.bytes.room) }
        ensures err { IsOkUnless result Error.OutOfMemory }
    {
        let bytes = Vec::with_capacity(alloc, room)?;
        let reserved = room_for_one(alloc)?;
        Ok(IoBuf::begun(alloc, header, bytes, reserved))
    }

    /// A segment that has its header alone, in bytes that are empty, and that have room for it and for what is summed behind a record.
    pub(crate) fn begun(
        alloc: Global,
        header: &[u8; 20],
        bytes: Vec<u8>,
        reserved: VecDeque<Reserved>,
    ) -> IoBuf
        requires empty { bytes.items ≡ [] }
        requires room { 52 ≤ vec_capacity bytes }
        requires none { reserved.items ≡ [] }
        requires place { 0 < deque_capacity reserved }
        ensures bytes { result.bytes.items ≡ header.now }
        ensures from { result.written_len ≡ 0 }
        ensures reserved { result.reserved.items ≡ [] }
        ensures sealed { result.sealed.items ≡ [] }
        ensures gone { result.gone ≡ 0 }
        ensures filled { result.filled ≡ None }
        ensures there { vec_capacity bytes ≤ result.bytes.room }
        ensures room { (len : ℕ) → len + 52 ≤ vec_capacity bytes → HasRoomIn result len }
    {
        let mut bytes = bytes;
        let _ = bytes.extend_from_slice(header);
        IoBuf {
            bytes: SegmentBytes::new(bytes),
            written_len: 0,
            reserved,
            gone: 0,
            filled: None,
            sealed: VecDeque::new(alloc),
            begin: 0,
            first: 0,
            word: 0,
        }
    }

    /// The buffer of a segment of which so many bytes are on the device, with room for so many.
    pub(crate) fn resumed(alloc: Global, from: usize, room: usize) -> Result<IoBuf>
        requires begun { 20 ≤ from }
        requires room { from + 32 ≤ room }
        ensures len { IfOk result (λ b. length b.bytes.items ≡ from) }
        ensures from { IfOk result (λ b. b.written_len ≡ from) }
        ensures reserved { IfOk result (λ b. b.reserved.items ≡ []) }
        ensures filled { IfOk result (λ b. b.filled ≡ None) }
        ensures sealed { IfOk result (λ b. b.sealed.items ≡ []) }
        ensures there { IfOk result (λ b. 0 < b.bytes.room) }
        ensures err { IsOkUnless result Error.OutOfMemory }
    {
        let mut bytes = Vec::with_capacity(alloc, room)?;
        bytes.resize(from, 0)?;
        Ok(IoBuf {
            bytes: SegmentBytes::new(bytes),
            written_len: from,
            reserved: VecDeque::new(alloc),
            gone: 0,
            filled: None,
            sealed: VecDeque::new(alloc),
            begin: from,
            first: 0,
            word: 0,
        })
    }

    /// None of the reservations is open.
    pub(crate) fn none_open(&self) -> bool
        ensures { result ≡ none_open self.now.reserved.items }
    {
        n_writers(self.word) == 0 && all_ended(&self.sealed)
    }

    /// No further reservation of the current buffer may be open.
    pub(crate) fn is_full_of_open(&self) -> bool
        ensures { IsTrue result ↔ (open_in (drop (sealed_count self.now.sealed.items) self.now.reserved.items) ≡ most_open) }
    {
        n_writers(self.word) == MAX_WRITERS
    }

    /// The least place of an open reservation, from one of them on, in a segment that lies there.
    pub(crate) fn least_open(&self, from: usize, site: &SegmentPosition) -> Lsn
        requires some { 0 < open_in (drop from self.now.reserved.items) }
        requires place { site.now.place + length self.now.bytes.items < 2 ^ 63 }
        ensures { (at : ℕ) → first_open_in (drop from self.now.reserved.items) ≡ Some at → result ≡ pos (site.now.place + at) }
    {
        match first_open(&self.reserved, from) {
            Some(at) => (site.place + at as u64) as i64,
            None => site.place as i64,
        }
    }

    /// Makes room for a record of this length, for what is summed behind it, and for its reservation.
    #[inline(always)]
    pub(crate) fn make_room(&mut self, len: usize) -> Result<()>
        requires len { len < 2 ^ 32 }
        requires there { 0 < self.old.bytes.room }
        ensures same { (site : SegmentPosition) → view_at site self.new ≡ view_at site self.old }
        ensures room { OnOk result (length self.old.bytes.items + len + 32 ≤ self.new.bytes.room) }
        ensures place { OnOk result (deque_len self.new.reserved < deque_capacity self.new.reserved) }
        ensures there { 0 < self.new.bytes.room }
        ensures err { IsOkUnless result Error.OutOfMemory }
    {
        self.bytes.reserve(len + MAX_MSG_HEADER_LEN)?;
        self.reserved.reserve(1)?;
        Ok(())
    }

    /// Lays out the placeholder of a record behind what is there, and keeps its reservation.
    #[inline(always)]
    pub(crate) fn append<T: Serialize, C: Checksum>(
        &mut self,
        checksum: &C,
        head: &Head,
        message: &Purpose,
        item: &T,
        item_len: usize,
    )
        requires fits { T.fits (T.meaning item.now) }
        requires len { item_len ≡ length (T.short (T.meaning item.now)) }
        requires room { length self.old.bytes.items + head.now.len + item_len + 32 ≤ self.old.bytes.room }
        requires place { deque_len self.old.reserved < deque_capacity self.old.reserved }
        requires body { is_manifest message.now.log_kind message.now.page ≡ true → item_len ≡ 8 }
        requires few { open_in (drop (sealed_count self.old.sealed.items) self.old.reserved.items) < most_open }
        ensures laid { (site : SegmentPosition) → view_at site self.new
            ≡ reserved_now (placeholder_head (take head.now.len head.now.bytes) ++ T.short (T.meaning item.now))
            (reserved_for message.now (length self.old.bytes.items) head.now.len item_len (C.sum_of (T.short (T.meaning item.now)
            ++ drop 4 (take head.now.len head.now.bytes)))) (view_at site self.old) }
        ensures len { length self.new.bytes.items ≡ length self.old.bytes.items + head.now.len + item_len }
        ensures there { 0 < self.new.bytes.room }
    {
        let from = self.bytes.len();
        let sum = self.bytes.push_placeholder(checksum, head, item, item_len);
        self.reserved.push_back_reserved(Reserved {
            from,
            header_len: head.len,
            len: head.len + item_len,
            log_kind: message.log_kind,
            kind: message.kind,
            page: message.page,
            sum,
            blob: message.blob,
            state: ReservationState::Open,
        });
        self.word = incr_writers(self.word);
    }

    /// Completes a reservation: stores the flipped sum and the kind in its header.
    #[inline(always)]
    pub(crate) fn complete(&mut self, index: usize)
        requires within { index < deque_len self.old.reserved }
        requires awaited { (r : Reserved) → slice_get self.old.reserved.items index ≡ Some r → r.state ≡ ReservationState.Open }
        ensures { EndsAs index (λ bytes r. completing r) ReservationState.Completed self.old self.new }
    {
        let r = self.reserved[index];
        self.end(index, r.sum, r.kind, ReservationState::Completed);
    }

    /// Aborts a reservation: makes its record one of kind `Canceled`, with a sum of its own.
    pub(crate) fn abort<C: Checksum>(&mut self, checksum: &C, index: usize)
        requires within { index < deque_len self.old.reserved }
        requires awaited { (r : Reserved) → slice_get self.old.reserved.items index ≡ Some r → r.state ≡ ReservationState.Open }
        ensures { EndsAs index (canceling C.sum_of) ReservationState.Canceled self.old self.new }
    {
        self.end_as(
            checksum,
            index,
            MessageKind::Canceled,
            ReservationState::Canceled,
        );
    }

    /// Ends the reservation of a manifest: stores the peg of its batch as the body, and completes the record, with a sum of its own.
    pub(crate) fn mark_batch<C: Checksum>(&mut self, checksum: &C, index: usize, peg: u64)
        requires within { index < deque_len self.old.reserved }
        requires awaited { (r : Reserved) → slice_get self.old.reserved.items index ≡ Some r → r.state ≡ ReservationState.Open }
        requires body { (r : Reserved) → slice_get self.old.reserved.items index ≡ Some r → r.len ≡ r.header_len + 8 }
        ensures { EndsAs index (λ bytes r. marking C.sum_of bytes r peg) ReservationState.Manifest self.old self.new }
    {
        let r = self.reserved[index];
        self.bytes.put(r.from + r.header_len, &peg.to_le_bytes());
        self.end_as(checksum, index, r.kind, ReservationState::Manifest);
    }

    /// Ends an open reservation with a record of a kind, whose sum is taken anew.
    fn end_as<C: Checksum>(
        &mut self,
        checksum: &C,
        index: usize,
        kind: MessageKind,
        state: ReservationState,
    )
        requires within { index < deque_len self.old.reserved }
        requires awaited { (r : Reserved) → slice_get self.old.reserved.items index ≡ Some r → r.state ≡ ReservationState.Open }
        requires ends { open_state state ≡ false }
        ensures { EndsAs index (λ bytes r. ending_as C.sum_of bytes r kind) state self.old self.new }
    {
        let r = self.reserved[index];
        self.bytes.put(r.from + 4, &[u8::from(kind)]);
        let sum = self.bytes.sum_around(checksum, r.from, r.header_len, r.len);
        self.end(index, sum, kind, state);
    }

    /// Ends an open reservation: stores a sum, flipped, and a kind in its header.
    #[inline(always)]
    fn end(&mut self, index: usize, sum: u32, kind: MessageKind, state: ReservationState)
        requires within { index < deque_len self.old.reserved }
        requires awaited { (r : Reserved) → slice_get self.old.reserved.items index ≡ Some r → r.state ≡ ReservationState.Open }
        requires ends { open_state state ≡ false }
        ensures { EndsAs index (λ bytes r. ending sum kind) state self.old self.new }
    {
        let r = self.reserved[index];
        self.bytes.put_ending(r.from, sum, kind);
        close(&mut self.reserved, index, state);
        if index < self.first {
            end_sealed(&mut self.sealed, r.from);
        } else {
            self.word = decr_writers(self.word);
        }
    }
}

/// No reservations, with room for one.
pub(crate) fn room_for_one(alloc: Global) -> Result<VecDeque<Reserved>>
    ensures none { IfOk result (λ d. d.items ≡ []) }
    ensures place { IfOk result (λ d. 0 < deque_capacity d) }
    ensures memory { IsOkUnless result Error.OutOfMemory }
{
    let mut reserved = VecDeque::new(alloc);
    reserved.reserve(1)?;
    Ok(reserved)
}

/// The reservation at an index has ended so.
#[inline(always)]
fn close(reserved: &mut VecDeque<Reserved>, index: usize, state: ReservationState)
    requires { index < deque_len reserved.old }
    ensures { (r : Reserved) → slice_get reserved.old.items index ≡ Some r → reserved.new.items ≡ set reserved.old.items index (ended state r) }
{
    let r = &mut reserved[index];
    r.state = state;
}

/// Where the first open one of these begins, from one of them on.
fn first_open(reserved: &VecDeque<Reserved>, from: usize) -> Option<usize>
    ensures { result ≡ first_open_in (drop from reserved.now.items) }
{
    let mut i = from;
    while i < reserved.len() {
        let r = reserved[i];
        if r.state.is_open() {
            return Some(r.from);
        }
        i += 1;
    }
    None
}
