//! The sealed buffers of a log that can be written, by the places where they begin, so that the i-th one is found without
//! going over the others (`specs/inside/ReadyBuffers.antt`).
ghost use Rattle.std.specs.Prelude.{◌≡◌, ◌+◌, ◌<◌, ◌≤◌, ◌^◌, ◌++◌, ◌∷◌, [], ℕ, List, true, false, length, slice_get, OnOk, IsOkUnless, All, Some};
ghost use Rattle.std.specs.VecDeque.{deque_len, deque_capacity};
ghost use Rattle.sled_core.specs.declared.iobuf.Reserved.{Reserved};
ghost use Rattle.sled_core.specs.inside.SealedBuffers.{is_ready, written_at};

use crate::iobuf::{IoBuf, Sealed, SegmentPosition};
use sled_codec::result::{Error, Result};
use std::alloc::Global;
use std::collections::VecDeque;

/// Where the buffers begin that can be written.
#[derive(Drop)]
pub(crate) struct ReadyBuffers {
    /// Their places, in order.
    pub(crate) places: VecDeque<u64>,
    /// How many sealed buffers have an open reservation. There is room for their places.
    pub(crate) held: usize,
    ghost room: { deque_len places + held ≤ deque_capacity places },
}

impl ReadyBuffers {
    ghost use Rattle.sled_core.specs.inside.ReadyBuffers.{EndedOne, HasOwn};

    /// There are none.
    pub(crate) fn new(alloc: Global) -> ReadyBuffers
        ensures places { result.places.items ≡ [] }
        ensures held { result.held ≡ 0 }
    {
        ReadyBuffers {
            places: VecDeque::new(alloc),
            held: 0,
        }
    }

    /// Makes room for one more sealed buffer.
    pub(crate) fn make_room(&mut self) -> Result<()>
        ensures places { self.new.places.items ≡ self.old.places.items }
        ensures held { self.new.held ≡ self.old.held }
        ensures room { OnOk result (deque_len self.new.places + self.new.held < deque_capacity self.new.places) }
        ensures err { IsOkUnless result Error.OutOfMemory }
    {
        self.places.reserve(self.held + 1)?;
        Ok(())
    }

    /// The last sealed buffer of a segment, behind all others, is new.
    pub(crate) fn note_sealed(&mut self, site: &SegmentPosition, buffer: &IoBuf)
        requires room { deque_len self.old.places + self.old.held < deque_capacity self.old.places }
        requires some { 0 < deque_len buffer.now.sealed }
        requires place { site.now.place + length buffer.now.bytes.items < 2 ^ 64 }
        ensures { (bs : List Sealed) (b : Sealed) (before : List ℕ) (others : ℕ) → buffer.now.sealed.items ≡ bs ++ b ∷ [] → b.is_written ≡ false
            → HasOwn self.old site.now.place buffer.now.written_len bs before [] others
            → HasOwn self.new site.now.place buffer.now.written_len buffer.now.sealed.items before [] others }
    {
        let k = buffer.sealed.len() - 1;
        if buffer.sealed[k].is_ready() {
            let (from, _) = buffer.span(k);
            self.places.push_back_reserved(site.place + from as u64);
        } else {
            self.held += 1;
        }
    }

    /// A reservation of a segment has ended.
    pub(crate) fn note_ended(&mut self, site: &SegmentPosition, buffer: &IoBuf, index: usize)
        requires place { site.now.place + length buffer.now.bytes.items < 2 ^ 64 }
        requires own { (bs : List Sealed) × (rs : List Reserved) × (before : List ℕ) × (behind : List ℕ) × (others : ℕ) × EndedOne buffer.now index bs rs
            × HasOwn self.old site.now.place buffer.now.written_len bs before behind others }
        ensures { (bs : List Sealed) (rs : List Reserved) (before behind : List ℕ) (others : ℕ) → EndedOne buffer.now index bs rs
            → HasOwn self.old site.now.place buffer.now.written_len bs before behind others
            → HasOwn self.new site.now.place buffer.now.written_len buffer.now.sealed.items before behind others }
    {
        if index >= buffer.first {
            return;
        }
        let (k, b) = buffer.around(buffer.reserved[index].from);
        if b.is_ready() {
            let (from, _) = buffer.span(k);
            self.enter(site.place + from as u64);
        }
    }

    /// A buffer that begins at this place has no open reservation any more.
    fn enter(&mut self, place: u64)
        requires { 0 < self.old.held }
        ensures places { (xs ys : List ℕ) → self.old.places.items ≡ xs ++ ys → All (λ p. p < place) xs → All (λ p. place ≤ p) ys
            → self.new.places.items ≡ xs ++ place ∷ ys }
        ensures held { self.new.held + 1 ≡ self.old.held }
    {
        let i = below(&self.places, place);
        let _ = self.places.insert(i, place);
        self.held -= 1;
    }

    /// A sealed buffer of a segment, which can be written, is about to be on the device.
    pub(crate) fn note_written(&mut self, site: &SegmentPosition, buffer: &IoBuf, k: usize)
        requires place { site.now.place + length buffer.now.bytes.items < 2 ^ 64 }
        requires within { k < length buffer.now.sealed.items }
        ensures { (b : Sealed) (before behind : List ℕ) (others : ℕ) → slice_get buffer.now.sealed.items k ≡ Some b → is_ready b ≡ true
            → HasOwn self.old site.now.place buffer.now.written_len buffer.now.sealed.items before behind others
            → HasOwn self.new site.now.place buffer.now.written_len (written_at k buffer.now.sealed.items) before behind others }
    {
        let (from, _) = buffer.span(k);
        self.leave(site.place + from as u64);
    }

    /// The buffer that begins at this place can't be written any more.
    fn leave(&mut self, place: u64)
        ensures places { (xs ys : List ℕ) → self.old.places.items ≡ xs ++ place ∷ ys → All (λ p. p < place) xs → All (λ p. place ≤ p) ys
            → self.new.places.items ≡ xs ++ ys }
        ensures held { self.new.held ≡ self.old.held }
    {
        let i = below(&self.places, place);
        let _ = self.places.remove(i);
    }
}

/// How many places are below one.
fn below(places: &VecDeque<u64>, place: u64) -> usize
    ensures bound { result ≤ deque_len places.now }
    ensures point { (xs ys : List ℕ) → places.now.items ≡ xs ++ ys → All (λ p. p < place) xs → All (λ p. place ≤ p) ys → result ≡ length xs }
{
    places.partition_point(|p| *p < place)
}
