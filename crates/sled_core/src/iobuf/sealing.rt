//! The buffers of a segment that were sealed: they lie one behind another, and each is written as a whole. Those at the
//! front that are on the device go, with their reservations (`specs/SealedBuffers.antt`).
ghost use Rattle.std.specs.Prelude.{◌<◌, ◌≤◌, ◌^◌, ℕ, List, true, length, take, drop, slice_get, OnOk, OnErr, IsOkUnless, IsTrue, ◌↔◌, All, Some};
ghost use Rattle.std.specs.Prelude.{◌≡◌, ◌==◌, ◌+◌};
ghost use Rattle.std.specs.List.Sorted.{IsNonDecreasingBy, IsPartitionPoint};
ghost use Rattle.std.specs.VecDeque.{deque_len, deque_capacity};
ghost use Rattle.sled_core.specs.declared.iobuf.Reserved.{Reserved};
ghost use Rattle.sled_core.specs.declared.iobuf.SegmentPosition.{SegmentPosition};
ghost use Rattle.sled_core.specs.Begun.{view_at};
ghost use Rattle.sled_core.specs.Pool.{with_given};
ghost use Rattle.sled_core.specs.Waiting.{sealed_now};
ghost use Rattle.sled_core.specs.inside.Turned.{written_now};
ghost use Rattle.sled_core.specs.inside.SealedBuffers.{HasOpenAt, behind_run, is_ready, one_ended, run_count, run_end, written_at};
ghost use Rattle.sled_core.specs.SealedBuffers.{sealed_count, sealed_end};

use crate::iobuf::{IoBuf, Reserved, Sealed};
use crate::logger::pool::SegmentPool;
use sled_codec::result::{Error, Result};
use sled_store::header::{bump_salt, n_writers};
use std::alloc::Global;
use std::collections::VecDeque;

impl IoBuf {
    /// Seals the current buffer, which has something in it.
    pub(crate) fn seal(&mut self) -> Result<()>
        requires some { sealed_end self.old.written_len self.old.sealed.items < length self.old.bytes.items }
        requires there { 0 < self.old.bytes.room }
        ensures there { 0 < self.new.bytes.room }
        ensures sealed { OnOk result ((site : SegmentPosition) → view_at site self.new ≡ sealed_now (view_at site self.old)) }
        ensures unsealed { OnErr result ((site : SegmentPosition) → view_at site self.new ≡ view_at site self.old) }
        ensures err { IsOkUnless result Error.OutOfMemory }
    {
        self.sealed.reserve(1)?;
        self.push_sealed();
        Ok(())
    }

    /// Seals the current buffer, where there is room for one more.
    pub(crate) fn push_sealed(&mut self)
        requires some { sealed_end self.old.written_len self.old.sealed.items < length self.old.bytes.items }
        requires room { deque_len self.old.sealed < deque_capacity self.old.sealed }
        requires there { 0 < self.old.bytes.room }
        ensures there { 0 < self.new.bytes.room }
        ensures sealed { (site : SegmentPosition) → view_at site self.new ≡ sealed_now (view_at site self.old) }
    {
        self.sealed.push_back_reserved(Sealed {
            end: self.bytes.len(),
            count: self.reserved.len() - self.first,
            open_count: n_writers(self.word) as usize,
            is_written: false,
        });
        self.begin = self.bytes.len();
        self.first = self.reserved.len();
        self.word = bump_salt(self.word);
    }

    /// One of the sealed buffers is on the device now. Those at the front that are go.
    pub(crate) fn mark_written(&mut self, k: usize)
        requires within { k < deque_len self.old.sealed }
        requires ready { (b : Sealed) → slice_get self.old.sealed.items k ≡ Some b → is_ready b ≡ true }
        ensures there { 0 < self.new.bytes.room }
        ensures written { (site : SegmentPosition) → view_at site self.new ≡ written_now k (view_at site self.old) }
    {
        note_written(&mut self.sealed, k);
        let (end, count) = take_run(&mut self.sealed, self.written_len);
        drop_first(&mut self.reserved, count);
        self.written_len = end;
        self.gone += count;
        self.first -= count;
    }

    /// Gives its bytes to the pool, where all of a segment of this size is on the device.
    pub(crate) fn retire(&mut self, alloc: Global, size: usize, pool: &mut SegmentPool)
        requires short { length self.old.bytes.items ≤ size }
        requires room { pool.old.room ≡ size + 32 }
        requires there { 0 < self.old.bytes.room }
        ensures same { (site : SegmentPosition) → view_at site self.new ≡ view_at site self.old }
        ensures there { self.old.written_len < size → 0 < self.new.bytes.room }
        ensures pooled { pool.new.count ≡ with_given (self.old.written_len == size) pool.old.count }
        ensures room { pool.new.room ≡ pool.old.room }
    {
        if self.written_len == size {
            pool.give(self.bytes.give_away(alloc));
        }
    }

    /// Where a sealed buffer begins and ends.
    pub(crate) fn span(&self, k: usize) -> (usize, usize)
        requires { k < length self.now.sealed.items }
        ensures from { result.0 ≡ sealed_end self.now.written_len (take k self.now.sealed.items) }
        ensures to { result.1 ≡ sealed_end self.now.written_len (take (k + 1) self.now.sealed.items) }
        ensures rises { result.0 ≤ result.1 }
        ensures inside { result.1 ≤ length self.now.bytes.items }
    {
        let to = self.sealed[k].end;
        if k == 0 {
            return (self.written_len, to);
        }
        (self.sealed[k - 1].end, to)
    }

    /// The sealed buffer that has an offset, with its index: it is the first that ends behind it.
    pub(crate) fn around(&self, at: usize) -> (usize, Sealed)
        requires sealed { at < sealed_end self.now.written_len self.now.sealed.items }
        requires behind { self.now.written_len ≤ at }
        ensures within { result.0 < length self.now.sealed.items }
        ensures there { slice_get self.now.sealed.items result.0 ≡ Some result.1 }
        ensures point { IsPartitionPoint (λ b. b.end ≤ at) (λ b. at < b.end) self.now.sealed.items result.0 }
    {
        let k = ended_before(&self.sealed, at);
        (k, self.sealed[k])
    }

    /// The index of the first reservation of a sealed buffer.
    pub(crate) fn first_of(&self, k: usize) -> usize
        requires { k < length self.now.sealed.items }
        ensures { result ≡ sealed_count (take k self.now.sealed.items) }
    {
        let (from, _) = self.span(k);
        begun_before(&self.reserved, from)
    }
}

impl Sealed {
    /// It has no open reservation, and isn't on the device.
    pub(crate) fn is_ready(&self) -> bool
        ensures { result ≡ is_ready self.now }
    {
        !self.is_written && self.open_count == 0
    }
}

/// None of the buffers has an open reservation.
pub(crate) fn all_ended(sealed: &VecDeque<Sealed>) -> bool
    ensures { IsTrue result ↔ All (λ b. b.open_count ≡ 0) sealed.now.items }
{
    sealed.iter().all(|b| b.open_count == 0)
}

/// The buffer that has the place, of which there is one with an open reservation, waits for one fewer.
pub(crate) fn end_sealed(sealed: &mut VecDeque<Sealed>, from: usize)
    requires some { (at index : ℕ) × (rs : List Reserved) × HasOpenAt at rs index from sealed.old.items }
    ensures { (at index : ℕ) (rs : List Reserved) → HasOpenAt at rs index from sealed.old.items → sealed.new.items ≡ one_ended index sealed.old.items }
{
    let k = ended_before(sealed, from);
    sealed[k].open_count -= 1;
}

/// How many of them end no further than an offset.
fn ended_before(sealed: &VecDeque<Sealed>, from: usize) -> usize
    ensures { IsNonDecreasingBy (λ b. b.end) sealed.now.items → IsPartitionPoint (λ b. b.end ≤ from) (λ b. from < b.end) sealed.now.items result }
{
    sealed.partition_point(|b| b.end <= from)
}

/// The buffer at an index is on the device now.
fn note_written(sealed: &mut VecDeque<Sealed>, k: usize)
    requires { k < deque_len sealed.old }
    ensures items { sealed.new.items ≡ written_at k sealed.old.items }
{
    let b = &mut sealed[k];
    b.is_written = true;
}

/// Takes out those at the front that are on the device. Returns where they end, and how many reservations they have.
fn take_run(sealed: &mut VecDeque<Sealed>, from: usize) -> (usize, usize)
    requires { sealed_count sealed.old.items < 2 ^ 64 }
    ensures left { sealed.new.items ≡ behind_run sealed.old.items }
    ensures end { result.0 ≡ run_end from sealed.old.items }
    ensures count { result.1 ≡ run_count sealed.old.items }
{
    let mut end = from;
    let mut count = 0;
    while let Some(b) = sealed.front() {
        if !b.is_written {
            break;
        }
        end = b.end;
        count += b.count;
        let _ = sealed.pop_front();
    }
    (end, count)
}

/// Takes out so many at the front.
fn drop_first(reserved: &mut VecDeque<Reserved>, count: usize)
    ensures { reserved.new.items ≡ drop count reserved.old.items }
{
    let mut left = count;
    while left > 0 {
        let _ = reserved.pop_front();
        left -= 1;
    }
}

/// How many of them begin before an offset.
fn begun_before(reserved: &VecDeque<Reserved>, from: usize) -> usize
    ensures bound { result ≤ length reserved.now.items }
    ensures point { IsNonDecreasingBy (λ r. r.from) reserved.now.items → IsPartitionPoint (λ r. r.from < from) (λ r. from ≤ r.from) reserved.now.items result }
{
    reserved.partition_point(|r| r.from < from)
}
