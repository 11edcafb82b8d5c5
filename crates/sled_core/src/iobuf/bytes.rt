//! The bytes of a segment, which are given away once all of them are on the device.
ghost use Rattle.std.specs.Prelude.{◌≡◌, ◌+◌, ◌-◌, ◌<◌, ◌≤◌, ◌^◌, ◌++◌, length, take, drop, vec_capacity, OnOk, IsOkUnless};
ghost use Rattle.sled_codec.specs.Places.{part};
ghost use Rattle.sled_codec.specs.Written.{written};
ghost use Rattle.sled_core.specs.inside.Buffers.{ending, placeholder_head};
ghost use Rattle.sled_core.specs.invariants.Caps.{segment_rest};

use crate::iobuf::record::{Head, push_placeholder, push_rest};
use crate::iterator::sums::sum_in_place;
use sled_codec::result::{Error, Result};
use sled_codec::serialization::{Checksum, MessageKind, SegmentNumber, Serialize};
use std::alloc::Global;
use std::marker::Model;
use std::mem;
use std::snapshot::Snapshot;

/// The bytes of a segment. Contracts go on seeing what they were when they were given away, and no room behind them.
#[derive(Drop)]
pub(crate) struct SegmentBytes {
    bytes: Vec<u8>,
    /// What they were when they were given away, which takes no bytes; `None` before that.
    laid: Option<Snapshot<Vec<u8>>>,
}

impl Model for SegmentBytes {
    ghost use Rattle.sled_core.specs.inside.LaidBytes.{LaidBytes};

    ghost Value = { LaidBytes };

    ghost use Rattle.sled_core.specs.inside.LaidView.{laid_of};

    ghost view = { laid_of };
}

impl SegmentBytes {
    pub(crate) fn new(bytes: Vec<u8>) -> SegmentBytes
        ensures items { result.items ≡ bytes.items }
        ensures room { result.room ≡ vec_capacity bytes }
    {
        SegmentBytes { bytes, laid: None }
    }

    /// How many there are.
    #[inline(always)]
    pub(crate) fn len(&self) -> usize
        requires { 0 < self.now.room }
        ensures is { result ≡ length self.now.items }
        ensures small { result < 2 ^ 63 }
    {
        self.bytes.len()
    }

    #[inline(always)]
    pub(crate) fn as_slice(&self) -> &[u8]
        requires { 0 < self.now.room }
        ensures value { result.now ≡ self.now.items }
    {
        self.bytes.as_slice()
    }

    /// Makes room for so many more.
    #[inline(always)]
    pub(crate) fn reserve(&mut self, additional: usize) -> Result<()>
        requires { 0 < self.old.room }
        ensures items { self.new.items ≡ self.old.items }
        ensures grows { self.old.room ≤ self.new.room }
        ensures room { OnOk result (length self.old.items + additional ≤ self.new.room) }
        ensures memory { IsOkUnless result Error.OutOfMemory }
    {
        self.bytes.reserve(additional)?;
        Ok(())
    }

    /// Puts the placeholder of a record behind them (`push_placeholder`).
    #[inline(always)]
    pub(crate) fn push_placeholder<T: Serialize, C: Checksum>(
        &mut self,
        checksum: &C,
        head: &Head,
        item: &T,
        item_len: usize,
    ) -> u32
        requires fits { T.fits (T.meaning item.now) }
        requires len { item_len ≡ length (T.short (T.meaning item.now)) }
        requires room { length self.old.items + head.now.len + item_len + 32 ≤ self.old.room }
        ensures sum { result ≡ C.sum_of (T.short (T.meaning item.now) ++ drop 4 (take head.now.len head.now.bytes)) }
        ensures bytes { self.new.items ≡ self.old.items ++ placeholder_head (take head.now.len head.now.bytes) ++ T.short (T.meaning item.now) }
        ensures len { length self.new.items ≡ length self.old.items + head.now.len + item_len }
        ensures grows { self.old.room ≤ self.new.room }
        ensures small { length self.new.items < 2 ^ 63 }
    {
        push_placeholder(checksum, &mut self.bytes, head, item, item_len)
    }

    /// Fills a segment to its end (`push_rest`).
    pub(crate) fn push_rest<C: Checksum>(
        &mut self,
        checksum: &C,
        number: SegmentNumber,
        size: usize,
    )
        requires inside { length self.old.items ≤ size }
        requires some { 0 < size }
        requires room { size ≤ self.old.room }
        ensures bytes { self.new.items ≡ self.old.items ++ segment_rest C.sum_of size number.0 (length self.old.items) }
        ensures len { length self.new.items ≡ size }
        ensures grows { self.old.room ≤ self.new.room }
        ensures small { length self.new.items < 2 ^ 63 }
    {
        push_rest(checksum, &mut self.bytes, number, size);
    }

    /// Writes over what is there.
    #[inline(always)]
    pub(crate) fn put(&mut self, at: usize, bytes: &[u8])
        requires there { 0 < self.old.room }
        requires within { at + length bytes.now ≤ length self.old.items }
        ensures bytes { self.new.items ≡ written self.old.items at bytes.now }
        ensures len { length self.new.items ≡ length self.old.items }
        ensures room { self.new.room ≡ self.old.room }
    {
        put(&mut self.bytes, at, bytes);
    }

    /// Writes a sum, flipped, and a kind over the beginning of a record's header.
    #[inline(always)]
    pub(crate) fn put_ending(&mut self, at: usize, sum: u32, kind: MessageKind)
        requires there { 0 < self.old.room }
        requires within { at + 5 ≤ length self.old.items }
        ensures bytes { self.new.items ≡ written self.old.items at (ending sum kind) }
        ensures len { length self.new.items ≡ length self.old.items }
        ensures room { self.new.room ≡ self.old.room }
    {
        put_ending(&mut self.bytes, at, sum, kind);
    }

    /// The sum of a record (`sum_around`).
    pub(crate) fn sum_around<C: Checksum>(
        &mut self,
        checksum: &C,
        from: usize,
        header_len: usize,
        len: usize,
    ) -> u32
        requires there { 0 < self.old.room }
        requires headed { 4 ≤ header_len }
        requires long { header_len ≤ len }
        requires within { from + len ≤ length self.old.items }
        ensures sum { result ≡ C.sum_of (part self.old.items (from + header_len) (len - header_len) ++ part self.old.items (from + 4) (header_len - 4)) }
        ensures bytes { self.new.items ≡ self.old.items }
        ensures room { self.new.room ≡ self.old.room }
    {
        sum_in_place(checksum, &mut self.bytes, from, header_len, len)
    }

    /// Gives them away.
    pub(crate) fn give_away(&mut self, alloc: Global) -> Vec<u8>
        requires { 0 < self.old.room }
        ensures items { self.new.items ≡ self.old.items }
        ensures none { self.new.room ≡ 0 }
        ensures room { vec_capacity result ≡ self.old.room }
    {
        self.laid = Some(Snapshot::of(&self.bytes));
        mem::replace(&mut self.bytes, Vec::new(alloc))
    }
}

/// Writes over what is there.
#[inline(always)]
fn put(buf: &mut Vec<u8>, at: usize, bytes: &[u8])
    requires { at + length bytes.now ≤ length buf.old.items }
    ensures bytes { buf.new.items ≡ written buf.old.items at bytes.now }
    ensures len { length buf.new.items ≡ length buf.old.items }
    ensures capacity { vec_capacity buf.new ≡ vec_capacity buf.old }
{
    buf[at..at + bytes.len()].copy_from_slice(bytes);
}

/// Writes a sum, flipped, and a kind over the beginning of a record's header.
#[inline(always)]
fn put_ending(buf: &mut Vec<u8>, at: usize, sum: u32, kind: MessageKind)
    requires { at + 5 ≤ length buf.old.items }
    ensures bytes { buf.new.items ≡ written buf.old.items at (ending sum kind) }
    ensures len { length buf.new.items ≡ length buf.old.items }
    ensures capacity { vec_capacity buf.new ≡ vec_capacity buf.old }
{
    let sum = (u32::MAX - sum).to_le_bytes();
    put(buf, at, &[sum[0], sum[1], sum[2], sum[3], u8::from(kind)]);
}
