//! The bytes of segments that were written, for further segments.
//!
//! A segment's `Vec` is emptied and goes to the pool with the write by which the segment is wholly on the device, unless the pool
//! is full. A further segment takes one, and then takes no memory for its bytes: each has room for a segment and for
//! what is summed behind its last record.
ghost use Rattle.std.specs.Prelude.{◌≡◌, ◌-◌, ◌<◌, ◌≤◌, [], true, vec_capacity, IfOk, IsOkUnless, IsTrue, ◌↔◌, MatchOption};
ghost use Rattle.sled_core.specs.Pool.{with_given};

use crate::logger::Log;
use sled_codec::result::{Error, Result};
use sled_codec::serialization::Checksum;
use sled_store::Device;
use std::alloc::Global;
use std::marker::Model;

/// How many buffers of segments a log keeps at most for further segments.
pub const MAX_POOLED: usize = 4;

/// Emptied buffers of segments.
#[derive(Drop)]
pub(crate) struct SegmentPool {
    spare: Vec<Vec<u8>>,
    /// For how many bytes each of them has room, at least.
    room: usize,
}

impl Model for SegmentPool {
    ghost use Rattle.std.specs.Prelude.{length};
    ghost use Rattle.sled_core.specs.Pool.{Pool};

    ghost Value = { Pool };

    ghost use Rattle.sled_core.specs.inside.Pool.{IsPool};

    ghost view = { λ p. record { count = length p.spare.items; room = p.room } };

    ghost invariant = { IsPool };
}

impl SegmentPool {
    /// An empty one, of buffers that have so much room.
    pub(crate) fn empty(alloc: Global, room: usize) -> Result<SegmentPool>
        ensures none { IfOk result (λ p. p.count ≡ 0) }
        ensures room { IfOk result (λ p. p.room ≡ room) }
        ensures memory { IsOkUnless result Error.OutOfMemory }
    {
        let spare = Vec::with_capacity(alloc, MAX_POOLED)?;
        Ok(SegmentPool { spare, room })
    }

    /// How many there are.
    pub(crate) fn len(&self) -> usize
        ensures is { result ≡ self.now.count }
        ensures most { result ≤ MAX_POOLED }
    {
        self.spare.len()
    }

    /// A new buffer, where there is none.
    pub(crate) fn new_if_empty(&self, alloc: Global) -> Result<Option<Vec<u8>>>
        ensures new { IfOk result (λ o. MatchOption o (0 < self.now.count) (λ v. (self.now.count ≡ 0) × (v.items ≡ []) × (self.now.room ≤ vec_capacity v))) }
        ensures memory { IsOkUnless result Error.OutOfMemory }
    {
        if !self.spare.is_empty() {
            return Ok(None);
        }
        Ok(Some(Vec::with_capacity(alloc, self.room)?))
    }

    /// Takes one of them, or that new one where there is none.
    pub(crate) fn take(&mut self, new: Option<Vec<u8>>) -> Vec<u8>
        requires { MatchOption new (0 < self.old.count) (λ v. (self.old.count ≡ 0) × (v.items ≡ []) × (self.old.room ≤ vec_capacity v)) }
        ensures empty { result.items ≡ [] }
        ensures roomy { self.old.room ≤ vec_capacity result }
        ensures fewer { self.new.count ≡ self.old.count - 1 }
        ensures room { self.new.room ≡ self.old.room }
    {
        match new {
            Some(bytes) => bytes,
            None => self.spare.pop().unwrap(),
        }
    }

    /// Empties a buffer that has the room, and takes it in, unless the pool is full.
    pub(crate) fn give(&mut self, bytes: Vec<u8>)
        requires { self.old.room ≤ vec_capacity bytes }
        ensures more { self.new.count ≡ with_given true self.old.count }
        ensures room { self.new.room ≡ self.old.room }
    {
        if self.spare.len() < MAX_POOLED {
            let mut bytes = bytes;
            bytes.clear();
            self.spare.push_reserved(bytes);
        }
    }
}

impl<D: Device, C: Checksum> Log<D, C> {
    ghost use Rattle.sled_core.specs.Fits.{pooled_of};

    /// Returns how many buffers of segments that were written the log keeps for further ones: four at most. It takes no memory.
    pub fn pooled(&self) -> usize
        ensures is { result ≡ pooled_of self.now }
        ensures most { result ≤ MAX_POOLED }
    {
        self.pool.len()
    }
}
