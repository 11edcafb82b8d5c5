//! The open segments of a log, oldest first: those that aren't wholly on the device, and the last one, which is being
//! filled (`specs/Begun.antt`).
//!
//! There is one at least. So the first one isn't among those of the queue, and what is asked of any of them is asked by its
//! number, counted from the first one: nothing else tells the first one from the others.
ghost use Rattle.std.specs.Prelude.{◌≡◌, ◌≤◌, ◌<◌, ◌↔◌, ◌∷◌, ◌++◌, [], All, IsOkUnless, IsTrue, OnOk, Some, length, slice_get, true};
ghost use Rattle.std.specs.Borrow.{sem};
ghost use Rattle.std.specs.VecDeque.{deque_len, deque_capacity};
ghost use Rattle.sled_core.specs.Buffers.{none_open};

use crate::iobuf::{IoBuf, SegmentPosition};
use sled_codec::result::{Error, Result};
use std::alloc::Global;
use std::collections::VecDeque;

/// A segment that was begun: where it lies, and its bytes.
#[derive(Drop)]
pub(crate) struct SegmentBuffer {
    pub(crate) site: SegmentPosition,
    pub(crate) buffer: IoBuf,
}

/// The open segments of a log.
#[derive(Drop)]
pub(crate) struct IoBufs {
    /// The first one that isn't wholly on the device.
    pub(crate) first: SegmentBuffer,
    /// Those that were begun behind it, by place.
    pub(crate) behind: VecDeque<SegmentBuffer>,
}

impl IoBufs {
    ghost use Rattle.sled_core.specs.Begun.{line_in};
    ghost use Rattle.sled_core.specs.inside.Begun.{last_buffer_in, open_segments};
    ghost use Rattle.sled_core.specs.inside.Lending.{LendsSegment};
    ghost use Rattle.sled_core.specs.inside.Turned.{promoted};

    /// The number of the last one.
    #[inline(always)]
    pub(crate) fn last_index(&self) -> usize
        ensures { result ≡ length self.now.behind.items }
    {
        self.behind.len()
    }

    /// The n-th one.
    #[inline(always)]
    pub(crate) fn segment(&self, n: usize) -> &SegmentBuffer
        requires { n ≤ length self.now.behind.items }
        ensures { slice_get (open_segments self.now) n ≡ Some result.now }
    {
        if n == 0 {
            &self.first
        } else {
            &self.behind[n - 1]
        }
    }

    /// The n-th one, to change it.
    #[inline(always)]
    pub(crate) fn segment_mut(&mut self, n: usize) -> &mut SegmentBuffer
        requires { n ≤ length self.old.behind.items }
        ensures* lends { sem 𝓛 (LendsSegment self.entry n result) }
        ensures value { slice_get (open_segments self.old) n ≡ Some result.now }
    {
        if n == 0 {
            &mut self.first
        } else {
            &mut self.behind[n - 1]
        }
    }

    /// The last one, to change it.
    #[inline(always)]
    pub(crate) fn last_mut(&mut self) -> &mut SegmentBuffer
        ensures* lends { sem 𝓛 (LendsSegment self.entry (length self.old.behind.items) result) }
        ensures value { slice_get (open_segments self.old) (length self.old.behind.items) ≡ Some result.now }
    {
        let n = self.behind.len();
        self.segment_mut(n)
    }

    /// Makes room for one more.
    pub(crate) fn make_room(&mut self) -> Result<()>
        ensures first { self.new.first ≡ self.old.first }
        ensures behind { self.new.behind.items ≡ self.old.behind.items }
        ensures room { OnOk result (deque_len self.new.behind < deque_capacity self.new.behind) }
        ensures memory { IsOkUnless result Error.OutOfMemory }
    {
        self.behind.reserve(1)?;
        Ok(())
    }

    /// Puts one behind the others. There is room for it.
    pub(crate) fn begin(&mut self, site: SegmentPosition, buffer: IoBuf)
        requires { deque_len self.old.behind < deque_capacity self.old.behind }
        ensures first { self.new.first ≡ self.old.first }
        ensures behind { self.new.behind.items ≡ self.old.behind.items ++ record { site = site; buffer = buffer } ∷ [] }
    {
        self.behind
            .push_back_reserved(SegmentBuffer { site, buffer });
    }

    /// Leaves out those at the front that are wholly on the device, as long as there is a further one.
    pub(crate) fn promote(&mut self, size: u64)
        ensures line { line_in self.new ≡ promoted size (line_in self.old) }
        ensures last { last_buffer_in self.new ≡ last_buffer_in self.old }
    {
        while self.first.buffer.written_len as u64 == size {
            match self.behind.pop_front() {
                Some(next) => self.first = next,
                None => break,
            }
        }
    }

    /// Whether none has an open reservation.
    pub(crate) fn none_open(&self) -> bool
        ensures { IsTrue result ↔ All (λ s. none_open s.buffer.reserved.items ≡ true) (open_segments self.now) }
    {
        self.first.buffer.none_open() && self.behind.iter().all(|s| s.buffer.none_open())
    }
}

/// No segment is begun behind the first one.
pub(crate) fn no_segments(alloc: Global) -> VecDeque<SegmentBuffer>
    ensures { result.items ≡ [] }
{
    VecDeque::new(alloc)
}
