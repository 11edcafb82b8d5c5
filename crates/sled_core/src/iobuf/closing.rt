//! Filling a segment to its end, and sealing its last buffer.
ghost use Rattle.std.specs.Prelude.{◌≡◌, ◌<◌, ◌≤◌, ◌^◌, length, OnOk, IsOkUnless};
ghost use Rattle.sled_core.specs.Begun.{view_at};
ghost use Rattle.sled_core.specs.Buffers.{padding_at};
ghost use Rattle.sled_core.specs.SealedBuffers.{sealed_end};
ghost use Rattle.sled_core.specs.inside.Turned.{CanClose};
ghost use Rattle.sled_core.specs.Waiting.{closed_now};

use crate::iobuf::{IoBuf, ReservationState, Reserved, SegmentPosition};
use sled_codec::result::{Error, Result};
use sled_codec::serialization::{Checksum, LogKind, MessageKind, SegmentNumber};
use sled_store::segment::MAX_MSG_HEADER_LEN;

impl IoBuf {
    /// Makes room for what fills a segment of this size to its end, for its entry, and for the buffer that is sealed then.
    pub(crate) fn room_to_close(&mut self, size: usize) -> Result<()>
        requires inside { length self.old.bytes.items ≤ size }
        requires small { size < 2 ^ 63 }
        requires there { 0 < self.old.bytes.room }
        ensures same { (site : SegmentPosition) → view_at site self.new ≡ view_at site self.old }
        ensures room { OnOk result (CanClose self.new size) }
        ensures there { 0 < self.new.bytes.room }
        ensures err { IsOkUnless result Error.OutOfMemory }
    {
        let rest = size - self.bytes.len();
        self.bytes.reserve(rest + MAX_MSG_HEADER_LEN)?;
        self.reserved.reserve(1)?;
        self.sealed.reserve(1)?;
        Ok(())
    }

    /// Fills a segment of this size, which lies there, to its end, behind what is there, keeps an entry for that, and seals
    /// the buffer.
    pub(crate) fn close<C: Checksum>(&mut self, checksum: &C, site: &SegmentPosition, size: usize)
        requires some { sealed_end self.old.written_len self.old.sealed.items < size }
        requires short { length self.old.bytes.items ≤ size }
        requires size { 0 < size }
        requires room { CanClose self.old size }
        ensures there { 0 < self.new.bytes.room }
        ensures closed { view_at site.now self.new ≡ closed_now C.sum_of size (view_at site.now self.old) }
    {
        let from = self.bytes.len();
        if from < size {
            let number = SegmentNumber(site.place / size as u64);
            self.bytes.push_rest(checksum, number, size);
            self.reserved.push_back_reserved(padding(from, size));
            self.filled = Some(from);
        }
        self.push_sealed();
    }
}

/// The entry of what fills a segment of this size from an offset on.
fn padding(from: usize, size: usize) -> Reserved
    requires { from ≤ size }
    ensures { result ≡ padding_at size from }
{
    Reserved {
        from,
        header_len: 0,
        len: size - from,
        log_kind: LogKind::Skip,
        kind: MessageKind::Cap,
        page: 0,
        sum: 0,
        blob: None,
        state: ReservationState::Padding,
    }
}
