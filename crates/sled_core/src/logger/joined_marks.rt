//! The marks of a log's segments: up to which place segments were left behind.
//!
//! The mark of a segment stands in its header, and counts once that is on the device (`specs/Account.antt`).
ghost use Rattle.std.specs.Prelude.{◌≡◌, ◌≤◌, ◌≤ℤ◌, if◌then◌else◌, length};
ghost use Rattle.sled_core.specs.HeaderMark.{greater_mark, mark_at, mark_in};

use sled_codec::result::Lsn;
use sled_codec::serialization::{Checksum, SegmentHeader};
use sled_store::segment::SEG_HEADER_LEN;

/// Up to which place segments were left behind.
#[derive(Debug, Clone, Copy)]
pub(crate) struct JoinedMarks {
    /// The mark that joined: all before the segment that holds this place was left behind.
    pub(crate) joined: Lsn,
    /// The greatest mark in the header of a segment that is on the device. It joins where no pin is out.
    pub(crate) durable: Lsn,
    ghost ordered: { joined ≤ℤ durable },
}

impl JoinedMarks {
    /// Those of a log that begins at a place.
    pub(crate) fn from_place(place: Lsn) -> JoinedMarks
        ensures joined { result.joined ≡ place }
        ensures durable { result.durable ≡ place }
    {
        JoinedMarks {
            joined: place,
            durable: place,
        }
    }

    /// A buffer is on the device now, which begins with a header of this mark, or with none. Unless a pin is out all marks
    /// join that are on the device.
    pub(crate) fn note_mark(&mut self, mark: Option<Lsn>, pinned: bool)
        ensures joined { self.new.joined ≡ if pinned then self.old.joined else greater_mark mark self.old.durable }
        ensures durable { self.new.durable ≡ greater_mark mark self.old.durable }
    {
        if let Some(place) = mark {
            if self.durable < place {
                self.durable = place;
            }
        }
        if !pinned {
            self.joined = self.durable;
        }
    }
}

/// The mark of a buffer with these bytes, which begins at an offset of its segment: that of the segment, where it begins
/// with the header.
pub(crate) fn mark_at<C: Checksum>(checksum: &C, from: usize, bytes: &[u8]) -> Option<Lsn>
    requires { from ≡ 0 → 20 ≤ length bytes.now }
    ensures { result ≡ mark_at from bytes.now }
{
    if from > 0 {
        return None;
    }
    Some(mark_in(checksum, bytes))
}

/// The mark of the header with which these bytes begin. The log made it, so whether its checksum fits isn't asked.
fn mark_in<C: Checksum>(checksum: &C, bytes: &[u8]) -> Lsn
    requires { 20 ≤ length bytes.now }
    ensures { result ≡ mark_in bytes.now }
{
    let mut first = [0u8; SEG_HEADER_LEN];
    first.copy_from_slice(&bytes[..SEG_HEADER_LEN]);
    SegmentHeader::from_bytes(&first, checksum).max_stable_lsn
}
