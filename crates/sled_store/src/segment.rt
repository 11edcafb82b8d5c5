//! Segments of the log file: what stands at their beginning, where a record may begin in one, which of the file's slots
//! they lie in, and in which one a log goes on.
ghost use Rattle.std.specs.Prelude.{◌↔◌, ◌<◌, IsTrue};
ghost use Rattle.sled_codec.specs.Places.{MayBegin};

pub mod accountant;
pub mod cleaner;
pub mod laws;
pub(crate) mod slot;
pub(crate) mod slot_set;
pub mod slot_table;
pub(crate) mod sorted;
pub mod start;

pub use crate::segment::sorted::{Count, SortedMap, SortedSet};
use sled_codec::result::LogOffset;

/// The longest header of a message, in bytes.
pub const MAX_MSG_HEADER_LEN: usize = 32;

/// The header of a segment, in bytes.
pub const SEG_HEADER_LEN: usize = 20;

/// How many records a segment has room for at least, beside its header: a record takes no more than this part of it, and a longer
/// item goes to a blob.
pub const MINIMUM_ITEMS_PER_SEGMENT: usize = 4;

/// Whether a record may begin at an offset of the log file.
pub fn may_begin(lid: LogOffset, segment_size: u64) -> bool
    requires { 0 < segment_size }
    ensures { IsTrue result ↔ MayBegin segment_size lid }
{
    let offset = lid % segment_size;
    offset >= SEG_HEADER_LEN as u64
        && segment_size >= MAX_MSG_HEADER_LEN as u64
        && offset <= segment_size - MAX_MSG_HEADER_LEN as u64
}
