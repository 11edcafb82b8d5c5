//! What recovery concludes: the table, and what is left to be written.
ghost use Rattle.std.specs.Prelude.{◌+◌, ◌^◌, ◌<◌};

use sled_codec::result::LogOffset;
use sled_codec::serialization::Snapshot;

/// What recovery makes of a log file.
#[derive(Drop)]
pub(crate) struct Recovery {
    pub(crate) snapshot: Snapshot,
    /// It ends above the snapshot that recovery began from, or that had no place.
    pub(crate) is_new: bool,
    /// The rest of the active segment behind the cut, where one was read.
    pub(crate) shred_range: Option<ShredRange>,
    /// The slots of the segments that were found and not read, by their places.
    pub(crate) unread: Vec<LogOffset>,
}

/// A range of the log file.
#[derive(Debug, Clone, Copy)]
pub(crate) struct ShredRange {
    pub(crate) at: LogOffset,
    pub(crate) len: u64,
    ghost small: { at + len < 2 ^ 63 },
}
