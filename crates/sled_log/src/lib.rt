//! The segment log, under the names that its users write.
//!
//! The crates below are layers: formats, device, log. Here each module has what belongs together for a
//! user, whichever layer it is from; beside that stand recovery (`snapshot`, with the slow
//! `snapshot::reference` for tests, and `restart`) and runs of commands (`session`).
#![tactic(auto)]

pub use sled_codec::{result as result, serialization as serialization};
pub use sled_store::{blob_io as blob_io, header as header};

pub mod iterator;
pub mod laws;
pub mod restart;
pub mod session;
pub mod snapshot;

/// How a log is kept: the size of its segments, its device and its checksum.
///
/// One device has one configuration and one checksum throughout.
pub mod config {
    pub use sled_store::config::{Config, RunningConfig};
}

/// What holds a log: the trait of devices, and the one in memory.
///
/// What a device does, and what a crash may leave of it, stands in `docs/DEVICE.md`.
pub mod device {
    pub use sled_codec::serialization::{Checksum, PlaceSum};
    pub use sled_store::device::Device;
    pub use sled_store::device::choice::{Choice, Offer};
    pub use sled_store::device::crash_device::CrashDevice;
    pub use sled_store::device::memory::MemDevice;
}

/// The sizes that the bytes of a segment are laid out by, and which places of the log are durable.
///
/// A segment begins with its header, and a message with one of its own. Intervals of places are synced in any order, and a
/// batch counts only as a whole.
pub mod iobuf {
    pub use sled_core::iobuf::intervals::StabilityIntervals;
    pub use sled_core::logger::MAX_POOLED;
    pub use sled_store::segment::{MAX_MSG_HEADER_LEN, SEG_HEADER_LEN};
}

/// The log, what is read of it, and the kinds and headers of messages.
///
/// A message is reserved, then completed, and settled on the device by a flush.
pub mod logger {
    pub use sled_codec::result::{DiskPtr, LogOffset, Lsn, PageId};
    pub use sled_codec::serialization::message::{BATCH_MANIFEST_PID, COUNTER_PID, META_PID};
    pub use sled_codec::serialization::{
        BatchManifest, LogKind, MessageHeader, MessageKind, SegmentHeader, SegmentNumber,
    };
    pub use sled_core::logger::read_at::{BasedBuf, ReadAt};
    pub use sled_core::logger::read_message::{LogRead, read_message};
    pub use sled_core::logger::{Log, MAX_POOLED};
    pub use sled_store::segment::{MAX_MSG_HEADER_LEN, MINIMUM_ITEMS_PER_SEGMENT, SEG_HEADER_LEN};
}

/// Segments: which slot each gets, when its slot is free again, and which pages are to be written again first.
///
/// A log has an accountant of its own. One that stands alone begins with `SegmentAccountant::start`, and gives the pages
/// (`clean_pop`); its cleaner is a part of it. What it looks up stands in sorted sets, whose search is counted.
pub mod segment {
    pub use sled_store::segment::accountant::{CacheInfo, SegmentAccountant};
    pub use sled_store::segment::cleaner::SegmentCleaner;
    pub use sled_store::segment::{Count, SortedMap, SortedSet};
}

/// Tickets: what a caller holds for a place that is kept for it, and for a pin.
///
/// Neither can be dropped: each is handed back to its log, or abandoned on purpose.
pub mod reservation {
    pub use sled_core::reservation::{Guard, Reservation};
}
