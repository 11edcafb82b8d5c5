//! What is laid in the log where a record is looked for.
ghost use Rattle.std.specs.Prelude.{◌≤◌, ◌<◌, ◌+◌, ◌^◌, length, vec_capacity};

use sled_codec::serialization::MessageHeader;

/// How many bytes are read at first: as many as the longest header has.
pub(crate) const READ_AHEAD: usize = 32;

/// A header and the body that it announces, as they stand in the log. The sum may be wrong.
#[derive(Drop)]
pub(crate) struct UnverifiedRecord {
    pub(crate) header: MessageHeader,
    /// The bytes that begin with the header's spelling, and how long that is.
    pub(crate) head: [u8; READ_AHEAD],
    pub(crate) header_len: usize,
    /// The body, with room for a header behind it.
    pub(crate) body: Vec<u8>,
    ghost some: { 8 ≤ header_len },
    ghost short: { header_len ≤ 32 },
    ghost small: { header_len + length body.items < 2 ^ 32 },
    ghost room: { length body.items + 32 ≤ vec_capacity body },
}
