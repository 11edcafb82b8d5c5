//! The checksum of new folders: that of sled's own files, begun with four bytes more.
ghost use Rattle.sled_file.specs.Crc.{log_crc32};

use crate::crc32::sum_from;
use sled_codec::serialization::Checksum;

/// The 32-bit cyclic redundancy check of IEEE 802.3, of the four bytes `6c 6f 67 00` ("log" and a zero) and those that are
/// summed. It is for new folders: under `Crc32` a crash may leave of the header of the first segment, over zeros, what
/// passes as another header (`docs/CRASH_SAFETY.md`, "What is left of a header over zeros shows no segment").
#[derive(Debug, Clone, Copy, PartialEq, Eq)]
pub struct LogCrc32;

// What is kept behind the four bytes.
const BEGUN: u32 = 0xc67c1925;

impl Checksum for LogCrc32 {
    ghost sum_of = { log_crc32 };

    fn sum(&self, bytes: &[u8]) -> u32 {
        sum_from(BEGUN, bytes)
    }
}
