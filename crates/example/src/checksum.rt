//! A checksum of one's own (`docs/USING.md`).
ghost use Rattle.example.specs.Sums.{times_31};

use sled_log::device::Checksum;

/// From byte to byte the sum is multiplied by 31 and the byte added, modulo 2^32.
#[derive(Debug, Clone, Copy, PartialEq, Eq)]
pub struct Times31;

impl Checksum for Times31 {
    ghost sum_of = { times_31 0 };

    fn sum(&self, bytes: &[u8]) -> u32 {
        let mut sum: u32 = 0;
        for byte in bytes {
            sum = sum.wrapping_mul(31).wrapping_add(u32::from(*byte));
        }
        sum
    }
}
