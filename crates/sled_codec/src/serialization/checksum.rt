//! Checksums, which tell a message that was written whole from one that was not.
ghost use Rattle.std.specs.Prelude.{◌≡◌, ℕ, List};
ghost use Rattle.sled_codec.specs.Sums.{place_sum};

/// A checksum: a number that the bytes alone decide.
pub trait Checksum {
    ghost sum_of: { List ℕ → ℕ };

    /// Returns the checksum of these bytes.
    fn sum(&self, bytes: &[u8]) -> u32
        ensures { result ≡ sum_of bytes.now };
}

/// The checksum for tests: the bytes times their places, counted from 1, modulo 2^32. It finds a byte that
/// differs and two that changed places, and is simple enough to be worked out by hand.
#[derive(Debug, Clone, Copy, PartialEq, Eq)]
pub struct PlaceSum;

impl Checksum for PlaceSum {
    ghost sum_of = { place_sum };

    fn sum(&self, bytes: &[u8]) -> u32 {
        let mut total: u32 = 0;
        let mut place: u32 = 0;
        for b in bytes {
            place = place.wrapping_add(1);
            total = total.wrapping_add(place.wrapping_mul(u32::from(*b)));
        }
        total
    }
}
