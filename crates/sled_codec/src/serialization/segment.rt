//! The header of a segment: a sum, the place where the segment begins, and its mark. The two places
//! stand with all bits but the sign's flipped (`docs/FORMATS.md`, "Segments").
ghost use Rattle.std.specs.Prelude.{◌≡◌, ◌↔◌, ℤ, length, drop, IsTrue};
ghost use Rattle.sled_codec.specs.Spelling.{low_bytes};
ghost use Rattle.sled_codec.specs.Record.{IsHeader, header_places, masked, short_header};

use crate::result::Lsn;
use crate::serialization::Checksum;

// All bits but the sign's.
const MASK: u64 = 0x7FFF_FFFF_FFFF_FFFF;

/// What stands before the records of a segment, in 20 bytes.
#[derive(Debug, Clone, Copy, PartialEq)]
pub struct SegmentHeader {
    /// Where the segment begins in the log.
    pub lsn: Lsn,
    /// The mark: up to here the log was stable when the segment was begun, or -1.
    pub max_stable_lsn: Lsn,
    /// Whether the sum fits, so that these are the bytes of a header.
    pub ok: bool,
}

impl SegmentHeader {
    /// Returns the header that the bytes at the beginning of a segment are. Where their checksum is wrong the
    /// places are read all the same.
    pub fn from_bytes<C: Checksum>(bytes: &[u8; 20], checksum: &C) -> SegmentHeader
        ensures sum { IsTrue result.ok ↔ IsHeader C.sum_of bytes.now result.lsn result.max_stable_lsn }
        ensures places { drop 4 bytes.now ≡ header_places result.lsn result.max_stable_lsn }
        ensures header { (lsn mark : ℤ) → IsHeader C.sum_of bytes.now lsn mark → (lsn ≡ result.lsn) × (mark ≡ result.max_stable_lsn) }
    {
        let sum = !checksum.sum(&bytes[4..]);
        SegmentHeader {
            lsn: unmasked(&bytes[4..12]),
            max_stable_lsn: unmasked(&bytes[12..]),
            ok: sum == stored_sum(&bytes[..4]),
        }
    }

    /// Returns the bytes of a header with these places, and the checksum that fits.
    #[tactic(auto, unfolding(crate::specs::Record::short_header))]
    pub fn to_bytes<C: Checksum>(&self, checksum: &C) -> [u8; 20]
        ensures { result ≡ short_header C.sum_of self.now.lsn self.now.max_stable_lsn }
    {
        let places = header_places(self.lsn, self.max_stable_lsn);
        let sum = !checksum.sum(&places);
        let mut bytes = [0u8; 20];
        bytes[..4].copy_from_slice(&sum.to_le_bytes());
        bytes[4..].copy_from_slice(&places);
        bytes
    }
}

// The sum that a header carries.
fn stored_sum(bytes: &[u8]) -> u32
    requires { length bytes.now ≡ 4 }
    ensures { low_bytes 4 result ≡ bytes.now }
{
    let mut low = [0u8; 4];
    low.copy_from_slice(bytes);
    u32::from_le_bytes(low)
}

// What is summed.
#[tactic(auto, unfolding(crate::specs::Record::header_places))]
fn header_places(lsn: Lsn, mark: Lsn) -> [u8; 16]
    ensures { result ≡ header_places lsn mark }
{
    let mut places = [0u8; 16];
    places[..8].copy_from_slice(&masked(lsn));
    places[8..].copy_from_slice(&masked(mark));
    places
}

// The bytes that are written for a place.
fn masked(place: Lsn) -> [u8; 8]
    ensures { result ≡ low_bytes 8 (masked place) }
{
    (place.cast_unsigned() ^ MASK).to_le_bytes()
}

// The place that is written as these bytes.
fn unmasked(bytes: &[u8]) -> Lsn
    requires { length bytes.now ≡ 8 }
    ensures { low_bytes 8 (masked result) ≡ bytes.now }
{
    let mut low = [0u8; 8];
    low.copy_from_slice(bytes);
    (u64::from_le_bytes(low) ^ MASK).cast_signed()
}
