//! The checksum of sled's own files: the cyclic redundancy check of IEEE 802.3.
ghost use Rattle.std.specs.Prelude.{◌≡◌, bit_xor};
ghost use Rattle.sled_file.specs.Crc.{crc32, crc_from, shifted_out, with_byte};

mod tables;

use crate::crc32::tables::{BY_8, BY_16, BY_24, BY_32, BY_40, BY_48, BY_56, BY_64};
use sled_codec::serialization::Checksum;

/// The 32-bit cyclic redundancy check of IEEE 802.3, as sled's files have it. It takes eight bytes at a time.
#[derive(Debug, Clone, Copy, PartialEq, Eq)]
pub struct Crc32;

impl Checksum for Crc32 {
    ghost sum_of = { crc32 };

    fn sum(&self, bytes: &[u8]) -> u32 {
        sum_from(u32::MAX, bytes)
    }
}

// The sum of these bytes, where this is kept of the bytes before them.
#[inline(always)]
pub(crate) fn sum_from(begun: u32, bytes: &[u8]) -> u32
    ensures { result ≡ bit_xor (crc_from begun bytes.now) 0xffffffff }
{
    let (crc, rest) = over_eights(begun, bytes);
    over_bytes(crc, rest) ^ u32::MAX
}

// Goes over the bytes as long as eight of them are left. Returns what is kept then, and the bytes that are left.
fn over_eights(crc: u32, bytes: &[u8]) -> (u32, &[u8])
    ensures { crc_from result.0 result.1.now ≡ crc_from crc bytes.now }
{
    let mut sum = crc;
    let mut rest = bytes;
    while let [a, b, c, d, e, f, g, h, behind @ ..] = rest {
        sum = over_eight(sum, [*a, *b, *c, *d, *e, *f, *g, *h]);
        rest = behind;
    }
    (sum, rest)
}

// Goes over eight bytes at once.
fn over_eight(crc: u32, bytes: [u8; 8]) -> u32
    ensures { result ≡ crc_from crc bytes }
{
    let number = u64::from_le_bytes(bytes);
    shift_out(u64::from(crc) ^ number)
}

// What shifting 64 bits out leaves, a byte at a time, each by the table for what is behind it.
fn shift_out(bits: u64) -> u32
    ensures { result ≡ shifted_out 64 bits }
{
    BY_64[(bits % 256) as usize]
        ^ BY_56[((bits >> 8) % 256) as usize]
        ^ BY_48[((bits >> 16) % 256) as usize]
        ^ BY_40[((bits >> 24) % 256) as usize]
        ^ BY_32[((bits >> 32) % 256) as usize]
        ^ BY_24[((bits >> 40) % 256) as usize]
        ^ BY_16[((bits >> 48) % 256) as usize]
        ^ BY_8[((bits >> 56) % 256) as usize]
}

// Goes over the bytes one by one.
fn over_bytes(crc: u32, bytes: &[u8]) -> u32
    ensures { result ≡ crc_from crc bytes.now }
{
    let mut sum = crc;
    for byte in bytes {
        sum = over_byte(sum, *byte);
    }
    sum
}

// Goes over one byte.
fn over_byte(crc: u32, byte: u8) -> u32
    ensures { result ≡ with_byte crc byte }
{
    let bits = crc ^ u32::from(byte);
    BY_8[(bits % 256) as usize] ^ (bits >> 8)
}
