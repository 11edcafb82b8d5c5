//! Numbers: a `u64` takes one to nine bytes, the small ones few; `i64`, `u32` and `u8` take as many as
//! they have, the lowest first (`docs/FORMATS.md`, "Numbers").
ghost use Rattle.std.specs.Prelude.{◌≡◌, ◌+◌, ◌-◌, ◌^◌, ◌≤◌, ◌<◌, ℕ, ℤ, List, [], ◌∷◌, length, take, drop, FitsSigned, false};
ghost use Rattle.std.specs.Int.{w64};
ghost use Rattle.sled_codec.specs.Spelling.{low_bytes, low_first, SpellsFixed, SpellsByte, SpellsSigned, short_signed, more_bytes, number_of, SpellsNumber, byte_count, short_number};
ghost use Rattle.sled_codec.specs.SpellingLaws.{short_spells-four, one_value-fixed, no_front-fixed, short_spells-byte, one_value-byte, no_front-byte, short_spells-signed, one_value-signed, no_front-signed, short_spells-number, one_value-number, no_front-number};
ghost use Rattle.sled_codec.specs.Written.{written};

use crate::result::{Error, Result};
use crate::serialization::{Delimited, Serialize};
use std::alloc::Global;

/// One byte, the number.
impl Serialize for u8 {
    ghost Meaning = { ℕ };

    ghost meaning = { λ v. v };

    ghost Spells = { SpellsByte };

    ghost Follows = { λ rest. Unit {0} };

    ghost fits = { λ v. v < 2 ^ 8 };

    ghost short = { λ v. v ∷ [] };

    ghost takes_memory = { false };

    fn can_serialize(&self) -> bool {
        let _value = *self;
        true
    }

    fn serialized_size(&self) -> u64 {
        u64::from(u8::BITS / 8)
    }

    fn serialize_into(&self, buf: &mut [u8], at: usize) -> usize {
        buf[at] = *self;
        at + 1
    }

    fn deserialize(_alloc: Global, buf: &mut &[u8]) -> Result<u8> {
        let bytes: &[u8] = *buf;
        if bytes.is_empty() {
            return Err(Error::Corruption { at: None });
        }
        let value = bytes[0];
        *buf = &bytes[1..];
        Ok(value)
    }

    ghost short_spells = { short_spells-byte };
}

impl Delimited for u8 {
    ghost one_value = { one_value-byte };

    ghost no_front = { no_front-byte };

    ghost open = { λ rest. tt };
}

/// Four bytes, the lowest first.
impl Serialize for u32 {
    ghost Meaning = { ℕ };

    ghost meaning = { λ v. v };

    ghost Spells = { SpellsFixed 4 };

    ghost Follows = { λ rest. Unit {0} };

    ghost fits = { λ v. v < 2 ^ 32 };

    ghost short = { low_bytes 4 };

    ghost takes_memory = { false };

    fn can_serialize(&self) -> bool {
        let _value = *self;
        true
    }

    fn serialized_size(&self) -> u64 {
        u64::from(u32::BITS / 8)
    }

    fn serialize_into(&self, buf: &mut [u8], at: usize) -> usize {
        buf[at..at + 4].copy_from_slice(&self.to_le_bytes());
        at + 4
    }

    fn deserialize(_alloc: Global, buf: &mut &[u8]) -> Result<u32> {
        let bytes: &[u8] = *buf;
        if bytes.len() < 4 {
            return Err(Error::Corruption { at: None });
        }
        let mut low = [0u8; 4];
        low.copy_from_slice(&bytes[..4]);
        *buf = &bytes[4..];
        Ok(u32::from_le_bytes(low))
    }

    ghost short_spells = { short_spells-four };
}

impl Delimited for u32 {
    ghost one_value = { one_value-fixed 4 };

    ghost no_front = { no_front-fixed 4 };

    ghost open = { λ rest. tt };
}

/// Eight bytes, the lowest first, by the two's complement.
impl Serialize for i64 {
    ghost Meaning = { ℤ };

    ghost meaning = { λ z. z };

    ghost Spells = { SpellsSigned };

    ghost Follows = { λ rest. Unit {0} };

    ghost fits = { FitsSigned w64 };

    ghost short = { short_signed };

    ghost takes_memory = { false };

    fn can_serialize(&self) -> bool {
        let _value = *self;
        true
    }

    fn serialized_size(&self) -> u64 {
        u64::from(i64::BITS / 8)
    }

    fn serialize_into(&self, buf: &mut [u8], at: usize) -> usize {
        buf[at..at + 8].copy_from_slice(&self.to_le_bytes());
        at + 8
    }

    fn deserialize(_alloc: Global, buf: &mut &[u8]) -> Result<i64> {
        let bytes: &[u8] = *buf;
        if bytes.len() < 8 {
            return Err(Error::Corruption { at: None });
        }
        let mut low = [0u8; 8];
        low.copy_from_slice(&bytes[..8]);
        *buf = &bytes[8..];
        Ok(u64::from_le_bytes(low).cast_signed())
    }

    ghost short_spells = { short_spells-signed };
}

impl Delimited for i64 {
    ghost one_value = { one_value-signed };

    ghost no_front = { no_front-signed };

    ghost open = { λ rest. tt };
}

/// One to nine bytes: the first one tells how many follow, and the number where none does. Any
/// spelling is read, and the shortest is written.
impl Serialize for u64 {
    ghost Meaning = { ℕ };

    ghost meaning = { λ v. v };

    ghost Spells = { SpellsNumber };

    ghost Follows = { λ rest. Unit {0} };

    ghost fits = { λ v. v < 2 ^ 64 };

    ghost short = { short_number };

    ghost takes_memory = { false };

    fn can_serialize(&self) -> bool {
        let _value = *self;
        true
    }

    #[tactic(auto, using(crate::specs::SpellingLaws::short_cases))]
    fn serialized_size(&self) -> u64 {
        let value = *self;
        if value <= 240 {
            1
        } else if value <= 2287 {
            2
        } else if value <= 67823 {
            3
        } else {
            byte_count(value) as u64 + 1
        }
    }

    #[tactic(auto, using(crate::specs::SpellingLaws::short_cases))]
    fn serialize_into(&self, buf: &mut [u8], at: usize) -> usize {
        let value = *self;
        if value <= 240 {
            put_one(buf, at, value as u8)
        } else if value <= 2287 {
            let over = value - 240;
            put_two(buf, at, (over / 256) as u8 + 241, (over % 256) as u8)
        } else if value <= 67823 {
            let over = value - 2288;
            put_three(buf, at, 249, (over / 256) as u8, (over % 256) as u8)
        } else {
            put_many(buf, at, value)
        }
    }

    fn deserialize(_alloc: Global, buf: &mut &[u8]) -> Result<u64> {
        let bytes: &[u8] = *buf;
        if bytes.is_empty() {
            return Err(Error::Corruption { at: None });
        }
        let lead = bytes[0];
        if lead <= 240 {
            *buf = &bytes[1..];
            return Ok(lead as u64);
        }
        let end = 1 + more_bytes(lead);
        if bytes.len() < end {
            return Err(Error::Corruption { at: None });
        }
        let value = number_of(lead, &bytes[1..end]);
        *buf = &bytes[end..];
        Ok(value)
    }

    ghost short_spells = { short_spells-number };
}

impl Delimited for u64 {
    ghost one_value = { one_value-number };

    ghost no_front = { no_front-number };

    ghost open = { λ rest. tt };
}

// Writes a byte, and answers the index behind it.
fn put_one(buf: &mut [u8], at: usize, byte: u8) -> usize
    requires { at + 1 ≤ length buf.old }
    ensures next { result ≡ at + 1 }
    ensures bytes { buf.new ≡ written buf.old at (byte ∷ []) }
{
    buf[at] = byte;
    at + 1
}

// Writes two bytes, and answers the index behind them.
fn put_two(buf: &mut [u8], at: usize, first: u8, second: u8) -> usize
    requires { at + 2 ≤ length buf.old }
    ensures next { result ≡ at + 2 }
    ensures bytes { buf.new ≡ written buf.old at (first ∷ second ∷ []) }
{
    buf[at] = first;
    buf[at + 1] = second;
    at + 2
}

// Writes three bytes, and answers the index behind them.
fn put_three(buf: &mut [u8], at: usize, first: u8, second: u8, third: u8) -> usize
    requires { at + 3 ≤ length buf.old }
    ensures next { result ≡ at + 3 }
    ensures bytes { buf.new ≡ written buf.old at (first ∷ second ∷ third ∷ []) }
{
    buf[at] = first;
    buf[at + 1] = second;
    buf[at + 2] = third;
    at + 3
}

// How many bytes hold a number that is too great for the shorter forms.
fn byte_count(value: u64) -> usize
    ensures { result ≡ byte_count value }
{
    if value < 1 << 24 {
        3
    } else if value < 1 << 32 {
        4
    } else if value < 1 << 40 {
        5
    } else if value < 1 << 48 {
        6
    } else if value < 1 << 56 {
        7
    } else {
        8
    }
}

// Writes a lead byte and as many bytes as hold the number, and answers the index behind them.
fn put_many(buf: &mut [u8], at: usize, value: u64) -> usize
    requires { at + 1 + byte_count value ≤ length buf.old }
    ensures next { result ≡ at + 1 + byte_count value }
    ensures bytes { buf.new ≡ written buf.old at ((byte_count value + 247) ∷ low_bytes (byte_count value) value) }
{
    let count = byte_count(value);
    let end = at + 1 + count;
    let low = value.to_le_bytes();
    buf[at] = count as u8 + 247;
    buf[at + 1..end].copy_from_slice(&low[..count]);
    end
}

// How many bytes follow a lead byte.
fn more_bytes(lead: u8) -> usize
    ensures { result ≡ more_bytes lead }
{
    if lead <= 240 {
        0
    } else if lead <= 248 {
        1
    } else {
        lead as usize - 247
    }
}

// The number that a lead byte and the bytes behind it stand for.
fn number_of(lead: u8, more: &[u8]) -> u64
    requires { length more.now ≡ more_bytes lead }
    ensures value { result ≡ number_of lead more.now }
{
    if lead <= 240 {
        lead as u64
    } else if lead <= 248 {
        (lead as u64 - 241) * 256 + more[0] as u64 + 240
    } else if lead == 249 {
        more[0] as u64 * 256 + more[1] as u64 + 2288
    } else {
        let mut low = [0u8; 8];
        low[..more.len()].copy_from_slice(more);
        u64::from_le_bytes(low)
    }
}
