//! Flags, and numbers that may be missing.
ghost use Rattle.std.specs.Prelude.{◌≡◌, ◌^◌, ◌<◌, ℕ, ℤ, List, Bool, false, Option, length, FitsSigned};
ghost use Rattle.std.specs.Int.{w64};
ghost use Rattle.sled_codec.specs.Spelling.{SpellsBool, short_bool, SpellsNumber, short_number, or_zero, number_or_zero, SpellsSigned, short_signed, or_zero_signed};
ghost use Rattle.sled_codec.specs.OptionLaws.{short_spells-bool, one_value-bool, no_front-bool, one_value-option, one_value-option_signed};
ghost use Rattle.sled_codec.specs.SpellingLaws.{short_spells-number, no_front-number, short_spells-signed, no_front-signed};

use crate::result::Result;
use crate::serialization::{Delimited, Serialize};
use std::alloc::Global;
use std::num::NonZeroU64;

/// One byte: 0 for false, 1 for true. Any other byte reads as true.
impl Serialize for bool {
    ghost Meaning = { Bool };

    ghost meaning = { λ v. v };

    ghost Spells = { SpellsBool };

    ghost Follows = { λ rest. Unit {0} };

    ghost fits = { λ v. Unit {0} };

    ghost short = { short_bool };

    ghost takes_memory = { false };

    fn can_serialize(&self) -> bool {
        true
    }

    fn serialized_size(&self) -> u64 {
        1
    }

    fn serialize_into(&self, buf: &mut [u8], at: usize) -> usize {
        buf[at] = if *self { 1 } else { 0 };
        at + 1
    }

    fn deserialize(alloc: Global, buf: &mut &[u8]) -> Result<bool> {
        Ok(u8::deserialize(alloc, buf)? != 0)
    }

    ghost short_spells = { short_spells-bool };
}

impl Delimited for bool {
    ghost one_value = { one_value-bool };

    ghost no_front = { no_front-bool };

    ghost open = { λ rest. tt };
}

/// As a number: 0 where it is missing, and else one more than it is. The greatest has no spelling.
impl Serialize for Option<u64> {
    ghost Meaning = { Option ℕ };

    ghost meaning = { λ v. v };

    ghost Spells = { λ text v. SpellsNumber text (or_zero v) };

    ghost Follows = { λ rest. Unit {0} };

    ghost fits = { λ v. or_zero v < 2 ^ 64 };

    ghost short = { λ v. short_number (or_zero v) };

    ghost takes_memory = { false };

    fn can_serialize(&self) -> bool {
        match *self {
            None => true,
            Some(value) => value < u64::MAX,
        }
    }

    fn serialized_size(&self) -> u64 {
        or_zero(*self).serialized_size()
    }

    fn serialize_into(&self, buf: &mut [u8], at: usize) -> usize {
        or_zero(*self).serialize_into(buf, at)
    }

    fn deserialize(alloc: Global, buf: &mut &[u8]) -> Result<Option<u64>> {
        match u64::deserialize(alloc, buf)? {
            0 => Ok(None),
            number => Ok(Some(number - 1)),
        }
    }

    ghost short_spells = { λ v fits. short_spells-number (or_zero v) fits };
}

impl Delimited for Option<u64> {
    ghost one_value = { one_value-option };

    ghost no_front = { λ a b x y v w. no_front-number a b x y (or_zero v) (or_zero w) };

    ghost open = { λ rest. tt };
}

// The number that is written.
fn or_zero(value: Option<u64>) -> u64
    requires { or_zero value < 2 ^ 64 }
    ensures { result ≡ or_zero value }
{
    match value {
        None => 0,
        Some(value) => value + 1,
    }
}

/// As a signed number: 0 where it is missing, a negative one itself, and else one more than it is. The
/// greatest has no spelling.
impl Serialize for Option<i64> {
    ghost Meaning = { Option ℤ };

    ghost meaning = { λ v. v };

    ghost Spells = { λ text v. SpellsSigned text (or_zero_signed v) };

    ghost Follows = { λ rest. Unit {0} };

    ghost fits = { λ v. FitsSigned w64 (or_zero_signed v) };

    ghost short = { λ v. short_signed (or_zero_signed v) };

    ghost takes_memory = { false };

    fn can_serialize(&self) -> bool {
        match *self {
            None => true,
            Some(value) => value < i64::MAX,
        }
    }

    fn serialized_size(&self) -> u64 {
        or_zero_signed(*self).serialized_size()
    }

    fn serialize_into(&self, buf: &mut [u8], at: usize) -> usize {
        or_zero_signed(*self).serialize_into(buf, at)
    }

    fn deserialize(alloc: Global, buf: &mut &[u8]) -> Result<Option<i64>> {
        let number = i64::deserialize(alloc, buf)?;
        Ok(if number == 0 {
            None
        } else if number < 0 {
            Some(number)
        } else {
            Some(number - 1)
        })
    }

    ghost short_spells = { λ v fits. short_spells-signed (or_zero_signed v) fits };
}

impl Delimited for Option<i64> {
    ghost one_value = { one_value-option_signed };

    ghost no_front = { λ a b x y v w. no_front-signed a b x y (or_zero_signed v) (or_zero_signed w) };

    ghost open = { λ rest. tt };
}

// The number that is written.
fn or_zero_signed(value: Option<i64>) -> i64
    requires { FitsSigned w64 (or_zero_signed value) }
    ensures { result ≡ or_zero_signed value }
{
    match value {
        None => 0,
        Some(value) if value < 0 => value,
        Some(value) => value + 1,
    }
}

/// As a number: 0 where it is missing, and else itself. So it stands for that number.
impl Serialize for Option<NonZeroU64> {
    ghost use Rattle.sled_codec.specs.Spelling.{number_or_zero};

    ghost Meaning = { ℕ };

    ghost meaning = { number_or_zero };

    ghost Spells = { SpellsNumber };

    ghost Follows = { λ rest. Unit {0} };

    ghost fits = { λ v. v < 2 ^ 64 };

    ghost short = { short_number };

    ghost takes_memory = { false };

    fn can_serialize(&self) -> bool {
        number_or_zero(*self).can_serialize()
    }

    fn serialized_size(&self) -> u64 {
        number_or_zero(*self).serialized_size()
    }

    fn serialize_into(&self, buf: &mut [u8], at: usize) -> usize {
        number_or_zero(*self).serialize_into(buf, at)
    }

    fn deserialize(alloc: Global, buf: &mut &[u8]) -> Result<Option<NonZeroU64>> {
        match u64::deserialize(alloc, buf) {
            Ok(number) => Ok(NonZeroU64::new(number)),
            Err(e) => Err(e),
        }
    }

    ghost short_spells = { short_spells-number };
}

impl Delimited for Option<NonZeroU64> {
    ghost use Rattle.sled_codec.specs.SpellingLaws.{one_value-number};

    ghost one_value = { one_value-number };

    ghost no_front = { no_front-number };

    ghost open = { λ rest. tt };
}

// The number that is written.
fn number_or_zero(value: Option<NonZeroU64>) -> u64
    ensures { result ≡ number_or_zero value }
{
    match value {
        None => 0,
        Some(value) => value.get(),
    }
}
