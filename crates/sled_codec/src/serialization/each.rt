//! Values one behind another, with nothing between them (`docs/FORMATS.md`, "Page states").
ghost use Rattle.std.specs.Prelude.{◌≡◌, ◌↔◌, ◌+◌, ◌≤◌, ◌<◌, ◌^◌, ◌++◌, ℕ, List, [], length, map, IfOk, IfErr, OnErr, MatchOption, IsTrue};
ghost use Rattle.std.specs.List.{All, flat_map};
ghost use Rattle.sled_codec.specs.Errors.{IsCorruption, IsDecodeError};
ghost use Rattle.sled_codec.specs.Spelling.{SpellsEach, FitsEach};
ghost use Rattle.sled_codec.specs.Written.{written};

use crate::result::Result;
use crate::serialization::{Delimited, Serialize};
use std::alloc::Global;

/// Whether each of these values has a spelling, and the length of them all is a `u64`.
pub(crate) fn can_serialize_each<T: Serialize>(values: &[T]) -> bool
    ensures { IsTrue result ↔ FitsEach T.fits T.short (map T.meaning values.now) }
{
    let mut size: u64 = 0;
    for value in values {
        if !value.can_serialize() {
            return false;
        }
        match size.checked_add(value.serialized_size()) {
            Some(more) => size = more,
            None => return false,
        }
    }
    true
}

/// How many bytes are written for them.
pub(crate) fn size_of_each<T: Serialize>(values: &[T]) -> u64
    requires { FitsEach T.fits T.short (map T.meaning values.now) }
    ensures { result ≡ length (flat_map T.short (map T.meaning values.now)) }
{
    let mut size = 0;
    for value in values {
        size += value.serialized_size();
    }
    size
}

/// Writes them into `buf` from the index `at` on, where there has to be room, and answers the index
/// behind them.
pub(crate) fn serialize_each<T: Serialize>(values: &[T], buf: &mut [u8], at: usize) -> usize
    requires fits { All T.fits (map T.meaning values.now) }
    requires room { at + length (flat_map T.short (map T.meaning values.now)) ≤ length buf.old }
    ensures next { result ≡ at + length (flat_map T.short (map T.meaning values.now)) }
    ensures bytes { buf.new ≡ written buf.old at (flat_map T.short (map T.meaning values.now)) }
{
    let mut next = at;
    for value in values {
        next = value.serialize_into(buf, next);
    }
    next
}

/// Takes so many values off the front of `buf`.
pub(crate) fn deserialize_many<T: Delimited + Drop>(
    alloc: Global,
    count: usize,
    buf: &mut &[u8],
) -> Result<Vec<T>>
    ensures ok { IfOk result (λ vs. (front : List ℕ) × SpellsEach T.Spells front (map T.meaning vs.items) × (buf.old.now ≡ front ++ buf.new.now)) }
    ensures count { IfOk result (λ vs. length vs.items ≡ count) }
    ensures corrupt { IsCorruption result → (front rest : List ℕ) (vs : List T.Meaning)
        → length vs ≡ count → buf.old.now ≡ front ++ rest → SpellsEach T.Spells front vs → ⊥ }
    ensures errors { IfErr result IsDecodeError }
    ensures err { OnErr result (buf.new.now ≡ buf.old.now) }
{
    let mut rest: &[u8] = *buf;
    let mut values = Vec::new(alloc);
    for _ in 0..count {
        let value = T::deserialize(alloc, &mut rest)?;
        values.push(value)?;
    }
    *buf = rest;
    Ok(values)
}

/// The values that these bytes spell, all of the bytes. No value may be spelled by no bytes.
pub(crate) fn deserialize_all<T: Delimited + Drop>(alloc: Global, bytes: &[u8]) -> Result<Vec<T>>
    requires { (v : T.Meaning) → T.Spells [] v → ⊥ }
    ensures ok { IfOk result (λ vs. SpellsEach T.Spells bytes.now (map T.meaning vs.items)) }
    ensures corrupt { IsCorruption result → (vs : List T.Meaning) → SpellsEach T.Spells bytes.now vs → ⊥ }
    ensures errors { IfErr result IsDecodeError }
{
    let mut rest = bytes;
    let mut values = Vec::new(alloc);
    while !rest.is_empty() {
        let value = T::deserialize(alloc, &mut rest)?;
        values.push(value)?;
    }
    Ok(values)
}
