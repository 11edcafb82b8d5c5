//! Byte strings, whose spelling begins with their length, and `()`, which has no bytes.
ghost use Rattle.std.specs.Prelude.{◌≡◌, ◌+◌, ◌^◌, ◌<◌, ◌≤◌, ◌++◌, ℕ, List, [], length, true, false, IfOk, IfErr, OnErr};
ghost use Rattle.sled_codec.specs.Beginnings.{BeginsWithBytes};
ghost use Rattle.sled_codec.specs.Errors.{IsCorruption, IsDecodeErrorOf};
ghost use Rattle.sled_codec.specs.Spelling.{SpellsBytes, short_bytes};
ghost use Rattle.sled_codec.specs.SpellingLaws.{short_spells-bytes, one_value-bytes, no_front-bytes, one_value-nothing, no_front-nothing};
ghost use Rattle.std.proofs.Common.{refl};
ghost use Rattle.sled_codec.specs.Written.{written};

use crate::result::{Error, Result};
use crate::serialization::{Delimited, Serialize};
use std::alloc::Global;

/// No bytes.
impl Serialize for () {
    ghost Meaning = { Unit {0} };

    ghost meaning = { λ nothing. nothing };

    ghost Spells = { λ text nothing. text ≡ [] };

    ghost Follows = { λ rest. Unit {0} };

    ghost fits = { λ nothing. Unit {0} };

    ghost short = { λ nothing. [] };

    ghost takes_memory = { false };

    fn can_serialize(&self) -> bool {
        true
    }

    fn serialized_size(&self) -> u64 {
        0
    }

    fn serialize_into(&self, _buf: &mut [u8], at: usize) -> usize {
        at
    }

    fn deserialize(_alloc: Global, _buf: &mut &[u8]) -> Result<()> {
        Ok(())
    }

    ghost short_spells = { λ nothing fits. refl };
}

impl Delimited for () {
    ghost one_value = { one_value-nothing };

    ghost no_front = { no_front-nothing };

    ghost open = { λ rest. tt };
}

/// Its length as a number, and then its bytes.
impl Serialize for Vec<u8> {
    ghost Meaning = { List ℕ };

    ghost meaning = { λ bytes. bytes.items };

    ghost Spells = { SpellsBytes };

    ghost Follows = { λ rest. Unit {0} };

    ghost fits = { λ bytes. length bytes < 2 ^ 63 };

    ghost short = { short_bytes };

    ghost takes_memory = { true };

    fn can_serialize(&self) -> bool {
        true
    }

    #[tactic(auto, using(crate::specs::SpellingLaws::byte_lengths))]
    fn serialized_size(&self) -> u64 {
        let len = self.len() as u64;
        len.serialized_size() + len
    }

    #[tactic(auto, using(crate::specs::SpellingLaws::byte_lengths))]
    fn serialize_into(&self, buf: &mut [u8], at: usize) -> usize {
        let len = self.len() as u64;
        let next = len.serialize_into(buf, at);
        copy_in(self, buf, next)
    }

    // Memory is taken for bytes that are there, whatever their count says.
    fn deserialize(alloc: Global, buf: &mut &[u8]) -> Result<Vec<u8>>
        ensures ok { IfOk result (λ v. (front : List ℕ) × SpellsBytes front v.items × (buf.old.now ≡ front ++ buf.new.now)) }
        ensures rest { IfOk result (λ v. Unit {0}) }
        ensures corrupt { IsCorruption result → (front rest : List ℕ) (v : List ℕ) → buf.old.now ≡ front ++ rest → Unit {0} → SpellsBytes front v → ⊥ }
        ensures errors { IfErr result (IsDecodeErrorOf true) }
        ensures err { OnErr result (buf.new.now ≡ buf.old.now) }
        ensures memory { IfErr result (λ e. e ≡ Error.OutOfMemory → BeginsWithBytes buf.old.now) }
    {
        let mut rest: &[u8] = *buf;
        let len = u64::deserialize(alloc, &mut rest)?;
        if len > rest.len() as u64 {
            return Err(Error::Corruption { at: None });
        }
        let end = len as usize;
        let bytes = rest[..end].to_vec(alloc)?;
        *buf = &rest[end..];
        Ok(bytes)
    }

    ghost short_spells = { short_spells-bytes };
}

impl Delimited for Vec<u8> {
    ghost one_value = { one_value-bytes };

    ghost no_front = { no_front-bytes };

    ghost open = { λ rest. tt };
}

/// Writes bytes as they are over those of `buf` from the index `at` on. Returns the index behind them.
pub fn copy_in(bytes: &[u8], buf: &mut [u8], at: usize) -> usize
    requires { at + length bytes.now ≤ length buf.old }
    ensures next { result ≡ at + length bytes.now }
    ensures bytes { buf.new ≡ written buf.old at bytes.now }
{
    let end = at + bytes.len();
    buf[at..end].copy_from_slice(bytes);
    end
}
