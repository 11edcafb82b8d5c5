//! Pointers: a byte that tells which, the offset as a number, and the place of the blob if there is one
//! (`docs/FORMATS.md`, "Pointers").
ghost use Rattle.std.specs.Prelude.{false};
ghost use Rattle.sled_codec.specs.declared.result.DiskPtr.{DiskPtr};
ghost use Rattle.sled_codec.specs.Spelling.{SpellsPointer, FitsPointer, short_pointer};
ghost use Rattle.sled_codec.specs.PointerLaws.{short_spells-pointer, one_value-pointer, no_front-pointer};

use crate::result::{DiskPtr, Error, Result};
use crate::serialization::{Delimited, Serialize};
use std::alloc::Global;

/// 0 and the offset, or 1, the offset and the place of the blob.
impl Serialize for DiskPtr {
    ghost Meaning = { DiskPtr };

    ghost meaning = { λ pointer. pointer };

    ghost Spells = { SpellsPointer };

    ghost Follows = { λ rest. Unit {0} };

    ghost fits = { FitsPointer };

    ghost short = { short_pointer };

    ghost takes_memory = { false };

    fn can_serialize(&self) -> bool {
        match *self {
            DiskPtr::Inline(lid) => lid.can_serialize(),
            DiskPtr::Blob(lid, place) => lid.can_serialize() && place.can_serialize(),
        }
    }

    #[tactic(auto, using(crate::specs::SpellingLaws::byte_lengths))]
    fn serialized_size(&self) -> u64 {
        match *self {
            DiskPtr::Inline(lid) => 1 + lid.serialized_size(),
            DiskPtr::Blob(lid, place) => 1 + lid.serialized_size() + place.serialized_size(),
        }
    }

    fn serialize_into(&self, buf: &mut [u8], at: usize) -> usize {
        match *self {
            DiskPtr::Inline(lid) => {
                let next = 0u8.serialize_into(buf, at);
                lid.serialize_into(buf, next)
            }
            DiskPtr::Blob(lid, place) => {
                let next = 1u8.serialize_into(buf, at);
                let next = lid.serialize_into(buf, next);
                place.serialize_into(buf, next)
            }
        }
    }

    fn deserialize(alloc: Global, buf: &mut &[u8]) -> Result<DiskPtr> {
        let mut rest: &[u8] = *buf;
        let which = u8::deserialize(alloc, &mut rest)?;
        if which == 0 {
            let lid = u64::deserialize(alloc, &mut rest)?;
            *buf = rest;
            return Ok(DiskPtr::Inline(lid));
        }
        if which == 1 {
            let (lid, place) = <(u64, i64)>::deserialize(alloc, &mut rest)?;
            *buf = rest;
            return Ok(DiskPtr::Blob(lid, place));
        }
        Err(Error::Corruption { at: None })
    }

    ghost short_spells = { short_spells-pointer };
}

impl Delimited for DiskPtr {
    ghost one_value = { one_value-pointer };

    ghost no_front = { no_front-pointer };

    ghost open = { λ rest. tt };
}
