//! Metas: page numbers by the names of collections (`docs/FORMATS.md`, "Metas").
ghost use Rattle.std.specs.Prelude.{◌≡◌, ◌↔◌, ◌+◌, ◌^◌, ◌<◌, ◌++◌, ℕ, List, [], length, IfOk, IfErr, true};
ghost use Rattle.std.specs.Option.{SomeIff};
ghost use Rattle.sled_codec.specs.Errors.{IsCorruption, IsDecodeError};
ghost use Rattle.sled_codec.specs.Metas.{Numbers, numbers_of, numbers_in, SpellsMeta, FitsMeta, short_meta};
ghost use Rattle.sled_codec.specs.MetaLaws.{short_spells-meta};

use crate::result::{PageId, Result};
use crate::serialization::Serialize;
use std::alloc::Global;
use std::collections::BTreeMap;

/// The pages where collections begin, by their names.
#[derive(Debug, PartialEq, Drop)]
pub struct Meta {
    /// The page of each name.
    pub inner: BTreeMap<Vec<u8>, PageId>,
}

/// Each name as a byte string and its page as a number, in the order of the names, up to the end of the
/// bytes. Any order is read, and of a name that repeats the last number. It has a spelling where the
/// length of the whole fits in a `u64`.
impl Serialize for Meta {
    ghost Meaning = { Numbers };

    ghost meaning = { numbers_of };

    ghost Spells = { SpellsMeta };

    ghost Follows = { λ rest. rest ≡ [] };

    ghost fits = { FitsMeta };

    ghost short = { short_meta };

    ghost takes_memory = { true };

    fn can_serialize(&self) -> bool {
        checked_size(&self.inner).is_some()
    }

    fn serialized_size(&self) -> u64 {
        match checked_size(&self.inner) {
            Some(size) => size,
            None => 0,
        }
    }

    fn serialize_into(&self, buf: &mut [u8], at: usize) -> usize {
        let mut next = at;
        for (name, page) in &self.inner {
            let page = *page;
            next = name.serialize_into(buf, next);
            next = page.serialize_into(buf, next);
        }
        next
    }

    fn deserialize(alloc: Global, buf: &mut &[u8]) -> Result<Meta> {
        let inner = read_names(alloc, *buf)?;
        *buf = &[];
        Ok(Meta { inner })
    }

    ghost short_spells = { short_spells-meta };
}

// How many bytes are written for these, where a `u64` counts them.
fn checked_size(names: &BTreeMap<Vec<u8>, PageId>) -> Option<u64>
    ensures { SomeIff result (FitsMeta (numbers_in names.now)) (length (short_meta (numbers_in names.now))) }
{
    let mut size: u64 = 0;
    for (name, page) in names {
        let page = *page;
        let pair = name.serialized_size() + page.serialized_size();
        size = size.checked_add(pair)?;
    }
    Some(size)
}

// The names that these bytes spell, all of the bytes.
fn read_names(alloc: Global, bytes: &[u8]) -> Result<BTreeMap<Vec<u8>, PageId>>
    ensures ok { IfOk result (λ names. SpellsMeta bytes.now (numbers_in names)) }
    ensures corrupt { IsCorruption result → (m : Numbers) → SpellsMeta bytes.now m → ⊥ }
    ensures errors { IfErr result IsDecodeError }
{
    let mut rest = bytes;
    let mut names = BTreeMap::new(alloc);
    while !rest.is_empty() {
        let (name, page) = <(Vec<u8>, PageId)>::deserialize(alloc, &mut rest)?;
        names.insert(name, page)?;
    }
    Ok(names)
}
