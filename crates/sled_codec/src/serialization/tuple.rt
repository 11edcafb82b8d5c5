//! Pairs and triples: their parts one behind another.
ghost use Rattle.std.specs.Prelude.{◌≡◌, ◌+◌, ◌^◌, ◌<◌, ◌++◌, ◌||◌, ℕ, List, length, refl};
ghost use Rattle.sled_codec.specs.Spelling.{SpellsPair};
ghost use Rattle.sled_codec.specs.PairLaws.{no_front-pair, one_first-pair, one_second-pair};

use crate::result::Result;
use crate::serialization::{Delimited, Serialize};
use std::alloc::Global;

/// The first part, and the second one behind it. The first has to end by itself. A pair has a spelling
/// where both parts have one and the length of the whole fits in a `u64`.
impl<A: Delimited + Drop, B: Serialize> Serialize for (A, B) {
    ghost Meaning = { A.Meaning × B.Meaning };

    ghost meaning = { λ p. (A.meaning p.0, B.meaning p.1) };

    ghost Spells = { λ text v. SpellsPair A.Spells B.Spells text v.0 v.1 };

    ghost Follows = { B.Follows };

    ghost fits = { λ v. A.fits v.0 × B.fits v.1 × (length (A.short v.0) + length (B.short v.1) < 2 ^ 64) };

    ghost short = { λ v. A.short v.0 ++ B.short v.1 };

    ghost takes_memory = { A.takes_memory || B.takes_memory };

    fn can_serialize(&self) -> bool {
        if !self.0.can_serialize() || !self.1.can_serialize() {
            return false;
        }
        let first = self.0.serialized_size();
        let second = self.1.serialized_size();
        first.checked_add(second).is_some()
    }

    fn serialized_size(&self) -> u64 {
        self.0.serialized_size() + self.1.serialized_size()
    }

    fn serialize_into(&self, buf: &mut [u8], at: usize) -> usize {
        let next = self.0.serialize_into(buf, at);
        self.1.serialize_into(buf, next)
    }

    fn deserialize(alloc: Global, buf: &mut &[u8]) -> Result<(A, B)> {
        let mut rest: &[u8] = *buf;
        let first = A::deserialize(alloc, &mut rest)?;
        let second = B::deserialize(alloc, &mut rest)?;
        *buf = rest;
        Ok((first, second))
    }

    ghost short_spells = { λ v fits. record {
      first = A.short v.0;
      second = B.short v.1;
      front = A.short_spells v.0 fits.0;
      back = B.short_spells v.1 fits.1;
      is = refl;
    } };
}

impl<A: Delimited + Drop, B: Delimited> Delimited for (A, B) {
    ghost use Rattle.sled_codec.specs.PairLaws.{one_value-both};

    ghost one_value = { λ text v w. one_value-both A.Spells B.Spells A.no_front A.one_value B.one_value text v w };

    ghost no_front = { λ a b x y v w. no_front-pair A.Spells B.Spells A.no_front B.no_front a b x y v.0 w.0 v.1 w.1 };

    ghost open = { B.open };
}

/// Three parts, one behind another. The first two have to end by themselves. A triple has a spelling
/// where its parts have one and the length of the whole fits in a `u64`.
impl<A: Delimited + Drop, B: Delimited + Drop, C: Serialize> Serialize for (A, B, C) {
    ghost use Rattle.sled_codec.specs.Spelling.{SpellsTriple};

    ghost Meaning = { A.Meaning × B.Meaning × C.Meaning };

    ghost meaning = { λ p. (A.meaning p.0, B.meaning p.1, C.meaning p.2) };

    ghost Spells = { λ text v. SpellsTriple A.Spells B.Spells C.Spells text v.0 v.1 v.2 };

    ghost Follows = { C.Follows };

    ghost fits = { λ v. A.fits v.0 × B.fits v.1 × C.fits v.2 × (length (A.short v.0) + length (B.short v.1) + length (C.short v.2) < 2 ^ 64) };

    ghost short = { λ v. A.short v.0 ++ B.short v.1 ++ C.short v.2 };

    ghost takes_memory = { A.takes_memory || B.takes_memory || C.takes_memory };

    fn can_serialize(&self) -> bool {
        if !self.0.can_serialize() || !self.1.can_serialize() || !self.2.can_serialize() {
            return false;
        }
        let first = self.0.serialized_size();
        let second = self.1.serialized_size();
        let third = self.2.serialized_size();
        match first.checked_add(second) {
            Some(both) => both.checked_add(third).is_some(),
            None => false,
        }
    }

    fn serialized_size(&self) -> u64 {
        self.0.serialized_size() + self.1.serialized_size() + self.2.serialized_size()
    }

    fn serialize_into(&self, buf: &mut [u8], at: usize) -> usize {
        let next = self.0.serialize_into(buf, at);
        let next = self.1.serialize_into(buf, next);
        self.2.serialize_into(buf, next)
    }

    fn deserialize(alloc: Global, buf: &mut &[u8]) -> Result<(A, B, C)> {
        let mut rest: &[u8] = *buf;
        let (first, second) = <(A, B)>::deserialize(alloc, &mut rest)?;
        let third = C::deserialize(alloc, &mut rest)?;
        *buf = rest;
        Ok((first, second, third))
    }

    ghost short_spells = { λ v fits. record {
      first = A.short v.0 ++ B.short v.1;
      second = C.short v.2;
      front = record { first = A.short v.0; second = B.short v.1; front = A.short_spells v.0 fits.0; back = B.short_spells v.1 fits.1; is = refl };
      back = C.short_spells v.2 fits.2;
      is = refl;
    } };
}

impl<A: Delimited + Drop, B: Delimited + Drop, C: Delimited> Delimited for (A, B, C) {
    ghost use Rattle.sled_codec.specs.PairLaws.{one_value-triple, no_front-triple};

    ghost one_value = { one_value-triple A.Spells B.Spells C.Spells A.no_front B.no_front A.one_value B.one_value C.one_value };

    ghost no_front = { no_front-triple A.Spells B.Spells C.Spells A.no_front B.no_front C.no_front };

    ghost open = { C.open };
}
