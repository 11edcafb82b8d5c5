//! The codecs. A type that has one is `Serialize`, whose clauses say what is written and what is read
//! by the grammar of `specs/Spelling.antt`; a `Delimited` one can stand before other bytes. The grammar calls
//! an encoding a spelling.
ghost use Rattle.std.specs.Prelude.{◌≡◌, ◌↔◌, ◌+◌, ◌≤◌, ◌^◌, ◌<◌, ◌++◌, ℕ, Bool, List, length, IsTrue, IfOk, IfErr, OnErr, IsOkUnless};
ghost use Rattle.sled_codec.specs.Written.{written};
ghost use Rattle.sled_codec.specs.Errors.{IsCorruption, IsDecodeErrorOf};

use crate::result::{Error, Result};
use std::alloc::Global;

pub mod bytes;
pub mod checksum;
mod each;
pub mod laws;
pub mod message;
pub mod meta;
pub mod number;
pub mod option;
pub mod pointer;
pub mod segment;
pub mod snapshot;
pub mod tuple;

pub use checksum::{Checksum, PlaceSum};
pub use message::{BatchManifest, LogKind, MessageHeader, MessageKind, SegmentNumber};
pub use meta::Meta;
pub use segment::SegmentHeader;
pub use snapshot::{PageState, Snapshot};

/// A type whose values are written as bytes.
pub trait Serialize: Sized {
    /// What a value stands for.
    ghost Meaning: { Type 0 };

    ghost meaning: { Self → Meaning };

    /// A whole text is a spelling of it.
    ghost Spells: { List ℕ → Meaning → Type 0 };

    /// What may stand behind a spelling: anything, or nothing for a type that takes all the bytes.
    ghost Follows: { List ℕ → Type 0 };

    /// It has a spelling.
    ghost fits: { Meaning → Type 0 };

    /// The spelling that is written.
    ghost short: { Meaning → List ℕ };

    /// Whether decoding it takes memory.
    ghost takes_memory: { Bool };

    /// Returns whether the value has an encoding. The calls that encode it ask for that.
    fn can_serialize(&self) -> bool
        ensures { IsTrue result ↔ fits (meaning self.now) };

    /// Returns how many bytes are written for it.
    fn serialized_size(&self) -> u64
        requires { fits (meaning self.now) }
        ensures { result ≡ length (short (meaning self.now)) };

    /// Writes it into `buf` from the index `at` on, where there has to be room. Returns the index behind
    /// it. All other bytes stay.
    fn serialize_into(&self, buf: &mut [u8], at: usize) -> usize
        requires fits { fits (meaning self.now) }
        requires room { at + length (short (meaning self.now)) ≤ length buf.old }
        ensures next { result ≡ at + length (short (meaning self.now)) }
        ensures bytes { buf.new ≡ written buf.old at (short (meaning self.now)) };

    /// Takes an encoding off the front of `buf`, and leaves what follows it. Returns its value.
    ///
    /// # Errors
    ///
    /// `Corruption` where no front of `buf` is an encoding before what may follow one, and `OutOfMemory`
    /// where memory was refused to a type whose decoding takes memory. After an error `buf` is as it was.
    fn deserialize(alloc: Global, buf: &mut &[u8]) -> Result<Self>
        ensures ok { IfOk result (λ v. (front : List ℕ) × Spells front (meaning v) × (buf.old.now ≡ front ++ buf.new.now)) }
        ensures rest { IfOk result (λ v. Follows buf.new.now) }
        ensures corrupt { IsCorruption result → (front rest : List ℕ) (v : Meaning) → buf.old.now ≡ front ++ rest → Follows rest → Spells front v → ⊥ }
        ensures errors { IfErr result (IsDecodeErrorOf takes_memory) }
        ensures err { OnErr result (buf.new.now ≡ buf.old.now) };

    /// Returns the encoding in a vector of its own.
    ///
    /// # Errors
    ///
    /// `OutOfMemory` alone.
    final fn serialize(&self, alloc: Global) -> Result<Vec<u8>>
        requires { fits (meaning self.now) }
        ensures short { IfOk result (λ v. v.items ≡ short (meaning self.now)) }
        ensures err { IsOkUnless result Error.OutOfMemory }
    {
        let size = self.serialized_size();
        let mut bytes = vec![in alloc; 0; size as usize]?;
        self.serialize_into(&mut bytes, 0);
        Ok(bytes)
    }

    /// What is written is a spelling.
    ghost short_spells: { (v : Meaning) → fits v → Spells (short v) v };
}

/// A type whose encodings end by themselves: one encoding stands for one value, and none is a proper
/// beginning of another. So what was written is read again, whatever follows it.
pub trait Delimited: Serialize {
    ghost one_value: { (text : List ℕ) (v w : Self.Meaning) → Self.Spells text v → Self.Spells text w → v ≡ w };

    ghost no_front: { (a b x y : List ℕ) (v w : Self.Meaning) → Self.Spells a v → Self.Spells b w → a ++ x ≡ b ++ y → a ≡ b };

    ghost open: { (rest : List ℕ) → Self.Follows rest };
}
