//! The laws of the formats, each the contract of a function that does nothing.
ghost use Rattle.std.specs.Prelude.{◌≡◌, ◌≢◌, ◌^◌, ◌<◌, ◌≤◌, ℕ, List, ◌++◌, length};
ghost use Rattle.sled_codec.specs.declared.serialization.message.MessageHeader.{MessageHeader};
ghost use Rattle.sled_codec.specs.declared.serialization.message.MessageKind.{MessageKind};
ghost use Rattle.sled_codec.specs.declared.serialization.message.MessageKind.TheVariants.{Corrupted};
ghost use Rattle.sled_codec.specs.Metas.{Numbers, SpellsMeta, FitsMeta, short_meta};
ghost use Rattle.sled_codec.specs.Record.{IsRecord, short_record};
ghost use Rattle.sled_codec.specs.Spelling.{SpellsNumber, short_number, SpellsMessageHeader};
ghost use Rattle.sled_codec.specs.Snapshots.{SnapshotModel, SpellsSnapshot, FitsSnapshot, short_snapshot};

use crate::serialization::{Checksum, Delimited};

/// What was written is read again, whatever follows it: where bytes begin with the encoding that is
/// written for a value, each encoding at their front is one of that value, and leaves what follows.
pub fn read_again<T: Delimited>()
    ensures { (v : T.Meaning) (rest front back : List ℕ) (w : T.Meaning)
        → T.fits v → T.short v ++ rest ≡ front ++ back → T.Spells front w → (w ≡ v) × (back ≡ rest) }
{}

/// A `u64` takes one to nine bytes, as it is written and in any other spelling that is read; the header of a
/// message eight to thirty-two.
pub fn lengths()
    ensures written { (v : ℕ) → v < 2 ^ 64 → (1 ≤ length (short_number v)) × (length (short_number v) ≤ 9) }
    ensures read { (text : List ℕ) (v : ℕ) → SpellsNumber text v → (1 ≤ length text) × (length text ≤ 9) }
    ensures header { (text : List ℕ) (h : MessageHeader) → SpellsMessageHeader text h → (8 ≤ length text) × (length text ≤ 32) }
{}

/// What was written for a snapshot is read as that snapshot and no other, and bytes are one snapshot at
/// most.
pub fn snapshot_again()
    ensures one { (text : List ℕ) (s w : SnapshotModel) → SpellsSnapshot text s → SpellsSnapshot text w → w ≡ s }
    ensures again { (s w : SnapshotModel) → FitsSnapshot s → SpellsSnapshot (short_snapshot s) w → w ≡ s }
{}

/// What was written for a meta is read as that meta and no other, and bytes are one meta at most.
pub fn meta_again()
    ensures one { (text : List ℕ) (m n : Numbers) → SpellsMeta text m → SpellsMeta text n → n ≡ m }
    ensures again { (m n : Numbers) → FitsMeta m → SpellsMeta (short_meta m) n → n ≡ m }
{}

/// The record that is written for a message is a record of it.
pub fn written_is_record<C: Checksum>()
    ensures { (kind : MessageKind) (page number : ℕ) (body : List ℕ)
        → kind ≢ Corrupted → page < 2 ^ 64 → number < 2 ^ 64 → length body < 2 ^ 64
        → IsRecord C.sum_of (short_record C.sum_of kind page number body) kind page number body }
{}

/// Two records at the front of the same bytes are one record, of one message.
pub fn one_record<C: Checksum>()
    ensures { (a b x y : List ℕ) (kind kind' : MessageKind) (page page' number number' : ℕ) (body body' : List ℕ)
        → IsRecord C.sum_of a kind page number body → IsRecord C.sum_of b kind' page' number' body'
        → a ++ x ≡ b ++ y → (a ≡ b) × (kind ≡ kind') × (page ≡ page') × (number ≡ number') × (body ≡ body') }
{}
