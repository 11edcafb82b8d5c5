//! The file of a snapshot, as bytes: its spelling, how long that is, and its sum
//! (`docs/FORMATS.md`, "Snapshots").
ghost use Rattle.std.specs.Prelude.{◌≡◌, ◌<◌, ◌+◌, ◌^◌, ◌++◌, ℕ, List, length, IfOk, IfErr, IsOkUnless, IfSome, IfNone};
ghost use Rattle.sled_codec.specs.Errors.{IsCorruption, IsDecodeError};
ghost use Rattle.sled_codec.specs.Snapshots.{SnapshotModel, model_of, FitsSnapshot, short_snapshot};
ghost use Rattle.sled_codec.specs.Spelling.{low_bytes};
ghost use Rattle.sled_store.specs.SnapshotFiles.{IsSnapshotFile};

use sled_codec::result::{Error, Result};
use sled_codec::serialization::{Checksum, Serialize, Snapshot};
use std::alloc::Global;

/// How many bytes stand behind the spelling: its length and its sum.
const TRAILER_LEN: usize = 12;

/// What stands behind a spelling.
fn trailer_of<C: Checksum>(checksum: &C, text: &[u8]) -> [u8; TRAILER_LEN]
    ensures { result ≡ low_bytes 8 (length text.now) ++ low_bytes 4 (C.sum_of text.now) }
{
    let len = text.len() as u64;
    let mut trailer = [0u8; TRAILER_LEN];
    trailer[..8].copy_from_slice(&len.to_le_bytes());
    trailer[8..].copy_from_slice(&checksum.sum(text).to_le_bytes());
    trailer
}

/// The spelling in a file, where its length and its sum stand behind it.
fn text_in<'a, C: Checksum>(checksum: &C, bytes: &'a [u8]) -> Option<&'a [u8]>
    ensures found { IfSome result (λ text. bytes.now ≡ text.now ++ low_bytes 8 (length text.now) ++ low_bytes 4 (C.sum_of text.now)) }
    ensures none { IfNone result ((text : List ℕ) → bytes.now ≡ text ++ low_bytes 8 (length text) ++ low_bytes 4 (C.sum_of text) → ⊥) }
{
    if bytes.len() < TRAILER_LEN {
        return None;
    }
    let (text, trailer) = bytes.split_at(bytes.len() - TRAILER_LEN);
    if trailer != trailer_of(checksum, text).as_slice() {
        return None;
    }
    Some(text)
}

/// The snapshot whose file these bytes are.
///
/// # Errors
///
/// `Corruption` where they are the file of none, `OutOfMemory` where its tables find no room.
pub fn decode_file<C: Checksum>(alloc: Global, checksum: &C, bytes: &[u8]) -> Result<Snapshot>
    ensures ok { IfOk result (λ s. IsSnapshotFile C.sum_of bytes.now (model_of s)) }
    ensures corrupt { IsCorruption result → (s : SnapshotModel) → IsSnapshotFile C.sum_of bytes.now s → ⊥ }
    ensures errors { IfErr result IsDecodeError }
{
    match text_in(checksum, bytes) {
        Some(mut text) => Snapshot::deserialize(alloc, &mut text),
        None => Err(Error::Corruption { at: None }),
    }
}

/// The bytes of the file of a snapshot. It asks that the snapshot has an encoding (`can_serialize` tests it), and one of fewer
/// than 2^63 bytes with its trailer (`serialized_size`).
///
/// # Errors
///
/// `OutOfMemory`, and no other.
pub fn encode_file<C: Checksum>(alloc: Global, checksum: &C, snapshot: &Snapshot) -> Result<Vec<u8>>
    requires fits { FitsSnapshot (model_of snapshot.now) }
    requires small { length (short_snapshot (model_of snapshot.now)) + 12 < 2 ^ 63 }
    ensures bytes { let text = short_snapshot (model_of snapshot.now) in
        IfOk result (λ v. v.items ≡ text ++ low_bytes 8 (length text) ++ low_bytes 4 (C.sum_of text)) }
    ensures err { IsOkUnless result Error.OutOfMemory }
{
    let len = snapshot.serialized_size() as usize;
    let mut bytes = vec![in alloc; 0; len + TRAILER_LEN]?;
    write_file(checksum, snapshot, &mut bytes);
    Ok(bytes)
}

/// Writes the file of a snapshot over all of `bytes`.
fn write_file<C: Checksum>(checksum: &C, snapshot: &Snapshot, bytes: &mut [u8])
    requires fits { FitsSnapshot (model_of snapshot.now) }
    requires room { length bytes.old ≡ length (short_snapshot (model_of snapshot.now)) + 12 }
    ensures bytes { let text = short_snapshot (model_of snapshot.now) in
        bytes.new ≡ text ++ low_bytes 8 (length text) ++ low_bytes 4 (C.sum_of text) }
{
    let len = snapshot.serialize_into(bytes, 0);
    let trailer = trailer_of(checksum, &bytes[..len]);
    bytes[len..].copy_from_slice(&trailer);
}
