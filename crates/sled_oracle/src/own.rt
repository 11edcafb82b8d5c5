//! Whether only what the log itself wrote passes as its own in what a crash left: a plain, slow reading of
//! `NoForeign`, the premise of what is proved of recovery (`docs/DEFINITIONS.md`, "NoForeign").
//!
//! A device keeps its past in its proof alone. So a test that chooses its crashes by this notes the past itself, as
//! lists of writes and of files.
ghost use Rattle.std.specs.Prelude.{◌≡◌, ◌↔◌, ◌<◌, ℕ, List, IsTrue, IfOk, IfSome, IfNone, IsOkUnless};
ghost use Rattle.sled_store.specs.Blobs.{blob_bytes, IsDamagedBlob};
ghost use Rattle.sled_store.specs.Device.{State};
ghost use Rattle.sled_core.specs.Recoverable.{NoForeign, NoHeaderOfZeros};
ghost use Rattle.sled_oracle.specs.OwnPast.{IsSomeBlob, IsSomeSnapshot, IsPast, content_of_files};

use crate::foreign::names::{FileKind, NamedFile, NamesPast, are_names_own};
use crate::foreign::{LogPast, is_log_own};
use sled_codec::result::{Error, Result};
use sled_codec::serialization::{Checksum, MessageKind, SegmentHeader};
use sled_store::snapshot_file::decode_file;
use std::alloc::Global;

/// What a test noted of the past of a device.
#[derive(Drop)]
pub struct Past {
    /// Of the log file.
    pub log: LogPast,
    /// Of the blobs, each under its place.
    pub blobs: NamesPast,
    /// Of the snapshots, each under its number.
    pub snapshots: NamesPast,
}

/// What a crash left. Of two files under one name the first counts.
#[derive(Drop)]
pub struct LeftFiles {
    /// The bytes of the log file.
    pub log: Vec<u8>,
    /// The blobs, each under its place.
    pub blobs: Vec<NamedFile>,
    /// The snapshots, each under its number.
    pub snapshots: Vec<NamedFile>,
}

/// Blobs, of which one with a checksum that fits and a kind that is known passes.
pub struct BlobFiles;

impl FileKind for BlobFiles {
    ghost use Rattle.sled_oracle.specs.OwnPast.{IsSomeBlob};

    ghost Passes = { IsSomeBlob };

    fn passes<C: Checksum>(_alloc: Global, checksum: &C, bytes: &[u8]) -> Result<bool> {
        Ok(is_blob(checksum, bytes))
    }
}

/// Snapshots, of which one passes that is encoded whole, with a length and a checksum that fit.
pub struct SnapshotFiles;

impl FileKind for SnapshotFiles {
    ghost use Rattle.sled_oracle.specs.OwnPast.{IsSomeSnapshot};

    ghost Passes = { IsSomeSnapshot };

    fn passes<C: Checksum>(alloc: Global, checksum: &C, bytes: &[u8]) -> Result<bool> {
        match decode_file(alloc, checksum, bytes) {
            Ok(_) => Ok(true),
            Err(Error::Corruption { at: _ }) => Ok(false),
            Err(e) => Err(e),
        }
    }
}

// The code of the kind in the bytes of a blob whose checksum fits.
fn blob_code<C: Checksum>(checksum: &C, bytes: &[u8]) -> Option<u8>
    ensures found { IfSome result (λ code. (item : List ℕ) × (bytes.now ≡ blob_bytes C.sum_of code item)) }
    ensures none { IfNone result (IsDamagedBlob C.sum_of bytes.now) }
{
    if bytes.len() < 5 {
        return None;
    }
    let (sum, rest) = bytes.split_at(4);
    if sum != checksum.sum(rest).to_le_bytes().as_slice() {
        return None;
    }
    Some(rest[0])
}

// Whether bytes are a blob that passes.
fn is_blob<C: Checksum>(checksum: &C, bytes: &[u8]) -> bool
    ensures { IsTrue result ↔ IsSomeBlob C.sum_of bytes.now }
{
    match blob_code(checksum, bytes) {
        Some(code) => u8::from(MessageKind::from(code)) == code,
        None => false,
    }
}

// Whether zeros pass as no header of a segment.
fn has_no_header_of_zeros<C: Checksum>(checksum: &C) -> bool
    ensures { IsTrue result ↔ NoHeaderOfZeros C.sum_of }
{
    !SegmentHeader::from_bytes(&[0u8; 20], checksum).ok
}

/// Returns whether nothing is foreign in what a crash left: whether only what the log itself wrote passes as its
/// own, in the log file with segments of this size, in blobs and in snapshots, and zeros pass as no header.
///
/// # Errors
///
/// `OutOfMemory` alone.
pub fn nothing_is_foreign<C: Checksum>(
    alloc: Global,
    checksum: &C,
    size: u64,
    past: &Past,
    left: &LeftFiles,
) -> Result<bool>
    requires { 0 < size }
    ensures own { IfOk result (λ b. (s : State) → IsPast past.now s → IsTrue b ↔ NoForeign C.sum_of size s (content_of_files left.now)) }
    ensures err { IsOkUnless result Error.OutOfMemory }
{
    let log = is_log_own(alloc, checksum, size, &past.log, &left.log)?;
    let blobs = are_names_own::<BlobFiles, C>(alloc, checksum, &past.blobs, &left.blobs)?;
    let snapshots = are_names_own::<SnapshotFiles, C>(
        alloc,
        checksum,
        &past.snapshots,
        &left.snapshots,
    )?;
    Ok(log && blobs && snapshots && has_no_header_of_zeros(checksum))
}
