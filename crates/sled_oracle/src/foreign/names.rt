//! Whether only files that were written under their names pass in what a crash left: a plain, slow reading of
//! `NoForeignNames` in `specs/Foreign.antt` of `sled_store`, for blobs and for snapshots.
ghost use Rattle.std.specs.Prelude.{◌≡◌, ◌↔◌, ℕ, ℤ, List, IsTrue, IfOk, IsOkUnless, Some, Contains};
ghost use Rattle.sled_store.specs.Device.{NamesState, file_named};
ghost use Rattle.sled_store.specs.Foreign.{NoForeignNames};
ghost use Rattle.sled_oracle.specs.OwnNames.{IsOwnFile, AreNoted};

use sled_codec::result::{Error, Result};
use sled_codec::serialization::Checksum;
use std::alloc::Global;
use std::marker::Model;

/// A file under a name: a blob under its place, or a snapshot under its number.
#[derive(Drop)]
pub struct NamedFile {
    name: i64,
    bytes: Vec<u8>,
}

impl Model for NamedFile {
    ghost use Rattle.std.specs.Prelude.{ℕ, ℤ, List};

    ghost Value = { ℤ × List ℕ };

    ghost view = { λ file. (file.name, file.bytes.items) };
}

impl NamedFile {
    /// Returns a file with these bytes under a name.
    pub fn new(name: i64, bytes: Vec<u8>) -> NamedFile
        ensures { result ≡ (name, bytes.items) }
    {
        NamedFile { name, bytes }
    }
}

/// What a test noted of the past of blobs, or of snapshots.
#[derive(Drop)]
pub struct NamesPast {
    /// The files that stood under their names when names were last synced; bytes that were never synced are lost.
    pub settled: Vec<NamedFile>,
    /// What was asked to be written under each name since it was settled.
    pub asked: Vec<NamedFile>,
}

/// A kind of files, which tells those that pass as one: with a checksum that fits, say.
pub trait FileKind {
    ghost Passes: { (List ℕ → ℕ) → List ℕ → Type 0 };

    /// Returns whether bytes pass as a file of this kind.
    ///
    /// # Errors
    ///
    /// `OutOfMemory` alone.
    fn passes<C: Checksum>(alloc: Global, checksum: &C, bytes: &[u8]) -> Result<bool>
        ensures passes { IfOk result (λ b. IsTrue b ↔ Passes C.sum_of bytes.now) }
        ensures err { IsOkUnless result Error.OutOfMemory };
}

// Whether a file stands under a name, by the first one of a list that has it.
fn is_file(files: &[NamedFile], name: i64, bytes: &[u8]) -> bool
    ensures { IsTrue result ↔ (file_named files.now name ≡ Some bytes.now) }
{
    for file in files {
        if file.name == name {
            return file.bytes.as_slice() == bytes;
        }
    }
    false
}

// Whether these bytes were asked to be written under a name.
fn was_asked(files: &[NamedFile], name: i64, bytes: &[u8]) -> bool
    ensures { IsTrue result ↔ Contains files.now (name, bytes.now) }
{
    for file in files {
        if file.name == name && file.bytes.as_slice() == bytes {
            return true;
        }
    }
    false
}

// Whether a file was written under its name, where it stands there and passes.
fn file_is_own<K: FileKind, C: Checksum>(
    alloc: Global,
    checksum: &C,
    past: &NamesPast,
    left: &[NamedFile],
    file: &NamedFile,
) -> Result<bool>
    ensures own { IfOk result (λ b. IsTrue b ↔ IsOwnFile (K.Passes C.sum_of) past.now left.now file.now) }
    ensures err { IsOkUnless result Error.OutOfMemory }
{
    let (name, bytes) = (file.name, file.bytes.as_slice());
    if !is_file(left, name, bytes) || is_file(&past.settled, name, bytes) {
        return Ok(true);
    }
    if was_asked(&past.asked, name, bytes) {
        return Ok(true);
    }
    let passes = K::passes(alloc, checksum, bytes)?;
    Ok(!passes)
}

/// Returns whether each file that a crash left and that passes was written under its name: it is the settled one, or
/// was asked for since. `left` lists the files that are there; of two under one name the first counts.
///
/// # Errors
///
/// `OutOfMemory` alone.
pub fn are_names_own<K: FileKind, C: Checksum>(
    alloc: Global,
    checksum: &C,
    past: &NamesPast,
    left: &[NamedFile],
) -> Result<bool>
    ensures own { IfOk result (λ b. (s : NamesState) → AreNoted past.now s → IsTrue b ↔ NoForeignNames (K.Passes C.sum_of) s (file_named left.now)) }
    ensures err { IsOkUnless result Error.OutOfMemory }
{
    for file in left {
        let own = file_is_own::<K, C>(alloc, checksum, past, left, file)?;
        if !own {
            return Ok(false);
        }
    }
    Ok(true)
}
