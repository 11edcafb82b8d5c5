//! Blobs: items that are too large for the log. Each lies in a file of its own, named by the place of its message.
//!
//! The file of a blob is a checksum, the code of its message's kind, and the item (`docs/FORMATS.md`, "Blobs"). A
//! blob is durable before its message can be: its bytes are synced, and then its name, before a place is taken.
ghost use Rattle.std.specs.Prelude.{◌≡◌, ◌≢◌, ◌⊎◌, ◌≤◌, ◌<◌, ◌+◌, ◌++◌, ◌∷◌, [], ℕ, ℤ, List, length, true, Some, None, IfOk, OnOk, IfErr, IsOkUnless, IsSome, IsTrue, ◌↔◌, option_map};
ghost use Rattle.sled_codec.specs.Kinds.{code_of};
ghost use Rattle.sled_codec.specs.Spelling.{low_bytes};
ghost use Rattle.sled_codec.specs.Errors.{IsCorruption};
ghost use Rattle.sled_store.specs.Blobs.{blob_bytes, HoldsItem, IsDamagedBlob, KeepsBlob, IsItemOf, IsDamagedFor, IsMissing, making, removing_blobs, AreFrom, MayGo, MakeAnswers, UnlessFault, BlobAnswers, ItemAnswers, NamesBlobAt, OnDamage, RemoveAnswers};
ghost use Rattle.sled_store.specs.inside.Blobs.{from_place};
ghost use Rattle.sled_codec.specs.declared.serialization.message.MessageKind.TheVariants as kind;
ghost use Rattle.sled_store.specs.Device.{state_of, BlobRemoved};
ghost use Rattle.sled_store.specs.Script.{Performs, after_all};

use crate::{Device, RunningConfig};
use sled_codec::result::{DiskPtr, Error, Lsn, Result};
use sled_codec::serialization::{Checksum, MessageKind, Serialize};
use std::alloc::Global;
use std::io::ErrorKind;

/// The checksum and the kind of a blob, in bytes.
const BLOB_HEADER_LEN: usize = 5;

/// Makes the blob of a message of this kind at this place, with this item, and syncs its bytes and then names: after
/// Ok every crash keeps it whole.
///
/// # Errors
///
/// `Io` of kind `AlreadyExists` where a blob is at that place, and `OutOfMemory`: nothing was changed then. `Io` else
/// where the device failed: the blob may be there or not, with any bytes.
pub fn write_blob<D: Device, C: Checksum, T: Serialize>(
    config: &mut RunningConfig<D, C>,
    kind: MessageKind,
    place: Lsn,
    item: &T,
) -> Result<()>
    requires fits { T.fits (T.meaning item.now) }
    ensures done { let bytes = blob_bytes C.sum_of (code_of kind) (T.short (T.meaning item.now)) in
        OnOk result (D.trace config.new.device ≡ after_all (making place bytes) (D.trace config.old.device)) }
    ensures kept { let bytes = blob_bytes C.sum_of (code_of kind) (T.short (T.meaning item.now)) in
        OnOk result (KeepsBlob (state_of (D.trace config.new.device)) place bytes) }
    ensures calls { let bytes = blob_bytes C.sum_of (code_of kind) (T.short (T.meaning item.now)) in
        Performs (making place bytes) (D.trace config.old.device) (D.trace config.new.device) }
    ensures answers { let file = (state_of (D.trace config.old.device)).blobs.file place in
        MakeAnswers result file (D.faults config.old.device) (D.faults config.new.device) }
    ensures refused { UnlessFault result (D.trace config.old.device) (D.trace config.new.device) }
    ensures config { config.new.config ≡ config.old.config }
    ensures checksum { config.new.checksum ≡ config.old.checksum }
{
    let bytes = encode_blob(config.alloc(), &config.checksum, kind, item)?;
    make_blob(&mut config.device, place, &bytes)
}

/// Returns the bytes of a blob. Its one error is `OutOfMemory`.
fn encode_blob<C: Checksum, T: Serialize>(
    alloc: Global,
    checksum: &C,
    kind: MessageKind,
    item: &T,
) -> Result<Vec<u8>>
    requires { T.fits (T.meaning item.now) }
    ensures bytes { IfOk result (λ v. v.items ≡ blob_bytes C.sum_of (code_of kind) (T.short (T.meaning item.now))) }
    ensures err { IsOkUnless result Error.OutOfMemory }
{
    let len = item.serialized_size() as usize;
    let Some(whole) = len.checked_add(BLOB_HEADER_LEN) else {
        return Err(Error::OutOfMemory);
    };
    let mut bytes = vec![in alloc; 0; whole]?;
    fill_blob(checksum, kind, item, &mut bytes);
    Ok(bytes)
}

/// Writes a blob over all of `bytes`.
fn fill_blob<C: Checksum, T: Serialize>(checksum: &C, kind: MessageKind, item: &T, bytes: &mut [u8])
    requires fits { T.fits (T.meaning item.now) }
    requires room { length bytes.old ≡ length (T.short (T.meaning item.now)) + 5 }
    ensures { bytes.new ≡ blob_bytes C.sum_of (code_of kind) (T.short (T.meaning item.now)) }
{
    bytes[4] = u8::from(kind);
    item.serialize_into(bytes, BLOB_HEADER_LEN);
    let sum = checksum.sum(&bytes[4..]);
    bytes[..4].copy_from_slice(&sum.to_le_bytes());
}

/// Makes a blob of these bytes, and syncs it and then names.
fn make_blob<D: Device>(device: &mut D, place: Lsn, bytes: &[u8]) -> Result<()>
    ensures done { OnOk result (D.trace device.new ≡ after_all (making place bytes.now) (D.trace device.old)) }
    ensures kept { OnOk result (KeepsBlob (state_of (D.trace device.new)) place bytes.now) }
    ensures calls { Performs (making place bytes.now) (D.trace device.old) (D.trace device.new) }
    ensures answers { MakeAnswers result ((state_of (D.trace device.old)).blobs.file place) (D.faults device.old) (D.faults device.new) }
    ensures refused { UnlessFault result (D.trace device.old) (D.trace device.new) }
{
    device.blob_create(place, bytes)?;
    device.blob_sync(place)?;
    device.sync_names()?;
    Ok(())
}

/// Returns the kind and the item of the blob at a place. A kind that isn't known is `Corrupted`.
///
/// # Errors
///
/// `Io` of kind `NotFound` where there is none. `Corruption` where it has fewer than five bytes, and with the blob's
/// place where its checksum fails. `Io` else where the device failed, and `OutOfMemory`. Nothing is changed by any.
pub fn read_blob<D: Device, C: Checksum>(
    config: &mut RunningConfig<D, C>,
    place: Lsn,
) -> Result<(MessageKind, Vec<u8>)>
    ensures item { let file = (state_of (D.trace config.old.device)).blobs.file place in
        IfOk result (λ r. (bytes : List ℕ) × (file ≡ Some bytes) × HoldsItem C.sum_of bytes r.0 r.1.items) }
    ensures answers { let file = (state_of (D.trace config.old.device)).blobs.file place in
        BlobAnswers C.sum_of place result file (D.faults config.old.device) (D.faults config.new.device) }
    ensures trace { D.trace config.new.device ≡ D.trace config.old.device }
    ensures config { config.new.config ≡ config.old.config }
    ensures checksum { config.new.checksum ≡ config.old.checksum }
{
    let bytes = config.device.blob_read(place)?;
    decode_blob(config.alloc(), &config.checksum, place, &bytes)
}

/// Returns what the bytes of the blob at a place hold.
fn decode_blob<C: Checksum>(
    alloc: Global,
    checksum: &C,
    place: Lsn,
    bytes: &[u8],
) -> Result<(MessageKind, Vec<u8>)>
    ensures item { IfOk result (λ r. HoldsItem C.sum_of bytes.now r.0 r.1.items) }
    ensures answers { BlobAnswers C.sum_of place result (Some bytes.now) 0 0 }
{
    if bytes.len() < BLOB_HEADER_LEN {
        return Err(Error::Corruption { at: None });
    }
    let (sum, rest) = bytes.split_at(4);
    if sum != checksum.sum(rest).to_le_bytes().as_slice() {
        return Err(Error::Corruption {
            at: Some(DiskPtr::Blob(0, place)),
        });
    }
    let item = Vec::from_slice(alloc, &rest[1..])?;
    Ok((MessageKind::from(rest[0]), item))
}

/// Returns the item of a message of this kind whose blob is at a place, and `None` where that is missing.
///
/// # Errors
///
/// `Corruption` where the blob has fewer than five bytes or is of another kind, and with the blob's place where its
/// checksum fails. `Io` where the device failed, and `OutOfMemory`. Nothing is changed by any.
pub fn read_item<D: Device, C: Checksum>(
    config: &mut RunningConfig<D, C>,
    wanted: MessageKind,
    place: Lsn,
) -> Result<Option<Vec<u8>>>
    requires { wanted ≢ kind.Corrupted }
    ensures item { IfOk result (λ o. IsItemOf C.sum_of wanted ((state_of (D.trace config.old.device)).blobs.file place) (option_map (λ v. v.items) o)) }
    ensures damaged { IsCorruption result → IsDamagedFor C.sum_of wanted ((state_of (D.trace config.old.device)).blobs.file place) }
    ensures named { OnDamage result (NamesBlobAt C.sum_of (state_of (D.trace config.old.device)).blobs.file place) }
    ensures answers { let blobs = (state_of (D.trace config.old.device)).blobs.file in
        ItemAnswers C.sum_of blobs result (D.faults config.old.device) (D.faults config.new.device) }
    ensures trace { D.trace config.new.device ≡ D.trace config.old.device }
    ensures config { config.new.config ≡ config.old.config }
    ensures checksum { config.new.checksum ≡ config.old.checksum }
{
    match read_blob(config, place) {
        Ok((kind, item)) => {
            if kind != wanted {
                return Err(Error::Corruption { at: None });
            }
            Ok(Some(item))
        }
        Err(e) => {
            if is_missing(&e) {
                return Ok(None);
            }
            Err(e)
        }
    }
}

/// Whether it says that nothing is under a name.
fn is_missing(e: &Error) -> bool
    ensures { IsTrue result ↔ IsMissing e.now }
{
    match e {
        Error::Io(e) => e.kind() == ErrorKind::NotFound,
        _ => false,
    }
}

/// Removes the blob at a place. Where it is missing, nothing changes. A crash may bring it back until names are
/// synced.
///
/// # Errors
///
/// `Io` where the device failed: the blob may be there or not.
pub fn remove_blob<D: Device, C: Checksum>(
    config: &mut RunningConfig<D, C>,
    place: Lsn,
) -> Result<()>
    ensures done { OnOk result (D.trace config.new.device ≡ BlobRemoved place true ∷ D.trace config.old.device) }
    ensures calls { Performs (removing_blobs (place ∷ [])) (D.trace config.old.device) (D.trace config.new.device) }
    ensures answers { RemoveAnswers result (D.faults config.old.device) (D.faults config.new.device) }
    ensures memory { IfErr result (λ e. e ≢ Error.OutOfMemory) }
    ensures config { config.new.config ≡ config.old.config }
    ensures checksum { config.new.checksum ≡ config.old.checksum }
{
    config.device.blob_remove(place)?;
    Ok(())
}

/// Removes every blob at or above a place, in ascending order. A crash may bring them back until names are synced.
///
/// # Errors
///
/// `OutOfMemory` where they could not be listed: nothing was changed. `Io` where the device failed: some of them may
/// be left.
pub fn gc_blobs<D: Device, C: Checksum>(config: &mut RunningConfig<D, C>, least: Lsn) -> Result<()>
    ensures done { let file = (state_of (D.trace config.old.device)).blobs.file in
        OnOk result ((places : List ℤ) × AreFrom file least places
        × (D.trace config.new.device ≡ after_all (removing_blobs places) (D.trace config.old.device))) }
    ensures calls { let file = (state_of (D.trace config.old.device)).blobs.file in
        (places : List ℤ) × MayGo file least places × Performs (removing_blobs places) (D.trace config.old.device) (D.trace config.new.device) }
    ensures answers { RemoveAnswers result (D.faults config.old.device) (D.faults config.new.device) }
    ensures refused { UnlessFault result (D.trace config.old.device) (D.trace config.new.device) }
    ensures config { config.new.config ≡ config.old.config }
    ensures checksum { config.new.checksum ≡ config.old.checksum }
{
    let places = config.device.blobs()?;
    remove_listed(&mut config.device, &places, least)
}

/// Removes the blobs of these places from one on.
fn remove_listed<D: Device>(device: &mut D, places: &[i64], least: Lsn) -> Result<()>
    ensures done { OnOk result (D.trace device.new ≡ after_all (removing_blobs (from_place least places.now)) (D.trace device.old)) }
    ensures calls { Performs (removing_blobs (from_place least places.now)) (D.trace device.old) (D.trace device.new) }
    ensures answers { RemoveAnswers result (D.faults device.old) (D.faults device.new) }
    ensures memory { IfErr result (λ e. e ≢ Error.OutOfMemory) }
{
    for place in places {
        remove_from(device, place, least)?;
    }
    Ok(())
}

/// Removes the blob of a place, where that is this one or above.
fn remove_from<D: Device>(device: &mut D, place: &i64, least: Lsn) -> Result<()>
    ensures done { OnOk result (D.trace device.new ≡ after_all (removing_blobs (from_place least (place.now ∷ []))) (D.trace device.old)) }
    ensures calls { Performs (removing_blobs (from_place least (place.now ∷ []))) (D.trace device.old) (D.trace device.new) }
    ensures answers { RemoveAnswers result (D.faults device.old) (D.faults device.new) }
    ensures memory { IfErr result (λ e. e ≢ Error.OutOfMemory) }
{
    let place = *place;
    if place < least {
        return Ok(());
    }
    device.blob_remove(place)?;
    Ok(())
}
