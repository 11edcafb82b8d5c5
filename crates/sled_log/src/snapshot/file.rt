//! The snapshots on the device: reading the newest, publishing one, removing the others. The bytes
//! of such a file are `sled_store::snapshot_file`'s.
//!
//! Recovery begins from the snapshot with the greatest number. A newer one is published before the
//! others are removed, so that there is one at every moment.
ghost use Rattle.std.specs.Prelude.{◌≡◌, ◌≤ℤ◌, [], ◌∷◌, ℕ, ℤ, List, IfOk, OnOk, MatchOption, IsSome, Some, None, true, false};
ghost use Rattle.sled_codec.specs.Errors.{IsCorruption};
ghost use Rattle.sled_codec.specs.Snapshots.{SnapshotModel, model_of, is_sound};
ghost use Rattle.sled_store.specs.Device.{state_of};
ghost use Rattle.sled_store.specs.Script.{Performs, after_all};
ghost use Rattle.sled_store.specs.Causes.{DeviceAnswers};
ghost use Rattle.sled_core.specs.Keeps.{OnlyReads};
ghost use Rattle.sled_store.specs.SnapshotFiles.{IsSnapshotFile, BeginsFrom};
ghost use Rattle.sled_store.specs.SnapshotFiles.{IsDamagedSnapshot};
ghost use Rattle.sled_log.specs.WritesBack.{publishing_file, removing_snapshots, others, AreOthers, MayBeRemoved};

use sled_codec::result::{Error, Result};
use sled_codec::serialization::{Checksum, Snapshot};
use sled_store::snapshot_file::decode_file;
use sled_store::{Device, RunningConfig};

/// The greatest number that a snapshot has.
pub(crate) fn newest_number<D: Device>(device: &mut D) -> Result<Option<i64>>
    ensures number { let file = (state_of (D.trace device.old)).snapshots.file in
        IfOk result (λ o. MatchOption o ((n : ℤ) → file n ≡ None) (λ n. IsSome (file n) × ((m : ℤ) → IsSome (file m) → m ≤ℤ n))) }
    ensures answers { DeviceAnswers result (D.faults device.old) (D.faults device.new) }
    ensures readable { IsCorruption result → ⊥ }
    ensures trace { D.trace device.new ≡ D.trace device.old }
{
    let numbers = device.snapshots()?;
    Ok(numbers.last().copied())
}

/// The snapshot that recovery begins from: the one with the greatest number, or that of a log that was
/// never begun where there is none. `Corruption` comes where it is damaged.
pub(crate) fn read_newest<D: Device, C: Checksum>(
    config: &mut RunningConfig<D, C>,
) -> Result<Snapshot>
    ensures ok { IfOk result (λ s. BeginsFrom C.sum_of (state_of (D.trace config.old.device)).snapshots.file (model_of s)) }
    ensures corrupt { IsCorruption result → IsDamagedSnapshot C.sum_of (state_of (D.trace config.old.device)).snapshots.file }
    ensures answers { DeviceAnswers result (D.faults config.old.device) (D.faults config.new.device) }
    ensures reads { OnlyReads D.trace config.old config.new }
{
    match newest_number(&mut config.device)? {
        Some(number) => read_sound(config, number),
        None => Ok(Snapshot::empty(config.alloc())),
    }
}

/// The snapshot of a number that there is. `Corruption` comes where recovery can't begin from it.
fn read_sound<D: Device, C: Checksum>(
    config: &mut RunningConfig<D, C>,
    number: i64,
) -> Result<Snapshot>
    requires { IsSome ((state_of (D.trace config.old.device)).snapshots.file number) }
    ensures ok { let file = (state_of (D.trace config.old.device)).snapshots.file in
        IfOk result (λ s. (bytes : List ℕ) × (file number ≡ Some bytes) × IsSnapshotFile C.sum_of bytes (model_of s) × (is_sound (model_of s) ≡ true)) }
    ensures corrupt { let file = (state_of (D.trace config.old.device)).snapshots.file in
        IsCorruption result → (bytes : List ℕ) × (file number ≡ Some bytes) × ((s : SnapshotModel) → IsSnapshotFile C.sum_of bytes s → is_sound s ≡ false) }
    ensures answers { DeviceAnswers result (D.faults config.old.device) (D.faults config.new.device) }
    ensures reads { OnlyReads D.trace config.old config.new }
{
    let bytes = read_file(&mut config.device, number)?;
    let snapshot = decode_file(config.alloc(), &config.checksum, &bytes)?;
    if !snapshot.is_sound() {
        return Err(Error::Corruption { at: None });
    }
    Ok(snapshot)
}

/// The bytes of the snapshot of a number that there is.
fn read_file<D: Device>(device: &mut D, number: i64) -> Result<Vec<u8>>
    requires { IsSome ((state_of (D.trace device.old)).snapshots.file number) }
    ensures found { IfOk result (λ bytes. (state_of (D.trace device.old)).snapshots.file number ≡ Some bytes.items) }
    ensures answers { DeviceAnswers result (D.faults device.old) (D.faults device.new) }
    ensures readable { IsCorruption result → ⊥ }
    ensures trace { D.trace device.new ≡ D.trace device.old }
{
    Ok(device.snapshot_read(number)?)
}

/// Writes the bytes of a snapshot and gives them a number that a crash does not take back.
pub(crate) fn publish<D: Device>(device: &mut D, bytes: &[u8], number: i64) -> Result<()>
    ensures done { OnOk result (D.trace device.new ≡ after_all (publishing_file bytes.now number) (D.trace device.old)) }
    ensures calls { Performs (publishing_file bytes.now number) (D.trace device.old) (D.trace device.new) }
    ensures answers { DeviceAnswers result (D.faults device.old) (D.faults device.new) }
    ensures readable { IsCorruption result → ⊥ }
{
    device.snapshot_write(bytes)?;
    device.snapshot_publish(number)?;
    device.sync_names()?;
    Ok(())
}

/// Removes all snapshots but the one of a number. After a failure some of them may be left.
pub(crate) fn remove_others<D: Device>(device: &mut D, kept: i64) -> Result<()>
    ensures done { OnOk result ((numbers : List ℤ) × AreOthers (state_of (D.trace device.old)).snapshots.file kept numbers
        × (D.trace device.new ≡ after_all (removing_snapshots numbers) (D.trace device.old))) }
    ensures calls { (numbers : List ℤ) × MayBeRemoved (state_of (D.trace device.old)).snapshots.file kept numbers
        × Performs (removing_snapshots numbers) (D.trace device.old) (D.trace device.new) }
    ensures answers { DeviceAnswers result (D.faults device.old) (D.faults device.new) }
    ensures readable { IsCorruption result → ⊥ }
{
    let numbers = device.snapshots()?;
    remove_listed(device, &numbers, kept)
}

/// Removes the snapshots of these numbers, but the one that is kept.
fn remove_listed<D: Device>(device: &mut D, numbers: &[i64], kept: i64) -> Result<()>
    ensures done { OnOk result (D.trace device.new ≡ after_all (removing_snapshots (others kept numbers.now)) (D.trace device.old)) }
    ensures calls { Performs (removing_snapshots (others kept numbers.now)) (D.trace device.old) (D.trace device.new) }
    ensures answers { DeviceAnswers result (D.faults device.old) (D.faults device.new) }
    ensures readable { IsCorruption result → ⊥ }
{
    for number in numbers {
        remove_other(device, number, kept)?;
    }
    Ok(())
}

/// Removes the snapshot of a number, unless that is the one that is kept.
fn remove_other<D: Device>(device: &mut D, number: &i64, kept: i64) -> Result<()>
    ensures done { OnOk result (D.trace device.new ≡ after_all (removing_snapshots (others kept (number.now ∷ []))) (D.trace device.old)) }
    ensures calls { Performs (removing_snapshots (others kept (number.now ∷ []))) (D.trace device.old) (D.trace device.new) }
    ensures answers { DeviceAnswers result (D.faults device.old) (D.faults device.new) }
    ensures readable { IsCorruption result → ⊥ }
{
    let number = *number;
    if number == kept {
        return Ok(());
    }
    device.snapshot_remove(number)?;
    Ok(())
}
