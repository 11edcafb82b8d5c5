//! What recovery writes back: zeros behind the cut, a new snapshot, and then zeros over the segments that it didn't
//! read, and no blob past the cut (`specs/WritesBack.antt`).
//!
//! The table is committed first. Only then is taken away what it doesn't have, so that a recovery that is cut off
//! before finds all of it again.
ghost use Rattle.std.specs.Prelude.{◌≡◌, ◌∷◌, [], length, replicate, OnOk};
ghost use Rattle.sled_codec.specs.Errors.{IsCorruption};
ghost use Rattle.sled_codec.specs.Snapshots.{model_of, FitsSnapshot};
ghost use Rattle.sled_store.specs.Device.{state_of, Wrote, Synced};
ghost use Rattle.sled_store.specs.Script.{Performs, after_all};
ghost use Rattle.sled_store.specs.Causes.{DeviceAnswers};
ghost use Rattle.sled_core.specs.Keeps.{ConfigKept};
ghost use Rattle.sled_log.specs.WritesBack.{result_of, range_of, shredding, zeroing, HasPublished, Publishes, HasCommitted, CommitsBehind};
ghost use Rattle.sled_log.specs.WritesBack.{HasForgotten, Forgets, HasWrittenBack, WritesBack, IsWrittenBack, FitsIfNew};

use crate::snapshot::file::{publish, remove_others};
use crate::snapshot::recovery::{Recovery, ShredRange};
use sled_codec::result::{Error, LogOffset, Lsn, Result};
use sled_codec::serialization::snapshot::Snapshot;
use sled_codec::serialization::{Checksum, Serialize};
use sled_store::blob_io::gc_blobs;
use sled_store::snapshot_file::encode_file;
use sled_store::{Device, RunningConfig};

/// Writes what a recovery leaves to be written.
pub(crate) fn write_back<D: Device, C: Checksum>(
    config: &mut RunningConfig<D, C>,
    recovery: &Recovery,
) -> Result<()>
    ensures done { let size = config.old.config.segment_size in
        OnOk result (HasWrittenBack C.sum_of size (result_of recovery.now) (D.trace config.old.device) (D.trace config.new.device)) }
    ensures written { let old = state_of (D.trace config.old.device) in let new = state_of (D.trace config.new.device) in
        OnOk result (IsWrittenBack C.sum_of config.old.config.segment_size (result_of recovery.now) old new) }
    ensures calls { WritesBack C.sum_of config.old.config.segment_size (result_of recovery.now) (D.trace config.old.device) (D.trace config.new.device) }
    ensures fits { OnOk result (FitsIfNew (result_of recovery.now)) }
    ensures answers { DeviceAnswers result (D.faults config.old.device) (D.faults config.new.device) }
    ensures readable { IsCorruption result → ⊥ }
    ensures config { ConfigKept config.old config.new }
{
    commit(config, recovery)?;
    let least = recovery.snapshot.stable_lsn.unwrap_or(i64::MIN);
    forget(config, &recovery.unread, least)
}

/// Fills the rest of the active segment with zeros, and publishes a table that is new.
fn commit<D: Device, C: Checksum>(
    config: &mut RunningConfig<D, C>,
    recovery: &Recovery,
) -> Result<()>
    ensures done { OnOk result (HasCommitted C.sum_of (result_of recovery.now) (D.trace config.old.device) (D.trace config.new.device)) }
    ensures calls { CommitsBehind [] C.sum_of (result_of recovery.now) (D.trace config.old.device) (D.trace config.new.device) }
    ensures fits { OnOk result (FitsIfNew (result_of recovery.now)) }
    ensures answers { DeviceAnswers result (D.faults config.old.device) (D.faults config.new.device) }
    ensures readable { IsCorruption result → ⊥ }
    ensures config { ConfigKept config.old config.new }
{
    shred(config, recovery.shred_range)?;
    if recovery.is_new {
        return publish_new(config, &recovery.snapshot);
    }
    Ok(())
}

/// Fills a range of the log file with zeros, and syncs it.
fn shred<D: Device, C: Checksum>(
    config: &mut RunningConfig<D, C>,
    shred_range: Option<ShredRange>,
) -> Result<()>
    ensures done { OnOk result (D.trace config.new.device ≡ after_all (shredding (range_of shred_range)) (D.trace config.old.device)) }
    ensures calls { Performs (shredding (range_of shred_range)) (D.trace config.old.device) (D.trace config.new.device) }
    ensures answers { DeviceAnswers result (D.faults config.old.device) (D.faults config.new.device) }
    ensures readable { IsCorruption result → ⊥ }
    ensures config { ConfigKept config.old config.new }
{
    let Some(shred_range) = shred_range else {
        return Ok(());
    };
    let zeros = vec![in config.alloc(); 0; shred_range.len as usize]?;
    write_settled(&mut config.device, shred_range.at, &zeros)
}

/// Writes bytes to the log file, and syncs it.
fn write_settled<D: Device>(device: &mut D, at: LogOffset, bytes: &[u8]) -> Result<()>
    ensures done { OnOk result (D.trace device.new ≡ Synced ∷ Wrote at bytes.now bytes.now ∷ D.trace device.old) }
    ensures calls { Performs (Wrote at bytes.now bytes.now ∷ Synced ∷ []) (D.trace device.old) (D.trace device.new) }
    ensures answers { DeviceAnswers result (D.faults device.old) (D.faults device.new) }
    ensures readable { IsCorruption result → ⊥ }
{
    device.write_at(at, bytes)?;
    device.sync()?;
    Ok(())
}

/// Publishes a snapshot under its place, and removes all others.
fn publish_new<D: Device, C: Checksum>(
    config: &mut RunningConfig<D, C>,
    snapshot: &Snapshot,
) -> Result<()>
    ensures done { OnOk result (HasPublished C.sum_of (model_of snapshot.now) (D.trace config.old.device) (D.trace config.new.device)) }
    ensures calls { Publishes C.sum_of (model_of snapshot.now) (D.trace config.old.device) (D.trace config.new.device) }
    ensures fits { OnOk result (FitsSnapshot (model_of snapshot.now)) }
    ensures answers { DeviceAnswers result (D.faults config.old.device) (D.faults config.new.device) }
    ensures readable { IsCorruption result → ⊥ }
    ensures config { ConfigKept config.old config.new }
{
    if !snapshot.can_serialize() || snapshot.serialized_size() >= 1 << 62 {
        return Err(Error::OutOfMemory);
    }
    let number = snapshot.stable_lsn.unwrap_or(0);
    let bytes = encode_file(config.alloc(), &config.checksum, snapshot)?;
    publish(&mut config.device, &bytes, number)?;
    remove_others(&mut config.device, number)
}

/// Takes away what the table doesn't have: overwrites these segments with zeros, and then removes every blob at or
/// above a place. A crash may bring the blobs back until names are synced.
fn forget<D: Device, C: Checksum>(
    config: &mut RunningConfig<D, C>,
    unread: &[LogOffset],
    least: Lsn,
) -> Result<()>
    ensures done { let size = config.old.config.segment_size in
        OnOk result (HasForgotten size unread.now least (D.trace config.old.device) (D.trace config.new.device)) }
    ensures calls { Forgets config.old.config.segment_size unread.now least (D.trace config.old.device) (D.trace config.new.device) }
    ensures answers { DeviceAnswers result (D.faults config.old.device) (D.faults config.new.device) }
    ensures readable { IsCorruption result → ⊥ }
    ensures config { ConfigKept config.old config.new }
{
    zero_unread(config, unread)?;
    gc_blobs(config, least)
}

/// Overwrites the segments in these slots with zeros, each synced before the next one is begun.
fn zero_unread<D: Device, C: Checksum>(
    config: &mut RunningConfig<D, C>,
    unread: &[LogOffset],
) -> Result<()>
    ensures done { OnOk result (D.trace config.new.device ≡ after_all (zeroing config.old.config.segment_size unread.now) (D.trace config.old.device)) }
    ensures calls { Performs (zeroing config.old.config.segment_size unread.now) (D.trace config.old.device) (D.trace config.new.device) }
    ensures answers { DeviceAnswers result (D.faults config.old.device) (D.faults config.new.device) }
    ensures readable { IsCorruption result → ⊥ }
    ensures config { ConfigKept config.old config.new }
{
    if unread.is_empty() {
        return Ok(());
    }
    let zeros = vec![in config.alloc(); 0; config.config.segment_size as usize]?;
    zero_slots(&mut config.device, unread, &zeros)
}

/// Writes these zeros, a segment of them, over each of these slots, and syncs each.
fn zero_slots<D: Device>(device: &mut D, slots: &[LogOffset], zeros: &[u8]) -> Result<()>
    requires zeros { zeros.now ≡ replicate (length zeros.now) 0 }
    ensures done { OnOk result (D.trace device.new ≡ after_all (zeroing (length zeros.now) slots.now) (D.trace device.old)) }
    ensures calls { Performs (zeroing (length zeros.now) slots.now) (D.trace device.old) (D.trace device.new) }
    ensures answers { DeviceAnswers result (D.faults device.old) (D.faults device.new) }
    ensures readable { IsCorruption result → ⊥ }
{
    for slot in slots {
        write_settled(device, *slot, zeros)?;
    }
    Ok(())
}
