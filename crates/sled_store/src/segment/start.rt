//! Where a log begins on a log file, from a snapshot (`specs/Begin.antt`): what it asks of the snapshot, which
//! slots of the file are filled, and in which one it goes on.
ghost use Rattle.std.specs.Prelude.{[], IsTrue, ◌≡◌, ◌+◌, ◌*◌, ◌%◌, ◌^◌, ◌<◌, ℕ, List, map, replicate, is_some, IfSome, IfOk, IfErr, OnOk, OnErr};
ghost use Rattle.std.specs.BTreeMap.{get};
ghost use Rattle.std.specs.Ordering.{nat_cmp};
ghost use Rattle.sled_codec.specs.Errors.{IsCorruption, IsDecodeError};
ghost use Rattle.sled_codec.specs.Snapshots.{model_of, is_sound, stable_place};
ghost use Rattle.sled_store.specs.Script.{Performs, after_all};
ghost use Rattle.sled_store.specs.Begin.{slots_of, is_used, IsStartable, not_below, fill, filling, first_of, first_or, IsInReach, place_at, beginning_at};
ghost use Rattle.sled_store.specs.Causes.{DeviceAnswers};
ghost use Rattle.sled_store.specs.StartCauses.{CheckAnswers};
ghost use Rattle.sled_store.specs.SlotTables.{IsSlotTable};
ghost use Rattle.sled_store.specs.Started.{all_entries};

use crate::segment::slot_table::{Limits, SlotTable};
use crate::{Device, RunningConfig};
use sled_codec::result::{Error, Result};
use sled_codec::serialization::Checksum;
use sled_codec::serialization::snapshot::Snapshot;
use std::alloc::Global;

/// Where a log begins.
#[derive(Debug, Clone, Copy)]
pub struct Beginning {
    /// The beginning of its segment in the log.
    pub place: u64,
    /// The beginning of its slot in the file.
    pub slot: u64,
    /// How much of the segment is there already.
    pub offset: u64,
}

/// Which slots of a file a snapshot uses, and how many it has. `Corruption` comes where no log can begin from
/// the snapshot, whatever its places are, and `PlacesUsedUp` exactly where one can, but a segment of it would not end below 2^63.
pub fn check_snapshot(
    alloc: Global,
    size: u64,
    len: u64,
    snapshot: &Snapshot,
) -> Result<(SlotTable, u64)>
    requires some { 0 < size }
    requires small { size < 2 ^ 32 }
    ensures startable { OnOk result (IsStartable size len (model_of snapshot.now)) }
    ensures used { IfOk result (λ b. (k : ℕ) → is_some (get nat_cmp b.0.held k) ≡ is_used size (model_of snapshot.now) k) }
    ensures table { IfOk result (λ b. IsSlotTable size b.0 (all_entries (model_of snapshot.now))) }
    ensures slots { IfOk result (λ b. b.1 ≡ slots_of size len) }
    ensures corrupt { IsCorruption result → IsStartable size len (model_of snapshot.now) → ⊥ }
    ensures answers { CheckAnswers result (IsStartable size len (model_of snapshot.now)) (IsInReach size len (model_of snapshot.now)) }
{
    let table = match slot_table_of(alloc, size, len, snapshot) {
        Ok(table) => table,
        Err(e) => return Err(e),
    };
    if len >= (1 << 63) - size {
        return Err(Error::PlacesUsedUp);
    }
    let slots = slots_of(size, len);
    if slots * size >= (1 << 63) - size || place_at(size, snapshot) >= (1 << 63) - size {
        return Err(Error::PlacesUsedUp);
    }
    Ok((table, slots))
}

/// The beginning, in the log, of the segment in which a log goes on.
pub fn place_at(size: u64, snapshot: &Snapshot) -> u64
    requires some { 0 < size }
    requires small { size < 2 ^ 32 }
    ensures { result ≡ place_at size (stable_place (model_of snapshot.now).stable) (model_of snapshot.now).active }
{
    let stable = snapshot.stable_place();
    match snapshot.active_segment {
        Some(_) => stable / size * size,
        None => (stable + (size - 1)) / size * size,
    }
}

/// Where a log begins, where a new segment would get this slot.
pub fn beginning_at(size: u64, next: u64, snapshot: &Snapshot) -> Beginning
    requires some { 0 < size }
    requires small { size < 2 ^ 32 }
    requires next { next * size + size < 2 ^ 63 }
    ensures { (slots : ℕ) (free : List ℕ) → next ≡ first_or slots free → result ≡ beginning_at size slots (stable_place (model_of snapshot.now).stable) free
        (model_of snapshot.now).active }
{
    let place = place_at(size, snapshot);
    match snapshot.active_segment {
        Some(slot) => Beginning {
            place,
            slot,
            offset: snapshot.stable_place() % size,
        },
        None => Beginning {
            place,
            slot: next * size,
            offset: 0,
        },
    }
}

/// Which slots of a file a snapshot uses. `Corruption` comes where no log can begin from it.
fn slot_table_of(alloc: Global, size: u64, len: u64, snapshot: &Snapshot) -> Result<SlotTable>
    requires { 0 < size }
    ensures startable { OnOk result (IsStartable size len (model_of snapshot.now)) }
    ensures used { IfOk result (λ b. (k : ℕ) → is_some (get nat_cmp b.held k) ≡ is_used size (model_of snapshot.now) k) }
    ensures table { IfOk result (λ b. IsSlotTable size b (all_entries (model_of snapshot.now))) }
    ensures corrupt { IsCorruption result → IsStartable size len (model_of snapshot.now) → ⊥ }
    ensures errors { IfErr result IsDecodeError }
{
    if !snapshot.is_sound() {
        return Err(Error::Corruption { at: None });
    }
    let limits = Limits {
        size,
        slots: slots_of(size, len),
        stable: snapshot.stable_place(),
    };
    let mut table = SlotTable::new(alloc);
    match table.put_active(limits, snapshot.active_segment) {
        Ok(()) => {}
        Err(e) => return Err(e),
    }
    match table.put_pages(limits, &snapshot.pt) {
        Ok(()) => Ok(table),
        Err(e) => Err(e),
    }
}

/// Fills the slots of a file that are not in use with zeros, in ascending order, and then syncs it. Where
/// there are none, it does nothing. Answers the lowest of them.
pub fn fill_unused<D: Device, C: Checksum>(
    config: &mut RunningConfig<D, C>,
    table: &SlotTable,
    slots: u64,
) -> Result<Option<u64>>
    requires { slots * config.old.config.segment_size + config.old.config.segment_size < 2 ^ 63 }
    ensures first { IfOk result (λ first. first ≡ first_of (not_below (λ k. is_some (get nat_cmp table.now.held k)) slots)) }
    ensures done { OnOk result (D.trace config.new.device ≡ after_all
        (filling config.old.config.segment_size (not_below (λ k. is_some (get nat_cmp table.now.held k)) slots)) (D.trace config.old.device)) }
    ensures calls { Performs (filling config.old.config.segment_size (not_below (λ k. is_some (get nat_cmp table.now.held k)) slots))
        (D.trace config.old.device) (D.trace config.new.device) }
    ensures answers { DeviceAnswers result (D.faults config.old.device) (D.faults config.new.device) }
    ensures readable { IsCorruption result → ⊥ }
    ensures config { config.new.config ≡ config.old.config }
    ensures checksum { config.new.checksum ≡ config.old.checksum }
{
    if are_used(table, slots) {
        return Ok(None);
    }
    let zeros = vec![in config.alloc(); 0; config.config.segment_size as usize]?;
    match write_unused(config, table, slots, &zeros) {
        Ok(Some(first)) => {
            config.device.sync()?;
            Ok(Some(first))
        }
        Ok(None) => Ok(None),
        Err(e) => Err(e),
    }
}

/// Whether all slots of a file are in use.
fn are_used(table: &SlotTable, slots: u64) -> bool
    ensures { IsTrue result → not_below (λ k. is_some (get nat_cmp table.now.held k)) slots ≡ [] }
{
    for k in 0..slots {
        if !table.has(k) {
            return false;
        }
    }
    true
}

/// The same, but for the sync.
fn write_unused<D: Device, C: Checksum>(
    config: &mut RunningConfig<D, C>,
    table: &SlotTable,
    slots: u64,
    zeros: &[u8],
) -> Result<Option<u64>>
    requires zeros { zeros.now ≡ replicate config.old.config.segment_size 0 }
    requires room { slots * config.old.config.segment_size + config.old.config.segment_size < 2 ^ 63 }
    ensures first { IfOk result (λ first. first ≡ first_of (not_below (λ k. is_some (get nat_cmp table.now.held k)) slots)) }
    ensures done { OnOk result (D.trace config.new.device ≡ after_all
        (map (fill config.old.config.segment_size) (not_below (λ k. is_some (get nat_cmp table.now.held k)) slots)) (D.trace config.old.device)) }
    ensures failed { OnErr result (Performs (map (fill config.old.config.segment_size) (not_below (λ k. is_some (get nat_cmp table.now.held k)) slots))
        (D.trace config.old.device) (D.trace config.new.device)) }
    ensures answers { DeviceAnswers result (D.faults config.old.device) (D.faults config.new.device) }
    ensures readable { IsCorruption result → ⊥ }
    ensures config { config.new.config ≡ config.old.config }
    ensures checksum { config.new.checksum ≡ config.old.checksum }
{
    let mut first = None;
    for slot in 0..slots {
        if table.has(slot) {
            continue;
        }
        config
            .device
            .write_at(slot * config.config.segment_size, zeros)?;
        first = first.or(Some(slot));
    }
    Ok(first)
}

/// How many slots a file has.
pub fn slots_of(size: u64, len: u64) -> u64
    requires { 0 < size }
    ensures { result ≡ slots_of size len }
{
    len.div_ceil(size)
}
