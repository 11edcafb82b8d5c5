//! The buffer that a log begins with, and where that lies (`specs/Begin.antt`, in sled_store), with the accountant of
//! its segments.
ghost use Rattle.std.specs.Prelude.{◌≡◌, ◌+◌, ◌<◌, ◌^◌, length, IfOk, IfErr, OnOk, IsOkUnless};
ghost use Rattle.sled_codec.specs.Snapshots.{model_of, stable_place};
ghost use Rattle.sled_store.specs.Device.{state_of};
ghost use Rattle.sled_store.specs.Accounts.{IsAccountant, MayHandOut, machine_of};
ghost use Rattle.sled_store.specs.Begin.{IsStartable, IsInReach, place_at, offset_at, beginning_of};
ghost use Rattle.sled_store.specs.Started.{FoundOrRefuses};
ghost use Rattle.sled_core.specs.inside.FirstBuffer.{IsFirstBuffer, RefusesBuffer};
ghost use Rattle.sled_core.specs.FreeSlots.{begun_machine, with_current};
ghost use Rattle.sled_core.specs.Starts.{HasMadeStart, StartCalls};

use crate::iobuf::IoBuf;
use sled_codec::result::{Error, Lsn, Result};
use sled_codec::serialization::snapshot::Snapshot;
use sled_codec::serialization::{Checksum, SegmentHeader};
use sled_store::segment::accountant::SegmentAccountant;
use sled_store::segment::start::{Beginning, beginning_at, place_at};
use sled_store::segment::{MAX_MSG_HEADER_LEN, SEG_HEADER_LEN};
use sled_store::{Device, RunningConfig};

/// Where a log begins on the log file, from a snapshot: behind the stable place in the active segment, or else
/// a segment in the slot that the accountant of segments hands out next; and the buffer of that segment. Once it has
/// the buffer's memory, the accountant starts: it fills the slots that are not used with zeros, syncs them, and cuts free ones
/// off the end of the file but for one. A segment that is begun has taken its slot from the accountant, which the log keeps.
///
/// `Corruption` comes where no log can begin from the snapshot, `PlacesUsedUp` where one can, but one more slot of the
/// file or the segment of the log would not end below 2^63; nothing was written then. `Io` comes where the device
/// failed, and `OutOfMemory` where memory was refused.
pub(crate) fn begin<D: Device, C: Checksum>(
    config: &mut RunningConfig<D, C>,
    snapshot: &Snapshot,
) -> Result<(Beginning, IoBuf, SegmentAccountant)>
    ensures beginning { IfOk result (λ b. b.0 ≡ beginning_of config.old.config.segment_size (length (state_of (D.trace config.old.device)).log.bytes)
        (model_of snapshot.now)) }
    ensures buffer { IfOk result (λ b. IsFirstBuffer C.sum_of b.0.place b.0.offset b.1) }
    ensures machine { IfOk result (λ b. machine_of b.2 ≡ begun_machine config.old.config.segment_size
        (length (state_of (D.trace config.old.device)).log.bytes) (model_of snapshot.now)) }
    ensures account { IfOk result (λ b. IsAccountant config.old.config.segment_size b.2) }
    ensures made { OnOk result (HasMadeStart config.old.config.segment_size (model_of snapshot.now) (D.trace config.old.device) (D.trace config.new.device)) }
    ensures calls { StartCalls config.old.config.segment_size (model_of snapshot.now) (D.trace config.old.device) (D.trace config.new.device) }
    ensures answers { let size = config.old.config.segment_size in let len = length (state_of (D.trace config.old.device)).log.bytes in
        FoundOrRefuses result (IsStartable size len (model_of snapshot.now)) (IsInReach size len (model_of snapshot.now))
        (D.trace config.new.device ≡ D.trace config.old.device) (D.faults config.old.device) (D.faults config.new.device) }
    ensures config { config.new.config ≡ config.old.config }
    ensures checksum { config.new.checksum ≡ config.old.checksum }
{
    let buffer = match first_buffer(config, snapshot) {
        Ok(buffer) => buffer,
        Err(e) => return Err(e),
    };
    let mut accountant = match SegmentAccountant::start(config, snapshot) {
        Ok(accountant) => accountant,
        Err(e) => return Err(e),
    };
    let next = accountant.next_slot();
    let beginning = beginning_at(config.config.segment_size, next, snapshot);
    match take_slot(config, &mut accountant, snapshot) {
        Ok(()) => Ok((beginning, buffer, accountant)),
        Err(e) => Err(e),
    }
}

/// Takes the next slot from the accountant for the segment in which a log begins, unless that one is active already.
///
/// `OutOfMemory` is its only error: where no slot is free the accountant takes memory for one more.
fn take_slot<D: Device, C: Checksum>(
    config: &mut RunningConfig<D, C>,
    accountant: &mut SegmentAccountant,
    snapshot: &Snapshot,
) -> Result<()>
    requires account { IsAccountant config.old.config.segment_size accountant.old }
    requires may { let s = model_of snapshot.now in let size = config.old.config.segment_size in
        MayHandOut size (place_at size (stable_place s.stable) s.active) (machine_of accountant.old) }
    ensures taken { let s = model_of snapshot.now in let size = config.old.config.segment_size in
        OnOk result (machine_of accountant.new ≡ with_current (place_at size (stable_place s.stable) s.active) s.active (machine_of accountant.old)) }
    ensures memory { IsOkUnless result Error.OutOfMemory }
    ensures account { IsAccountant config.old.config.segment_size accountant.new }
    ensures config { config.new ≡ config.old }
{
    if snapshot.active_segment.is_some() {
        return Ok(());
    }
    let place = place_at(config.config.segment_size, snapshot);
    accountant.next(config, place as Lsn)?;
    Ok(())
}

/// The buffer of the segment in which a log goes on: with its header where it is begun, else with none of what is
/// there already. Its mark is the place before it. Where that segment would not end below 2^63 no log begins, and
/// its header counts for nothing.
fn first_buffer<D, C: Checksum>(config: &RunningConfig<D, C>, snapshot: &Snapshot) -> Result<IoBuf>
    ensures buffer { let s = model_of snapshot.now in let size = config.now.config.segment_size in
        place_at size (stable_place s.stable) s.active + size < 2 ^ 63
        → IfOk result (λ b. IsFirstBuffer C.sum_of (place_at size (stable_place s.stable) s.active) (offset_at size (stable_place s.stable) s.active) b) }
    ensures refuses { let s = model_of snapshot.now in
        IfErr result (RefusesBuffer config.now.config.segment_size (stable_place s.stable) s.active) }
{
    let size = config.config.segment_size;
    let room = size as usize + MAX_MSG_HEADER_LEN;
    if snapshot.active_segment.is_some() {
        let offset = snapshot.stable_place() % size;
        if offset < SEG_HEADER_LEN as u64 {
            return Err(Error::Corruption { at: None });
        }
        return IoBuf::resumed(config.alloc(), offset as usize, room);
    }
    let lsn = i64::try_from(place_at(size, snapshot)).unwrap_or(0);
    let header = SegmentHeader {
        lsn,
        max_stable_lsn: lsn - 1,
        ok: true,
    };
    IoBuf::new(config.alloc(), &header.to_bytes(&config.checksum), room)
}
