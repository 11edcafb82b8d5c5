//! Which segments a log file has from a place on, by place (`IsOrdering`, `crates/sled_core/specs/Tail.antt`).
//!
//! The headers are read slot by slot, then the segments are sorted. `specs/Ordering.antt` says what is
//! collected before the sort.
ghost use Rattle.std.specs.Prelude.{ℤ, IsTrue, ◌≡◌, ◌⊎◌, ◌+◌, ◌%◌, ◌^◌, ◌≤◌, ◌<◌, ℕ, pos, length, true, false, IfOk, OnOk, IfSome, IfNone, Contains};
ghost use Rattle.std.specs.List.Sorted.{IsNonDecreasingBy};
ghost use Rattle.sled_codec.specs.Errors.{IsCorruption};
ghost use Rattle.sled_codec.specs.Record.{IsHeader};
ghost use Rattle.sled_store.specs.Device.{state_of};
ghost use Rattle.sled_store.specs.Causes.{DeviceAnswers};
ghost use Rattle.sled_core.specs.Keeps.{OnlyReads};
ghost use Rattle.sled_core.specs.inside.Scan.{IsFoundSegment, IsMisplaced};
ghost use Rattle.sled_core.specs.declared.iterator.Segment.{Segment};
ghost use Rattle.sled_log.specs.Recovery.{IsUnordered, IsOrdering, is_ascending};
ghost use Rattle.sled_log.specs.Ordering.{AreCollected, ShareAPlace};

use crate::snapshot::is_misplaced;
use sled_codec::result::{Error, LogOffset, Result};
use sled_codec::serialization::{Checksum, SegmentHeader};
use sled_core::iterator::Segment;
use sled_core::logger::read_at::ReadAt;
use sled_store::segment::SEG_HEADER_LEN;
use sled_store::{Device, RunningConfig};

/// Returns the segments that are found in the log file and begin at this place or above it, by place. It reads
/// the header of each slot, and nothing else.
///
/// # Errors
///
/// `Corruption` where one begins where none can, or two begin at one place; `Io` where the device failed;
/// `OutOfMemory` where memory was refused, or where the file ends so near to 2^63 that a segment in it could end
/// above that.
pub(crate) fn find_segments<D: Device, C: Checksum>(
    config: &mut RunningConfig<D, C>,
    least: u64,
) -> Result<Vec<Segment>>
    ensures ordering { IfOk result (λ v. IsOrdering C.sum_of config.old.config.segment_size (state_of (D.trace config.old.device)).log.bytes least v.items) }
    ensures small { OnOk result (length (state_of (D.trace config.old.device)).log.bytes + config.old.config.segment_size < 2 ^ 63) }
    ensures corrupt { IsCorruption result → IsUnordered C.sum_of config.old.config.segment_size (state_of (D.trace config.old.device)).log.bytes least }
    ensures answers { DeviceAnswers result (D.faults config.old.device) (D.faults config.new.device) }
    ensures reads { OnlyReads D.trace config.old config.new }
{
    let mut segments = collect_segments(config, least)?;
    segments.sort_by_key(|segment| segment.place)?;
    if !are_of_one_log(config.config.segment_size, &segments) {
        return Err(Error::Corruption { at: None });
    }
    Ok(segments)
}

/// The segments that are found and begin at this place or above it, slot by slot.
fn collect_segments<D: Device, C: Checksum>(
    config: &mut RunningConfig<D, C>,
    least: u64,
) -> Result<Vec<Segment>>
    ensures collected { IfOk result (λ v. let log = (state_of (D.trace config.old.device)).log.bytes in
        AreCollected C.sum_of config.old.config.segment_size log least v.items (length log)) }
    ensures small { OnOk result (length (state_of (D.trace config.old.device)).log.bytes + config.old.config.segment_size < 2 ^ 63) }
    ensures readable { IsCorruption result → ⊥ }
    ensures answers { DeviceAnswers result (D.faults config.old.device) (D.faults config.new.device) }
    ensures reads { OnlyReads D.trace config.old config.new }
{
    let len = config.device.len()?;
    let size = config.config.segment_size;
    if len >= (1 << 63) - size {
        return Err(Error::OutOfMemory);
    }
    let mut segments = Vec::new(config.alloc());
    let mut slot = 0;
    while slot < len {
        if let Some(segment) = find_in_slot(config, slot, least)? {
            segments.push(segment)?;
        }
        slot += size;
    }
    Ok(segments)
}

/// The segment that is found in a slot, where it begins at this place or above it.
fn find_in_slot<D: Device, C: Checksum>(
    config: &mut RunningConfig<D, C>,
    slot: LogOffset,
    least: u64,
) -> Result<Option<Segment>>
    requires { slot % config.old.config.segment_size ≡ 0 }
    ensures some { IfOk result (λ o. IfSome o (λ s. IsFoundSegment C.sum_of config.old.config.segment_size
        (state_of (D.trace config.old.device)).log.bytes least s × (s.slot ≡ slot))) }
    ensures none { IfOk result (λ o. IfNone o ((s : Segment) → IsFoundSegment C.sum_of config.old.config.segment_size
        (state_of (D.trace config.old.device)).log.bytes least s → s.slot ≡ slot → ⊥)) }
    ensures readable { IsCorruption result → ⊥ }
    ensures answers { DeviceAnswers result (D.faults config.old.device) (D.faults config.new.device) }
    ensures reads { OnlyReads D.trace config.old config.new }
{
    let mut header = [0; SEG_HEADER_LEN];
    let count = config.pread_exact_or_eof(&mut header, slot)?;
    if count < SEG_HEADER_LEN {
        return Ok(None);
    }
    Ok(segment_of(&config.checksum, &header, slot, least))
}

/// The segment of a header, where that passes and the segment begins at this place or above it.
fn segment_of<C: Checksum>(
    checksum: &C,
    bytes: &[u8; SEG_HEADER_LEN],
    slot: LogOffset,
    least: u64,
) -> Option<Segment>
    ensures slot { IfSome result (λ s. s.slot ≡ slot) }
    ensures least { IfSome result (λ s. least ≤ s.place) }
    ensures found { IfSome result (λ s. IsHeader C.sum_of bytes.now (pos s.place) s.mark) }
    ensures none { IfNone result ((place : ℕ) (mark : ℤ) → least ≤ place → IsHeader C.sum_of bytes.now (pos place) mark → ⊥) }
{
    let header = SegmentHeader::from_bytes(bytes, checksum);
    if !header.ok || header.lsn < 0 {
        return None;
    }
    let place = header.lsn as u64;
    if place < least {
        return None;
    }
    Some(Segment {
        place,
        slot,
        mark: header.max_stable_lsn,
    })
}

/// Whether segments that are sorted by place can be of one log: each begins above the one before it, where a
/// segment can begin.
fn are_of_one_log(size: u64, segments: &[Segment]) -> bool
    requires size { (0 < size) × (size < 2 ^ 32) }
    requires sorted { IsNonDecreasingBy (λ s. s.place) segments.now }
    ensures ascending { IsTrue result → is_ascending segments.now ≡ true }
    ensures placed { IsTrue result → (s : Segment) → Contains segments.now s → IsMisplaced size s → ⊥ }
    ensures not { result ≡ false → ((s : Segment) × Contains segments.now s × IsMisplaced size s) ⊎ ShareAPlace segments.now }
{
    // the lowest place at which the next one can begin
    let mut from = 0;
    for segment in segments {
        if is_misplaced(size, segment.place) || segment.place < from {
            return false;
        }
        from = segment.place + 1;
    }
    true
}
