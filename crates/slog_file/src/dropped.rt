//! How many bytes of the log file the next recovery makes zeros that aren't: those behind the cut in its segment, and those
//! of the segments that it finds and doesn't read.
//!
//! They are counted before the recovery, by reading alone and in its order. Where it meets damage it makes no zeros, and
//! what is counted means nothing.
ghost use Rattle.std.specs.Prelude.{◌<◌};

use crate::damage::reading::{is_from, newest};
use crate::records::{Ending, Kept, Walk, count_nonzero, count_slots, head_at, walk_over};
use sled_core::iterator::read_slot;
use sled_log::config::RunningConfig;
use sled_log::device::{Checksum, Device};
use sled_log::iobuf::MAX_MSG_HEADER_LEN;
use sled_log::result::{LogOffset, Lsn, Result};

// A segment that a recovery finds.
#[derive(Debug, Clone, Copy)]
struct Found {
    place: u64,
    slot: LogOffset,
    mark: Lsn,
}

/// Counts the bytes.
pub(crate) fn count_dropped<D: Device, C: Checksum>(
    config: &mut RunningConfig<D, C>,
) -> Result<u64> {
    let size = config.config.segment_size;
    let Ok(snapshot) = newest(config)? else {
        return Ok(0);
    };
    let least = snapshot.stable_place() / size * size;
    let found = find_from(config, least)?;
    let begin = tail_begins(size, least, &found);
    let from = found.partition_point(|part| part.place < begin);
    let Some((_, behind)) = found.split_at_checked(from) else {
        return Ok(0);
    };
    let (count, end) = tail_of(config, behind, begin)?;
    let read = match end {
        Some(_) => from.saturating_add(count),
        None => 0,
    };
    count_behind(config, &found, read, end.unwrap_or(0))
}

// The segments that begin at a place or above it, by place.
fn find_from<D: Device, C: Checksum>(
    config: &mut RunningConfig<D, C>,
    least: u64,
) -> Result<Vec<Found>> {
    let mut found = Vec::new(config.alloc());
    for index in 0..count_slots(config)? {
        let slot = index.saturating_mul(config.config.segment_size);
        if let Some((place, mark)) = head_at(config, slot)?
            && place >= least
        {
            found.push(Found { place, slot, mark })?;
        }
    }
    found.sort_by_key(|part| part.place)?;
    Ok(found)
}

// Where the tail begins.
fn tail_begins(size: u64, least: u64, found: &[Found]) -> u64
    requires { 0 < size }
{
    let mut greatest = least;
    for part in found {
        greatest = greatest.max(u64::try_from(part.mark).unwrap_or(0));
    }
    greatest / size * size
}

// How many of these segments the tail has, and where it ends, if it has one.
fn tail_of<D: Device, C: Checksum>(
    config: &mut RunningConfig<D, C>,
    found: &[Found],
    begin: u64,
) -> Result<(usize, Option<u64>)> {
    let mut place = begin;
    let mut count = 0usize;
    let mut end = None;
    for part in found {
        if part.place != place {
            break;
        }
        let walk = walk_in(config, part)?;
        count = count.saturating_add(1);
        end = Some(end_in(part, &walk));
        if !matches!(walk.ending, Ending::Full | Ending::Cap) {
            break;
        }
        place = place.saturating_add(config.config.segment_size);
    }
    Ok((count, end))
}

// Counts what stands behind the cut, where so many of the segments are read at most, in order, up to a batch that doesn't
// end below this place.
fn count_behind<D: Device, C: Checksum>(
    config: &mut RunningConfig<D, C>,
    found: &[Found],
    most: usize,
    end: u64,
) -> Result<u64> {
    let mut dropped = 0u64;
    let mut is_open = false;
    for (index, part) in found.iter().enumerate() {
        if is_open || index >= most {
            dropped = dropped.saturating_add(count_from(config, part, 0)?);
            continue;
        }
        let walk = walk_in(config, part)?;
        let open = open_batch(&walk, end);
        is_open = open.is_some();
        if is_open || index.saturating_add(1) == most {
            let stop = open.unwrap_or(end_in(part, &walk));
            dropped = dropped.saturating_add(count_from_cut(config, part, stop)?);
        }
    }
    Ok(dropped)
}

// The records of a segment that begin batches, and where all of its records end.
fn walk_in<D: Device, C: Checksum>(config: &mut RunningConfig<D, C>, part: &Found) -> Result<Walk> {
    let buf = read_slot(config, part.slot)?;
    walk_over(config, &buf, part.place, Kept::Batches)
}

// The place where the records of a segment end.
fn end_in(part: &Found, walk: &Walk) -> u64 {
    part.place
        .saturating_add(walk.end.saturating_sub(part.slot))
}

// The place of the first batch that doesn't end below a place.
fn open_batch(walk: &Walk, end: u64) -> Option<u64> {
    for record in &walk.records {
        if let Some(peg) = record.peg
            && is_from(peg, end)
        {
            return Some(record.place);
        }
    }
    None
}

// Counts what stands behind a place of a segment. Where no record has room there, the cut is the segment's end.
fn count_from_cut<D: Device, C: Checksum>(
    config: &mut RunningConfig<D, C>,
    part: &Found,
    stop: u64,
) -> Result<u64> {
    let within = stop.saturating_sub(part.place);
    if within.saturating_add(MAX_MSG_HEADER_LEN as u64) > config.config.segment_size {
        return Ok(0);
    }
    count_from(config, part, within)
}

// Counts what stands in a segment from an offset of it on.
fn count_from<D: Device, C: Checksum>(
    config: &mut RunningConfig<D, C>,
    part: &Found,
    within: u64,
) -> Result<u64> {
    let buf = read_slot(config, part.slot)?;
    Ok(count_nonzero(&buf.buf, within, u64::MAX))
}
