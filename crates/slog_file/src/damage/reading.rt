//! The search for what is damaged.
ghost use Rattle.std.specs.Prelude.{◌<◌};

use crate::damage::fit::unfit;
use crate::damage::table::Table;
use crate::damage::{Damage, Damaged, Kind};
use crate::named_files::{Fault, Faulty, blob_kind, snapshot_in};
use crate::records::{Ending, Record, Slot, Walk, count_slots, read};
use sled_core::iterator::begins_from;
use sled_log::config::RunningConfig;
use sled_log::device::{Checksum, Device};
use sled_log::iobuf::MAX_MSG_HEADER_LEN;
use sled_log::logger::{LogOffset, MessageKind};
use sled_log::result::{Lsn, PageId, Result};
use sled_log::snapshot::Snapshot;
use std::io::ErrorKind;

// A segment that a recovery finds.
#[derive(Drop)]
struct Part {
    place: u64,
    slot: LogOffset,
    mark: Lsn,
    walk: Walk,
}

// The damage of a file, where one is met.
type Met = std::result::Result<(), Damage>;

/// The damage that a recovery meets first, or one that it meets too.
pub(crate) fn find<D: Device, C: Checksum>(
    config: &mut RunningConfig<D, C>,
) -> Result<Option<Damage>> {
    let snapshot = match newest(config)? {
        Ok(snapshot) => snapshot,
        Err(damage) => return Ok(Some(damage)),
    };
    let size = config.config.segment_size;
    let least = snapshot.stable_place() / size * size;
    let table = Table::of(config.alloc(), &snapshot)?;
    match find_from(config, least, Some(table))? {
        Ok(()) => unfit(config, &snapshot),
        Err(damage) => Ok(Some(damage)),
    }
}

/// The damage that the messages from a place on have. They make no table.
pub(crate) fn find_behind<D: Device, C: Checksum>(
    config: &mut RunningConfig<D, C>,
    from: Lsn,
) -> Result<Option<Damage>> {
    let least = begins_from(config.config.segment_size, from);
    Ok(find_from(config, least, None)?.err())
}

// The damage of the segments that begin at a place or above it, and of the table that they make.
fn find_from<D: Device, C: Checksum>(
    config: &mut RunningConfig<D, C>,
    least: u64,
    table: Option<Table>,
) -> Result<Met> {
    let parts = match ordered(config, least)? {
        Ok(parts) => parts,
        Err(damage) => return Ok(Err(damage)),
    };
    let begin = tail_begins(config.config.segment_size, least, &parts);
    over_parts(config, &parts, begin, table)
}

/// The newest snapshot, or what is wrong with it.
pub(crate) fn newest<D: Device, C: Checksum>(
    config: &mut RunningConfig<D, C>,
) -> Result<std::result::Result<Snapshot, Damage>> {
    let numbers = config.device.snapshots()?;
    let Some(number) = numbers.last().copied() else {
        return Ok(Ok(Snapshot::empty(config.alloc())));
    };
    let bytes = config.device.snapshot_read(number)?;
    match snapshot_in(config.alloc(), &config.checksum, &bytes)? {
        Ok(snapshot) => Ok(Ok(snapshot)),
        Err(faulty) => Ok(Err(of_file(Damaged::Snapshot(number), faulty))),
    }
}

fn of_file(file: Damaged, faulty: Faulty) -> Damage {
    Damage {
        file,
        at: faulty.0,
        kind: Kind::File(faulty.1),
    }
}

/// A damage of the log file.
pub(crate) fn of_log(at: LogOffset, kind: Kind) -> Damage {
    Damage {
        file: Damaged::Log,
        at,
        kind,
    }
}

// The segments that begin at a place or above it, by place.
fn ordered<D: Device, C: Checksum>(
    config: &mut RunningConfig<D, C>,
    least: u64,
) -> Result<std::result::Result<Vec<Part>, Damage>> {
    let mut parts = Vec::new(config.alloc());
    for index in 0..count_slots(config)? {
        let slot = index.saturating_mul(config.config.segment_size);
        match read(config, slot)? {
            Slot::Segment { place, mark, walk } if place >= least => parts.push(Part {
                place,
                slot,
                mark,
                walk,
            })?,
            Slot::Misplaced { place, mark: _ } if is_from(place, least) => {
                return Ok(Err(of_log(slot, Kind::Misplaced(place))));
            }
            _ => {}
        }
    }
    parts.sort_by_key(|part| part.place)?;
    match doubled(&parts) {
        Some(damage) => Ok(Err(damage)),
        None => Ok(Ok(parts)),
    }
}

/// Whether a place is not below another.
pub(crate) fn is_from(place: Lsn, least: u64) -> bool {
    match u64::try_from(place) {
        Ok(place) => place >= least,
        Err(_) => false,
    }
}

// Two segments of one place.
fn doubled(parts: &[Part]) -> Option<Damage> {
    let mut before: Option<(u64, LogOffset)> = None;
    for part in parts {
        match before {
            Some((place, slot)) if place == part.place => {
                return Some(of_log(part.slot, Kind::Twice(place, slot)));
            }
            _ => before = Some((part.place, part.slot)),
        }
    }
    None
}

// Where the tail begins.
fn tail_begins(size: u64, least: u64, parts: &[Part]) -> u64
    requires { 0 < size }
{
    let mut greatest = least;
    for part in parts {
        greatest = greatest.max(u64::try_from(part.mark).unwrap_or(0));
    }
    greatest / size * size
}

// Goes over the tail, and then over all that a recovery makes its table of.
fn over_parts<D: Device, C: Checksum>(
    config: &mut RunningConfig<D, C>,
    parts: &[Part],
    begin: u64,
    table: Option<Table>,
) -> Result<Met> {
    let from = parts.partition_point(|part| part.place < begin);
    let Some((before, behind)) = parts.split_at_checked(from) else {
        return Ok(Ok(()));
    };
    let (count, end) = tail_of(config.config.segment_size, behind, begin);
    let Some((tail, _)) = behind.split_at_checked(count) else {
        return Ok(Ok(()));
    };
    for part in tail {
        if let Err(damage) = over_tail(config, part)? {
            return Ok(Err(damage));
        }
    }
    match end {
        Some(end) => over_table(config, before, tail, end, table),
        None => Ok(Ok(())),
    }
}

// How many segments the tail has, and where it ends.
fn tail_of(size: u64, parts: &[Part], begin: u64) -> (usize, Option<u64>) {
    let mut place = begin;
    let mut count = 0usize;
    let mut end = None;
    for part in parts {
        if part.place != place {
            break;
        }
        count = count.saturating_add(1);
        end = Some(place.saturating_add(part.walk.end.saturating_sub(part.slot)));
        if !matches!(part.walk.ending, Ending::Full | Ending::Cap) {
            break;
        }
        place = place.saturating_add(size);
    }
    (count, end)
}

// All records of a segment of the tail, and their blobs.
fn over_tail<D: Device, C: Checksum>(config: &mut RunningConfig<D, C>, part: &Part) -> Result<Met> {
    if part.walk.ending == Ending::Malformed {
        return Ok(Err(of_log(part.walk.end, Kind::Malformed)));
    }
    for record in &part.walk.records {
        if let Err(damage) = is_there(config, record)? {
            return Ok(Err(damage));
        }
    }
    Ok(Ok(()))
}

// Whether the item of a record is there: in the record, or as a blob, which may be damaged.
fn is_there<D: Device, C: Checksum>(
    config: &mut RunningConfig<D, C>,
    record: &Record,
) -> Result<std::result::Result<bool, Damage>> {
    let Some(place) = record.blob else {
        return Ok(Ok(true));
    };
    let bytes = match config.device.blob_read(place) {
        Ok(bytes) => bytes,
        Err(error) if error.kind() == ErrorKind::NotFound => return Ok(Ok(false)),
        Err(error) => return Err(error.into()),
    };
    match blob_kind(&config.checksum, &bytes) {
        Ok(kind) if kind == record.kind => Ok(Ok(true)),
        Ok(_) => Ok(Err(of_file(Damaged::Blob(place), (4, Fault::OtherKind)))),
        Err(faulty) => Ok(Err(of_file(Damaged::Blob(place), faulty))),
    }
}

// Goes over all segments up to the end, and makes the table of pages.
fn over_table<D: Device, C: Checksum>(
    config: &mut RunningConfig<D, C>,
    before: &[Part],
    tail: &[Part],
    end: u64,
    table: Option<Table>,
) -> Result<Met> {
    let mut table = table;
    let size = config.config.segment_size;
    for part in before.iter().chain(tail) {
        match over_part(config, part, end, &mut table)? {
            Ok(Some(stop)) => return Ok(concluded(size, &table, part, stop)),
            Ok(None) => {}
            Err(damage) => return Ok(Err(damage)),
        }
    }
    Ok(match tail.last() {
        Some(part) => concluded(size, &table, part, end),
        None => Ok(()),
    })
}

// Applies what a segment has, up to a batch that doesn't end below the end, whose place it answers.
fn over_part<D: Device, C: Checksum>(
    config: &mut RunningConfig<D, C>,
    part: &Part,
    end: u64,
    table: &mut Option<Table>,
) -> Result<std::result::Result<Option<u64>, Damage>> {
    for record in &part.walk.records {
        if let Some(peg) = record.peg
            && is_from(peg, end)
        {
            return Ok(Ok(Some(record.place)));
        }
        match is_there(config, record)? {
            Ok(true) => {
                if let Err(damage) = applied(table, record)? {
                    return Ok(Err(damage));
                }
            }
            Ok(false) => {}
            Err(damage) => return Ok(Err(damage)),
        }
    }
    if part.walk.ending == Ending::Malformed {
        return Ok(Err(of_log(part.walk.end, Kind::Malformed)));
    }
    Ok(Ok(None))
}

// Applies a record to the table, where one is made.
fn applied(table: &mut Option<Table>, record: &Record) -> Result<Met> {
    let Some(table) = table else {
        return Ok(Ok(()));
    };
    if is_message(record.kind) && record.page == PageId::MAX {
        return Ok(Err(of_log(record.offset, Kind::NoPage)));
    }
    table.apply(record)?;
    Ok(Ok(()))
}

// Whether a record changes a page.
fn is_message(kind: MessageKind) -> bool {
    !matches!(
        kind,
        MessageKind::Corrupted
            | MessageKind::Canceled
            | MessageKind::Cap
            | MessageKind::BatchManifest
    )
}

// Whether the table can be one, and the place where the reading of a segment stopped is that of a cut.
fn concluded(size: u64, table: &Option<Table>, part: &Part, stop: u64) -> Met {
    let Some(table) = table else {
        return Ok(());
    };
    let left = part.place.saturating_add(size).saturating_sub(stop);
    let cut = if left < MAX_MSG_HEADER_LEN as u64 {
        part.place.saturating_add(size)
    } else {
        stop
    };
    if cut < table.least() {
        let kind = Kind::EndsBelow(cut, table.least());
        return Err(of_log(
            part.slot.saturating_add(stop.saturating_sub(part.place)),
            kind,
        ));
    }
    match table.fault() {
        Some((at, kind)) => Err(of_log(at, kind)),
        None => Ok(()),
    }
}
