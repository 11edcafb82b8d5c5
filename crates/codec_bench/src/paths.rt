//! The paths whose instructions `.ci/speed` counts: each is done so many times, with no clock. What a path makes ready is the
//! same for any number of times, so that it falls out of the difference between two of them.
//!
//! Each ends with a number into which goes what each time has answered, so that a compiler can leave nothing out.
ghost use Rattle.std.specs.Prelude.{◌≡◌, ◌<◌, ◌^◌, length, IfOk};
ghost use Rattle.sled_core.specs.Fits.{pins_of};

use crate::accounts::repeat_marks;
use crate::batches::note;
use crate::freeing::{append, repeat_rounds, write_sealed};
use crate::logs::{
    MemoryLog, NoSum, empty, empty_with, flush, item, page_behind, recover, started,
};
use sled_log::device::{Device, MemDevice};
use sled_log::logger::{DiskPtr, Log, LogRead, Lsn, PageId};
use sled_log::reservation::Guard;
use std::alloc::Global;
use std::io;

/// A log on a device in memory that takes no sums, since these would hide what a copy takes.
type BareLog = Log<MemDevice, NoSum>;

/// How long the segments are, but for those of the accountant and those that come free.
const SEGMENT_SIZE: u64 = 65536;

/// How many pages are replaced in turn.
const PAGES: u64 = 1000;

/// How many messages lie ready to be read, to be met and to be recovered, and how many bytes the item of each has.
const MESSAGES: u32 = 5000;

const ITEM_LEN: u32 = 199;

/// How many messages a batch has.
const BATCH: u64 = 10;

/// How many pages the accountant has.
const MARKED_PAGES: u32 = 10000;

/// Does the path of this name so many times, and prints one line. What goes over a whole log does so as often as that many
/// messages make up whole ones.
pub fn repeat(rt: &HostRuntime, name: &str, count: u32) -> io::Result<()> {
    let sum = match name {
        "append_11" => append_many(rt.alloc(), 10, count)?,
        "append_4000" => append_many(rt.alloc(), 3997, count)?,
        "read" => read_many(rt.alloc(), count)?,
        "iterate" => iterate_many(rt.alloc(), count)?,
        "recovery" => recover_many(rt.alloc(), count)?,
        "batch" => batch_many(rt.alloc(), count)?,
        "mark" => repeat_marks(rt.alloc(), MARKED_PAGES, count)?,
        "free" => repeat_rounds(rt.alloc(), count)?,
        _ => return Err(io::Error::other("there is no path of this name")),
    };
    println!(rt; "{name}: {count} times, {sum}")
}

/// A log on an empty device.
fn bare(alloc: Global) -> io::Result<BareLog>
    ensures { IfOk result (λ log. pins_of log ≡ 0) }
{
    let config = empty_with(alloc, SEGMENT_SIZE, NoSum)?;
    started(alloc, config)
}

/// Appends so many messages with an item of so many bytes, which has their count in front of them.
fn append_many(alloc: Global, len: u32, count: u32) -> io::Result<u64> {
    let item = item(alloc, len)?;
    let mut log = bare(alloc)?;
    let guard = log.pin();
    let sum = append_all(&mut log, &item, &guard, count);
    guard.abandon();
    let _ = log.halt();
    sum
}

/// Appends so many messages with an item and settles them. A buffer is written as soon as it is sealed. Returns the sum of
/// where they lie, and of how long they are.
fn append_all(log: &mut BareLog, item: &Vec<u8>, guard: &Guard, count: u32) -> io::Result<u64>
    requires { length item.now.items < 2 ^ 63 }
{
    let mut sum = 0u64;
    let mut page = 0;
    for _ in 0..count {
        let new = append(log, item, page, guard)?;
        write_sealed(log)?;
        sum = sum
            .wrapping_add(new.pointer.lid())
            .wrapping_add(new.log_size)
            .wrapping_add(new.lsn.cast_unsigned());
        page = page_behind(page, PAGES);
    }
    flush(log)?;
    Ok(sum)
}

/// A log with messages that are settled. A pin stays out, so that each of them stays where it is.
fn filled(alloc: Global) -> io::Result<BareLog> {
    let item = item(alloc, ITEM_LEN)?;
    let mut log = bare(alloc)?;
    let guard = log.pin();
    let written = append_all(&mut log, &item, &guard, MESSAGES);
    guard.abandon();
    match written {
        Ok(_) => Ok(log),
        Err(e) => {
            let _ = log.halt();
            Err(e)
        }
    }
}

/// Reads so many messages.
fn read_many(alloc: Global, count: u32) -> io::Result<u64> {
    let mut log = filled(alloc)?;
    let sum = read_all(&mut log, alloc, count);
    let _ = log.halt();
    sum
}

/// Reads the messages of a log in turn, so many in all. Returns the sum of how long they are, and of their last bytes.
fn read_all(log: &mut BareLog, alloc: Global, count: u32) -> io::Result<u64> {
    let places = places_of(log, alloc)?;
    let mut sum = 0u64;
    let mut at = 0;
    for _ in 0..count {
        let Some(place) = places.get(at as usize) else {
            return Err(wrong());
        };
        let (page, lsn, pointer) = *place;
        let Ok(LogRead::Inline(header, bytes, len)) = log.read(page, lsn, pointer) else {
            return Err(wrong());
        };
        let last = bytes.last().copied().unwrap_or(0);
        sum = sum
            .wrapping_add(header.pid)
            .wrapping_add(u64::from(len))
            .wrapping_add(u64::from(last));
        at = page_behind(at, u64::from(MESSAGES));
    }
    Ok(sum)
}

/// The page, the place and the pointer of each message of a log.
fn places_of(log: &mut BareLog, alloc: Global) -> io::Result<Vec<(PageId, Lsn, DiskPtr)>> {
    let mut places = Vec::new(alloc);
    for item in log.iter_from(0) {
        let Ok((_, page, lsn, pointer, _)) = item else {
            return Err(wrong());
        };
        places.push((page, lsn, pointer))?;
    }
    Ok(places)
}

/// Goes over so many messages, all of a log at a time.
fn iterate_many(alloc: Global, count: u32) -> io::Result<u64> {
    let mut log = filled(alloc)?;
    let sum = iterate_all(&mut log, count);
    let _ = log.halt();
    sum
}

/// Goes over all messages of a log again and again, until these are so many. Returns the sum of where they lie, and of how long
/// they are.
fn iterate_all(log: &mut BareLog, count: u32) -> io::Result<u64> {
    let mut sum = 0u64;
    for _ in 0..count / MESSAGES {
        for item in log.iter_from(0) {
            let Ok((_, page, lsn, pointer, len)) = item else {
                return Err(wrong());
            };
            sum = sum
                .wrapping_add(page)
                .wrapping_add(lsn.cast_unsigned())
                .wrapping_add(pointer.lid())
                .wrapping_add(len);
        }
    }
    Ok(sum)
}

/// Recovers so many messages, all of a log at a time, each time from the log file alone.
fn recover_many(alloc: Global, count: u32) -> io::Result<u64> {
    let log = filled(alloc)?;
    let mut config = log.halt();
    let mut sum = 0u64;
    for _ in 0..count / MESSAGES {
        sum = sum.wrapping_add(recover(&mut config)? as u64);
        forget(&mut config.device)?;
    }
    Ok(sum)
}

/// Removes all snapshots.
fn forget(device: &mut MemDevice) -> io::Result<()> {
    for number in device.snapshots()? {
        device.snapshot_remove(number)?;
    }
    Ok(())
}

/// Notes so many batches.
fn batch_many(alloc: Global, count: u32) -> io::Result<u64> {
    let item = item(alloc, 10)?;
    let config = empty(alloc, SEGMENT_SIZE)?;
    let mut log = started(alloc, config)?;
    let guard = log.pin();
    let noted = note_all(&mut log, &item, &guard, count);
    guard.abandon();
    let end = log.reserved_offset();
    let _ = log.halt();
    noted?;
    Ok(end.cast_unsigned())
}

/// Notes so many batches and settles them. A buffer is written as soon as it is sealed and no batch is open.
fn note_all(log: &mut MemoryLog, item: &Vec<u8>, guard: &Guard, count: u32) -> io::Result<()>
    requires { length item.now.items < 2 ^ 63 }
{
    for _ in 0..count {
        note(log, item, BATCH, guard)?;
        write_sealed(log)?;
    }
    flush(log)
}

fn wrong() -> io::Error {
    io::Error::other("what was read is not what was written")
}
