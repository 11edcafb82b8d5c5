//! Batches of a log on a device in memory: what one costs where they are settled one by one, some at a time and all at once.
ghost use Rattle.std.specs.Prelude.{◌<◌, ◌^◌, length};

use crate::figure::Shortest;
use crate::logs::{MemoryLog, complete, empty, flush, item, started};
use sled_log::logger::{BATCH_MANIFEST_PID, LogKind};
use sled_log::reservation::{Guard, Reservation};
use sled_log::serialization::message::BatchManifest;
use std::io;
use std::time::Instant;

/// How many batches there are in a run, how many messages each has, and how many runs there are.
const BATCHES: u32 = 10000;

const MESSAGES: u64 = 4;

const RUNS: u32 = 10;

/// How long the segments are.
const SEGMENT_SIZE: u64 = 524288;

/// How many bytes an item has.
const ITEM_LEN: u32 = 10;

/// Measures what a batch takes, where so many are settled at a time, and prints the shortest run.
pub fn measure(rt: &HostRuntime, name: &str, window: u32) -> io::Result<()> {
    let item = item(rt.alloc(), ITEM_LEN)?;
    let mut mark = Shortest::new();
    for _ in 0..RUNS {
        write(rt, &item, window, &mut mark)?;
    }
    mark.print(rt, name, "batch", BATCHES)
}

/// Writes all batches to a log on an empty device, and notes how long that takes.
fn write(rt: &HostRuntime, item: &Vec<u8>, window: u32, mark: &mut Shortest) -> io::Result<()>
    requires { length item.now.items < 2 ^ 63 }
{
    let config = empty(rt.alloc(), SEGMENT_SIZE)?;
    let mut log = started(rt.alloc(), config)?;
    let guard = log.pin();
    let start = Instant::now(rt);
    let written = note_all(&mut log, item, window, &guard);
    let end = Instant::now(rt);
    guard.abandon();
    let _ = log.halt();
    written?;
    mark.add(end?.duration_since(start?));
    Ok(())
}

/// Ends one batch after the other, and settles them, so many at a time.
fn note_all(log: &mut MemoryLog, item: &Vec<u8>, window: u32, guard: &Guard) -> io::Result<()>
    requires { length item.now.items < 2 ^ 63 }
{
    let mut left = window;
    for _ in 0..BATCHES {
        note(log, item, MESSAGES, guard)?;
        left = left.saturating_sub(1);
        if left == 0 {
            flush(log)?;
            left = window;
        }
    }
    flush(log)
}

/// Begins a batch, puts so many messages, and ends it.
pub fn note(log: &mut MemoryLog, item: &Vec<u8>, messages: u64, guard: &Guard) -> io::Result<()>
    requires { length item.now.items < 2 ^ 63 }
{
    let begun = log.reserve(LogKind::Skip, BATCH_MANIFEST_PID, &BatchManifest(0), guard);
    let Ok(manifest) = begun else {
        return Err(io::Error::other("a batch isn't begun"));
    };
    match put_all(log, item, messages, guard) {
        Ok(()) => end(log, manifest),
        Err(e) => {
            manifest.abandon();
            Err(e)
        }
    }
}

/// Replaces so many pages by an item.
fn put_all(log: &mut MemoryLog, item: &Vec<u8>, pages: u64, guard: &Guard) -> io::Result<()>
    requires { length item.now.items < 2 ^ 63 }
{
    for page in 0..pages {
        if !log.fits_inline(item) {
            return Err(io::Error::other("the item is too long for a record"));
        }
        match log.reserve(LogKind::Replace, page, item, guard) {
            Ok(ticket) => complete(log, ticket)?,
            Err(_) => return Err(io::Error::other("a message isn't reserved")),
        }
    }
    Ok(())
}

/// Ends a batch with the greatest place that was reserved.
fn end(log: &mut MemoryLog, manifest: Reservation) -> io::Result<()> {
    let peg = log.reserved_offset();
    if !(log.is_open(&manifest) && manifest.is_manifest() && log.may_end_at(&manifest, peg)) {
        manifest.abandon();
        return Err(io::Error::other("a batch may not end"));
    }
    match log.mark_writebatch(manifest, peg) {
        Ok(_) => Ok(()),
        Err(_) => Err(io::Error::other("a batch doesn't end")),
    }
}
