//! Items in blobs on a device in memory: what a message takes whose item goes to one, and what a copy of as many bytes takes.
ghost use Rattle.std.specs.Prelude.{◌<◌, ◌^◌, length};

use crate::figure::Shortest;
use crate::logs::{MemoryLog, complete, empty, item, started};
use sled_log::logger::LogKind;
use sled_log::reservation::Guard;
use std::io;
use std::time::Instant;

/// How many runs there are.
const RUNS: u32 = 100;

/// How long the segments are. An item of more than a quarter of that goes to a blob.
const SEGMENT_SIZE: u64 = 524288;

/// Measures a message whose item has so many bytes and goes to a blob, and a copy of them, and prints the shortest run of each.
pub fn measure(rt: &HostRuntime, name: &str, len: u32) -> io::Result<()> {
    let item = item(rt.alloc(), len)?;
    let mut message = Shortest::new();
    let mut copy = Shortest::new();
    for _ in 0..RUNS {
        time_message(rt, &item, &mut message)?;
        time_copy(rt, &item, &mut copy)?;
    }
    message.print(rt, name, "reserve and complete", 1)?;
    copy.print(rt, name, "copy", 1)
}

/// Times the first message of a log on an empty device, so that no blob of an earlier run is kept.
fn time_message(rt: &HostRuntime, item: &Vec<u8>, message: &mut Shortest) -> io::Result<()>
    requires { length item.now.items < 2 ^ 63 }
{
    let config = empty(rt.alloc(), SEGMENT_SIZE)?;
    let mut log = started(rt.alloc(), config)?;
    let guard = log.pin();
    let start = Instant::now(rt);
    let done = put(&mut log, item, &guard);
    let end = Instant::now(rt);
    guard.abandon();
    let _ = log.halt();
    done?;
    message.add(end?.duration_since(start?));
    Ok(())
}

/// Replaces a page by an item, which goes to a blob.
fn put(log: &mut MemoryLog, item: &Vec<u8>, guard: &Guard) -> io::Result<()>
    requires { length item.now.items < 2 ^ 63 }
{
    if log.fits_inline(item) {
        return Err(io::Error::other("the item is too short for a blob"));
    }
    match log.reserve(LogKind::Replace, 0, item, guard) {
        Ok(ticket) => complete(log, ticket),
        Err(_) => Err(io::Error::other("a message isn't reserved")),
    }
}

/// Times one copy of the bytes, into memory of its own as the device makes one.
fn time_copy(rt: &HostRuntime, item: &Vec<u8>, copy: &mut Shortest) -> io::Result<()> {
    let start = Instant::now(rt)?;
    let copied = item.to_vec(rt.alloc())?;
    copy.add(start.elapsed(rt)?);
    if copied.last() != item.last() {
        return Err(io::Error::other("what was copied is not what was there"));
    }
    Ok(())
}
