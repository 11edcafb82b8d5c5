//! A first program on a segment log: it puts one message into a log, reads it back, and finds it again after a
//! restart; then it recovers an empty device of its own, under a checksum of its own (`docs/USING.md`).
#![tactic(auto)]

mod checksum;
mod counting;

use crate::checksum::Times31;
use crate::counting::Counting;
use anyhow::{Result, bail, ensure};
use sled_log::config::{Config, RunningConfig};
use sled_log::device::{Checksum, MemDevice, PlaceSum};
use sled_log::logger::{Log, LogKind, LogRead, PageId};
use sled_log::reservation::Guard;
use sled_log::snapshot::read_snapshot_or_default;

fn main(rt: HostRuntime) -> Result<()> {
    let alloc = rt.alloc();
    let item = vec![in alloc; 7u8; 3]?;
    let Some(size) = Config::new(256) else {
        bail!("256 bytes is no size of a segment");
    };
    let mut config = RunningConfig::new(alloc, size, MemDevice::new(alloc), PlaceSum);
    let snapshot = read_snapshot_or_default(&mut config)?;
    let mut log = match Log::start(config, &snapshot) {
        Ok(log) => log,
        Err((e, _config)) => return Err(e.into()),
    };
    // A log and a guard can't be dropped. So what may fail is a function of its own, and both end behind it,
    // whatever it returns. The pin stays out until then: after a crash a log can only be counted on if a pin
    // was out while a completed message was unmarked, and this program marks none.
    let guard = log.pin();
    let read = put(&mut log, &guard, 0, &item);
    guard.abandon();
    let mut config = log.halt();
    println!(rt; "page 0 is {:?}", read?)?;
    let snapshot = read_snapshot_or_default(&mut config)?;
    println!(rt;
        "recovered: {} page, and the log goes on at {:?}",
        snapshot.pt.len(),
        snapshot.stable_lsn
    )?;
    count_calls(&rt, size)
}

// Replaces a page by an item, makes that durable, and returns what is then read: the item's encoding.
fn put(
    log: &mut Log<MemDevice, PlaceSum>,
    guard: &Guard,
    page: PageId,
    item: &Vec<u8>,
) -> Result<Vec<u8>> {
    ensure!(log.fits_inline(item), "the item is too long for a record");
    let ticket = log.reserve(LogKind::Replace, page, item, guard)?;
    let (place, pointer) = log.complete(ticket)?;
    ensure!(log.none_open(), "another reservation is open");
    log.flush()?;
    ensure!(place <= log.stable_offset(), "not durable");
    match log.read(page, place, pointer)? {
        LogRead::Inline(_, bytes, _) => Ok(bytes),
        _ => bail!("no message is there"),
    }
}

// Recovers an empty device that counts its calls. The recovery syncs the log file and the names, asks for the length of the
// file and for the snapshots, and reads the first slot: five calls. The sum is 31 * (31 * 1 + 2) + 3.
fn count_calls(rt: &HostRuntime, size: Config) -> Result<()> {
    let alloc = rt.alloc();
    let device = Counting::new(MemDevice::new(alloc));
    let mut config = RunningConfig::new(alloc, size, device, Times31);
    let snapshot = read_snapshot_or_default(&mut config)?;
    let calls = config.device.calls();
    println!(rt;
        "an empty device: {} pages, found by {calls} calls",
        snapshot.pt.len()
    )?;
    println!(rt; "the sum over 1, 2, 3 is {}", Times31.sum(&[1, 2, 3]))?;
    Ok(())
}
