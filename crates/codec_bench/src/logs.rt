//! Logs on a device in memory, with the sum for tests: what is measured of a log goes over these.
ghost use Rattle.std.specs.Prelude.{◌≡◌, ◌<◌, ◌^◌, false, length, IfOk};
ghost use Rattle.sled_core.specs.Fits.{IsOpen, pins_of};
ghost use Rattle.sled_core.specs.Tickets.{is_manifest_of};

use crate::figure::{RUNS, Shortest};
use sled_core::iterator::read_slot;
use sled_core::iterator::scan::scan;
use sled_log::config::{Config, RunningConfig};
use sled_log::device::{Checksum, MemDevice, PlaceSum};
use sled_log::logger::{Log, LogKind, PageId};
use sled_log::reservation::{Guard, Reservation};
use sled_log::snapshot::{Snapshot, read_snapshot_or_default};
use std::alloc::{AllocError, Global};
use std::io;
use std::time::Instant;

/// A log on a device in memory, with the sum for tests.
pub type MemoryLog = Log<MemDevice, PlaceSum>;

/// What such a log runs on.
pub type Running = RunningConfig<MemDevice, PlaceSum>;

/// The same number for all bytes: with it a log is measured without what a checksum takes.
#[derive(Debug, Clone, Copy)]
pub struct NoSum;

impl Checksum for NoSum {
    ghost sum_of = { λ bytes. 0 };

    fn sum(&self, _bytes: &[u8]) -> u32 {
        0
    }
}

/// How many pages are replaced, one behind another and again from the first. Each takes one byte in a header.
const PAGES: u64 = 200;

/// How many messages go over many segments, and how many pages they replace.
pub const MESSAGES: u32 = 100000;

pub const MANY_PAGES: u64 = 10000;

/// How often they are measured.
const SEGMENT_RUNS: u32 = 10;

/// The segments that are filled.
const SEGMENT_SIZE: u64 = 524288;

/// The longest segments that there are.
const LONGEST_SEGMENT: u64 = 8388608;

/// What a log in segments of this size runs on, on a device that has nothing yet.
pub fn empty(alloc: Global, segment_size: u64) -> io::Result<Running> {
    empty_with(alloc, segment_size, PlaceSum)
}

/// The same with another checksum.
pub fn empty_with<C: Checksum + Drop>(
    alloc: Global,
    segment_size: u64,
    checksum: C,
) -> io::Result<RunningConfig<MemDevice, C>> {
    match Config::new(segment_size) {
        Some(config) => Ok(RunningConfig::new(alloc, config, MemDevice::new(alloc), checksum)),
        None => Err(io::Error::other("no segments have this size")),
    }
}

/// A log that begins on such a device.
pub fn started<C: Checksum + Drop>(
    alloc: Global,
    config: RunningConfig<MemDevice, C>,
) -> io::Result<Log<MemDevice, C>>
    ensures { IfOk result (λ log. pins_of log ≡ 0) }
{
    match Log::start(config, &Snapshot::empty(alloc)) {
        Ok(log) => Ok(log),
        Err(_) => Err(io::Error::other("the log can't begin")),
    }
}

/// An item of so many bytes and their count.
pub fn item(alloc: Global, len: u32) -> Result<Vec<u8>, AllocError> {
    let mut bytes = Vec::new(alloc);
    for i in 0..len {
        bytes.push((i % 251) as u8)?;
    }
    Ok(bytes)
}

/// Replaces one page after another by an item until one more has begun the next segment, so that the first one is sealed,
/// and answers how many messages these are.
fn fill<C: Checksum>(log: &mut Log<MemDevice, C>, item: &Vec<u8>, guard: &Guard) -> io::Result<u32>
    requires { length item.now.items < 2 ^ 63 }
{
    let mut page = 0;
    for count in 0..u32::MAX {
        if log.pending() > 0 {
            return Ok(count);
        }
        if !log.fits_inline(item) {
            return Err(io::Error::other("the item is too long for a record"));
        }
        match log.reserve(LogKind::Replace, page, item, guard) {
            Ok(ticket) => complete(log, ticket)?,
            Err(_) => return Err(io::Error::other("a message isn't reserved")),
        }
        page = page_behind(page, PAGES);
    }
    Ok(u32::MAX)
}

/// The page that is replaced behind another one of so many.
pub fn page_behind(page: u64, pages: u64) -> u64 {
    let next = page.wrapping_add(1);
    if next >= pages {
        return 0;
    }
    next
}

/// Replaces one page after another by an item, segment after segment.
fn replace_many<C: Checksum>(
    log: &mut Log<MemDevice, C>,
    item: &Vec<u8>,
    guard: &Guard,
) -> io::Result<()>
    requires { length item.now.items < 2 ^ 63 }
{
    let mut page = 0;
    for _ in 0..MESSAGES {
        if !log.fits_inline(item) {
            return Err(io::Error::other("the item is too long for a record"));
        }
        match log.reserve(LogKind::Replace, page, item, guard) {
            Ok(ticket) => complete(log, ticket)?,
            Err(_) => return Err(io::Error::other("a message isn't reserved")),
        }
        page = page_behind(page, MANY_PAGES);
    }
    Ok(())
}

/// Completes a message.
pub fn complete<C: Checksum>(log: &mut Log<MemDevice, C>, ticket: Reservation) -> io::Result<()>
    requires awaited { IsOpen log.old ticket }
    requires message { is_manifest_of ticket ≡ false }
{
    match log.complete(ticket) {
        Ok(_) => Ok(()),
        Err(_) => Err(io::Error::other("a message isn't completed")),
    }
}

/// Settles what was completed.
pub fn flush<C: Checksum>(log: &mut Log<MemDevice, C>) -> io::Result<()> {
    if !log.none_open() {
        return Err(io::Error::other("a message isn't completed"));
    }
    match log.flush() {
        Ok(_) => Ok(()),
        Err(_) => Err(io::Error::other("the messages aren't settled")),
    }
}

/// Goes over all messages of the log, and answers how many these are.
fn iterate<C: Checksum>(log: &mut Log<MemDevice, C>) -> io::Result<u32> {
    let mut messages: u32 = 0;
    for item in log.iter_from(0) {
        if item.is_err() {
            return Err(io::Error::other("a message isn't met"));
        }
        messages = messages.saturating_add(1);
    }
    Ok(messages)
}

/// Reads the bytes of the segment and all records in it, and answers how many these are.
fn scan_segment<C: Checksum>(config: &mut RunningConfig<MemDevice, C>) -> io::Result<usize> {
    let read = read_slot(config, 0);
    let Ok(mut buf) = read else {
        return Err(io::Error::other("the segment isn't read"));
    };
    match scan(config, &mut buf, 0) {
        Ok(scan) => Ok(scan.met.len()),
        Err(_) => Err(io::Error::other("the segment isn't read")),
    }
}

/// Recovers the table, and answers how many pages it has.
pub fn recover<C: Checksum>(config: &mut RunningConfig<MemDevice, C>) -> io::Result<usize> {
    match read_snapshot_or_default(config) {
        Ok(snapshot) => Ok(snapshot.pt.len()),
        Err(_) => Err(io::Error::other("the log isn't recovered")),
    }
}

/// How long it takes to fill a segment, to settle it, to go over its messages, to read its records and to recover it.
#[derive(Drop)]
struct Figures {
    records: u32,
    append: Shortest,
    flush: Shortest,
    iterate: Shortest,
    scan: Shortest,
    recovery: Shortest,
}

impl Figures {
    /// Of no run.
    fn new() -> Figures {
        Figures {
            records: 0,
            append: Shortest::new(),
            flush: Shortest::new(),
            iterate: Shortest::new(),
            scan: Shortest::new(),
            recovery: Shortest::new(),
        }
    }

    /// Fills the segment of a log, settles it, and goes over its messages.
    fn time_writing<C: Checksum>(
        &mut self,
        rt: &HostRuntime,
        log: &mut Log<MemDevice, C>,
        item: &Vec<u8>,
        guard: &Guard,
    ) -> io::Result<()>
        requires { length item.now.items < 2 ^ 63 }
    {
        let start = Instant::now(rt)?;
        self.records = fill(log, item, guard)?;
        self.append.add(start.elapsed(rt)?);
        let start = Instant::now(rt)?;
        flush(log)?;
        self.flush.add(start.elapsed(rt)?);
        let start = Instant::now(rt)?;
        let messages = iterate(log)?;
        self.iterate.add(start.elapsed(rt)?);
        if messages != self.records {
            return Err(io::Error::other("what was met is not what was written"));
        }
        Ok(())
    }

    /// Reads what was settled, and recovers it.
    fn time_reading<C: Checksum>(
        &mut self,
        rt: &HostRuntime,
        config: &mut RunningConfig<MemDevice, C>,
    ) -> io::Result<()> {
        let start = Instant::now(rt)?;
        let met = scan_segment(config)?;
        self.scan.add(start.elapsed(rt)?);
        let start = Instant::now(rt)?;
        let pages = recover(config)?;
        self.recovery.add(start.elapsed(rt)?);
        let records = self.records as usize;
        if met != records.saturating_sub(1) || pages != records.min(PAGES as usize) {
            return Err(io::Error::other("what was read is not what was written"));
        }
        Ok(())
    }

    /// Prints them, for each record.
    fn print(&self, rt: &HostRuntime, name: &str) -> io::Result<()> {
        self.append.print(rt, name, "append", self.records)?;
        self.flush.print(rt, name, "flush", self.records)?;
        self.iterate.print(rt, name, "iterate", self.records)?;
        self.scan.print(rt, name, "scan", self.records)?;
        self.recovery.print(rt, name, "recovery", self.records)
    }
}

/// Fills a segment of a log on an empty device and settles it. Answers what the log ran on.
fn write<C: Checksum + Drop>(
    rt: &HostRuntime,
    segment_size: u64,
    checksum: C,
    item: &Vec<u8>,
    figures: &mut Figures,
) -> io::Result<RunningConfig<MemDevice, C>>
    requires { length item.now.items < 2 ^ 63 }
{
    let config = empty_with(rt.alloc(), segment_size, checksum)?;
    let mut log = started(rt.alloc(), config)?;
    let guard = log.pin();
    let timed = figures.time_writing(rt, &mut log, item, &guard);
    guard.abandon();
    let config = log.halt();
    timed?;
    Ok(config)
}

/// Measures what a log does with records whose items have so many bytes, and prints the shortest run of each.
pub fn measure<C: Checksum + Copy + Drop>(
    rt: &HostRuntime,
    name: &str,
    len: u32,
    checksum: C,
) -> io::Result<()> {
    let item = item(rt.alloc(), len)?;
    let mut figures = Figures::new();
    for _ in 0..RUNS {
        let mut config = write(rt, SEGMENT_SIZE, checksum, &item, &mut figures)?;
        figures.time_reading(rt, &mut config)?;
    }
    figures.print(rt, name)
}

/// Writes so many messages over segments of this size, and settles them: how long the appends take, and the flush.
fn write_many(
    rt: &HostRuntime,
    segment_size: u64,
    item: &Vec<u8>,
    append: &mut Shortest,
    settle: &mut Shortest,
) -> io::Result<()>
    requires { length item.now.items < 2 ^ 63 }
{
    let config = empty(rt.alloc(), segment_size)?;
    let mut log = started(rt.alloc(), config)?;
    let guard = log.pin();
    let start = Instant::now(rt);
    let written = replace_many(&mut log, item, &guard);
    let between = Instant::now(rt);
    let flushed = flush(&mut log);
    let end = Instant::now(rt);
    guard.abandon();
    let _ = log.halt();
    written?;
    flushed?;
    let between = between?;
    append.add(between.duration_since(start?));
    settle.add(end?.duration_since(between));
    Ok(())
}

/// Measures a log that goes over many segments of this size, with records whose items have so many bytes.
pub fn measure_segments(
    rt: &HostRuntime,
    name: &str,
    segment_size: u64,
    len: u32,
) -> io::Result<()> {
    let item = item(rt.alloc(), len)?;
    let mut append = Shortest::new();
    let mut settle = Shortest::new();
    for _ in 0..SEGMENT_RUNS {
        write_many(rt, segment_size, &item, &mut append, &mut settle)?;
    }
    append.print(rt, name, "append", MESSAGES)?;
    settle.print(rt, name, "flush", MESSAGES)
}

/// Measures how long a log takes to begin on an empty device, with segments as long as they can be.
pub fn measure_start(rt: &HostRuntime) -> io::Result<()> {
    let mut start = Shortest::new();
    for _ in 0..RUNS {
        let config = empty(rt.alloc(), LONGEST_SEGMENT)?;
        let began = Instant::now(rt)?;
        let log = started(rt.alloc(), config)?;
        let took = began.elapsed(rt);
        let _ = log.halt();
        start.add(took?);
    }
    start.print(rt, "log", "start", 1)
}
