//! Segments that come back: what freeing costs a log in memory whose client marks each message that it completes.
ghost use Rattle.std.specs.Prelude.{◌<◌, ◌^◌, length};

use crate::accounts;
use crate::figure::Shortest;
use crate::logs::{
    MANY_PAGES, MESSAGES, MemoryLog, Running, empty, flush, item, page_behind, recover, started,
};
use sled_log::device::{Checksum, Device, MemDevice};
use sled_log::logger::{Log, LogKind, PageId};
use sled_log::reservation::Guard;
use sled_log::segment::CacheInfo;
use std::alloc::Global;
use std::io;
use std::time::{Duration, Instant};

/// What a client keeps of a log: the latest message of each page, by page.
#[derive(Drop)]
struct Pages {
    latest: Vec<CacheInfo>,
    /// Where the last message ends in the log file, of those that were ever written.
    end: u64,
}

impl Pages {
    /// Of an empty log.
    fn new(alloc: Global) -> Pages {
        Pages {
            latest: Vec::new(alloc),
            end: 0,
        }
    }

    /// Replaces a page by an item, and marks that.
    fn put(
        &mut self,
        log: &mut MemoryLog,
        item: &Vec<u8>,
        page: PageId,
        guard: &Guard,
    ) -> io::Result<()>
        requires { length item.now.items < 2 ^ 63 }
    {
        let new = append(log, item, page, guard)?;
        self.mark(log, page, new)
    }

    /// Marks the latest message of a page in place of the one before. The pages come in order at first.
    fn mark(&mut self, log: &mut MemoryLog, page: PageId, new: CacheInfo) -> io::Result<()> {
        self.end = self.end.max(new.pointer.lid().saturating_add(new.log_size));
        if let Some(latest) = self.latest.get_mut(page as usize) {
            let old = *latest;
            *latest = new;
            return mark(log, page, &[old], new);
        }
        self.latest.push(new)?;
        mark(log, page, &[], new)
    }

    /// Marks messages of pages, each in place of the one before.
    fn mark_all(
        &mut self,
        log: &mut MemoryLog,
        messages: &[(PageId, CacheInfo)],
    ) -> io::Result<()> {
        for (page, new) in messages {
            self.mark(log, *page, *new)?;
        }
        Ok(())
    }

    /// Replaces a page by an item and marks that, under a pin that is given back.
    fn put_pinned(&mut self, log: &mut MemoryLog, item: &Vec<u8>, page: PageId) -> io::Result<()>
        requires { length item.now.items < 2 ^ 63 }
    {
        if log.pins() > 0 {
            return Err(wrong());
        }
        let guard = log.pin();
        let marked = self.put(log, item, page, &guard);
        unpin(log, guard);
        marked
    }

    /// Replaces the pages below a number in turn, each under a pin of its own.
    fn put_turn(&mut self, log: &mut MemoryLog, item: &Vec<u8>, pages: u64) -> io::Result<()>
        requires { length item.now.items < 2 ^ 63 }
    {
        for page in 0..pages {
            self.put_pinned(log, item, page)?;
        }
        Ok(())
    }

    /// The log file is no longer than this, and nothing ever lay behind that. It is recovered with all pages.
    fn check(&self, config: &mut Running, longest: u64) -> io::Result<()> {
        let len = config.device.len()?;
        if len > longest || self.end > longest || recover(config)? != self.latest.len() {
            return Err(wrong());
        }
        Ok(())
    }
}

/// Replaces a page by an item. Returns where the message is.
pub fn append<C: Checksum>(
    log: &mut Log<MemDevice, C>,
    item: &Vec<u8>,
    page: PageId,
    guard: &Guard,
) -> io::Result<CacheInfo>
    requires { length item.now.items < 2 ^ 63 }
{
    let Ok(ticket) = log.reserve(LogKind::Replace, page, item, guard) else {
        return Err(io::Error::other("a message isn't reserved"));
    };
    let log_size = ticket.reservation_len() as u64;
    let Ok((lsn, pointer)) = log.complete(ticket) else {
        return Err(io::Error::other("a message isn't completed"));
    };
    Ok(CacheInfo {
        lsn,
        pointer,
        log_size,
    })
}

/// Marks a message in place of older ones.
fn mark(log: &mut MemoryLog, page: PageId, old: &[CacheInfo], new: CacheInfo) -> io::Result<()> {
    if !log.can_mark(new, old) {
        return Err(io::Error::other("a message may not be marked"));
    }
    match log.mark_replace(page, new.lsn, old, new) {
        Ok(()) => Ok(()),
        Err(_) => Err(io::Error::other("a message isn't marked")),
    }
}

/// Gives a pin back.
fn unpin(log: &mut MemoryLog, guard: Guard) {
    if log.pins() > 0 {
        log.unpin(guard);
    } else {
        guard.abandon();
    }
}

/// Writes the lowest of the sealed buffers, where there is one.
pub fn write_sealed<C: Checksum>(log: &mut Log<MemDevice, C>) -> io::Result<()> {
    if log.pending() == 0 {
        return Ok(());
    }
    match log.write_to_log(0) {
        Ok(()) => Ok(()),
        Err(_) => Err(io::Error::other("a buffer isn't written")),
    }
}

fn wrong() -> io::Error {
    io::Error::other("the log isn't what it should be")
}

/// How many rounds there are, each of which fills a segment, and how many pages are replaced in one.
const ROUNDS: u32 = 60;

const ROUND_PAGES: u64 = 11;

const ROUND_SIZE: u64 = 256;

/// How many bytes the item of a message has in these rounds.
const ROUND_ITEM: u32 = 11;

/// How long the log file is in the end: the segments of six rounds.
const ROUND_FILE: u64 = 1536;

/// How many runs of them there are.
const ROUND_RUNS: u32 = 1000;

/// Measures sixty rounds over eleven pages, each flushed, which fills a segment of 256 bytes.
pub fn measure_rounds(rt: &HostRuntime) -> io::Result<()> {
    let item = item(rt.alloc(), ROUND_ITEM)?;
    let mut rounds = Shortest::new();
    for _ in 0..ROUND_RUNS {
        time_rounds(rt, &item, &mut rounds)?;
    }
    rounds.print(rt, "sixty rounds", "message", ROUNDS * 11)
}

/// Times the rounds over an empty device.
fn time_rounds(rt: &HostRuntime, item: &Vec<u8>, rounds: &mut Shortest) -> io::Result<()>
    requires { length item.now.items < 2 ^ 63 }
{
    let config = empty(rt.alloc(), ROUND_SIZE)?;
    let mut log = started(rt.alloc(), config)?;
    let mut pages = Pages::new(rt.alloc());
    let start = Instant::now(rt);
    let written = put_rounds(&mut log, item, &mut pages, ROUNDS);
    let end = Instant::now(rt);
    let mut config = log.halt();
    written?;
    rounds.add(end?.duration_since(start?));
    pages.check(&mut config, ROUND_FILE)
}

/// Does so many of these rounds over an empty device, 241 at most: the numbers of these segments take one byte, and those of
/// further ones two, by which the messages of a round outgrow a segment. Returns where the last message ends in the log file,
/// of those that were ever written.
pub fn repeat_rounds(alloc: Global, rounds: u32) -> io::Result<u64> {
    let item = item(alloc, ROUND_ITEM)?;
    let config = empty(alloc, ROUND_SIZE)?;
    let mut log = started(alloc, config)?;
    let mut pages = Pages::new(alloc);
    let written = put_rounds(&mut log, &item, &mut pages, rounds);
    let mut config = log.halt();
    written?;
    pages.check(&mut config, ROUND_FILE)?;
    Ok(pages.end)
}

/// Replaces all pages in each of so many rounds, and flushes them. Each flush settles a segment.
fn put_rounds(log: &mut MemoryLog, item: &Vec<u8>, pages: &mut Pages, rounds: u32) -> io::Result<()>
    requires { length item.now.items < 2 ^ 63 }
{
    for _ in 0..rounds {
        pages.put_turn(log, item, ROUND_PAGES)?;
        match log.flush() {
            Ok(grown) if grown as u64 == ROUND_SIZE => {}
            _ => return Err(wrong()),
        }
    }
    Ok(())
}

/// How long the segments are, but for those of the rounds.
const SEGMENT_SIZE: u64 = 8192;

/// How long the log file may get where 10,000 pages are replaced in turn: the segments of a turn, which are 26, and five more.
const TURNS_FILE: u64 = 31 * SEGMENT_SIZE;

/// How many runs of them there are.
const TURN_RUNS: u32 = 10;

/// Measures messages that replace 10,000 pages in turn, ten times over: where each is marked, and where none is and one pin
/// stays out. A buffer is written as soon as it is sealed.
pub fn measure_turns(rt: &HostRuntime) -> io::Result<()> {
    let item = item(rt.alloc(), 10)?;
    let (mut marked, mut unmarked) = (Shortest::new(), Shortest::new());
    for _ in 0..TURN_RUNS {
        time_marked(rt, &item, &mut marked)?;
        time_unmarked(rt, &item, &mut unmarked)?;
    }
    marked.print(rt, "10000 pages", "message that is marked", MESSAGES)?;
    unmarked.print(rt, "10000 pages", "message under one pin", MESSAGES)
}

/// Times these messages over an empty device, each marked.
fn time_marked(rt: &HostRuntime, item: &Vec<u8>, marked: &mut Shortest) -> io::Result<()>
    requires { length item.now.items < 2 ^ 63 }
{
    let config = empty(rt.alloc(), SEGMENT_SIZE)?;
    let mut log = started(rt.alloc(), config)?;
    let mut pages = Pages::new(rt.alloc());
    let start = Instant::now(rt);
    let written = put_marked(&mut log, item, &mut pages);
    let end = Instant::now(rt);
    let mut config = log.halt();
    written?;
    marked.add(end?.duration_since(start?));
    pages.check(&mut config, TURNS_FILE)
}

/// Replaces these pages in turn, marks each message, and flushes them.
fn put_marked(log: &mut MemoryLog, item: &Vec<u8>, pages: &mut Pages) -> io::Result<()>
    requires { length item.now.items < 2 ^ 63 }
{
    let mut page = 0;
    for _ in 0..MESSAGES {
        pages.put_pinned(log, item, page)?;
        write_sealed(log)?;
        page = page_behind(page, MANY_PAGES);
    }
    flush(log)
}

/// Times them under one pin, none marked.
fn time_unmarked(rt: &HostRuntime, item: &Vec<u8>, unmarked: &mut Shortest) -> io::Result<()>
    requires { length item.now.items < 2 ^ 63 }
{
    let config = empty(rt.alloc(), SEGMENT_SIZE)?;
    let mut log = started(rt.alloc(), config)?;
    let guard = log.pin();
    let start = Instant::now(rt);
    let written = put_unmarked(&mut log, item, &guard);
    let end = Instant::now(rt);
    guard.abandon();
    let mut config = log.halt();
    written?;
    unmarked.add(end?.duration_since(start?));
    if config.device.len()? <= TURNS_FILE || recover(&mut config)? as u64 != MANY_PAGES {
        return Err(wrong());
    }
    Ok(())
}

/// Replaces these pages in turn, and flushes the messages.
fn put_unmarked(log: &mut MemoryLog, item: &Vec<u8>, guard: &Guard) -> io::Result<()>
    requires { length item.now.items < 2 ^ 63 }
{
    let mut page = 0;
    for _ in 0..MESSAGES {
        append(log, item, page, guard)?;
        write_sealed(log)?;
        page = page_behind(page, MANY_PAGES);
    }
    flush(log)
}

/// How many pages fill half a segment, and how many segments are filled so before the first one is timed, and timed.
const HALF_PAGES: u64 = 204;

const UNTIMED: u32 = 40;

const TIMED: u32 = 200;

/// How long the log file may get then.
const HALVED_FILE: u64 = 4 * SEGMENT_SIZE;

/// How many runs of them there are.
const HALVED_RUNS: u32 = 20;

/// How long the writes of the first halves of segments took, each of which begins with a header, so that a segment comes
/// free behind it, and those of the second halves, behind which none is due.
#[derive(Drop)]
struct Writes {
    freeing: Duration,
    others: Duration,
}

/// Measures the write of a buffer of 4 KiB behind which one segment comes free, and of one behind which none is due.
pub fn measure_writes(rt: &HostRuntime) -> io::Result<()> {
    let item = item(rt.alloc(), 11)?;
    let (mut freeing, mut others) = (Shortest::new(), Shortest::new());
    for _ in 0..HALVED_RUNS {
        time_writes(rt, &item, &mut freeing, &mut others)?;
    }
    freeing.print(rt, "write_to_log", "a segment comes free", TIMED)?;
    others.print(rt, "write_to_log", "none is due", TIMED)
}

/// Times these writes over an empty device.
fn time_writes(
    rt: &HostRuntime,
    item: &Vec<u8>,
    freeing: &mut Shortest,
    others: &mut Shortest,
) -> io::Result<()>
    requires { length item.now.items < 2 ^ 63 }
{
    let config = empty(rt.alloc(), SEGMENT_SIZE)?;
    let mut log = started(rt.alloc(), config)?;
    let mut pages = Pages::new(rt.alloc());
    let mut writes = Writes {
        freeing: Duration::ZERO,
        others: Duration::ZERO,
    };
    let written = put_halves(rt, &mut log, item, &mut pages, &mut writes);
    let mut config = log.halt();
    written?;
    freeing.add(writes.freeing);
    others.add(writes.others);
    pages.check(&mut config, HALVED_FILE)
}

/// Fills segment after segment, each by two buffers, and writes these.
fn put_halves(
    rt: &HostRuntime,
    log: &mut MemoryLog,
    item: &Vec<u8>,
    pages: &mut Pages,
    writes: &mut Writes,
) -> io::Result<()>
    requires { length item.now.items < 2 ^ 63 }
{
    for segment in 0..UNTIMED + TIMED {
        let freeing = put_half(rt, log, item, pages)?;
        let other = put_half(rt, log, item, pages)?;
        if segment >= UNTIMED {
            writes.freeing = writes.freeing.saturating_add(freeing);
            writes.others = writes.others.saturating_add(other);
        }
    }
    Ok(())
}

/// Replaces all pages once, seals their buffer and writes it. Returns how long the write took.
fn put_half(
    rt: &HostRuntime,
    log: &mut MemoryLog,
    item: &Vec<u8>,
    pages: &mut Pages,
) -> io::Result<Duration>
    requires { length item.now.items < 2 ^ 63 }
{
    pages.put_turn(log, item, HALF_PAGES)?;
    if log.roll_iobuf().is_err() || log.pending() != 1 {
        return Err(wrong());
    }
    let start = Instant::now(rt)?;
    write_sealed(log)?;
    start.elapsed(rt)
}

/// How many bytes an item has whose record takes at most 64, and how many of these records a segment has at least.
const ITEM_LEN: u32 = 50;

const RECORDS: u64 = 127;

/// Measures the mark of a message in place of an older one, where so many pages are replaced in turn.
pub fn measure_marks(rt: &HostRuntime, name: &str, count: u32) -> io::Result<()> {
    let item = item(rt.alloc(), ITEM_LEN)?;
    let config = empty(rt.alloc(), SEGMENT_SIZE)?;
    let mut log = started(rt.alloc(), config)?;
    let mut pages = Pages::new(rt.alloc());
    let mut marks = Shortest::new();
    let written = mark_turns(rt, &mut log, &item, &mut pages, count, &mut marks);
    let mut config = log.halt();
    written?;
    // The first turn goes by another order than the rest, so its segments come free a turn later: four may be there at a time.
    let segments = (u64::from(count) / RECORDS + 1) * 4 + 6;
    pages.check(&mut config, segments * SEGMENT_SIZE)?;
    marks.print(rt, name, "can_mark and mark_replace of a log", count)
}

/// Replaces all pages once, and then again and again, with the marks timed.
fn mark_turns(
    rt: &HostRuntime,
    log: &mut MemoryLog,
    item: &Vec<u8>,
    pages: &mut Pages,
    count: u32,
    marks: &mut Shortest,
) -> io::Result<()>
    requires { length item.now.items < 2 ^ 63 }
{
    pages.put_turn(log, item, u64::from(count))?;
    flush(log)?;
    for _ in 0..accounts::runs(count) {
        mark_turn(rt, log, item, pages, marks)?;
        flush(log)?;
    }
    Ok(())
}

/// Replaces all pages under a pin, and times the marks of these messages.
fn mark_turn(
    rt: &HostRuntime,
    log: &mut MemoryLog,
    item: &Vec<u8>,
    pages: &mut Pages,
    marks: &mut Shortest,
) -> io::Result<()>
    requires { length item.now.items < 2 ^ 63 }
{
    if log.pins() > 0 {
        return Err(wrong());
    }
    let guard = log.pin();
    let marked = time_marks(rt, log, item, pages, &guard);
    unpin(log, guard);
    marks.add(marked?);
    Ok(())
}

/// Replaces all pages. Returns how long the marks of these messages took.
fn time_marks(
    rt: &HostRuntime,
    log: &mut MemoryLog,
    item: &Vec<u8>,
    pages: &mut Pages,
    guard: &Guard,
) -> io::Result<Duration>
    requires { length item.now.items < 2 ^ 63 }
{
    let count = pages.latest.len() as u64;
    let mut messages = Vec::new(rt.alloc());
    let mut page = 0;
    for _ in 0..count {
        messages.push((page, append(log, item, page, guard)?))?;
        page = accounts::page_behind(page, count);
    }
    let start = Instant::now(rt)?;
    pages.mark_all(log, &messages)?;
    start.elapsed(rt)
}
