//! The accountant of segments: what a mark and a segment cost it, over more and more pages and segments.
ghost use Rattle.std.specs.Prelude.{OnOk, IfOk};
ghost use Rattle.sled_store.specs.Accounts.{IsAccountant};

use crate::figure::{RUNS, Shortest};
use sled_log::config::{Config, RunningConfig};
use sled_log::device::{MemDevice, PlaceSum};
use sled_log::logger::{DiskPtr, Lsn, SEG_HEADER_LEN};
use sled_store::segment::accountant::{CacheInfo, SegmentAccountant};
use std::alloc::Global;
use std::io;
use std::time::Instant;

/// What the accountant runs on. Of the device it asks cuts and syncs alone.
type Running = RunningConfig<MemDevice, PlaceSum>;

/// The segments that are marked in.
const SEGMENT_SIZE: u64 = 8192;

/// Where the first record of a segment begins.
const FIRST: u64 = SEG_HEADER_LEN as u64;

/// A record that takes all of a segment.
const WHOLE: u64 = SEGMENT_SIZE - FIRST;

/// The record of a small message.
const SMALL: u64 = 64;

/// How far behind a page the next one is. It has no factor in common with a power of ten, so that each page has its turn.
const STRIDE: u64 = 61803;

/// An accountant at work: pages are replaced in turn, each by a record of the same length.
#[derive(Drop)]
struct Work {
    config: Running,
    accountant: SegmentAccountant,
    /// The latest message of each page.
    latest: Vec<CacheInfo>,
    /// The newest of them.
    newest: Option<CacheInfo>,
    /// The length of a record.
    len: u64,
    /// Where the segment begins that is being filled, in the log and in the file, and how much of it is filled.
    place: u64,
    offset: u64,
    filled: u64,
}

impl Work {
    /// Nothing was marked yet, and no segment has begun.
    fn new(alloc: Global, config: Config, len: u64) -> Work
        ensures { IsAccountant result.config.config.segment_size result.accountant }
    {
        let config = RunningConfig::new(alloc, config, MemDevice::new(alloc), PlaceSum);
        let accountant = SegmentAccountant::fresh(&config);
        Work {
            config,
            accountant,
            latest: Vec::new(alloc),
            newest: None,
            len,
            place: 0,
            offset: 0,
            filled: 0,
        }
    }

    /// Gets a slot for the segment that begins.
    fn begin(&mut self) -> io::Result<()>
        requires { IsAccountant self.old.config.config.segment_size self.old.accountant }
        ensures { OnOk result (IsAccountant self.new.config.config.segment_size self.new.accountant) }
    {
        let lsn = lsn_of(self.place)?;
        if lsn < 0 {
            return Err(wrong());
        }
        match self.accountant.next(&mut self.config, lsn) {
            Ok(offset) => self.offset = offset,
            Err(_) => return Err(wrong()),
        }
        self.filled = FIRST;
        Ok(())
    }

    /// Leaves all segments behind that end before this one.
    fn stabilize(&mut self) -> io::Result<()>
        requires { IsAccountant self.old.config.config.segment_size self.old.accountant }
        ensures { OnOk result (IsAccountant self.new.config.config.segment_size self.new.accountant) }
    {
        let mark = lsn_of(self.place)?;
        match self.accountant.stabilize(&mut self.config, mark) {
            Ok(()) => Ok(()),
            Err(_) => Err(wrong()),
        }
    }

    /// Goes on in the next segment, as a log does whose segment is full and stable.
    fn roll(&mut self) -> io::Result<()>
        requires { IsAccountant self.old.config.config.segment_size self.old.accountant }
        ensures { OnOk result (IsAccountant self.new.config.config.segment_size self.new.accountant) }
    {
        self.place = self.place.wrapping_add(SEGMENT_SIZE);
        self.begin()?;
        self.stabilize()
    }

    /// Returns the next record.
    fn record(&mut self) -> io::Result<CacheInfo>
        requires { IsAccountant self.old.config.config.segment_size self.old.accountant }
        ensures { OnOk result (IsAccountant self.new.config.config.segment_size self.new.accountant) }
    {
        if self.filled.saturating_add(self.len) > SEGMENT_SIZE {
            self.roll()?;
        }
        let lsn = lsn_of(self.place.wrapping_add(self.filled))?;
        let lid = self.offset.wrapping_add(self.filled);
        self.filled = self.filled.wrapping_add(self.len);
        Ok(CacheInfo {
            lsn,
            pointer: DiskPtr::Inline(lid),
            log_size: self.len,
        })
    }

    /// Marks a record in place of older ones.
    fn mark(&mut self, page: u64, old: &[CacheInfo], new: CacheInfo) -> io::Result<()>
        requires { IsAccountant self.old.config.config.segment_size self.old.accountant }
        ensures { OnOk result (IsAccountant self.new.config.config.segment_size self.new.accountant) }
    {
        if !self.accountant.can_mark(new, old) {
            return Err(wrong());
        }
        let marked = self
            .accountant
            .mark_replace(&mut self.config, page, new.lsn, old, new);
        match marked {
            Ok(()) => Ok(()),
            Err(_) => Err(wrong()),
        }
    }

    /// Marks the first record of each page.
    fn fill(&mut self, pages: u32) -> io::Result<()>
        requires { IsAccountant self.old.config.config.segment_size self.old.accountant }
        ensures { OnOk result (IsAccountant self.new.config.config.segment_size self.new.accountant) }
    {
        self.begin()?;
        for page in 0..pages {
            let new = self.record()?;
            self.mark(u64::from(page), &[], new)?;
            self.latest.push(new)?;
        }
        Ok(())
    }

    /// Replaces each page once.
    fn turn(&mut self) -> io::Result<()>
        requires { IsAccountant self.old.config.config.segment_size self.old.accountant }
        ensures { OnOk result (IsAccountant self.new.config.config.segment_size self.new.accountant) }
    {
        let pages = self.latest.len() as u64;
        self.replace_in_turn(pages)
    }

    /// Replaces so many pages in turn, each of them again where there are fewer.
    fn replace_in_turn(&mut self, count: u64) -> io::Result<()>
        requires { IsAccountant self.old.config.config.segment_size self.old.accountant }
        ensures { OnOk result (IsAccountant self.new.config.config.segment_size self.new.accountant) }
    {
        let pages = self.latest.len() as u64;
        let mut page = 0;
        for _ in 0..count {
            self.replace(page)?;
            page = page_behind(page, pages);
        }
        Ok(())
    }

    /// Counts the pages for which the newest record might stand in place of the latest one. That is each of them.
    fn count_markable(&self) -> usize
        requires { IsAccountant self.now.config.config.segment_size self.now.accountant }
    {
        let Some(newest) = self.newest else {
            return 0;
        };
        let mut count = 0usize;
        for old in &self.latest {
            if self.accountant.can_mark(newest, &[*old]) {
                count = count.wrapping_add(1);
            }
        }
        count
    }

    /// Replaces a page.
    fn replace(&mut self, page: u64) -> io::Result<()>
        requires { IsAccountant self.old.config.config.segment_size self.old.accountant }
        ensures { OnOk result (IsAccountant self.new.config.config.segment_size self.new.accountant) }
    {
        let new = self.record()?;
        let Some(latest) = self.latest.get_mut(page as usize) else {
            return Err(wrong());
        };
        let old = *latest;
        *latest = new;
        self.newest = Some(new);
        self.mark(page, &[old], new)
    }

    /// Times a turn.
    fn time_turn(&mut self, rt: &HostRuntime, turn: &mut Shortest) -> io::Result<()>
        requires { IsAccountant self.old.config.config.segment_size self.old.accountant }
        ensures { OnOk result (IsAccountant self.new.config.config.segment_size self.new.accountant) }
    {
        let start = Instant::now(rt)?;
        self.turn()?;
        turn.add(start.elapsed(rt)?);
        Ok(())
    }

    /// Times a test of each page.
    fn time_tests(&self, rt: &HostRuntime, test: &mut Shortest) -> io::Result<()>
        requires { IsAccountant self.now.config.config.segment_size self.now.accountant }
    {
        let start = Instant::now(rt)?;
        let count = self.count_markable();
        test.add(start.elapsed(rt)?);
        if count != self.latest.len() {
            return Err(wrong());
        }
        Ok(())
    }

    /// Begins so many segments, one behind another, and none is left behind.
    fn begin_all(&mut self, segments: u32) -> io::Result<()>
        requires { IsAccountant self.old.config.config.segment_size self.old.accountant }
        ensures { OnOk result (IsAccountant self.new.config.config.segment_size self.new.accountant) }
    {
        for _ in 0..segments {
            self.begin()?;
            self.place = self.place.wrapping_add(SEGMENT_SIZE);
        }
        Ok(())
    }

    /// Marks a record of another page in each of so many segments, behind its header.
    fn fill_all(&mut self, segments: u32) -> io::Result<()>
        requires { IsAccountant self.old.config.config.segment_size self.old.accountant }
        ensures { OnOk result (IsAccountant self.new.config.config.segment_size self.new.accountant) }
    {
        for page in 0..segments {
            let at = u64::from(page)
                .wrapping_mul(SEGMENT_SIZE)
                .wrapping_add(FIRST);
            let new = CacheInfo {
                lsn: lsn_of(at)?,
                pointer: DiskPtr::Inline(at),
                log_size: self.len,
            };
            self.mark(u64::from(page), &[], new)?;
        }
        Ok(())
    }

    /// Asks so many slots that are drained for the page of each, and then for another one, which none has. Counts the
    /// pages that came.
    fn pop_all(&mut self, slots: u32) -> u32
        requires { IsAccountant self.old.config.config.segment_size self.old.accountant }
        ensures { IsAccountant self.new.config.config.segment_size self.new.accountant }
    {
        let mut count = 0u32;
        for _ in 0..slots.saturating_mul(2) {
            if self.accountant.clean_pop().is_some() {
                count = count.wrapping_add(1);
            }
        }
        count
    }
}

/// The page whose turn is behind that of another.
pub fn page_behind(page: u64, pages: u64) -> u64 {
    page.wrapping_add(STRIDE) % pages.max(1)
}

/// A place in the log.
fn lsn_of(place: u64) -> io::Result<Lsn> {
    match Lsn::try_from(place) {
        Ok(lsn) => Ok(lsn),
        Err(_) => Err(wrong()),
    }
}

fn wrong() -> io::Error {
    io::Error::other("the accountant refuses a call")
}

/// The size of segments.
fn size() -> io::Result<Config> {
    match Config::new(SEGMENT_SIZE) {
        Some(config) => Ok(config),
        None => Err(io::Error::other("no segments have this size")),
    }
}

/// How many runs there are over so many pages or segments.
pub fn runs(count: u32) -> u32 {
    (1000000 / count.max(1)).max(3).min(RUNS)
}

/// Measures what a mark takes, where so many pages are replaced in turn, and prints the shortest run.
pub fn measure_marks(rt: &HostRuntime, name: &str, pages: u32) -> io::Result<()> {
    let mut work = at_work(rt.alloc(), SMALL, pages)?;
    let (mut test, mut turn) = (Shortest::new(), Shortest::new());
    for _ in 0..runs(pages) {
        work.time_tests(rt, &mut test)?;
        work.time_turn(rt, &mut turn)?;
    }
    test.print(rt, name, "can_mark", pages)?;
    turn.print(rt, name, "can_mark and mark_replace", pages)
}

/// Marks so many messages, which replace so many pages in turn. Returns where the last one ends in its segment.
pub fn repeat_marks(alloc: Global, pages: u32, count: u32) -> io::Result<u64> {
    let mut work = at_work(alloc, SMALL, pages)?;
    work.replace_in_turn(u64::from(count))?;
    Ok(work.filled)
}

/// Measures what a segment takes, of so many, and prints the shortest runs.
pub fn measure_segments(rt: &HostRuntime, name: &str, segments: u32) -> io::Result<()> {
    let (mut next, mut stabilize) = (Shortest::new(), Shortest::new());
    for _ in 0..runs(segments) {
        time_segments(rt, segments, &mut next, &mut stabilize)?;
    }
    next.print(rt, name, "next", segments)?;
    stabilize.print(rt, name, "stabilize, all at once", segments)?;
    let mut work = at_work(rt.alloc(), WHOLE, segments)?;
    let mut turn = Shortest::new();
    for _ in 0..runs(segments) {
        work.time_turn(rt, &mut turn)?;
    }
    turn.print(rt, name, "next, mark_replace and stabilize", segments)
}

/// Measures what a mark takes that leaves a segment of its own behind, where so many come free in an order that isn't
/// theirs and few are begun, and prints the shortest run.
pub fn measure_frees(rt: &HostRuntime, name: &str, segments: u32) -> io::Result<()> {
    let mut turn = Shortest::new();
    for _ in 0..runs(segments) {
        let mut work = at_work(rt.alloc(), WHOLE, segments)?;
        work.len = SMALL;
        work.time_turn(rt, &mut turn)?;
    }
    turn.print(rt, name, "mark_replace, each frees a segment", segments)
}

/// An accountant over so many pages, each of which was replaced once, so that all turns that follow are alike.
fn at_work(alloc: Global, len: u64, pages: u32) -> io::Result<Work>
    ensures { IfOk result (λ work. IsAccountant work.config.config.segment_size work.accountant) }
{
    let mut work = Work::new(alloc, size()?, len);
    work.fill(pages)?;
    work.turn()?;
    Ok(work)
}

/// Begins so many segments, and leaves all of them behind at once.
fn time_segments(
    rt: &HostRuntime,
    segments: u32,
    next: &mut Shortest,
    stabilize: &mut Shortest,
) -> io::Result<()> {
    let mut work = Work::new(rt.alloc(), size()?, WHOLE);
    let start = Instant::now(rt)?;
    work.begin_all(segments)?;
    next.add(start.elapsed(rt)?);
    work.fill_all(segments)?;
    let start = Instant::now(rt)?;
    work.stabilize()?;
    stabilize.add(start.elapsed(rt)?);
    Ok(())
}

/// Measures what it takes to drain a slot and to ask it for its pages, where so many are drained, and prints the shortest runs.
pub fn measure_drains(rt: &HostRuntime, name: &str, slots: u32) -> io::Result<()> {
    let (mut drain, mut pop) = (Shortest::new(), Shortest::new());
    for _ in 0..runs(slots) {
        time_drains(rt, slots, &mut drain, &mut pop)?;
    }
    drain.print(rt, name, "stabilize, each drained", slots)?;
    pop.print(rt, name, "clean_pop", slots)
}

/// Leaves so many segments behind at once that hold little each, and asks for their pages.
fn time_drains(
    rt: &HostRuntime,
    slots: u32,
    drain: &mut Shortest,
    pop: &mut Shortest,
) -> io::Result<()> {
    let mut work = Work::new(rt.alloc(), size()?, SMALL);
    work.begin_all(slots)?;
    work.fill_all(slots)?;
    let start = Instant::now(rt)?;
    work.stabilize()?;
    drain.add(start.elapsed(rt)?);
    let start = Instant::now(rt)?;
    let count = work.pop_all(slots);
    pop.add(start.elapsed(rt)?);
    if count != slots {
        return Err(wrong());
    }
    Ok(())
}
