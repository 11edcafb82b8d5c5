//! Identifiers (`ids`) over crashes within each call of a block's flush, of a recovery and of a start, and over many segments
//! and restarts.
//!
//! The first write of a generator has 29 bytes: the header of a segment, and a record of 9 bytes with the bound 100.

use ids::IdGenerator;
use ids::run::{Command, Reply, run};
use sled_log::config::{Config, RunningConfig};
use sled_log::device::{Choice, MemDevice, PlaceSum};
use sled_log::result::{Error, Result};
use std::alloc::Global;
use std::num::NonZeroU64;

// What a generator runs on.
type Running = RunningConfig<MemDevice, PlaceSum>;

// How long the first write is.
const FIRST_WRITE: u64 = 29;

/// Whether identifiers ascend over crashes within the flush of the first block: it is stopped in its write or in its sync, or behind
/// both, and the crash leaves what was settled, what was written, or that up to each of its bytes.
pub fn ascend_over_flushes(alloc: Global) -> Result<bool> {
    let mut is_so = true;
    for calls in 0..3 {
        for left in 0..=FIRST_WRITE {
            let commands = [
                Command::Open,
                Command::Stop(calls),
                Command::Next,
                Command::Crash(choice(alloc, left)?),
                Command::Open,
                Command::Next,
                Command::Close,
                Command::Open,
                Command::Next,
            ];
            is_so &= goes_on(alloc, &commands)?;
        }
    }
    Ok(is_so)
}

/// Whether they do over crashes within each call of a recovery and of the start behind it, and again within the next ones.
pub fn ascend_over_openings(alloc: Global) -> Result<bool> {
    let mut is_so = true;
    for calls in 0..16 {
        for left in 0..=FIRST_WRITE {
            let commands = [
                Command::Open,
                Command::Next,
                Command::Close,
                Command::Stop(calls),
                Command::Open,
                Command::Crash(choice(alloc, left)?),
                Command::Stop(calls),
                Command::Open,
                Command::Crash(choice(alloc, FIRST_WRITE - left)?),
                Command::Open,
                Command::Next,
                Command::Close,
                Command::Open,
                Command::Next,
            ];
            is_so &= goes_on(alloc, &commands)?;
        }
    }
    Ok(is_so)
}

// What a crash leaves: what was settled; or what was written, where from an offset on zeros stand in place of the first write.
fn choice(alloc: Global, left: u64) -> Result<Choice> {
    let mut patch = Vec::new(alloc);
    if left == 0 {
        return Ok(Choice::Old(patch));
    }
    for offset in left..FIRST_WRITE {
        patch.push((offset, 0))?;
    }
    Ok(Choice::New(patch))
}

// The identifiers ascend, and behind the last crash a generator opens, gives one out, closes, opens, and gives one out.
fn goes_on(alloc: Global, commands: &[Command]) -> Result<bool> {
    let Some(size) = Config::new(256) else {
        return Ok(false);
    };
    let config = RunningConfig::new(alloc, size, MemDevice::new(alloc), PlaceSum);
    let (_, came) = run(config, commands);
    let replies = came?;
    Ok(ascend(&replies) && ends_well(&replies))
}

fn ascend(replies: &[Reply]) -> bool {
    let mut least = 0;
    let mut is_so = true;
    for reply in replies {
        if let Reply::Given(id) = reply {
            is_so &= *id >= least;
            least = id.saturating_add(1);
        }
    }
    is_so
}

fn ends_well(replies: &[Reply]) -> bool {
    matches!(
        replies,
        [
            ..,
            Reply::Opened,
            Reply::Given(_),
            Reply::Closed,
            Reply::Opened,
            Reply::Given(_),
        ]
    )
}

/// Whether 10,000 identifiers ascend, a block each, over ten restarts: some 400 segments of 256 bytes, in slots that are used again.
pub fn fill_segments(alloc: Global) -> Result<bool> {
    let Some(size) = Config::new(256) else {
        return Ok(false);
    };
    let mut config = RunningConfig::new(alloc, size, MemDevice::new(alloc), PlaceSum);
    let mut is_so = true;
    let mut next = 0u64;
    for _ in 0..10 {
        let (given, left) = thousand(config, next)?;
        next = next.wrapping_add(1000);
        is_so &= given == Some(next);
        config = left;
    }
    Ok(is_so)
}

// A thousand identifiers from a number on, with a block each: the number behind them, where they came one by one.
fn thousand(config: Running, from: u64) -> Result<(Option<u64>, Running)> {
    let mut generator = match IdGenerator::open(config) {
        Ok(generator) => generator,
        Err((e, _)) => return Err(e),
    };
    generator.set_block(NonZeroU64::MIN);
    let given = take(&mut generator, from);
    let config = generator.close();
    Ok((given?, config))
}

fn take(generator: &mut IdGenerator<MemDevice, PlaceSum>, from: u64) -> Result<Option<u64>> {
    let mut next = from;
    for _ in 0..1000 {
        if generator.next()? != next {
            return Ok(None);
        }
        next = next.wrapping_add(1);
    }
    Ok(Some(next))
}

/// Whether identifiers are used up: a block of all of them is taken, and behind it none is left. So it is in a run.
pub fn are_used_up(alloc: Global) -> Result<bool> {
    let Some(size) = Config::new(256) else {
        return Ok(false);
    };
    let config = RunningConfig::new(alloc, size, MemDevice::new(alloc), PlaceSum);
    let (first, config) = one_of_all(config)?;
    let (second, _) = one_of_all(config)?;
    let in_run = are_used_up_in_run(alloc)?;
    Ok(in_run && matches!(first, Ok(0)) && matches!(second, Err(Error::PlacesUsedUp)))
}

// So they are in a run, in which a block of one comes before that of all.
fn are_used_up_in_run(alloc: Global) -> Result<bool> {
    let Some(size) = Config::new(256) else {
        return Ok(false);
    };
    let config = RunningConfig::new(alloc, size, MemDevice::new(alloc), PlaceSum);
    let commands = [
        Command::SetBlock(NonZeroU64::MAX),
        Command::Open,
        Command::SetBlock(NonZeroU64::MIN),
        Command::Next,
        Command::SetBlock(NonZeroU64::MAX),
        Command::Next,
        Command::Close,
        Command::Open,
        Command::Next,
    ];
    let (_, came) = run(config, &commands);
    Ok(takes_all(&came?))
}

fn takes_all(replies: &[Reply]) -> bool {
    matches!(
        replies,
        [
            Reply::Refused,
            Reply::Opened,
            Reply::Set,
            Reply::Given(0),
            Reply::Set,
            Reply::Given(1),
            Reply::Closed,
            Reply::Opened,
            Reply::Failed(Error::PlacesUsedUp),
        ]
    )
}

// What the first call gives of a generator with a block of all identifiers.
fn one_of_all(config: Running) -> Result<(Result<u64>, Running)> {
    let mut generator = match IdGenerator::open(config) {
        Ok(generator) => generator,
        Err((e, _)) => return Err(e),
    };
    generator.set_block(NonZeroU64::MAX);
    let given = generator.next();
    Ok((given, generator.close()))
}
