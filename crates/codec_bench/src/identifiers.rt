//! Identifiers (`ids`): what one costs, with blocks of a few and of many.

use crate::figure::Shortest;
use ids::IdGenerator;
use sled_log::config::{Config, RunningConfig};
use sled_log::device::{MemDevice, PlaceSum};
use std::alloc::Global;
use std::io;
use std::num::NonZeroU64;
use std::time::Instant;

/// How many are given out in a run, and how many runs there are.
const IDENTIFIERS: u32 = 100000;

const RUNS: u32 = 10;

/// How long the segments are.
const SEGMENT_SIZE: u64 = 524288;

/// A generator on a device in memory.
type MemoryGenerator = IdGenerator<MemDevice, PlaceSum>;

/// Measures what an identifier takes, with blocks of so many, and prints the shortest run.
pub fn measure(rt: &HostRuntime, name: &str, block: NonZeroU64) -> io::Result<()> {
    let mut mark = Shortest::new();
    for _ in 0..RUNS {
        let mut generator = opened(rt.alloc())?;
        generator.set_block(block);
        let start = Instant::now(rt);
        let given = take(&mut generator);
        generator.close();
        mark.add(start?.elapsed(rt)?);
        given?;
    }
    mark.print(rt, name, "next", IDENTIFIERS)
}

// A generator on a device that has nothing yet.
fn opened(alloc: Global) -> io::Result<MemoryGenerator> {
    let Some(size) = Config::new(SEGMENT_SIZE) else {
        return Err(io::Error::other("no segments have this size"));
    };
    let config = RunningConfig::new(alloc, size, MemDevice::new(alloc), PlaceSum);
    match IdGenerator::open(config) {
        Ok(generator) => Ok(generator),
        Err(_) => Err(io::Error::other("the generator can't be opened")),
    }
}

// The identifiers come one by one, from 0 on.
fn take(generator: &mut MemoryGenerator) -> io::Result<()> {
    for want in 0..IDENTIFIERS {
        match generator.next() {
            Ok(id) if id == u64::from(want) => {}
            _ => return Err(io::Error::other("another identifier comes")),
        }
    }
    Ok(())
}
