//! Gives ten identifiers out, crashes, and goes on (`docs/USING.md`, "A crate above").
#![tactic(auto)]

use anyhow::{Result, bail};
use ids::IdGenerator;
use sled_log::config::{Config, RunningConfig};
use sled_log::device::{Choice, CrashDevice, MemDevice, PlaceSum};

/// What the generator runs on: a device in memory, which a test can make crash.
type Running = RunningConfig<MemDevice, PlaceSum>;

fn main(rt: HostRuntime) -> Result<()> {
    let alloc = rt.alloc();
    let Some(size) = Config::new(256) else {
        bail!("256 bytes is no size of a segment");
    };
    let config = RunningConfig::new(alloc, size, MemDevice::new(alloc), PlaceSum);
    let (ids, config) = ten(config)?;
    println!(rt; "given out: {ids:?}")?;
    // The power goes off, and what was synced is left.
    let mut config = config;
    config.device.crash(Choice::Old(Vec::new(alloc)));
    let (ids, _) = ten(config)?;
    println!(rt; "and behind a crash: {ids:?}")?;
    Ok(())
}

// Gives ten identifiers out.
fn ten(config: Running) -> Result<([u64; 10], Running)> {
    let mut ids = [0; 10];
    let mut generator = match IdGenerator::open(config) {
        Ok(generator) => generator,
        Err((e, _config)) => return Err(e.into()),
    };
    let given = fill(&mut generator, &mut ids);
    let config = generator.close();
    given?;
    Ok((ids, config))
}

fn fill(generator: &mut IdGenerator<MemDevice, PlaceSum>, ids: &mut [u64]) -> Result<()> {
    for id in ids {
        *id = generator.next()?;
    }
    Ok(())
}
