//! Chooses what a crash leaves: what is durable or what was written, mostly with a part of the last write torn where that
//! isn't synced.

use crate::chance::Chance;
use crate::run::Run;
use crate::watched::Notes;
use sled_log::device::Choice;
use sled_log::session::Command;
use std::alloc::{AllocError, Global};

/// Returns a crash. To choose a patch the device is looked at, for which the log is closed already.
pub fn crash(alloc: Global, chance: &mut Chance, run: &mut Run) -> Result<Command, AllocError> {
    let is_old = chance.comes(500);
    let mut patch = Vec::new(alloc);
    if chance.comes(800)
        && let Some(device) = run.take_device()
    {
        let outcome = tear(&mut patch, chance, &device.notes, is_old);
        run.put_device(device);
        outcome?;
    }
    Ok(Command::Crash(if is_old {
        Choice::Old(patch)
    } else {
        Choice::New(patch)
    }))
}

// Chooses a patch.
fn tear(
    patch: &mut Vec<(u64, u8)>,
    chance: &mut Chance,
    notes: &Notes,
    is_old: bool,
) -> Result<(), AllocError> {
    let len = notes.len(is_old);
    let Some((from, to)) = notes.unsynced() else {
        return stray(patch, chance, len, 100);
    };
    let to = to.min(len);
    if from >= to {
        return stray(patch, chance, len, 200);
    }
    match chance.below(20) {
        0..=8 => scatter(patch, chance, from, to),
        9..=16 => part(patch, chance, notes, is_old, from, to),
        17..=18 => garbage(patch, chance, from, to),
        _ => stray(patch, chance, len, 1000),
    }
}

// A byte anywhere, also where none can be lost or none is.
fn stray(
    patch: &mut Vec<(u64, u8)>,
    chance: &mut Chance,
    len: u64,
    often: u64,
) -> Result<(), AllocError> {
    if chance.comes(often) {
        let at = chance.below(len.wrapping_add(40));
        patch.push((at, chance.byte()))?;
    }
    Ok(())
}

// Some bytes.
fn scatter(
    patch: &mut Vec<(u64, u8)>,
    chance: &mut Chance,
    from: u64,
    to: u64,
) -> Result<(), AllocError> {
    for _ in 0..chance.within(1, 3) {
        let at = chance.within(from, to.wrapping_sub(1));
        patch.push((at, chance.byte()))?;
    }
    Ok(())
}

// A part that was written in what is durable, or a part with zeros in what was written.
fn part(
    patch: &mut Vec<(u64, u8)>,
    chance: &mut Chance,
    notes: &Notes,
    is_old: bool,
    from: u64,
    to: u64,
) -> Result<(), AllocError> {
    let begin = chance.within(from, to.wrapping_sub(1));
    let end = if chance.comes(500) {
        to
    } else {
        chance.within(begin, to)
    };
    let begin = if chance.comes(300) { from } else { begin };
    for at in begin..end {
        patch.push((at, if is_old { written(notes, at) } else { 0 }))?;
    }
    Ok(())
}

// The byte that the last write has at an offset.
fn written(notes: &Notes, at: u64) -> u8 {
    let index = at.wrapping_sub(notes.latest.0);
    notes.latest.1.get(index as usize).copied().unwrap_or(0)
}

// Any bytes up to the end.
fn garbage(
    patch: &mut Vec<(u64, u8)>,
    chance: &mut Chance,
    from: u64,
    to: u64,
) -> Result<(), AllocError> {
    for at in chance.within(from, to.wrapping_sub(1))..to {
        patch.push((at, chance.byte()))?;
    }
    Ok(())
}
