//! Runs random sessions until so many recoveries were made, or one is wrong.

use crate::chance::Chance;
use crate::counts::Counts;
use crate::maker::{Habits, Maker};
use crate::reference::wrong::Wrong;
use crate::run::{Failure, Run, misjudged, replay};
use crate::script::Script;
use crate::shrink::shrink;
use sled_log::config::Config;
use sled_log::session::Command;
use std::alloc::Global;

/// A script with a wrong reply at its end.
#[derive(Drop)]
pub struct Found {
    pub script: Script,
    pub failure: Failure,
}

/// Runs sessions until so many recoveries were made. Returns the first that is wrong, as small as it gets.
pub fn soak(alloc: Global, recoveries: u64, seed: u64, counts: &mut Counts) -> Option<Found> {
    let mut chance = Chance::new(seed);
    for _ in 0..u64::MAX {
        if counts.recoveries >= recoveries {
            break;
        }
        let habits = Habits::choose(&mut chance);
        let config = Config::new(habits.size)?;
        let found = session(alloc, config, habits, &mut chance, recoveries, counts);
        if found.is_some() {
            return found;
        }
    }
    None
}

// Runs one session. A wrong reply counts only where no crash left something foreign.
fn session(
    alloc: Global,
    config: Config,
    habits: Habits,
    chance: &mut Chance,
    recoveries: u64,
    counts: &mut Counts,
) -> Option<Found> {
    counts.sessions = counts.sessions.wrapping_add(1);
    let mut script = Script {
        size: habits.size,
        steps: Vec::new(alloc),
    };
    let mut run = Run::begin(alloc, config, false);
    let failure = drive(
        alloc,
        &mut run,
        &mut script,
        habits,
        chance,
        recoveries,
        counts,
    );
    counts.segments = counts.segments.wrapping_add(run.reference.segments);
    counts.reused = counts.reused.wrapping_add(run.reference.reused);
    let notes = run.end();
    if let Some(notes) = &notes {
        counts.cuts = counts.cuts.wrapping_add(notes.cuts);
    }
    misjudged(failure, &notes)?;
    smallest(alloc, config, script, counts)
}

// The smallest script that fails, of one that does.
fn smallest(alloc: Global, config: Config, script: Script, counts: &mut Counts) -> Option<Found> {
    let mut script = script;
    let outcome = replay(alloc, config, &mut script);
    if outcome.is_foreign {
        counts.foreign = counts.foreign.wrapping_add(1);
        return None;
    }
    shrink(alloc, config, &mut script);
    let outcome = replay(alloc, config, &mut script);
    let failure = outcome.failure.unwrap_or(Failure {
        reply: None,
        wrong: Wrong::Wanted("the same replies once more"),
    });
    Some(Found { script, failure })
}

// Makes one command after another, and runs it.
fn drive(
    alloc: Global,
    run: &mut Run,
    script: &mut Script,
    habits: Habits,
    chance: &mut Chance,
    recoveries: u64,
    counts: &mut Counts,
) -> Option<Failure> {
    let mut maker = Maker::new(alloc, habits);
    for _ in 0..habits.commands {
        if counts.recoveries >= recoveries {
            break;
        }
        let Ok(command) = maker.next(chance, run) else {
            return Some(no_memory());
        };
        let is_open = matches!(&command, Command::Open);
        let command = [command];
        let outcome = run.step(&command, counts);
        if script.push(command).is_err() {
            return Some(no_memory());
        }
        if let Err(failure) = outcome {
            return Some(failure);
        }
        if is_open && run.reference.is_open() {
            maker.opened(chance, run.reference.pages());
        }
    }
    None
}

fn no_memory() -> Failure {
    Failure {
        reply: None,
        wrong: Wrong::Wanted("memory for a command"),
    }
}
