//! Leaving out whole tickets: the command that reserves, and those that spend it. Later tickets have lower numbers then.

use crate::run::replay;
use crate::script::{Gave, Script, Stay, Step};
use crate::shrink::{settle, still_fails};
use sled_log::config::Config;
use sled_log::session::Command;
use std::alloc::Global;

/// Leaves tickets out of a script; whether any were.
pub fn shrink_tickets(alloc: Global, config: Config, script: &mut Script) -> bool {
    let mut is_smaller = false;
    let _ = replay(alloc, config, script);
    for index in 0..script.steps.len() {
        if let Some(number) = ticket_at(&script.steps, index) {
            is_smaller |= try_without(alloc, config, script, index, number);
        }
    }
    is_smaller
}

// The ticket that a command gave.
fn ticket_at(steps: &[Step], index: usize) -> Option<usize> {
    match steps.get(index) {
        Some(step) if step.stay == Stay::Kept => match step.gave {
            Gave::Ticket(number) => Some(number),
            Gave::Nothing | Gave::Log => None,
        },
        _ => None,
    }
}

// Leaves a ticket out where the rest still fails; whether it does.
fn try_without(
    alloc: Global,
    config: Config,
    script: &mut Script,
    index: usize,
    number: usize,
) -> bool {
    let end = end_of_log(&script.steps, index);
    take_out(&mut script.steps, index, end, number);
    if still_fails(alloc, config, script) {
        settle(&mut script.steps, true);
        return true;
    }
    put_back(&mut script.steps, index, end, number);
    settle(&mut script.steps, false);
    let _ = replay(alloc, config, script);
    false
}

// Which command opens the next log behind one.
fn end_of_log(steps: &[Step], index: usize) -> usize {
    for (i, step) in steps.iter().enumerate() {
        if i > index && step.stay == Stay::Kept && step.gave == Gave::Log {
            return i;
        }
    }
    steps.len()
}

// Leaves out a ticket for a try.
fn take_out(steps: &mut Vec<Step>, index: usize, end: usize, number: usize) {
    for (i, step) in steps.iter_mut().enumerate() {
        if i == index {
            step.stay = Stay::Tried;
        } else if i > index && i < end && step.stay == Stay::Kept {
            take_from(step, number);
        }
    }
}

// Leaves out a command that spends a ticket, and lowers the number of a later one.
fn take_from(step: &mut Step, number: usize) {
    let [command] = &mut step.command;
    match command {
        Command::Complete(n) | Command::Abort(n) => {
            if *n == number {
                step.stay = Stay::Tried;
            } else if *n > number {
                *n = n.wrapping_sub(1);
            }
        }
        _ => {}
    }
}

// Gives the later tickets their numbers again.
fn put_back(steps: &mut Vec<Step>, index: usize, end: usize, number: usize) {
    for (i, step) in steps.iter_mut().enumerate() {
        if i > index && i < end && step.stay == Stay::Kept {
            put_to(step, number);
        }
    }
}

fn put_to(step: &mut Step, number: usize) {
    let [command] = &mut step.command;
    match command {
        Command::Complete(n) | Command::Abort(n) => {
            if *n >= number {
                *n = n.wrapping_add(1);
            }
        }
        _ => {}
    }
}
