//! Making a script that fails as small as it gets: parts of it are left out as long as the rest still fails.

mod patches;
mod tickets;

use crate::run::replay;
use crate::script::{Script, Stay, Step};
use crate::shrink::patches::shrink_patches;
use crate::shrink::tickets::shrink_tickets;
use sled_log::config::Config;
use std::alloc::Global;

/// Leaves out of a script what it doesn't need to fail: halves first, then ever smaller parts, then single commands,
/// tickets, and bytes of patches, until none can be left out.
pub fn shrink(alloc: Global, config: Config, script: &mut Script) {
    for _ in 0..12 {
        let has_fewer = shrink_once(alloc, config, script);
        let has_fewer_tickets = shrink_tickets(alloc, config, script);
        let has_less = shrink_patches(alloc, config, script);
        if !has_fewer && !has_fewer_tickets && !has_less {
            return;
        }
    }
}

// Tries each width once; whether anything was left out.
fn shrink_once(alloc: Global, config: Config, script: &mut Script) -> bool {
    let mut is_smaller = false;
    let mut width = script.steps.len();
    for _ in 0..32 {
        width /= 2;
        if width == 0 {
            break;
        }
        is_smaller |= leave_out(alloc, config, script, width);
    }
    is_smaller
}

// Tries to leave out each part of this width; whether one was.
fn leave_out(alloc: Global, config: Config, script: &mut Script, width: usize) -> bool {
    let mut is_smaller = false;
    let parts = script.steps.len().checked_div(width).unwrap_or(0);
    for part in 0..parts.wrapping_add(1) {
        let begin = part.wrapping_mul(width);
        if try_out(&mut script.steps, begin, width) {
            let goes = still_fails(alloc, config, script);
            settle(&mut script.steps, goes);
            is_smaller |= goes;
        }
    }
    is_smaller
}

// Whether a script fails, and nothing foreign came in.
fn still_fails(alloc: Global, config: Config, script: &mut Script) -> bool {
    let outcome = replay(alloc, config, script);
    outcome.failure.is_some() && !outcome.is_foreign
}

// Leaves out a part for a try; whether anything was in it.
fn try_out(steps: &mut Vec<Step>, begin: usize, width: usize) -> bool {
    let mut is_any = false;
    let end = begin.wrapping_add(width);
    for (i, step) in steps.iter_mut().enumerate() {
        if i >= begin && i < end && step.stay == Stay::Kept {
            step.stay = Stay::Tried;
            is_any = true;
        }
    }
    is_any
}

// Leaves out for good what was tried, or puts it back.
fn settle(steps: &mut Vec<Step>, goes: bool) {
    for step in steps.iter_mut() {
        if step.stay == Stay::Tried {
            step.stay = if goes { Stay::Gone } else { Stay::Kept };
        }
    }
}
