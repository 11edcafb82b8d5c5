//! Making the patches of crashes as small as they get.

use crate::script::{Script, Stay, Step};
use crate::shrink::still_fails;
use sled_log::config::Config;
use sled_log::device::Choice;
use sled_log::session::Command;
use std::alloc::{AllocError, Global};
use std::mem;

type Patch = Vec<(u64, u8)>;

/// Leaves bytes out of the patches of a script; whether any were.
pub fn shrink_patches(alloc: Global, config: Config, script: &mut Script) -> bool {
    let mut is_smaller = false;
    for index in 0..script.steps.len() {
        is_smaller |= shrink_at(alloc, config, script, index);
    }
    is_smaller
}

// Tries all of a patch, then halves, then ever smaller parts.
fn shrink_at(alloc: Global, config: Config, script: &mut Script, index: usize) -> bool {
    let mut is_smaller = false;
    let mut width = patch_len(&script.steps, index);
    for _ in 0..32 {
        if width == 0 {
            break;
        }
        is_smaller |= leave_out(alloc, config, script, index, width);
        width /= 2;
    }
    is_smaller
}

// Tries to leave out each part of this width, the last first.
fn leave_out(
    alloc: Global,
    config: Config,
    script: &mut Script,
    index: usize,
    width: usize,
) -> bool {
    let mut is_smaller = false;
    let len = patch_len(&script.steps, index);
    let parts = len.checked_div(width).unwrap_or(0);
    for part in 0..parts.wrapping_add(1) {
        let begin = parts.wrapping_sub(part).wrapping_mul(width);
        if begin < len {
            is_smaller |= try_without(alloc, config, script, index, begin, width);
        }
    }
    is_smaller
}

// Leaves a part out where the rest still fails; whether it does.
fn try_without(
    alloc: Global,
    config: Config,
    script: &mut Script,
    index: usize,
    begin: usize,
    width: usize,
) -> bool {
    let Ok(less) = without(alloc, &script.steps, index, begin, width) else {
        return false;
    };
    let all = swap(&mut script.steps, index, less);
    if still_fails(alloc, config, script) {
        return true;
    }
    let _ = swap(&mut script.steps, index, all);
    false
}

// A patch without a part.
fn without(
    alloc: Global,
    steps: &[Step],
    index: usize,
    begin: usize,
    width: usize,
) -> Result<Patch, AllocError> {
    let mut less = Vec::new(alloc);
    let Some(patch) = patch_of(steps, index) else {
        return Ok(less);
    };
    let end = begin.wrapping_add(width);
    for (i, one) in patch.iter().enumerate() {
        if i < begin || i >= end {
            less.push(*one)?;
        }
    }
    Ok(less)
}

fn patch_len(steps: &[Step], index: usize) -> usize {
    match patch_of(steps, index) {
        Some(patch) => patch.len(),
        None => 0,
    }
}

// The patch of a crash that is kept.
fn patch_of(steps: &[Step], index: usize) -> Option<&[(u64, u8)]> {
    let step = steps.get(index)?;
    if step.stay != Stay::Kept {
        return None;
    }
    let [command] = &step.command;
    match command {
        Command::Crash(Choice::Old(patch)) => Some(patch.as_slice()),
        Command::Crash(Choice::New(patch)) => Some(patch.as_slice()),
        _ => None,
    }
}

// Puts a patch in the place of another, which is given back.
fn swap(steps: &mut Vec<Step>, index: usize, patch: Patch) -> Patch {
    let Some(step) = steps.get_mut(index) else {
        return patch;
    };
    let [command] = &mut step.command;
    match command {
        Command::Crash(Choice::Old(old)) => mem::replace(old, patch),
        Command::Crash(Choice::New(old)) => mem::replace(old, patch),
        _ => patch,
    }
}
