//! What a check finds.

use crate::check::Noted;
use crate::damage;
use crate::entries::{Unread, find_unread};
use crate::noted_device::{Change, NotedDevice};
use crate::records::count_nonzero;
use anyhow::{Error, Result, anyhow};
use sled_log::device::Checksum;
use sled_log::logger::Log;
use sled_log::snapshot::{Snapshot, read_startable_snapshot};
use std::alloc::{AllocError, Global};

/// A change of the files. If bytes of the log file become zeros or are cut off, also how many of them are something else.
#[derive(Debug, Clone, Copy)]
pub(crate) struct Effect {
    pub(crate) change: Change,
    pub(crate) nonzero: Option<u64>,
}

/// What a check finds, as far as it came.
#[derive(Drop)]
pub(crate) struct Findings {
    /// The table of pages, and where the log goes on.
    pub(crate) snapshot: Option<Snapshot>,
    /// What a recovery changes.
    pub(crate) recovery: Option<Vec<Effect>>,
    /// What an opening changes behind it.
    pub(crate) opening: Option<Vec<Effect>>,
    /// The messages of pages that can't be read.
    pub(crate) unread: Vec<Unread>,
    /// How many bytes of the log file a recovery drops that aren't zeros.
    pub(crate) dropped: u64,
}

impl Findings {
    /// Nothing was found yet.
    pub(crate) fn new(alloc: Global) -> Findings {
        Findings {
            snapshot: None,
            recovery: None,
            opening: None,
            unread: Vec::new(alloc),
            dropped: 0,
        }
    }
}

/// Recovers, opens a log on what comes of that, and reads each message of its pages. The log file had these bytes.
pub(crate) fn find_all<C: Checksum + Drop>(
    alloc: Global,
    folder: &str,
    config: Noted<C>,
    log: &[u8],
    findings: &mut Findings,
) -> Result<()> {
    let mut config = config;
    let snapshot = match read_startable_snapshot(&mut config) {
        Ok(snapshot) => snapshot,
        Err(error) => return Err(damage::explained(alloc, folder, &mut config, error)),
    };
    let recovery = effects_of(alloc, &mut config.device, log)?;
    findings.dropped = sum_of(&recovery);
    findings.recovery = Some(recovery);
    let outcome = open(alloc, folder, config, &snapshot, log, findings);
    findings.snapshot = Some(snapshot);
    outcome
}

// Opens a log on what was recovered, and reads the messages of its pages.
fn open<C: Checksum + Drop>(
    alloc: Global,
    folder: &str,
    config: Noted<C>,
    snapshot: &Snapshot,
    log: &[u8],
    findings: &mut Findings,
) -> Result<()> {
    let mut config = match Log::start(config, snapshot) {
        Ok(log) => log.halt(),
        Err((error, mut config)) => {
            return Err(damage::explained(alloc, folder, &mut config, error));
        }
    };
    findings.opening = Some(effects_of(alloc, &mut config.device, log)?);
    findings.unread = match find_unread(&mut config, snapshot) {
        Ok(unread) => unread,
        Err(error) => return Err(damage::named(alloc, folder, Error::from(error))),
    };
    Ok(())
}

// How many bytes that aren't zeros some changes take away.
fn sum_of(effects: &[Effect]) -> u64 {
    let mut sum = 0u64;
    for effect in effects {
        sum = sum.saturating_add(effect.nonzero.unwrap_or(0));
    }
    sum
}

// The changes that a device noted, which forgets them.
fn effects_of(alloc: Global, device: &mut NotedDevice, log: &[u8]) -> Result<Vec<Effect>> {
    if !device.is_complete {
        return Err(anyhow!("out of memory for all of the changes"));
    }
    Ok(with_counts(alloc, device.take_changes(alloc), log)?)
}

fn with_counts(
    alloc: Global,
    changes: Vec<Change>,
    log: &[u8],
) -> std::result::Result<Vec<Effect>, AllocError> {
    let mut effects = Vec::new(alloc);
    for change in &changes {
        let nonzero = match *change {
            Change::Zeros { at, len } => Some(count_nonzero(log, at, len)),
            Change::Cut { len } => Some(count_nonzero(log, len, u64::MAX)),
            _ => None,
        };
        effects.push(Effect {
            change: *change,
            nonzero,
        })?;
    }
    Ok(effects)
}
