//! What a log has, by calls: it is recovered, started and gone over, each once more where memory was refused.

use crate::{TRIES, met};
use sled_log::config::RunningConfig;
use sled_log::device::{Device, MemDevice, PlaceSum};
use sled_log::logger::{DiskPtr, Log, LogKind, Lsn, PageId};
use sled_log::result::Error;
use sled_log::snapshot::{Snapshot, read_snapshot_or_default};

// What a log runs on.
type Running = RunningConfig<MemDevice, PlaceSum>;

// A message: what it does to which page, its place, where it lies, and how long its record is.
type Found = (LogKind, PageId, Lsn, DiskPtr, u64);

/// Prints the recovered place, the length of the log file, and how many messages a log gives, with the first and the last one.
pub(crate) fn tell_messages(rt: &HostRuntime, mut config: Running) {
    let Some(snapshot) = recovered(rt, &mut config) else {
        let _ = println!(rt; "no recovery");
        return;
    };
    match started(rt, config, &snapshot) {
        Some(mut log) => {
            tell_found(rt, &mut log);
            let mut config = log.halt();
            let pages = snapshot.pt.len();
            if let (Some(place), Ok(len)) = (snapshot.stable_lsn, config.device.len()) {
                let _ = println!(rt; "recovered {place}, {pages} pages, {len} bytes");
            }
        }
        None => {
            let _ = println!(rt; "no log");
        }
    }
}

// What a recovery answers.
fn recovered(rt: &HostRuntime, config: &mut Running) -> Option<Snapshot> {
    for _ in 0..TRIES {
        match read_snapshot_or_default(config) {
            Ok(snapshot) => return Some(snapshot),
            Err(Error::OutOfMemory) => met(rt, "a recovery"),
            Err(_) => return None,
        }
    }
    None
}

// A log that is started on this.
fn started(
    rt: &HostRuntime,
    mut config: Running,
    snapshot: &Snapshot,
) -> Option<Log<MemDevice, PlaceSum>> {
    for _ in 0..TRIES {
        match Log::start(config, snapshot) {
            Ok(log) => return Some(log),
            Err((Error::OutOfMemory, given_back)) => {
                met(rt, "a start");
                config = given_back;
            }
            Err(_) => return None,
        }
    }
    None
}

// Prints how many messages a log gives, and the first and the last one.
fn tell_found(rt: &HostRuntime, log: &mut Log<MemDevice, PlaceSum>) {
    for _ in 0..TRIES {
        match found(log) {
            Ok((count, first, last)) => {
                let _ = println!(rt; "{count} messages");
                tell_message(rt, first);
                tell_message(rt, last);
                return;
            }
            Err(Error::OutOfMemory) => met(rt, "an iterator"),
            Err(_) => {}
        }
    }
    let _ = println!(rt; "not gone over");
}

// How many messages a log gives, the first one and the last one.
fn found(log: &mut Log<MemDevice, PlaceSum>) -> Result<(u64, Option<Found>, Option<Found>), Error> {
    let mut messages = log.iter_from(0);
    let (mut count, mut first, mut last) = (0u64, None, None);
    for message in messages.by_ref() {
        let message = message?;
        count = count.wrapping_add(1);
        first = first.or(Some(message));
        last = Some(message);
    }
    Ok((count, first, last))
}

// Prints a message.
fn tell_message(rt: &HostRuntime, message: Option<Found>) {
    if let Some((kind, page, place, at, len)) = message {
        let _ = println!(rt;
            "{} page {page} place {place} {at} length {len}",
            word_of(kind)
        );
    }
}

// The word of what a message does.
fn word_of(kind: LogKind) -> &'static str {
    match kind {
        LogKind::Replace => "replace",
        LogKind::Link => "link",
        LogKind::Free => "free",
        LogKind::Skip | LogKind::Corrupted => "nothing",
    }
}
