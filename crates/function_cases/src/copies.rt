//! A copy of what a device holds (`sled_file::copy`): of a copy slot by slot all that passes as the log's own is so.

use case_lines::lines::Words;
use case_lines::noted::{Calls, Noted};
use sled_file::copy::{contents_of, fill};
use sled_log::config::Config;
use sled_log::device::{MemDevice, Offer, PlaceSum};
use sled_log::result::{Error, Result};
use sled_log::session::{Command, Session};
use sled_oracle::foreign::names::NamesPast;
use sled_oracle::foreign::{LogNote, LogPast, LogWrite};
use sled_oracle::own::{LeftFiles, Past, nothing_is_foreign};
use std::alloc::Global;

/// Two segments are copied by a write each, and all that passes as the log's own in the copy is so. Of a copy by one write
/// nothing past the first segment is.
pub fn are_own(alloc: Global) -> Result<bool> {
    let Some(size) = Config::new(256) else {
        return Ok(false);
    };
    let content = two_segments(alloc, size)?;
    let log = &content.bytes;
    let mut device = Noted {
        device: MemDevice::new(alloc),
        calls: Calls::new(alloc),
    };
    fill(&mut device, size, &content)?;
    let is_noted = device.calls.is_complete;
    let writes = writes_of(alloc, &device.calls)?;
    let is_same = contents_of(alloc, &mut device)?.bytes.as_slice() == log.as_slice();
    let mut whole = Vec::new(alloc);
    whole.push(LogNote::Wrote(LogWrite::new(0, Vec::from_slice(alloc, log)?)))?;
    Ok(
        log.len() > 256
            && is_noted
            && is_same
            && is_own(alloc, log, writes)?
            && !is_own(alloc, log, whole)?,
    )
}

// What a device holds after thirteen messages of 20 bytes each, eleven of which fill the first segment.
fn two_segments(alloc: Global, size: Config) -> Result<Offer> {
    let mut commands = Vec::new(alloc);
    commands.push(Command::Open)?;
    for page in 0..13 {
        commands.push(Command::Replace(page, Vec::from_slice(alloc, &[7; 11])?))?;
        commands.push(Command::Complete(page as usize))?;
    }
    commands.push(Command::Flush)?;
    let mut session = Session::new(alloc, size, MemDevice::new(alloc), PlaceSum);
    let outcome = session.run(&commands);
    let mut device = session.end();
    outcome?;
    Ok(contents_of(alloc, &mut device)?)
}

// The writes to the log file among some calls, in order: of each a line has the offset, the length, and the bytes up to the
// last one that isn't zero.
fn writes_of(alloc: Global, calls: &Calls) -> Result<Vec<LogNote>> {
    let mut notes = Vec::new(alloc);
    for line in &calls.lines {
        let Some(rest) = line.as_str().strip_prefix("call write_at ") else {
            continue;
        };
        let mut words = Words::new(rest);
        let (at, len) = (words.number(), words.number());
        let mut bytes = words.bytes(alloc);
        bytes.resize(len as usize, 0)?;
        if words.end().is_err() {
            return Err(Error::Corruption { at: None });
        }
        notes.push(LogNote::Wrote(LogWrite::new(at, bytes)))?;
    }
    Ok(notes)
}

// Whether what passes as the log's own in a log file is so, where it was copied by these writes and synced.
fn is_own(alloc: Global, log: &[u8], writes: Vec<LogNote>) -> Result<bool> {
    let mut notes = writes;
    notes.push(LogNote::Settled(Vec::from_slice(alloc, log)?))?;
    let past = Past {
        log: LogPast { notes },
        blobs: no_names(alloc),
        snapshots: no_names(alloc),
    };
    let left = LeftFiles {
        log: Vec::from_slice(alloc, log)?,
        blobs: Vec::new(alloc),
        snapshots: Vec::new(alloc),
    };
    nothing_is_foreign(alloc, &PlaceSum, 256, &past, &left)
}

// No files.
fn no_names(alloc: Global) -> NamesPast {
    NamesPast {
        settled: Vec::new(alloc),
        asked: Vec::new(alloc),
    }
}
