//! Hostile bytes: what a device has, with one of its files cut or one byte of it changed. Whatever stands there then, the
//! recovery that users call answers as the plain one does, another one behind it answers the same again, and the start of a
//! log on that table ends as it may.
//!
//! The cases have the format of `recovery.txt` (`recovery.rt`). Their answers aren't read: what counts is what the plain
//! recovery answers.

use crate::recovery::{Content, device_of, done, line_of, table_of};
use case_lines::devices::log_of;
use case_lines::lines::{Fault, Outcome};
use case_lines::tally::Tally;
use case_lines::texts::Text;
use sled_log::config::{Config, RunningConfig};
use sled_log::device::{Device, MemDevice, PlaceSum};
use sled_log::logger::Log;
use sled_log::result::Error;
use sled_log::snapshot::reference::reference_recovery;
use sled_log::snapshot::{Snapshot, read_snapshot_or_default};
use std::alloc::Global;

/// Of the changes of a file one in so many is tried, as all of them take half a minute. Each kind comes, as a byte has two or three.
const ONE_IN: usize = 7;

/// A file of a device.
#[derive(Debug, Clone, Copy, PartialEq)]
enum File {
    Log,
    Blob(i64),
    Snapshot(i64),
}

/// What is done to a file.
#[derive(Debug, Clone, Copy, PartialEq)]
enum Change {
    /// The first bytes are left, so many.
    Cut(usize),
    /// At this offset this byte stands.
    Byte(usize, u8),
}

/// Runs the cases of a file.
pub fn run(alloc: Global, text: &str, tally: &mut Tally<'_>) {
    let mut content = Content::new(alloc);
    for (number, line) in text.lines().enumerate() {
        content.line(line);
        if line == "end" {
            let came = answer_of(alloc, &content);
            tally.case(number.wrapping_add(1), "the same", came.as_str());
        }
    }
}

// What came of a case.
fn answer_of(alloc: Global, content: &Content<'_>) -> Text {
    match judge(alloc, content) {
        Ok(text) => text,
        Err(Fault(why)) => line_of(alloc, why),
    }
}

// Whether both recoveries answer the same behind each change that is tried, or one behind which they don't.
fn judge(alloc: Global, content: &Content<'_>) -> Outcome<Text> {
    let content = content.lines()?;
    let (size, mut device) = device_of(alloc, content)?;
    let Some(config) = Config::new(size) else {
        return Err(Fault("no size of segments"));
    };
    let case = Case {
        alloc,
        config,
        content,
    };
    for (file, bytes) in &files_of(alloc, &mut device)? {
        for (number, change) in changes_of(alloc, bytes)?.iter().enumerate() {
            if number % ONE_IN != 0 {
                continue;
            }
            if let Some(differs) = case.differs(*file, bytes, *change)? {
                return Ok(differs);
            }
        }
    }
    Ok(line_of(alloc, "the same"))
}

// The files that a device has, each with its bytes.
fn files_of(alloc: Global, device: &mut MemDevice) -> Outcome<Vec<(File, Vec<u8>)>> {
    let mut files = Vec::new(alloc);
    files.push((File::Log, done(log_of(alloc, device))?))?;
    for place in &done(device.blobs())? {
        files.push((File::Blob(*place), done(device.blob_read(*place))?))?;
    }
    for number in &done(device.snapshots())? {
        files.push((
            File::Snapshot(*number),
            done(device.snapshot_read(*number))?,
        ))?;
    }
    Ok(files)
}

// What may be done to a file with these bytes: each cut, the last of which changes nothing, and of each byte the next one and zero.
fn changes_of(alloc: Global, bytes: &[u8]) -> Outcome<Vec<Change>> {
    let mut changes = Vec::new(alloc);
    for (at, byte) in bytes.iter().enumerate() {
        changes.push(Change::Cut(at))?;
        changes.push(Change::Byte(at, byte.wrapping_add(1)))?;
        // The next one of the greatest byte is zero already.
        if *byte != 0 && *byte != u8::MAX {
            changes.push(Change::Byte(at, 0))?;
        }
    }
    changes.push(Change::Cut(bytes.len()))?;
    Ok(changes)
}

// A device of which a file is changed, as the lines of a case say what is on it.
#[derive(Clone, Copy)]
struct Case<'a> {
    alloc: Global,
    config: Config,
    content: &'a [&'a str],
}

impl<'a> Case<'a> {
    // What was changed and what was answered, where the recoveries differ behind this change of a file with these bytes.
    fn differs(&self, file: File, bytes: &[u8], change: Change) -> Outcome<Option<Text>> {
        let device = self.device(file, bytes, change)?;
        let mut config = RunningConfig::new(self.alloc, self.config, device, PlaceSum);
        let wanted = table_of(self.alloc, &plain_answer(&mut config))?;
        let came = self.answer(config)?;
        if came.as_str() == wanted.as_str() {
            return Ok(None);
        }
        let mut text = Text::new(self.alloc);
        push_change(&mut text, file, change);
        text.push(": the plain one ");
        text.push(wanted.as_str());
        text.push(", the call ");
        text.push(came.as_str());
        Ok(Some(text))
    }

    // The device behind a change of a file with these bytes. All of it is settled.
    fn device(&self, file: File, bytes: &[u8], change: Change) -> Outcome<MemDevice> {
        let (_, mut device) = device_of(self.alloc, self.content)?;
        put(&mut device, file, &changed(self.alloc, bytes, change)?)?;
        done(device.sync())?;
        done(device.sync_names())?;
        Ok(device)
    }

    // What the recovery that users call answers, with what follows it where that isn't as it should be.
    fn answer(&self, mut config: RunningConfig<MemDevice, PlaceSum>) -> Outcome<Text> {
        let answer = without_pointer(read_snapshot_or_default(&mut config));
        let text = table_of(self.alloc, &answer)?;
        match answer {
            Ok(snapshot) => self.go_on(config, &snapshot, text),
            Err(_e) => Ok(text),
        }
    }

    // Recovers once more behind this table, and starts a log on it. Adds what comes where it isn't as it should be.
    fn go_on(
        &self,
        mut config: RunningConfig<MemDevice, PlaceSum>,
        snapshot: &Snapshot,
        mut text: Text,
    ) -> Outcome<Text> {
        let again = table_of(self.alloc, &read_snapshot_or_default(&mut config))?;
        if again.as_str() != text.as_str() {
            text.push(", then ");
            text.push(again.as_str());
        }
        push_start(&mut text, config, snapshot);
        Ok(text)
    }
}

// What the plain recovery answers, in the words of the one that users call.
fn plain_answer(config: &mut RunningConfig<MemDevice, PlaceSum>) -> Result<Snapshot, Error> {
    match reference_recovery(config) {
        Ok(Some(snapshot)) => Ok(snapshot),
        Ok(None) => Err(Error::Corruption { at: None }),
        Err(e) => Err(e),
    }
}

// An answer that doesn't say where the damage is, which the plain recovery doesn't say either.
fn without_pointer(answer: Result<Snapshot, Error>) -> Result<Snapshot, Error> {
    match answer {
        Err(Error::Corruption { at: _ }) => Err(Error::Corruption { at: None }),
        answer => answer,
    }
}

// Adds how the start of a log ends where that is neither a log nor one of the errors that a table can bring about.
fn push_start(text: &mut Text, config: RunningConfig<MemDevice, PlaceSum>, snapshot: &Snapshot) {
    match Log::start(config, snapshot) {
        Ok(log) => {
            let _ = log.halt();
        }
        Err((Error::Corruption { at: _ } | Error::PlacesUsedUp, _)) => {}
        Err((e, _)) => {
            text.push(", start ");
            text.error(&e);
        }
    }
}

// These bytes with a change.
fn changed(alloc: Global, bytes: &[u8], change: Change) -> Outcome<Vec<u8>> {
    let mut changed = Vec::new(alloc);
    changed.extend_from_slice(bytes)?;
    match change {
        Change::Cut(len) => changed.truncate(len),
        Change::Byte(at, byte) => {
            if let Some(old) = changed.get_mut(at) {
                *old = byte;
            }
        }
    }
    Ok(changed)
}

// Puts these bytes in the place of what a file had.
fn put(device: &mut MemDevice, file: File, bytes: &[u8]) -> Outcome<()> {
    match file {
        File::Log => {
            done(device.cut(0))?;
            done(device.write_at(0, bytes))
        }
        File::Blob(place) => {
            done(device.blob_remove(place))?;
            done(device.blob_create(place, bytes))?;
            done(device.blob_sync(place))
        }
        File::Snapshot(number) => {
            done(device.snapshot_write(bytes))?;
            done(device.snapshot_publish(number))
        }
    }
}

// Adds what was changed.
fn push_change(text: &mut Text, file: File, change: Change) {
    push_file(text, file);
    match change {
        Change::Cut(len) => {
            text.push(" cut to ");
            text.number(len as u64);
        }
        Change::Byte(at, byte) => {
            text.push(" byte ");
            text.number(at as u64);
            text.push(" to ");
            text.number(byte as u64);
        }
    }
}

// Adds which file it is.
fn push_file(text: &mut Text, file: File) {
    match file {
        File::Log => text.push("log"),
        File::Blob(place) => {
            text.push("blob ");
            text.signed(place);
        }
        File::Snapshot(number) => {
            text.push("snapshot ");
            text.signed(number);
        }
    }
}
