//! Hostile bytes: what a device has, with one of its files cut, or one byte of it changed. Whatever stands there then, the recovery
//! that users call answers as the plain one does. Where that is damage nothing was written. Else another recovery behind it answers the
//! same again, and a log is started on the table, gone over, and read. Each call answers what its contract allows, an iterator over the file too.
//!
//! Of the 256 changes of a byte one is the cut in front of it, and the others give it each other value.

use crate::files::{File, Files, device_with, files_of, push_file};
use crate::scripts::Script;
use case_lines::lines::{Fault, Outcome, Words};
use case_lines::tally::Tally;
use case_lines::texts::Text;
use sled_log::config::{Config, RunningConfig};
use sled_log::device::{MemDevice, PlaceSum};
use sled_log::iterator::{LogIter, raw_segment_iter_from};
use sled_log::logger::{DiskPtr, Log, Lsn, PageId};
use sled_log::result::Error;
use sled_log::serialization::snapshot::PageState;
use sled_log::session::{Command, Session};
use sled_log::snapshot::reference::reference_recovery;
use sled_log::snapshot::{Snapshot, read_snapshot_or_default};
use std::alloc::Global;
use std::io::ErrorKind;

// What a log runs on.
type Running = RunningConfig<MemDevice, PlaceSum>;

/// Runs the cases of a file. `changes STRIDE COUNT` asks for one in so many of the changes of each file of the device, so many in all. Each
/// of them counts, and their number.
pub(crate) fn run(alloc: Global, text: &str, tally: &mut Tally<'_>) {
    let mut script = Script::new(alloc);
    for (number, line) in text.lines().enumerate() {
        let number = number.wrapping_add(1);
        let outcome = match script.take(line) {
            Ok(None) => Ok(()),
            Ok(Some(("changes", behind))) => sweep(alloc, &script, behind, number, tally),
            Ok(Some(_)) => Err(Fault("no such line")),
            Err(fault) => Err(fault),
        };
        if let Err(Fault(why)) = outcome {
            tally.case(number, line, why);
        }
    }
}

// Tries one in so many of the changes of a case.
fn sweep(
    alloc: Global,
    script: &Script,
    behind: &str,
    line: usize,
    tally: &mut Tally<'_>,
) -> Outcome<()> {
    let mut words = Words::new(behind);
    let (stride, wanted) = (words.number() as usize, words.word());
    words.end()?;
    let config = script.config()?;
    let mut device = device_behind(alloc, config, script.commands())?;
    let files = files_of(alloc, &mut device)?;
    let case = Case {
        alloc,
        config,
        files: &files,
    };
    let mut count = 0u64;
    for index in 0..files.len() {
        count = count.wrapping_add(case.sweep_file(index, stride, line, tally)?);
    }
    let mut text = Text::new(alloc);
    text.number(count);
    tally.case(line, wanted, text.as_str());
    Ok(())
}

// The device behind these commands.
fn device_behind(alloc: Global, config: Config, commands: &[Command]) -> Outcome<MemDevice> {
    let mut session = Session::new(alloc, config, MemDevice::new(alloc), PlaceSum);
    let ran = session.run(commands);
    let device = session.end();
    let _ = ran?;
    Ok(device)
}

// A device of which a file is changed.
#[derive(Clone, Copy)]
struct Case<'a> {
    alloc: Global,
    config: Config,
    files: &'a Files,
}

impl<'a> Case<'a> {
    // Tries one in so many of the changes of the file of this index. Returns how many there were.
    fn sweep_file(
        &self,
        index: usize,
        stride: usize,
        line: usize,
        tally: &mut Tally<'_>,
    ) -> Outcome<u64> {
        let Some((file, bytes)) = self.files.get(index) else {
            return Ok(0);
        };
        let mut count = 0u64;
        for number in 0..bytes.len().saturating_mul(256) {
            if number.checked_rem(stride) != Some(0) {
                continue;
            }
            count = count.wrapping_add(1);
            let (at, value) = (number / 256, (number % 256) as u8);
            let changed = changed(self.alloc, bytes, at, value)?;
            match self.judge(index, &changed)? {
                None => tally.count(false),
                Some(why) => {
                    let mut text = Text::new(self.alloc);
                    push_change(&mut text, *file, at, value);
                    text.push(why.as_str());
                    tally.case(line, "as it should be", text.as_str());
                }
            }
        }
        Ok(count)
    }

    // What isn't as it should be behind these bytes of the file of this index.
    fn judge(&self, index: usize, changed: &[u8]) -> Outcome<Option<Text>> {
        let device = device_with(self.alloc, self.files, index, changed)?;
        let mut config = RunningConfig::new(self.alloc, self.config, device, PlaceSum);
        if !is_scanned(&mut config) {
            return Ok(Some(self.line("an iterator's answer")));
        }
        let wanted = reference_recovery(&mut config);
        let came = read_snapshot_or_default(&mut config);
        if !are_alike(&wanted, &came) {
            return Ok(Some(self.table(&came)));
        }
        match came {
            Ok(snapshot) => self.go_on(config, &snapshot),
            Err(_e) => {
                let left = files_of(self.alloc, &mut config.device)?;
                Ok(self.unless(self.is_left(&left, index, changed), "it was written to"))
            }
        }
    }

    // A line of these words.
    fn line(&self, words: &str) -> Text {
        let mut text = Text::new(self.alloc);
        text.push(words);
        text
    }

    // What a recovery answers, as a line.
    fn table(&self, answer: &Result<Snapshot, Error>) -> Text {
        let mut text = Text::new(self.alloc);
        match answer {
            Ok(s) => text.table(s.stable_lsn, s.active_segment, s.pt.len()),
            Err(e) => text.error(e),
        }
        text
    }

    // Why, unless something is so.
    fn unless(&self, is_so: bool, why: &str) -> Option<Text> {
        if is_so { None } else { Some(self.line(why)) }
    }

    // Whether these files are those of the device, with those bytes in the one of this index.
    fn is_left(&self, left: &Files, index: usize, changed: &[u8]) -> bool {
        let mut is_so = left.len() == self.files.len();
        for (number, ((file, bytes), (was, old))) in left
            .iter()
            .zip(self.files.iter())
            .enumerate()
        {
            let old = if number == index { changed } else { old };
            is_so &= file == was && bytes.as_slice() == old;
        }
        is_so
    }

    // What isn't as it should be behind a recovery that gave this table: of another recovery, and of a log that is started on it.
    fn go_on(&self, mut config: Running, snapshot: &Snapshot) -> Outcome<Option<Text>> {
        let again = read_snapshot_or_default(&mut config);
        if !is_table(&again, snapshot) {
            return Ok(Some(self.table(&again)));
        }
        let left = files_of(self.alloc, &mut config.device)?;
        match Log::start(config, snapshot) {
            Ok(log) => Ok(self.use_log(log, snapshot)),
            Err((e, config)) => self.judge_refused(&e, config, &left),
        }
    }

    // What isn't as it should be of a start that was refused, in front of which these were the files.
    fn judge_refused(&self, e: &Error, mut config: Running, left: &Files) -> Outcome<Option<Text>> {
        let now = files_of(self.alloc, &mut config.device)?;
        if !matches!(e, Error::Corruption { at: _ } | Error::PlacesUsedUp) {
            let mut text = Text::new(self.alloc);
            text.error(e);
            return Ok(Some(text));
        }
        Ok(self.unless(*left == now, "the start wrote"))
    }

    // What isn't as it should be of a log: its messages are gone over, and each page is read.
    fn use_log(&self, mut log: Log<MemDevice, PlaceSum>, snapshot: &Snapshot) -> Option<Text> {
        let mut is_so = are_given(log.iter_from(0));
        for (number, page) in snapshot.pt.iter().enumerate() {
            is_so &= is_read(&mut log, number as u64, page);
        }
        let _ = log.halt();
        self.unless(is_so, "an answer that no contract has")
    }
}

// Whether the two recoveries answer the same.
fn are_alike(wanted: &Result<Option<Snapshot>, Error>, came: &Result<Snapshot, Error>) -> bool {
    match (wanted, came) {
        (Ok(Some(wanted)), Ok(came)) => wanted == came,
        (Ok(None), Err(Error::Corruption { at: _ })) => true,
        _ => false,
    }
}

// Whether a recovery answers this table.
fn is_table(came: &Result<Snapshot, Error>, wanted: &Snapshot) -> bool {
    match came {
        Ok(came) => came == wanted,
        Err(_) => false,
    }
}

// Whether the messages of a log file are given as they may be.
fn is_scanned(config: &mut Running) -> bool {
    match raw_segment_iter_from(0, config) {
        Ok(messages) => are_given(messages),
        Err((e, _)) => is_of_bytes(&e),
    }
}

// Whether an iterator gives messages, and an error that the bytes may bring about, if any, as the last one.
fn are_given(messages: LogIter<'_, MemDevice, PlaceSum>) -> bool {
    let mut is_so = true;
    let mut has_failed = false;
    for message in messages {
        is_so &= !has_failed;
        if let Err(e) = message {
            has_failed = true;
            is_so &= is_of_bytes(&e);
        }
    }
    is_so
}

// Whether each entry of a page is read as it may be.
fn is_read(log: &mut Log<MemDevice, PlaceSum>, number: PageId, page: &PageState) -> bool {
    match page {
        PageState::Present { base, frags } => {
            let mut is_so = is_entry_read(log, number, base.0, base.1);
            for frag in frags {
                is_so &= is_entry_read(log, number, frag.0, frag.1);
            }
            is_so
        }
        PageState::Free(place, at) => is_entry_read(log, number, *place, *at),
        PageState::Uninitialized => false,
    }
}

// Whether an entry is read as it may be.
fn is_entry_read(
    log: &mut Log<MemDevice, PlaceSum>,
    number: PageId,
    place: Lsn,
    at: DiskPtr,
) -> bool {
    match log.read(number, place, at) {
        Ok(_) => true,
        Err(e) => is_of_bytes(&e),
    }
}

// Whether an error is one that the bytes of a device may bring about: damage, or a blob that isn't there.
fn is_of_bytes(e: &Error) -> bool {
    match e {
        Error::Corruption { at: _ } => true,
        Error::Io(e) => e.kind() == ErrorKind::NotFound,
        _ => false,
    }
}

// These bytes with a value at an offset. Where it stands there already they are cut off in front of it.
fn changed(alloc: Global, bytes: &[u8], at: usize, value: u8) -> Outcome<Vec<u8>> {
    let mut changed = Vec::new(alloc);
    changed.extend_from_slice(bytes)?;
    match changed.get_mut(at) {
        Some(old) if *old != value => *old = value,
        _ => changed.truncate(at),
    }
    Ok(changed)
}

// Adds what was changed.
fn push_change(text: &mut Text, file: File, at: usize, value: u8) {
    push_file(text, file);
    text.push(" at ");
    text.number(at as u64);
    text.push(" value ");
    text.number(value as u64);
    text.push(": ");
}
