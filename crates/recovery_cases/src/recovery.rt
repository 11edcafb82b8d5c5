//! Devices with their recovery: the table that is answered, the calls that are made, and whether a log starts on
//! the answer. The same reader also compares the answers of the plain recovery, which makes no calls.
//!
//! A case begins with `case`, then `size N`, `log N`, and where they are there `slot K N HEX`,
//! `blob PLACE N HEX`, `snapshot NUMBER N HEX`, each of N bytes with the zeros at the end left out. Then come
//! `answer recovered PLACE SEGMENT PAGES` with a line a page, or `answer corruption`; the `call` lines; `start ok`,
//! or `start` with an error; and `end`.

use case_lines::lines::{Fault, Outcome, Words};
use case_lines::noted::{Calls, Noted};
use case_lines::tally::Tally;
use case_lines::texts::Text;
use sled_log::config::{Config, RunningConfig};
use sled_log::device::{Device, MemDevice, PlaceSum};
use sled_log::logger::Log;
use sled_log::result::Error;
use sled_log::snapshot::reference::reference_recovery;
use sled_log::snapshot::{Snapshot, read_snapshot_or_default};
use std::alloc::Global;
use std::{io, mem};

/// Which recovery answers.
#[derive(Debug, Clone, Copy, PartialEq)]
pub enum By {
    /// The one that users call.
    Call,
    /// The plain one. The lines of calls and of the start aren't compared.
    Plain,
}

/// Runs the cases of a file.
pub fn run(alloc: Global, text: &str, by: By, tally: &mut Tally<'_>) {
    let mut case = Case::new(alloc, by);
    for (number, line) in text.lines().enumerate() {
        let number = number.wrapping_add(1);
        match case.line(line) {
            Ok(Some(came)) => case.compare(number, line, came.as_str(), tally),
            Ok(None) => {}
            Err(Fault(why)) => case.compare(number, line, why, tally),
        }
        if line == "end" {
            tally.count(case.differs);
        }
    }
}

// A device, and what came of its recovery so far.
#[derive(Drop)]
struct Case {
    alloc: Global,
    by: By,
    size: u64,
    device: MemDevice,
    // The lines that come, the next one last.
    coming: Vec<Text>,
    is_answered: bool,
    differs: bool,
}

impl Case {
    fn new(alloc: Global, by: By) -> Case {
        Case {
            alloc,
            by,
            size: 0,
            device: MemDevice::new(alloc),
            coming: Vec::new(alloc),
            is_answered: false,
            differs: false,
        }
    }

    // Compares a line with what came. Of a case the first difference alone is noted.
    fn compare(&mut self, number: usize, line: &str, came: &str, tally: &mut Tally<'_>) {
        if line != came && !self.differs {
            self.differs = true;
            tally.note(number, line, came);
        }
    }

    // Reads a line; what came, where it says what is wanted.
    fn line(&mut self, line: &str) -> Outcome<Option<Text>> {
        if line.is_empty() || line.starts_with('#') {
            return Ok(None);
        }
        match line.split_once(' ') {
            Some(("case", _)) => {
                *self = Case::new(self.alloc, self.by);
                Ok(None)
            }
            Some(("answer", _)) => self.recover(),
            Some(("page", _)) => self.next_line(),
            Some(("call" | "start", _)) if self.by == By::Call => self.next_line(),
            Some(("call" | "start", _)) => Ok(None),
            None if line == "end" => self.end(),
            _ => self.content(line),
        }
    }

    // The line that comes next.
    fn next_line(&mut self) -> Outcome<Option<Text>> {
        match self.coming.pop() {
            Some(line) => Ok(Some(line)),
            None => Err(Fault("nothing more")),
        }
    }

    // The line that comes in place of the end, or the end.
    fn end(&mut self) -> Outcome<Option<Text>> {
        match self.coming.pop() {
            Some(line) => Ok(Some(line)),
            None if self.is_answered => Ok(None),
            None => Err(Fault("no answer was compared")),
        }
    }

    // Puts on the device what a line says that it has.
    fn content(&mut self, line: &str) -> Outcome<Option<Text>> {
        let mut words = Words::new(line);
        match words.word() {
            "size" => self.size = words.number(),
            "log" => self.log(words.number())?,
            "slot" => self.slot(&mut words)?,
            "blob" => self.blob(&mut words)?,
            "snapshot" => self.snapshot(&mut words)?,
            _ => words.bad("no such line"),
        }
        words.end()?;
        Ok(None)
    }

    // A log file of so many zeros.
    fn log(&mut self, len: u64) -> Outcome<()> {
        let zeros = filled(Vec::new(self.alloc), len)?;
        done(self.device.write_at(0, &zeros))
    }

    // The bytes of a slot.
    fn slot(&mut self, words: &mut Words<'_>) -> Outcome<()> {
        let at = words.number().saturating_mul(self.size);
        let bytes = content_of(self.alloc, words)?;
        done(self.device.write_at(at, &bytes))
    }

    // A blob.
    fn blob(&mut self, words: &mut Words<'_>) -> Outcome<()> {
        let place = words.signed();
        let bytes = content_of(self.alloc, words)?;
        done(self.device.blob_create(place, &bytes))?;
        done(self.device.blob_sync(place))
    }

    // A snapshot.
    fn snapshot(&mut self, words: &mut Words<'_>) -> Outcome<()> {
        let number = words.signed();
        let bytes = content_of(self.alloc, words)?;
        done(self.device.snapshot_write(&bytes))?;
        done(self.device.snapshot_publish(number))
    }

    // Recovers the device; the first line that comes of it. The others are kept.
    fn recover(&mut self) -> Outcome<Option<Text>> {
        let mut device = mem::replace(&mut self.device, MemDevice::new(self.alloc));
        done(device.sync())?;
        done(device.sync_names())?;
        let Some(config) = Config::new(self.size) else {
            return Err(Fault("no size of segments"));
        };
        self.coming = match self.by {
            By::Call => called(self.alloc, config, device)?,
            By::Plain => plain(self.alloc, config, device)?,
        };
        self.coming.reverse();
        self.is_answered = true;
        self.next_line()
    }
}

/// The lines of a case that say what is on its device, so far. What else a case has isn't kept.
#[derive(Drop)]
pub struct Content<'a> {
    lines: Vec<&'a str>,
    is_kept: bool,
}

impl<'a> Content<'a> {
    /// No lines.
    pub fn new(alloc: Global) -> Content<'a> {
        Content {
            lines: Vec::new(alloc),
            is_kept: true,
        }
    }

    /// Keeps a line that says what is on the device. The first line of a case forgets those of the case before.
    pub fn line(&mut self, line: &'a str) {
        match line.split_once(' ') {
            Some(("case", _)) => {
                self.lines.clear();
                self.is_kept = true;
            }
            Some(("size" | "log" | "slot" | "blob" | "snapshot", _)) => {
                self.is_kept &= self.lines.push(line).is_ok();
            }
            _ => {}
        }
    }

    /// Returns the lines.
    ///
    /// # Errors
    ///
    /// Memory was refused for one of them.
    pub fn lines(&self) -> Outcome<&[&'a str]> {
        if self.is_kept {
            Ok(&self.lines)
        } else {
            Err(Fault("out of memory"))
        }
    }
}

/// Returns the size of segments and the device that these lines say. All of it is settled.
pub fn device_of(alloc: Global, content: &[&str]) -> Outcome<(u64, MemDevice)> {
    let mut case = Case::new(alloc, By::Plain);
    for line in content {
        let _ = case.content(line)?;
    }
    let mut device = mem::replace(&mut case.device, MemDevice::new(alloc));
    done(device.sync())?;
    done(device.sync_names())?;
    Ok((case.size, device))
}

/// Returns what a recovery answered, as one text.
pub fn table_of(alloc: Global, answer: &Result<Snapshot, Error>) -> Outcome<Text> {
    let mut text = Text::new(alloc);
    match answer {
        Ok(snapshot) => {
            let mut lines = Vec::new(alloc);
            push_table(alloc, &mut lines, snapshot)?;
            for line in &lines {
                text.push(line.as_str());
                text.push("; ");
            }
        }
        Err(e) => text.error(e),
    }
    Ok(text)
}

/// Returns what a call of a device in memory answered. One that fails found no memory.
///
/// # Errors
///
/// Out of memory.
pub fn done<T>(answer: io::Result<T>) -> Outcome<T> {
    match answer {
        Ok(value) => Ok(value),
        Err(_) => Err(Fault("out of memory")),
    }
}

// The bytes with zeros behind them, up to this length.
fn filled(mut bytes: Vec<u8>, len: u64) -> Outcome<Vec<u8>> {
    bytes.resize(len as usize, 0)?;
    Ok(bytes)
}

// The bytes of a length and of digits, without which zeros stand at the end.
fn content_of(alloc: Global, words: &mut Words<'_>) -> Outcome<Vec<u8>> {
    let len = words.number();
    filled(words.bytes(alloc), len)
}

/// Returns a line of these words.
pub fn line_of(alloc: Global, text: &str) -> Text {
    let mut line = Text::new(alloc);
    line.push(text);
    line
}

// A line with an error.
fn line_of_error(alloc: Global, start: &str, e: &Error) -> Text {
    let mut line = line_of(alloc, start);
    line.error(e);
    line
}

// The lines that come of a recovery.
fn called(alloc: Global, config: Config, device: MemDevice) -> Outcome<Vec<Text>> {
    let noted = Noted {
        device,
        calls: Calls::new(alloc),
    };
    let mut config = RunningConfig::new(alloc, config, noted, PlaceSum);
    let answer = read_snapshot_or_default(&mut config);
    let calls = mem::replace(&mut config.device.calls, Calls::new(alloc));
    if !calls.is_complete {
        return Err(Fault("out of memory"));
    }
    let mut lines = Vec::new(alloc);
    match answer {
        Ok(snapshot) => {
            push_table(alloc, &mut lines, &snapshot)?;
            lines.extend(calls.lines)?;
            lines.push(started(alloc, config, &snapshot))?;
        }
        Err(Error::Corruption { at: _ }) => {
            lines.push(line_of(alloc, "answer corruption"))?;
            lines.extend(calls.lines)?;
        }
        Err(e) => {
            lines.push(line_of_error(alloc, "answer ", &e))?;
            lines.extend(calls.lines)?;
        }
    }
    Ok(lines)
}

// The lines that come of a plain recovery.
fn plain(alloc: Global, config: Config, device: MemDevice) -> Outcome<Vec<Text>> {
    let mut config = RunningConfig::new(alloc, config, device, PlaceSum);
    let mut lines = Vec::new(alloc);
    match reference_recovery(&mut config) {
        Ok(Some(snapshot)) => push_table(alloc, &mut lines, &snapshot)?,
        Ok(None) => lines.push(line_of(alloc, "answer corruption"))?,
        Err(e) => lines.push(line_of_error(alloc, "answer ", &e))?,
    }
    Ok(lines)
}

// Adds the lines of a table.
fn push_table(alloc: Global, lines: &mut Vec<Text>, snapshot: &Snapshot) -> Outcome<()> {
    let mut line = line_of(alloc, "answer recovered ");
    line.table(
        snapshot.stable_lsn,
        snapshot.active_segment,
        snapshot.pt.len(),
    );
    lines.push(line)?;
    for (number, page) in snapshot.pt.iter().enumerate() {
        let mut line = line_of(alloc, "page ");
        line.number(number as u64);
        line.push(" ");
        line.page(page);
        lines.push(line)?;
    }
    Ok(())
}

// The line that says whether a log starts on a table.
fn started(
    alloc: Global,
    config: RunningConfig<Noted<MemDevice>, PlaceSum>,
    snapshot: &Snapshot,
) -> Text {
    match Log::start(config, snapshot) {
        Ok(log) => {
            let _ = log.halt();
            line_of(alloc, "start ok")
        }
        Err((e, _)) => line_of_error(alloc, "start ", &e),
    }
}
