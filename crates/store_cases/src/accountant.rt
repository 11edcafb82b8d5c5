//! Segments that come back: calls of the accountant, what each answers, and what it asked of the device
//! (`data/README.md`).
ghost use Rattle.std.specs.Prelude.{◌≡◌};
ghost use Rattle.sled_store.specs.Accounts.{IsAccountant};

use crate::codecs::Shown;
use case_lines::lines::{Fault, Words, number, pointer, signed};
use case_lines::noted::{Calls, Noted};
use case_lines::tally::Tally;
use case_lines::texts::Text;
use sled_codec::result::{DiskPtr, Error, Result};
use sled_codec::serialization::PlaceSum;
use sled_codec::serialization::snapshot::Snapshot;
use sled_store::config::{Config, RunningConfig};
use sled_store::device::Device;
use sled_store::device::memory::MemDevice;
use sled_store::segment::accountant::{CacheInfo, SegmentAccountant};
use std::alloc::Global;
use std::mem;

// What an accountant runs on.
type Running = RunningConfig<Noted<MemDevice>, PlaceSum>;

/// Runs the cases of a file.
pub fn run(alloc: Global, text: &str, tally: &mut Tally<'_>) {
    let Some(config) = Config::new(256) else {
        return;
    };
    let mut case = Case::new(alloc, config);
    for (at, line) in text.lines().enumerate() {
        if !line.is_empty() && !line.starts_with('#') {
            let mut came = Text::new(alloc);
            case.line(line, &mut came);
            tally.case(at.wrapping_add(1), line, came.as_str());
        }
    }
}

// An accountant, and the calls of the device that its last call made and that were not compared yet, the next one last.
#[derive(Drop)]
struct Case {
    alloc: Global,
    config: Running,
    accountant: SegmentAccountant,
    made: Vec<Text>,
}

impl Case {
    // The accountant of an empty log file.
    fn new(alloc: Global, config: Config) -> Case
        ensures { IsAccountant result.config.config.segment_size result.accountant }
    {
        let noted = Noted {
            device: MemDevice::new(alloc),
            calls: Calls::new(alloc),
        };
        let config = RunningConfig::new(alloc, config, noted, PlaceSum);
        let accountant = SegmentAccountant::fresh(&config);
        Case {
            alloc,
            config,
            accountant,
            made: Vec::new(alloc),
        }
    }

    // Runs a line, and writes it as it should be: with what was answered, or the call of the device that was made.
    fn line(&mut self, line: &str, out: &mut Text)
        requires { IsAccountant self.old.config.config.segment_size self.old.accountant }
        ensures { IsAccountant self.new.config.config.segment_size self.new.accountant }
    {
        if let Some(call) = self.made.pop() {
            out.push(call.as_str());
            return;
        }
        let (asked, _) = line.split_once(" = ").unwrap_or((line, ""));
        out.push(asked);
        let mut words = Words::new(asked);
        match words.word() {
            "case" | "end" => {}
            "size" => self.begin(words.number(), out),
            "start" => {
                self.start(words.number(), asked, out);
                self.keep_calls();
            }
            name => {
                self.call(name, &mut words, out);
                if let Err(Fault(why)) = words.end() {
                    out.push(": ");
                    out.push(why);
                }
                self.keep_calls();
            }
        }
    }

    // Begins with an empty log file, and segments of this size.
    fn begin(&mut self, size: u64, out: &mut Text)
        requires { IsAccountant self.old.config.config.segment_size self.old.accountant }
        ensures { IsAccountant self.new.config.config.segment_size self.new.accountant }
    {
        match Config::new(size) {
            Some(config) => *self = Case::new(self.alloc, config),
            None => out.push(": no size of segments"),
        }
    }

    // Starts on a log file of so many zeros and on the snapshot behind a colon.
    fn start(&mut self, len: u64, asked: &str, out: &mut Text)
        requires { IsAccountant self.old.config.config.segment_size self.old.accountant }
        ensures { IsAccountant self.new.config.config.segment_size self.new.accountant }
    {
        let (_, text) = asked.split_once(" : ").unwrap_or(("", ""));
        let Some(snapshot) = Snapshot::of_text(self.alloc, text) else {
            out.push(": no snapshot");
            return;
        };
        let zeros = vec![in self.alloc; 0; len as usize].unwrap_or(Vec::new(self.alloc));
        let _ = self.config.device.device.write_at(0, &zeros);
        match SegmentAccountant::start(&mut self.config, &snapshot) {
            Ok(accountant) => self.accountant = accountant,
            Err(e) => failed(&e, out),
        }
    }

    // Makes the call of this name.
    fn call(&mut self, name: &str, words: &mut Words<'_>, out: &mut Text)
        requires { IsAccountant self.old.config.config.segment_size self.old.accountant }
        ensures { IsAccountant self.new.config.config.segment_size self.new.accountant }
    {
        match name {
            "next" => self.next(words.signed(), out),
            "link" => self.link(words.number(), info(words), out),
            "replace" => self.replace(words.number(), info(words), words, out),
            "stabilize" => self.stabilize(words.signed(), out),
            "pop" => self.pop(out),
            _ => out.push(": no such call"),
        }
    }

    fn next(&mut self, place: i64, out: &mut Text)
        requires { IsAccountant self.old.config.config.segment_size self.old.accountant }
        ensures { IsAccountant self.new.config.config.segment_size self.new.accountant }
    {
        if place < 0 {
            out.push(": a negative place");
            return;
        }
        match self.accountant.next(&mut self.config, place) {
            Ok(offset) => {
                out.push(" = ");
                out.number(offset);
            }
            Err(e) => failed(&e, out),
        }
    }

    fn link(&mut self, page: u64, info: CacheInfo, out: &mut Text)
        requires { IsAccountant self.old.config.config.segment_size self.old.accountant }
        ensures { IsAccountant self.new.config.config.segment_size self.new.accountant }
    {
        if !self.accountant.can_mark(info, &[]) {
            out.push(" = may not be marked");
            return;
        }
        told(self.accountant.mark_link(&mut self.config, page, info), out);
    }

    fn replace(&mut self, page: u64, info: CacheInfo, words: &mut Words<'_>, out: &mut Text)
        requires { IsAccountant self.old.config.config.segment_size self.old.accountant }
        ensures { IsAccountant self.new.config.config.segment_size self.new.accountant }
    {
        let old = infos(self.alloc, words);
        if !self.accountant.can_mark(info, &old) {
            out.push(" = may not be marked");
            return;
        }
        let answer = self
            .accountant
            .mark_replace(&mut self.config, page, info.lsn, &old, info);
        told(answer, out);
    }

    fn stabilize(&mut self, mark: i64, out: &mut Text)
        requires { IsAccountant self.old.config.config.segment_size self.old.accountant }
        ensures { IsAccountant self.new.config.config.segment_size self.new.accountant }
    {
        if let Err(e) = self.accountant.stabilize(&mut self.config, mark) {
            failed(&e, out);
            self.accountant = SegmentAccountant::fresh(&self.config);
        }
    }

    fn pop(&mut self, out: &mut Text)
        requires { IsAccountant self.old.config.config.segment_size self.old.accountant }
        ensures { IsAccountant self.new.config.config.segment_size self.new.accountant }
    {
        out.push(" = ");
        match self.accountant.clean_pop() {
            Some((page, offset)) => {
                out.number(page);
                out.push(" ");
                out.number(offset);
            }
            None => out.push("-"),
        }
    }

    // Keeps the calls of the device that were made.
    fn keep_calls(&mut self)
        ensures config { self.new.config.config ≡ self.old.config.config }
        ensures accountant { self.new.accountant ≡ self.old.accountant }
    {
        let calls = mem::replace(&mut self.config.device.calls, Calls::new(self.alloc));
        self.made = calls.lines;
        self.made.reverse();
    }
}

// Writes an error, where there is one.
fn told(answer: Result<()>, out: &mut Text) {
    if let Err(e) = answer {
        failed(&e, out);
    }
}

// Writes the error of a call, behind an equals sign as any answer.
fn failed(e: &Error, out: &mut Text) {
    out.push(" = ");
    out.error(e);
}

/// A message: its place, where it lies and its length.
pub fn info(words: &mut Words<'_>) -> CacheInfo {
    CacheInfo {
        lsn: words.signed(),
        pointer: pointer_in(words),
        log_size: words.number(),
    }
}

// Where a message lies: its offset in the file alone, or the pointer of a blob.
fn pointer_in(words: &mut Words<'_>) -> DiskPtr {
    let word = words.word();
    let at = match number(word) {
        Some(lid) => Some(DiskPtr::Inline(lid)),
        None => pointer(word),
    };
    words
        .noted(at, "this is no pointer")
        .unwrap_or(DiskPtr::Inline(0))
}

/// The older messages, behind a colon: each in parentheses.
pub fn infos(alloc: Global, words: &mut Words<'_>) -> Vec<CacheInfo> {
    let mut old = Vec::new(alloc);
    let _colon = words.word();
    for _ in 0..u64::MAX {
        let Some(first) = words.next_word() else {
            break;
        };
        let lsn = first.strip_prefix('(').and_then(signed);
        let pointer = pointer_in(words);
        let len = words.word().strip_suffix(')').and_then(number);
        let _ = old.push(CacheInfo {
            lsn: words
                .noted(lsn, "no place behind a parenthesis")
                .unwrap_or(0),
            pointer,
            log_size: words
                .noted(len, "no length before a parenthesis")
                .unwrap_or(0),
        });
    }
    old
}
