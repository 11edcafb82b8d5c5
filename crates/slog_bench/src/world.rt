//! What the calls of a file are made on: a device in memory, or the log that is open on it; a table of pages; and a
//! buffer.

use crate::logs::Opened;
use crate::runs::{self, Told};
use crate::{reads, tables, values};
use case_lines::answer::Answer;
use case_lines::devices;
use case_lines::lines::{Fault, Outcome, Words};
use case_lines::tally::Tally;
use sled_log::config::{Config, RunningConfig};
use sled_log::device::{MemDevice, PlaceSum};
use sled_log::logger::{BasedBuf, Log};
use sled_log::snapshot::reference::reference_recovery;
use sled_log::snapshot::{Snapshot, read_snapshot_or_default};
use std::alloc::Global;

/// What a log runs on.
pub type Running = RunningConfig<MemDevice, PlaceSum>;

/// What calls are made on. It is to be closed.
pub struct World {
    alloc: Global,
    // While no log is open.
    config: Option<Running>,
    opened: Option<Opened>,
    table: Snapshot,
    buffer: BasedBuf,
}

impl World {
    /// Nothing: no size of segments is known, the table is the default snapshot, and the buffer is empty.
    pub fn new(alloc: Global) -> World {
        World {
            alloc,
            config: None,
            opened: None,
            table: Snapshot::empty(alloc),
            buffer: BasedBuf {
                buf: Vec::new(alloc),
                offset: 0,
            },
        }
    }

    /// Gives up what is open.
    pub fn close(self) {
        let World {
            alloc: _,
            config: _,
            opened,
            table: _,
            buffer: _,
        } = self;
        if let Some(opened) = opened {
            let _ = opened.halt();
        }
    }

    /// Makes the call of a line.
    ///
    /// # Errors
    ///
    /// The fault of the line, where there is no such call, or where its words are others.
    pub fn call(&mut self, line: &str, out: &mut Answer) -> Outcome<()> {
        if let Some(page) = line.strip_prefix("add ") {
            tables::add(self.alloc, &mut self.table, page, out);
            return Ok(());
        }
        let mut words = Words::new(line);
        let name = words.word();
        self.call_by(name, &mut words, out);
        words.end()
    }

    // Makes the call of this name.
    fn call_by(&mut self, name: &str, words: &mut Words<'_>, out: &mut Answer) {
        match name {
            "size" => self.size(words.number(), out),
            "start" => self.start(out),
            "halt" => self.halt(out),
            "close" => self.close_log(out),
            "restart" => self.restart(out),
            "recover" => self.recover(out),
            "plain" => self.recover_plainly(out),
            "table" | "page" | "coords" => {
                tables::call(self.alloc, &mut self.table, name, words, out);
            }
            _ if values::has(name) => values::call(self.alloc, name, words, out),
            _ => self.call_on(name, words, out),
        }
    }

    // Makes a call of the log that is open, or else of the device.
    fn call_on(&mut self, name: &str, words: &mut Words<'_>, out: &mut Answer) {
        if let Some(opened) = &mut self.opened {
            opened.call(self.alloc, name, words, out);
            return;
        }
        let Some(config) = &mut self.config else {
            words.bad("no size of segments is known");
            return;
        };
        if reads::has(name) {
            reads::call(self.alloc, config, &mut self.buffer, name, words, out);
        } else {
            devices::call(self.alloc, &mut config.device, name, words, out);
        }
    }

    // Begins with an empty device, and segments of this size.
    fn size(&mut self, size: u64, out: &mut Answer) {
        if let Some(opened) = self.opened.take() {
            let _ = opened.halt();
        }
        self.config = None;
        self.table = Snapshot::empty(self.alloc);
        match Config::new(size) {
            Some(config) => {
                let device = MemDevice::new(self.alloc);
                self.config = Some(RunningConfig::new(self.alloc, config, device, PlaceSum));
                out.ok();
            }
            None => out.refused(),
        }
    }

    // Starts a log on the table.
    fn start(&mut self, out: &mut Answer) {
        let Some(config) = self.config.take() else {
            out.refused();
            return;
        };
        match Log::start(config, &self.table) {
            Ok(log) => {
                self.open(Opened::new(self.alloc, log));
                out.ok();
            }
            Err((e, config)) => {
                self.config = Some(config);
                out.error(&e);
            }
        }
    }

    // Keeps a log that was started.
    fn open(&mut self, opened: Opened) {
        if let Some(former) = self.opened.replace(opened) {
            let _ = former.halt();
        }
    }

    // Closes the log that is open.
    fn halt(&mut self, out: &mut Answer) {
        match self.opened.take() {
            Some(opened) => {
                self.config = Some(opened.halt());
                out.ok();
            }
            None => out.refused(),
        }
    }

    // Flushes and closes the log that is open.
    fn close_log(&mut self, out: &mut Answer) {
        let Some(opened) = self.opened.take() else {
            out.refused();
            return;
        };
        let (config, answer) = opened.close();
        self.config = Some(config);
        match answer {
            Ok(grown) => out.text.number(grown as u64),
            Err(e) => out.error(&e),
        }
    }

    // Flushes and closes the log that is open, and recovers its device.
    fn restart(&mut self, out: &mut Answer) {
        let Some(opened) = self.opened.take() else {
            out.refused();
            return;
        };
        let (config, answer) = opened.restart();
        self.config = Some(config);
        match answer {
            Some(answer) => tables::keep(&mut self.table, answer, out),
            None => out.refused(),
        }
    }

    // Recovers the device, by the call for users.
    fn recover(&mut self, out: &mut Answer) {
        match &mut self.config {
            Some(config) => tables::keep(&mut self.table, read_snapshot_or_default(config), out),
            None => out.refused(),
        }
    }

    // Recovers the device, by the plain recovery.
    fn recover_plainly(&mut self, out: &mut Answer) {
        let Some(config) = &mut self.config else {
            out.refused();
            return;
        };
        match reference_recovery(config) {
            Ok(Some(found)) => tables::keep(&mut self.table, Ok(found), out),
            Ok(None) => out.text.push("corruption"),
            Err(e) => out.error(&e),
        }
    }

    /// Runs commands on the device, and compares their replies.
    ///
    /// # Errors
    ///
    /// The fault of the line, where a log is open or there is no device, or where memory is refused.
    pub fn run(&mut self, told: Vec<Told>, tally: &mut Tally<'_>) -> Outcome<()> {
        let Some(config) = self.config.take() else {
            return Err(Fault("no device to run on"));
        };
        let (config, outcome) = runs::compare(self.alloc, config, told, tally);
        self.config = Some(config);
        outcome
    }
}
