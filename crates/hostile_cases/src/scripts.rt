//! The lines of a case: the size of segments, the commands of a session, and what is asked of them.

use case_lines::lines::{Fault, Outcome};
use sled_log::config::Config;
use sled_log::session::Command;
use slog_lines::line::{Asked, parse};
use std::alloc::Global;

/// A case as far as it was read.
#[derive(Drop)]
pub(crate) struct Script {
    alloc: Global,
    config: Option<Config>,
    commands: Vec<Command>,
}

impl Script {
    /// No line was read.
    pub(crate) fn new(alloc: Global) -> Script {
        Script {
            alloc,
            config: None,
            commands: Vec::new(alloc),
        }
    }

    /// Takes a line. Returns the word and the words behind it of one that asks for something. `case NAME` begins a case anew,
    /// `size N` is the size of its segments, and `> COMMAND` a command.
    ///
    /// # Errors
    ///
    /// The fault of a line that is none, or out of memory.
    pub(crate) fn take<'a>(&mut self, line: &'a str) -> Outcome<Option<(&'a str, &'a str)>> {
        if line.is_empty() || line.starts_with('#') {
            return Ok(None);
        }
        match line.split_once(' ').unwrap_or((line, "")) {
            ("case", _) => {
                self.config = None;
                self.commands.clear();
            }
            ("size", _) => match parse(self.alloc, line.as_bytes())? {
                Some(Asked::Size(size)) => self.config = Config::new(size),
                _ => return Err(Fault("no size of segments")),
            },
            (">", command) => self.commands.push(command_of(self.alloc, command)?)?,
            asked => return Ok(Some(asked)),
        }
        Ok(None)
    }

    /// Returns the size of segments.
    ///
    /// # Errors
    ///
    /// The fault that there is none.
    pub(crate) fn config(&self) -> Outcome<Config> {
        self.config.ok_or(Fault("no size of segments"))
    }

    /// Returns the commands.
    pub(crate) fn commands(&self) -> &[Command] {
        &self.commands
    }
}

/// Returns the command of a line.
///
/// # Errors
///
/// The fault of a line that is none, or out of memory.
pub(crate) fn command_of(alloc: Global, line: &str) -> Outcome<Command> {
    match parse(alloc, line.as_bytes())? {
        Some(Asked::Command(command)) => Ok(command),
        _ => Err(Fault("no command")),
    }
}
