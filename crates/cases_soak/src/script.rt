//! A list of commands, and how it stands in lines of `slog` (`docs/SLOG.md`).

use case_lines::texts::Text;
use sled_log::device::Choice;
use sled_log::session::{Command, Reply};
use std::alloc::AllocError;

/// Whether a command is still in the list.
#[derive(Debug, Clone, Copy, PartialEq, Eq)]
pub enum Stay {
    Kept,
    /// It is left out, to see whether the rest still fails.
    Tried,
    Gone,
}

/// What came of a command that others name.
#[derive(Debug, Clone, Copy, PartialEq, Eq)]
pub enum Gave {
    Nothing,
    /// A ticket of this number.
    Ticket(usize),
    /// A log in which tickets are numbered anew.
    Log,
}

impl Gave {
    /// Returns what a reply gave.
    pub fn of(reply: &Reply) -> Gave {
        match reply {
            Reply::Reserved(number, _, _) => Gave::Ticket(*number),
            Reply::Opened {
                stable: _,
                active: _,
                pages: _,
            } => Gave::Log,
            _ => Gave::Nothing,
        }
    }
}

/// A command of the list.
#[derive(Drop)]
pub struct Step {
    pub command: [Command; 1],
    pub stay: Stay,
    pub gave: Gave,
}

/// A list of commands, over segments of a size.
#[derive(Drop)]
pub struct Script {
    pub size: u64,
    pub steps: Vec<Step>,
}

impl Script {
    /// Adds a command.
    pub fn push(&mut self, command: [Command; 1]) -> Result<(), AllocError> {
        self.steps.push(Step {
            command,
            stay: Stay::Kept,
            gave: Gave::Nothing,
        })?;
        Ok(())
    }

    /// Writes its lines.
    pub fn write(&self, out: &mut Text) {
        out.push("size ");
        out.number(self.size);
        out.push("\n");
        for step in &self.steps {
            if step.stay == Stay::Kept {
                let [command] = &step.command;
                push_command(out, command);
            }
        }
    }
}

/// Writes the line of a command.
pub fn push_command(out: &mut Text, command: &Command) {
    match command {
        Command::Open => out.push("open"),
        Command::Replace(page, item) => push_item(out, "replace ", *page, item),
        Command::Link(page, item) => push_item(out, "link ", *page, item),
        Command::Free(page) => push_number(out, "free ", *page),
        Command::Rewrite(page) => push_number(out, "rewrite ", *page),
        Command::BeginBatch => out.push("begin"),
        Command::EndBatch => out.push("end"),
        Command::Complete(number) => push_number(out, "complete ", *number as u64),
        Command::Abort(number) => push_number(out, "abort ", *number as u64),
        Command::Write(index) => push_number(out, "write ", *index as u64),
        Command::Flush => out.push("flush"),
        Command::Stable(place) => {
            out.push("stable ");
            out.signed(*place);
        }
        Command::Read(page) => push_number(out, "read ", *page),
        Command::Halt => out.push("halt"),
        Command::Stop(n) => push_number(out, "stop ", *n),
        Command::Crash(choice) => push_choice(out, choice),
    }
    out.push("\n");
}

fn push_number(out: &mut Text, word: &str, n: u64) {
    out.push(word);
    out.number(n);
}

fn push_item(out: &mut Text, word: &str, page: u64, item: &[u8]) {
    push_number(out, word, page);
    out.push(" ");
    out.hex(item);
}

fn push_choice(out: &mut Text, choice: &Choice) {
    match choice {
        Choice::Old(patch) => push_patch(out, "crash old", patch),
        Choice::New(patch) => push_patch(out, "crash new", patch),
        Choice::Whole(_) => out.push("crash whole"),
    }
}

fn push_patch(out: &mut Text, word: &str, patch: &[(u64, u8)]) {
    out.push(word);
    for (at, byte) in patch {
        push_number(out, " ", *at);
        push_number(out, ":", u64::from(*byte));
    }
}
