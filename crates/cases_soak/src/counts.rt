//! What was done, in numbers.

use case_lines::texts::Text;
use sled_log::device::Choice;
use sled_log::result::Error;
use sled_log::session::{Command, Refusal, Reply};

const COMMANDS: [&str; 16] = [
    "open", "replace", "link", "free", "rewrite", "begin", "end", "complete", "abort", "write",
    "flush", "stable", "read", "halt", "stop", "crash",
];

const REPLIES: [&str; 13] = [
    "opened",
    "reserved",
    "done",
    "written",
    "flushed",
    "page",
    "page free",
    "halted",
    "armed",
    "crashed",
    "error",
    "stopped",
    "refused",
];

const REFUSALS: [&str; 9] = [
    "stopped",
    "open",
    "closed",
    "page",
    "busy",
    "fragments",
    "batch",
    "ticket",
    "index",
];

/// What was done so far.
#[derive(Drop)]
pub struct Counts {
    pub sessions: u64,
    pub recoveries: u64,
    pub foreign: u64,
    pub segments: u64,
    pub reused: u64,
    pub cuts: u64,
    commands: [u64; 16],
    replies: [u64; 13],
    refusals: [u64; 9],
    held: u64,
    old: u64,
    new: u64,
    torn: u64,
    settled: u64,
    within_open: u64,
}

impl Counts {
    /// Nothing.
    pub fn new() -> Counts {
        Counts {
            sessions: 0,
            recoveries: 0,
            foreign: 0,
            segments: 0,
            reused: 0,
            cuts: 0,
            commands: [0; 16],
            replies: [0; 13],
            refusals: [0; 9],
            held: 0,
            old: 0,
            new: 0,
            torn: 0,
            settled: 0,
            within_open: 0,
        }
    }

    /// Counts a command and its reply.
    pub fn note(&mut self, command: &Command, reply: &Reply) {
        count(&mut self.commands, index_of(command));
        count(&mut self.replies, index_of_reply(reply));
        match reply {
            Reply::Opened {
                stable: _,
                active: _,
                pages: _,
            } => add(&mut self.recoveries),
            Reply::Refused(why) => count(&mut self.refusals, index_of_refusal(*why)),
            Reply::Failed(Error::Held(_)) => add(&mut self.held),
            Reply::Stopped if matches!(command, Command::Open) => add(&mut self.within_open),
            Reply::Crashed(is_taken) => self.note_crash(command, *is_taken),
            _ => {}
        }
    }

    fn note_crash(&mut self, command: &Command, is_taken: bool) {
        if !is_taken {
            add(&mut self.settled);
            return;
        }
        let patch = match command {
            Command::Crash(Choice::Old(patch)) => {
                add(&mut self.old);
                patch
            }
            Command::Crash(Choice::New(patch)) => {
                add(&mut self.new);
                patch
            }
            _ => return,
        };
        if !patch.is_empty() {
            add(&mut self.torn);
        }
    }

    /// Writes the lines of the numbers, but for the last.
    pub fn write(&self, out: &mut Text) {
        line(out, "sessions: ", self.sessions);
        list(out, "commands:", &COMMANDS, &self.commands);
        list(out, "replies:", &REPLIES, &self.replies);
        list(out, "refused:", &REFUSALS, &self.refusals);
        line(out, "held: ", self.held);
        out.push("crashes: ");
        pair(out, self.old, " old, ");
        pair(out, self.new, " new, ");
        pair(out, self.torn, " of these torn, ");
        pair(out, self.settled, " settled for want of such a choice\n");
        out.push("segments: ");
        pair(out, self.segments, " begun, ");
        pair(
            out,
            self.reused,
            " of these in a slot that was used before\n",
        );
        line(out, "log file cut: ", self.cuts);
        line(out, "stopped within an open: ", self.within_open);
        line(
            out,
            "sessions in which a crash left something foreign: ",
            self.foreign,
        );
    }
}

fn add(n: &mut u64) {
    *n = n.wrapping_add(1);
}

fn count(numbers: &mut [u64], index: usize) {
    if let Some(n) = numbers.get_mut(index) {
        *n = n.wrapping_add(1);
    }
}

fn line(out: &mut Text, name: &str, n: u64) {
    out.push(name);
    out.number(n);
    out.push("\n");
}

fn pair(out: &mut Text, n: u64, name: &str) {
    out.number(n);
    out.push(name);
}

fn list(out: &mut Text, name: &str, words: &[&str], numbers: &[u64]) {
    out.push(name);
    for (word, n) in words.iter().zip(numbers) {
        out.push(" ");
        out.push(word);
        out.push(" ");
        out.number(*n);
    }
    out.push("\n");
}

fn index_of(command: &Command) -> usize {
    match command {
        Command::Open => 0,
        Command::Replace(_, _) => 1,
        Command::Link(_, _) => 2,
        Command::Free(_) => 3,
        Command::Rewrite(_) => 4,
        Command::BeginBatch => 5,
        Command::EndBatch => 6,
        Command::Complete(_) => 7,
        Command::Abort(_) => 8,
        Command::Write(_) => 9,
        Command::Flush => 10,
        Command::Stable(_) => 11,
        Command::Read(_) => 12,
        Command::Halt => 13,
        Command::Stop(_) => 14,
        Command::Crash(_) => 15,
    }
}

fn index_of_reply(reply: &Reply) -> usize {
    match reply {
        Reply::Opened {
            stable: _,
            active: _,
            pages: _,
        } => 0,
        Reply::Reserved(_, _, _) => 1,
        Reply::Done(_, _) => 2,
        Reply::Written => 3,
        Reply::Flushed(_) => 4,
        Reply::Page(_) => 5,
        Reply::FreePage => 6,
        Reply::Halted => 7,
        Reply::Armed => 8,
        Reply::Crashed(_) => 9,
        Reply::Failed(_) => 10,
        Reply::Stopped => 11,
        Reply::Refused(_) => 12,
    }
}

fn index_of_refusal(why: Refusal) -> usize {
    match why {
        Refusal::Stopped => 0,
        Refusal::Open => 1,
        Refusal::Closed => 2,
        Refusal::Page => 3,
        Refusal::Busy => 4,
        Refusal::Fragments => 5,
        Refusal::Batch => 6,
        Refusal::Ticket => 7,
        Refusal::Index => 8,
    }
}
