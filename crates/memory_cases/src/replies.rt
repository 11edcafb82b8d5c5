//! Commands of a session with their replies: each is carried out, and once more where memory was refused.

use crate::{TRIES, met};
use sled_log::device::{MemDevice, PlaceSum};
use sled_log::result::Error;
use sled_log::session::{Command, Reply, Session};
use slog_lines::line::{self, Asked};
use slog_lines::text;

/// What came of a command.
#[derive(Drop)]
pub(crate) enum Came {
    /// The reply that was wanted.
    Wanted,
    /// Another one, as it is printed.
    Other(Vec<u8>),
    /// None, for this reason.
    Nothing(&'static str),
}

/// Carries out the command of a line, once more where memory was refused to it or to the list of its reply, and compares
/// the reply. A flush that met the refusal may have written something before it, so the second one grows by no more.
pub(crate) fn carry_out(
    rt: &HostRuntime,
    session: &mut Session<MemDevice, PlaceSum>,
    asked: &str,
    wanted: &str,
) -> Came {
    let Some(command) = command_of(rt, asked) else {
        return Came::Nothing("no command");
    };
    let commands = [command];
    let mut grown = None;
    for _ in 0..TRIES {
        match session.run(&commands) {
            Err(_) => met(rt, "a list of replies"),
            Ok(replies) => match replies.first() {
                Some(Reply::Failed(Error::OutOfMemory)) => {
                    met(rt, asked.split(' ').next().unwrap_or(asked));
                    grown = number_behind(wanted, "flushed ");
                }
                Some(reply) => return compare(rt, reply, wanted, grown),
                None => return Came::Nothing("no reply"),
            },
        }
    }
    Came::Nothing("memory was refused twice")
}

// The command of a line.
fn command_of(rt: &HostRuntime, line: &str) -> Option<Command> {
    for _ in 0..TRIES {
        match line::parse(rt.alloc(), line.as_bytes()) {
            Ok(Some(Asked::Command(command))) => return Some(command),
            Ok(_) => return None,
            Err(_) => met(rt, "the program"),
        }
    }
    None
}

// The number behind a word.
fn number_behind(text: &str, word: &str) -> Option<usize> {
    text.strip_prefix(word)?.parse().ok()
}

// Compares a reply. One that says by how much the stable end grew may say less than this.
fn compare(rt: &HostRuntime, reply: &Reply, wanted: &str, grown: Option<usize>) -> Came {
    match (reply, grown) {
        (Reply::Flushed(n), Some(most)) if *n <= most => return Came::Wanted,
        _ => {}
    }
    let Some(mut printed) = printed(rt, reply) else {
        return Came::Nothing("memory was refused twice");
    };
    let _ = printed.pop();
    if printed.as_slice() == wanted.as_bytes() {
        Came::Wanted
    } else {
        Came::Other(printed)
    }
}

// The line of a reply.
fn printed(rt: &HostRuntime, reply: &Reply) -> Option<Vec<u8>> {
    for _ in 0..TRIES {
        let mut line = Vec::new(rt.alloc());
        match text::print(rt.alloc(), &mut line, reply) {
            Ok(()) => return Some(line),
            Err(_) => met(rt, "the program"),
        }
    }
    None
}
