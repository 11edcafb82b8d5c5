//! Runs of commands, and what each is to answer.

use crate::world::Running;
use case_lines::devices::choice;
use case_lines::lines::{Fault, Outcome, Words};
use case_lines::tally::Tally;
use case_lines::texts::Text;
use sled_log::config::RunningConfig;
use sled_log::logger::{DiskPtr, Lsn};
use sled_log::result::Error;
use sled_log::session::{Command, Refusal, Reply, Session};
use std::alloc::Global;

/// A command, and the reply that is wanted.
#[derive(Drop)]
pub struct Told {
    /// The line on which it stands.
    pub line: usize,
    /// What is to be done.
    pub command: Command,
    /// The reply.
    pub wanted: String,
}

/// Returns the command of a line.
///
/// # Errors
///
/// The fault of the line, where it is none.
pub fn command(alloc: Global, line: &str) -> Outcome<Command> {
    let mut words = Words::new(line);
    let command = command_of(alloc, &mut words);
    words.end()?;
    Ok(command)
}

fn command_of(alloc: Global, words: &mut Words<'_>) -> Command {
    match words.word() {
        "open" => Command::Open,
        "begin" => Command::BeginBatch,
        "end" => Command::EndBatch,
        "replace" => Command::Replace(words.number(), words.bytes(alloc)),
        "link" => Command::Link(words.number(), words.bytes(alloc)),
        "free" => Command::Free(words.number()),
        "rewrite" => Command::Rewrite(words.number()),
        "complete" => Command::Complete(words.number() as usize),
        "abort" => Command::Abort(words.number() as usize),
        "write" => Command::Write(words.number() as usize),
        "flush" => Command::Flush,
        "stable" => Command::Stable(words.signed()),
        "read" => Command::Read(words.number()),
        "halt" => Command::Halt,
        "stop" => Command::Stop(words.number()),
        "crash" => Command::Crash(choice(alloc, words)),
        _ => {
            words.bad("no such command");
            Command::Halt
        }
    }
}

/// Runs commands, and compares their replies. It gives back what they ran on.
///
/// # Errors
///
/// The fault, where memory is refused.
pub fn compare(
    alloc: Global,
    config: Running,
    told: Vec<Told>,
    tally: &mut Tally<'_>,
) -> (Running, Outcome<()>) {
    let (commands, wanted) = match commands_of(alloc, told) {
        Ok(both) => both,
        Err(fault) => return (config, Err(fault)),
    };
    let sizes = config.config;
    let checksum = config.checksum;
    let mut session = Session::new(alloc, sizes, config.into_device(), checksum);
    let answer = session.run(&commands);
    let config = RunningConfig::new(alloc, sizes, session.end(), checksum);
    (config, compare_answer(alloc, &wanted, answer, tally))
}

// The line and the text of each reply that is wanted.
type Wanted = Vec<(usize, String)>;

fn commands_of(alloc: Global, told: Vec<Told>) -> Outcome<(Vec<Command>, Wanted)> {
    let mut commands = Vec::new(alloc);
    let mut wanted = Vec::new(alloc);
    for one in told {
        commands.push(one.command)?;
        wanted.push((one.line, one.wanted))?;
    }
    Ok((commands, wanted))
}

fn compare_answer(
    alloc: Global,
    wanted: &[(usize, String)],
    answer: Result<Vec<Reply>, Error>,
    tally: &mut Tally<'_>,
) -> Outcome<()> {
    let Ok(replies) = answer else {
        return Err(Fault("out of memory"));
    };
    for ((line, wanted), reply) in wanted.iter().zip(&replies) {
        let mut came = Text::new(alloc);
        push_reply(&mut came, reply);
        tally.case(*line, wanted, came.as_str());
    }
    Ok(())
}

// Adds a reply.
fn push_reply(out: &mut Text, reply: &Reply) {
    match reply {
        Reply::Opened {
            stable,
            active,
            pages,
        } => {
            out.push("opened ");
            out.table(*stable, *active, *pages);
        }
        Reply::Reserved(ticket, place, at) => push_reserved(out, *ticket, *place, *at),
        Reply::Done(place, at) => {
            out.push("done ");
            out.spot(*place, *at);
        }
        Reply::Flushed(grown) => {
            out.push("flushed ");
            out.number(*grown as u64);
        }
        Reply::Page(items) => push_items(out, items),
        Reply::Crashed(taken) => {
            out.push("crashed ");
            out.truth(*taken);
        }
        Reply::Failed(e) => {
            out.push("failed ");
            out.error(e);
        }
        Reply::Refused(why) => {
            out.push("refused ");
            out.push(word_of(*why));
        }
        Reply::Written => out.push("written"),
        Reply::FreePage => out.push("page free"),
        Reply::Halted => out.push("halted"),
        Reply::Armed => out.push("armed"),
        Reply::Stopped => out.push("stopped"),
    }
}

fn push_reserved(out: &mut Text, ticket: usize, place: Lsn, at: DiskPtr) {
    out.push("reserved ");
    out.number(ticket as u64);
    out.push(" ");
    out.spot(place, at);
}

fn push_items(out: &mut Text, items: &[Vec<u8>]) {
    out.push("page");
    for item in items {
        out.push(" ");
        out.hex(item);
    }
}

fn word_of(why: Refusal) -> &'static str {
    match why {
        Refusal::Stopped => "stopped",
        Refusal::Open => "open",
        Refusal::Closed => "closed",
        Refusal::Page => "page",
        Refusal::Busy => "busy",
        Refusal::Fragments => "fragments",
        Refusal::Batch => "batch",
        Refusal::Ticket => "ticket",
        Refusal::Index => "index",
    }
}
