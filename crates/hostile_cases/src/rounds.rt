//! Much of one kind: rounds of replaced pages, each a segment, without end; pages, open tickets and sessions by the thousand. Memory
//! is there, so nothing fails. No clause says when memory may be refused, so a bound on how many there may be would show here alone.

use crate::scripts::Script;
use case_lines::lines::{Fault, Outcome, Words};
use case_lines::tally::Tally;
use case_lines::texts::Text;
use sled_log::config::Config;
use sled_log::device::{Device, MemDevice, PlaceSum};
use sled_log::session::{Command, Reply, Session};
use std::alloc::Global;

/// Runs the cases of a file, of one of these forms each. Each replaces pages by eleven bytes, and then the log is halted and opened:
///
/// - `rounds ROUNDS PAGES -> flushed N length N opened PLACE SEGMENT PAGES`: each round replaces so many pages and flushes.
/// - `tickets PAGES -> ..`, the same of a second round, in which all tickets are open before the first is completed.
/// - `sessions SESSIONS -> ..`, the same of so many sessions, one behind another over one device, with a page for each.
pub(crate) fn run(alloc: Global, text: &str, tally: &mut Tally<'_>) {
    let mut script = Script::new(alloc);
    for (number, line) in text.lines().enumerate() {
        let number = number.wrapping_add(1);
        match script.take(line) {
            Ok(Some((word, behind))) => {
                let (asked, wanted) = behind.split_once(" -> ").unwrap_or((behind, ""));
                match came_of(alloc, &script, word, asked) {
                    Ok(came) => tally.case(number, wanted, came.as_str()),
                    Err(Fault(why)) => tally.case(number, wanted, why),
                }
            }
            Ok(None) => {}
            Err(Fault(why)) => tally.case(number, line, why),
        }
    }
}

// What came of what a line asks for.
fn came_of(alloc: Global, script: &Script, word: &str, asked: &str) -> Outcome<Text> {
    let mut words = Words::new(asked);
    let config = script.config()?;
    let mut session = Session::new(alloc, config, MemDevice::new(alloc), PlaceSum);
    let came = match word {
        "rounds" => {
            let (rounds, pages) = (words.number(), words.number());
            go_round(alloc, &mut session, rounds, pages)
        }
        "tickets" => go_open(alloc, &mut session, words.number()),
        "sessions" => {
            let (last, came) = go_on(alloc, config, session, words.number());
            session = last;
            came
        }
        _ => Err(Fault("no such line")),
    };
    let mut device = session.end();
    words.end()?;
    let (flushed, opened) = came?;
    let mut text = Text::new(alloc);
    text.push("flushed ");
    text.number(flushed);
    text.push(" length ");
    text.number(device.len().unwrap_or(0));
    text.push(" opened ");
    match opened {
        Some(
            Reply::Opened {
                stable,
                active,
                pages,
            },
        ) => text.table(stable, active, pages),
        _ => text.push("not"),
    }
    Ok(text)
}

// What the last flush grew the stable end by, and what the opening replied.
type Came = (u64, Option<Reply>);

// Goes one round, and in a second one takes a ticket for each page before it completes them and flushes.
fn go_open(alloc: Global, session: &mut Session<MemDevice, PlaceSum>, pages: u64) -> Outcome<Came> {
    let _ = session.run(&[Command::Open])?;
    let _ = grown(&session.run(&round_of(alloc, 0, pages)?)?)?;
    let mut commands = Vec::new(alloc);
    for page in 0..pages {
        commands.push(Command::Replace(page, [0; 11].to_vec(alloc)?))?;
    }
    for ticket in 0..pages {
        commands.push(Command::Complete(pages.wrapping_add(ticket) as usize))?;
    }
    commands.push(Command::Flush)?;
    let flushed = grown(&session.run(&commands)?)?;
    let mut replies = session.run(&[Command::Halt, Command::Open])?;
    Ok((flushed, replies.pop()))
}

// Ends a session and begins another one over its device so often. Each replaces a page and flushes.
fn go_on(
    alloc: Global,
    config: Config,
    session: Session<MemDevice, PlaceSum>,
    sessions: u64,
) -> (Session<MemDevice, PlaceSum>, Outcome<Came>) {
    let mut session = session;
    let mut flushed = Ok(0);
    for page in 0..sessions {
        if flushed.is_err() {
            break;
        }
        session = Session::new(alloc, config, session.end(), PlaceSum);
        flushed = replace_one(alloc, &mut session, page);
    }
    let opened = session.run(&[Command::Open]);
    let came = match (flushed, opened) {
        (Ok(flushed), Ok(mut replies)) => Ok((flushed, replies.pop())),
        (Err(e), _) => Err(e),
        (_, Err(e)) => Err(e.into()),
    };
    (session, came)
}

// Opens the log, replaces a page, flushes and halts. Returns by how much the flush grew the stable end.
fn replace_one(
    alloc: Global,
    session: &mut Session<MemDevice, PlaceSum>,
    page: u64,
) -> Outcome<u64> {
    let item = [0; 11].to_vec(alloc)?;
    let commands = [
        Command::Open,
        Command::Replace(page, item),
        Command::Complete(0),
        Command::Flush,
        Command::Halt,
    ];
    grown(&session.run(&commands)?)
}

// Goes so many rounds, then halts and opens. Returns by how much each flush grew the stable end, and what the opening replied.
fn go_round(
    alloc: Global,
    session: &mut Session<MemDevice, PlaceSum>,
    rounds: u64,
    pages: u64,
) -> Outcome<Came> {
    let _ = session.run(&[Command::Open])?;
    let mut first = None;
    for round in 0..rounds {
        let commands = round_of(alloc, round, pages)?;
        let flushed = grown(&session.run(&commands)?)?;
        if *first.get_or_insert(flushed) != flushed {
            return Err(Fault("a flush grows by another number"));
        }
    }
    let mut replies = session.run(&[Command::Halt, Command::Open])?;
    Ok((first.unwrap_or(0), replies.pop()))
}

// The commands of a round: each page is replaced by eleven bytes, and all is flushed.
fn round_of(alloc: Global, round: u64, pages: u64) -> Outcome<Vec<Command>> {
    let mut commands = Vec::new(alloc);
    for page in 0..pages {
        let item = [(round % 256) as u8; 11].to_vec(alloc)?;
        let ticket = round.wrapping_mul(pages).wrapping_add(page);
        commands.push(Command::Replace(page, item))?;
        commands.push(Command::Complete(ticket as usize))?;
    }
    commands.push(Command::Flush)?;
    Ok(commands)
}

// By how much the flush of a round grew the stable end. No other reply is a failure.
fn grown(replies: &[Reply]) -> Outcome<u64> {
    let mut grown = None;
    for reply in replies {
        match reply {
            Reply::Opened { .. } | Reply::Halted => {}
            Reply::Reserved(_, _, _) | Reply::Done(_, _) => {}
            Reply::Flushed(n) => grown = Some(*n as u64),
            _ => return Err(Fault("another reply")),
        }
    }
    grown.ok_or(Fault("no flush"))
}
