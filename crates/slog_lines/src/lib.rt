//! A log over a device in memory, run by lines of text (`docs/SLOG.md`): what the program `slog` does with its standard input.
//!
//! The first line names the size of segments. A line that is no command ends the run; an error of the
//! log, or a command that is refused, does not.
//!
//! Reading a line (`line::parse`) and printing a reply (`text::print`) are for other programs too, over devices of
//! their own.
#![tactic(auto)]

ghost use Rattle.std.specs.Prelude.{◌≤◌};

pub mod line;
pub mod text;

use line::Asked;
use sled_log::config::Config;
use sled_log::device::{MemDevice, PlaceSum};
use sled_log::result::Error;
use sled_log::session::{Command, Reply, Session};
use std::alloc::{AllocError, AllocFailed, Global};
use std::io::{self, BufRead, Write};

// A session over a device in memory, once the size of segments was told.
type Running = Option<Session<MemDevice, PlaceSum>>;

// Why the program ends before its input does.
#[derive(Debug, Clone, Copy, PartialEq, Eq)]
enum Stop {
    // The line is none, or stands where it can't.
    BadLine,
    // The reader or the writer failed, or memory for the program itself was refused.
    Failed,
}

// Memory for the program itself.
impl From<AllocError> for Stop {
    fn from(_e: AllocError) -> Stop {
        Stop::Failed
    }
}

// Memory for the reply of a command: an error of the command itself is its reply.
impl From<Error> for Stop {
    fn from(_e: Error) -> Stop {
        Stop::Failed
    }
}

// Memory for the program itself.
impl<T: Drop> From<AllocFailed<T>> for Stop {
    fn from(_e: AllocFailed<T>) -> Stop {
        Stop::Failed
    }
}

// A failure of the reader or the writer.
impl From<io::Error> for Stop {
    fn from(_e: io::Error) -> Stop {
        Stop::Failed
    }
}

/// Runs the lines of a reader up to its end or to a bad one, and prints on a writer. Returns the exit status:
/// 0 at the end of the lines, 2 after a bad line, and 1 where the reader or the writer fails or memory for
/// the program itself is refused.
pub fn run_lines<R: BufRead + Drop, W: Write + Drop>(
    alloc: Global,
    mut reader: R,
    mut writer: W,
) -> u8
    ensures { result ≤ 2 }
{
    let mut running = None;
    let outcome = run_all(alloc, &mut running, &mut reader, &mut writer);
    end(running);
    let flushed = writer.flush();
    match (outcome, flushed) {
        (Ok(()), Ok(())) => 0,
        (Err(Stop::BadLine), Ok(())) => 2,
        _ => 1,
    }
}

// Ends the session, if one was begun.
fn end(running: Running) {
    if let Some(session) = running {
        let _ = session.end();
    }
}

// Runs one line after another, and says which one is bad.
fn run_all<R: BufRead, W: Write>(
    alloc: Global,
    running: &mut Running,
    reader: &mut R,
    writer: &mut W,
) -> Result<(), Stop> {
    let mut line = Vec::new(alloc);
    for number in 0..u64::MAX {
        line.clear();
        if reader.read_until(b'\n', &mut line)? == 0 {
            return Ok(());
        }
        if let Err(stop) = run_line(alloc, running, &line, writer) {
            return Err(told(stop, writer, number + 1));
        }
    }
    Err(Stop::Failed)
}

// Runs a line, and prints what came of it. The writer is flushed then, so that whoever writes the lines can
// wait for each reply.
fn run_line<W: Write>(
    alloc: Global,
    running: &mut Running,
    line: &[u8],
    writer: &mut W,
) -> Result<(), Stop> {
    match line::parse(alloc, line)? {
        Some(Asked::Size(size)) => begin(alloc, running, size),
        Some(Asked::Command(command)) => {
            let reply = run_command(running, command)?;
            text::print(alloc, writer, &reply)?;
            Ok(writer.flush()?)
        }
        None => Err(Stop::BadLine),
    }
}

// Takes the size of segments, once, and an empty device.
fn begin(alloc: Global, running: &mut Running, size: u64) -> Result<(), Stop> {
    let Some(config) = Config::new(size) else {
        return Err(Stop::BadLine);
    };
    if running.is_some() {
        return Err(Stop::BadLine);
    }
    let session = Session::new(alloc, config, MemDevice::new(alloc), PlaceSum);
    end(running.replace(session));
    Ok(())
}

// Runs a command. Before the size of segments it is a bad line.
fn run_command(running: &mut Running, command: Command) -> Result<Reply, Stop> {
    let Some(session) = running else {
        return Err(Stop::BadLine);
    };
    let commands = [command];
    let mut replies = session.run(&commands)?;
    replies.pop().ok_or(Stop::Failed)
}

// Prints the number of a bad line.
fn told<W: Write>(stop: Stop, writer: &mut W, number: u64) -> Stop {
    match stop {
        Stop::Failed => Stop::Failed,
        Stop::BadLine => match writeln!(writer, "bad line {number}") {
            Ok(()) => Stop::BadLine,
            Err(_) => Stop::Failed,
        },
    }
}
