//! What a crash may leave of a header over zeros (`docs/CRASH_SAFETY.md`, "What is left of a header over zeros shows no
//! segment"): under `Crc32` a log can lose a message by it that was acknowledged, and under `LogCrc32` it doesn't.

use sled_file::{Crc32, LogCrc32};
use sled_log::config::Config;
use sled_log::device::{Checksum, Choice, MemDevice};
use sled_log::result::Result;
use sled_log::session::{Command, Reply, Session};
use std::alloc::Global;

// So many calls of an opening are tried: one makes less.
const CALLS: u64 = 20;

// What became of a page that was acknowledged.
#[derive(Clone, Copy, PartialEq, Eq)]
enum Left {
    // The crash couldn't leave those bytes.
    Unasked,
    Kept,
    Lost,
}

/// Of a first segment whose messages were all replaced a start makes zeros. Wherever it is stopped and the crash leaves bytes
/// 4 to 7 of the old header, nothing is lost under `LogCrc32`, also where it is under `Crc32`.
pub fn hold(alloc: Global) -> Result<bool> {
    let mut is_lost = false;
    let mut is_saved = false;
    for calls in 0..CALLS {
        let before = left_behind(alloc, Crc32, calls)?;
        let now = left_behind(alloc, LogCrc32, calls)?;
        is_lost |= now == Left::Lost;
        is_saved |= before == Left::Lost && now == Left::Kept;
    }
    Ok(is_saved && !is_lost)
}

// What is left where the opening is stopped within its next call behind so many.
fn left_behind<C: Checksum + Drop>(alloc: Global, checksum: C, calls: u64) -> Result<Left> {
    let Some(size) = Config::new(256) else {
        return Ok(Left::Unasked);
    };
    let commands = commands(alloc, calls)?;
    let mut session = Session::new(alloc, size, MemDevice::new(alloc), checksum);
    let replies = session.run(&commands);
    session.end();
    Ok(match replies?.as_slice() {
        [.., Reply::Crashed(true), _, read] if is_page(read) => Left::Kept,
        [.., Reply::Crashed(true), _, _] => Left::Lost,
        _ => Left::Unasked,
    })
}

// A segment is filled with messages of a page, and the next one gets another. The opening behind that is stopped.
fn commands(alloc: Global, calls: u64) -> Result<Vec<Command>> {
    let mut commands = Vec::new(alloc);
    commands.push(Command::Open)?;
    for ticket in 0..11 {
        commands.push(Command::Replace(0, [7; 11].to_vec(alloc)?))?;
        commands.push(Command::Complete(ticket))?;
    }
    commands.push(Command::Flush)?;
    commands.push(Command::Replace(0, [8].to_vec(alloc)?))?;
    commands.push(Command::Complete(11))?;
    commands.push(Command::Flush)?;
    commands.push(Command::Halt)?;
    commands.push(Command::Stop(calls))?;
    commands.push(Command::Open)?;
    let patch = [(4, 255), (5, 255), (6, 255), (7, 255)].to_vec(alloc)?;
    commands.push(Command::Crash(Choice::New(patch)))?;
    commands.push(Command::Open)?;
    commands.push(Command::Read(0))?;
    Ok(commands)
}

// It is the last item.
fn is_page(reply: &Reply) -> bool {
    match reply {
        Reply::Page(items) => match items.as_slice() {
            [item] => item.as_slice() == [1, 8].as_slice(),
            _ => false,
        },
        _ => false,
    }
}
