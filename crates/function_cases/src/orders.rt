//! Five sealed buffers over two segments, written in every order, each of them stopped in its write and torn at each of
//! its bytes: what a recovery finds then, and that the log goes on.
//!
//! Eight records of twenty bytes are durable, up to place 180. Then the pages 0 to 4 are replaced once more, each by a
//! record in a buffer of its own. The third one leaves 16 bytes of its segment, which zeros fill; the fourth one has the
//! header of the next segment before its record. A place is also the offset in the file.

use sled_log::config::Config;
use sled_log::device::{Choice, MemDevice, PlaceSum};
use sled_log::result::Result;
use sled_log::session::{Command, Reply, Session};
use std::alloc::Global;

// A buffer: where it begins, where its record ends, and where it ends itself.
type Span = (u64, u64, u64);

/// Whether each recovery finds what it has to.
pub fn hold(alloc: Global) -> Result<bool> {
    let mut is_so = true;
    for code in 0..3125 {
        if let Some(order) = order_of(code) {
            is_so &= order_holds(alloc, &order)?;
        }
    }
    Ok(is_so)
}

// The digits of a number to the base of five, where each is another one.
fn order_of(code: u64) -> Option<[u64; 5]> {
    let order = [
        code % 5,
        code / 5 % 5,
        code / 25 % 5,
        code / 125 % 5,
        code / 625 % 5,
    ];
    for n in 0..5 {
        if !has(&order, n) {
            return None;
        }
    }
    Some(order)
}

fn has(numbers: &[u64], n: u64) -> bool {
    for number in numbers {
        if *number == n {
            return true;
        }
    }
    false
}

fn order_holds(alloc: Global, order: &[u64]) -> Result<bool> {
    let mut is_so = true;
    let mut written = Vec::new(alloc);
    for buffer in order {
        is_so &= torn_holds(alloc, &written, *buffer)?;
        written.push(*buffer)?;
    }
    Ok(is_so)
}

// A buffer is torn at each of its bytes, behind the writes of others.
fn torn_holds(alloc: Global, written: &[u64], buffer: u64) -> Result<bool> {
    let (from, _, to) = span_of(buffer);
    let mut is_so = recovers(alloc, written, buffer, to)?;
    for at in from..to {
        is_so &= recovers(alloc, written, buffer, at)?;
    }
    Ok(is_so)
}

fn span_of(buffer: u64) -> Span {
    match buffer {
        0 => (180, 200, 200),
        1 => (200, 220, 220),
        2 => (220, 240, 256),
        3 => (256, 296, 296),
        _ => (296, 316, 316),
    }
}

// What a recovery finds where a buffer was written up to a place.
fn recovers(alloc: Global, written: &[u64], buffer: u64, at: u64) -> Result<bool> {
    let Some(size) = Config::new(256) else {
        return Ok(false);
    };
    let crash = up_to_crash(alloc, written, buffer, at)?;
    let behind = behind_crash(alloc)?;
    let mut session = Session::new(alloc, size, MemDevice::new(alloc), PlaceSum);
    let crashed = session.run(&crash);
    let came = session.run(&behind);
    session.end();
    let is_left = matches!(crashed?.last(), Some(Reply::Crashed(true)));
    let stands = standing(written, buffer, at);
    Ok(is_left && are_as_told(&came?, stands, cut_of(stands, buffer, at)))
}

// How many of the records stand one behind another.
fn standing(written: &[u64], buffer: u64, at: u64) -> u64 {
    for n in 0..5 {
        let (_, end, _) = span_of(n);
        let is_torn_behind = n == buffer && at >= end;
        if !is_torn_behind && !has(written, n) {
            return n;
        }
    }
    5
}

// The place up to which the log stands then: behind the last of them, and behind the header of the next segment where that
// one stands.
fn cut_of(stands: u64, buffer: u64, at: u64) -> i64 {
    match stands {
        0 => 180,
        1 => 200,
        2 => 220,
        3 if buffer == 3 && at >= 276 => 276,
        3 => 256,
        4 => 296,
        _ => 316,
    }
}

// An item of eleven bytes.
fn item(alloc: Global, byte: u8) -> Result<Vec<u8>> {
    Ok([byte; 11].to_vec(alloc)?)
}

// Eight records are flushed, five buffers sealed, some of them written, and one up to a place.
fn up_to_crash(alloc: Global, written: &[u64], buffer: u64, at: u64) -> Result<Vec<Command>> {
    let mut commands = Vec::new(alloc);
    commands.push(Command::Open)?;
    for n in 0..8u8 {
        commands.push(Command::Replace(u64::from(n % 5), item(alloc, n)?))?;
        commands.push(Command::Complete(usize::from(n)))?;
    }
    commands.push(Command::Flush)?;
    for n in 0..5u8 {
        commands.push(Command::Replace(u64::from(n), item(alloc, 100 + n)?))?;
        commands.push(Command::Flush)?;
    }
    for ticket in 8..13 {
        commands.push(Command::Complete(ticket))?;
    }
    push_writes(&mut commands, written, buffer, at)?;
    commands.push(Command::Crash(torn(alloc, buffer, at)?))?;
    Ok(commands)
}

// The writes. Nothing is left of one that is stopped at once, and what is wanted of one that is stopped in its sync.
fn push_writes(commands: &mut Vec<Command>, written: &[u64], buffer: u64, at: u64) -> Result<()> {
    let mut left = [true; 5];
    for n in written {
        commands.push(Command::Write(index_of(&left, *n)))?;
        if let Some(is_left) = left.get_mut(*n as usize) {
            *is_left = false;
        }
    }
    let (from, _, _) = span_of(buffer);
    commands.push(Command::Stop(if at == from { 0 } else { 1 }))?;
    commands.push(Command::Write(index_of(&left, buffer)))?;
    Ok(())
}

// Which one it is of those that are left.
fn index_of(left: &[bool], buffer: u64) -> usize {
    let mut index = 0usize;
    for (n, is_left) in left.iter().enumerate() {
        if *is_left && (n as u64) < buffer {
            index = index.saturating_add(1);
        }
    }
    index
}

// A crash that leaves the write of a buffer up to a place: the file had zeros there, or its end.
fn torn(alloc: Global, buffer: u64, at: u64) -> Result<Choice> {
    let (from, _, to) = span_of(buffer);
    if at == from {
        return Ok(Choice::Old(Vec::new(alloc)));
    }
    let mut patch = Vec::new(alloc);
    for offset in at..to {
        patch.push((offset, 0))?;
    }
    Ok(Choice::New(patch))
}

// What is there is read, and the log goes on.
fn behind_crash(alloc: Global) -> Result<Vec<Command>> {
    let mut commands = Vec::new(alloc);
    commands.push(Command::Open)?;
    for page in 0..5 {
        commands.push(Command::Read(page))?;
    }
    commands.push(Command::Replace(0, item(alloc, 200)?))?;
    commands.push(Command::Complete(0))?;
    commands.push(Command::Flush)?;
    commands.push(Command::Halt)?;
    commands.push(Command::Open)?;
    commands.push(Command::Read(0))?;
    Ok(commands)
}

fn are_as_told(replies: &[Reply], stands: u64, cut: i64) -> bool {
    let [
        opened,
        pages @ ..,
        reserved,
        done,
        flushed,
        halted,
        again,
        read,
    ] = replies
    else {
        return false;
    };
    let goes_on = matches!(reserved, Reply::Reserved(0, _, _))
        && matches!(done, Reply::Done(_, _))
        && matches!(flushed, Reply::Flushed(_))
        && matches!(halted, Reply::Halted)
        && matches!(again, Reply::Opened { pages: 5, .. });
    is_opened(opened, cut) && are_pages(pages, stands) && goes_on && is_page(read, 200)
}

fn is_opened(reply: &Reply, cut: i64) -> bool {
    match reply {
        Reply::Opened {
            stable: Some(place),
            active: _,
            pages: 5,
        } => *place == cut,
        _ => false,
    }
}

// The first pages are as they were replaced last, and the others as they were before.
fn are_pages(replies: &[Reply], stands: u64) -> bool {
    let mut is_so = replies.len() == 5;
    for (n, reply) in replies.iter().enumerate() {
        let n = n as u64;
        let byte = match n {
            n if n < stands => 100 + n % 5,
            0..=2 => n + 5,
            _ => n % 5,
        };
        is_so &= is_page(reply, byte as u8);
    }
    is_so
}

// A page has one item, of eleven times this byte, behind its length.
fn is_page(reply: &Reply, byte: u8) -> bool {
    match reply {
        Reply::Page(items) => match items.as_slice() {
            [text] => is_item(text, byte),
            _ => false,
        },
        _ => false,
    }
}

fn is_item(text: &[u8], byte: u8) -> bool {
    let [11, bytes @ ..] = text else {
        return false;
    };
    let mut is_so = bytes.len() == 11;
    for one in bytes {
        is_so &= *one == byte;
    }
    is_so
}
