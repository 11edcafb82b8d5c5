//! A line of input, read as a command.
//!
//! Words are parted by one space. Numbers are decimal and below 2^64, and bytes have two lower-case
//! hexadecimal digits each (`specs/Hex.antt`). Any other line is none of a command's.

ghost use Rattle.std.specs.Prelude.{◌<◌, ◌^◌};
ghost use Rattle.std.specs.Option.{SomeIff};
ghost use Rattle.std.specs.Str.Parse.{IsNumeral, digits_value};

use crate::text;
use sled_log::device::Choice;
use sled_log::result::{Lsn, PageId};
use sled_log::session::Command;
use std::alloc::{AllocError, Global};

/// What a line asks for.
#[derive(Drop)]
pub enum Asked {
    /// Segments have this size.
    Size(u64),
    /// Carry this command out.
    Command(Command),
}

/// What a line asks for, with or without its line feed; `None` for a line that is none.
pub fn parse(alloc: Global, line: &[u8]) -> Result<Option<Asked>, AllocError> {
    let Ok(line) = str::from_utf8(line) else {
        return Ok(None);
    };
    let line = line.strip_suffix('\n').unwrap_or(line);
    match line.split_once(' ') {
        None => Ok(alone(line)),
        Some((word, operands)) => with_operands(alloc, word, operands),
    }
}

// A command of one word.
fn alone(word: &str) -> Option<Asked> {
    let command = match word {
        "open" => Command::Open,
        "begin" => Command::BeginBatch,
        "end" => Command::EndBatch,
        "flush" => Command::Flush,
        "halt" => Command::Halt,
        _ => return None,
    };
    Some(Asked::Command(command))
}

// A command of a word and more.
fn with_operands(alloc: Global, word: &str, operands: &str) -> Result<Option<Asked>, AllocError> {
    let command = match word {
        "size" => return Ok(number(operands).map(Asked::Size)),
        "replace" => with_item(alloc, operands)?.map(|(page, item)| Command::Replace(page, item)),
        "link" => with_item(alloc, operands)?.map(|(page, item)| Command::Link(page, item)),
        "crash" => crash(alloc, operands)?,
        "stable" => place(operands).map(Command::Stable),
        _ => with_number(word, operands),
    };
    Ok(command.map(Asked::Command))
}

// A command of a word and a number.
fn with_number(word: &str, operand: &str) -> Option<Command> {
    let n = number(operand)?;
    match word {
        "free" => Some(Command::Free(n)),
        "rewrite" => Some(Command::Rewrite(n)),
        "complete" => Some(Command::Complete(n as usize)),
        "abort" => Some(Command::Abort(n as usize)),
        "write" => Some(Command::Write(n as usize)),
        "read" => Some(Command::Read(n)),
        "stop" => Some(Command::Stop(n)),
        _ => None,
    }
}

// A page and the bytes of an item.
fn with_item(alloc: Global, words: &str) -> Result<Option<(PageId, Vec<u8>)>, AllocError> {
    let Some((page, bytes)) = words.split_once(' ') else {
        return Ok(None);
    };
    let Some(page) = number(page) else {
        return Ok(None);
    };
    let item = text::bytes_of(alloc, bytes.as_bytes())?;
    Ok(item.map(|item| (page, item)))
}

// A crash, which leaves what is durable or what was written last, under a patch.
fn crash(alloc: Global, operands: &str) -> Result<Option<Command>, AllocError> {
    let (word, rest) = operands.split_once(' ').unwrap_or((operands, ""));
    let is_old = match word {
        "old" => true,
        "new" => false,
        _ => return Ok(None),
    };
    if word.len() < operands.len() && rest.is_empty() {
        return Ok(None);
    }
    let Some(patch) = patch(alloc, rest)? else {
        return Ok(None);
    };
    let choice = if is_old {
        Choice::Old(patch)
    } else {
        Choice::New(patch)
    };
    Ok(Some(Command::Crash(choice)))
}

// Offsets and the bytes there, each as OFFSET:BYTE.
fn patch(alloc: Global, words: &str) -> Result<Option<Vec<(u64, u8)>>, AllocError> {
    let mut patch = Vec::new(alloc);
    if words.is_empty() {
        return Ok(Some(patch));
    }
    for word in words.split(' ') {
        let Some(one) = patched(word) else {
            return Ok(None);
        };
        patch.push(one)?;
    }
    Ok(Some(patch))
}

// One offset and its byte.
fn patched(word: &str) -> Option<(u64, u8)> {
    let (offset, byte) = word.split_once(':')?;
    let byte = number(byte)?;
    if byte > 255 {
        return None;
    }
    Some((number(offset)?, byte as u8))
}

// A place: a number that fits it, which may have a minus before it.
fn place(word: &str) -> Option<Lsn> {
    match word.strip_prefix('+') {
        Some(_) => None,
        None => word.parse().ok(),
    }
}

// A number below 2^64 of digits alone. Signs make none.
fn number(word: &str) -> Option<u64>
    ensures { SomeIff result (IsNumeral 10 word.now × (digits_value 10 word.now < 2 ^ 64)) (digits_value 10 word.now) }
{
    match word.as_bytes() {
        [b'+', ..] => None,
        _ => word.parse().ok(),
    }
}
