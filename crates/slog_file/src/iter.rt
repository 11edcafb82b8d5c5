//! The messages of the log file by place.

use crate::content::{Copied, Folder, load};
use crate::json::Json;
use crate::output::{output_error, printed};
use crate::words::{Pointer, word_of_kind};
use crate::{Ended, damage};
use anyhow::Result;
use sled_log::device::Checksum;
use sled_log::iterator::raw_segment_iter_from;
use sled_log::logger::{DiskPtr, LogKind};
use sled_log::result::{Lsn, PageId};
use std::alloc::Global;
use std::io::{self, BufWriter, Write};

/// Prints the messages from the beginning of the segment that holds a place.
pub(crate) fn show<C: Checksum + Copy + Drop>(
    rt: &HostRuntime,
    folder: &Folder<'_, C>,
    from: Lsn,
    is_json: bool,
) -> Result<Ended> {
    let mut config = load(rt, folder)?;
    let mut writer = BufWriter::new(rt.alloc(), io::writer(rt))?;
    let outcome = print_all(rt.alloc(), &mut config, from, is_json, &mut writer);
    printed(writer.flush())?;
    match outcome {
        Ok(()) => Ok(Ended::Well),
        Err(Stop::Log(error)) => Err(damage::explained_behind(
            rt.alloc(),
            folder.path,
            &mut config,
            from,
            error,
        )),
        Err(Stop::Output(error)) => Err(output_error(error)),
    }
}

// Why the messages end before they are all printed.
#[derive(Drop)]
enum Stop {
    Log(sled_log::result::Error),
    Output(io::Error),
}

impl From<io::Error> for Stop {
    fn from(error: io::Error) -> Stop {
        Stop::Output(error)
    }
}

fn print_all<C: Checksum, W: Write>(
    alloc: Global,
    config: &mut Copied<C>,
    from: Lsn,
    is_json: bool,
    writer: &mut W,
) -> std::result::Result<(), Stop> {
    let messages = match raw_segment_iter_from(from, config) {
        Ok(messages) => messages,
        Err((error, _)) => return Err(Stop::Log(error)),
    };
    for message in messages {
        match message {
            Ok(message) => {
                if is_json {
                    as_json(alloc, message, &mut Json::new(writer))?;
                } else {
                    as_text(message, writer)?;
                }
            }
            Err(error) => return Err(Stop::Log(error)),
        }
    }
    Ok(())
}

// What a message does, its page, its place, its pointer, and how long its record is.
type Message = (LogKind, PageId, Lsn, DiskPtr, u64);

fn as_text<W: Write>(message: Message, writer: &mut W) -> io::Result<()> {
    let (kind, page, place, pointer, len) = message;
    let (word, at) = (word_of_kind(kind), Pointer(pointer));
    writeln!(writer, "{word} {page} {place} {at} {len}")
}

// A message as an object on a line of its own.
fn as_json<W: Write>(alloc: Global, message: Message, json: &mut Json<'_, W>) -> io::Result<()> {
    let (kind, page, place, pointer, len) = message;
    json.open("{")?;
    json.text(alloc, "kind", word_of_kind(kind))?;
    json.number("page", page)?;
    json.place("place", place)?;
    json.pointer(pointer)?;
    json.number("length", len)?;
    json.close("}")?;
    json.end_line()
}
