//! The pages that a recovery finds.

use crate::Ended;
use crate::content::{Folder, load_pages};
use crate::json::Json;
use crate::output::printed;
use crate::words::{Optional, Pointer};
use anyhow::Result;
use sled_log::device::Checksum;
use sled_log::snapshot::{Entry, PageState, Snapshot};
use std::alloc::Global;
use std::io::{self, BufWriter, Write};

/// Prints where the log goes on, and each page with its messages.
pub(crate) fn show<C: Checksum + Copy + Drop>(
    rt: &HostRuntime,
    folder: &Folder<'_, C>,
    is_json: bool,
) -> Result<Ended> {
    let alloc = rt.alloc();
    let (_, snapshot) = load_pages(rt, folder)?;
    let mut writer = BufWriter::new(alloc, io::writer(rt))?;
    if is_json {
        printed(print_json(alloc, folder.path, &snapshot, &mut Json::new(&mut writer)))?;
    } else {
        printed(as_text(&snapshot, &mut writer))?;
    }
    printed(writer.flush())?;
    Ok(Ended::Well)
}

fn as_text<W: Write>(snapshot: &Snapshot, writer: &mut W) -> io::Result<()> {
    let stable = Optional(snapshot.stable_lsn);
    let active = Optional(snapshot.active_segment);
    let pages = snapshot.pt.len();
    writeln!(writer, "stable {stable} active {active} pages {pages}")?;
    for (number, page) in snapshot.pt.iter().enumerate() {
        write!(writer, "page {number}")?;
        page_as_text(page, writer)?;
    }
    Ok(())
}

fn page_as_text<W: Write>(page: &PageState, writer: &mut W) -> io::Result<()> {
    match page {
        PageState::Present { base, frags } => {
            entry_as_text(base, writer)?;
            for entry in frags {
                write!(writer, " +")?;
                entry_as_text(entry, writer)?;
            }
        }
        PageState::Free(place, pointer) => {
            let at = Pointer(*pointer);
            write!(writer, " free {place} {at}")?;
        }
        PageState::Uninitialized => write!(writer, " not begun")?,
    }
    writeln!(writer)
}

fn entry_as_text<W: Write>(entry: &Entry, writer: &mut W) -> io::Result<()> {
    let (place, at, len) = (entry.0, Pointer(entry.1), entry.2);
    write!(writer, " {place} {at} {len}")
}

/// Prints it as one object of JSON.
pub(crate) fn print_json<W: Write>(
    alloc: Global,
    folder: &str,
    snapshot: &Snapshot,
    json: &mut Json<'_, W>,
) -> io::Result<()> {
    json.open("{")?;
    json.text(alloc, "folder", folder)?;
    json.place_or_null("stable", snapshot.stable_lsn)?;
    json.number_or_null("active", snapshot.active_segment)?;
    json.key("pages")?;
    json.open("[")?;
    for page in &snapshot.pt {
        page_as_json(page, json)?;
    }
    json.close("]")?;
    json.close("}")?;
    json.end_line()
}

// A page is the list of its messages, or where it was given back an object for the message that did so.
fn page_as_json<W: Write>(page: &PageState, json: &mut Json<'_, W>) -> io::Result<()> {
    match page {
        PageState::Present { base, frags } => {
            json.open("[")?;
            entry_as_json(base, json)?;
            for entry in frags {
                entry_as_json(entry, json)?;
            }
            json.close("]")
        }
        PageState::Free(place, pointer) => {
            json.open("{")?;
            json.flag("free")?;
            json.place("place", *place)?;
            json.pointer(*pointer)?;
            json.close("}")
        }
        PageState::Uninitialized => {
            json.open("[")?;
            json.close("]")
        }
    }
}

fn entry_as_json<W: Write>(entry: &Entry, json: &mut Json<'_, W>) -> io::Result<()> {
    json.open("{")?;
    json.place("place", entry.0)?;
    json.pointer(entry.1)?;
    json.number("length", entry.2)?;
    json.close("}")
}
