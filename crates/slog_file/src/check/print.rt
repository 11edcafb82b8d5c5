//! How a check is printed.

use crate::check::findings::{Effect, Findings};
use crate::entries::Unread;
use crate::json::Json;
use crate::noted_device::Change;
use crate::words::{Optional, Pointer};
use std::alloc::Global;
use std::io::{self, Write};

/// Prints lines of words.
pub(crate) fn print_text<W: Write>(findings: &Findings, writer: &mut W) -> io::Result<()> {
    if let Some(snapshot) = &findings.snapshot {
        let stable = Optional(snapshot.stable_lsn);
        let active = Optional(snapshot.active_segment);
        let pages = snapshot.pt.len();
        writeln!(writer, "stable {stable} active {active} pages {pages}")?;
    }
    effects_as_text("recovery", &findings.recovery, writer)?;
    effects_as_text("opening", &findings.opening, writer)?;
    for unread in &findings.unread {
        unread_as_text(unread, writer)?;
    }
    match findings.dropped {
        0 => Ok(()),
        1 => writeln!(writer, "an opening drops 1 byte that isn't zero"),
        count => writeln!(writer, "an opening drops {count} bytes that aren't zeros"),
    }
}

// The changes of a step, a line for each.
fn effects_as_text<W: Write>(
    step: &str,
    effects: &Option<Vec<Effect>>,
    writer: &mut W,
) -> io::Result<()> {
    let Some(effects) = effects else {
        return Ok(());
    };
    for effect in effects {
        let change = effect.change;
        write!(writer, "{step} {change}")?;
        if let Some(count) = effect.nonzero {
            write!(writer, " nonzero {count}")?;
        }
        writeln!(writer)?;
    }
    if effects.is_empty() {
        writeln!(writer, "{step} changes nothing")?;
    }
    Ok(())
}

fn unread_as_text<W: Write>(unread: &Unread, writer: &mut W) -> io::Result<()> {
    let (page, place, pointer) = (unread.page, unread.place, Pointer(unread.pointer));
    let (file, at, why) = (unread.file(), unread.at, unread.why);
    writeln!(
        writer,
        "unread page {page} place {place} {pointer} {file} at {at} {why}"
    )
}

/// Prints one object of JSON.
pub(crate) fn print_json<W: Write>(
    alloc: Global,
    folder: &str,
    findings: &Findings,
    json: &mut Json<'_, W>,
) -> io::Result<()> {
    let Some(snapshot) = &findings.snapshot else {
        return Ok(());
    };
    json.open("{")?;
    json.text(alloc, "folder", folder)?;
    json.coordinates(snapshot)?;
    effects_as_json(alloc, "recovery", &findings.recovery, json)?;
    effects_as_json(alloc, "opening", &findings.opening, json)?;
    json.key("unread")?;
    json.open("[")?;
    for unread in &findings.unread {
        unread_as_json(alloc, unread, json)?;
    }
    json.close("]")?;
    json.number("dropped", findings.dropped)?;
    json.close("}")?;
    json.end_line()
}

// The changes of a step as a list, or null for a step that isn't made.
fn effects_as_json<W: Write>(
    alloc: Global,
    step: &str,
    effects: &Option<Vec<Effect>>,
    json: &mut Json<'_, W>,
) -> io::Result<()> {
    let Some(effects) = effects else {
        return json.null(step);
    };
    json.key(step)?;
    json.open("[")?;
    for effect in effects {
        json.open("{")?;
        change_as_json(alloc, effect.change, json)?;
        if let Some(count) = effect.nonzero {
            json.number("nonzero", count)?;
        }
        json.close("}")?;
    }
    json.close("]")
}

fn change_as_json<W: Write>(
    alloc: Global,
    change: Change,
    json: &mut Json<'_, W>,
) -> io::Result<()> {
    json.text(alloc, "change", change.word())?;
    match change {
        Change::Zeros { at, len } | Change::Write { at, len } => {
            json.number("offset", at)?;
            json.number("bytes", len)
        }
        Change::Cut { len } => json.number("offset", len),
        Change::MakeBlob { place } => json.place("place", place),
        Change::RemoveBlob { place } => json.place("place", place),
        Change::Publish { number } => json.place("number", number),
        Change::RemoveSnapshot { number } => json.place("number", number),
    }
}

fn unread_as_json<W: Write>(
    alloc: Global,
    unread: &Unread,
    json: &mut Json<'_, W>,
) -> io::Result<()> {
    json.open("{")?;
    json.number("page", unread.page)?;
    json.place("place", unread.place)?;
    json.pointer(unread.pointer)?;
    let file = format!(in alloc; "{}", unread.file())?;
    json.text(alloc, "file", file.as_str())?;
    json.number("at", unread.at)?;
    let why = format!(in alloc; "{}", unread.why)?;
    json.text(alloc, "why", why.as_str())?;
    json.close("}")
}
