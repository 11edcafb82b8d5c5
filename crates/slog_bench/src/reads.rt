//! Reading of a log file or of a buffer: bytes, records, slots, and all records of a segment.
ghost use Rattle.std.specs.Prelude.{◌≤◌};

use crate::logs::push_read;
use crate::world::Running;
use case_lines::answer::Answer;
use case_lines::lines::Words;
use case_lines::texts::Text;
use sled_core::iterator::scan::{RecordContent, ScanEnd, ScannedRecord, SegmentScan, scan};
use sled_core::iterator::{Segment, read_slot, segment_in};
use sled_log::device::{MemDevice, PlaceSum};
use sled_log::iterator::{LogIter, raw_segment_iter_from};
use sled_log::logger::{BasedBuf, DiskPtr, LogKind, PageId, ReadAt, SegmentNumber, read_message};
use std::alloc::Global;

/// Whether a call of this name reads the log file or the buffer.
pub fn has(name: &str) -> bool {
    name.starts_with("pread")
        || name.starts_with("message")
        || matches!(name, "buffer" | "slot" | "segment" | "scan" | "iterate")
}

/// Makes the call of this name, of the device or of the buffer.
pub fn call(
    alloc: Global,
    config: &mut Running,
    buffer: &mut BasedBuf,
    name: &str,
    words: &mut Words<'_>,
    out: &mut Answer,
) {
    match name {
        "buffer" => {
            buffer.offset = words.number();
            buffer.buf = words.bytes(alloc);
            out.ok();
        }
        "slot" => slot(config, buffer, words.number(), out),
        "segment" => segment(segment_in(&PlaceSum, buffer, words.number()), out),
        "message" => message(config, None, words, out),
        "message_in" => message(config, Some(buffer), words, out),
        "scan" => records(config, buffer, words.number(), out),
        "iterate" => iterate(config, words.signed(), out),
        _ => bytes(alloc, config, buffer, name, words, out),
    }
}

// Goes over the messages of the log file from a place on.
fn iterate(config: &mut Running, from: i64, out: &mut Answer) {
    match raw_segment_iter_from(from, config) {
        Ok(mut messages) => {
            push_messages(&mut messages, out);
            if messages.into_config().is_none() {
                out.text.push(" lost");
            }
        }
        Err((e, _)) => out.error(&e),
    }
}

/// Adds each message, an error, and a dash where none is left. One that comes behind the end is told of.
pub fn push_messages(messages: &mut LogIter<'_, MemDevice, PlaceSum>, out: &mut Answer) {
    for message in messages.by_ref() {
        match message {
            Ok((kind, page, place, at, len)) => {
                out.text.push("(");
                out.text.signed(place);
                out.text.push(" ");
                out.text.number(len);
                out.text.push(" ");
                push_message(kind, page, at, &mut out.text);
                out.text.push(") ");
            }
            Err(e) => {
                out.error(&e);
                out.text.push(" ");
            }
        }
    }
    if messages.next().is_some() {
        out.text.push("more ");
    }
    out.text.push("-");
}

// Reads a slot into the buffer.
fn slot(config: &mut Running, buffer: &mut BasedBuf, at: u64, out: &mut Answer) {
    match read_slot(config, at) {
        Ok(found) => {
            out.text.number(found.offset);
            out.text.push(" ");
            out.text.hex(&found.buf);
            *buffer = found;
        }
        Err(e) => out.error(&e),
    }
}

// Adds a segment: its place, its slot and its mark.
fn segment(found: Option<Segment>, out: &mut Answer) {
    match found {
        Some(s) => {
            out.text.number(s.place);
            out.text.push(" ");
            out.text.number(s.slot);
            out.text.push(" ");
            out.text.signed(s.mark);
        }
        None => out.text.push("-"),
    }
}

// Adds what stands at an offset, for a segment of a number.
fn message(
    config: &mut Running,
    buffer: Option<&BasedBuf>,
    words: &mut Words<'_>,
    out: &mut Answer,
) {
    let (lid, number) = (words.number(), SegmentNumber(words.number()));
    let size = config.config.segment_size;
    let offset = lid % size;
    let begins = match buffer {
        Some(buffer) => buffer.offset,
        None => 0,
    };
    if offset < 20 || offset > size - 32 || lid < begins {
        out.refused();
        return;
    }
    push_read(read_message(config, buffer, lid, number), out);
}

// Adds all records of the segment of this place that is in the buffer.
fn records(config: &mut Running, buffer: &mut BasedBuf, place: u64, out: &mut Answer) {
    let size = config.config.segment_size;
    if place > 1 << 62 || buffer.offset > 1 << 62 || buffer.offset % size != 0 {
        out.refused();
        return;
    }
    match scan(config, buffer, place) {
        Ok(found) => push_scan(&found, &mut out.text),
        Err(e) => out.error(&e),
    }
}

// Adds where a reading stopped and why, and each record that was met.
fn push_scan(found: &SegmentScan, out: &mut Text) {
    out.number(found.stop);
    out.push(match found.ending {
        ScanEnd::Full => " full",
        ScanEnd::Capped => " capped",
        ScanEnd::Broken => " broken",
    });
    for met in found.met.iter() {
        push_met(met, out);
    }
}

// Adds a record: its place, its length, and what it is.
fn push_met(met: &ScannedRecord, out: &mut Text) {
    out.push(" (");
    out.number(met.place);
    out.push(" ");
    out.number(met.len);
    out.push(" ");
    match met.what {
        RecordContent::Gives(kind, page, at) => push_message(kind, page, at, out),
        RecordContent::NamesBlob(kind, page, lid, place) => {
            push_message(LogKind::from(kind), page, DiskPtr::Blob(lid, place), out);
        }
        RecordContent::Skipped => out.push("passed"),
        RecordContent::BatchStart(peg) => {
            out.push("begins ");
            out.signed(peg);
        }
    }
    out.push(")");
}

// Adds a message: what it does, its page, and where it lies.
fn push_message(kind: LogKind, page: PageId, at: DiskPtr, out: &mut Text) {
    out.push(name_of(kind));
    out.push(" ");
    out.number(page);
    out.push(" ");
    out.pointer(at);
}

/// Returns the name of what a message does to its page.
pub fn name_of(kind: LogKind) -> &'static str {
    match kind {
        LogKind::Replace => "replace",
        LogKind::Link => "link",
        LogKind::Free => "free",
        LogKind::Skip => "skip",
        LogKind::Corrupted => "corrupted",
    }
}

// Reads bytes at an offset of the device or of the buffer, over given ones.
fn bytes(
    alloc: Global,
    config: &mut Running,
    buffer: &mut BasedBuf,
    name: &str,
    words: &mut Words<'_>,
    out: &mut Answer,
) {
    let (at, mut dst) = (words.number(), words.bytes(alloc));
    match name {
        "pread" => up_to_end(config, at, &mut dst, out),
        "pread_exact" => exactly(config, at, &mut dst, out),
        _ if buffer.offset > at => out.refused(),
        "pread_in" => up_to_end(buffer, at, &mut dst, out),
        "pread_exact_in" => exactly(buffer, at, &mut dst, out),
        "pread_view" => {
            let mut view: &BasedBuf = buffer;
            up_to_end(&mut view, at, &mut dst, out);
        }
        "pread_exact_view" => {
            let mut view: &BasedBuf = buffer;
            exactly(&mut view, at, &mut dst, out);
        }
        _ => words.bad("no such call of a reader"),
    }
}

// Reads as many bytes as there are, and adds how many, and all bytes.
fn up_to_end<A: ReadAt>(reader: &mut A, at: u64, dst: &mut [u8], out: &mut Answer)
    requires { A.begins reader.old ≤ at }
{
    match reader.pread_exact_or_eof(dst, at) {
        Ok(count) => {
            out.text.number(count as u64);
            out.text.push(" ");
            out.text.hex(dst);
        }
        Err(e) => out.error(&e),
    }
}

// Reads just as many bytes as are asked for, and adds them.
fn exactly<A: ReadAt>(reader: &mut A, at: u64, dst: &mut [u8], out: &mut Answer)
    requires { A.begins reader.old ≤ at }
{
    match reader.pread_exact(dst, at) {
        Ok(()) => out.text.hex(dst),
        Err(e) => out.error(&e),
    }
}
