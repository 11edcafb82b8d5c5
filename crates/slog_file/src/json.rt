//! JSON, written value by value.
ghost use Rattle.std.specs.Prelude.{◌≡◌, ◌++◌, ◌<◌, IfOk, OnOk};
ghost use Rattle.slog_lines.specs.Hex.{digit_of};
ghost use Rattle.slog_file.specs.Quoted.{escaped_byte, quoted};

use sled_log::logger::DiskPtr;
use sled_log::snapshot::Snapshot;
use std::alloc::{AllocError, Global};
use std::io::{self, Write};

/// JSON on a writer. The caller opens and closes objects and lists in order, and writes a key before each value of an
/// object; the commas are written here.
#[derive(Drop)]
pub(crate) struct Json<'a, W> {
    writer: &'a mut W,
    // A value was written, behind which the next one wants a comma.
    is_behind_value: bool,
}

impl<'a, W: Write> Json<'a, W> {
    /// Nothing is written yet.
    pub(crate) fn new(writer: &'a mut W) -> Json<'a, W> {
        Json {
            writer,
            is_behind_value: false,
        }
    }

    // A value or a key follows.
    fn begin(&mut self) -> io::Result<()> {
        if self.is_behind_value {
            self.writer.write_all(b",".as_slice())?;
        }
        self.is_behind_value = true;
        Ok(())
    }

    /// Opens an object or a list.
    pub(crate) fn open(&mut self, bracket: &str) -> io::Result<()> {
        self.begin()?;
        self.is_behind_value = false;
        self.writer.write_all(bracket.as_bytes())
    }

    /// Closes an object or a list.
    pub(crate) fn close(&mut self, bracket: &str) -> io::Result<()> {
        self.is_behind_value = true;
        self.writer.write_all(bracket.as_bytes())
    }

    /// Writes a key, which is one of this program's words.
    pub(crate) fn key(&mut self, key: &str) -> io::Result<()> {
        self.begin()?;
        self.is_behind_value = false;
        write!(self.writer, "\"{key}\":")
    }

    /// Writes a key and a number.
    pub(crate) fn number(&mut self, key: &str, number: u64) -> io::Result<()> {
        self.key(key)?;
        self.is_behind_value = true;
        write!(self.writer, "{number}")
    }

    /// Writes a key and a place.
    pub(crate) fn place(&mut self, key: &str, place: i64) -> io::Result<()> {
        self.key(key)?;
        self.is_behind_value = true;
        write!(self.writer, "{place}")
    }

    /// Writes a key and a place, or null.
    pub(crate) fn place_or_null(&mut self, key: &str, place: Option<i64>) -> io::Result<()> {
        match place {
            Some(place) => self.place(key, place),
            None => self.null(key),
        }
    }

    /// Writes a key and null.
    pub(crate) fn null(&mut self, key: &str) -> io::Result<()> {
        self.key(key)?;
        self.is_behind_value = true;
        self.writer.write_all(b"null".as_slice())
    }

    /// Writes a key and a text.
    pub(crate) fn text(&mut self, alloc: Global, key: &str, text: &str) -> io::Result<()> {
        self.key(key)?;
        self.is_behind_value = true;
        let quoted = quoted(alloc, text)?;
        self.writer.write_all(&quoted)
    }

    /// Writes a text as a value of a list.
    pub(crate) fn item(&mut self, alloc: Global, text: &str) -> io::Result<()> {
        self.begin()?;
        let quoted = quoted(alloc, text)?;
        self.writer.write_all(&quoted)
    }

    /// Writes a key and `true`.
    pub(crate) fn flag(&mut self, key: &str) -> io::Result<()> {
        self.key(key)?;
        self.is_behind_value = true;
        self.writer.write_all(b"true".as_slice())
    }

    /// Writes a key and a number, or null.
    pub(crate) fn number_or_null(&mut self, key: &str, number: Option<u64>) -> io::Result<()> {
        match number {
            Some(number) => self.number(key, number),
            None => self.null(key),
        }
    }

    /// Writes where a record lies.
    pub(crate) fn pointer(&mut self, at: DiskPtr) -> io::Result<()> {
        match at {
            DiskPtr::Inline(offset) => {
                self.number("offset", offset)?;
                self.null("blob")
            }
            DiskPtr::Blob(offset, place) => {
                self.number("offset", offset)?;
                self.place("blob", place)
            }
        }
    }

    /// Writes where a snapshot ends, and how many pages it has.
    pub(crate) fn coordinates(&mut self, snapshot: &Snapshot) -> io::Result<()> {
        self.place_or_null("stable", snapshot.stable_lsn)?;
        self.number_or_null("active", snapshot.active_segment)?;
        self.number("pages", snapshot.pt.len() as u64)
    }

    /// Ends the line, behind which another value may begin.
    pub(crate) fn end_line(&mut self) -> io::Result<()> {
        self.is_behind_value = false;
        self.writer.write_all(b"\n".as_slice())
    }
}

/// A text as JSON has it: between quotation marks, with those in it, backslashes and control characters escaped.
pub(crate) fn quoted(alloc: Global, text: &str) -> Result<Vec<u8>, AllocError>
    ensures { IfOk result (λ line. line.items ≡ quoted text.now) }
{
    let mut line = Vec::new(alloc);
    line.push(b'"')?;
    for byte in text.as_bytes() {
        push_escaped(&mut line, *byte)?;
    }
    line.push(b'"')?;
    Ok(line)
}

// Adds a byte of a text.
fn push_escaped(line: &mut Vec<u8>, byte: u8) -> Result<(), AllocError>
    ensures { OnOk result (line.new.items ≡ line.old.items ++ escaped_byte byte) }
{
    if byte < 32 {
        let digits = [b'\\', b'u', b'0', b'0', digit(byte / 16), digit(byte % 16)];
        return line.extend_from_slice(&digits);
    }
    if byte == b'"' || byte == b'\\' {
        return line.extend_from_slice(&[b'\\', byte]);
    }
    Ok(line.push(byte)?)
}

// The digit of a number.
fn digit(n: u8) -> u8
    requires { n < 16 }
    ensures { result ≡ digit_of n }
{
    if n < 10 { b'0' + n } else { b'a' - 10 + n }
}
