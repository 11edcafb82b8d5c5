//! Texts that are written piece by piece, and how values stand in the lines of data files: bytes, pointers, pages, errors.

use crate::lines::{Words, pointer, signed};
use sled_codec::result::{DiskPtr, Error};
use sled_codec::serialization::snapshot::{Entry, PageState};
use std::alloc::Global;
use std::io;

/// A text that is written piece by piece. Where memory was refused for a piece, the whole reads `out of memory`, so that no caller has
/// to look after each piece.
#[derive(Drop)]
pub struct Text {
    text: String,
    is_whole: bool,
}

impl Text {
    /// Returns an empty text.
    pub fn new(alloc: Global) -> Text {
        Text {
            text: String::new(alloc),
            is_whole: true,
        }
    }

    /// Returns what was written.
    pub fn as_str(&self) -> &str {
        if self.is_whole {
            self.text.as_str()
        } else {
            "out of memory"
        }
    }

    /// Writes a piece.
    pub fn push(&mut self, piece: &str) {
        let is_written = self.text.push_str(piece).is_ok();
        self.is_whole &= is_written;
    }

    /// Writes a number.
    pub fn number(&mut self, n: u64) {
        let is_written = write!(&mut self.text, "{n}").is_ok();
        self.is_whole &= is_written;
    }

    /// Writes a number that may be negative.
    pub fn signed(&mut self, n: i64) {
        let is_written = write!(&mut self.text, "{n}").is_ok();
        self.is_whole &= is_written;
    }

    /// Writes whether something is so.
    pub fn truth(&mut self, is_so: bool) {
        self.push(if is_so { "true" } else { "false" });
    }

    /// Writes a number, or a dash for none.
    pub fn number_or_dash(&mut self, n: Option<u64>) {
        match n {
            Some(n) => self.number(n),
            None => self.push("-"),
        }
    }

    /// Writes a number that may be negative, or a dash for none.
    pub fn signed_or_dash(&mut self, n: Option<i64>) {
        match n {
            Some(n) => self.signed(n),
            None => self.push("-"),
        }
    }

    /// Writes bytes, by two hexadecimal digits each, or a dash for none.
    pub fn hex(&mut self, bytes: &[u8]) {
        if bytes.is_empty() {
            self.push("-");
        }
        for byte in bytes {
            self.byte(*byte);
        }
    }

    // Writes the two digits of a byte.
    fn byte(&mut self, byte: u8) {
        let is_written = self.text.push(digit(byte / 16)).is_ok();
        self.is_whole &= is_written;
        let is_written = self.text.push(digit(byte % 16)).is_ok();
        self.is_whole &= is_written;
    }

    /// Writes where a message lies.
    pub fn pointer(&mut self, at: DiskPtr) {
        match at {
            DiskPtr::Inline(lid) => self.inline(lid),
            DiskPtr::Blob(lid, place) => self.blob(lid, place),
        }
    }

    fn inline(&mut self, lid: u64) {
        self.push("I:");
        self.number(lid);
    }

    fn blob(&mut self, lid: u64, place: i64) {
        self.push("B:");
        self.number(lid);
        self.push(":");
        self.signed(place);
    }

    /// Writes an entry of a page: `(PLACE POINTER SIZE)`.
    pub fn entry(&mut self, (place, at, size): &Entry) {
        self.push("(");
        self.signed(*place);
        self.push(" ");
        self.pointer(*at);
        self.push(" ");
        self.number(*size);
        self.push(")");
    }

    /// Writes the entries of a page, the base first, with this between any two.
    pub fn entries(&mut self, base: &Entry, frags: &[Entry], between: &str) {
        self.entry(base);
        for frag in frags {
            self.push(between);
            self.entry(frag);
        }
    }

    /// Writes a place and a pointer.
    pub fn spot(&mut self, place: i64, at: DiskPtr) {
        self.signed(place);
        self.push(" ");
        self.pointer(at);
    }

    /// Writes a page as `present ENTRY ..`, `free PLACE POINTER` or `uninitialized`.
    pub fn page(&mut self, page: &PageState) {
        match page {
            PageState::Present { base, frags } => {
                self.push("present ");
                self.entries(base, frags, " ");
            }
            PageState::Free(place, at) => {
                self.push("free ");
                self.spot(*place, *at);
            }
            PageState::Uninitialized => self.push("uninitialized"),
        }
    }

    /// Writes a place and an offset, and how many pages there are.
    pub fn table(&mut self, stable: Option<i64>, active: Option<u64>, pages: usize) {
        self.signed_or_dash(stable);
        self.push(" ");
        self.number_or_dash(active);
        self.push(" ");
        self.number(pages as u64);
    }

    /// Writes the name of an error.
    pub fn error(&mut self, e: &Error) {
        self.push(name_of(e));
        match e {
            Error::Corruption { at: Some(at) } => self.pointer(*at),
            Error::Held(place) | Error::NotReserved(place) => self.signed(*place),
            _ => {}
        }
    }
}

// The hexadecimal digit of a number below 16.
fn digit(n: u8) -> char {
    match n {
        0..=9 => (b'0' + n) as char,
        10..=15 => (b'a' - 10 + n) as char,
        _ => '?',
    }
}

// The name of an error, before what it says besides.
fn name_of(e: &Error) -> &'static str {
    match e {
        Error::Corruption { at: None } => "corruption",
        Error::Corruption { at: Some(_) } => "corruption ",
        Error::Unsupported(_) => "unsupported",
        Error::Io(e) => kind_of(e),
        Error::OutOfMemory => "memory",
        Error::Held(_) => "held ",
        Error::NotReserved(_) => "not reserved ",
        Error::PlacesUsedUp => "places used up",
        Error::CollectionNotFound(_) | Error::ReportableBug(_) => "another error",
    }
}

/// Returns the name of an error of a device.
pub fn kind_of(e: &io::Error) -> &'static str {
    match e.kind() {
        io::ErrorKind::Other => "io",
        io::ErrorKind::NotFound => "not found",
        io::ErrorKind::AlreadyExists => "already exists",
        io::ErrorKind::OutOfMemory => "memory",
        _ => "another error",
    }
}

/// Returns the entry that these words are, of which the last one ends with a parenthesis; `None` where they are none.
pub fn entry(text: &str) -> Option<Entry> {
    let text = text.strip_prefix('(').unwrap_or(text);
    let mut words = Words::new(text.strip_suffix(')').unwrap_or(text));
    let entry = (words.signed(), words.pointer(), words.number());
    match words.end() {
        Ok(()) => Some(entry),
        Err(_) => None,
    }
}

/// Returns a page with the entries of this text, the base first, with this between any two; `None` where one is none, or memory is refused.
pub fn present(alloc: Global, text: &str, between: &str) -> Option<PageState> {
    let mut entries = text.split(between);
    let base = entry(entries.next()?)?;
    let mut frags = Vec::new(alloc);
    for one in entries {
        frags.push(entry(one)?).ok()?;
    }
    Some(PageState::Present { base, frags })
}

/// Returns the page that was given back by the message of this place and pointer; `None` where the words are none.
pub fn freed(text: &str) -> Option<PageState> {
    let (place, at) = text.split_once(' ')?;
    Some(PageState::Free(signed(place)?, pointer(at)?))
}
