//! The lines of a data file: their words, the numbers, pointers and bytes in them, and why one isn't read.

use sled_codec::result::{DiskPtr, Error};
use std::alloc::{AllocError, AllocFailed, Global};
use std::str::Split;

/// Why a line has no answer: it isn't one of its file's language, or memory was refused. It stands in the place of the answer.
#[derive(Debug, Clone, Copy)]
pub struct Fault(pub &'static str);

/// A result with such a fault.
pub type Outcome<T> = Result<T, Fault>;

/// Out of memory.
impl From<AllocError> for Fault {
    fn from(_e: AllocError) -> Fault {
        Fault("out of memory")
    }
}

/// An error of the log, by its kind.
impl From<Error> for Fault {
    fn from(e: Error) -> Fault {
        Fault(match e {
            Error::OutOfMemory => "out of memory",
            _ => "an error of the log",
        })
    }
}

/// Out of memory.
impl<T: Drop> From<AllocFailed<T>> for Fault {
    fn from(_e: AllocFailed<T>) -> Fault {
        Fault("out of memory")
    }
}

/// Returns what a line `ASKED -> WANTED` asks for, and what is wanted; `None` for an empty line and for a comment.
pub fn asked_and_wanted(line: &str) -> Option<(&str, &str)> {
    if line.is_empty() || line.starts_with('#') {
        return None;
    }
    Some(line.split_once(" -> ").unwrap_or((line, "")))
}

/// The words of a line, which are parted by one space. A word that is missing or that isn't what it should be is noted, and something
/// stands in its place, so that `end` alone has to be asked.
#[derive(Drop)]
pub struct Words<'a> {
    words: Split<'a, char>,
    fault: Option<&'static str>,
}

impl<'a> Words<'a> {
    /// The words of this line.
    pub fn new(line: &'a str) -> Words<'a> {
        Words {
            words: line.split(' '),
            fault: None,
        }
    }

    /// Returns the next word, if there is one.
    pub fn next_word(&mut self) -> Option<&'a str> {
        self.words.next()
    }

    /// Returns the next word.
    pub fn word(&mut self) -> &'a str {
        let word = self.words.next();
        self.noted(word, "a word is missing").unwrap_or("")
    }

    /// Returns the next word as a number.
    pub fn number(&mut self) -> u64 {
        let n = number(self.word());
        self.noted(n, "this is no number").unwrap_or(0)
    }

    /// Returns the next word as a number that may be negative.
    pub fn signed(&mut self) -> i64 {
        let n = signed(self.word());
        self.noted(n, "this is no number").unwrap_or(0)
    }

    /// Returns the next word as a number, or `None` for a dash.
    pub fn number_or_dash(&mut self) -> Option<u64> {
        let n = number_or_dash(self.word());
        self.noted(n, "this is no number").unwrap_or(None)
    }

    /// Returns the next word as a number that may be negative, or `None` for a dash.
    pub fn signed_or_dash(&mut self) -> Option<i64> {
        let n = signed_or_dash(self.word());
        self.noted(n, "this is no number").unwrap_or(None)
    }

    /// Returns the next word as a pointer.
    pub fn pointer(&mut self) -> DiskPtr {
        let at = pointer(self.word());
        self.noted(at, "this is no pointer")
            .unwrap_or(DiskPtr::Inline(0))
    }

    /// Returns the next word as bytes.
    pub fn bytes(&mut self, alloc: Global) -> Vec<u8> {
        match bytes(alloc, self.word()) {
            Some(bytes) => bytes,
            None => {
                self.bad("these are no bytes");
                Vec::new(alloc)
            }
        }
    }

    /// Notes why the line isn't read. What is noted first stays.
    pub fn bad(&mut self, why: &'static str) {
        self.fault = Some(self.fault.unwrap_or(why));
    }

    /// Returns a value, and notes it where there is none.
    pub fn noted<T>(&mut self, value: Option<T>, why: &'static str) -> Option<T> {
        if value.is_none() {
            self.bad(why);
        }
        value
    }

    /// Whether all words were read, and each was what it should be.
    ///
    /// # Errors
    ///
    /// What was noted first.
    pub fn end(&mut self) -> Outcome<()> {
        if self.words.next().is_some() {
            self.bad("a call has fewer words");
        }
        match self.fault {
            Some(why) => Err(Fault(why)),
            None => Ok(()),
        }
    }
}

/// Returns the number that a word is.
pub fn number(word: &str) -> Option<u64> {
    word.parse().ok()
}

/// Returns the number that a word is, which may be negative.
pub fn signed(word: &str) -> Option<i64> {
    word.parse().ok()
}

/// Returns the number that a word is, or none for a dash.
pub fn number_or_dash(word: &str) -> Option<Option<u64>> {
    if word == "-" {
        return Some(None);
    }
    Some(Some(number(word)?))
}

/// Returns the number that a word is, which may be negative, or none for a dash.
pub fn signed_or_dash(word: &str) -> Option<Option<i64>> {
    if word == "-" {
        return Some(None);
    }
    Some(Some(signed(word)?))
}

/// Returns the pointer that a word is: `I:OFFSET`, or `B:OFFSET:PLACE`.
pub fn pointer(word: &str) -> Option<DiskPtr> {
    match word.split_once(':')? {
        ("I", lid) => Some(DiskPtr::Inline(number(lid)?)),
        ("B", behind) => blob_pointer(behind),
        _ => None,
    }
}

// The pointer of a blob: `OFFSET:PLACE`.
fn blob_pointer(word: &str) -> Option<DiskPtr> {
    let (lid, place) = word.split_once(':')?;
    Some(DiskPtr::Blob(number(lid)?, signed(place)?))
}

/// Returns the bytes that a word is: two hexadecimal digits each, or a dash for none. `None` where it is neither, or memory is refused.
pub fn bytes(alloc: Global, word: &str) -> Option<Vec<u8>> {
    let mut bytes = Vec::new(alloc);
    if word == "-" {
        return Some(bytes);
    }
    for pair in word.as_bytes().chunks(2) {
        bytes.push(byte_of(pair)?).ok()?;
    }
    Some(bytes)
}

// The byte of two digits.
fn byte_of(pair: &[u8]) -> Option<u8> {
    match pair {
        [high, low] => Some(digit(*high)?.wrapping_mul(16).wrapping_add(digit(*low)?)),
        _ => None,
    }
}

// The number of a hexadecimal digit.
fn digit(digit: u8) -> Option<u8> {
    match digit {
        b'0'..=b'9' => Some(digit - b'0'),
        b'a'..=b'f' => Some(digit - b'a' + 10),
        _ => None,
    }
}
