//! A line of an export.

use sled_log::result::{Error, PageId, Result};
use sled_log::serialization::Serialize;
use slog_lines::text::bytes_of;
use std::alloc::Global;
use std::fmt;

/// What a line has.
#[derive(Drop)]
pub(crate) enum Line {
    /// A page and its items, of which there is one at least.
    Items(PageId, Vec<Vec<u8>>),
    /// A page that was given back.
    Free(PageId),
    /// A page that couldn't be read where it comes from.
    Damaged(PageId),
}

/// What is wrong with a line.
#[derive(Debug, Clone, Copy, PartialEq)]
pub(crate) enum Fault {
    /// It isn't as an export prints it.
    NoLine,
    /// The page is no number.
    NoPage,
    /// Bytes aren't two digits each.
    NoBytes,
    /// An item doesn't begin with its length.
    NoItem,
    /// The page couldn't be read where it comes from.
    Damaged(PageId),
    /// This page comes where that one is the next.
    NotNext(PageId, PageId),
}

impl fmt::Display for Fault {
    fn fmt<W: fmt::Write>(&self, f: &mut fmt::Formatter<W>) -> fmt::Result {
        match self {
            Fault::NoLine => {
                write!(
                    f,
                    "it isn't as an export prints it: {{\"page\":0,\"items\":[\"0107\"]}}"
                )
            }
            Fault::NoPage => write!(f, "a page is a number below 2^64"),
            Fault::NoBytes => { write!(f, "bytes have two digits each, from 0 to 9 and a to f") }
            Fault::NoItem => write!(f, "an item begins with its length, and has that many bytes"),
            Fault::Damaged(page) => write!(f, "page {page} was damaged where it comes from"),
            Fault::NotNext(page, next) => {
                write!(f, "page {page} comes, and page {next} is the next one")
            }
        }
    }
}

/// Reads a line, with or without its line feed.
pub(crate) fn parse(alloc: Global, line: &[u8]) -> Result<std::result::Result<Line, Fault>> {
    let Ok(text) = str::from_utf8(line) else {
        return Ok(Err(Fault::NoLine));
    };
    let text = text.strip_suffix('\n').unwrap_or(text);
    let Some((page, rest)) = split_page(text) else {
        return Ok(Err(Fault::NoLine));
    };
    let Some(page) = number(page) else {
        return Ok(Err(Fault::NoPage));
    };
    match rest {
        "\"free\":true}" => Ok(Ok(Line::Free(page))),
        "\"damaged\":true}" => Ok(Ok(Line::Damaged(page))),
        _ => match items_in(alloc, rest)? {
            Ok(items) => Ok(Ok(Line::Items(page, items))),
            Err(fault) => Ok(Err(fault)),
        },
    }
}

// The text of the page's number, and what follows it.
fn split_page(text: &str) -> Option<(&str, &str)> {
    text.strip_prefix("{\"page\":")?.split_once(',')
}

fn number(word: &str) -> Option<PageId> {
    if word.starts_with('+') {
        return None;
    }
    word.parse().ok()
}

// The items of a page.
fn items_in(alloc: Global, text: &str) -> Result<std::result::Result<Vec<Vec<u8>>, Fault>> {
    let Some(list) = list_in(text) else {
        return Ok(Err(Fault::NoLine));
    };
    let mut items = Vec::new(alloc);
    for word in list.split(',') {
        let Some(digits) = unquoted(word) else {
            return Ok(Err(Fault::NoLine));
        };
        let Some(bytes) = bytes_of(alloc, digits.as_bytes())? else {
            return Ok(Err(Fault::NoBytes));
        };
        match item_of(alloc, &bytes)? {
            Some(item) => items.push(item)?,
            None => return Ok(Err(Fault::NoItem)),
        }
    }
    Ok(Ok(items))
}

fn list_in(text: &str) -> Option<&str> {
    text.strip_prefix("\"items\":[")?.strip_suffix("]}")
}

fn unquoted(word: &str) -> Option<&str> {
    word.strip_prefix('"')?.strip_suffix('"')
}

// The bytes of an item, whose encoding is their number and they.
fn item_of(alloc: Global, encoding: &[u8]) -> Result<Option<Vec<u8>>> {
    let mut rest = encoding;
    match Vec::<u8>::deserialize(alloc, &mut rest) {
        Ok(item) if rest.is_empty() => Ok(Some(item)),
        Ok(_) => Ok(None),
        Err(Error::OutOfMemory) => Err(Error::OutOfMemory),
        Err(_) => Ok(None),
    }
}
