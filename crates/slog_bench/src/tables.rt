//! Tables of pages: what a recovery answers, and tables that are made by hand.

use case_lines::answer::Answer;
use case_lines::lines::Words;
use case_lines::texts::{freed, present};
use sled_log::result::Result;
use sled_log::snapshot::{PageState, Snapshot};
use std::alloc::Global;

/// Makes the call of this name.
pub fn call(
    alloc: Global,
    table: &mut Snapshot,
    name: &str,
    words: &mut Words<'_>,
    out: &mut Answer,
) {
    match name {
        "table" => {
            *table = empty(alloc, words.signed_or_dash(), words.number_or_dash());
            out.ok();
        }
        "page" => match table.pt.get(words.number() as usize) {
            Some(page) => out.text.page(page),
            None => out.text.push("-"),
        },
        "coords" => coords(table, words.number(), out),
        _ => words.bad("no such call of a table"),
    }
}

// A table without pages.
fn empty(alloc: Global, stable_lsn: Option<i64>, active_segment: Option<u64>) -> Snapshot {
    Snapshot {
        stable_lsn,
        active_segment,
        pt: Vec::new(alloc),
    }
}

/// Adds a page to a table: `present ENTRY ..`, `free PLACE POINTER` or `uninitialized`.
pub fn add(alloc: Global, table: &mut Snapshot, text: &str, out: &mut Answer) {
    let page = match text.split_once(' ') {
        Some(("present", entries)) => present(alloc, entries, ") "),
        Some(("free", at)) => freed(at),
        _ => uninitialized(text),
    };
    match page {
        Some(page) => add_page(table, page, out),
        None => out.text.push("this is no page"),
    }
}

fn uninitialized(text: &str) -> Option<PageState> {
    if text == "uninitialized" {
        return Some(PageState::Uninitialized);
    }
    None
}

fn add_page(table: &mut Snapshot, page: PageState, out: &mut Answer) {
    match table.pt.push(page) {
        Ok(()) => out.ok(),
        Err(_) => out.text.push("out of memory"),
    }
}

// Adds where a log goes on.
fn coords(table: &Snapshot, size: u64, out: &mut Answer) {
    let stable = table.stable_lsn.unwrap_or(0);
    let active = table.active_segment.unwrap_or(0);
    if size == 0 || size > 1 << 32 || stable < 0 || stable > 1 << 62 || active > 1 << 62 {
        out.refused();
        return;
    }
    let (offset, place) = table.recovered_coords(size);
    out.text.number_or_dash(offset);
    out.text.push(" ");
    out.text.signed_or_dash(place);
}

/// Keeps what was recovered for the table, and adds its place, its segment and how many pages it has.
pub fn keep(table: &mut Snapshot, answer: Result<Snapshot>, out: &mut Answer) {
    match answer {
        Ok(found) => {
            out.text
                .table(found.stable_lsn, found.active_segment, found.pt.len());
            *table = found;
        }
        Err(e) => out.error(&e),
    }
}
