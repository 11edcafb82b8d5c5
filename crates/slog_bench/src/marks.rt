//! Marks of a log: which of the messages that it completed are marked, in place of what, and what is to be written again.

use case_lines::answer::Answer;
use case_lines::lines::Words;
use sled_log::device::{MemDevice, PlaceSum};
use sled_log::logger::{Log, PageId};
use sled_log::result::Result;
use sled_log::segment::CacheInfo;
use std::alloc::Global;
use store_cases::accountant::{info, infos};

/// Makes the call of this name.
pub fn call(
    log: &mut Log<MemDevice, PlaceSum>,
    alloc: Global,
    name: &str,
    words: &mut Words<'_>,
    out: &mut Answer,
) {
    match name {
        "can_mark" => {
            let (new, old) = (info(words), infos(alloc, words));
            out.text.truth(log.can_mark(new, &old));
        }
        "mark_link" => {
            let page = words.number();
            link(log, page, info(words), out);
        }
        "mark_replace" => {
            let page = words.number();
            let (new, old) = (info(words), infos(alloc, words));
            replace(log, page, new, &old, out);
        }
        "clean_pop" => pop(log, out),
        _ => words.bad("no such mark"),
    }
}

// Marks a Link, where it may be.
fn link(log: &mut Log<MemDevice, PlaceSum>, page: PageId, info: CacheInfo, out: &mut Answer) {
    if log.can_mark(info, &[]) {
        told(log.mark_link(page, info), out);
    } else {
        out.refused();
    }
}

// Marks a message in place of older ones, where it may be.
fn replace(
    log: &mut Log<MemDevice, PlaceSum>,
    page: PageId,
    new: CacheInfo,
    old: &[CacheInfo],
    out: &mut Answer,
) {
    if log.can_mark(new, old) {
        told(log.mark_replace(page, new.lsn, old, new), out);
    } else {
        out.refused();
    }
}

// Asks for a page that is to be written again.
fn pop(log: &mut Log<MemDevice, PlaceSum>, out: &mut Answer) {
    match log.clean_pop() {
        Some((page, offset)) => {
            out.text.number(page);
            out.text.push(" ");
            out.text.number(offset);
        }
        None => out.text.push("-"),
    }
}

// Adds what came of a mark.
fn told(answer: Result<()>, out: &mut Answer) {
    match answer {
        Ok(()) => out.ok(),
        Err(e) => out.error(&e),
    }
}
