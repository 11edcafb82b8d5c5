//! Values by themselves: sums, kinds of messages, pointers.

use crate::reads::name_of;
use case_lines::answer::Answer;
use case_lines::lines::Words;
use sled_log::device::{Checksum, PlaceSum};
use sled_log::logger::{DiskPtr, LogKind, MessageKind};
use sled_log::serialization::message::message_kind;
use std::alloc::Global;
use std::cmp::Ordering;

/// Whether a call of this name is about values alone.
pub fn has(name: &str) -> bool {
    matches!(
        name,
        "sum" | "kind" | "kind_written" | "lid" | "shown" | "compared"
    )
}

/// Makes the call of this name.
pub fn call(alloc: Global, name: &str, words: &mut Words<'_>, out: &mut Answer) {
    match name {
        "sum" => out
            .text
            .number(u64::from(PlaceSum.sum(&words.bytes(alloc)))),
        "kind" => kind(words, out),
        "kind_written" => kind_written(words, out),
        "lid" => out.text.number(words.pointer().lid()),
        "shown" => shown(alloc, words.pointer(), out),
        "compared" => out.text.push(compared(words.pointer(), words.pointer())),
        _ => words.bad("no such call of a value"),
    }
}

// The code that is kept of a byte, and what a message of its kind does.
fn kind(words: &mut Words<'_>, out: &mut Answer) {
    let Ok(code) = u8::try_from(words.number()) else {
        words.bad("this is no code");
        return;
    };
    let kind = MessageKind::from(code);
    out.text.number(u64::from(u8::from(kind)));
    out.text.push(" ");
    out.text.push(name_of(LogKind::from(kind)));
}

// The code of a message's kind.
fn kind_written(words: &mut Words<'_>, out: &mut Answer) {
    let kind = kind_of(words);
    let (page, is_blob) = (words.number(), words.word() == "blob");
    match message_kind(kind, page, is_blob) {
        Some(kind) => out.text.number(u64::from(u8::from(kind))),
        None => out.text.push("-"),
    }
}

// How a pointer is shown.
fn shown(alloc: Global, at: DiskPtr, out: &mut Answer) {
    match format!(in alloc; "{at}") {
        Ok(text) => out.text.push(&text),
        Err(_) => out.text.push("out of memory"),
    }
}

// How two pointers are ordered.
fn compared(a: DiskPtr, b: DiskPtr) -> &'static str {
    match a.cmp(&b) {
        Ordering::Less => "less",
        Ordering::Equal => "equal",
        Ordering::Greater => "greater",
    }
}

/// Returns the kind of a message by the next word, which is its name.
pub fn kind_of(words: &mut Words<'_>) -> LogKind {
    match words.word() {
        "replace" => LogKind::Replace,
        "link" => LogKind::Link,
        "free" => LogKind::Free,
        "skip" => LogKind::Skip,
        "corrupted" => LogKind::Corrupted,
        _ => {
            words.bad("no such kind");
            LogKind::Corrupted
        }
    }
}
