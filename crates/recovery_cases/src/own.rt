//! What the log wrote itself: what a crash left, and whether nothing in it is foreign. A line is
//! `SIZE PART WORD .. PART WORD .. -> own` or `-> foreign` (`data/README.md`).

use case_lines::lines::{Words, bytes, number, signed};
use case_lines::texts::Text;
use sled_log::device::PlaceSum;
use sled_oracle::foreign::names::{NamedFile, NamesPast};
use sled_oracle::foreign::{LogNote, LogPast, LogWrite};
use sled_oracle::own::{LeftFiles, Past, nothing_is_foreign};
use std::alloc::Global;

/// Writes what came of a line.
pub fn answer(alloc: Global, words: &mut Words<'_>, out: &mut Text) {
    let size = words.number();
    let mut case = Case::new(alloc);
    case.read(alloc, words);
    if size == 0 {
        words.bad("a segment has bytes");
        return;
    }
    match nothing_is_foreign(alloc, &PlaceSum, size, &case.past, &case.left) {
        Ok(is_own) => out.push(if is_own { "own" } else { "foreign" }),
        Err(_) => out.push("out of memory"),
    }
}

// What a line tells of a device, and of what a crash left.
#[derive(Drop)]
struct Case {
    past: Past,
    left: LeftFiles,
}

impl Case {
    // Nothing.
    fn new(alloc: Global) -> Case {
        Case {
            past: Past {
                log: LogPast {
                    notes: Vec::new(alloc),
                },
                blobs: no_names(alloc),
                snapshots: no_names(alloc),
            },
            left: LeftFiles {
                log: Vec::new(alloc),
                blobs: Vec::new(alloc),
                snapshots: Vec::new(alloc),
            },
        }
    }

    // Reads the parts of a line: a name, and then a word each.
    fn read(&mut self, alloc: Global, words: &mut Words<'_>) {
        let mut part = "";
        for _ in 0..u64::MAX {
            let Some(word) = words.next_word() else {
                break;
            };
            if is_part(word) {
                part = word;
            } else if !self.add(alloc, part, word) {
                words.bad("no such part or word");
            }
        }
    }

    // Adds a word to a part of the log file; whether it was taken.
    fn add(&mut self, alloc: Global, part: &str, word: &str) -> bool {
        match part {
            "wrote" => push_note(&mut self.past.log.notes, wrote(alloc, word)),
            "settled" => push_note(&mut self.past.log.notes, settled(alloc, word)),
            "left" => put(&mut self.left.log, bytes(alloc, word)),
            _ => self.add_file(part, file(alloc, word)),
        }
    }

    // Adds a file to a part of those under names; whether it was taken.
    fn add_file(&mut self, part: &str, file: Option<NamedFile>) -> bool {
        match part {
            "blobs_settled" => push_file(&mut self.past.blobs.settled, file),
            "blobs_asked" => push_file(&mut self.past.blobs.asked, file),
            "blobs_left" => push_file(&mut self.left.blobs, file),
            "snapshots_settled" => push_file(&mut self.past.snapshots.settled, file),
            "snapshots_asked" => push_file(&mut self.past.snapshots.asked, file),
            "snapshots_left" => push_file(&mut self.left.snapshots, file),
            _ => false,
        }
    }
}

// No files.
fn no_names(alloc: Global) -> NamesPast {
    NamesPast {
        settled: Vec::new(alloc),
        asked: Vec::new(alloc),
    }
}

// Puts bytes in the place of others, where there are some.
fn put(to: &mut Vec<u8>, bytes: Option<Vec<u8>>) -> bool {
    match bytes {
        Some(bytes) => {
            *to = bytes;
            true
        }
        None => false,
    }
}

// Adds a note, where there is one.
fn push_note(to: &mut Vec<LogNote>, note: Option<LogNote>) -> bool {
    match note {
        Some(note) => to.push(note).is_ok(),
        None => false,
    }
}

// Adds a file, where there is one.
fn push_file(to: &mut Vec<NamedFile>, file: Option<NamedFile>) -> bool {
    match file {
        Some(file) => to.push(file).is_ok(),
        None => false,
    }
}

// Whether a word names a part of a line.
fn is_part(word: &str) -> bool {
    word.starts_with("blobs_")
        || word.starts_with("snapshots_")
        || matches!(word, "wrote" | "settled" | "left")
}

// A write: `OFFSET:HEX`.
fn wrote(alloc: Global, word: &str) -> Option<LogNote> {
    let (at, text) = word.split_once(':')?;
    let write = LogWrite::new(number(at)?, bytes(alloc, text)?);
    Some(LogNote::Wrote(write))
}

// What the log file was at a sync, or was left as: `HEX`.
fn settled(alloc: Global, word: &str) -> Option<LogNote> {
    let bytes = bytes(alloc, word)?;
    Some(LogNote::Settled(bytes))
}

// A file under a name: `NAME:HEX`.
fn file(alloc: Global, word: &str) -> Option<NamedFile> {
    let (name, text) = word.split_once(':')?;
    Some(NamedFile::new(signed(name)?, bytes(alloc, text)?))
}
