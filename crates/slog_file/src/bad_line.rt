//! Why a line of `run` is none, as it is told on standard error.

use std::fmt;

// How many characters of a word are told at most.
const MOST: usize = 40;

/// Why a line is none.
#[derive(Debug, Clone, Copy)]
pub(crate) enum Reason<'a> {
    /// No command is called so.
    Unknown(&'a str),
    /// The command is for a device in memory.
    ForTests(&'a str),
    /// Nothing follows the word.
    Alone(&'a str),
    /// The word is followed by this.
    Wants(&'a str, &'static str),
    /// What is said here.
    Said(&'static str),
}

const NOT_TEXT: &str = "it is no UTF-8";

const EMPTY: &str = "it is empty";

const SPACES: &str = "one space parts words, and none stands before or after them";

const PAGE: &str = "a page is a number below 2^64";

const TICKET: &str = "a ticket is a number below 2^64";

const BUFFER: &str = "a buffer is a number below 2^64";

const PLACE: &str = "a place is a number below 2^63, which may have a minus";

const BYTES: &str = "bytes have two digits each, from 0 to 9 and a to f, and '-' stands for none";

const SIZE: &str = "a size is a power of two from 256 to 8388608";

const NOT_FIRST: &str = "'size S' is a first line alone";

const NEW_FOLDER: &str = "the first line of a new folder is 'size S'";

impl fmt::Display for Reason<'_> {
    fn fmt<W: fmt::Write>(&self, f: &mut fmt::Formatter<W>) -> fmt::Result {
        match *self {
            Reason::Unknown(word) => write!(f, "no command is called '{}'", Shown(word)),
            Reason::ForTests(word) => {
                write!(
                    f,
                    "'{word}' is for a device in memory, and files can't crash"
                )
            }
            Reason::Alone(word) => write!(f, "'{word}' stands alone"),
            Reason::Wants(word, what) => write!(f, "'{word}' wants {what}"),
            Reason::Said(text) => write!(f, "{text}"),
        }
    }
}

// A word as it is told: without what isn't printed, and cut if it is long.
#[derive(Debug, Clone, Copy)]
struct Shown<'a>(&'a str);

impl fmt::Display for Shown<'_> {
    fn fmt<W: fmt::Write>(&self, f: &mut fmt::Formatter<W>) -> fmt::Result {
        for letter in self.0.chars().take(MOST) {
            write!(f, "{}", letter.escape_debug())?;
        }
        match self.0.chars().nth(MOST) {
            Some(_) => write!(f, "..."),
            None => Ok(()),
        }
    }
}

/// Why a line is none, which is the first one or isn't.
pub(crate) fn reason_of(line: &[u8], is_first: bool) -> Reason<'_> {
    let Ok(text) = str::from_utf8(line) else {
        return Reason::Said(NOT_TEXT);
    };
    let text = text.strip_suffix('\n').unwrap_or(text);
    if text.is_empty() {
        return Reason::Said(EMPTY);
    }
    if text.split(' ').any(|word| word.is_empty()) {
        return Reason::Said(SPACES);
    }
    match text.split_once(' ') {
        Some((word, operands)) => of_words(word, operands, is_first),
        None => of_word(text, is_first),
    }
}

// Why a line of one word is none. If its word stands alone, the line is a command, and only the folder isn't begun.
fn of_word(word: &str, is_first: bool) -> Reason<'_> {
    match word {
        "open" | "begin" | "end" | "flush" | "halt" => Reason::Said(NEW_FOLDER),
        "size" if !is_first => Reason::Said(NOT_FIRST),
        "size" => Reason::Wants(word, "a number"),
        "replace" | "link" => Reason::Wants(word, "a page and bytes"),
        "free" | "rewrite" | "read" => Reason::Wants(word, "a page"),
        "complete" | "abort" => Reason::Wants(word, "a ticket"),
        "write" => Reason::Wants(word, "the number of a buffer"),
        "stable" => Reason::Wants(word, "a place"),
        "stop" | "crash" => Reason::ForTests(word),
        _ => Reason::Unknown(word),
    }
}

// Why a line of several words is none.
fn of_words<'a>(word: &'a str, operands: &'a str, is_first: bool) -> Reason<'a> {
    match word {
        "open" | "begin" | "end" | "flush" | "halt" => Reason::Alone(word),
        "size" => Reason::Said(of_size(is_first)),
        "replace" | "link" => of_item(word, operands),
        "free" | "rewrite" | "read" => Reason::Said(of_number(operands, PAGE)),
        "complete" | "abort" => Reason::Said(of_number(operands, TICKET)),
        "write" => Reason::Said(of_number(operands, BUFFER)),
        "stable" => Reason::Said(of_place(operands)),
        "stop" | "crash" => Reason::ForTests(word),
        _ => Reason::Unknown(word),
    }
}

// Why a page and bytes are none.
fn of_item<'a>(word: &'a str, operands: &'a str) -> Reason<'a> {
    let Some((page, bytes)) = operands.split_once(' ') else {
        return Reason::Wants(word, "a page and bytes");
    };
    if !is_number(page) {
        return Reason::Said(PAGE);
    }
    if !is_bytes(bytes) {
        return Reason::Said(BYTES);
    }
    Reason::Said(NEW_FOLDER)
}

// Why 'size S' is no line, of which S may be a number.
fn of_size(is_first: bool) -> &'static str {
    if is_first { SIZE } else { NOT_FIRST }
}

// Why a command with a number is none: the number is none, or else the folder isn't begun.
fn of_number(operand: &str, said: &'static str) -> &'static str {
    if is_number(operand) { NEW_FOLDER } else { said }
}

// The same of a command with a place.
fn of_place(operand: &str) -> &'static str {
    if !operand.starts_with('+') && operand.parse::<i64>().is_ok() {
        NEW_FOLDER
    } else {
        PLACE
    }
}

fn is_number(word: &str) -> bool {
    !word.starts_with('+') && word.parse::<u64>().is_ok()
}

fn is_bytes(word: &str) -> bool {
    word == "-"
        || word.len() % 2 == 0
            && word
                .as_bytes()
                .iter()
                .all(|digit| matches!(digit, b'0'..=b'9' | b'a'..=b'f'))
}
