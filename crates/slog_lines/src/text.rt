//! What the program prints and reads beside words and numbers: bytes as hexadecimal digits, and the
//! line of a reply.
//!
//! How bytes are written is defined in `specs/Hex.antt`, and `hex` and `bytes_of` are each other's
//! inverse by it.
ghost use Rattle.std.specs.Prelude.{◌≡◌, ◌↔◌, ◌<◌, ◌/◌, ◌%◌, ◌++◌, ◌∷◌, ℕ, List, [], All, IfOk, IfSome, string_bytes, OnOk, IsTrue};
ghost use Rattle.slog_lines.specs.Hex.{digit_of, digits_of, hex_of};

use sled_log::result::{DiskPtr, Error, LogOffset, Lsn};
use sled_log::session::{Refusal, Reply};
use std::alloc::{AllocError, Global};
use std::io::{self, Write};

/// Bytes as text: two lower-case hexadecimal digits each, and a dash for none.
pub fn hex(alloc: Global, bytes: &[u8]) -> Result<String, AllocError>
    ensures { IfOk result (λ text. string_bytes text ≡ hex_of bytes.now) }
{
    if bytes.is_empty() {
        return String::from_str(alloc, "-");
    }
    let mut text = String::new(alloc);
    for byte in bytes {
        push_byte(&mut text, *byte)?;
    }
    Ok(text)
}

// Adds the digits of a byte.
fn push_byte(text: &mut String, byte: u8) -> Result<(), AllocError>
    ensures { OnOk result (string_bytes text.new ≡ string_bytes text.old ++ digit_of (byte / 16) ∷ digit_of (byte % 16) ∷ []) }
{
    text.push(digit(byte / 16))?;
    text.push(digit(byte % 16))
}

// The digit of a number.
fn digit(n: u8) -> char
    requires { n < 16 }
    ensures digit { result ≡ digit_of n }
    ensures ascii { result < 128 }
{
    if n < 10 {
        (b'0' + n) as char
    } else {
        (b'a' - 10 + n) as char
    }
}

/// The bytes that a text writes, by two lower-case hexadecimal digits each or a dash for none; `None`
/// for a text that writes none.
pub fn bytes_of(alloc: Global, text: &[u8]) -> Result<Option<Vec<u8>>, AllocError>
    ensures read { IfOk result (λ bytes. IfSome bytes (λ b. hex_of b.items ≡ text.now)) }
    ensures refused { result ≡ Ok None → (b : List ℕ) → All (λ x. x < 256) b → hex_of b ≡ text.now → ⊥ }
{
    if text.is_empty() {
        return Ok(None);
    }
    if is_dash(text) {
        return Ok(Some(Vec::new(alloc)));
    }
    pairs_of(alloc, text)
}

// Whether a text is a dash alone.
fn is_dash(text: &[u8]) -> bool
    ensures { IsTrue result ↔ (text.now ≡ 45 ∷ []) }
{
    text == b"-".as_slice()
}

// The bytes that a text writes by two digits each.
fn pairs_of(alloc: Global, text: &[u8]) -> Result<Option<Vec<u8>>, AllocError>
    ensures read { IfOk result (λ bytes. IfSome bytes (λ b. digits_of b.items ≡ text.now)) }
    ensures refused { result ≡ Ok None → (b : List ℕ) → All (λ x. x < 256) b → digits_of b ≡ text.now → ⊥ }
{
    let mut bytes = Vec::new(alloc);
    let mut rest = text;
    while !rest.is_empty() {
        let Some((byte, behind)) = split_byte(rest) else {
            return Ok(None);
        };
        bytes.push(byte)?;
        rest = behind;
    }
    Ok(Some(bytes))
}

// The byte that a text begins with, by two digits, and what stands behind them.
fn split_byte(text: &[u8]) -> Option<(u8, &[u8])>
    ensures read { IfSome result (λ r. text.now ≡ digit_of (r.0 / 16) ∷ digit_of (r.0 % 16) ∷ r.1.now) }
    ensures refused { result ≡ None → (b : ℕ) (behind : List ℕ) → b < 256 → text.now ≡ digit_of (b / 16) ∷ digit_of (b % 16) ∷ behind → ⊥ }
{
    let [high, low, behind @ ..] = text else {
        return None;
    };
    let byte = value(*high)? * 16 + value(*low)?;
    Some((byte, behind))
}

// The number of a digit.
fn value(digit: u8) -> Option<u8>
    ensures below { IfSome result (λ n. n < 16) }
    ensures digit { IfSome result (λ n. digit_of n ≡ digit) }
    ensures none { result ≡ None → (n : ℕ) → n < 16 → digit_of n ≡ digit → ⊥ }
{
    match digit {
        b'0'..=b'9' => Some(digit - b'0'),
        b'a'..=b'f' => Some(digit - b'a' + 10),
        _ => None,
    }
}

/// Prints the line of a reply. It takes memory for the items of a page alone, so that a reply which says that memory was
/// refused is printed without any.
///
/// # Errors
///
/// That of the writer, or `OutOfMemory` where memory for the items was refused; nothing is printed then.
pub fn print<W: Write>(alloc: Global, writer: &mut W, reply: &Reply) -> io::Result<()> {
    match reply {
        Reply::Opened {
            stable,
            active,
            pages,
        } => opened(writer, *stable, *active, *pages),
        Reply::Reserved(ticket, place, pointer) => reserved(writer, *ticket, *place, *pointer),
        Reply::Done(place, pointer) => done(writer, *place, *pointer),
        Reply::Flushed(grown) => writeln!(writer, "flushed {grown}"),
        Reply::Page(items) => page(alloc, writer, items),
        Reply::Failed(e) => error(writer, e),
        Reply::Refused(refusal) => writeln!(writer, "refused {}", word_of(*refusal)),
        Reply::Written => writeln!(writer, "written"),
        Reply::FreePage => writeln!(writer, "page free"),
        Reply::Halted => writeln!(writer, "halted"),
        Reply::Armed => writeln!(writer, "armed"),
        Reply::Crashed(true) => writeln!(writer, "crashed"),
        Reply::Crashed(false) => writeln!(writer, "crashed settled"),
        Reply::Stopped => writeln!(writer, "stopped"),
    }
}

// Prints what a recovery found, with a dash for what is missing.
fn opened<W: Write>(
    writer: &mut W,
    stable: Option<Lsn>,
    active: Option<LogOffset>,
    pages: usize,
) -> io::Result<()> {
    match (stable, active) {
        (Some(place), Some(slot)) => writeln!(writer, "opened {place} {slot} {pages}"),
        (Some(place), None) => writeln!(writer, "opened {place} - {pages}"),
        (None, Some(slot)) => writeln!(writer, "opened - {slot} {pages}"),
        (None, None) => writeln!(writer, "opened - - {pages}"),
    }
}

// Prints a ticket with its place, and where the message lies.
fn reserved<W: Write>(
    writer: &mut W,
    ticket: usize,
    place: Lsn,
    pointer: DiskPtr,
) -> io::Result<()> {
    match pointer {
        DiskPtr::Inline(lid) => writeln!(writer, "reserved {ticket} {place} I:{lid}"),
        DiskPtr::Blob(lid, blob) => writeln!(writer, "reserved {ticket} {place} B:{lid}:{blob}"),
    }
}

// Prints the place of a message that is ended, and where it lies.
fn done<W: Write>(writer: &mut W, place: Lsn, pointer: DiskPtr) -> io::Result<()> {
    match pointer {
        DiskPtr::Inline(lid) => writeln!(writer, "done {place} I:{lid}"),
        DiskPtr::Blob(lid, blob) => writeln!(writer, "done {place} B:{lid}:{blob}"),
    }
}

// Prints the items of a page, as one text: nothing, where memory for that is refused.
fn page<W: Write>(alloc: Global, writer: &mut W, items: &[Vec<u8>]) -> io::Result<()> {
    let line = page_line(alloc, items)?;
    writer.write_all(line.as_bytes())
}

// The line of a page.
fn page_line(alloc: Global, items: &[Vec<u8>]) -> Result<String, AllocError> {
    let mut line = String::from_str(alloc, "page")?;
    for item in items {
        push_item(alloc, &mut line, item)?;
    }
    line.push_str("\n")?;
    Ok(line)
}

// Adds an item.
fn push_item(alloc: Global, line: &mut String, item: &[u8]) -> Result<(), AllocError> {
    let digits = hex(alloc, item)?;
    line.push_str(" ")?;
    line.push_str(&digits)
}

// Prints an error of the log.
fn error<W: Write>(writer: &mut W, e: &Error) -> io::Result<()> {
    match e {
        Error::Held(place) | Error::NotReserved(place) => {
            writeln!(writer, "error{} {place}", word_of_error(e))
        }
        _ => writeln!(writer, "error{}", word_of_error(e)),
    }
}

// The word that says why a command was refused.
fn word_of(refusal: Refusal) -> &'static str {
    match refusal {
        Refusal::Stopped => "stopped",
        Refusal::Open => "open",
        Refusal::Closed => "closed",
        Refusal::Page => "page",
        Refusal::Busy => "busy",
        Refusal::Fragments => "fragments",
        Refusal::Batch => "batch",
        Refusal::Ticket => "ticket",
        Refusal::Index => "index",
    }
}

// The word of an error of the log, without its place. Those for users of the library alone come from no call of it.
fn word_of_error(e: &Error) -> &'static str {
    match e {
        Error::Corruption { at: _ } => " corruption",
        Error::Unsupported(_) => " unsupported",
        Error::Io(_) => " io",
        Error::OutOfMemory => " memory",
        Error::Held(_) => " held",
        Error::NotReserved(_) => " not-reserved",
        Error::PlacesUsedUp => " places",
        Error::CollectionNotFound(_) | Error::ReportableBug(_) => "",
    }
}
