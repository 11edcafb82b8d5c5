//! Whether only what the log itself wrote passes as its own in what a crash left of the log file: a plain, slow
//! reading of `NoForeignLog` in `specs/Foreign.antt` of `sled_store`.
//!
//! A device keeps its past in its proof alone, so a test that chooses its crashes by this notes it: each write as it
//! was asked, and what the file was at each sync and crash.
ghost use Rattle.std.specs.Prelude.{◌≡◌, ◌↔◌, ◌+◌, ◌*◌, ◌/◌, ◌^◌, ◌<◌, ◌≤◌, ℕ, pos, List, length, IsTrue, IfOk, IfSome, IfNone, IsOkUnless};
ghost use Rattle.sled_codec.specs.Places.{part};
ghost use Rattle.sled_store.specs.Device.{LogState, Placement};
ghost use Rattle.sled_store.specs.Foreign.{Covers, IsWhole, HeaderWasPlaced, RecordWasPlaced, NoForeignLog};
ghost use Rattle.sled_oracle.specs.OwnParts.{KnownPast, noted, past_of, placed_of, log_of, Lays, LaysRecord, IsOwnRecord, IsOwnHeader, AreOwnFrom, IsOwnSlot, IsOwnBegun, IsNoted};

pub mod names;
mod readers;

use crate::foreign::readers::{first_record, header_of, is_cap, is_reached, read_at};
use sled_codec::result::{Error, Lsn, Result};
use sled_codec::serialization::{Checksum, SegmentNumber};
use std::alloc::Global;
use std::marker::Model;

/// A write to the log file, as it was asked: these bytes at this offset.
#[derive(Drop)]
pub struct LogWrite {
    at: u64,
    bytes: Vec<u8>,
}

impl Model for LogWrite {
    ghost use Rattle.std.specs.Prelude.{ℕ, List};

    ghost Value = { ℕ × List ℕ };

    ghost view = { λ write. (write.at, write.bytes.items) };
}

impl LogWrite {
    /// Returns a write of these bytes at an offset.
    pub fn new(at: u64, bytes: Vec<u8>) -> LogWrite
        ensures { result ≡ (at, bytes.items) }
    {
        LogWrite { at, bytes }
    }

    // Whether it covers these bytes at an offset of the file.
    fn covers(&self, at: usize, text: &[u8]) -> bool
        ensures { IsTrue result ↔ Covers self.now at text.now }
    {
        let begin = self.at as usize;
        if at < begin {
            return false;
        }
        let into = at - begin;
        if into > self.bytes.len() || self.bytes.len() - into < text.len() {
            return false;
        }
        stands_at(&self.bytes, into, text)
    }

    // Whether it laid down these bytes as a header.
    fn lays(&self, at: usize, text: &[u8]) -> bool
        ensures { IsTrue result ↔ Lays self.now at text.now }
    {
        let head = self.bytes.len().min(20);
        self.at as usize == at && &self.bytes[..head] == text
    }

    // Whether it laid down this record of a number.
    fn lays_record<C: Checksum>(
        &self,
        alloc: Global,
        checksum: &C,
        size: usize,
        number: SegmentNumber,
        at: usize,
        text: &[u8],
    ) -> Result<bool>
        requires { 0 < size }
        ensures laid { IfOk result (λ b. IsTrue b ↔ LaysRecord C.sum_of size self.now number.0 at text.now) }
        ensures err { IsOkUnless result Error.OutOfMemory }
    {
        if !self.covers(at, text) {
            return Ok(false);
        }
        let begin = self.at as usize;
        let first = first_record(size, begin);
        is_reached(alloc, checksum, number, &self.bytes, first, at - begin)
    }
}

/// What a test notes of the past of a log file.
#[derive(Drop)]
pub enum LogNote {
    /// A write that was asked.
    Wrote(LogWrite),
    /// The bytes of the file at a sync, or what a crash left.
    Settled(Vec<u8>),
}

impl LogNote {
    // Whether bytes stand whole at an offset of the file behind this, where `was` tells whether they did before.
    #[tactic(auto, unfolding(sled_store::specs::Foreign::IsWhole))]
    fn keeps_whole(&self, was: bool, at: usize, text: &[u8]) -> bool
        ensures { (k : KnownPast) → IsTrue was ↔ IsWhole (log_of k) at text.now → IsTrue result ↔ IsWhole (log_of (noted self.now k)) at text.now }
    {
        match self {
            LogNote::Wrote(write) => was || write.covers(at, text),
            LogNote::Settled(bytes) => stands_at(bytes, at, text),
        }
    }

    // Whether these bytes were placed as a header, and stood since, behind this.
    #[tactic(auto, unfolding(sled_store::specs::Foreign::HeaderWasPlaced))]
    fn keeps_header(&self, was: bool, at: usize, text: &[u8]) -> bool
        ensures { (k : KnownPast) → IsTrue was ↔ HeaderWasPlaced k.placed at text.now → IsTrue result ↔ HeaderWasPlaced (noted self.now k).placed at text.now }
    {
        match self {
            LogNote::Wrote(write) => was || write.lays(at, text),
            LogNote::Settled(bytes) => was && stands_at(bytes, at, text),
        }
    }

    // Whether this record of a number was placed, and stood since, behind this.
    #[tactic(auto, unfolding(sled_store::specs::Foreign::RecordWasPlaced))]
    fn keeps_record<C: Checksum>(
        &self,
        alloc: Global,
        checksum: &C,
        size: usize,
        was: bool,
        number: SegmentNumber,
        at: usize,
        text: &[u8],
    ) -> Result<bool>
        requires { 0 < size }
        ensures placed { (k : KnownPast) → IsTrue was ↔ RecordWasPlaced C.sum_of size k.placed number.0 at text.now
            → IfOk result (λ b. IsTrue b ↔ RecordWasPlaced C.sum_of size (noted self.now k).placed number.0 at text.now) }
        ensures err { IsOkUnless result Error.OutOfMemory }
    {
        match self {
            LogNote::Wrote(write) => {
                if was {
                    return Ok(true);
                }
                write.lays_record(alloc, checksum, size, number, at, text)
            }
            LogNote::Settled(bytes) => Ok(was && stands_at(bytes, at, text)),
        }
    }
}

/// What a test noted of the past of a log file: each write, and what the file was at each sync and crash.
#[derive(Drop)]
pub struct LogPast {
    /// The oldest first.
    pub notes: Vec<LogNote>,
}

// Whether bytes stand at an offset of others.
fn stands_at(bytes: &[u8], at: usize, text: &[u8]) -> bool
    ensures { IsTrue result ↔ (part bytes.now at (length text.now) ≡ text.now) }
{
    if at > bytes.len() {
        return text.is_empty();
    }
    let rest = &bytes[at..];
    if rest.len() < text.len() {
        return false;
    }
    &rest[..text.len()] == text
}

// Whether bytes stand whole at an offset of the file.
#[tactic(auto, unfolding(sled_store::specs::Foreign::IsWhole))]
fn is_whole(past: &LogPast, at: usize, text: &[u8]) -> bool
    ensures { IsTrue result ↔ IsWhole (past_of past.now) at text.now }
{
    let mut whole = text.is_empty();
    for note in &past.notes {
        whole = note.keeps_whole(whole, at, text);
    }
    whole
}

// Whether these bytes were placed as a header, and stood since.
#[tactic(auto, unfolding(sled_store::specs::Foreign::HeaderWasPlaced))]
fn header_was_placed(past: &LogPast, at: usize, text: &[u8]) -> bool
    ensures { IsTrue result ↔ HeaderWasPlaced (placed_of past.now) at text.now }
{
    let mut placed = false;
    for note in &past.notes {
        placed = note.keeps_header(placed, at, text);
    }
    placed
}

// Whether this record of a number was placed, and stood since.
#[tactic(auto, unfolding(sled_store::specs::Foreign::RecordWasPlaced))]
fn record_was_placed<C: Checksum>(
    alloc: Global,
    checksum: &C,
    size: usize,
    past: &LogPast,
    number: SegmentNumber,
    at: usize,
    text: &[u8],
) -> Result<bool>
    requires { 0 < size }
    ensures placed { IfOk result (λ b. IsTrue b ↔ RecordWasPlaced C.sum_of size (placed_of past.now) number.0 at text.now) }
    ensures err { IsOkUnless result Error.OutOfMemory }
{
    let mut placed = false;
    for note in &past.notes {
        placed = note.keeps_record(alloc, checksum, size, placed, number, at, text)?;
    }
    Ok(placed)
}

// Whether a record of a number at an offset of the file is the log's own.
fn record_is_own<C: Checksum>(
    alloc: Global,
    checksum: &C,
    size: usize,
    past: &LogPast,
    number: SegmentNumber,
    at: usize,
    text: &[u8],
) -> Result<bool>
    requires { 0 < size }
    ensures own { IfOk result (λ b. IsTrue b ↔ IsOwnRecord C.sum_of size (past_of past.now) (placed_of past.now) number.0 at text.now) }
    ensures err { IsOkUnless result Error.OutOfMemory }
{
    if !is_whole(past, at, text) {
        return Ok(false);
    }
    record_was_placed(alloc, checksum, size, past, number, at, text)
}

// Whether each record of a number is the log's own that a reader reads in a slot, whose bytes these are.
fn records_are_own<C: Checksum>(
    alloc: Global,
    checksum: &C,
    size: usize,
    past: &LogPast,
    number: SegmentNumber,
    begin: usize,
    slot: &[u8],
) -> Result<bool>
    requires some { 0 < size }
    requires small { begin + length slot.now < 2 ^ 64 }
    ensures own { IfOk result (λ b. IsTrue b ↔ AreOwnFrom C.sum_of size (past_of past.now) (placed_of past.now) number.0 begin slot.now 20) }
    ensures err { IsOkUnless result Error.OutOfMemory }
{
    let mut at = 20;
    while let Some(len) = read_at(alloc, checksum, size, number, slot, at)? {
        let text = &slot[at..at + len];
        let own = record_is_own(alloc, checksum, size, past, number, begin + at, text)?;
        if !own {
            return Ok(false);
        }
        if is_cap(text) {
            return Ok(true);
        }
        at += len;
    }
    Ok(true)
}

// Whether a header at an offset of the file is the log's own.
fn header_is_own(past: &LogPast, at: usize, bytes: &[u8]) -> bool
    ensures { IsTrue result ↔ IsOwnHeader (past_of past.now) (placed_of past.now) at bytes.now }
{
    header_was_placed(past, at, bytes) && is_whole(past, at, bytes)
}

// A place as a number, where it is not below 0.
fn lsn_of(place: Lsn) -> Option<u64>
    ensures some { IfSome result (λ lsn. place ≡ pos lsn) }
    ensures none { IfNone result ((lsn : ℕ) → place ≡ pos lsn → ⊥) }
{
    match u64::try_from(place) {
        Ok(lsn) => Some(lsn),
        Err(_) => None,
    }
}

// Whether a slot whose header has a place is the log's own, where the rest of the file begins with it.
fn begun_slot_is_own<C: Checksum>(
    alloc: Global,
    checksum: &C,
    size: usize,
    past: &LogPast,
    begin: usize,
    rest: &[u8],
    place: Lsn,
) -> Result<bool>
    requires some { 0 < size }
    requires header { 20 ≤ length rest.now }
    requires small { begin + length rest.now < 2 ^ 64 }
    ensures own { IfOk result (λ b. IsTrue b ↔ IsOwnBegun C.sum_of size (past_of past.now) (placed_of past.now) begin rest.now place) }
    ensures err { IsOkUnless result Error.OutOfMemory }
{
    if !header_is_own(past, begin, &rest[..20]) {
        return Ok(false);
    }
    match lsn_of(place) {
        Some(lsn) => {
            let number = SegmentNumber(lsn / size as u64);
            let slot = &rest[..size.min(rest.len())];
            records_are_own(alloc, checksum, size, past, number, begin, slot)
        }
        None => Ok(true),
    }
}

// Whether a slot is the log's own.
fn slot_is_own<C: Checksum>(
    alloc: Global,
    checksum: &C,
    size: usize,
    past: &LogPast,
    log: &[u8],
    slot: usize,
) -> Result<bool>
    requires some { 0 < size }
    requires there { slot * size + 20 ≤ length log.now }
    ensures own { IfOk result (λ b. IsTrue b ↔ IsOwnSlot C.sum_of size (past_of past.now) (placed_of past.now) log.now slot) }
    ensures err { IsOkUnless result Error.OutOfMemory }
{
    let begin = slot * size;
    let rest = &log[begin..];
    match header_of(checksum, &rest[..20]) {
        Some(header) => { begun_slot_is_own(alloc, checksum, size, past, begin, rest, header.lsn) }
        None => Ok(true),
    }
}

// Whether each slot of a file is the log's own.
fn slots_are_own<C: Checksum>(
    alloc: Global,
    checksum: &C,
    size: usize,
    past: &LogPast,
    log: &[u8],
) -> Result<bool>
    requires { 0 < size }
    ensures own { IfOk result (λ b. IsTrue b ↔ NoForeignLog C.sum_of size (past_of past.now) (placed_of past.now) log.now) }
    ensures err { IsOkUnless result Error.OutOfMemory }
{
    if log.len() < 20 {
        return Ok(true);
    }
    for slot in 0..(log.len() - 20) / size + 1 {
        let own = slot_is_own(alloc, checksum, size, past, log, slot)?;
        if !own {
            return Ok(false);
        }
    }
    Ok(true)
}

/// Returns whether nothing is foreign in the bytes that a crash left of a log file with segments of this size: each
/// header of a slot, and each record of its number that a reader reads, was placed there by a write of the log and
/// has stood there at each sync and crash since (`docs/DEFINITIONS.md`, "NoForeign").
///
/// It reads the file once for each note, so it is for small files, in tests.
///
/// # Errors
///
/// `OutOfMemory` alone.
pub fn is_log_own<C: Checksum>(
    alloc: Global,
    checksum: &C,
    size: u64,
    past: &LogPast,
    left: &[u8],
) -> Result<bool>
    requires { 0 < size }
    ensures own { IfOk result (λ b. (s : LogState) (placed : List Placement) → IsNoted past.now s placed
        → IsTrue b ↔ NoForeignLog C.sum_of size s placed left.now) }
    ensures err { IsOkUnless result Error.OutOfMemory }
{
    slots_are_own(alloc, checksum, size as usize, past, left)
}
