//! A log that is open, with its pins and tickets, and the calls of it.
ghost use Rattle.std.specs.Prelude.{◌<◌, IfSome, vec_len, vec_capacity};
ghost use Rattle.sled_core.specs.Fits.{IsOpen};

use crate::marks;
use crate::reads::push_messages;
use crate::values::kind_of;
use crate::world::Running;
use case_lines::answer::Answer;
use case_lines::lines::{Words, bytes};
use case_lines::texts::Text;
use sled_log::device::{MemDevice, PlaceSum};
use sled_log::logger::{DiskPtr, Log, LogKind, LogRead, Lsn, PageId};
use sled_log::reservation::{Guard, Reservation};
use sled_log::restart::restart;
use sled_log::result::Result;
use sled_log::serialization::Serialize;
use sled_log::snapshot::Snapshot;
use std::alloc::Global;

/// A log that is open. It is to be halted.
pub struct Opened {
    log: Log<MemDevice, PlaceSum>,
    guards: Vec<Guard>,
    // By number. One that was spent is gone.
    tickets: Vec<Option<Reservation>>,
}

impl Opened {
    /// A log without pins and tickets.
    pub fn new(alloc: Global, log: Log<MemDevice, PlaceSum>) -> Opened {
        Opened {
            log,
            guards: Vec::new(alloc),
            tickets: Vec::new(alloc),
        }
    }

    /// Makes the call of this name.
    pub fn call(&mut self, alloc: Global, name: &str, words: &mut Words<'_>, out: &mut Answer) {
        match name {
            "pin" => self.pin(out),
            "unpin" => self.unpin(out),
            "reserve" => {
                let kind = kind_of(words);
                self.item(alloc, Some(kind), words, out);
            }
            "fits_inline" => self.item(alloc, None, words, out),
            "rewrite" => self.rewrite(words.number(), words.signed(), out),
            "complete" => self.complete(words.number(), out),
            "is_manifest" => self.is_manifest(words.number(), out),
            "abort" => self.abort(words.number(), out),
            "mark_writebatch" => self.mark_writebatch(words.number(), words.signed(), out),
            "abandon" => self.abandon(words.number(), out),
            "can_mark" | "mark_link" | "mark_replace" | "clean_pop" => {
                marks::call(&mut self.log, alloc, name, words, out);
            }
            _ => self.call_of_log(name, words, out),
        }
    }

    // Makes a call that neither takes nor spends a ticket.
    fn call_of_log(&mut self, name: &str, words: &mut Words<'_>, out: &mut Answer) {
        match name {
            "is_open" => self.is_open(words.number(), out),
            "flush" => self.flush(out),
            "make_stable" => self.make_stable(words.signed(), out),
            "pending" => out.text.number(self.log.pending() as u64),
            "pooled" => out.text.number(self.log.pooled() as u64),
            "write" => self.write(words.number(), out),
            "roll" => push_growth(self.log.roll_iobuf(), out),
            "read" => self.read(words.number(), words.signed(), words.pointer(), out),
            "iter" => iterate(&mut self.log, words.signed(), out),
            "failure" => self.failure(out),
            "pins" => out.text.number(self.log.pins()),
            "stable" => out.text.signed(self.log.stable_offset()),
            "reserved" => out.text.signed(self.log.reserved_offset()),
            "none_open" => out.text.truth(self.log.none_open()),
            _ => words.bad("no such call of a log"),
        }
    }

    // Takes a pin.
    fn pin(&mut self, out: &mut Answer) {
        if self.log.pins() >= 4294967295 || self.guards.reserve(1).is_err() {
            out.refused();
            return;
        }
        let guard = self.log.pin();
        self.keep_guard(guard);
        out.ok();
    }

    // Keeps a guard, where there is room for it.
    fn keep_guard(&mut self, guard: Guard)
        requires { vec_len self.old.guards < vec_capacity self.old.guards }
    {
        self.guards.push(guard).unwrap();
    }

    // Gives the latest pin back.
    fn unpin(&mut self, out: &mut Answer) {
        let Some(guard) = self.guards.pop() else {
            out.refused();
            return;
        };
        if self.log.pins() == 0 {
            guard.abandon();
        } else {
            self.log.unpin(guard);
        }
        out.ok();
    }

    // Whether a ticket is open.
    fn is_open(&self, number: u64, out: &mut Answer) {
        match self.tickets.get(number as usize) {
            Some(Some(ticket)) => out.text.truth(self.log.is_open(ticket)),
            _ => out.refused(),
        }
    }

    // Makes a call that takes an item: bytes, or nothing.
    fn item(
        &mut self,
        alloc: Global,
        kind: Option<LogKind>,
        words: &mut Words<'_>,
        out: &mut Answer,
    ) {
        let (page, item) = (words.number(), words.word());
        if item == "()" {
            self.with_item(kind, page, &(), out);
            return;
        }
        match bytes(alloc, item) {
            Some(item) => self.with_item(kind, page, &item, out),
            None => words.bad("these are no bytes"),
        }
    }

    // Keeps a place for a message, or answers whether its record has the item.
    fn with_item<T: Serialize>(
        &mut self,
        kind: Option<LogKind>,
        page: PageId,
        item: &T,
        out: &mut Answer,
    ) {
        if !item.can_serialize() {
            out.refused();
            return;
        }
        match kind {
            Some(kind) => self.reserve(kind, page, item, out),
            None => out.text.truth(self.log.fits_inline(item)),
        }
    }

    // Keeps a place for a message, behind the latest pin.
    fn reserve<T: Serialize>(&mut self, kind: LogKind, page: PageId, item: &T, out: &mut Answer)
        requires { T.fits (T.meaning item.now) }
    {
        if self.tickets.reserve(1).is_err() {
            out.refused();
            return;
        }
        let Some(guard) = self.guards.last() else {
            out.refused();
            return;
        };
        let answer = self.log.reserve(kind, page, item, guard);
        self.keep_answer(answer, out);
    }

    // Keeps a place for a message whose item stays in a blob that is there, behind the latest pin.
    fn rewrite(&mut self, page: PageId, blob: i64, out: &mut Answer) {
        if self.tickets.reserve(1).is_err() {
            out.refused();
            return;
        }
        let Some(guard) = self.guards.last() else {
            out.refused();
            return;
        };
        let answer = self.log.rewrite_blob_pointer(page, blob, guard);
        self.keep_answer(answer, out);
    }

    // Keeps the ticket of a reservation, where there is room for it.
    fn keep_answer(&mut self, answer: Result<Reservation>, out: &mut Answer)
        requires { vec_len self.old.tickets < vec_capacity self.old.tickets }
    {
        match answer {
            Ok(ticket) => {
                out.text.spot(ticket.lsn(), ticket.pointer());
                self.keep_ticket(ticket);
            }
            Err(e) => out.error(&e),
        }
    }

    // Keeps a ticket under the next number, where there is room for it.
    fn keep_ticket(&mut self, ticket: Reservation)
        requires { vec_len self.old.tickets < vec_capacity self.old.tickets }
    {
        self.tickets.push(Some(ticket)).unwrap();
    }

    // The ticket of this number, if it is there yet.
    fn take(&mut self, number: u64) -> Option<Reservation> {
        self.tickets.get_mut(number as usize)?.take()
    }

    // The ticket of this number, if its reservation is open.
    fn take_open(&mut self, number: u64) -> Option<Reservation>
        ensures { IfSome result (λ ticket. IsOpen self.new.log ticket) }
    {
        let ticket = self.take(number)?;
        if !self.log.is_open(&ticket) {
            ticket.abandon();
            return None;
        }
        Some(ticket)
    }

    // Completes the message of a ticket. One of a manifest is given up, since a manifest isn't completed.
    fn complete(&mut self, number: u64, out: &mut Answer) {
        match self.take_open(number) {
            Some(ticket) if ticket.is_manifest() => {
                ticket.abandon();
                out.refused();
            }
            Some(ticket) => out.placed(self.log.complete(ticket)),
            None => out.refused(),
        }
    }

    // Whether the ticket of this number is of a manifest.
    fn is_manifest(&self, number: u64, out: &mut Answer) {
        match self.tickets.get(number as usize) {
            Some(Some(ticket)) => out.text.truth(ticket.is_manifest()),
            Some(None) | None => out.refused(),
        }
    }

    // Gives the message of a ticket up.
    fn abort(&mut self, number: u64, out: &mut Answer) {
        match self.take_open(number) {
            Some(ticket) => out.placed(self.log.abort(ticket)),
            None => out.refused(),
        }
    }

    // Ends the manifest of a ticket with the peg of its batch. One that may not end there is given up, and so is a message's.
    fn mark_writebatch(&mut self, number: u64, peg: Lsn, out: &mut Answer) {
        match self.take_open(number) {
            Some(ticket) if ticket.is_manifest() && self.log.may_end_at(&ticket, peg) => {
                out.placed(self.log.mark_writebatch(ticket, peg));
            }
            Some(ticket) => {
                ticket.abandon();
                out.refused();
            }
            None => out.refused(),
        }
    }

    // Gives a ticket up.
    fn abandon(&mut self, number: u64, out: &mut Answer) {
        match self.take(number) {
            Some(ticket) => {
                ticket.abandon();
                out.ok();
            }
            None => out.refused(),
        }
    }

    // Writes what was completed, and syncs it.
    fn flush(&mut self, out: &mut Answer) {
        push_growth(self.log.flush(), out);
    }

    // Makes what was reserved durable up to a place.
    fn make_stable(&mut self, place: i64, out: &mut Answer) {
        push_growth(self.log.make_stable(place), out);
    }

    // Writes the i-th of the sealed buffers that can be written, where there are so many.
    fn write(&mut self, i: u64, out: &mut Answer) {
        if i >= self.log.pending() as u64 {
            out.refused();
            return;
        }
        match self.log.write_to_log(i as usize) {
            Ok(()) => out.ok(),
            Err(e) => out.error(&e),
        }
    }

    // Reads a message.
    fn read(&mut self, page: PageId, place: i64, at: DiskPtr, out: &mut Answer) {
        push_read(self.log.read(page, place, at), out);
    }

    // The failure of the device that the log keeps, or a dash.
    fn failure(&self, out: &mut Answer) {
        match self.log.failure() {
            Some(e) => out.fault(&e),
            None => out.text.push("-"),
        }
    }

    /// Gives all up, and writes nothing.
    pub fn halt(self) -> Running {
        self.into_log().halt()
    }

    /// Gives pins and tickets up, and restarts the log where no reservation is open.
    pub fn restart(self) -> (Running, Option<Result<Snapshot>>) {
        let log = self.into_log();
        if !log.none_open() {
            return (log.halt(), None);
        }
        let (config, answer) = restart(log);
        (config, Some(answer))
    }

    /// Gives pins and tickets up, and closes the log.
    pub fn close(self) -> (Running, Result<usize>) {
        self.into_log().close()
    }

    // Gives pins and tickets up.
    fn into_log(self) -> Log<MemDevice, PlaceSum> {
        let Opened {
            log,
            mut guards,
            mut tickets,
        } = self;
        while let Some(guard) = guards.pop() {
            guard.abandon();
        }
        guards.destroy_empty();
        while let Some(ticket) = tickets.pop() {
            if let Some(ticket) = ticket {
                ticket.abandon();
            }
        }
        tickets.destroy_empty();
        log
    }
}

// Adds by how much something grew.
fn push_growth(answer: Result<usize>, out: &mut Answer) {
    match answer {
        Ok(grown) => out.text.number(grown as u64),
        Err(e) => out.error(&e),
    }
}

/// Adds what was read.
pub fn push_read(answer: Result<LogRead>, out: &mut Answer) {
    match answer {
        Ok(read) => push_found(&read, &mut out.text),
        Err(e) => out.error(&e),
    }
}

fn push_found(read: &LogRead, out: &mut Text) {
    match read {
        LogRead::Inline(_, bytes, len) => {
            out.push("inline ");
            out.hex(bytes);
            push_len(*len, out);
        }
        LogRead::Blob(_, bytes, place, len) => {
            out.push("blob ");
            out.hex(bytes);
            push_place(" ", *place, *len, out);
        }
        LogRead::Canceled(len) => {
            out.push("canceled");
            push_len(*len, out);
        }
        LogRead::Cap(number) => {
            out.push("cap ");
            out.number(number.0);
        }
        LogRead::Corrupted => out.push("corrupted"),
        LogRead::DanglingBlob(_, place, len) => push_place("dangling ", *place, *len, out),
        LogRead::BatchManifest(peg, len) => push_place("manifest ", *peg, *len, out),
    }
}

// Adds a place behind a word, and a length.
fn push_place(word: &str, place: i64, len: u32, out: &mut Text) {
    out.push(word);
    out.signed(place);
    push_len(len, out);
}

// Adds the length of a record.
fn push_len(len: u32, out: &mut Text) {
    out.push(" ");
    out.number(u64::from(len));
}

// Goes over the messages of a log from a place on.
fn iterate(log: &mut Log<MemDevice, PlaceSum>, from: i64, out: &mut Answer) {
    let mut messages = log.iter_from(from);
    push_messages(&mut messages, out);
    if messages.into_log().is_none() {
        out.text.push(" lost");
    }
}
