//! What each command that isn't refused has to answer.

use crate::reference::buffers::{Flow, Span};
use crate::reference::history::{Item, Kind, Message};
use crate::reference::places::{PLACE_LEN, is_in_blob, number_of, offset_of};
use crate::reference::wrong::{Wrong, unless};
use crate::reference::{Purpose, Reference, Ticket};
use sled_log::logger::BATCH_MANIFEST_PID;
use sled_log::result::{DiskPtr, Error, Lsn};
use sled_log::session::{Command, Reply};

/// Where the item of a message lies.
#[derive(Debug, Clone, Copy, PartialEq, Eq)]
enum Stored {
    InRecord,
    InBlob,
    /// In the blob of an older message.
    InBlobOf(i64),
}

/// A reservation that is asked for.
#[derive(Clone, Copy)]
struct Wish {
    purpose: Purpose,
    page: u64,
    item: Item,
    body: u64,
    stored: Stored,
}

impl Reference {
    /// Judges the reply to a command that isn't refused.
    pub(crate) fn judge_done(&mut self, command: &Command, reply: &Reply) -> Result<(), Wrong> {
        match command {
            Command::Open => self.judge_open(reply),
            Command::Replace(page, bytes) => {
                let wish = self.message(Kind::Replace, *page, bytes);
                self.judge_reserve(wish, reply)
            }
            Command::Link(page, bytes) => {
                let wish = self.message(Kind::Link, *page, bytes);
                self.judge_reserve(wish, reply)
            }
            Command::Free(page) => self.judge_reserve(free(*page), reply),
            Command::Rewrite(page) => self.judge_rewrite(*page, reply),
            Command::BeginBatch => self.judge_begin(reply),
            Command::EndBatch => self.judge_end(reply),
            Command::Complete(number) => self.judge_complete(*number, reply),
            Command::Abort(number) => self.judge_abort(*number, reply),
            Command::Write(index) => self.judge_write(*index, reply),
            Command::Flush => self.judge_flush(reply),
            Command::Stable(place) => self.judge_stable(*place, reply),
            Command::Read(page) => self.judge_read(*page, reply),
            Command::Halt => self.judge_halt(reply),
            Command::Stop(n) => self.judge_stop(*n, reply),
            Command::Crash(_) => self.judge_crash(reply),
        }
    }

    /// Returns whether the device stopped within a command, which makes at least so many calls that change or sync. It may
    /// only where a stop was asked for and the command makes any call, and it does where fewer were left.
    pub(crate) fn is_stop(&mut self, calls: u64, reply: &Reply) -> Result<bool, Wrong> {
        let is_stop = matches!(reply, Reply::Stopped);
        match self.stops_in {
            None => unless(!is_stop, "no stop, as none was asked for")?,
            Some(left) if !is_stop => {
                unless(left >= calls, "stopped")?;
                self.stops_in = Some(left.wrapping_sub(calls));
            }
            Some(_) => {
                unless(calls > 0, "no stop, as nothing is asked of the device")?;
                self.is_stopped = true;
            }
        }
        Ok(is_stop)
    }

    // A message with an item.
    fn message(&self, kind: Kind, page: u64, bytes: &[u8]) -> Wish {
        let item = Item::of(bytes);
        let encoded = item.encoded_len();
        let (body, stored) = if is_in_blob(encoded, self.size) {
            (PLACE_LEN, Stored::InBlob)
        } else {
            (encoded, Stored::InRecord)
        };
        Wish {
            purpose: Purpose::Message(kind),
            page,
            item,
            body,
            stored,
        }
    }

    fn judge_rewrite(&mut self, page: u64, reply: &Reply) -> Result<(), Wrong> {
        let Some(base) = self.blob_of(page) else {
            return Err(Wrong::Wanted("refused page"));
        };
        let stored = match base.pointer {
            DiskPtr::Blob(_, blob) => Stored::InBlobOf(blob),
            DiskPtr::Inline(_) => Stored::InRecord,
        };
        let wish = Wish {
            purpose: Purpose::Message(Kind::Replace),
            page,
            item: base.item,
            body: PLACE_LEN,
            stored,
        };
        self.judge_reserve(wish, reply)
    }

    fn judge_begin(&mut self, reply: &Reply) -> Result<(), Wrong> {
        let number = self.tickets.len();
        let wish = Wish {
            purpose: Purpose::Manifest,
            page: BATCH_MANIFEST_PID,
            item: Item { byte: 0, len: 0 },
            body: PLACE_LEN,
            stored: Stored::InRecord,
        };
        self.judge_reserve(wish, reply)?;
        self.batch = Some(number);
        Ok(())
    }

    // The record has the next place at which it has room.
    fn judge_reserve(&mut self, wish: Wish, reply: &Reply) -> Result<(), Wrong> {
        let has_blob = wish.stored == Stored::InBlob;
        let span = self.buffers.reserve(wish.page, wish.body)?;
        // A blob is made and synced, and then its name.
        if self.is_stop(if has_blob { 3 } else { 0 }, reply)? {
            return Ok(());
        }
        let Reply::Reserved(number, place, pointer) = reply else {
            return Err(Wrong::With("reserved at ", span.begin));
        };
        if place.cast_unsigned() != span.begin {
            return Err(Wrong::With("reserved at ", span.begin));
        }
        unless(*number == self.tickets.len(), "the next ticket")?;
        unless(
            is_stored(*pointer, wish.stored, *place),
            "a pointer to where the item lies",
        )?;
        self.judge_slot(span, pointer.lid())?;
        self.tickets.push(Some(Ticket {
            purpose: wish.purpose,
            page: wish.page,
            span,
            pointer: *pointer,
            item: wish.item,
            has_blob,
        }))?;
        Ok(())
    }

    // A record lies in its segment's slot, which no other segment has whose records are needed.
    fn judge_slot(&mut self, span: Span, lid: u64) -> Result<(), Wrong> {
        let offset = offset_of(span.begin, self.size);
        let number = number_of(span.begin, self.size);
        unless(
            offset_of(lid, self.size) == offset,
            "the place's offset in a slot",
        )?;
        let slot = lid.wrapping_sub(offset);
        if let Some(known) = self.slots.get(&number) {
            return unless(*known == slot, "the slot of its segment");
        }
        unless(
            !self.is_taken(number, slot)?,
            "a slot that no other segment needs",
        )?;
        self.slots.insert(number, slot)?;
        self.segments = self.segments.wrapping_add(1);
        if slot < self.top {
            self.reused = self.reused.wrapping_add(1);
        }
        self.top = slot.wrapping_add(self.size).max(self.top);
        Ok(())
    }

    // Whether a slot has another segment that isn't wholly on the device, or that some recovery needs.
    fn is_taken(&self, number: u64, slot: u64) -> Result<bool, Wrong> {
        let first = number_of(self.buffers.synced(), self.size);
        for (other, known) in self.slots.iter() {
            if *known == slot && *other >= first && *other != number {
                return Ok(true);
            }
        }
        self.history
            .needs_slot(slot, self.size, number, self.stable())
    }

    // Takes an open ticket.
    fn take(&mut self, number: usize) -> Result<Ticket, Wrong> {
        match self.tickets.get_mut(number) {
            Some(ticket) => ticket.take().ok_or(Wrong::Wanted("refused ticket")),
            None => Err(Wrong::Wanted("refused ticket")),
        }
    }

    fn judge_complete(&mut self, number: usize, reply: &Reply) -> Result<(), Wrong> {
        let ticket = self.take(number)?;
        self.judge_ended(&ticket, 0, reply)?;
        let Purpose::Message(kind) = ticket.purpose else {
            return Err(Wrong::Wanted("refused ticket"));
        };
        self.history.complete(Message {
            kind,
            page: ticket.page,
            place: ticket.span.begin,
            end: ticket.span.end,
            pointer: ticket.pointer,
            item: ticket.item,
        })
    }

    fn judge_abort(&mut self, number: usize, reply: &Reply) -> Result<(), Wrong> {
        let ticket = self.take(number)?;
        if self.batch == Some(number) {
            self.batch = None;
        }
        let calls = if ticket.has_blob { 1 } else { 0 };
        self.judge_ended(&ticket, calls, reply)
    }

    // The batch goes up to the last byte that was reserved.
    fn judge_end(&mut self, reply: &Reply) -> Result<(), Wrong> {
        let Some(number) = self.batch.take() else {
            return Err(Wrong::Wanted("refused batch"));
        };
        let ticket = self.take(number)?;
        self.judge_ended(&ticket, 0, reply)?;
        let peg = self.buffers.reserved_to().wrapping_sub(1);
        self.history.end_batch(ticket.span.begin, peg)
    }

    // A ticket is spent: its place and its pointer are told once more.
    fn judge_ended(&mut self, ticket: &Ticket, calls: u64, reply: &Reply) -> Result<(), Wrong> {
        self.buffers.close(ticket.span.begin);
        if self.is_stop(calls, reply)? {
            return Ok(());
        }
        match reply {
            Reply::Done(place, pointer)
                if place.cast_unsigned() == ticket.span.begin && *pointer == ticket.pointer => {
                Ok(())
            }
            _ => Err(Wrong::With("done, with the ticket's pointer, at ", ticket.span.begin)),
        }
    }

    fn judge_write(&mut self, index: usize, reply: &Reply) -> Result<(), Wrong> {
        let Some(span) = self.buffers.ready(index) else {
            return Err(Wrong::Wanted("refused index"));
        };
        self.buffers.write(span)?;
        if self.is_stop(2, reply)? {
            return Ok(());
        }
        self.note_stable()?;
        unless(matches!(reply, Reply::Written), "written")
    }

    fn judge_flush(&mut self, reply: &Reply) -> Result<(), Wrong> {
        let to = self.buffers.reserved_to();
        self.judge_up_to(to, reply)
    }

    fn judge_stable(&mut self, place: Lsn, reply: &Reply) -> Result<(), Wrong> {
        if place < 0 {
            return judge_growth(0, reply);
        }
        let to = place.cast_unsigned().wrapping_add(1);
        if to > self.stable() && to > self.buffers.reserved_to() {
            return judge_not_reserved(place, reply);
        }
        self.judge_up_to(to, reply)
    }

    // All in front of a place becomes durable, and all of a batch that it splits, unless an open reservation holds that up.
    fn judge_up_to(&mut self, to: u64, reply: &Reply) -> Result<(), Wrong> {
        let before = self.stable();
        if to <= before {
            return judge_growth(0, reply);
        }
        let target = self.history.batch_end(to);
        let flow = self.buffers.write_below(target)?;
        if self.is_stop(flow.writes.wrapping_mul(2), reply)? {
            return Ok(());
        }
        self.note_stable()?;
        match flow.held {
            Some(place) => judge_held(place, reply),
            None => judge_growth(self.stable().wrapping_sub(before), reply),
        }
    }

    // A page has the encodings of what was completed for it.
    fn judge_read(&mut self, page: u64, reply: &Reply) -> Result<(), Wrong> {
        let Some(base) = self.history.base(page, u64::MAX) else {
            return Err(Wrong::Wanted("refused page"));
        };
        if base.kind == Kind::Free {
            return unless(matches!(reply, Reply::FreePage), "page free");
        }
        let flow = self.settle(&base)?;
        if self.is_stop(flow.writes.wrapping_mul(2), reply)? {
            return Ok(());
        }
        self.note_stable()?;
        if let Some(place) = flow.held {
            return judge_held(place, reply);
        }
        match reply {
            Reply::Page(items) if self.history.is_page(&base, items) => Ok(()),
            _ => Err(Wrong::Items(page)),
        }
    }

    // Writes what has to be on the device for the entries of a page, up to the first that can't be.
    fn settle(&mut self, base: &Message) -> Result<Flow, Wrong> {
        let mut from = 0;
        let mut writes = 0u64;
        for _ in 0..self.history.len() {
            let Some(entry) = self.history.entry_from(base, from) else {
                break;
            };
            let flow = self.buffers.write_around(place_read(&entry))?;
            writes = writes.wrapping_add(flow.writes);
            if flow.held.is_some() {
                return Ok(Flow {
                    writes,
                    held: flow.held,
                });
            }
            from = entry.place.wrapping_add(1);
        }
        Ok(Flow { writes, held: None })
    }

    fn judge_halt(&mut self, reply: &Reply) -> Result<(), Wrong> {
        self.close();
        unless(matches!(reply, Reply::Halted), "halted")
    }

    fn judge_stop(&mut self, n: u64, reply: &Reply) -> Result<(), Wrong> {
        self.stops_in = Some(n);
        unless(matches!(reply, Reply::Armed), "armed")
    }

    // Which of the two a crash answers is the device's to say, and is judged there.
    fn judge_crash(&mut self, reply: &Reply) -> Result<(), Wrong> {
        self.close();
        self.is_stopped = false;
        self.stops_in = None;
        unless(matches!(reply, Reply::Crashed(_)), "crashed")
    }
}

// A message that gives a page back.
fn free(page: u64) -> Wish {
    Wish {
        purpose: Purpose::Message(Kind::Free),
        page,
        item: Item { byte: 0, len: 0 },
        body: 0,
        stored: Stored::InRecord,
    }
}

// Whether a pointer names a record, its own blob, or an older one.
fn is_stored(pointer: DiskPtr, stored: Stored, place: Lsn) -> bool {
    match (pointer, stored) {
        (DiskPtr::Inline(_), Stored::InRecord) => true,
        (DiskPtr::Blob(_, blob), Stored::InBlob) => blob == place,
        (DiskPtr::Blob(_, blob), Stored::InBlobOf(old)) => blob == old,
        _ => false,
    }
}

// The place whose buffer has to be on the device for an entry to be read: that of its blob, if it has one.
fn place_read(entry: &Message) -> u64 {
    match entry.pointer {
        DiskPtr::Blob(_, blob) => blob.cast_unsigned(),
        DiskPtr::Inline(_) => entry.place,
    }
}

// The stable end grew by so many bytes.
fn judge_growth(by: u64, reply: &Reply) -> Result<(), Wrong> {
    match reply {
        Reply::Flushed(grown) if *grown as u64 == by => Ok(()),
        _ => Err(Wrong::With("flushed ", by)),
    }
}

// An open reservation holds the command up.
fn judge_held(place: u64, reply: &Reply) -> Result<(), Wrong> {
    match reply {
        Reply::Failed(Error::Held(told)) if told.cast_unsigned() == place => Ok(()),
        _ => Err(Wrong::With("error held ", place)),
    }
}

// Nothing was reserved up to a place.
fn judge_not_reserved(place: Lsn, reply: &Reply) -> Result<(), Wrong> {
    match reply {
        Reply::Failed(Error::NotReserved(told)) if *told == place => Ok(()),
        _ => Err(Wrong::With("error not-reserved ", place.cast_unsigned())),
    }
}
