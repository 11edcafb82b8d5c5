//! Chooses the next command of a session, by what the reference shows.

mod crashes;

use crate::chance::Chance;
use crate::maker::crashes::crash;
use crate::reference::Reference;
use crate::run::Run;
use sled_log::session::Command;
use std::alloc::{AllocError, Global};

/// How a session goes: how often something comes is of a thousand commands.
#[derive(Clone, Copy)]
pub struct Habits {
    pub size: u64,
    pub commands: u64,
    pages: u64,
    longest: u64,
    // Most items have this length, where there is one.
    usual: Option<u64>,
    crash: u64,
    stop: u64,
    halt: u64,
    // Before an opening.
    stop_first: u64,
}

impl Habits {
    /// Returns those of a session: a long one with few crashes, a short one with many, or one between.
    pub fn choose(chance: &mut Chance) -> Habits {
        let (size, longest) = match chance.below(8) {
            0 => (1024, 230),
            1 | 2 => (512, 100),
            _ => (256, 60),
        };
        let mut habits = Habits {
            size,
            longest,
            usual: if chance.comes(500) {
                Some(chance.below(12))
            } else {
                None
            },
            commands: chance.within(100, 250),
            pages: chance.within(1, 12),
            crash: 25,
            stop: 30,
            halt: 15,
            stop_first: 250,
        };
        match chance.below(3) {
            0 => {
                habits.commands = chance.within(300, 500);
                habits.pages = chance.within(2, 8);
                habits.crash = 8;
                habits.stop = 6;
                habits.halt = 6;
                habits.stop_first = 120;
            }
            1 => {
                habits.commands = chance.within(40, 120);
                habits.pages = chance.within(1, 4);
                habits.crash = 60;
                habits.stop = 90;
                habits.halt = 25;
                habits.stop_first = 450;
            }
            _ => {}
        }
        habits
    }
}

/// What chooses.
#[derive(Drop)]
pub struct Maker {
    alloc: Global,
    habits: Habits,
    // The pages that are to be read next.
    page: u64,
    pages: u64,
}

impl Maker {
    /// Returns one with these habits.
    pub fn new(alloc: Global, habits: Habits) -> Maker {
        Maker {
            alloc,
            habits,
            page: 0,
            pages: 0,
        }
    }

    /// A log was opened: mostly all its pages are read then.
    pub fn opened(&mut self, chance: &mut Chance, pages: u64) {
        self.page = 0;
        self.pages = if chance.comes(850) { pages } else { 0 };
    }

    /// Returns the next command.
    pub fn next(&mut self, chance: &mut Chance, run: &mut Run) -> Result<Command, AllocError> {
        if run.reference.is_stopped() {
            return self.when_stopped(chance, run);
        }
        if !run.reference.is_open() {
            return self.when_closed(chance, run);
        }
        if self.page < self.pages {
            self.page = self.page.wrapping_add(1);
            return Ok(Command::Read(self.page.wrapping_sub(1)));
        }
        self.when_open(chance, run)
    }

    fn when_stopped(&mut self, chance: &mut Chance, run: &mut Run) -> Result<Command, AllocError> {
        if chance.comes(950) {
            return crash(self.alloc, chance, run);
        }
        self.any(chance, &run.reference)
    }

    fn when_closed(&mut self, chance: &mut Chance, run: &mut Run) -> Result<Command, AllocError> {
        if !run.reference.is_armed() && chance.comes(self.habits.stop_first) {
            return Ok(Command::Stop(chance.below(14)));
        }
        if chance.comes(50) {
            return crash(self.alloc, chance, run);
        }
        if chance.comes(15) {
            return self.any(chance, &run.reference);
        }
        Ok(Command::Open)
    }

    fn when_open(&mut self, chance: &mut Chance, run: &mut Run) -> Result<Command, AllocError> {
        if chance.comes(self.habits.crash) {
            return crash(self.alloc, chance, run);
        }
        if chance.comes(self.habits.stop) {
            return Ok(Command::Stop(chance.below(7)));
        }
        if chance.comes(self.habits.halt) {
            return Ok(Command::Halt);
        }
        if chance.comes(15) {
            return self.any(chance, &run.reference);
        }
        self.likely(chance, &run.reference)
    }

    // A command that is likely to be carried out.
    fn likely(
        &mut self,
        chance: &mut Chance,
        reference: &Reference,
    ) -> Result<Command, AllocError> {
        if reference.open_tickets() > 3 && chance.comes(600) {
            return self.complete(chance, reference);
        }
        match chance.below(100) {
            0..=24 => self.replace(chance, reference),
            25..=31 => self.link(chance, reference),
            32..=35 => self.free(chance, reference),
            36..=38 => self.rewrite(chance, reference),
            39..=42 => Ok(batch(chance, reference)),
            43..=67 => self.complete(chance, reference),
            68..=70 => Ok(abort(chance, reference)),
            71..=76 => self.write(chance, reference),
            77..=90 => self.flush(chance, reference),
            91..=94 => Ok(Command::Stable(place(chance, reference))),
            _ => Ok(Command::Read(self.page_of(chance, reference))),
        }
    }

    // Any command, with any number.
    fn any(&mut self, chance: &mut Chance, reference: &Reference) -> Result<Command, AllocError> {
        let number = chance.below(6) as usize;
        let page = chance.below(self.habits.pages.wrapping_add(2));
        match chance.below(14) {
            0 => Ok(Command::Open),
            1 => Ok(Command::Replace(page, self.item(chance)?)),
            2 => Ok(Command::Link(page, self.item(chance)?)),
            3 => Ok(Command::Free(page)),
            4 => Ok(Command::Rewrite(page)),
            5 => Ok(Command::BeginBatch),
            6 => Ok(Command::EndBatch),
            7 => Ok(Command::Complete(number)),
            8 => Ok(Command::Abort(number)),
            9 => Ok(Command::Write(number)),
            10 => Ok(Command::Flush),
            11 => Ok(Command::Stable(place(chance, reference))),
            12 => Ok(Command::Read(page)),
            _ => Ok(Command::Halt),
        }
    }

    // One of the pages that are begun.
    fn page_of(&self, chance: &mut Chance, reference: &Reference) -> u64 {
        chance.below(reference.pages())
    }

    fn replace(
        &mut self,
        chance: &mut Chance,
        reference: &Reference,
    ) -> Result<Command, AllocError> {
        let pages = reference.pages().wrapping_add(1).min(self.habits.pages);
        let page = chance.below(pages);
        if reference.is_busy(page) && chance.comes(800) {
            return self.complete(chance, reference);
        }
        Ok(Command::Replace(page, self.item(chance)?))
    }

    fn link(&mut self, chance: &mut Chance, reference: &Reference) -> Result<Command, AllocError> {
        let page = self.page_of(chance, reference);
        if reference.is_busy(page) || reference.entries(page) == 0 || reference.entries(page) > 6 {
            return self.replace(chance, reference);
        }
        Ok(Command::Link(page, self.item(chance)?))
    }

    fn complete(
        &mut self,
        chance: &mut Chance,
        reference: &Reference,
    ) -> Result<Command, AllocError> {
        let index = chance.below(reference.open_tickets());
        match reference.open_ticket(index) {
            Some(number) => Ok(Command::Complete(number)),
            None => {
                let page = chance.below(reference.pages().wrapping_add(1).min(self.habits.pages));
                Ok(Command::Replace(page, self.item(chance)?))
            }
        }
    }

    // Of a page that is present.
    fn free(&mut self, chance: &mut Chance, reference: &Reference) -> Result<Command, AllocError> {
        let page = self.page_of(chance, reference);
        if reference.is_busy(page) || reference.entries(page) == 0 {
            return self.replace(chance, reference);
        }
        Ok(Command::Free(page))
    }

    // Of a page that is one item in a blob, or makes one of it.
    fn rewrite(
        &mut self,
        chance: &mut Chance,
        reference: &Reference,
    ) -> Result<Command, AllocError> {
        let page = self.page_of(chance, reference);
        if reference.is_busy(page) {
            return self.complete(chance, reference);
        }
        if reference.blob_of(page).is_none() {
            return Ok(Command::Replace(page, self.item(chance)?));
        }
        Ok(Command::Rewrite(page))
    }

    // Of a buffer that can be written, or ends what holds one up.
    fn write(&mut self, chance: &mut Chance, reference: &Reference) -> Result<Command, AllocError> {
        let index = chance.below(2) as usize;
        if reference.is_ready(index) {
            return Ok(Command::Write(index));
        }
        self.complete(chance, reference)
    }

    // Mostly once nothing is open that would hold it up.
    fn flush(&mut self, chance: &mut Chance, reference: &Reference) -> Result<Command, AllocError> {
        if reference.open_tickets() > 0 && chance.comes(700) {
            return self.complete(chance, reference);
        }
        if reference.in_batch() && chance.comes(700) {
            return Ok(Command::EndBatch);
        }
        Ok(Command::Flush)
    }

    fn len_of_item(&self, chance: &mut Chance) -> u64 {
        match self.habits.usual {
            Some(len) if chance.comes(850) => len,
            _ if chance.comes(700) => chance.below(12),
            _ => chance.below(self.habits.longest),
        }
    }

    // An item of one byte that is repeated: often one that fits a record, else any.
    fn item(&self, chance: &mut Chance) -> Result<Vec<u8>, AllocError> {
        let len = self.len_of_item(chance) as usize;
        let byte = chance.byte();
        let mut item = Vec::with_capacity(self.alloc, len)?;
        item.resize(len, byte)?;
        Ok(item)
    }
}

// Begins or ends a batch.
fn batch(chance: &mut Chance, reference: &Reference) -> Command {
    if reference.in_batch() && chance.comes(900) {
        Command::EndBatch
    } else {
        Command::BeginBatch
    }
}

// Gives a ticket up, of a message or of a manifest.
fn abort(chance: &mut Chance, reference: &Reference) -> Command {
    if chance.comes(700)
        && let Some(number) = reference.open_ticket(chance.below(reference.open_tickets()))
    {
        return Command::Abort(number);
    }
    let behind = chance.below(4) as usize;
    Command::Abort(reference.tickets().saturating_sub(behind))
}

// A place not far from what is durable and what is reserved.
fn place(chance: &mut Chance, reference: &Reference) -> i64 {
    let from = reference.stable().saturating_sub(4);
    let to = reference.reserved_to().wrapping_add(4);
    let place = chance.within(from, to);
    place.cast_signed().wrapping_sub(1)
}
