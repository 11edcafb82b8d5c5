//! What a session has to answer: a plain, slow reading of what is promised, which calls nothing of the log.
//!
//! It follows the replies, and knows of the device only what they tell: which messages were completed, which of them are
//! durable, where the next record has room, which buffers wait. It never looks at a byte of the log file.

pub mod buffers;
pub mod history;
mod judge;
mod opening;
pub mod places;
mod refusals;
pub mod wrong;

use crate::reference::buffers::{Buffers, Span};
use crate::reference::history::{History, Item, Kind};
use crate::reference::places::end_of;
use crate::reference::wrong::Wrong;
use sled_log::result::DiskPtr;
use sled_log::session::{Command, Reply};
use std::alloc::Global;
use std::collections::BTreeMap;

/// What a reservation is for.
#[derive(Debug, Clone, Copy, PartialEq, Eq)]
pub enum Purpose {
    /// A message of a page.
    Message(Kind),
    /// The manifest of a batch.
    Manifest,
}

/// A reservation that is open.
#[derive(Clone, Copy)]
pub struct Ticket {
    pub purpose: Purpose,
    pub page: u64,
    pub span: Span,
    pub pointer: DiskPtr,
    pub item: Item,
    /// Its item is in a blob of its own.
    pub has_blob: bool,
}

/// What a session is at.
#[derive(Drop)]
pub struct Reference {
    alloc: Global,
    size: u64,
    history: History,
    // The cut of the last recovery.
    floor: u64,
    // The end of the last message that is durable.
    acknowledged: u64,
    // The end of the last segment that may have been written.
    reach: u64,
    // The slot of each segment, by its number.
    slots: BTreeMap<u64, u64>,
    // Where the highest slot ends that was used.
    top: u64,
    /// How many segments were begun.
    pub segments: u64,
    /// How many of these in a slot that was used before.
    pub reused: u64,
    // At most so many calls are done until the device stops.
    stops_in: Option<u64>,
    is_stopped: bool,
    is_open: bool,
    buffers: Buffers,
    tickets: Vec<Option<Ticket>>,
    batch: Option<usize>,
}

impl Reference {
    /// Returns what a session over an empty device is at.
    pub fn new(alloc: Global, size: u64) -> Reference {
        Reference {
            alloc,
            size,
            history: History::new(alloc),
            floor: 0,
            acknowledged: 0,
            reach: 0,
            slots: BTreeMap::new(alloc),
            top: 0,
            segments: 0,
            reused: 0,
            stops_in: None,
            is_stopped: false,
            is_open: false,
            buffers: Buffers::new(alloc, size, 0),
            tickets: Vec::new(alloc),
            batch: None,
        }
    }

    /// Judges the reply to a command, and follows it.
    ///
    /// # Errors
    ///
    /// What was wanted in its place.
    pub fn judge(&mut self, command: &Command, reply: &Reply) -> Result<(), Wrong> {
        match self.refusal(command) {
            Some(why) => match reply {
                Reply::Refused(told) if *told == why => Ok(()),
                _ => Err(Wrong::Refused(why)),
            },
            None => self.judge_done(command, reply),
        }
    }

    /// Returns whether a log is open.
    pub fn is_open(&self) -> bool {
        self.is_open
    }

    /// Returns whether the device is stopped.
    pub fn is_stopped(&self) -> bool {
        self.is_stopped
    }

    /// Returns whether the device is to stop.
    pub fn is_armed(&self) -> bool {
        self.stops_in.is_some()
    }

    /// Returns whether a batch is begun.
    pub fn in_batch(&self) -> bool {
        self.batch.is_some()
    }

    /// Returns how many pages are begun.
    pub fn pages(&self) -> u64 {
        self.history.pages(u64::MAX)
    }

    /// Returns how many entries a page has.
    pub fn entries(&self, page: u64) -> u64 {
        self.history.entries(page)
    }

    /// Returns the place in front of which all is durable.
    pub fn stable(&self) -> u64 {
        let synced = self.buffers.synced();
        self.history.batch_split_at(synced).unwrap_or(synced)
    }

    /// Returns where the last reservation ends.
    pub fn reserved_to(&self) -> u64 {
        self.buffers.reserved_to()
    }

    /// Returns whether there is a buffer of this number that can be written.
    pub fn is_ready(&self, index: usize) -> bool {
        self.buffers.ready(index).is_some()
    }

    /// Returns how many tickets were given out.
    pub fn tickets(&self) -> usize {
        self.tickets.len()
    }

    /// Returns the number of an open ticket of a message, the one of this count from the oldest on.
    pub fn open_ticket(&self, index: u64) -> Option<usize> {
        let mut before = 0u64;
        for (number, ticket) in self.tickets.iter().enumerate() {
            if !is_of_message(ticket) {
                continue;
            }
            if before == index {
                return Some(number);
            }
            before = before.wrapping_add(1);
        }
        None
    }

    /// Returns how many tickets of messages are open.
    pub fn open_tickets(&self) -> u64 {
        let mut open = 0u64;
        for ticket in &self.tickets {
            if is_of_message(ticket) {
                open = open.wrapping_add(1);
            }
        }
        open
    }

    // The log is closed. What was reserved may be on the device.
    fn close(&mut self) {
        let end = self.buffers.reserved_to();
        if self.is_open && end > self.floor {
            self.reach = end_of(end.wrapping_sub(1), self.size).max(self.reach);
        }
        self.is_open = false;
        self.batch = None;
        self.tickets.clear();
    }

    // Takes note of what is durable now.
    fn note_stable(&mut self) -> Result<(), Wrong> {
        let stable = self.stable();
        self.acknowledged = self.history.end_below(stable).max(self.acknowledged);
        if self.history.len() > MOST_KEPT {
            self.history.forget(stable)?;
        }
        Ok(())
    }
}

// Once more messages are kept, those that no recovery needs are forgotten.
const MOST_KEPT: usize = 48;

// Whether a ticket is open, and that of a message.
fn is_of_message(ticket: &Option<Ticket>) -> bool {
    match ticket {
        Some(ticket) => ticket.purpose != Purpose::Manifest,
        None => false,
    }
}
