//! Which commands are refused: the first reason that fits is told.

use crate::reference::Reference;
use crate::reference::history::{Kind, Message};
use sled_log::result::DiskPtr;
use sled_log::session::{Command, Refusal};

/// How many entries a page may have: its Replace, and 254 fragments.
const MOST_ENTRIES: u64 = 255;

impl Reference {
    /// Returns why a command is refused, if it is.
    pub fn refusal(&self, command: &Command) -> Option<Refusal> {
        if matches!(command, Command::Crash(_)) {
            return None;
        }
        if self.is_stopped {
            return Some(Refusal::Stopped);
        }
        match command {
            Command::Open if self.is_open => Some(Refusal::Open),
            Command::Open | Command::Stop(_) => None,
            _ if !self.is_open => Some(Refusal::Closed),
            _ => self.refuse_open(command),
        }
    }

    // Why it is while a log is open.
    fn refuse_open(&self, command: &Command) -> Option<Refusal> {
        match command {
            Command::Replace(page, _) => self.refuse_page(*page, *page <= self.pages()),
            Command::Link(page, _) => self.refuse_link(*page),
            Command::Free(page) => self.refuse_page(*page, self.entries(*page) > 0),
            Command::Rewrite(page) => self.refuse_page(*page, self.blob_of(*page).is_some()),
            Command::Read(page) if *page >= self.pages() => Some(Refusal::Page),
            Command::BeginBatch if self.batch.is_some() => Some(Refusal::Batch),
            Command::EndBatch if self.batch.is_none() => Some(Refusal::Batch),
            Command::Complete(t) if self.batch == Some(*t) => Some(Refusal::Ticket),
            Command::Complete(t) | Command::Abort(t) => self.refuse_ticket(*t),
            Command::Write(i) if self.buffers.ready(*i).is_none() => Some(Refusal::Index),
            _ => None,
        }
    }

    // Refuses a page that may not be written, or that has an open ticket.
    fn refuse_page(&self, page: u64, may_be_written: bool) -> Option<Refusal> {
        if !may_be_written {
            return Some(Refusal::Page);
        }
        if self.is_busy(page) {
            return Some(Refusal::Busy);
        }
        None
    }

    fn refuse_link(&self, page: u64) -> Option<Refusal> {
        let entries = self.entries(page);
        let refusal = self.refuse_page(page, entries > 0);
        if refusal.is_none() && entries >= MOST_ENTRIES {
            return Some(Refusal::Fragments);
        }
        refusal
    }

    fn refuse_ticket(&self, number: usize) -> Option<Refusal> {
        match self.tickets.get(number) {
            Some(Some(_)) => None,
            _ => Some(Refusal::Ticket),
        }
    }

    // Whether a page has an open ticket.
    pub(crate) fn is_busy(&self, page: u64) -> bool {
        for ticket in &self.tickets {
            if let Some(ticket) = ticket
                && ticket.page == page
            {
                return true;
            }
        }
        false
    }

    // The Replace of a page that is one item in a blob.
    pub(crate) fn blob_of(&self, page: u64) -> Option<Message> {
        let base = self.history.base(page, u64::MAX)?;
        if base.kind != Kind::Replace || self.entries(page) != 1 {
            return None;
        }
        match base.pointer {
            DiskPtr::Blob(_, _) => Some(base),
            DiskPtr::Inline(_) => None,
        }
    }
}
