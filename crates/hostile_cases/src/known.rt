//! What the guarantee says of a session's replies: which messages are completed, what of them was acknowledged, and so what an opening
//! may answer. It knows nothing of the log but its replies.
//!
//! Numbers of segments and of pages, and lengths of items, are below 241 here, so each takes one byte of a record (`docs/FORMATS.md`).

use case_lines::lines::Outcome;
use sled_log::logger::{DiskPtr, Lsn, PageId};
use sled_log::serialization::snapshot::{Entry, PageState};
use sled_log::session::{Command, Reply};
use std::alloc::Global;
use std::collections::BTreeMap;

// What a message does to its page.
#[derive(Debug, Clone, Copy, PartialEq)]
enum Does {
    Replace,
    Link,
    Free,
}

// A message: where its record lies and ends, and the encoding of its item.
#[derive(Drop)]
struct Message {
    does: Does,
    page: PageId,
    pointer: DiskPtr,
    end: Lsn,
    item: Vec<u8>,
}

// What a ticket was given for.
#[derive(Drop)]
enum Ticket {
    Message(Message),
    Manifest,
}

/// What is known of a session.
#[derive(Drop)]
pub(crate) struct Known {
    alloc: Global,
    // By place.
    completed: BTreeMap<Lsn, Message>,
    // By the place of the manifest, the peg.
    batches: BTreeMap<Lsn, Lsn>,
    // By number, with the place.
    tickets: BTreeMap<usize, (Lsn, Ticket)>,
    // The place up to which places are reserved.
    reserved: Lsn,
    // The greatest end of a message that was acknowledged.
    acknowledged: Lsn,
    // The last opening's cut.
    cut: Lsn,
    // The page of a message of which it isn't known whether it is completed.
    unsure: Option<PageId>,
}

impl Known {
    /// Nothing was done yet.
    pub(crate) fn new(alloc: Global) -> Known {
        Known {
            alloc,
            completed: BTreeMap::new(alloc),
            batches: BTreeMap::new(alloc),
            tickets: BTreeMap::new(alloc),
            reserved: 0,
            acknowledged: 0,
            cut: 0,
            unsure: None,
        }
    }

    /// Notes what was replied to a command. Returns why the reply isn't one that the guarantee allows, where it is none.
    ///
    /// # Errors
    ///
    /// Out of memory.
    pub(crate) fn note(
        &mut self,
        command: &Command,
        reply: &Reply,
    ) -> Outcome<Option<&'static str>> {
        match (command, reply) {
            (_, Reply::Reserved(ticket, place, pointer)) => {
                self.reserve(command, *ticket, *place, *pointer)?;
            }
            (Command::Complete(ticket), Reply::Done(_, _)) => self.complete(*ticket, true)?,
            (Command::Complete(ticket), Reply::Failed(_) | Reply::Stopped) => {
                self.complete(*ticket, false)?;
            }
            (Command::Abort(ticket), Reply::Done(_, _) | Reply::Failed(_) | Reply::Stopped) => {
                let _ = self.tickets.remove(ticket);
            }
            (Command::EndBatch, Reply::Done(place, _)) => {
                let _ = self.batches.insert(*place, self.reserved)?;
                self.drop_manifest();
            }
            (Command::EndBatch, Reply::Failed(_)) => self.drop_manifest(),
            (Command::Flush, Reply::Flushed(_)) => self.acknowledge(Lsn::MAX),
            (Command::Stable(place), Reply::Flushed(_)) => self.acknowledge(*place),
            (Command::Halt, Reply::Halted) | (Command::Crash(_), Reply::Crashed(_)) => {
                self.tickets.clear();
            }
            (
                Command::Open,
                Reply::Opened {
                    stable,
                    active: _,
                    pages,
                },
            ) => {
                return self.open(stable.unwrap_or(0), *pages);
            }
            _ => {}
        }
        Ok(None)
    }

    // A place is reserved.
    fn reserve(
        &mut self,
        command: &Command,
        number: usize,
        place: Lsn,
        pointer: DiskPtr,
    ) -> Outcome<()> {
        let (does, page, item) = match command {
            Command::Replace(page, item) => (Does::Replace, *page, self.encoded(item)?),
            Command::Link(page, item) => (Does::Link, *page, self.encoded(item)?),
            Command::Free(page) => (Does::Free, *page, Vec::new(self.alloc)),
            _ => {
                self.reserved = place.saturating_add(24);
                let _ = self.tickets.insert(number, (place, Ticket::Manifest))?;
                return Ok(());
            }
        };
        let body = match pointer {
            DiskPtr::Inline(_) => i64::try_from(item.len()).unwrap_or(0),
            DiskPtr::Blob(_, _) => 8,
        };
        let end = place.saturating_add(8).saturating_add(body);
        self.reserved = end;
        let message = Message {
            does,
            page,
            pointer,
            end,
            item,
        };
        let _ = self
            .tickets
            .insert(number, (place, Ticket::Message(message)))?;
        Ok(())
    }

    // The encoding of an item: its length, and its bytes.
    fn encoded(&self, item: &[u8]) -> Outcome<Vec<u8>> {
        let mut encoded = Vec::new(self.alloc);
        encoded.push((item.len() % 256) as u8)?;
        encoded.extend_from_slice(item)?;
        Ok(encoded)
    }

    // The message of a ticket is completed. Where the reply tells a failure, it may be or not; nothing of it is on the device then.
    fn complete(&mut self, number: usize, is_sure: bool) -> Outcome<()> {
        if let Some((place, Ticket::Message(message))) = self.tickets.remove(&number) {
            if !is_sure {
                self.unsure = Some(message.page);
            }
            let _ = self.completed.insert(place, message)?;
        }
        Ok(())
    }

    // The manifest's ticket is spent.
    fn drop_manifest(&mut self) {
        let mut manifest = None;
        for (number, (_, ticket)) in &self.tickets {
            if matches!(ticket, Ticket::Manifest) {
                manifest = Some(*number);
            }
        }
        if let Some(number) = manifest {
            let _ = self.tickets.remove(&number);
        }
    }

    // All messages that are completed up to a place are acknowledged.
    fn acknowledge(&mut self, up_to: Lsn) {
        for (place, message) in &self.completed {
            if *place <= up_to {
                self.acknowledged = self.acknowledged.max(message.end);
            }
        }
    }

    // An opening answers this cut and so many pages. What lies behind the cut is forgotten.
    fn open(&mut self, cut: Lsn, pages: usize) -> Outcome<Option<&'static str>> {
        let why = self.unfit(cut);
        self.forget(cut);
        if why.is_none() && self.pages() != pages as u64 {
            return Ok(Some("another number of pages"));
        }
        Ok(why)
    }

    // Why an opening may not answer this cut, if it may not.
    fn unfit(&self, cut: Lsn) -> Option<&'static str> {
        if cut < self.cut {
            return Some("the cut is below an earlier one");
        }
        if cut < self.acknowledged {
            return Some("an acknowledged message is lost");
        }
        for (low, peg) in &self.batches {
            if *low < cut && *peg > cut {
                return Some("a batch is split");
            }
        }
        for (place, message) in &self.completed {
            if *place < cut && message.end > cut {
                return Some("a message is split");
            }
        }
        None
    }

    // Forgets what lies behind a cut.
    fn forget(&mut self, cut: Lsn) {
        self.cut = cut;
        self.reserved = cut;
        self.unsure = None;
        self.tickets.clear();
        for _ in 0..self.completed.len() {
            if let Some((place, _)) = self.completed.last_key_value()
                && *place >= cut
            {
                let _ = self.completed.pop_last();
            }
        }
        for _ in 0..self.batches.len() {
            if let Some((low, _)) = self.batches.last_key_value()
                && *low >= cut
            {
                let _ = self.batches.pop_last();
            }
        }
    }

    /// Returns how many pages are begun: those up to the greatest one that a message replaces.
    pub(crate) fn pages(&self) -> u64 {
        let mut pages = 0u64;
        for message in self.completed.values() {
            if message.does == Does::Replace {
                pages = pages.max(message.page.saturating_add(1));
            }
        }
        pages
    }

    /// Whether the page's table entry and what is read of it are what the messages say.
    ///
    /// # Errors
    ///
    /// Out of memory.
    pub(crate) fn is_page(&self, page: PageId, shown: &PageState, read: &Reply) -> Outcome<bool> {
        let mut places: Vec<Lsn> = Vec::new(self.alloc);
        let mut freed = None;
        for (place, message) in &self.completed {
            if message.page != page {
                continue;
            }
            if message.does != Does::Link {
                places.clear();
            }
            match message.does {
                Does::Free => freed = Some((*place, message.pointer)),
                Does::Replace | Does::Link => {
                    freed = None;
                    places.push(*place)?;
                }
            }
        }
        Ok(match (freed, shown, read) {
            (Some((place, at)), PageState::Free(shown, pointer), Reply::FreePage) => {
                place == *shown && at == *pointer
            }
            (None, PageState::Present { base, frags }, Reply::Page(items)) => {
                self.are_entries(&places, base, frags, items)
            }
            _ => false,
        })
    }

    // Whether these are the entries of the messages at these places, and their items.
    fn are_entries(
        &self,
        places: &[Lsn],
        base: &Entry,
        frags: &[Entry],
        items: &[Vec<u8>],
    ) -> bool {
        let [first, others @ ..] = places else {
            return false;
        };
        let [item, more @ ..] = items else {
            return false;
        };
        let mut is_so = frags.len() == others.len() && more.len() == others.len();
        is_so &= self.is_entry(*first, base, item);
        for ((place, entry), item) in others.iter().zip(frags).zip(more) {
            is_so &= self.is_entry(*place, entry, item);
        }
        is_so
    }

    // Whether this is the entry of the message at a place, and its item.
    fn is_entry(&self, place: Lsn, entry: &Entry, item: &[u8]) -> bool {
        let Some(message) = self.completed.get(&place) else {
            return false;
        };
        let (shown, pointer, size) = entry;
        let size = i64::try_from(*size).unwrap_or(0);
        *shown == place
            && *pointer == message.pointer
            && place.saturating_add(size) == message.end
            && message.item.as_slice() == item
    }

    /// Whether a log that keeps a failure of its device has to tell it in the reply: the command isn't one that is refused, and
    /// calls the log.
    pub(crate) fn must_fail(&self, command: &Command) -> bool {
        match command {
            Command::Read(page) => self.is_there(*page),
            Command::Replace(page, _) | Command::Link(page, _) | Command::Free(page) => {
                self.is_there(*page) && !self.is_busy(*page)
            }
            Command::Flush | Command::Stable(_) => true,
            Command::Complete(ticket) => match self.tickets.get(ticket) {
                Some((_, ticket)) => matches!(ticket, Ticket::Message(_)),
                None => false,
            },
            Command::Abort(ticket) => self.tickets.contains_key(ticket),
            Command::BeginBatch => !self.is_in_batch(),
            Command::EndBatch => self.is_in_batch(),
            _ => false,
        }
    }

    // Whether a page is begun, and wasn't given back.
    fn is_there(&self, page: PageId) -> bool {
        let mut is_so = false;
        for message in self.completed.values() {
            if message.page == page {
                is_so = message.does != Does::Free;
            }
        }
        is_so && self.unsure != Some(page)
    }

    // Whether a page has an open ticket.
    fn is_busy(&self, page: PageId) -> bool {
        let mut is_so = false;
        for (_, ticket) in self.tickets.values() {
            is_so |= match ticket {
                Ticket::Message(message) => message.page == page,
                Ticket::Manifest => false,
            };
        }
        is_so
    }

    // Whether a manifest is open.
    fn is_in_batch(&self) -> bool {
        let mut is_so = false;
        for (_, ticket) in self.tickets.values() {
            is_so |= matches!(ticket, Ticket::Manifest);
        }
        is_so
    }
}
