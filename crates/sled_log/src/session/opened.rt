//! A log that is open, with the tickets of its reservations and the table of its pages.
ghost use Rattle.std.specs.Prelude.{ℕ, true, None, Vec, ◌≡◌, if◌then◌else◌, length};
ghost use Rattle.std.specs.declared.alloc.Global.{Global};
ghost use Rattle.sled_codec.specs.Snapshots.{page_of};
ghost use Rattle.sled_core.specs.Fits.{config_of};
ghost use Rattle.sled_log.specs.Reservations.{blob_shown};
ghost use Rattle.sled_log.specs.declared.session.command.Command.TheVariants as told;
ghost use Rattle.sled_log.specs.Devices.{RefusedIn};
ghost use Rattle.sled_log.specs.Refusals.{is_busy, refused_open};
ghost use Rattle.sled_log.specs.RunStates.{is_present, one_blob, page_now};
ghost use Rattle.sled_log.specs.RunPhases.{IsOpenAt, Unstored, seen};

use crate::session::command::{Command, Refusal};
use crate::session::marking::Due;
use crate::session::tickets::Tickets;
use sled_codec::result::{BlobPointer, DiskPtr, PageId};
use sled_codec::serialization::Checksum;
use sled_codec::serialization::message::BATCH_MANIFEST_PID;
use sled_codec::serialization::snapshot::PageState;
use sled_core::logger::Log;
use sled_store::{Device, RunningConfig};
use std::alloc::Global;

/// A log that is open. A pin is out for each open ticket, and for the mark that is due.
pub(crate) struct Opened<D, C> {
    pub(crate) alloc: Global,
    pub(crate) log: Log<D, C>,
    pub(crate) origin: Origin,
    /// The table of what is completed.
    pub(crate) pages: Vec<PageState>,
    /// Which pages have an open ticket, by number. Pages behind its end have none.
    pub(crate) busy: Vec<bool>,
    /// The number of the open manifest's ticket, in a batch.
    pub(crate) batch: Option<usize>,
    pub(crate) tickets: Tickets,
    /// The mark of the last completed message, where memory for it was refused.
    pub(crate) due: Option<Due>,
}

/// What a log was opened on: how large its segments are, and the cut of the recovery.
#[derive(Clone, Copy)]
pub(crate) struct Origin {
    pub(crate) size: u64,
    pub(crate) floor: u64,
}

/// How many entries a page may have: its Replace, and 254 fragments.
const MOST_ENTRIES: usize = 255;

impl<D: Device, C: Checksum> Opened<D, C> {
    /// Why a command is refused while the log is open, if it is.
    pub(crate) fn refusal(&self, command: &Command) -> Option<Refusal>
        ensures why { (k : Unstored) → IsOpenAt D.trace C.sum_of self.now k
            → result ≡ refused_open k.history (seen self.now k.tickets k.given_up k.heads) command.now }
        ensures alone { RefusedIn true command.now result }
    {
        match command {
            Command::Open => Some(Refusal::Open),
            Command::Replace(page, _) => self.refuse_replace(*page),
            Command::Link(page, _) => self.refuse_link(*page),
            Command::Free(page) => self.refuse_free(*page),
            Command::Rewrite(page) => self.refuse_rewrite(*page),
            Command::BeginBatch => self.refuse_begin(),
            Command::EndBatch => self.refuse_end(),
            Command::Complete(t) => self.refuse_message(*t),
            Command::Abort(t) => self.refuse_ticket(*t),
            Command::Write(i) => self.refuse_index(*i),
            Command::Read(page) => self.refuse_read(*page),
            Command::Flush
            | Command::Stable(_)
            | Command::Halt
            | Command::Stop(_)
            | Command::Crash(_) => None,
        }
    }

    fn refuse_replace(&self, page: PageId) -> Option<Refusal>
        ensures why { (k : Unstored) (item : Vec ℕ Global) → IsOpenAt D.trace C.sum_of self.now k
            → result ≡ refused_open k.history (seen self.now k.tickets k.given_up k.heads) (told.Replace page item) }
    {
        if page > self.pages.len() as u64 {
            return Some(Refusal::Page);
        }
        if self.is_busy(page) {
            return Some(Refusal::Busy);
        }
        None
    }

    fn refuse_link(&self, page: PageId) -> Option<Refusal>
        ensures why { (k : Unstored) (item : Vec ℕ Global) → IsOpenAt D.trace C.sum_of self.now k
            → result ≡ refused_open k.history (seen self.now k.tickets k.given_up k.heads) (told.Link page item) }
    {
        let entries = self.entries_of(page);
        if entries == 0 {
            return Some(Refusal::Page);
        }
        if self.is_busy(page) {
            return Some(Refusal::Busy);
        }
        if entries >= MOST_ENTRIES {
            return Some(Refusal::Fragments);
        }
        None
    }

    fn refuse_free(&self, page: PageId) -> Option<Refusal>
        ensures why { (k : Unstored) → IsOpenAt D.trace C.sum_of self.now k
            → result ≡ refused_open k.history (seen self.now k.tickets k.given_up k.heads) (told.Free page) }
    {
        if self.entries_of(page) == 0 {
            return Some(Refusal::Page);
        }
        if self.is_busy(page) {
            return Some(Refusal::Busy);
        }
        None
    }

    fn refuse_rewrite(&self, page: PageId) -> Option<Refusal>
        ensures why { (k : Unstored) → IsOpenAt D.trace C.sum_of self.now k
            → result ≡ refused_open k.history (seen self.now k.tickets k.given_up k.heads) (told.Rewrite page) }
    {
        if self.blob_of(page).is_none() {
            return Some(Refusal::Page);
        }
        if self.is_busy(page) {
            return Some(Refusal::Busy);
        }
        None
    }

    fn refuse_begin(&self) -> Option<Refusal>
        ensures why { (k : Unstored) → IsOpenAt D.trace C.sum_of self.now k
            → result ≡ refused_open k.history (seen self.now k.tickets k.given_up k.heads) told.BeginBatch }
    {
        if self.batch.is_some() {
            Some(Refusal::Batch)
        } else {
            None
        }
    }

    fn refuse_end(&self) -> Option<Refusal>
        ensures why { (k : Unstored) → IsOpenAt D.trace C.sum_of self.now k
            → result ≡ refused_open k.history (seen self.now k.tickets k.given_up k.heads) told.EndBatch }
    {
        if self.batch.is_some() {
            None
        } else {
            Some(Refusal::Batch)
        }
    }

    /// Refuses a ticket that isn't open, and that of a manifest.
    fn refuse_message(&self, number: usize) -> Option<Refusal>
        ensures why { (k : Unstored) → IsOpenAt D.trace C.sum_of self.now k
            → result ≡ refused_open k.history (seen self.now k.tickets k.given_up k.heads) (told.Complete number) }
    {
        if self.batch == Some(number) {
            return Some(Refusal::Ticket);
        }
        self.refuse_ticket(number)
    }

    fn refuse_ticket(&self, number: usize) -> Option<Refusal>
        ensures why { (k : Unstored) → IsOpenAt D.trace C.sum_of self.now k
            → result ≡ refused_open k.history (seen self.now k.tickets k.given_up k.heads) (told.Abort number) }
    {
        match self.tickets.get(number) {
            Some(_) => None,
            None => Some(Refusal::Ticket),
        }
    }

    fn refuse_index(&self, i: usize) -> Option<Refusal>
        ensures why { (k : Unstored) → IsOpenAt D.trace C.sum_of self.now k
            → result ≡ refused_open k.history (seen self.now k.tickets k.given_up k.heads) (told.Write i) }
    {
        if i < self.log.pending() {
            None
        } else {
            Some(Refusal::Index)
        }
    }

    fn refuse_read(&self, page: PageId) -> Option<Refusal>
        ensures why { (k : Unstored) → IsOpenAt D.trace C.sum_of self.now k
            → result ≡ refused_open k.history (seen self.now k.tickets k.given_up k.heads) (told.Read page) }
    {
        if page < self.pages.len() as u64 {
            None
        } else {
            Some(Refusal::Page)
        }
    }

    /// Whether a page has an open ticket.
    fn is_busy(&self, page: PageId) -> bool
        ensures { (k : Unstored) → IsOpenAt D.trace C.sum_of self.now k → result ≡ is_busy (seen self.now k.tickets k.given_up k.heads) page }
    {
        if page == BATCH_MANIFEST_PID {
            return self.batch.is_some();
        }
        match self.busy.get(page as usize) {
            Some(is_busy) => *is_busy,
            None => false,
        }
    }

    /// How many entries a page has that is present; 0 for any other.
    fn entries_of(&self, page: PageId) -> usize
        ensures { (k : Unstored) → IsOpenAt D.trace C.sum_of self.now k
            → result ≡ (if is_present (page_now k.history page) then length (page_now k.history page) else 0) }
    {
        match self.pages.get(page as usize) {
            Some(PageState::Present { base: _, frags }) => frags.len() + 1,
            Some(PageState::Free(_, _)) | Some(PageState::Uninitialized) | None => 0,
        }
    }

    /// The blob of a page that is one item in it.
    pub(crate) fn blob_of(&self, page: PageId) -> Option<BlobPointer>
        ensures { (k : Unstored) → IsOpenAt D.trace C.sum_of self.now k → result ≡ one_blob (page_now k.history page) }
    {
        match self.pages.get(page as usize) {
            Some(state) => blob_in(state),
            None => None,
        }
    }

    /// Gives all tickets up, the mark that is due, and then the log, and returns what that ran on.
    pub(crate) fn halt(self) -> RunningConfig<D, C>
        ensures { result ≡ config_of self.log }
    {
        let Opened {
            alloc: _,
            log,
            origin: _,
            pages: _,
            busy: _,
            batch: _,
            tickets,
            due,
        } = self;
        tickets.abandon();
        if let Some(due) = due {
            due.abandon();
        }
        log.halt()
    }
}

/// The blob of a page that is one item in it, by what the table has of it.
fn blob_in(state: &PageState) -> Option<BlobPointer>
    ensures { result ≡ blob_shown (page_of state.now) }
{
    let PageState::Present { base, frags } = state else {
        return None;
    };
    match base.1 {
        DiskPtr::Blob(_, blob) if frags.is_empty() => Some(blob),
        _ => None,
    }
}
