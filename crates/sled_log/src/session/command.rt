//! What a session is told, and what it answers.

use sled_codec::result::{DiskPtr, Error, LogOffset, Lsn, PageId};
use sled_store::Choice;

/// What a session is told to do. Tickets are counted from 0 on in each log that is opened.
#[derive(Drop)]
pub enum Command {
    /// Recovers what the device has, and opens a log on it, where none is open.
    Open,
    /// Keeps a place for a message that replaces a page by these bytes. Pages are begun in order: the page is one that is
    /// begun, or the next one.
    Replace(PageId, Vec<u8>),
    /// Keeps a place for a message that puts a fragment of these bytes on a page that is present.
    Link(PageId, Vec<u8>),
    /// Keeps a place for a message that gives a page back that is present.
    Free(PageId),
    /// Keeps a place for a message that replaces a page by what it is, where it is one item in a blob: the item stays there.
    Rewrite(PageId),
    /// Begins a batch: keeps a place for its manifest. What is reserved from then on, up to its end, is of the batch.
    BeginBatch,
    /// Ends the batch with the greatest place that was reserved.
    EndBatch,
    /// Completes the message of a ticket.
    Complete(usize),
    /// Gives the message of a ticket up. That of a manifest ends its batch, which is none then.
    Abort(usize),
    /// Writes one of the sealed buffers that can be written, counted by place, and syncs it.
    Write(usize),
    /// Writes all that was reserved, and syncs it.
    Flush,
    /// Makes the message at a place durable, and all before it.
    Stable(Lsn),
    /// Reads what a page is.
    Read(PageId),
    /// Closes the log that is open. What isn't durable is lost.
    Halt,
    /// Has the device stop within a call, after so many more calls that change or sync.
    Stop(u64),
    /// Closes the log, if one is open, and has the device crash and leave this, where it may, and else what was
    /// durable.
    Crash(Choice),
}

/// What came of a command.
#[derive(Drop)]
pub enum Reply {
    /// A log is open on what was recovered.
    Opened {
        /// The place at which the log goes on, if it was ever begun.
        stable: Option<Lsn>,
        /// The slot of the segment in which it goes on, if that was begun.
        active: Option<LogOffset>,
        /// How many pages are begun.
        pages: usize,
    },
    /// A place is kept for a message: the number of its ticket, its place, and where it lies on the disk.
    Reserved(usize, Lsn, DiskPtr),
    /// The message of a ticket was completed or given up, or a batch was ended: the place of the message, or of the batch's
    /// manifest, and where that lies.
    Done(Lsn, DiskPtr),
    /// The buffer was written.
    Written,
    /// The stable end grew by so many bytes.
    Flushed(usize),
    /// What a page is: the encodings of its items, that of its Replace first.
    Page(Vec<Vec<u8>>),
    /// The page was given back.
    FreePage,
    /// The log is closed.
    Halted,
    /// The device will stop.
    Armed,
    /// The device crashed. It left what was chosen (`true`), or what was durable.
    Crashed(bool),
    /// The command failed with this error.
    Failed(Error),
    /// The device stopped within the command.
    Stopped,
    /// Nothing was done.
    Refused(Refusal),
}

/// Why nothing was done. Where several of these hold, the first one is told.
#[derive(Debug, Clone, Copy, PartialEq, Eq)]
pub enum Refusal {
    /// The device is stopped, and the command is no `Crash`.
    Stopped,
    /// A log is open already.
    Open,
    /// No log is open.
    Closed,
    /// A `Replace` of a page above the next one, a `Read` of a page that isn't begun, a `Link` or `Free` of one that isn't
    /// present, or a `Rewrite` of one that isn't a single item in a blob.
    Page,
    /// The page has an open ticket, and the command is no `Read`.
    Busy,
    /// The page has 254 fragments.
    Fragments,
    /// A `BeginBatch` in a batch, or an `EndBatch` outside one.
    Batch,
    /// No such ticket is open, or the command is a `Complete`, and it is that of a manifest.
    Ticket,
    /// There are no more buffers that can be written.
    Index,
}
