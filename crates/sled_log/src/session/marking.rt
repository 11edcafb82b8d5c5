//! Marking what is completed, so that segments come free (`specs/SessionMarks.antt`, `specs/Marking.antt`).
ghost use Rattle.std.specs.Prelude.{Bool, ◌≡◌, ◌≢◌, ◌<◌, ◌-◌, ◌∷◌, ℕ, List, [], map, Some, IfOk, IsOkUnless};
ghost use Rattle.std.specs.Option.{option_copied};
ghost use Rattle.sled_codec.specs.History.{History, Message};
ghost use Rattle.sled_store.specs.Marks.{told_of};
ghost use Rattle.sled_core.specs.Fits.{config_of, fault_of, pins_of};
ghost use Rattle.sled_core.specs.Keeps.{GoesOn};
ghost use Rattle.sled_core.specs.Marking.{ChangesAccount};
ghost use Rattle.sled_core.specs.invariants.Running.{Fits};
ghost use Rattle.sled_log.specs.Made.{IsMade};
ghost use Rattle.sled_log.specs.Marking.{HasMarked, KeepsBeside, MakesDue, MakesMark, Settles};
ghost use Rattle.sled_log.specs.RunPhases.{IsOpenAt, IsUnmarked, RunsOn, Unstored, view_by};
ghost use Rattle.sled_log.specs.SessionMarks.{free_length, replacing, told_state};

use crate::session::opened::{Opened, Origin};
use sled_codec::result::{Error, PageId, Result};
use sled_codec::serialization::snapshot::{Entry, PageState};
use sled_codec::serialization::{Checksum, LogKind, Serialize};
use sled_core::logger::Log;
use sled_core::reservation::Guard;
use sled_store::Device;
use sled_store::segment::accountant::CacheInfo;
use std::alloc::Global;

/// A mark of a completed message, in place of all that its page was, with the pin of its ticket.
pub(crate) struct Due {
    pub(crate) kind: LogKind,
    pub(crate) page: PageId,
    /// All that the page was; nothing for a Link, which is there beside that.
    pub(crate) old: Vec<CacheInfo>,
    pub(crate) new: CacheInfo,
    pub(crate) guard: Guard,
}

impl Due {
    /// Returns the mark of a message that stands in the table as this entry.
    pub(crate) fn for_entry(
        kind: LogKind,
        page: PageId,
        old: Vec<CacheInfo>,
        entry: Entry,
        guard: Guard,
    ) -> Due
        ensures { result ≡ record { kind = kind; page = page; old = old; new = told_of entry; guard = guard } }
    {
        let new = told(&entry);
        Due {
            kind,
            page,
            old,
            new,
            guard,
        }
    }

    /// Gives the mark up, with its pin.
    pub(crate) fn abandon(self) {
        let Due {
            kind: _,
            page: _,
            old: _,
            new: _,
            guard,
        } = self;
        guard.abandon();
    }
}

/// How long a recovered Free counts: a snapshot has no length of it.
const RECOVERED_FREE_LEN: u64 = 32;

/// Returns what a message of this kind takes the place of: all that its page is, as the log is told of that; nothing for a
/// Link.
///
/// # Errors
///
/// `OutOfMemory`.
pub(crate) fn replaced_by(
    alloc: Global,
    kind: LogKind,
    page: PageId,
    state: Option<&PageState>,
    origin: Origin,
) -> Result<Vec<CacheInfo>>
    ensures list { IfOk result (λ old. old.items ≡ replacing kind (told_state origin.size origin.floor page (option_copied state.entry))) }
    ensures err { IsOkUnless result Error.OutOfMemory }
{
    if kind == LogKind::Link {
        return Ok(Vec::new(alloc));
    }
    match state {
        Some(PageState::Present { base, frags }) => all_of(alloc, base, frags),
        Some(PageState::Free(place, pointer)) => {
            let log_size = free_len(origin, page, place.unsigned_abs());
            let mut old = Vec::new(alloc);
            old.push(CacheInfo {
                lsn: *place,
                pointer: *pointer,
                log_size,
            })?;
            Ok(old)
        }
        Some(PageState::Uninitialized) | None => Ok(Vec::new(alloc)),
    }
}

/// What the log is told of a page that is present: its Replace, and the Links on that.
fn all_of(alloc: Global, base: &Entry, frags: &[Entry]) -> Result<Vec<CacheInfo>>
    ensures list { IfOk result (λ old. old.items ≡ told_of base.now ∷ map told_of frags.now) }
    ensures err { IsOkUnless result Error.OutOfMemory }
{
    let mut old = Vec::with_capacity(alloc, frags.len() + 1)?;
    old.push_reserved(told(base));
    for frag in frags {
        old.push_reserved(told(frag));
    }
    Ok(old)
}

/// What the log is told of an entry of the table.
fn told(entry: &Entry) -> CacheInfo
    ensures { result ≡ told_of entry.now }
{
    CacheInfo {
        lsn: entry.0,
        pointer: entry.1,
        log_size: entry.2,
    }
}

/// How long the record of a page's Free at a place is: it is a header alone.
fn free_len(origin: Origin, page: PageId, place: u64) -> u64
    ensures { result ≡ free_length origin.size origin.floor page place }
{
    if place < origin.floor {
        return RECOVERED_FREE_LEN;
    }
    let number = place.checked_div(origin.size).unwrap_or(0);
    6 + number.serialized_size() + page.serialized_size()
}

/// Makes a mark, and gives its pin back. Where memory for it is refused it comes back, and nothing was done.
fn mark<D: Device, C: Checksum>(log: &mut Log<D, C>, due: Due) -> Option<Due>
    ensures marks { (H : History) (A f : ℕ) (m : Message) → Fits D.trace C.sum_of log.old H A f (m ∷ []) → IsUnmarked log.old H due m → IsMade H
        → HasMarked D.trace C.sum_of log.old due result log.new H A f m }
    ensures beside { KeepsBeside log.old log.new }
    ensures goes_on { GoesOn D.trace C.sum_of log.old log.new }
{
    if make(log, &due).is_err() {
        return Some(due);
    }
    let Due {
        kind: _,
        page: _,
        old: _,
        new: _,
        guard,
    } = due;
    unpin(log, guard);
    None
}

/// Makes a mark. One that can't be made is left out; there is none of a message of a history that the log fits.
fn make<D: Device, C: Checksum>(log: &mut Log<D, C>, due: &Due) -> Result<()>
    ensures makes { (H : History) (A f : ℕ) (m : Message) → Fits D.trace C.sum_of log.old H A f (m ∷ []) → IsUnmarked log.old H due.now m → IsMade H
        → MakesMark D.trace C.sum_of log.old due.now result log.new H A f m }
    ensures rest { ChangesAccount log.old log.new }
    ensures goes_on { GoesOn D.trace C.sum_of log.old log.new }
{
    if !log.can_mark(due.new, &due.old) {
        return Ok(());
    }
    if due.kind == LogKind::Link {
        return log.mark_link(due.page, due.new);
    }
    log.mark_replace(due.page, due.new.lsn, &due.old, due.new)
}

/// Makes the mark that is due, if one is.
///
/// # Errors
///
/// `OutOfMemory`: it stays due, and nothing was done.
pub(crate) fn make_due<D: Device, C: Checksum>(opened: &mut Opened<D, C>) -> Result<()>
    ensures makes { (stopped : D → Bool) → (k : Unstored) → IsOpenAt D.trace C.sum_of opened.old k
        → MakesDue (view_by D.trace D.faults stopped) C.sum_of opened.old result opened.new k }
    ensures err { IsOkUnless result Error.OutOfMemory }
    ensures same { config_of opened.new.log ≡ config_of opened.old.log }
    ensures on { RunsOn D.trace (config_of opened.old.log) (config_of opened.new.log) }
{
    let Some(due) = opened.due.take() else {
        return Ok(());
    };
    if settle(opened, due) {
        return Ok(());
    }
    Err(Error::OutOfMemory)
}

/// Makes a mark, and gives its pin back; or keeps it, where memory for it is refused. Returns whether it was made.
pub(crate) fn settle<D: Device, C: Checksum>(opened: &mut Opened<D, C>, due: Due) -> bool
    ensures settles { (H : History) (A f : ℕ) (m : Message) → Fits D.trace C.sum_of opened.old.log H A f (m ∷ []) → IsUnmarked opened.old.log H due m → IsMade H
        → Settles D.trace C.sum_of opened.old due result opened.new H A f m }
    ensures rest { opened.new ≡ record opened.old { log = opened.new.log; due = opened.new.due } }
    ensures beside { KeepsBeside opened.old.log opened.new.log }
    ensures goes_on { GoesOn D.trace C.sum_of opened.old.log opened.new.log }
{
    match mark(&mut opened.log, due) {
        Some(due) => {
            postpone(opened, due);
            false
        }
        None => true,
    }
}

/// Keeps a mark that is due. There is one at most: another one would be given up.
fn postpone<D: Device, C: Checksum>(opened: &mut Opened<D, C>, due: Due)
    ensures { opened.new ≡ record opened.old { due = Some due } }
{
    if let Some(other) = opened.due.replace(due) {
        other.abandon();
    }
}

/// Gives the pin of a ticket back. It is out, so the log has one.
pub(crate) fn unpin<D: Device, C: Checksum>(log: &mut Log<D, C>, guard: Guard)
    ensures given { log.new ≡ record log.old { pins = pins_of log.old - 1 } }
    ensures fits { (H : History) (A f : ℕ) (U : List Message) → Fits D.trace C.sum_of log.old H A f U → (U ≢ [] → 1 < pins_of log.old)
        → Fits D.trace C.sum_of log.new H A f U }
    ensures goes_on { GoesOn D.trace C.sum_of log.old log.new }
{
    if log.pins() > 0 {
        log.unpin(guard);
    } else {
        guard.abandon();
    }
}
