//! Completing messages, giving them up, and ending batches.
ghost use Rattle.std.specs.Prelude.{Bool, ◌≡◌, None, IfOk, IsOkUnless, OnErr, OnOk};
ghost use Rattle.sled_core.specs.Fits.{config_of, fault_of};
ghost use Rattle.sled_log.specs.declared.session.command.Command.TheVariants as told;
ghost use Rattle.sled_log.specs.Endings.{HasRoomFor, IsFormerFor, KeepsPages, TakesTicket, batch_left};
ghost use Rattle.sled_log.specs.LogActs.{ActsOver};
ghost use Rattle.sled_log.specs.RunPhases.{CarriesHere, RunsOn, view_by};

use crate::session::Phase;
use crate::session::command::{Refusal, Reply};
use crate::session::known::{apply, room_to_apply};
use crate::session::marking::{Due, replaced_by, settle, unpin};
use crate::session::opened::Opened;
use crate::session::tickets::Ticket;
use sled_codec::result::{Error, PageId, Result};
use sled_codec::serialization::Checksum;
use sled_codec::serialization::message::BATCH_MANIFEST_PID;
use sled_store::Device;
use sled_store::segment::accountant::CacheInfo;

/// Completes the message of a ticket, marks it, and gives the pin back. The room for its entry in the table is made
/// first, and the list of what it takes the place of. Where memory for the mark is refused, that is due.
pub(crate) fn complete<D: Device, C: Checksum>(opened: &mut Opened<D, C>, number: usize) -> Reply
    ensures step { (stopped : D → Bool) → opened.old.due ≡ None → CarriesHere (view_by D.trace D.faults stopped) C.sum_of
        (Phase.Open opened.old) (told.Complete number) (Phase.Open opened.new, result) }
    ensures device { (stopped : D → Bool) → ActsOver (view_by D.trace D.faults stopped) C.sum_of opened.old.log (told.Complete number) result opened.new.log }
    ensures on { RunsOn D.trace (config_of opened.old.log) (config_of opened.new.log) }
{
    if room_for(opened, number).is_err() {
        return Reply::Failed(Error::OutOfMemory);
    }
    let Ok(old) = former_for(opened, number) else {
        return Reply::Failed(Error::OutOfMemory);
    };
    let Some(
        Ticket {
            kind,
            page,
            reservation,
            guard,
        },
    ) = take_open(opened, number)
    else {
        return Reply::Refused(Refusal::Ticket);
    };
    if reservation.is_manifest() {
        reservation.abandon();
        guard.abandon();
        return Reply::Refused(Refusal::Ticket);
    }
    let size = reservation.reservation_len() as u64;
    match opened.log.complete(reservation) {
        Ok((place, pointer)) => {
            let entry = (place, pointer, size);
            apply(opened.alloc, &mut opened.pages, kind, page, entry);
            let due = Due::for_entry(kind, page, old, entry, guard);
            settle(opened, due);
            Reply::Done(place, pointer)
        }
        Err(e) => {
            unpin(&mut opened.log, guard);
            Reply::Failed(e)
        }
    }
}

/// Returns what a ticket's message takes the place of, unless the log keeps a failure.
fn former_for<D: Device, C: Checksum>(
    opened: &Opened<D, C>,
    number: usize,
) -> Result<Vec<CacheInfo>>
    ensures former { IfOk result (λ old. fault_of opened.now.log ≡ None → IsFormerFor opened.now number old.items) }
    ensures err { IsOkUnless result Error.OutOfMemory }
    ensures whole { OnErr result (fault_of opened.now.log ≡ None) }
{
    if opened.log.failure().is_some() {
        return Ok(Vec::new(opened.alloc));
    }
    match opened.tickets.get(number) {
        Some(ticket) => {
            let state = opened.pages.get(ticket.page as usize);
            replaced_by(opened.alloc, ticket.kind, ticket.page, state, opened.origin)
        }
        None => Ok(Vec::new(opened.alloc)),
    }
}

/// Makes room for the entry of a ticket's message in the table, unless the log keeps a failure.
fn room_for<D: Device, C: Checksum>(opened: &mut Opened<D, C>, number: usize) -> Result<()>
    ensures kept { KeepsPages opened.old opened.new }
    ensures room { OnOk result (fault_of opened.old.log ≡ None → HasRoomFor opened.new number) }
    ensures whole { OnErr result (fault_of opened.old.log ≡ None) }
{
    if opened.log.failure().is_some() {
        return Ok(());
    }
    match opened.tickets.get(number) {
        Some(ticket) => room_to_apply(&mut opened.pages, ticket.kind, ticket.page),
        None => Ok(()),
    }
}

/// Gives the message of a ticket up.
pub(crate) fn abort<D: Device, C: Checksum>(opened: &mut Opened<D, C>, number: usize) -> Reply
    ensures step { (stopped : D → Bool) → opened.old.due ≡ None → CarriesHere (view_by D.trace D.faults stopped) C.sum_of
        (Phase.Open opened.old) (told.Abort number) (Phase.Open opened.new, result) }
    ensures device { (stopped : D → Bool) → ActsOver (view_by D.trace D.faults stopped) C.sum_of opened.old.log (told.Abort number) result opened.new.log }
    ensures on { RunsOn D.trace (config_of opened.old.log) (config_of opened.new.log) }
{
    let Some(
        Ticket {
            kind: _,
            page: _,
            reservation,
            guard,
        },
    ) = take_open(opened, number)
    else {
        return Reply::Refused(Refusal::Ticket);
    };
    let aborted = opened.log.abort(reservation);
    unpin(&mut opened.log, guard);
    match aborted {
        Ok((place, pointer)) => Reply::Done(place, pointer),
        Err(e) => Reply::Failed(e),
    }
}

/// Ends the batch that is begun with the greatest place that was reserved.
pub(crate) fn end<D: Device, C: Checksum>(opened: &mut Opened<D, C>) -> Reply
    ensures step { (stopped : D → Bool) → opened.old.due ≡ None → CarriesHere (view_by D.trace D.faults stopped) C.sum_of
        (Phase.Open opened.old) told.EndBatch (Phase.Open opened.new, result) }
    ensures device { (stopped : D → Bool) → ActsOver (view_by D.trace D.faults stopped) C.sum_of opened.old.log told.EndBatch result opened.new.log }
    ensures on { RunsOn D.trace (config_of opened.old.log) (config_of opened.new.log) }
{
    let Some(number) = opened.batch else {
        return Reply::Refused(Refusal::Batch);
    };
    let Some(
        Ticket {
            kind: _,
            page: _,
            reservation,
            guard,
        },
    ) = take_open(opened, number)
    else {
        return Reply::Refused(Refusal::Batch);
    };
    let peg = opened.log.reserved_offset();
    if !(reservation.is_manifest() && opened.log.may_end_at(&reservation, peg)) {
        reservation.abandon();
        guard.abandon();
        return Reply::Refused(Refusal::Batch);
    }
    let ended = opened.log.mark_writebatch(reservation, peg);
    unpin(&mut opened.log, guard);
    match ended {
        Ok((low, pointer)) => Reply::Done(low, pointer),
        Err(e) => Reply::Failed(e),
    }
}

/// Takes the ticket of this number, where its reservation is open. Its page has no open ticket then; where that is the page
/// of manifests, no batch is begun.
fn take_open<D: Device, C: Checksum>(opened: &mut Opened<D, C>, number: usize) -> Option<Ticket>
    ensures { TakesTicket opened.old number opened.new result }
{
    let ticket = opened.tickets.take(number)?;
    if !opened.log.is_open(&ticket.reservation) {
        ticket.abandon();
        return None;
    }
    opened.batch = batch_left(ticket.page, opened.batch);
    if let Some(is_busy) = opened.busy.get_mut(ticket.page as usize) {
        *is_busy = false;
    }
    Some(ticket)
}

/// The number of the open manifest's ticket, once a ticket of this page is taken.
fn batch_left(page: PageId, batch: Option<usize>) -> Option<usize>
    ensures { result ≡ batch_left page batch }
{
    if page == BATCH_MANIFEST_PID {
        None
    } else {
        batch
    }
}
