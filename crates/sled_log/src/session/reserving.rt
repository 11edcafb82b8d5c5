//! Keeping places for messages, and beginning batches.
ghost use Rattle.std.specs.Prelude.{Bool, [], ◌≡◌, ◌≢◌, ◌<◌, ◌-◌, ◌^◌, length, None, OnOk};
ghost use Rattle.sled_codec.specs.History.{ChangesPage};
ghost use Rattle.sled_codec.specs.declared.serialization.message.LogKind.TheVariants.{Free, Skip};
ghost use Rattle.sled_core.specs.Manifests.{manifest_page};
ghost use Rattle.sled_log.specs.declared.session.command.Command.TheVariants as told;
ghost use Rattle.sled_log.specs.LogActs.{ActsOver, KeepsPlaceOver};
ghost use Rattle.sled_log.specs.OpenTickets.{HasRoom};
ghost use Rattle.sled_log.specs.Reservations.{GivesBack, HoldsTicket, MakesRoom, Reserves};
ghost use Rattle.sled_log.specs.RunPhases.{CarriesHere, RunsOn, view_by};
ghost use Rattle.sled_core.specs.Causes.{FaultOrMemory};
ghost use Rattle.sled_core.specs.Fits.{config_of, fault_of, pins_of};

use crate::session::Phase;
use crate::session::command::{Refusal, Reply};
use crate::session::marking::unpin;
use crate::session::opened::Opened;
use crate::session::tickets::Ticket;
use sled_codec::result::{Error, PageId, Result};
use sled_codec::serialization::message::BATCH_MANIFEST_PID;
use sled_codec::serialization::{BatchManifest, Checksum, LogKind, Serialize};
use sled_core::reservation::{Guard, Reservation};
use sled_store::Device;

/// How many tickets may be open: each has a pin.
const MOST_PINS: u64 = 4_294_967_295;

/// Keeps a place for a message of a page, with a pin, and numbers its ticket. The room for both is made first.
pub(crate) fn reserve<D: Device, C: Checksum, T: Serialize>(
    opened: &mut Opened<D, C>,
    kind: LogKind,
    page: PageId,
    item: &T,
) -> Reply
    requires fits { T.fits (T.meaning item.now) }
    requires kind { ChangesPage kind }
    requires plain { kind ≡ Free → T.short (T.meaning item.now) ≡ [] }
    ensures step { (stopped : D → Bool) → opened.old.due ≡ None → Reserves (view_by D.trace D.faults stopped) C.sum_of
        opened.old kind page (T.short (T.meaning item.now)) opened.new result }
    ensures device { (stopped : D → Bool) → KeepsPlaceOver (view_by D.trace D.faults stopped) C.sum_of
        opened.old.log kind page (T.short (T.meaning item.now)) result opened.new.log }
    ensures on { RunsOn D.trace (config_of opened.old.log) (config_of opened.new.log) }
{
    if let Err(e) = room_for(opened, page) {
        return Reply::Failed(e);
    }
    let guard = opened.log.pin();
    match opened.log.reserve(kind, page, item, &guard) {
        Ok(reservation) => hold(opened, kind, page, reservation, guard),
        Err(e) => give_back(opened, guard, e),
    }
}

/// Keeps a place for a Replace of a page that is one item in a blob, which stays there, and numbers its ticket. The room for it
/// is made first.
pub(crate) fn rewrite<D: Device, C: Checksum>(opened: &mut Opened<D, C>, page: PageId) -> Reply
    ensures step { (stopped : D → Bool) → opened.old.due ≡ None → CarriesHere (view_by D.trace D.faults stopped) C.sum_of
        (Phase.Open opened.old) (told.Rewrite page) (Phase.Open opened.new, result) }
    ensures device { (stopped : D → Bool) → ActsOver (view_by D.trace D.faults stopped) C.sum_of opened.old.log (told.Rewrite page) result opened.new.log }
    ensures on { RunsOn D.trace (config_of opened.old.log) (config_of opened.new.log) }
{
    let Some(blob) = opened.blob_of(page) else {
        return Reply::Refused(Refusal::Page);
    };
    if let Err(e) = room_for(opened, page) {
        return Reply::Failed(e);
    }
    let guard = opened.log.pin();
    match opened.log.rewrite_blob_pointer(page, blob, &guard) {
        Ok(reservation) => hold(opened, LogKind::Replace, page, reservation, guard),
        Err(e) => give_back(opened, guard, e),
    }
}

/// Begins a batch: keeps a place for its manifest, and numbers the ticket of that. The room for it is made first.
pub(crate) fn begin<D: Device, C: Checksum>(opened: &mut Opened<D, C>) -> Reply
    ensures step { (stopped : D → Bool) → opened.old.due ≡ None → CarriesHere (view_by D.trace D.faults stopped) C.sum_of
        (Phase.Open opened.old) told.BeginBatch (Phase.Open opened.new, result) }
    ensures device { (stopped : D → Bool) → ActsOver (view_by D.trace D.faults stopped) C.sum_of opened.old.log told.BeginBatch result opened.new.log }
    ensures on { RunsOn D.trace (config_of opened.old.log) (config_of opened.new.log) }
{
    if let Err(e) = room_for_ticket(opened) {
        return Reply::Failed(e);
    }
    let manifest = BatchManifest(0);
    let guard = opened.log.pin();
    let log = &mut opened.log;
    match log.reserve(LogKind::Skip, BATCH_MANIFEST_PID, &manifest, &guard) {
        Ok(reservation) => hold_manifest(opened, reservation, guard),
        Err(e) => give_back(opened, guard, e),
    }
}

/// Gives a pin back where no place was kept.
fn give_back<D: Device, C: Checksum>(opened: &mut Opened<D, C>, guard: Guard, why: Error) -> Reply
    ensures { GivesBack D.trace C.sum_of opened.old opened.new why result }
{
    unpin(&mut opened.log, guard);
    Reply::Failed(why)
}

/// Makes room for one more ticket.
///
/// # Errors
///
/// `Io` where the log keeps a failure, and `OutOfMemory`, also where as many pins are out as can be.
fn room_for_ticket<D: Device, C: Checksum>(opened: &mut Opened<D, C>) -> Result<()>
    ensures room { MakesRoom opened.old opened.new }
    ensures enough { OnOk result ((pins_of opened.old.log < 2 ^ 32 - 1) × HasRoom opened.new.tickets) }
    ensures whole { FaultOrMemory result ⊥ (fault_of opened.old.log) }
{
    if let Some(e) = opened.log.failure() {
        return Err(Error::Io(e));
    }
    if opened.log.pins() >= MOST_PINS {
        return Err(Error::OutOfMemory);
    }
    Ok(opened.tickets.reserve()?)
}

/// Makes room for one more ticket, and for the note that its page has one.
///
/// # Errors
///
/// As of `room_for_ticket`.
fn room_for<D: Device, C: Checksum>(opened: &mut Opened<D, C>, page: PageId) -> Result<()>
    ensures room { MakesRoom opened.old opened.new }
    ensures enough { OnOk result ((pins_of opened.old.log < 2 ^ 32 - 1) × HasRoom opened.new.tickets
        × (page < length opened.new.busy.items)) }
    ensures whole { FaultOrMemory result ⊥ (fault_of opened.old.log) }
{
    room_for_ticket(opened)?;
    while opened.busy.len() as u64 <= page {
        opened.busy.push(false)?;
    }
    Ok(())
}

/// Keeps a ticket under the next number, where there is room for it.
fn hold<D: Device, C: Checksum>(
    opened: &mut Opened<D, C>,
    kind: LogKind,
    page: PageId,
    reservation: Reservation,
    guard: Guard,
) -> Reply
    requires room { HasRoom opened.old.tickets }
    requires page { page < length opened.old.busy.items }
    requires message { page ≢ manifest_page }
    ensures held { HoldsTicket opened.old opened.new kind page reservation guard result }
{
    let number = opened.tickets.begun();
    let reply = Reply::Reserved(number, reservation.lsn(), reservation.pointer());
    opened.busy[page as usize] = true;
    opened.tickets.push_reserved(Ticket {
        kind,
        page,
        reservation,
        guard,
    });
    reply
}

/// Keeps the ticket of a manifest under the next number, where there is room for it.
fn hold_manifest<D: Device, C: Checksum>(
    opened: &mut Opened<D, C>,
    reservation: Reservation,
    guard: Guard,
) -> Reply
    requires { HasRoom opened.old.tickets }
    ensures { HoldsTicket opened.old opened.new Skip manifest_page reservation guard result }
{
    let number = opened.tickets.begun();
    let reply = Reply::Reserved(number, reservation.lsn(), reservation.pointer());
    opened.batch = Some(number);
    opened.tickets.push_reserved(Ticket {
        kind: LogKind::Skip,
        page: BATCH_MANIFEST_PID,
        reservation,
        guard,
    });
    reply
}
