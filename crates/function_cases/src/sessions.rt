//! What a session tells beside its replies, and a log, a ticket and the header of a blob beside their answers.

use sled_log::config::{Config, RunningConfig};
use sled_log::device::{Device, MemDevice, PlaceSum};
use sled_log::logger::{DiskPtr, Log, LogKind, LogRead, MessageKind, SegmentNumber};
use sled_log::reservation::{Guard, Reservation};
use sled_log::result::{Error, Result};
use sled_log::serialization::snapshot::PageState;
use sled_log::serialization::{MessageHeader, Snapshot};
use sled_log::session::{Command, Refusal, Reply, Session};
use sled_store::blob_io::write_blob;
use std::alloc::Global;

/// A page takes 254 links and no further one, as the replies and the table of a session say. Once it is halted no table is shown.
pub fn links_pages(alloc: Global) -> Result<bool> {
    let Some(size) = Config::new(8192) else {
        return Ok(false);
    };
    let commands = links(alloc)?;
    let mut session = Session::new(alloc, size, MemDevice::new(alloc), PlaceSum);
    let linked = session.run(&commands);
    let is_shown = has_full_page(session.pages());
    let halted = session.run(&[Command::Halt]);
    let is_hidden = session.pages().is_none();
    session.end();
    let _ = halted?;
    let is_refused = matches!(linked?.last(), Some(Reply::Refused(Refusal::Fragments)));
    Ok(is_shown && is_hidden && is_refused)
}

// A page with 254 links, and one more.
fn links(alloc: Global) -> Result<Vec<Command>> {
    let mut commands = Vec::new(alloc);
    commands.push(Command::Open)?;
    commands.push(Command::Replace(0, [7].to_vec(alloc)?))?;
    commands.push(Command::Complete(0))?;
    for ticket in 1..255 {
        commands.push(Command::Link(0, [8].to_vec(alloc)?))?;
        commands.push(Command::Complete(ticket))?;
    }
    commands.push(Command::Link(0, [8].to_vec(alloc)?))?;
    Ok(commands)
}

fn has_full_page(pages: Option<&[PageState]>) -> bool {
    match pages {
        Some([PageState::Present { base: _, frags }]) => frags.len() == 254,
        _ => false,
    }
}

/// A session that is told one command at a time answers each as in a run: a page is replaced, made durable and read, and it
/// is there once the log is opened again.
pub fn carries_out(alloc: Global) -> Result<bool> {
    let Some(size) = Config::new(256) else {
        return Ok(false);
    };
    let mut session = Session::new(alloc, size, MemDevice::new(alloc), PlaceSum);
    let is_kept = match [7, 7, 7].to_vec(alloc) {
        Ok(item) => Ok(replaces(&mut session, item) && opens_again(&mut session)),
        Err(e) => Err(e),
    };
    session.end();
    Ok(is_kept?)
}

// A page is replaced, and made durable, once the log is open.
fn replaces(session: &mut Session<MemDevice, PlaceSum>, item: Vec<u8>) -> bool {
    let early = session.carry_out(&Command::Flush);
    let opened = session.carry_out(&Command::Open);
    let reserved = session.carry_out(&Command::Replace(0, item));
    let done = session.carry_out(&Command::Complete(0));
    let flushed = session.carry_out(&Command::Flush);
    matches!(early, Reply::Refused(Refusal::Closed))
        && is_opened(&opened, None, None, 0)
        && matches!(reserved, Reply::Reserved(0, 20, DiskPtr::Inline(20)))
        && matches!(done, Reply::Done(20, DiskPtr::Inline(20)))
        && matches!(flushed, Reply::Flushed(32))
}

// The page is read, and comes back behind a halt.
fn opens_again(session: &mut Session<MemDevice, PlaceSum>) -> bool {
    let read = session.carry_out(&Command::Read(0));
    let halted = session.carry_out(&Command::Halt);
    let opened = session.carry_out(&Command::Open);
    is_item(&read, &[3, 7, 7, 7])
        && matches!(halted, Reply::Halted)
        && is_opened(&opened, Some(32), Some(0), 1)
}

/// An opening that meets damage writes nothing: the log file is emptied, and what is missing is put back once an opening
/// failed. Then both pages are there, each with its blob.
pub fn leaves_damage(alloc: Global) -> Result<bool> {
    let Some(size) = Config::new(256) else {
        return Ok(false);
    };
    let commands = two_blobs(alloc)?;
    let (made, device) = ran_over(alloc, size, MemDevice::new(alloc), &commands);
    made?;
    let mut device = device;
    let mut log = vec![in alloc; 0; device.len()? as usize]?;
    device.read_at(0, &mut log)?;
    device.cut(0)?;
    device.sync()?;
    let (failed, device) = ran_over(alloc, size, device, &[Command::Open]);
    let mut device = device;
    let is_damage = matches!(
        failed?.first(),
        Some(Reply::Failed(Error::Corruption { at: None }))
    );
    let is_left = device.len()? == 0
        && device.blobs()?.as_slice() == [20, 36].as_slice()
        && device.snapshots()?.as_slice() == [36].as_slice();
    device.write_at(0, &log)?;
    let (opened, _) = ran_over(alloc, size, device, &[Command::Open]);
    let is_back = match opened?.first() {
        Some(reply) => is_opened(reply, Some(52), Some(0), 2),
        None => false,
    };
    Ok(is_damage && is_left && is_back)
}

// A page with a blob is made durable, and a second one once the log was opened again, whose record the snapshot hasn't.
fn two_blobs(alloc: Global) -> Result<Vec<Command>> {
    let mut commands = Vec::new(alloc);
    for page in 0..2 {
        commands.push(Command::Open)?;
        commands.push(Command::Replace(page, [1; 12].to_vec(alloc)?))?;
        commands.push(Command::Complete(0))?;
        commands.push(Command::Flush)?;
        commands.push(Command::Halt)?;
    }
    Ok(commands)
}

// Runs commands by a session over a device, and gives that back.
fn ran_over(
    alloc: Global,
    size: Config,
    device: MemDevice,
    commands: &[Command],
) -> (Result<Vec<Reply>>, MemDevice) {
    let mut session = Session::new(alloc, size, device, PlaceSum);
    let replies = session.run(commands);
    (replies, session.end())
}

// A log is open that goes on there, with so many pages.
fn is_opened(reply: &Reply, at: Option<i64>, slot: Option<u64>, begun: usize) -> bool {
    match reply {
        Reply::Opened {
            stable,
            active,
            pages,
        } => *stable == at && *active == slot && *pages == begun,
        _ => false,
    }
}

// What was read is one item, with this encoding.
fn is_item(reply: &Reply, bytes: &[u8]) -> bool {
    match reply {
        Reply::Page(items) => match items.as_slice() {
            [item] => item.as_slice() == bytes,
            _ => false,
        },
        _ => false,
    }
}

// How many tickets are spent one after the other, and how many are open at once: one a page.
const SPENT: usize = 10_000;

const PAGES: usize = 1000;

/// A session numbers its tickets from 0 on. Behind ten thousand that are spent each of a thousand that are open at once
/// ends its own message, in whatever order, and none of them twice.
pub fn numbers_tickets(alloc: Global) -> Result<bool> {
    let Some(size) = Config::new(256) else {
        return Ok(false);
    };
    let mut session = Session::new(alloc, size, MemDevice::new(alloc), PlaceSum);
    let opened = session.carry_out(&Command::Open);
    let are_spent = spends_each(alloc, &mut session);
    let are_own = spends_all(alloc, &mut session);
    session.end();
    Ok(is_opened(&opened, None, None, 0) && are_spent? && are_own?)
}

// Each is spent before the next one is given, and what is there is written now and then.
fn spends_each(alloc: Global, session: &mut Session<MemDevice, PlaceSum>) -> Result<bool> {
    for number in 0..SPENT {
        let page = number % PAGES;
        let replace = Command::Replace(page as u64, [7].to_vec(alloc)?);
        let reserved = session.carry_out(&replace);
        let done = session.carry_out(&Command::Complete(number));
        if !is_given(&reserved, number) || !matches!(done, Reply::Done(_, _)) {
            return Ok(false);
        }
        if page == 0 && !matches!(session.carry_out(&Command::Flush), Reply::Flushed(_)) {
            return Ok(false);
        }
    }
    Ok(true)
}

fn is_given(reserved: &Reply, wanted: usize) -> bool {
    match reserved {
        Reply::Reserved(number, _, _) => *number == wanted,
        _ => false,
    }
}

// One is given for each page, and they are spent in another order.
fn spends_all(alloc: Global, session: &mut Session<MemDevice, PlaceSum>) -> Result<bool> {
    let mut places = Vec::new(alloc);
    for page in 0..PAGES {
        let replace = Command::Replace(page as u64, [7].to_vec(alloc)?);
        let reserved = session.carry_out(&replace);
        match reserved {
            Reply::Reserved(number, place, _) if number == SPENT + page => places.push(place)?,
            _ => return Ok(false),
        }
    }
    for turn in 0..PAGES {
        let page = turn * 377 % PAGES;
        if !ends_own(session, SPENT + page, places.get(page)) {
            return Ok(false);
        }
    }
    Ok(true)
}

// The ticket's message is the one at that place, and the ticket is spent then.
fn ends_own(
    session: &mut Session<MemDevice, PlaceSum>,
    number: usize,
    wanted: Option<&i64>,
) -> bool {
    let done = session.carry_out(&Command::Complete(number));
    let again = session.carry_out(&Command::Abort(number));
    let is_own = match (done, wanted) {
        (Reply::Done(place, _), Some(wanted)) => place == *wanted,
        _ => false,
    };
    is_own && matches!(again, Reply::Refused(Refusal::Ticket))
}

/// A log keeps the failure with which a flush ends, and no other one; and its device is stopped then.
pub fn keeps_failure(alloc: Global) -> Result<bool> {
    let Some(size) = Config::new(256) else {
        return Ok(false);
    };
    let config = RunningConfig::new(alloc, size, MemDevice::new(alloc), PlaceSum);
    let mut log = match Log::start(config, &Snapshot::empty(alloc)) {
        Ok(log) => log,
        Err((e, _config)) => return Err(e),
    };
    let guard = log.pin();
    let is_kept = stops(alloc, &mut log, &guard);
    guard.abandon();
    log.halt();
    is_kept
}

/// A blob that is read by its pointer comes under a header of its kind, of the page and the segment that are asked for.
pub fn heads_blob(alloc: Global) -> Result<bool> {
    let Some(size) = Config::new(256) else {
        return Ok(false);
    };
    let mut config = RunningConfig::new(alloc, size, MemDevice::new(alloc), PlaceSum);
    let item = [7].to_vec(alloc)?;
    write_blob(&mut config, MessageKind::BlobNode, -20, &item)?;
    let mut log = match Log::start(config, &Snapshot::empty(alloc)) {
        Ok(log) => log,
        Err((e, _config)) => return Err(e),
    };
    let read = log.read(9, 520, DiskPtr::Blob(20, -20));
    log.halt();
    let LogRead::Blob(header, bytes, place, len) = read? else {
        return Ok(false);
    };
    let wanted = MessageHeader {
        crc32: 0,
        kind: MessageKind::BlobNode,
        segment_number: SegmentNumber(2),
        pid: 9,
        len: 0,
    };
    Ok(header == wanted && bytes.as_slice() == [1, 7].as_slice() && place == -20 && len == 0)
}

fn stops(alloc: Global, log: &mut Log<MemDevice, PlaceSum>, guard: &Guard) -> Result<bool> {
    let item = [7].to_vec(alloc)?;
    if !log.fits_inline(&item) {
        return Ok(false);
    }
    let ticket = log.reserve(LogKind::Replace, 0, &item, guard)?;
    let is_plain = is_plain(&ticket);
    log.complete(ticket)?;
    let none_yet = log.failure().is_none() && !log.is_stopped();
    log.stop_after(0);
    let is_told = match (log.flush(), log.failure()) {
        (Err(told), Some(kept)) => told == Error::Io(kept),
        _ => false,
    };
    Ok(is_plain && none_yet && is_told && log.is_stopped())
}

// The record has a header of eight bytes, and a body of two.
fn is_plain(ticket: &Reservation) -> bool {
    !ticket.is_manifest() && ticket.reservation_len() == 10
}
