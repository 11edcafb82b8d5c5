//! The log makes the parts of a file itself, and its buffers are written in every order, each of them stopped in its write and
//! torn at each of its bytes. A recovery finds what it finds in a file that was laid out, and behind each write the log tells
//! that place as its stable end up to which a recovery finds all.
ghost use Rattle.std.specs.Prelude.{◌≡◌, ◌<◌, IfOk, vec_len, vec_capacity};
ghost use Rattle.sled_core.specs.Fits.{pins_of};

use crate::batches::parts::{Part, item};
use crate::batches::{Case, ends_of, finds_twice, found_of, put_end, wanted_of};
use sled_log::config::{Config, RunningConfig};
use sled_log::device::{Choice, CrashDevice, MemDevice, PlaceSum};
use sled_log::logger::{BATCH_MANIFEST_PID, Log, LogKind, PageId};
use sled_log::reservation::{Guard, Reservation};
use sled_log::result::{Error, Result};
use sled_log::serialization::Serialize;
use sled_log::serialization::message::BatchManifest;
use sled_log::snapshot::Snapshot;
use std::alloc::Global;

/// Whether each recovery finds what the case says.
pub fn holds(alloc: Global, case: &Case<'_>) -> Result<bool> {
    let count = case.buffers.len() as u64;
    let mut codes = 1u64;
    for _ in 0..count {
        codes = codes.saturating_mul(count);
    }
    let mut is_so = true;
    for code in 0..codes {
        let order = order_of(alloc, code, count)?;
        if is_each_once(&order, count) {
            is_so &= order_holds(alloc, case, &order)?;
        }
    }
    Ok(is_so)
}

// So many digits of a number, to the base of as many.
fn order_of(alloc: Global, code: u64, count: u64) -> Result<Vec<u64>> {
    let mut order = Vec::new(alloc);
    let mut rest = code;
    for _ in 0..count {
        order.push(rest.checked_rem(count).unwrap_or(0))?;
        rest = rest.checked_div(count).unwrap_or(0);
    }
    Ok(order)
}

fn is_each_once(order: &[u64], count: u64) -> bool {
    let mut is_so = true;
    for n in 0..count {
        is_so &= order.contains(&n);
    }
    is_so
}

// The buffers are written in an order, and each one is torn at each of its bytes behind those before it.
fn order_holds(alloc: Global, case: &Case<'_>, order: &[u64]) -> Result<bool> {
    let mut ends = ends_of(alloc, case, 0)?;
    let mut is_so = true;
    for (n, buffer) in order.iter().enumerate() {
        let (from, to) = span_of(case, *buffer);
        let written = order.get(..n).unwrap_or(&[]);
        for at in from..to.saturating_add(1) {
            put_end(&mut ends, *buffer as usize, at);
            is_so &= recovers(alloc, case, &ends, written, *buffer)?;
        }
    }
    Ok(is_so)
}

fn span_of(case: &Case<'_>, buffer: u64) -> (u64, u64) {
    case.buffers.get(buffer as usize).copied().unwrap_or((0, 0))
}

// Whether two recoveries find what they have to, where some buffers were written, and one up to where it ends here.
fn recovers(
    alloc: Global,
    case: &Case<'_>,
    ends: &[u64],
    written: &[u64],
    buffer: u64,
) -> Result<bool> {
    let log = begun(alloc, 256)?;
    let mut writer = Writer::new(alloc, log);
    let came = writer.run(alloc, case, written, buffer, ends);
    let mut config = writer.end();
    let is_stable = came?;
    let is_left = config.device.crash(torn(alloc, case, ends, buffer)?);
    let wanted = wanted_of(alloc, case, ends)?;
    Ok(is_stable && is_left && finds_twice(&mut config, &wanted)?)
}

// A crash that leaves the write of a buffer up to a place: the file had zeros there, or its end.
fn torn(alloc: Global, case: &Case<'_>, ends: &[u64], buffer: u64) -> Result<Choice> {
    let (from, to) = span_of(case, buffer);
    let at = ends.get(buffer as usize).copied().unwrap_or(to);
    if at == from {
        return Ok(Choice::Old(Vec::new(alloc)));
    }
    let mut patch = Vec::new(alloc);
    for offset in at..to {
        patch.push((offset, 0))?;
    }
    Ok(Choice::New(patch))
}

/// A log on an empty device, with segments of this size.
pub fn begun(alloc: Global, size: u64) -> Result<Log<MemDevice, PlaceSum>>
    ensures { IfOk result (λ log. pins_of log ≡ 0) }
{
    let Some(size) = Config::new(size) else {
        return Err(Error::Corruption { at: None });
    };
    let config = RunningConfig::new(alloc, size, MemDevice::new(alloc), PlaceSum);
    match Log::start(config, &Snapshot::empty(alloc)) {
        Ok(log) => Ok(log),
        Err((e, _)) => Err(e),
    }
}

/// A log that makes the parts of a case. It is to be ended.
pub struct Writer {
    /// The log.
    pub log: Log<MemDevice, PlaceSum>,
    /// Those that are open, with what they are of.
    pub tickets: Vec<(Part, Reservation)>,
    guard: Guard,
}

impl Writer {
    /// One that has made nothing yet.
    pub fn new(alloc: Global, log: Log<MemDevice, PlaceSum>) -> Writer
        requires { pins_of log ≡ 0 }
    {
        let mut log = log;
        let guard = log.pin();
        Writer {
            log,
            tickets: Vec::new(alloc),
            guard,
        }
    }

    // Makes all parts and writes some buffers; the device stops in the write of another one. Whether the log told its stable end
    // as the case says, and stopped.
    fn run(
        &mut self,
        alloc: Global,
        case: &Case<'_>,
        written: &[u64],
        buffer: u64,
        ends: &[u64],
    ) -> Result<bool> {
        self.make_durable(alloc)?;
        self.make_buffers(alloc, case)?;
        let mut is_so = self.log.pending() == case.buffers.len();
        let mut stand = ends_of(alloc, case, 0)?;
        let mut left = Vec::new(alloc);
        for n in 0..case.buffers.len() {
            left.push(n as u64)?;
        }
        for n in written {
            self.write(&mut left, *n)?;
            put_end(&mut stand, *n as usize, span_of(case, *n).1);
            is_so &= self.is_stable_as(case, &stand);
        }
        let at = ends.get(buffer as usize).copied().unwrap_or(0);
        let is_at_once = at == span_of(case, buffer).0;
        self.log.stop_after(if is_at_once { 0 } else { 1 });
        is_so &= self.write(&mut left, buffer).is_err();
        Ok(is_so && self.log.is_stopped())
    }

    // Whether the stable end is in front of the cut that a recovery would find.
    fn is_stable_as(&self, case: &Case<'_>, ends: &[u64]) -> bool {
        match found_of(case, ends) {
            Some((cut, _, _)) => self.log.stable_offset().checked_add(1) == Some(cut),
            None => false,
        }
    }

    // The records that are durable in each case.
    fn make_durable(&mut self, alloc: Global) -> Result<()> {
        for n in 0..7 {
            self.make(alloc, Part::Page(n % 3))?;
        }
        self.end_all()?;
        self.log.flush()?;
        Ok(())
    }

    // The parts of a case, each in its buffer.
    fn make_buffers(&mut self, alloc: Global, case: &Case<'_>) -> Result<()> {
        let mut current = 0;
        for (buffer, _, part, _) in case.parts {
            if *buffer != current {
                self.log.roll_iobuf()?;
                current = *buffer;
            }
            self.make(alloc, *part)?;
        }
        self.log.roll_iobuf()?;
        self.end_all()
    }

    /// Reserves what a part needs. The log makes headers itself, and no log makes a cap of so many bytes.
    pub fn make(&mut self, alloc: Global, part: Part) -> Result<()> {
        match part {
            Part::Header | Part::Cap => Ok(()),
            Part::Manifest(_) => {
                self.reserve(LogKind::Skip, BATCH_MANIFEST_PID, &BatchManifest(0), part)
            }
            Part::Page(page) => self.reserve(LogKind::Replace, page, &item(alloc)?, part),
            Part::Canceled => self.reserve(LogKind::Replace, 0, &item(alloc)?, part),
        }
    }

    /// Reserves the record of a part with this item.
    pub fn reserve<T: Serialize>(
        &mut self,
        kind: LogKind,
        page: PageId,
        item: &T,
        part: Part,
    ) -> Result<()> {
        if !item.can_serialize() || !self.log.fits_inline(item) {
            return Err(Error::Corruption { at: None });
        }
        self.tickets.reserve(1)?;
        let ticket = self.log.reserve(kind, page, item, &self.guard)?;
        self.keep_ticket(part, ticket);
        Ok(())
    }

    // Keeps a ticket, where there is room for it.
    fn keep_ticket(&mut self, part: Part, ticket: Reservation)
        requires { vec_len self.old.tickets < vec_capacity self.old.tickets }
    {
        self.tickets.push((part, ticket)).unwrap();
    }

    // Ends all reservations, the last one first. So a batch that is behind another one is noted before that.
    fn end_all(&mut self) -> Result<()> {
        for _ in 0..u64::MAX {
            let Some((part, ticket)) = self.tickets.pop() else {
                break;
            };
            self.end_one(part, ticket)?;
        }
        Ok(())
    }

    /// Ends the reservation of a part.
    pub fn end_one(&mut self, part: Part, ticket: Reservation) -> Result<()> {
        if !self.log.is_open(&ticket) {
            ticket.abandon();
            return Err(Error::Corruption { at: None });
        }
        match part {
            Part::Manifest(peg) if ticket.is_manifest() && self.log.may_end_at(&ticket, peg) => {
                self.log.mark_writebatch(ticket, peg)?;
            }
            Part::Page(_) if !ticket.is_manifest() => {
                self.log.complete(ticket)?;
            }
            Part::Canceled => {
                self.log.abort(ticket)?;
            }
            _ => {
                ticket.abandon();
                return Err(Error::Corruption { at: None });
            }
        }
        Ok(())
    }

    // Writes a buffer, which is one of those that are left.
    fn write(&mut self, left: &mut Vec<u64>, buffer: u64) -> Result<()> {
        let mut index = 0usize;
        for (n, one) in left.iter().enumerate() {
            if *one == buffer {
                index = n;
            }
        }
        if index >= self.log.pending() {
            return Err(Error::Corruption { at: None });
        }
        self.log.write_to_log(index)?;
        left.retain(|one| *one != buffer);
        Ok(())
    }

    /// Gives all up, and writes nothing.
    pub fn end(self) -> RunningConfig<MemDevice, PlaceSum> {
        let Writer {
            log,
            mut tickets,
            guard,
        } = self;
        guard.abandon();
        while let Some((_, ticket)) = tickets.pop() {
            ticket.abandon();
        }
        tickets.destroy_empty();
        log.halt()
    }
}
