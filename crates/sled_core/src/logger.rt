//! The log: what its callers reserve, complete, flush and read.
//!
//! A log keeps the bytes of its segments that aren't wholly on the device, the reservations in them, the accountant of all
//! segments, the count of pins, and the first failure of its device, which it answers from then on. `specs/Fits.antt` says which history it holds.
ghost use Rattle.std.specs.Prelude.{All, List, ◌≡◌, ◌≢◌, ◌⊎◌, ◌<ℤ◌, ◌↔◌, ◌+◌, ◌-◌, ◌<◌, ◌^◌, ◌∷◌, ◌-ℤ◌, pos, [], ℕ, length, false, IsTrue, IfOk, IfErr, OnOk, OnErr, Contains, None, Some, ◌/◌, unsigned_abs, ℤ, max};
ghost use Rattle.sled_codec.specs.History.{History, Message, Completed, Step};
ghost use Rattle.sled_codec.specs.Errors.{IsCorrupt, IsCorruption};
ghost use Rattle.sled_store.specs.Device.{state_of};
ghost use Rattle.sled_core.specs.Tickets.{IsPlaceOf, is_manifest_of};
ghost use Rattle.sled_core.specs.Reading.{GivesMessage, IsInline};
ghost use Rattle.sled_codec.specs.Places.{MayBegin};
ghost use Rattle.sled_codec.specs.Pointers.{lid_of};
ghost use Rattle.sled_codec.specs.Snapshots.{model_of};
ghost use Rattle.sled_store.specs.Moments.{IsLater, LeavesOnly};
ghost use Rattle.sled_store.specs.Outdated.{MayName};
ghost use Rattle.sled_store.specs.Accounts.{IsAccountant};
ghost use Rattle.sled_store.specs.Begin.{IsStartable, IsInReach};
ghost use Rattle.sled_core.specs.Recoverable.{LeavesRecoverable, NoHeaderOfZeros, RecoverableIfOwn};
ghost use Rattle.sled_core.specs.inside.AccountProps.{IsAccountant-prop};
ghost use Rattle.sled_core.specs.inside.LogFacts.{AreNotedBatches, AreNotedBatches-prop, AreOpenSegments, AreOpenSegments-prop};
ghost use Rattle.sled_core.specs.inside.Pooling.{IsPooling, IsPooling-prop};
ghost use Rattle.sled_core.specs.Causes.{FaultAnswers};
ghost use Rattle.sled_core.specs.inside.Causes.{RecordAnswers};

mod abort;
pub(crate) mod batches;
mod blobs;
mod crash;
mod ending;
mod fault;
pub(crate) mod io_bufs;
mod iterating;
pub(crate) mod joined_marks;
mod mark_writebatch;
mod marking;
pub(crate) mod pool;
pub mod read_at;
pub mod read_message;
mod read_pointer;
pub(crate) mod ready;
mod reserve;
mod reserving;
mod segments;
mod settle;
mod stable;
pub(crate) mod unverified_record;
mod writing;

use crate::iobuf::SegmentPosition;
use crate::iobuf::start::begin;
use crate::logger::batches::PendingBatches;
use crate::logger::fault::Fault;
use crate::logger::io_bufs::{IoBufs, SegmentBuffer, no_segments};
use crate::logger::joined_marks::JoinedMarks;
pub use crate::logger::pool::MAX_POOLED;
use crate::logger::pool::SegmentPool;
use crate::logger::read_message::LogRead;
use crate::logger::read_pointer::{place_read, read_pointer};
use crate::logger::ready::ReadyBuffers;
use crate::reservation::{Guard, Reservation};
use sled_codec::result::{DiskPtr, Error, LogOffset, Lsn, PageId, Result};
use sled_codec::serialization::{Checksum, LogKind, SegmentNumber, Serialize, Snapshot};
use sled_store::segment::accountant::SegmentAccountant;
use sled_store::segment::{MAX_MSG_HEADER_LEN, MINIMUM_ITEMS_PER_SEGMENT, may_begin};
use sled_store::{Device, RunningConfig};
use std::collections::VecDeque;
use std::io;

/// A log over a device. It is given up by `halt`, which hands its configuration back.
pub struct Log<D, C> {
    config: RunningConfig<D, C>,
    /// The segments that it has begun and that aren't wholly on the device, and the one that is being filled.
    segments: IoBufs,
    /// Which of their sealed buffers can be written.
    ready: ReadyBuffers,
    /// Which slot each segment has. A free slot counts as zeros, whatever bytes it has (`specs/inside/Cleared.antt`).
    accountant: SegmentAccountant,
    /// The place behind the greatest record that was reserved.
    reserved_to: u64,
    /// The first failure of the device in this log.
    fault: Fault,
    pins: u32,
    /// Up to which place segments were left behind.
    marks: JoinedMarks,
    /// The batches that were noted, and the manifests that are open.
    batches: PendingBatches,
    /// The bytes of segments that were written, for further ones.
    pool: SegmentPool,
    ghost line: { AreOpenSegments config.config.segment_size reserved_to segments ready } by { AreOpenSegments-prop _ _ segments ready },
    ghost account: { IsAccountant config.config.segment_size accountant } by { IsAccountant-prop config.config.segment_size accountant },
    ghost noted: { AreNotedBatches reserved_to segments batches } by { AreNotedBatches-prop _ segments batches },
    ghost pooling: { IsPooling config.config.segment_size segments pool } by { IsPooling-prop config.config.segment_size segments pool },
}

impl<D: Device, C: Checksum> Log<D, C> {
    ghost use Rattle.sled_core.specs.invariants.Fits.{Holds};
    ghost use Rattle.sled_core.specs.Among.{AreAmong};
    ghost use Rattle.sled_core.specs.Fits.{Awaits, IsOpen, FitsInline, fault_of, given_up_of, synced_end, reserved_end, pins_of, config_of, device_of, HasRecordOf, ledger_of, line_of, segment_size_of, waiting_of, current_begin, FirstWaits, stable_end, KeepsAll};
    ghost use Rattle.sled_core.specs.Fronts.{CameAround};
    ghost use Rattle.sled_core.specs.Endings.{EndsTicket};
    ghost use Rattle.sled_core.specs.Keeps.{ConfigKept, GoesOn, HoldsFast, KeepsLog, KeepsWriting, Preserves};
    ghost use Rattle.sled_core.specs.Marked.{StartsMarked};
    ghost use Rattle.sled_core.specs.Pooled.{PoolsSome};
    ghost use Rattle.sled_core.specs.ReadBuffer.{IsUsedUpAt, ReadAnswers, RefusesPlace, SealsAround, Settles, WritesAround, held_at};
    ghost use Rattle.sled_core.specs.ReadPointer.{IsDamageAt, IsReadOf, ReadsMessage, place_read};
    ghost use Rattle.sled_core.specs.inside.ReadPointer.{IsDamageOf};
    ghost use Rattle.sled_core.specs.Ready.{IsReady};
    ghost use Rattle.sled_core.specs.invariants.Running.{Fits, Ready};
    ghost use Rattle.sled_core.specs.Running.{IsStored, end_below};
    ghost use Rattle.sled_core.specs.Starts.{BeginsBehind, HasMadeStart, StartCalls, StartsOrRefuses, config_left};

    /// Begins a log on what a recovery left: it goes on at the snapshot's stable place. First it fills the
    /// slots of the file that the snapshot does not use with zeros, in ascending order, and syncs the file
    /// where there is one. Then, while more than one slot is free and the last one is, it cuts that off, and syncs the cut.
    /// Where it begins a segment, that has the last stable place for the mark in its header.
    ///
    /// # Errors
    ///
    /// `Corruption` where no log can begin from the snapshot, whatever its places are; `PlacesUsedUp` exactly where one can, but one
    /// more slot of the file, or the segment in which the log goes on, would not end below 2^63; nothing was written then.
    /// `Io` where the device failed, and `OutOfMemory`. With each of them the configuration comes back.
    pub fn start(
        config: RunningConfig<D, C>,
        snapshot: &Snapshot,
    ) -> std::result::Result<Log<D, C>, (Error, RunningConfig<D, C>)>
        ensures history { (H : History) → IsReady C.sum_of config.config.segment_size (state_of (D.trace config.device)) (model_of snapshot.now) H
            → IfOk result (λ log. Holds D.trace C.sum_of log H) }
        ensures fits { (H : History) (A f : ℕ) → Ready C.sum_of config.config.segment_size (state_of (D.trace config.device)) (model_of snapshot.now) H A f
            → IfOk result (λ log. Fits D.trace C.sum_of log H A f []) }
        ensures crash { (H : History) (A f : ℕ) → Ready C.sum_of config.config.segment_size (state_of (D.trace config.device)) (model_of snapshot.now) H A f
            → LeavesOnly (RecoverableIfOwn C.sum_of config.config.segment_size H A f) (D.trace config.device) (D.trace (config_left result).device) }
        ensures starts { (H : History) (A f : ℕ) → Ready C.sum_of config.config.segment_size (state_of (D.trace config.device)) (model_of snapshot.now) H A f
            → IfErr result (λ e. IsCorrupt e.0 → ⊥) }
        ensures begins { let len = length (state_of (D.trace config.device)).log.bytes in
            IfOk result (λ log. BeginsBehind config.config.segment_size len (model_of snapshot.now) log) }
        ensures marked { IfOk result (λ log. StartsMarked C.sum_of log) }
        ensures config { ConfigKept config (config_left result) }
        ensures later { IsLater (D.trace config.device) (D.trace (config_left result).device) }
        ensures made { OnOk result (HasMadeStart config.config.segment_size (model_of snapshot.now) (D.trace config.device)
            (D.trace (config_left result).device)) }
        ensures calls { StartCalls config.config.segment_size (model_of snapshot.now) (D.trace config.device) (D.trace (config_left result).device) }
        ensures answers { let size = config.config.segment_size in let s = model_of snapshot.now in
            let len = length (state_of (D.trace config.device)).log.bytes in let device = (config_left result).device in
            StartsOrRefuses result (IsStartable size len s) (IsInReach size len s) (D.trace device ≡ D.trace config.device)
            (D.faults config.device) (D.faults device) }
    {
        let mut config = config;
        let alloc = config.alloc();
        let room = config.config.segment_size as usize + MAX_MSG_HEADER_LEN;
        let Ok(pool) = SegmentPool::empty(alloc, room) else {
            return Err((Error::OutOfMemory, config));
        };
        match begin(&mut config, snapshot) {
            Ok((beginning, buffer, accountant)) => Ok(Log {
                segments: IoBufs {
                    first: SegmentBuffer {
                        site: SegmentPosition {
                            place: beginning.place,
                            slot: beginning.slot,
                        },
                        buffer,
                    },
                    behind: no_segments(alloc),
                },
                ready: ReadyBuffers::new(alloc),
                config,
                accountant,
                reserved_to: beginning.place + beginning.offset,
                fault: Fault { kept: None },
                pins: 0,
                marks: JoinedMarks::from_place(snapshot.stable_place() as Lsn),
                batches: PendingBatches::new(alloc),
                pool,
            }),
            Err(e) => Err((e, config)),
        }
    }

    /// Takes a pin, and returns the guard that stands for it. There may be fewer than 2^32 - 1. While one is out no segment comes free.
    #[inline(always)]
    pub fn pin(&mut self) -> Guard
        requires { pins_of self.old < 2 ^ 32 - 1 }
        ensures taken { self.new ≡ record self.old { pins = pins_of self.old + 1 } }
        ensures keeps { Preserves D.trace C.sum_of self.old self.new }
    {
        self.pins += 1;
        Guard::new()
    }

    /// Gives a pin back. What comes free without one does so behind the next write of a buffer.
    #[inline(always)]
    pub fn unpin(&mut self, guard: Guard)
        requires { 0 < pins_of self.old }
        ensures given { self.new ≡ record self.old { pins = pins_of self.old - 1 } }
        ensures fits { (H : History) (A f : ℕ) (U : List Message) → Fits D.trace C.sum_of self.old H A f U → (U ≢ [] → 1 < pins_of self.old)
            → Fits D.trace C.sum_of self.new H A f U }
        ensures goes_on { GoesOn D.trace C.sum_of self.old self.new }
    {
        guard.abandon();
        self.pins -= 1;
    }

    /// Returns how many pins are out. A guard that was abandoned counts too.
    pub fn pins(&self) -> u64
        ensures { result ≡ pins_of self.now }
    {
        u64::from(self.pins)
    }

    /// Returns the last place (log sequence number) of which all up to it is durable, with its batches whole; -1 before the first one.
    pub fn stable_offset(&self) -> Lsn
        ensures place { result ≡ pos (stable_end self.now) -ℤ pos 1 }
        ensures first { FirstWaits (synced_end self.now) (current_begin self.now) (waiting_of self.now) }
        ensures acknowledges { (H : History) (A f : ℕ) (U : List Message) → Fits D.trace C.sum_of self.now H A f U
            → Fits D.trace C.sum_of self.now H (max A (end_below (stable_end self.now) H)) f U }
    {
        self.stable_end() as i64 - 1
    }

    /// Returns the greatest place that was reserved; on a log of which nothing was reserved yet, the last place that is durable.
    pub fn reserved_offset(&self) -> Lsn
        ensures { result ≡ pos (reserved_end self.now) -ℤ pos 1 }
    {
        self.reserved_to as i64 - 1
    }

    /// Returns the failure of its device that the log keeps, the first one. Such a log changes nothing any more.
    pub fn failure(&self) -> Option<io::Error>
        ensures { result ≡ fault_of self.now }
    {
        self.fault.kept
    }

    /// Completes a message: from now on it is in the log's history. Returns its place and its pointer. It takes no
    /// memory. A ticket of the manifest of a batch isn't for it: that one is ended by `mark_writebatch`, or given up by `abort`.
    ///
    /// The blob that it names, if it does, must be its own, which no message names, or that of an entry of the page table as
    /// it is now (`MayName`): one of a message that was replaced may go with the segment of what replaced it.
    ///
    /// # Errors
    ///
    /// `Io` exactly where the log keeps a failure of its device. The ticket is spent all the same, and its message
    /// is not in the history.
    #[inline(always)]
    pub fn complete(&mut self, ticket: Reservation) -> Result<(Lsn, DiskPtr)>
        requires awaited { IsOpen self.old ticket }
        requires message { is_manifest_of ticket ≡ false }
        ensures place { IfOk result (IsPlaceOf ticket) }
        ensures history { (H : History) (m : Message) → Holds D.trace C.sum_of self.old H → Awaits self.old ticket m
            → OnOk result ((H' : History) × Step H (Completed m) H' × Holds D.trace C.sum_of self.new H') }
        ensures ends { EndsTicket D.trace C.sum_of result ticket self.old self.new }
        ensures given_up { AreAmong (given_up_of self.new) (given_up_of self.old) }
        ensures answers { FaultAnswers result (fault_of self.old) }
        ensures fits { (H : History) (A f : ℕ) (U : List Message) (m : Message)
            → Fits D.trace C.sum_of self.old H A f U → Awaits self.old ticket m → IsStored D.trace C.sum_of self.old m → MayName H m
            → 0 < pins_of self.old → OnOk result ((H' : History) × Step H (Completed m) H' × Fits D.trace C.sum_of self.new H' A f (m ∷ U)) }
        ensures goes_on { GoesOn D.trace C.sum_of self.old self.new }
        ensures same { KeepsAll self.old self.new }
        ensures err { OnErr result (self.new ≡ self.old) }
    {
        let place = ticket.lsn();
        let pointer = ticket.pointer();
        let index = ticket.index();
        ticket.abandon();
        if let Some(e) = self.fault.kept {
            return Err(Error::Io(e));
        }
        let n = self.segment_of(place.unsigned_abs());
        self.complete_in(n, index);
        Ok((place, pointer))
    }

    /// Reads the message of this page and place that lies there, from the device. Where its place isn't stable, the one
    /// buffer that has it is written first, unless it is on the device: the current one is sealed for that, and no other
    /// buffer is written. Returns what stands there. A message has its record as long as it is of a segment that isn't wholly
    /// on the device, or a table from the mark on that joined needs it, and it is read as long as a slot has its segment; else its slot may be
    /// free or another segment's, or cut off.
    /// Where no pin is out segments may come free behind that write, and blobs go, as in each call that writes. Of a stable place
    /// nothing is written, and the log keeps all that it is.
    ///
    /// Of a message whose item is a blob that blob alone is read, and the place that counts is the blob's: a negative one is
    /// before all. Its header has the blob's kind, this page, the number of the segment of this place, and 0 for checksum and
    /// length; the length of its record is answered as 0.
    ///
    /// Who took a pin goes on reading what was in the table then, until the pin goes back, also once it is replaced, or its page given back: a slot
    /// keeps its segment (law `a_pin_keeps_segments`), so that its record is read, and the log keeps its blob, which no crash takes (law
    /// `what_is_in_the_table_is_stored`), and which no call removes while a pin is out (`items` of what each keeps; an `abort` removes its own
    /// ticket's alone).
    ///
    /// The page isn't compared with what is read. Of an inline pointer the answer is what the record at its offset has, if it is one of
    /// the segment of this place: where place and pointer may be those of another page's message, the caller compares
    /// `header.pid` with the page that it asked for. Of a blob's pointer that shows nothing: a blob names no page, and the header has
    /// the page that was asked for. Place and pointer that `complete` answered for a message, or that a recovered table has for its page, belong together.
    ///
    /// # Errors
    ///
    /// In this order: `Io` where the log keeps a failure of its device; `Corruption` for a negative place, and for an offset at
    /// which no record begins; `NotReserved` exactly where the place is neither stable nor below the end of what was reserved (the log
    /// is as it was after each of these); `PlacesUsedUp` exactly where the current buffer has to be sealed, no further record
    /// has room in its segment, and the next one would not end below 2^63; `Held` exactly where the place isn't stable and its buffer has an open reservation,
    /// with the least place of those of that buffer; `Corruption` for a record that can't be read
    /// (`read_message`), for a blob of fewer than five bytes, and with the blob's place for one whose checksum fails. `Io` of kind `NotFound` where the
    /// pointer's blob is missing: the log doesn't keep that. `Io` where the device failed in this call: the log keeps that. `OutOfMemory` where the current
    /// buffer could not be sealed, or from the device.
    pub fn read(&mut self, pid: PageId, lsn: Lsn, ptr: DiskPtr) -> Result<LogRead>
        ensures message { (H : History) (m : Message)
            → HoldsFast D.trace C.sum_of self.old H ⊎ (Holds D.trace C.sum_of self.old H × (lsn <ℤ pos (synced_end self.old)))
            → Contains H.messages m → HasRecordOf self.old H m → pos m.place ≡ lsn → m.pointer ≡ ptr → IsInline ptr → IfOk result (GivesMessage m) }
        ensures undamaged { (H : History) (A f : ℕ) (U : List Message) (m : Message) → Fits D.trace C.sum_of self.old H A f U → Contains H.messages m
            → HasRecordOf self.old H m → pos m.place ≡ lsn → m.pointer ≡ ptr → IsInline ptr → IsCorruption result → ⊥ }
        ensures blob { (H : History) (A f : ℕ) (U : List Message) (m : Message)
            → Fits D.trace C.sum_of self.old H A f U → NoHeaderOfZeros C.sum_of
            → ReadsMessage D.trace C.sum_of self.old H m pid lsn ptr result }
        ensures reading { let size = segment_size_of self.old in
            IfOk result (IsReadOf C.sum_of size (state_of (D.trace (device_of self.new))) pid (unsigned_abs lsn / size) ptr) }
        ensures corrupt { IfErr result (IsDamageAt C.sum_of (segment_size_of self.old) (state_of (D.trace (device_of self.new))) lsn ptr) }
        ensures calls { Settles D.trace C.sum_of result lsn ptr self.old self.new }
        ensures refused { RefusesPlace result lsn ptr self.old self.new }
        ensures buffers { let at = place_read lsn ptr in SealsAround result at self.old self.new × WritesAround C.sum_of result at self.old self.new
            × OnErr result (CameAround D.trace C.sum_of at self.old self.new) }
        ensures keeps { KeepsWriting D.trace C.sum_of self.old self.new }
        ensures only { place_read lsn ptr <ℤ pos (synced_end self.old) → KeepsLog D.trace C.sum_of self.old self.new }
        ensures answers { let blobs = (state_of (D.trace (device_of self.new))).blobs.file in let at = place_read lsn ptr in
            ReadAnswers C.sum_of blobs ptr result at (synced_end self.old) (reserved_end self.old) (held_at C.sum_of self.old at) (IsUsedUpAt self.old at)
            (fault_of self.old) (fault_of self.new) (D.faults (device_of self.old)) (D.faults (device_of self.new)) }
        ensures pooled { PoolsSome self.old self.new }
    {
        if let Some(e) = self.fault.kept {
            return Err(Error::Io(e));
        }
        let size = self.config.config.segment_size;
        let lid = ptr.lid();
        if lsn < 0 || !may_begin(lid, size) {
            return Err(Error::Corruption { at: None });
        }
        self.settle_at(place_read(lsn, &ptr))?;
        self.read_settled(pid, SegmentNumber(lsn.unsigned_abs() / size), ptr)
    }

    /// Reads what a pointer names from the device, and keeps a failure of it.
    fn read_settled(&mut self, page: PageId, number: SegmentNumber, ptr: DiskPtr) -> Result<LogRead>
        requires fault { fault_of self.old ≡ None }
        requires begin { MayBegin (segment_size_of self.old) (lid_of ptr) }
        ensures reading { IfOk result (IsReadOf C.sum_of (segment_size_of self.old) (state_of (D.trace (device_of self.old))) page number.0 ptr) }
        ensures damage { IfErr result (IsDamageOf C.sum_of (segment_size_of self.old) (state_of (D.trace (device_of self.old))) number.0 ptr) }
        ensures keeps { KeepsLog D.trace C.sum_of self.old self.new }
        ensures trace { D.trace (device_of self.new) ≡ D.trace (device_of self.old) }
        ensures line { line_of self.new ≡ line_of self.old }
        ensures ledger { ledger_of self.new ≡ ledger_of self.old }
        ensures pool { self.new.pool ≡ self.old.pool }
        ensures answers { let blobs = (state_of (D.trace (device_of self.old))).blobs.file in
            RecordAnswers C.sum_of blobs ptr result None (fault_of self.new) (D.faults (device_of self.old)) (D.faults (device_of self.new)) }
    {
        let answer = read_pointer(&mut self.config, page, number, ptr);
        self.fault.note(&answer);
        answer
    }

    /// Returns whether a message with this item has it in its record. Else `reserve` puts it into a blob.
    #[inline(always)]
    pub fn fits_inline<T: Serialize>(&self, item: &T) -> bool
        requires { T.fits (T.meaning item.now) }
        ensures { IsTrue result ↔ FitsInline (segment_size_of self.now) (length (T.short (T.meaning item.now))) }
    {
        item.serialized_size()
            <= self.config.config.segment_size / MINIMUM_ITEMS_PER_SEGMENT as u64 - 52
    }

    /// Gives the log up, and returns what it ran on. It writes nothing.
    pub fn halt(self) -> RunningConfig<D, C>
        ensures config { result ≡ config_of self }
        ensures recoverable { (H : History) (A f : ℕ) (U : List Message) → Fits D.trace C.sum_of self H A f U
            → LeavesRecoverable C.sum_of (segment_size_of self) H A f (state_of (D.trace result.device)) }
    {
        let Log {
            config,
            segments: _,
            ready: _,
            accountant: _,
            reserved_to: _,
            fault: _,
            pins: _,
            marks: _,
            batches: _,
            pool: _,
        } = self;
        config
    }
}
