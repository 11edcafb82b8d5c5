//! What is left of a log file for an iterator to give (`specs/Ahead.antt`).
ghost use Rattle.std.specs.Prelude.{◌≡◌, ◌↔◌, ◌+◌, ◌^◌, ◌≤◌, ◌<◌, ℤ, pos, nat_lt, List, [], true, false, Ok, None, length, take, IsTrue, IfOk, OnOk, IfNone, OnSome};
ghost use Rattle.sled_codec.specs.Errors.{IsCorruption};
ghost use Rattle.sled_store.specs.Causes.{DeviceAnswers};
ghost use Rattle.sled_store.specs.Device.{state_of};
ghost use Rattle.sled_core.specs.Causes.{ItemAnswersOver};
ghost use Rattle.sled_core.specs.Keeps.{OnlyReads};
ghost use Rattle.sled_codec.specs.Record.{IsHeader};
ghost use Rattle.sled_core.specs.Iterates.{Item, Damage, items_of, NextGives, NextAnswers, BehindLast, stops};
ghost use Rattle.sled_core.specs.Ahead.{CanGoOn};
ghost use Rattle.sled_core.specs.inside.Ahead.{IsLeft, IsGiven, IsSpent, Finds, IsEnd, most_left, read_behind, those_of};

use crate::iterator::blobs::find_blob;
use crate::iterator::records::{opens, scan_into};
use crate::iterator::scan::{RecordContent, ScanEnd, ScannedRecord, SegmentScan};
use crate::iterator::{Segment, read_slot, segment_in};
use crate::logger::read_at::BasedBuf;
use sled_codec::result::{DiskPtr, Error, Lsn, PageId, Result};
use sled_codec::serialization::{Checksum, LogKind};
use sled_store::{Device, RunningConfig};
use std::alloc::Global;

/// What is left to be given.
#[derive(Drop)]
pub struct Rest {
    /// Whether it ends at a segment whose header isn't there, and behind one that isn't read to its end.
    pub(crate) strict: bool,
    /// The segments that begin below the end of the tail, by place.
    pub(crate) segments: Vec<Segment>,
    /// How many of them were read.
    pub(crate) read: usize,
    /// What was met in the one that was read last.
    pub(crate) met: Vec<ScannedRecord>,
    /// How many of these records had their turn.
    pub(crate) given: usize,
    /// A damaged record stands behind them, below the end.
    pub(crate) damaged: bool,
    /// Nothing is given from here on.
    pub(crate) end: u64,
}

impl Rest {
    /// Returns what is left of segments of which none was read yet. They are those that begin below the end, by place. It is strict where
    /// they are to lie behind one another as a log wrote them.
    pub fn new(alloc: Global, segments: Vec<Segment>, end: u64, strict: bool) -> Rest
        ensures strict { result.strict ≡ strict }
        ensures segments { result.segments ≡ segments }
        ensures end { result.end ≡ end }
        ensures read { result.read ≡ 0 }
        ensures met { result.met.items ≡ [] }
        ensures given { result.given ≡ 0 }
        ensures undamaged { result.damaged ≡ false }
    {
        Rest {
            strict,
            segments,
            read: 0,
            met: Vec::new(alloc),
            given: 0,
            damaged: false,
            end,
        }
    }

    /// The next message. Behind the last one and behind an error nothing is left.
    #[inline(always)]
    pub(crate) fn next<D: Device, C: Checksum>(
        &mut self,
        config: &mut RunningConfig<D, C>,
    ) -> Option<Result<(LogKind, PageId, Lsn, DiskPtr, u64)>>
        requires fits { CanGoOn config.old.config.segment_size self.old }
        ensures fits { CanGoOn config.old.config.segment_size self.new }
        ensures gives { (items : List Item) (damage : Damage) → IsLeft D.trace C.sum_of config.old self.old items damage
            → NextGives (IsLeft D.trace C.sum_of config.old self.new) items damage result }
        ensures ended { BehindLast result (IsSpent self.new) }
        ensures over { IsSpent self.old → result ≡ None }
        ensures fewer { OnSome result (most_left self.new < most_left self.old) }
        ensures answers { let blobs = (state_of (D.trace config.old.device)).blobs.file in
            NextAnswers C.sum_of blobs result (D.faults config.old.device) (D.faults config.new.device) }
        ensures reads { OnlyReads D.trace config.old config.new }
    {
        match self.next_message(config) {
            Ok(Some(message)) => Some(Ok(message)),
            Ok(None) => None,
            Err(e) => {
                self.finish();
                Some(Err(e))
            }
        }
    }

    /// The next message, where one is left; else nothing is. `Corruption` comes where a damaged record is the next one that is
    /// met, or one whose blob doesn't pass for it.
    #[inline(always)]
    fn next_message<D: Device, C: Checksum>(
        &mut self,
        config: &mut RunningConfig<D, C>,
    ) -> Result<Option<(LogKind, PageId, Lsn, DiskPtr, u64)>>
        requires fits { CanGoOn config.old.config.segment_size self.old }
        ensures fits { CanGoOn config.old.config.segment_size self.new }
        ensures finds { (items : List Item) (damage : Damage) → IsLeft D.trace C.sum_of config.old self.old items damage
            → Finds (IsLeft D.trace C.sum_of config.old self.new) IsEnd items damage result }
        ensures spent { IfOk result (λ o. IfNone o (IsSpent self.new)) }
        ensures over { IsSpent self.old → result ≡ Ok None }
        ensures fewer { IfOk result (λ o. OnSome o (most_left self.new < most_left self.old)) }
        ensures answers { ItemAnswersOver D.trace D.faults C.sum_of result config.old config.new }
        ensures reads { OnlyReads D.trace config.old config.new }
    {
        loop {
            match self.next_met(config) {
                Ok(Some(message)) => return Ok(Some(message)),
                Ok(None) => {}
                Err(e) => return Err(e),
            }
            if self.read >= self.segments.len() {
                return Ok(None);
            }
            match self.read_segment(config) {
                Ok(()) => {}
                Err(e) => return Err(e),
            }
        }
    }

    /// The next message of those that were met in the segment that was read last. At the end, and at a batch that does not end below it,
    /// nothing is left. `Corruption` comes where a blob doesn't pass for its record, and behind them where a damaged record stands there.
    #[inline(always)]
    fn next_met<D: Device, C: Checksum>(
        &mut self,
        config: &mut RunningConfig<D, C>,
    ) -> Result<Option<(LogKind, PageId, Lsn, DiskPtr, u64)>>
        requires fits { CanGoOn config.old.config.segment_size self.old }
        ensures fits { CanGoOn config.old.config.segment_size self.new }
        ensures finds { (items : List Item) (damage : Damage) → IsLeft D.trace C.sum_of config.old self.old items damage
            → Finds (IsLeft D.trace C.sum_of config.old self.new) (IsLeft D.trace C.sum_of config.old self.new) items damage result }
        ensures none { IfOk result (λ o. IfNone o (IsGiven self.new)) }
        ensures on { self.new.read < length self.new.segments.items → self.new.read ≡ self.old.read }
        ensures segments { self.new.segments ≡ self.old.segments }
        ensures over { IsSpent self.old → (result ≡ Ok None) × IsSpent self.new }
        ensures fewer { IfOk result (λ o. OnSome o (most_left self.new < most_left self.old)) }
        ensures no_more { most_left self.new ≤ most_left self.old }
        ensures answers { ItemAnswersOver D.trace D.faults C.sum_of result config.old config.new }
        ensures reads { OnlyReads D.trace config.old config.new }
    {
        while self.given < self.met.len() {
            let mut met = self.met[self.given];
            if stops(&met, self.end) {
                self.finish();
                return Ok(None);
            }
            self.given += 1;
            match find_blob(config, &mut met) {
                Ok(()) => {
                    if let Some(message) = message_of(&met) {
                        return Ok(Some(message));
                    }
                }
                Err(e) => return Err(e),
            }
        }
        if self.damaged {
            return Err(Error::Corruption { at: None });
        }
        Ok(None)
    }

    /// Reads the next segment, and keeps what is met in it, or ahead of a damaged record in it before a batch that does not end
    /// below the end. Where the header isn't there that was asked for, nothing is left.
    #[inline(never)]
    fn read_segment<D: Device, C: Checksum>(
        &mut self,
        config: &mut RunningConfig<D, C>,
    ) -> Result<()>
        requires fits { CanGoOn config.old.config.segment_size self.old }
        requires more { self.old.read < length self.old.segments.items }
        requires done { IsGiven self.old }
        ensures fits { CanGoOn config.old.config.segment_size self.new }
        ensures ahead { (items : List Item) (damage : Damage) → IsLeft D.trace C.sum_of config.old self.old items damage
            → OnOk result (IsLeft D.trace C.sum_of config.old self.new items damage) }
        ensures readable { IsCorruption result → ⊥ }
        ensures on { self.old.read < self.new.read }
        ensures segments { self.new.segments ≡ self.old.segments }
        ensures no_more { OnOk result (most_left self.new ≤ most_left self.old) }
        ensures answers { DeviceAnswers result (D.faults config.old.device) (D.faults config.new.device) }
        ensures reads { OnlyReads D.trace config.old config.new }
    {
        let segment = self.segments[self.read];
        self.read += 1;
        match read_slot(config, segment.slot) {
            Ok(mut buf) => {
                if !self.finds(&config.checksum, &buf, segment.place) {
                    self.finish();
                    return Ok(());
                }
                let mut scan = SegmentScan::begin(config.alloc());
                match scan_into(config, &mut buf, &segment, self.end, &mut scan) {
                    Ok(()) => {
                        self.keep(scan);
                        Ok(())
                    }
                    Err(Error::Corruption { at: _ }) => {
                        let place = segment.place + scan.stop;
                        self.keep_damaged(scan, place);
                        Ok(())
                    }
                    Err(e) => Err(e),
                }
            }
            Err(e) => Err(e),
        }
    }

    /// Whether a segment that begins at a place is found in the bytes of its slot. One that isn't strict knows that it was.
    fn finds<C: Checksum>(&self, checksum: &C, buf: &BasedBuf, place: u64) -> bool
        ensures { IsTrue result ↔ (self.now.strict ≡ true → (mark : ℤ) × IsHeader C.sum_of (take 20 buf.now.buf.items) (pos place) mark) }
    {
        !self.strict || begins_at(checksum, buf, place)
    }

    /// Keeps what was met in a segment. Behind one that wasn't read to its end a strict iterator goes no further.
    fn keep(&mut self, scan: SegmentScan)
        ensures kept { self.new ≡ record self.old { read = read_behind self.old scan.ending; met = scan.met; given = 0 } }
    {
        if self.strict && scan.ending == ScanEnd::Broken {
            self.read = self.segments.len();
        }
        self.met = scan.met;
        self.given = 0;
    }

    /// Keeps what was met ahead of a damaged record that lies at a place. Nothing is read behind it.
    fn keep_damaged(&mut self, scan: SegmentScan, place: u64)
        ensures kept { self.new ≡ record self.old { read = length self.old.segments.items; met = scan.met; given = 0; damaged = nat_lt place self.old.end } }
    {
        self.read = self.segments.len();
        self.met = scan.met;
        self.given = 0;
        self.damaged = place < self.end;
    }

    /// Leaves nothing.
    fn finish(&mut self)
        ensures { self.new ≡ record self.old { read = length self.old.segments.items; given = length self.old.met.items; damaged = false } }
    {
        self.read = self.segments.len();
        self.given = self.met.len();
        self.damaged = false;
    }
}

/// Whether an iterator ends at a record: it lies at the end or behind it, or begins a batch that does not end below it.
#[inline(always)]
fn stops(met: &ScannedRecord, end: u64) -> bool
    requires { end < 2 ^ 63 }
    ensures { result ≡ stops end met.now }
{
    end <= met.place || opens(&met.what, end)
}

/// Whether the header stands at the beginning of a slot of the segment that begins at a place.
fn begins_at<C: Checksum>(checksum: &C, buf: &BasedBuf, place: u64) -> bool
    ensures { IsTrue result ↔ ((mark : ℤ) × IsHeader C.sum_of (take 20 buf.now.buf.items) (pos place) mark) }
{
    match segment_in(checksum, buf, place) {
        Some(segment) => segment.place == place,
        None => false,
    }
}

/// A record as a message, where it is one.
#[inline(always)]
fn message_of(met: &ScannedRecord) -> Option<(LogKind, PageId, Lsn, DiskPtr, u64)>
    requires { met.now.place < 2 ^ 63 }
    ensures { items_of met.now met.now.what ≡ those_of result }
{
    match met.what {
        RecordContent::Gives(kind, page, pointer) => {
            Some((kind, page, met.place as i64, pointer, met.len))
        }
        RecordContent::NamesBlob(_, _, _, _)
        | RecordContent::Skipped
        | RecordContent::BatchStart(_) => None,
    }
}
