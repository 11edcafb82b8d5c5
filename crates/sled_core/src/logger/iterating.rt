//! The messages of a running log by place: those of the segments that the log has, up to its stable end.
ghost use Rattle.std.specs.Prelude.{◌≡◌, ◌<◌, ◌++◌, ℕ, All, List, length, IfNone, IfSome, IfOk, IsOkUnless, None, OnOk, OnSome};
ghost use Rattle.sled_codec.specs.declared.result.Error.TheVariants.{OutOfMemory};
ghost use Rattle.sled_store.specs.Accounts.{IsAccountant, machine_of};
ghost use Rattle.sled_codec.specs.History.{History, Message};
ghost use Rattle.sled_store.specs.Device.{state_of};
ghost use Rattle.sled_core.specs.Recoverable.{NoHeaderOfZeros};
ghost use Rattle.sled_core.specs.invariants.Running.{Fits};
ghost use Rattle.sled_core.specs.Ahead.{CanGoOn, HasEnds};
ghost use Rattle.sled_core.specs.inside.Ahead.{IsLeft, IsSpent, most_left};
ghost use Rattle.sled_core.specs.Iterates.{Item, Damage, NextGives, NextAnswers, BehindLast};
ghost use Rattle.sled_core.specs.Keeps.{OnlyReads};
ghost use Rattle.sled_core.specs.inside.LogSegments.{list_of};
ghost use Rattle.sled_core.specs.LogSegments.{segment_within, segments_among};
ghost use Rattle.sled_store.specs.SegmentStates.{slot_at};

use crate::iterator::log_iter::LogIter;
use crate::iterator::rest::Rest;
use crate::iterator::{Segment, begins_from};
use crate::logger::Log;
use sled_codec::result::{DiskPtr, Error, Lsn, PageId, Result};
use sled_codec::serialization::{Checksum, LogKind};
use sled_store::segment::accountant::SegmentAccountant;
use sled_store::{Device, RunningConfig};
use std::alloc::Global;

impl<D: Device, C: Checksum> Log<D, C> {
    ghost use Rattle.sled_core.specs.Fits.{config_of, device_of, fault_of, machine_at, segment_size_of};
    ghost use Rattle.sled_core.specs.Causes.{FaultOrMemory};
    ghost use Rattle.sled_core.specs.Iterators.{BorrowsLog, GivesMessages, GoesOver, IsReadFor, IsRefusedFor, refusal_of};
    ghost use Rattle.sled_core.specs.LogSegments.{AreSegments, begins_from};

    /// Returns an iterator over the messages of the log by place, from the beginning of the segment that holds a place up to
    /// the stable end; a negative place counts as 0. It passes over messages that were given up, manifests, and messages whose blob is
    /// gone. It ends at a batch that doesn't end below the stable end, and at a segment whose header isn't there or a record that doesn't read.
    ///
    /// What stands for no message but can't be passed over is an item of it, and never its end: a failure of the device, which the log
    /// keeps; lack of memory; and damage, which is `Corruption` behind all messages that lie ahead of it: a record whose body has to
    /// have 8 bytes and hasn't, and a blob that doesn't pass for its record, named where its checksum fails. Behind an error it has ended.
    ///
    /// It goes over the segments that the log has in its slots. A segment is read as a whole when its first message is
    /// asked for. The list of segments takes memory: where that is refused, `OutOfMemory` is the one item. Where the log keeps a failure of
    /// its device, that is.
    pub fn iter_from(&mut self, lsn: Lsn) -> LogIter<'_, D, C>
        ensures messages { (H : History) (A f : ℕ) (U : List Message) → Fits D.trace C.sum_of self.old H A f U → NoHeaderOfZeros C.sum_of
            → IfNone (refusal_of result) (GivesMessages D.trace C.sum_of self.old H lsn result) }
        ensures goes_over { IfNone (refusal_of result) (GoesOver D.trace C.sum_of self.old lsn result) }
        ensures refused { IsRefusedFor (refusal_of result) (fault_of self.old) }
        ensures borrows { BorrowsLog self.entry result }
    {
        let alloc = self.config.alloc();
        let end = self.stable_end();
        match self.segments_from(lsn, end) {
            Ok(segments) => LogIter::over_log(self, Rest::new(alloc, segments, end, true)),
            Err(e) => {
                let none = Rest::new(alloc, Vec::new(alloc), 0, true);
                LogIter::refused(self, none, e)
            }
        }
    }

    /// The segments that begin from that of a place on, up to another place, by place.
    fn segments_from(&self, lsn: Lsn, to: u64) -> Result<Vec<Segment>>
        ensures segments { let size = segment_size_of self.now in
            IfOk result (λ v. AreSegments size (machine_at self.now) (begins_from size lsn) to v.items) }
        ensures ends { IfOk result (λ v. All (HasEnds (segment_size_of self.now)) v.items) }
        ensures answers { FaultOrMemory result ⊥ (fault_of self.now) }
    {
        if let Some(e) = self.fault.kept {
            return Err(Error::Io(e));
        }
        let size = self.config.config.segment_size;
        let from = begins_from(size, lsn);
        let alloc = self.config.alloc();
        let mut segments = segments_within(&self.accountant, alloc, size, from, to)?;
        segments.sort_by_key(|segment| segment.place)?;
        Ok(segments)
    }

    /// The next item of what is left of the log. A failure of the device is kept.
    #[inline(always)]
    pub(crate) fn next_of(
        &mut self,
        rest: &mut Rest,
    ) -> Option<Result<(LogKind, PageId, Lsn, DiskPtr, u64)>>
        requires fits { CanGoOn (segment_size_of self.old) rest.old }
        ensures fits { CanGoOn (segment_size_of self.old) rest.new }
        ensures gives { (items : List Item) (damage : Damage) → IsLeft D.trace C.sum_of (config_of self.old) rest.old items damage
            → NextGives (IsLeft D.trace C.sum_of (config_of self.old) rest.new) items damage result }
        ensures ended { BehindLast result (IsSpent rest.new) }
        ensures over { IsSpent rest.old → result ≡ None }
        ensures fewer { OnSome result (most_left rest.new < most_left rest.old) }
        ensures answers { let blobs = (state_of (D.trace (device_of self.old))).blobs.file in
            NextAnswers C.sum_of blobs result (D.faults (device_of self.old)) (D.faults (device_of self.new)) }
        ensures reads { OnlyReads D.trace (config_of self.old) (config_of self.new) }
        ensures log { IsReadFor D.trace C.sum_of result self.old self.new }
    {
        let item = rest.next(&mut self.config);
        self.fault.note_item(&item);
        item
    }
}

/// The segments that begin from one place up to another, slot by slot.
fn segments_within(
    accountant: &SegmentAccountant,
    alloc: Global,
    size: u64,
    from: u64,
    to: u64,
) -> Result<Vec<Segment>>
    requires { IsAccountant size accountant.now }
    ensures segments { IfOk result (λ v. v.items ≡ segments_among size from to 0 (machine_of accountant.now).slots) }
    ensures ends { IfOk result (λ v. All (HasEnds size) v.items) }
    ensures memory { IsOkUnless result OutOfMemory }
{
    let mut segments = Vec::new(alloc);
    let count = accountant.slot_count();
    let mut slot = 0;
    while slot < count {
        put(
            &mut segments,
            segment_within(accountant, slot, size, from, to),
        )?;
        slot += 1;
    }
    Ok(segments)
}

/// Puts a segment behind others, where there is one.
fn put(segments: &mut Vec<Segment>, found: Option<Segment>) -> Result<()>
    ensures put { OnOk result (segments.new.items ≡ segments.old.items ++ list_of found) }
    ensures memory { IsOkUnless result OutOfMemory }
{
    if let Some(segment) = found {
        segments.push(segment)?;
    }
    Ok(())
}

/// The segment in a slot, where it begins from one place up to another.
fn segment_within(
    accountant: &SegmentAccountant,
    slot: u64,
    size: u64,
    from: u64,
    to: u64,
) -> Option<Segment>
    requires account { IsAccountant size accountant.now }
    requires slot { slot < length (machine_of accountant.now).slots }
    ensures is { list_of result ≡ segment_within size from to slot (slot_at (machine_of accountant.now) slot) }
    ensures ends { IfSome result (HasEnds size) }
{
    let place = accountant.segment_in(slot)?;
    if place < from || place >= to || place >= (1 << 63) - size {
        return None;
    }
    Some(Segment {
        place,
        slot: slot * size,
        mark: -1,
    })
}
