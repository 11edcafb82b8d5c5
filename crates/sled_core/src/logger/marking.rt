//! Marks: what a caller tells the log of the messages that it completed (`specs/Marking.antt`).
//!
//! A segment can come back once each of its messages is replaced by one that is marked. Neither a mark nor a page that
//! is asked for touches the device.
ghost use Rattle.std.specs.Prelude.{◌≡◌, ◌↔◌, [], ℕ, List, true, IsTrue, OnOk};
ghost use Rattle.sled_codec.specs.declared.serialization.message.LogKind.TheVariants.{Link};
ghost use Rattle.sled_codec.specs.History.{History, Message, begins_page};
ghost use Rattle.sled_store.specs.Marks.{IsFormerList};
ghost use Rattle.sled_store.specs.Outdated.{NoneShares};
ghost use Rattle.sled_store.specs.SegmentStates.{MayMark, first_page, linked, popped, replaced};
ghost use Rattle.sled_core.specs.Causes.{FaultOrMemory};
ghost use Rattle.sled_core.specs.Fits.{fault_of, machine_at, segment_size_of};
ghost use Rattle.sled_core.specs.Keeps.{Preserves};
ghost use Rattle.sled_core.specs.Marking.{ChangesAccount, IsOfMessage, KeepsMarked, Marks, TakesMark};
ghost use Rattle.sled_core.specs.Unmarked.{without};
ghost use Rattle.sled_core.specs.invariants.Running.{Fits};

use crate::logger::Log;
use sled_codec::result::{Error, LogOffset, Lsn, PageId, Result};
use sled_codec::serialization::Checksum;
use sled_store::Device;
use sled_store::segment::accountant::CacheInfo;

impl<D: Device, C: Checksum> Log<D, C> {
    /// Whether a message may be marked in place of older ones: its segment is active, and each of these lies in the
    /// segment that its slot has.
    pub fn can_mark(&self, new: CacheInfo, old: &[CacheInfo]) -> bool
        ensures { IsTrue result ↔ MayMark (segment_size_of self.now) (machine_at self.now) new old.now }
    {
        self.accountant.can_mark(new, old)
    }

    /// Marks a completed message of a page that is there beside all that the page has: a Link.
    ///
    /// # Errors
    ///
    /// `Io` exactly where the log keeps a failure of its device, and `OutOfMemory`. Nothing was marked.
    pub fn mark_link(&mut self, pid: PageId, info: CacheInfo) -> Result<()>
        requires may { MayMark (segment_size_of self.old) (machine_at self.old) info [] }
        ensures marks { Marks result (linked (segment_size_of self.old) pid info) self.old self.new }
        ensures keeps { KeepsMarked D.trace C.sum_of result self.old self.new }
        ensures fits { (H : History) (A f : ℕ) (U V : List Message) (m : Message) → Fits D.trace C.sum_of self.old H A f U
            → TakesMark H U m V → IsOfMessage m pid info → m.kind ≡ Link → OnOk result (Fits D.trace C.sum_of self.new H A f V) }
        ensures answers { FaultOrMemory result ⊥ (fault_of self.old) }
    {
        if let Some(e) = self.fault.kept {
            return Err(Error::Io(e));
        }
        self.accountant.mark_link(&mut self.config, pid, info)
    }

    /// Marks a completed message of a page that is there in place of all that the page had, which is `old`: a Replace or
    /// a Free. `lsn` is its place. The segments of these hold less then, by the lengths that `old` tells, which say how
    /// much a segment still holds, and nothing else: what is fitted asks for none (`IsFormerList`). A start counts 32 for
    /// a page that was given back before it, since no snapshot has the length of its Free; so 32 is told of that.
    ///
    /// The blobs that the older ones name, but for the new message's own, go once the segment of the new message is
    /// deactivated. So no other message may need one of those: none of another page, and none of this page above the new
    /// one, names it (`NoneShares`).
    ///
    /// # Errors
    ///
    /// As of `mark_link`.
    pub fn mark_replace(
        &mut self,
        pid: PageId,
        lsn: Lsn,
        old: &[CacheInfo],
        new: CacheInfo,
    ) -> Result<()>
        requires lsn { lsn ≡ new.lsn }
        requires may { MayMark (segment_size_of self.old) (machine_at self.old) new old.now }
        ensures marks { Marks result (replaced (segment_size_of self.old) pid new old.now) self.old self.new }
        ensures keeps { KeepsMarked D.trace C.sum_of result self.old self.new }
        ensures fits { (H : History) (A f : ℕ) (U V : List Message) (m : Message) → Fits D.trace C.sum_of self.old H A f U
            → TakesMark H U m V → IsOfMessage m pid new → begins_page m.kind ≡ true
            → IsFormerList (without U H) pid old.now → NoneShares H m old.now
            → OnOk result (Fits D.trace C.sum_of self.new H A f V) }
        ensures answers { FaultOrMemory result ⊥ (fault_of self.old) }
    {
        if let Some(kept) = self.fault.kept {
            return Err(Error::Io(kept));
        }
        self.accountant
            .mark_replace(&mut self.config, pid, lsn, old, new)
    }

    /// Returns a page that is to be written again, so that its segment comes free, with the offset of its slot: the least
    /// page of the lowest slot that is drained. Where none of that slot's is left, `None`, and a further call goes on with
    /// the next slot.
    pub fn clean_pop(&mut self) -> Option<(PageId, LogOffset)>
        ensures page { result ≡ first_page (segment_size_of self.old) (machine_at self.old).cleaner }
        ensures pops { machine_at self.new ≡ record (machine_at self.old) { cleaner = popped (machine_at self.old).cleaner } }
        ensures rest { ChangesAccount self.old self.new }
        ensures keeps { Preserves D.trace C.sum_of self.old self.new }
    {
        self.accountant.clean_pop()
    }
}
