//! The crash of a device in memory. It wants no memory.
ghost use Rattle.std.specs.Prelude.{◌≡◌, ◌↔◌, ◌∷◌, [], IsTrue, false, ◌&&◌, if◌then◌else◌};
ghost use Rattle.sled_store.specs.Device.{state_of, Crashed, Settled, Latest};

mod log;
mod names;
mod offer;
mod taken;

use crate::device::memory::MemDevice;
use crate::device::memory::crash::offer::is_ascending;
use crate::device::memory::trace::Note;
use crate::{Choice, CrashDevice, Offer};

impl MemDevice {
    ghost use Rattle.sled_store.specs.Chosen.{MayBeLeft};
    ghost use Rattle.sled_store.specs.Noted.{offered};

    // Leaves what is settled, with other bytes at these offsets, where a crash may.
    pub(crate) fn crash_back(&mut self, patch: &[(u64, u8)]) -> bool
        ensures taken { IsTrue result ↔ MayBeLeft (Settled patch.now) (state_of self.old.story.trace.events) }
        ensures left { self.new.story.trace.events ≡ Crashed (if result then Settled patch.now else Settled []) ∷ self.old.story.trace.events }
        ensures count { self.new.story.faults.count ≡ self.old.story.faults.count }
        ensures fails_in { self.new.story.faults.fails_in ≡ 0 }
        ensures stopped { self.new.story.faults.is_stopped ≡ false }
    {
        let taken = self.log.crash(true, patch);
        self.blobs.lose();
        self.snapshots.lose();
        if taken {
            self.story.crash(&Note::CrashedOld { patch });
            return true;
        }
        self.story.crash(&Note::CrashedOld { patch: &[] });
        false
    }

    // Leaves what was last written, with other bytes at these offsets, where a crash may.
    pub(crate) fn crash_on(&mut self, patch: &[(u64, u8)]) -> bool
        ensures taken { IsTrue result ↔ MayBeLeft (Latest patch.now) (state_of self.old.story.trace.events) }
        ensures left { self.new.story.trace.events ≡ Crashed (if result then Latest patch.now else Settled []) ∷ self.old.story.trace.events }
        ensures count { self.new.story.faults.count ≡ self.old.story.faults.count }
        ensures fails_in { self.new.story.faults.fails_in ≡ 0 }
        ensures stopped { self.new.story.faults.is_stopped ≡ false }
    {
        if self.log.crash(false, patch) {
            self.blobs.hold();
            self.snapshots.hold();
            self.story.crash(&Note::CrashedNew { patch });
            return true;
        }
        self.blobs.lose();
        self.snapshots.lose();
        self.story.crash(&Note::CrashedOld { patch: &[] });
        false
    }

    // Leaves an offered content, where a crash may.
    pub(crate) fn crash_with(&mut self, offer: Offer) -> bool
        ensures taken { IsTrue result ↔ MayBeLeft (offered offer) (state_of self.old.story.trace.events) }
        ensures left { self.new.story.trace.events ≡ Crashed (if result then offered offer else Settled []) ∷ self.old.story.trace.events }
        ensures count { self.new.story.faults.count ≡ self.old.story.faults.count }
        ensures fails_in { self.new.story.faults.fails_in ≡ 0 }
        ensures stopped { self.new.story.faults.is_stopped ≡ false }
    {
        if !self.may_leave(&offer) {
            self.lose();
            return false;
        }
        self.story.crash(&Note::CrashedWith { offer: &offer });
        let Offer {
            bytes,
            blobs,
            snapshots,
        } = offer;
        self.log.take(&bytes);
        self.blobs.take(blobs);
        self.snapshots.take(snapshots);
        true
    }

    // Leaves what is settled.
    fn lose(&mut self)
        ensures left { self.new.story.trace.events ≡ Crashed (Settled []) ∷ self.old.story.trace.events }
        ensures count { self.new.story.faults.count ≡ self.old.story.faults.count }
        ensures fails_in { self.new.story.faults.fails_in ≡ 0 }
        ensures stopped { self.new.story.faults.is_stopped ≡ false }
    {
        self.log.lose();
        self.blobs.lose();
        self.snapshots.lose();
        self.story.crash(&Note::CrashedOld { patch: &[] });
    }

    // Whether a crash may leave an offered content.
    fn may_leave(&self, offer: &Offer) -> bool
        ensures { IsTrue result ↔ MayBeLeft (offered offer.now) (state_of self.now.story.trace.events) }
    {
        let ascending = both(is_ascending(&offer.blobs), is_ascending(&offer.snapshots));
        let names = both(
            self.blobs.may_leave(&offer.blobs),
            self.snapshots.may_leave(&offer.snapshots),
        );
        let log = self.log.may_leave(&offer.bytes);
        both(both(ascending, log), names)
    }
}

fn both(a: bool, b: bool) -> bool
    ensures { result ≡ (a && b) }
{
    a && b
}

impl CrashDevice for MemDevice {
    ghost is_stopped = { λ device. device.story.faults.is_stopped };

    ghost fails_in = { λ device. device.story.faults.fails_in };

    fn stop_after(&mut self, n: u64) {
        self.story.arm(n);
    }

    fn stopped(&self) -> bool {
        self.story.faults.is_stopped
    }

    fn crash(&mut self, choice: Choice) -> bool {
        match choice {
            Choice::Old(patch) => self.crash_back(&patch),
            Choice::New(patch) => self.crash_on(&patch),
            Choice::Whole(offer) => self.crash_with(offer),
        }
    }
}
