//! What was asked of a device in memory so far, with its failures: how it keeps to the stop that was asked for.
//!
//! Each change of the trace goes with its count here, so that a fact of the type ties the two.
ghost use Rattle.std.specs.Prelude.{◌≡◌, ◌≢◌, ◌<◌, ◌+◌, ◌-◌, ◌%◌, ◌^◌, ◌||◌, ◌==◌, [], ◌∷◌, length, IfErr, OnOk, OnErr, true, false, Some, None, if◌then◌else◌};
ghost use Rattle.std.proofs.Props.{props};
ghost use Rattle.std.specs.IoError.{error_kind};
ghost use Rattle.std.specs.declared.io.ErrorKind.TheVariants.{Other};
ghost use Rattle.sled_store.specs.Answers.{Counts};
ghost use Rattle.sled_store.specs.Device.{Left, Wrote, StopAsked, Crashed};
ghost use Rattle.sled_store.specs.inside.MemoryStops.{FollowsStop};
ghost use Rattle.sled_store.specs.inside.Noted.{event_of};
ghost use Rattle.sled_store.specs.Stops.{is_done, is_sync, left_to_do};
ghost use Rattle.sled_store.specs.inside.Stops.{one_fewer};

use crate::device::memory::faults::Faults;
use crate::device::memory::trace::{GhostTrace, Note};
use std::io;

// The trace, and the failures.
#[derive(Drop)]
pub(crate) struct Story {
    pub(crate) trace: GhostTrace,
    pub(crate) faults: Faults,
    ghost follows: { FollowsStop faults trace.events } by { Prim.hlevel props },
}

impl Story {
    // Nothing was asked yet.
    pub(crate) fn new() -> Story
        ensures trace { result.trace.events ≡ [] }
        ensures count { result.faults.count ≡ 0 }
        ensures fails_in { result.faults.fails_in ≡ 0 }
        ensures stopped { result.faults.is_stopped ≡ false }
    {
        Story {
            trace: GhostTrace::new(),
            faults: Faults::new(),
        }
    }

    // A call came: it goes on, unless it is the one that fails or all do.
    pub(crate) fn begin(&mut self) -> io::Result<()>
        ensures goes_on { OnOk result ((self.old.faults.is_stopped || self.old.faults.fails_in == 1) ≡ false) }
        ensures going { OnOk result (self.new.faults.is_stopped ≡ false) }
        ensures fails { OnErr result ((self.old.faults.is_stopped || self.old.faults.fails_in == 1) ≡ true) }
        ensures kind { IfErr result (λ e. error_kind e ≡ Other) }
        ensures count { Counts result self.old.faults.count self.new.faults.count }
        ensures rest { self.new.faults ≡ record self.old.faults { count = self.new.faults.count; fails_in = self.old.faults.fails_in - 1 } }
        ensures trace { self.new.trace.events ≡ self.old.trace.events }
    {
        self.faults.begin()
    }

    // A call changed the device: it is done, or it is the one that was to be stopped within.
    pub(crate) fn change(&mut self, note: &Note<'_>) -> io::Result<()>
        requires going { self.old.faults.is_stopped ≡ false }
        requires whole { is_done (event_of note.now) ≡ true }
        requires no_sync { is_sync (event_of note.now) ≡ false }
        ensures done { OnOk result (left_to_do self.old.trace.events ≢ Some 0) }
        ensures stops { OnErr result (left_to_do self.old.trace.events ≡ Some 0) }
        ensures kind { IfErr result (λ e. error_kind e ≡ Other) }
        ensures count { Counts result self.old.faults.count self.new.faults.count }
        ensures fails_in { self.new.faults.fails_in ≡ self.old.faults.fails_in }
        ensures fewer { OnOk result (left_to_do self.new.trace.events ≡ one_fewer (left_to_do self.old.trace.events)) }
        ensures none { OnErr result (left_to_do self.new.trace.events ≡ Some 0) }
        ensures going_on { OnOk result (self.new.faults.is_stopped ≡ false) }
        ensures stopped { OnErr result (self.new.faults.is_stopped ≡ true) }
        ensures trace { self.new.trace.events ≡ event_of note.now ∷ self.old.trace.events }
    {
        self.trace = self.trace.then(note);
        self.faults.end()
    }

    // A call is to settle: it is done, or it is the one that was to be stopped within, and settles nothing.
    pub(crate) fn settle(&mut self, note: &Note<'_>) -> io::Result<()>
        requires going { self.old.faults.is_stopped ≡ false }
        requires whole { is_done (event_of note.now) ≡ true }
        ensures done { OnOk result (left_to_do self.old.trace.events ≢ Some 0) }
        ensures stops { OnErr result (left_to_do self.old.trace.events ≡ Some 0) }
        ensures kind { IfErr result (λ e. error_kind e ≡ Other) }
        ensures count { Counts result self.old.faults.count self.new.faults.count }
        ensures fails_in { self.new.faults.fails_in ≡ self.old.faults.fails_in }
        ensures fewer { OnOk result (left_to_do self.new.trace.events ≡ one_fewer (left_to_do self.old.trace.events)) }
        ensures none { OnErr result (left_to_do self.new.trace.events ≡ Some 0) }
        ensures going_on { OnOk result (self.new.faults.is_stopped ≡ false) }
        ensures stopped { OnErr result (self.new.faults.is_stopped ≡ true) }
        ensures settled { OnOk result (self.new.trace.events ≡ event_of note.now ∷ self.old.trace.events) }
        ensures nothing { OnErr result (self.new.trace.events ≡ self.old.trace.events) }
    {
        self.faults.end()?;
        self.trace = self.trace.then(note);
        Ok(())
    }

    // A write failed, and left a part of its bytes.
    pub(crate) fn tear(&mut self, at: u64, asked: &[u8], now: &[u8])
        requires going { self.old.faults.is_stopped ≡ false }
        requires short { length now.now < length asked.now }
        ensures faults { self.new.faults ≡ self.old.faults }
        ensures same { left_to_do self.new.trace.events ≡ left_to_do self.old.trace.events }
        ensures trace { self.new.trace.events ≡ Wrote at asked.now now.now ∷ self.old.trace.events }
    {
        self.trace = self.trace.then(&Note::Wrote { at, asked, now });
    }

    // A stop was asked for. Of a device that is stopped it changes nothing.
    pub(crate) fn arm(&mut self, n: u64)
        ensures count { self.new.faults.count ≡ self.old.faults.count }
        ensures fails_in { self.new.faults.fails_in ≡ self.old.faults.fails_in }
        ensures stopped { self.new.faults.is_stopped ≡ self.old.faults.is_stopped }
        ensures trace { self.new.trace.events ≡ (if self.old.faults.is_stopped then self.old.trace.events else StopAsked n ∷ self.old.trace.events) }
    {
        if self.faults.is_stopped {
            return;
        }
        self.trace = self.trace.then(&Note::StopAsked { n });
        self.faults.stops_after = Some(n);
    }

    // A crash came: no call is to fail any more, or to be stopped within.
    pub(crate) fn crash(&mut self, note: &Note<'_>)
        requires { (left : Left) × (event_of note.now ≡ Crashed left) }
        ensures count { self.new.faults.count ≡ self.old.faults.count }
        ensures fails_in { self.new.faults.fails_in ≡ 0 }
        ensures stopped { self.new.faults.is_stopped ≡ false }
        ensures trace { self.new.trace.events ≡ event_of note.now ∷ self.old.trace.events }
    {
        self.trace = self.trace.then(note);
        self.faults.unwritten();
    }

    // This call from now fails, and no other that was to.
    pub(crate) fn fail_at(&mut self, n: u64)
        ensures faults { self.new.faults ≡ record self.old.faults { fails_in = n } }
        ensures trace { self.new.trace.events ≡ self.old.trace.events }
    {
        self.faults.fails_in = n;
    }
}
