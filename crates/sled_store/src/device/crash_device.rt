//! A device that a test can stop and make crash.
ghost use Rattle.std.specs.Prelude.{◌≡◌, ◌↔◌, ◌∷◌, [], ℕ, Bool, IsTrue, false, if◌then◌else◌};
ghost use Rattle.sled_store.specs.Device.{state_of, StopAsked, Crashed, Settled};
ghost use Rattle.sled_store.specs.Noted.{left_of};
ghost use Rattle.sled_store.specs.Chosen.{MayBeChosen};
ghost use Rattle.sled_store.specs.Stops.{KeepsToStop};

use crate::{Choice, Device};

/// A device that a test can stop within a call, and make crash.
pub trait CrashDevice: Device {
    /// A call was stopped within, and no crash came since.
    ghost is_stopped: { Self → Bool };

    /// Which call is to fail, counted from the next one on; 0 for none.
    ghost fails_in: { Self → ℕ } = { λ device. 0 };

    /// Of the calls that change or sync, `n` more are done, and the next is stopped within: what it changes
    /// is done, and nothing is settled by it. All calls fail from then on until a crash. It takes the
    /// place of an earlier `stop_after`. Asked of a device that is stopped it changes nothing.
    fn stop_after(&mut self, n: u64)
        ensures trace { Self.trace self.new ≡ (if is_stopped self.old then Self.trace self.old else StopAsked n ∷ Self.trace self.old) }
        ensures faults { Self.faults self.new ≡ Self.faults self.old }
        ensures fails { fails_in self.new ≡ fails_in self.old }
        ensures stopped { is_stopped self.new ≡ is_stopped self.old };

    /// Whether a call was stopped within, and no crash came since. It is only where `stop_after` asked for that.
    fn stopped(&self) -> bool
        ensures stopped { result ≡ is_stopped self.now }
        ensures asked { KeepsToStop (Self.trace self.now) (is_stopped self.now) };

    /// Leaves what was chosen, where a crash now may leave that, and else what was settled; answers which.
    /// It ends what `stop_after` asked for, and any failure that was asked for.
    fn crash(&mut self, choice: Choice) -> bool
        ensures taken { IsTrue result ↔ MayBeChosen choice (state_of (Self.trace self.old)) }
        ensures left { Self.trace self.new ≡ Crashed (if result then left_of choice else Settled []) ∷ Self.trace self.old }
        ensures faults { Self.faults self.new ≡ Self.faults self.old }
        ensures fails { fails_in self.new ≡ 0 }
        ensures stopped { is_stopped self.new ≡ false };
}
