//! A log over a device that a test can stop within a call.
ghost use Rattle.std.specs.Prelude.{if◌then◌else◌, ◌≡◌, ◌∷◌};
ghost use Rattle.sled_store.specs.Device.{StopAsked};
ghost use Rattle.sled_store.specs.Stops.{KeepsToStop};
ghost use Rattle.sled_core.specs.Fits.{device_of};
ghost use Rattle.sled_core.specs.Keeps.{KeepsLog, IsUnchangedOver};

use crate::logger::Log;
use sled_codec::serialization::Checksum;
use sled_store::CrashDevice;

impl<D: CrashDevice, C: Checksum> Log<D, C> {
    /// Has the device stop within a call, as `CrashDevice::stop_after`: of its calls that change or sync, `n` more are done,
    /// and the next is stopped within. Of a device that is stopped it changes nothing. Nothing else of the log is another.
    pub fn stop_after(&mut self, n: u64)
        ensures trace { D.trace (device_of self.new)
            ≡ (if D.is_stopped (device_of self.old) then D.trace (device_of self.old) else StopAsked n ∷ D.trace (device_of self.old)) }
        ensures faults { D.faults (device_of self.new) ≡ D.faults (device_of self.old) }
        ensures fails { D.fails_in (device_of self.new) ≡ D.fails_in (device_of self.old) }
        ensures stopped { D.is_stopped (device_of self.new) ≡ D.is_stopped (device_of self.old) }
        ensures keeps { KeepsLog D.trace C.sum_of self.old self.new }
        ensures rest { IsUnchangedOver self.old self.new }
    {
        self.config.device.stop_after(n);
    }

    /// Whether the device was stopped within a call, and no crash came since. It is only where `stop_after` asked for that.
    pub fn is_stopped(&self) -> bool
        ensures stopped { result ≡ D.is_stopped (device_of self.now) }
        ensures asked { KeepsToStop (D.trace (device_of self.now)) (D.is_stopped (device_of self.now)) }
    {
        self.config.device.stopped()
    }
}
