//! A device of one's own (`docs/USING.md`): another device, whose calls are counted.
ghost use Rattle.std.specs.Prelude.{◌≡◌, ◌+◌, ◌%◌, ◌^◌};

use sled_log::device::Device;
use std::io;

/// A device that counts the calls that it hands on to another one.
#[derive(Drop)]
pub struct Counting<D> {
    device: D,
    calls: u64,
}

impl<D: Device> Counting<D> {
    /// Returns a device over another one, with no calls counted.
    pub fn new(device: D) -> Counting<D>
        ensures trace { ⟦<Counting<D> as Device>⟧.trace result ≡ D.trace device }
        ensures faults { ⟦<Counting<D> as Device>⟧.faults result ≡ D.faults device }
    {
        Counting { device, calls: 0 }
    }

    /// Returns how many calls were made, modulo 2^64.
    pub fn calls(&self) -> u64 {
        self.calls
    }

    // Counts a call.
    fn count(&mut self)
        ensures device { self.new.device ≡ self.old.device }
        ensures calls { self.new.calls ≡ (self.old.calls + 1) % 2 ^ 64 }
    {
        self.calls = self.calls.wrapping_add(1);
    }
}

// What is done and what fails is what the device below does.
impl<D: Device> Device for Counting<D> {
    ghost trace = { λ counting. D.trace counting.device };

    ghost faults = { λ counting. D.faults counting.device };

    fn len(&mut self) -> io::Result<u64> {
        self.count();
        self.device.len()
    }

    fn read_at(&mut self, at: u64, buf: &mut [u8]) -> io::Result<usize> {
        self.count();
        self.device.read_at(at, buf)
    }

    fn write_at(&mut self, at: u64, bytes: &[u8]) -> io::Result<()> {
        self.count();
        self.device.write_at(at, bytes)
    }

    fn cut(&mut self, len: u64) -> io::Result<()> {
        self.count();
        self.device.cut(len)
    }

    fn sync(&mut self) -> io::Result<()> {
        self.count();
        self.device.sync()
    }

    fn blob_create(&mut self, place: i64, bytes: &[u8]) -> io::Result<()> {
        self.count();
        self.device.blob_create(place, bytes)
    }

    fn blob_sync(&mut self, place: i64) -> io::Result<()> {
        self.count();
        self.device.blob_sync(place)
    }

    fn blob_read(&mut self, place: i64) -> io::Result<Vec<u8>> {
        self.count();
        self.device.blob_read(place)
    }

    fn blob_remove(&mut self, place: i64) -> io::Result<()> {
        self.count();
        self.device.blob_remove(place)
    }

    fn blobs(&mut self) -> io::Result<Vec<i64>> {
        self.count();
        self.device.blobs()
    }

    fn snapshot_write(&mut self, bytes: &[u8]) -> io::Result<()> {
        self.count();
        self.device.snapshot_write(bytes)
    }

    fn snapshot_publish(&mut self, number: i64) -> io::Result<()> {
        self.count();
        self.device.snapshot_publish(number)
    }

    fn snapshot_read(&mut self, number: i64) -> io::Result<Vec<u8>> {
        self.count();
        self.device.snapshot_read(number)
    }

    fn snapshot_remove(&mut self, number: i64) -> io::Result<()> {
        self.count();
        self.device.snapshot_remove(number)
    }

    fn snapshots(&mut self) -> io::Result<Vec<i64>> {
        self.count();
        self.device.snapshots()
    }

    fn sync_names(&mut self) -> io::Result<()> {
        self.count();
        self.device.sync_names()
    }

    fn failures(&self) -> u64 {
        self.device.failures()
    }
}
