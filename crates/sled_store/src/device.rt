//! The device that a log is kept on: a log file, blobs by place and snapshots by number.
ghost use Rattle.std.specs.Prelude.{◌≡◌, ◌-◌, ◌++◌, ◌↔◌, ℕ, ℤ, length, take, drop, min, IfOk, OnOk, Option, Some, IsSome, None, Contains, true};
ghost use Rattle.std.specs.Ordering.{int_cmp};
ghost use Rattle.std.specs.List.Sorted.{IsStrictlySortedBy};
ghost use Rattle.std.specs.declared.io.ErrorKind.TheVariants.{OutOfMemory, NotFound, AlreadyExists};
ghost use Rattle.std.specs.declared.io.ErrorKind.{ErrorKind};
ghost use Rattle.sled_store.specs.Device.{Event, Trace, state_of, Wrote, Cut, Synced, BlobMade, BlobSynced, BlobRemoved, SnapshotFilled, SnapshotPublished, SnapshotRemoved, NamesSynced};
ghost use Rattle.sled_store.specs.Answers.{Counts, kind_in, Fails, FailsOr, FailsOrSays, FailsWantsOrSays, Does};

pub mod choice;
pub mod crash_device;
pub mod laws;
pub mod memory;

use std::io;

/// What holds a log (`docs/DEVICE.md`). What was asked of it is its trace, and every clause says what
/// a call adds to that. A call that fails may have been done in part; one that is refused changed
/// nothing.
pub trait Device {
    /// All that changed the device so far, or may have, and the crashes, the newest first.
    ghost trace: { Self → Trace };

    /// How many calls failed.
    ghost faults: { Self → ℕ };

    /// How a call keeps to the failures that a test asked for: its event, if it changes or syncs, the kind of
    /// its error, if any, and the device before and after. Only a device for tests says anything here.
    ghost Obeys: { Option Event → Option ErrorKind → Self → Self → Type 0 } = { λ event error old new. Unit {0} };

    /// The length of the log file, in bytes.
    fn len(&mut self) -> io::Result<u64>
        ensures len { IfOk result (λ n. n ≡ length (state_of (trace self.old)).log.bytes) }
        ensures trace { trace self.new ≡ trace self.old }
        ensures faults { Counts result (faults self.old) (faults self.new) }
        ensures error { Fails result }
        ensures obeys { Obeys None (kind_in result) self.old self.new };

    /// Reads at an offset of the log file, up to the end of the file or of `buf`, and answers how many
    /// bytes that are. The rest of `buf` stays.
    fn read_at(&mut self, at: u64, buf: &mut [u8]) -> io::Result<usize>
        ensures count { IfOk result (λ n. n ≡ min (length buf.old) (length (state_of (trace self.old)).log.bytes - at)) }
        ensures bytes { IfOk result (λ n. buf.new ≡ take n (drop at (state_of (trace self.old)).log.bytes) ++ drop n buf.old) }
        ensures trace { trace self.new ≡ trace self.old }
        ensures faults { Counts result (faults self.old) (faults self.new) }
        ensures error { Fails result }
        ensures obeys { Obeys None (kind_in result) self.old self.new };

    /// Writes at an offset of the log file, which grows where it has to. A gap is filled with zeros.
    /// It may want memory. A write that fails may have written any bytes in its range.
    fn write_at(&mut self, at: u64, bytes: &[u8]) -> io::Result<()>
        ensures trace { Does (Wrote at bytes.now bytes.now) result (trace self.old) (trace self.new) }
        ensures faults { Counts result (faults self.old) (faults self.new) }
        ensures error { FailsOr OutOfMemory result }
        ensures obeys { Obeys (Some (Wrote at bytes.now bytes.now)) (kind_in result) self.old self.new };

    /// Cuts the log file to a length. One that is greater than the file's changes nothing.
    fn cut(&mut self, len: u64) -> io::Result<()>
        ensures trace { Does (Cut len len) result (trace self.old) (trace self.new) }
        ensures faults { Counts result (faults self.old) (faults self.new) }
        ensures error { Fails result }
        ensures obeys { Obeys (Some (Cut len len)) (kind_in result) self.old self.new };

    /// Settles what was written and cut off in the log file.
    fn sync(&mut self) -> io::Result<()>
        ensures trace { Does Synced result (trace self.old) (trace self.new) }
        ensures faults { Counts result (faults self.old) (faults self.new) }
        ensures error { Fails result }
        ensures obeys { Obeys (Some Synced) (kind_in result) self.old self.new };

    /// Makes a blob. One that is there already is `AlreadyExists`, and stays as it was, whatever fails. It may
    /// want memory. A failure may have made it, with any bytes. Its bytes may be lost until they are synced,
    /// and its name until names are.
    fn blob_create(&mut self, place: i64, bytes: &[u8]) -> io::Result<()>
        ensures trace { Does (BlobMade place bytes.now bytes.now true) result (trace self.old) (trace self.new) }
        ensures made { OnOk result ((state_of (trace self.old)).blobs.file place ≡ None) }
        ensures stays { IsSome ((state_of (trace self.old)).blobs.file place) → trace self.new ≡ trace self.old }
        ensures faults { Counts result (faults self.old) (faults self.new) }
        ensures error { FailsWantsOrSays AlreadyExists (IsSome ((state_of (trace self.old)).blobs.file place)) result }
        ensures obeys { Obeys (Some (BlobMade place bytes.now bytes.now true)) (kind_in result) self.old self.new };

    /// Settles the bytes of a blob. One that is missing is `NotFound`.
    fn blob_sync(&mut self, place: i64) -> io::Result<()>
        ensures trace { Does (BlobSynced place) result (trace self.old) (trace self.new) }
        ensures there { OnOk result (IsSome ((state_of (trace self.old)).blobs.file place)) }
        ensures faults { Counts result (faults self.old) (faults self.new) }
        ensures error { FailsOrSays NotFound ((state_of (trace self.old)).blobs.file place ≡ None) result }
        ensures obeys { Obeys (Some (BlobSynced place)) (kind_in result) self.old self.new };

    /// The bytes of a blob. One that is missing is `NotFound`. It may want memory.
    fn blob_read(&mut self, place: i64) -> io::Result<Vec<u8>>
        ensures found { IfOk result (λ bytes. (state_of (trace self.old)).blobs.file place ≡ Some bytes.items) }
        ensures trace { trace self.new ≡ trace self.old }
        ensures faults { Counts result (faults self.old) (faults self.new) }
        ensures error { FailsWantsOrSays NotFound ((state_of (trace self.old)).blobs.file place ≡ None) result }
        ensures obeys { Obeys None (kind_in result) self.old self.new };

    /// Removes a blob. Where it is missing, nothing changes. A crash may bring it back until names are
    /// synced.
    fn blob_remove(&mut self, place: i64) -> io::Result<()>
        ensures trace { Does (BlobRemoved place true) result (trace self.old) (trace self.new) }
        ensures faults { Counts result (faults self.old) (faults self.new) }
        ensures error { Fails result }
        ensures obeys { Obeys (Some (BlobRemoved place true)) (kind_in result) self.old self.new };

    /// The places of all blobs, in ascending order. It may want memory.
    fn blobs(&mut self) -> io::Result<Vec<i64>>
        ensures places { IfOk result (λ places. (place : ℤ) → IsSome ((state_of (trace self.old)).blobs.file place) ↔ Contains places.items place) }
        ensures ascending { IfOk result (λ places. IsStrictlySortedBy int_cmp places.items) }
        ensures trace { trace self.new ≡ trace self.old }
        ensures faults { Counts result (faults self.old) (faults self.new) }
        ensures error { FailsOr OutOfMemory result }
        ensures obeys { Obeys None (kind_in result) self.old self.new };

    /// Begins the temporary snapshot from empty, fills it and settles its bytes. It may want memory. A
    /// failure may have left any bytes in it.
    fn snapshot_write(&mut self, bytes: &[u8]) -> io::Result<()>
        ensures trace { Does (SnapshotFilled bytes.now bytes.now) result (trace self.old) (trace self.new) }
        ensures faults { Counts result (faults self.old) (faults self.new) }
        ensures error { FailsOr OutOfMemory result }
        ensures obeys { Obeys (Some (SnapshotFilled bytes.now bytes.now)) (kind_in result) self.old self.new };

    /// Gives the temporary snapshot a number, over another that has it. It may want memory. A crash may
    /// take the number back until names are synced.
    fn snapshot_publish(&mut self, number: i64) -> io::Result<()>
        ensures trace { Does (SnapshotPublished number true) result (trace self.old) (trace self.new) }
        ensures faults { Counts result (faults self.old) (faults self.new) }
        ensures error { FailsOr OutOfMemory result }
        ensures obeys { Obeys (Some (SnapshotPublished number true)) (kind_in result) self.old self.new };

    /// The bytes of a snapshot. One that is missing is `NotFound`. It may want memory.
    fn snapshot_read(&mut self, number: i64) -> io::Result<Vec<u8>>
        ensures found { IfOk result (λ bytes. (state_of (trace self.old)).snapshots.file number ≡ Some bytes.items) }
        ensures trace { trace self.new ≡ trace self.old }
        ensures faults { Counts result (faults self.old) (faults self.new) }
        ensures error { FailsWantsOrSays NotFound ((state_of (trace self.old)).snapshots.file number ≡ None) result }
        ensures obeys { Obeys None (kind_in result) self.old self.new };

    /// Removes a snapshot. Where it is missing, nothing changes. A crash may bring it back until names are
    /// synced.
    fn snapshot_remove(&mut self, number: i64) -> io::Result<()>
        ensures trace { Does (SnapshotRemoved number true) result (trace self.old) (trace self.new) }
        ensures faults { Counts result (faults self.old) (faults self.new) }
        ensures error { Fails result }
        ensures obeys { Obeys (Some (SnapshotRemoved number true)) (kind_in result) self.old self.new };

    /// The numbers of all snapshots, in ascending order. The temporary one has none. It may want memory.
    fn snapshots(&mut self) -> io::Result<Vec<i64>>
        ensures numbers { IfOk result (λ numbers. (number : ℤ) → IsSome ((state_of (trace self.old)).snapshots.file number) ↔ Contains numbers.items number) }
        ensures ascending { IfOk result (λ numbers. IsStrictlySortedBy int_cmp numbers.items) }
        ensures trace { trace self.new ≡ trace self.old }
        ensures faults { Counts result (faults self.old) (faults self.new) }
        ensures error { FailsOr OutOfMemory result }
        ensures obeys { Obeys None (kind_in result) self.old self.new };

    /// Settles which blobs and snapshots were made or removed.
    fn sync_names(&mut self) -> io::Result<()>
        ensures trace { Does NamesSynced result (trace self.old) (trace self.new) }
        ensures faults { Counts result (faults self.old) (faults self.new) }
        ensures error { Fails result }
        ensures obeys { Obeys (Some NamesSynced) (kind_in result) self.old self.new };

    /// How many calls failed, modulo 2^64. A refusal isn't counted: out of memory, a name that is
    /// missing, or one that is there already.
    fn failures(&self) -> u64
        ensures { result ≡ faults self.now };
}
