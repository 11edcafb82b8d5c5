//! The files of a folder, as they are asked.
ghost use Rattle.std.specs.Prelude.{◌≡◌, ◌∷◌, List, true};
ghost use Rattle.sled_store.specs.Device.{Wrote, Cut, Synced, BlobMade, BlobSynced, BlobRemoved, SnapshotFilled, SnapshotPublished, SnapshotRemoved, NamesSynced};
ghost use Rattle.sled_file.specs.CallRecords.{Call};
ghost use Rattle.sled_file.specs.Calls.{called};

use std::io;

/// The files that a log is kept in. Each method makes one change or one sync, and notes it with its answer, whatever that
/// is. A call that failed may have been carried out in part.
pub trait Folder {
    /// The calls so far, the newest first.
    ghost made: { Self → List Call };

    /// Writes at an offset of the log file, which grows where it has to.
    fn write_log(&mut self, at: u64, bytes: &[u8]) -> io::Result<()>
        ensures { made self.new ≡ called (Wrote at bytes.now bytes.now) result ∷ made self.old };

    /// Cuts the log file to a length. One that is greater than the file's changes nothing.
    fn cut_log(&mut self, len: u64) -> io::Result<()>
        ensures { made self.new ≡ called (Cut len len) result ∷ made self.old };

    /// Syncs the bytes and the length of the log file.
    fn sync_log(&mut self) -> io::Result<()>
        ensures { made self.new ≡ called Synced result ∷ made self.old };

    /// Makes the file of a blob, which wasn't there, and writes it.
    fn make_blob(&mut self, place: i64, bytes: &[u8]) -> io::Result<()>
        ensures { made self.new ≡ called (BlobMade place bytes.now bytes.now true) result ∷ made self.old };

    /// Syncs the file of a blob.
    fn sync_blob(&mut self, place: i64) -> io::Result<()>
        ensures { made self.new ≡ called (BlobSynced place) result ∷ made self.old };

    /// Removes the file of a blob, where there is one.
    fn remove_blob(&mut self, place: i64) -> io::Result<()>
        ensures { made self.new ≡ called (BlobRemoved place true) result ∷ made self.old };

    /// Begins the temporary snapshot from empty, writes it and syncs it.
    fn write_snapshot(&mut self, bytes: &[u8]) -> io::Result<()>
        ensures { made self.new ≡ called (SnapshotFilled bytes.now bytes.now) result ∷ made self.old };

    /// Renames the temporary snapshot, over another one of that number.
    fn publish_snapshot(&mut self, number: i64) -> io::Result<()>
        ensures { made self.new ≡ called (SnapshotPublished number true) result ∷ made self.old };

    /// Removes the file of a snapshot, where there is one.
    fn remove_snapshot(&mut self, number: i64) -> io::Result<()>
        ensures { made self.new ≡ called (SnapshotRemoved number true) result ∷ made self.old };

    /// Syncs which blobs and which snapshots there are.
    fn sync_names(&mut self) -> io::Result<()>
        ensures { made self.new ≡ called NamesSynced result ∷ made self.old };
}
