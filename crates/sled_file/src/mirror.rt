//! What is read of a folder, kept in memory: what was found at the opening, and what was written since.
ghost use Rattle.std.specs.Prelude.{◌≡◌, ◌+◌, ◌≤◌, ◌-◌, ◌++◌, length, take, drop, replicate, OnOk, OnErr, IsSome, None, true};
ghost use Rattle.sled_store.specs.Device.{State, step, Wrote, Cut, BlobMade, BlobRemoved, SnapshotFilled, SnapshotPublished, SnapshotRemoved};
ghost use Rattle.sled_file.specs.Mirrors.{Mirrors};

mod named;

use crate::mirror::named::NamedFiles;
use std::alloc::{AllocError, Global};

// The bytes of each file. It takes as much memory as the files have bytes, and the room that growing lists keep.
#[derive(Drop)]
pub struct Mirror {
    pub(crate) log: Vec<u8>,
    pub(crate) blobs: NamedFiles,
    pub(crate) snapshots: NamedFiles,
    // The snapshot that has no number yet, from when it is written until it has one.
    pub(crate) temporary: Option<Vec<u8>>,
}

impl Mirror {
    // No files.
    pub(crate) fn new(alloc: Global) -> Mirror {
        Mirror {
            log: Vec::new(alloc),
            blobs: NamedFiles::new(alloc),
            snapshots: NamedFiles::new(alloc),
            temporary: None,
        }
    }

    // Writes at an offset of the log file.
    pub(crate) fn write(&mut self, at: usize, bytes: &[u8]) -> Result<(), AllocError>
        ensures ok { (s : State) → Mirrors self.old s → OnOk result (Mirrors self.new (step (Wrote at bytes.now bytes.now) s)) }
        ensures err { (s : State) → Mirrors self.old s → OnErr result (Mirrors self.new s) }
        ensures temporary { self.new.temporary ≡ self.old.temporary }
    {
        if bytes.is_empty() {
            return Ok(());
        }
        if bytes.len() > usize::MAX - at {
            return Err(AllocError);
        }
        grow(&mut self.log, at + bytes.len())?;
        copy_in(&mut self.log, at, bytes);
        Ok(())
    }

    // Cuts the log file to a length, if it is longer.
    pub(crate) fn cut(&mut self, len: usize)
        ensures cut { (s : State) → Mirrors self.old s → Mirrors self.new (step (Cut len len) s) }
        ensures temporary { self.new.temporary ≡ self.old.temporary }
    {
        self.log.truncate(len);
    }

    // Makes a blob.
    pub(crate) fn make_blob(
        &mut self,
        alloc: Global,
        place: i64,
        bytes: &[u8],
    ) -> Result<(), AllocError>
        ensures ok { (s : State) → Mirrors self.old s → OnOk result (Mirrors self.new (step (BlobMade place bytes.now bytes.now true) s)) }
        ensures err { (s : State) → Mirrors self.old s → OnErr result (Mirrors self.new s) }
        ensures temporary { self.new.temporary ≡ self.old.temporary }
    {
        let copy = bytes.to_vec(alloc)?;
        self.blobs.put(place, copy)?;
        Ok(())
    }

    // Removes a blob.
    pub(crate) fn remove_blob(&mut self, place: i64)
        ensures removed { (s : State) → Mirrors self.old s → Mirrors self.new (step (BlobRemoved place true) s) }
        ensures temporary { self.new.temporary ≡ self.old.temporary }
    {
        self.blobs.remove(place);
    }

    // Writes the temporary snapshot.
    pub(crate) fn write_snapshot(&mut self, alloc: Global, bytes: &[u8]) -> Result<(), AllocError>
        ensures ok { (s : State) → Mirrors self.old s → OnOk result (Mirrors self.new (step (SnapshotFilled bytes.now bytes.now) s)) }
        ensures err { (s : State) → Mirrors self.old s → OnErr result (Mirrors self.new s) }
        ensures kept { OnOk result (IsSome self.new.temporary) }
        ensures same { OnErr result (self.new.temporary ≡ self.old.temporary) }
    {
        self.temporary = Some(bytes.to_vec(alloc)?);
        Ok(())
    }

    // Gives the temporary snapshot a number, where one was written; it is none any more then.
    pub(crate) fn publish_snapshot(&mut self, number: i64) -> Result<(), AllocError>
        requires { IsSome self.old.temporary }
        ensures ok { (s : State) → Mirrors self.old s → OnOk result (Mirrors self.new (step (SnapshotPublished number true) s)) }
        ensures err { (s : State) → Mirrors self.old s → OnErr result (Mirrors self.new s) }
        ensures gone { OnOk result (self.new.temporary ≡ None) }
        ensures same { OnErr result (self.new.temporary ≡ self.old.temporary) }
    {
        let Some(bytes) = self.temporary.take() else {
            unreachable!()
        };
        match self.snapshots.put(number, bytes) {
            Ok(()) => Ok(()),
            Err(refused) => {
                self.temporary = Some(refused.value.1);
                Err(AllocError)
            }
        }
    }

    // Removes a snapshot.
    pub(crate) fn remove_snapshot(&mut self, number: i64)
        ensures removed { (s : State) → Mirrors self.old s → Mirrors self.new (step (SnapshotRemoved number true) s) }
        ensures temporary { self.new.temporary ≡ self.old.temporary }
    {
        self.snapshots.remove(number);
    }
}

// Fills up with zeros.
fn grow(bytes: &mut Vec<u8>, end: usize) -> Result<(), AllocError>
    ensures ok { OnOk result (bytes.new.items ≡ bytes.old.items ++ replicate (end - length bytes.old.items) 0) }
    ensures err { OnErr result (bytes.new.items ≡ bytes.old.items) }
{
    if end > bytes.len() {
        bytes.resize(end, 0)?;
    }
    Ok(())
}

// Writes over what is there.
fn copy_in(bytes: &mut Vec<u8>, at: usize, new: &[u8])
    requires { at + length new.now ≤ length bytes.old.items }
    ensures { bytes.new.items ≡ take at bytes.old.items ++ new.now ++ drop (at + length new.now) bytes.old.items }
{
    bytes[at..at + new.len()].copy_from_slice(new);
}
