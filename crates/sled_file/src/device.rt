//! A log's device over the files of a folder.
//!
//! Each call looks whether one on the files failed before, changes what is kept in memory where that wants memory, and then
//! makes its one call on the files. So a refusal comes before any file is touched, and a call on the files that failed leaves
//! the device failing from then on: a folder is opened anew after that.
ghost use Rattle.std.specs.Prelude.{◌≡◌, is_some, false};
ghost use Rattle.sled_store.specs.Device.{state_of};
ghost use Rattle.sled_file.specs.Calls.{trace_after, has_failure, is_filled};
ghost use Rattle.sled_file.specs.Failures.{doing_in, first_failed};
ghost use Rattle.sled_file.specs.Mirrors.{Mirrors};

use crate::failure::{Doing, Failure};
use crate::faults::Faults;
use crate::folder::Folder;
use crate::mirror::Mirror;
use crate::start::Start;
use sled_store::Device;
use std::alloc::Global;
use std::io;
use std::marker::PhantomData;

/// A log's device over the files of a folder.
#[derive(Drop)]
pub struct FileDevice<F: Folder, S: Start> {
    folder: F,
    mirror: Mirror,
    faults: Faults,
    alloc: Global,
    start: PhantomData<S>,
    ghost mirrors: { Mirrors mirror (state_of (trace_after (F.Folder.made folder) S.Start.past)) },
    ghost failed: { is_some faults.first ≡ has_failure (F.Folder.made folder) },
    ghost told: { doing_in faults.first ≡ first_failed (F.Folder.made folder) },
    ghost filled: { has_failure (F.Folder.made folder) ≡ false → is_some mirror.temporary ≡ is_filled (F.Folder.made folder) },
}

impl<F: Folder, S: Start> FileDevice<F, S> {
    ghost use Rattle.std.specs.Prelude.{◌∷◌};
    ghost use Rattle.sled_store.specs.Device.{Crashed};
    ghost use Rattle.sled_file.specs.Calls.{opened, found};

    /// A device over a folder that was just opened, with what was found in it.
    pub(crate) fn new(alloc: Global, folder: F, mirror: Mirror) -> FileDevice<F, S>
        requires { F.Folder.made folder ≡ opened mirror }
        ensures trace { ⟦<FileDevice<F, S> as Device>⟧.trace result ≡ Crashed (found mirror) ∷ S.Start.past }
        ensures faults { ⟦<FileDevice<F, S> as Device>⟧.faults result ≡ 0 }
    {
        let Mirror {
            log,
            blobs,
            snapshots,
            temporary: _,
        } = mirror;
        FileDevice {
            folder,
            mirror: Mirror {
                log,
                blobs,
                snapshots,
                temporary: None,
            },
            faults: Faults::new(),
            alloc,
            start: PhantomData,
        }
    }
}

impl<F: Folder, S: Start> FileDevice<F, S> {
    ghost use Rattle.std.specs.Prelude.{◌≡◌, is_some};
    ghost use Rattle.sled_file.specs.Calls.{has_failure};
    ghost use Rattle.sled_file.specs.Failures.{doing_in, first_failed};

    /// Returns the first call on the files that failed, with the error that was answered for it. It is `None` exactly as
    /// long as no call on the files failed; a call of the device that was refused is no such call.
    pub fn failure(&self) -> Option<Failure>
        ensures failed { is_some result ≡ has_failure (F.Folder.made self.now.folder) }
        ensures doing { doing_in result ≡ first_failed (F.Folder.made self.now.folder) }
    {
        self.faults.first
    }
}

impl<F: Folder, S: Start> Device for FileDevice<F, S> {
    ghost use Rattle.sled_file.specs.Calls.{Makes};

    ghost trace = { λ device. trace_after (F.Folder.made device.folder) S.Start.past };

    ghost faults = { λ device. device.faults.count };

    ghost Obeys = { λ event error old new. Makes event error (F.Folder.made old.folder) (F.Folder.made new.folder) };

    fn len(&mut self) -> io::Result<u64> {
        self.faults.begin()?;
        Ok(self.mirror.log.len() as u64)
    }

    fn read_at(&mut self, at: u64, buf: &mut [u8]) -> io::Result<usize> {
        self.faults.begin()?;
        let log = &self.mirror.log;
        let start = (at as usize).min(log.len());
        let count = buf.len().min(log.len() - start);
        buf[..count].copy_from_slice(&log[start..start + count]);
        Ok(count)
    }

    fn write_at(&mut self, at: u64, bytes: &[u8]) -> io::Result<()> {
        self.faults.begin()?;
        self.mirror.write(at as usize, bytes)?;
        let answer = self.folder.write_log(at, bytes);
        self.faults.end(Doing::WriteLog, answer)
    }

    fn cut(&mut self, len: u64) -> io::Result<()> {
        self.faults.begin()?;
        self.mirror.cut(len as usize);
        let answer = self.folder.cut_log(len);
        self.faults.end(Doing::CutLog, answer)
    }

    fn sync(&mut self) -> io::Result<()> {
        self.faults.begin()?;
        let answer = self.folder.sync_log();
        self.faults.end(Doing::SyncLog, answer)
    }

    fn blob_create(&mut self, place: i64, bytes: &[u8]) -> io::Result<()> {
        self.faults.begin()?;
        if self.mirror.blobs.has(place) {
            return Err(io::Error::new(io::ErrorKind::AlreadyExists, "a blob is at that place"));
        }
        self.mirror.make_blob(self.alloc, place, bytes)?;
        let answer = self.folder.make_blob(place, bytes);
        self.faults.end(Doing::MakeBlob(place), answer)
    }

    fn blob_sync(&mut self, place: i64) -> io::Result<()> {
        self.faults.begin()?;
        if !self.mirror.blobs.has(place) {
            return Err(io::Error::new(io::ErrorKind::NotFound, "no blob is at that place"));
        }
        let answer = self.folder.sync_blob(place);
        self.faults.end(Doing::SyncBlob(place), answer)
    }

    fn blob_read(&mut self, place: i64) -> io::Result<Vec<u8>> {
        self.faults.begin()?;
        self.mirror.blobs.read(self.alloc, place)
    }

    fn blob_remove(&mut self, place: i64) -> io::Result<()> {
        self.faults.begin()?;
        self.mirror.remove_blob(place);
        let answer = self.folder.remove_blob(place);
        self.faults.end(Doing::RemoveBlob(place), answer)
    }

    fn blobs(&mut self) -> io::Result<Vec<i64>> {
        self.faults.begin()?;
        Ok(self.mirror.blobs.list(self.alloc)?)
    }

    fn snapshot_write(&mut self, bytes: &[u8]) -> io::Result<()> {
        self.faults.begin()?;
        self.mirror.write_snapshot(self.alloc, bytes)?;
        let answer = self.folder.write_snapshot(bytes);
        self.faults.end(Doing::WriteSnapshot, answer)
    }

    fn snapshot_publish(&mut self, number: i64) -> io::Result<()> {
        self.faults.begin()?;
        if self.mirror.temporary.is_none() {
            return Err(self.faults.fail("no snapshot was written to be published"));
        }
        self.mirror.publish_snapshot(number)?;
        let answer = self.folder.publish_snapshot(number);
        self.faults.end(Doing::PublishSnapshot(number), answer)
    }

    fn snapshot_read(&mut self, number: i64) -> io::Result<Vec<u8>> {
        self.faults.begin()?;
        self.mirror.snapshots.read(self.alloc, number)
    }

    fn snapshot_remove(&mut self, number: i64) -> io::Result<()> {
        self.faults.begin()?;
        self.mirror.remove_snapshot(number);
        let answer = self.folder.remove_snapshot(number);
        self.faults.end(Doing::RemoveSnapshot(number), answer)
    }

    fn snapshots(&mut self) -> io::Result<Vec<i64>> {
        self.faults.begin()?;
        Ok(self.mirror.snapshots.list(self.alloc)?)
    }

    fn sync_names(&mut self) -> io::Result<()> {
        self.faults.begin()?;
        let answer = self.folder.sync_names();
        self.faults.end(Doing::SyncNames, answer)
    }

    fn failures(&self) -> u64 {
        self.faults.count
    }
}
