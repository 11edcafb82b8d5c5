//! A device in memory, for tests and for the lines of `slog`.
//!
//! What is read, and what a crash may leave, is kept as data; what was asked so far stands in proofs
//! alone. A ghost field ties the two, so that each answer is that of the trace.
ghost use Rattle.std.specs.Prelude.{◌≡◌, ◌<◌, ◌+◌, ◌/◌, ◌⊎◌, [], ◌∷◌, None, false, length, take};
ghost use Rattle.sled_store.specs.Device.{state_of, Wrote};
ghost use Rattle.sled_store.specs.inside.Memory.{Stands};
ghost use Rattle.sled_store.specs.inside.MemoryNames.{Keeps};

mod crash;
mod faults;
mod log_file;
mod named_files;
mod story;
mod trace;

use crate::Device;
use crate::device::memory::log_file::MemLog;
use crate::device::memory::named_files::MemNames;
use crate::device::memory::story::Story;
use crate::device::memory::trace::Note;
use std::alloc::Global;
use std::io;

/// A device in memory. Any call of it can be made to fail.
#[derive(Drop)]
pub struct MemDevice {
    pub(crate) story: Story,
    pub(crate) log: MemLog,
    pub(crate) blobs: MemNames,
    pub(crate) snapshots: MemNames,
    // The snapshot that has no number yet.
    pub(crate) temporary: Vec<u8>,
    alloc: Global,
    ghost stands: { Stands log (state_of story.trace.events).log },
    ghost keeps_blobs: { Keeps blobs (state_of story.trace.events).blobs },
    ghost keeps_snapshots: { Keeps snapshots (state_of story.trace.events).snapshots },
    ghost keeps_temporary: { temporary.items ≡ (state_of story.trace.events).temporary.bytes },
}

impl MemDevice {
    ghost use Rattle.sled_store.specs.Due.{Awaits, stops_in, is_stopped, trace_of};
    ghost use Rattle.sled_store.specs.inside.Memory.{has_room};

    /// An empty device. It takes no memory.
    pub fn new(alloc: Global) -> MemDevice
        ensures trace { ⟦<MemDevice as Device>⟧.trace result ≡ [] }
        ensures faults { ⟦<MemDevice as Device>⟧.faults result ≡ 0 }
        ensures awaits { Awaits result 0 None false }
    {
        MemDevice {
            story: Story::new(),
            log: MemLog::new(alloc),
            blobs: MemNames::new(alloc),
            snapshots: MemNames::new(alloc),
            temporary: Vec::new(alloc),
            alloc,
        }
    }

    /// The `n`-th call from now fails, and no other that an earlier `fail_at` named. Reads count too. A
    /// write that fails so has written the first half of its bytes, rounded down, or nothing where there is
    /// no memory for that or none are; any other call has changed nothing. The error is of kind `Other`, and is counted,
    /// also where memory would be refused.
    pub fn fail_at(&mut self, n: u64)
        requires { 0 < n }
        ensures trace { ⟦<MemDevice as Device>⟧.trace self.new ≡ ⟦<MemDevice as Device>⟧.trace self.old }
        ensures faults { ⟦<MemDevice as Device>⟧.faults self.new ≡ ⟦<MemDevice as Device>⟧.faults self.old }
        ensures awaits { Awaits self.new n (stops_in self.old) (is_stopped self.old) }
    {
        self.story.fail_at(n);
    }

    // What a write does that is to fail: the first half of its bytes is written, or nothing where there are none or
    // no memory for that.
    fn write_half(&mut self, at: u64, bytes: &[u8])
        requires { is_stopped self.old ≡ false }
        ensures left { ((0 < length bytes.now) × (trace_of self.new ≡ Wrote at bytes.now (take (length bytes.now / 2) bytes.now) ∷ trace_of self.old))
            ⊎ ((trace_of self.new ≡ trace_of self.old) × ((length bytes.now ≡ 0) ⊎ (has_room self.old.log (at + length bytes.now) ≡ false))) }
        ensures faults { self.new.story.faults ≡ self.old.story.faults }
        ensures stops { stops_in self.new ≡ stops_in self.old }
    {
        let half = bytes.len() / 2;
        if half < bytes.len() && self.log.write(at as usize, bytes, half).is_ok() {
            self.story.tear(at, bytes, &bytes[..half]);
        }
    }
}

impl Device for MemDevice {
    ghost use Rattle.sled_store.specs.inside.Due.{Obeys};

    ghost trace = { λ device. device.story.trace.events };

    ghost faults = { λ device. device.story.faults.count };

    ghost Obeys = { Obeys };

    fn len(&mut self) -> io::Result<u64> {
        self.story.begin()?;
        Ok(self.log.bytes.len() as u64)
    }

    fn read_at(&mut self, at: u64, buf: &mut [u8]) -> io::Result<usize> {
        self.story.begin()?;
        let start = (at as usize).min(self.log.bytes.len());
        let count = buf.len().min(self.log.bytes.len() - start);
        buf[..count].copy_from_slice(&self.log.bytes[start..start + count]);
        Ok(count)
    }

    fn write_at(&mut self, at: u64, bytes: &[u8]) -> io::Result<()> {
        let was_stopped = self.story.faults.is_stopped;
        if let Err(e) = self.story.begin() {
            if !was_stopped {
                self.write_half(at, bytes);
            }
            return Err(e);
        }
        self.log.write(at as usize, bytes, bytes.len())?;
        self.story.change(&Note::Wrote {
            at,
            asked: bytes,
            now: bytes,
        })
    }

    fn cut(&mut self, len: u64) -> io::Result<()> {
        self.story.begin()?;
        self.log.cut(len as usize);
        self.story.change(&Note::Cut {
            asked: len,
            now: len,
        })
    }

    fn sync(&mut self) -> io::Result<()> {
        self.story.begin()?;
        self.story.settle(&Note::Synced)?;
        self.log.sync();
        Ok(())
    }

    fn blob_create(&mut self, place: i64, bytes: &[u8]) -> io::Result<()> {
        self.story.begin()?;
        if self.blobs.has(place) {
            return Err(io::Error::new(io::ErrorKind::AlreadyExists, "a blob is at that place"));
        }
        let copy = bytes.to_vec(self.alloc)?;
        self.blobs.make(self.alloc, place, copy, true)?;
        self.story.change(&Note::BlobMade {
            place,
            asked: bytes,
            now: bytes,
            done: true,
        })
    }

    fn blob_sync(&mut self, place: i64) -> io::Result<()> {
        self.story.begin()?;
        if !self.blobs.has(place) {
            return Err(io::Error::new(io::ErrorKind::NotFound, "no blob is at that place"));
        }
        self.story.settle(&Note::BlobSynced { place })?;
        self.blobs.sync(place);
        Ok(())
    }

    fn blob_read(&mut self, place: i64) -> io::Result<Vec<u8>> {
        self.story.begin()?;
        self.blobs.read(self.alloc, place)
    }

    fn blob_remove(&mut self, place: i64) -> io::Result<()> {
        self.story.begin()?;
        self.blobs.remove(place);
        self.story.change(&Note::BlobRemoved { place, done: true })
    }

    fn blobs(&mut self) -> io::Result<Vec<i64>> {
        self.story.begin()?;
        Ok(self.blobs.list(self.alloc)?)
    }

    fn snapshot_write(&mut self, bytes: &[u8]) -> io::Result<()> {
        self.story.begin()?;
        self.temporary = bytes.to_vec(self.alloc)?;
        self.story.change(&Note::SnapshotFilled {
            asked: bytes,
            now: bytes,
        })
    }

    fn snapshot_publish(&mut self, number: i64) -> io::Result<()> {
        self.story.begin()?;
        let copy = self.temporary.to_vec(self.alloc)?;
        self.snapshots.make(self.alloc, number, copy, false)?;
        self.story
            .change(&Note::SnapshotPublished { number, done: true })
    }

    fn snapshot_read(&mut self, number: i64) -> io::Result<Vec<u8>> {
        self.story.begin()?;
        self.snapshots.read(self.alloc, number)
    }

    fn snapshot_remove(&mut self, number: i64) -> io::Result<()> {
        self.story.begin()?;
        self.snapshots.remove(number);
        self.story
            .change(&Note::SnapshotRemoved { number, done: true })
    }

    fn snapshots(&mut self) -> io::Result<Vec<i64>> {
        self.story.begin()?;
        Ok(self.snapshots.list(self.alloc)?)
    }

    fn sync_names(&mut self) -> io::Result<()> {
        self.story.begin()?;
        self.story.settle(&Note::NamesSynced)?;
        self.blobs.settle();
        self.snapshots.settle();
        Ok(())
    }

    fn failures(&self) -> u64 {
        self.story.faults.count
    }
}
