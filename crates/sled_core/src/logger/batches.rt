//! The batches that a log keeps: those that it noted and that may not be wholly on the device (`specs/OpenBatches.antt`).
//!
//! The stable end stays in front of one of which a part alone is on the device. A batch is noted without memory: where a
//! manifest is reserved, room is made for its batch. The batches are kept by place, and looked for by a search: each ends in front
//! of where the next one begins, since a batch that is noted has no place in common with one that isn't wholly on the device, and
//! begins behind all that is.
ghost use Rattle.std.specs.Prelude.{if◌then◌else◌, vec_capacity, ◌≡◌, ◌+◌, ◌*◌, ◌<◌, ◌≤◌, ◌^◌, ◌⊎◌, ◌↔◌, ◌<ℤ◌, pos, [], suc, ℕ, All, Contains, IsTrue, map, length, true, OnOk, IsOkUnless};
ghost use Rattle.std.specs.List.Sorted.{IsPartitionPoint};
ghost use Rattle.sled_codec.specs.History.{Batch};
ghost use Rattle.sled_core.specs.inside.OpenBatches.{AreByPlace, AreByPlace-prop};
ghost use Rattle.sled_core.specs.OpenBatches.{batch_of, behind_batch, not_whole, stable_below, with_batch};

use crate::logger::Log;
use sled_codec::result::{Error, Lsn, Result};
use sled_codec::serialization::Checksum;
use sled_store::Device;
use std::alloc::Global;

/// A batch that was noted: a recovery gives all of its messages or none.
#[derive(Debug, Clone, Copy)]
pub(crate) struct NotedBatch {
    /// Where its manifest begins.
    pub(crate) low: u64,
    /// The last place that has to be on the device for it to be whole.
    pub(crate) peg: u64,
}

/// The batches that were noted, by place, and those that may come: there is room for that of each open manifest.
#[derive(Drop)]
pub(crate) struct PendingBatches {
    /// Those that are wholly on the device are among them until they are left out.
    pub(crate) noted: Vec<NotedBatch>,
    /// How many reservations of manifests are open or abandoned.
    pub(crate) manifests: usize,
    ghost by_place: { AreByPlace 0 (map batch_of noted.items) } by { AreByPlace-prop 0 (map batch_of noted.items) },
    ghost room: { length noted.items + manifests ≤ vec_capacity noted },
}

impl PendingBatches {
    /// There are none.
    pub(crate) fn new(alloc: Global) -> PendingBatches
        ensures noted { result.noted.items ≡ [] }
        ensures manifests { result.manifests ≡ 0 }
    {
        PendingBatches {
            noted: Vec::new(alloc),
            manifests: 0,
        }
    }

    /// Where the first batch begins that isn't wholly on the device, where all before the end is, if that lies before the
    /// end; else the end. Those behind it begin behind the end.
    pub(crate) fn lowest_open(&self, end: u64) -> u64
        ensures { result ≡ stable_below end (not_whole end (map batch_of self.now.noted.items)) }
    {
        let i = self.ended_before(end);
        if i == self.noted.len() {
            return end;
        }
        self.noted[i].low.min(end)
    }

    /// The place behind the peg of the last batch that begins before a place, where that isn't wholly on the device, or
    /// the place itself, whichever is further. Those in front of it end before the place.
    pub(crate) fn behind_last(&self, end: u64, behind: u64) -> u64
        requires pegs { All (λ b. b.peg < 2 ^ 63) self.now.noted.items }
        ensures { result ≡ behind_batch behind (not_whole end (map batch_of self.now.noted.items)) }
    {
        let i = self.begun_before(behind);
        if i == 0 {
            return behind;
        }
        let b = self.noted[i - 1];
        if b.peg < end {
            return behind;
        }
        (b.peg + 1).max(behind)
    }

    /// Each batch is wholly on the device, where all before the end is, or lies below the one place or above the other.
    /// Those that don't lie above end no further than the last of them.
    pub(crate) fn all_apart(&self, end: u64, low: Lsn, peg: Lsn) -> bool
        ensures { IsTrue result ↔ ((b : Batch) → Contains (not_whole end (map batch_of self.now.noted.items)) b → (pos b.peg <ℤ low) ⊎ (peg <ℤ pos b.low)) }
    {
        if peg < 0 {
            return true;
        }
        let i = self.begun_before(peg as u64 + 1);
        if i == 0 {
            return true;
        }
        is_below(&self.noted[i - 1], end, low)
    }

    /// Puts a batch in by place, behind those that begin no further than it. There is room for it.
    pub(crate) fn put_in(&mut self, b: NotedBatch)
        requires room { length self.old.noted.items + self.old.manifests < vec_capacity self.old.noted }
        requires above { b.low ≤ b.peg }
        requires in_reach { b.peg < 2 ^ 63 }
        requires apart { All (λ c. (c.peg < b.low) ⊎ (b.peg < c.low)) self.old.noted.items }
        ensures items { map batch_of self.new.noted.items ≡ with_batch (batch_of b) (map batch_of self.old.noted.items) }
        ensures pegs { (to : ℕ) → b.peg < to → All (λ c. c.peg < to) self.old.noted.items → All (λ c. c.peg < to) self.new.noted.items }
        ensures longer { length self.new.noted.items ≡ length self.old.noted.items + 1 }
        ensures capacity { vec_capacity self.old.noted ≤ vec_capacity self.new.noted }
        ensures manifests { self.new.manifests ≡ self.old.manifests }
    {
        let at = self.begun_before(b.low + 1);
        let _ = self.noted.insert(at, b);
    }

    /// Leaves out those that are wholly on the device, where all before a place is, if they are half of all or more.
    pub(crate) fn drop_whole(&mut self, end: u64)
        ensures noted { not_whole end (map batch_of self.new.noted.items) ≡ not_whole end (map batch_of self.old.noted.items) }
        ensures few { length self.new.noted.items ≤ 2 * length (not_whole end (map batch_of self.new.noted.items)) }
        ensures pegs { (to : ℕ) → All (λ b. b.peg < to) self.old.noted.items → All (λ b. b.peg < to) self.new.noted.items }
        ensures fewer { length self.new.noted.items ≤ length self.old.noted.items }
        ensures capacity { vec_capacity self.new.noted ≡ vec_capacity self.old.noted }
        ensures manifests { self.new.manifests ≡ self.old.manifests }
    {
        let whole = self.ended_before(end);
        if whole >= self.noted.len() - whole {
            self.keep_open(end);
        }
    }

    /// Keeps those, in their order, that aren't wholly on the device where all before a place is.
    fn keep_open(&mut self, end: u64)
        ensures items { map batch_of self.new.noted.items ≡ not_whole end (map batch_of self.old.noted.items) }
        ensures pegs { (to : ℕ) → All (λ b. b.peg < to) self.old.noted.items → All (λ b. b.peg < to) self.new.noted.items }
        ensures fewer { length self.new.noted.items ≤ length self.old.noted.items }
        ensures capacity { vec_capacity self.new.noted ≡ vec_capacity self.old.noted }
        ensures manifests { self.new.manifests ≡ self.old.manifests }
    {
        self.noted.retain(|b| b.peg >= end);
    }

    /// How many end before a place.
    fn ended_before(&self, place: u64) -> usize
        ensures bound { result ≤ length self.now.noted.items }
        ensures point { IsPartitionPoint (λ b. b.peg < place) (λ b. place ≤ b.peg) self.now.noted.items result }
    {
        self.noted.partition_point(|b| b.peg < place)
    }

    /// How many begin before a place.
    fn begun_before(&self, place: u64) -> usize
        ensures bound { result ≤ length self.now.noted.items }
        ensures point { IsPartitionPoint (λ b. b.low < place) (λ b. place ≤ b.low) self.now.noted.items result }
    {
        self.noted.partition_point(|b| b.low < place)
    }

    /// Makes room for the batch of one more manifest. For another message none is made.
    pub(crate) fn make_room_for(&mut self, manifest: bool) -> Result<()>
        ensures items { self.new.noted.items ≡ self.old.noted.items }
        ensures manifests { self.new.manifests ≡ self.old.manifests }
        ensures grows { vec_capacity self.old.noted ≤ vec_capacity self.new.noted }
        ensures room { OnOk result (manifest ≡ true → length self.new.noted.items + self.new.manifests < vec_capacity self.new.noted) }
        ensures memory { IsOkUnless result Error.OutOfMemory }
    {
        if manifest {
            self.noted.reserve(self.manifests + 1)?;
        }
        Ok(())
    }

    /// Counts a further reservation, of a manifest or not. There is room for the batch of that.
    #[inline(always)]
    pub(crate) fn begin_manifest(&mut self, manifest: bool)
        requires { manifest ≡ true → length self.old.noted.items + self.old.manifests < vec_capacity self.old.noted }
        ensures items { self.new.noted.items ≡ self.old.noted.items }
        ensures capacity { vec_capacity self.new.noted ≡ vec_capacity self.old.noted }
        ensures manifests { self.new.manifests ≡ (if manifest then suc self.old.manifests else self.old.manifests) }
    {
        if manifest {
            self.manifests += 1;
        }
    }

    /// Counts one no more, of a manifest or not. The room that was made for its batch stays.
    pub(crate) fn end_manifest(&mut self, manifest: bool)
        requires { manifest ≡ true → 0 < self.old.manifests }
        ensures items { self.new.noted.items ≡ self.old.noted.items }
        ensures capacity { vec_capacity self.new.noted ≡ vec_capacity self.old.noted }
        ensures manifests { self.old.manifests ≡ (if manifest then suc self.new.manifests else self.new.manifests) }
    {
        if manifest {
            self.manifests -= 1;
        }
    }
}

/// A batch is wholly on the device, where all before the end is, or lies below a place.
fn is_below(b: &NotedBatch, end: u64, low: Lsn) -> bool
    ensures { IsTrue result ↔ ((b.now.peg < end) ⊎ (pos b.now.peg <ℤ low)) }
{
    b.peg < end || low > 0 && b.peg < low as u64
}

impl<D: Device, C: Checksum> Log<D, C> {
    ghost use Rattle.sled_core.specs.Fits.{kept_batches, noted_in, reserved_end, stable_end, synced_end};
    ghost use Rattle.sled_core.specs.inside.Turned.{HasRoomForBatch, NotesBatch};

    /// The place behind the stable end: behind all that is on the device without a gap, or where the lowest batch begins that
    /// goes on behind that.
    pub(crate) fn stable_end(&self) -> u64
        ensures is { result ≡ stable_end self.now }
        ensures in_reach { result < 2 ^ 63 }
    {
        self.batches.lowest_open(self.synced_end())
    }

    /// Up to where has to be written for all before a place to be stable: behind the peg of the last batch that begins
    /// before it and goes on behind what is written.
    pub(crate) fn behind_batch(&self, behind: u64) -> u64
        requires reserved { behind ≤ reserved_end self.now }
        ensures is { result ≡ behind_batch behind (noted_in self.now) }
        ensures reserved { result ≤ reserved_end self.now }
    {
        self.batches.behind_last(self.synced_end(), behind)
    }

    /// Whether no batch that isn't wholly on the device has a place between these two, both included.
    pub(crate) fn is_apart(&self, low: Lsn, peg: Lsn) -> bool
        ensures { IsTrue result ↔ ((b : Batch) → Contains (noted_in self.now) b → (pos b.peg <ℤ low) ⊎ (peg <ℤ pos b.low)) }
    {
        self.batches.all_apart(self.synced_end(), low, peg)
    }

    /// Notes the batch of a manifest that has ended. It takes no memory.
    ///
    /// It is put in by place, which is mostly behind the others. Those that are wholly on the device are left out before, where
    /// they are half of all or more. So the list is no longer than twice those that aren't, and for each one that is left out no more
    /// than two are looked at, however many are noted one behind another.
    pub(crate) fn note(&mut self, low: u64, peg: u64)
        requires room { HasRoomForBatch self.old }
        requires above { low ≤ peg }
        requires within { peg < reserved_end self.old }
        requires unwritten { synced_end self.old ≤ low }
        requires apart { (b : Batch) → Contains (noted_in self.old) b → (b.peg < low) ⊎ (peg < b.low) }
        ensures noted { noted_in self.new ≡ with_batch (record { low = low; peg = peg }) (noted_in self.old) }
        ensures few { kept_batches self.new ≤ 2 * length (noted_in self.new) }
        ensures rest { NotesBatch self.old self.new }
    {
        let end = self.synced_end();
        self.batches.drop_whole(end);
        self.batches.put_in(NotedBatch { low, peg });
    }
}
