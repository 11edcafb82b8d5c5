//! What a crash may leave of a log file in memory, and what it is from then on.
//!
//! A patch is tried in place: its bytes are put in, and then each of them has to be one that may be lost,
//! or the settled one. It wants no memory.
ghost use Rattle.std.specs.Prelude.{◌≡◌, ◌↔◌, ◌≤◌, ◌<◌, ◌||◌, ◌&&◌, ◌==◌, if◌then◌else◌, length, slice_index, vec_capacity, IsTrue, true, false, ℕ};
ghost use Rattle.std.specs.Bool.{MatchBool};
ghost use Rattle.std.specs.List.{All};
ghost use Rattle.sled_store.specs.Device.{LogState, LeavesLog, at_rest, patched};
ghost use Rattle.sled_store.specs.inside.Memory.{Stands, is_within, is_unsynced_at, are_in, are_kept};

use crate::device::memory::log_file::{MemLog, append};

impl MemLog {
    // Whether a crash may leave the settled bytes (`back`) or the last ones, with others at these offsets.
    // If so it does, and else it leaves the settled ones.
    pub(crate) fn crash(&mut self, back: bool, patch: &[(u64, u8)]) -> bool
        requires { (s : LogState) × Stands self.old s }
        ensures taken { (s : LogState) → Stands self.old s
            → IsTrue result ↔ (All (λ p. p.0 < length (if back then s.settled else s.bytes)) patch.now
            × LeavesLog s (patched (if back then s.settled else s.bytes) patch.now)) }
        ensures left { (s : LogState) → Stands self.old s
            → Stands self.new (at_rest (if result then patched (if back then s.settled else s.bytes) patch.now else s.settled)) }
    {
        put_back(&mut self.bytes, &self.settled, back);
        let taken = attempt(
            &mut self.bytes,
            &self.settled,
            &self.unsynced,
            self.cut,
            patch,
        );
        put_back(&mut self.bytes, &self.settled, !taken);
        self.rest();
        taken
    }

    // Leaves what is settled.
    pub(crate) fn lose(&mut self)
        requires { (s : LogState) × Stands self.old s }
        ensures { (s : LogState) → Stands self.old s → Stands self.new (at_rest s.settled) }
    {
        put_back(&mut self.bytes, &self.settled, true);
        self.rest();
    }

    // Whether a crash may leave these bytes.
    pub(crate) fn may_leave(&self, offered: &[u8]) -> bool
        requires { self.now.cut ≤ length self.now.bytes.items }
        ensures { (s : LogState) → Stands self.now s → IsTrue result ↔ LeavesLog s offered.now }
    {
        if offered.len() < self.least {
            return false;
        }
        if offered.len() > self.most {
            return false;
        }
        are_firm(&self.bytes, &self.unsynced, self.cut, offered)
    }

    // These bytes are read, and are settled.
    pub(crate) fn take(&mut self, offered: &[u8])
        requires room { length offered.now ≤ vec_capacity self.old.bytes }
        requires settled_room { length offered.now ≤ vec_capacity self.old.settled }
        ensures { Stands self.new (at_rest offered.now) }
    {
        self.bytes.clear();
        append(&mut self.bytes, offered);
        self.rest();
    }

    // All that is read is settled now.
    pub(crate) fn rest(&mut self)
        requires room { length self.old.bytes.items ≤ vec_capacity self.old.bytes }
        requires settled_room { length self.old.bytes.items ≤ vec_capacity self.old.settled }
        ensures { Stands self.new (at_rest self.old.bytes.items) }
    {
        put_back(&mut self.settled, &self.bytes, true);
        self.unsynced.clear();
        self.least = self.bytes.len();
        self.most = self.bytes.len();
        self.cut = self.bytes.len();
    }
}

// Makes one content the same as another, where this is asked for.
pub(crate) fn put_back(bytes: &mut Vec<u8>, from: &Vec<u8>, back: bool)
    requires { length from.now.items ≤ vec_capacity bytes.old }
    ensures items { bytes.new.items ≡ (if back then from.now.items else bytes.old.items) }
    ensures capacity { vec_capacity bytes.old ≤ vec_capacity bytes.new }
{
    if back {
        bytes.clear();
        append(bytes, from);
    }
}

// Puts in the bytes of a patch, and answers whether they may be there.
fn attempt(
    bytes: &mut Vec<u8>,
    settled: &Vec<u8>,
    unsynced: &Vec<(usize, usize)>,
    cut: usize,
    patch: &[(u64, u8)],
) -> bool
    requires { cut ≤ length settled.now.items }
    ensures taken { result ≡ (are_in (length bytes.old.items) patch.now
        && are_kept unsynced.now.items cut (patched bytes.old.items patch.now) settled.now.items patch.now) }
    ensures bytes { IsTrue result → bytes.new.items ≡ patched bytes.old.items patch.now }
    ensures capacity { vec_capacity bytes.new ≡ vec_capacity bytes.old }
{
    if !is_in(patch, bytes.len()) {
        return false;
    }
    put_patch(bytes, patch);
    is_kept(bytes, settled, unsynced, cut, patch)
}

// Whether all offsets are below a length.
fn is_in(patch: &[(u64, u8)], len: usize) -> bool
    ensures { result ≡ are_in len patch.now }
{
    for p in patch {
        if p.0 as usize >= len {
            return false;
        }
    }
    true
}

fn put_patch(bytes: &mut Vec<u8>, patch: &[(u64, u8)])
    requires { are_in (length bytes.old.items) patch.now ≡ true }
    ensures items { bytes.new.items ≡ patched bytes.old.items patch.now }
    ensures long { length bytes.new.items ≡ length bytes.old.items }
    ensures capacity { vec_capacity bytes.new ≡ vec_capacity bytes.old }
{
    for p in patch {
        bytes[p.0 as usize] = p.1;
    }
}

// Whether at each offset the byte is the settled one, or may be lost.
fn is_kept(
    bytes: &Vec<u8>,
    settled: &Vec<u8>,
    unsynced: &Vec<(usize, usize)>,
    cut: usize,
    patch: &[(u64, u8)],
) -> bool
    requires cut { cut ≤ length settled.now.items }
    requires inside { are_in (length bytes.now.items) patch.now ≡ true }
    ensures { result ≡ are_kept unsynced.now.items cut bytes.now.items settled.now.items patch.now }
{
    for p in patch {
        if !is_byte_kept(bytes, settled, unsynced, cut, p.0 as usize) {
            return false;
        }
    }
    true
}

fn is_byte_kept(
    bytes: &Vec<u8>,
    settled: &Vec<u8>,
    unsynced: &Vec<(usize, usize)>,
    cut: usize,
    at: usize,
) -> bool
    requires cut { cut ≤ length settled.now.items }
    requires inside { at < length bytes.now.items }
    ensures { result ≡ (is_unsynced_at unsynced.now.items cut at || slice_index bytes.now.items at == slice_index settled.now.items at) }
{
    is_lost(unsynced, cut, at) || bytes[at] == settled[at]
}

// Whether a byte may be lost.
pub(crate) fn is_lost(unsynced: &Vec<(usize, usize)>, cut: usize, at: usize) -> bool
    ensures { result ≡ is_unsynced_at unsynced.now.items cut at }
{
    if at >= cut {
        return true;
    }
    for range in unsynced {
        if range.0 <= at && at < range.1 {
            return true;
        }
    }
    false
}

// Whether each offered byte is the one that is read, or that may be lost.
fn are_firm(bytes: &Vec<u8>, unsynced: &Vec<(usize, usize)>, cut: usize, offered: &[u8]) -> bool
    requires { cut ≤ length bytes.now.items }
    ensures { MatchBool result
        ((i : ℕ) → i < length offered.now → (is_unsynced_at unsynced.now.items cut i || slice_index offered.now i == slice_index bytes.now.items i) ≡ true)
        ((i : ℕ) × (i < length offered.now)
        × ((is_unsynced_at unsynced.now.items cut i || slice_index offered.now i == slice_index bytes.now.items i) ≡ false)) }
{
    for i in 0..offered.len() {
        if !is_firm(bytes, unsynced, cut, offered, i) {
            return false;
        }
    }
    true
}

fn is_firm(
    bytes: &Vec<u8>,
    unsynced: &Vec<(usize, usize)>,
    cut: usize,
    offered: &[u8],
    at: usize,
) -> bool
    requires cut { cut ≤ length bytes.now.items }
    requires inside { at < length offered.now }
    ensures { result ≡ (is_unsynced_at unsynced.now.items cut at || slice_index offered.now at == slice_index bytes.now.items at) }
{
    is_lost(unsynced, cut, at) || offered[at] == bytes[at]
}
