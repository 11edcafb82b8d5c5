//! A log file in memory, with all that a crash may leave of it.
//!
//! It knows of no trace. Its clauses say that where it stands for a state, it stands for the next one
//! after each call (`specs/inside/Memory.antt`).
ghost use Rattle.std.specs.Prelude.{◌≡◌, ◌≤◌, ◌<◌, ◌+◌, ◌-◌, ◌^◌, ℕ, [], ◌∷◌, ◌++◌, length, take, drop, replicate, slice_index, vec_len, vec_capacity, IsOk, OnOk, OnErr, true, false, min};
ghost use Rattle.sled_store.specs.Device.{LogState, at_rest, log_step, overwritten, Wrote, Cut, Synced};
ghost use Rattle.sled_store.specs.inside.Memory.{Stands, is_within, has_room};

use std::alloc::{AllocError, Global};

// What is read, what is settled, and which bytes a crash may lose.
#[derive(Drop)]
pub(crate) struct MemLog {
    pub(crate) bytes: Vec<u8>,
    // The bytes at the last sync.
    pub(crate) settled: Vec<u8>,
    // The least and the greatest length since then.
    pub(crate) least: usize,
    pub(crate) most: usize,
    // What was written or grown since then, each from a start to an end.
    pub(crate) unsynced: Vec<(usize, usize)>,
    // All from here on may be lost too.
    pub(crate) cut: usize,
}

impl MemLog {
    // Empty.
    pub(crate) fn new(alloc: Global) -> MemLog
        ensures { Stands result (at_rest []) }
    {
        MemLog {
            bytes: Vec::new(alloc),
            settled: Vec::new(alloc),
            least: 0,
            most: 0,
            unsynced: Vec::new(alloc),
            cut: 0,
        }
    }

    // Writes the first `count` of these bytes, where all were asked for.
    pub(crate) fn write(&mut self, at: usize, bytes: &[u8], count: usize) -> Result<(), AllocError>
        requires { count ≤ length bytes.now }
        ensures ok { (s : LogState) → Stands self.old s → OnOk result (Stands self.new (log_step (Wrote at bytes.now (take count bytes.now)) s)) }
        ensures err { (s : LogState) → Stands self.old s → OnErr result (Stands self.new s) }
        ensures room { has_room self.old (at + length bytes.now) ≡ true → IsOk result }
    {
        if bytes.is_empty() {
            return Ok(());
        }
        let Some(end) = at.checked_add(bytes.len()) else {
            return Err(AllocError);
        };
        make_room(&mut self.bytes, end)?;
        make_room(&mut self.settled, end)?;
        self.unsynced.reserve(1)?;
        let from = at.min(self.bytes.len());
        put(&mut self.bytes, at, &bytes[..count])?;
        add_range(&mut self.unsynced, from, end);
        self.most = self.most.max(end);
        Ok(())
    }

    // Cuts it to a length, if it is longer.
    pub(crate) fn cut(&mut self, len: usize)
        ensures { (s : LogState) → Stands self.old s → Stands self.new (log_step (Cut len len) s) }
    {
        self.bytes.truncate(len);
        self.least = self.least.min(len);
        self.cut = self.cut.min(len);
    }

    // Settles what is read.
    pub(crate) fn sync(&mut self)
        requires { (s : LogState) × Stands self.old s }
        ensures { (s : LogState) → Stands self.old s → Stands self.new (log_step Synced s) }
    {
        renew(&mut self.settled, &self.bytes, self.cut);
        follow(&mut self.settled, &self.bytes, &self.unsynced);
        self.unsynced.clear();
        self.least = self.bytes.len();
        self.most = self.bytes.len();
        self.cut = self.bytes.len();
    }
}

// Room for this many bytes in all.
fn make_room(bytes: &mut Vec<u8>, end: usize) -> Result<(), AllocError>
    ensures items { bytes.new.items ≡ bytes.old.items }
    ensures room { OnOk result (end ≤ vec_capacity bytes.new) }
    ensures capacity { vec_capacity bytes.old ≤ vec_capacity bytes.new }
    ensures succeeds { end ≤ vec_capacity bytes.old → IsOk result }
{
    if end > bytes.len() {
        bytes.reserve(end - bytes.len())?;
    }
    Ok(())
}

// Notes a range, where there is room for it.
fn add_range(ranges: &mut Vec<(usize, usize)>, from: usize, end: usize)
    requires { vec_len ranges.old < vec_capacity ranges.old }
    ensures { ranges.new.items ≡ ranges.old.items ++ (from, end) ∷ [] }
{
    let _ = ranges.push((from, end));
}

// Writes over what is there, and past the end.
fn put(bytes: &mut Vec<u8>, at: usize, new: &[u8]) -> Result<(), AllocError>
    requires { at + length new.now < 2 ^ 64 }
    ensures ok { OnOk result (bytes.new.items ≡ overwritten bytes.old.items at new.now) }
    ensures err { OnErr result (bytes.new.items ≡ bytes.old.items) }
    ensures capacity { vec_capacity bytes.old ≤ vec_capacity bytes.new }
    ensures succeeds { at + length new.now ≤ vec_capacity bytes.old → IsOk result }
{
    if new.is_empty() {
        return Ok(());
    }
    grow(bytes, at + new.len())?;
    copy_in(bytes, at, new);
    Ok(())
}

// Fills up with zeros.
fn grow(bytes: &mut Vec<u8>, end: usize) -> Result<(), AllocError>
    ensures ok { OnOk result (bytes.new.items ≡ bytes.old.items ++ replicate (end - length bytes.old.items) 0) }
    ensures err { OnErr result (bytes.new.items ≡ bytes.old.items) }
    ensures capacity { vec_capacity bytes.old ≤ vec_capacity bytes.new }
    ensures succeeds { end ≤ vec_capacity bytes.old → IsOk result }
{
    if end > bytes.len() {
        bytes.resize(end, 0)?;
    }
    Ok(())
}

// Writes over what is there.
fn copy_in(bytes: &mut Vec<u8>, at: usize, new: &[u8])
    requires { at + length new.now ≤ length bytes.old.items }
    ensures items { bytes.new.items ≡ take at bytes.old.items ++ new.now ++ drop (at + length new.now) bytes.old.items }
    ensures capacity { vec_capacity bytes.new ≡ vec_capacity bytes.old }
{
    bytes[at..at + new.len()].copy_from_slice(new);
}

// Makes one content as long as another, and the same from an offset on.
fn renew(settled: &mut Vec<u8>, bytes: &Vec<u8>, from: usize)
    requires from { from ≤ length bytes.now.items }
    requires settled_from { from ≤ length settled.old.items }
    requires room { length bytes.now.items ≤ vec_capacity settled.old }
    ensures items { settled.new.items ≡ take from settled.old.items ++ drop from bytes.now.items }
    ensures capacity { vec_capacity settled.old ≤ vec_capacity settled.new }
{
    settled.truncate(from);
    append(settled, &bytes[from..]);
}

// Adds bytes at the end, where there is room for them.
pub(crate) fn append(bytes: &mut Vec<u8>, new: &[u8])
    requires { vec_len bytes.old + length new.now ≤ vec_capacity bytes.old }
    ensures items { bytes.new.items ≡ bytes.old.items ++ new.now }
    ensures capacity { vec_capacity bytes.old ≤ vec_capacity bytes.new }
{
    let _ = bytes.extend_from_slice(new);
}

// Makes one content the same as another in these ranges, where it is so outside them.
fn follow(settled: &mut Vec<u8>, bytes: &Vec<u8>, ranges: &Vec<(usize, usize)>)
    requires long { length settled.old.items ≡ length bytes.now.items }
    requires same { (i : ℕ) → is_within ranges.now.items i ≡ false → slice_index settled.old.items i ≡ slice_index bytes.now.items i }
    ensures items { settled.new.items ≡ bytes.now.items }
    ensures capacity { vec_capacity settled.new ≡ vec_capacity settled.old }
{
    for range in ranges {
        copy_part(settled, bytes, range.0, range.1);
    }
}

// Makes one content the same as another in a range.
fn copy_part(settled: &mut Vec<u8>, bytes: &Vec<u8>, from: usize, to: usize)
    requires { length settled.old.items ≡ length bytes.now.items }
    ensures long { length settled.new.items ≡ length settled.old.items }
    ensures inside { (i : ℕ) → from ≤ i → i < to → slice_index settled.new.items i ≡ slice_index bytes.now.items i }
    ensures outside { (i : ℕ) → slice_index settled.old.items i ≡ slice_index bytes.now.items i
        → slice_index settled.new.items i ≡ slice_index bytes.now.items i }
    ensures capacity { vec_capacity settled.new ≡ vec_capacity settled.old }
{
    let end = to.min(bytes.len());
    if from < end {
        copy_in(settled, from, &bytes[from..end]);
    }
}
