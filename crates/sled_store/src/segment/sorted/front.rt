//! A vector whose first item is taken out at no cost: it stays where it is, and what is in front of the first one left
//! is given up once its room is needed. Where there is room for all items twice, that costs each item one move at most.
ghost use Rattle.std.specs.Prelude.{◌≡◌, ◌≤◌, ◌<◌, ◌+◌, ◌++◌, [], ◌∷◌, drop, length, vec_len, vec_capacity, slice_set, OnOk};
ghost use Rattle.std.specs.List.{insert, remove};

use std::alloc::{AllocError, Global};
use std::marker::Model;

/// Items in a row. Contracts see the items, and beside them how many there is room for.
#[derive(Drop)]
pub(crate) struct FrontVec<T: Copy> {
    items: Vec<T>,
    // How many of them were taken out at the front.
    begin: usize,
}

impl<T: Copy> Model for FrontVec<T> {
    ghost use Rattle.std.specs.Prelude.{ℕ, List, ◌≤◌, drop, vec_len, vec_capacity};

    ghost Value = { List T × ℕ };

    ghost view = { λ s. (drop s.begin s.items.items, vec_capacity s.items) };

    ghost invariant = { λ s. s.begin ≤ vec_len s.items };
}

impl<T: Copy> FrontVec<T> {
    /// Returns one with no items.
    pub(crate) fn new(alloc: Global) -> FrontVec<T>
        ensures items { result.0 ≡ [] }
        ensures room { result.1 ≡ 0 }
    {
        FrontVec {
            items: Vec::new(alloc),
            begin: 0,
        }
    }

    /// Returns the allocator that it was made with.
    pub(crate) fn allocator(&self) -> Global {
        *self.items.allocator()
    }

    /// Returns its items.
    pub(crate) fn as_slice(&self) -> &[T]
        ensures { result.now ≡ self.now.0 }
    {
        &self.items[self.begin..]
    }

    /// Returns how many items it has.
    pub(crate) fn len(&self) -> usize
        ensures { result ≡ length self.now.0 }
    {
        self.items.len() - self.begin
    }

    /// Makes room for more items.
    pub(crate) fn reserve(&mut self, more: usize) -> Result<(), AllocError>
        ensures items { self.new.0 ≡ self.old.0 }
        ensures room { OnOk result (length self.new.0 + more ≤ self.new.1) }
        ensures kept { self.old.1 ≤ self.new.1 }
    {
        if self.items.capacity() - (self.items.len() - self.begin) < more {
            move_up(&mut self.items, self.begin);
            self.begin = 0;
            self.items.reserve(more)?;
        }
        Ok(())
    }

    /// Puts an item in at an index. There is room for it.
    pub(crate) fn insert(&mut self, at: usize, item: T)
        requires at { at ≤ length self.old.0 }
        requires room { length self.old.0 < self.old.1 }
        ensures items { self.new.0 ≡ insert self.old.0 at item }
        ensures room { self.old.1 ≤ self.new.1 }
    {
        self.begin = make_room(&mut self.items, self.begin);
        let _ = self.items.insert(self.begin + at, item);
    }

    /// Puts an item in the place of the one at an index.
    pub(crate) fn set(&mut self, at: usize, item: T)
        requires { at < length self.old.0 }
        ensures items { self.new.0 ≡ slice_set self.old.0 at item }
        ensures room { self.new.1 ≡ self.old.1 }
    {
        self.items[self.begin + at] = item;
    }

    /// Puts an item in behind all others. There is room for it.
    pub(crate) fn push(&mut self, item: T)
        requires { length self.old.0 < self.old.1 }
        ensures items { self.new.0 ≡ self.old.0 ++ item ∷ [] }
        ensures room { self.old.1 ≤ self.new.1 }
    {
        self.begin = make_room(&mut self.items, self.begin);
        let _ = self.items.push(item);
    }

    /// Takes out the item at an index.
    pub(crate) fn remove(&mut self, at: usize)
        requires { at < length self.old.0 }
        ensures items { self.new.0 ≡ remove self.old.0 at }
        ensures room { self.new.1 ≡ self.old.1 }
    {
        if at == 0 {
            self.begin += 1;
        } else {
            let _ = self.items.remove(self.begin + at);
        }
    }

    /// Takes all items out.
    pub(crate) fn clear(&mut self)
        ensures items { self.new.0 ≡ [] }
        ensures room { self.new.1 ≡ self.old.1 }
    {
        self.items.clear();
        self.begin = 0;
    }
}

/// Where a vector is full, gives up its first items. Returns how many there are of them then.
fn make_room<T: Copy>(items: &mut Vec<T>, begin: usize) -> usize
    requires within { begin ≤ vec_len items.old }
    requires room { vec_len items.old < vec_capacity items.old + begin }
    ensures items { drop result items.new.items ≡ drop begin items.old.items }
    ensures within { result ≤ vec_len items.new }
    ensures len { vec_len items.new + begin ≡ vec_len items.old + result }
    ensures room { vec_len items.new < vec_capacity items.new }
    ensures kept { vec_capacity items.new ≡ vec_capacity items.old }
{
    if items.len() < items.capacity() {
        return begin;
    }
    move_up(items, begin);
    0
}

/// Gives up the first items of a vector.
fn move_up<T: Copy>(items: &mut Vec<T>, begin: usize)
    requires { begin ≤ vec_len items.old }
    ensures items { items.new.items ≡ drop begin items.old.items }
    ensures room { vec_capacity items.new ≡ vec_capacity items.old }
    ensures len { vec_len items.new + begin ≡ vec_len items.old }
{
    items.copy_within(begin.., 0);
    items.truncate(items.len() - begin);
}
