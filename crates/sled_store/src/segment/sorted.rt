//! Vectors in ascending order of their keys, made with the allocator that they keep: a set of keys, and values by key.
//!
//! A key is found by a binary search that counts its comparisons (`Count`), and every call that looks for one goes by
//! that search. Room is reserved first, and a key for which there is room is put in without taking memory.
mod count;
mod front;
mod map;
mod set;

pub use crate::segment::sorted::count::Count;
pub use crate::segment::sorted::map::SortedMap;
pub use crate::segment::sorted::set::SortedSet;
