//! Sorted sets and maps: where a key is found, where one belongs that is missing, and how often keys are compared.

mod noted;

use crate::sorted::noted::Noted;
use sled_log::result::Result;
use sled_log::segment::{Count, SortedMap, SortedSet};
use std::alloc::Global;
use std::cell::Cell;

/// Whether each key is found among 0 to 300, each other one belongs where it has to, and the search that compares most
/// compares as often as the number of keys has binary digits.
///
/// The keys are 1, 3, 5 and so on: the key 2 i + 1 has the index i, and 2 i belongs there.
pub fn find_all(alloc: Global) -> Result<bool> {
    let made = Cell::new(0);
    find_each(alloc, &made)
}

// The same, of keys that note their comparisons here.
fn find_each<'a>(alloc: Global, made: &'a Cell<usize>) -> Result<bool> {
    let mut set: SortedSet<Noted<'a>> = SortedSet::new(alloc);
    let mut map: SortedMap<Noted<'a>, u64> = SortedMap::new(alloc);
    let mut is_so = all_found(&set, &map, made, 0);
    for n in 1..301u64 {
        let number = n.wrapping_mul(2).wrapping_sub(1);
        let key = Noted { number, made };
        set.reserve(1)?;
        set.insert(key);
        map.reserve(1)?;
        map.insert(key, n);
        is_so &= all_found(&set, &map, made, n);
    }
    Ok(is_so)
}

// Whether each of so many keys is found, and those beside them belong where they have to.
fn all_found<'a>(
    set: &SortedSet<Noted<'a>>,
    map: &SortedMap<Noted<'a>, u64>,
    made: &'a Cell<usize>,
    count: u64,
) -> bool {
    let mut is_so = true;
    let mut most = (0, 0);
    for number in 0..count.wrapping_mul(2).wrapping_add(1) {
        let key = Noted { number, made };
        made.set(0);
        is_so &= set.find(&key, &mut Count::new()) == place_of(number);
        most.0 = made.get().max(most.0);
        made.set(0);
        is_so &= map.find(&key, &mut Count::new()) == place_of(number);
        most.1 = made.get().max(most.1);
    }
    let digits = digits_of(count);
    is_so && most == (digits, digits)
}

// The index of a number, or the one where it belongs.
fn place_of(number: u64) -> std::result::Result<usize, usize> {
    let index = (number / 2) as usize;
    if number % 2 == 1 {
        Ok(index)
    } else {
        Err(index)
    }
}

// How many binary digits a number has: none for 0.
fn digits_of(number: u64) -> usize {
    let mut digits = 0usize;
    let mut power = 1u64;
    for _ in 0..64 {
        if power <= number {
            digits = digits.wrapping_add(1);
        }
        power = power.wrapping_mul(2);
    }
    digits
}

// Whether the numbers of binary digits are those that were counted by hand.
fn are_counted() -> bool {
    digits_of(0) == 0
        && digits_of(1) == 1
        && digits_of(2) == 2
        && digits_of(3) == 2
        && digits_of(4) == 3
        && digits_of(255) == 8
        && digits_of(256) == 9
}

/// Whether keys that come and go leave the others in order.
pub fn move_keys(alloc: Global) -> Result<bool> {
    let mut set = SortedSet::new(alloc);
    for key in [4u64, 1, 3, 2, 3] {
        insert(&mut set, key)?;
    }
    let taken = set.take_first();
    set.remove(3);
    set.remove(7);
    let mut is_so = are_counted() && taken == Some(1);
    is_so &= set.keys() == [2, 4].as_slice() && set.len() == 2;
    for key in [9, 0, 5, 6, 7, 8] {
        insert(&mut set, key)?;
    }
    is_so &= set.keys() == [0, 2, 4, 5, 6, 7, 8, 9].as_slice();
    is_so &= set.first() == Some(0) && set.last() == Some(9) && set.get(1) == Some(2);
    is_so &= set.place(3) == 2 && set.contains(5) && !set.contains(3);
    set.clear();
    Ok(is_so && set.take_first() == None && value_is_replaced(alloc)?)
}

// Puts a key in, where there is memory for it.
fn insert(set: &mut SortedSet<u64>, key: u64) -> Result<()> {
    set.reserve(1)?;
    set.insert(key);
    Ok(())
}

// Whether a key of a map takes another value, and is gone once it is taken out.
fn value_is_replaced(alloc: Global) -> Result<bool> {
    let mut map = SortedMap::new(alloc);
    for (key, value) in [(5u64, 1u64), (3, 2), (5, 3)] {
        map.reserve(1)?;
        map.insert(key, value);
    }
    let mut is_so = map.entries() == [(3, 2), (5, 3)].as_slice() && map.len() == 2;
    is_so &= map.get(5) == Some(3) && map.get(4) == None;
    map.remove(3);
    map.remove(4);
    is_so &= map.entries() == [(5, 3)].as_slice();
    Ok(is_so)
}
