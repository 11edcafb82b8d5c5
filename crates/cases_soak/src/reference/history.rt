//! What was completed: the messages by place, and the batches. All that a page is follows from it.
//!
//! A message that a later one replaced is forgotten once no cut can fall between the two.

use crate::reference::wrong::Wrong;
use sled_log::result::DiskPtr;
use std::alloc::Global;
use std::collections::BTreeMap;

/// What a message does to its page.
#[derive(Debug, Clone, Copy, PartialEq, Eq)]
pub enum Kind {
    Replace,
    Link,
    Free,
}

/// An item of a byte that is repeated. So no part of it can be taken for a record.
#[derive(Debug, Clone, Copy, PartialEq, Eq)]
pub struct Item {
    pub byte: u8,
    pub len: usize,
}

impl Item {
    /// Returns the item of these bytes, all alike.
    pub fn of(bytes: &[u8]) -> Item {
        Item {
            byte: bytes.first().copied().unwrap_or(0),
            len: bytes.len(),
        }
    }

    /// Returns how long its encoding is, where that is below 241.
    pub fn encoded_len(&self) -> u64 {
        (self.len as u64).wrapping_add(1)
    }

    /// Returns whether these bytes are its encoding: its length, and then the bytes.
    pub fn is_encoded(&self, bytes: &[u8]) -> bool {
        match bytes.split_first() {
            Some((len, rest)) => *len as usize == self.len && self.is(rest),
            None => false,
        }
    }

    // Whether these are its bytes.
    fn is(&self, bytes: &[u8]) -> bool {
        for byte in bytes {
            if *byte != self.byte {
                return false;
            }
        }
        bytes.len() == self.len
    }
}

/// A message that was completed.
#[derive(Clone, Copy)]
pub struct Message {
    pub kind: Kind,
    pub page: u64,
    pub place: u64,
    pub end: u64,
    pub pointer: DiskPtr,
    pub item: Item,
}

impl Message {
    // Whether it stands in place of all that its page was.
    fn begins_page(&self) -> bool {
        self.kind != Kind::Link
    }
}

/// A batch: the place of its manifest, and the last byte of what is in it.
#[derive(Clone, Copy)]
pub struct Batch {
    pub low: u64,
    pub peg: u64,
}

/// What was completed.
#[derive(Drop)]
pub struct History {
    alloc: Global,
    messages: BTreeMap<u64, Message>,
    batches: Vec<Batch>,
}

impl History {
    /// Nothing.
    pub fn new(alloc: Global) -> History {
        History {
            alloc,
            messages: BTreeMap::new(alloc),
            batches: Vec::new(alloc),
        }
    }

    /// Adds a message.
    pub fn complete(&mut self, message: Message) -> Result<(), Wrong> {
        self.messages.insert(message.place, message)?;
        Ok(())
    }

    /// Adds a batch.
    pub fn end_batch(&mut self, low: u64, peg: u64) -> Result<(), Wrong> {
        Ok(self.batches.push(Batch { low, peg })?)
    }

    /// Returns the message that a page began with last, below a cut.
    pub fn base(&self, page: u64, cut: u64) -> Option<Message> {
        let mut found = None;
        for message in self.messages.values() {
            if message.page == page && message.place < cut && message.begins_page() {
                found = Some(*message);
            }
        }
        found
    }

    /// Returns how many pages there are below a cut. Each begins with a Replace, in order.
    pub fn pages(&self, cut: u64) -> u64 {
        let mut pages = 0;
        for message in self.messages.values() {
            if message.place < cut && message.begins_page() {
                pages = message.page.wrapping_add(1).max(pages);
            }
        }
        pages
    }

    /// Returns how many entries a page has: none where it isn't present.
    pub fn entries(&self, page: u64) -> u64 {
        let Some(base) = self.base(page, u64::MAX) else {
            return 0;
        };
        if base.kind != Kind::Replace {
            return 0;
        }
        let mut entries = 1u64;
        for message in self.messages.values() {
            if is_link_on(message, &base) {
                entries = entries.wrapping_add(1);
            }
        }
        entries
    }

    /// Returns the entry of a page that lies first at a place or behind it.
    pub fn entry_from(&self, base: &Message, place: u64) -> Option<Message> {
        if base.place >= place {
            return Some(*base);
        }
        for message in self.messages.values() {
            if message.place >= place && is_link_on(message, base) {
                return Some(*message);
            }
        }
        None
    }

    /// Returns whether these are the encodings of all items of a page, in order.
    pub fn is_page(&self, base: &Message, items: &[Vec<u8>]) -> bool {
        let mut from = 0;
        for bytes in items {
            let Some(entry) = self.entry_from(base, from) else {
                return false;
            };
            if !entry.item.is_encoded(bytes) {
                return false;
            }
            from = entry.place.wrapping_add(1);
        }
        self.entry_from(base, from).is_none()
    }

    /// Returns whether no message and no batch begins below a cut and ends behind it.
    pub fn is_whole_at(&self, cut: u64) -> bool {
        for message in self.messages.values() {
            if message.place < cut && message.end > cut {
                return false;
            }
        }
        for batch in &self.batches {
            if batch.low < cut && batch.peg >= cut {
                return false;
            }
        }
        true
    }

    /// Returns the end of the last message that begins below a place; 0 with none.
    pub fn end_below(&self, place: u64) -> u64 {
        let mut end = 0;
        for message in self.messages.values() {
            if message.place < place {
                end = message.end.max(end);
            }
        }
        end
    }

    /// Returns where the first batch begins that a place splits.
    pub fn batch_split_at(&self, place: u64) -> Option<u64> {
        let mut first = None;
        for batch in &self.batches {
            if batch.low < place && batch.peg >= place {
                first = Some(first.map_or(batch.low, |low: u64| low.min(batch.low)));
            }
        }
        first
    }

    /// Returns the end of the batch that a place splits, or the place.
    pub fn batch_end(&self, place: u64) -> u64 {
        for batch in &self.batches {
            if batch.low < place && batch.peg >= place {
                return batch.peg.wrapping_add(1);
            }
        }
        place
    }

    /// Keeps what begins below a cut.
    pub fn keep_below(&mut self, cut: u64) {
        self.messages.retain(|place, _| *place < cut);
        self.batches.retain(|batch| batch.low < cut);
    }

    /// Forgets what no table of a cut at this place or behind it has.
    pub fn forget(&mut self, place: u64) -> Result<(), Wrong> {
        let begun = self.begun_below(place)?;
        self.messages
            .retain(|at, message| is_needed(&begun, message, *at));
        self.batches.retain(|batch| batch.peg >= place);
        Ok(())
    }

    /// Returns how many messages are kept.
    pub fn len(&self) -> usize {
        self.messages.len()
    }

    /// Returns whether a slot has a record of a segment other than this one, which a cut at a place or behind it needs.
    pub fn needs_slot(&self, slot: u64, size: u64, number: u64, place: u64) -> Result<bool, Wrong> {
        let begun = self.begun_below(place)?;
        for (at, message) in self.messages.iter() {
            let begin = slot_of(message, size);
            let own = at.checked_div(size).unwrap_or(0);
            if begin == slot && own != number && is_needed(&begun, message, *at) {
                return Ok(true);
            }
        }
        Ok(false)
    }

    /// Returns whether a message lies in the segment of this number.
    pub fn has_segment(&self, number: u64, size: u64) -> bool {
        for at in self.messages.keys() {
            if at.checked_div(size) == Some(number) {
                return true;
            }
        }
        false
    }

    // Where each page began last, below a place.
    fn begun_below(&self, place: u64) -> Result<BTreeMap<u64, u64>, Wrong> {
        let mut begun = BTreeMap::new(self.alloc);
        for message in self.messages.values() {
            if message.place < place && message.begins_page() {
                begun.insert(message.page, message.place)?;
            }
        }
        Ok(begun)
    }
}

// Whether a message is a link on what its page began with last.
fn is_link_on(message: &Message, base: &Message) -> bool {
    message.kind == Kind::Link && message.page == base.page && message.place > base.place
}

// Whether a message lies at or behind where its page began last.
fn is_needed(begun: &BTreeMap<u64, u64>, message: &Message, place: u64) -> bool {
    match begun.get(&message.page) {
        Some(first) => place >= *first,
        None => true,
    }
}

// Where the slot of a message begins.
fn slot_of(message: &Message, size: u64) -> u64 {
    let lid = message.pointer.lid();
    lid.wrapping_sub(lid.checked_rem(size).unwrap_or(0))
}
