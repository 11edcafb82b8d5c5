//! The table of pages, as far as it tells whether it can be one.

use crate::damage::Kind;
use crate::records::Record;
use sled_log::logger::{LogKind, LogOffset};
use sled_log::result::{PageId, Result};
use sled_log::snapshot::{PageState, Snapshot};
use std::alloc::Global;
use std::collections::BTreeMap;

// A page that was seen.
#[derive(Debug, Clone, Copy)]
struct Seen {
    // How many messages it has: none where it was given back.
    entries: u64,
    // The offset of its last message.
    last: LogOffset,
}

/// The pages.
#[derive(Drop)]
pub(crate) struct Table {
    pages: BTreeMap<PageId, Seen>,
    // Messages below this place are in the snapshot.
    least: u64,
    // A link of a page that wasn't there: all pages below it have to be begun. Its page and its offset.
    linked: Option<(PageId, LogOffset)>,
}

impl Table {
    /// The pages of a snapshot.
    pub(crate) fn of(alloc: Global, snapshot: &Snapshot) -> Result<Table> {
        let mut pages = BTreeMap::new(alloc);
        for (number, page) in snapshot.pt.iter().enumerate() {
            let entries = match page {
                PageState::Present { base: _, frags } => (frags.len() as u64).saturating_add(1),
                PageState::Free(_, _) | PageState::Uninitialized => 0,
            };
            pages.insert(number as u64, Seen { entries, last: 0 })?;
        }
        Ok(Table {
            pages,
            least: snapshot.stable_place(),
            linked: None,
        })
    }

    /// The place of the snapshot.
    pub(crate) fn least(&self) -> u64 {
        self.least
    }

    /// Applies a message.
    pub(crate) fn apply(&mut self, record: &Record) -> Result<()> {
        if record.place < self.least {
            return Ok(());
        }
        let last = record.offset;
        match LogKind::from(record.kind) {
            LogKind::Replace => self.put(record.page, Seen { entries: 1, last }),
            LogKind::Free => self.put(record.page, Seen { entries: 0, last }),
            LogKind::Link => {
                self.link(record.page, last);
                Ok(())
            }
            LogKind::Skip | LogKind::Corrupted => Ok(()),
        }
    }

    fn put(&mut self, page: PageId, seen: Seen) -> Result<()> {
        self.pages.insert(page, seen)?;
        Ok(())
    }

    // Puts a link on a page that is there.
    fn link(&mut self, page: PageId, at: LogOffset) {
        match self.pages.get_mut(&page) {
            Some(seen) if seen.entries > 0 => {
                seen.entries = seen.entries.saturating_add(1);
                seen.last = at;
            }
            Some(_) => {}
            None => self.linked = self.linked.max(Some((page, at))),
        }
    }

    /// Why there is no such table: the offset of a message, and what it does.
    pub(crate) fn fault(&self) -> Option<(LogOffset, Kind)> {
        let mut next = 0u64;
        for (page, seen) in &self.pages {
            if *page != next {
                return Some((seen.last, Kind::NotBegun(next)));
            }
            if seen.entries > 255 {
                return Some((seen.last, Kind::TooManyLinks(*page)));
            }
            next = next.saturating_add(1);
        }
        match self.linked {
            Some((page, at)) if page > next => Some((at, Kind::NotBegun(next))),
            _ => None,
        }
    }
}
