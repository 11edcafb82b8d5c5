//! What a recovery has to find: the table of what was completed below one cut.

use crate::reference::Reference;
use crate::reference::buffers::Buffers;
use crate::reference::places::{HEADER_LEN, LEAST_ROOM, number_of, offset_of};
use crate::reference::wrong::{Wrong, unless};
use sled_log::session::Reply;
use std::collections::BTreeMap;

impl Reference {
    /// Judges what an opening told, and goes on from it.
    pub(crate) fn judge_open(&mut self, reply: &Reply) -> Result<(), Wrong> {
        // Each recovery begins with a sync of the log file and one of the names.
        if self.is_stop(2, reply)? {
            return Ok(());
        }
        let Reply::Opened {
            stable,
            active,
            pages,
        } = reply
        else {
            return Err(Wrong::Wanted("opened"));
        };
        let cut = stable.map_or(0, |place| place.cast_unsigned());
        self.judge_cut(cut)?;
        self.judge_active(cut, *active)?;
        let wanted = self.history.pages(cut);
        if *pages as u64 != wanted {
            return Err(Wrong::With("as many pages as were begun below the cut: ", wanted));
        }
        self.go_on(cut)
    }

    // The cut passes all that is durable, isn't below the last one, and splits no batch.
    fn judge_cut(&self, cut: u64) -> Result<(), Wrong> {
        if cut < self.floor {
            return Err(Wrong::With("a cut not below the last one: ", self.floor));
        }
        if cut < self.acknowledged {
            return Err(Wrong::With("a cut that passes what is durable: ", self.acknowledged));
        }
        if cut > self.reach {
            return Err(Wrong::With("a cut in what was begun, up to ", self.reach));
        }
        unless(
            self.history.is_whole_at(cut),
            "a cut that splits no message and no batch",
        )
    }

    // The slot in which the log goes on is that of the cut's segment.
    fn judge_active(&mut self, cut: u64, active: Option<u64>) -> Result<(), Wrong> {
        let offset = offset_of(cut, self.size);
        let Some(slot) = active else {
            return unless(offset == 0, "a slot, as the segment isn't full");
        };
        let has_room = offset.wrapping_add(LEAST_ROOM) <= self.size;
        unless(
            offset >= HEADER_LEN && has_room && offset_of(slot, self.size) == 0,
            "a slot in which a record may begin at the cut",
        )?;
        let number = number_of(cut, self.size);
        match self.slots.get(&number) {
            Some(known) if *known != slot => Err(Wrong::With("the segment's slot: ", *known)),
            Some(_) => Ok(()),
            None => {
                self.slots.insert(number, slot)?;
                Ok(())
            }
        }
    }

    // What lies past the cut is forgotten.
    fn go_on(&mut self, cut: u64) -> Result<(), Wrong> {
        self.history.keep_below(cut);
        self.history.forget(cut)?;
        self.floor = cut;
        self.reach = cut;
        self.keep_slots(cut)?;
        self.is_open = true;
        self.buffers = Buffers::new(self.alloc, self.size, cut);
        self.tickets = Vec::new(self.alloc);
        self.batch = None;
        Ok(())
    }

    // Keeps the slots of the segments that the table has messages in, and of the one in which the log goes on.
    fn keep_slots(&mut self, cut: u64) -> Result<(), Wrong> {
        let is_begun = offset_of(cut, self.size) != 0;
        let last = number_of(cut, self.size);
        let mut kept = BTreeMap::new(self.alloc);
        for (number, slot) in self.slots.iter() {
            let goes_on = is_begun && *number == last;
            if goes_on || self.history.has_segment(*number, self.size) {
                kept.insert(*number, *slot)?;
            }
        }
        self.slots = kept;
        Ok(())
    }
}
