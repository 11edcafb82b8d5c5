//! Which parts of the log are being filled, are sealed, or are on the device.

use crate::reference::places::{HEADER_LEN, LEAST_ROOM, end_of, number_of, offset_of, record_len};
use crate::reference::wrong::Wrong;
use std::alloc::Global;

/// A part of the log, from a place to another.
#[derive(Clone, Copy)]
pub struct Span {
    pub begin: u64,
    pub end: u64,
}

/// What came of writing some buffers.
#[derive(Clone, Copy)]
pub struct Flow {
    /// How many were written.
    pub writes: u64,
    /// The least place of an open reservation of the one that holds the others up.
    pub held: Option<u64>,
}

/// The buffers of a log that is open.
#[derive(Drop)]
pub struct Buffers {
    size: u64,
    // Sealed and not written, by place.
    sealed: Vec<Span>,
    // The one that is being filled.
    current: Span,
    // Written, behind a gap.
    written: Vec<Span>,
    // All in front of it is on the device.
    synced: u64,
    // Where the last reservation ends.
    reserved_to: u64,
    // The places of the open reservations, ascending.
    open: Vec<u64>,
}

impl Buffers {
    /// Returns the buffers of a log that goes on at a cut.
    pub fn new(alloc: Global, size: u64, cut: u64) -> Buffers {
        let filled = if offset_of(cut, size) == 0 {
            HEADER_LEN
        } else {
            0
        };
        Buffers {
            size,
            sealed: Vec::new(alloc),
            current: Span {
                begin: cut,
                end: cut.wrapping_add(filled),
            },
            written: Vec::new(alloc),
            synced: cut,
            reserved_to: cut,
            open: Vec::new(alloc),
        }
    }

    /// Returns where all ends that is on the device without a gap.
    pub fn synced(&self) -> u64 {
        self.synced
    }

    /// Returns where the last reservation ends.
    pub fn reserved_to(&self) -> u64 {
        self.reserved_to
    }

    /// Reserves the next place at which a record has room, and returns where it lies.
    pub fn reserve(&mut self, page: u64, body: u64) -> Result<Span, Wrong> {
        let len = self.len_here(page, body);
        if len > self.left() || self.left() < LEAST_ROOM {
            self.seal_full()?;
        }
        let begin = self.current.end;
        let end = begin.wrapping_add(self.len_here(page, body));
        self.current.end = end;
        self.reserved_to = end;
        self.open.push(begin)?;
        Ok(Span { begin, end })
    }

    /// Ends a reservation.
    pub fn close(&mut self, place: u64) {
        self.open.retain(|open| *open != place);
    }

    /// Returns the sealed buffer of this number, of those without an open reservation.
    pub fn ready(&self, index: usize) -> Option<Span> {
        let mut before = 0usize;
        for span in &self.sealed {
            if self.least_open(*span).is_some() {
                continue;
            }
            if before == index {
                return Some(*span);
            }
            before = before.wrapping_add(1);
        }
        None
    }

    /// Writes all that begins below a place.
    pub fn write_below(&mut self, place: u64) -> Result<Flow, Wrong> {
        if self.current.begin < place {
            self.seal()?;
        }
        let mut writes = 0u64;
        for _ in 0..self.sealed.len() {
            let Some(span) = self.first_below(place) else {
                break;
            };
            let held = self.least_open(span);
            if held.is_some() {
                return Ok(Flow { writes, held });
            }
            self.write(span)?;
            writes = writes.wrapping_add(1);
        }
        Ok(Flow { writes, held: None })
    }

    /// Writes the buffer that has a place, unless it is on the device.
    pub fn write_around(&mut self, place: u64) -> Result<Flow, Wrong> {
        let nothing = Flow {
            writes: 0,
            held: None,
        };
        if place < self.synced {
            return Ok(nothing);
        }
        if place >= self.current.begin {
            self.seal()?;
        }
        let Some(span) = self.around(place) else {
            return Ok(nothing);
        };
        let held = self.least_open(span);
        if held.is_some() {
            return Ok(Flow { writes: 0, held });
        }
        self.write(span)?;
        Ok(Flow {
            writes: 1,
            held: None,
        })
    }

    /// Writes a sealed buffer.
    pub fn write(&mut self, span: Span) -> Result<(), Wrong> {
        self.sealed.retain(|sealed| sealed.begin != span.begin);
        self.written.push(span)?;
        for _ in 0..self.written.len() {
            let Some(next) = self.written_at(self.synced) else {
                break;
            };
            self.synced = next.end;
        }
        let synced = self.synced;
        self.written.retain(|written| written.begin >= synced);
        Ok(())
    }

    // How long the record is in the current segment.
    fn len_here(&self, page: u64, body: u64) -> u64 {
        record_len(number_of(self.current.begin, self.size), page, body)
    }

    // How many bytes of the current segment are left.
    fn left(&self) -> u64 {
        end_of(self.current.begin, self.size).saturating_sub(self.current.end)
    }

    // Seals the current buffer. Where no record has room behind it, its segment ends.
    fn seal(&mut self) -> Result<(), Wrong> {
        if self.left() < LEAST_ROOM {
            return self.seal_full();
        }
        self.sealed.push(self.current)?;
        self.current.begin = self.current.end;
        Ok(())
    }

    // Seals the current buffer up to the end of its segment, and begins the next one.
    fn seal_full(&mut self) -> Result<(), Wrong> {
        let end = end_of(self.current.begin, self.size);
        self.sealed.push(Span {
            begin: self.current.begin,
            end,
        })?;
        self.current = Span {
            begin: end,
            end: end.wrapping_add(HEADER_LEN),
        };
        Ok(())
    }

    // The least place of an open reservation in a buffer.
    fn least_open(&self, span: Span) -> Option<u64> {
        for place in &self.open {
            if *place >= span.begin && *place < span.end {
                return Some(*place);
            }
        }
        None
    }

    // The first sealed buffer, where it begins below a place.
    fn first_below(&self, place: u64) -> Option<Span> {
        match self.sealed.first() {
            Some(span) if span.begin < place => Some(*span),
            _ => None,
        }
    }

    // The sealed buffer that has a place.
    fn around(&self, place: u64) -> Option<Span> {
        for span in &self.sealed {
            if span.begin <= place && place < span.end {
                return Some(*span);
            }
        }
        None
    }

    // The written buffer that begins at a place.
    fn written_at(&self, place: u64) -> Option<Span> {
        for span in &self.written {
            if span.begin == place {
                return Some(*span);
            }
        }
        None
    }
}
