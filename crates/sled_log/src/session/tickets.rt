//! The tickets of a log that is open, by number (`specs/OpenTickets.antt`).
//!
//! Each place that is kept has a ticket with the next number, and few of them are open at once. Only these take memory, in
//! ascending order of their numbers. So one is found by bisection. The oldest and the newest are taken at no cost; another one
//! moves those in front of it or those behind it, whichever are fewer.
ghost use Rattle.std.specs.Prelude.{◌≡◌, ◌<◌, ◌+◌, ◌-◌, if◌then◌else◌, [], ◌∷◌, ◌++◌, length, get_or, set, None, Some, IfNone, IfSome, OnOk};
ghost use Rattle.std.specs.List.{HoldsAt};
ghost use Rattle.std.specs.List.Sorted.{IsStrictlySortedBy};
ghost use Rattle.std.specs.Map.{keys_of};
ghost use Rattle.std.specs.Option.{is_some, option_copied};
ghost use Rattle.std.specs.Ordering.{nat_cmp};
ghost use Rattle.sled_log.specs.OpenTickets.{HasRoom, of_number};

use sled_codec::result::PageId;
use sled_codec::serialization::LogKind;
use sled_core::reservation::{Guard, Reservation};
use std::alloc::{AllocError, Global};
use std::collections::VecDeque;
use std::marker::Model;

/// A reservation that is open, with its pin.
pub(crate) struct Ticket {
    pub(crate) kind: LogKind,
    pub(crate) page: PageId,
    pub(crate) reservation: Reservation,
    pub(crate) guard: Guard,
}

impl Ticket {
    /// Gives the ticket up.
    pub(crate) fn abandon(self) {
        let Ticket {
            kind: _,
            page: _,
            reservation,
            guard,
        } = self;
        reservation.abandon();
        guard.abandon();
    }
}

/// Tickets by number, from 0 on. Contracts see, for each number that was given, its ticket as long as it is open, and for how
/// many more there is memory.
pub(crate) struct Tickets {
    // Those that are open, each behind its number.
    entries: VecDeque<(usize, Ticket)>,
    // How many numbers were given: the next one.
    begun: usize,
}

impl Model for Tickets {
    ghost use Rattle.sled_log.specs.OpenTickets.{TicketList};

    ghost Value = { TicketList };

    ghost use Rattle.std.specs.Prelude.{◌-◌};
    ghost use Rattle.std.specs.VecDeque.{deque_capacity, deque_len};
    ghost use Rattle.sled_log.specs.OpenTickets.{AreNumbered, by_number};

    ghost view = { λ t. record {
      items = by_number t.entries.items t.begun;
      spare = deque_capacity t.entries - deque_len t.entries;
    } };

    ghost invariant = { λ t. AreNumbered t.entries.items t.begun };
}

impl Tickets {
    /// Returns none, with no number given.
    pub(crate) fn new(alloc: Global) -> Tickets
        ensures { result.items ≡ [] }
    {
        Tickets {
            entries: VecDeque::new(alloc),
            begun: 0,
        }
    }

    /// Returns how many numbers were given. The next ticket gets that one.
    pub(crate) fn begun(&self) -> usize
        ensures { result ≡ length self.now.items }
    {
        self.begun
    }

    /// Returns the ticket of a number, where it is open.
    pub(crate) fn get(&self, number: usize) -> Option<&Ticket>
        ensures { option_copied result ≡ get_or self.now.items number None }
    {
        let at = find(&self.entries, number)?;
        Some(&self.entries[at].1)
    }

    /// Takes the ticket of a number, where it is open. Its memory is there for another one.
    pub(crate) fn take(&mut self, number: usize) -> Option<Ticket>
        ensures taken { result ≡ get_or self.old.items number None }
        ensures left { self.new.items ≡ set self.old.items number None }
        ensures spare { self.new.spare ≡ (if is_some result then self.old.spare + 1 else self.old.spare) }
    {
        let at = find(&self.entries, number)?;
        let (_, ticket) = self.entries.remove(at).unwrap();
        Some(ticket)
    }

    /// Makes room for one more ticket.
    ///
    /// # Errors
    ///
    /// `AllocError` where there is no memory for it, or no number is left: no ticket has changed.
    pub(crate) fn reserve(&mut self) -> Result<(), AllocError>
        ensures items { self.new.items ≡ self.old.items }
        ensures room { OnOk result (HasRoom self.new) }
    {
        if self.begun == usize::MAX {
            return Err(AllocError);
        }
        self.entries.reserve(1)
    }

    /// Keeps a ticket under the next number. There is room for it.
    pub(crate) fn push_reserved(&mut self, ticket: Ticket)
        requires { HasRoom self.old }
        ensures items { self.new.items ≡ self.old.items ++ Some ticket ∷ [] }
        ensures spare { self.new.spare ≡ self.old.spare - 1 }
    {
        match self.entries.push_back((self.begun, ticket)) {
            Ok(()) => self.begun += 1,
            Err(_) => unreachable!(),
        }
    }

    /// Gives all tickets up.
    pub(crate) fn abandon(self) {
        let Tickets {
            mut entries,
            begun: _,
        } = self;
        while let Some((_, ticket)) = entries.pop_back() {
            ticket.abandon();
        }
        entries.destroy_empty();
    }
}

/// Returns where the ticket of a number stands among those that are open.
fn find(entries: &VecDeque<(usize, Ticket)>, number: usize) -> Option<usize>
    requires { IsStrictlySortedBy nat_cmp (keys_of entries.now.items) }
    ensures found { IfSome result (λ i. (i < length entries.now.items) × HoldsAt (λ n. n ≡ number) (keys_of entries.now.items) i) }
    ensures missing { IfNone result (of_number entries.now.items number ≡ None) }
{
    entries
        .binary_search_by_key(&number, |ticket| ticket.0)
        .ok()
}
