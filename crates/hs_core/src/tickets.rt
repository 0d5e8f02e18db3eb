//! Tickets: the works in flight.

ghost use Rattle.std.specs.Prelude.{◌≡◌, ◌+◌, ◌<◌, ◌≤◌, ◌^◌, ℕ, [], length, Some, None, IsSome, OnOk, OnErr};
ghost use Rattle.hs_history.specs.CoreStep.{put};
ghost use Rattle.hs_core.specs.Tickets.{under, held};

use hs_history::Flight;
use hs_scheme::OutOfMemory;
use slab::Slab;
use std::alloc::Global;
use std::marker::Model;

/// There are at most so many tickets.
const MAX_TICKETS: usize = u32::MAX as usize;

/// The works in flight, by ticket. Contracts see what is under each ticket.
#[derive(Drop)]
pub(crate) struct Tickets {
    slots: Slab<Flight>,
}

impl Model for Tickets {
    ghost use Rattle.std.specs.Prelude.{◌≤◌};
    ghost use Rattle.hs_core.specs.Tickets.{TicketsData};

    ghost Value = { TicketsData };

    ghost view = { λ a. record { slots = a.slots.slots; capacity = a.slots.capacity } };

    ghost invariant = { λ a. a.slots.capacity ≤ 4294967295 };
}

impl Tickets {
    pub fn new(alloc: Global) -> Tickets
        ensures { result ≡ record { slots = []; capacity = 0 } }
    {
        Tickets {
            slots: Slab::new(alloc),
        }
    }

    /// Takes out the work under each ticket, and keeps the memory.
    pub fn clear(&mut self)
        ensures { self.new ≡ record self.old { slots = [] } }
    {
        self.slots.clear();
    }

    /// The work under the ticket.
    pub fn get(&self, ticket: u32) -> Option<Flight>
        ensures { result ≡ under self.now ticket }
    {
        self.slots.get(ticket as usize).copied()
    }

    /// How many works are in flight.
    pub fn count(&self) -> usize
        ensures count { result ≡ held self.now }
        ensures few { self.now.capacity < 2 ^ 32 }
    {
        self.slots.len()
    }

    /// Each ticket in use is less than this.
    pub fn bound(&self) -> u32
        ensures { (ticket : ℕ) → result ≤ ticket → under self.now ticket ≡ None }
    {
        self.slots.capacity() as u32
    }

    /// Makes room for `k` more works. After a refusal nothing has changed.
    pub fn reserve(&mut self, k: u32) -> Result<(), OutOfMemory>
        ensures slots { self.new.slots ≡ self.old.slots }
        ensures ok { OnOk result (held self.old + k ≤ self.new.capacity) }
        ensures more { self.old.capacity ≤ self.new.capacity }
        ensures err { OnErr result (self.new ≡ self.old) }
    {
        if k as usize <= self.slots.capacity() - self.slots.len() {
            return Ok(());
        }
        let mut larger = self.slots.clone()?;
        larger.reserve(k as usize)?;
        if larger.capacity() > MAX_TICKETS {
            return Err(OutOfMemory);
        }
        self.slots = larger;
        Ok(())
    }

    /// Puts a work under a free ticket. There is room.
    pub fn insert(&mut self, flight: Flight) -> u32
        requires { held self.old + 1 ≤ self.old.capacity }
        ensures free { under self.old result ≡ None }
        ensures updates { (ticket : ℕ)
            → under self.new ticket ≡ put result (Some flight) (under self.old) ticket }
        ensures count { held self.new ≡ held self.old + 1 }
        ensures capacity { self.new.capacity ≡ self.old.capacity }
    {
        self.slots.insert_reserved(flight) as u32
    }

    /// Frees the ticket, which is in use, and answers what was under it.
    pub fn remove(&mut self, ticket: u32) -> Flight
        requires { IsSome (under self.old ticket) }
        ensures work { under self.old ticket ≡ Some result }
        ensures updates { (other : ℕ) → under self.new other ≡ put ticket None (under self.old) other }
        ensures count { held self.new + 1 ≡ held self.old }
        ensures capacity { self.new.capacity ≡ self.old.capacity }
    {
        self.slots.remove(ticket as usize)
    }
}
