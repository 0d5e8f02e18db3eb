//! The core.

ghost use Rattle.std.specs.Prelude.{◌≡◌, ◌-◌, ◌<◌, ◌≤◌, ◌↔◌, ◌++◌, ◌∷◌, [], ℕ, length, max, slice_get, Some, None, IfOk, IfSome, IfNone, IsTrue, OnOk, OnErr};
ghost use Rattle.std.specs.Option.{option_map, option_copied};
ghost use Rattle.hs_table.specs.Tables.{HasStart};
ghost use Rattle.hs_types.specs.Interned.{IsRow};
ghost use Rattle.hs_history.specs.History.{IsAtRest, told};
ghost use Rattle.hs_core.specs.Core.{state_of, log_of, deduction_of, StartsAt, IsCore};
ghost use Rattle.hs_core.specs.Answers.{IsFound};
ghost use Rattle.hs_core.specs.Draining.{NothingFlies};

use crate::backing::Backing;
use crate::journal::Journal;
use crate::pending::Pending;
use crate::tickets::Tickets;
use hs_history::Flight;
use hs_rules::{Deduced, Replica};
use hs_scheme::{OutOfMemory, Problem};
use hs_table::{Entry, HeadBy};
use hs_types::Interner;
use std::alloc::Global;
use std::marker::Model;

/// So many events have room at once where room is made ahead.
const AHEAD: u32 = 64;

/// A log of entries with the support of each, the works that are pending and in flight, perhaps an
/// entry past the budget, and what has happened so far. It borrows its problem.
///
/// Contracts see what stays the same (the problem, the budget and the flag `first`), the types that
/// have numbers, the story of what has happened, to which each event adds one step, and `spare`, the
/// number of events for which there is room. All else is a function of these: the state that the
/// story leads to.
///
/// Beside what the replica needs, an entry costs a support of some 50 bytes, with 8 more for each
/// chosen argument where there are more than two, and some three events of the journal, which take 3
/// bytes each with one worker and mostly 11 with several. Pending works take 12 bytes a stretch of
/// points or of places that follow one another, however long it is.
#[derive(Drop)]
pub struct Core<'p> {
    pub(crate) problem: &'p Problem,
    pub(crate) budget: u32,
    pub(crate) first: bool,
    pub(crate) replica: Replica,
    /// The support of each entry of the log.
    pub(crate) supports: Vec<Backing>,
    /// The pending works, of which the front is taken first.
    pub(crate) pending: Pending,
    pub(crate) tickets: Tickets,
    pub(crate) past: Option<Deduced>,
    pub(crate) journal: Journal,
    /// The place of the start entry.
    pub(crate) start: Option<u32>,
    pub(crate) spare: u32,
}

impl<'p> Model for Core<'p> {
    ghost use Rattle.std.specs.Vec.{vec_len, vec_capacity};
    ghost use Rattle.hs_core.specs.Core.{CoreData, coded_core};
    ghost use Rattle.hs_core.specs.Tickets.{under, held};
    ghost use Rattle.hs_core.specs.Inside.{story_in, HasRoom, IsInside};

    ghost Value = { CoreData };

    ghost coded = { coded_core };

    ghost view = { λ a. record {
      base = record { problem = a.problem.now; budget = a.budget; first = a.first };
      ids = a.replica.ids;
      story = story_in a.replica.ids a.replica.log a.supports.items a.past a.journal.steps;
      spare = a.spare;
    } };

    ghost invariant = { λ a.
        IsInside (record { problem = a.problem.now; budget = a.budget; first = a.first }) (record {
          ids = a.replica.ids;
          log = a.replica.log;
          supports = a.supports.items;
          pending = a.pending.works;
          flight = under a.tickets;
          past = a.past;
          journal = a.journal.steps;
          start = a.start;
        })
        × HasRoom (record {
          spare = a.spare;
          replica = a.replica.spare;
          held = held a.tickets;
          tickets = a.tickets.capacity;
          supports = vec_len a.supports;
          supports_room = vec_capacity a.supports;
          pending_room = a.pending.room;
          journal_room = a.journal.room;
        }) };
}

impl<'p> Core<'p> {
    /// A core for the problem in which nothing has happened: the log is empty, and the seed of each
    /// point is pending. The log is to hold at most `budget` entries, 1 to 1,000,000. Where `first`
    /// is set, no work is given out once the log has the start entry.
    ///
    /// Takes constant time, and little memory.
    pub fn new(
        alloc: Global,
        problem: &'p Problem,
        budget: u32,
        first: bool,
    ) -> Result<Core<'p>, OutOfMemory>
        requires least { 1 ≤ budget }
        requires greatest { budget ≤ 1000000 }
        ensures { IfOk result (λ core. core ≡ record {
          base = record { problem = problem.now; budget = budget; first = first };
          ids = record { types = []; sets = []; envs = [] };
          story = [];
          spare = 0;
        }) }
    {
        let mut pending = Pending::new(alloc);
        pending.put_seeds(problem.points.count())?;
        Ok(Core {
            problem,
            budget,
            first,
            replica: Replica::new(alloc),
            supports: Vec::new(alloc),
            pending,
            tickets: Tickets::new(alloc),
            past: None,
            journal: Journal::new(alloc),
            start: None,
            spare: 0,
        })
    }

    /// Begins anew, with this budget and this flag: the log is empty, nothing has happened, and the seed
    /// of each point is pending, as in a new core. But what the interner has stays there, and so does the
    /// memory, but for that of the journal. After a refusal of memory nothing has changed.
    ///
    /// Time is in proportion to what there was.
    pub fn restart(&mut self, budget: u32, first: bool) -> Result<(), OutOfMemory>
        requires least { 1 ≤ budget }
        requires greatest { budget ≤ 1000000 }
        ensures ok { OnOk result (self.new ≡ record {
          base = record { problem = self.old.base.problem; budget = budget; first = first };
          ids = self.old.ids;
          story = [];
          spare = 0;
        }) }
        ensures err { OnErr result (self.new ≡ self.old) }
    {
        let problem = self.problem;
        self.pending.put_seeds(problem.points.count())?;
        self.replica.clear();
        self.supports.clear();
        self.tickets.clear();
        self.journal = Journal::new(*self.supports.allocator());
        self.past = None;
        self.start = None;
        self.spare = 0;
        self.budget = budget;
        self.first = first;
        Ok(())
    }

    /// What holds of each core. Takes no memory and no time.
    pub fn know_core(&self)
        ensures { IsCore self.now }
    {
        self.replica.interner().know_numbers();
    }

    /// Makes room for `k` events, at most 1,000,000. After a refusal of memory nothing has changed.
    pub fn reserve(&mut self, k: u32) -> Result<(), OutOfMemory>
        requires { k ≤ 1000000 }
        ensures ok { OnOk result (self.new ≡ record self.old { spare = max self.old.spare k }) }
        ensures err { OnErr result (self.new ≡ self.old) }
    {
        if k <= self.spare {
            return Ok(());
        }
        let held = self.tickets.count();
        self.replica.reserve(k)?;
        self.supports.reserve(k as usize)?;
        self.pending.reserve(held + k as usize)?;
        self.tickets.reserve(k)?;
        self.journal.reserve(held + 2 * k as usize)?;
        self.spare = k;
        Ok(())
    }

    /// Makes room for an event where there is none, and then for some more behind it, so that most
    /// calls do nothing. After a refusal of memory nothing has changed.
    #[inline(always)]
    pub fn reserve_some(&mut self) -> Result<(), OutOfMemory>
        ensures same { OnOk result (self.new ≡ record self.old { spare = self.new.spare }) }
        ensures some { OnOk result (1 ≤ self.new.spare) }
        ensures err { OnErr result (self.new ≡ self.old) }
    {
        if self.spare != 0 {
            return Ok(());
        }
        self.reserve(AHEAD)
    }

    /// Whether nothing is pending, in flight or kept: then the log is the least table. This and the
    /// next three take no memory, and constant time.
    pub fn quiet(&self) -> bool
        ensures { IsTrue result ↔ IsAtRest (state_of self.now) }
    {
        self.pending.is_empty() && self.tickets.count() == 0 && self.past.is_none()
    }

    /// Whether no work is in flight.
    pub fn nothing_flies(&self) -> bool
        ensures { IsTrue result ↔ NothingFlies self.now }
    {
        self.tickets.count() == 0
    }

    /// How many works are pending.
    pub fn pending(&self) -> usize
        ensures { result ≡ length (state_of self.now).pending }
    {
        self.pending.len()
    }

    /// Where `first` is set and the log has the start entry, its place. `take` then answers `Found`.
    pub fn found(&self) -> Option<u32>
        ensures { (place : ℕ) → (result ≡ Some place) ↔ IsFound self.now place }
    {
        if self.first { self.start } else { None }
    }

    /// The place of the start entry, which has the start's body and the initial state, or `None`
    /// where the log lacks it.
    pub fn start(&self) -> Option<u32>
        ensures place { IfSome result (StartsAt self.now.base.problem (log_of self.now)) }
        ensures none { IfNone result (HasStart self.now.base.problem (log_of self.now) → ⊥) }
    {
        self.start
    }

    /// The number of entries in the log.
    pub fn len(&self) -> u32
        ensures { result ≡ length (log_of self.now) }
    {
        self.replica.len()
    }

    /// The log, with the interner that reads it.
    pub fn replica(&self) -> &Replica
        ensures log { result.now.log ≡ log_of self.now }
        ensures ids { result.now.ids ≡ self.now.ids }
    {
        &self.replica
    }

    /// What the entry at this place of the log follows from: where the type of its point's head comes
    /// from, and the chosen arguments with their places.
    pub fn support(&self, place: u32) -> (&HeadBy, &[(u32, u32)])
        requires { place < length (log_of self.now) }
        ensures { slice_get (state_of self.now).supports place ≡ Some
            (record { head = result.0.now; args = result.1.now }) }
    {
        let backing = &self.supports[place as usize];
        (&backing.head, backing.args.as_slice())
    }

    /// The entry past the budget, where one is kept.
    pub fn past(&self) -> Option<&Deduced>
        ensures row { IfSome result (λ d. IsRow self.now.ids d.now.row) }
        ensures kept { (state_of self.now).kept ≡ option_map (deduction_of self.now.ids)
            (option_copied result) }
    {
        self.past.as_ref()
    }

    /// The interner that reads the log. All else is dropped.
    pub fn into_interner(self) -> Interner
        ensures { result ≡ self.entry.ids }
    {
        self.replica.into_interner()
    }

    /// What has happened, the first step first. An entry that was added is told by its place in the
    /// log, and one past the budget is the kept one.
    pub fn journal(&self) -> &Journal
        ensures { told (log_of self.now) (state_of self.now).supports
            (state_of self.now).kept result.now.steps ≡ self.now.story }
    {
        &self.journal
    }

    /// How many entries the log is to hold at most.
    pub fn budget(&self) -> u32
        ensures { result ≡ self.now.base.budget }
    {
        self.budget
    }

    /// Whether only the start entry is sought.
    pub fn first(&self) -> bool
        ensures { result ≡ self.now.base.first }
    {
        self.first
    }

    /// The problem.
    pub fn problem(&self) -> &'p Problem
        ensures { result.now ≡ self.now.base.problem }
    {
        self.problem
    }

    /// The work under the ticket, with the worker who took it, or `None` where the ticket is free.
    pub fn flight(&self, ticket: u32) -> Option<Flight>
        ensures { result ≡ (state_of self.now).flight ticket }
    {
        self.tickets.get(ticket)
    }

    /// Each ticket in use is less than this.
    pub(crate) fn tickets_bound(&self) -> u32
        ensures { (ticket : ℕ) → result ≤ ticket → (state_of self.now).flight ticket ≡ None }
    {
        self.tickets.bound()
    }

    /// The log's entries, in the log's order. Time and memory are in proportion to their size.
    pub fn table(&self, alloc: Global) -> Result<Vec<Entry>, OutOfMemory>
        ensures { IfOk result (λ table. table.items ≡ log_of self.now) }
    {
        let interner = self.replica.interner();
        let mut table = Vec::with_capacity(alloc, self.replica.len() as usize)?;
        for place in 0..self.replica.len() {
            table.push_reserved(interner.tree(alloc, self.replica.row(place))?);
        }
        Ok(table)
    }
}
