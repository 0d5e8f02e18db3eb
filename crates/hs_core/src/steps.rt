//! The steps of workers on a core.

ghost use Rattle.std.specs.Prelude.{◌≡◌, ◌-◌, ◌<◌, ◌≤◌, ◌∷◌, ◌++◌, List, [], length, None, IfOk, IfSome};
ghost use Rattle.hs_history.specs.declared.step.Work.{Work};
ghost use Rattle.hs_table.specs.Follows.{FollowsBy};
ghost use Rattle.hs_types.specs.Interned.{IsRow, entry_of, Grows};
ghost use Rattle.hs_types.specs.Translations.{AreFound};
ghost use Rattle.hs_history.specs.Story.{takes, adds, passes, finishes, gives_back};
ghost use Rattle.hs_history.specs.CoreStep.{GoesOn, CanTake, CanAdd, CanPass, CanFinish, Holds, IsClosedSeed};
ghost use Rattle.hs_core.specs.Core.{state_of, log_of, deduction_of, stepped};
ghost use Rattle.hs_core.specs.Answers.{Takes, Publishes};
ghost use Rattle.hs_core.specs.Draining.{NothingFlies, IsNextSeed, passed_by};
ghost use Rattle.hs_core.specs.Inside.{KnowsStart};

use crate::answers::{Published, Taken};
use crate::backing::Backing;
use crate::start::is_start;
use crate::state::Core;
use hs_history::{Event, Flight, Step, Work};
use hs_rules::Deduced;
use hs_scheme::OutOfMemory;
use hs_types::{ImportedNumbers, Interner, Row};

/// The ticket of a work that is taken where nothing is in flight, and closed at once.
const ONLY_TICKET: u32 = 0;

impl<'p> Core<'p> {
    /// Takes a pending work for the worker, where there is one: the one that has been pending longest.
    /// No work is given out once an entry is kept past the budget or, where `first` is set, the log
    /// has the start entry. Takes no memory.
    pub fn take(&mut self, worker: u32) -> Taken
        requires { 1 ≤ self.old.spare }
        ensures { Takes self.old worker result self.new }
    {
        if let Some(place) = self.found() {
            return Taken::Found { place };
        }
        if self.past.is_some() {
            return Taken::Over;
        }
        let Some(work) = self.pending.front() else {
            return if self.tickets.count() == 0 {
                Taken::Quiet
            } else {
                Taken::Idle
            };
        };
        let ticket = self.take_first(worker, work);
        Taken::Item { work, ticket }
    }

    /// The point whose seed `take` would give out. Takes no memory, and constant time.
    pub(crate) fn next_seed(&self) -> Option<u32>
        ensures { IfSome result (IsNextSeed self.now) }
    {
        let Some(Work::Seed(point)) = self.pending.front() else {
            return None;
        };
        if self.found().is_some() {
            return None;
        }
        if self.past.is_some() {
            return None;
        }
        Some(point)
    }

    /// Takes the work for the worker, and answers its ticket. It is the first pending one, and works are
    /// given out.
    pub(crate) fn take_first(&mut self, worker: u32, work: Work) -> u32
        requires none_kept { (state_of self.old).kept ≡ None }
        requires goes_on { GoesOn self.old.base (log_of self.old) }
        requires first { (rest : List Work) × ((state_of self.old).pending ≡ work ∷ rest) }
        requires spare { 1 ≤ self.old.spare }
        ensures can { CanTake self.old.base (state_of self.old) work result }
        ensures stepped { self.new ≡ stepped self.old worker (takes work result) (self.old.spare - 1) }
    {
        self.pending.pop_front();
        let ticket = self.tickets.insert(Flight { worker, work });
        self.journal.push(Step {
            worker,
            event: Event::Take { work, ticket },
        });
        self.spare -= 1;
        ticket
    }

    /// Takes the seed of the point, which `next_seed` names, for the worker, and closes it at once.
    /// Nothing is in flight, and nothing follows at the point from no entry.
    pub(crate) fn pass_seed(&mut self, worker: u32, point: u32)
        requires next { IsNextSeed self.old point }
        requires flight { NothingFlies self.old }
        requires closed { IsClosedSeed self.old.base.problem (log_of self.old) point }
        requires spare { 1 ≤ self.old.spare }
        ensures { self.new ≡ passed_by self.old worker point (self.old.spare - 1) }
    {
        self.pending.pop_front();
        self.journal.push_passed(worker, ONLY_TICKET, point);
        self.spare -= 1;
    }

    /// The same deduction in the numbers of this core's interner. `found` tells what was imported from the
    /// other one: only what it doesn't tell of is walked, and it tells of it then.
    pub fn bring_with(
        &mut self,
        found: &mut ImportedNumbers,
        from: &Interner,
        deduced: &Deduced,
    ) -> Result<Deduced, OutOfMemory>
        requires row { IsRow from.now deduced.now.row }
        requires found { AreFound from.now self.old.ids found.old }
        ensures row { IfOk result (λ d. IsRow self.new.ids d.row) }
        ensures same { IfOk result (λ d. deduction_of self.new.ids d ≡ deduction_of from.now deduced.now) }
        ensures found { AreFound from.now self.new.ids found.new }
        ensures kept { self.new ≡ record self.old { ids = self.new.ids } }
        ensures grows { Grows self.old.ids self.new.ids }
    {
        let row = self.replica.import_with(found, from, deduced.row)?;
        let args = deduced.args.clone()?;
        Ok(Deduced {
            row,
            head: deduced.head,
            args,
        })
    }

    /// The same deduction in the numbers of this core's interner. Takes some 4 bytes for each number of the
    /// other interner up to those that the deduction names.
    pub fn bring(&mut self, from: &Interner, deduced: &Deduced) -> Result<Deduced, OutOfMemory>
        requires { IsRow from.now deduced.now.row }
        ensures row { IfOk result (λ d. IsRow self.new.ids d.row) }
        ensures same { IfOk result (λ d. deduction_of self.new.ids d ≡ deduction_of from.now deduced.now) }
        ensures kept { self.new ≡ record self.old { ids = self.new.ids } }
        ensures grows { Grows self.old.ids self.new.ids }
    {
        let mut found = ImportedNumbers::new(*deduced.args.allocator());
        self.bring_with(&mut found, from, deduced)
    }

    /// The place of the start entry once the row's entry stands at the end of the log.
    fn start_with(&self, row: Row) -> Option<u32>
        requires { IsRow self.now.ids row }
        ensures { KnowsStart self.now.base.problem
            (log_of self.now ++ entry_of self.now.ids row ∷ []) result }
    {
        if is_start(self.problem, self.replica.interner(), row) {
            Some(self.replica.len())
        } else {
            self.start
        }
    }

    /// Adds the entry, which the log lacks and for which the budget has room, to the log, and answers its
    /// place. The worker holds the ticket, and the entry follows from the log by its support. Takes no
    /// memory, and constant time on average.
    pub fn append(&mut self, worker: u32, ticket: u32, deduced: Deduced) -> u32
        requires row { IsRow self.old.ids deduced.row }
        requires can { CanAdd self.old.base (state_of self.old) worker ticket
            (deduction_of self.old.ids deduced) }
        requires spare { 1 ≤ self.old.spare }
        ensures place { result ≡ length (log_of self.old) }
        ensures stepped { self.new ≡ stepped self.old worker (adds ticket (deduction_of self.old.ids deduced))
            (self.old.spare - 1) }
    {
        let place = self.replica.len();
        self.start = self.start_with(deduced.row);
        self.replica.add(deduced.row);
        let Deduced { row: _, head, args } = deduced;
        self.supports.push_reserved(Backing::of(head, args));
        self.pending.push_back(Work::Place(place));
        self.journal.push(Step {
            worker,
            event: Event::Added { ticket, place },
        });
        self.spare -= 1;
        place
    }

    /// Keeps the entry, for which the budget has no room.
    fn keep(&mut self, worker: u32, ticket: u32, deduced: Deduced)
        requires row { IsRow self.old.ids deduced.row }
        requires can { CanPass self.old.base (state_of self.old) worker ticket
            (deduction_of self.old.ids deduced) }
        requires spare { 1 ≤ self.old.spare }
        ensures { self.new ≡ stepped self.old worker (passes ticket (deduction_of self.old.ids deduced))
            (self.old.spare - 1) }
    {
        self.past = Some(deduced);
        self.journal.push(Step {
            worker,
            event: Event::PastBudget { ticket },
        });
        self.spare -= 1;
    }

    /// Adds the entry to the log, where it is new and the budget has room for it; then its place is
    /// pending. The worker holds the ticket, and the entry follows from the log by its support. The
    /// first entry for which there is no room is kept beside the log. Takes no memory, and constant
    /// time on average.
    pub fn publish(&mut self, worker: u32, ticket: u32, deduced: Deduced) -> Published
        requires holds { Holds (state_of self.old) worker ticket }
        requires row { IsRow self.old.ids deduced.row }
        requires follows { FollowsBy self.old.base.problem (log_of self.old) deduced.support
            (entry_of self.old.ids deduced.row) }
        requires spare { 1 ≤ self.old.spare }
        ensures { Publishes self.old worker ticket (deduction_of self.old.ids deduced) result self.new }
    {
        if let Some(place) = self.replica.find(deduced.row) {
            return Published::Known { place };
        }
        if self.replica.len() < self.budget {
            let place = self.append(worker, ticket, deduced);
            return Published::Added { place };
        }
        if self.past.is_none() {
            self.keep(worker, ticket, deduced);
        }
        Published::Over
    }

    /// Closes the work under the ticket, which the worker holds. The log has all that follows by it.
    /// Takes no memory.
    pub fn finish(&mut self, worker: u32, ticket: u32)
        requires { CanFinish self.old.base (state_of self.old) worker ticket }
        ensures { self.new ≡ stepped self.old worker (finishes ticket) self.old.spare }
    {
        let _closed = self.tickets.remove(ticket);
        self.journal.push(Step {
            worker,
            event: Event::Finish { ticket },
        });
    }

    /// Leaves the work under the ticket, which the worker holds, to others: it is pending again. Takes
    /// no memory.
    pub fn give_back(&mut self, worker: u32, ticket: u32)
        requires { Holds (state_of self.old) worker ticket }
        ensures { self.new ≡ stepped self.old worker (gives_back ticket) self.old.spare }
    {
        let flight = self.tickets.remove(ticket);
        self.pending.push_back(flight.work);
        self.journal.push(Step {
            worker,
            event: Event::GiveBack { ticket },
        });
    }
}
