//! A shared table while a seat holds it.

ghost use Rattle.std.specs.Prelude.{◌≡◌, ℕ, Some, None, IfOk, OnOk, OnErr, MatchBool, IsSome, length};
ghost use mathlib.Core.List.{IsPrefix};
ghost use Rattle.hs_table.specs.Follows.{FollowsBy};
ghost use Rattle.hs_types.specs.Interned.{IsRow, entry_of, Grows};
ghost use Rattle.hs_types.specs.Translations.{AreFound};
ghost use Rattle.hs_replica.specs.Extending.{CanExtend, extended};
ghost use Rattle.hs_history.specs.Story.{finishes, gives_back};
ghost use Rattle.hs_flow.specs.Dependents.{HasDependents};
ghost use Rattle.hs_history.specs.CoreStep.{Holds, CanFinish, IsClosedWork, put};
ghost use Rattle.hs_core.specs.Core.{CoreData, IsCore, state_of, log_of, deduction_of, stepped};
ghost use Rattle.hs_core.specs.Answers.{Takes, Publishes};
ghost use Rattle.hs_core.specs.Draining.{GoesAlone};
ghost use Rattle.hs_shared.specs.Holding.{having_left, HasTold, IsHolding};

use crate::held::Held;
use crate::hold::{copy_log, count, publish_deduction, take_work, tell, tell_all};
use hs_core::{Deduced, Published, Replica, Taken, Tally, Work, do_work};
use hs_flow::Dependents;
use hs_scheme::OutOfMemory;
use hs_turn::{Guard, Seat};
use hs_types::{ImportedNumbers, Row};
use std::alloc::Global;
use std::marker::Model;

/// The core of a shared table while a seat holds it: no other call of the table goes on until the
/// seat leaves. It has no `Drop`: it ends in `leave`. Each call takes the seat that entered, and each
/// step is that of the worker of the seat's number.
///
/// Contracts see which table it is, and the core.
pub struct Hold<'a, 'p> {
    pub(crate) guard: Guard<'a, Held<'p>>,
}

impl<'a, 'p> Model for Hold<'a, 'p> {
    ghost use Rattle.std.specs.Coded.{codes};
    ghost use Rattle.hs_core.specs.Core.{coded_core};
    ghost use Rattle.hs_shared.specs.Holding.{HoldData};

    ghost Value = { HoldData };

    ghost coded = { Prim.hlevel (codes, coded_core) };

    ghost view = { λ a. record { turn = a.guard.turn.now; core = a.guard.state.core } };
}

impl<'a, 'p> Hold<'a, 'p> {
    /// How many entries the log has. Takes no memory, and constant time.
    pub fn entries(&self) -> usize
        ensures { result ≡ length (log_of self.now.core) }
    {
        self.guard.state.core.replica().len() as usize
    }

    /// How many works are pending. Takes no memory, and constant time.
    pub fn pending(&self) -> usize
        ensures { result ≡ length (state_of self.now.core).pending }
    {
        self.guard.state.core.pending()
    }

    /// Takes a pending work for the seat, where there is one, as `Core::take` does. After a refusal of
    /// memory nothing has happened.
    pub fn take(&mut self, seat: &mut Seat<Held<'p>>) -> Result<Taken, OutOfMemory>
        requires { IsHolding seat.old self.old }
        ensures ok { IfOk result (λ taken. (spare : ℕ)
            × Takes (record self.old.core { spare = spare }) seat.old.known.number taken self.new.core) }
        ensures err { OnErr result (self.new.core ≡ self.old.core) }
        ensures turn { self.new.turn ≡ self.old.turn }
        ensures told { HasTold seat.old self.new.core.story seat.new }
        ensures holds { IsHolding seat.new self.new }
    {
        let worker = seat.number();
        let before = count(&self.guard.state.core);
        let taken = take_work(&mut self.guard.state.core, worker);
        tell(&mut self.guard, seat, before);
        taken
    }

    /// Publishes a deduction under a ticket, in the numbers of the replica's interner, as
    /// `Core::publish` does. The seat has the ticket, and the deduction follows from the core's log.
    /// `found` tells what was imported from that interner during this hold; only what it doesn't tell of
    /// is walked. After a refusal of memory nothing has happened.
    pub fn publish(
        &mut self,
        seat: &mut Seat<Held<'p>>,
        ticket: u32,
        replica: &Replica,
        deduced: &Deduced,
        found: &mut ImportedNumbers,
    ) -> Result<Published, OutOfMemory>
        requires holds { IsHolding seat.old self.old }
        requires ticket { Holds (state_of self.old.core) seat.old.known.number ticket }
        requires row { IsRow replica.now.ids deduced.now.row }
        requires follows { FollowsBy self.old.core.base.problem (log_of self.old.core) deduced.now.support
            (entry_of replica.now.ids deduced.now.row) }
        requires found { AreFound replica.now.ids self.old.core.ids found.old }
        ensures ok { IfOk result (λ published. (prepared : CoreData) × IsCore prepared
            × (prepared.base ≡ self.old.core.base) × (prepared.story ≡ self.old.core.story)
            × Publishes prepared seat.old.known.number ticket
            (deduction_of replica.now.ids deduced.now) published self.new.core) }
        ensures err { OnErr result ((self.new.core.base ≡ self.old.core.base)
            × (self.new.core.story ≡ self.old.core.story)) }
        ensures found { AreFound replica.now.ids self.new.core.ids found.new }
        ensures turn { self.new.turn ≡ self.old.turn }
        ensures told { HasTold seat.old self.new.core.story seat.new }
        ensures holds { IsHolding seat.new self.new }
    {
        let worker = seat.number();
        let before = count(&self.guard.state.core);
        let published = publish_deduction(
            &mut self.guard.state.core,
            worker,
            ticket,
            replica,
            deduced,
            found,
        );
        tell(&mut self.guard, seat, before);
        published
    }

    /// Closes the work under a ticket, which the seat has. The log has all that follows by the work.
    /// Takes no memory.
    pub fn finish(&mut self, seat: &mut Seat<Held<'p>>, ticket: u32)
        requires holds { IsHolding seat.old self.old }
        requires closed { CanFinish self.old.core.base (state_of self.old.core) seat.old.known.number ticket }
        ensures core { self.new.core ≡ stepped self.old.core seat.old.known.number
            (finishes ticket) self.old.core.spare }
        ensures turn { self.new.turn ≡ self.old.turn }
        ensures told { HasTold seat.old self.new.core.story seat.new }
        ensures holds { IsHolding seat.new self.new }
    {
        let worker = seat.number();
        let before = count(&self.guard.state.core);
        self.guard.state.core.finish(worker, ticket);
        tell(&mut self.guard, seat, before);
    }

    /// Leaves the work under a ticket, which the seat has, to others. Takes no memory.
    pub fn give_back(&mut self, seat: &mut Seat<Held<'p>>, ticket: u32)
        requires holds { IsHolding seat.old self.old }
        requires ticket { Holds (state_of self.old.core) seat.old.known.number ticket }
        ensures core { self.new.core ≡ stepped self.old.core seat.old.known.number
            (gives_back ticket) self.old.core.spare }
        ensures turn { self.new.turn ≡ self.old.turn }
        ensures told { HasTold seat.old self.new.core.story seat.new }
        ensures holds { IsHolding seat.new self.new }
    {
        let worker = seat.number();
        let before = count(&self.guard.state.core);
        self.guard.state.core.give_back(worker, ticket);
        tell(&mut self.guard, seat, before);
    }

    /// Does the work under a ticket, which the seat has, on the core itself: publishes what follows by
    /// it, adds to the tally how many conclusions that is, known ones too, and closes the work, as
    /// `do_work` does. Where the budget has no room for all of it, or memory is refused, the work is given
    /// back. Answers whether the budget had room.
    pub fn work(
        &mut self,
        alloc: Global,
        seat: &mut Seat<Held<'p>>,
        dependents: &Dependents,
        work: Work,
        ticket: u32,
        tally: &mut Tally,
    ) -> Result<bool, OutOfMemory>
        requires holds { IsHolding seat.old self.old }
        requires flies { (state_of self.old.core).flight ticket ≡ Some
            (record { worker = seat.old.known.number; work = work }) }
        requires dependents { HasDependents self.old.core.base.problem.points
            self.old.core.base.problem.flow.pairs dependents.now }
        ensures goes { GoesAlone seat.old.known.number self.old.core self.new.core }
        ensures flight { (t : ℕ) → (state_of self.new.core).flight t ≡ put ticket None
            (state_of self.old.core).flight t }
        ensures closed { IfOk result (λ all. MatchBool all
            (IsClosedWork self.new.core.base.problem (log_of self.new.core) work)
            (IsSome (state_of self.new.core).kept)) }
        ensures turn { self.new.turn ≡ self.old.turn }
        ensures told { HasTold seat.old self.new.core.story seat.new }
        ensures holds { IsHolding seat.new self.new }
    {
        let worker = seat.number();
        let before = count(&self.guard.state.core);
        let core = &mut self.guard.state.core;
        let done = do_work(alloc, core, dependents, worker, work, ticket, tally);
        tell_all(&mut self.guard, seat, before);
        done
    }

    /// Adds to the replica what its log, which begins the core's log, lacks of that. After a refusal of
    /// memory it has a part of it. Time and memory are those of one `Replica::append` for each entry
    /// that is added.
    pub fn catch_up(&self, replica: &mut Replica) -> Result<(), OutOfMemory>
        requires { IsPrefix replica.old.log (log_of self.now.core) }
        ensures ok { OnOk result (replica.new.log ≡ log_of self.now.core) }
        ensures begins { IsPrefix replica.new.log (log_of self.now.core) }
        ensures more { IsPrefix replica.old.log replica.new.log }
        ensures kept { (replica.new.spare ≡ replica.old.spare) × (replica.new.indexed ≡ replica.old.indexed)
            × Grows replica.old.ids replica.new.ids }
    {
        copy_log(self.guard.state.core.replica(), replica)
    }

    /// The rows, in the replica's interner, of the entries that the replica lacks, whose log begins the
    /// core's log. There is then room for them in the replica, and whoever has left adds them by
    /// `Replica::extend`. After a refusal of memory the replica's log is as before.
    pub fn read_new(
        &self,
        replica: &mut Replica,
        found: &mut ImportedNumbers,
    ) -> Result<Vec<Row>, OutOfMemory>
        requires { IsPrefix replica.old.log (log_of self.now.core) }
        ensures fits { IfOk result (λ rows. CanExtend replica.new rows.items) }
        ensures whole { IfOk result (λ rows. extended replica.new rows.items ≡ log_of self.now.core) }
        ensures log { replica.new.log ≡ replica.old.log }
        ensures indexed { replica.new.indexed ≡ replica.old.indexed }
        ensures grows { Grows replica.old.ids replica.new.ids }
    {
        replica.read_new(found, self.guard.state.core.replica())
    }

    /// Lets the others go on.
    pub fn leave(self, seat: &mut Seat<Held<'p>>)
        requires { IsHolding seat.old self }
        ensures { seat.new ≡ having_left seat.old }
    {
        let Hold { guard } = self;
        guard.leave(seat);
    }
}
