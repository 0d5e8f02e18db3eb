//! The shared table and its calls.

ghost use Rattle.std.specs.Prelude.{◌≡◌, ◌<◌, ◌+◌, ◌^◌, [], ℕ, List, All, Some, false, length, IfOk, IfErr, OnOk, OnErr, MatchResult, true};
ghost use mathlib.Core.List.{IsPrefix};
ghost use Rattle.hs_table.specs.Follows.{FollowsBy};
ghost use Rattle.hs_types.specs.Interned.{IsRow, entry_of, Grows};
ghost use Rattle.hs_history.specs.Story.{finishes, gives_back, CoreStep};
ghost use Rattle.hs_history.specs.CoreStep.{Holds, CanFinish};
ghost use Rattle.hs_core.specs.Core.{CoreData, IsCore, log_of, deduction_of, stepped};
ghost use Rattle.hs_core.specs.Answers.{Takes, Publishes};
ghost use Rattle.hs_turn.specs.Story.{told_by};
ghost use Rattle.hs_turn.specs.Views.{first_seat, having_split, split_off, having_joined};
ghost use Rattle.hs_shared.specs.Seats.{worker_of, IsSeatOf, Sees};
ghost use Rattle.hs_shared.specs.Calls.{Finds, Does, Looks};
ghost use Rattle.hs_shared.specs.Holding.{holding, IsHolding};

use crate::held::{CoreBase, Held, Told};
use crate::holding::Hold;
use hs_core::{Core, Deduced, Published, Replica, Taken};
use hs_scheme::OutOfMemory;
use hs_turn::{Rested, Seat, Turn};
use hs_types::ImportedNumbers;
use std::alloc::Global;
use std::marker::Model;
use std::sync::Wait;

/// A seat of a shared table at rest, in a type that names no lifetime, so that it can lie in a slice
/// that threads share. `into_seat::<Held>` and `into_rested` of the seat lead to and fro.
pub type RestedSeat = Rested<CoreBase, Told>;

/// A core behind a turn. Each call of a seat finds the core as it is then, does at most one step as
/// the worker of the seat's number, and leaves it to the others; who has more to do at once holds it
/// (`enter`). The calls that take a runtime may wait for others; they end by themselves, however long
/// that lasts.
///
/// Contracts see which table it is. Of a seat they see that table, and what the seat knows: the base
/// of the core, the part of the story that it has seen, and its own steps. What holds of that part
/// holds of all that comes later: its log begins each later log, and a work that is closed by it
/// stays closed.
#[derive(Drop)]
pub struct SharedTable<'p> {
    turn: Turn<Held<'p>>,
}

impl<'p> Model for SharedTable<'p> {
    ghost use Rattle.atomic_table.specs.Seated.{TableId};

    ghost Value = { TableId };

    ghost view = { λ a. a.turn };
}

impl<'p> SharedTable<'p> {
    /// A shared table around a core in which nothing has happened, and its first seat, which has
    /// number 0. `Err` hands the core back: memory was refused.
    pub fn new(alloc: Global, core: Core<'p>) -> Result<(SharedTable<'p>, Seat<Held<'p>>), Core<'p>>
        requires { core.story ≡ [] }
        ensures table { IfOk result (λ made. made.1.turn ≡ made.0) }
        ensures seat { IfOk result (λ made. made.1.known ≡ first_seat core.entry.base) }
        ensures err { IfErr result (λ refused. refused ≡ core.entry) }
    {
        match Turn::new(alloc, Held { core }) {
            Ok((turn, seat)) => Ok((SharedTable { turn }, seat)),
            Err(Held { core }) => Err(core),
        }
    }

    /// Waits until no other call is under way, and holds the core until the seat leaves.
    pub fn enter<R: Wait>(&self, rt: &R, seat: &mut Seat<Held<'p>>) -> Hold<'_, 'p>
        requires { IsSeatOf self.now seat.old }
        ensures turn { result.turn ≡ self.now }
        ensures finds { Finds seat.old result.core }
        ensures seat { seat.new ≡ holding seat.old result.core.story }
        ensures holds { IsHolding seat.new result }
    {
        let guard = self.turn.enter(rt, seat);
        guard.state.core.know_core();
        Hold { guard }
    }

    /// Takes a pending work for the seat, where there is one. The answer is what `Core::take` answers
    /// on the core found. After a refusal of memory nothing has happened.
    pub fn take<R: Wait>(&self, rt: &R, seat: &mut Seat<Held<'p>>) -> Result<Taken, OutOfMemory>
        requires { IsSeatOf self.now seat.old }
        ensures ok { IfOk result (λ taken.
            Does (λ found left. Takes found seat.old.known.number taken left) seat.old seat.new) }
        ensures err { OnErr result (Looks seat.old seat.new) }
    {
        let mut hold = self.enter(rt, seat);
        let taken = hold.take(seat);
        hold.leave(seat);
        taken
    }

    /// Publishes a deduction under a ticket, in the numbers of the replica's interner. The answer is
    /// what `Core::publish` answers on the core found.
    ///
    /// The seat took the ticket and has neither finished its work nor given it back. The deduction
    /// follows from the log of the replica, which begins the log that the seat has seen. After a
    /// refusal of memory nothing has happened.
    pub fn publish<R: Wait>(
        &self,
        rt: &R,
        seat: &mut Seat<Held<'p>>,
        ticket: u32,
        replica: &Replica,
        deduced: &Deduced,
    ) -> Result<Published, OutOfMemory>
        requires seat { IsSeatOf self.now seat.old }
        requires ticket { Sees seat.old (λ base state. Holds state seat.old.known.number ticket) }
        requires replica { Sees seat.old (λ base state. IsPrefix replica.now.log state.log) }
        requires row { IsRow replica.now.ids deduced.now.row }
        requires follows { Sees seat.old (λ base state.
            FollowsBy base.problem replica.now.log deduced.now.support
            (entry_of replica.now.ids deduced.now.row)) }
        ensures ok { IfOk result (λ published.
            Does (λ found left. Publishes found seat.old.known.number ticket
            (deduction_of replica.now.ids deduced.now) published left) seat.old seat.new) }
        ensures err { OnErr result (Looks seat.old seat.new) }
    {
        let mut hold = self.enter(rt, seat);
        let mut imported = ImportedNumbers::new(*deduced.args.allocator());
        let published = hold.publish(seat, ticket, replica, deduced, &mut imported);
        hold.leave(seat);
        drop(imported);
        published
    }

    /// Closes the work under a ticket. The seat took the ticket and has neither finished its work nor
    /// given it back, and the log that the seat has seen has all that follows by the work. Takes no
    /// memory.
    pub fn finish<R: Wait>(&self, rt: &R, seat: &mut Seat<Held<'p>>, ticket: u32)
        requires seat { IsSeatOf self.now seat.old }
        requires closed { Sees seat.old (λ base state. CanFinish base state seat.old.known.number ticket) }
        ensures { Does (λ found left. left ≡ stepped found seat.old.known.number
            (finishes ticket) found.spare) seat.old seat.new }
    {
        let mut hold = self.enter(rt, seat);
        hold.finish(seat, ticket);
        hold.leave(seat);
    }

    /// Leaves the work under a ticket to others. The seat took the ticket and has neither finished its
    /// work nor given it back. Takes no memory.
    pub fn give_back<R: Wait>(&self, rt: &R, seat: &mut Seat<Held<'p>>, ticket: u32)
        requires seat { IsSeatOf self.now seat.old }
        requires ticket { Sees seat.old (λ base state. Holds state seat.old.known.number ticket) }
        ensures { Does (λ found left. left ≡ stepped found seat.old.known.number
            (gives_back ticket) found.spare) seat.old seat.new }
    {
        let mut hold = self.enter(rt, seat);
        hold.give_back(seat, ticket);
        hold.leave(seat);
    }

    /// Adds to the replica what its log lacks of the log found. Its log begins the log that the seat
    /// has seen. After a refusal of memory it has a part of that. Time and memory are those of one
    /// `Replica::append` for each entry that is added.
    pub fn catch_up<R: Wait>(
        &self,
        rt: &R,
        seat: &mut Seat<Held<'p>>,
        replica: &mut Replica,
    ) -> Result<(), OutOfMemory>
        requires seat { IsSeatOf self.now seat.old }
        requires replica { Sees seat.old (λ base state. IsPrefix replica.old.log state.log) }
        ensures seat { Looks seat.old seat.new }
        ensures ok { OnOk result (Sees seat.new (λ base state. replica.new.log ≡ state.log)) }
        ensures begins { Sees seat.new (λ base state. IsPrefix replica.new.log state.log) }
        ensures more { IsPrefix replica.old.log replica.new.log }
        ensures kept { (replica.new.spare ≡ replica.old.spare) × (replica.new.indexed ≡ replica.old.indexed)
            × Grows replica.old.ids replica.new.ids }
    {
        let hold = self.enter(rt, seat);
        let caught_up = hold.catch_up(replica);
        hold.leave(seat);
        caught_up
    }

    /// A new seat. It has seen what seat 0 has seen, and has no steps of its own; its number is one
    /// more than the splits before. Takes no memory.
    pub fn split(&self, seat: &mut Seat<Held<'p>>) -> Seat<Held<'p>>
        requires seat { IsSeatOf self.now seat.old }
        requires first { seat.old.known.number ≡ 0 }
        requires room { seat.old.known.splits + 1 < 2 ^ 32 }
        ensures seat { seat.new ≡ record seat.old { known = having_split seat.old.known } }
        ensures new { result ≡ record seat.old { known = split_off seat.old.known } }
    {
        self.turn.split(seat)
    }

    /// Ends the other seat. Seat 0 has then seen the longer of both lists, which begins with both,
    /// and has the other's own steps beside its own. Takes no memory.
    pub fn join(&self, seat: &mut Seat<Held<'p>>, other: Seat<Held<'p>>)
        requires seat { IsSeatOf self.now seat.old }
        requires other { IsSeatOf self.now other }
        requires first { seat.old.known.number ≡ 0 }
        ensures seat { seat.new ≡ record seat.old { known = having_joined seat.old.known other.entry.known } }
        ensures begins { IsPrefix seat.old.known.seen seat.new.known.seen }
        ensures other_begins { IsPrefix other.entry.known.seen seat.new.known.seen }
    {
        self.turn.join(seat, other);
    }

    /// Ends the table and gives the core. Seat 0 has joined as many seats as it split, so no call is
    /// under way. Takes no memory.
    pub fn into_core(self, seat: Seat<Held<'p>>) -> Core<'p>
        requires seat { IsSeatOf self seat }
        requires first { seat.known.number ≡ 0 }
        requires all_joined { seat.known.joins ≡ seat.known.splits }
        ensures base { seat.entry.known.base ≡ Some result.base }
        ensures begins { IsPrefix seat.entry.known.seen result.story }
        ensures own { told_by worker_of 0 result.story ≡ seat.entry.known.own }
        ensures joined { All (λ (p : ℕ
            × List CoreStep). told_by worker_of p.0 result.story ≡ p.1) seat.entry.known.joined }
        ensures no_others { (n : ℕ) → seat.entry.known.splits < n → told_by worker_of n result.story ≡ [] }
        ensures core { IsCore result }
    {
        let SharedTable { turn } = self;
        let Held { core } = turn.close(seat);
        core.know_core();
        core
    }
}
