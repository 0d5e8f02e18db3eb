//! What a worker does.

ghost use Rattle.std.specs.Prelude.{◌≡◌, [], All};
ghost use Rattle.hs_history.specs.History.{IsWork};
ghost use Rattle.hs_turn.specs.Seats.{RestsIn};
ghost use Rattle.hs_workers.specs.Working.{IsFree, CarriesNothing, RestsSeated, RestsIdle, IfServes, IfEnds};

use crate::common::Common;
use crate::handing::{Next, turn};
use crate::job::{form_each, pass_each};
use crate::stock::Stock;
use hs_core::Gate;
use hs_shared::{Held, Rested, RestedSeat, Seat};
use hs_verdict::know_sorted_problem;
use std::marker::Model;
use std::mem::replace;
use std::sync::Wait;

/// A worker at its seat. Its works are in flight under the seat's number, what is formed for them is all
/// that the log lacks, and its replica begins the log. Contracts see which table it works at and for which
/// problem, its replica's log, and its works.
struct Worker<'c, 'a, 'p> {
    common: &'c Common<'a, 'p>,
    seat: Seat<Held<'p>>,
    stock: Stock,
}

impl<'c, 'a, 'p> Model for Worker<'c, 'a, 'p> {
    ghost use Rattle.std.specs.Prelude.{map};
    ghost use Rattle.std.specs.Coded.{codes};
    ghost use Rattle.hs_scheme.specs.Problem.{coded_problem};
    ghost use Rattle.hs_table.specs.Entries.{coded_entry};
    ghost use Rattle.hs_history.specs.Story.{coded_work};
    ghost use Rattle.hs_workers.specs.Working.{WorkerData, IsLoaded};

    ghost Value = { WorkerData };

    ghost coded = { Prim.hlevel (codes, coded_problem, coded_entry, coded_work) };

    ghost view = { λ a. record {
      table = a.common.now.table;
      problem = a.common.now.problem;
      log = a.stock.replica.log;
      works = map (λ j. j.work) a.stock.jobs.items;
    } };

    ghost invariant = { λ a. IsLoaded a.common.now.table a.common.now.problem a.seat
        a.stock.replica.ids a.stock.replica.log a.stock.jobs.items };
}

impl<'c, 'a, 'p> Worker<'c, 'a, 'p> {
    /// A worker at this seat that has done nothing yet. Takes no memory.
    fn new(common: &'c Common<'a, 'p>, seat: Seat<Held<'p>>) -> Worker<'c, 'a, 'p>
        requires free { IsFree common.now.table common.now.problem seat [] }
        requires nothing { CarriesNothing seat }
        ensures { result.table ≡ common.now.table }
    {
        let stock = Stock::new(common.alloc);
        Worker {
            common,
            seat,
            stock,
        }
    }

    /// Hands in the works that are done and takes further ones, under one hold of the table, and then
    /// adds to the replica what was read.
    fn exchange<R: Wait>(&mut self, rt: &R) -> Next
        ensures table { self.new.table ≡ self.old.table }
        ensures works { IfServes result (All (IsWork self.new.problem self.new.log) self.new.works) }
        ensures ends { IfEnds result (self.new.works ≡ []) }
    {
        let common = self.common;
        let mut rows = Vec::new(common.alloc);
        let mut hold = common.table.enter(rt, &mut self.seat);
        let next = turn(
            common,
            &mut hold,
            &mut self.seat,
            &mut self.stock,
            &mut rows,
        );
        let pending = hold.pending();
        hold.leave(&mut self.seat);
        common.bell.tell(pending);
        self.stock.replica.extend(rows.as_slice());
        next
    }

    /// Does the works that it has taken, as far as there is memory.
    fn serve<G: Gate>(&mut self, gate: &G)
        requires { All (IsWork self.old.problem self.old.log) self.old.works }
        ensures { self.new.table ≡ self.old.table }
    {
        let common = self.common;
        know_sorted_problem(common.problem);
        form_each(common, gate, self.seat.number(), &mut self.stock);
    }

    /// Takes works and does them until none is left or none is given out any more. It has none then.
    fn work_on<R: Wait, G: Gate>(&mut self, rt: &R, gate: &G)
        ensures table { self.new.table ≡ self.old.table }
        ensures ends { self.new.works ≡ [] }
    {
        let common = self.common;
        let bell = common.bell;
        let worker = self.seat.number();
        let mut heard = None;
        for _ in rt.forever() {
            match self.exchange(rt) {
                Next::Serve => {
                    heard = bell.go_on(heard);
                    self.serve(gate);
                }
                Next::Pass => {
                    heard = bell.go_on(heard);
                    pass_each(gate, worker, self.stock.jobs.as_slice());
                }
                Next::Rest => {
                    heard = bell.go_on(heard);
                    bell.ring();
                    bell.sharing.rest(rt, worker);
                }
                Next::Wait => heard = bell.wait(rt, heard),
                Next::End => {
                    bell.end(worker, heard);
                    return;
                }
            }
        }
        unreachable!()
    }

    /// The seat, at rest.
    fn into_rested(self) -> RestedSeat
        requires { self.works ≡ [] }
        ensures rests { RestsIn self.entry.table result }
        ensures idle { RestsIdle result }
    {
        let Worker {
            common: _,
            seat,
            stock,
        } = self;
        drop(stock);
        seat.into_rested()
    }
}

/// Works at the seat that rests here until no work is left or none is given out any more. Then no work is
/// in flight for it.
pub(crate) fn run_worker<'p, R: Wait, G: Gate>(
    rt: &R,
    common: &Common<'_, 'p>,
    gate: &G,
    rested: &mut RestedSeat,
)
    requires { RestsSeated common.now.table common.now.problem rested.old }
    ensures rests { RestsIn common.now.table rested.new }
    ensures idle { RestsIdle rested.new }
{
    let seat = replace(rested, Rested::blank()).into_seat::<Held<'p>>();
    let mut worker = Worker::new(common, seat);
    worker.work_on(rt, gate);
    *rested = worker.into_rested();
}
