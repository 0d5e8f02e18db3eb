//! Workers at the shared table, call by call. What a call needs is seen to before it: that the worker
//! holds a work, and that the log has all that follows by a work that it finishes.

ghost use Rattle.std.specs.Prelude.{◌≡◌, Some};
ghost use Rattle.hs_rules.specs.Conclusions.{IsDeduced};
ghost use Rattle.hs_shared.specs.Seats.{Sees};
ghost use Rattle.hs_workers_examples.specs.Working.{IsWorker, IsSameSeat, held_after};

use crate::forming::{following, is_closed, only};
use hs_fixtures::know;
use hs_scheme::Problem;
use hs_shared::{Deduced, Held, Published, Replica, Seat, SharedTable, Taken, Work};
use std::alloc::Global;
use std::process::Abort;
use std::sync::Wait;

/// A worker: its seat, its replica of the log, and the work that it holds under a ticket.
#[derive(Drop)]
pub(crate) struct Worker<'p> {
    pub seat: Seat<Held<'p>>,
    pub replica: Replica,
    pub held: Option<(Work, u32)>,
}

/// What a worker holds after this answer to its taking.
pub(crate) fn held_after(taken: Taken) -> Option<(Work, u32)>
    ensures { result ≡ held_after taken }
{
    match taken {
        Taken::Item { work, ticket } => Some((work, ticket)),
        Taken::Quiet | Taken::Idle | Taken::Over | Taken::Found { .. } => None,
    }
}

/// Takes a work for the worker, which lets go what it held.
pub(crate) fn take<'p, R: Abort + Wait>(
    rt: &R,
    table: &SharedTable<'p>,
    problem: &Problem,
    worker: &mut Worker<'p>,
) -> Taken
    requires { IsWorker table.now problem.now worker.old.seat worker.old.replica.log worker.old.held }
    ensures worker { IsWorker table.now problem.now worker.new.seat worker.new.replica.log worker.new.held }
    ensures same { IsSameSeat worker.old.seat worker.new.seat }
{
    let taken = table.take(rt, &mut worker.seat).expect(rt, "memory");
    worker.held = held_after(taken);
    taken
}

/// Adds to the worker's replica what it lacks of the log.
pub(crate) fn catch_up<'p, R: Abort + Wait>(
    rt: &R,
    table: &SharedTable<'p>,
    problem: &Problem,
    worker: &mut Worker<'p>,
)
    requires { IsWorker table.now problem.now worker.old.seat worker.old.replica.log worker.old.held }
    ensures worker { IsWorker table.now problem.now worker.new.seat worker.new.replica.log worker.new.held }
    ensures same { IsSameSeat worker.old.seat worker.new.seat }
    ensures whole { Sees worker.new.seat (λ base state. worker.new.replica.log ≡ state.log) }
    ensures held { worker.new.held ≡ worker.old.held }
{
    know(problem);
    table
        .catch_up(rt, &mut worker.seat, &mut worker.replica)
        .expect(rt, "memory");
}

/// Publishes what was deduced on the worker's replica, under the ticket of the work that it holds.
fn publish_one<'p, R: Abort + Wait>(
    rt: &R,
    table: &SharedTable<'p>,
    problem: &Problem,
    worker: &mut Worker<'p>,
    work: Work,
    ticket: u32,
    deduced: &Deduced,
) -> Published
    requires worker { IsWorker table.now problem.now worker.old.seat worker.old.replica.log worker.old.held }
    requires held { worker.old.held ≡ Some (work, ticket) }
    requires deduced { IsDeduced problem.now worker.old.replica.ids worker.old.replica.log deduced.now }
    ensures worker { IsWorker table.now problem.now worker.new.seat worker.new.replica.log worker.new.held }
    ensures same { IsSameSeat worker.old.seat worker.new.seat }
{
    table
        .publish(rt, &mut worker.seat, ticket, &worker.replica, deduced)
        .expect(rt, "memory")
}

/// Publishes the one entry that follows at the point by the work that the worker holds.
pub(crate) fn publish<'p, R: Abort + Wait>(
    rt: &R,
    alloc: Global,
    table: &SharedTable<'p>,
    problem: &Problem,
    worker: &mut Worker<'p>,
    point: u32,
) -> Published
    requires { IsWorker table.now problem.now worker.old.seat worker.old.replica.log worker.old.held }
    ensures worker { IsWorker table.now problem.now worker.new.seat worker.new.replica.log worker.new.held }
    ensures same { IsSameSeat worker.old.seat worker.new.seat }
{
    catch_up(rt, table, problem, worker);
    let Some((work, ticket)) = worker.held else {
        panic!(rt; "no work is held");
    };
    let found = following(rt, alloc, problem, &mut worker.replica, work, point);
    let deduced = only(rt, found.as_slice());
    publish_one(rt, table, problem, worker, work, ticket, deduced)
}

/// Closes the work that the worker holds, by which nothing follows that the log lacks.
pub(crate) fn finish<'p, R: Abort + Wait>(
    rt: &R,
    alloc: Global,
    table: &SharedTable<'p>,
    problem: &Problem,
    worker: &mut Worker<'p>,
)
    requires { IsWorker table.now problem.now worker.old.seat worker.old.replica.log worker.old.held }
    ensures worker { IsWorker table.now problem.now worker.new.seat worker.new.replica.log worker.new.held }
    ensures same { IsSameSeat worker.old.seat worker.new.seat }
{
    catch_up(rt, table, problem, worker);
    let Some((work, ticket)) = worker.held else {
        panic!(rt; "no work is held");
    };
    if !is_closed(rt, alloc, problem, &mut worker.replica, work) {
        panic!(rt; "something is left out");
    }
    worker.held = None;
    table.finish(rt, &mut worker.seat, ticket);
}

/// Gives back the work that the worker holds.
pub(crate) fn give_back<'p, R: Abort + Wait>(
    rt: &R,
    table: &SharedTable<'p>,
    problem: &Problem,
    worker: &mut Worker<'p>,
)
    requires { IsWorker table.now problem.now worker.old.seat worker.old.replica.log worker.old.held }
    ensures worker { IsWorker table.now problem.now worker.new.seat worker.new.replica.log worker.new.held }
    ensures same { IsSameSeat worker.old.seat worker.new.seat }
{
    let Some((_, ticket)) = worker.held else {
        panic!(rt; "no work is held");
    };
    worker.held = None;
    table.give_back(rt, &mut worker.seat, ticket);
}
