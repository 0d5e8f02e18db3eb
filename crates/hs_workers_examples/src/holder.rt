//! The same calls while the worker's seat holds the table.

ghost use Rattle.std.specs.Prelude.{◌≡◌, Some};
ghost use Rattle.hs_flow.specs.Dependents.{HasDependents};
ghost use Rattle.hs_rules.specs.Conclusions.{IsDeduced};
ghost use Rattle.hs_core.specs.Core.{log_of};
ghost use Rattle.hs_workers_examples.specs.Working.{IsHolder};

use crate::forming::{following, is_closed, only};
use crate::worker::{Worker, held_after};
use hs_fixtures::know;
use hs_flow::Dependents;
use hs_scheme::Problem;
use hs_shared::{Deduced, Hold, Published, SharedTable, Taken, Tally, Work};
use hs_types::ImportedNumbers;
use std::alloc::Global;
use std::process::Abort;

/// Takes a work for the worker, which lets go what it held.
pub(crate) fn take<'p, R: Abort>(
    rt: &R,
    table: &SharedTable<'p>,
    problem: &Problem,
    hold: &mut Hold<'_, 'p>,
    worker: &mut Worker<'p>,
) -> Taken
    requires { IsHolder table.now problem.now worker.old.seat hold.old
        worker.old.replica.log worker.old.held }
    ensures { IsHolder table.now problem.now worker.new.seat hold.new
        worker.new.replica.log worker.new.held }
{
    let taken = hold.take(&mut worker.seat).expect(rt, "memory");
    worker.held = held_after(taken);
    taken
}

/// Adds to the worker's replica what it lacks of the log.
pub(crate) fn catch_up<'p, R: Abort>(
    rt: &R,
    table: &SharedTable<'p>,
    problem: &Problem,
    hold: &Hold<'_, 'p>,
    worker: &mut Worker<'p>,
)
    requires { IsHolder table.now problem.now worker.old.seat hold.now
        worker.old.replica.log worker.old.held }
    ensures holder { IsHolder table.now problem.now worker.new.seat hold.now
        worker.new.replica.log worker.new.held }
    ensures whole { worker.new.replica.log ≡ log_of hold.now.core }
    ensures held { worker.new.held ≡ worker.old.held }
{
    know(problem);
    hold.catch_up(&mut worker.replica).expect(rt, "memory");
}

/// Publishes what was deduced on the worker's replica, under the ticket of the work that it holds.
fn publish_one<'p, R: Abort>(
    rt: &R,
    table: &SharedTable<'p>,
    problem: &Problem,
    hold: &mut Hold<'_, 'p>,
    worker: &mut Worker<'p>,
    work: Work,
    ticket: u32,
    deduced: &Deduced,
) -> Published
    requires holder { IsHolder table.now problem.now worker.old.seat hold.old
        worker.old.replica.log worker.old.held }
    requires held { worker.old.held ≡ Some (work, ticket) }
    requires deduced { IsDeduced problem.now worker.old.replica.ids worker.old.replica.log deduced.now }
    ensures { IsHolder table.now problem.now worker.new.seat hold.new
        worker.new.replica.log worker.new.held }
{
    let mut exported = ImportedNumbers::new(*deduced.args.allocator());
    let published = hold.publish(
        &mut worker.seat,
        ticket,
        &worker.replica,
        deduced,
        &mut exported,
    );
    published.expect(rt, "memory")
}

/// Publishes the one entry that follows at the point by the work that the worker holds.
pub(crate) fn publish<'p, R: Abort>(
    rt: &R,
    alloc: Global,
    table: &SharedTable<'p>,
    problem: &Problem,
    hold: &mut Hold<'_, 'p>,
    worker: &mut Worker<'p>,
    point: u32,
) -> Published
    requires { IsHolder table.now problem.now worker.old.seat hold.old
        worker.old.replica.log worker.old.held }
    ensures { IsHolder table.now problem.now worker.new.seat hold.new
        worker.new.replica.log worker.new.held }
{
    catch_up(rt, table, problem, hold, worker);
    let Some((work, ticket)) = worker.held else {
        panic!(rt; "no work is held");
    };
    let found = following(rt, alloc, problem, &mut worker.replica, work, point);
    let deduced = only(rt, found.as_slice());
    publish_one(rt, table, problem, hold, worker, work, ticket, deduced)
}

/// Closes the work that the worker holds, by which nothing follows that the log lacks.
pub(crate) fn finish<'p, R: Abort>(
    rt: &R,
    alloc: Global,
    table: &SharedTable<'p>,
    problem: &Problem,
    hold: &mut Hold<'_, 'p>,
    worker: &mut Worker<'p>,
)
    requires { IsHolder table.now problem.now worker.old.seat hold.old
        worker.old.replica.log worker.old.held }
    ensures { IsHolder table.now problem.now worker.new.seat hold.new
        worker.new.replica.log worker.new.held }
{
    catch_up(rt, table, problem, hold, worker);
    let Some((work, ticket)) = worker.held else {
        panic!(rt; "no work is held");
    };
    if !is_closed(rt, alloc, problem, &mut worker.replica, work) {
        panic!(rt; "something is left out");
    }
    worker.held = None;
    hold.finish(&mut worker.seat, ticket);
}

/// Gives back the work that the worker holds.
pub(crate) fn give_back<'p, R: Abort>(
    rt: &R,
    table: &SharedTable<'p>,
    problem: &Problem,
    hold: &mut Hold<'_, 'p>,
    worker: &mut Worker<'p>,
)
    requires { IsHolder table.now problem.now worker.old.seat hold.old
        worker.old.replica.log worker.old.held }
    ensures { IsHolder table.now problem.now worker.new.seat hold.new
        worker.new.replica.log worker.new.held }
{
    let Some((_, ticket)) = worker.held else {
        panic!(rt; "no work is held");
    };
    worker.held = None;
    hold.give_back(&mut worker.seat, ticket);
}

/// Does the work that the worker holds on the core itself. Answers whether it is closed; else it was
/// given back.
pub(crate) fn work<'p, R: Abort>(
    rt: &R,
    alloc: Global,
    table: &SharedTable<'p>,
    problem: &Problem,
    dependents: &Dependents,
    hold: &mut Hold<'_, 'p>,
    worker: &mut Worker<'p>,
) -> bool
    requires holder { IsHolder table.now problem.now worker.old.seat hold.old
        worker.old.replica.log worker.old.held }
    requires dependents { HasDependents problem.now.points problem.now.flow.pairs dependents.now }
    ensures { IsHolder table.now problem.now worker.new.seat hold.new
        worker.new.replica.log worker.new.held }
{
    let Some((work, ticket)) = worker.held else {
        panic!(rt; "no work is held");
    };
    worker.held = None;
    let mut tally = Tally::new();
    let seat = &mut worker.seat;
    let done = hold.work(alloc, seat, dependents, work, ticket, &mut tally);
    done.expect(rt, "memory")
}
