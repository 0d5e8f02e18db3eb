//! Works that are done on the core itself, by a worker whose seat holds the table.

ghost use Rattle.std.specs.Prelude.{◌≤◌};
ghost use Rattle.hs_flow.specs.Dependents.{HasDependents};
ghost use Rattle.hs_workers_examples.specs.Working.{IsHolder};

use crate::calls::{Answer, taken};
use crate::holder;
use crate::opening::{share, worker_at};
use crate::seeing::see;
use crate::worker::{Worker, take};
use hs_fixtures::problem_of;
use hs_flow::Dependents;
use hs_scheme::Problem;
use hs_shared::{Hold, SharedTable, Work};
use std::alloc::Global;
use std::mem::forget;
use std::process::Abort;
use std::sync::Wait;
use std::test::Fail;

/// Takes works in turn while the worker's seat holds the table, and does each on the core itself. Looks
/// which work it is, whether it is closed, and how many entries there are and works pending after it.
fn do_works<'p, R: Abort>(
    rt: &R,
    alloc: Global,
    table: &SharedTable<'p>,
    problem: &Problem,
    dependents: &Dependents,
    hold: &mut Hold<'_, 'p>,
    worker: &mut Worker<'p>,
    rows: &[(Work, bool, usize, usize)],
)
    requires holder { IsHolder table.now problem.now worker.old.seat hold.old
        worker.old.replica.log worker.old.held }
    requires dependents { HasDependents problem.now.points problem.now.flow.pairs dependents.now }
    ensures { IsHolder table.now problem.now worker.new.seat hold.new
        worker.new.replica.log worker.new.held }
{
    for row in 0..rows.len() {
        let (expected, closed, entries, pending) = rows[row];
        let took = taken(holder::take(rt, table, problem, hold, worker));
        see(rt, (row, took), (row, Answer::Took(expected)), "a work");
        let done = holder::work(rt, alloc, table, problem, dependents, hold, worker);
        see(
            rt,
            (row, done, hold.entries(), hold.pending()),
            (row, closed, entries, pending),
            "a work that was done",
        );
    }
}

/// A worker does works on the core while its seat holds a new table, and leaves it. It then takes
/// again, with this answer.
fn play_works<R: Abort + Wait>(
    rt: &R,
    alloc: Global,
    problem: &Problem,
    budget: u32,
    rows: &[(Work, bool, usize, usize)],
    last: Answer,
)
    requires least { 1 ≤ budget }
    requires greatest { budget ≤ 1000000 }
{
    let dependents = Dependents::of(alloc, problem).expect(rt, "memory");
    let (table, first) = share(rt, alloc, problem, budget);
    let mut worker = worker_at(alloc, &table, problem, first);
    let mut hold = table.enter(rt, &mut worker.seat);
    do_works(
        rt,
        alloc,
        &table,
        problem,
        &dependents,
        &mut hold,
        &mut worker,
        rows,
    );
    hold.leave(&mut worker.seat);
    let found = taken(take(rt, &table, problem, &mut worker));
    forget(worker);
    forget(table);
    forget(dependents);
    see(rt, found, last, "the last call");
}

/// The works in their order, each done at once.
const DONE_ON_THE_CORE: &[(Work, bool, usize, usize)] = &[
    (Work::Seed(0), true, 0, 1),
    (Work::Seed(1), true, 1, 1),
    (Work::Place(0), true, 2, 1),
    (Work::Place(1), true, 2, 0),
];

/// There is no room for the other entry.
const NO_ROOM_ON_THE_CORE: &[(Work, bool, usize, usize)] = &[
    (Work::Seed(0), true, 0, 1),
    (Work::Seed(1), true, 1, 1),
    (Work::Place(0), false, 1, 1),
];

#[test]
fn a_hold_does_works_on_the_core(rt: HostRuntime) -> Result<(), Fail> {
    let rejected = problem_of(rt.alloc(), "S -> a b.", "q0 a -> q0.")?;
    play_works(
        &rt,
        rt.alloc(),
        &rejected,
        2,
        DONE_ON_THE_CORE,
        Answer::Quiet,
    );
    play_works(
        &rt,
        rt.alloc(),
        &rejected,
        1,
        NO_ROOM_ON_THE_CORE,
        Answer::Over,
    );
    forget(rejected);
    Ok(())
}
