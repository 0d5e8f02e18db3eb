//! What a worker does at the shared table, and what comes of it.

ghost use Rattle.hs_workers_examples.specs.Working.{IsWorker, IsHolder, IsSameSeat};

use crate::holder;
use crate::seeing::see;
use crate::worker::{Worker, finish, give_back, publish, take};
use hs_scheme::Problem;
use hs_shared::{Hold, Published, SharedTable, Taken, Work};
use std::alloc::Global;
use std::process::Abort;
use std::sync::Wait;

/// What a worker does.
#[derive(Clone, Copy)]
pub(crate) enum Call {
    Take,
    /// Publishes the one entry that follows at this point by the work that it holds.
    Publish(u32),
    Finish,
    GiveBack,
}

/// What comes of it.
#[derive(Clone, Copy, Debug, PartialEq, Eq)]
pub(crate) enum Answer {
    Took(Work),
    Quiet,
    Idle,
    Over,
    Found(u32),
    Known(u32),
    Added(u32),
    Done,
}

/// The answer of `take`, but for the ticket.
pub(crate) fn taken(answer: Taken) -> Answer {
    match answer {
        Taken::Item { work, .. } => Answer::Took(work),
        Taken::Quiet => Answer::Quiet,
        Taken::Idle => Answer::Idle,
        Taken::Over => Answer::Over,
        Taken::Found { place } => Answer::Found(place),
    }
}

/// The answer of `publish`.
fn published(answer: Published) -> Answer {
    match answer {
        Published::Known { place } => Answer::Known(place),
        Published::Added { place } => Answer::Added(place),
        Published::Over => Answer::Over,
    }
}

/// What comes of a call of the worker.
fn make_call<'p, R: Abort + Wait>(
    rt: &R,
    alloc: Global,
    table: &SharedTable<'p>,
    problem: &Problem,
    worker: &mut Worker<'p>,
    call: Call,
) -> Answer
    requires { IsWorker table.now problem.now worker.old.seat worker.old.replica.log worker.old.held }
    ensures worker { IsWorker table.now problem.now worker.new.seat worker.new.replica.log worker.new.held }
    ensures same { IsSameSeat worker.old.seat worker.new.seat }
{
    match call {
        Call::Take => taken(take(rt, table, problem, worker)),
        Call::Publish(point) => published(publish(rt, alloc, table, problem, worker, point)),
        Call::Finish => {
            finish(rt, alloc, table, problem, worker);
            Answer::Done
        }
        Call::GiveBack => {
            give_back(rt, table, problem, worker);
            Answer::Done
        }
    }
}

/// What comes of a call of the worker whose seat holds the table.
fn make_held_call<'p, R: Abort>(
    rt: &R,
    alloc: Global,
    table: &SharedTable<'p>,
    problem: &Problem,
    hold: &mut Hold<'_, 'p>,
    worker: &mut Worker<'p>,
    call: Call,
) -> Answer
    requires { IsHolder table.now problem.now worker.old.seat hold.old
        worker.old.replica.log worker.old.held }
    ensures { IsHolder table.now problem.now worker.new.seat hold.new
        worker.new.replica.log worker.new.held }
{
    match call {
        Call::Take => taken(holder::take(rt, table, problem, hold, worker)),
        Call::Publish(point) => {
            published(holder::publish(rt, alloc, table, problem, hold, worker, point))
        }
        Call::Finish => {
            holder::finish(rt, alloc, table, problem, hold, worker);
            Answer::Done
        }
        Call::GiveBack => {
            holder::give_back(rt, table, problem, hold, worker);
            Answer::Done
        }
    }
}

/// Makes the calls in turn, each by the worker of its number: 0, 1 or 2.
pub(crate) fn make_calls<'p, R: Abort + Wait>(
    rt: &R,
    alloc: Global,
    table: &SharedTable<'p>,
    problem: &Problem,
    zero: &mut Worker<'p>,
    one: &mut Worker<'p>,
    two: &mut Worker<'p>,
    rows: &[(u32, Call, Answer)],
)
    requires zero { IsWorker table.now problem.now zero.old.seat zero.old.replica.log zero.old.held }
    requires one { IsWorker table.now problem.now one.old.seat one.old.replica.log one.old.held }
    requires two { IsWorker table.now problem.now two.old.seat two.old.replica.log two.old.held }
    ensures zero { IsWorker table.now problem.now zero.new.seat zero.new.replica.log zero.new.held }
    ensures one { IsWorker table.now problem.now one.new.seat one.new.replica.log one.new.held }
    ensures two { IsWorker table.now problem.now two.new.seat two.new.replica.log two.new.held }
    ensures same { IsSameSeat zero.old.seat zero.new.seat }
{
    for row in 0..rows.len() {
        let (number, call, expected) = rows[row];
        let found = match number {
            0 => make_call(rt, alloc, table, problem, zero, call),
            1 => make_call(rt, alloc, table, problem, one, call),
            _ => make_call(rt, alloc, table, problem, two, call),
        };
        see(rt, (row, found), (row, expected), "a call");
    }
}

/// Makes the calls in turn while the worker's seat holds the table, and looks how many works are
/// pending after each.
pub(crate) fn make_held_calls<'p, R: Abort>(
    rt: &R,
    alloc: Global,
    table: &SharedTable<'p>,
    problem: &Problem,
    hold: &mut Hold<'_, 'p>,
    worker: &mut Worker<'p>,
    rows: &[(Call, Answer, usize)],
)
    requires { IsHolder table.now problem.now worker.old.seat hold.old
        worker.old.replica.log worker.old.held }
    ensures { IsHolder table.now problem.now worker.new.seat hold.new
        worker.new.replica.log worker.new.held }
{
    for row in 0..rows.len() {
        let (call, expected, pending) = rows[row];
        let found = make_held_call(rt, alloc, table, problem, hold, worker, call);
        see(
            rt,
            (row, found, hold.pending()),
            (row, expected, pending),
            "a held call",
        );
    }
}
