//! A new table with its workers, how it ends, and what its log has then.

ghost use Rattle.std.specs.Prelude.{◌≡◌, ◌<◌, ◌≤◌, length};
ghost use Rattle.hs_shared.specs.Seats.{IsSeatOf};
ghost use Rattle.hs_workers_examples.specs.Working.{IsWorker, IsFresh, IsFirstSeat};

use crate::seeing::see;
use crate::worker::Worker;
use hs_scheme::Problem;
use hs_shared::{Core, Held, Replica, Seat, SharedTable};
use hs_table::{Entry, Shape};
use std::alloc::Global;
use std::mem::forget;
use std::process::Abort;

/// A shared table around a new core, and its first seat. The budget is 1 to 1,000,000.
pub(crate) fn share<'p, R: Abort>(
    rt: &R,
    alloc: Global,
    problem: &'p Problem,
    budget: u32,
) -> (SharedTable<'p>, Seat<Held<'p>>)
    requires least { 1 ≤ budget }
    requires greatest { budget ≤ 1000000 }
    ensures fresh { IsFresh result.0 problem.now result.1 }
    ensures first { IsFirstSeat 0 0 result.1 }
{
    let core = Core::new(alloc, problem, budget, false).expect(rt, "memory");
    match SharedTable::new(alloc, core) {
        Ok(made) => made,
        Err(refused) => {
            forget(refused);
            panic!(rt; "memory")
        }
    }
}

/// A worker at a seat that has seen nothing.
pub(crate) fn worker_at<'p>(
    alloc: Global,
    table: &SharedTable<'p>,
    problem: &Problem,
    seat: Seat<Held<'p>>,
) -> Worker<'p>
    requires { IsFresh table.now problem.now seat }
    ensures worker { IsWorker table.now problem.now result.seat result.replica.log result.held }
    ensures seat { result.seat ≡ seat.entry }
{
    Worker {
        seat,
        replica: Replica::new(alloc),
        held: None,
    }
}

/// Workers at the first seat and at two that are split off it.
pub(crate) fn three_workers<'p>(
    alloc: Global,
    table: &SharedTable<'p>,
    problem: &Problem,
    first: Seat<Held<'p>>,
) -> (Worker<'p>, Worker<'p>, Worker<'p>)
    requires fresh { IsFresh table.now problem.now first }
    requires first { IsFirstSeat 0 0 first }
    ensures zero { IsWorker table.now problem.now result.0.seat result.0.replica.log result.0.held }
    ensures one { IsWorker table.now problem.now result.1.seat result.1.replica.log result.1.held }
    ensures two { IsWorker table.now problem.now result.2.seat result.2.replica.log result.2.held }
    ensures first { IsFirstSeat 2 0 result.0.seat }
{
    let mut first = first;
    let one = table.split(&mut first);
    let two = table.split(&mut first);
    (
        worker_at(alloc, table, problem, first),
        worker_at(alloc, table, problem, one),
        worker_at(alloc, table, problem, two),
    )
}

/// The seat of a worker that ends.
pub(crate) fn seat_of<'p>(worker: Worker<'p>) -> Seat<Held<'p>>
    ensures { result ≡ worker.entry.seat }
{
    let Worker {
        seat,
        replica,
        held: _,
    } = worker;
    forget(replica);
    seat
}

/// Joins the other seats into the first, ends the table, and gives its core.
pub(crate) fn close<'p>(
    table: SharedTable<'p>,
    first: Seat<Held<'p>>,
    one: Seat<Held<'p>>,
    two: Seat<Held<'p>>,
) -> Core<'p>
    requires zero { IsSeatOf table first }
    requires one { IsSeatOf table one }
    requires two { IsSeatOf table two }
    requires first { IsFirstSeat 2 0 first }
{
    let mut first = first;
    table.join(&mut first, one);
    table.join(&mut first, two);
    table.into_core(first)
}

/// Whether this is an entry at the point, with an empty environment and the initial state.
fn is_plain(entry: &Entry, point: u32) -> bool {
    entry.point == point && entry.env.is_empty() && matches!(entry.ty.shape, Shape::State(0))
}

/// Whether the entry at the place of the log is such an entry.
fn is_plain_at(rt: &impl Abort, alloc: Global, replica: &Replica, place: u32, point: u32) -> bool
    requires { place < length replica.now.log }
{
    let row = replica.row(place);
    let entry = replica.interner().tree(alloc, row).expect(rt, "memory");
    is_plain(&entry, point)
}

/// Sees that the log has just entries at these points, in this order. Each has an empty environment
/// and the initial state.
pub(crate) fn see_log(rt: &impl Abort, alloc: Global, replica: &Replica, points: &[u32]) {
    assert_eq!(rt; replica.len() as usize, points.len());
    for place in 0..replica.len() {
        let is_plain = is_plain_at(rt, alloc, replica, place, points[place as usize]);
        see(rt, (place, is_plain), (place, true), "an entry");
    }
}
