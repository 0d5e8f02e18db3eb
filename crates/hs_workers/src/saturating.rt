//! Saturation by workers.

ghost use Rattle.std.specs.Prelude.{◌≡◌, ◌≤◌, ◌<◌, [], length, Some, All, IfOk};
ghost use Rattle.hs_flow.specs.Dependents.{HasDependents};
ghost use Rattle.hs_turn.specs.Seats.{RestsIn};
ghost use Rattle.hs_verdict.specs.Premises.{HasClosedFlow};
ghost use Rattle.hs_core.specs.Core.{IsCore};
ghost use Rattle.hs_core.specs.Draining.{GoesAlone, EndsAtRest};
ghost use Rattle.hs_core.specs.Saturation.{IsVerdict};
ghost use Rattle.hs_workers.specs.Working.{IsFirstSeat, HasSeenNothing, IsBased, RestsSeated};
ghost use Rattle.hs_workers.specs.Answers.{IsOfWorkers, IsSharedDone, IsEnd, IsDoneOf};

use crate::bell::Bell;
use crate::common::Common;
use crate::worker::run_worker;
use hs_core::{Core, Done, Gate, select_alone, work_alone};
use hs_flow::Dependents;
use hs_scheme::{OutOfMemory, Problem};
use hs_shared::{Held, RestedSeat, Seat, SharedTable};
use hs_verdict::{know_sorted_problem, least_tables_decide};
use std::alloc::Global;
use std::sync::Wait;
use std::thread::{Threads, for_each_mut};

/// A seat for each worker.
fn seats_for<'p>(
    alloc: Global,
    table: &SharedTable<'p>,
    problem: &Problem,
    first: &mut Seat<Held<'p>>,
    workers: u32,
) -> Result<Vec<RestedSeat>, OutOfMemory>
    requires few { workers ≤ 16 }
    requires first { IsFirstSeat table.now 0 0 first.old }
    requires nothing { HasSeenNothing first.old }
    requires based { IsBased problem.now first.old }
    ensures first { IfOk result (λ _. IsFirstSeat table.now workers 0 first.new) }
    ensures base { first.new.known.base ≡ first.old.known.base }
    ensures count { IfOk result (λ seats. length seats.items ≡ workers) }
    ensures seats { IfOk result (λ seats. All (RestsSeated table.now problem.now) seats.items) }
{
    let mut seats = Vec::with_capacity(alloc, workers as usize)?;
    for _ in 0..workers {
        seats.push_reserved(table.split(first).into_rested());
    }
    Ok(seats)
}

/// Each worker works in a thread of its own, until no work is left or none is given out any more, or it has
/// given back one by which more than `most` conclusions follow at a point.
fn work_each<'p, R: Threads + Wait + Sync, G: Gate + Sync>(
    rt: &R,
    alloc: Global,
    table: &SharedTable<'p>,
    problem: &Problem,
    dependents: &Dependents,
    most: usize,
    gate: &G,
    seats: &mut [RestedSeat],
)
    requires some { 0 < length seats.old }
    requires dependents { HasDependents problem.now.points problem.now.flow.pairs dependents.now }
    requires seats { All (RestsSeated table.now problem.now) seats.old }
    ensures { All (RestsIn table.now) seats.new }
{
    let count = seats.len();
    let bell = Bell::new(count, most);
    let bell = &bell;
    for_each_mut(
        rt,
        seats,
        count,
        &|_, seat: &mut RestedSeat|
            requires { HasDependents problem.now.points problem.now.flow.pairs dependents.now
                × RestsSeated table.now problem.now seat.old }
            ensures { RestsIn table.entry.now seat.new }
        {
            let common = Common {
                alloc,
                table,
                problem,
                dependents,
                bell,
            };
            run_worker(rt, &common, gate, seat)
        },
    );
}

/// Joins the workers' seats.
fn join_all<'p>(table: &SharedTable<'p>, first: &mut Seat<Held<'p>>, seats: Vec<RestedSeat>)
    requires first { IsFirstSeat table.now (length seats.items) 0 first.old }
    requires seats { All (RestsIn table.now) seats.items }
    ensures first { IsFirstSeat table.now (length seats.items) (length seats.items) first.new }
    ensures base { first.new.known.base ≡ first.old.known.base }
{
    for seat in seats {
        table.join(first, seat.into_seat::<Held<'p>>());
    }
}

/// What workers have left.
#[derive(Clone, Copy)]
enum End {
    /// Nothing is left to do: the log is the least table.
    Least,
    /// An entry is kept past the budget.
    Over,
    /// Only the start entry was sought, and the log has it.
    First,
}

/// What has come of the core, in which nothing is left to do.
fn end_of(core: &Core) -> End
    requires { EndsAtRest core.now }
    ensures { IsEnd core.now result }
{
    core.know_core();
    if let Some(_place) = core.found() {
        return End::First;
    }
    if core.past().is_some() {
        return End::Over;
    }
    End::Least
}

/// The answer that the core of the workers gives, in which nothing is left to do.
fn answer<'p>(core: Core<'p>) -> Done<'p>
    requires { EndsAtRest core }
    ensures { IsDoneOf core.entry result }
{
    match end_of(&core) {
        End::Least => Done::Least(core),
        End::Over => Done::Over(core),
        End::First => Done::First(core),
    }
}

/// A shared table around the core, and its first seat.
fn share<'p>(
    alloc: Global,
    core: Core<'p>,
) -> Result<(SharedTable<'p>, Seat<Held<'p>>), OutOfMemory>
    requires { core.story ≡ [] }
    ensures first { IfOk result (λ made. IsFirstSeat made.0 0 0 made.1) }
    ensures nothing { IfOk result (λ made. HasSeenNothing made.1) }
    ensures base { IfOk result (λ made. made.1.known.base ≡ Some core.entry.base) }
{
    match SharedTable::new(alloc, core) {
        Ok(made) => Ok(made),
        Err(core) => {
            drop(core);
            Err(OutOfMemory)
        }
    }
}

/// The core that so many workers leave: each does works until no work is left or none is given out
/// any more, or it has given back one by which more than `most` conclusions follow at a point. Nobody else
/// does anything.
fn work_together<'p, R: Threads + Wait + Sync, G: Gate + Sync>(
    rt: &R,
    alloc: Global,
    problem: &Problem,
    dependents: &Dependents,
    workers: u32,
    most: usize,
    table: SharedTable<'p>,
    first: Seat<Held<'p>>,
    gate: &G,
) -> Result<Core<'p>, OutOfMemory>
    requires some { 1 ≤ workers }
    requires few { workers ≤ 16 }
    requires dependents { HasDependents problem.now.points problem.now.flow.pairs dependents.now }
    requires first { IsFirstSeat table 0 0 first }
    requires nothing { HasSeenNothing first }
    requires based { IsBased problem.now first }
    ensures base { IfOk result (λ core. first.entry.known.base ≡ Some core.base) }
    ensures workers { IfOk result (λ core. All (IsOfWorkers workers) core.story) }
    ensures core { IfOk result IsCore }
{
    let mut first = first;
    let Ok(mut seats) = seats_for(alloc, &table, problem, &mut first, workers) else {
        drop(first);
        drop(table);
        return Err(OutOfMemory);
    };
    work_each(
        rt,
        alloc,
        &table,
        problem,
        dependents,
        most,
        gate,
        seats.as_mut_slice(),
    );
    join_all(&table, &mut first, seats);
    Ok(table.into_core(first))
}

/// The core that one worker leaves, whose number is 1: it does works on the core itself, in the
/// caller's thread, until no work is left or none is given out any more.
fn work_by_one<'p, G: Gate>(
    alloc: Global,
    core: Core<'p>,
    dependents: &Dependents,
    gate: &G,
) -> Result<Core<'p>, OutOfMemory>
    requires story { core.story ≡ [] }
    requires dependents { HasDependents core.base.problem.points core.base.problem.flow.pairs dependents.now }
    ensures base { IfOk result (λ left. left.base ≡ core.entry.base) }
    ensures workers { IfOk result (λ left. All (IsOfWorkers 1) left.story) }
    ensures ends { IfOk result EndsAtRest }
{
    let mut core = core;
    match work_alone(alloc, &mut core, dependents, 1, gate) {
        Ok(()) => Ok(core),
        Err(refused) => {
            drop(core);
            Err(refused)
        }
    }
}

/// The core once one worker, whose number is 1, has done what the others have left, in the caller's
/// thread. They end before all is done where much follows from little, or memory was refused to them; a
/// worker that ends has given its works back, so no work is in flight.
fn end_by_one<'p, G: Gate>(
    alloc: Global,
    core: Core<'p>,
    dependents: &Dependents,
    gate: &G,
) -> Result<Core<'p>, OutOfMemory>
    requires { HasDependents core.base.problem.points core.base.problem.flow.pairs dependents.now }
    ensures goes { IfOk result (λ left. GoesAlone 1 core.entry left) }
    ensures ends { IfOk result EndsAtRest }
{
    let mut core = core;
    if !core.nothing_flies() {
        drop(core);
        return Err(OutOfMemory);
    }
    match select_alone(alloc, &mut core, dependents, 1, gate) {
        Ok(()) => Ok(core),
        Err(refused) => {
            drop(core);
            Err(refused)
        }
    }
}

/// The core that so many workers leave, from one in which nothing has happened. Nobody else does
/// anything.
fn work<'p, R: Threads + Wait + Sync, G: Gate + Sync>(
    rt: &R,
    alloc: Global,
    problem: &Problem,
    dependents: &Dependents,
    workers: u32,
    core: Core<'p>,
    gate: &G,
) -> Result<Core<'p>, OutOfMemory>
    requires some { 1 ≤ workers }
    requires few { workers ≤ 16 }
    requires dependents { HasDependents problem.now.points problem.now.flow.pairs dependents.now }
    requires problem { core.base.problem ≡ problem.now }
    requires story { core.story ≡ [] }
    ensures base { IfOk result (λ left. left.base ≡ core.entry.base) }
    ensures workers { IfOk result (λ left. All (IsOfWorkers workers) left.story) }
    ensures ends { IfOk result EndsAtRest }
{
    if workers == 1 {
        return work_by_one(alloc, core, dependents, gate);
    }
    let most = core.budget() as usize;
    let (table, seat) = share(alloc, core)?;
    let core = work_together(
        rt, alloc, problem, dependents, workers, most, table, seat, gate,
    )?;
    end_by_one(alloc, core, dependents, gate)
}

/// The least table of the problem, formed by so many workers, 1 to 16; or, where `first` is set and
/// the table has the start entry, a part of it with that entry. The workers are numbered from 1, and
/// nobody else does anything. The budget is 1 to 1,000,000, and the dependents are those of the
/// problem.
///
/// A worker for which memory is refused leaves its work to the others, and so does one that forms more
/// conclusions at a point by an entry than the budget; then each of the others may form as many once before
/// it ends, too. Where works are left when all have ended, one goes on alone, and where memory is refused to
/// it, that is the answer.
///
/// One worker works in the caller's thread, on the core itself. Of more workers each has a thread of
/// its own. While they share the works, each keeps a replica of the log, which takes as much memory as
/// the log itself. While nearly each conclusion is new, one of them works on the core, and the others
/// rest. Once much follows from little, one goes on alone, as `select_alone` does.
///
/// After Broadbent and Kobayashi, "Saturation-based model checking of higher-order recursion schemes"
/// (CSL 2013).
pub fn saturate<'p, R: Threads + Wait + Sync, G: Gate + Sync>(
    rt: &R,
    alloc: Global,
    problem: &'p Problem,
    dependents: &Dependents,
    workers: u32,
    budget: u32,
    first: bool,
    gate: &G,
) -> Result<Done<'p>, OutOfMemory>
    requires some { 1 ≤ workers }
    requires few { workers ≤ 16 }
    requires least { 1 ≤ budget }
    requires greatest { budget ≤ 1000000 }
    requires dependents { HasDependents problem.now.points problem.now.flow.pairs dependents.now }
    ensures done { IfOk result (IsSharedDone
        (record { problem = problem.now; budget = budget; first = first }) workers) }
    ensures verdict { IfOk result (λ done. HasClosedFlow problem.now → IsVerdict problem.now done) }
{
    know_sorted_problem(problem);
    least_tables_decide();
    let core = Core::new(alloc, problem, budget, first)?;
    let core = work(rt, alloc, problem, dependents, workers, core, gate)?;
    Ok(answer(core))
}
