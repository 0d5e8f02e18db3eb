//! Workers on a core, step by step. What a step needs is seen to when it is taken: that somebody
//! holds the work, and that the log has all that follows by a work that is to be finished.

ghost use Rattle.std.specs.Prelude.{◌≡◌, [], All, IfOk, IfSome, IsTrue, Some};
ghost use Rattle.hs_flow.specs.Dependents.{HasDependents};
ghost use Rattle.hs_table.specs.Entries.{InShape};
ghost use Rattle.hs_table.specs.Follows.{FollowsBy};
ghost use Rattle.hs_types.specs.Interned.{IsRow, entry_of};
ghost use Rattle.hs_rules.specs.Conclusions.{IsDeduced};
ghost use Rattle.hs_history.specs.CoreStep.{Holds, IsClosedWork};
ghost use Rattle.hs_core.specs.Core.{state_of, log_of};

use crate::following::{copy_log, following, is_closed, is_work};
use hs_core::{Core, Flight, Published, Taken, Work};
use hs_fixtures::know;
use hs_flow::Dependents;
use hs_history::every_history_supported;
use hs_rules::{Deduced, Replica};
use hs_scheme::OutOfMemory;
use hs_table_laws::{least_tables_are_equal, what_follows_is_in_shape};
use hs_types::Interner;
use std::alloc::Global;
use std::mem::forget;

/// The ticket under which this work is in flight, with its worker, where it is one of the first 16.
fn held(core: &Core, work: Work) -> Option<(u32, Flight)>
    ensures { IfSome result (λ at. (state_of core.now).flight at.0 ≡ Some at.1) }
{
    for ticket in 0..16 {
        if let Some(flight) = core.flight(ticket) {
            if flight.work == work {
                return Some((ticket, flight));
            }
        }
    }
    None
}

/// The entries of a core are in shape.
fn are_shaped(core: &Core)
    ensures { All (InShape core.now.base.problem) (log_of core.now) }
{
    core.know_core();
    know(core.problem());
    every_history_supported();
    least_tables_are_equal();
    what_follows_is_in_shape();
}

/// Takes a work for the worker, once there is room.
pub(crate) fn taken(core: &mut Core, worker: u32) -> Result<Taken, OutOfMemory> {
    core.reserve(1)?;
    Ok(core.take(worker))
}

/// Publishes what was deduced, in the name of the worker who holds the ticket.
fn publish(
    core: &mut Core,
    worker: u32,
    ticket: u32,
    from: &Interner,
    deduced: &Deduced,
) -> Result<Published, OutOfMemory>
    requires holds { Holds (state_of core.old) worker ticket }
    requires row { IsRow from.now deduced.now.row }
    requires follows { FollowsBy core.old.base.problem (log_of core.old) deduced.now.support
        (entry_of from.now deduced.now.row) }
{
    let own = core.bring(from, deduced)?;
    core.reserve(1)?;
    Ok(core.publish(worker, ticket, own))
}

/// Publishes the first of these, where there is one.
fn publish_first(
    core: &mut Core,
    worker: u32,
    ticket: u32,
    from: &Interner,
    found: &[Deduced],
) -> Result<Option<Published>, OutOfMemory>
    requires holds { Holds (state_of core.old) worker ticket }
    requires deduced { All (IsDeduced core.old.base.problem from.now (log_of core.old)) found.now }
{
    if found.is_empty() {
        return Ok(None);
    }
    let published = publish(core, worker, ticket, from, &found[0])?;
    Ok(Some(published))
}

/// Publishes the first entry that follows at the point by the work under the ticket. The replica is
/// empty, and gets the core's log.
fn publish_by(
    alloc: Global,
    core: &mut Core,
    replica: &mut Replica,
    ticket: u32,
    flight: Flight,
    point: u32,
) -> Result<Option<Published>, OutOfMemory>
    requires empty { replica.old.log ≡ [] }
    requires flight { (state_of core.old).flight ticket ≡ Some flight }
{
    copy_log(core.replica(), replica)?;
    are_shaped(core);
    let problem = core.problem();
    if point >= problem.points.count() || !is_work(problem, replica, flight.work) {
        return Ok(None);
    }
    let found = following(alloc, problem, replica, flight.work, point)?;
    publish_first(
        core,
        flight.worker,
        ticket,
        replica.interner(),
        found.as_slice(),
    )
}

/// Publishes the first entry that follows at the point by the work, in the name of the worker who
/// holds it.
pub(crate) fn published(
    alloc: Global,
    core: &mut Core,
    work: Work,
    point: u32,
) -> Result<Option<Published>, OutOfMemory> {
    let Some((ticket, flight)) = held(core, work) else {
        return Ok(None);
    };
    let mut replica = Replica::new(alloc);
    let answer = publish_by(alloc, core, &mut replica, ticket, flight, point);
    forget(replica);
    answer
}

/// Whether the core's log has all that follows by the work. The replica is empty, and gets that log.
fn is_done_by(
    alloc: Global,
    core: &Core,
    dependents: &Dependents,
    replica: &mut Replica,
    work: Work,
) -> Result<bool, OutOfMemory>
    requires empty { replica.old.log ≡ [] }
    requires dependents { HasDependents core.now.base.problem.points core.now.base.problem.flow.pairs
        dependents.now }
    ensures { IfOk result (λ done. IsTrue done → IsClosedWork core.now.base.problem (log_of core.now) work) }
{
    copy_log(core.replica(), replica)?;
    are_shaped(core);
    is_closed(alloc, core.problem(), dependents, replica, work)
}

/// Whether the core's log has all that follows by the work.
fn is_done(alloc: Global, core: &Core, work: Work) -> Result<bool, OutOfMemory>
    ensures { IfOk result (λ done. IsTrue done → IsClosedWork core.now.base.problem (log_of core.now) work) }
{
    let dependents = Dependents::of(alloc, core.problem())?;
    let mut replica = Replica::new(alloc);
    let done = is_done_by(alloc, core, &dependents, &mut replica, work);
    forget(replica);
    done
}

/// Finishes the work in the name of the worker who holds it, where the log has what follows by it.
/// Answers whether that was so.
pub(crate) fn finished(alloc: Global, core: &mut Core, work: Work) -> Result<bool, OutOfMemory> {
    let Some((ticket, flight)) = held(core, work) else {
        return Ok(false);
    };
    if !is_done(alloc, core, flight.work)? {
        return Ok(false);
    }
    core.finish(flight.worker, ticket);
    Ok(true)
}

/// Gives back the work in the name of the worker who holds it. Answers whether one does.
pub(crate) fn given_back(core: &mut Core, work: Work) -> bool {
    let Some((ticket, flight)) = held(core, work) else {
        return false;
    };
    core.give_back(flight.worker, ticket);
    true
}
