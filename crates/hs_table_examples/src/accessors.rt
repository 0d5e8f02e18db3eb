//! What a core tells before and after its works are done.

ghost use Rattle.hs_flow.specs.Dependents.{HasDependents};
ghost use Rattle.hs_core.specs.Draining.{NothingFlies};

use crate::telling::{are_supported, has_log, is_alone, is_for_two, is_quiet};
use hs_core::{Core, Drained, Open, drain, work_alone};
use hs_flow::Dependents;
use hs_scheme::{OutOfMemory, Problem};
use std::alloc::Global;
use std::mem::forget;

/// Whether the core is new: nothing is done, and the seeds of two points are pending.
fn is_new(core: &Core) -> bool {
    is_for_two(core)
        && core.len() == 0
        && core.pending() == 2
        && core.journal().is_empty()
        && core.start().is_none()
        && !core.quiet()
}

/// Whether this worker has done all of it.
fn is_done(core: &Core, worker: u32) -> bool {
    is_quiet(core) && are_supported(core) && is_alone(core, worker) && core.start() == Some(1)
}

/// Does all works: as this worker, or by `drain`. Answers whether nothing is left then.
fn does_all(
    alloc: Global,
    core: &mut Core,
    dependents: &Dependents,
    worker: Option<u32>,
) -> Result<bool, OutOfMemory>
    requires flight { NothingFlies core.old }
    requires dependents { HasDependents core.old.base.problem.points core.old.base.problem.flow.pairs
        dependents.now }
{
    match worker {
        None => Ok(drain(alloc, core, dependents)? == Drained::Quiet),
        Some(worker) => {
            work_alone(alloc, core, dependents, worker, &Open)?;
            Ok(core.quiet())
        }
    }
}

/// Whether a new core for two points tells what it should before this worker, or 0 by `drain`, does all
/// of it and after that, and has the two entries then, in this order.
fn is_worked(
    alloc: Global,
    core: &mut Core,
    dependents: &Dependents,
    worker: Option<u32>,
) -> Result<bool, OutOfMemory>
    requires flight { NothingFlies core.old }
    requires dependents { HasDependents core.old.base.problem.points core.old.base.problem.flow.pairs
        dependents.now }
{
    if !is_new(core) || !does_all(alloc, core, dependents, worker)? {
        return Ok(false);
    }
    let has_both = has_log(alloc, core, &[(1, 0, Some(0)), (0, 0, Some(0))])?;
    Ok(has_both && core.past().is_none() && is_done(core, worker.unwrap_or(0)))
}

/// Whether a core in which only the start entry is sought stops at it.
fn stops(alloc: Global, core: &mut Core, dependents: &Dependents) -> Result<bool, OutOfMemory>
    requires { HasDependents core.old.base.problem.points core.old.base.problem.flow.pairs dependents.now }
{
    let answer = drain(alloc, core, dependents)?;
    Ok(
        answer == Drained::Found { place: 1 }
            && core.first()
            && core.found() == Some(1)
            && core.pending() == 1
            && !core.quiet(),
    )
}

/// Whether a new core is worked on so.
fn new_is_worked(
    alloc: Global,
    problem: &Problem,
    dependents: &Dependents,
    worker: Option<u32>,
) -> Result<bool, OutOfMemory>
    requires { HasDependents problem.now.points problem.now.flow.pairs dependents.now }
{
    let mut core = Core::new(alloc, problem, 2, false)?;
    let told = is_worked(alloc, &mut core, dependents, worker);
    forget(core);
    told
}

/// Whether a new core in which only the start entry is sought stops so.
fn new_stops(alloc: Global, problem: &Problem, dependents: &Dependents) -> Result<bool, OutOfMemory>
    requires { HasDependents problem.now.points problem.now.flow.pairs dependents.now }
{
    let mut core = Core::new(alloc, problem, 2, true)?;
    let told = stops(alloc, &mut core, dependents);
    forget(core);
    told
}

/// Whether new cores are drained so, are worked on so by worker 7, and stop so.
fn tell_with(
    alloc: Global,
    problem: &Problem,
    dependents: &Dependents,
) -> Result<[bool; 3], OutOfMemory>
    requires { HasDependents problem.now.points problem.now.flow.pairs dependents.now }
{
    Ok([
        new_is_worked(alloc, problem, dependents, None)?,
        new_is_worked(alloc, problem, dependents, Some(7))?,
        new_stops(alloc, problem, dependents)?,
    ])
}

/// The same, of the problem of `S -> a b.`.
pub(crate) fn tell(alloc: Global, problem: &Problem) -> Result<[bool; 3], OutOfMemory> {
    let dependents = Dependents::of(alloc, problem)?;
    let told = tell_with(alloc, problem, &dependents);
    drop(dependents);
    told
}
