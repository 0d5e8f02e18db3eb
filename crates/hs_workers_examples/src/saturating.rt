//! The least table that workers form, in short.

ghost use Rattle.std.specs.Prelude.{◌≤◌};
ghost use Rattle.hs_flow.specs.Dependents.{HasDependents};

use hs_core::{Core, Done};
use hs_fixtures::know;
use hs_flow::Dependents;
use hs_scheme::{OutOfMemory, Problem};
use hs_text::table_text;
use hs_workers::{Open, saturate};
use std::alloc::Global;
use std::mem::forget;
use std::sync::Wait;
use std::thread::Threads;

/// The most entries of a table.
pub(crate) const BUDGET: u32 = 100_000;

/// The least table.
#[derive(Drop)]
pub(crate) struct Least {
    /// Whether it has the start entry.
    pub start: bool,
    /// The lines of its entries, in ascending order.
    pub lines: Vec<u8>,
}

/// The lines of the core's log.
fn lines_of(alloc: Global, core: &Core) -> Result<Vec<u8>, OutOfMemory> {
    core.know_core();
    let problem = core.problem();
    know(problem);
    let table = core.table(alloc)?;
    table_text(alloc, problem, table.as_slice())
}

/// The least table, where the answer has it.
fn least_of(alloc: Global, done: &Done) -> Result<Option<Least>, OutOfMemory> {
    match done {
        Done::Least(core) => {
            let lines = lines_of(alloc, core)?;
            let start = core.start().is_some();
            Ok(Some(Least { start, lines }))
        }
        _ => Ok(None),
    }
}

/// The least table that so many workers form, where it is within the budget.
fn least_within<R: Threads + Wait + Sync>(
    rt: &R,
    alloc: Global,
    problem: &Problem,
    dependents: &Dependents,
    workers: u32,
) -> Result<Option<Least>, OutOfMemory>
    requires dependents { HasDependents problem.now.points problem.now.flow.pairs dependents.now }
    requires some { 1 ≤ workers }
    requires few { workers ≤ 16 }
{
    let done = saturate(
        rt, alloc, problem, dependents, workers, BUDGET, false, &Open,
    )?;
    let least = least_of(alloc, &done);
    forget(done);
    least
}

/// The same.
pub(crate) fn saturated<R: Threads + Wait + Sync>(
    rt: &R,
    alloc: Global,
    problem: &Problem,
    workers: u32,
) -> Result<Option<Least>, OutOfMemory>
    requires some { 1 ≤ workers }
    requires few { workers ≤ 16 }
{
    let dependents = Dependents::of(alloc, problem)?;
    least_within(rt, alloc, problem, &dependents, workers)
}
