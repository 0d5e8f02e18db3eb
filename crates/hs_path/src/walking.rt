//! The walk.

ghost use Rattle.std.specs.Prelude.{◌≡◌, ◌<◌, ◌≤◌, ℕ, slice_get, Some, IfOk};
ghost use Rattle.hs_table.specs.Tables.{HasStart, HasSupports, IsStart};
ghost use Rattle.hs_verdict.specs.Leading.{StartLeads};
ghost use Rattle.hs_core.specs.Core.{log_of, state_of, StartsAt};
ghost use Rattle.hs_path.specs.Walked.{IsWalk};
ghost use Rattle.hs_path.specs.Walking.{IsWalking};

use crate::answer::Walk;
use crate::evidence::{Continuation, NOTHING, Node, Store};
use crate::moving::{NamingMove, next_move};
use hs_core::Core;
use hs_history::every_history_supported;
use hs_scheme::{FailingPath, OutOfMemory, Problem};
use hs_verdict::{know_sorted_problem, namings_lead_the_start};
use std::alloc::Global;

/// The walk from the start entry at this place on, once the start is replaced, where at least one step
/// may be made.
fn walk_from(
    alloc: Global,
    problem: &Problem,
    core: &Core,
    place: u32,
    steps: u64,
) -> Result<Walk, OutOfMemory>
    requires least { 1 ≤ steps }
    requires start { StartsAt problem.now (log_of core.now) place }
    requires log { HasSupports problem.now (log_of core.now) (state_of core.now).supports }
    requires leads { StartLeads problem.now (log_of core.now) (state_of core.now).supports }
    ensures { IfOk result (IsWalk problem.now (log_of core.now) (state_of core.now).supports steps) }
{
    let mut store = Store::new(alloc)?;
    let mut stack = Vec::new(alloc);
    let mut trail = Vec::new(alloc);
    let mut used = 1;
    let mut continuation = Continuation {
        node: Node {
            place,
            own: NOTHING,
        },
        number: 1,
    };
    loop {
        match next_move(problem, core, &mut store, &mut stack, continuation)? {
            NamingMove::End { terminal, state } => {
                return Ok(Walk::Found(FailingPath {
                    steps: trail,
                    last: terminal,
                    state,
                    used,
                }));
            }
            NamingMove::Silent(next) => continuation = next,
            NamingMove::Step(label, next) => {
                if used == steps {
                    return Ok(Walk::StepLimit(trail));
                }
                if let Some(label) = label {
                    trail.push(label)?;
                }
                continuation = next;
                used += 1;
            }
        }
    }
}

/// The path that the core's log names from its start entry on: each support says how the path goes
/// on. A replacement and a descent to a child are a step each, the replacement of the start included.
/// `Found` comes where the naming needs at most `steps` steps, and `StepLimit` where it needs more.
/// The problem is that of the core, whose log has the start entry.
///
/// A step takes time in proportion to what its entries ask of parameters, times their number, and
/// what is made at it is kept to the end: some 16 bytes for a chosen argument, with 12 for each of its
/// parameters and 4 for each type that is asked of them. Nothing is replaced in a term.
pub fn walk(alloc: Global, problem: &Problem, core: &Core, steps: u64) -> Result<Walk, OutOfMemory>
    requires problem { problem.now ≡ core.now.base.problem }
    requires start { HasStart problem.now (log_of core.now) }
    ensures { IfOk result (IsWalk problem.now (log_of core.now) (state_of core.now).supports steps) }
{
    know_sorted_problem(problem);
    core.know_core();
    every_history_supported();
    namings_lead_the_start();
    let place = core.start().unwrap();
    if steps == 0 {
        return Ok(Walk::StepLimit(Vec::new(alloc)));
    }
    walk_from(alloc, problem, core, place, steps)
}
