//! Saturation by one worker.

ghost use Rattle.std.specs.Prelude.{◌≡◌, ◌≤◌, IfOk};
ghost use Rattle.hs_flow.specs.Dependents.{HasDependents};
ghost use Rattle.hs_verdict.specs.Premises.{HasClosedFlow};
ghost use Rattle.hs_history.specs.Story.{Base};
ghost use Rattle.hs_core.specs.Draining.{EndsAtRest};
ghost use Rattle.hs_core.specs.Saturation.{IsAlone, IsDone, IsVerdict};

use crate::answers::{Done, Drained};
use crate::draining::{answer, work_alone};
use crate::gate::Open;
use crate::state::Core;
use hs_flow::Dependents;
use hs_scheme::{OutOfMemory, Problem};
use hs_verdict::{know_sorted_problem, least_tables_decide};
use std::alloc::Global;

/// What has come of the core, in which nothing is left to do.
fn as_done<'p>(problem: &Problem, core: Core<'p>) -> Done<'p>
    requires ends { EndsAtRest core }
    requires problem { core.base.problem ≡ problem.now }
    ensures done { (base : Base) → IsAlone base core.entry → IsDone base result }
    ensures verdict { HasClosedFlow problem.now → IsVerdict problem.now result }
{
    know_sorted_problem(problem);
    least_tables_decide();
    match answer(&core) {
        Drained::Quiet => Done::Least(core),
        Drained::Over => Done::Over(core),
        Drained::Found { .. } => Done::First(core),
    }
}

/// The least table of the problem, formed by one worker, whose number is 0; or, where `first` is set
/// and the table has the start entry, a part of it with that entry. The budget is 1 to 1,000,000, and
/// the dependents are those of the problem.
///
/// After Broadbent and Kobayashi, "Saturation-based model checking of higher-order recursion schemes"
/// (CSL 2013).
pub fn saturate_alone<'p>(
    alloc: Global,
    problem: &'p Problem,
    dependents: &Dependents,
    budget: u32,
    first: bool,
) -> Result<Done<'p>, OutOfMemory>
    requires least { 1 ≤ budget }
    requires greatest { budget ≤ 1000000 }
    requires dependents { HasDependents problem.now.points problem.now.flow.pairs dependents.now }
    ensures done { IfOk result (IsDone (record { problem = problem.now; budget = budget; first = first })) }
    ensures verdict { IfOk result (λ done. HasClosedFlow problem.now → IsVerdict problem.now done) }
{
    let mut core = Core::new(alloc, problem, budget, first)?;
    if let Err(refused) = work_alone(alloc, &mut core, dependents, 0, &Open) {
        drop(core);
        return Err(refused);
    }
    Ok(as_done(problem, core))
}
