//! Works that one worker does on a core: one, or all that are left.

ghost use Rattle.std.specs.Prelude.{◌≡◌, ◌<◌, ◌≤◌, ◌++◌, ℕ, All, IfOk, OnOk, IsTrue, MatchBool, Some, None, IsSome, length};
ghost use Rattle.hs_flow.specs.Dependents.{HasDependents};
ghost use Rattle.hs_history.specs.Story.{Story};
ghost use Rattle.hs_history.specs.CoreStep.{Holds, CanFinish, IsClosedWork, IsClosedPlace, put};
ghost use Rattle.hs_history.specs.History.{IsWork};
ghost use Rattle.hs_core.specs.Core.{state_of, log_of};
ghost use Rattle.hs_core.specs.Draining.{work_left, GoesAlone, SameFlight, NothingFlies, IsReady, IsThere, EndsAtRest, IsNextSeed, Closes};
ghost use Rattle.hs_core.specs.Saturation.{IsDrained, GivesBack, Drains};

use crate::answers::{Drained, Published, Taken};
use crate::gate::{Gate, Open};
use crate::selecting::select_alone;
use crate::state::Core;
use crate::tally::Tally;
use hs_flow::Dependents;
use hs_history::Work;
use hs_rules::Deduced;
use hs_scheme::OutOfMemory;
use std::alloc::Global;

/// Gives back every ticket in flight, in the name of its worker.
fn give_back_all(core: &mut Core)
    ensures base { core.new.base ≡ core.old.base }
    ensures story { (more : Story) × (core.new.story ≡ core.old.story ++ more) × All GivesBack more }
    ensures flight { NothingFlies core.new }
{
    for ticket in 0..core.tickets_bound() {
        if let Some(flight) = core.flight(ticket) {
            core.give_back(flight.worker, ticket);
        }
    }
}

/// Publishes what was found under the ticket, which the worker holds. Answers whether the budget had
/// room for all of it.
pub(crate) fn publish_all(
    core: &mut Core,
    worker: u32,
    ticket: u32,
    found: Vec<Deduced>,
) -> Result<bool, OutOfMemory>
    requires holds { Holds (state_of core.old) worker ticket }
    requires ready { All (IsReady core.old) found.items }
    ensures goes { GoesAlone worker core.old core.new }
    ensures flight { SameFlight core.old core.new }
    ensures work_left { work_left core.new ≤ work_left core.old }
    ensures ids { core.new.ids ≡ core.old.ids }
    ensures all { IfOk result (λ all. MatchBool all
        (All (IsThere core.new) found.items) (IsSome (state_of core.new).kept)) }
{
    for deduced in found {
        core.reserve_some()?;
        if let Published::Over = core.publish(worker, ticket, deduced) {
            return Ok(false);
        }
    }
    Ok(true)
}

/// Publishes what follows by the place, which the worker has taken under the ticket, and adds to the
/// tally how many conclusions that is. Answers whether the budget had room for all of it. At each dependent
/// it asks for no more conclusions than the budget: where there are more, one of them is over.
fn conclude_place(
    alloc: Global,
    core: &mut Core,
    dependents: &Dependents,
    worker: u32,
    place: u32,
    ticket: u32,
    tally: &mut Tally,
) -> Result<bool, OutOfMemory>
    requires holds { Holds (state_of core.old) worker ticket }
    requires place { place < length (log_of core.old) }
    requires dependents { HasDependents core.old.base.problem.points core.old.base.problem.flow.pairs
        dependents.now }
    ensures goes { GoesAlone worker core.old core.new }
    ensures flight { SameFlight core.old core.new }
    ensures work_left { work_left core.new ≤ work_left core.old }
    ensures closed { IfOk result (λ all. MatchBool all
        (IsClosedPlace core.new.base.problem (log_of core.new) place) (IsSome (state_of core.new).kept)) }
{
    core.know_core();
    let point = core.replica().row(place).point;
    let most = core.budget() as usize;
    for dependent in dependents.list(point) {
        let found = core.at_place_within(alloc, *dependent, place, most)?;
        tally.add(found.len());
        if !publish_all(core, worker, ticket, found)? {
            return Ok(false);
        }
        core.know_core();
    }
    Ok(true)
}

/// Publishes what follows by the work, which the worker has taken under the ticket, and adds to the
/// tally how many conclusions that is. Answers whether the budget had room for all of it.
fn conclude(
    alloc: Global,
    core: &mut Core,
    dependents: &Dependents,
    worker: u32,
    work: Work,
    ticket: u32,
    tally: &mut Tally,
) -> Result<bool, OutOfMemory>
    requires holds { Holds (state_of core.old) worker ticket }
    requires work { IsWork core.old.base.problem (log_of core.old) work }
    requires dependents { HasDependents core.old.base.problem.points core.old.base.problem.flow.pairs
        dependents.now }
    ensures goes { GoesAlone worker core.old core.new }
    ensures flight { SameFlight core.old core.new }
    ensures work_left { work_left core.new ≤ work_left core.old }
    ensures closed { IfOk result (λ all. MatchBool all
        (IsClosedWork core.new.base.problem (log_of core.new) work) (IsSome (state_of core.new).kept)) }
{
    match work {
        Work::Seed(point) => {
            let found = core.at_seed(alloc, point)?;
            tally.add(found.len());
            publish_all(core, worker, ticket, found)
        }
        Work::Place(place) => {
            conclude_place(alloc, core, dependents, worker, place, ticket, tally)
        }
    }
}

/// Ends the work under the ticket, which the worker holds: closes it where `all` says that all that
/// follows by it was published, and else gives it back. Answers `all`.
pub(crate) fn close(
    core: &mut Core,
    worker: u32,
    ticket: u32,
    all: Result<bool, OutOfMemory>,
) -> Result<bool, OutOfMemory>
    requires holds { Holds (state_of core.old) worker ticket }
    requires closed { IfOk all (λ all. IsTrue all →
        CanFinish core.old.base (state_of core.old) worker ticket) }
    ensures same { result ≡ all }
    ensures closes { Closes core.old worker ticket all core.new }
{
    match all {
        Ok(true) => {
            core.finish(worker, ticket);
            Ok(true)
        }
        Ok(false) => {
            core.give_back(worker, ticket);
            Ok(false)
        }
        Err(refused) => {
            core.give_back(worker, ticket);
            Err(refused)
        }
    }
}

/// Does the seed of the point, which is the work that is given out next, as this worker. Answers
/// whether the budget had room for what follows by it. Where nothing follows, as at most points, the
/// seed is taken and closed without a look at the tickets.
fn seed_turn(alloc: Global, core: &mut Core, worker: u32, point: u32) -> Result<bool, OutOfMemory>
    requires next { IsNextSeed core.old point }
    requires flight { NothingFlies core.old }
    requires spare { 1 ≤ core.old.spare }
    ensures goes { GoesAlone worker core.old core.new }
    ensures flight { NothingFlies core.new }
    ensures more { IfOk result (λ more. MatchBool more (work_left core.new < work_left core.old)
        (EndsAtRest core.new)) }
{
    core.know_core();
    let found = core.at_seed(alloc, point)?;
    if found.is_empty() {
        core.pass_seed(worker, point);
        return Ok(true);
    }
    let ticket = core.take_first(worker, Work::Seed(point));
    let all = publish_all(core, worker, ticket, found);
    close(core, worker, ticket, all)
}

/// Takes a work as this worker, passes the gate and does the work. Answers whether there was one and
/// the budget had room for what follows by it.
fn turn<G: Gate>(
    alloc: Global,
    core: &mut Core,
    dependents: &Dependents,
    worker: u32,
    gate: &G,
    tally: &mut Tally,
) -> Result<bool, OutOfMemory>
    requires flight { NothingFlies core.old }
    requires dependents { HasDependents core.old.base.problem.points core.old.base.problem.flow.pairs
        dependents.now }
    ensures goes { GoesAlone worker core.old core.new }
    ensures flight { NothingFlies core.new }
    ensures more { IfOk result (λ more. MatchBool more (work_left core.new < work_left core.old)
        (EndsAtRest core.new)) }
{
    core.reserve_some()?;
    if let Some(point) = core.next_seed() {
        gate.before(worker, Work::Seed(point));
        return seed_turn(alloc, core, worker, point);
    }
    core.know_core();
    let Taken::Item { work, ticket } = core.take(worker) else {
        return Ok(false);
    };
    gate.before(worker, work);
    let all = conclude(alloc, core, dependents, worker, work, ticket, tally);
    close(core, worker, ticket, all)
}

/// Does the work under the ticket, which the worker holds: publishes what follows by it, adds to the
/// tally how many conclusions that is, known ones too, and closes the work. Where the budget has no
/// room for all of it, or memory is refused, the work is given back. Answers whether the budget had
/// room. The dependents are those of the core's problem.
pub fn do_work(
    alloc: Global,
    core: &mut Core,
    dependents: &Dependents,
    worker: u32,
    work: Work,
    ticket: u32,
    tally: &mut Tally,
) -> Result<bool, OutOfMemory>
    requires flies { (state_of core.old).flight ticket ≡ Some (record { worker = worker; work = work }) }
    requires dependents { HasDependents core.old.base.problem.points core.old.base.problem.flow.pairs
        dependents.now }
    ensures goes { GoesAlone worker core.old core.new }
    ensures flight { (t : ℕ) → (state_of core.new).flight t ≡ put ticket None (state_of core.old).flight t }
    ensures closed { IfOk result (λ all. MatchBool all
        (IsClosedWork core.new.base.problem (log_of core.new) work) (IsSome (state_of core.new).kept)) }
{
    core.know_core();
    let all = conclude(alloc, core, dependents, worker, work, ticket, tally);
    close(core, worker, ticket, all)
}

/// Does the works that are pending, as this worker, until nothing is left or `take` gives out none.
/// What follows is published at once, the first found first, until much follows from little; from then
/// on it waits, and the most promising is published where no work is pending. So no more is kept than
/// what the log and those that wait hold together within the budget, and what one work more forms: of that
/// it asks for no more than the budget at each dependent, and `conclusions_within` of `hs_rules` says what
/// bounds its time and memory; no clause does. The worker passes the gate before each work that it does.
/// Nothing is in flight, and the dependents are those of the core's problem. After a refusal of memory the
/// story has gone on, and nothing is in flight.
pub fn work_alone<G: Gate>(
    alloc: Global,
    core: &mut Core,
    dependents: &Dependents,
    worker: u32,
    gate: &G,
) -> Result<(), OutOfMemory>
    requires flight { NothingFlies core.old }
    requires dependents { HasDependents core.old.base.problem.points core.old.base.problem.flow.pairs
        dependents.now }
    ensures goes { GoesAlone worker core.old core.new }
    ensures flight { NothingFlies core.new }
    ensures ends { OnOk result (EndsAtRest core.new) }
{
    let mut tally = Tally::new();
    while !tally.is_bursting() {
        if !turn(alloc, core, dependents, worker, gate, &mut tally)? {
            return Ok(());
        }
    }
    select_alone(alloc, core, dependents, worker, gate)
}

/// What has come of it.
pub(crate) fn answer(core: &Core) -> Drained
    requires { EndsAtRest core.now }
    ensures { IsDrained core.now result }
{
    core.know_core();
    if let Some(place) = core.found() {
        return Drained::Found { place };
    }
    if core.past().is_some() {
        return Drained::Over;
    }
    Drained::Quiet
}

/// Gives back every ticket in flight, in the name of its worker, and then does the works that are
/// pending, as worker 0, until nothing is left or `take` gives out none. The dependents are those of
/// the core's problem. After a refusal of memory the story has gone on so, and nothing is in flight.
pub fn drain(
    alloc: Global,
    core: &mut Core,
    dependents: &Dependents,
) -> Result<Drained, OutOfMemory>
    requires { HasDependents core.old.base.problem.points core.old.base.problem.flow.pairs dependents.now }
    ensures drained { IfOk result (IsDrained core.new) }
    ensures base { core.new.base ≡ core.old.base }
    ensures story { Drains core.old.base core.old.story core.new.story }
    ensures flight { NothingFlies core.new }
{
    give_back_all(core);
    work_alone(alloc, core, dependents, 0, &Open)?;
    Ok(answer(core))
}
