//! What is gathered of a round: all that follows by the entries of the round before and that the log
//! lacks, each entry with its least support.

ghost use Rattle.std.specs.Prelude.{◌≡◌, ◌<◌, ◌≤◌, ℕ, length, OnOk};
ghost use Rattle.hs_flow.specs.Dependents.{HasDependents};
ghost use Rattle.hs_core.specs.Core.{log_of};
ghost use Rattle.hs_rank.specs.Gathering.{AreNewDeduced, IsKnown, Gathered};
ghost use Rattle.hs_rank.specs.Following.{HasSeedBy, HasAtBy, HasPlaceBy};

use hs_core::Core;
use hs_flow::Dependents;
use hs_rank::{Fresh, keep_new};
use hs_scheme::OutOfMemory;
use std::alloc::Global;

/// Gathers what follows at the point from no entry.
fn gather_seed(
    alloc: Global,
    core: &mut Core,
    point: u32,
    fresh: &mut Fresh,
) -> Result<(), OutOfMemory>
    requires point { point < length core.old.base.problem.points.points }
    requires fresh { AreNewDeduced core.old.base.problem core.old.ids (log_of core.old)
        fresh.old.list.items }
    ensures kept { OnOk result (core.new ≡ record core.old { ids = core.new.ids }) }
    ensures gathered { OnOk result (Gathered core.old.base.problem (log_of core.old)
        core.old.ids fresh.old.list.items core.new.ids fresh.new.list.items) }
    ensures all { OnOk result (HasSeedBy core.old.base.problem point
        (IsKnown core.new.ids (log_of core.old) fresh.new.list.items)) }
{
    let found = core.at_seed(alloc, point)?;
    keep_new(core.replica(), found, fresh)
}

/// Gathers what follows at the point from the entries up to the place, with the entry there.
fn gather_at(
    alloc: Global,
    core: &mut Core,
    point: u32,
    place: u32,
    fresh: &mut Fresh,
) -> Result<(), OutOfMemory>
    requires point { point < length core.old.base.problem.points.points }
    requires place { place < length (log_of core.old) }
    requires fresh { AreNewDeduced core.old.base.problem core.old.ids (log_of core.old)
        fresh.old.list.items }
    ensures kept { OnOk result (core.new ≡ record core.old { ids = core.new.ids }) }
    ensures gathered { OnOk result (Gathered core.old.base.problem (log_of core.old)
        core.old.ids fresh.old.list.items core.new.ids fresh.new.list.items) }
    ensures all { OnOk result (HasAtBy core.old.base.problem (log_of core.old) place point
        (IsKnown core.new.ids (log_of core.old) fresh.new.list.items)) }
{
    let found = core.at_place(alloc, point, place)?;
    keep_new(core.replica(), found, fresh)
}

/// Gathers what follows from the entries up to the place, with the entry there.
fn gather_place(
    alloc: Global,
    dependents: &Dependents,
    core: &mut Core,
    place: u32,
    fresh: &mut Fresh,
) -> Result<(), OutOfMemory>
    requires dependents { HasDependents core.old.base.problem.points core.old.base.problem.flow.pairs
        dependents.now }
    requires place { place < length (log_of core.old) }
    requires fresh { AreNewDeduced core.old.base.problem core.old.ids (log_of core.old)
        fresh.old.list.items }
    ensures kept { OnOk result (core.new ≡ record core.old { ids = core.new.ids }) }
    ensures gathered { OnOk result (Gathered core.old.base.problem (log_of core.old)
        core.old.ids fresh.old.list.items core.new.ids fresh.new.list.items) }
    ensures all { OnOk result (HasPlaceBy core.old.base.problem (log_of core.old) place
        (IsKnown core.new.ids (log_of core.old) fresh.new.list.items)) }
{
    core.know_core();
    let point = core.replica().row(place).point;
    for dependent in dependents.list(point) {
        gather_at(alloc, core, *dependent, place, fresh)?;
    }
    Ok(())
}

/// Gathers what follows from no entry.
pub(crate) fn gather_seeds(
    alloc: Global,
    core: &mut Core,
    fresh: &mut Fresh,
) -> Result<(), OutOfMemory>
    requires fresh { AreNewDeduced core.old.base.problem core.old.ids (log_of core.old)
        fresh.old.list.items }
    ensures kept { OnOk result (core.new ≡ record core.old { ids = core.new.ids }) }
    ensures gathered { OnOk result (Gathered core.old.base.problem (log_of core.old)
        core.old.ids fresh.old.list.items core.new.ids fresh.new.list.items) }
    ensures all { OnOk result ((point : ℕ) → point < length core.old.base.problem.points.points →
        HasSeedBy core.old.base.problem point
        (IsKnown core.new.ids (log_of core.old) fresh.new.list.items)) }
{
    let problem = core.problem();
    for point in 0..problem.points.count() {
        gather_seed(alloc, core, point, fresh)?;
    }
    Ok(())
}

/// Gathers what follows from the log with one of the entries from the place `from` on.
pub(crate) fn gather_places(
    alloc: Global,
    dependents: &Dependents,
    core: &mut Core,
    from: u32,
    fresh: &mut Fresh,
) -> Result<(), OutOfMemory>
    requires dependents { HasDependents core.old.base.problem.points core.old.base.problem.flow.pairs
        dependents.now }
    requires fresh { AreNewDeduced core.old.base.problem core.old.ids (log_of core.old)
        fresh.old.list.items }
    ensures kept { OnOk result (core.new ≡ record core.old { ids = core.new.ids }) }
    ensures gathered { OnOk result (Gathered core.old.base.problem (log_of core.old)
        core.old.ids fresh.old.list.items core.new.ids fresh.new.list.items) }
    ensures all { OnOk result ((place : ℕ) → from ≤ place → place < length (log_of core.old) →
        HasPlaceBy core.old.base.problem (log_of core.old) place
        (IsKnown core.new.ids (log_of core.old) fresh.new.list.items)) }
{
    for place in from..core.len() {
        gather_place(alloc, dependents, core, place, fresh)?;
    }
    Ok(())
}
