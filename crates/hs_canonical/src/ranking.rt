//! The canonical log, round by round, in a core.

ghost use Rattle.std.specs.Prelude.{◌≡◌, [], ℕ, length, max, false, IfOk, OnOk};
ghost use Rattle.hs_flow.specs.Dependents.{HasDependents};
ghost use Rattle.hs_table.specs.Entries.{EntryData};
ghost use Rattle.hs_table.specs.Follows.{Support, FollowsBy};
ghost use Rattle.hs_table.specs.Tables.{Exceeds, IsLeastTable};
ghost use Rattle.hs_core.specs.Core.{state_of, log_of};
ghost use Rattle.hs_rank.specs.Canonical.{IsCanonicalLog};
ghost use Rattle.hs_rank.specs.Gathering.{AreNewDeduced, IsKnown};
ghost use Rattle.hs_rank.specs.Ranked.{HoldsRound, IsAtRound};
ghost use Rattle.hs_canonical.specs.Publishing.{HasNoStory};
ghost use Rattle.hs_canonical.specs.Ranking.{IsRanking};

use crate::gathering::{gather_places, gather_seeds};
use crate::publishing::{first_ticket, publish_round};
use hs_core::Core;
use hs_flow::Dependents;
use hs_rank::{Fresh, places_in_order, room_for};
use hs_scheme::{OutOfMemory, Problem};
use std::alloc::Global;

/// Publishes the next round, of which this was gathered.
fn add_round(
    alloc: Global,
    core: &mut Core,
    ticket: u32,
    fresh: &mut Fresh,
) -> Result<(), OutOfMemory>
    requires fresh { AreNewDeduced core.old.base.problem core.old.ids (log_of core.old)
        fresh.old.list.items }
    requires all { (s : Support) (e : EntryData) → FollowsBy core.old.base.problem (log_of core.old) s e
        → IsKnown core.old.ids (log_of core.old) fresh.old.list.items s e }
    requires ranked { (n : ℕ) × HoldsRound core.old.base.problem n (log_of core.old) }
    requires ranking { IsRanking ticket core.old }
    ensures base { OnOk result (core.new.base ≡ core.old.base) }
    ensures at { OnOk result (IsAtRound core.old.base.problem (length (log_of core.old))
        (log_of core.new)) }
    ensures ranking { OnOk result (IsRanking ticket core.new) }
{
    core.know_core();
    let places = places_in_order(alloc, core.replica(), fresh.list.as_slice())?;
    publish_round(alloc, core, ticket, &mut fresh.list, places.as_slice())
}

/// Publishes the first round, of what follows from no entry.
fn first_round(alloc: Global, core: &mut Core, ticket: u32) -> Result<(), OutOfMemory>
    requires none { log_of core.old ≡ [] }
    requires ranking { IsRanking ticket core.old }
    ensures base { OnOk result (core.new.base ≡ core.old.base) }
    ensures at { OnOk result (IsAtRound core.old.base.problem 0 (log_of core.new)) }
    ensures ranking { OnOk result (IsRanking ticket core.new) }
{
    let mut fresh = room_for(alloc, 0)?;
    gather_seeds(alloc, core, &mut fresh)?;
    add_round(alloc, core, ticket, &mut fresh)
}

/// Publishes the next round, of what follows with an entry of the last one, which began at the place
/// `from`.
fn next_round(
    alloc: Global,
    dependents: &Dependents,
    core: &mut Core,
    ticket: u32,
    from: u32,
) -> Result<(), OutOfMemory>
    requires dependents { HasDependents core.old.base.problem.points core.old.base.problem.flow.pairs
        dependents.now }
    requires at { IsAtRound core.old.base.problem from (log_of core.old) }
    requires ranking { IsRanking ticket core.old }
    ensures base { OnOk result (core.new.base ≡ core.old.base) }
    ensures at { OnOk result (IsAtRound core.old.base.problem (length (log_of core.old))
        (log_of core.new)) }
    ensures ranking { OnOk result (IsRanking ticket core.new) }
{
    let last = core.len() - from;
    let mut fresh = room_for(alloc, last as usize)?;
    gather_places(alloc, dependents, core, from, &mut fresh)?;
    add_round(alloc, core, ticket, &mut fresh)
}

/// Publishes round after round until one is empty.
fn fill(
    alloc: Global,
    dependents: &Dependents,
    core: &mut Core,
    ticket: u32,
) -> Result<(), OutOfMemory>
    requires dependents { HasDependents core.old.base.problem.points core.old.base.problem.flow.pairs
        dependents.now }
    requires none { log_of core.old ≡ [] }
    requires ranking { IsRanking ticket core.old }
    ensures base { OnOk result (core.new.base ≡ core.old.base) }
    ensures canonical { OnOk result (IsCanonicalLog core.old.base.problem (log_of core.new)
        (state_of core.new).supports) }
{
    first_round(alloc, core, ticket)?;
    let mut from = 0;
    while from < core.len() {
        let next = core.len();
        next_round(alloc, dependents, core, ticket, from)?;
        from = next;
    }
    Ok(())
}

/// Fills a core in which nothing has happened.
fn rank(alloc: Global, dependents: &Dependents, core: &mut Core) -> Result<(), OutOfMemory>
    requires dependents { HasDependents core.old.base.problem.points core.old.base.problem.flow.pairs
        dependents.now }
    requires all { core.old.base.first ≡ false }
    requires opened { HasNoStory core.old }
    requires few { Exceeds core.old.base.problem core.old.base.budget → ⊥ }
    ensures base { OnOk result (core.new.base ≡ core.old.base) }
    ensures canonical { OnOk result (IsCanonicalLog core.old.base.problem (log_of core.new)
        (state_of core.new).supports) }
{
    core.know_core();
    core.reserve(core.budget())?;
    if let Some(ticket) = first_ticket(core) {
        return fill(alloc, dependents, core, ticket);
    }
    Ok(())
}

/// Fills the core, whose log is the least table, anew.
fn rank_anew(alloc: Global, problem: &Problem, core: &mut Core) -> Result<(), OutOfMemory>
    requires problem { problem.now ≡ core.old.base.problem }
    requires least { IsLeastTable problem.now (log_of core.old) }
    ensures base { OnOk result (core.new.base ≡ record {
      problem = problem.now;
      budget = max (length (log_of core.old)) 1;
      first = false;
    }) }
    ensures canonical { OnOk result (IsCanonicalLog problem.now (log_of core.new)
        (state_of core.new).supports) }
{
    core.know_core();
    let dependents = Dependents::of(alloc, problem)?;
    let entries = core.len();
    core.restart(entries.max(1), false)?;
    rank(alloc, &dependents, core)
}

/// A core of the problem whose log with its supports is the canonical log: the entries of the least
/// table by the round in which they first follow, and then ascending; of the supports of an entry by
/// those of lower rank the one with the least list of places. It takes the place of a core whose log is
/// the least table in whatever order, and uses its memory and the types that it has numbered.
///
/// Round by round the conclusions are formed that use an entry of the last one, as saturation forms
/// them, each with its least support. When the round is whole, those that are new are sorted, of each
/// entry the one with the least support is kept, and these are published. The core is made by its
/// public steps: a seed is taken, and each entry is published under its ticket. So the seed stays in
/// flight, and all other works stay pending.
///
/// So it takes the time of saturation, and that of sorting. Beside the core a conclusion takes some 80
/// bytes while its round is formed, and a list of its chosen arguments; there are not more than some
/// four times as many as the round or the one before it has entries, or some thousands.
pub fn canonical<'p>(
    alloc: Global,
    problem: &'p Problem,
    saturated: Core<'p>,
) -> Result<Core<'p>, OutOfMemory>
    requires problem { problem.now ≡ saturated.base.problem }
    requires least { IsLeastTable problem.now (log_of saturated) }
    ensures base { IfOk result (λ core. core.base ≡ record {
      problem = problem.now;
      budget = max (length (log_of saturated.entry)) 1;
      first = false;
    }) }
    ensures canonical { IfOk result
        (λ core. IsCanonicalLog problem.now (log_of core) (state_of core).supports) }
{
    let mut core = saturated;
    match rank_anew(alloc, problem, &mut core) {
        Ok(()) => Ok(core),
        Err(refused) => {
            drop(core);
            Err(refused)
        }
    }
}
