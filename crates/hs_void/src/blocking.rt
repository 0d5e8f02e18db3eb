//! Which sites are blocked.

ghost use Rattle.std.specs.Prelude.{◌≡◌, ◌↔◌, ◌<◌, ℕ, List, length, map, slice_get, slice_index_or, All, Contains, IfOk, IsTrue};
ghost use Rattle.hs_scheme.specs.flow.Points.{point_at};
ghost use Rattle.hs_table.specs.Entries.{Env, EntryData, params_of};
ghost use Rattle.hs_weak.specs.Void.{VoidData, IsVoid, sets_for, IsBlocked};
ghost use Rattle.hs_types.specs.Interned.{set_of_id, env_of_id, Grows};
ghost use Rattle.hs_sites.specs.Listed.{data_of};
ghost use Rattle.hs_choices.specs.Slots.{AscendAll};
ghost use Rattle.hs_choices.specs.Numbered.{envs_of, AreInUse, AreNumbered};
ghost use Rattle.hs_void.specs.Voids.{Fits, AreLeastChoices};

use crate::laws::what_fits_stays;
use crate::voids::Voids;
use hs_choices::{Compared, slots_for};
use hs_scheme::{OutOfMemory, Problem};
use hs_sites::Site;
use hs_types::{EnvId, SetId};
use hs_verdict::know_sorted_problem;
use std::alloc::Global;

/// The set at this place, or `none` where there is no such place.
fn set_at(sets: &[SetId], none: SetId, place: usize) -> SetId
    ensures { result ≡ slice_index_or sets.now place none }
{
    match sets.get(place) {
        Some(set) => *set,
        None => none,
    }
}

/// The sets of the environment for these arguments, the first of them at parameter `given`. A set that the
/// environment lacks is empty.
fn sets_of(
    alloc: Global,
    types: &mut Compared,
    env: EnvId,
    given: u32,
    args: &[u32],
) -> Result<Vec<SetId>, OutOfMemory>
    requires env { env < length types.old.envs }
    ensures range { IfOk result (λ sets. All (λ s. s < length types.new.sets) sets.items) }
    ensures sets { IfOk result (λ sets. map (set_of_id types.new) sets.items
        ≡ sets_for (env_of_id types.old env) given args.now) }
    ensures grows { Grows types.old types.new }
{
    let none = types.set(&[])?;
    let own = types.interner().sets(env);
    let mut sets = Vec::with_capacity(alloc, args.len())?;
    for place in 0..args.len() {
        sets.push_reserved(set_at(own, none, given as usize + place));
    }
    Ok(sets)
}

/// Whether each of the environments is void. Ends at the first that isn't.
fn are_void(
    types: &mut Compared,
    voids: &mut Voids,
    rule: u32,
    envs: &[EnvId],
) -> Result<bool, OutOfMemory>
    requires envs { AreInUse types.old envs.now }
    requires fits { Fits types.old voids.old }
    ensures ok { IfOk result (λ void. (C : List EntryData) (V : List VoidData)
        → AreNumbered voids.old.basis.problem C V types.old voids.old.basis.table voids.old.basis.void
        → IsTrue void ↔ ((K : Env) → Contains (envs_of types.old envs.now) K
        → IsVoid voids.old.basis.problem C V rule K)) }
    ensures same { types.new ≡ types.old }
    ensures fits { Fits types.new voids.new }
    ensures basis { voids.new.basis ≡ voids.old.basis }
{
    for env in envs {
        if !voids.is_void(types, rule, *env)? {
            return Ok(false);
        }
    }
    Ok(true)
}

/// How many parameters the rule has, 0 where there is no such rule.
fn parameters_of(problem: &Problem, rule: u32) -> usize
    ensures { result ≡ params_of problem.now rule }
{
    match problem.sorted.scheme.rules.get(rule as usize) {
        None => 0,
        Some(rule) => rule.params as usize,
    }
}

/// The least unions of what may be chosen, by the rows, for these sets of types of a point's arguments,
/// but for void ones.
fn least_choices(
    alloc: Global,
    types: &mut Compared,
    voids: &mut Voids,
    point: u32,
    sets: &[SetId],
) -> Result<Vec<EnvId>, OutOfMemory>
    requires fits { Fits types.old voids.old }
    requires point { point < length voids.old.basis.problem.points.points }
    requires sets { All (λ s. s < length types.old.sets) sets.now }
    requires long { length sets.now ≡ length (point_at voids.old.basis.problem.points point).args }
    ensures range { IfOk result (λ kept. AreInUse types.new kept.items) }
    ensures ascend { IfOk result (λ kept. AscendAll (envs_of types.new kept.items)) }
    ensures least { IfOk result (λ kept. AreLeastChoices voids.old.basis types.old types.new
        (point_at voids.old.basis.problem.points point) sets.now kept.items) }
    ensures grows { Grows types.old types.new }
    ensures fits { Fits types.new voids.new }
    ensures basis { voids.new.basis ≡ voids.old.basis }
{
    let problem = voids.problem();
    know_sorted_problem(problem);
    let rule = problem.points.rule_of(point);
    let first = types.empty_env(parameters_of(problem, rule))?;
    let args = problem.points.args_of(point);
    let slots = slots_for(alloc, types, voids.table(), args, sets)?;
    voids.least_unions(types, rule, first, slots.as_slice())
}

/// Whether the site is blocked for the environment: whatever is chosen for its arguments, the union is
/// void. The one error is want of memory. Costs what the least unions cost, and whether each is void.
pub(crate) fn is_blocked(
    alloc: Global,
    types: &mut Compared,
    voids: &mut Voids,
    site: &Site,
    env: EnvId,
) -> Result<bool, OutOfMemory>
    requires fits { Fits types.old voids.old }
    requires site { site.now.point < length voids.old.basis.problem.points.points }
    requires env { env < length types.old.envs }
    ensures ok { IfOk result (λ blocked. (C : List EntryData) (V : List VoidData)
        → AreNumbered voids.old.basis.problem C V types.old voids.old.basis.table voids.old.basis.void
        → IsTrue blocked ↔ IsBlocked voids.old.basis.problem C V (data_of site.now)
        (env_of_id types.old env)) }
    ensures grows { Grows types.old types.new }
    ensures fits { Fits types.new voids.new }
    ensures basis { voids.new.basis ≡ voids.old.basis }
{
    what_fits_stays();
    let problem = voids.problem();
    know_sorted_problem(problem);
    let args = problem.points.args_of(site.point);
    let sets = sets_of(alloc, types, env, site.given, args)?;
    let kept = least_choices(alloc, types, voids, site.point, sets.as_slice())?;
    are_void(
        types,
        voids,
        problem.points.rule_of(site.point),
        kept.as_slice(),
    )
}
