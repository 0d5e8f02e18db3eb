//! Which slot is joined next.

ghost use Rattle.std.specs.Prelude.{◌<◌, ℕ, length, Contains, MatchOption, IfOk};
ghost use Rattle.std.specs.List.Sorted.{IsStrictlyIncreasing};
ghost use Rattle.hs_rules.specs.Slots.{FilledData};
ghost use Rattle.hs_rules.specs.Joins.{CanFill};
ghost use Rattle.hs_rules.specs.Turns.{IsTurn};

use crate::joining::Partial;
use crate::search::Filled;
use hs_replica::Replica;
use hs_scheme::OutOfMemory;
use hs_types::{EnvId, Interner, TyId};
use smallvec::SmallVec;
use std::alloc::Global;

/// Where there are at least so many choices, the slot by which environments grow least comes next.
const MANY: usize = 1 << 16;

/// So many environments, and so many candidates for a slot, are looked at to tell how they grow.
const SAMPLES: usize = 4;

/// Numbers of slots, or their weights. Eight of them lie in the value itself.
pub(crate) type Numbers = SmallVec<usize, 8>;

/// Whether the types are among the others.
fn are_among(types: &[TyId], others: &[TyId]) -> bool {
    for ty in types {
        if !others.contains(ty) {
            return false;
        }
    }
    true
}

/// Whether the first environment asks for all that the other one asks for; not where the other one has
/// parameters that it lacks.
fn absorbs(interner: &Interner, env: EnvId, other: EnvId) -> bool
    requires env { env < length interner.now.envs }
    requires other { other < length interner.now.envs }
{
    let sets = interner.sets(env);
    for (param, set) in interner.sets(other).iter().enumerate() {
        if param >= sets.len() {
            return false;
        }
        if sets[param] == *set {
            continue;
        }
        if !are_among(interner.members(*set), interner.members(sets[param])) {
            return false;
        }
    }
    true
}

/// Of how many entries at these places the environment doesn't ask for all that they ask for.
fn growing(replica: &Replica, partial: &Partial, places: &[u32]) -> usize
    requires env { partial.now.env < length replica.now.ids.envs }
    requires places { (place : ℕ) → Contains places.now place → place < length replica.now.log }
{
    let mut count = 0_usize;
    for place in places {
        let env = replica.row(*place).env;
        if !absorbs(replica.interner(), partial.env, env) {
            count = count.saturating_add(1);
        }
    }
    count
}

/// In how many pairs of the first few environments and a candidate for the slot the environment doesn't ask for
/// all that the candidate asks for, as told by the first few candidates. Two pairs may come to the same
/// environment.
fn growth(replica: &Replica, partials: &[Partial], slot: &Filled) -> usize
    requires { CanFill replica.now.ids replica.now.log partials.now slot.now }
{
    let places = slot.places.as_slice();
    let few = &partials[..partials.len().min(SAMPLES)];
    let some = &places[..places.len().min(SAMPLES)];
    let mut count = 0_usize;
    for partial in few {
        count = count.saturating_add(growing(replica, partial, some));
    }
    count.saturating_mul(places.len()) / places.len().clamp(1, SAMPLES)
}

/// Whether there are many choices of one candidate for each slot.
pub(crate) fn are_many(slots: &[Filled]) -> bool {
    let mut choices = 1_usize;
    for slot in slots {
        choices = choices.saturating_mul(slot.places.len());
    }
    choices >= MANY
}

/// A slot that comes next: its number, counted from 0, and how many of those that were joined stand before it.
#[derive(Clone, Copy)]
pub(crate) struct Turn {
    pub(crate) number: usize,
    pub(crate) at: usize,
}

/// How much environments grew by each slot when that was last looked at, and how many environments there were
/// then; nothing, and 0, before the first look.
#[derive(Drop)]
pub(crate) struct Weights {
    of_slots: Numbers,
    looked: usize,
}

/// The weights before the first look.
pub(crate) fn no_weights(alloc: Global) -> Weights {
    Weights {
        of_slots: SmallVec::new(alloc),
        looked: 0,
    }
}

/// Looks how much environments grow by each slot, where there are at least twice as many as at the last look.
fn look(
    replica: &Replica,
    slots: &[Filled],
    partials: &[Partial],
    weights: &mut Weights,
) -> Result<(), OutOfMemory>
    requires { (f : FilledData) → Contains slots.now f
        → CanFill replica.now.ids replica.now.log partials.now f }
{
    if partials.len() / 2 < weights.looked {
        return Ok(());
    }
    weights.looked = partials.len();
    weights.of_slots.clear();
    for slot in slots {
        weights.of_slots.push(growth(replica, partials, slot))?;
    }
    Ok(())
}

/// The slot with the least weight of those that aren't done, the first of several; where there is one.
fn lightest(slots: &[Filled], done: &[usize], weights: &[usize]) -> Option<Turn>
    requires { IsStrictlyIncreasing done.now }
    ensures { MatchOption result ((n : ℕ) → n < length slots.now → Contains done.now n)
        (IsTurn slots.now done.now) }
{
    let mut next = None;
    let mut least = usize::MAX;
    let mut at = 0_usize;
    for number in 0..slots.len() {
        if at < done.len() && done[at] == number {
            at += 1;
            continue;
        }
        let weight = weights.get(number).copied().unwrap_or(0);
        if next.is_none() || weight < least {
            next = Some(Turn { number, at });
            least = weight;
        }
    }
    next
}

/// Of the slots that aren't done the one by which environments grew least when that was last looked at, the first
/// of several; `None` where all are done. It is looked at again where there are at least twice as many
/// environments as then.
///
/// Takes a step for each slot. A look takes for each slot up to 16 pairs of an environment and a candidate, and
/// for each pair and parameter at most as many steps as the product of the numbers of types that the two ask
/// for there.
pub(crate) fn next_slot(
    replica: &Replica,
    slots: &[Filled],
    done: &[usize],
    partials: &[Partial],
    weights: &mut Weights,
) -> Result<Option<Turn>, OutOfMemory>
    requires can { (f : FilledData) → Contains slots.now f
        → CanFill replica.now.ids replica.now.log partials.now f }
    requires rises { IsStrictlyIncreasing done.now }
    ensures { IfOk result (λ next. MatchOption next
        ((n : ℕ) → n < length slots.now → Contains done.now n)
        (IsTurn slots.now done.now)) }
{
    look(replica, slots, partials, weights)?;
    Ok(lightest(slots, done, weights.of_slots.as_slice()))
}
