//! Least unions of environments, one chosen from each of some lists.

ghost use Rattle.std.specs.Prelude.{◌≡◌, ◌↔◌, ◌⊎◌, ◌<◌, ℕ, length, All, Contains, IfOk, OnOk, IsTrue};
ghost use Rattle.hs_table.specs.Entries.{Env};
ghost use Rattle.hs_weak.specs.Strength.{AsStrongAs, AsksAtLeast};
ghost use Rattle.hs_types.specs.Interned.{env_of_id, Grows};
ghost use Rattle.hs_choices.specs.Unions.{AsksOneOf, AreLeastUnions};
ghost use Rattle.hs_choices.specs.Slots.{AscendAll};
ghost use Rattle.hs_choices.specs.Numbered.{envs_of, slot_envs, AreInUse, AreOfLength};
ghost use Rattle.hs_choices.specs.Numbered.{IsAdded, AreAllUnions};

use crate::comparing::Comparing;
use crate::dropping::Dropping;
use crate::slots::Slot;
use hs_scheme::OutOfMemory;
use hs_types::EnvId;
use std::alloc::Global;

/// Whether the environment asks at least what one of the others asks. Ends at the first such one.
fn asks_some<T: Comparing>(types: &mut T, env: EnvId, others: &[EnvId]) -> Result<bool, OutOfMemory>
    requires env { env < length (T.known types.old).envs }
    requires others { AreInUse (T.known types.old) others.now }
    ensures ok { IfOk result (λ asks. IsTrue asks
        ↔ AsksOneOf (envs_of (T.known types.old) others.now) (env_of_id (T.known types.old) env)) }
    ensures same { T.known types.new ≡ T.known types.old }
{
    for other in others {
        if types.asks_at_least(env, *other)? {
            return Ok(true);
        }
    }
    Ok(false)
}

/// Those that don't ask at least what the environment asks.
fn without_stronger<T: Comparing>(
    alloc: Global,
    types: &mut T,
    kept: &[EnvId],
    env: EnvId,
) -> Result<Vec<EnvId>, OutOfMemory>
    requires env { env < length (T.known types.old).envs }
    requires kept { AreInUse (T.known types.old) kept.now }
    ensures left { IfOk result (λ rest. (k : ℕ) → Contains rest.items k → Contains kept.now k) }
    ensures lost { IfOk result (λ rest. (k : ℕ) → Contains kept.now k → Contains rest.items k
        ⊎ AsksAtLeast AsStrongAs (env_of_id (T.known types.old) k) (env_of_id (T.known types.old) env)) }
    ensures same { T.known types.new ≡ T.known types.old }
{
    let mut rest = Vec::new(alloc);
    for other in kept {
        if types.asks_at_least(*other, env)? {
            continue;
        }
        rest.push(*other)?;
    }
    Ok(rest)
}

/// Adds the environment to those that are kept, unless it asks at least what one of them asks or is left
/// out. Those that ask at least what it asks go.
fn add<T: Comparing, D: Dropping<T>>(
    alloc: Global,
    types: &mut T,
    dropping: &mut D,
    rule: u32,
    kept: &mut Vec<EnvId>,
    env: EnvId,
) -> Result<(), OutOfMemory>
    requires env { env < length (T.known types.old).envs }
    requires fits { D.fits dropping.old (T.known types.old) }
    requires kept { AreInUse (T.known types.old) kept.old.items }
    ensures come { OnOk result ((k : ℕ) → Contains kept.new.items k → Contains kept.old.items k ⊎ (k ≡ env)) }
    ensures least { OnOk result ((U : Env) → AsksOneOf (envs_of (T.known types.old) kept.old.items) U
        ⊎ AsksAtLeast AsStrongAs U (env_of_id (T.known types.old) env)
        → AsksOneOf (envs_of (T.known types.old) kept.new.items) U
        ⊎ D.dropped dropping.old (T.known types.old) rule U) }
    ensures same { T.known types.new ≡ T.known types.old }
    ensures fits { D.fits dropping.new (T.known types.new) }
    ensures stays { D.stays dropping.old dropping.new }
{
    if asks_some(types, env, kept.as_slice())? {
        return Ok(());
    }
    if dropping.drops(types, rule, env)? {
        return Ok(());
    }
    let mut rest = without_stronger(alloc, types, kept.as_slice(), env)?;
    rest.push(env)?;
    *kept = rest;
    Ok(())
}

/// Adds the unions of an environment with those of a slot.
fn add_unions<T: Comparing, D: Dropping<T>>(
    alloc: Global,
    types: &mut T,
    dropping: &mut D,
    rule: u32,
    kept: &mut Vec<EnvId>,
    env: EnvId,
    slot: &[EnvId],
) -> Result<(), OutOfMemory>
    requires env { env < length (T.known types.old).envs }
    requires fits { D.fits dropping.old (T.known types.old) }
    requires kept { AreOfLength (length (env_of_id (T.known types.old) env)) (T.known types.old)
        kept.old.items }
    requires slot { AreOfLength (length (env_of_id (T.known types.old) env)) (T.known types.old) slot.now }
    ensures added { OnOk result (IsAdded (D.dropped dropping.old (T.known types.old) rule)
        (T.known types.old) (T.known types.new) kept.old.items env slot.now kept.new.items) }
    ensures grows { Grows (T.known types.old) (T.known types.new) }
    ensures fits { D.fits dropping.new (T.known types.new) }
    ensures stays { D.stays dropping.old dropping.new }
{
    for other in slot {
        let union = types.union(env, *other)?;
        add(alloc, types, dropping, rule, kept, union)?;
    }
    Ok(())
}

/// The unions of each that is kept with those of a slot.
fn all_unions<T: Comparing, D: Dropping<T>>(
    alloc: Global,
    types: &mut T,
    dropping: &mut D,
    rule: u32,
    kept: &[EnvId],
    slot: &[EnvId],
) -> Result<Vec<EnvId>, OutOfMemory>
    requires fits { D.fits dropping.old (T.known types.old) }
    requires same { (n : ℕ) × (AreOfLength n (T.known types.old) kept.now
        × AreOfLength n (T.known types.old) slot.now) }
    ensures unions { IfOk result (λ unions. (n : ℕ) → AreOfLength n (T.known types.old) kept.now
        → AreOfLength n (T.known types.old) slot.now
        → AreAllUnions (D.dropped dropping.old (T.known types.old) rule) n (T.known types.old)
        (T.known types.new) kept.now slot.now unions.items) }
    ensures grows { Grows (T.known types.old) (T.known types.new) }
    ensures fits { D.fits dropping.new (T.known types.new) }
    ensures stays { D.stays dropping.old dropping.new }
{
    let mut unions = Vec::new(alloc);
    for env in kept {
        add_unions(alloc, types, dropping, rule, &mut unions, *env, slot)?;
    }
    Ok(unions)
}

/// The least unions of an environment for the parameters of a rule with one of each slot.
///
/// A union of some of the slots is dropped where it asks at least what another such union asks, or is
/// left out: so does, or is, whatever is made of it. The first environment isn't asked about where there
/// are no slots. So time and memory are in the number of the least unions of the last slots, for each
/// number of them, times the sizes of slots, and each new union is compared with those that are kept. The
/// one error is want of memory.
pub fn least_unions<T: Comparing, D: Dropping<T>>(
    alloc: Global,
    types: &mut T,
    dropping: &mut D,
    rule: u32,
    first: EnvId,
    slots: &[Slot],
) -> Result<Vec<EnvId>, OutOfMemory>
    requires fits { D.fits dropping.old (T.known types.old) }
    requires first { first < length (T.known types.old).envs }
    requires slots { All (AreOfLength (length (env_of_id (T.known types.old) first)) (T.known types.old))
        slots.now }
    ensures range { IfOk result (λ kept. AreOfLength (length (env_of_id (T.known types.old) first))
        (T.known types.new) kept.items) }
    ensures ascend { IfOk result (λ kept. AscendAll (envs_of (T.known types.new) kept.items)) }
    ensures least { IfOk result (λ kept. AreLeastUnions (length (env_of_id (T.known types.old) first))
        (D.dropped dropping.old (T.known types.old) rule) (env_of_id (T.known types.old) first)
        (slot_envs (T.known types.old) slots.now) (envs_of (T.known types.new) kept.items)) }
    ensures grows { Grows (T.known types.old) (T.known types.new) }
    ensures fits { D.fits dropping.new (T.known types.new) }
    ensures stays { D.stays dropping.old dropping.new }
{
    types.sets_ascend();
    let mut kept = Vec::new(alloc);
    kept.push(first)?;
    let mut left = slots.len();
    while left > 0 {
        left -= 1;
        let slot = &slots[left];
        kept = all_unions(
            alloc,
            types,
            dropping,
            rule,
            kept.as_slice(),
            slot.envs.as_slice(),
        )?;
    }
    Ok(kept)
}
