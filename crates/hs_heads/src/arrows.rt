//! Types that are made of the sets of an environment.

ghost use Rattle.std.specs.Prelude.{◌≡◌, ◌<◌, ◌↔◌, ◌⊎◌, ℕ, length, Contains, IfOk, OnOk};
ghost use Rattle.hs_table.specs.Types as trees;
ghost use Rattle.hs_table.specs.Types.{TypeTree};
ghost use Rattle.hs_table.specs.Entries.{set_at};
ghost use Rattle.hs_types.specs.Interned.{type_of_id, set_of_id, env_of_id, Grows};
ghost use Rattle.hs_heads.specs.Sources.{GainsTypes};

use hs_choices::Compared;
use hs_scheme::OutOfMemory;
use hs_types::{EnvId, Interner, SetId, TyId};
use indexmap::IndexSet;

/// How many parameters the environment is for.
fn count_of(types: &Interner, env: EnvId) -> usize
    requires { env < length types.now.envs }
    ensures { result ≡ length (env_of_id types.now env) }
{
    types.sets(env).len()
}

/// The set of a parameter of the environment.
fn set_of(types: &Interner, env: EnvId, parameter: usize) -> SetId
    requires env { env < length types.now.envs }
    requires parameter { parameter < length (env_of_id types.now env) }
    ensures range { result < length types.now.sets }
    ensures is { set_of_id types.now result ≡ set_at (env_of_id types.now env) parameter }
{
    types.sets(env)[parameter]
}

/// The type with the environment's sets, and then the other. Makes a type for each of the sets.
fn arrows_over(types: &mut Compared, env: EnvId, rest: TyId) -> Result<TyId, OutOfMemory>
    requires env { env < length types.old.envs }
    requires rest { rest < length types.old.types }
    ensures range { IfOk result (λ id. id < length types.new.types) }
    ensures is { IfOk result (λ id. type_of_id types.new id
        ≡ trees.arrows (env_of_id types.old env) (type_of_id types.old rest)) }
    ensures grows { OnOk result (Grows types.old types.new) }
{
    let mut ty = rest;
    let mut left = count_of(types.interner(), env);
    while left > 0 {
        left -= 1;
        let set = set_of(types.interner(), env, left);
        ty = types.arrow(set, ty)?;
    }
    Ok(ty)
}

/// Adds a type, unless it is there.
pub(crate) fn add(found: &mut IndexSet<TyId>, ty: TyId) -> Result<(), OutOfMemory>
    ensures { OnOk result ((t : ℕ) → Contains found.new.keys t ↔ (Contains found.old.keys t ⊎ (t ≡ ty))) }
{
    found.insert(ty)?;
    Ok(())
}

/// Adds the type with the environment's sets, and then the other.
pub(crate) fn add_arrows(
    types: &mut Compared,
    env: EnvId,
    rest: TyId,
    found: &mut IndexSet<TyId>,
) -> Result<(), OutOfMemory>
    requires env { env < length types.old.envs }
    requires rest { rest < length types.old.types }
    ensures { OnOk result (GainsTypes types.old types.new found.old.keys found.new.keys
        (λ (ty : TypeTree). ty ≡ trees.arrows (env_of_id types.old env) (type_of_id types.old rest))) }
{
    let ty = arrows_over(types, env, rest)?;
    add(found, ty)
}
