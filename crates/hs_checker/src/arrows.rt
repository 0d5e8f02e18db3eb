//! Types that are made of the sets of an environment.

ghost use Rattle.std.specs.Prelude.{◌≡◌, ◌<◌, length, IfOk, OnOk};
ghost use Rattle.hs_table.specs.Types as trees;
ghost use Rattle.hs_table.specs.Entries.{set_at};
ghost use Rattle.hs_types.specs.Interned.{type_of_id, set_of_id, env_of_id, Grows};

use hs_scheme::OutOfMemory;
use hs_types::{EnvId, Interner, SetId, TyId};

/// How many parameters the environment is for.
fn count_of(types: &Interner, env: EnvId) -> usize
    requires env { env < length types.now.envs }
    ensures { result ≡ length (env_of_id types.now env) }
{
    types.sets(env).len()
}

/// The set of a parameter of the environment.
fn set_of(types: &Interner, env: EnvId, parameter: usize) -> SetId
    requires env { env < length types.now.envs }
    requires parameter { parameter < length (env_of_id types.now env) }
    ensures range { result < length types.now.sets }
    ensures is { set_of_id types.now result ≡ set_at (env_of_id types.now env) parameter }
{
    types.sets(env)[parameter]
}

/// The type with the environment's sets, and then the other. Makes a type for each of the sets.
pub(crate) fn arrows_over(types: &mut Interner, env: EnvId, rest: TyId) -> Result<TyId, OutOfMemory>
    requires env { env < length types.old.envs }
    requires rest { rest < length types.old.types }
    ensures range { IfOk result (λ id. id < length types.new.types) }
    ensures is { IfOk result (λ id. type_of_id types.new id
        ≡ trees.arrows (env_of_id types.old env) (type_of_id types.old rest)) }
    ensures grows { OnOk result (Grows types.old types.new) }
{
    let mut ty = rest;
    let mut left = count_of(types, env);
    while left > 0 {
        left -= 1;
        let set = set_of(types, env, left);
        ty = types.arrow(set, ty)?;
    }
    Ok(ty)
}
