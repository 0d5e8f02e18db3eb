//! What kinds of types environments ask for. The kind of a type is told by its parameter and its last state.

ghost use Rattle.std.specs.Prelude.{◌≡◌, ◌<◌, length, IfOk, OnOk, IsTrue};
ghost use Rattle.hs_weak.specs.Strength.{AsStrongAs, AsksAtLeast};
ghost use Rattle.hs_types.specs.Interned.{set_of_id, env_of_id};
ghost use Rattle.hs_strength.specs.Kinds.{kind_of as kind_at, HasKinds, AddsKinds};
ghost use Rattle.hs_strength.specs.Remembered.{Remembers};

use crate::last_states::last_state;
use crate::memo::Strengths;
use hs_scheme::OutOfMemory;
use hs_types::{EnvId, Interner, SetId};

/// The number below 64 of the types at the parameter with this last state.
fn kind_of(parameter: usize, state: u32) -> usize
    ensures range { result < 64 }
    ensures kind { result ≡ kind_at parameter state }
{
    (parameter % 64 * 7 + state as usize % 64) % 64
}

/// These kinds, and those of the types of the set at the parameter.
fn with_kinds(types: &Interner, set: SetId, parameter: usize, kinds: u64) -> u64
    requires { set < length types.now.sets }
    ensures { AddsKinds (set_of_id types.now set) parameter kinds result }
{
    let members = types.members(set);
    let mut all = kinds;
    for member in members {
        all |= 1 << kind_of(parameter, last_state(types, *member));
    }
    all
}

/// The kinds of the types that the environment asks for.
fn kinds_of(types: &Interner, env: EnvId) -> u64
    requires { env < length types.now.envs }
    ensures { HasKinds (env_of_id types.now env) result }
{
    let sets = types.sets(env);
    let mut kinds = 0;
    for (parameter, set) in sets.iter().enumerate() {
        kinds = with_kinds(types, *set, parameter, kinds);
    }
    kinds
}

impl Strengths {
    /// Sees that each type that the environment asks for is as strong as itself.
    fn see_env(&mut self, types: &Interner, env: EnvId) -> Result<(), OutOfMemory>
        requires env { env < length types.now.envs }
        requires memo { Remembers types.now self.old }
        ensures itself { OnOk result (AsksAtLeast AsStrongAs (env_of_id types.now env) (env_of_id types.now env)) }
        ensures memo { Remembers types.now self.new }
    {
        let sets = types.sets(env);
        for set in sets {
            self.see_set(types, *set)?;
        }
        Ok(())
    }

    /// The kinds of the types that the environment asks for. They are formed once, when it is seen that these
    /// types are as strong as themselves.
    pub(crate) fn kinds(&mut self, types: &Interner, env: EnvId) -> Result<u64, OutOfMemory>
        requires env { env < length types.now.envs }
        requires memo { Remembers types.now self.old }
        ensures ok { IfOk result (HasKinds (env_of_id types.now env)) }
        ensures itself { OnOk result (AsksAtLeast AsStrongAs (env_of_id types.now env) (env_of_id types.now env)) }
        ensures memo { Remembers types.now self.new }
    {
        if let Some(kinds) = self.find_kinds(env) {
            return Ok(kinds);
        }
        self.see_env(types, env)?;
        let kinds = kinds_of(types, env);
        self.keep_kinds(env, kinds)?;
        Ok(kinds)
    }

    /// Whether the environment may ask at least what the other asks: not where the other asks for a type of
    /// a kind of which this one asks for none.
    pub(crate) fn may_ask_at_least(
        &mut self,
        types: &Interner,
        env: EnvId,
        other: EnvId,
    ) -> Result<bool, OutOfMemory>
        requires env { env < length types.now.envs }
        requires other { other < length types.now.envs }
        requires memo { Remembers types.now self.old }
        ensures ok { IfOk result (λ may. AsksAtLeast AsStrongAs (env_of_id types.now env)
            (env_of_id types.now other) → IsTrue may) }
        ensures memo { Remembers types.now self.new }
    {
        let own = self.kinds(types, env)?;
        let asked = self.kinds(types, other)?;
        Ok(asked & own == asked)
    }
}
