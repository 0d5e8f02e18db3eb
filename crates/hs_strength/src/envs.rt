//! Which environments ask at least what others ask.

ghost use Rattle.std.specs.Prelude.{◌<◌, ◌↔◌, length, IfOk, IsTrue};
ghost use Rattle.hs_table.specs.Entries.{set_at};
ghost use Rattle.hs_weak.specs.Strength.{AsStrongAs, AsksEach, AsksAtLeast};
ghost use Rattle.hs_types.specs.Interned.{set_of_id, env_of_id};
ghost use Rattle.hs_strength.specs.Remembered.{Remembers};

use crate::memo::Strengths;
use hs_scheme::OutOfMemory;
use hs_types::{EnvId, Interner, SetId};

impl Strengths {
    /// Whether the environment's set at a parameter asks at least each type of the other set. A set that
    /// is missing is empty.
    fn asks_at(
        &mut self,
        types: &Interner,
        env: EnvId,
        parameter: usize,
        other: SetId,
    ) -> Result<bool, OutOfMemory>
        requires env { env < length types.now.envs }
        requires other { other < length types.now.sets }
        requires memo { Remembers types.now self.old }
        ensures ok { IfOk result (λ answer. IsTrue answer
            ↔ AsksEach AsStrongAs (set_at (env_of_id types.now env) parameter)
            (set_of_id types.now other)) }
        ensures memo { Remembers types.now self.new }
    {
        match types.sets(env).get(parameter) {
            Some(set) => self.asks_each(types, *set, other),
            None => Ok(types.members(other).is_empty()),
        }
    }

    /// Whether the environment asks at least what the other asks: compares their sets, up to the first that
    /// is refused.
    fn compare_envs(
        &mut self,
        types: &Interner,
        env: EnvId,
        other: EnvId,
    ) -> Result<bool, OutOfMemory>
        requires env { env < length types.now.envs }
        requires other { other < length types.now.envs }
        requires memo { Remembers types.now self.old }
        ensures ok { IfOk result (λ answer. IsTrue answer
            ↔ AsksAtLeast AsStrongAs (env_of_id types.now env) (env_of_id types.now other)) }
        ensures memo { Remembers types.now self.new }
    {
        let sets = types.sets(other);
        for (parameter, set) in sets.iter().enumerate() {
            if !self.asks_at(types, env, parameter, *set)? {
                return Ok(false);
            }
        }
        Ok(true)
    }

    /// Whether an environment asks at least what the other asks, as `hs_weak::asks_at_least` answers for
    /// the trees. Constant time for equal numbers, and where the other asks for a type of a kind, told by its
    /// parameter and last state, of which this one asks for none, once the kinds of both are known. Else a
    /// look-up for each parameter, where the pairs of sets were compared before; ends at the first that is
    /// refused.
    pub fn asks_at_least(
        &mut self,
        types: &Interner,
        env: EnvId,
        other: EnvId,
    ) -> Result<bool, OutOfMemory>
        requires env { env < length types.now.envs }
        requires other { other < length types.now.envs }
        requires memo { Remembers types.now self.old }
        ensures ok { IfOk result (λ answer. IsTrue answer
            ↔ AsksAtLeast AsStrongAs (env_of_id types.now env) (env_of_id types.now other)) }
        ensures memo { Remembers types.now self.new }
    {
        if env == other {
            self.kinds(types, env)?;
            return Ok(true);
        }
        if !self.may_ask_at_least(types, env, other)? {
            return Ok(false);
        }
        self.compare_envs(types, env, other)
    }
}
