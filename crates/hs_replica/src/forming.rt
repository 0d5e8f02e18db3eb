//! Types and environments that are formed in the replica's interner.

ghost use Rattle.std.specs.Prelude.{◌≡◌, ◌<◌, ◌∷◌, [], All, IfOk, IfSome, Some, length, map, replicate, slice_get, slice_set};
ghost use Rattle.hs_table.specs.Types.{state, arrow};
ghost use Rattle.hs_types.specs.Interned.{type_of_id, set_of_id, env_of_id, IsSetOf, IsUnionEnv};
ghost use Rattle.hs_replica.specs.Masks.{IsMask, IsUnionMask};
ghost use Rattle.hs_replica.specs.Replica.{KeepsLog};

use crate::replica::Replica;
use hs_scheme::OutOfMemory;
use hs_types::{EnvId, SetId, TyId};

impl Replica {
    /// The type that is this state.
    pub fn base(&mut self, q: u32) -> Result<TyId, OutOfMemory>
        ensures ok { IfOk result (λ id. slice_get self.new.ids.types id ≡ Some (state q)) }
        ensures kept { KeepsLog self.old self.new }
    {
        self.interner.base(q)
    }

    /// The type that asks for an argument rejected by each type of the set, and then is the other.
    pub fn arrow(&mut self, set: SetId, rest: TyId) -> Result<TyId, OutOfMemory>
        requires set { set < length self.old.ids.sets }
        requires rest { rest < length self.old.ids.types }
        ensures ok { IfOk result (λ id. slice_get self.new.ids.types id ≡ Some
            (arrow (set_of_id self.old.ids set) (type_of_id self.old.ids rest))) }
        ensures kept { KeepsLog self.old self.new }
    {
        self.interner.arrow(set, rest)
    }

    /// The set of these types.
    pub fn set(&mut self, ids: &[TyId]) -> Result<SetId, OutOfMemory>
        requires { All (λ t. t < length self.old.ids.types) ids.now }
        ensures ok { IfOk result (λ id. (id < length self.new.ids.sets)
            × IsSetOf (map (type_of_id self.old.ids) ids.now) (set_of_id self.new.ids id)) }
        ensures kept { KeepsLog self.old self.new }
    {
        self.interner.set(ids)
    }

    /// The environment with these sets.
    pub fn env(&mut self, sets: &[SetId]) -> Result<EnvId, OutOfMemory>
        requires { All (λ s. s < length self.old.ids.sets) sets.now }
        ensures ok { IfOk result (λ id. slice_get self.new.ids.envs id ≡ Some
            (map (set_of_id self.old.ids) sets.now)) }
        ensures kept { KeepsLog self.old self.new }
    {
        self.interner.env(sets)
    }

    /// The environment whose sets have the types of both.
    pub fn union_envs(&mut self, a: EnvId, b: EnvId) -> Result<EnvId, OutOfMemory>
        requires a { a < length self.old.ids.envs }
        requires b { b < length self.old.ids.envs }
        requires long { length (env_of_id self.old.ids a) ≡ length (env_of_id self.old.ids b) }
        ensures ok { IfOk result (λ id. (id < length self.new.ids.envs)
            × IsUnionEnv (env_of_id self.old.ids a) (env_of_id self.old.ids b) (env_of_id self.new.ids id)) }
        ensures kept { KeepsLog self.old self.new }
    {
        self.interner.union_envs(a, b)
    }

    /// The mask of the environment, where it has one. Constant time where it was asked for before, and else a
    /// step for each type that it asks for.
    pub fn mask_of(&mut self, env: EnvId) -> Result<Option<u128>, OutOfMemory>
        requires { env < length self.old.ids.envs }
        ensures mask { IfOk result (λ found. IfSome found
            (IsMask self.old.ids (length (env_of_id self.old.ids env)) (env_of_id self.old.ids env))) }
        ensures kept { self.new ≡ self.old }
    {
        self.interner.mask_of(env)
    }

    /// The union of the two environments, which has this mask. Constant time on average where an environment
    /// with this mask was met in a call of this kind.
    pub fn union_with_mask(&mut self, a: EnvId, b: EnvId, mask: u128) -> Result<EnvId, OutOfMemory>
        requires a { a < length self.old.ids.envs }
        requires b { b < length self.old.ids.envs }
        requires mask { IsUnionMask self.old.ids (env_of_id self.old.ids a) (env_of_id self.old.ids b) mask }
        ensures ok { IfOk result (λ id. (id < length self.new.ids.envs)
            × IsUnionEnv (env_of_id self.old.ids a) (env_of_id self.old.ids b) (env_of_id self.new.ids id)) }
        ensures kept { KeepsLog self.old self.new }
    {
        self.interner.union_with_mask(a, b, mask)
    }

    /// The environment of n empty sets.
    pub fn empty_env(&mut self, n: usize) -> Result<EnvId, OutOfMemory>
        ensures ok { IfOk result (λ id. slice_get self.new.ids.envs id ≡ Some (replicate n [])) }
        ensures kept { KeepsLog self.old self.new }
    {
        self.interner.empty_env(n)
    }

    /// The environment of n sets of which the one at x has the type alone, and the others are empty.
    pub fn single_env(&mut self, n: usize, x: u32, ty: TyId) -> Result<EnvId, OutOfMemory>
        requires x { x < n }
        requires ty { ty < length self.old.ids.types }
        ensures ok { IfOk result (λ id. slice_get self.new.ids.envs id
            ≡ Some (slice_set (replicate n []) x (type_of_id self.old.ids ty ∷ []))) }
        ensures kept { KeepsLog self.old self.new }
    {
        self.interner.single_env(n, x, ty)
    }
}
