//! Sets and environments that are made from others.

ghost use Rattle.std.specs.Prelude.{◌≡◌, ◌<◌, ◌∷◌, [], IfOk, IsTrue, All, Some, length, map, replicate, slice_get, slice_set};
ghost use Rattle.hs_table.specs.Types.{state, IsSet};
ghost use Rattle.hs_types.specs.Interned.{type_of_id, set_of_id, Grows, IsSetOf, IsUnion};

use crate::guesses::{guess, keep};
use crate::ids::{EnvId, SetId, TyId, View};
use crate::latest::{Latest, place_of, place_of_count, place_of_set};
use crate::nodes::Nodes;
use hs_scheme::OutOfMemory;
use smallvec::SmallVec;
use std::alloc::Global;

impl Nodes {
    /// The type that is this state. Looks at the guess first.
    pub(crate) fn base(&mut self, states: &mut Vec<u32>, q: u32) -> Result<TyId, OutOfMemory>
        ensures ok { IfOk result (λ id. slice_get self.new.types id ≡ Some (state q)) }
        ensures grows { Grows self.old self.new }
    {
        self.number_type(states, place_of(q), View::State(q))
    }

    /// The set of these types, which are in order. Looks at the guess by the first of them.
    fn latest_set(&mut self, guesses: &mut Vec<u32>, types: &[TyId]) -> Result<SetId, OutOfMemory>
        requires range { All (λ t. t < length self.old.types) types.now }
        requires ascends { IsSet (map (type_of_id self.old) types.now) }
        ensures ok { IfOk result (λ id. slice_get self.new.sets id ≡ Some
            (map (type_of_id self.old) types.now)) }
        ensures grows { Grows self.old self.new }
    {
        self.number_set(guesses, place_of_set(types), types)
    }

    /// The set of these types.
    pub(crate) fn set(
        &mut self,
        alloc: Global,
        guesses: &mut Vec<u32>,
        ids: &[TyId],
    ) -> Result<SetId, OutOfMemory>
        requires { All (λ t. t < length self.old.types) ids.now }
        ensures ok { IfOk result (λ id. (id < length self.new.sets)
            × IsSetOf (map (type_of_id self.old) ids.now) (set_of_id self.new id)) }
        ensures grows { Grows self.old self.new }
    {
        if ids.len() <= 1 {
            return self.latest_set(guesses, ids);
        }
        if self.ascends(ids) {
            return self.add_set(ids);
        }
        let sorted = self.sorted(alloc, ids)?;
        self.add_set(sorted.as_slice())
    }

    /// The set of these types, which are in order. Looks first whether it is one of the two.
    fn set_among(
        &mut self,
        first: SetId,
        second: SetId,
        types: &[TyId],
    ) -> Result<SetId, OutOfMemory>
        requires range { All (λ t. t < length self.old.types) types.now }
        requires ascends { IsSet (map (type_of_id self.old) types.now) }
        ensures ok { IfOk result (λ id. slice_get self.new.sets id ≡ Some
            (map (type_of_id self.old) types.now)) }
        ensures grows { Grows self.old self.new }
    {
        if let Some(own) = self.guessed_set(first, types) {
            return Ok(own);
        }
        if let Some(own) = self.guessed_set(second, types) {
            return Ok(own);
        }
        self.add_set(types)
    }

    /// The environment of these sets. Looks first whether it is one of the two.
    pub(crate) fn env_among(
        &mut self,
        first: EnvId,
        second: EnvId,
        sets: &[SetId],
    ) -> Result<EnvId, OutOfMemory>
        requires { All (λ s. s < length self.old.sets) sets.now }
        ensures ok { IfOk result (λ id. slice_get self.new.envs id ≡ Some
            (map (set_of_id self.old) sets.now)) }
        ensures grows { Grows self.old self.new }
    {
        if let Some(own) = self.guessed_env(first, sets) {
            return Ok(own);
        }
        if let Some(own) = self.guessed_env(second, sets) {
            return Ok(own);
        }
        self.add_env(sets)
    }

    /// The set with the types of both.
    pub(crate) fn union_sets(
        &mut self,
        alloc: Global,
        a: SetId,
        b: SetId,
    ) -> Result<SetId, OutOfMemory>
        requires a { a < length self.old.sets }
        requires b { b < length self.old.sets }
        ensures ok { IfOk result (λ id. (id < length self.new.sets)
            × IsUnion (set_of_id self.old a) (set_of_id self.old b) (set_of_id self.new id)) }
        ensures grows { Grows self.old self.new }
    {
        self.know_numbers();
        let merged = self.merge(alloc, self.members(a), self.members(b))?;
        self.set_among(a, b, merged.as_slice())
    }

    /// Whether this is the number of the environment of n empty sets.
    pub(crate) fn is_empty_env(&self, id: EnvId, n: usize) -> bool
        ensures { IsTrue result → slice_get self.now.envs id ≡ Some (replicate n []) }
    {
        if id.number() >= self.count_envs() {
            return false;
        }
        let sets = self.sets(id);
        if sets.len() != n {
            return false;
        }
        for set in sets {
            if !self.members(*set).is_empty() {
                return false;
            }
        }
        true
    }

    /// The environment of n empty sets. Looks at the guess first.
    pub(crate) fn empty_env(
        &mut self,
        alloc: Global,
        guesses: &mut Vec<u32>,
        n: usize,
    ) -> Result<EnvId, OutOfMemory>
        ensures ok { IfOk result (λ id. slice_get self.new.envs id ≡ Some (replicate n [])) }
        ensures grows { Grows self.old self.new }
    {
        let place = place_of_count(n);
        let guessed = EnvId::at(guess(guesses.as_slice(), place));
        if self.is_empty_env(guessed, n) {
            return Ok(guessed);
        }
        let empty = self.add_set(&[])?;
        let sets: SmallVec<SetId, 8> = SmallVec::from_elem(alloc, empty, n)?;
        let id = self.add_env(sets.as_slice())?;
        keep(guesses, place, id.stored())?;
        Ok(id)
    }

    /// The environment of n sets of which the one at x has this type alone, and the others are empty.
    pub(crate) fn single_env(
        &mut self,
        alloc: Global,
        latest: &mut Latest,
        n: usize,
        x: usize,
        ty: TyId,
    ) -> Result<EnvId, OutOfMemory>
        requires x { x < n }
        requires ty { ty < length self.old.types }
        ensures ok { IfOk result (λ id. slice_get self.new.envs id
            ≡ Some (slice_set (replicate n []) x (type_of_id self.old ty ∷ []))) }
        ensures grows { Grows self.old self.new }
    {
        let single = self.latest_set(&mut latest.sets, &[ty])?;
        let empty = self.latest_set(&mut latest.sets, &[])?;
        let mut sets: SmallVec<SetId, 8> = SmallVec::from_elem(alloc, empty, n)?;
        sets[x] = single;
        self.number_env(
            &mut latest.single_envs,
            place_of(ty.stored()),
            sets.as_slice(),
        )
    }
}
