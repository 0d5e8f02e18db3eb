//! Types and environments by number, with what was compared of them.

ghost use Rattle.std.specs.Prelude.{◌≡◌, ◌<◌, ◌↔◌, ◌∷◌, [], All, IfOk, IsTrue, Some, length, map, replicate, slice_get, slice_set};
ghost use Rattle.hs_table.specs.Types.{state, arrow};
ghost use Rattle.hs_weak.specs.Strength.{AsStrongAs, Covers};
ghost use Rattle.hs_types.specs.Interned.{type_of_id, set_of_id, Grows, IsSetOf, IsRow, entry_of};
ghost use Rattle.hs_strength.specs.Remembered.{IsCovered};

use crate::comparing::Comparing;
use hs_scheme::OutOfMemory;
use hs_strength::{Strengths, what_is_remembered_stays};
use hs_types::{EnvId, Interner, Row, SetId, TyId};
use std::alloc::Global;
use std::marker::Model;

/// An interner, with what was compared of its types and sets. Contracts see what its numbers stand for.
#[derive(Drop)]
pub struct Compared {
    types: Interner,
    strengths: Strengths,
}

impl Model for Compared {
    ghost use Rattle.hs_types.specs.Interned.{InternerData, coded_interner};
    ghost use Rattle.hs_strength.specs.Remembered.{Remembers};

    ghost Value = { InternerData };

    ghost coded = { coded_interner };

    ghost view = { λ a. a.types };

    ghost invariant = { λ a. Remembers a.types a.strengths };
}

impl Compared {
    /// Of this interner nothing was compared yet. Takes no memory.
    pub fn new(alloc: Global, types: Interner) -> Compared
        ensures { result ≡ types }
    {
        what_is_remembered_stays();
        Compared {
            types,
            strengths: Strengths::new(alloc),
        }
    }

    /// The interner, to read what the numbers stand for.
    pub fn interner(&self) -> &Interner
        ensures { result.now ≡ self.now }
    {
        &self.types
    }

    /// The type that is this state, counted from 0, as `Interner::base` answers.
    pub fn base(&mut self, q: u32) -> Result<TyId, OutOfMemory>
        ensures ok { IfOk result (λ id. slice_get self.new.types id ≡ Some (state q)) }
        ensures grows { Grows self.old self.new }
    {
        what_is_remembered_stays();
        self.types.base(q)
    }

    /// The type with this set and this result, as `Interner::arrow` answers.
    pub fn arrow(&mut self, set: SetId, rest: TyId) -> Result<TyId, OutOfMemory>
        requires set { set < length self.old.sets }
        requires rest { rest < length self.old.types }
        ensures ok { IfOk result (λ id. slice_get self.new.types id
            ≡ Some (arrow (set_of_id self.old set) (type_of_id self.old rest))) }
        ensures grows { Grows self.old self.new }
    {
        what_is_remembered_stays();
        self.types.arrow(set, rest)
    }

    /// The set of these types, in any order and with repeats, as `Interner::set` answers.
    pub fn set(&mut self, ids: &[TyId]) -> Result<SetId, OutOfMemory>
        requires { All (λ t. t < length self.old.types) ids.now }
        ensures ok { IfOk result (λ id. (id < length self.new.sets)
            × IsSetOf (map (type_of_id self.old) ids.now) (set_of_id self.new id)) }
        ensures grows { Grows self.old self.new }
    {
        what_is_remembered_stays();
        self.types.set(ids)
    }

    /// The environment with these sets, as `Interner::env` answers.
    pub fn env(&mut self, sets: &[SetId]) -> Result<EnvId, OutOfMemory>
        requires { All (λ s. s < length self.old.sets) sets.now }
        ensures ok { IfOk result (λ id. slice_get self.new.envs id ≡ Some
            (map (set_of_id self.old) sets.now)) }
        ensures grows { Grows self.old self.new }
    {
        what_is_remembered_stays();
        self.types.env(sets)
    }

    /// The environment of n empty sets, as `Interner::empty_env` answers.
    pub fn empty_env(&mut self, n: usize) -> Result<EnvId, OutOfMemory>
        ensures ok { IfOk result (λ id. slice_get self.new.envs id ≡ Some (replicate n [])) }
        ensures grows { Grows self.old self.new }
    {
        what_is_remembered_stays();
        self.types.empty_env(n)
    }

    /// The environment of n sets, of which the one at x, counted from 0, has this type alone, as
    /// `Interner::single_env` answers.
    pub fn single_env(&mut self, n: usize, x: u32, ty: TyId) -> Result<EnvId, OutOfMemory>
        requires x { x < n }
        requires ty { ty < length self.old.types }
        ensures ok { IfOk result (λ id. slice_get self.new.envs id
            ≡ Some (slice_set (replicate n []) x (type_of_id self.old ty ∷ []))) }
        ensures grows { Grows self.old self.new }
    {
        what_is_remembered_stays();
        self.types.single_env(n, x, ty)
    }

    /// Whether an entry covers another, as `Strengths::covers` answers.
    pub fn covers(&mut self, entry: &Row, other: &Row) -> Result<bool, OutOfMemory>
        requires entry { IsRow self.old entry.now }
        requires other { IsRow self.old other.now }
        ensures ok { IfOk result (λ covers. IsTrue covers
            ↔ Covers AsStrongAs (entry_of self.old entry.now) (entry_of self.old other.now)) }
        ensures same { self.new ≡ self.old }
    {
        self.strengths.covers(&self.types, entry, other)
    }

    /// Whether one of these entries covers the entry, as `Strengths::is_covered` answers. Ends at the first
    /// that does.
    pub fn is_covered(&mut self, entry: &Row, by: &[Row]) -> Result<bool, OutOfMemory>
        requires entry { IsRow self.old entry.now }
        requires by { All (IsRow self.old) by.now }
        ensures ok { IfOk result (λ covered. IsTrue covered ↔ IsCovered self.old entry.now by.now) }
        ensures same { self.new ≡ self.old }
    {
        self.strengths.is_covered(&self.types, entry, by)
    }
}

impl Comparing for Compared {
    ghost known = { λ a. a };

    fn sets_ascend(&self) {
        self.types.know_numbers();
    }

    fn count(&self, set: SetId) -> usize {
        self.types.members(set).len()
    }

    fn member(&self, set: SetId, place: usize) -> TyId {
        self.types.members(set)[place]
    }

    fn union(&mut self, env: EnvId, other: EnvId) -> Result<EnvId, OutOfMemory> {
        what_is_remembered_stays();
        self.types.union_envs(env, other)
    }

    fn asks_at_least(&mut self, env: EnvId, other: EnvId) -> Result<bool, OutOfMemory> {
        self.strengths.asks_at_least(&self.types, env, other)
    }

    fn is_as_strong(&mut self, ty: TyId, other: TyId) -> Result<bool, OutOfMemory> {
        self.strengths.is_as_strong(&self.types, ty, other)
    }
}
