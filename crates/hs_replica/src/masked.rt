//! An interner that knows environments as masks, too.

ghost use Rattle.std.specs.Prelude.{◌≡◌, ◌<◌, ◌∷◌, [], ℕ, All, IfOk, IfSome, OnOk, Some, length, map, replicate, slice_get, slice_set};
ghost use Rattle.hs_table.specs.Types.{state, arrow};
ghost use Rattle.hs_types.specs.Interned.{type_of_id, set_of_id, env_of_id, IsRow, entry_of, IsInterner, Grows, IsSetOf, IsUnionEnv};
ghost use Rattle.hs_types.specs.Translations.{AreFound};
ghost use Rattle.hs_replica.specs.Masks.{IsMask, IsUnionMask};

use crate::masks::{MaskKey, formed};
use hs_scheme::OutOfMemory;
use hs_types::{EnvId, ImportedNumbers, Interner, Row, SetId, TyId};
use indexmap::IndexMap;
use std::alloc::Global;
use std::marker::Model;

/// Where no mask stands.
const NOWHERE: u32 = u32::MAX;

/// Keeps where the environment stands among those with masks. Nothing rests on it: what stands there is
/// looked at before it is taken to be that one.
fn keep_place(places: &mut Vec<u32>, env: EnvId, place: usize) -> Result<(), OutOfMemory> {
    let number = env.number();
    if places.len() <= number {
        places.resize(number + 1, NOWHERE)?;
    }
    places[number] = if place < NOWHERE as usize {
        place as u32
    } else {
        NOWHERE
    };
    Ok(())
}

/// An interner that remembers which environment has which mask, where that was asked for. An environment has
/// a mask where its types have small numbers: below 128 by the number of parameters. So two such
/// environments are united by a look-up.
///
/// Contracts see the interner. An environment whose mask was asked for takes some 60 bytes.
#[derive(Drop)]
pub(crate) struct MaskedInterner {
    interner: Interner,
    envs: IndexMap<MaskKey, EnvId>,
    /// By the number of an environment, where it stands in `envs`, once its mask was formed.
    places: Vec<u32>,
}

impl Model for MaskedInterner {
    ghost use Rattle.hs_types.specs.Interned.{InternerData, coded_interner};
    ghost use Rattle.hs_replica.specs.Masks.{AreMasks};

    ghost Value = { InternerData };

    ghost coded = { coded_interner };

    ghost view = { λ a. a.interner };

    ghost invariant = { λ a. AreMasks a.interner a.envs.entries };
}

impl MaskedInterner {
    /// Nothing has a number. Takes no memory.
    pub(crate) fn new(alloc: Global) -> MaskedInterner
        ensures { result ≡ record { types = []; sets = []; envs = [] } }
    {
        MaskedInterner {
            interner: Interner::new(alloc),
            envs: IndexMap::new(alloc),
            places: Vec::new(alloc),
        }
    }

    /// The interner itself.
    pub(crate) fn interner(&self) -> &Interner
        ensures { result.now ≡ self.now }
    {
        &self.interner
    }

    /// The interner itself. What was remembered is dropped.
    pub(crate) fn into_interner(self) -> Interner
        ensures { result ≡ self }
    {
        self.interner
    }

    /// A law; does nothing.
    pub(crate) fn know_numbers(&self)
        ensures { IsInterner self.now }
    {
        self.interner.know_numbers();
    }

    /// The type that is this state.
    pub(crate) fn base(&mut self, q: u32) -> Result<TyId, OutOfMemory>
        ensures ok { IfOk result (λ id. slice_get self.new.types id ≡ Some (state q)) }
        ensures grows { Grows self.old self.new }
    {
        self.interner.base(q)
    }

    /// The type with this set and this result.
    pub(crate) fn arrow(&mut self, set: SetId, rest: TyId) -> Result<TyId, OutOfMemory>
        requires set { set < length self.old.sets }
        requires rest { rest < length self.old.types }
        ensures ok { IfOk result (λ id. slice_get self.new.types id
            ≡ Some (arrow (set_of_id self.old set) (type_of_id self.old rest))) }
        ensures grows { Grows self.old self.new }
    {
        self.interner.arrow(set, rest)
    }

    /// The set of these types.
    pub(crate) fn set(&mut self, ids: &[TyId]) -> Result<SetId, OutOfMemory>
        requires { All (λ t. t < length self.old.types) ids.now }
        ensures ok { IfOk result (λ id. (id < length self.new.sets)
            × IsSetOf (map (type_of_id self.old) ids.now) (set_of_id self.new id)) }
        ensures grows { Grows self.old self.new }
    {
        self.interner.set(ids)
    }

    /// The environment with these sets.
    pub(crate) fn env(&mut self, sets: &[SetId]) -> Result<EnvId, OutOfMemory>
        requires { All (λ s. s < length self.old.sets) sets.now }
        ensures ok { IfOk result (λ id. slice_get self.new.envs id ≡ Some
            (map (set_of_id self.old) sets.now)) }
        ensures grows { Grows self.old self.new }
    {
        self.interner.env(sets)
    }

    /// The environment of n empty sets.
    pub(crate) fn empty_env(&mut self, n: usize) -> Result<EnvId, OutOfMemory>
        ensures ok { IfOk result (λ id. slice_get self.new.envs id ≡ Some (replicate n [])) }
        ensures grows { Grows self.old self.new }
    {
        self.interner.empty_env(n)
    }

    /// The environment of n sets of which the one at x has the type alone, and the others are empty.
    pub(crate) fn single_env(&mut self, n: usize, x: u32, ty: TyId) -> Result<EnvId, OutOfMemory>
        requires x { x < n }
        requires ty { ty < length self.old.types }
        ensures ok { IfOk result (λ id. slice_get self.new.envs id
            ≡ Some (slice_set (replicate n []) x (type_of_id self.old ty ∷ []))) }
        ensures grows { Grows self.old self.new }
    {
        self.interner.single_env(n, x, ty)
    }

    /// The row that stands here for the entry that `row` stands for in the other interner.
    pub(crate) fn import(&mut self, from: &Interner, row: Row) -> Result<Row, OutOfMemory>
        requires { IsRow from.now row }
        ensures row { IfOk result (λ r. IsRow self.new r) }
        ensures entry { IfOk result (λ r. entry_of self.new r ≡ entry_of from.now row) }
        ensures grows { Grows self.old self.new }
    {
        self.interner.import(from, row)
    }

    /// The same, where `found` tells what was imported from there.
    pub(crate) fn import_with(
        &mut self,
        found: &mut ImportedNumbers,
        from: &Interner,
        row: Row,
    ) -> Result<Row, OutOfMemory>
        requires row { IsRow from.now row }
        requires found { AreFound from.now self.old found.old }
        ensures row { IfOk result (λ r. IsRow self.new r) }
        ensures entry { IfOk result (λ r. entry_of self.new r ≡ entry_of from.now row) }
        ensures found { AreFound from.now self.new found.new }
        ensures grows { Grows self.old self.new }
    {
        self.interner.import_with(found, from, row)
    }

    /// The rows that stand here for the entries that these rows of the other interner stand for.
    pub(crate) fn import_rows(
        &mut self,
        found: &mut ImportedNumbers,
        from: &Interner,
        rows: &[Row],
    ) -> Result<Vec<Row>, OutOfMemory>
        requires rows { All (IsRow from.now) rows.now }
        requires found { AreFound from.now self.old found.old }
        ensures rows { IfOk result (λ own. All (IsRow self.new) own.items) }
        ensures entries { IfOk result (λ own. map (entry_of self.new) own.items ≡ map
            (entry_of from.now) rows.now) }
        ensures found { AreFound from.now self.new found.new }
        ensures grows { Grows self.old self.new }
    {
        self.interner.import_rows(found, from, rows)
    }

    /// The mask of the environment, where it is remembered.
    fn find_mask(&self, env: EnvId) -> Option<u128>
        ensures { IfSome result (λ mask. (env < length self.now.envs)
            × IsMask self.now (length (env_of_id self.now env)) (env_of_id self.now env) mask) }
    {
        let place = self.places.get(env.number())?;
        let (key, owner) = self.envs.get_index(*place as usize)?;
        if *owner == env { Some(key.mask) } else { None }
    }

    /// The environment of so many sets with this mask, where it is remembered.
    fn find_env(&self, count: usize, mask: u128) -> Option<EnvId>
        ensures { IfSome result (λ env. (env < length self.now.envs)
            × IsMask self.now count (env_of_id self.now env) mask) }
    {
        let env = self.envs.get(&MaskKey { mask, count })?;
        Some(*env)
    }

    /// Remembers that the mask is that of the environment of so many sets.
    fn remember(&mut self, env: EnvId, count: usize, mask: u128) -> Result<(), OutOfMemory>
        requires env { env < length self.old.envs }
        requires mask { IsMask self.old count (env_of_id self.old env) mask }
        ensures { self.new ≡ self.old }
    {
        let (place, _) = self.envs.insert_full(MaskKey { mask, count }, env)?;
        keep_place(&mut self.places, env, place)
    }

    /// Forms the mask of the environment, where it has one, and remembers it.
    fn form_mask(&mut self, env: EnvId) -> Result<Option<u128>, OutOfMemory>
        requires { env < length self.old.envs }
        ensures mask { IfOk result (λ found. IfSome found
            (IsMask self.old (length (env_of_id self.old env)) (env_of_id self.old env))) }
        ensures kept { self.new ≡ self.old }
    {
        let Some(mask) = formed(&self.interner, env) else {
            return Ok(None);
        };
        let count = self.interner.sets(env).len();
        self.remember(env, count, mask)?;
        Ok(Some(mask))
    }

    /// The mask of the environment, where it has one. Constant time where it was asked for before.
    pub(crate) fn mask_of(&mut self, env: EnvId) -> Result<Option<u128>, OutOfMemory>
        requires { env < length self.old.envs }
        ensures mask { IfOk result (λ found. IfSome found
            (IsMask self.old (length (env_of_id self.old env)) (env_of_id self.old env))) }
        ensures kept { self.new ≡ self.old }
    {
        if let Some(mask) = self.find_mask(env) {
            return Ok(Some(mask));
        }
        self.form_mask(env)
    }

    /// Makes the union of the two environments, which has this mask, and remembers it.
    fn make_union(&mut self, a: EnvId, b: EnvId, mask: u128) -> Result<EnvId, OutOfMemory>
        requires a { a < length self.old.envs }
        requires b { b < length self.old.envs }
        requires mask { IsUnionMask self.old (env_of_id self.old a) (env_of_id self.old b) mask }
        ensures ok { IfOk result (λ id. (id < length self.new.envs)
            × IsUnionEnv (env_of_id self.old a) (env_of_id self.old b) (env_of_id self.new id)) }
        ensures grows { Grows self.old self.new }
    {
        let union = self.interner.union_envs(a, b)?;
        let count = self.interner.sets(union).len();
        self.remember(union, count, mask)?;
        Ok(union)
    }

    /// The union of the two environments, which has this mask. Constant time on average where an environment
    /// with this mask was met.
    pub(crate) fn union_with_mask(
        &mut self,
        a: EnvId,
        b: EnvId,
        mask: u128,
    ) -> Result<EnvId, OutOfMemory>
        requires a { a < length self.old.envs }
        requires b { b < length self.old.envs }
        requires mask { IsUnionMask self.old (env_of_id self.old a) (env_of_id self.old b) mask }
        ensures ok { IfOk result (λ id. (id < length self.new.envs)
            × IsUnionEnv (env_of_id self.old a) (env_of_id self.old b) (env_of_id self.new id)) }
        ensures grows { Grows self.old self.new }
    {
        self.interner.know_numbers();
        let count = self.interner.sets(a).len();
        if let Some(union) = self.find_env(count, mask) {
            return Ok(union);
        }
        self.make_union(a, b, mask)
    }

    /// The union of the two environments.
    pub(crate) fn union_envs(&mut self, a: EnvId, b: EnvId) -> Result<EnvId, OutOfMemory>
        requires a { a < length self.old.envs }
        requires b { b < length self.old.envs }
        requires long { length (env_of_id self.old a) ≡ length (env_of_id self.old b) }
        ensures ok { IfOk result (λ id. (id < length self.new.envs)
            × IsUnionEnv (env_of_id self.old a) (env_of_id self.old b) (env_of_id self.new id)) }
        ensures grows { Grows self.old self.new }
    {
        self.interner.union_envs(a, b)
    }
}
