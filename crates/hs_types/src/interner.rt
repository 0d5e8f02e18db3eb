//! The interner.
#![tactic(auto, using(crate::proofs::UnionLemmas::unions_grow))]

ghost use Rattle.std.specs.Prelude.{◌≡◌, ◌<◌, ◌∷◌, [], IfOk, IfSome, All, Some, length, map, replicate, slice_get, slice_set, Contains, IsTrue, ◌↔◌};
ghost use Rattle.hs_table.specs.Types.{TypeTree, state, arrow, type_cmp};
ghost use Rattle.hs_table.specs.Entries.{set_at};
ghost use Rattle.hs_types.specs.Unions.{IsSetUnion, IsEnvUnion};
ghost use Rattle.hs_types.specs.Interned.{type_of_id, set_of_id, env_of_id, IsRow, entry_of, IsView, IsInterner, Grows, IsSetOf, IsUnion, IsUnionEnv};
ghost use Rattle.hs_types.specs.Translations.{AreFound};

use crate::ids::{EnvId, Row, SetId, TyId, View};
use crate::latest::Latest;
use crate::nodes::Nodes;
use crate::translations::ImportedNumbers;
use crate::unions::Unions;
use hs_scheme::OutOfMemory;
use hs_table::Entry;
use smallvec::SmallVec;
use std::alloc::Global;
use std::cmp::Ordering;
use std::marker::Model;

/// Types, sets of types and environments, each with one number.
///
/// Contracts see the three lists of what has numbers. Every call that takes `&mut self` lets the
/// lists only grow at their ends, also where it answers want of memory.
///
/// A type takes some 40 bytes, a set or an environment some 80, and 4 for each of its items. Beside
/// these the latest unions are kept, at most 65,536 of sets and as many of environments, in
/// 1 MiB each, 4 bytes for each number of an interner that was imported from, and 64 KiB at most for
/// each of four kinds of guesses. There are at most 2^32 numbers of each kind; past that a call
/// answers want of memory.
#[derive(Drop)]
pub struct Interner {
    alloc: Global,
    nodes: Nodes,
    set_unions: Unions,
    env_unions: Unions,
    latest: Latest,
    /// What one row is imported with, kept so that the next one takes no memory anew.
    imported: ImportedNumbers,
}

impl Model for Interner {
    ghost use Rattle.hs_types.specs.Interned.{InternerData, coded_interner};
    ghost use Rattle.hs_types.specs.Unions.{AreUnions};

    ghost Value = { InternerData };

    ghost coded = { coded_interner };

    ghost view = { λ a. a.nodes };

    ghost invariant = { λ a. AreUnions a.nodes a.set_unions.known.items a.env_unions.known.items };
}

impl Interner {
    /// An interner in which nothing has a number. Takes no memory.
    pub fn new(alloc: Global) -> Interner
        ensures { result ≡ record { types = []; sets = []; envs = [] } }
    {
        Interner {
            alloc,
            nodes: Nodes::new(alloc),
            set_unions: Unions::new(alloc),
            env_unions: Unions::new(alloc),
            latest: Latest::new(alloc),
            imported: ImportedNumbers::new(alloc),
        }
    }

    /// Two numbers are equal exactly where they stand for one thing, and all sets are in order. A
    /// law; does nothing.
    pub fn know_numbers(&self)
        ensures { IsInterner self.now }
    {
        self.nodes.know_numbers();
    }

    /// The type that is this state, counted from 0. Constant time on average. Nothing is hashed where
    /// the guess by the state is right, which was kept when the type was asked for last.
    pub fn base(&mut self, q: u32) -> Result<TyId, OutOfMemory>
        ensures ok { IfOk result (λ id. slice_get self.new.types id ≡ Some (state q)) }
        ensures grows { Grows self.old self.new }
    {
        self.nodes.base(&mut self.latest.states, q)
    }

    /// The type with this set and this result. Constant time on average.
    pub fn arrow(&mut self, set: SetId, rest: TyId) -> Result<TyId, OutOfMemory>
        requires set { set < length self.old.sets }
        requires rest { rest < length self.old.types }
        ensures ok { IfOk result (λ id. slice_get self.new.types id
            ≡ Some (arrow (set_of_id self.old set) (type_of_id self.old rest))) }
        ensures grows { Grows self.old self.new }
    {
        self.nodes.add_type(View::Arrow(set, rest))
    }

    /// The set of these types, which may come in any order and more than once. Compares about as
    /// often as a merge sort, and once for each type where they ascend.
    pub fn set(&mut self, ids: &[TyId]) -> Result<SetId, OutOfMemory>
        requires { All (λ t. t < length self.old.types) ids.now }
        ensures ok { IfOk result (λ id. (id < length self.new.sets)
            × IsSetOf (map (type_of_id self.old) ids.now) (set_of_id self.new id)) }
        ensures grows { Grows self.old self.new }
    {
        self.nodes.set(self.alloc, &mut self.latest.sets, ids)
    }

    /// The environment with these sets. Time in proportion to their number, on average.
    pub fn env(&mut self, sets: &[SetId]) -> Result<EnvId, OutOfMemory>
        requires { All (λ s. s < length self.old.sets) sets.now }
        ensures ok { IfOk result (λ id. slice_get self.new.envs id ≡ Some
            (map (set_of_id self.old) sets.now)) }
        ensures grows { Grows self.old self.new }
    {
        self.nodes.add_env(sets)
    }

    /// The environment of n empty sets. Time in proportion to n. Nothing is hashed where it was asked
    /// for before.
    pub fn empty_env(&mut self, n: usize) -> Result<EnvId, OutOfMemory>
        ensures ok { IfOk result (λ id. slice_get self.new.envs id ≡ Some (replicate n [])) }
        ensures grows { Grows self.old self.new }
    {
        self.nodes
            .empty_env(self.alloc, &mut self.latest.empty_envs, n)
    }

    /// The environment of n sets, of which the one at x, counted from 0, has this type alone, and the
    /// others are empty.
    pub fn single_env(&mut self, n: usize, x: u32, ty: TyId) -> Result<EnvId, OutOfMemory>
        requires x { x < n }
        requires ty { ty < length self.old.types }
        ensures ok { IfOk result (λ id. slice_get self.new.envs id
            ≡ Some (slice_set (replicate n []) x (type_of_id self.old ty ∷ []))) }
        ensures grows { Grows self.old self.new }
    {
        self.nodes
            .single_env(self.alloc, &mut self.latest, n, x as usize, ty)
    }

    /// The row that stands here for the entry that `row` stands for in the other interner. Walks each of its
    /// types and sets once.
    pub fn import(&mut self, from: &Interner, row: Row) -> Result<Row, OutOfMemory>
        requires { IsRow from.now row }
        ensures row { IfOk result (λ r. IsRow self.new r) }
        ensures entry { IfOk result (λ r. entry_of self.new r ≡ entry_of from.now row) }
        ensures grows { Grows self.old self.new }
    {
        self.imported.clear();
        self.nodes
            .import_row(self.alloc, &mut self.imported, &from.nodes, row)
    }

    /// The same, where `found` tells what was imported from there: walks only what isn't told of, and tells
    /// of it then.
    pub fn import_with(
        &mut self,
        found: &mut ImportedNumbers,
        from: &Interner,
        row: Row,
    ) -> Result<Row, OutOfMemory>
        requires row { IsRow from.now row }
        requires found { AreFound from.now self.old found.old }
        ensures row { IfOk result (λ r. IsRow self.new r) }
        ensures entry { IfOk result (λ r. entry_of self.new r ≡ entry_of from.now row) }
        ensures found { AreFound from.now self.new found.new }
        ensures grows { Grows self.old self.new }
    {
        self.nodes.import_row(self.alloc, found, &from.nodes, row)
    }

    /// The rows that stand here for the entries that these rows of the other interner stand for. Walks
    /// each type, set and environment that isn't in `found` once, and then finds it by its number.
    pub fn import_rows(
        &mut self,
        found: &mut ImportedNumbers,
        from: &Interner,
        rows: &[Row],
    ) -> Result<Vec<Row>, OutOfMemory>
        requires rows { All (IsRow from.now) rows.now }
        requires found { AreFound from.now self.old found.old }
        ensures rows { IfOk result (λ own. All (IsRow self.new) own.items) }
        ensures entries { IfOk result (λ own. map (entry_of self.new) own.items ≡ map
            (entry_of from.now) rows.now) }
        ensures found { AreFound from.now self.new found.new }
        ensures grows { Grows self.old self.new }
    {
        self.nodes.import_rows(self.alloc, found, &from.nodes, rows)
    }

    /// What the type is. Constant time, and takes no memory.
    pub fn view(&self, id: TyId) -> View
        requires { id < length self.now.types }
        ensures { IsView self.now id result }
    {
        self.nodes.view(id)
    }

    /// The types of the set, in their order. Constant time, and takes no memory.
    pub fn members(&self, id: SetId) -> &[TyId]
        requires { id < length self.now.sets }
        ensures members { map (type_of_id self.now) result.now ≡ set_of_id self.now id }
        ensures range { All (λ t. t < length self.now.types) result.now }
    {
        self.nodes.members(id)
    }

    /// The sets of the environment, by parameter. Constant time, and takes no memory.
    pub fn sets(&self, id: EnvId) -> &[SetId]
        requires { id < length self.now.envs }
        ensures sets { map (set_of_id self.now) result.now ≡ env_of_id self.now id }
        ensures range { All (λ s. s < length self.now.sets) result.now }
    {
        self.nodes.sets(id)
    }

    /// The order of types, whichever came first. Walks types only where their numbers differ, and
    /// takes no memory.
    pub fn compare(&self, a: TyId, b: TyId) -> Ordering
        requires a { a < length self.now.types }
        requires b { b < length self.now.types }
        ensures { result ≡ type_cmp (type_of_id self.now a) (type_of_id self.now b) }
    {
        self.nodes.compare(a, b)
    }

    /// Whether the set has the type. Compares about as often as the binary logarithm of the set's
    /// size, and takes no memory.
    pub fn contains(&self, set: SetId, ty: TyId) -> bool
        requires set { set < length self.now.sets }
        requires ty { ty < length self.now.types }
        ensures { IsTrue result ↔ Contains (set_of_id self.now set) (type_of_id self.now ty) }
    {
        self.nodes.contains(set, ty)
    }

    /// The entry that the row stands for, as a tree.
    pub fn tree(&self, alloc: Global, row: Row) -> Result<Entry, OutOfMemory>
        requires { IsRow self.now row }
        ensures { IfOk result (λ e. e ≡ entry_of self.now row) }
    {
        self.nodes.tree(alloc, row)
    }

    /// The union of the two sets, where it is at hand: they are equal, or one is empty, or it is known.
    fn known_union_sets(&self, a: SetId, b: SetId) -> Option<SetId>
        requires a { a < length self.now.sets }
        requires b { b < length self.now.sets }
        ensures { IfSome result (λ id. IsSetUnion self.now a b id) }
    {
        self.nodes.know_numbers();
        if a == b {
            return Some(a);
        }
        if self.nodes.members(b).is_empty() {
            return Some(a);
        }
        if self.nodes.members(a).is_empty() {
            return Some(b);
        }
        let union = self.set_unions.find(a.stored(), b.stored())?;
        Some(SetId::at(union))
    }

    /// The set with the types of both. Constant time on average for equal sets, the empty set, and a
    /// pair that was asked for not too long ago; else time in proportion to the sets.
    pub fn union_sets(&mut self, a: SetId, b: SetId) -> Result<SetId, OutOfMemory>
        requires a { a < length self.old.sets }
        requires b { b < length self.old.sets }
        ensures ok { IfOk result (λ id. (id < length self.new.sets)
            × IsUnion (set_of_id self.old a) (set_of_id self.old b) (set_of_id self.new id)) }
        ensures grows { Grows self.old self.new }
    {
        if let Some(union) = self.known_union_sets(a, b) {
            return Ok(union);
        }
        let union = self.nodes.union_sets(self.alloc, a, b)?;
        self.set_unions
            .keep(a.stored(), b.stored(), union.stored())?;
        Ok(union)
    }

    /// The union of the two environments, where it is at hand: they are equal, or it is known, or the
    /// first has no types.
    fn known_union_envs(&self, a: EnvId, b: EnvId) -> Option<EnvId>
        requires a { a < length self.now.envs }
        requires b { b < length self.now.envs }
        ensures { IfSome result (λ id. IsEnvUnion self.now a b id) }
    {
        self.nodes.know_numbers();
        if a == b {
            return Some(a);
        }
        if let Some(union) = self.env_unions.find(a.stored(), b.stored()) {
            return Some(EnvId::at(union));
        }
        if self.nodes.is_empty_env(a, self.nodes.sets(b).len()) {
            return Some(b);
        }
        None
    }

    /// The union of the two sets at the place, counted from 0.
    fn union_at(&mut self, a: EnvId, b: EnvId, place: usize) -> Result<SetId, OutOfMemory>
        requires a { a < length self.old.envs }
        requires b { b < length self.old.envs }
        requires in_a { place < length (env_of_id self.old a) }
        requires in_b { place < length (env_of_id self.old b) }
        ensures ok { IfOk result (λ id. (id < length self.new.sets)
            × IsUnion (set_at (env_of_id self.old a) place) (set_at (env_of_id self.old b) place)
            (set_of_id self.new id)) }
        ensures grows { Grows self.old self.new }
    {
        let first = self.sets(a)[place];
        let second = self.sets(b)[place];
        self.union_sets(first, second)
    }

    /// The environment with these sets, which is looked for first where a and b are.
    fn env_among(&mut self, a: EnvId, b: EnvId, sets: &[SetId]) -> Result<EnvId, OutOfMemory>
        requires { All (λ s. s < length self.old.sets) sets.now }
        ensures ok { IfOk result (λ id. slice_get self.new.envs id ≡ Some
            (map (set_of_id self.old) sets.now)) }
        ensures grows { Grows self.old self.new }
    {
        self.nodes.env_among(a, b, sets)
    }

    /// The unions of the sets, each made.
    fn join_envs(&mut self, a: EnvId, b: EnvId) -> Result<EnvId, OutOfMemory>
        requires a { a < length self.old.envs }
        requires b { b < length self.old.envs }
        requires long { length (env_of_id self.old a) ≡ length (env_of_id self.old b) }
        ensures ok { IfOk result (λ id. (id < length self.new.envs)
            × IsUnionEnv (env_of_id self.old a) (env_of_id self.old b) (env_of_id self.new id)) }
        ensures grows { Grows self.old self.new }
    {
        let count = self.sets(a).len();
        let mut unions: SmallVec<SetId, 8> = SmallVec::new(self.alloc);
        for place in 0..count {
            unions.push(self.union_at(a, b, place)?)?;
        }
        self.env_among(a, b, unions.as_slice())
    }

    /// The environment whose sets have the types of both, set by set. Constant time on average for
    /// equal environments and a pair that was asked for not too long ago; else a union for each set, or
    /// a look at each where the first environment has no types.
    pub fn union_envs(&mut self, a: EnvId, b: EnvId) -> Result<EnvId, OutOfMemory>
        requires a { a < length self.old.envs }
        requires b { b < length self.old.envs }
        requires long { length (env_of_id self.old a) ≡ length (env_of_id self.old b) }
        ensures ok { IfOk result (λ id. (id < length self.new.envs)
            × IsUnionEnv (env_of_id self.old a) (env_of_id self.old b) (env_of_id self.new id)) }
        ensures grows { Grows self.old self.new }
    {
        if let Some(union) = self.known_union_envs(a, b) {
            return Ok(union);
        }
        let union = self.join_envs(a, b)?;
        self.env_unions
            .keep(a.stored(), b.stored(), union.stored())?;
        Ok(union)
    }
}
