//! A certificate whose types, sets and environments have numbers.

ghost use Rattle.std.specs.Prelude.{◌≡◌, ◌≢◌, ◌↔◌, ◌<◌, ◌≤◌, ◌++◌, ◌∷◌, [], All, IfOk, IfSome, IsTrue, Ok, Some, true, false, length, map, slice_get};
ghost use Rattle.hs_table.specs.Types.{state, arrow};
ghost use Rattle.hs_table.specs.Entries.{EntryData, entry_cmp};
ghost use Rattle.hs_weak.specs.Void.{VoidData, void_cmp};
ghost use Rattle.hs_types.specs.Interned.{type_of_id, set_of_id, env_of_id, IsRow, entry_of, Grows, IsSetOf};
ghost use Rattle.hs_numbered.specs.Trees.{IsSomeEnv, IsSomeEntry};
ghost use Rattle.hs_numbered.specs.Certificates.{IsVoidRow, void_of, IsAboveLast, GivenGrows};

use crate::import::{import_entry, import_env};
use crate::order::{compare_rows, compare_void_rows};
use crate::void_row::VoidRow;
use hs_scheme::OutOfMemory;
use hs_table::Entry;
use hs_types::{EnvId, Interner, Row, SetId, TyId};
use hs_weak::Void;
use std::alloc::Global;
use std::cmp::Ordering;
use std::marker::Model;

/// Entries and void pairs, with the numbers of what they are made of: a certificate of acceptance, or what is
/// said to be one.
///
/// Contracts see what has numbers, the entries and the pairs as trees, and how many of the numbers are `given`:
/// the greatest that was given here, and all below it. Who fills it may be anybody: just a number that isn't
/// given is refused. Where a call answers want of memory, entries and pairs are as before.
///
/// An entry takes 12 bytes and a pair 8; what their types take is said at `Interner`.
#[derive(Drop)]
pub struct NumberedCertificate {
    alloc: Global,
    interner: Interner,
    table: Vec<Row>,
    void: Vec<VoidRow>,
    /// The greatest numbers that were given. What has a lesser one has one, too.
    last_type: Option<TyId>,
    last_set: Option<SetId>,
    last_env: Option<EnvId>,
}

impl Model for NumberedCertificate {
    ghost use Rattle.std.specs.Prelude.{map};
    ghost use Rattle.hs_types.specs.Interned.{entry_of};
    ghost use Rattle.hs_numbered.specs.Certificates.{CertificateData, coded_certificate, AreHeld, void_of, given_of};

    ghost Value = { CertificateData };

    ghost coded = { coded_certificate };

    ghost view = { λ a. record {
      numbers = a.interner;
      table = map (entry_of a.interner) a.table.items;
      void = map (void_of a.interner) a.void.items;
      given = given_of a.last_type a.last_set a.last_env;
    } };

    ghost invariant = { λ a. AreHeld a.interner a.table.items a.void.items a.last_type a.last_set a.last_env };
}

/// A certificate taken apart: an interner, and rows that are read in it.
#[derive(Drop)]
pub struct CertificateParts {
    pub interner: Interner,
    pub table: Vec<Row>,
    pub void: Vec<VoidRow>,
}

impl NumberedCertificate {
    /// No entries and no pairs, and nothing has a number. Takes no memory.
    pub fn new(alloc: Global) -> NumberedCertificate
        ensures { result ≡ record {
          numbers = record { types = []; sets = []; envs = [] };
          table = [];
          void = [];
          given = record { types = 0; sets = 0; envs = 0 };
        } }
    {
        NumberedCertificate {
            alloc,
            interner: Interner::new(alloc),
            table: Vec::new(alloc),
            void: Vec::new(alloc),
            last_type: None,
            last_set: None,
            last_env: None,
        }
    }

    /// Whether the type's number was given here.
    fn has_type(&self, ty: TyId) -> bool
        ensures used { IsTrue result → ty < length self.now.numbers.types }
        ensures given { IsTrue result ↔ ty < self.now.given.types }
    {
        match self.last_type {
            Some(last) => ty.number() <= last.number(),
            None => false,
        }
    }

    /// Whether the set's number was given here.
    fn has_set(&self, set: SetId) -> bool
        ensures used { IsTrue result → set < length self.now.numbers.sets }
        ensures given { IsTrue result ↔ set < self.now.given.sets }
    {
        match self.last_set {
            Some(last) => set.number() <= last.number(),
            None => false,
        }
    }

    /// Whether the environment's number was given here.
    fn has_env(&self, env: EnvId) -> bool
        ensures used { IsTrue result → env < length self.now.numbers.envs }
        ensures given { IsTrue result ↔ env < self.now.given.envs }
    {
        match self.last_env {
            Some(last) => env.number() <= last.number(),
            None => false,
        }
    }

    /// Keeps that the type's number was given.
    fn keep_type(&mut self, ty: TyId)
        requires { ty < length self.old.numbers.types }
        ensures rest { (self.new.numbers ≡ self.old.numbers) × (self.new.table ≡ self.old.table)
            × (self.new.void ≡ self.old.void) }
        ensures given { (ty < self.new.given.types) × GivenGrows self.old.given self.new.given }
    {
        if !self.has_type(ty) {
            self.last_type = Some(ty);
        }
    }

    /// Keeps that the set's number was given.
    fn keep_set(&mut self, set: SetId)
        requires { set < length self.old.numbers.sets }
        ensures rest { (self.new.numbers ≡ self.old.numbers) × (self.new.table ≡ self.old.table)
            × (self.new.void ≡ self.old.void) }
        ensures given { (set < self.new.given.sets) × GivenGrows self.old.given self.new.given }
    {
        if !self.has_set(set) {
            self.last_set = Some(set);
        }
    }

    /// Keeps that the environment's number was given.
    fn keep_env(&mut self, env: EnvId)
        requires { env < length self.old.numbers.envs }
        ensures rest { (self.new.numbers ≡ self.old.numbers) × (self.new.table ≡ self.old.table)
            × (self.new.void ≡ self.old.void) }
        ensures given { (env < self.new.given.envs) × GivenGrows self.old.given self.new.given }
    {
        if !self.has_env(env) {
            self.last_env = Some(env);
        }
    }

    /// The type that is this state, counted from 0, as `Interner::base` answers.
    pub fn base(&mut self, q: u32) -> Result<TyId, OutOfMemory>
        ensures ok { IfOk result (λ id. slice_get self.new.numbers.types id ≡ Some (state q)) }
        ensures given { IfOk result (λ id. id < self.new.given.types) }
        ensures stays { GivenGrows self.old.given self.new.given }
        ensures grows { Grows self.old.numbers self.new.numbers }
        ensures same { (self.new.table ≡ self.old.table) × (self.new.void ≡ self.old.void) }
    {
        let ty = self.interner.base(q)?;
        self.keep_type(ty);
        Ok(ty)
    }

    /// The type with this set and this result, as `Interner::arrow` answers. Nothing where one of these numbers
    /// isn't given.
    pub fn arrow(&mut self, set: SetId, rest: TyId) -> Result<Option<TyId>, OutOfMemory>
        ensures ok { IfOk result (λ made. IfSome made (λ id. slice_get self.new.numbers.types id
            ≡ Some (arrow (set_of_id self.old.numbers set) (type_of_id self.old.numbers rest)))) }
        ensures nothing { result ≡ Ok None → set < self.old.given.sets → rest < self.old.given.types → ⊥ }
        ensures given { IfOk result (λ made. IfSome made (λ id. id < self.new.given.types)) }
        ensures stays { GivenGrows self.old.given self.new.given }
        ensures grows { Grows self.old.numbers self.new.numbers }
        ensures same { (self.new.table ≡ self.old.table) × (self.new.void ≡ self.old.void) }
    {
        if !(self.has_set(set) && self.has_type(rest)) {
            return Ok(None);
        }
        let ty = self.interner.arrow(set, rest)?;
        self.keep_type(ty);
        Ok(Some(ty))
    }

    /// Whether all types' numbers were given here.
    fn has_types(&self, types: &[TyId]) -> bool
        ensures used { IsTrue result → All (λ t. t < length self.now.numbers.types) types.now }
        ensures given { All (λ t. t < self.now.given.types) types.now → IsTrue result }
    {
        for ty in types {
            if !self.has_type(*ty) {
                return false;
            }
        }
        true
    }

    /// Whether all sets' numbers were given here.
    fn has_sets(&self, sets: &[SetId]) -> bool
        ensures used { IsTrue result → All (λ s. s < length self.now.numbers.sets) sets.now }
        ensures given { All (λ s. s < self.now.given.sets) sets.now → IsTrue result }
    {
        for set in sets {
            if !self.has_set(*set) {
                return false;
            }
        }
        true
    }

    /// The set of these types, in any order and with repeats, as `Interner::set` answers. Nothing where one of
    /// their numbers isn't given.
    pub fn set(&mut self, types: &[TyId]) -> Result<Option<SetId>, OutOfMemory>
        ensures ok { IfOk result (λ made. IfSome made (λ id. (id < length self.new.numbers.sets)
            × IsSetOf (map (type_of_id self.old.numbers) types.now) (set_of_id self.new.numbers id))) }
        ensures nothing { result ≡ Ok None → All (λ t. t < self.old.given.types) types.now → ⊥ }
        ensures given { IfOk result (λ made. IfSome made (λ id. id < self.new.given.sets)) }
        ensures stays { GivenGrows self.old.given self.new.given }
        ensures grows { Grows self.old.numbers self.new.numbers }
        ensures same { (self.new.table ≡ self.old.table) × (self.new.void ≡ self.old.void) }
    {
        if !self.has_types(types) {
            return Ok(None);
        }
        let set = self.interner.set(types)?;
        self.keep_set(set);
        Ok(Some(set))
    }

    /// The environment with these sets, as `Interner::env` answers. Nothing where one of their
    /// numbers isn't given.
    pub fn env(&mut self, sets: &[SetId]) -> Result<Option<EnvId>, OutOfMemory>
        ensures ok { IfOk result (λ made. IfSome made (λ id. slice_get self.new.numbers.envs id
            ≡ Some (map (set_of_id self.old.numbers) sets.now))) }
        ensures nothing { result ≡ Ok None → All (λ s. s < self.old.given.sets) sets.now → ⊥ }
        ensures given { IfOk result (λ made. IfSome made (λ id. id < self.new.given.envs)) }
        ensures stays { GivenGrows self.old.given self.new.given }
        ensures grows { Grows self.old.numbers self.new.numbers }
        ensures same { (self.new.table ≡ self.old.table) × (self.new.void ≡ self.old.void) }
    {
        if !self.has_sets(sets) {
            return Ok(None);
        }
        let env = self.interner.env(sets)?;
        self.keep_env(env);
        Ok(Some(env))
    }

    /// Adds the entry with this point, environment and type behind the others. False where one of the two numbers
    /// isn't given; nothing is added then.
    pub fn add_entry(&mut self, point: u32, env: EnvId, ty: TyId) -> Result<bool, OutOfMemory>
        ensures added { result ≡ Ok true → self.new.table ≡ self.old.table
            ++ entry_of self.old.numbers (record { point = point; env = env; ty = ty }) ∷ [] }
        ensures refused { result ≡ Ok false → env < self.old.given.envs → ty < self.old.given.types → ⊥ }
        ensures kept { result ≢ Ok true → self.new.table ≡ self.old.table }
        ensures same { (self.new.numbers ≡ self.old.numbers) × (self.new.void ≡ self.old.void) }
        ensures given { self.new.given ≡ self.old.given }
    {
        if !(self.has_env(env) && self.has_type(ty)) {
            return Ok(false);
        }
        self.table.push(Row { point, env, ty })?;
        Ok(true)
    }

    /// Adds the pair of the nonterminal of this rule and this environment behind the others. False where the
    /// environment's number isn't given; nothing is added then.
    pub fn add_void(&mut self, rule: u32, env: EnvId) -> Result<bool, OutOfMemory>
        ensures added { result ≡ Ok true → self.new.void ≡ self.old.void
            ++ void_of self.old.numbers (record { rule = rule; env = env }) ∷ [] }
        ensures refused { result ≡ Ok false → env < self.old.given.envs → ⊥ }
        ensures kept { result ≢ Ok true → self.new.void ≡ self.old.void }
        ensures same { (self.new.numbers ≡ self.old.numbers) × (self.new.table ≡ self.old.table) }
        ensures given { self.new.given ≡ self.old.given }
    {
        if !self.has_env(env) {
            return Ok(false);
        }
        self.void.push(VoidRow { rule, env })?;
        Ok(true)
    }

    /// Whether the row's entry is greater than the last one.
    fn is_above_last(&self, row: &Row) -> bool
        requires { IsRow self.now.numbers row.now }
        ensures { IsTrue result ↔ IsAboveLast entry_cmp self.now.table (entry_of self.now.numbers row.now) }
    {
        match self.table.as_slice() {
            [] => true,
            [.., last] => compare_rows(&self.interner, last, row) == Ordering::Less,
        }
    }

    /// Whether the row's pair is greater than the last one.
    fn is_above_last_void(&self, row: &VoidRow) -> bool
        requires { IsVoidRow self.now.numbers row.now }
        ensures { IsTrue result ↔ IsAboveLast void_cmp self.now.void (void_of self.now.numbers row.now) }
    {
        match self.void.as_slice() {
            [] => true,
            [.., last] => compare_void_rows(&self.interner, last, row) == Ordering::Less,
        }
    }

    /// Adds the entry, which is in shape for some problem, behind the others, where it is greater than the last
    /// of them; answers whether it is. Time is in the size of its types, on average. Recurses as deep as they are.
    pub fn import_entry(&mut self, entry: &Entry) -> Result<bool, OutOfMemory>
        requires { IsSomeEntry entry.now }
        ensures added { result ≡ Ok true → (self.new.table ≡ self.old.table ++ entry.now ∷ [])
            × IsAboveLast entry_cmp self.old.table entry.now }
        ensures refused { result ≡ Ok false → IsAboveLast entry_cmp self.old.table entry.now → ⊥ }
        ensures kept { result ≢ Ok true → self.new.table ≡ self.old.table }
        ensures grows { Grows self.old.numbers self.new.numbers }
        ensures same { self.new.void ≡ self.old.void }
        ensures given { self.new.given ≡ self.old.given }
    {
        let row = import_entry(self.alloc, &mut self.interner, entry)?;
        if !self.is_above_last(&row) {
            return Ok(false);
        }
        self.table.push(row)?;
        Ok(true)
    }

    /// Adds the pair, whose environment is in shape for some number of states, behind the others, where it is
    /// greater than the last of them; answers whether it is. Time is in the size of its types, on average.
    /// Recurses as deep as they are.
    pub fn import_void(&mut self, pair: &Void) -> Result<bool, OutOfMemory>
        requires { IsSomeEnv pair.now.env }
        ensures added { result ≡ Ok true → (self.new.void ≡ self.old.void ++ pair.now ∷ [])
            × IsAboveLast void_cmp self.old.void pair.now }
        ensures refused { result ≡ Ok false → IsAboveLast void_cmp self.old.void pair.now → ⊥ }
        ensures kept { result ≢ Ok true → self.new.void ≡ self.old.void }
        ensures grows { Grows self.old.numbers self.new.numbers }
        ensures same { self.new.table ≡ self.old.table }
        ensures given { self.new.given ≡ self.old.given }
    {
        let env = import_env(self.alloc, &mut self.interner, pair.env.as_slice())?;
        let row = VoidRow {
            rule: pair.rule,
            env,
        };
        if !self.is_above_last_void(&row) {
            return Ok(false);
        }
        self.void.push(row)?;
        Ok(true)
    }

    /// What the numbers of the rows stand for.
    pub fn interner(&self) -> &Interner
        ensures { result.now ≡ self.now.numbers }
    {
        &self.interner
    }

    /// The rows of the entries, in their order.
    pub fn rows(&self) -> &[Row]
        ensures entries { map (entry_of self.now.numbers) result.now ≡ self.now.table }
        ensures range { All (IsRow self.now.numbers) result.now }
    {
        self.table.as_slice()
    }

    /// The rows of the pairs, in their order.
    pub fn void_rows(&self) -> &[VoidRow]
        ensures pairs { map (void_of self.now.numbers) result.now ≡ self.now.void }
        ensures range { All (IsVoidRow self.now.numbers) result.now }
    {
        self.void.as_slice()
    }

    /// The entry at the place, counted from 0, as a tree.
    pub fn entry(&self, place: usize) -> Result<Entry, OutOfMemory>
        requires { place < length self.now.table }
        ensures { IfOk result (λ e. slice_get self.now.table place ≡ Some e) }
    {
        self.interner.tree(self.alloc, self.table[place])
    }

    /// The pair at the place, counted from 0, as a tree.
    pub fn pair(&mut self, place: usize) -> Result<Void, OutOfMemory>
        requires { place < length self.old.void }
        ensures pair { IfOk result (λ v. slice_get self.old.void place ≡ Some v) }
        ensures grows { Grows self.old.numbers self.new.numbers }
        ensures same { (self.new.table ≡ self.old.table) × (self.new.void ≡ self.old.void) }
        ensures given { self.new.given ≡ self.old.given }
    {
        let row = self.void[place];
        // A tree is made of an entry, which has a type.
        let ty = self.interner.base(0)?;
        let entry = self.interner.tree(
            self.alloc,
            Row {
                point: 0,
                env: row.env,
                ty,
            },
        )?;
        Ok(Void {
            rule: row.rule,
            env: entry.env,
        })
    }

    /// The interner with the rows.
    pub fn into_parts(self) -> CertificateParts
        ensures numbers { result.interner ≡ self.numbers }
        ensures entries { map (entry_of self.numbers) result.table.items ≡ self.table }
        ensures range { All (IsRow self.numbers) result.table.items }
        ensures pairs { map (void_of self.numbers) result.void.items ≡ self.void }
        ensures void_range { All (IsVoidRow self.numbers) result.void.items }
    {
        CertificateParts {
            interner: self.interner,
            table: self.table,
            void: self.void,
        }
    }
}
