//! Which environments are void.

ghost use Rattle.std.specs.Prelude.{◌≡◌, ◌↔◌, ◌<◌, ◌≤◌, ℕ, List, [], length, slice_get, All, Contains, Some, IfOk, MatchOption, IsTrue};
ghost use Rattle.hs_table.specs.Entries.{Env, EntryData};
ghost use Rattle.hs_weak.specs.Strength.{AsStrongAs, AsksAtLeast};
ghost use Rattle.hs_weak.specs.Void.{VoidData, IsVoid};
ghost use Rattle.hs_types.specs.Interned.{InternerData, env_of_id, Grows};
ghost use Rattle.hs_sites.specs.Listed.{AreSites};
ghost use Rattle.hs_choices.specs.Unions.{AreLeastUnions};
ghost use Rattle.hs_choices.specs.Slots.{AscendAll};
ghost use Rattle.hs_numbered.specs.Certificates.{VoidRowData};
ghost use Rattle.hs_choices.specs.Numbered.{envs_of, slot_envs, AreOfLength, AreNumbered};
ghost use Rattle.hs_void.specs.Voids.{AreRows, Fits, IsVoidBy};
ghost use Rattle.hs_void.specs.Dropped.{more_is_void, fits_stays, void_before};
ghost use Rattle.std.proofs.Common.{refl, ◌∙◌};

use crate::basis::Basis;
use crate::memo::Memo;
use crate::missing::is_missed;
use crate::void_answers::VoidAnswers;
use hs_choices::{Compared, Comparing, Dropping, Slot, least_unions};
use hs_numbered::VoidRow;
use hs_scheme::{OutOfMemory, Problem};
use hs_sites::{Site, Sites};
use hs_types::{EnvId, Row};
use std::alloc::Global;
use std::marker::Model;

/// What is void by the rows of a table and of void pairs, over the sites of a problem, with the masks of
/// sites that were found, and which environments were void.
///
/// Contracts see the problem, the rows, and what is remembered. The numbers are those of one `Compared`,
/// which may grow (`what_fits_stays`). Where a call answers want of memory, what is remembered stays so.
/// At most 67,108,864 marks are kept, of one byte, and 1,048,576 answers, of some 40.
#[derive(Drop)]
pub struct Voids<'a> {
    pub(crate) alloc: Global,
    basis: Basis<'a>,
    memo: Memo,
    answers: VoidAnswers,
}

impl<'a> Model for Voids<'a> {
    ghost use Rattle.hs_void.specs.Voids.{VoidsData, coded_voids};

    ghost Value = { VoidsData };

    ghost coded = { coded_voids };

    ghost view = { λ a. record { basis = a.basis; memo = a.memo; answers = a.answers } };
}

/// What is remembered of: whether the environment is void for the nonterminal of this rule.
fn pair_of(rule: u32, env: EnvId) -> VoidRow
    ensures { result ≡ record { rule = rule; env = env } }
{
    VoidRow { rule, env }
}

/// Whether the environment asks at least what one of the void rows of this rule asks.
fn asks_void(
    types: &mut Compared,
    basis: &Basis,
    rule: u32,
    env: EnvId,
) -> Result<bool, OutOfMemory>
    requires rows { AreRows types.old basis.now }
    requires env { env < length types.old.envs }
    ensures ok { IfOk result (λ asks. IsTrue asks ↔ ((v : VoidRowData) × (Contains basis.now.void v
        × (v.rule ≡ rule) × AsksAtLeast AsStrongAs (env_of_id types.old env)
        (env_of_id types.old v.env)))) }
    ensures same { types.new ≡ types.old }
{
    for row in basis.void_of(rule) {
        if types.asks_at_least(env, row.env)? {
            return Ok(true);
        }
    }
    Ok(false)
}

impl<'a> Voids<'a> {
    /// Nothing is remembered. Memory is for 16 bytes for each rule, and for the void rows once more. Time
    /// is in their numbers, with the logarithm of the latter and of that of all sites.
    pub fn new(
        alloc: Global,
        problem: &'a Problem,
        sites: &'a Sites,
        table: &'a [Row],
        void: &'a [VoidRow],
    ) -> Result<Voids<'a>, OutOfMemory>
        requires { AreSites problem.now sites.now }
        ensures problem { IfOk result (λ voids. voids.basis.problem ≡ problem.now) }
        ensures table { IfOk result (λ voids. voids.basis.table ≡ table.now) }
        ensures void { IfOk result (λ voids. voids.basis.void ≡ void.now) }
        ensures fits { IfOk result (λ voids. (C : List EntryData) (V : List VoidData) (I : InternerData)
            → AreNumbered problem.now C V I table.now void.now → Fits I voids) }
    {
        let basis = Basis::new(alloc, problem, sites, table, void)?;
        Ok(Voids {
            alloc,
            basis,
            memo: Memo::new(alloc),
            answers: VoidAnswers::new(alloc),
        })
    }

    /// The problem.
    pub(crate) fn problem(&self) -> &'a Problem
        ensures { result.now ≡ self.now.basis.problem }
    {
        self.basis.problem()
    }

    /// The rows of the table.
    pub(crate) fn table(&self) -> &'a [Row]
        ensures { result.now ≡ self.now.basis.table }
    {
        self.basis.table()
    }

    /// The rows of the void pairs.
    pub(crate) fn void(&self) -> &'a [VoidRow]
        ensures { result.now ≡ self.now.basis.void }
    {
        self.basis.void()
    }

    /// The sites of the nonterminal of this rule, if there is such a rule.
    pub(crate) fn sites_of(&self, rule: u32) -> Option<&'a [Site]>
        ensures { MatchOption result (length self.now.basis.sites ≤ rule)
            (λ sites. slice_get self.now.basis.sites rule ≡ Some sites.now) }
    {
        self.basis.sites_of(rule)
    }

    /// Whether the environment is void for the nonterminal of this rule: it asks at least what a void row of
    /// the rule asks, or it is missed.
    fn is_void_by_rows(
        &mut self,
        types: &mut Compared,
        rule: u32,
        env: EnvId,
    ) -> Result<bool, OutOfMemory>
        requires env { env < length types.old.envs }
        requires fits { Fits types.old self.old }
        ensures ok { IfOk result (λ void. (C : List EntryData) (V : List VoidData)
            → AreNumbered self.old.basis.problem C V types.old self.old.basis.table self.old.basis.void
            → IsTrue void ↔ IsVoid self.old.basis.problem C V rule (env_of_id types.old env)) }
        ensures same { types.new ≡ types.old }
        ensures fits { Fits types.new self.new }
        ensures basis { self.new.basis ≡ self.old.basis }
    {
        if asks_void(types, &self.basis, rule, env)? {
            return Ok(true);
        }
        is_missed(self.alloc, types, &self.basis, &mut self.memo, rule, env)
    }

    /// Whether the environment is void for the nonterminal of this rule, counted from 0: it asks at least
    /// what a void row of the rule asks, or it is missed.
    ///
    /// That is decided once, and then remembered, as long as the answers don't get too many. It is compared
    /// with each void row of the rule, up to the first that is asked. Then, for each of its types that is
    /// asked about at its parameter for the first time, the rows at the arguments of the nonterminal's sites
    /// are looked at, and else the masks of the types are put together, in time in the number of types times
    /// that of the sites. No chain is listed.
    pub fn is_void(
        &mut self,
        types: &mut Compared,
        rule: u32,
        env: EnvId,
    ) -> Result<bool, OutOfMemory>
        requires env { env < length types.old.envs }
        requires fits { Fits types.old self.old }
        ensures ok { IfOk result (λ void. (C : List EntryData) (V : List VoidData)
            → AreNumbered self.old.basis.problem C V types.old self.old.basis.table self.old.basis.void
            → IsTrue void ↔ IsVoid self.old.basis.problem C V rule (env_of_id types.old env)) }
        ensures same { types.new ≡ types.old }
        ensures fits { Fits types.new self.new }
        ensures basis { self.new.basis ≡ self.old.basis }
    {
        if let Some(void) = self.answers.find(pair_of(rule, env)) {
            return Ok(void);
        }
        let void = self.is_void_by_rows(types, rule, env)?;
        self.answers.keep(pair_of(rule, env), void)?;
        Ok(void)
    }

    /// The least unions of an environment for the parameters of a rule with one of each slot, as
    /// `hs_choices::least_unions` makes them, where void ones are left out. The first isn't asked about
    /// where there are no slots.
    pub fn least_unions(
        &mut self,
        types: &mut Compared,
        rule: u32,
        first: EnvId,
        slots: &[Slot],
    ) -> Result<Vec<EnvId>, OutOfMemory>
        requires fits { Fits types.old self.old }
        requires first { first < length types.old.envs }
        requires slots { All (AreOfLength (length (env_of_id types.old first)) types.old) slots.now }
        ensures range { IfOk result (λ kept. AreOfLength (length (env_of_id types.old first)) types.new
            kept.items) }
        ensures ascend { IfOk result (λ kept. AscendAll (envs_of types.new kept.items)) }
        ensures least { IfOk result (λ kept. (C : List EntryData) (V : List VoidData)
            → AreNumbered self.old.basis.problem C V types.old self.old.basis.table self.old.basis.void
            → AreLeastUnions (length (env_of_id types.old first))
            (IsVoid self.old.basis.problem C V rule) (env_of_id types.old first)
            (slot_envs types.old slots.now) (envs_of types.new kept.items)) }
        ensures grows { Grows types.old types.new }
        ensures fits { Fits types.new self.new }
        ensures basis { self.new.basis ≡ self.old.basis }
    {
        least_unions(self.alloc, types, self, rule, first, slots)
    }
}

impl<'a> Dropping<Compared> for Voids<'a> {
    ghost dropped = { λ v I rule E. IsVoidBy v.basis I rule E };

    ghost fits = { λ v I. Fits I v };

    ghost stays = { λ v w. w.basis ≡ v.basis };

    fn drops(&mut self, types: &mut Compared, rule: u32, env: EnvId) -> Result<bool, OutOfMemory> {
        self.is_void(types, rule, env)
    }

    ghost asks_more = { λ v I rule E B. more_is_void v.basis I rule E B };

    ghost fits_grown = { fits_stays };

    ghost dropped_before = { λ v w I J rule E. void_before v.basis w.basis I J rule E };

    ghost stays_at_first = { λ v. refl };

    ghost stays_on = { λ u v w e f. f ∙ e };
}
