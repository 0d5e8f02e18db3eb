//! Environments that are missed: in each chain some site gives an argument that lacks what is asked of it.
//! Which sites these are is a mask for each parameter and type, which is remembered, and no chain is listed.

ghost use Rattle.std.specs.Prelude.{◌≡◌, ◌↔◌, ◌⊎◌, ◌<◌, ℕ, length, slice_get, Some, IfOk, OnOk, IsTrue};
ghost use Rattle.hs_types.specs.Interned.{type_of_id, set_of_id, env_of_id};
ghost use Rattle.hs_sites.specs.Listed.{AnySite, AreSitesOf, data_of};
ghost use Rattle.hs_sites.specs.Reaching.{IsOn};
ghost use Rattle.hs_sites.specs.Walks.{EachChainHas};
ghost use Rattle.hs_void.specs.Rows.{LacksAt, LacksOne, AreMarks, MissesByRows};
ghost use Rattle.hs_void.specs.Voids.{Remembers, AreSitesBy, AreRows};

use crate::arguments::{add_marks, marks_of};
use crate::basis::Basis;
use crate::memo::{Memo, Question};
use hs_choices::{Compared, Comparing};
use hs_scheme::OutOfMemory;
use hs_sites::{Site, each_chain_has_marked};
use hs_types::{EnvId, SetId, TyId};
use std::alloc::Global;

/// What is asked of the sites of a rule's nonterminal.
fn question_of(rule: u32, parameter: usize, ty: TyId) -> Question
    ensures { result ≡ record { rule = rule; parameter = parameter; ty = ty } }
{
    Question {
        rule,
        parameter,
        ty,
    }
}

/// Marks, too, the sites that lack a row for the parameter and the type. They are all sites of the rule's
/// nonterminal.
fn mark_type(
    alloc: Global,
    types: &mut Compared,
    basis: &Basis,
    memo: &mut Memo,
    rule: u32,
    sites: &[Site],
    parameter: usize,
    ty: TyId,
    marks: &mut Vec<bool>,
) -> Result<(), OutOfMemory>
    requires rows { AreRows types.old basis.now }
    requires memo { Remembers types.old basis.now memo.old }
    requires sites { slice_get basis.now.sites rule ≡ Some sites.now }
    requires of { AreSitesOf basis.now.problem rule sites.now }
    requires ty { ty < length types.old.types }
    requires len { length marks.old.items ≡ length sites.now }
    ensures len { length marks.new.items ≡ length marks.old.items }
    ensures marks { OnOk result ((k : ℕ) (x : AnySite) → slice_get sites.now k ≡ Some x
        → IsOn marks.new.items k ↔ (IsOn marks.old.items k ⊎ LacksAt basis.now.problem types.old
        basis.now.table parameter (type_of_id types.old ty) (data_of x))) }
    ensures memo { Remembers types.old basis.now memo.new }
    ensures same { types.new ≡ types.old }
{
    if let Some(known) = memo.find(question_of(rule, parameter, ty)) {
        add_marks(marks, known);
        return Ok(());
    }
    let problem = basis.problem();
    let table = basis.table();
    let own = marks_of(alloc, types, problem, table, sites, parameter, ty)?;
    add_marks(marks, own.as_slice());
    memo.keep(question_of(rule, parameter, ty), own)
}

/// Marks, too, the sites that lack a row for the parameter and a type of the set.
fn mark_set(
    alloc: Global,
    types: &mut Compared,
    basis: &Basis,
    memo: &mut Memo,
    rule: u32,
    sites: &[Site],
    parameter: usize,
    set: SetId,
    marks: &mut Vec<bool>,
) -> Result<(), OutOfMemory>
    requires rows { AreRows types.old basis.now }
    requires memo { Remembers types.old basis.now memo.old }
    requires sites { slice_get basis.now.sites rule ≡ Some sites.now }
    requires of { AreSitesOf basis.now.problem rule sites.now }
    requires set { set < length types.old.sets }
    requires len { length marks.old.items ≡ length sites.now }
    ensures len { length marks.new.items ≡ length marks.old.items }
    ensures marks { OnOk result ((k : ℕ) (x : AnySite) → slice_get sites.now k ≡ Some x
        → IsOn marks.new.items k ↔ (IsOn marks.old.items k ⊎ LacksOne basis.now.problem types.old
        basis.now.table parameter (set_of_id types.old set) (data_of x))) }
    ensures memo { Remembers types.old basis.now memo.new }
    ensures same { types.new ≡ types.old }
{
    let count = types.count(set);
    for place in 0..count {
        let ty = types.member(set, place);
        mark_type(alloc, types, basis, memo, rule, sites, parameter, ty, marks)?;
    }
    Ok(())
}

/// Marks the sites that give an argument without a row that the environment asks for.
fn marks_for(
    alloc: Global,
    types: &mut Compared,
    basis: &Basis,
    memo: &mut Memo,
    rule: u32,
    sites: &[Site],
    env: EnvId,
) -> Result<Vec<bool>, OutOfMemory>
    requires rows { AreRows types.old basis.now }
    requires memo { Remembers types.old basis.now memo.old }
    requires sites { slice_get basis.now.sites rule ≡ Some sites.now }
    requires of { AreSitesOf basis.now.problem rule sites.now }
    requires env { env < length types.old.envs }
    ensures marks { IfOk result (λ marks. AreMarks (MissesByRows basis.now.problem types.old basis.now.table
        (env_of_id types.old env)) sites.now marks.items) }
    ensures memo { Remembers types.old basis.now memo.new }
    ensures same { types.new ≡ types.old }
{
    let mut marks = vec![in alloc; false; sites.len()]?;
    let count = types.interner().sets(env).len();
    for parameter in 0..count {
        let set = types.interner().sets(env)[parameter];
        mark_set(
            alloc, types, basis, memo, rule, sites, parameter, set, &mut marks,
        )?;
    }
    Ok(marks)
}

/// Whether the environment is missed, by the rows. Where there is no such rule none is. Memory is for a
/// mask for each parameter and type that is asked about for the first time, and one more. Time is in their
/// sizes, and in what a walk over the parameters takes.
pub(crate) fn is_missed(
    alloc: Global,
    types: &mut Compared,
    basis: &Basis,
    memo: &mut Memo,
    rule: u32,
    env: EnvId,
) -> Result<bool, OutOfMemory>
    requires rows { AreRows types.old basis.now }
    requires sites { AreSitesBy basis.now.problem basis.now.sites }
    requires memo { Remembers types.old basis.now memo.old }
    requires env { env < length types.old.envs }
    ensures ok { IfOk result (λ missed. IsTrue missed ↔ EachChainHas basis.now.problem rule
        (MissesByRows basis.now.problem types.old basis.now.table (env_of_id types.old env))) }
    ensures memo { Remembers types.old basis.now memo.new }
    ensures same { types.new ≡ types.old }
{
    match basis.sites_of(rule) {
        None => Ok(false),
        Some(sites) => {
            let marks = marks_for(alloc, types, basis, memo, rule, sites, env)?;
            each_chain_has_marked(alloc, basis.problem(), rule, sites, marks.as_slice())
        }
    }
}
