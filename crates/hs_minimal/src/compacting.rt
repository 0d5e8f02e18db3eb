//! The search for a compact table.

ghost use Rattle.std.specs.Prelude.{◌≡◌, ◌≤◌, IfOk, length};
ghost use Rattle.hs_flow.specs.Dependents.{HasDependents};
ghost use Rattle.hs_reads.specs.Own.{AreAllPairs};
ghost use Rattle.hs_minimal.specs.Compact.{IsTable, IsCompactAnswer};
ghost use Rattle.hs_minimal.specs.Growing.{IsGrowing, CoversAll, AreKept, entries};

use crate::answer::Compact;
use crate::covered::has_row;
use crate::growing::Growing;
use crate::settling::fill;
use hs_choices::Compared;
use hs_flow::Dependents;
use hs_reads::Reads;
use hs_scheme::{OutOfMemory, Problem};
use hs_table::Entry;
use hs_types::Interner;
use hs_verdict::know_sorted_problem;
use std::alloc::Global;

/// All entries that were added, in their order.
fn added(types: &Compared, growing: &Growing) -> Result<Vec<Entry>, OutOfMemory>
    requires { IsGrowing types.now growing.now }
    ensures { IfOk result (λ all. all.items ≡ entries types.now growing.now.history) }
{
    let mut all = Vec::with_capacity(growing.alloc, growing.len())?;
    for row in growing.history() {
        all.push_reserved(types.interner().tree(growing.alloc, *row)?);
    }
    Ok(all)
}

/// The entries that are kept, in the order in which they were added.
fn kept(types: &Compared, growing: &Growing) -> Result<Vec<Entry>, OutOfMemory>
    requires { IsGrowing types.now growing.now }
    ensures { IfOk result (λ kept. AreKept types.now growing.now growing.now.history kept.items) }
{
    know_sorted_problem(growing.problem());
    let mut kept = Vec::new(growing.alloc);
    for row in growing.history() {
        if !has_row(growing.alike(types.interner(), row), row) {
            continue;
        }
        kept.push(types.interner().tree(growing.alloc, *row)?)?;
    }
    Ok(kept)
}

/// The entries that are kept, ascending.
fn table(types: &Compared, growing: &Growing) -> Result<Vec<Entry>, OutOfMemory>
    requires growing { IsGrowing types.now growing.now }
    requires settled { CoversAll types.now growing.now }
    requires room { length growing.now.history ≤ growing.now.budget }
    ensures { IfOk result (λ table. IsTable growing.now.problem growing.now.budget table.items) }
{
    know_sorted_problem(growing.problem());
    let mut table = kept(types, growing)?;
    table.sort_by(|a, b| a.compare(b))?;
    Ok(table)
}

/// What the search comes to.
fn answer(
    types: &mut Compared,
    growing: &mut Growing,
    reads: &Reads,
    dependents: &Dependents,
) -> Result<Compact, OutOfMemory>
    requires dependents { HasDependents growing.old.problem.points growing.old.problem.flow.pairs
        dependents.now }
    requires growing { IsGrowing types.old growing.old }
    requires reads { AreAllPairs growing.old.problem reads.now }
    ensures { IfOk result (IsCompactAnswer growing.old.problem growing.old.budget) }
{
    fill(types, growing, reads, dependents)?;
    if growing.is_full() {
        Ok(Compact::Over(added(types, growing)?))
    } else {
        Ok(Compact::Table(table(types, growing)?))
    }
}

/// A compact list of the problem's entries, which over a closed flow decides as its least table does
/// (`hs_weak_paths::compact_lists_decide`): it has the start entry exactly where the automaton doesn't
/// accept. The budget is 1 to 1,000,000 entries.
///
/// Entries are added that weakly follow and that none covers, and what they cover goes, until nothing
/// open is left. Where more than the budget were added on the way, those that were are the answer. Two
/// compact lists may differ in entries that cover each other; which one comes isn't claimed.
///
/// An entry is formed for each least union of what may be chosen for the sets of a type of a point's head,
/// whenever a point on which that one depends has got entries, and compared with those that are kept at its
/// point; at a terminal with all its arguments, for each entry at one of them and each state whose
/// transition reads it. Calls recurse as deep as types. The technique is that of antichains, after De Wulf, Doyen,
/// Henzinger and Raskin, "Antichains: a new algorithm for checking universality of finite automata" (CAV
/// 2006).
pub fn compact(alloc: Global, problem: &Problem, budget: u32) -> Result<Compact, OutOfMemory>
    requires least { 1 ≤ budget }
    requires most { budget ≤ 1000000 }
    ensures { IfOk result (IsCompactAnswer problem.now budget) }
{
    let dependents = Dependents::of(alloc, problem)?;
    let reads = Reads::all(alloc, problem)?;
    let mut growing = Growing::new(alloc, problem, budget)?;
    let mut types = Compared::new(alloc, Interner::new(alloc));
    let answer = answer(&mut types, &mut growing, &reads, &dependents);
    drop(types);
    drop(growing);
    drop(reads);
    drop(dependents);
    answer
}
