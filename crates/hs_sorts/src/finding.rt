//! The least sorting of a scheme's first rules, where they have one.

ghost use Rattle.std.specs.Prelude.{◌≡◌, ◌+◌, ◌≤◌, ◌<◌, ◌^◌, ℕ, List, Option, length, IfOk};
ghost use Rattle.hs_scheme.specs.declared.term.Rule.{Rule};
ghost use Rattle.hs_scheme.specs.Scheme.{AreRules};
ghost use Rattle.hs_sorts.specs.Nodes.{IsStore, IsFlat};
ghost use Rattle.hs_sorts.specs.Search.{Measuring};
ghost use Rattle.hs_sorts.specs.Reading.{size_at};
ghost use Rattle.hs_sorts.specs.Inference as inference;
ghost use Rattle.hs_sorts.specs.Finding.{IsFinding, IsFirstHigherOrder, IsFirstLarge, TellsLong, IsFirstLong, AreSorts, AreArities};

use crate::measures::Measures;
use crate::reading::read_sort;
use crate::search::measure;
use crate::solve::solve;
use crate::store::Store;
use hs_scheme::{MAX_ARGUMENTS, MAX_PARAMETERS, OutOfMemory, Rule, Sort, Term};
use std::alloc::Global;

/// The greatest size that a nonterminal's sort may have.
pub(crate) const MAX_SORT_SIZE: u16 = 1_000;

/// The nodes of a scheme's first rules, with the measures of their sorts.
#[derive(Drop)]
pub(crate) struct MeasuredNodes {
    pub(crate) store: Store,
    pub(crate) measures: Measures,
}

/// The least sorting of the first `count` rules, as nodes, or `None` where they have no sorting.
/// Time is almost linear in the number of nodes, and memory linear.
pub(crate) fn find(
    alloc: Global,
    rules: &[Rule],
    ranks: &[Option<u32>],
    count: usize,
) -> Result<Option<MeasuredNodes>, OutOfMemory>
    requires rules { AreRules rules.now (length ranks.now) }
    requires count { count ≤ length rules.now }
    ensures { IfOk result (λ found. IsFinding rules.now ranks.now count found) }
{
    let Some(store) = solve(alloc, rules, ranks, count)? else {
        return Ok(None);
    };
    let Some(measures) = measure(alloc, &store)? else {
        return Ok(None);
    };
    Ok(Some(MeasuredNodes { store, measures }))
}

/// The first of `count` nodes from `start` on whose sort has an argument other than `o`.
pub(crate) fn first_higher_order(measures: &Measures, start: u32, count: u32) -> Option<u32>
    requires { start + count ≤ length measures.now }
    ensures { IsFirstHigherOrder measures.now start count result }
{
    for terminal in 0..count {
        let measure = measures.at(start as usize + terminal as usize);
        if !measure.first_order {
            return Some(terminal);
        }
    }
    None
}

/// The first of the first `count` nodes whose sort is larger than a nonterminal's sort may be.
pub(crate) fn first_large(measures: &Measures, count: u32) -> Option<u32>
    requires { count ≤ length measures.now }
    ensures { IsFirstLarge measures.now 0 count result }
{
    for rule in 0..count {
        let measure = measures.at(rule as usize);
        if measure.size > MAX_SORT_SIZE {
            return Some(rule);
        }
    }
    None
}

/// The number of arguments at the term's head.
fn head_arguments(term: &Term) -> usize
    ensures { result ≡ inference.head_arguments term.now }
{
    term.args.len()
}

/// Whether the rule has fewer parameters than its nonterminal's sort has arguments, and too many, or
/// its body's head too many arguments, once it has the missing ones.
fn is_too_long(rule: &Rule, arity: u32) -> bool
    ensures { TellsLong rule.now arity result }
{
    let missing = arity.saturating_sub(rule.params) as usize;
    let parameters = arity as usize;
    let arguments = head_arguments(&rule.body).saturating_add(missing);
    missing > 0 && (parameters > MAX_PARAMETERS || arguments > MAX_ARGUMENTS)
}

/// The first rule that is too long, where the measures of the nonterminals come first.
pub(crate) fn first_too_long(rules: &[Rule], measures: &Measures) -> Option<u32>
    requires many { length rules.now ≤ length measures.now }
    requires few { length rules.now ≤ 2 ^ 32 }
    ensures { IsFirstLong rules.now measures.now result }
{
    for (number, rule) in rules.iter().enumerate() {
        if is_too_long(rule, measures.at(number).arity) {
            return Some(number as u32);
        }
    }
    None
}

/// The sorts of the first `count` nodes.
pub(crate) fn read_sorts(
    alloc: Global,
    store: &Store,
    measures: &Measures,
    count: u32,
) -> Result<Vec<Sort>, OutOfMemory>
    requires store { IsStore store.now }
    requires flat { IsFlat store.now }
    requires measures { Measuring store.now measures.now }
    requires count { count ≤ length store.now }
    requires small { (i : ℕ) → i < count → size_at measures.now i ≤ 1000 }
    ensures { IfOk result (λ sorts. AreSorts store.now count sorts.items) }
{
    let mut sorts = Vec::with_capacity(alloc, count as usize)?;
    for node in 0..count {
        sorts.push_reserved(read_sort(alloc, store, measures, node)?);
    }
    Ok(sorts)
}

/// The numbers of arguments of the sorts of `count` nodes from `start` on.
pub(crate) fn arities(
    alloc: Global,
    measures: &Measures,
    start: u32,
    count: usize,
) -> Result<Vec<u32>, OutOfMemory>
    requires { start + count ≤ length measures.now }
    ensures { IfOk result (λ arities. AreArities measures.now start count arities.items) }
{
    let mut arities = Vec::with_capacity(alloc, count)?;
    for place in 0..count {
        arities.push_reserved(measures.at(start as usize + place).arity);
    }
    Ok(arities)
}
