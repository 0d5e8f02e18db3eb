//! Sort inference.

ghost use Rattle.std.specs.Prelude.{◌≡◌, ℕ, List, Option, length, IfOk, IfErr};
ghost use Rattle.hs_scheme.specs.declared.term.Rule.{Rule};
ghost use Rattle.hs_scheme.specs.Scheme.{AreRules};
ghost use Rattle.hs_scheme.specs.sorting.Sorting.{HasSorting};
ghost use Rattle.hs_sorts.specs.Finding.{FindsSorting};
ghost use Rattle.hs_sorts.specs.Inference.{IsInferred, IsFirstIllSorted, IsSortFault, IsInferable};
ghost use Rattle.hs_sorts.specs.Least.{AreLeastSorts};

use crate::fault::SortFault;
use crate::finding::{
    MeasuredNodes, arities, find, first_higher_order, first_large, first_too_long, read_sorts,
};
use crate::lengthening::lengthen;
use hs_scheme::{OutOfMemory, Rule, Scheme, Sort, Sorted, Unsorted};
use std::alloc::Global;

/// The least sorts of a scheme's nonterminals, and the ranks of its terminals.
#[derive(Drop)]
struct Least {
    sorts: Vec<Sort>,
    ranks: Vec<u32>,
}

/// The first rule up to which there is no sorting, by bisection: fewer rules ask for less.
fn first_ill_sorted(
    alloc: Global,
    rules: &[Rule],
    ranks: &[Option<u32>],
) -> Result<u32, OutOfMemory>
    requires rules { AreRules rules.now (length ranks.now) }
    requires none { HasSorting rules.now ranks.now (length rules.now) → ⊥ }
    ensures { IfOk result (λ rule. IsFirstIllSorted rules.now ranks.now rule) }
{
    let mut sorted = 0;
    let mut unsorted = rules.len();
    while unsorted - sorted > 1 {
        let middle = sorted + (unsorted - sorted) / 2;
        if find(alloc, rules, ranks, middle)?.is_some() {
            sorted = middle;
        } else {
            unsorted = middle;
        }
    }
    Ok(sorted as u32)
}

/// The least sorting of a scheme that has one, from its nodes, or why it is refused.
fn read_least(
    alloc: Global,
    rules: &[Rule],
    ranks: &[Option<u32>],
    found: &MeasuredNodes,
) -> Result<Least, SortFault>
    requires rules { AreRules rules.now (length ranks.now) }
    requires found { FindsSorting rules.now ranks.now (length rules.now) found.now }
    ensures ok { IfOk result (λ least.
        AreLeastSorts rules.now ranks.now least.sorts.items least.ranks.items) }
    ensures fault { IfErr result (λ fault. IsSortFault rules.now ranks.now fault) }
{
    let number = rules.len() as u32;
    let measures = &found.measures;
    if let Some(terminal) = first_higher_order(measures, number, ranks.len() as u32) {
        return Err(SortFault::TerminalNotFirstOrder { terminal });
    }
    if let Some(rule) = first_large(measures, number) {
        return Err(SortFault::SortTooLarge { rule });
    }
    if let Some(rule) = first_too_long(rules, measures) {
        return Err(SortFault::RuleTooLong { rule });
    }
    let sorts = read_sorts(alloc, &found.store, measures, number)?;
    let ranks = arities(alloc, measures, number, ranks.len())?;
    Ok(Least { sorts, ranks })
}

/// The least sorting of a scheme, or why there is none.
fn find_least(alloc: Global, rules: &[Rule], ranks: &[Option<u32>]) -> Result<Least, SortFault>
    requires { AreRules rules.now (length ranks.now) }
    ensures ok { IfOk result (λ least.
        AreLeastSorts rules.now ranks.now least.sorts.items least.ranks.items) }
    ensures fault { IfErr result (λ fault. IsSortFault rules.now ranks.now fault) }
{
    if let Some(found) = find(alloc, rules, ranks, rules.len())? {
        return read_least(alloc, rules, ranks, &found);
    }
    let rule = first_ill_sorted(alloc, rules, ranks)?;
    Err(SortFault::IllSorted { rule })
}

/// The scheme with its least sorting, and its rules and names lengthened to it.
fn with_sorts(alloc: Global, unsorted: Unsorted, least: Least) -> Result<Sorted, SortFault>
    requires { AreLeastSorts unsorted.rules unsorted.ranks least.sorts.items least.ranks.items }
    ensures ok { IfOk result (λ sorted. IsInferred unsorted sorted) }
    ensures fault { IfErr result (λ fault. fault ≡ SortFault.OutOfMemory) }
{
    let Unsorted {
        mut rules,
        ranks: _,
        automaton,
        mut names,
    } = unsorted;
    lengthen(alloc, &mut rules, &mut names, least.sorts.as_slice())?;
    Ok(Sorted {
        scheme: Scheme {
            rules,
            ranks: least.ranks,
        },
        automaton,
        names,
        sorts: least.sorts,
    })
}

/// The sorts of a scheme by unification (Milner, "A Theory of Type Polymorphism in Programming",
/// 1978, without polymorphism), over shared nodes (Huet, "Résolution d'équations dans des langages
/// d'ordre 1, 2, ..., ω", 1976).
///
/// A terminal whose rank is known, as it is where it has transitions, has the sort of its rank, and
/// any other gets its rank from here. A sort that is left open is `o`. The input is consumed on every
/// answer.
///
/// A rule may have fewer parameters than its nonterminal's sort has arguments, as `F -> a.` where `a`
/// takes one. It gets the missing ones, named `~1`, `~2` and so on, at its end, and its body takes
/// them as its last arguments. A rule that isn't short is kept, however many arguments its body has.
///
/// There is a node or a few for each head, for each parameter, and for each terminal and each
/// argument that a known rank gives it. Memory is linear in the number of nodes, and in the sizes of
/// the sorts answered, which are at most 1,000 for each rule. Lengthening adds what it adds to the
/// rules in place. Time is linear in the same, times the
/// amortized cost of a look-up of a node, which is logarithmic at most. Where the scheme is
/// ill-sorted, the time is multiplied by the logarithm of the number of rules. A sort that is
/// exponentially large as a tree costs no more than its nodes. More than 2^32 nodes are want of
/// memory.
pub fn infer(alloc: Global, unsorted: Unsorted) -> Result<Sorted, SortFault>
    ensures ok { IfOk result (λ sorted. IsInferred unsorted sorted) }
    ensures fault { IfErr result (λ fault. IsSortFault unsorted.rules unsorted.ranks fault) }
    ensures accepted { IsInferable unsorted.rules unsorted.ranks
        → IfErr result (λ fault. fault ≡ SortFault.OutOfMemory) }
{
    let least = find_least(alloc, unsorted.rules.as_slice(), unsorted.ranks.as_slice())?;
    with_sorts(alloc, unsorted, least)
}
