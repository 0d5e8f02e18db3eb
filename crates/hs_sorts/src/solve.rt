//! The first rules of a scheme as nodes whose sorts are their sortings.

ghost use Rattle.std.specs.Prelude.{◌≡◌, ◌+◌, ◌<◌, ◌≤◌, ◌^◌, [], length, IfOk};
ghost use Rattle.hs_scheme.specs.Scheme.{AreRules};
ghost use Rattle.hs_sorts.specs.Constraints.{IsClaim, IsRankedIf, BodiesWithin};
ghost use Rattle.hs_sorts.specs.Solving.{LaysOut, EachBefore, AreRuled};
ghost use Rattle.hs_sorts.specs.Solution.{IsSolution};

use crate::constraints::{make_base, make_ranked_if, make_rule};
use crate::store::{Shape, Store};
use hs_scheme::{OutOfMemory, Rule};
use std::alloc::Global;

/// The nodes of a scheme and what its first `count` rules ask of them, or `None` where they have no
/// sorting. The nonterminals' nodes come first, by rule, then the terminals'. No link leads to a link.
/// Time is almost linear in the number of nodes, and memory linear.
pub(crate) fn solve(
    alloc: Global,
    rules: &[Rule],
    ranks: &[Option<u32>],
    count: usize,
) -> Result<Option<Store>, OutOfMemory>
    requires rules { AreRules rules.now (length ranks.now) }
    requires count { count ≤ length rules.now }
    ensures { IfOk result (λ nodes. IsSolution rules.now ranks.now count nodes) }
{
    let mut store = Store::new(alloc);
    let number = rules.len() as u32;
    lay_out(&mut store, number, ranks.len())?;
    if !make_base(alloc, &mut store, 0)? {
        return Ok(None);
    }
    if !make_terminals(alloc, &mut store, number, ranks)? {
        return Ok(None);
    }
    if !make_rules(alloc, &mut store, rules, count)? {
        return Ok(None);
    }
    store.flatten();
    Ok(Some(store))
}

/// Nodes for nonterminals and terminals, of whose sorts nothing is known yet.
fn lay_out(store: &mut Store, rules: u32, terminals: usize) -> Result<(), OutOfMemory>
    requires { store.old ≡ [] }
    ensures { IfOk result (λ _. LaysOut rules terminals store.new) }
{
    let Ok(terminals) = u32::try_from(terminals) else {
        return Err(OutOfMemory);
    };
    store.add_all(rules, Shape::Open)?;
    store.add_all(terminals, Shape::Open)?;
    Ok(())
}

/// Gives each terminal whose rank is known the sort of its rank.
fn make_terminals(
    alloc: Global,
    store: &mut Store,
    rules: u32,
    ranks: &[Option<u32>],
) -> Result<bool, OutOfMemory>
    requires room { rules + length ranks.now ≤ length store.old }
    requires few { length store.old ≤ 2 ^ 32 }
    ensures { IfOk result (λ yes. IsClaim store.old store.new
        (EachBefore (λ a rank. IsRankedIf (rules + a) rank) ranks.now (length ranks.now)) yes) }
{
    for (terminal, rank) in ranks.iter().enumerate() {
        if !make_ranked_if(alloc, store, rules + terminal as u32, *rank)? {
            return Ok(false);
        }
    }
    Ok(true)
}

/// Gives each rule what it asks for, the bodies of the first `count` too.
fn make_rules(
    alloc: Global,
    store: &mut Store,
    rules: &[Rule],
    count: usize,
) -> Result<bool, OutOfMemory>
    requires few { length rules.now < 2 ^ 32 }
    requires room { length rules.now ≤ length store.old }
    requires bodies { BodiesWithin (length store.old) rules.now }
    requires few_nodes { length store.old ≤ 2 ^ 32 }
    ensures { IfOk result (λ yes. IsClaim store.old store.new (AreRuled count rules.now) yes) }
{
    for (number, rule) in rules.iter().enumerate() {
        if !make_rule(alloc, store, rules.len() as u32, rule, number as u32, count)? {
            return Ok(false);
        }
    }
    Ok(true)
}
