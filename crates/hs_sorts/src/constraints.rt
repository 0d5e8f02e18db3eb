//! What the terms and rules of a scheme ask of the sorts of its parts.

ghost use Rattle.std.specs.Prelude.{◌≡◌, ◌+◌, ◌<◌, ◌≤◌, ◌^◌, length, IfOk};
ghost use Rattle.hs_sorts.specs.Constraints.{node_of, NodesBelow, IsNodeFor, TakesArgument, HasSortAt};
ghost use Rattle.hs_sorts.specs.Constraints.{IsClaim, IsBaseSort, LeavesSort, IsRanked, IsRankedIf, IsRuled, BodyWithin};

use crate::heads::Heads;
use crate::store::{Shape, Store};
use hs_scheme::{OutOfMemory, Rule, Term};
use std::alloc::Global;

/// The node of what is left where a function takes an argument, or `None` where it can't.
pub(crate) fn apply(
    alloc: Global,
    store: &mut Store,
    function: u32,
    argument: u32,
) -> Result<Option<u32>, OutOfMemory>
    requires function { function < length store.old }
    requires argument { argument < length store.old }
    requires few { length store.old ≤ 2 ^ 32 }
    ensures { IfOk result (λ rest. IsNodeFor store.old store.new (TakesArgument function argument) rest) }
{
    let (root, shape) = store.find(function);
    match shape {
        Shape::Arrow(expected, rest) => {
            if !store.equate(alloc, expected, argument)? {
                return Ok(None);
            }
            Ok(Some(rest))
        }
        Shape::Open => {
            let rest = store.make_arrow(root, argument)?;
            Ok(Some(rest))
        }
        Shape::Base => Ok(None),
    }
}

/// The node of a term's sort, or `None` where it has none. Recurses as deep as the term.
pub(crate) fn term_sort(
    alloc: Global,
    store: &mut Store,
    heads: &Heads,
    term: &Term,
) -> Result<Option<u32>, OutOfMemory>
    requires nodes { NodesBelow (node_of heads.now.rules heads.now.first) (length store.old) term.now }
    requires few { length store.old ≤ 2 ^ 32 }
    ensures { IfOk result (λ sort. IsNodeFor store.old store.new
        (HasSortAt (node_of heads.now.rules heads.now.first) term.now) sort) }
{
    let mut sort = heads.node_of(term.head);
    for arg in &term.args {
        let argument = if arg.args.is_empty() {
            heads.node_of(arg.head)
        } else {
            let Some(node) = term_sort(alloc, store, heads, arg)? else {
                return Ok(None);
            };
            node
        };
        let Some(rest) = apply(alloc, store, sort, argument)? else {
            return Ok(None);
        };
        sort = rest;
    }
    Ok(Some(sort))
}

/// Makes the sort of a node `o`. `false` where it can't be.
pub(crate) fn make_base(alloc: Global, store: &mut Store, node: u32) -> Result<bool, OutOfMemory>
    requires { node < length store.old }
    ensures { IfOk result (λ yes. IsClaim store.old store.new (IsBaseSort node) yes) }
{
    let base = store.add(Shape::Base)?;
    store.equate(alloc, node, base)
}

/// The node of what is left of a node's sort behind those of `count` nodes from `first` on, its first
/// arguments, or `None` where it can't begin with them.
pub(crate) fn rest_behind(
    alloc: Global,
    store: &mut Store,
    node: u32,
    first: u32,
    count: u32,
) -> Result<Option<u32>, OutOfMemory>
    requires node { node < length store.old }
    requires arguments { first + count ≤ length store.old }
    requires few { length store.old ≤ 2 ^ 32 }
    ensures { IfOk result (λ rest. IsNodeFor store.old store.new (LeavesSort node first count) rest) }
{
    let mut sort = node;
    for place in 0..count {
        let Some(rest) = apply(alloc, store, sort, first + place)? else {
            return Ok(None);
        };
        sort = rest;
    }
    Ok(Some(sort))
}

/// Makes the sort of a node that of a terminal of this rank. `false` where it can't be.
fn make_ranked(alloc: Global, store: &mut Store, node: u32, rank: u32) -> Result<bool, OutOfMemory>
    requires { node < length store.old }
    ensures { IfOk result (λ yes. IsClaim store.old store.new (IsRanked node rank) yes) }
{
    let first = store.add_all(rank, Shape::Base)?;
    let Some(rest) = rest_behind(alloc, store, node, first, rank)? else {
        return Ok(false);
    };
    make_base(alloc, store, rest)
}

/// The same where the rank is known, and nothing where it isn't.
pub(crate) fn make_ranked_if(
    alloc: Global,
    store: &mut Store,
    node: u32,
    rank: Option<u32>,
) -> Result<bool, OutOfMemory>
    requires node { node < length store.old }
    requires few { length store.old ≤ 2 ^ 32 }
    ensures { IfOk result (λ yes. IsClaim store.old store.new (IsRankedIf node rank) yes) }
{
    match rank {
        None => Ok(true),
        Some(rank) => make_ranked(alloc, store, node, rank),
    }
}

/// What a rule asks, with nodes for its parameters: its nonterminal's sort begins with theirs, and its
/// body has what is left, if the rule is one of the first `count`. `false` where that can't be.
pub(crate) fn make_rule(
    alloc: Global,
    store: &mut Store,
    rules: u32,
    rule: &Rule,
    number: u32,
    count: usize,
) -> Result<bool, OutOfMemory>
    requires number { number < length store.old }
    requires body { BodyWithin rules (length store.old) rule.now }
    ensures { IfOk result (λ yes. IsClaim store.old store.new (IsRuled rules count number rule.now) yes) }
{
    let first = store.add_all(rule.params, Shape::Open)?;
    let Some(rest) = rest_behind(alloc, store, number, first, rule.params)? else {
        return Ok(false);
    };
    if number as usize >= count {
        return Ok(true);
    }
    let heads = Heads { rules, first };
    let Some(body) = term_sort(alloc, store, &heads, &rule.body)? else {
        return Ok(false);
    };
    store.equate(alloc, rest, body)
}
