//! Replacement in the graph.

ghost use Rattle.std.specs.Prelude.{◌≡◌, ◌<◌, ℕ, All, length, slice_get, Some, IfOk, IfSome};
ghost use Rattle.hs_scheme.specs.declared.term.Head.TheVariants.{Var};
ghost use Rattle.hs_scheme.specs.Tree.{node, none, forest};
ghost use Rattle.hs_scheme.specs.acceptance.Replacement.{replaced, subst, applied};
ghost use Rattle.hs_scheme.specs.acceptance.Cut.{unfolded};
ghost use Rattle.hs_reduce.specs.Graph.{term_at, terms_at, arguments_of, AddsTerm, Unfolds};

use crate::graph::Graph;
use hs_scheme::{Head, OutOfMemory, Rule, Sorted, Term};
use std::alloc::Global;

/// A head, and the places of its arguments so far.
#[derive(Drop)]
pub(crate) struct Front {
    pub(crate) head: Head,
    pub(crate) args: Vec<usize>,
}

/// The place that stands for the term where it is a parameter without arguments.
fn shared(term: &Term, with: &[usize]) -> Option<usize>
    ensures { IfSome result (λ place. (j : ℕ) × (term.now ≡ node (Var j) none)
        × (slice_get with.now j ≡ Some place)) }
{
    if !term.args.is_empty() {
        return None;
    }
    let Head::Var(parameter) = term.head else {
        return None;
    };
    let place = with.get(parameter as usize)?;
    Some(*place)
}

/// What stands for a head when the terms at these places stand for the parameters.
fn front_of(alloc: Global, graph: &Graph, head: Head, with: &[usize]) -> Result<Front, OutOfMemory>
    requires { All (λ i. i < length graph.now) with.now }
    ensures within { IfOk result (λ f. All (λ i. i < length graph.now) f.args.items) }
    ensures term { IfOk result (λ f. node f.head (forest (terms_at graph.now f.args.items)) ≡ replaced head
        (terms_at graph.now with.now)) }
{
    if let Head::Var(parameter) = head {
        if let Some(place) = with.get(parameter as usize) {
            return Ok(Front {
                head: graph.head(*place),
                args: graph.arguments(*place).to_vec(alloc)?,
            });
        }
    }
    Ok(Front {
        head,
        args: Vec::new(alloc),
    })
}

/// Adds the term of a rule's body with the terms at these places for its parameters, and answers
/// its place. Shares those terms. Recurses as deep as the body.
pub(crate) fn substitute(
    alloc: Global,
    graph: &mut Graph,
    term: &Term,
    with: &[usize],
) -> Result<usize, OutOfMemory>
    requires { All (λ i. i < length graph.old) with.now }
    ensures { IfOk result (λ place. AddsTerm graph.old graph.new place
        (subst term.now (terms_at graph.old with.now))) }
{
    if let Some(place) = shared(term, with) {
        return Ok(place);
    }
    let Front { head, mut args } = front_of(alloc, graph, term.head, with)?;
    for arg in &term.args {
        let place = substitute(alloc, graph, arg, with)?;
        args.push(place)?;
    }
    graph.add(head, args.as_slice())
}

/// Adds the term at this place with further arguments behind its own, and answers its place.
fn applied(
    alloc: Global,
    graph: &mut Graph,
    place: usize,
    rest: &[usize],
) -> Result<usize, OutOfMemory>
    requires place { place < length graph.old }
    requires rest { All (λ i. i < length graph.old) rest.now }
    ensures { IfOk result (λ made. AddsTerm graph.old graph.new made
        (applied (term_at graph.old place) (forest (terms_at graph.old rest.now)))) }
{
    if rest.is_empty() {
        return Ok(place);
    }
    let mut args = graph.arguments(place).to_vec(alloc)?;
    args.extend_from_slice(rest)?;
    graph.add(graph.head(place), args.as_slice())
}

/// Adds what a nonterminal with these arguments is replaced by, where it has as many as it has
/// parameters, or more, and answers its place. Makes at most as many nodes as the rule's body has.
fn unfold(
    alloc: Global,
    graph: &mut Graph,
    rules: &[Rule],
    number: u32,
    args: &[usize],
) -> Result<Option<usize>, OutOfMemory>
    requires { All (λ i. i < length graph.old) args.now }
    ensures { IfOk result (λ found. Unfolds graph.old graph.new found
        (unfolded rules.now number (terms_at graph.old args.now))) }
{
    let Some(rule) = rules.get(number as usize) else {
        return Ok(None);
    };
    let params = rule.params as usize;
    if args.len() < params {
        return Ok(None);
    }
    let body = substitute(alloc, graph, &rule.body, &args[..params])?;
    Ok(Some(applied(alloc, graph, body, &args[params..])?))
}

/// Adds what the nonterminal at the head of the term at this place is replaced by, and answers its
/// place.
pub(crate) fn replace(
    alloc: Global,
    sorted: &Sorted,
    graph: &mut Graph,
    place: usize,
    number: u32,
) -> Result<Option<usize>, OutOfMemory>
    requires { place < length graph.old }
    ensures { IfOk result (λ found. Unfolds graph.old graph.new found
        (unfolded sorted.now.scheme.rules number (arguments_of (term_at graph.old place)))) }
{
    let args = graph.arguments(place).to_vec(alloc)?;
    let scheme = &sorted.scheme;
    unfold(
        alloc,
        graph,
        scheme.rules.as_slice(),
        number,
        args.as_slice(),
    )
}
