//! Reduction along every path, up to a number of steps.

ghost use Rattle.std.specs.Prelude.{◌≡◌, ◌<◌, ◌≤◌, ◌+◌, ◌∷◌, length, slice_index, IfOk, OnOk};
ghost use Rattle.hs_scheme.specs.TreeTerms.{IsTreeTerm};
ghost use Rattle.hs_scheme.specs.sorting.Sorted.{sorts_of};
ghost use Rattle.hs_scheme.specs.acceptance.FailingPath.{FailingPathData};
ghost use Rattle.hs_reduce.specs.Graph.{term_at, GrowsTrees};
ghost use Rattle.hs_reduce.specs.Advances.{HasKnownSorts};
ghost use Rattle.hs_reduce.specs.Bounds.{IsFoundWithin, IsBoundedAnswer};

use crate::answers::Bounded;
use crate::graph::Graph;
use crate::limits::MAX_CUT;
use crate::replacement::replace;
use hs_scheme::{FailingPath, Head, OutOfMemory, Sorted};
use std::alloc::Global;

/// The rank of a terminal, 0 of one that there isn't.
fn rank_of(sorted: &Sorted, terminal: u32) -> u32
    ensures { result ≡ slice_index sorted.now.scheme.ranks terminal }
{
    let scheme = &sorted.scheme;
    match scheme.ranks.get(terminal as usize) {
        Some(rank) => *rank,
        None => 0,
    }
}

/// The path with a replacement in front.
fn after_replacement(path: FailingPath) -> FailingPath
    requires { path.used < MAX_CUT }
    ensures { result ≡ record {
      steps = path.steps;
      last = path.last;
      state = path.state;
      used = path.used + 1;
    } }
{
    FailingPath {
        used: path.used + 1,
        steps: path.steps,
        last: path.last,
        state: path.state,
    }
}

/// The path with a descent in front.
fn after_descent(path: FailingPath, terminal: u32, number: u32) -> Result<FailingPath, OutOfMemory>
    requires { path.used < MAX_CUT }
    ensures { IfOk result (λ made. made ≡ record {
      steps = (terminal, number) ∷ path.steps;
      last = path.last;
      state = path.state;
      used = path.used + 1;
    }) }
{
    let mut path = path;
    path.steps.insert(0, (terminal, number))?;
    path.used += 1;
    Ok(path)
}

/// The first path, in the order of child numbers, to an error in the cut at n of the term at this
/// place, read in this state. Recurses n deep.
fn first_error(
    alloc: Global,
    sorted: &Sorted,
    graph: &mut Graph,
    n: u32,
    state: u32,
    place: usize,
) -> Result<Option<FailingPath>, OutOfMemory>
    requires sorted { HasKnownSorts sorted.now }
    requires few { n ≤ MAX_CUT }
    requires place { place < length graph.old }
    requires tree { IsTreeTerm (sorts_of sorted.now.sorts sorted.now.scheme.ranks) (term_at graph.old place) }
    ensures grows { OnOk result (GrowsTrees graph.old graph.new) }
    ensures found { IfOk result (IsFoundWithin sorted.now n state (term_at graph.old place)) }
{
    if n == 0 {
        return Ok(None);
    }
    match graph.head(place) {
        Head::Var(_) => Ok(None),
        Head::Nt(number) => {
            let Some(body) = replace(alloc, sorted, graph, place, number)? else {
                return Ok(None);
            };
            match first_error(alloc, sorted, graph, n - 1, state, body)? {
                None => Ok(None),
                Some(path) => Ok(Some(after_replacement(path))),
            }
        }
        Head::Tm(terminal) => {
            let Some(to) = sorted.automaton.next(state, terminal) else {
                return Ok(Some(FailingPath {
                    steps: Vec::new(alloc),
                    last: terminal,
                    state,
                    used: 0,
                }));
            };
            let args = graph.arguments(place).to_vec(alloc)?;
            for index in 0..rank_of(sorted, terminal) {
                let child = args[index as usize];
                let below = to[index as usize];
                if let Some(path) = first_error(alloc, sorted, graph, n - 1, below, child)? {
                    return Ok(Some(after_descent(path, terminal, index + 1)?));
                }
            }
            Ok(None)
        }
    }
}

/// Whether the automaton reads the tree of the start, cut at n, from its initial state, and where
/// not, a path to an error in fewer than n steps.
///
/// It tries path after path, and the cut may have exponentially many in n. So may time and memory
/// grow: the nodes of all paths are kept to the end. Recurses n deep.
pub fn bounded(alloc: Global, sorted: &Sorted, n: u32) -> Result<Bounded, OutOfMemory>
    requires { n ≤ 30 }
    ensures { IfOk result (IsBoundedAnswer sorted.now n) }
{
    // What the types of `sorted` and of its scheme keep is known where their fields are read.
    let scheme = &sorted.scheme;
    let _rules = &scheme.rules;
    let mut graph = Graph::new(alloc);
    let start = graph.add(Head::Nt(0), &[])?;
    match first_error(alloc, sorted, &mut graph, n, 0, start)? {
        None => Ok(Bounded::NoError),
        Some(path) => Ok(Bounded::Error(path)),
    }
}
