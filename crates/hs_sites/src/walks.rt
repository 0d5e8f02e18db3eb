//! Walks over the parameters of a nonterminal, by its sites.

ghost use Rattle.std.specs.Prelude.{◌≡◌, ◌↔◌, ◌+◌, ◌^◌, ◌<◌, ℕ, true, Some, Contains, IfOk, IsTrue, length, slice_get};
ghost use Rattle.hs_scheme.specs.flow.Points.{point_at};
ghost use Rattle.hs_table.specs.Entries.{params_of};
ghost use Rattle.hs_sites.specs.Listed.{AnySite, AreSitesOf};
ghost use Rattle.hs_sites.specs.Walks.{EachChainHas, IsMarked};
ghost use Rattle.hs_sites.specs.Reaching.{IsOn, GoesOn, IsWalk};

use crate::sites::Site;
use hs_scheme::{OutOfMemory, Problem};
use std::alloc::Global;

/// How many parameters the nonterminal of this rule has, 0 where there is no such rule.
fn parameters_of(problem: &Problem, nonterminal: u32) -> u32
    ensures { result ≡ params_of problem.now nonterminal }
{
    match problem.sorted.scheme.rules.get(nonterminal as usize) {
        None => 0,
        Some(rule) => rule.params,
    }
}

/// Whether what stands at this place is marked. Behind the last mark nothing is.
fn is_marked(marks: &[bool], place: usize) -> bool
    ensures { IsTrue result ↔ slice_get marks.now place ≡ Some true }
{
    match marks.get(place) {
        None => false,
        Some(mark) => *mark,
    }
}

/// Marks the parameter behind the last that the site gives, where the first that it gives is marked.
/// `reached` has a mark for each parameter, and one behind them.
fn go_on(problem: &Problem, site: &Site, reached: &mut Vec<bool>)
    requires { site.now.point < length problem.now.points.points }
    ensures { GoesOn site.now.given (length (point_at problem.now.points site.now.point).args)
        reached.old.items reached.new.items }
{
    let from = site.given as usize;
    if !is_marked(reached.as_slice(), from) {
        return;
    }
    let to = from + problem.points.args_of(site.point).len();
    if to < reached.len() {
        reached[to] = true;
    }
}

/// A mark for each of so many parameters, and one behind them, of which the first alone is set.
fn first_reached(alloc: Global, count: usize) -> Result<Vec<bool>, OutOfMemory>
    requires { count < 2 ^ 32 }
    ensures len { IfOk result (λ reached. length reached.items ≡ count + 1) }
    ensures first { IfOk result (λ reached. IsOn reached.items 0) }
    ensures none { IfOk result (λ reached. (g : ℕ) → IsOn reached.items g → g ≡ 0) }
{
    let mut reached = vec![in alloc; false; count + 1]?;
    reached[0] = true;
    Ok(reached)
}

/// Goes on by each of the sites that isn't marked. Each gives at least one argument, and a site before
/// which fewer were given stands before the others: so what a site begins at is known when it is its turn.
fn walk(problem: &Problem, sites: &[Site], marks: &[bool], reached: &mut Vec<bool>)
    requires { (s : AnySite) → Contains sites.now s → s.point < length problem.now.points.points }
    ensures len { length reached.new.items ≡ length reached.old.items }
    ensures kept { (g : ℕ) → IsOn reached.old.items g → IsOn reached.new.items g }
    ensures walk { (G : ℕ) → AreSitesOf problem.now G sites.now
        → IsWalk problem.now G sites.now marks.now 0 reached.old.items
        → IsWalk problem.now G sites.now marks.now (length sites.now) reached.new.items }
{
    for (place, site) in sites.iter().enumerate() {
        if !is_marked(marks, place) {
            go_on(problem, site, reached);
        }
    }
}

/// Whether each chain of the nonterminal has a marked site. `sites` are all its sites, those before
/// which fewer arguments were given first, as `Sites::of_nonterminal` answers them. The mark of a site
/// stands at its place; behind the last mark none is marked. A nonterminal without parameters has the
/// empty chain alone, which has no site. Where one with parameters has no chain, each has what is asked.
///
/// No chain is listed: it is a walk over the parameters, by the sites that aren't marked, and the answer is
/// whether that doesn't come behind the last parameter. Memory is for a `bool` for each parameter, and
/// time is in their number and in that of the sites. The one error is want of memory.
pub fn each_chain_has_marked(
    alloc: Global,
    problem: &Problem,
    nonterminal: u32,
    sites: &[Site],
    marks: &[bool],
) -> Result<bool, OutOfMemory>
    requires { AreSitesOf problem.now nonterminal sites.now }
    ensures { IfOk result (λ all. IsTrue all ↔ EachChainHas problem.now nonterminal (IsMarked nonterminal
        sites.now marks.now)) }
{
    let count = parameters_of(problem, nonterminal) as usize;
    let mut reached = first_reached(alloc, count)?;
    walk(problem, sites, marks, &mut reached);
    Ok(!reached[count])
}
