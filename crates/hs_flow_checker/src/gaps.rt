//! The first pair that a flow lacks: one that is demanded by the pairs that it holds, and isn't held.

ghost use Rattle.std.specs.Prelude.{◌≡◌, ◌<◌, ◌≤◌, ℕ, Contains, IsTrue, MatchOption, Some, length, slice_get};
ghost use Rattle.hs_scheme.specs.declared.flow.Pair.{Pair as AnyPair};
ghost use Rattle.hs_scheme.specs.declared.flow.HeadPair.{HeadPair as AnyHead};
ghost use Rattle.hs_scheme.specs.declared.term.Rule.{Rule as AnyRule};
ghost use Rattle.hs_scheme.specs.flow.Flow.{IsBase};
ghost use Rattle.hs_scheme.specs.Problem.{ProblemData};
ghost use Rattle.hs_table.specs.Entries.{params_of};
ghost use Rattle.hs_flow_checker.specs.declared.passing.Base.{Base as AnyBase};
ghost use Rattle.hs_flow_checker.specs.declared.gaps.Kind.TheVariants.{Flow as OfFlows, Heads as OfHeads};
ghost use Rattle.hs_flow_checker.specs.Gaps.{held, IsOfKind, HoldsAll, Lacks, IsFirstLacking};
ghost use Rattle.hs_flow_checker.specs.PassedOn.{base_of, HoldsBy, LacksBy, DemandsAt, DemandsNone, DemandNothing};

use crate::head_pairs::HeadPairs;
use crate::marks::is_marked;
use crate::passing::{flow_gap, head_gap};
use hs_scheme::{Head, HeadPair, Pair, Problem, Rule};

/// The two kinds of pairs of a flow.
#[derive(Clone, Copy, Drop)]
pub enum Kind {
    /// Flow pairs: a point may stand for a parameter.
    Flow,
    /// Head pairs: a point may become a nonterminal with some arguments.
    Heads,
}

/// The first pair of the kind that a point with these arguments demands by one of the bases and that
/// isn't held. What is demanded is looked for at the place `guess` first, which is then the one for
/// what the next base is likely to demand.
fn gap_by(
    problem: &Problem,
    heads: &HeadPairs,
    kind: Kind,
    point: u32,
    args: &[u32],
    bases: &[HeadPair],
    guess: &mut usize,
) -> Option<Pair>
    requires { heads.now ≡ problem.now.flow.heads }
    ensures { MatchOption result
        ((h : AnyHead) → Contains bases.now h → HoldsBy problem.now kind point args.now (base_of h))
        (λ pair. (h : AnyHead) × (Contains bases.now h
        × LacksBy problem.now kind point args.now (base_of h) pair)) }
{
    match kind {
        Kind::Flow => match flow_gap(problem, args, bases, guess) {
            None => None,
            Some(pair) => Some(Pair::OfFlow(pair)),
        },
        Kind::Heads => match head_gap(problem, heads, point, args, bases, guess) {
            None => None,
            Some(pair) => Some(Pair::OfHead(pair)),
        },
    }
}

/// The first by what this parameter of a rule may become.
fn gap_through(
    problem: &Problem,
    heads: &HeadPairs,
    kind: Kind,
    point: u32,
    args: &[u32],
    rule: u32,
    parameter: u32,
) -> Option<Pair>
    requires { heads.now ≡ problem.now.flow.heads }
    ensures { MatchOption result
        ((b : AnyBase) → IsBase (held problem.now) rule (Head.Var parameter) b.rule b.given
        → HoldsBy problem.now kind point args.now b)
        (λ pair. (b : AnyBase) × (IsBase (held problem.now) rule (Head.Var parameter) b.rule b.given
        × LacksBy problem.now kind point args.now b pair)) }
{
    let mut guess = 0;
    for pair in heads.from_first_headed(problem.flow.flow_of(rule, parameter)) {
        let bases = heads.at_point(pair.point);
        if !bases.is_empty() {
            match gap_by(problem, heads, kind, point, args, bases, &mut guess) {
                Some(pair) => return Some(pair),
                None => {}
            }
        }
    }
    None
}

/// The first by what the head of a point in this rule may become.
fn gap_of(
    problem: &Problem,
    heads: &HeadPairs,
    kind: Kind,
    point: u32,
    args: &[u32],
    rule: u32,
    head: Head,
) -> Option<Pair>
    requires { heads.now ≡ problem.now.flow.heads }
    ensures { MatchOption result
        ((b : AnyBase) → IsBase (held problem.now) rule head b.rule b.given
        → HoldsBy problem.now kind point args.now b)
        (λ pair. (b : AnyBase) × (IsBase (held problem.now) rule head b.rule b.given
        × LacksBy problem.now kind point args.now b pair)) }
{
    match head {
        Head::Tm(_) => None,
        Head::Nt(nonterminal) => {
            let own = [HeadPair {
                point,
                rule: nonterminal,
                given: 0,
            }];
            gap_by(problem, heads, kind, point, args, &own, &mut 0)
        }
        Head::Var(parameter) => gap_through(problem, heads, kind, point, args, rule, parameter),
    }
}

/// The most parameters that one of the rules has.
fn most_of(rules: &[Rule]) -> u32
    ensures { (k : ℕ) (r : AnyRule) → slice_get rules.now k ≡ Some r → r.params ≤ result }
{
    let mut most = 0;
    for rule in rules {
        most = rule.params.max(most);
    }
    most
}

/// The most parameters that a rule of the problem has.
fn most_parameters(problem: &Problem) -> u32
    ensures { (rule : ℕ) → params_of problem.now rule ≤ result }
{
    most_of(problem.sorted.scheme.rules.as_slice())
}

/// Whether a point with these arguments demands no pair of the kind, whatever its head may become,
/// where no rule has more than so many parameters.
fn demands_none(kind: Kind, args: &[u32], most: u32) -> bool
    ensures { (p : ProblemData) → ((rule : ℕ) → params_of p rule ≤ most) → IsTrue result
        → DemandsNone p kind args.now }
{
    match kind {
        Kind::Flow => args.is_empty(),
        Kind::Heads => args.len() >= most as usize,
    }
}

/// The first pair of the kind that the point demands and that isn't held. Nothing is demanded at points that
/// are marked as inert, and no rule has more than so many parameters.
fn gap_at(
    problem: &Problem,
    heads: &HeadPairs,
    inert: &[bool],
    kind: Kind,
    most: u32,
    point: u32,
) -> Option<Pair>
    requires point { point < length problem.now.points.points }
    requires heads { heads.now ≡ problem.now.flow.heads }
    requires inert { DemandNothing problem.now inert.now }
    requires most { (rule : ℕ) → params_of problem.now rule ≤ most }
    ensures { MatchOption result
        ((pair : AnyPair) → IsOfKind kind pair → DemandsAt problem.now point pair
        → Contains (held problem.now) pair)
        (λ pair. IsOfKind kind pair × (DemandsAt problem.now point pair
        × (Contains (held problem.now) pair → ⊥))) }
{
    if is_marked(inert, point) {
        return None;
    }
    let args = problem.points.args_of(point);
    if demands_none(kind, args, most) {
        return None;
    }
    let rule = problem.points.rule_of(point);
    let head = problem.points.head_of(point);
    gap_of(problem, heads, kind, point, args, rule, head)
}

/// The first pair of the kind that is demanded by the pairs held, and isn't one of them. Nothing is demanded
/// at points that are marked as inert.
fn gap(problem: &Problem, heads: &HeadPairs, inert: &[bool], kind: Kind) -> Option<Pair>
    requires heads { heads.now ≡ problem.now.flow.heads }
    requires inert { DemandNothing problem.now inert.now }
    ensures { MatchOption result (HoldsAll problem.now kind) (λ pair. IsOfKind kind pair
        × Lacks problem.now pair) }
{
    let most = most_parameters(problem);
    for point in 0..problem.points.count() {
        match gap_at(problem, heads, inert, kind, most, point) {
            Some(pair) => return Some(pair),
            None => {}
        }
    }
    None
}

/// The first flow pair that is demanded by the pairs held, and isn't one of them, and where there is
/// none, the first such head pair, in the order of the points that demand them; `None` where the flow
/// holds all that is demanded. `heads` are the head pairs of the problem's flow. `inert` has a mark for
/// each point, counted from 0, and says where nothing is demanded; behind its last mark each point is
/// looked at.
///
/// Time is in proportion to the meetings of points with what their heads may become, with the
/// logarithm of the number of pairs. No memory is asked for.
pub fn first_gap(problem: &Problem, heads: &HeadPairs, inert: &[bool]) -> Option<Pair>
    requires heads { heads.now ≡ problem.now.flow.heads }
    requires inert { DemandNothing problem.now inert.now }
    ensures { MatchOption result (HoldsAll problem.now OfFlows
        × HoldsAll problem.now OfHeads) (IsFirstLacking problem.now) }
{
    if let Some(pair) = gap(problem, heads, inert, Kind::Flow) {
        return Some(pair);
    }
    gap(problem, heads, inert, Kind::Heads)
}
