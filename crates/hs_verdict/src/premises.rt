//! What a problem keeps, as laws ask for it.

ghost use Rattle.hs_verdict.specs.Premises.{IsSortedProblem};

use hs_scheme::Problem;

/// What the types of a problem's parts keep: a sorted scheme, an automaton, and the points of its
/// rules. Does nothing.
pub fn know_sorted_problem(problem: &Problem)
    ensures { IsSortedProblem problem.now }
{
    let _ = &problem.points;
    let sorted = &problem.sorted;
    let _ = &sorted.names;
    let scheme = &sorted.scheme;
    let _ = &scheme.rules;
    sorted.automaton.know_automaton();
}
