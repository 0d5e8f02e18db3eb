//! Whether void pairs are in shape.

ghost use Rattle.std.specs.Prelude.{◌≡◌, ◌↔◌, IsTrue, MatchOption, length};
ghost use Rattle.hs_weak.specs.Void.{IsVoidShape};
ghost use Rattle.hs_certificate_checker.specs.Faults.{IsFirstOther, AreInVoidShape};

use hs_checker::is_env_of;
use hs_scheme::Problem;
use hs_weak::Void;

/// How many rules there are.
pub(crate) fn rule_count(problem: &Problem) -> usize
    ensures { result ≡ length problem.now.sorted.scheme.rules }
{
    problem.sorted.scheme.rules.len()
}

/// Whether the pair is of a nonterminal of the problem and an environment for its parameters.
fn is_in_void_shape(problem: &Problem, pair: &Void) -> bool
    ensures { IsTrue result ↔ IsVoidShape problem.now pair.now }
{
    if pair.rule as usize >= rule_count(problem) {
        return false;
    }
    is_env_of(problem, pair.rule, pair.env.as_slice())
}

/// The place of the first pair that is out of shape, counted from 0.
pub(crate) fn first_out_of_shape(problem: &Problem, void: &[Void]) -> Option<usize>
    ensures { MatchOption result (AreInVoidShape problem.now void.now)
        (IsFirstOther (IsVoidShape problem.now) void.now) }
{
    for (place, pair) in void.iter().enumerate() {
        if !is_in_void_shape(problem, pair) {
            return Some(place);
        }
    }
    None
}
