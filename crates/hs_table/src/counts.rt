//! How many parameters a rule has, and how many children a terminal.

ghost use Rattle.std.specs.Prelude.{◌≡◌};
ghost use Rattle.hs_table.specs.Entries.{params_of};
ghost use Rattle.hs_table.specs.Follows.{rank_of};

use hs_scheme::Problem;

/// The number of parameters of the rule, which is counted from 0; 0 where there is no such rule.
pub fn parameters(problem: &Problem, rule: u32) -> u32
    ensures { result ≡ params_of problem.now rule }
{
    match problem.sorted.scheme.rules.get(rule as usize) {
        None => 0,
        Some(rule) => rule.params,
    }
}

/// The rank of the terminal, which is counted from 0: how many children its nodes have; 0 where
/// there is no such terminal.
pub fn rank(problem: &Problem, terminal: u32) -> u32
    ensures { result ≡ rank_of problem.now terminal }
{
    match problem.sorted.scheme.ranks.get(terminal as usize) {
        None => 0,
        Some(rank) => *rank,
    }
}
