//! One numbering of the parameters of all rules.

ghost use Rattle.std.specs.Prelude.{◌≡◌, ◌↔◌, ◌^◌, ◌<◌, ◌≤◌, length, sum, slice_index, IfOk, IfSome, SomeIff};
ghost use Rattle.hs_scheme.specs.sorting.Parameters.{counts_of, IsParameter, parameter_of};

use crate::memory::OutOfMemory;
use crate::term::Rule;
use std::alloc::Global;
use std::marker::Model;

/// How many parameters each rule has, and a number for each parameter: those of rule 0 come first,
/// then those of rule 1, and so on, from 0. Contracts see the list of the rules' numbers of
/// parameters.
#[derive(Debug, Drop)]
pub struct Parameters {
    counts: Vec<u32>,
    /// The number of each rule's first parameter, and then how many parameters there are.
    firsts: Vec<u32>,
}

impl Model for Parameters {
    ghost use Rattle.std.specs.Prelude.{List, ℕ};
    ghost use Rattle.hs_scheme.specs.sorting.Parameters.{IsNumbering};

    ghost Value = { List ℕ };

    ghost view = { λ a. a.counts.items };

    ghost invariant = { λ a. IsNumbering a.counts.items a.firsts.items };
}

impl Parameters {
    /// The parameters of these rules, fewer than 2^32 in all. Time and memory are in proportion to
    /// the rules.
    pub fn of(alloc: Global, rules: &[Rule]) -> Result<Parameters, OutOfMemory>
        requires { sum (counts_of rules.now) < 2 ^ 32 }
        ensures { IfOk result (λ parameters. parameters ≡ counts_of rules.now) }
    {
        let mut counts = Vec::with_capacity(alloc, rules.len())?;
        let mut firsts = Vec::with_capacity(alloc, rules.len() + 1)?;
        let mut total = 0;
        for rule in rules {
            counts.push_reserved(rule.params);
            firsts.push_reserved(total);
            total += rule.params;
        }
        firsts.push_reserved(total);
        Ok(Parameters { counts, firsts })
    }

    /// The number of rules. Takes no memory.
    pub fn rules(&self) -> usize
        ensures { result ≡ length self.now }
    {
        self.counts.len()
    }

    /// The number of parameters of all rules. Takes no memory.
    pub fn count(&self) -> u32
        ensures { result ≡ sum self.now }
    {
        self.firsts[self.counts.len()]
    }

    /// The number of this rule's parameters, 0 where there is no such rule. Takes no memory.
    pub fn count_of(&self, rule: u32) -> u32
        ensures { result ≡ slice_index self.now rule }
    {
        match self.counts.get(rule as usize) {
            Some(count) => *count,
            None => 0,
        }
    }

    /// The number of a rule's parameter, itself counted from 0 in the rule, or `None` exactly where
    /// the rule has no such parameter. Takes no memory.
    pub fn number(&self, rule: u32, param: u32) -> Option<u32>
        ensures number { SomeIff result (IsParameter self.now rule param) (parameter_of self.now rule param) }
        ensures within { IfSome result (λ n. n < sum self.now) }
    {
        if param >= self.count_of(rule) {
            return None;
        }
        Some(self.firsts[rule as usize] + param)
    }

    /// Equal parameters, in time and memory in proportion to the rules.
    pub fn copy(&self, alloc: Global) -> Result<Parameters, OutOfMemory>
        ensures { IfOk result (λ copy. copy ≡ self.now) }
    {
        let counts = self.counts.to_vec(alloc)?;
        let firsts = self.firsts.to_vec(alloc)?;
        Ok(Parameters { counts, firsts })
    }
}
