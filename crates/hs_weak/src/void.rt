//! Pairs of a nonterminal and an environment for its parameters.

ghost use Rattle.std.specs.Prelude.{◌≡◌, IfOk};
ghost use Rattle.hs_table.specs.Entries.{env_cmp};
ghost use Rattle.hs_weak.specs.Void.{void_cmp};

use hs_scheme::{OutOfMemory, copied};
use hs_table::TypeSet;
use std::alloc::Global;
use std::cmp::Ordering;
use std::marker::Model;

/// An environment that is said to be void: that no arguments of a call of the nonterminal have all
/// types that it asks of them.
#[derive(Debug, Drop)]
pub struct Void {
    /// The rule of the nonterminal, counted from 0.
    pub rule: u32,
    /// One set for each parameter of the rule.
    pub env: Vec<TypeSet>,
}

impl Model for Void {
    ghost use Rattle.hs_weak.specs.Void.{VoidData, coded_void};

    ghost Value = { VoidData };

    ghost coded = { coded_void };

    ghost view = { λ a. record { rule = a.rule; env = a.env.items } };
}

/// The order of environments: set by set, a proper prefix first.
fn compare_envs(env: &[TypeSet], other: &[TypeSet]) -> Ordering
    ensures { result ≡ env_cmp env.now other.now }
{
    for (place, set) in env.iter().enumerate() {
        if place == other.len() {
            return Ordering::Greater;
        }
        let by_set = set.compare(&other[place]);
        if by_set != Ordering::Equal {
            return by_set;
        }
    }
    env.len().cmp(&other.len())
}

impl Void {
    /// An equal pair. Recurses as deep as its types.
    pub fn copy(&self, alloc: Global) -> Result<Void, OutOfMemory>
        ensures { IfOk result (λ copy. copy ≡ self.now) }
    {
        let env = copied(alloc, self.env.as_slice(), |set| set.copy(alloc))?;
        Ok(Void {
            rule: self.rule,
            env,
        })
    }

    /// The order of pairs: by rule, then by environment. Takes no memory.
    pub fn compare(&self, other: &Void) -> Ordering
        ensures { result ≡ void_cmp self.now other.now }
    {
        let by_rule = self.rule.cmp(&other.rule);
        if by_rule != Ordering::Equal {
            return by_rule;
        }
        compare_envs(self.env.as_slice(), other.env.as_slice())
    }
}
