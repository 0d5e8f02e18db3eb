//! What a parameter may become.

ghost use Rattle.std.specs.Prelude.{◌≡◌, Contains, OnOk, IfOk, length};
ghost use Rattle.hs_scheme.specs.declared.flow.HeadPair.{HeadPair as AnyHead};
ghost use Rattle.hs_sites.specs.Collecting.{AnyBase, AreBases, HasBases, AddsTo};

use hs_flow_checker::HeadPairs;
use hs_scheme::{HeadPair, OutOfMemory, Problem};
use indexmap::IndexSet;
use std::alloc::Global;

/// A head may become this nonterminal with `given` arguments.
#[derive(Clone, Copy, Debug, PartialEq, Eq, Hash)]
pub(crate) struct Base {
    pub(crate) nonterminal: u32,
    pub(crate) given: u32,
}

/// What the parameter `param` of a rule may become, each once.
#[derive(Drop)]
pub(crate) struct ParameterBases {
    rule: u32,
    param: u32,
    bases: IndexSet<Base>,
}

/// Adds the base, unless it is there.
fn add(bases: &mut IndexSet<Base>, base: Base) -> Result<(), OutOfMemory>
    ensures { OnOk result (AddsTo (λ (b : AnyBase). b ≡ base) bases.old.keys bases.new.keys) }
{
    bases.insert(base)?;
    Ok(())
}

/// Adds what the point of these head pairs may become.
fn add_of_point(bases: &mut IndexSet<Base>, heads: &[HeadPair]) -> Result<(), OutOfMemory>
    ensures { OnOk result (AddsTo (λ (b : AnyBase). (h : AnyHead) × (Contains heads.now h
        × (b ≡ record { nonterminal = h.rule; given = h.given }))) bases.old.keys bases.new.keys) }
{
    for head in heads {
        let base = Base {
            nonterminal: head.rule,
            given: head.given,
        };
        add(bases, base)?;
    }
    Ok(())
}

/// Adds what the parameter may become to none.
fn add_of_parameter(
    problem: &Problem,
    heads: &HeadPairs,
    rule: u32,
    param: u32,
    bases: &mut IndexSet<Base>,
) -> Result<(), OutOfMemory>
    requires heads { heads.now ≡ problem.now.flow.heads }
    requires none { length bases.old.keys ≡ 0 }
    ensures { OnOk result (AreBases problem.now rule param bases.new.keys) }
{
    for pair in problem.flow.flow_of(rule, param) {
        add_of_point(bases, heads.at_point(pair.point))?;
    }
    Ok(())
}

impl ParameterBases {
    /// What this parameter may become. Memory is for each base, and time is for each pair of one of the
    /// parameter's flow pairs and a head pair of the same point.
    pub(crate) fn of(
        alloc: Global,
        problem: &Problem,
        heads: &HeadPairs,
        rule: u32,
        param: u32,
    ) -> Result<ParameterBases, OutOfMemory>
        requires { heads.now ≡ problem.now.flow.heads }
        ensures bases { IfOk result (HasBases problem.now) }
        ensures rule { IfOk result (λ bases. bases.rule ≡ rule) }
        ensures param { IfOk result (λ bases. bases.param ≡ param) }
    {
        let mut bases = IndexSet::new(alloc);
        add_of_parameter(problem, heads, rule, param, &mut bases)?;
        Ok(ParameterBases { rule, param, bases })
    }

    /// Makes them those of this parameter, unless they are.
    pub(crate) fn turn_to(
        &mut self,
        alloc: Global,
        problem: &Problem,
        heads: &HeadPairs,
        rule: u32,
        param: u32,
    ) -> Result<(), OutOfMemory>
        requires heads { heads.now ≡ problem.now.flow.heads }
        requires bases { HasBases problem.now self.old }
        ensures bases { OnOk result (HasBases problem.now self.new) }
        ensures rule { OnOk result (self.new.rule ≡ rule) }
        ensures param { OnOk result (self.new.param ≡ param) }
    {
        if self.rule == rule && self.param == param {
            return Ok(());
        }
        *self = ParameterBases::of(alloc, problem, heads, rule, param)?;
        Ok(())
    }

    /// The bases.
    pub(crate) fn bases(&self) -> &[Base]
        ensures { result.now ≡ self.now.bases.keys }
    {
        self.bases.as_slice()
    }
}
