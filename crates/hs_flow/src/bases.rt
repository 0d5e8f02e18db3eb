//! What parameters may become.

ghost use Rattle.std.specs.Prelude.{◌≡◌, ◌↔◌, ◌⊎◌, ℕ, List, Contains, IfOk, OnOk, OnErr, IsTrue};
ghost use Rattle.hs_flow.specs.declared.bases.Base.{Base as AnyBase};
ghost use Rattle.hs_flow.specs.Bases.{HasBase, IsNumber, TellsNew};

use crate::lists::Lists;
use hs_scheme::{OutOfMemory, Parameters};
use indexmap::IndexSet;
use std::alloc::Global;
use std::marker::Model;

/// The most parameters of a scheme whose bases are kept as flags: 64 MiB for all of them at most.
const MOST_IN_ROWS: u32 = 8_192;

/// The parameter may become the nonterminal of rule `base` with `given` arguments.
#[derive(Clone, Copy, Debug, PartialEq, Eq, Hash)]
pub(crate) struct Base {
    pub(crate) rule: u32,
    pub(crate) param: u32,
    pub(crate) base: u32,
    pub(crate) given: u32,
}

/// A set of bases of parameters. A base is itself the number of a parameter, the first that is still
/// missing, so that few parameters have few bases: then it is a flag in the parameter's row.
#[derive(Drop)]
pub(crate) struct Bases {
    /// For each parameter, by its number, its bases, by theirs. A parameter without bases has an
    /// empty row, and there is no row where the parameters are too many.
    rows: Lists<bool>,
    others: IndexSet<Base>,
}

impl Model for Bases {
    ghost use Rattle.hs_flow.specs.Bases.{BasesData, coded_bases};

    ghost Value = { BasesData };

    ghost coded = { coded_bases };

    ghost view = { λ a. record { rows = a.rows; others = a.others.keys } };
}

/// Adds a base to the set, and answers whether it is new.
fn add_other(others: &mut IndexSet<Base>, base: Base) -> Result<bool, OutOfMemory>
    ensures bases { OnOk result ((b : AnyBase) →
        Contains others.new.keys b ↔ (Contains others.old.keys b ⊎ (b ≡ base))) }
    ensures new { IfOk result (TellsNew (Contains others.old.keys base)) }
    ensures same { OnErr result (others.new.keys ≡ others.old.keys) }
{
    let added = others.insert(base)?;
    Ok(added)
}

impl Bases {
    /// No bases.
    pub(crate) fn new(alloc: Global, params: &Parameters) -> Result<Bases, OutOfMemory>
        ensures { IfOk result (λ bases. (b : AnyBase) → HasBase params.now bases b → ⊥) }
    {
        let count = if params.count() <= MOST_IN_ROWS {
            params.count() as usize
        } else {
            0
        };
        Ok(Bases {
            rows: Lists::empty(alloc, count)?,
            others: IndexSet::new(alloc),
        })
    }

    /// Whether a base is there, by the number of its parameter and its own. `false` doesn't tell that
    /// it isn't. Takes no memory.
    pub(crate) fn is_flagged(&self, number: Option<u32>, flag: Option<u32>) -> bool
        ensures { IsTrue result → (counts : List ℕ) (b : AnyBase) → IsNumber counts b.rule b.param number
            → IsNumber counts b.base b.given flag → HasBase counts self.now b }
    {
        let Some(number) = number else {
            return false;
        };
        let Some(flag) = flag else {
            return false;
        };
        self.rows.has_flag(number as usize, flag as usize)
    }

    /// Adds a base, and answers whether it is new. Constant time on average.
    pub(crate) fn insert(&mut self, params: &Parameters, base: Base) -> Result<bool, OutOfMemory>
        ensures bases { OnOk result ((b : AnyBase) →
            HasBase params.now self.new b ↔ (HasBase params.now self.old b ⊎ (b ≡ base))) }
        ensures new { IfOk result (TellsNew (HasBase params.now self.old base)) }
        ensures same { OnErr result (self.new ≡ self.old) }
    {
        let Some(number) = params.number(base.rule, base.param) else {
            return add_other(&mut self.others, base);
        };
        let Some(flag) = params.number(base.base, base.given) else {
            return add_other(&mut self.others, base);
        };
        if number as usize >= self.rows.len() {
            return add_other(&mut self.others, base);
        }
        let width = params.count() as usize;
        self.rows.set_flag(number as usize, flag as usize, width)
    }
}
