//! The result of the flow analysis: which points may stand for which parameters.

ghost use Rattle.std.specs.Prelude.{◌≡◌, ◌↔◌, ℕ, ◌<◌, ◌≤◌, max, ◌&&◌, IsTrue, Contains, IfOk, length, filter, nat_eq, slice_index, vec_capacity};
ghost use Rattle.hs_scheme.specs.flow.Flow.{IsAscending, flow_cmp, IsFlowTable};
ghost use Rattle.hs_scheme.specs.flow.FlowRows.{AreOfParameters, AreStarts};

use crate::memory::OutOfMemory;
use crate::parameters::Parameters;
use std::alloc::Global;
use std::marker::Model;

/// The point may stand for this parameter, counted from 0, of this rule.
#[derive(Clone, Copy, Debug, PartialEq, Eq, PartialOrd, Ord, Hash)]
pub struct FlowPair {
    pub rule: u32,
    pub param: u32,
    pub point: u32,
}

/// The point may become the nonterminal of this rule with `given` arguments, fewer than the rule
/// has parameters.
#[derive(Clone, Copy, Debug, PartialEq, Eq, PartialOrd, Ord, Hash)]
pub struct HeadPair {
    pub point: u32,
    pub rule: u32,
    pub given: u32,
}

/// A pair of either kind.
#[derive(Clone, Copy, Debug, PartialEq, Eq, Hash)]
pub enum Pair {
    OfFlow(FlowPair),
    OfHead(HeadPair),
}

/// The flow pairs and the head pairs, each strictly ascending, compared field by field. The pairs
/// of a parameter are found without a search.
#[derive(Debug, Drop)]
pub struct FlowTable {
    pub pairs: Vec<FlowPair>,
    pub heads: Vec<HeadPair>,
    params: Parameters,
    /// Where the pairs of each parameter start, by its number, and then where all end.
    starts: Vec<usize>,
}

impl Model for FlowTable {
    ghost use Rattle.hs_scheme.specs.flow.Flow.{FlowData, coded_flow, IsFlowTable};
    ghost use Rattle.hs_scheme.specs.flow.FlowRows.{AreStarts};

    ghost Value = { FlowData };

    ghost coded = { coded_flow };

    ghost view = { λ a. record { pairs = a.pairs.items; heads = a.heads.items } };

    ghost invariant = { λ a. IsFlowTable (record { pairs = a.pairs.items; heads = a.heads.items })
        × AreStarts a.params a.pairs.items a.starts.items };
}

/// Adds this place at the end until there are `count` places, where there are fewer. There is room
/// for so many.
fn fill(starts: &mut Vec<usize>, count: usize, place: usize)
    requires { count ≤ vec_capacity starts.old }
    ensures kept { (k : ℕ) → k < length starts.old.items
        → slice_index starts.new.items k ≡ slice_index starts.old.items k }
    ensures added { (k : ℕ) → length starts.old.items ≤ k → k < length starts.new.items
        → slice_index starts.new.items k ≡ place }
    ensures len { length starts.new.items ≡ max (length starts.old.items) count }
    ensures room { vec_capacity starts.new ≡ vec_capacity starts.old }
{
    while starts.len() < count {
        starts.push_reserved(place);
    }
}

/// Where the pairs of each parameter start, by its number, and then where all end.
fn starts_of(
    alloc: Global,
    params: &Parameters,
    pairs: &[FlowPair],
) -> Result<Vec<usize>, OutOfMemory>
    requires ascending { IsAscending flow_cmp pairs.now }
    requires parameters { AreOfParameters params.now pairs.now }
    ensures { IfOk result (λ starts. AreStarts params.now pairs.now starts.items) }
{
    let count = params.count() as usize + 1;
    let mut starts = Vec::with_capacity(alloc, count)?;
    for (place, pair) in pairs.iter().enumerate() {
        let number = params.number(pair.rule, pair.param).unwrap();
        fill(&mut starts, number as usize + 1, place);
    }
    fill(&mut starts, count, pairs.len());
    Ok(starts)
}

impl FlowTable {
    /// The table of these pairs, each list strictly ascending, the flow pairs of parameters that the
    /// rules have. Time is in proportion to the pairs and the parameters, memory to the parameters.
    pub fn of(
        alloc: Global,
        params: &Parameters,
        pairs: Vec<FlowPair>,
        heads: Vec<HeadPair>,
    ) -> Result<FlowTable, OutOfMemory>
        requires ascending { IsFlowTable (record { pairs = pairs.items; heads = heads.items }) }
        requires parameters { AreOfParameters params.now pairs.items }
        ensures { IfOk result (λ table. table ≡ record { pairs = pairs.items; heads = heads.items }) }
    {
        let starts = starts_of(alloc, params, pairs.as_slice())?;
        let params = params.copy(alloc)?;
        Ok(FlowTable {
            pairs,
            heads,
            params,
            starts,
        })
    }

    /// Whether the point may stand for the parameter. Takes no memory, and time in the logarithm of
    /// the number of the parameter's pairs.
    pub fn holds(&self, rule: u32, param: u32, point: u32) -> bool
        ensures { IsTrue result ↔ Contains self.now.pairs
            (record { rule = rule; param = param; point = point }) }
    {
        let pair = FlowPair { rule, param, point };
        self.flow_of(rule, param).binary_search(&pair).is_ok()
    }

    /// The pairs of this parameter, ascending. Takes no memory, and constant time.
    pub fn flow_of(&self, rule: u32, param: u32) -> &[FlowPair]
        ensures pairs { result.now ≡ filter (λ p. nat_eq p.rule rule && nat_eq p.param param) self.now.pairs }
        ensures ascending { IsAscending flow_cmp result.now }
    {
        let Some(number) = self.params.number(rule, param) else {
            return &[];
        };
        let from = self.starts[number as usize];
        let to = self.starts[number as usize + 1];
        &self.pairs[from..to]
    }
}
