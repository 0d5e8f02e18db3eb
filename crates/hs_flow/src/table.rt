//! The pairs found, in tables.

ghost use Rattle.std.specs.Prelude.{◌≡◌, ◌≢◌, ◌↔◌, ◌+◌, ◌++◌, ◌∷◌, []};
ghost use Rattle.std.specs.Prelude.{ℕ, length, sum, Contains, IfOk, OnOk, AllPairs};
ghost use Rattle.std.specs.List.Sorted.{IsPermutation};
ghost use Rattle.hs_scheme.specs.declared.flow.FlowPair.{FlowPair as AnyFlowPair};
ghost use Rattle.hs_scheme.specs.declared.flow.Pair.{Pair as AnyPair};
ghost use Rattle.hs_scheme.specs.declared.flow.Pair.TheVariants.{OfFlow};
ghost use Rattle.hs_scheme.specs.sorting.Parameters.{IsParameter};
ghost use Rattle.hs_scheme.specs.flow.Flow.{IsAscending, flow_cmp, IsFlowTable, pairs_of};
ghost use Rattle.hs_flow.specs.Lists.{list_of};
ghost use Rattle.hs_flow.specs.Tables.{flows_in, heads_in, of_number, HasSorted};

use crate::lists::Lists;
use hs_scheme::{FlowPair, FlowTable, HeadPair, OutOfMemory, Pair, Parameters};
use std::alloc::Global;

/// Adds a flow pair to the list of its parameter's number.
fn add_pair(lists: &mut Lists<FlowPair>, params: &Parameters, pair: Pair) -> Result<(), OutOfMemory>
    requires len { length lists.old ≡ sum params.now }
    requires parameter { (f : AnyFlowPair) → pair ≡ OfFlow f → IsParameter params.now f.rule f.param }
    ensures len { OnOk result (length lists.new ≡ length lists.old) }
    ensures lists { OnOk result ((k : ℕ) →
        list_of lists.new k ≡ list_of lists.old k ++ of_number params.now k (flows_in (pair ∷ []))) }
{
    match pair {
        Pair::OfFlow(flow) => {
            let number = params.number(flow.rule, flow.param).unwrap();
            lists.push(number as usize, flow)
        }
        Pair::OfHead(_) => Ok(()),
    }
}

/// The flow pairs of each parameter, in the list of its number, in the order in which they were
/// found.
fn by_parameter(
    alloc: Global,
    params: &Parameters,
    found: &[Pair],
) -> Result<Lists<FlowPair>, OutOfMemory>
    requires { (f : AnyFlowPair) → Contains found.now (OfFlow f) → IsParameter params.now f.rule f.param }
    ensures len { IfOk result (λ lists. length lists ≡ sum params.now) }
    ensures lists { IfOk result (λ lists.
        (k : ℕ) → list_of lists k ≡ of_number params.now k (flows_in found.now)) }
{
    let mut lists = Lists::empty(alloc, params.count() as usize)?;
    for pair in found {
        add_pair(&mut lists, params, *pair)?;
    }
    Ok(lists)
}

/// Adds these pairs at the end, in ascending order. `sorted` is room to sort them in.
fn add_sorted(
    pairs: &mut Vec<FlowPair>,
    sorted: &mut Vec<FlowPair>,
    row: &[FlowPair],
) -> Result<(), OutOfMemory>
    ensures { OnOk result (HasSorted row.now pairs.old.items pairs.new.items) }
{
    sorted.clear();
    sorted.extend_from_slice(row)?;
    sorted.sort_unstable();
    pairs.extend_from_slice(sorted.as_slice())?;
    Ok(())
}

/// The flow pairs in ascending order, parameter by parameter. The pairs found are given back before
/// these are put together.
fn ascending(
    alloc: Global,
    params: &Parameters,
    found: Vec<Pair>,
) -> Result<Vec<FlowPair>, OutOfMemory>
    requires once { AllPairs (λ a b. a ≢ b) found.items }
    requires parameters { (f : AnyFlowPair) →
        Contains found.items (OfFlow f) → IsParameter params.now f.rule f.param }
    ensures permutation { IfOk result (λ pairs. IsPermutation (flows_in found.items) pairs.items) }
    ensures ascending { IfOk result (λ pairs. IsAscending flow_cmp pairs.items) }
{
    let lists = by_parameter(alloc, params, found.as_slice())?;
    drop(found);
    let mut pairs = Vec::new(alloc);
    let mut sorted = Vec::new(alloc);
    for number in 0..lists.len() {
        add_sorted(&mut pairs, &mut sorted, lists.list(number))?;
    }
    Ok(pairs)
}

/// The head pairs, in the order in which they were found.
fn heads_of(alloc: Global, found: &[Pair]) -> Result<Vec<HeadPair>, OutOfMemory>
    ensures { IfOk result (λ heads. heads.items ≡ heads_in found.now) }
{
    let mut heads = Vec::new(alloc);
    for pair in found {
        if let Pair::OfHead(head) = pair {
            heads.push(*head)?;
        }
    }
    Ok(heads)
}

/// The pairs of each kind, in ascending order.
pub(crate) fn table(
    alloc: Global,
    params: &Parameters,
    found: Vec<Pair>,
) -> Result<FlowTable, OutOfMemory>
    requires once { AllPairs (λ a b. a ≢ b) found.items }
    requires parameters { (f : AnyFlowPair) →
        Contains found.items (OfFlow f) → IsParameter params.now f.rule f.param }
    ensures same { IfOk result (λ table.
        (q : AnyPair) → Contains found.items q ↔ Contains (pairs_of table.pairs table.heads) q) }
    ensures ascending { IfOk result IsFlowTable }
    ensures len { IfOk result (λ table. length table.pairs + length table.heads ≡ length found.items) }
{
    let mut heads = heads_of(alloc, found.as_slice())?;
    heads.sort_unstable();
    let pairs = ascending(alloc, params, found)?;
    let made = FlowTable::of(alloc, params, pairs, heads)?;
    Ok(made)
}
