//! Least tables, problems over flows with a pair less, and tables with an entry less or changed.

ghost use Rattle.std.specs.Prelude.{◌≡◌, IfOk};
ghost use Rattle.hs_scheme.specs.flow.Flow.{IsAscending, flow_cmp, head_cmp};
ghost use Rattle.hs_scheme.specs.Problem.{IsProblem};

use hs_scheme::{FlowPair, FlowTable, HeadPair, OutOfMemory, Problem};
use hs_table::{Entry, Ty};
use hs_table_plain::{leads_within, least_table};
use std::alloc::Global;
use std::mem::forget;
use std::test::Fail;

/// The least table, by its plain definition, where it is within the budget and no transition leads to a
/// state out of range.
pub(crate) fn table_within(
    alloc: Global,
    problem: &Problem,
    budget: u32,
) -> Result<Option<Vec<Entry>>, OutOfMemory> {
    if !leads_within(problem) {
        return Ok(None);
    }
    least_table(alloc, problem, budget)
}

/// The least table, which has at most 100 entries.
pub(crate) fn table_of(alloc: Global, problem: &Problem) -> Result<Vec<Entry>, Fail> {
    match table_within(alloc, problem, 100)? {
        None => Err("a longer table or a state out of range")?,
        Some(table) => Ok(table),
    }
}

/// A copy of the flow pairs.
fn flow_pairs(alloc: Global, flow: &FlowTable) -> Result<Vec<FlowPair>, OutOfMemory>
    ensures same { IfOk result (λ pairs. pairs.items ≡ flow.now.pairs) }
    ensures ascending { IfOk result (λ pairs. IsAscending flow_cmp pairs.items) }
{
    Ok(flow.pairs.iter().copied().collect(alloc)?)
}

/// A copy of the head pairs.
fn head_pairs(alloc: Global, flow: &FlowTable) -> Result<Vec<HeadPair>, OutOfMemory>
    ensures same { IfOk result (λ pairs. pairs.items ≡ flow.now.heads) }
    ensures ascending { IfOk result (λ pairs. IsAscending head_cmp pairs.items) }
{
    Ok(flow.heads.iter().copied().collect(alloc)?)
}

/// The flow without the flow pair at this place.
fn fewer_pairs(alloc: Global, problem: &Problem, place: usize) -> Result<FlowTable, Fail>
    ensures { IfOk result (λ flow.
        IsProblem (record { sorted = problem.now.sorted; points = problem.now.points; flow = flow })) }
{
    let flow = &problem.flow;
    let points = &problem.points;
    let mut pairs = flow_pairs(alloc, flow)?;
    if place >= pairs.len() {
        return Err("no such pair")?;
    }
    pairs.remove(place);
    let heads = head_pairs(alloc, flow)?;
    Ok(FlowTable::of(alloc, points.params(), pairs, heads)?)
}

/// The flow without the head pair at this place.
fn fewer_heads(alloc: Global, problem: &Problem, place: usize) -> Result<FlowTable, Fail>
    ensures { IfOk result (λ flow.
        IsProblem (record { sorted = problem.now.sorted; points = problem.now.points; flow = flow })) }
{
    let flow = &problem.flow;
    let points = &problem.points;
    let mut heads = head_pairs(alloc, flow)?;
    if place >= heads.len() {
        return Err("no such pair")?;
    }
    heads.remove(place);
    let pairs = flow_pairs(alloc, flow)?;
    Ok(FlowTable::of(alloc, points.params(), pairs, heads)?)
}

/// A pair of a flow, by its place.
#[derive(Clone, Copy)]
pub(crate) enum Left {
    Pair(usize),
    Head(usize),
}

/// The flow without this pair.
fn fewer(alloc: Global, problem: &Problem, left: Left) -> Result<FlowTable, Fail>
    ensures { IfOk result (λ flow.
        IsProblem (record { sorted = problem.now.sorted; points = problem.now.points; flow = flow })) }
{
    match left {
        Left::Pair(place) => fewer_pairs(alloc, problem, place),
        Left::Head(place) => fewer_heads(alloc, problem, place),
    }
}

/// The problem over another flow, where one was made.
fn over(problem: Problem, made: Result<FlowTable, Fail>) -> Result<Problem, Fail>
    requires { IfOk made (λ flow.
        IsProblem (record { sorted = problem.sorted; points = problem.points; flow = flow })) }
{
    match made {
        Ok(flow) => {
            let Problem { sorted, points, .. } = problem;
            Ok(Problem::new(sorted, points, flow))
        }
        Err(fault) => {
            forget(problem);
            Err(fault)
        }
    }
}

/// The problem over its flow without this pair.
pub(crate) fn without_pair(alloc: Global, problem: Problem, left: Left) -> Result<Problem, Fail> {
    let made = fewer(alloc, &problem, left);
    over(problem, made)
}

/// Entries of a table that are left out.
#[derive(Clone, Copy)]
pub(crate) enum LeftOut {
    Nothing,
    /// The one at this place.
    Place(usize),
    /// Those at this point.
    Point(u32),
}

/// Whether the entry at the place is left out.
fn is_left_out(left_out: LeftOut, place: usize, entry: &Entry) -> bool {
    match left_out {
        LeftOut::Nothing => false,
        LeftOut::Place(at) => at == place,
        LeftOut::Point(point) => entry.point == point,
    }
}

/// The other entries.
pub(crate) fn others(
    alloc: Global,
    table: &[Entry],
    left_out: LeftOut,
) -> Result<Vec<Entry>, OutOfMemory> {
    let mut rest = Vec::new(alloc);
    for (place, entry) in table.iter().enumerate() {
        if !is_left_out(left_out, place, entry) {
            rest.push(entry.copy(alloc)?)?;
        }
    }
    Ok(rest)
}

/// Adds the entry with a state out of range as its type.
pub(crate) fn push_changed(
    alloc: Global,
    entry: &Entry,
    out: &mut Vec<Entry>,
) -> Result<(), OutOfMemory> {
    let mut changed = entry.copy(alloc)?;
    changed.ty = Ty::state(9);
    out.push(changed)?;
    Ok(())
}
