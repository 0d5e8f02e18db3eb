//! Points of which nothing comes, as most of those with a parameter at the head: only points without an
//! entry, which become nothing, may stand for it. What is demanded is looked for at the others only, and so
//! are instances.

ghost use Rattle.std.specs.Prelude.{◌≡◌, ◌<◌, List, Contains, IsTrue, IfOk, Some, true, length, slice_get};
ghost use Rattle.hs_scheme.specs.declared.flow.FlowPair.{FlowPair as AnyFlow};
ghost use Rattle.hs_table.specs.Entries.{EntryData};
ghost use Rattle.hs_types.specs.Interned.{InternerData};
ghost use Rattle.hs_checker.specs.Numbers.{entries_of};
ghost use Rattle.hs_checker.specs.Inert.{IsSilent, AreSilent, IsInert, AreInert};

use crate::index::RowIndex;
use hs_flow_checker::HeadPairs;
use hs_scheme::{FlowPair, Head, OutOfMemory, Problem};
use std::alloc::Global;

/// Whether the point has no entry and becomes nothing.
fn is_silent(index: &RowIndex, heads: &HeadPairs, point: u32) -> bool
    ensures { IsTrue result → (I : InternerData) → IsSilent heads.now (entries_of I index.now) point }
{
    index.at_point(point).is_empty() && heads.at_point(point).is_empty()
}

/// For each of so many points whether it has no entry and becomes nothing.
fn silent_points(
    alloc: Global,
    index: &RowIndex,
    heads: &HeadPairs,
    points: u32,
) -> Result<Vec<bool>, OutOfMemory>
    ensures long { IfOk result (λ marks. length marks.items ≡ points) }
    ensures silent { IfOk result (λ marks. (I : InternerData) → AreSilent heads.now (entries_of I index.now) marks.items) }
{
    let mut marks = Vec::with_capacity(alloc, points as usize)?;
    for point in 0..points {
        marks.push_reserved(is_silent(index, heads, point));
    }
    Ok(marks)
}

/// Whether all of the pairs are of points that are marked.
fn are_marked(marks: &[bool], row: &[FlowPair]) -> bool
    requires { (f : AnyFlow) → Contains row.now f → f.point < length marks.now }
    ensures { IsTrue result → (f : AnyFlow) → Contains row.now f → slice_get marks.now f.point ≡ Some true }
{
    for pair in row {
        if !marks[pair.point as usize] {
            return false;
        }
    }
    true
}

/// Whether the point has a parameter at its head for which only silent points may stand.
fn is_inert(problem: &Problem, silent: &[bool], point: u32) -> bool
    requires point { point < length problem.now.points.points }
    requires long { length silent.now ≡ length problem.now.points.points }
    ensures { (E : List EntryData) → AreSilent problem.now.flow.heads E silent.now → IsTrue result
        → IsInert problem.now E point }
{
    match problem.points.head_of(point) {
        Head::Tm(_) => false,
        Head::Nt(_) => false,
        Head::Var(parameter) => {
            let rule = problem.points.rule_of(point);
            are_marked(silent, problem.flow.flow_of(rule, parameter))
        }
    }
}

/// For each point whether it has a parameter at its head for which only points may stand that have no
/// entry and become nothing.
///
/// Time is in the number of points, and in that of the pairs of the parameters at their heads. Memory is for
/// two marks for each point.
pub(crate) fn inert_points(
    alloc: Global,
    problem: &Problem,
    index: &RowIndex,
    heads: &HeadPairs,
) -> Result<Vec<bool>, OutOfMemory>
    requires { heads.now ≡ problem.now.flow.heads }
    ensures { IfOk result (λ marks. (I : InternerData) → AreInert problem.now (entries_of I index.now) marks.items) }
{
    let count = problem.points.count();
    let silent = silent_points(alloc, index, heads, count)?;
    let mut marks = Vec::with_capacity(alloc, count as usize)?;
    for point in 0..count {
        marks.push_reserved(is_inert(problem, silent.as_slice(), point));
    }
    Ok(marks)
}
