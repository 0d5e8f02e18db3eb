//! The entries from which others may follow at a point.

ghost use Rattle.std.specs.Prelude.{◌≡◌, ◌⊎◌, ◌<◌, ◌&&◌, ℕ, Contains, IfOk, OnOk, filter, length, nat_eq, slice_index};
ghost use Rattle.std.specs.List.Sorted.{IsNonDecreasingBy};
ghost use Rattle.hs_scheme.specs.declared.flow.FlowPair.{FlowPair as AnyFlow};
ghost use Rattle.hs_scheme.specs.flow.Points.{NonterminalWithin, point_at};
ghost use Rattle.hs_types.specs.Interned.{RowData};
ghost use Rattle.hs_reads.specs.Lists.{list_of};
ghost use Rattle.hs_minimal.specs.Following.{IsGathered, AddsRowsOf, IsHeadSource};

use crate::growing::Growing;
use hs_scheme::{FlowPair, Head, OutOfMemory, Problem};
use hs_types::Row;
use hs_verdict::know_sorted_problem;

/// The rule in which the point stands.
pub(crate) fn rule_at(problem: &Problem, point: u32) -> u32
    requires { point < length problem.now.points.points }
    ensures { result ≡ (point_at problem.now.points point).rule }
{
    problem.points.rule_of(point)
}

/// The head of the point.
pub(crate) fn head_at(problem: &Problem, point: u32) -> Head
    requires { point < length problem.now.points.points }
    ensures head { result ≡ (point_at problem.now.points point).head }
    ensures nonterminal { NonterminalWithin (length problem.now.points.bodies) result }
{
    know_sorted_problem(problem);
    problem.points.head_of(point)
}

/// The points of its arguments.
pub(crate) fn args_at(problem: &Problem, point: u32) -> &[u32]
    requires { point < length problem.now.points.points }
    ensures { result.now ≡ (point_at problem.now.points point).args }
{
    problem.points.args_of(point)
}

/// The point of the rule's body.
fn body_of(problem: &Problem, rule: u32) -> u32
    requires { rule < length problem.now.points.bodies }
    ensures { result ≡ slice_index problem.now.points.bodies rule }
{
    problem.points.body_of(rule)
}

/// The pairs of the points that may stand for the parameter.
fn flow_of(problem: &Problem, rule: u32, parameter: u32) -> &[FlowPair]
    ensures { result.now ≡ filter (λ (f : AnyFlow). nat_eq f.rule rule && nat_eq f.param parameter)
        problem.now.flow.pairs }
{
    problem.flow.flow_of(rule, parameter)
}

/// Adds the entries at the point.
pub(crate) fn add_rows(
    growing: &Growing,
    point: u32,
    rows: &mut Vec<Row>,
) -> Result<(), OutOfMemory>
    ensures { OnOk result (AddsRowsOf growing.now (λ u. u ≡ point) rows.old.items rows.new.items) }
{
    rows.extend_from_slice(growing.rows_at(point))?;
    Ok(())
}

/// Adds the entries at the points that may stand for a parameter.
fn add_flow(growing: &Growing, pairs: &[FlowPair], rows: &mut Vec<Row>) -> Result<(), OutOfMemory>
    ensures { OnOk result (AddsRowsOf growing.now (λ u. (f : AnyFlow) × (Contains pairs.now f
        × (f.point ≡ u))) rows.old.items rows.new.items) }
{
    for pair in pairs {
        add_rows(growing, pair.point, rows)?;
    }
    Ok(())
}

/// Adds the entries at the points of arguments.
fn add_args(growing: &Growing, args: &[u32], rows: &mut Vec<Row>) -> Result<(), OutOfMemory>
    ensures { OnOk result (AddsRowsOf growing.now (Contains args.now) rows.old.items rows.new.items) }
{
    for arg in args {
        add_rows(growing, *arg, rows)?;
    }
    Ok(())
}

/// Adds the entries that say something of the head of the point.
pub(crate) fn add_head(
    growing: &Growing,
    point: u32,
    rows: &mut Vec<Row>,
) -> Result<(), OutOfMemory>
    requires { point < length growing.now.problem.points.points }
    ensures { OnOk result (AddsRowsOf growing.now (IsHeadSource growing.now.problem
        (point_at growing.now.problem.points point).rule
        (point_at growing.now.problem.points point).head) rows.old.items rows.new.items) }
{
    let problem = growing.problem();
    match head_at(problem, point) {
        Head::Tm(_) => Ok(()),
        Head::Nt(rule) => add_rows(growing, body_of(problem, rule), rows),
        Head::Var(parameter) => {
            let pairs = flow_of(problem, rule_at(problem, point), parameter);
            add_flow(growing, pairs, rows)
        }
    }
}

/// The entries that are kept at the arguments of the point, and those that say something of its head, in
/// the order of their points.
pub(crate) fn gathered(growing: &Growing, point: u32) -> Result<Vec<Row>, OutOfMemory>
    requires { point < length growing.now.problem.points.points }
    ensures order { IfOk result (λ rows. IsNonDecreasingBy (λ (r : RowData). r.point) rows.items) }
    ensures rows { IfOk result (λ rows. IsGathered growing.now point rows.items) }
{
    let mut rows = Vec::new(growing.alloc);
    add_head(growing, point, &mut rows)?;
    add_args(growing, args_at(growing.problem(), point), &mut rows)?;
    rows.sort_unstable_by_key(|row| row.point);
    Ok(rows)
}
