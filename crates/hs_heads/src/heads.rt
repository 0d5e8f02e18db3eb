//! The types of the head of a point.

ghost use Rattle.std.specs.Prelude.{◌≡◌, ◌<◌, ◌&&◌, List, Some, filter, length, nat_eq, slice_get, slice_index, All, IfOk, OnOk};
ghost use Rattle.std.specs.List.Sorted.{IsNonDecreasingBy};
ghost use Rattle.hs_scheme.specs.declared.flow.FlowPair.{FlowPair as AnyFlow};
ghost use Rattle.hs_scheme.specs.flow.Points.{PointData, NonterminalWithin, point_at};
ghost use Rattle.hs_table.specs.Entries.{EntryData, params_of};
ghost use Rattle.hs_types.specs.Interned.{RowData, IsRow, Grows};
ghost use Rattle.hs_choices.specs.Numbered.{AreTableRows};
ghost use Rattle.hs_heads.specs.HeadTypes.{AreHeadTypes};
ghost use Rattle.hs_heads.specs.Sources.{GainsTypes, HeadSays};
ghost use Rattle.hs_heads.specs.Splits.{IsHeadWithin};

use crate::rows::{add_bodies, add_flow};
use crate::splits::{HeadType, split_all};
use crate::terminals::add_terminal;
use hs_choices::{Compared, rows_at};
use hs_reads::Reads;
use hs_scheme::{FlowPair, Head, OutOfMemory, Problem};
use hs_table::parameters;
use hs_types::{Row, TyId};
use hs_verdict::know_sorted_problem;
use indexmap::IndexSet;
use std::alloc::Global;

/// The rule in which the point stands.
fn rule_at(problem: &Problem, point: u32) -> u32
    requires { point < length problem.now.points.points }
    ensures { result ≡ (point_at problem.now.points point).rule }
{
    problem.points.rule_of(point)
}

/// The head of the point.
fn head_at(problem: &Problem, point: u32) -> Head
    requires { point < length problem.now.points.points }
    ensures head { result ≡ (point_at problem.now.points point).head }
    ensures nonterminal { NonterminalWithin (length problem.now.points.bodies) result }
    ensures parameter { IsHeadWithin (params_of problem.now (point_at problem.now.points point).rule) result }
{
    know_sorted_problem(problem);
    problem.points.head_of(point)
}

/// How many arguments the point has.
fn arguments_at(problem: &Problem, point: u32) -> usize
    requires { point < length problem.now.points.points }
    ensures { result ≡ length (point_at problem.now.points point).args }
{
    problem.points.args_of(point).len()
}

/// The point of the rule's body.
fn body_of(problem: &Problem, rule: u32) -> u32
    requires { rule < length problem.now.points.bodies }
    ensures { result ≡ slice_index problem.now.points.bodies rule }
{
    problem.points.body_of(rule)
}

/// The pairs of the points that may stand for the parameter.
fn flow_of(problem: &Problem, rule: u32, parameter: u32) -> &[FlowPair]
    ensures { result.now ≡ filter (λ (f : AnyFlow). nat_eq f.rule rule && nat_eq f.param parameter)
        problem.now.flow.pairs }
{
    problem.flow.flow_of(rule, parameter)
}

/// Adds the types of the point's head in whose last states it is read.
fn add_types(
    types: &mut Compared,
    problem: &Problem,
    reads: &Reads,
    table: &[Row],
    point: u32,
    found: &mut IndexSet<TyId>,
) -> Result<(), OutOfMemory>
    requires point { point < length problem.now.points.points }
    requires table { All (IsRow types.old) table.now }
    requires order { IsNonDecreasingBy (λ (r : RowData). r.point) table.now }
    ensures { OnOk result (GainsTypes types.old types.new found.old.keys found.new.keys
        (HeadSays problem.now reads.now types.old table.now point
        (point_at problem.now.points point).rule (point_at problem.now.points point).head)) }
{
    match head_at(problem, point) {
        Head::Tm(terminal) => {
            add_terminal(types, problem, terminal, reads.states_at(point), found)
        }
        Head::Nt(rule) => {
            let rows = rows_at(table, body_of(problem, rule));
            add_bodies(types, reads, point, rows, found)
        }
        Head::Var(parameter) => {
            let pairs = flow_of(problem, rule_at(problem, point), parameter);
            add_flow(types.interner(), reads, point, table, pairs, found)
        }
    }
}

/// The types of the point's head that have a set for each of its arguments and a rest, in whose last
/// state the point is read, each once. The point, counted from 0, is one of the problem's. The table is
/// in the order of points; where its rows are those of the entries of a table that count, just the types
/// are found that these say of the head.
///
/// Of a terminal a type for each state in which the point is read, and there for each child; of a
/// nonterminal one for each row at its body; of a parameter those of the rows at each point that may
/// stand for it. A type costs as much as it has sets, and a point that may stand for a parameter the
/// logarithm of the table's length.
pub fn head_types(
    alloc: Global,
    types: &mut Compared,
    problem: &Problem,
    reads: &Reads,
    table: &[Row],
    point: u32,
) -> Result<Vec<HeadType>, OutOfMemory>
    requires point { point < length problem.now.points.points }
    requires table { All (IsRow types.old) table.now }
    requires order { IsNonDecreasingBy (λ (r : RowData). r.point) table.now }
    ensures found { IfOk result (λ found. (C : List EntryData)
        → AreTableRows problem.now C types.old table.now
        → (of : PointData) → slice_get problem.now.points.points point ≡ Some of
        → AreHeadTypes problem.now C reads.now point of types.new found.items) }
    ensures grows { OnOk result (Grows types.old types.new) }
{
    let mut found = IndexSet::new(alloc);
    add_types(types, problem, reads, table, point, &mut found)?;
    let head = head_at(problem, point);
    let params = parameters(problem, rule_at(problem, point));
    let count = arguments_at(problem, point);
    split_all(alloc, types, head, params, count, found.as_slice())
}
