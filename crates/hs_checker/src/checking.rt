//! The check of a table.

ghost use Rattle.std.specs.Prelude.{◌≡◌, ◌↔◌, ◌<◌, [], length, map, All, Contains, IsTrue, IfOk, IfErr, OnOk};
ghost use Rattle.hs_scheme.specs.acceptance.Run.{Accepts};
ghost use Rattle.hs_table.specs.Types.{state};
ghost use Rattle.hs_table.specs.Entries.{EntryData, InShape};
ghost use Rattle.hs_table.specs.Follows.{Follows};
ghost use Rattle.hs_table.specs.Tables.{IsClosedTable, HasStart};
ghost use Rattle.hs_verdict.specs.Premises.{HasClosedFlow};
ghost use Rattle.hs_checker.specs.Slots.{AreInShape, IsCountAt, AreComplete};
ghost use Rattle.hs_checker.specs.Checked.{IsCount, IsFault, IsGap, IsFlaw, fault_of};
ghost use Rattle.hs_types.specs.Interned.{type_of_id, env_of_id, IsRow, entry_of, Grows};
ghost use Rattle.hs_checker.specs.Inert.{AreInert};
ghost use Rattle.hs_checker.specs.Numbers.{entries_of, AreRows};

use crate::fault::CheckFault;
use crate::import::table_rows;
use crate::index::RowIndex;
use crate::inert::inert_points;
use crate::instances::instances;
use crate::missing::missing_at;
use crate::terminals::complete_terminals;
use hs_flow_checker::{HeadPairs, first_gap, is_marked};
use hs_scheme::{Pair, Problem};
use hs_table::{Entry, Shape};
use hs_types::{Interner, Row, View};
use hs_verdict::know_sorted_problem;
use std::alloc::Global;

/// The fault of a flow that lacks the pair.
fn open(pair: Pair) -> CheckFault
    ensures { result ≡ fault_of pair }
{
    match pair {
        Pair::OfFlow(f) => CheckFault::FlowOpen {
            rule: f.rule,
            param: f.param,
            point: f.point,
        },
        Pair::OfHead(h) => CheckFault::HeadOpen {
            point: h.point,
            rule: h.rule,
            given: h.given,
        },
    }
}

/// Whether the entry rejects the start by the initial state.
fn is_start(entry: &Entry, body: u32) -> bool
    ensures { IsTrue result ↔ ((entry.now.point ≡ body) × ((entry.now.env ≡ []) × (entry.now.ty ≡ state 0))) }
{
    match &entry.ty.shape {
        Shape::State(q) => entry.point == body && entry.env.is_empty() && *q == 0,
        Shape::Arrow(_, _) => false,
    }
}

/// Whether the table has the start entry. Time is in the number of entries.
pub fn has_start(problem: &Problem, table: &[Entry]) -> bool
    ensures { IsTrue result ↔ HasStart problem.now table.now }
{
    if problem.points.params().rules() == 0 {
        return false;
    }
    let body = problem.points.body_of(0);
    for entry in table {
        if is_start(entry, body) {
            return true;
        }
    }
    false
}

/// Whether the row stands for an entry that rejects the start by the initial state.
fn is_start_row(types: &Interner, row: &Row, body: u32) -> bool
    requires { IsRow types.now row.now }
    ensures { IsTrue result ↔ ((row.now.point ≡ body) × ((env_of_id types.now row.now.env ≡ [])
        × (type_of_id types.now row.now.ty ≡ state 0))) }
{
    match types.view(row.ty) {
        View::State(q) => row.point == body && types.sets(row.env).is_empty() && q == 0,
        View::Arrow(_, _) => false,
    }
}

/// Whether one of the rows stands for the start entry. Time is in their number.
pub fn has_start_row(problem: &Problem, types: &Interner, rows: &[Row]) -> bool
    requires { All (IsRow types.now) rows.now }
    ensures { IsTrue result ↔ HasStart problem.now (map (entry_of types.now) rows.now) }
{
    if problem.points.params().rules() == 0 {
        return false;
    }
    let body = problem.points.body_of(0);
    for row in rows {
        if is_start_row(types, row, body) {
            return true;
        }
    }
    false
}

/// The number of instances at the point, where all that follows there is in the index. At a point that is
/// marked as inert there are none.
fn count_at(
    alloc: Global,
    types: &mut Interner,
    problem: &Problem,
    complete: &[bool],
    index: &RowIndex,
    inert: &[bool],
    point: u32,
) -> Result<u64, CheckFault>
    requires point { point < length problem.now.points.points }
    requires rows { AreRows types.old index.now }
    requires shape { AreInShape problem.now (entries_of types.old index.now) }
    requires complete { AreComplete problem.now complete.now }
    requires inert { AreInert problem.now (entries_of types.old index.now) inert.now }
    ensures closed { OnOk result ((e : EntryData) → e.point ≡ point
        → Follows problem.now (entries_of types.old index.now) e
        → Contains (entries_of types.old index.now) e) }
    ensures count { IfOk result (IsCountAt problem.now (entries_of types.old index.now) point) }
    ensures missing { IfErr result (IsGap problem.now (entries_of types.old index.now)) }
    ensures grows { OnOk result (Grows types.old types.new) }
{
    if is_marked(inert, point) {
        return Ok(0);
    }
    let all = instances(alloc, types, problem, complete, index, point)?;
    types.know_numbers();
    match missing_at(alloc, types, problem, index, point, all.as_slice())? {
        Some(row) => {
            let entry = types.tree(alloc, row)?;
            Err(CheckFault::Missing { entry })
        }
        None => Ok(all.len() as u64),
    }
}

/// The number of instances at all points, where all that follows from the index is in it.
fn count_points(
    alloc: Global,
    types: &mut Interner,
    problem: &Problem,
    complete: &[bool],
    index: &RowIndex,
    inert: &[bool],
) -> Result<u64, CheckFault>
    requires rows { AreRows types.old index.now }
    requires shape { AreInShape problem.now (entries_of types.old index.now) }
    requires complete { AreComplete problem.now complete.now }
    requires inert { AreInert problem.now (entries_of types.old index.now) inert.now }
    ensures closed { OnOk result (IsClosedTable problem.now (entries_of types.old index.now)) }
    ensures count { IfOk result (IsCount problem.now (entries_of types.old index.now)) }
    ensures missing { IfErr result (IsGap problem.now (entries_of types.old index.now)) }
    ensures grows { OnOk result (Grows types.old types.new) }
{
    let mut count: u64 = 0;
    for point in 0..problem.points.count() {
        let added = count_at(alloc, types, problem, complete, index, inert, point)?;
        count = count.saturating_add(added);
    }
    Ok(count)
}

/// The number of instances, where all that follows from the index is in it. It finds first which
/// terminals are complete.
fn count_closed(
    alloc: Global,
    types: &mut Interner,
    problem: &Problem,
    index: &RowIndex,
    inert: &[bool],
) -> Result<u64, CheckFault>
    requires rows { AreRows types.old index.now }
    requires shape { AreInShape problem.now (entries_of types.old index.now) }
    requires inert { AreInert problem.now (entries_of types.old index.now) inert.now }
    ensures closed { OnOk result (IsClosedTable problem.now (entries_of types.old index.now)) }
    ensures count { IfOk result (IsCount problem.now (entries_of types.old index.now)) }
    ensures missing { IfErr result (IsGap problem.now (entries_of types.old index.now)) }
    ensures grows { OnOk result (Grows types.old types.new) }
{
    let complete = complete_terminals(alloc, problem)?;
    count_points(alloc, types, problem, complete.as_slice(), index, inert)
}

/// The number of instances of the entries of the index, where the flow holds all that is demanded, and the
/// entries are all that follows from them.
fn check_index(
    alloc: Global,
    types: &mut Interner,
    problem: &Problem,
    index: &RowIndex,
) -> Result<u64, CheckFault>
    requires rows { AreRows types.old index.now }
    requires shape { AreInShape problem.now (entries_of types.old index.now) }
    ensures flow { OnOk result (HasClosedFlow problem.now) }
    ensures closed { OnOk result (IsClosedTable problem.now (entries_of types.old index.now)) }
    ensures count { IfOk result (IsCount problem.now (entries_of types.old index.now)) }
    ensures flaw { IfErr result (IsFlaw problem.now (entries_of types.old index.now)) }
    ensures grows { OnOk result (Grows types.old types.new) }
{
    let heads = HeadPairs::of(alloc, problem)?;
    let inert = inert_points(alloc, problem, index, &heads)?;
    let gap = first_gap(problem, &heads, inert.as_slice());
    drop(heads);
    if let Some(pair) = gap {
        return Err(open(pair));
    }
    count_closed(alloc, types, problem, index, inert.as_slice())
}

/// So by the rows of entries that are in shape.
fn check_closed(
    alloc: Global,
    types: &mut Interner,
    problem: &Problem,
    rows: &[Row],
) -> Result<u64, CheckFault>
    requires rows { AreRows types.old rows.now }
    requires shape { AreInShape problem.now (entries_of types.old rows.now) }
    ensures flow { OnOk result (HasClosedFlow problem.now) }
    ensures closed { OnOk result (IsClosedTable problem.now (entries_of types.old rows.now)) }
    ensures count { IfOk result (IsCount problem.now (entries_of types.old rows.now)) }
    ensures flaw { IfErr result (IsFlaw problem.now (entries_of types.old rows.now)) }
    ensures grows { OnOk result (Grows types.old types.new) }
{
    know_sorted_problem(problem);
    let index = RowIndex::of(alloc, problem.points.count(), rows)?;
    let checked = check_index(alloc, types, problem, &index);
    drop(index);
    checked
}

/// The check of a table by the rows of those of its entries that are in shape.
fn check_table(
    alloc: Global,
    types: &mut Interner,
    problem: &Problem,
    table: &[Entry],
    rows: &[Row],
) -> Result<u64, CheckFault>
    requires rows { AreRows types.old rows.now }
    requires entries { (e : EntryData) → Contains (entries_of types.old rows.now) e
        ↔ (Contains table.now e × InShape problem.now e) }
    ensures closed { OnOk result (HasClosedFlow problem.now
        × (IsClosedTable problem.now table.now × (HasStart problem.now table.now → ⊥))) }
    ensures count { IfOk result (IsCount problem.now table.now) }
    ensures accepted { OnOk result
        (Accepts problem.now.sorted.scheme.rules problem.now.sorted.automaton.transitions) }
    ensures fault { IfErr result (IsFault problem.now table.now) }
{
    know_sorted_problem(problem);
    let instances = check_closed(alloc, types, problem, rows)?;
    if has_start(problem, table) {
        return Err(CheckFault::HasStart);
    }
    Ok(instances)
}

/// The number of the table's instances, or 2^64 - 1 where there are more, where the flow holds all
/// that is demanded, and the table all that follows from it and not the start entry. Then the
/// automaton accepts the scheme's value tree, by Kobayashi, "Types and higher-order recursion schemes
/// for verification of higher-order programs" (POPL 2009).
///
/// The table may be any list: entries out of shape don't count, and repeats change nothing. The
/// faults are tried in their order: `FlowOpen`, `HeadOpen`, `Missing`, `HasStart`, each exactly where
/// there is such a pair or entry.
///
/// Time is in proportion to the meetings: of points with what their heads may become, of the points of
/// terminals with the states, and of the partial results at each instance with the entries that they
/// meet, with the logarithms of the numbers of pairs, types and entries; and in the size of the entries,
/// whose types, sets and environments get numbers first, and are then compared by these. Memory is for
/// these, for a row of each entry and a reference to it, two numbers and two marks for each point, a mark
/// for each terminal, and at one point a mark for each state, the types and what follows by one of them.
/// Calls recurse as deep as types.
pub fn check(alloc: Global, problem: &Problem, table: &[Entry]) -> Result<u64, CheckFault>
    ensures closed { OnOk result (HasClosedFlow problem.now
        × (IsClosedTable problem.now table.now × (HasStart problem.now table.now → ⊥))) }
    ensures count { IfOk result (IsCount problem.now table.now) }
    ensures accepted { OnOk result
        (Accepts problem.now.sorted.scheme.rules problem.now.sorted.automaton.transitions) }
    ensures fault { IfErr result (IsFault problem.now table.now) }
{
    let mut types = Interner::new(alloc);
    let rows = table_rows(alloc, problem, &mut types, table)?;
    let checked = check_table(alloc, &mut types, problem, table, rows.as_slice());
    drop(rows);
    drop(types);
    checked
}

/// `check` of the entries that the rows stand for, which are in shape: nothing is told as a tree but an
/// entry that is missing. The interner takes no part in the answer but for what the rows stand for. Where a
/// number is answered it has only grown; else nothing is said of it.
///
/// Time and memory are as for `check`, without a look at the entries.
pub fn check_rows(
    alloc: Global,
    problem: &Problem,
    types: &mut Interner,
    rows: &[Row],
) -> Result<u64, CheckFault>
    requires rows { All (IsRow types.old) rows.now }
    requires shape { (e : EntryData) → Contains (map (entry_of types.old) rows.now) e
        → InShape problem.now e }
    ensures closed { OnOk result (HasClosedFlow problem.now
        × (IsClosedTable problem.now (map (entry_of types.old) rows.now) × (HasStart problem.now (map (entry_of types.old) rows.now) → ⊥))) }
    ensures count { IfOk result (IsCount problem.now (map (entry_of types.old) rows.now)) }
    ensures accepted { OnOk result
        (Accepts problem.now.sorted.scheme.rules problem.now.sorted.automaton.transitions) }
    ensures fault { IfErr result (IsFault problem.now (map (entry_of types.old) rows.now)) }
    ensures grows { OnOk result (Grows types.old types.new) }
{
    know_sorted_problem(problem);
    let start = has_start_row(problem, types, rows);
    let instances = check_closed(alloc, types, problem, rows)?;
    if start {
        return Err(CheckFault::HasStart);
    }
    Ok(instances)
}
