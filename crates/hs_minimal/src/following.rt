//! What weakly follows at a point.

ghost use Rattle.std.specs.Prelude.{◌≡◌, ◌<◌, ◌++◌, ℕ, List, Some, All, Contains, IfOk, OnOk, length, map, slice_get};
ghost use Rattle.std.specs.List.Sorted.{IsNonDecreasingBy};
ghost use Rattle.hs_scheme.specs.flow.Points.{PointData, point_at};
ghost use Rattle.hs_table.specs.Entries.{EntryData, InShape};
ghost use Rattle.hs_types.specs.Interned.{InternerData, RowData, IsRow, type_of_id, entry_of, Grows};
ghost use Rattle.hs_choices.specs.Numbered.{AreTableRows};
ghost use Rattle.hs_heads.specs.HeadTypes.{HeadTypeData, sets_of, IsHeadTypeAt, AreHeadTypes};
ghost use Rattle.hs_reads.specs.Own.{AreAllPairs};
ghost use Rattle.hs_minimal.specs.Growing.{IsGrowing, AreAdded};
ghost use Rattle.hs_minimal.specs.Following.{row_with, IsSplitAtArgs, AddsFollowing, AddsFollowingAll, AreFollowingFrom, AreLeastFollowing};

use crate::children::{by_children, has_all_arguments};
use crate::choosing::may_choose;
use crate::dropping::NoneDropped;
use crate::gathering::{args_at, gathered, head_at};
use crate::growing::Growing;
use hs_choices::{Compared, least_unions, rows_of_arguments_are_of_one_rule, slots_for};
use hs_heads::{HeadType, head_types};
use hs_reads::Reads;
use hs_scheme::{Head, OutOfMemory, Problem};
use hs_types::{EnvId, Row, TyId};
use hs_verdict::know_sorted_problem;
use std::alloc::Global;

/// Adds an entry at the point with this type for each of the environments.
fn add_rows(point: u32, ty: TyId, envs: &[EnvId], found: &mut Vec<Row>) -> Result<(), OutOfMemory>
    ensures { OnOk result (found.new.items ≡ found.old.items ++ map (row_with point ty) envs.now) }
{
    for env in envs {
        found.push(Row {
            point,
            env: *env,
            ty,
        })?;
    }
    Ok(())
}

/// Adds the entries that follow by a type of the point's head with the least unions of what may be chosen
/// for its sets. The rows are those of some table, in the order of their points.
fn add_following(
    alloc: Global,
    problem: &Problem,
    types: &mut Compared,
    rows: &[Row],
    point: u32,
    head: &HeadType,
    found: &mut Vec<Row>,
) -> Result<(), OutOfMemory>
    requires rows { All (IsRow types.old) rows.now }
    requires shape { (r : RowData) → Contains rows.now r → InShape problem.now (entry_of types.old r) }
    requires order { IsNonDecreasingBy (λ (r : RowData). r.point) rows.now }
    requires point { point < length problem.now.points.points }
    requires head { IsSplitAtArgs problem.now point types.old head.now }
    ensures added { OnOk result ((C : List EntryData) (R : List (ℕ × ℕ)) (of : PointData)
        → AreTableRows problem.now C types.old rows.now
        → slice_get problem.now.points.points point ≡ Some of
        → IsHeadTypeAt problem.now C R point of (sets_of types.old head.now)
        (type_of_id types.old head.now.ty)
        → AddsFollowing problem.now C point of types.new (sets_of types.old head.now)
        (type_of_id types.old head.now.ty) found.old.items found.new.items) }
    ensures grows { Grows types.old types.new }
{
    know_sorted_problem(problem);
    rows_of_arguments_are_of_one_rule();
    let args = args_at(problem, point);
    let slots = slots_for(alloc, types, rows, args, head.sets.as_slice())?;
    let rule = problem.points.rule_of(point);
    let envs = least_unions(
        alloc,
        types,
        &mut NoneDropped,
        rule,
        head.first,
        slots.as_slice(),
    )?;
    add_rows(point, head.ty, envs.as_slice(), found)
}

/// Adds them, unless there is nothing to choose for a type that is asked of an argument.
fn add_by_head(
    alloc: Global,
    problem: &Problem,
    types: &mut Compared,
    rows: &[Row],
    point: u32,
    head: &HeadType,
    found: &mut Vec<Row>,
) -> Result<(), OutOfMemory>
    requires rows { All (IsRow types.old) rows.now }
    requires shape { (r : RowData) → Contains rows.now r → InShape problem.now (entry_of types.old r) }
    requires order { IsNonDecreasingBy (λ (r : RowData). r.point) rows.now }
    requires point { point < length problem.now.points.points }
    requires head { IsSplitAtArgs problem.now point types.old head.now }
    ensures added { OnOk result ((C : List EntryData) (R : List (ℕ × ℕ)) (of : PointData)
        → AreTableRows problem.now C types.old rows.now
        → slice_get problem.now.points.points point ≡ Some of
        → IsHeadTypeAt problem.now C R point of (sets_of types.old head.now)
        (type_of_id types.old head.now.ty)
        → AddsFollowing problem.now C point of types.new (sets_of types.old head.now)
        (type_of_id types.old head.now.ty) found.old.items found.new.items) }
    ensures grows { Grows types.old types.new }
{
    if !may_choose(types, rows, args_at(problem, point), head.sets.as_slice())? {
        return Ok(());
    }
    add_following(alloc, problem, types, rows, point, head, found)
}

/// What follows by the types of the point's head, with least unions.
fn following_by(
    alloc: Global,
    problem: &Problem,
    types: &mut Compared,
    rows: &[Row],
    point: u32,
    heads: &[HeadType],
) -> Result<Vec<Row>, OutOfMemory>
    requires rows { All (IsRow types.old) rows.now }
    requires shape { (r : RowData) → Contains rows.now r → InShape problem.now (entry_of types.old r) }
    requires order { IsNonDecreasingBy (λ (r : RowData). r.point) rows.now }
    requires point { point < length problem.now.points.points }
    requires heads { (h : HeadTypeData) → Contains heads.now h
        → IsSplitAtArgs problem.now point types.old h }
    ensures found { IfOk result (λ found. (C : List EntryData) (R : List (ℕ × ℕ)) (of : PointData)
        → AreTableRows problem.now C types.old rows.now
        → slice_get problem.now.points.points point ≡ Some of
        → AreHeadTypes problem.now C R point of types.old heads.now
        → AddsFollowingAll problem.now C point of types.old types.new heads.now found.items) }
    ensures grows { OnOk result (Grows types.old types.new) }
{
    let mut found = Vec::new(alloc);
    for head in heads {
        add_by_head(alloc, problem, types, rows, point, head, &mut found)?;
    }
    Ok(found)
}

/// What weakly follows at the point from these of the entries that were added, which are in the order of
/// their points: for each type of its head the entries with the least unions of what may be chosen for the
/// type's sets. Each other that weakly follows is covered by one of these.
pub(crate) fn following_from(
    types: &mut Compared,
    growing: &Growing,
    reads: &Reads,
    point: u32,
    rows: &[Row],
) -> Result<Vec<Row>, OutOfMemory>
    requires point { point < length growing.now.problem.points.points }
    requires growing { IsGrowing types.old growing.now }
    requires reads { AreAllPairs growing.now.problem reads.now }
    requires rows { AreAdded growing.now rows.now }
    requires order { IsNonDecreasingBy (λ (r : RowData). r.point) rows.now }
    ensures found { IfOk result (λ found. AreFollowingFrom types.old types.new growing.now point rows.now
        found.items) }
    ensures grows { OnOk result (Grows types.old types.new) }
{
    let problem = growing.problem();
    know_sorted_problem(problem);
    let heads = head_types(growing.alloc, types, problem, reads, rows, point)?;
    following_by(growing.alloc, problem, types, rows, point, heads.as_slice())
}

/// What weakly follows at the point from the entries that are kept.
pub(crate) fn following(
    types: &mut Compared,
    growing: &Growing,
    reads: &Reads,
    point: u32,
) -> Result<Vec<Row>, OutOfMemory>
    requires point { point < length growing.now.problem.points.points }
    requires growing { IsGrowing types.old growing.now }
    requires reads { AreAllPairs growing.now.problem reads.now }
    ensures found { IfOk result (λ found. AreLeastFollowing types.new growing.now point found.items) }
    ensures grows { OnOk result (Grows types.old types.new) }
{
    let problem = growing.problem();
    if let Head::Tm(terminal) = head_at(problem, point) {
        if has_all_arguments(problem, point, terminal) {
            return by_children(types, growing, point, terminal);
        }
    }
    let rows = gathered(growing, point)?;
    following_from(types, growing, reads, point, rows.as_slice())
}
