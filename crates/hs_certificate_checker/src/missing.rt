//! What weakly follows and matters, but is neither covered nor void.

ghost use Rattle.std.specs.Prelude.{◌≡◌, ◌↔◌, ◌<◌, ℕ, List, Some, Contains, IfOk, OnOk, IsTrue, MatchOption};
ghost use Rattle.std.specs.Prelude.{length, slice_get};
ghost use Rattle.hs_scheme.specs.flow.Points.{PointData, point_at};
ghost use Rattle.hs_table.specs.Entries.{Env, EntryData};
ghost use Rattle.hs_weak.specs.Void.{VoidData};
ghost use Rattle.hs_types.specs.Interned.{IsRow, type_of_id, env_of_id, Grows};
ghost use Rattle.hs_choices.specs.Slots.{IsSettled};
ghost use Rattle.hs_choices.specs.Numbered.{envs_of, AreInUse};
ghost use Rattle.hs_heads.specs.HeadTypes.{HeadTypeData, sets_of, IsHeadTypeAt, AreHeadTypes};
ghost use Rattle.hs_void.specs.Voids.{Fits};
ghost use Rattle.hs_certificate_checker.specs.Settled.{StandFor, IsOther, IsSplitHead, IsOpen};
ghost use Rattle.hs_certificate_checker.specs.Settled.{AreSettledBy, AreSettledAt, AreSettled};

use crate::covered::is_covered;
use crate::idle::is_idle;
use hs_choices::{Compared, rows_of_arguments_are_of_one_rule, slots_for};
use hs_heads::{HeadType, head_types};
use hs_reads::Reads;
use hs_scheme::{OutOfMemory, Problem};
use hs_types::{EnvId, Row, TyId};
use hs_verdict::know_sorted_problem;
use hs_void::Voids;
use std::alloc::Global;

/// The rule of the point.
fn rule_at(problem: &Problem, point: u32) -> u32
    requires { point < length problem.now.points.points }
    ensures { result ≡ (point_at problem.now.points point).rule }
{
    problem.points.rule_of(point)
}

/// The points of its arguments.
fn args_at(problem: &Problem, point: u32) -> &[u32]
    requires { point < length problem.now.points.points }
    ensures { result.now ≡ (point_at problem.now.points point).args }
{
    problem.points.args_of(point)
}

/// Whether an entry of the table covers the one of this row, or its environment is void for the rule. The
/// table is the one by which environments are void.
fn is_settled(
    types: &mut Compared,
    voids: &mut Voids,
    table: &[Row],
    rule: u32,
    row: &Row,
) -> Result<bool, OutOfMemory>
    requires fits { Fits types.old voids.old }
    requires table { table.now ≡ voids.old.basis.table }
    requires row { IsRow types.old row.now }
    ensures ok { IfOk result (λ settled. (C : List EntryData) (V : List VoidData)
        → StandFor voids.old.basis types.old C V → IsTrue settled
        ↔ IsSettled voids.old.basis.problem C V row.now.point rule (type_of_id types.old row.now.ty)
        (env_of_id types.old row.now.env)) }
    ensures same { types.new ≡ types.old }
    ensures fits { Fits types.new voids.new }
    ensures basis { voids.new.basis ≡ voids.old.basis }
{
    if is_covered(types, table, row)? {
        return Ok(true);
    }
    voids.is_void(types, rule, row.env)
}

/// The first of the environments with which an entry of this type at the point, which is one of the rule's,
/// is neither covered nor void, in that entry.
fn first_open(
    types: &mut Compared,
    voids: &mut Voids,
    table: &[Row],
    rule: u32,
    point: u32,
    ty: TyId,
    kept: &[EnvId],
) -> Result<Option<Row>, OutOfMemory>
    requires fits { Fits types.old voids.old }
    requires table { table.now ≡ voids.old.basis.table }
    requires ty { ty < length types.old.types }
    requires kept { AreInUse types.old kept.now }
    ensures opened { IfOk result (λ opened. (C : List EntryData) (V : List VoidData)
        → StandFor voids.old.basis types.old C V → MatchOption opened
        ((E : Env) → Contains (envs_of types.old kept.now) E
        → IsSettled voids.old.basis.problem C V point rule (type_of_id types.old ty) E)
        (IsOther voids.old.basis.problem C V point rule types.old ty kept.now)) }
    ensures same { types.new ≡ types.old }
    ensures fits { Fits types.new voids.new }
    ensures basis { voids.new.basis ≡ voids.old.basis }
{
    for env in kept {
        let row = Row {
            point,
            env: *env,
            ty,
        };
        if !is_settled(types, voids, table, rule, &row)? {
            return Ok(Some(row));
        }
    }
    Ok(None)
}

/// An entry that follows by the type of the point's head and is neither covered nor void.
fn open_by(
    alloc: Global,
    problem: &Problem,
    types: &mut Compared,
    voids: &mut Voids,
    table: &[Row],
    point: u32,
    head: &HeadType,
) -> Result<Option<Row>, OutOfMemory>
    requires fits { Fits types.old voids.old }
    requires problem { problem.now ≡ voids.old.basis.problem }
    requires table { table.now ≡ voids.old.basis.table }
    requires point { point < length problem.now.points.points }
    requires head { IsSplitHead problem.now point types.old head.now }
    ensures opened { IfOk result (λ opened. (C : List EntryData) (V : List VoidData) (R : List (ℕ × ℕ))
        (of : PointData) → StandFor voids.old.basis types.old C V
        → slice_get problem.now.points.points point ≡ Some of
        → IsHeadTypeAt problem.now C R point of (sets_of types.old head.now)
        (type_of_id types.old head.now.ty)
        → MatchOption opened (AreSettledBy problem.now C V point of (sets_of types.old head.now)
        (type_of_id types.old head.now.ty)) (IsOpen problem.now C V R types.new)) }
    ensures grows { Grows types.old types.new }
    ensures fits { Fits types.new voids.new }
    ensures basis { voids.new.basis ≡ voids.old.basis }
{
    know_sorted_problem(problem);
    rows_of_arguments_are_of_one_rule();
    let rule = rule_at(problem, point);
    let args = args_at(problem, point);
    let slots = slots_for(alloc, types, table, args, head.sets.as_slice())?;
    let kept = voids.least_unions(types, rule, head.first, slots.as_slice())?;
    first_open(types, voids, table, rule, point, head.ty, kept.as_slice())
}

/// An entry that follows at the point by one of these types of its head and is neither covered nor void.
fn open_among(
    alloc: Global,
    problem: &Problem,
    types: &mut Compared,
    voids: &mut Voids,
    table: &[Row],
    point: u32,
    heads: &[HeadType],
) -> Result<Option<Row>, OutOfMemory>
    requires fits { Fits types.old voids.old }
    requires problem { problem.now ≡ voids.old.basis.problem }
    requires table { table.now ≡ voids.old.basis.table }
    requires point { point < length problem.now.points.points }
    requires heads { (h : HeadTypeData) → Contains heads.now h
        → IsSplitHead problem.now point types.old h }
    ensures opened { IfOk result (λ opened. (C : List EntryData) (V : List VoidData) (R : List (ℕ × ℕ))
        (of : PointData) → StandFor voids.old.basis types.old C V
        → slice_get problem.now.points.points point ≡ Some of
        → AreHeadTypes problem.now C R point of types.old heads.now
        → MatchOption opened (AreSettledAt problem.now C V R point) (IsOpen problem.now C V R types.new)) }
    ensures grows { Grows types.old types.new }
    ensures fits { Fits types.new voids.new }
    ensures basis { voids.new.basis ≡ voids.old.basis }
{
    for head in heads {
        if let Some(row) = open_by(alloc, problem, types, voids, table, point, head)? {
            return Ok(Some(row));
        }
    }
    Ok(None)
}

/// An entry that follows at the point, matters and is neither covered nor void. An idle point has none.
fn open_at(
    alloc: Global,
    problem: &Problem,
    reads: &Reads,
    types: &mut Compared,
    voids: &mut Voids,
    table: &[Row],
    point: u32,
) -> Result<Option<Row>, OutOfMemory>
    requires fits { Fits types.old voids.old }
    requires problem { problem.now ≡ voids.old.basis.problem }
    requires table { table.now ≡ voids.old.basis.table }
    requires point { point < length problem.now.points.points }
    ensures opened { IfOk result (λ opened. (C : List EntryData) (V : List VoidData)
        → StandFor voids.old.basis types.old C V → MatchOption opened
        (AreSettledAt problem.now C V reads.now point) (IsOpen problem.now C V reads.now types.new)) }
    ensures grows { OnOk result (Grows types.old types.new) }
    ensures fits { OnOk result (Fits types.new voids.new) }
    ensures basis { voids.new.basis ≡ voids.old.basis }
{
    if is_idle(problem, reads, table, point) {
        return Ok(None);
    }
    let heads = head_types(alloc, types, problem, reads, table, point)?;
    open_among(alloc, problem, types, voids, table, point, heads.as_slice())
}

/// An entry that weakly follows, whose last state is read at its point, and that is neither covered nor void:
/// one at the first point that has any.
///
/// A point is passed over where a look at its arguments tells that nothing comes of it. Else for each type of
/// its head in whose last state it is read, the least unions of what may be chosen for its sets are formed,
/// where void ones are left out, and each of them is compared with the rows at the point.
pub(crate) fn first_missing(
    alloc: Global,
    problem: &Problem,
    reads: &Reads,
    types: &mut Compared,
    voids: &mut Voids,
    table: &[Row],
) -> Result<Option<Row>, OutOfMemory>
    requires fits { Fits types.old voids.old }
    requires problem { problem.now ≡ voids.old.basis.problem }
    requires table { table.now ≡ voids.old.basis.table }
    ensures missing { IfOk result (λ missing. (C : List EntryData) (V : List VoidData)
        → StandFor voids.old.basis types.old C V → MatchOption missing
        (AreSettled problem.now C V reads.now) (IsOpen problem.now C V reads.now types.new)) }
{
    for point in 0..problem.points.count() {
        if let Some(row) = open_at(alloc, problem, reads, types, voids, table, point)? {
            return Ok(Some(row));
        }
    }
    Ok(None)
}
