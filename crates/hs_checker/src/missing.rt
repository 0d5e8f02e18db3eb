//! What follows at a point and isn't there.

ghost use Rattle.std.specs.Prelude.{◌≡◌, ◌↔◌, ◌<◌, ◌∷◌, [], ℕ, length, map, Contains, IsTrue, IfOk, OnOk, MatchOption};
ghost use Rattle.hs_scheme.specs.flow.Points.{point_at};
ghost use Rattle.hs_table.specs.Types as trees;
ghost use Rattle.hs_table.specs.Types.{TypeTree};
ghost use Rattle.hs_table.specs.Entries.{EntryData};
ghost use Rattle.hs_table.specs.Follows.{Follows};
ghost use Rattle.hs_table.specs.Tables.{IsInstance};
ghost use Rattle.hs_table_plain.specs.Enumeration as plain;
ghost use Rattle.hs_types.specs.Interned.{InternerData, type_of_id, env_of_id, RowData, IsRow, entry_of, Grows};
ghost use Rattle.hs_checker.specs.Slots.{AreInShape, IsConclusion};
ghost use Rattle.hs_checker.specs.Numbers.{entries_of, trees_of, AreRows, AreTypes, AreLong};

use crate::index::RowIndex;
use crate::unions::{Following, through};
use hs_scheme::{Head, OutOfMemory, Problem};
use hs_table::parameters;
use hs_types::{EnvId, Interner, Row, TyId};
use hs_verdict::know_sorted_problem;
use std::alloc::Global;

/// The environment for so many parameters that a head of this type asks.
fn opening(types: &mut Interner, params: u32, head: Head, ty: TyId) -> Result<EnvId, OutOfMemory>
    requires { ty < length types.old.types }
    ensures range { IfOk result (λ env. env < length types.new.envs) }
    ensures is { IfOk result (λ env. env_of_id types.new env
        ≡ plain.own_env params head (type_of_id types.old ty)) }
    ensures grows { OnOk result (Grows types.old types.new) }
{
    match head {
        Head::Var(parameter) => {
            if parameter >= params {
                return types.empty_env(params as usize);
            }
            types.single_env(params as usize, parameter, ty)
        }
        Head::Nt(_) => types.empty_env(params as usize),
        Head::Tm(_) => types.empty_env(params as usize),
    }
}

/// The first of the environments with which no row of the point and the type is in the index, in such a row.
/// What follows comes mostly in the index's order, so each is looked for behind the one before; `guess` is
/// the place for the first, and then for the next.
fn first_missing(index: &RowIndex, point: u32, found: &Following, guess: &mut usize) -> Option<Row>
    ensures { MatchOption result
        ((k : ℕ) → Contains found.now.envs.items k
        → Contains index.now (record { point = point; env = k; ty = found.now.ty }))
        (λ row. (row.point ≡ point) × ((row.ty ≡ found.now.ty) × (Contains found.now.envs.items row.env
        × (Contains index.now row → ⊥)))) }
{
    for env in found.envs.as_slice() {
        let row = Row {
            point,
            env: *env,
            ty: found.ty,
        };
        match index.find(&row, *guess) {
            Some(place) => *guess = place.saturating_add(1),
            None => return Some(row),
        }
    }
    None
}

/// The environment in a list of its own.
fn alone(alloc: Global, env: EnvId) -> Result<Vec<EnvId>, OutOfMemory>
    ensures { IfOk result (λ envs. envs.items ≡ env ∷ []) }
{
    let mut envs = Vec::new(alloc);
    envs.push(env)?;
    Ok(envs)
}

/// The first that follows by this type of the head and isn't in the index. The place `guess` is looked at
/// first.
fn missing_by(
    alloc: Global,
    types: &mut Interner,
    index: &RowIndex,
    point: u32,
    params: u32,
    head: Head,
    args: &[u32],
    ty: TyId,
    guess: &mut usize,
) -> Result<Option<Row>, OutOfMemory>
    requires rows { AreRows types.old index.now }
    requires ty { ty < length types.old.types }
    requires long { (u : ℕ) → Contains args.now u → AreLong params (entries_of types.old index.now) u }
    ensures missing { IfOk result (λ found. MatchOption found
        ((e : EntryData) → Contains (plain.through (entries_of types.old index.now) args.now
        (type_of_id types.old ty) (plain.opening point params head (type_of_id types.old ty) ∷ [])) e
        → Contains (entries_of types.old index.now) e)
        (λ row. IsRow types.new row
        × (Contains (plain.through (entries_of types.old index.now) args.now
        (type_of_id types.old ty) (plain.opening point params head (type_of_id types.old ty) ∷ []))
        (entry_of types.new row)
        × (Contains (entries_of types.old index.now) (entry_of types.new row) → ⊥)))) }
    ensures grows { OnOk result (Grows types.old types.new) }
{
    let start = opening(types, params, head, ty)?;
    let envs = alone(alloc, start)?;
    let found = through(alloc, types, index, args, ty, envs)?;
    types.know_numbers();
    Ok(first_missing(index, point, &found, guess))
}

/// The first that follows by one of these types of the head and isn't in the index.
fn missing_among(
    alloc: Global,
    types: &mut Interner,
    index: &RowIndex,
    point: u32,
    params: u32,
    head: Head,
    args: &[u32],
    all: &[TyId],
) -> Result<Option<Row>, OutOfMemory>
    requires rows { AreRows types.old index.now }
    requires all { AreTypes types.old all.now }
    requires long { (u : ℕ) → Contains args.now u → AreLong params (entries_of types.old index.now) u }
    ensures missing { IfOk result (λ found. MatchOption found
        ((e : EntryData) → IsConclusion (entries_of types.old index.now) point params head args.now
        (trees_of types.old all.now) e → Contains (entries_of types.old index.now) e)
        (λ row. IsRow types.new row
        × (IsConclusion (entries_of types.old index.now) point params head args.now
        (trees_of types.old all.now) (entry_of types.new row)
        × (Contains (entries_of types.old index.now) (entry_of types.new row) → ⊥)))) }
    ensures grows { OnOk result (Grows types.old types.new) }
{
    let mut guess = 0;
    for ty in all {
        match missing_by(
            alloc, types, index, point, params, head, args, *ty, &mut guess,
        )? {
            Some(row) => return Ok(Some(row)),
            None => {}
        }
    }
    Ok(None)
}

/// An entry at the point that follows from those of the index and isn't among them, or `None` where there is
/// no such. The types are the instances at the point.
pub(crate) fn missing_at(
    alloc: Global,
    types: &mut Interner,
    problem: &Problem,
    index: &RowIndex,
    point: u32,
    all: &[TyId],
) -> Result<Option<Row>, OutOfMemory>
    requires point { point < length problem.now.points.points }
    requires rows { AreRows types.old index.now }
    requires shape { AreInShape problem.now (entries_of types.old index.now) }
    requires range { AreTypes types.old all.now }
    requires types { (t : TypeTree) → Contains (trees_of types.old all.now) t
        ↔ IsInstance problem.now (entries_of types.old index.now) point t }
    ensures missing { IfOk result (λ found. MatchOption found
        ((e : EntryData) → e.point ≡ point → Follows problem.now (entries_of types.old index.now) e
        → Contains (entries_of types.old index.now) e)
        (λ row. IsRow types.new row
        × (Follows problem.now (entries_of types.old index.now) (entry_of types.new row)
        × (Contains (entries_of types.old index.now) (entry_of types.new row) → ⊥)))) }
    ensures grows { OnOk result (Grows types.old types.new) }
{
    know_sorted_problem(problem);
    let rule = problem.points.rule_of(point);
    let head = problem.points.head_of(point);
    let args = problem.points.args_of(point);
    let params = parameters(problem, rule);
    missing_among(alloc, types, index, point, params, head, args, all)
}
