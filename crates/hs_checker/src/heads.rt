//! The types of heads that are no terminals, as the entries say, by number.

ghost use Rattle.std.specs.Prelude.{◌≡◌, ◌↔◌, ◌⊎◌, ◌<◌, ◌&&◌, [], ℕ, filter, length, nat_eq, IsTrue, Contains, IfOk, OnOk};
ghost use Rattle.std.specs.List.{flat_map};
ghost use Rattle.std.specs.Ordering.{nat_cmp};
ghost use Rattle.hs_scheme.specs.declared.flow.FlowPair.{FlowPair as AnyFlow};
ghost use Rattle.hs_scheme.specs.flow.Flow.{IsAscending};
ghost use Rattle.hs_table.specs.Types as trees;
ghost use Rattle.hs_table.specs.Types.{TypeTree};
ghost use Rattle.hs_table_plain.specs.Enumeration as plain;
ghost use Rattle.hs_types.specs.Interned.{RowData, IsRow, entry_of, Grows};
ghost use Rattle.hs_checker.specs.Any.{AnyOf};
ghost use Rattle.hs_checker.specs.Order.{HasRowAt};
ghost use Rattle.hs_checker.specs.Numbers.{entries_of, trees_of, AreRows, AreTypes, GainsTypes};

use crate::arrows::arrows_over;
use crate::index::RowIndex;
use hs_scheme::{OutOfMemory, Problem};
use hs_types::{Interner, Row, TyId, View};
use std::alloc::Global;
use std::cmp::Ordering;

/// Whether the last of the types is this one.
fn ends_with(found: &[TyId], ty: TyId) -> bool
    ensures { IsTrue result → Contains found.now ty }
{
    match found.last() {
        None => false,
        Some(last) => *last == ty,
    }
}

/// Adds the type, where it isn't the last one already.
fn add_type(found: &mut Vec<TyId>, ty: TyId) -> Result<(), OutOfMemory>
    ensures { OnOk result ((t : ℕ) → Contains found.new.items t ↔ (Contains found.old.items t ⊎ (t ≡ ty))) }
{
    if ends_with(found.as_slice(), ty) {
        return Ok(());
    }
    found.push(ty)?;
    Ok(())
}

/// The order of types' numbers.
fn order(ty: &TyId, other: &TyId) -> Ordering
    ensures { result ≡ nat_cmp ty.now other.now }
{
    ty.number().cmp(&other.number())
}

/// The types in the order of their numbers, each once.
pub(crate) fn in_order(types: Vec<TyId>) -> Result<Vec<TyId>, OutOfMemory>
    ensures once { IfOk result (λ found. IsAscending nat_cmp found.items) }
    ensures each { IfOk result (λ found. (t : ℕ) → Contains found.items t ↔ Contains types.items t) }
{
    let mut found = types;
    found.sort_by(|a, b| order(a, b))?;
    found.dedup_by(|a, b| order(a, b) == Ordering::Equal);
    Ok(found)
}

/// Adds the types of the rows at the point. Rows of one type stand together, so each is added once.
fn add_types_at(index: &RowIndex, point: u32, found: &mut Vec<TyId>) -> Result<(), OutOfMemory>
    ensures { OnOk result ((t : ℕ) → Contains found.new.items t
        ↔ (Contains found.old.items t ⊎ HasRowAt index.now point t)) }
{
    for row in index.at_point(point) {
        add_type(found, row.ty)?;
    }
    Ok(())
}

/// The types of the rows at the points that may stand for the parameter.
pub(crate) fn parameter_types(
    alloc: Global,
    problem: &Problem,
    index: &RowIndex,
    rule: u32,
    parameter: u32,
) -> Result<Vec<TyId>, OutOfMemory>
    ensures { IfOk result (λ found. (t : ℕ) → Contains found.items t
        ↔ AnyOf (λ (f : AnyFlow) t. HasRowAt index.now f.point t)
        (filter (λ f. nat_eq f.rule rule && nat_eq f.param parameter) problem.now.flow.pairs) t) }
{
    let mut found = Vec::new(alloc);
    for pair in index.from_first_row(problem.flow.flow_of(rule, parameter)) {
        add_types_at(index, pair.point, &mut found)?;
    }
    Ok(found)
}

/// Adds the type of a nonterminal that the row, one at its body, says. A row whose type is no state says none.
fn add_body_type(types: &mut Interner, row: &Row, found: &mut Vec<TyId>) -> Result<(), OutOfMemory>
    requires row { IsRow types.old row.now }
    requires found { AreTypes types.old found.old.items }
    ensures { (body : ℕ) → row.now.point ≡ body → OnOk result (GainsTypes types.old types.new
        found.old.items found.new.items (λ t. Contains (plain.body_type body (entry_of types.old row.now)) t)) }
{
    match types.view(row.ty) {
        View::Arrow(_, _) => Ok(()),
        View::State(_) => {
            let ty = arrows_over(types, row.env, row.ty)?;
            found.push(ty)?;
            Ok(())
        }
    }
}

/// The types that the entries at the body say of its nonterminal.
pub(crate) fn body_types(
    alloc: Global,
    types: &mut Interner,
    index: &RowIndex,
    body: u32,
) -> Result<Vec<TyId>, OutOfMemory>
    requires { AreRows types.old index.now }
    ensures range { IfOk result (λ found. AreTypes types.new found.items) }
    ensures each { IfOk result (λ found. (t : TypeTree) → Contains (trees_of types.new found.items) t
        ↔ Contains (flat_map (plain.body_type body) (entries_of types.old index.now)) t) }
    ensures grows { OnOk result (Grows types.old types.new) }
{
    let mut found = Vec::new(alloc);
    for row in index.at_point(body) {
        add_body_type(types, row, &mut found)?;
    }
    Ok(found)
}
