//! What rows have at the arguments of sites.

ghost use Rattle.std.specs.Prelude.{◌≡◌, ◌↔◌, ◌⊎◌, ◌<◌, ℕ, length, slice_get, All, Contains, Some, IfOk, IsTrue};
ghost use Rattle.std.specs.List.Sorted.{IsNonDecreasingBy};
ghost use Rattle.hs_weak.specs.Strength.{AsStrongAs};
ghost use Rattle.hs_weak.specs.Sites.{GivesTo};
ghost use Rattle.hs_types.specs.Interned.{type_of_id, RowData, IsRow};
ghost use Rattle.hs_sites.specs.Listed.{AnySite, data_of};
ghost use Rattle.hs_sites.specs.Reaching.{IsOn};
ghost use Rattle.hs_void.specs.Rows.{LacksAt, AreMarks};

use hs_choices::{Compared, Comparing, rows_at};
use hs_scheme::{OutOfMemory, Problem};
use hs_sites::Site;
use hs_types::{Row, TyId};
use std::alloc::Global;

/// Whether one of the rows has a type as strong as this one. Ends at the first such one.
fn has_row(types: &mut Compared, rows: &[Row], ty: TyId) -> Result<bool, OutOfMemory>
    requires rows { All (IsRow types.old) rows.now }
    requires ty { ty < length types.old.types }
    ensures ok { IfOk result (λ has. IsTrue has ↔ ((row : RowData) × (Contains rows.now row
        × AsStrongAs (type_of_id types.old row.ty) (type_of_id types.old ty)))) }
    ensures same { types.new ≡ types.old }
{
    for row in rows {
        if types.is_as_strong(row.ty, ty)? {
            return Ok(true);
        }
    }
    Ok(false)
}

/// The point that the site gives to the parameter, counted from 0, if it gives it one.
fn argument_at(problem: &Problem, site: &Site, parameter: usize) -> Option<u32>
    requires { site.now.point < length problem.now.points.points }
    ensures { (u : ℕ) → result ≡ Some u ↔ GivesTo problem.now (data_of site.now) parameter u }
{
    let place = parameter.checked_sub(site.given as usize)?;
    let arg = problem.points.args_of(site.point).get(place)?;
    Some(*arg)
}

/// Whether the site gives the parameter an argument without a row that has a type as strong as this one.
fn lacks(
    types: &mut Compared,
    problem: &Problem,
    table: &[Row],
    site: &Site,
    parameter: usize,
    ty: TyId,
) -> Result<bool, OutOfMemory>
    requires site { site.now.point < length problem.now.points.points }
    requires table { All (IsRow types.old) table.now }
    requires order { IsNonDecreasingBy (λ (r : RowData). r.point) table.now }
    requires ty { ty < length types.old.types }
    ensures ok { IfOk result (λ lacks. IsTrue lacks ↔ LacksAt problem.now types.old table.now parameter
        (type_of_id types.old ty) (data_of site.now)) }
    ensures same { types.new ≡ types.old }
{
    match argument_at(problem, site, parameter) {
        None => Ok(false),
        Some(arg) => {
            let has = has_row(types, rows_at(table, arg), ty)?;
            Ok(!has)
        }
    }
}

/// Marks the sites that lack a row for the parameter and the type. Of each that gives the parameter an
/// argument the rows there are looked at, up to the first as strong.
pub(crate) fn marks_of(
    alloc: Global,
    types: &mut Compared,
    problem: &Problem,
    table: &[Row],
    sites: &[Site],
    parameter: usize,
    ty: TyId,
) -> Result<Vec<bool>, OutOfMemory>
    requires sites { (s : AnySite) → Contains sites.now s → s.point < length problem.now.points.points }
    requires table { All (IsRow types.old) table.now }
    requires order { IsNonDecreasingBy (λ (r : RowData). r.point) table.now }
    requires ty { ty < length types.old.types }
    ensures marks { IfOk result (λ marks. AreMarks (LacksAt problem.now types.old table.now parameter
        (type_of_id types.old ty)) sites.now marks.items) }
    ensures same { types.new ≡ types.old }
{
    let mut marks = Vec::with_capacity(alloc, sites.len())?;
    for site in sites {
        let mark = lacks(types, problem, table, site, parameter, ty)?;
        marks.push_reserved(mark);
    }
    Ok(marks)
}

/// Marks what the others mark, too.
pub(crate) fn add_marks(marks: &mut Vec<bool>, others: &[bool])
    ensures len { length marks.new.items ≡ length marks.old.items }
    ensures marks { (k : ℕ) → k < length marks.old.items
        → IsOn marks.new.items k ↔ (IsOn marks.old.items k ⊎ IsOn others.now k) }
{
    for (place, mark) in others.iter().enumerate() {
        if *mark && place < marks.len() {
            marks[place] = true;
        }
    }
}
