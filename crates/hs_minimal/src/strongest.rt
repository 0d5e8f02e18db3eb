//! The entries of a table that none of the others covers.

ghost use Rattle.std.specs.Prelude.{◌≡◌, ◌≢◌, ◌<◌, ◌⊎◌, [], All, AllPairs, Contains, IfOk, IfSome, IsTrue, OnOk};
ghost use Rattle.hs_scheme.specs.Problem.{ProblemData};
ghost use Rattle.hs_table.specs.Entries.{InShape};
ghost use Rattle.hs_types.specs.Interned.{RowData, IsRow, entry_of};
ghost use Rattle.hs_strength.specs.Remembered.{Remembers};
ghost use Rattle.hs_minimal.specs.Strongest.{IsFiledAmong, AreFiled, AreRowsIn, AreParted, AreStrongest};
ghost use Rattle.hs_minimal.specs.Strongest.{IsOtherCovering};

use crate::ends::EndRows;
use crate::filing::{file, is_covered_by_other};
use hs_scheme::OutOfMemory;
use hs_strength::Strengths;
use hs_types::{Interner, Row};
use std::alloc::Global;

/// The entries of a table that no other covers, and the others.
#[derive(Drop)]
struct Parted {
    kept: Vec<Row>,
    covered: Vec<Row>,
}

/// Parts the entries, which are those that are filed.
fn part(
    alloc: Global,
    types: &Interner,
    strengths: &mut Strengths,
    filed: &[EndRows],
    rows: &[Row],
) -> Result<Parted, OutOfMemory>
    requires filed { AreRowsIn types.now filed.now }
    requires rows { All (IsRow types.now) rows.now }
    requires distinct { AllPairs (λ a b. a ≢ b) rows.now }
    requires memo { Remembers types.now strengths.old }
    ensures parted { IfOk result (λ parted. AreParted types.now filed.now rows.now parted.kept.items
        parted.covered.items) }
    ensures memo { Remembers types.now strengths.new }
{
    let mut kept = Vec::new(alloc);
    let mut covered = Vec::new(alloc);
    for row in rows {
        if is_covered_by_other(types, strengths, filed, row)? {
            covered.push(*row)?;
        } else {
            kept.push(*row)?;
        }
    }
    Ok(Parted { kept, covered })
}

/// Whether each of the entries is covered by another that is filed.
fn are_covered(
    types: &Interner,
    strengths: &mut Strengths,
    filed: &[EndRows],
    rows: &[Row],
) -> Result<bool, OutOfMemory>
    requires filed { AreRowsIn types.now filed.now }
    requires rows { All (IsRow types.now) rows.now }
    requires memo { Remembers types.now strengths.old }
    ensures ok { IfOk result (λ all. IsTrue all → (r : RowData) → Contains rows.now r → (o : RowData)
        × (IsFiledAmong filed.now o × IsOtherCovering types.now r o)) }
    ensures memo { Remembers types.now strengths.new }
{
    for row in rows {
        if !is_covered_by_other(types, strengths, filed, row)? {
            return Ok(false);
        }
    }
    Ok(true)
}

/// Whether the entries that are kept cover the others.
fn cover_others(
    alloc: Global,
    types: &Interner,
    strengths: &mut Strengths,
    points: usize,
    parted: &Parted,
) -> Result<bool, OutOfMemory>
    requires kept { All (IsRow types.now) parted.now.kept.items }
    requires covered { All (IsRow types.now) parted.now.covered.items }
    requires points { All (λ (r : RowData). r.point < points) parted.now.kept.items }
    requires memo { Remembers types.now strengths.old }
    ensures ok { IfOk result (λ all. IsTrue all → (r : RowData) → Contains parted.now.covered.items r
        → (o : RowData) × (Contains parted.now.kept.items o × IsOtherCovering types.now r o)) }
    ensures memo { Remembers types.now strengths.new }
{
    if parted.covered.is_empty() {
        return Ok(true);
    }
    let filed = file(alloc, types, points, parted.kept.as_slice())?;
    are_covered(
        types,
        strengths,
        filed.as_slice(),
        parted.covered.as_slice(),
    )
}

/// The entries that no other covers, where each other is covered by one of these.
pub(crate) fn strongest(
    alloc: Global,
    types: &Interner,
    strengths: &mut Strengths,
    points: usize,
    rows: &[Row],
) -> Result<Option<Vec<Row>>, OutOfMemory>
    requires rows { All (IsRow types.now) rows.now }
    requires points { All (λ (r : RowData). r.point < points) rows.now }
    requires distinct { AllPairs (λ a b. a ≢ b) rows.now }
    requires memo { Remembers types.now strengths.old }
    ensures { IfOk result (λ found. IfSome found (λ kept. (p : ProblemData) → ((r : RowData)
        → Contains rows.now r → InShape p (entry_of types.now r))
        → AreStrongest types.now rows.now kept.items)) }
{
    let filed = file(alloc, types, points, rows)?;
    let parted = part(alloc, types, strengths, filed.as_slice(), rows)?;
    if !cover_others(alloc, types, strengths, points, &parted)? {
        return Ok(None);
    }
    Ok(Some(parted.kept))
}
