//! The rows of a table in order, so that those of a point and a type stand together.

ghost use Rattle.std.specs.Prelude.{◌≡◌, ◌↔◌, ◌<◌, ◌≤◌, ℕ, false, slice_index_or, length, map};
ghost use Rattle.std.specs.Prelude.{Contains, IsTrue, IfOk, MatchOption};
ghost use Rattle.std.specs.Borrow.{Bor};
ghost use Rattle.std.specs.declared.cmp.Ordering.TheVariants.{Equal};
ghost use Rattle.hs_scheme.specs.declared.flow.FlowPair.{FlowPair as AnyFlow};
ghost use Rattle.hs_scheme.specs.flow.Flow.{IsAscending};
ghost use Rattle.hs_types.specs.Interned.{RowData};
ghost use Rattle.hs_checker.specs.Order.{row_cmp, key_cmp, IsInRowOrder, AreStartsOfPoints, IsStartOfPoint, HasRowAt};

use hs_flow_checker::from_first_with;
use hs_scheme::{FlowPair, OutOfMemory};
use hs_types::{Row, TyId};
use std::alloc::Global;
use std::cmp::Ordering;
use std::marker::Model;

/// The row against a point and a type.
fn place(row: &Row, point: u32, ty: TyId) -> Ordering
    ensures { result ≡ key_cmp point ty row.now }
{
    let by_point = row.point.cmp(&point);
    if by_point != Ordering::Equal {
        return by_point;
    }
    row.ty.number().cmp(&ty.number())
}

/// The order of the index: by point, by type, and then by environment.
fn order(row: &Row, other: &Row) -> Ordering
    ensures { result ≡ row_cmp row.now other.now }
{
    let by_key = place(row, other.point, other.ty);
    if by_key != Ordering::Equal {
        return by_key;
    }
    row.env.number().cmp(&other.env.number())
}

/// The rows of a table, each once, those of lesser points first, and those of each point by type.
/// Contracts see the list of them.
#[derive(Drop)]
pub(crate) struct RowIndex<'a> {
    rows: Vec<&'a Row>,
    /// For each point, and for one past the last, how many rows are of lesser points.
    starts: Vec<usize>,
}

impl<'a> Model for RowIndex<'a> {
    ghost use Rattle.std.specs.Prelude.{List, map};
    ghost use Rattle.std.specs.Coded.{coded_list};
    ghost use Rattle.hs_types.specs.Interned.{RowData};
    ghost use Rattle.hs_scheme.specs.flow.Flow.{IsAscending};
    ghost use Rattle.hs_checker.specs.Order.{coded_row, row_cmp, IsInRowOrder, AreStartsOfPoints};

    ghost Value = { List RowData };

    ghost coded = { coded_list coded_row };

    ghost view = { λ a. map (λ r. r.now) a.rows.items };

    ghost invariant = { λ a. record {
      sorted : IsInRowOrder (map (λ r. r.now) a.rows.items);
      once : IsAscending row_cmp (map (λ r. r.now) a.rows.items);
      starts : AreStartsOfPoints (map (λ r. r.now) a.rows.items) a.starts.items;
    } };
}

/// References to the rows.
fn references<'a>(alloc: Global, rows: &'a [Row]) -> Result<Vec<&'a Row>, OutOfMemory>
    ensures { IfOk result (λ all. map (λ r. r.now) all.items ≡ rows.now) }
{
    let mut all = Vec::with_capacity(alloc, rows.len())?;
    for row in rows {
        all.push_reserved(row);
    }
    Ok(all)
}

/// The rows in the order of the index, each once.
fn ordered<'a>(rows: Vec<&'a Row>) -> Result<Vec<&'a Row>, OutOfMemory>
    ensures once { IfOk result (λ found. IsAscending row_cmp (map (λ r. r.now) found.items)) }
    ensures each { IfOk result (λ found. (e : RowData) → Contains (map (λ r. r.now) found.items) e
        ↔ Contains (map (λ r. r.now) rows.entry.items) e) }
{
    let mut found = rows;
    found.sort_by(|a, b| order(a, b))?;
    found.dedup_by(|a, b| order(a, b) == Ordering::Equal);
    Ok(found)
}

/// Whether the rows from this place on are of no lesser points than this one.
fn are_behind(rows: &[&Row], place: usize, point: u32) -> bool
    ensures behind { IsTrue result → (d : Bor RowData) → place < length rows.now
        → point ≤ (slice_index_or rows.now place d).now.point }
    ensures before { result ≡ false → (d : Bor RowData) → place < length rows.now
        → (slice_index_or rows.now place d).now.point < point }
{
    match rows.get(place) {
        None => true,
        Some(row) => row.point >= point,
    }
}

/// How many of the rows, which are in order, are of lesser points. So many are known to be.
fn start_at(rows: &[&Row], point: u32, known: usize) -> usize
    requires sorted { IsInRowOrder (map (λ r. r.now) rows.now) }
    requires within { known ≤ length rows.now }
    requires before { (k : ℕ) (d : Bor RowData) → k < known
        → (slice_index_or rows.now k d).now.point < point }
    ensures { IsStartOfPoint (map (λ r. r.now) rows.now) point result }
{
    for start in known..rows.len() {
        if are_behind(rows, start, point) {
            return start;
        }
    }
    rows.len()
}

/// For each of so many points, and for one past them, how many of the rows are of lesser points. The
/// rows are in order, and of these points.
fn starts_of(alloc: Global, rows: &[&Row], points: u32) -> Result<Vec<usize>, OutOfMemory>
    requires sorted { IsInRowOrder (map (λ r. r.now) rows.now) }
    requires within { (e : RowData) → Contains (map (λ r. r.now) rows.now) e → e.point < points }
    ensures { IfOk result (λ starts. AreStartsOfPoints (map (λ r. r.now) rows.now) starts.items) }
{
    let mut starts = Vec::with_capacity(alloc, points as usize + 1)?;
    let mut known = 0;
    for point in 0..points {
        known = start_at(rows, point, known);
        starts.push_reserved(known);
    }
    starts.push_reserved(rows.len());
    Ok(starts)
}

/// How many of the rows, from the first on, are of the point and the type.
fn count_of(rows: &[&Row], point: u32, ty: TyId) -> usize
    ensures within { result ≤ length rows.now }
    ensures equal { (k : ℕ) (d : Bor RowData) →
        k < result → key_cmp point ty (slice_index_or rows.now k d).now ≡ Equal }
    ensures end { (d : Bor RowData) →
        result < length rows.now → key_cmp point ty (slice_index_or rows.now result d).now ≡ Equal → ⊥ }
{
    for (count, row) in rows.iter().enumerate() {
        if place(row, point, ty) != Ordering::Equal {
            return count;
        }
    }
    rows.len()
}

/// Whether the row stands at this place.
fn is_at(rows: &[&Row], place: usize, row: &Row) -> bool
    ensures { IsTrue result → Contains (map (λ r. r.now) rows.now) row.now }
{
    match rows.get(place) {
        None => false,
        Some(own) => order(own, row) == Ordering::Equal,
    }
}

impl<'a> RowIndex<'a> {
    /// The index of the rows, which are of so many points. Time is in the number of rows by its
    /// logarithm, and in that of points.
    pub(crate) fn of(
        alloc: Global,
        points: u32,
        table: &'a [Row],
    ) -> Result<RowIndex<'a>, OutOfMemory>
        requires { (r : RowData) → Contains table.now r → r.point < points }
        ensures { IfOk result (λ index. (r : RowData) → Contains index r ↔ Contains table.now r) }
    {
        let rows = ordered(references(alloc, table)?)?;
        let starts = starts_of(alloc, rows.as_slice(), points)?;
        Ok(RowIndex { rows, starts })
    }

    /// The rows at the point, each once and in their order. Takes constant time.
    pub(crate) fn at_point(&self, point: u32) -> &[&'a Row]
        ensures has { (e : RowData) →
            Contains (map (λ r. r.now) result.now) e ↔ (Contains self.now e × (e.point ≡ point)) }
        ensures sorted { IsInRowOrder (map (λ r. r.now) result.now) }
        ensures once { IsAscending row_cmp (map (λ r. r.now) result.now) }
    {
        let rows = self.rows.as_slice();
        let starts = self.starts.as_slice();
        let place = point as usize;
        if place + 1 >= starts.len() {
            return &rows[..0];
        }
        let from = starts[place];
        let to = starts[place + 1];
        &rows[from..to]
    }

    /// The pairs from the first on at whose point there is a row. Takes constant time for each of
    /// those before it.
    pub(crate) fn from_first_row<'b>(&self, row: &'b [FlowPair]) -> &'b [FlowPair]
        ensures part { (f : AnyFlow) → Contains result.now f → Contains row.now f }
        ensures rest { (f : AnyFlow) (e : RowData) → Contains row.now f → Contains self.now e
            → e.point ≡ f.point → Contains result.now f }
    {
        from_first_with(self.starts.as_slice(), row)
    }

    /// The place of the row among those at its point, if it is there. It is looked for at the place
    /// that is guessed first, which takes constant time, and then in the logarithm of their number.
    pub(crate) fn find(&self, row: &Row, guess: usize) -> Option<usize>
        ensures { MatchOption result (Contains self.now row.now → ⊥) (λ _. Contains self.now row.now) }
    {
        let rows = self.at_point(row.point);
        if is_at(rows, guess, row) {
            return Some(guess);
        }
        match rows.binary_search_by(|own| order(own, row)) {
            Ok(place) => Some(place),
            Err(_) => None,
        }
    }

    /// Whether a row at the point has the type. Time is in the logarithm of the number of those at
    /// the point.
    pub(crate) fn has(&self, point: u32, ty: TyId) -> bool
        ensures { IsTrue result ↔ HasRowAt self.now point ty }
    {
        self.at_point(point)
            .binary_search_by(|row| place(row, point, ty))
            .is_ok()
    }

    /// The rows at the point with the type. Time is in the logarithm of the number of the rows
    /// at the point, and in the number of those that are given.
    pub(crate) fn at(&self, point: u32, ty: TyId) -> &[&'a Row]
        ensures { (e : RowData) → Contains (map (λ r. r.now) result.now) e
            ↔ (Contains self.now e × ((e.point ≡ point) × (e.ty ≡ ty))) }
    {
        let rows = self.at_point(point);
        let from = rows.partition_point(|row| place(row, point, ty).is_lt());
        let rest = &rows[from..];
        let count = count_of(rest, point, ty);
        &rest[..count]
    }
}
