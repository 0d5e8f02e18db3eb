//! A table that grows by strong entries.

ghost use Rattle.std.specs.Prelude.{◌≡◌, ◌∷◌, ◌++◌, ◌<◌, ◌≤◌, ◌↔◌, [], IfOk, IsTrue, OnOk, Some, length, slice_get};
ghost use Rattle.std.specs.List.Sorted.{IsNonDecreasingBy};
ghost use Rattle.hs_weak.specs.Strength.{AsStrongAs};
ghost use Rattle.hs_weak.specs.Weak.{WeaklyFollows};
ghost use Rattle.hs_weak.specs.Reads.{last_state};
ghost use Rattle.hs_types.specs.Interned.{InternerData, RowData, IsRow, entry_of, type_of_id};
ghost use Rattle.hs_reads.specs.Lists.{list_of};
ghost use Rattle.hs_minimal.specs.Ends.{rows_ending};
ghost use Rattle.hs_minimal.specs.Growing.{entries, IsGrowing, IsCoveredAt, AreAdded, IsLeftBy};

use crate::covered::{covers_some, has_row, not_covered_by};
use crate::ends::EndRows;
use crate::rows::PointRows;
use hs_choices::Compared;
use hs_scheme::{OutOfMemory, Problem};
use hs_strength::last_state;
use hs_types::{Interner, Row};
use hs_verdict::know_sorted_problem;
use std::alloc::Global;
use std::marker::Model;

/// The entries that were added, in their order, and those of them that nothing covers that came later, by
/// point, and by point and the state at the end of their type: an entry covers only such as have the same
/// one. Contracts see these, the problem and the budget.
#[derive(Drop)]
pub(crate) struct Growing<'a> {
    pub(crate) alloc: Global,
    problem: &'a Problem,
    budget: u32,
    history: Vec<Row>,
    rows: PointRows,
    ends: EndRows,
}

impl<'a> Model for Growing<'a> {
    ghost use Rattle.hs_minimal.specs.Growing.{GrowingData, coded_growing};

    ghost Value = { GrowingData };

    ghost coded = { coded_growing };

    ghost view = { λ a. record {
      problem = a.problem.now;
      budget = a.budget;
      history = a.history.items;
      rows = a.rows;
      ends = a.ends;
    } };
}

impl<'a> Growing<'a> {
    /// No entries. Memory is in proportion to the points.
    pub(crate) fn new(
        alloc: Global,
        problem: &'a Problem,
        budget: u32,
    ) -> Result<Growing<'a>, OutOfMemory>
        ensures problem { IfOk result (λ growing. growing.problem ≡ problem.now) }
        ensures budget { IfOk result (λ growing. growing.budget ≡ budget) }
        ensures growing { IfOk result (λ growing. (I : InternerData) → IsGrowing I growing) }
    {
        let rows = PointRows::empty(alloc, problem.points.count() as usize)?;
        Ok(Growing {
            alloc,
            problem,
            budget,
            history: Vec::new(alloc),
            rows,
            ends: EndRows::new(alloc),
        })
    }

    /// The problem.
    pub(crate) fn problem(&self) -> &'a Problem
        ensures { result.now ≡ self.now.problem }
    {
        self.problem
    }

    /// How many entries were added.
    pub(crate) fn len(&self) -> usize
        ensures { result ≡ length self.now.history }
    {
        self.history.len()
    }

    /// The entry at this place of those that were added, counted from 0.
    fn row(&self, place: usize) -> Row
        requires { place < length self.now.history }
        ensures { slice_get self.now.history place ≡ Some result }
    {
        self.history[place]
    }

    /// Those from this place on, counted from 0, in the order of their points.
    pub(crate) fn rows_from(&self, place: usize) -> Result<Vec<Row>, OutOfMemory>
        requires { place ≤ length self.now.history }
        ensures added { IfOk result (λ rows. AreAdded self.now rows.items) }
        ensures order { IfOk result (λ rows. IsNonDecreasingBy (λ (r : RowData). r.point) rows.items) }
    {
        let mut rows = Vec::new(self.alloc);
        for own in place..self.history.len() {
            rows.push(self.row(own))?;
        }
        rows.sort_unstable_by_key(|row| row.point);
        Ok(rows)
    }

    /// All that were added.
    pub(crate) fn history(&self) -> &[Row]
        ensures { result.now ≡ self.now.history }
    {
        self.history.as_slice()
    }

    /// The entries at the point that nothing covers that came later.
    pub(crate) fn rows_at(&self, point: u32) -> &[Row]
        ensures { result.now ≡ list_of self.now.rows point }
    {
        self.rows.at(point)
    }

    /// Whether more entries were added than are allowed.
    pub(crate) fn is_full(&self) -> bool
        ensures { IsTrue result ↔ self.now.budget < length self.now.history }
    {
        self.history.len() > self.budget as usize
    }

    /// Those that are kept at the point of this entry with the same state at the end of their type.
    pub(crate) fn alike(&self, types: &Interner, row: &Row) -> &[Row]
        requires { IsRow types.now row.now }
        ensures { result.now ≡ rows_ending self.now.ends row.now.point
            (last_state (type_of_id types.now row.now.ty)) }
    {
        self.ends.at(row.point, last_state(types, row.ty))
    }

    /// Whether an entry that is kept covers this one.
    pub(crate) fn covers(&self, types: &mut Compared, row: &Row) -> Result<bool, OutOfMemory>
        requires growing { IsGrowing types.old self.now }
        requires row { IsRow types.old row.now }
        ensures ok { IfOk result (λ covered. IsTrue covered
            ↔ IsCoveredAt types.old self.now (entry_of types.old row.now)) }
        ensures same { types.new ≡ types.old }
    {
        let kept = self.alike(types.interner(), row);
        if has_row(kept, row) {
            return Ok(true);
        }
        types.is_covered(row, kept)
    }

    /// Lets those of the kept entries go that this one covers.
    fn let_covered_go(&mut self, types: &mut Compared, row: &Row) -> Result<(), OutOfMemory>
        requires growing { IsGrowing types.old self.old }
        requires row { IsRow types.old row.now }
        requires point { row.now.point < length self.old.rows }
        ensures left { OnOk result (IsLeftBy types.old row.now self.old self.new) }
        ensures problem { self.new.problem ≡ self.old.problem }
        ensures budget { self.new.budget ≡ self.old.budget }
        ensures same { types.new ≡ types.old }
    {
        let kept = self.alike(types.interner(), row);
        if !covers_some(types, kept, row)? {
            return Ok(());
        }
        let ends = not_covered_by(self.alloc, types, kept, row)?;
        let rows = not_covered_by(self.alloc, types, self.rows.at(row.point), row)?;
        self.rows.replace(row.point, rows);
        let end = last_state(types.interner(), row.ty);
        self.ends.replace(row.point, end, ends)
    }

    /// Adds an entry that weakly follows and that no other covers. Those that it covers aren't kept.
    pub(crate) fn add(&mut self, types: &mut Compared, row: Row) -> Result<(), OutOfMemory>
        requires growing { IsGrowing types.old self.old }
        requires row { IsRow types.old row }
        requires room { length self.old.history ≤ self.old.budget }
        requires follows { WeaklyFollows AsStrongAs self.old.problem (entries types.old self.old.history)
            (entry_of types.old row) }
        requires uncovered { IsCoveredAt types.old self.old (entry_of types.old row) → ⊥ }
        ensures growing { OnOk result (IsGrowing types.new self.new) }
        ensures same { types.new ≡ types.old }
        ensures problem { self.new.problem ≡ self.old.problem }
        ensures budget { self.new.budget ≡ self.old.budget }
        ensures history { OnOk result (self.new.history ≡ self.old.history ++ row ∷ []) }
    {
        know_sorted_problem(self.problem);
        self.let_covered_go(types, &row)?;
        self.rows.push(row.point, row)?;
        let end = last_state(types.interner(), row.ty);
        self.ends.push(self.alloc, row.point, end, row)?;
        self.history.push(row)?;
        Ok(())
    }
}
