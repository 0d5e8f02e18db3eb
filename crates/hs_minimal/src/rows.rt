//! Rows by their points.

ghost use Rattle.std.specs.Prelude.{◌≡◌, ◌<◌, [], ℕ, length, cond, nat_eq, IfOk, OnOk};
ghost use Rattle.hs_reads.specs.Lists.{list_of, IsPushed};

use hs_scheme::OutOfMemory;
use hs_types::Row;
use std::alloc::Global;
use std::marker::Model;

/// The rows at each point. Contracts see the lists of them.
#[derive(Drop)]
pub(crate) struct PointRows {
    points: Vec<Vec<Row>>,
}

impl Model for PointRows {
    ghost use Rattle.std.specs.Prelude.{List, map};
    ghost use Rattle.hs_types.specs.Interned.{RowData};

    ghost Value = { List (List RowData) };

    ghost view = { λ a. map (λ rows. rows.items) a.points.items };
}

impl PointRows {
    /// No rows at each of so many points.
    pub(crate) fn empty(alloc: Global, count: usize) -> Result<PointRows, OutOfMemory>
        ensures len { IfOk result (λ rows. length rows ≡ count) }
        ensures empty { IfOk result (λ rows. (u : ℕ) → list_of rows u ≡ []) }
    {
        let mut points = Vec::with_capacity(alloc, count)?;
        for _ in 0..count {
            points.push_reserved(Vec::new(alloc));
        }
        Ok(PointRows { points })
    }

    /// The rows at the point; none where there is no such point.
    pub(crate) fn at(&self, point: u32) -> &[Row]
        ensures { result.now ≡ list_of self.now point }
    {
        match self.points.get(point as usize) {
            Some(rows) => rows.as_slice(),
            None => &[],
        }
    }

    /// Puts these rows in the place of those at the point.
    pub(crate) fn replace(&mut self, point: u32, rows: Vec<Row>)
        requires { point < length self.old }
        ensures len { length self.new ≡ length self.old }
        ensures each { (u : ℕ) → list_of self.new u ≡ cond (nat_eq u point) rows.items
            (list_of self.old u) }
    {
        self.points[point as usize] = rows;
    }

    /// Adds a row at the point.
    pub(crate) fn push(&mut self, point: u32, row: Row) -> Result<(), OutOfMemory>
        requires { point < length self.old }
        ensures { OnOk result (IsPushed point row self.old self.new) }
    {
        let rows = &mut self.points[point as usize];
        rows.push(row)?;
        Ok(())
    }
}
