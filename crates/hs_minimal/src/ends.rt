//! Rows by their points and by the states at the ends of their types.

ghost use Rattle.std.specs.Prelude.{◌≡◌, ◌++◌, ◌∷◌, [], ℕ, OnOk, cond};
ghost use Rattle.hs_scheme.specs.Key.{key_eq};
ghost use Rattle.hs_minimal.specs.Ends.{rows_ending};

use hs_scheme::OutOfMemory;
use hs_types::Row;
use indexmap::IndexMap;
use std::alloc::Global;
use std::marker::Model;

/// The rows at each point whose types have a certain state at their end. Contracts see the lists of them,
/// by point and state.
#[derive(Drop)]
pub(crate) struct EndRows {
    rows: IndexMap<(u32, u32), Vec<Row>>,
}

impl Model for EndRows {
    ghost use Rattle.std.specs.Prelude.{map};
    ghost use Rattle.hs_minimal.specs.Ends.{EndData, coded_ends};

    ghost Value = { EndData };

    ghost coded = { coded_ends };

    ghost view = { λ a. map (λ e. (e.0, e.1.items)) a.rows.entries };
}

impl EndRows {
    /// No rows. Takes no memory.
    pub(crate) fn new(alloc: Global) -> EndRows
        ensures { result ≡ [] }
    {
        EndRows {
            rows: IndexMap::new(alloc),
        }
    }

    /// The rows at the point with this state at their end. Constant time on average.
    pub(crate) fn at(&self, point: u32, state: u32) -> &[Row]
        ensures { result.now ≡ rows_ending self.now point state }
    {
        match self.rows.get(&(point, state)) {
            Some(rows) => rows.as_slice(),
            None => &[],
        }
    }

    /// Puts these rows in the place of those at the point with this state at their end.
    pub(crate) fn replace(
        &mut self,
        point: u32,
        state: u32,
        rows: Vec<Row>,
    ) -> Result<(), OutOfMemory>
        ensures { OnOk result ((u q : ℕ) → rows_ending self.new u q ≡ cond (key_eq (point, state) (u, q))
            rows.items (rows_ending self.old u q)) }
    {
        self.rows.insert((point, state), rows)?;
        Ok(())
    }

    /// Adds a row at the point with this state at its end. After a refusal of memory the others there
    /// may be lost.
    pub(crate) fn push(
        &mut self,
        alloc: Global,
        point: u32,
        state: u32,
        row: Row,
    ) -> Result<(), OutOfMemory>
        ensures { OnOk result ((u q : ℕ) → rows_ending self.new u q ≡ cond (key_eq (point, state) (u, q))
            (rows_ending self.old u q ++ row ∷ []) (rows_ending self.old u q)) }
    {
        let mut rows = self
            .rows
            .swap_remove(&(point, state))
            .unwrap_or(Vec::new(alloc));
        rows.push(row)?;
        self.replace(point, state, rows)
    }
}
