//! Short lists of numbers.

ghost use Rattle.std.specs.Prelude.{◌≡◌, ◌<◌, [], ℕ, Some, length, slice_get, IfOk, OnOk};
ghost use Rattle.hs_flow.specs.Lists.{list_of, IsPushed};

use hs_scheme::OutOfMemory;
use smallvec::SmallVec;
use std::alloc::Global;
use std::marker::Model;

/// So many items of a list stand in the list itself; a longer list has a block of its own.
const SHORT: usize = 4;

/// Lists of numbers, numbered from 0, most of which are short. Contracts see the list of them.
#[derive(Debug, Drop)]
pub(crate) struct ShortLists {
    rows: Vec<SmallVec<u32, SHORT>>,
}

impl Model for ShortLists {
    ghost use Rattle.std.specs.Prelude.{List, ℕ, map};

    ghost Value = { List (List ℕ) };

    ghost view = { λ a. map (λ row. row.items) a.rows.items };
}

impl ShortLists {
    /// This many empty lists.
    pub(crate) fn empty(alloc: Global, count: usize) -> Result<ShortLists, OutOfMemory>
        ensures len { IfOk result (λ lists. length lists ≡ count) }
        ensures empty { IfOk result (λ lists. (k : ℕ) → list_of lists k ≡ []) }
    {
        let mut rows = Vec::with_capacity(alloc, count)?;
        for _ in 0..count {
            rows.push_reserved(SmallVec::new(alloc));
        }
        Ok(ShortLists { rows })
    }

    /// The list of this number.
    pub(crate) fn list(&self, number: usize) -> &[u32]
        requires { number < length self.now }
        ensures { slice_get self.now number ≡ Some result.now }
    {
        self.rows[number].as_slice()
    }

    /// Adds an item at the end of the list of this number.
    pub(crate) fn push(&mut self, number: usize, item: u32) -> Result<(), OutOfMemory>
        requires { number < length self.old }
        ensures pushed { OnOk result (IsPushed number item self.old self.new) }
    {
        let row = &mut self.rows[number];
        row.push(item)?;
        Ok(())
    }
}
