//! Lists by number.

ghost use Rattle.std.specs.Prelude.{◌≡◌, ◌<◌, [], ℕ, Some, length, IfOk, OnOk};
ghost use Rattle.hs_reads.specs.Lists.{list_of, IsPushed};

use hs_scheme::OutOfMemory;
use std::alloc::Global;
use std::marker::Model;

/// Lists, numbered from 0. Contracts see the list of them.
#[derive(Debug, Drop)]
pub(crate) struct Lists<T> {
    rows: Vec<Vec<T>>,
}

impl<T> Model for Lists<T> {
    ghost use Rattle.std.specs.Prelude.{List, map};

    ghost Value = { List (List T) };

    ghost view = { λ a. map (λ row. row.items) a.rows.items };
}

impl<T: Drop> Lists<T> {
    /// This many empty lists.
    pub(crate) fn empty(alloc: Global, count: usize) -> Result<Lists<T>, OutOfMemory>
        ensures len { IfOk result (λ lists. length lists ≡ count) }
        ensures empty { IfOk result (λ lists. (k : ℕ) → list_of lists k ≡ []) }
    {
        let mut rows = Vec::with_capacity(alloc, count)?;
        for _ in 0..count {
            rows.push_reserved(Vec::new(alloc));
        }
        Ok(Lists { rows })
    }

    /// The list of this number, empty where there is none.
    pub(crate) fn list(&self, number: usize) -> &[T]
        ensures { result.now ≡ list_of self.now number }
    {
        match self.rows.get(number) {
            Some(row) => row.as_slice(),
            None => &[],
        }
    }

    /// Puts empty lists behind the others, up to this number.
    pub(crate) fn reach(&mut self, alloc: Global, number: usize) -> Result<(), OutOfMemory>
        ensures len { OnOk result (number < length self.new) }
        ensures same { OnOk result ((k : ℕ) → list_of self.new k ≡ list_of self.old k) }
    {
        while self.rows.len() <= number {
            self.rows.push(Vec::new(alloc))?;
        }
        Ok(())
    }

    /// Adds an item at the end of the list of this number.
    pub(crate) fn push(&mut self, number: usize, item: T) -> Result<(), OutOfMemory>
        requires { number < length self.old }
        ensures pushed { OnOk result (IsPushed number item self.old self.new) }
    {
        let row = &mut self.rows[number];
        row.push(item)?;
        Ok(())
    }
}
