//! Lists by number.

ghost use Rattle.std.specs.Prelude.{◌≡◌, ◌<◌, ◌↔◌, ◌⊎◌, [], ℕ, Some};
ghost use Rattle.std.specs.Prelude.{true, length, slice_get, IfOk, OnOk, OnErr, IsTrue};
ghost use Rattle.hs_flow.specs.Lists.{list_of, IsPushed};
ghost use Rattle.hs_flow.specs.Bases.{HasFlag, TellsNew};

use hs_scheme::OutOfMemory;
use std::alloc::Global;
use std::marker::Model;

/// Lists, numbered from 0. Contracts see the list of them.
#[derive(Debug, Drop)]
pub(crate) struct Lists<T> {
    rows: Vec<Vec<T>>,
}

impl<T> Model for Lists<T> {
    ghost use Rattle.std.specs.Prelude.{List, map};

    ghost Value = { List (List T) };

    ghost view = { λ a. map (λ row. row.items) a.rows.items };
}

impl<T: Drop> Lists<T> {
    /// This many empty lists.
    pub(crate) fn empty(alloc: Global, count: usize) -> Result<Lists<T>, OutOfMemory>
        ensures len { IfOk result (λ lists. length lists ≡ count) }
        ensures empty { IfOk result (λ lists. (k : ℕ) → list_of lists k ≡ []) }
    {
        let mut rows = Vec::with_capacity(alloc, count)?;
        for _ in 0..count {
            rows.push_reserved(Vec::new(alloc));
        }
        Ok(Lists { rows })
    }

    /// How many lists there are.
    pub(crate) fn len(&self) -> usize
        ensures { result ≡ length self.now }
    {
        self.rows.len()
    }

    /// The list of this number.
    pub(crate) fn list(&self, number: usize) -> &[T]
        requires { number < length self.now }
        ensures { slice_get self.now number ≡ Some result.now }
    {
        self.rows[number].as_slice()
    }

    /// Adds an item at the end of the list of this number.
    pub(crate) fn push(&mut self, number: usize, item: T) -> Result<(), OutOfMemory>
        requires { number < length self.old }
        ensures pushed { OnOk result (IsPushed number item self.old self.new) }
        ensures same { OnErr result (self.new ≡ self.old) }
    {
        let row = &mut self.rows[number];
        row.push(item)?;
        Ok(())
    }
}

/// Sets a flag in a row, which is made as long as `width` if need be, and answers whether it wasn't
/// set.
fn set_in(row: &mut Vec<bool>, flag: usize, width: usize) -> Result<bool, OutOfMemory>
    requires { flag < width }
    ensures flags { OnOk result ((j : ℕ) →
        (slice_get row.new.items j ≡ Some true) ↔ ((slice_get row.old.items j ≡ Some true) ⊎ (j ≡ flag))) }
    ensures new { IfOk result (TellsNew (slice_get row.old.items flag ≡ Some true)) }
    ensures same { OnErr result (row.new.items ≡ row.old.items) }
{
    if row.len() <= flag {
        row.resize(width, false)?;
    }
    if row[flag] {
        return Ok(false);
    }
    row[flag] = true;
    Ok(true)
}

/// Whether the flag is there and set.
fn is_set(row: &[bool], flag: usize) -> bool
    ensures { IsTrue result → slice_get row.now flag ≡ Some true }
{
    match row.get(flag) {
        Some(set) => *set,
        None => false,
    }
}

impl Lists<bool> {
    /// Whether a flag is set in the list of this number: `false` where there is no such flag.
    pub(crate) fn has_flag(&self, number: usize, flag: usize) -> bool
        ensures { IsTrue result → HasFlag self.now number flag }
    {
        if number >= self.rows.len() {
            return false;
        }
        is_set(self.rows[number].as_slice(), flag)
    }

    /// Sets a flag in the list of this number, which is made as long as `width` if need be, and
    /// answers whether it wasn't set.
    pub(crate) fn set_flag(
        &mut self,
        number: usize,
        flag: usize,
        width: usize,
    ) -> Result<bool, OutOfMemory>
        requires number { number < length self.old }
        requires flag { flag < width }
        ensures len { length self.new ≡ length self.old }
        ensures flags { OnOk result ((k j : ℕ) →
            HasFlag self.new k j ↔ (HasFlag self.old k j ⊎ ((k ≡ number) × (j ≡ flag)))) }
        ensures new { IfOk result (TellsNew (HasFlag self.old number flag)) }
        ensures same { OnErr result (self.new ≡ self.old) }
    {
        let row = &mut self.rows[number];
        set_in(row, flag, width)
    }
}
