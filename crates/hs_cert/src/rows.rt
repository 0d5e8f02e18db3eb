//! The lines behind the first three, in the full form: entries.

ghost use Rattle.std.specs.Prelude.{◌≡◌, ◌++◌, ◌≤◌, ℕ, List, [], ◌∷◌, length, OnOk, IfErr, IsErrOf, IsTrue, ◌↔◌};
ghost use Rattle.hs_table.specs.Entries.{EntryData, entry_cmp};
ghost use Rattle.hs_numbered.specs.Certificates.{IsAboveLast};
ghost use Rattle.hs_cert.specs.declared.fault.Misread.TheVariants.{Faulty};
ghost use Rattle.hs_cert.specs.Certificate.{HasOwnNames, IsTableFault, IsEntry};
ghost use Rattle.hs_cert.specs.Front.{AreIndexed, IsOfProblem, HasHead, HasBegun, IsNextItem};

use crate::entry::read_entry;
use crate::fault::{Misread, TableFault};
use crate::heading::Heading;
use crate::lines::Lines;
use crate::names::NameTable;
use hs_scheme::Problem;
use hs_table::Entry;
use std::alloc::Global;
use std::cmp::Ordering;

/// Whether the entry is greater than the last of these.
fn is_above(table: &[Entry], entry: &Entry) -> bool
    ensures { IsTrue result ↔ IsAboveLast entry_cmp table.now entry.now }
{
    match table {
        [] => true,
        [.., last] => last.compare(entry) == Ordering::Less,
    }
}

/// Adds the entry on the next line, which is greater than the last of the table.
fn read_next(
    alloc: Global,
    problem: &Problem,
    states: &NameTable,
    table: &mut Vec<Entry>,
    lines: &mut Lines<'_>,
) -> Result<(), Misread>
    requires states { AreIndexed states.now }
    requires same { IsOfProblem problem.now states.now }
    ensures read { OnOk result ((e : EntryData) × (table.new.items ≡ table.old.items ++ e ∷ [])
        × IsNextItem (IsEntry problem.now) entry_cmp table.old.items lines.old.rest.now e lines.new.rest.now) }
    ensures faulty { IsErrOf result Faulty → (e : EntryData) (rest : List ℕ)
        → IsNextItem (IsEntry problem.now) entry_cmp table.old.items lines.old.rest.now e rest → ⊥ }
{
    let Some(line) = lines.next() else {
        return Err(Misread::Faulty);
    };
    let entry = read_entry(alloc, problem, states, line)?;
    if !is_above(table.as_slice(), &entry) {
        return Err(Misread::Faulty);
    }
    table.push(entry)?;
    Ok(())
}

/// Adds as many entries as the heading says, each on a line.
pub(crate) fn read_entries(
    alloc: Global,
    problem: &Problem,
    states: &NameTable,
    heading: Heading,
    table: &mut Vec<Entry>,
    lines: &mut Lines<'_>,
) -> Result<(), TableFault>
    requires states { AreIndexed states.now }
    requires same { IsOfProblem problem.now states.now }
    requires names { HasOwnNames problem.now }
    requires few { heading.entries ≤ 1000000 }
    requires table { table.old.items ≡ [] }
    ensures read { OnOk result ((bytes : List ℕ) → HasHead bytes heading lines.old.rest.now
        → HasBegun problem.now bytes heading table.new.items [] lines.new.rest.now) }
    ensures all { OnOk result (length table.new.items ≡ heading.entries) }
    ensures fault { IfErr result (λ e. (bytes : List ℕ)
        → HasHead bytes heading lines.old.rest.now → IsTableFault problem.now bytes e) }
{
    for number in 0..heading.entries {
        match read_next(alloc, problem, states, table, lines) {
            Ok(()) => {}
            Err(misread) => return Err(misread.on_line(number + 4)),
        }
    }
    Ok(())
}
