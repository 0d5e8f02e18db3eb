//! The lines behind the first three, in the compact form: entries, and behind them void environments. Each is
//! read as a tree, and is told by number once it was read.

ghost use Rattle.std.specs.Prelude.{◌≡◌, ◌++◌, ◌≤◌, ℕ, List, [], ◌∷◌, length, OnOk, IfErr, IsErrOf};
ghost use Rattle.hs_table.specs.Entries.{EntryData, entry_cmp};
ghost use Rattle.hs_weak.specs.Void.{VoidData, void_cmp};
ghost use Rattle.hs_cert.specs.declared.fault.Misread.TheVariants.{Faulty};
ghost use Rattle.hs_cert.specs.Certificate.{HasOwnNames, IsTableFault, IsEntry, IsPair, pairs_of};
ghost use Rattle.hs_cert.specs.Front.{AreIndexed, IsOfProblem, AreOfRules, HasHead, HasBegun, IsNextItem};

use crate::entry::read_entry;
use crate::fault::{Misread, TableFault};
use crate::heading::Heading;
use crate::lines::Lines;
use crate::names::NameTable;
use crate::pair::read_pair;
use hs_numbered::NumberedCertificate;
use hs_scheme::Problem;
use std::alloc::Global;

/// Adds the entry on the next line, which is greater than the last one.
fn read_next_entry(
    alloc: Global,
    problem: &Problem,
    states: &NameTable,
    certificate: &mut NumberedCertificate,
    lines: &mut Lines<'_>,
) -> Result<(), Misread>
    requires states { AreIndexed states.now }
    requires same { IsOfProblem problem.now states.now }
    ensures read { OnOk result ((e : EntryData)
        × (certificate.new.table ≡ certificate.old.table ++ e ∷ [])
        × IsNextItem (IsEntry problem.now) entry_cmp certificate.old.table lines.old.rest.now e lines.new.rest.now) }
    ensures faulty { IsErrOf result Faulty → (e : EntryData) (rest : List ℕ)
        → IsNextItem (IsEntry problem.now) entry_cmp certificate.old.table lines.old.rest.now e rest → ⊥ }
    ensures void { certificate.new.void ≡ certificate.old.void }
{
    let Some(line) = lines.next() else {
        return Err(Misread::Faulty);
    };
    let entry = read_entry(alloc, problem, states, line)?;
    if certificate.import_entry(&entry)? {
        Ok(())
    } else {
        Err(Misread::Faulty)
    }
}

/// Adds as many entries as the heading says, each on a line.
pub(crate) fn read_numbered_entries(
    alloc: Global,
    problem: &Problem,
    states: &NameTable,
    heading: Heading,
    certificate: &mut NumberedCertificate,
    lines: &mut Lines<'_>,
) -> Result<(), TableFault>
    requires states { AreIndexed states.now }
    requires same { IsOfProblem problem.now states.now }
    requires names { HasOwnNames problem.now }
    requires few { heading.entries ≤ 1000000 }
    requires table { certificate.old.table ≡ [] }
    ensures read { OnOk result ((bytes : List ℕ) → HasHead bytes heading lines.old.rest.now
        → HasBegun problem.now bytes heading certificate.new.table [] lines.new.rest.now) }
    ensures all { OnOk result (length certificate.new.table ≡ heading.entries) }
    ensures fault { IfErr result (λ e. (bytes : List ℕ)
        → HasHead bytes heading lines.old.rest.now → IsTableFault problem.now bytes e) }
    ensures void { certificate.new.void ≡ certificate.old.void }
{
    for number in 0..heading.entries {
        match read_next_entry(alloc, problem, states, certificate, lines) {
            Ok(()) => {}
            Err(misread) => return Err(misread.on_line(number + 4)),
        }
    }
    Ok(())
}

/// Adds the pair on the next line, which is greater than the last one.
fn read_next_pair(
    alloc: Global,
    problem: &Problem,
    states: &NameTable,
    rules: &NameTable,
    certificate: &mut NumberedCertificate,
    lines: &mut Lines<'_>,
) -> Result<(), Misread>
    requires states { AreIndexed states.now }
    requires same { IsOfProblem problem.now states.now }
    requires rules { AreIndexed rules.now }
    requires own { AreOfRules problem.now rules.now }
    ensures read { OnOk result ((v : VoidData)
        × (certificate.new.void ≡ certificate.old.void ++ v ∷ [])
        × IsNextItem (IsPair problem.now) void_cmp certificate.old.void lines.old.rest.now v lines.new.rest.now) }
    ensures faulty { IsErrOf result Faulty → (v : VoidData) (rest : List ℕ)
        → IsNextItem (IsPair problem.now) void_cmp certificate.old.void lines.old.rest.now v rest → ⊥ }
    ensures table { certificate.new.table ≡ certificate.old.table }
{
    let Some(line) = lines.next() else {
        return Err(Misread::Faulty);
    };
    let pair = read_pair(alloc, problem, states, rules, line)?;
    if certificate.import_void(&pair)? {
        Ok(())
    } else {
        Err(Misread::Faulty)
    }
}

/// Adds as many void environments, each on a line, as this number, behind the entries of a table.
pub(crate) fn read_pairs(
    alloc: Global,
    problem: &Problem,
    states: &NameTable,
    rules: &NameTable,
    heading: Heading,
    count: u32,
    certificate: &mut NumberedCertificate,
    lines: &mut Lines<'_>,
) -> Result<(), TableFault>
    requires states { AreIndexed states.now }
    requires same { IsOfProblem problem.now states.now }
    requires rules { AreIndexed rules.now }
    requires own { AreOfRules problem.now rules.now }
    requires names { HasOwnNames problem.now }
    requires few { heading.entries ≤ 1000000 }
    requires count { count ≡ pairs_of heading.form heading.number }
    requires few_pairs { count ≤ 1000000 }
    requires void { certificate.old.void ≡ [] }
    ensures read { OnOk result ((bytes : List ℕ) (table : List EntryData) → length table ≡ heading.entries
        → HasBegun problem.now bytes heading table [] lines.old.rest.now
        → HasBegun problem.now bytes heading table certificate.new.void lines.new.rest.now) }
    ensures all { OnOk result (length certificate.new.void ≡ count) }
    ensures fault { IfErr result (λ e. (bytes : List ℕ) (table : List EntryData) → length table ≡ heading.entries
        → HasBegun problem.now bytes heading table [] lines.old.rest.now → IsTableFault problem.now bytes e) }
    ensures table { certificate.new.table ≡ certificate.old.table }
{
    for number in 0..count {
        match read_next_pair(alloc, problem, states, rules, certificate, lines) {
            Ok(()) => {}
            Err(misread) => return Err(misread.on_line(heading.entries + number + 4)),
        }
    }
    Ok(())
}
