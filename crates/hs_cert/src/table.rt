//! The lines of a certificate.

ghost use Rattle.std.specs.Prelude.{◌≡◌, ◌≤◌, ◌<◌, ◌^◌, ℕ, List, [], length, IfOk, OnOk, IfErr};
ghost use Rattle.hs_cert.specs.declared.heading.Form.TheVariants.{Full, Compact};
ghost use Rattle.hs_cert.specs.Certificate.{AreNames, HasOwnNames, IsTableFault, IsCertificateIn, IsCert};
ghost use Rattle.hs_cert.specs.Front.{AreIndexed, IsOfProblem, AreOfRules, HasHead};

use crate::fault::TableFault;
use crate::heading::{Form, Heading, read_heading};
use crate::lines::Lines;
use crate::names::NameTable;
use crate::numbered::{read_numbered_entries, read_pairs};
use crate::rows::read_entries;
use hs_numbered::NumberedCertificate;
use hs_scheme::{Name, Problem};
use hs_table::Entry;
use std::alloc::Global;

/// What a file with evidence says. Entries are ascending and in shape, and so are void environments;
/// types are nested at most 1,000 deep.
#[derive(Drop)]
pub enum Cert {
    /// The entries of a table, and how many instances it is to have.
    Full { table: Vec<Entry>, checked: u64 },
    /// A certificate of acceptance, with its entries and its void environments.
    Compact { certificate: NumberedCertificate },
}

/// The names of the states, one for each.
fn state_names(problem: &Problem) -> &[Name]
    ensures names { result.now ≡ problem.now.sorted.names.states }
    ensures each { length problem.now.sorted.names.states ≡ problem.now.sorted.automaton.states }
    ensures few { problem.now.sorted.automaton.states < 2 ^ 32 }
    ensures points { length problem.now.points.points ≤ 500000 }
{
    let _points = problem.points.count();
    let sorted = &problem.sorted;
    let names = &sorted.names;
    let _states = sorted.automaton.states();
    names.states.as_slice()
}

/// The names of the rules, one for each.
fn rule_names(problem: &Problem) -> &[Name]
    ensures names { result.now ≡ problem.now.sorted.names.rules }
    ensures each { length problem.now.sorted.names.rules ≡ length problem.now.sorted.scheme.rules }
    ensures few { length problem.now.sorted.scheme.rules < 2 ^ 32 }
{
    let sorted = &problem.sorted;
    let names = &sorted.names;
    let _rules = sorted.scheme.rules.len();
    names.rules.as_slice()
}

/// The entries behind a heading of the full form, to the end of the file.
fn read_full_rows(
    alloc: Global,
    problem: &Problem,
    states: &NameTable,
    heading: Heading,
    table: &mut Vec<Entry>,
    lines: &mut Lines<'_>,
) -> Result<(), TableFault>
    requires states { AreIndexed states.now }
    requires same { IsOfProblem problem.now states.now }
    requires names { HasOwnNames problem.now }
    requires full { heading.form ≡ Full }
    requires few { heading.entries ≤ 1000000 }
    requires table { table.old.items ≡ [] }
    ensures read { OnOk result ((bytes : List ℕ) → HasHead bytes heading lines.old.rest.now
        → IsCertificateIn heading.form problem.now bytes heading.number table.new.items []) }
    ensures fault { IfErr result (λ e. (bytes : List ℕ)
        → HasHead bytes heading lines.old.rest.now → IsTableFault problem.now bytes e) }
{
    read_entries(alloc, problem, states, heading, table, lines)?;
    if lines.is_empty() {
        Ok(())
    } else {
        Err(TableFault::Line {
            line: heading.entries + 4,
        })
    }
}

/// The entries and void environments behind a heading of the compact form, to the end of the file.
fn read_compact_rows(
    alloc: Global,
    problem: &Problem,
    states: &NameTable,
    rules: &NameTable,
    heading: Heading,
    certificate: &mut NumberedCertificate,
    lines: &mut Lines<'_>,
) -> Result<(), TableFault>
    requires states { AreIndexed states.now }
    requires same { IsOfProblem problem.now states.now }
    requires rules { AreIndexed rules.now }
    requires own { AreOfRules problem.now rules.now }
    requires names { HasOwnNames problem.now }
    requires compact { heading.form ≡ Compact }
    requires few { heading.entries ≤ 1000000 }
    requires few_pairs { heading.number ≤ 1000000 }
    requires table { certificate.old.table ≡ [] }
    requires void { certificate.old.void ≡ [] }
    ensures read { OnOk result ((bytes : List ℕ) → HasHead bytes heading lines.old.rest.now
        → IsCertificateIn heading.form problem.now bytes heading.number certificate.new.table
        certificate.new.void) }
    ensures fault { IfErr result (λ e. (bytes : List ℕ)
        → HasHead bytes heading lines.old.rest.now → IsTableFault problem.now bytes e) }
{
    read_numbered_entries(alloc, problem, states, heading, certificate, lines)?;
    let count = heading.number as u32;
    read_pairs(
        alloc,
        problem,
        states,
        rules,
        heading,
        count,
        certificate,
        lines,
    )?;
    if lines.is_empty() {
        Ok(())
    } else {
        Err(TableFault::Line {
            line: heading.entries + count + 4,
        })
    }
}

/// What a file with this heading, of the full form, says.
fn read_full(
    alloc: Global,
    problem: &Problem,
    states: &NameTable,
    heading: Heading,
    lines: &mut Lines<'_>,
) -> Result<Cert, TableFault>
    requires states { AreIndexed states.now }
    requires same { IsOfProblem problem.now states.now }
    requires names { HasOwnNames problem.now }
    requires full { heading.form ≡ Full }
    requires few { heading.entries ≤ 1000000 }
    ensures cert { IfOk result (λ cert. (bytes : List ℕ) → HasHead bytes heading lines.old.rest.now
        → IsCert problem.now bytes cert) }
    ensures fault { IfErr result (λ e. (bytes : List ℕ)
        → HasHead bytes heading lines.old.rest.now → IsTableFault problem.now bytes e) }
{
    let mut table = Vec::new(alloc);
    read_full_rows(alloc, problem, states, heading, &mut table, lines)?;
    Ok(Cert::Full {
        table,
        checked: heading.number,
    })
}

/// What a file with this heading, of the compact form, says.
fn read_compact(
    alloc: Global,
    problem: &Problem,
    states: &NameTable,
    rules: &NameTable,
    heading: Heading,
    lines: &mut Lines<'_>,
) -> Result<Cert, TableFault>
    requires states { AreIndexed states.now }
    requires same { IsOfProblem problem.now states.now }
    requires rules { AreIndexed rules.now }
    requires own { AreOfRules problem.now rules.now }
    requires names { HasOwnNames problem.now }
    requires compact { heading.form ≡ Compact }
    requires few { heading.entries ≤ 1000000 }
    requires few_pairs { heading.number ≤ 1000000 }
    ensures cert { IfOk result (λ cert. (bytes : List ℕ) → HasHead bytes heading lines.old.rest.now
        → IsCert problem.now bytes cert) }
    ensures fault { IfErr result (λ e. (bytes : List ℕ)
        → HasHead bytes heading lines.old.rest.now → IsTableFault problem.now bytes e) }
{
    let mut certificate = NumberedCertificate::new(alloc);
    let read = read_compact_rows(
        alloc,
        problem,
        states,
        rules,
        heading,
        &mut certificate,
        lines,
    );
    match read {
        Ok(()) => Ok(Cert::Compact { certificate }),
        Err(fault) => {
            drop(certificate);
            Err(fault)
        }
    }
}

/// Reads a file with evidence of acceptance: the verdict, two numbers by the form of the evidence, the
/// entries, each on a line, and in the compact form the void environments behind them.
///
/// Each state and each rule has a name of its own, which is a name of a file. `Line` comes exactly
/// where some line is faulty, or missing, and names the first. Time and memory are on average in
/// proportion to the bytes. Recurses at most 1,000 deep.
pub fn read_table(alloc: Global, problem: &Problem, bytes: &[u8]) -> Result<Cert, TableFault>
    requires states { AreNames problem.now.sorted.names.states }
    requires rules { AreNames problem.now.sorted.names.rules }
    ensures cert { IfOk result (λ cert. IsCert problem.now bytes.now cert) }
    ensures fault { IfErr result (λ e. IsTableFault problem.now bytes.now e) }
{
    let states = NameTable::of(alloc, state_names(problem))?;
    let rules = NameTable::of(alloc, rule_names(problem))?;
    let mut lines = Lines::new(bytes);
    let heading = read_heading(&mut lines)?;
    match heading.form {
        Form::Full => read_full(alloc, problem, &states, heading, &mut lines),
        Form::Compact => read_compact(alloc, problem, &states, &rules, heading, &mut lines),
    }
}
