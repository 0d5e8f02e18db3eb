//! From a file to the scheme that it stands for.

ghost use Rattle.std.specs.Prelude.{◌≡◌, ◌⊎◌, ◌≤◌, [], map, length, IfOk, OnOk, IfErr, IsErrAnd, IfSome, IfNone};
ghost use Rattle.hs_scheme.specs.acceptance.Automaton.{IsAutomaton};
ghost use Rattle.hs_scheme.specs.sorting.Unsorted.{IsUnsorted};
ghost use Rattle.hs_reader.specs.Raw.{File};
ghost use Rattle.hs_resolve.specs.Least.{IsLeast};
ghost use Rattle.hs_resolve.specs.LineFaults.{StartHasParams};
ghost use Rattle.hs_resolve.specs.Numbering.{unsorted_of};
ghost use Rattle.hs_resolve.specs.Answer.{IsFaultless, IsAnswered, Decides};
ghost use Rattle.hs_resolve.specs.Tables.{AreEmpty, AreLines, AreTables, IsNumberedFile, IsResolved, made_of, names_in, no_names, automaton_with};

use crate::body::number_bodies;
use crate::fault::{MAX_STATES, NameFault};
use crate::line::FaultLines;
use crate::name_index::NameIndex;
use crate::numbering::{copy_scopes, number_transitions};
use crate::seen::{add_scopes, number_left};
use crate::transitions::{note_lengths, repeated_of};
use hs_reader::RawFile;
use hs_scheme::{Automaton, Names, OutOfMemory, Rule, Transition, Unsorted};
use indexmap::IndexMap;
use std::alloc::Global;

/// The names of a file by number, and what was found on the way.
#[derive(Drop)]
struct Tables<'a> {
    left: NameIndex<'a>,
    params: Vec<NameIndex<'a>>,
    terminals: NameIndex<'a>,
    states: NameIndex<'a>,
    lengths: IndexMap<&'a [u8], u32>,
    lines: FaultLines,
}

/// The rules and the transitions with numbers for their names.
#[derive(Drop)]
struct Numbered {
    rules: Vec<Rule>,
    transitions: Vec<Transition>,
}

/// What a file comes to.
#[derive(Drop)]
struct Resolved<'a> {
    tables: Tables<'a>,
    numbered: Numbered,
}

/// The line of the first rule where it has a parameter.
fn start_line(raw: &RawFile) -> Option<u32>
    ensures { IsLeast (StartHasParams raw.now) result }
{
    let rule = raw.rules.first()?;
    if rule.params.is_empty() {
        return None;
    }
    Some(rule.name.line)
}

/// The tables before any name is numbered.
fn no_tables<'a>(alloc: Global) -> Tables<'a>
    ensures { AreEmpty result }
{
    Tables {
        left: NameIndex::new(alloc),
        params: Vec::new(alloc),
        terminals: NameIndex::new(alloc),
        states: NameIndex::new(alloc),
        lengths: IndexMap::new(alloc),
        lines: FaultLines::none(),
    }
}

/// Numbers the names of a file of which none is numbered yet, its rules and its transitions, and notes
/// what is found on the way.
fn number_names<'a>(
    alloc: Global,
    raw: &RawFile<'a>,
    tables: &mut Tables<'a>,
    numbered: &mut Numbered,
) -> Result<(), OutOfMemory>
    requires tables { AreEmpty tables.old }
    requires rules { numbered.old.rules.items ≡ [] }
    requires transitions { numbered.old.transitions.items ≡ [] }
    ensures tables { OnOk result (AreTables raw.now tables.new) }
    ensures numbered { OnOk result (IsNumberedFile raw.now numbered.new) }
    ensures lines { OnOk result (AreLines raw.now tables.new.lines) }
{
    let rules = raw.rules.as_slice();
    let transitions = raw.transitions.as_slice();
    let start_has_params = start_line(raw);
    let duplicate_transition = repeated_of(alloc, transitions)?;
    let rank_clash = note_lengths(&mut tables.lengths, transitions)?;
    let duplicate_rule = number_left(&mut tables.left, rules)?;
    let duplicate_param = add_scopes(alloc, &mut tables.params, rules)?;
    let undefined = number_bodies(
        alloc,
        &tables.left,
        tables.params.as_slice(),
        rules,
        &mut tables.terminals,
        &mut numbered.rules,
    )?;
    number_transitions(
        alloc,
        &mut tables.states,
        &mut tables.terminals,
        transitions,
        &mut numbered.transitions,
    )?;
    tables.lines = FaultLines {
        duplicate_rule,
        duplicate_param,
        undefined,
        start_has_params,
        duplicate_transition,
        rank_clash,
    };
    Ok(())
}

/// The names of a file by number, with what was found on the way, and its rules and transitions.
fn number_file<'a>(alloc: Global, raw: &RawFile<'a>) -> Result<Resolved<'a>, OutOfMemory>
    ensures tables { IfOk result (λ r. AreTables raw.now r.tables) }
    ensures numbered { IfOk result (λ r. IsNumberedFile raw.now r.numbered) }
    ensures lines { IfOk result (λ r. AreLines raw.now r.tables.lines) }
{
    let mut tables = no_tables(alloc);
    let mut numbered = Numbered {
        rules: Vec::new(alloc),
        transitions: Vec::new(alloc),
    };
    number_names(alloc, raw, &mut tables, &mut numbered)?;
    Ok(Resolved { tables, numbered })
}

/// The first fault of a file, where it has one.
fn first_fault(tables: &Tables) -> Option<NameFault>
    ensures fault { (raw : File) → AreTables raw tables.now → AreLines raw tables.now.lines
        → IfSome result (λ e. IsAnswered raw e) }
    ensures none { (raw : File) → AreTables raw tables.now → AreLines raw tables.now.lines
        → IfNone result (IsFaultless raw) }
{
    if let Some(fault) = tables.lines.first() {
        return Some(fault);
    }
    if tables.states.len() > MAX_STATES {
        return Some(NameFault::TooManyStates);
    }
    None
}

/// Adds the names of a scheme with these tables, where there are none yet.
fn copy_names(alloc: Global, tables: &Tables, names: &mut Names) -> Result<(), OutOfMemory>
    requires { names.old ≡ no_names }
    ensures { OnOk result (names.new ≡ names_in tables.now) }
{
    tables.left.copy(alloc, &mut names.rules)?;
    copy_scopes(alloc, tables.params.as_slice(), &mut names.params)?;
    tables.terminals.copy(alloc, &mut names.terminals)?;
    tables.states.copy(alloc, &mut names.states)?;
    Ok(())
}

/// The automaton with these transitions. The names of its scheme are added, where there are none yet.
fn automaton_of(
    alloc: Global,
    tables: &Tables,
    transitions: Vec<Transition>,
    names: &mut Names,
) -> Result<Automaton, OutOfMemory>
    requires automaton { IsAutomaton (automaton_with tables.now transitions.items) }
    requires few { length tables.now.states ≤ MAX_STATES }
    requires names { names.old ≡ no_names }
    ensures automaton { IfOk result (λ a. a ≡ automaton_with tables.now transitions.items) }
    ensures names { OnOk result (names.new ≡ names_in tables.now) }
{
    let states = tables.states.len() as u32;
    copy_names(alloc, tables, names)?;
    let automaton = Automaton::of(alloc, states, transitions)?;
    Ok(automaton)
}

/// No names.
fn no_names(alloc: Global) -> Names
    ensures { result ≡ no_names }
{
    Names {
        rules: Vec::new(alloc),
        params: Vec::new(alloc),
        terminals: Vec::new(alloc),
        states: Vec::new(alloc),
    }
}

/// The scheme with these rules and transitions and these names.
fn put_together(alloc: Global, tables: &Tables, numbered: Numbered) -> Result<Unsorted, OutOfMemory>
    requires automaton { IsAutomaton (made_of tables.now numbered).automaton }
    requires scheme { IsUnsorted (made_of tables.now numbered) }
    requires few { length tables.now.states ≤ MAX_STATES }
    ensures { IfOk result (λ u. u ≡ made_of tables.now numbered) }
{
    let ranks = tables.terminals.values_in(alloc, &tables.lengths)?;
    let Numbered { rules, transitions } = numbered;
    let mut names = no_names(alloc);
    let automaton = automaton_of(alloc, tables, transitions, &mut names)?;
    Ok(Unsorted {
        rules,
        ranks,
        automaton,
        names,
    })
}

/// The scheme with these rules and transitions and these names, or the first fault.
fn decide(alloc: Global, tables: &Tables, numbered: Numbered) -> Result<Unsorted, NameFault>
    requires some { (raw : File) × IsResolved raw (record { tables = tables.now; numbered = numbered }) }
    ensures { (raw : File) → IsResolved raw (record { tables = tables.now; numbered = numbered })
        → Decides raw result }
{
    if let Some(fault) = first_fault(tables) {
        return Err(fault);
    }
    Ok(put_together(alloc, tables, numbered)?)
}

/// The scheme of a file that was numbered, or its first fault. It doesn't need the file any more.
fn answer(alloc: Global, resolved: Resolved) -> Result<Unsorted, NameFault>
    requires some { (raw : File) × IsResolved raw resolved }
    ensures { (raw : File) → IsResolved raw resolved.entry → Decides raw result }
{
    let Resolved { tables, numbered } = resolved;
    let decided = decide(alloc, &tables, numbered);
    drop(tables);
    decided
}

/// Numbers the names of a file.
///
/// Rules are numbered in file order, terminals by their first occurrence through the bodies and
/// then the transitions, states by their first occurrence through the transitions; all are counted
/// from 0. The fault on the least line is answered, on one line the first in the order of
/// `NameFault`; `TooManyStates` comes where no line fault stands. Time and memory are in proportion
/// to the file, on average over the hashes of its names. Recurses as deep as the terms.
pub fn resolve(alloc: Global, raw: &RawFile) -> Result<Unsorted, NameFault>
    ensures value { IfOk result (λ u. u ≡ unsorted_of raw.now) }
    ensures faultless { OnOk result (IsFaultless raw.now) }
    ensures fault { IfErr result (λ e. (e ≡ NameFault.OutOfMemory) ⊎ IsAnswered raw.now e) }
    // Nothing but want of memory keeps a file without faults from its scheme, and one with faults
    // from its first.
    ensures taken { IsFaultless raw.now → IfErr result (λ e. e ≡ NameFault.OutOfMemory) }
    ensures refused { (fault : NameFault) → IsAnswered raw.now fault
        → IsErrAnd result (λ e. (e ≡ NameFault.OutOfMemory) ⊎ (e ≡ fault)) }
{
    let resolved = number_file(alloc, raw)?;
    answer(alloc, resolved)
}

/// As [`resolve`], and what the file says is given back as soon as its names are numbered: before the
/// automaton and the names of the scheme are made.
pub fn resolve_owned(alloc: Global, raw: RawFile) -> Result<Unsorted, NameFault>
    ensures value { IfOk result (λ u. u ≡ unsorted_of raw.entry) }
    ensures faultless { OnOk result (IsFaultless raw.entry) }
    ensures fault { IfErr result (λ e. (e ≡ NameFault.OutOfMemory) ⊎ IsAnswered raw.entry e) }
    ensures taken { IsFaultless raw.entry → IfErr result (λ e. e ≡ NameFault.OutOfMemory) }
    ensures refused { (fault : NameFault) → IsAnswered raw.entry fault
        → IsErrAnd result (λ e. (e ≡ NameFault.OutOfMemory) ⊎ (e ≡ fault)) }
{
    let resolved = number_file(alloc, &raw);
    drop(raw);
    answer(alloc, resolved?)
}
