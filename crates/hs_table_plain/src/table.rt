//! The least table.

ghost use Rattle.std.specs.Prelude.{◌≡◌, ◌<◌, ◌≤◌, ◌↔◌, length, slice_index_or, All, Contains, IsTrue, IfOk, MatchOption, OnOk};
ghost use Rattle.hs_table.specs.Entries.{EntryData, InShape};
ghost use Rattle.hs_table.specs.Follows.{Follows};
ghost use Rattle.hs_table.specs.Tables.{IsSupportedTable, IsClosedTable, IsLeastTable, Exceeds};
ghost use Rattle.hs_table_laws.proofs.Shapes.{LeadsWithin};

use crate::following::conclusions;
use crate::union::contains;
use hs_scheme::{Automaton, OutOfMemory, Problem};
use hs_table::Entry;
use std::alloc::Global;

/// The place of the first of the entries that isn't in the list.
fn place_of_new(log: &[Entry], entries: &[Entry]) -> Option<usize>
    ensures { MatchOption result
        ((e : EntryData) → Contains entries.now e → Contains log.now e)
        (λ place. (place < length entries.now)
        × ((d : EntryData) → Contains log.now (slice_index_or entries.now place d) → ⊥)) }
{
    for (place, entry) in entries.iter().enumerate() {
        if !contains(log, entry) {
            return Some(place);
        }
    }
    None
}

/// The first of the entries that isn't in the list.
fn first_new(log: &[Entry], entries: Vec<Entry>) -> Option<Entry>
    ensures { MatchOption result
        ((e : EntryData) → Contains entries.items e → Contains log.now e)
        (λ e. Contains entries.items e × (Contains log.now e → ⊥)) }
{
    let mut entries = entries;
    match place_of_new(log, entries.as_slice()) {
        None => None,
        Some(place) => Some(entries.swap_remove(place)),
    }
}

/// An entry that follows from the list and isn't in it, or `None` where there is no such.
fn missing(alloc: Global, problem: &Problem, log: &[Entry]) -> Result<Option<Entry>, OutOfMemory>
    requires { All (InShape problem.now) log.now }
    ensures { IfOk result (λ found. MatchOption found
        (IsClosedTable problem.now log.now)
        (λ e. Follows problem.now log.now e × (Contains log.now e → ⊥))) }
{
    for point in 0..problem.points.count() {
        let found = conclusions(alloc, problem, log, point)?;
        match first_new(log, found) {
            Some(entry) => return Ok(Some(entry)),
            None => {}
        }
    }
    Ok(None)
}

/// Whether the states are all below the number.
fn are_below(states: &[u32], number: u32) -> bool
    ensures { IsTrue result ↔ All (λ q. q < number) states.now }
{
    for q in states {
        if *q >= number {
            return false;
        }
    }
    true
}

/// Whether each transition leads to states of the automaton.
fn is_within(automaton: &Automaton) -> bool
    ensures { IsTrue result ↔ LeadsWithin automaton.now }
{
    let states = automaton.states();
    for transition in automaton.transitions() {
        let within = are_below(transition.to.as_slice(), states);
        if !within {
            return false;
        }
    }
    true
}

/// Whether each transition leads to states of the automaton. In each automaton they do.
pub fn leads_within(problem: &Problem) -> bool
    ensures { IsTrue result ↔ LeadsWithin problem.now.sorted.automaton }
{
    is_within(&problem.sorted.automaton)
}

/// A least table of the problem, in an order in which each entry follows from those before it, or
/// `None` where it has more entries than the budget.
///
/// All that follows is formed anew for each entry.
pub fn least_table(
    alloc: Global,
    problem: &Problem,
    budget: u32,
) -> Result<Option<Vec<Entry>>, OutOfMemory>
    requires { LeadsWithin problem.now.sorted.automaton }
    ensures least { IfOk result (λ table. MatchOption table (Exceeds problem.now budget)
        (λ t. IsLeastTable problem.now t.items)) }
    ensures within { IfOk result (λ table. MatchOption table (Exceeds problem.now budget)
        (λ t. length t.items ≤ budget)) }
{
    let mut log = Vec::new(alloc);
    while let Some(entry) = missing(alloc, problem, log.as_slice())? {
        if log.len() >= budget as usize {
            return Ok(None);
        }
        log.push(entry)?;
    }
    Ok(Some(log))
}
