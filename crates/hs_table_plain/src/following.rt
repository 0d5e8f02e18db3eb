//! What follows at a point.

ghost use Rattle.std.specs.Prelude.{◌≡◌, ◌≢◌, ◌<◌, ◌⊎◌, ◌↔◌, [], ◌∷◌, length, All, AllPairs, Contains, IfOk, OnOk};
ghost use Rattle.hs_scheme.specs.flow.Points.{NonterminalWithin};
ghost use Rattle.hs_table.specs.Entries.{EntryData, InShape, params_of};
ghost use Rattle.hs_table.specs.Follows.{Follows};
ghost use Rattle.hs_table_plain.specs.Enumeration as plain;

use crate::choices::through;
use crate::heads::head_types;
use crate::union::contains;
use hs_scheme::{Head, OutOfMemory, Problem};
use hs_table::{Entry, Ty, TypeSet, empty_sets, parameters};
use std::alloc::Global;

/// The entry with the head's type, and with what the head asks of the parameters.
fn opening(
    alloc: Global,
    point: u32,
    params: u32,
    head: Head,
    ty: &Ty,
) -> Result<Entry, OutOfMemory>
    ensures { IfOk result (λ entry. entry ≡ plain.opening point params head ty.now) }
{
    let mut env = empty_sets(alloc, params as usize)?;
    if let Head::Var(parameter) = head {
        if (parameter as usize) < env.len() {
            env[parameter as usize] = TypeSet::single(alloc, ty.copy(alloc)?)?;
        }
    }
    Ok(Entry {
        point,
        env,
        ty: ty.copy(alloc)?,
    })
}

/// Adds the entry, where it isn't there.
fn add_if_new(alloc: Global, found: &mut Vec<Entry>, entry: &Entry) -> Result<(), OutOfMemory>
    requires { AllPairs (λ a b. a ≢ b) found.old.items }
    ensures once { OnOk result (AllPairs (λ a b. a ≢ b) found.new.items) }
    ensures each { OnOk result ((e : EntryData) → Contains found.new.items e
        ↔ (Contains found.old.items e ⊎ (e ≡ entry.now))) }
{
    if contains(found.as_slice(), entry) {
        return Ok(());
    }
    found.push(entry.copy(alloc)?)?;
    Ok(())
}

/// Adds those of the entries that aren't there.
fn add_new(alloc: Global, found: &mut Vec<Entry>, entries: &[Entry]) -> Result<(), OutOfMemory>
    requires { AllPairs (λ a b. a ≢ b) found.old.items }
    ensures once { OnOk result (AllPairs (λ a b. a ≢ b) found.new.items) }
    ensures each { OnOk result ((e : EntryData) → Contains found.new.items e
        ↔ (Contains found.old.items e ⊎ Contains entries.now e)) }
{
    for entry in entries {
        add_if_new(alloc, found, entry)?;
    }
    Ok(())
}

/// Adds what comes of one type of the head: each choice of entries for the types of its sets.
fn add_typed(
    alloc: Global,
    log: &[Entry],
    args: &[u32],
    ty: &Ty,
    start: Entry,
    found: &mut Vec<Entry>,
) -> Result<(), OutOfMemory>
    requires { AllPairs (λ a b. a ≢ b) found.old.items }
    ensures once { OnOk result (AllPairs (λ a b. a ≢ b) found.new.items) }
    ensures each { OnOk result ((e : EntryData) →
        Contains found.new.items e ↔ (Contains found.old.items e
        ⊎ Contains (plain.through log.now args.now ty.now (start ∷ [])) e)) }
{
    let entries = through(alloc, log, args, ty, vec![in alloc; start]?)?;
    add_new(alloc, found, entries.as_slice())
}

/// All that follow at a point with this rule, head and arguments.
fn gathered(
    alloc: Global,
    problem: &Problem,
    log: &[Entry],
    point: u32,
    rule: u32,
    head: Head,
    args: &[u32],
) -> Result<Vec<Entry>, OutOfMemory>
    requires { NonterminalWithin (length problem.now.points.bodies) head }
    ensures once { IfOk result (λ found. AllPairs (λ a b. a ≢ b) found.items) }
    ensures each { IfOk result (λ found. (e : EntryData) →
        Contains found.items e ↔ Contains
        (plain.all_at problem.now log.now point rule (params_of problem.now rule) head args.now) e) }
{
    let params = parameters(problem, rule);
    let types = head_types(alloc, problem, log, rule, head)?;
    let mut found = Vec::new(alloc);
    for ty in &types {
        let start = opening(alloc, point, params, head, ty)?;
        add_typed(alloc, log, args, ty, start, &mut found)?;
    }
    Ok(found)
}

/// Every entry at the point that follows from the list, each once. The point is in range, and the
/// entries of the list are in shape.
///
/// Each choice of entries is tried, so the time is in the number of these, which may be
/// exponential in the size of the types.
pub fn conclusions(
    alloc: Global,
    problem: &Problem,
    log: &[Entry],
    point: u32,
) -> Result<Vec<Entry>, OutOfMemory>
    requires point { point < length problem.now.points.points }
    requires shape { All (InShape problem.now) log.now }
    ensures once { IfOk result (λ found. AllPairs (λ a b. a ≢ b) found.items) }
    ensures each { IfOk result (λ found. (e : EntryData) → Contains found.items e
        ↔ ((e.point ≡ point) × Follows problem.now log.now e)) }
{
    let rule = problem.points.rule_of(point);
    let head = problem.points.head_of(point);
    let args = problem.points.args_of(point);
    gathered(alloc, problem, log, point, rule, head, args)
}
