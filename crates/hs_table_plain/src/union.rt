//! Sets of types and environments, joined.

ghost use Rattle.std.specs.Prelude.{◌≡◌, ◌∷◌, ◌++◌, ◌≤◌, ◌↔◌, take, drop, length, Contains, IsTrue, IfOk, OnOk, OnErr, MatchResult};
ghost use Rattle.hs_table.specs.Entries.{set_at};
ghost use Rattle.hs_table_laws.proofs.Sets.{insert as with_type};
ghost use Rattle.hs_table_plain.specs.Enumeration as plain;

use hs_scheme::OutOfMemory;
use hs_table::{Entry, Ty, TypeSet};
use std::alloc::Global;
use std::cmp::Ordering;

/// The place of the type in an ascending set, or the one where it belongs.
fn place_of(set: &[Ty], ty: &Ty) -> Result<usize, usize>
    ensures { MatchResult result
        (λ place. with_type ty.now set.now ≡ set.now)
        (λ place. (place ≤ length set.now)
        × (with_type ty.now set.now ≡ take place set.now ++ ty.now ∷ drop place set.now)) }
{
    for (place, member) in set.iter().enumerate() {
        match ty.compare(member) {
            Ordering::Less => return Err(place),
            Ordering::Equal => return Ok(place),
            Ordering::Greater => {}
        }
    }
    Err(set.len())
}

/// Adds an equal type to an ascending set, where it isn't there. It looks at the members one by one.
/// Where memory is refused the set stays as it was.
pub fn insert_type(alloc: Global, set: &mut Vec<Ty>, ty: &Ty) -> Result<(), OutOfMemory>
    ensures ok { OnOk result (set.new.items ≡ with_type ty.now set.old.items) }
    ensures err { OnErr result (set.new.items ≡ set.old.items) }
{
    if let Err(place) = place_of(set.as_slice(), ty) {
        set.insert(place, ty.copy(alloc)?)?;
    }
    Ok(())
}

/// The types of both sets.
fn union(alloc: Global, set: &TypeSet, other: &[Ty]) -> Result<TypeSet, OutOfMemory>
    ensures { IfOk result (λ both. both ≡ plain.union set.now other.now) }
{
    let mut types = set.copy(alloc)?.types;
    for member in other {
        insert_type(alloc, &mut types, member)?;
    }
    Ok(TypeSet { types })
}

/// The types of the set, and those that the entry asks of the parameter.
fn union_at(
    alloc: Global,
    set: &TypeSet,
    entry: &Entry,
    parameter: usize,
) -> Result<TypeSet, OutOfMemory>
    ensures { IfOk result (λ both. both ≡ plain.union set.now (set_at entry.now.env parameter)) }
{
    match entry.env.get(parameter) {
        None => set.copy(alloc),
        Some(other) => union(alloc, set, other.types.as_slice()),
    }
}

/// The first entry, with what the second asks of the parameters.
pub(crate) fn joined(alloc: Global, entry: &Entry, other: &Entry) -> Result<Entry, OutOfMemory>
    ensures { IfOk result (λ made. made ≡ plain.joined entry.now other.now) }
{
    let mut env = Vec::with_capacity(alloc, entry.env.len())?;
    for (parameter, set) in entry.env.iter().enumerate() {
        env.push(union_at(alloc, set, other, parameter)?)?;
    }
    Ok(Entry {
        point: entry.point,
        env,
        ty: entry.ty.copy(alloc)?,
    })
}

/// Whether the entry is in the list.
pub(crate) fn contains(entries: &[Entry], entry: &Entry) -> bool
    ensures { IsTrue result ↔ Contains entries.now entry.now }
{
    for other in entries {
        if other.compare(entry) == Ordering::Equal {
            return true;
        }
    }
    false
}
