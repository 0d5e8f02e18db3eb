//! Entries in short.

use hs_scheme::OutOfMemory;
use hs_table::{Entry, Shape, Ty, TypeSet};
use std::alloc::Global;

/// An entry in short: its point, the states in the sets of its environment, those in the set of its
/// type where that is an arrow, and the state that its type is or ends in.
pub(crate) type Row = (u32, &'static [&'static [u32]], Option<&'static [u32]>, u32);

/// The set of these states.
fn set_of(alloc: Global, states: &[u32]) -> Result<TypeSet, OutOfMemory> {
    let mut types = Vec::new(alloc);
    for q in states {
        types.push(Ty::state(*q))?;
    }
    Ok(TypeSet { types })
}

/// The type with this set and this state as its result.
fn arrow_of(alloc: Global, states: &[u32], q: u32) -> Result<Ty, OutOfMemory> {
    let rest = Box::new(alloc, Ty::state(q))?;
    Ok(Ty {
        shape: Shape::Arrow(set_of(alloc, states)?.types, rest),
    })
}

/// This state, or where a set is given the arrow with it.
fn type_of(alloc: Global, states: Option<&[u32]>, q: u32) -> Result<Ty, OutOfMemory> {
    match states {
        None => Ok(Ty::state(q)),
        Some(states) => arrow_of(alloc, states, q),
    }
}

/// The environment with these sets.
fn env_of(alloc: Global, sets: &[&[u32]]) -> Result<Vec<TypeSet>, OutOfMemory> {
    let mut env = Vec::new(alloc);
    for states in sets {
        env.push(set_of(alloc, states)?)?;
    }
    Ok(env)
}

/// The entry of the row.
pub(crate) fn entry_of(alloc: Global, row: &Row) -> Result<Entry, OutOfMemory> {
    let ty = type_of(alloc, row.2, row.3)?;
    let env = env_of(alloc, row.1)?;
    Ok(Entry {
        point: row.0,
        env,
        ty,
    })
}
