//! Entries and void pairs in short.

use hs_scheme::OutOfMemory;
use hs_table::{Entry, Shape, Ty, TypeSet};
use hs_weak::Void;
use std::alloc::Global;

/// A type in short: the states in the set of its argument, where it has one, and the state that it is or
/// ends in.
pub(crate) type ShortType = (Option<&'static [u32]>, u32);

/// An environment in short: the types in the set of each parameter.
pub(crate) type ShortEnv = &'static [&'static [ShortType]];

/// An entry in short: its point, its environment and its type.
pub(crate) type ShortEntry = (u32, ShortEnv, ShortType);

/// A void pair in short: the rule of its nonterminal, and its environment.
pub(crate) type ShortVoid = (u32, ShortEnv);

/// These states as types.
fn states_of(alloc: Global, states: &[u32]) -> Result<Vec<Ty>, OutOfMemory> {
    let mut types = Vec::new(alloc);
    for q in states {
        types.push(Ty::state(*q))?;
    }
    Ok(types)
}

/// The type with a set of these states and this one as its result.
fn arrow_of(alloc: Global, states: &[u32], q: u32) -> Result<Ty, OutOfMemory> {
    let rest = Box::new(alloc, Ty::state(q))?;
    Ok(Ty {
        shape: Shape::Arrow(states_of(alloc, states)?, rest),
    })
}

fn type_of(alloc: Global, short: &ShortType) -> Result<Ty, OutOfMemory> {
    match short.0 {
        None => Ok(Ty::state(short.1)),
        Some(states) => arrow_of(alloc, states, short.1),
    }
}

/// The set of these types, which ascend.
fn set_of(alloc: Global, shorts: &[ShortType]) -> Result<TypeSet, OutOfMemory> {
    let mut types = Vec::new(alloc);
    for short in shorts {
        types.push(type_of(alloc, short)?)?;
    }
    Ok(TypeSet { types })
}

fn env_of(alloc: Global, shorts: &[&[ShortType]]) -> Result<Vec<TypeSet>, OutOfMemory> {
    let mut env = Vec::new(alloc);
    for short in shorts {
        env.push(set_of(alloc, short)?)?;
    }
    Ok(env)
}

/// The entry in full.
pub(crate) fn entry_of(alloc: Global, short: &ShortEntry) -> Result<Entry, OutOfMemory> {
    let ty = type_of(alloc, &short.2)?;
    let env = env_of(alloc, short.1)?;
    Ok(Entry {
        point: short.0,
        env,
        ty,
    })
}

/// The void pair in full.
fn pair_of(alloc: Global, short: &ShortVoid) -> Result<Void, OutOfMemory> {
    let env = env_of(alloc, short.1)?;
    Ok(Void { rule: short.0, env })
}

/// The pairs in full, in their order.
pub(crate) fn pairs_of(alloc: Global, shorts: &[ShortVoid]) -> Result<Vec<Void>, OutOfMemory> {
    let mut pairs = Vec::new(alloc);
    for short in shorts {
        pairs.push(pair_of(alloc, short)?)?;
    }
    Ok(pairs)
}

/// The entries in full, in their order, but for the one at this place.
pub(crate) fn table_without(
    alloc: Global,
    shorts: &[ShortEntry],
    left_out: Option<usize>,
) -> Result<Vec<Entry>, OutOfMemory> {
    let mut table = Vec::new(alloc);
    for (place, short) in shorts.iter().enumerate() {
        if left_out != Some(place) {
            table.push(entry_of(alloc, short)?)?;
        }
    }
    Ok(table)
}

/// The entries in full, backwards and each twice, beside each of them one at a point out of range, and one
/// with a state out of range.
pub(crate) fn stirred(alloc: Global, shorts: &[ShortEntry]) -> Result<Vec<Entry>, OutOfMemory> {
    let mut table = Vec::new(alloc);
    for short in shorts.iter().rev() {
        for _ in 0..2 {
            table.push(entry_of(alloc, short)?)?;
        }
        table.push(entry_of(alloc, &(99, short.1, short.2))?)?;
        table.push(entry_of(alloc, &(short.0, short.1, (None, 99)))?)?;
    }
    Ok(table)
}
