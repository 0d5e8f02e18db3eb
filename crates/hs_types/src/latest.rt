//! Guesses of the numbers of what is asked for most.

use crate::ids::TyId;
use std::alloc::Global;

/// So many guesses of a kind are kept.
const GUESSES: u32 = 16_384;

/// What was asked for last: the types that are states, the sets of at most one type, the environments
/// of so many empty sets, and those of one type. A guess stands at the number of what it is for, up to
/// a multiple of the number of guesses. Nothing rests on it: it is looked at before it is taken. Where
/// it is right, nothing is hashed.
#[derive(Drop)]
pub(crate) struct Latest {
    /// By the state.
    pub(crate) states: Vec<u32>,
    /// By 0 the empty set, and by 1 and the type's number the set of it.
    pub(crate) sets: Vec<u32>,
    /// By the number of sets.
    pub(crate) empty_envs: Vec<u32>,
    /// By the type.
    pub(crate) single_envs: Vec<u32>,
}

impl Latest {
    /// No guesses. Takes no memory.
    pub(crate) fn new(alloc: Global) -> Latest {
        Latest {
            states: Vec::new(alloc),
            sets: Vec::new(alloc),
            empty_envs: Vec::new(alloc),
            single_envs: Vec::new(alloc),
        }
    }
}

/// Where the guess for this number stands.
pub(crate) fn place_of(number: u32) -> u32 {
    number % GUESSES
}

/// Where the guess for the set of these types stands.
pub(crate) fn place_of_set(types: &[TyId]) -> u32 {
    match types.first() {
        Some(ty) => place_of(ty.stored().wrapping_add(1)),
        None => 0,
    }
}

/// Where the guess for the environment of so many empty sets stands.
pub(crate) fn place_of_count(count: usize) -> u32 {
    (count % GUESSES as usize) as u32
}
