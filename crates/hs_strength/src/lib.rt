//! Which types, environments and entries are as strong as others, by their numbers in an interner.
//! What was compared once is remembered.
//!
//! The definitions are those of `hs_weak`, of the trees that the numbers stand for.
#![tactic(auto)]

mod answers;
mod entries;
mod envs;
mod itself;
mod kinds;
mod last_states;
mod laws;
mod memo;
mod types;

pub use last_states::{has_last_state, last_state};
pub use laws::what_is_remembered_stays;
pub use memo::Strengths;
