//! In which states a point may be read by the automaton.
//!
//! `Reads::of` finds the pairs of a point and a state. `specs/Own` says which list of them is the problem's own.
#![tactic(auto)]

mod becoming;
mod bits;
mod found;
mod laws;
mod lists;
mod reading;
mod reads;
mod state_set;
mod stop;

pub use laws::own_reads_are_one;
pub use reads::Reads;
