//! Numbers the names of a file: from what a file says to the scheme and the automaton that it
//! stands for.
#![tactic(auto)]

mod body;
mod fault;
mod laws;
mod line;
mod name_index;
mod numbering;
mod resolving;
mod seen;
mod transitions;

pub use fault::{MAX_STATES, NameFault};
pub use laws::one_first_fault;
pub use resolving::{resolve, resolve_owned};
