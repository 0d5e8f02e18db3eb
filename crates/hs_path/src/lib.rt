//! The path to a node that the automaton doesn't allow, which a log of entries names.
//!
//! The log says of each entry what it follows from. Followed from the start entry, that names a path;
//! it leads the reduction of the start step by step, and no term is formed.
#![tactic(auto)]

mod adding;
mod answer;
mod asking;
mod evidence;
mod moving;
mod walking;

pub use answer::Walk;
pub use walking::walk;
