//! The canonical core of a problem: a core whose log with its supports is the canonical log.
#![tactic(auto)]

mod gathering;
mod publishing;
mod ranking;

pub use hs_core::Core;
pub use ranking::canonical;
