//! Which environments are void by the rows of a table and of void pairs, and which void pairs are none:
//! decided exactly, by number.
//!
//! The definitions stand in `specs/Void` of `hs_weak`, and what contracts see in `specs/Voids`.
#![tactic(auto)]

mod arguments;
mod basis;
mod blocking;
mod laws;
mod memo;
mod missing;
mod pairs;
mod void_answers;
mod voids;

pub use laws::what_fits_stays;
pub use voids::Voids;
