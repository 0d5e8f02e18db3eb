//! Sort inference: the least sorting of a recursion scheme.
//!
//! The sorts of nonterminals, parameters and terminals are found by unification over shared nodes,
//! with one occurs check for all rules. What a sorting is, and which one is the least, stands in
//! `hs_scheme`.
#![tactic(auto)]

mod constraints;
mod fault;
mod finding;
mod heads;
mod inference;
mod laws;
mod lengthening;
mod measures;
mod reading;
mod search;
mod solve;
mod store;

pub use fault::SortFault;
pub use inference::infer;
pub use laws::{one_fault, sorts_are_least_for_lengthened_rules};
