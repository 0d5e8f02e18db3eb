//! Where the arguments of nonterminals come from: the sites that give them, and whether each chain of
//! sites has one that is marked.
//!
//! Sites and chains are defined in `specs/Sites` of `hs_weak`. Here `specs/Listed` says what a list of
//! all of them is, and `Walks` what is asked of chains.
#![tactic(auto)]

mod bases;
mod collecting;
mod sites;
mod walks;

pub use sites::{Site, Sites};
pub use walks::each_chain_has_marked;
