//! A search for quick evidence of a scheme's verdict.
//!
//! The least table has an entry for each union of what premises ask, and outgrows every budget on small
//! schemes. The search proposes evidence that is far smaller: for an accepted scheme a table that isn't
//! least, with environments that are void, and for a rejected one a path. Nothing has to hold of it, since
//! whoever takes the evidence checks it (McConnell, Mehlhorn, Naeher, Schweitzer, "Certifying algorithms",
//! Computer Science Review 2011). No function has a contract here: they are shown to return.
//!
//! An environment says which types are asked of a nonterminal's parameters. It is void where no arguments that
//! the nonterminal is ever given have all of them: on each way in which calls give these, some argument has no
//! entry for a type that is asked of it, or whatever entries are chosen for them ask something void of the
//! caller's own parameters. An entry with a void environment rejects nothing that comes about, so the proposal
//! does without it.
//!
//! How it searches stands in docs/METHOD.md, "How evidence is sought".
#![tactic(auto)]

mod backing;
mod certificate;
mod ended;
mod envs;
mod heads;
mod joins;
mod limits;
mod listing;
mod lists;
mod look;
mod naming;
mod order;
mod proposing;
mod queue;
mod running;
mod search;
mod sites;
mod table;
mod types;
mod uses;

pub use limits::Limits;
pub use proposing::{Proposal, propose};
