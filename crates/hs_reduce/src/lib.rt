//! Plain reduction of a sorted scheme: along the child numbers of a path, and along every path up to
//! a number of steps.
//!
//! A step replaces the nonterminal in front of a term by its rule's body, or goes down from the
//! terminal in front, along a transition of the automaton, to one of its children.
#![tactic(auto)]

mod answers;
mod cutting;
mod graph;
mod limits;
mod replacement;
mod replaying;
mod trail;

pub use answers::{Bounded, ReductionStep, Replay, Trace};
pub use cutting::bounded;
pub use limits::{MAX_CUT, MAX_STEPS};
pub use replaying::{failure_along, replay, trace_along};
