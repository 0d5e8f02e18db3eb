//! Higher-order recursion schemes, deterministic trivial automata, and what it means that an
//! automaton accepts the tree of a scheme.
//!
//! A scheme has one rule `F x1 .. xn -> t` for each nonterminal; the nonterminal of rule 0 is the
//! start. Its value tree is what outermost reduction of the start makes, without end if need be.
//! Rules, parameters, terminals and states are numbers, counted from 0.
#![tactic(auto)]

mod automaton;
mod checked;
mod copying;
mod failing_path;
mod flow;
mod flow_laws;
mod limits;
mod memory;
mod name;
mod parameters;
mod plain;
mod points;
mod problem;
mod same;
mod scheme;
mod sort;
mod sorted;
mod term;
mod transitions;

pub use automaton::{Automaton, Transition};
pub use checked::scheme_of;
pub use copying::copied;
pub use failing_path::FailingPath;
pub use flow::{FlowPair, FlowTable, HeadPair, Pair};
pub use flow_laws::flow_is_unique;
pub use limits::{MAX_ARGUMENTS, MAX_PARAMETERS, MAX_RULES};
pub use memory::OutOfMemory;
pub use name::Name;
pub use parameters::Parameters;
pub use plain::{ValueTree, accepts_cut, cut, run, substitute};
pub use points::{Argument, MAX_POINTS, Points, PointsFault};
pub use problem::Problem;
pub use scheme::{Names, Scheme, Unsorted};
pub use sort::{Sort, least_sorting_is_first_order, least_sortings_are_equal};
pub use sorted::Sorted;
pub use term::{Head, Rule, Term};
