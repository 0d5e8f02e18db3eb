//! Many workers on one log of entries: the steps that they may take, and what holds after any list
//! of them.
//!
//! A worker takes a work: the seed of a point, or a place of the log. It adds to the log what
//! follows by the work, and finishes the work once nothing is left out. The definitions stand in
//! `specs/`: `Story` has what is told of the workers, `CoreStep` which step may come next and what
//! it leads to, `History` the lists of steps from the opening on. The laws here are contracts of
//! functions that do nothing; they speak of all histories, whoever takes the steps.
#![tactic(auto)]

mod laws;
mod step;

pub use laws::{answers_exclude_one_another, every_history_supported, histories_go_on};
pub use step::{Event, Flight, Step, Work};
