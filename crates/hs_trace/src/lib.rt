//! The trace of the reduction along a path that was printed, each step with its place in the file.
#![tactic(auto)]

mod lines;
mod number;
mod rejected;
mod trace;

pub use lines::lines_of_rules;
pub use number::push_number;
pub use rejected::trace_of_report;
pub use trace::{MOST_STEPS, trace_text};
