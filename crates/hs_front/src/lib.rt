//! The front end of the programs: from a source of bytes to the problem of the scheme that they are a
//! file of, or to the refusal that says why there is none, with its exit status and its line.
#![tactic(auto)]

mod lines;
mod problem;
mod reading;
mod refusal;
mod sorted;
mod telling;
mod words;

pub use lines::{Line, OUT_OF_MEMORY, line_with_name, line_with_number};
pub use problem::{problem_of, problem_of_file};
pub use reading::read;
pub use refusal::{Refusal, line, status};
pub use sorted::sorted_of;
pub use telling::{refuse, tell};
pub use words::{NO_MEMORY, NO_WORDS, borrowed, collected};
