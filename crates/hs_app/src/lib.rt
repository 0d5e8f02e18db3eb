//! The model checker as one call, from the words of the command line to the report.
#![tactic(auto)]

mod counting;
mod deciding;
mod evidence;
mod explaining;
mod laws;
mod proposed;
mod seeking;
mod top;
mod verdict;
mod words;

pub use laws::canonical_file_is_read_again;
pub use proposed::decide_on;
pub use top::run;
pub use verdict::{Decided, Decision};
pub use words::run_on;
