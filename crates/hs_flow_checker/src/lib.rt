//! Whether a flow holds all that is demanded by the pairs that it holds.
//!
//! A point demands pairs by what its head may become: flow pairs, of its arguments for parameters, and
//! head pairs, of itself with its arguments. `first_gap` looks for the first that isn't held, over the
//! head pairs by their points. Definitions stand in `specs/`: `Gaps` says what a flow lacks, `PassedOn`
//! what is demanded at one point, and `Starts` where the items of a point begin in a list by points.
#![tactic(auto)]

mod distances;
mod gaps;
mod head_pairs;
mod marks;
mod passing;
mod starts;

pub use gaps::{Kind, first_gap};
pub use head_pairs::HeadPairs;
pub use marks::is_marked;
pub use starts::from_first_with;
