//! What may be chosen for the types that are asked of arguments, the unions of a choice, as many as it takes,
//! and why these are enough.
//!
//! All is written over `Comparing`, so how types are kept and compared is open.
#![tactic(auto)]

mod compared;
mod comparing;
mod dropping;
mod laws;
mod rows;
mod slots;
mod unions;

pub use compared::Compared;
pub use comparing::Comparing;
pub use dropping::Dropping;
pub use laws::{
    least_unions_decide_blocked, least_unions_decide_missing, rows_may_be_chosen,
    rows_of_arguments_are_of_one_rule, what_asks_more_is_void, what_is_numbered_stays,
};
pub use rows::rows_at;
pub use slots::{Slot, slots_for};
pub use unions::least_unions;
