//! The types of the head of a point that matter for a certificate of acceptance, by numbers: `head_types`
//! finds them, split at the point's arguments, and `specs/HeadTypes` says which they are.
#![tactic(auto)]

mod arrows;
mod heads;
mod laws;
mod rows;
mod splits;
mod terminals;

pub use heads::head_types;
pub use laws::head_types_stay;
pub use splits::HeadType;
