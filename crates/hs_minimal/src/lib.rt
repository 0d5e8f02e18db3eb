//! Compact tables: a list of entries none of which covers another, and which decides as the least table
//! does.
//!
//! `specs/Weak` of `hs_weak` says what a compact list is, and `specs/Compact` here what `compact` answers.
#![tactic(auto)]

mod answer;
mod asked;
mod children;
mod choosing;
mod compacting;
mod covered;
mod dropping;
mod ends;
mod filing;
mod following;
mod gathering;
mod growing;
mod matching;
mod rows;
mod selecting;
mod settling;
mod spreading;
mod strongest;
mod within;

pub use answer::Compact;
pub use compacting::compact;
pub use within::compact_within;
