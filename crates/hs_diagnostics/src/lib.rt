//! Where and why a file is faulty: where its text leaves the grammar or passes a limit, and where its names
//! clash.
//!
//! `hs_reader` and `hs_resolve` alone decide what is refused. Here the same is gone through once more, to
//! show the place. Nothing is proved of the texts.
#![tactic(auto)]

mod grammar;
mod lexemes;
mod names;
mod passed;
mod placing;
mod syntax;

pub use names::names_text;
pub use passed::limit_text;
pub use placing::{push_placed, push_rule, push_shown};
pub use syntax::syntax_text;
