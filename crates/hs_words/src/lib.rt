//! The words of the command line, by `clap`.
#![tactic(auto)]

mod command;
mod fault;
mod number;
mod options;

pub use command::read_words;
pub use fault::WordsFault;
pub use options::{Options, Settings};
