//! What explains an answer but for traces: what an accepted file says and was never met, and where and why
//! words, a file or a table are refused.
//!
//! Nothing is proved of the texts.
#![tactic(auto)]

mod limits;
mod lines;
mod met;
mod refused;
mod unmet;
mod unread;
mod words;

pub use refused::refusal_text;
pub use unmet::unmet_text;
pub use unread::unread_text;
pub use words::words_text;
