//! Reads the file of a recursion scheme and its automaton.
#![tactic(auto)]

mod building;
mod cursor;
mod fault;
mod laws;
mod limits;
mod raw;
mod reader;
mod token;

pub use fault::{ReadFault, Which};
pub use laws::{one_answer, one_cutting, one_file, one_offending_token, some_file_begins};
pub use limits::MAX_BYTES;
pub use raw::{RawFile, RawName, RawNode, RawRule, RawTerm, RawText, RawTransition};
pub use reader::read_file;
pub use token::is_upper;
