//! Why a table isn't verified.

ghost use Rattle.std.specs.Prelude.{◌≡◌, ◌++◌, IfOk, IsOk, codes};
ghost use Rattle.hs_front.specs.Line.{bytes_of};
ghost use Rattle.hs_check.specs.Fault as defined;

use hs_front::{
    Line, Refusal, line as line_of_refusal, line_with_number, status as status_of_refusal,
};
use hs_scheme::OutOfMemory;
use std::alloc::Global;

/// The line where the words are refused.
pub(crate) const USAGE: &str = "usage: horsat_check FILE TABLE\n";

/// Why a table isn't verified. Lines are counted from 1.
#[derive(Drop)]
pub(crate) enum Fault {
    /// It isn't looked at: by the words, a source, the scheme, the sink or want of memory.
    Front { refusal: Refusal },
    /// It has more bytes than the limit.
    TableTooLong,
    /// This line breaks a rule, or is missing, and none before it.
    TableLine { line: u32 },
    /// An entry follows from it and isn't in it; this is the entry's line, with the LF at its end.
    Missing { entry: Vec<u8> },
    /// It has the start entry.
    HasStart,
    /// One of its void environments isn't void; this is the line, with the LF at its end.
    NotVoid { pair: Vec<u8> },
    /// It has so many instances, and says another number.
    Instances { count: u64 },
}

/// Want of memory.
pub(crate) fn no_memory() -> Fault
    ensures { result ≡ defined.no_memory }
{
    Fault::Front {
        refusal: Refusal::OutOfMemory,
    }
}

/// The fault of a table whose file isn't read whole.
pub(crate) fn table_fault(refusal: Refusal) -> Fault
    ensures { result ≡ defined.table_fault refusal }
{
    match refusal {
        Refusal::FileTooLong => Fault::TableTooLong,
        refusal => Fault::Front { refusal },
    }
}

/// The exit status.
pub(crate) fn status(fault: &Fault) -> u8
    ensures { result ≡ defined.status_of fault.now }
{
    match fault {
        Fault::Front { refusal } => status_of_refusal(refusal),
        Fault::TableTooLong => 7,
        Fault::TableLine { line: _ } => 12,
        Fault::Missing { entry: _ } => 1,
        Fault::HasStart => 1,
        Fault::NotVoid { pair: _ } => 1,
        Fault::Instances { count: _ } => 1,
    }
}

/// This text, and behind it an LF.
pub(crate) fn ended(alloc: Global, text: &[u8]) -> Result<Vec<u8>, OutOfMemory>
    ensures { IfOk result (λ line. line.items ≡ text.now ++ codes "\n") }
{
    let mut line = Vec::with_capacity(alloc, text.len() + 1)?;
    line.extend_from_slice(text)?;
    line.push(b'\n')?;
    Ok(line)
}

/// These words, and behind them a line.
pub(crate) fn line_behind(alloc: Global, words: &[u8], line: &[u8]) -> Result<Line, OutOfMemory>
    ensures { IfOk result (λ made. bytes_of made ≡ words.now ++ line.now) }
{
    let mut text = Vec::new(alloc);
    text.extend_from_slice(words)?;
    text.extend_from_slice(line)?;
    Ok(Line::Made(text))
}

/// The line on standard error. One without a number or a name in it takes no memory.
pub(crate) fn line(alloc: Global, fault: &Fault) -> Result<Line, OutOfMemory>
    ensures text { IfOk result (λ line. bytes_of line ≡ defined.line_of fault.now) }
    ensures fixed { defined.HasFixedLine fault.now → IsOk result }
{
    match fault {
        Fault::Front { refusal } => line_of_refusal(alloc, USAGE, refusal),
        Fault::TableTooLong => Ok(Line::Fixed(b"limit: table\n")),
        Fault::TableLine { line } => {
            line_with_number(alloc, b"table line ", u64::from(*line), b"")
        }
        Fault::Missing { entry } => line_behind(alloc, b"missing: ", entry.as_slice()),
        Fault::HasStart => Ok(Line::Fixed(b"has start\n")),
        Fault::NotVoid { pair } => line_behind(alloc, b"not void: ", pair.as_slice()),
        Fault::Instances { count } => line_with_number(alloc, b"instances ", *count, b""),
    }
}
