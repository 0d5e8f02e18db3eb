//! Why a run ends without a verdict.

ghost use Rattle.std.specs.Prelude.{◌≡◌, IfOk, IsOk};
ghost use Rattle.hs_front.specs.Line.{bytes_of, on_line};
ghost use Rattle.hs_front.specs.Refusal.{refusal_of_read, refusal_of_names};
ghost use Rattle.hs_front.specs.Refusal as defined;

use crate::lines::{Line, OUT_OF_MEMORY, line_with_name, line_with_number};
use hs_reader::{ReadFault, Which};
use hs_resolve::NameFault;
use hs_scheme::{Name, OutOfMemory};
use std::alloc::Global;

/// Why a run ends without a verdict. Lines are counted from 1.
#[derive(Drop)]
pub enum Refusal {
    /// The words have another form.
    Usage,
    /// The source failed.
    Source,
    /// The file has more bytes than the limit.
    FileTooLong,
    /// The text isn't of the grammar.
    Syntax { line: u32 },
    /// The text passes a limit.
    Limit { which: Which },
    /// A name is wrong.
    Names { fault: NameFault },
    /// The rule, counted from 0, has no sort beside those before it.
    IllSorted { rule: u32 },
    /// The terminal of this name takes functions.
    NotFirstOrder { terminal: Name },
    /// The sort of the rule, counted from 0, is too large.
    SortTooLarge { rule: u32 },
    /// The rule, counted from 0, has too many parameters or arguments once it is lengthened.
    RuleTooLong { rule: u32 },
    /// The scheme has more points than the limit.
    PointLimit,
    /// The flow has more pairs than the limit.
    FlowLimit,
    /// The least table has more entries than are allowed.
    EntryLimit,
    /// The sink failed.
    Sink,
    /// Memory was refused.
    OutOfMemory,
}

impl From<ReadFault> for Refusal {
    ghost from_gives = { λ fault r. r ≡ refusal_of_read fault };

    fn from(fault: ReadFault) -> Refusal {
        match fault {
            ReadFault::Syntax { line } => Refusal::Syntax { line },
            ReadFault::Limit { which } => Refusal::Limit { which },
            ReadFault::OutOfMemory => Refusal::OutOfMemory,
        }
    }
}

impl From<NameFault> for Refusal {
    ghost from_gives = { λ fault r. r ≡ refusal_of_names fault };

    fn from(fault: NameFault) -> Refusal {
        match fault {
            NameFault::OutOfMemory => Refusal::OutOfMemory,
            fault => Refusal::Names { fault },
        }
    }
}

impl From<OutOfMemory> for Refusal {
    ghost use Rattle.std.specs.Prelude.{◌≡◌};
    ghost use Rattle.hs_front.specs.declared.refusal.Refusal.TheVariants as outcome;

    ghost from_gives = { λ _ r. r ≡ outcome.OutOfMemory };

    fn from(_refused: OutOfMemory) -> Refusal {
        Refusal::OutOfMemory
    }
}

/// The exit status.
pub fn status(refusal: &Refusal) -> u8
    ensures { result ≡ defined.status_of refusal.now }
{
    match refusal {
        Refusal::Usage => 4,
        Refusal::Syntax { line: _ } => 5,
        Refusal::Names {
            fault: NameFault::TooManyStates,
        } => 7,
        Refusal::Names {
            fault: NameFault::OutOfMemory,
        } => 10,
        Refusal::Names { fault: _ } => 6,
        Refusal::IllSorted { rule: _ } => 6,
        Refusal::NotFirstOrder { terminal: _ } => 6,
        Refusal::SortTooLarge { rule: _ } => 7,
        Refusal::RuleTooLong { rule: _ } => 7,
        Refusal::FileTooLong => 7,
        Refusal::Limit { which: _ } => 7,
        Refusal::Source => 8,
        Refusal::Sink => 9,
        Refusal::OutOfMemory => 10,
        Refusal::PointLimit => 7,
        Refusal::FlowLimit => 7,
        Refusal::EntryLimit => 3,
    }
}

/// The line for a limit of the text.
fn limit_line(which: Which) -> &'static [u8]
    ensures { result.now ≡ defined.limit_line which }
{
    match which {
        Which::Name => b"limit: name\n",
        Which::Rules => b"limit: rules\n",
        Which::Parameters => b"limit: parameters\n",
        Which::Depth => b"limit: depth\n",
        Which::Arguments => b"limit: arguments\n",
        Which::Transitions => b"limit: transitions\n",
        Which::Children => b"limit: children\n",
    }
}

/// The line for a fault on a line of the file.
fn on_line(alloc: Global, line: u32, fault: &[u8]) -> Result<Line, OutOfMemory>
    ensures { IfOk result (λ made. bytes_of made ≡ on_line line fault.now) }
{
    line_with_number(alloc, b"line ", u64::from(line), fault)
}

/// The line for a fault in the names.
fn names_line(alloc: Global, fault: &NameFault) -> Result<Line, OutOfMemory>
    ensures { IfOk result (λ line. bytes_of line ≡ defined.names_line fault.now) }
{
    match fault {
        NameFault::DuplicateRule { line } => on_line(alloc, *line, b": rule twice"),
        NameFault::DuplicateParam { line } => on_line(alloc, *line, b": parameter twice"),
        NameFault::Undefined { line } => on_line(alloc, *line, b": undefined nonterminal"),
        NameFault::StartHasParams { line } => on_line(alloc, *line, b": start has parameters"),
        NameFault::DuplicateTransition { line } => on_line(alloc, *line, b": transition twice"),
        NameFault::RankClash { line } => on_line(alloc, *line, b": rank clash"),
        NameFault::TooManyStates => Ok(Line::Fixed(b"limit: states\n")),
        NameFault::OutOfMemory => Ok(Line::Fixed(OUT_OF_MEMORY.as_bytes())),
    }
}

/// The line on standard error. Rules are printed from 1; `usage` is the program's line where the words
/// are refused.
///
/// A line without a number or a name in it takes no memory, so that it can be told where memory is
/// refused. Of any other, time and memory are in proportion to the line.
pub fn line(alloc: Global, usage: &'static str, refusal: &Refusal) -> Result<Line, OutOfMemory>
    ensures text { IfOk result (λ line. bytes_of line ≡ defined.line_of usage.now refusal.now) }
    ensures fixed { defined.HasFixedLine refusal.now → IsOk result }
{
    match refusal {
        Refusal::Usage => Ok(Line::Fixed(usage.as_bytes())),
        Refusal::Source => Ok(Line::Fixed(b"read fault\n")),
        Refusal::FileTooLong => Ok(Line::Fixed(b"limit: file\n")),
        Refusal::Syntax { line } => on_line(alloc, *line, b": syntax"),
        Refusal::Limit { which } => Ok(Line::Fixed(limit_line(*which))),
        Refusal::Names { fault } => names_line(alloc, fault),
        Refusal::IllSorted { rule } => {
            line_with_number(alloc, b"rule ", u64::from(*rule) + 1, b": ill-sorted")
        }
        Refusal::NotFirstOrder { terminal } => {
            line_with_name(alloc, b"terminal ", terminal.bytes(), b": not first order")
        }
        Refusal::SortTooLarge { rule } => {
            line_with_number(alloc, b"limit: sort of rule ", u64::from(*rule) + 1, b"")
        }
        Refusal::RuleTooLong { rule } => {
            line_with_number(alloc, b"limit: length of rule ", u64::from(*rule) + 1, b"")
        }
        Refusal::PointLimit => Ok(Line::Fixed(b"limit: points\n")),
        Refusal::FlowLimit => Ok(Line::Fixed(b"limit: flow\n")),
        Refusal::EntryLimit => Ok(Line::Fixed(b"limit: entries\n")),
        Refusal::Sink => Ok(Line::Fixed(b"write fault\n")),
        Refusal::OutOfMemory => Ok(Line::Fixed(OUT_OF_MEMORY.as_bytes())),
    }
}
