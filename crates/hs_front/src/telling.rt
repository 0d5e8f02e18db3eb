//! How a refusal is told.

ghost use Rattle.std.specs.Prelude.{◌≤◌};
ghost use Rattle.hs_front.specs.Outside.{sink_run, HasTakenOrFailed};
ghost use Rattle.hs_front.specs.Telling.{TellsRefusal};

use crate::lines::OUT_OF_MEMORY;
use crate::refusal::{Refusal, line};
use hs_edge::{Sink, write_all};
use std::alloc::Global;

/// Writes a line to standard error. A fault there changes nothing else.
pub fn tell<E: Sink>(err: &mut E, text: &[u8])
    ensures gains { HasTakenOrFailed (sink_run E.writing E.faults err.old err.new) text.now }
    ensures never_falls { E.faults err.old ≤ E.faults err.new }
{
    let _ = write_all(err, text);
}

/// Writes the line of a refusal, and answers the refusal that was told: want of memory, where it is
/// refused while the line is formed. `usage` is the program's line where the words are refused.
pub fn refuse<E: Sink>(alloc: Global, err: &mut E, usage: &'static str, refusal: Refusal) -> Refusal
    ensures tells { TellsRefusal usage.now refusal (sink_run E.writing E.faults err.old err.new) result }
    ensures never_falls { E.faults err.old ≤ E.faults err.new }
{
    match line(alloc, usage, &refusal) {
        Ok(line) => {
            tell(err, line.bytes());
            refusal
        }
        Err(_) => {
            tell(err, OUT_OF_MEMORY.as_bytes());
            Refusal::OutOfMemory
        }
    }
}
