//! The lines of a file.

ghost use Rattle.std.specs.Prelude.{◌≤◌, length};

use hs_reader::{MAX_BYTES, RawFile, RawTransition, read_file};
use hs_scheme::OutOfMemory;
use hs_trace::lines_of_rules;
use std::alloc::Global;

/// The lines at which the rules and the transitions of a file stand, by their numbers, counted from 1.
#[derive(Drop)]
pub(crate) struct Lines {
    pub(crate) rules: Vec<u32>,
    pub(crate) transitions: Vec<u32>,
}

/// The lines of these transitions.
fn lines_of_transitions(
    alloc: Global,
    transitions: &[RawTransition],
) -> Result<Vec<u32>, OutOfMemory> {
    let mut lines = Vec::new(alloc);
    for transition in transitions {
        lines.push(transition.from.line)?;
    }
    Ok(lines)
}

/// The lines of a file that was read.
fn lines_of_file(alloc: Global, raw: &RawFile) -> Result<Lines, OutOfMemory> {
    let rules = lines_of_rules(alloc, raw.rules.as_slice())?;
    Ok(Lines {
        transitions: lines_of_transitions(alloc, raw.transitions.as_slice())?,
        rules,
    })
}

impl Lines {
    /// Those of a file, where the bytes are one and memory suffices. Takes time in proportion to it.
    pub(crate) fn of(alloc: Global, bytes: &[u8]) -> Option<Lines>
        requires { length bytes.now ≤ MAX_BYTES }
    {
        match read_file(alloc, bytes) {
            Ok(raw) => lines_of_file(alloc, &raw).ok(),
            Err(_) => None,
        }
    }
}
