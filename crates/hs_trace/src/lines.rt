//! The lines of a file's rules.

ghost use Rattle.std.specs.Prelude.{◌≡◌, ◌≤◌, length, IfOk, IfSome};
ghost use Rattle.hs_trace.specs.Explained.{lines_of, AreRuleLines};

use hs_reader::{MAX_BYTES, RawRule, read_file};
use hs_scheme::OutOfMemory;
use std::alloc::Global;

/// The lines at which these rules stand, in their order, counted from 1. Takes time and memory in
/// proportion to the rules.
pub fn lines_of_rules(alloc: Global, rules: &[RawRule]) -> Result<Vec<u32>, OutOfMemory>
    ensures { IfOk result (λ lines. lines.items ≡ lines_of rules.now) }
{
    let mut lines = Vec::with_capacity(alloc, rules.len())?;
    for rule in rules {
        lines.push_reserved(rule.name.line);
    }
    Ok(lines)
}

/// The lines at which the rules of a file stand, by their numbers, where the bytes are a file and
/// memory suffices. Takes time in proportion to the file.
pub(crate) fn rule_lines(alloc: Global, bytes: &[u8]) -> Option<Vec<u32>>
    requires { length bytes.now ≤ MAX_BYTES }
    ensures { IfSome result (λ lines. AreRuleLines bytes.now lines.items) }
{
    match read_file(alloc, bytes) {
        Ok(raw) => lines_of_rules(alloc, raw.rules.as_slice()).ok(),
        Err(_) => None,
    }
}
