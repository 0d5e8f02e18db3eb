//! The text of a trace.

ghost use Rattle.std.specs.Prelude.{◌≡◌, ◌++◌, ◌-◌, slice_index, OnOk, IfOk};
ghost use Rattle.std.specs.List.{flat_map};
ghost use Rattle.hs_trace.specs.TraceText as shown;

use crate::number::push_number;
use hs_reduce::{ReductionStep, Trace};
use hs_scheme::{FailingPath, Names, OutOfMemory};
use hs_text::name_of;
use std::alloc::Global;

/// The most steps of a trace that have their lines.
pub const MOST_STEPS: usize = 9_999;

/// The line of a rule, 0 of one that there isn't.
fn line_of(lines: &[u32], rule: u32) -> u32
    ensures { result ≡ slice_index lines.now rule }
{
    match lines.get(rule as usize) {
        Some(line) => *line,
        None => 0,
    }
}

/// Puts the line of a replacement at the end.
fn push_call(names: &Names, lines: &[u32], rule: u32, text: &mut Vec<u8>) -> Result<(), OutOfMemory>
    ensures { OnOk result (text.new.items ≡ text.old.items ++ shown.call_line names.now lines.now rule) }
{
    text.extend_from_slice(b"call ")?;
    text.extend_from_slice(name_of(names.rules.as_slice(), rule as usize))?;
    text.extend_from_slice(b" (line ")?;
    push_number(u64::from(line_of(lines, rule)), text)?;
    text.extend_from_slice(b")\n")?;
    Ok(())
}

/// Puts a terminal with the number of a child at the end.
fn push_child(
    names: &Names,
    terminal: u32,
    child: u32,
    text: &mut Vec<u8>,
) -> Result<(), OutOfMemory>
    ensures { OnOk result (text.new.items ≡ text.old.items ++ shown.child_text names.now terminal child) }
{
    text.extend_from_slice(name_of(names.terminals.as_slice(), terminal as usize))?;
    text.extend_from_slice(b"/")?;
    push_number(u64::from(child), text)
}

/// Puts a blank, a state, an arrow and the next state at the end of a line.
fn push_states(names: &Names, from: u32, to: u32, text: &mut Vec<u8>) -> Result<(), OutOfMemory>
    ensures { OnOk result (text.new.items ≡ text.old.items ++ shown.between_states names.now from to) }
{
    text.extend_from_slice(b" ")?;
    text.extend_from_slice(name_of(names.states.as_slice(), from as usize))?;
    text.extend_from_slice(b" -> ")?;
    text.extend_from_slice(name_of(names.states.as_slice(), to as usize))?;
    text.extend_from_slice(b"\n")?;
    Ok(())
}

/// Puts the line of a step at the end.
fn push_step(
    names: &Names,
    lines: &[u32],
    step: ReductionStep,
    text: &mut Vec<u8>,
) -> Result<(), OutOfMemory>
    ensures { OnOk result (text.new.items ≡ text.old.items ++ shown.reduction_line names.now lines.now step) }
{
    match step {
        ReductionStep::Call { rule } => push_call(names, lines, rule, text),
        ReductionStep::Descent {
            terminal,
            child,
            from,
            to,
        } => {
            push_child(names, terminal, child, text)?;
            push_states(names, from, to, text)
        }
    }
}

/// Puts the lines of some steps at the end.
fn push_steps(
    names: &Names,
    lines: &[u32],
    steps: &[ReductionStep],
    text: &mut Vec<u8>,
) -> Result<(), OutOfMemory>
    ensures { OnOk result (text.new.items
        ≡ text.old.items ++ flat_map (shown.reduction_line names.now lines.now) steps.now) }
{
    for step in steps {
        push_step(names, lines, *step, text)?;
    }
    Ok(())
}

/// Puts how many more steps there are at the end, where there are.
fn push_rest(more: u64, text: &mut Vec<u8>) -> Result<(), OutOfMemory>
    ensures { OnOk result (text.new.items ≡ text.old.items ++ shown.rest_line more) }
{
    if more == 0 {
        return Ok(());
    }
    push_number(more, text)?;
    text.extend_from_slice(b" more steps\n")?;
    Ok(())
}

/// Puts the line of the last terminal at the end.
fn push_end(names: &Names, path: &FailingPath, text: &mut Vec<u8>) -> Result<(), OutOfMemory>
    ensures { OnOk result (text.new.items ≡ text.old.items ++ shown.stuck_line names.now path.now) }
{
    text.extend_from_slice(name_of(names.terminals.as_slice(), path.last as usize))?;
    text.extend_from_slice(b" ")?;
    text.extend_from_slice(name_of(names.states.as_slice(), path.state as usize))?;
    text.extend_from_slice(b": no transition\n")?;
    Ok(())
}

/// The text of a trace: a line for each of its steps, how many more there are, and a line for the
/// terminal without transition. The rules begin on these lines of a file, by their numbers.
///
/// Time and memory are in proportion to the text.
pub fn trace_text(
    alloc: Global,
    names: &Names,
    lines: &[u32],
    trace: &Trace,
) -> Result<Vec<u8>, OutOfMemory>
    ensures { IfOk result (λ text.
        text.items ≡ shown.trace_lines names.now lines.now trace.now.steps.items trace.now.path) }
{
    let mut text = Vec::new(alloc);
    let steps = trace.steps.as_slice();
    push_steps(names, lines, steps, &mut text)?;
    push_rest(
        trace.path.used.saturating_sub(steps.len() as u64),
        &mut text,
    )?;
    push_end(names, &trace.path, &mut text)?;
    Ok(text)
}
