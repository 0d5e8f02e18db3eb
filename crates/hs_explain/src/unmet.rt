//! What an accepted file says that was never met.
//!
//! Nothing is proved of the text. Where a point may be read is taken from above, so that less may be
//! named than was never met.

ghost use Rattle.std.specs.Prelude.{◌≤◌, length};

use crate::lines::Lines;
use crate::met::Met;
use hs_diagnostics::push_placed;
use hs_front::problem_of_file;
use hs_reader::MAX_BYTES;
use hs_reads::Reads;
use hs_scheme::{Automaton, Names, OutOfMemory, Problem};
use hs_text::name_of;
use hs_trace::push_number;
use std::alloc::Global;

/// The most lines of one kind.
const MOST_LINES: u64 = 100;

/// The lines of one kind, at the end of a text.
#[derive(Drop)]
struct Kind {
    /// What these are.
    what: &'static [u8],
    /// What is said of each.
    says: &'static [u8],
    /// How many there are.
    count: u64,
}

impl Kind {
    /// No lines yet.
    fn new(what: &'static [u8], says: &'static [u8]) -> Kind {
        Kind {
            what,
            says,
            count: 0,
        }
    }

    /// Puts the line of one more at the end, where there aren't too many: its name, or its two names,
    /// and where it stands.
    fn push(
        &mut self,
        first: &[u8],
        second: &[u8],
        line: u32,
        text: &mut Vec<u8>,
    ) -> Result<(), OutOfMemory> {
        self.count = self.count.saturating_add(1);
        if self.count > MOST_LINES {
            return Ok(());
        }
        push_placed(self.what, first, second, line, text)?;
        text.extend_from_slice(b": ")?;
        text.extend_from_slice(self.says)?;
        text.extend_from_slice(b"\n")?;
        Ok(())
    }

    /// Puts a line at the end that says how many more there are, where there are.
    fn close(&self, text: &mut Vec<u8>) -> Result<(), OutOfMemory> {
        let more = self.count.saturating_sub(MOST_LINES);
        if more == 0 {
            return Ok(());
        }
        text.extend_from_slice(self.what)?;
        text.extend_from_slice(b" and ")?;
        push_number(more, text)?;
        text.extend_from_slice(b" more: ")?;
        text.extend_from_slice(self.says)?;
        text.extend_from_slice(b"\n")?;
        Ok(())
    }
}

/// The line with this number, 0 where there is none.
fn line_at(lines: &[u32], number: usize) -> u32 {
    match lines.get(number) {
        Some(line) => *line,
        None => 0,
    }
}

/// Puts the rules at the end whose bodies are never read.
fn push_rules(
    names: &Names,
    met: &Met,
    lines: &Lines,
    text: &mut Vec<u8>,
) -> Result<(), OutOfMemory> {
    let mut kind = Kind::new(b"rule", b"never called");
    for (rule, is_met) in met.rules.iter().enumerate() {
        if !*is_met {
            let name = name_of(names.rules.as_slice(), rule);
            kind.push(name, b"", line_at(lines.rules.as_slice(), rule), text)?;
        }
    }
    kind.close(text)
}

/// Puts the transitions at the end with which nothing is read.
fn push_transitions(
    names: &Names,
    automaton: &Automaton,
    met: &Met,
    lines: &Lines,
    text: &mut Vec<u8>,
) -> Result<(), OutOfMemory> {
    let mut kind = Kind::new(b"transition", b"never met");
    for (place, transition) in automaton.transitions().iter().enumerate() {
        if !met
            .terminals
            .contains(&(transition.from, transition.terminal))
        {
            let state = name_of(names.states.as_slice(), transition.from as usize);
            let terminal = name_of(names.terminals.as_slice(), transition.terminal as usize);
            kind.push(
                state,
                terminal,
                line_at(lines.transitions.as_slice(), place),
                text,
            )?;
        }
    }
    kind.close(text)
}

/// Puts the terminals at the end that stand in a rule and have no transition.
fn push_terminals(
    names: &Names,
    automaton: &Automaton,
    met: &Met,
    lines: &Lines,
    text: &mut Vec<u8>,
) -> Result<(), OutOfMemory> {
    let mut kind = Kind::new(b"terminal", b"no transition in any state");
    for (terminal, home) in met.homes.iter().enumerate() {
        let Some(rule) = *home else {
            continue;
        };
        let Ok(number) = u32::try_from(terminal) else {
            continue;
        };
        if automaton.with_terminal(number).is_empty() {
            let name = name_of(names.terminals.as_slice(), terminal);
            let line = line_at(lines.rules.as_slice(), rule as usize);
            kind.push(name, b"", line, text)?;
        }
    }
    kind.close(text)
}

/// The place of a transition that names this state, the first one.
fn place_of_state(automaton: &Automaton, state: usize) -> usize {
    let Ok(state) = u32::try_from(state) else {
        return 0;
    };
    for (place, transition) in automaton.transitions().iter().enumerate() {
        if transition.from == state || transition.to.contains(&state) {
            return place;
        }
    }
    0
}

/// Puts the states at the end in which nothing is read.
fn push_states(
    names: &Names,
    automaton: &Automaton,
    met: &Met,
    lines: &Lines,
    text: &mut Vec<u8>,
) -> Result<(), OutOfMemory> {
    let mut kind = Kind::new(b"state", b"never reached");
    for (state, is_met) in met.states.iter().enumerate() {
        if !*is_met {
            let name = name_of(names.states.as_slice(), state);
            let line = if kind.count < MOST_LINES {
                let place = place_of_state(automaton, state);
                line_at(lines.transitions.as_slice(), place)
            } else {
                0
            };
            kind.push(name, b"", line, text)?;
        }
    }
    kind.close(text)
}

/// The text on what isn't met.
fn text_of(
    alloc: Global,
    problem: &Problem,
    met: &Met,
    lines: &Lines,
) -> Result<Vec<u8>, OutOfMemory> {
    let sorted = &problem.sorted;
    let (names, automaton) = (&sorted.names, &sorted.automaton);
    let mut text = Vec::new(alloc);
    push_rules(names, met, lines, &mut text)?;
    push_transitions(names, automaton, met, lines, &mut text)?;
    push_terminals(names, automaton, met, lines, &mut text)?;
    push_states(names, automaton, met, lines, &mut text)?;
    Ok(text)
}

/// The text on what isn't met of a problem.
fn unmet(alloc: Global, problem: &Problem, lines: &Lines) -> Option<Vec<u8>> {
    match Reads::of(alloc, problem) {
        Ok(reads) => {
            let met = Met::of(alloc, problem, &reads);
            drop(reads);
            text_of(alloc, problem, &met?, lines).ok()
        }
        Err(_) => None,
    }
}

/// What the file that the bytes are says and was never met, a line each with its line in the file: rules
/// that are never called, transitions with which nothing is read, terminals in rules that have no
/// transition in any state, and states that are never reached. Of each kind there are at most 100, and
/// then how many more. What is named was never met; not all of that need be named.
///
/// None comes where memory doesn't suffice, or the bytes are no file with sorts and within the limits.
/// Takes time and memory in proportion to the file, the flow and the pairs of a point and a state.
pub fn unmet_text(alloc: Global, bytes: &[u8]) -> Option<Vec<u8>>
    requires { length bytes.now ≤ MAX_BYTES }
{
    let lines = Lines::of(alloc, bytes)?;
    match problem_of_file(alloc, bytes) {
        Ok(problem) => {
            let text = unmet(alloc, &problem, &lines);
            drop(problem);
            text
        }
        Err(_) => None,
    }
}
