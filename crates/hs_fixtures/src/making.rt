//! Schemes and problems of texts.

ghost use Rattle.std.specs.Prelude.{◌≡◌};
ghost use Rattle.hs_scheme.specs.acceptance.Automaton.{IsAutomaton};

use hs_flow::analyse;
use hs_gen::{MAX_CYCLE, cycle_file};
use hs_reader::{MAX_BYTES, read_file};
use hs_resolve::resolve;
use hs_scheme::{Points, Problem, Sorted, Unsorted};
use hs_sorts::infer;
use std::alloc::Global;
use std::mem::forget;
use std::test::Fail;

/// The most pairs of the flow of a problem that is made here.
const MOST_PAIRS: u32 = 10_000;

/// What holds of the automaton of each problem. Does nothing.
pub fn know(problem: &Problem)
    ensures { IsAutomaton problem.now.sorted.automaton }
{
    problem.sorted.automaton.know_automaton();
}

/// The text of a file with these rules and transitions.
fn text_of(alloc: Global, rules: &str, transitions: &str) -> Result<String, Fail> {
    Ok(format!(in alloc; "%BEGING\n{rules}\n%ENDG\n%BEGINA\n{transitions}\n%ENDA\n")?)
}

/// The scheme of a whole file, before its sorts are known.
pub fn unsorted_of_text(alloc: Global, text: &[u8]) -> Result<Unsorted, Fail> {
    if text.len() > MAX_BYTES {
        return Err("a longer text")?;
    }
    let raw = read_file(alloc, text)?;
    let unsorted = resolve(alloc, &raw);
    forget(raw);
    Ok(unsorted?)
}

/// The same scheme with its sorts.
fn sorted_of_text(alloc: Global, text: &[u8]) -> Result<Sorted, Fail> {
    let unsorted = unsorted_of_text(alloc, text)?;
    Ok(infer(alloc, unsorted)?)
}

/// The scheme of a file with these rules and transitions, before its sorts are known.
pub fn unsorted_of(alloc: Global, rules: &str, transitions: &str) -> Result<Unsorted, Fail> {
    let text = text_of(alloc, rules, transitions)?;
    let unsorted = unsorted_of_text(alloc, text.as_bytes());
    forget(text);
    unsorted
}

/// The scheme of such a file with its sorts.
pub fn sorted_of(alloc: Global, rules: &str, transitions: &str) -> Result<Sorted, Fail> {
    let text = text_of(alloc, rules, transitions)?;
    let sorted = sorted_of_text(alloc, text.as_bytes());
    forget(text);
    sorted
}

/// The problem of a scheme that has at most 10,000 pairs in its flow.
fn of_sorted(alloc: Global, sorted: Sorted) -> Result<Problem, Fail> {
    let points = match Points::of(alloc, &sorted.scheme) {
        Ok(points) => points,
        Err(fault) => {
            forget(sorted);
            return Err(fault)?;
        }
    };
    match analyse(alloc, &sorted.scheme, &points, MOST_PAIRS) {
        Ok(flow) => Ok(Problem::new(sorted, points, flow)),
        Err(fault) => {
            forget(points);
            forget(sorted);
            Err(fault)?
        }
    }
}

/// The problem of a file with these rules and transitions, which has at most 10,000 pairs in its flow.
pub fn problem_of(alloc: Global, rules: &str, transitions: &str) -> Result<Problem, Fail> {
    of_sorted(alloc, sorted_of(alloc, rules, transitions)?)
}

/// The problem of a whole file, which has at most 10,000 pairs in its flow.
pub fn problem_of_text(alloc: Global, text: &[u8]) -> Result<Problem, Fail> {
    of_sorted(alloc, sorted_of_text(alloc, text)?)
}

/// The problem of the generated file of this number, from 1 to `MAX_CYCLE`.
pub fn cycle(alloc: Global, k: u32) -> Result<Problem, Fail> {
    if k < 1 || k > MAX_CYCLE {
        return Err("another number")?;
    }
    let text = cycle_file(alloc, k)?;
    let problem = problem_of_text(alloc, text.as_slice());
    forget(text);
    problem
}
