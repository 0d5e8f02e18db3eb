//! What is told of the scheme of a file with its sorts, as text.

use crate::flowing::push_flow;
use crate::reducing::{push_first_error, push_replayed};
use crate::seeing::see;
use crate::sorting::{push_parameters, push_sizes};
use hs_fixtures::sorted_of;
use hs_scheme::Sorted;
use std::alloc::Global;
use std::mem::forget;
use std::process::Abort;
use std::test::Fail;

/// What is asked of a scheme.
#[derive(Clone, Copy)]
pub(crate) enum Asked {
    /// The rules, ranks and sorts, as they are printed.
    Whole,
    /// The sizes of the sorts.
    Sizes,
    /// The names of the parameters.
    Parameters,
    /// The flow of at most so many pairs, or its fault.
    Flow(u32),
    /// What reduction meets along these children, within so many steps.
    Along(&'static [u32], u64),
    /// The first error of the cut after so many steps.
    Within(u32),
}

/// Adds the answer.
fn push_answer(out: &mut String, alloc: Global, sorted: &Sorted, asked: Asked) -> Result<(), Fail> {
    match asked {
        Asked::Whole => Ok(write!(out, "{:?} {:?}", sorted.scheme, sorted.sorts)?),
        Asked::Sizes => Ok(push_sizes(out, sorted)?),
        Asked::Parameters => Ok(push_parameters(out, sorted)?),
        Asked::Flow(max) => push_flow(out, alloc, &sorted.scheme, max),
        Asked::Along(path, steps) => push_replayed(out, alloc, sorted, path, steps),
        Asked::Within(n) => push_first_error(out, alloc, sorted, n),
    }
}

/// The answer for a file with these rules and transitions.
pub(crate) fn told(
    alloc: Global,
    rules: &str,
    transitions: &str,
    asked: Asked,
) -> Result<String, Fail> {
    let sorted = sorted_of(alloc, rules, transitions)?;
    let mut out = String::new(alloc);
    let pushed = push_answer(&mut out, alloc, &sorted, asked);
    forget(sorted);
    pushed?;
    Ok(out)
}

/// Looks at it.
pub(crate) fn see_told(
    rt: &impl Abort,
    alloc: Global,
    rules: &str,
    transitions: &str,
    asked: Asked,
    expected: &str,
) -> Result<(), Fail> {
    let text = told(alloc, rules, transitions, asked)?;
    see(rt, text.as_str(), expected, rules);
    forget(text);
    Ok(())
}
