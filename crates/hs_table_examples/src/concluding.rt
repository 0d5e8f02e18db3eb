//! The indexed programs and one worker beside the plain program, on worked schemes and on a hundred made
//! ones.

use crate::comparing::entries_of;
use crate::saturating::entries_alone;
use crate::seeing::see;
use crate::worked::WORKED;
use hs_fixtures::problem_of;
use std::alloc::Global;
use std::mem::forget;
use std::process::Abort;
use std::test::Fail;

/// The number of entries of the least table of this file, where the programs agree on it: the indexed
/// ones at each length of the log, or where `few` is set at some, and one worker.
fn entries_of_file(
    alloc: Global,
    rules: &str,
    transitions: &str,
    few: bool,
) -> Result<(Option<usize>, Option<u32>), Fail> {
    let problem = problem_of(alloc, rules, transitions)?;
    let entries = entries_of(alloc, &problem, few);
    let alone = entries_alone(alloc, &problem);
    forget(problem);
    Ok((entries?, alone?))
}

#[test]
fn worked_tables_agree_entry_by_entry(rt: HostRuntime) -> Result<(), Fail> {
    for (rules, transitions, expected) in WORKED {
        let entries = entries_of_file(rt.alloc(), rules, transitions, false)?;
        let expected = (Some(*expected as usize), Some(*expected));
        see(&rt, entries, expected, rules);
    }
    Ok(())
}

const STARTS: &[&str] = &[
    "F a c",
    "F (F a) (a c)",
    "br (F a c) (F b c)",
    "F (G a) c",
    "G (F b) (G a c)",
];

const BODIES: &[&str] = &[
    "f x",
    "f (f x)",
    "br x (f x)",
    "br (f x) (F f (a x))",
    "f (G f x)",
];

const AUTOMATA: &[&str] = &[
    "q0 a -> q0. q0 c -> . q0 br -> q0 q0.",
    "q0 a -> q1. q1 a -> q0. q1 b -> q1. q0 c -> . q0 br -> q0 q1.",
    "q0 br -> q1 q0. q1 a -> q0. q1 c -> .",
    "q0 a -> q1. q0 b -> q1. q1 c -> . q1 br -> q0 q0.",
];

/// Whether the programs agree on the least table of a scheme of three rules.
fn agree_on(alloc: Global, start: &str, body: &str, transitions: &str) -> Result<bool, Fail> {
    let rules = format!(in alloc; "S -> {start}. F f x -> {body}. G f x -> f (f x).")?;
    let entries = entries_of_file(alloc, rules.as_str(), transitions, true);
    forget(rules);
    let (entries, alone) = entries?;
    Ok(entries.is_some() && alone.is_some())
}

/// Looks at the schemes with this start and body.
fn see_schemes(rt: &impl Abort, alloc: Global, start: &str, body: &str) -> Result<(), Fail> {
    for transitions in AUTOMATA {
        let agree = agree_on(alloc, start, body, transitions)?;
        see(rt, (start, body, agree), (start, body, true), transitions);
    }
    Ok(())
}

#[test]
fn a_hundred_schemes_agree(rt: HostRuntime) -> Result<(), Fail> {
    for start in STARTS {
        for body in BODIES {
            see_schemes(&rt, rt.alloc(), start, body)?;
        }
    }
    Ok(())
}
