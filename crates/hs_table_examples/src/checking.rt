//! Answers on the least tables of small files, which `.ci/rows` compares with worked ones, and
//! on the same with one entry less, more or changed, and over flows with a pair less.

use crate::entries::{Row, entry_of};
use crate::making::{Left, LeftOut, others, push_changed, table_of, without_pair};
use crate::seeing::see;
use hs_checker::{CheckFault, check};
use hs_fixtures::{
    BRANCHING, BRANCHING_ACCEPTED, BRANCHING_REJECTED, PARTIAL, RESOURCE, RESOURCE_TRANSITIONS,
    TWICE, TWICE_TRANSITIONS, problem_of,
};
use hs_scheme::{FlowPair, HeadPair, OutOfMemory, Problem};
use hs_table::Entry;
use std::alloc::Global;
use std::cmp::Ordering;
use std::mem::forget;
use std::process::Abort;
use std::test::Fail;

/// What the checker is to answer.
#[derive(Clone, Copy)]
enum Expected<'a> {
    /// Nothing is missing, and there are so many instances.
    Instances(u64),
    /// The table has the start entry.
    Start,
    /// The table lacks this entry.
    Missing(&'a Entry),
    /// The flow lacks this pair.
    Pair(FlowPair),
    /// The flow lacks this head pair.
    Head(HeadPair),
}

/// So many instances, or the start entry.
fn expected_of(instances: Option<u64>) -> Expected<'static> {
    match instances {
        Some(count) => Expected::Instances(count),
        None => Expected::Start,
    }
}

/// Whether the table lacks this entry.
fn is_missing(fault: &CheckFault, other: &Entry) -> bool {
    match fault {
        CheckFault::Missing { entry } => entry.compare(other) == Ordering::Equal,
        _ => false,
    }
}

/// Whether the flow lacks this pair.
fn is_pair(fault: &CheckFault, pair: FlowPair) -> bool {
    match fault {
        CheckFault::FlowOpen { rule, param, point } => {
            pair.rule == *rule && pair.param == *param && pair.point == *point
        }
        _ => false,
    }
}

/// The same of a head pair.
fn is_head(fault: &CheckFault, pair: HeadPair) -> bool {
    match fault {
        CheckFault::HeadOpen { point, rule, given } => {
            pair.point == *point && pair.rule == *rule && pair.given == *given
        }
        _ => false,
    }
}

/// Whether the fault is the one that is expected.
fn is_fault(fault: &CheckFault, expected: Expected<'_>) -> bool {
    match expected {
        Expected::Instances(_) => false,
        Expected::Start => matches!(fault, CheckFault::HasStart),
        Expected::Missing(other) => is_missing(fault, other),
        Expected::Pair(pair) => is_pair(fault, pair),
        Expected::Head(pair) => is_head(fault, pair),
    }
}

/// Whether the checker answers so for the table.
fn answers(alloc: Global, problem: &Problem, table: &[Entry], expected: Expected<'_>) -> bool {
    match check(alloc, problem, table) {
        Ok(count) => match expected {
            Expected::Instances(instances) => instances == count,
            _ => false,
        },
        Err(fault) => {
            let is_so = is_fault(&fault, expected);
            drop(fault);
            is_so
        }
    }
}

/// Whether the entry at the place is missing where it is left out, or changed.
fn is_missed(
    alloc: Global,
    problem: &Problem,
    table: &[Entry],
    place: usize,
    entry: &Entry,
    is_changed: bool,
) -> Result<bool, OutOfMemory> {
    let mut rest = others(alloc, table, LeftOut::Place(place))?;
    if is_changed {
        push_changed(alloc, entry, &mut rest)?;
    }
    Ok(answers(alloc, problem, rest.as_slice(), Expected::Missing(entry)))
}

/// Whether each entry is so.
fn each_is_missed(
    alloc: Global,
    problem: &Problem,
    table: &[Entry],
    is_changed: bool,
) -> Result<bool, OutOfMemory> {
    for (place, entry) in table.iter().enumerate() {
        if !is_missed(alloc, problem, table, place, entry, is_changed)? {
            return Ok(false);
        }
    }
    Ok(true)
}

/// Whether the checker answers so for the table over the flow of a file without this pair.
fn answers_over(
    alloc: Global,
    rules: &str,
    transitions: &str,
    table: &[Entry],
    left: Left,
    expected: Expected<'_>,
) -> Result<bool, Fail> {
    let problem = problem_of(alloc, rules, transitions)?;
    let open = without_pair(alloc, problem, left)?;
    let is_so = answers(alloc, &open, table, expected);
    forget(open);
    Ok(is_so)
}

/// Rules and transitions, and the number of instances over their least table, or `None` where it has the
/// start entry.
type Checked = (&'static str, &'static str, Option<u64>);

/// Whether each of these flow pairs of the file, which are all, is demanded where it is left out.
fn are_pairs_demanded(
    alloc: Global,
    row: &Checked,
    table: &[Entry],
    pairs: &[FlowPair],
) -> Result<bool, Fail> {
    for (place, pair) in pairs.iter().enumerate() {
        let expected = Expected::Pair(*pair);
        if !answers_over(alloc, row.0, row.1, table, Left::Pair(place), expected)? {
            return Ok(false);
        }
    }
    Ok(true)
}

/// So for head pairs.
fn are_heads_demanded(
    alloc: Global,
    row: &Checked,
    table: &[Entry],
    pairs: &[HeadPair],
) -> Result<bool, Fail> {
    for (place, pair) in pairs.iter().enumerate() {
        let expected = Expected::Head(*pair);
        if !answers_over(alloc, row.0, row.1, table, Left::Head(place), expected)? {
            return Ok(false);
        }
    }
    Ok(true)
}

/// Whether the answer for the least table is that of the row; each entry is missing where it is left out,
/// and where it is changed; and each flow pair and each head pair is demanded where it is left out.
fn told(
    alloc: Global,
    row: &Checked,
    problem: &Problem,
    table: &[Entry],
) -> Result<[bool; 5], Fail> {
    let is_answer = answers(alloc, problem, table, expected_of(row.2));
    Ok([
        is_answer,
        each_is_missed(alloc, problem, table, false)?,
        each_is_missed(alloc, problem, table, true)?,
        are_pairs_demanded(alloc, row, table, problem.flow.pairs.as_slice())?,
        are_heads_demanded(alloc, row, table, problem.flow.heads.as_slice())?,
    ])
}

/// The same, of the problem.
fn told_of_least(alloc: Global, row: &Checked, problem: &Problem) -> Result<[bool; 5], Fail> {
    let table = table_of(alloc, problem)?;
    let told = told(alloc, row, problem, table.as_slice());
    forget(table);
    told
}

/// The same, of the file.
fn told_of_file(alloc: Global, row: &Checked) -> Result<[bool; 5], Fail> {
    let problem = problem_of(alloc, row.0, row.1)?;
    let told = told_of_least(alloc, row, &problem);
    forget(problem);
    told
}

/// The worked examples.
const CHECKED: &[Checked] = &[
    ("S -> a S.", "q0 a -> q0.", Some(0)),
    ("S -> S.", "q0 a -> .", Some(0)),
    ("S -> G b. G x -> c.", "q0 c -> .", Some(1)),
    (BRANCHING, BRANCHING_ACCEPTED, Some(4)),
    (RESOURCE, RESOURCE_TRANSITIONS, Some(8)),
    ("S -> a b.", "q0 a -> q0.", None),
    (BRANCHING, BRANCHING_REJECTED, None),
    (TWICE, TWICE_TRANSITIONS, None),
    (PARTIAL, "q0 d -> .", None),
    ("S -> F c. F -> a.", "q0 a -> q0.", None),
    ("S -> br a b.", "q0 br -> q0 q0.", None),
];

/// Each entry of a least table follows from the others, so it alone is missing where it is left out. One
/// with a state out of range as its type doesn't count, so the entry in whose place it stands is missing.
/// Each flow pair and each head pair of a least flow is demanded by the others, so it alone is missing
/// where it is left out.
#[test]
fn answers_on_least_tables_and_without_an_entry_or_a_pair(rt: HostRuntime) -> Result<(), Fail> {
    for row in CHECKED {
        see(&rt, told_of_file(rt.alloc(), row)?, [true; 5], row.0);
    }
    Ok(())
}

/// Adds the entry of the row.
fn push_row(alloc: Global, row: &Row, out: &mut Vec<Entry>) -> Result<(), OutOfMemory> {
    out.push(entry_of(alloc, row)?)?;
    Ok(())
}

/// Whether the checker answers so for the table without some entries and with another one.
fn answers_with(
    alloc: Global,
    problem: &Problem,
    table: &[Entry],
    left_out: LeftOut,
    more: &Row,
    expected: Expected<'_>,
) -> Result<bool, OutOfMemory> {
    let mut longer = others(alloc, table, left_out)?;
    let pushed = push_row(alloc, more, &mut longer);
    let is_so = answers(alloc, problem, longer.as_slice(), expected);
    drop(longer);
    pushed?;
    Ok(is_so)
}

/// Whether the first entry is missing in it.
fn misses_with(
    alloc: Global,
    problem: &Problem,
    table: &[Entry],
    left_out: LeftOut,
    missing: &Row,
    more: &Row,
) -> Result<bool, OutOfMemory> {
    let entry = entry_of(alloc, missing)?;
    let expected = Expected::Missing(&entry);
    let is_missed = answers_with(alloc, problem, table, left_out, more, expected);
    drop(entry);
    is_missed
}

/// Entries of the branching scheme, which has the states 0 and 1 and the points 0 to 7: those that are left
/// out of its table, one that is missing then, and one that is added. Another environment or another type
/// makes another entry, and from a further type of point 5 an entry of point 4 follows.
const CHANGES: &[(LeftOut, Row, Row)] = &[
    (LeftOut::Point(0), (0, &[], None, 1), (0, &[], None, 0)),
    (
        LeftOut::Point(2),
        (2, &[&[]], None, 1),
        (2, &[&[1]], None, 1),
    ),
    (
        LeftOut::Point(4),
        (4, &[&[]], None, 1),
        (4, &[&[1]], None, 1),
    ),
    (
        LeftOut::Point(5),
        (5, &[&[]], None, 1),
        (5, &[&[0]], None, 1),
    ),
    (
        LeftOut::Nothing,
        (4, &[&[0]], None, 0),
        (5, &[&[0]], None, 0),
    ),
];

/// Looks at its table with entries changed.
fn see_changes(
    rt: &impl Abort,
    alloc: Global,
    problem: &Problem,
    table: &[Entry],
) -> Result<(), OutOfMemory> {
    for (left_out, missing, more) in CHANGES {
        let is_missed = misses_with(alloc, problem, table, *left_out, missing, more)?;
        see(rt, (missing.0, is_missed), (missing.0, true), "changed");
    }
    Ok(())
}

/// Entries that are added to the table, and the number of instances, or `None` where it then has the start
/// entry: repeats and entries out of shape change nothing, and from the start entry nothing follows.
const MORE: &[(Row, Option<u64>, &str)] = &[
    ((0, &[], None, 1), Some(4), "a repeat"),
    ((8, &[], None, 0), Some(4), "a point out of range"),
    ((0, &[], None, 2), Some(4), "a state out of range"),
    ((0, &[&[]], None, 0), Some(4), "a set more"),
    ((2, &[], None, 0), Some(4), "a set less"),
    (
        (3, &[&[2]], None, 0),
        Some(4),
        "a state out of range in a set",
    ),
    ((3, &[&[1]], None, 1), Some(4), "a repeat with a set"),
    ((0, &[], None, 0), None, "the start entry"),
];

/// Looks at its table with entries more.
fn see_more(
    rt: &impl Abort,
    alloc: Global,
    problem: &Problem,
    table: &[Entry],
) -> Result<(), OutOfMemory> {
    for (more, instances, note) in MORE {
        let expected = expected_of(*instances);
        let is_so = answers_with(alloc, problem, table, LeftOut::Nothing, more, expected)?;
        see(rt, is_so, true, note);
    }
    Ok(())
}

/// Looks at its least table.
fn see_branching(rt: &impl Abort, alloc: Global, problem: &Problem) -> Result<(), Fail> {
    let table = table_of(alloc, problem)?;
    let changes = see_changes(rt, alloc, problem, table.as_slice());
    let more = see_more(rt, alloc, problem, table.as_slice());
    forget(table);
    changes?;
    more?;
    Ok(())
}

/// Of the worked flow.
const PAIR: FlowPair = FlowPair {
    rule: 1,
    param: 0,
    point: 6,
};

/// Whether the worked flow lacks its pair of the parameter x with point 6 where it is left out. The entries
/// that are missing, since the table is empty, come behind.
fn lacks_a_pair(alloc: Global) -> Result<bool, Fail> {
    let expected = Expected::Pair(PAIR);
    let left = Left::Pair(1);
    answers_over(alloc, BRANCHING, BRANCHING_ACCEPTED, &[], left, expected)
}

#[test]
fn the_branching_scheme_with_entries_changed_and_more_and_a_pair_less(
    rt: HostRuntime,
) -> Result<(), Fail> {
    let problem = problem_of(rt.alloc(), BRANCHING, BRANCHING_ACCEPTED)?;
    let seen = see_branching(&rt, rt.alloc(), &problem);
    forget(problem);
    seen?;
    see(&rt, lacks_a_pair(rt.alloc())?, true, "point 6 for x");
    Ok(())
}
