//! The flow of small schemes.

use crate::told::{Asked, see_told};
use hs_fixtures::PARTIAL;
use hs_flow::analyse;
use hs_scheme::{FlowTable, OutOfMemory, Points, Scheme};
use std::alloc::Global;
use std::mem::forget;
use std::test::Fail;

/// Adds `rule.parameter point` for each flow pair, and for each head pair, behind a bar,
/// `point rule/given`.
fn push_table(out: &mut String, table: &FlowTable) -> Result<(), OutOfMemory> {
    for pair in &table.pairs {
        let (rule, param, point) = (pair.rule, pair.param, pair.point);
        write!(out, "{rule}.{param} {point}, ")?;
    }
    out.push_str("|")?;
    for pair in &table.heads {
        let (point, rule, given) = (pair.point, pair.rule, pair.given);
        write!(out, " {point} {rule}/{given},")?;
    }
    Ok(())
}

/// Adds the flow of at most so many pairs, or its fault.
pub(crate) fn push_flow(
    out: &mut String,
    alloc: Global,
    scheme: &Scheme,
    max: u32,
) -> Result<(), Fail> {
    let points = Points::of(alloc, scheme)?;
    let answer = analyse(alloc, scheme, &points, max);
    forget(points);
    match answer {
        Ok(table) => {
            let pushed = push_table(out, &table);
            forget(table);
            Ok(pushed?)
        }
        Err(fault) => Ok(write!(out, "{fault}")?),
    }
}

/// Three functions, each handed to the one before.
const THREE: &str = "S -> F G. F a -> a H. G b -> b K. H d -> d c. K x -> x.";

/// Rules, the most pairs, and the flow or the fault.
const FLOWS: [(&str, u32, &str); 5] = [
    ("S -> c.", 0, "|"),
    (PARTIAL, 5, "1.0 1, 1.1 3, 2.0 2, 2.1 5, | 1 2/1,"),
    (PARTIAL, 4, "too many flow pairs"),
    (
        THREE,
        7,
        "1.0 1, 2.0 3, 3.0 5, 4.0 7, | 1 2/0, 3 3/0, 5 4/0,",
    ),
    (THREE, 6, "too many flow pairs"),
];

#[test]
fn flow_up_to_a_number_of_pairs(rt: HostRuntime) -> Result<(), Fail> {
    for (rules, max, expected) in &FLOWS {
        see_told(
            &rt,
            rt.alloc(),
            rules,
            "q0 c -> .",
            Asked::Flow(*max),
            expected,
        )?;
    }
    Ok(())
}
