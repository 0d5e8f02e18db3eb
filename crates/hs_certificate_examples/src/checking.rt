//! What the checker answers in the cases, for the table as it stands, and for one that says the same.

ghost use Rattle.hs_weak.specs.Reads.{IsClosedReads};

use crate::cases::{CASES, Case, Expected, NEEDED};
use crate::shorts::{ShortEntry, entry_of, pairs_of, stirred, table_without};
use hs_certificate_checker::{CertificateFault, check_certificate};
use hs_fixtures::problem_of;
use hs_reads::Reads;
use hs_scheme::{OutOfMemory, Problem};
use hs_table::Entry;
use hs_weak::Void;
use std::alloc::Global;
use std::cmp::Ordering;
use std::mem::forget;
use std::process::Abort;
use std::test::Fail;

/// Whether this entry is missing.
fn is_missing(
    alloc: Global,
    fault: &CertificateFault,
    short: &ShortEntry,
) -> Result<bool, OutOfMemory> {
    let CertificateFault::Missing { entry } = fault else {
        return Ok(false);
    };
    let other = entry_of(alloc, short)?;
    let is_so = entry.compare(&other) == Ordering::Equal;
    drop(other);
    Ok(is_so)
}

/// Whether the fault is the one that is expected.
fn is_fault(
    alloc: Global,
    fault: &CertificateFault,
    expected: Expected,
) -> Result<bool, OutOfMemory> {
    match expected {
        Expected::Certificate => Ok(false),
        Expected::Start => Ok(matches!(fault, CertificateFault::HasStart)),
        Expected::NotVoid(other) => Ok(match fault {
            CertificateFault::NotVoid { place } => *place == other,
            _ => false,
        }),
        Expected::Missing(short) => is_missing(alloc, fault, short),
    }
}

/// Whether the checker answers so for the table and the pairs.
fn answers(
    alloc: Global,
    problem: &Problem,
    reads: &Reads,
    table: &[Entry],
    pairs: &[Void],
    expected: Expected,
) -> Result<bool, OutOfMemory>
    requires { IsClosedReads problem.now reads.now }
{
    match check_certificate(alloc, problem, reads, table, pairs) {
        Ok(()) => Ok(matches!(expected, Expected::Certificate)),
        Err(fault) => {
            let is_so = is_fault(alloc, &fault, expected);
            drop(fault);
            is_so
        }
    }
}

/// Whether it answers so for the table of these entries, and for the stirred one.
fn answers_both(
    alloc: Global,
    problem: &Problem,
    reads: &Reads,
    case: &Case,
    pairs: &[Void],
) -> Result<[bool; 2], OutOfMemory>
    requires { IsClosedReads problem.now reads.now }
{
    let table = table_without(alloc, case.0, None)?;
    let plain = answers(alloc, problem, reads, table.as_slice(), pairs, case.2);
    drop(table);
    let table = stirred(alloc, case.0)?;
    let mixed = answers(alloc, problem, reads, table.as_slice(), pairs, case.2);
    drop(table);
    Ok([plain?, mixed?])
}

/// So in a case.
fn told(
    alloc: Global,
    problem: &Problem,
    reads: &Reads,
    case: &Case,
) -> Result<[bool; 2], OutOfMemory>
    requires { IsClosedReads problem.now reads.now }
{
    let pairs = pairs_of(alloc, case.1)?;
    let told = answers_both(alloc, problem, reads, case, pairs.as_slice());
    drop(pairs);
    told
}

/// Sees that what was found is what was expected, in the case that the note tells of.
fn see(rt: &impl Abort, found: [bool; 2], note: &str) {
    assert_eq!(rt; found, [true; 2], "{note}");
}

/// Looks at the cases of a problem.
fn see_cases(
    rt: &impl Abort,
    alloc: Global,
    problem: &Problem,
    reads: &Reads,
    cases: &[Case],
) -> Result<(), OutOfMemory>
    requires { IsClosedReads problem.now reads.now }
{
    for case in cases {
        see(rt, told(alloc, problem, reads, case)?, case.3);
    }
    Ok(())
}

/// Whether the entry at the place is missing where it is left out.
fn is_needed(
    alloc: Global,
    problem: &Problem,
    reads: &Reads,
    shorts: &'static [ShortEntry],
    place: usize,
) -> Result<bool, OutOfMemory>
    requires { IsClosedReads problem.now reads.now }
{
    let Some(short) = shorts.get(place) else {
        return Ok(false);
    };
    let table = table_without(alloc, shorts, Some(place))?;
    let expected = Expected::Missing(short);
    let is_so = answers(alloc, problem, reads, table.as_slice(), &[], expected);
    drop(table);
    is_so
}

/// Looks at each entry of a certificate.
fn see_needed(
    rt: &impl Abort,
    alloc: Global,
    problem: &Problem,
    reads: &Reads,
    shorts: &'static [ShortEntry],
) -> Result<(), OutOfMemory>
    requires { IsClosedReads problem.now reads.now }
{
    for place in 0..shorts.len() {
        let is_so = is_needed(alloc, problem, reads, shorts, place)?;
        see(rt, [is_so; 2], "an entry less");
    }
    Ok(())
}

/// Looks at the cases over the read pairs of a problem.
fn see_problem(
    rt: &impl Abort,
    alloc: Global,
    problem: &Problem,
    cases: &[Case],
    shorts: &'static [ShortEntry],
) -> Result<(), OutOfMemory> {
    let reads = Reads::of(alloc, problem)?;
    let seen = see_cases(rt, alloc, problem, &reads, cases);
    let needed = see_needed(rt, alloc, problem, &reads, shorts);
    forget(reads);
    seen?;
    needed
}

/// Looks at the cases of a scheme, and at each entry of a certificate.
fn see_scheme(
    rt: &impl Abort,
    alloc: Global,
    rules: &str,
    transitions: &str,
    cases: &[Case],
    shorts: &'static [ShortEntry],
) -> Result<(), Fail> {
    let problem = problem_of(alloc, rules, transitions)?;
    let seen = see_problem(rt, alloc, &problem, cases, shorts);
    forget(problem);
    seen?;
    Ok(())
}

#[test]
fn certificates_by_hand_and_what_is_none(rt: HostRuntime) -> Result<(), Fail> {
    for (rules, transitions, cases) in CASES {
        see_scheme(&rt, rt.alloc(), rules, transitions, cases, &[])?;
    }
    Ok(())
}

#[test]
fn certificates_without_an_entry_that_is_needed(rt: HostRuntime) -> Result<(), Fail> {
    for (rules, transitions, shorts) in NEEDED {
        see_scheme(&rt, rt.alloc(), rules, transitions, &[], shorts)?;
    }
    Ok(())
}
