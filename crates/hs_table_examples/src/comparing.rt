//! What follows from a log by the indexed programs, beside what follows by the plain one.

ghost use Rattle.std.specs.Prelude.{◌≡◌, ◌<◌, length, All};
ghost use Rattle.hs_table.specs.Entries.{InShape};

use crate::growing::{at_once, by_places, grow, trees};
use crate::making::table_within;
use hs_rules::Replica;
use hs_scheme::{OutOfMemory, Problem};
use hs_table::Entry;
use hs_table_plain::conclusions;
use std::alloc::Global;
use std::cmp::Ordering;
use std::mem::forget;

/// Whether the entry is among the others.
fn is_among(entry: &Entry, others: &[Entry]) -> bool {
    for other in others {
        if entry.compare(other) == Ordering::Equal {
            return true;
        }
    }
    false
}

/// Whether each of the entries is among the others.
fn are_among(entries: &[Entry], others: &[Entry]) -> bool {
    for entry in entries {
        if !is_among(entry, others) {
            return false;
        }
    }
    true
}

/// Whether both have the same entries.
pub(crate) fn are_same(entries: &[Entry], others: &[Entry]) -> bool {
    are_among(entries, others) && are_among(others, entries)
}

/// Whether both calls find at the point what is expected.
fn both_find(
    alloc: Global,
    problem: &Problem,
    replica: &mut Replica,
    point: u32,
    expected: &[Entry],
) -> Result<bool, OutOfMemory>
    requires point { point < length problem.now.points.points }
    requires shape { All (InShape problem.now) replica.old.log }
    ensures { replica.new.log ≡ replica.old.log }
{
    let found = at_once(alloc, problem, replica, point)?;
    let is_found = found.len() == expected.len() && are_same(found.as_slice(), expected);
    drop(found);
    let parts = by_places(alloc, problem, replica, point)?;
    Ok(is_found && are_same(parts.as_slice(), expected))
}

/// Whether both calls find at the point what the plain program finds from the log.
fn point_agrees(
    alloc: Global,
    problem: &Problem,
    replica: &mut Replica,
    log: &[Entry],
    point: u32,
) -> Result<bool, OutOfMemory>
    requires point { point < length problem.now.points.points }
    requires shape { All (InShape problem.now) replica.old.log }
    requires log { All (InShape problem.now) log.now }
    ensures { replica.new.log ≡ replica.old.log }
{
    let expected = conclusions(alloc, problem, log, point)?;
    let agrees = both_find(alloc, problem, replica, point, expected.as_slice());
    drop(expected);
    agrees
}

/// Whether they do so at each point.
fn points_agree_on(
    alloc: Global,
    problem: &Problem,
    replica: &mut Replica,
    log: &[Entry],
) -> Result<bool, OutOfMemory>
    requires shape { All (InShape problem.now) replica.old.log }
    requires log { All (InShape problem.now) log.now }
    ensures { replica.new.log ≡ replica.old.log }
{
    for point in 0..problem.points.count() {
        if !point_agrees(alloc, problem, replica, log, point)? {
            return Ok(false);
        }
    }
    Ok(true)
}

/// Whether they do so on the log as it stands.
fn points_agree(
    alloc: Global,
    problem: &Problem,
    replica: &mut Replica,
) -> Result<bool, OutOfMemory>
    requires { All (InShape problem.now) replica.old.log }
    ensures { replica.new.log ≡ replica.old.log }
{
    let log = trees(alloc, replica)?;
    let agree = points_agree_on(alloc, problem, replica, log.as_slice());
    drop(log);
    agree
}

/// Grows the log until nothing more follows, or it has 1,000 entries. Answers whether all calls agree
/// at each length on the way, or where `few` is set at the powers of two, and at the end.
fn all_agree(
    alloc: Global,
    problem: &Problem,
    replica: &mut Replica,
    few: bool,
) -> Result<bool, OutOfMemory>
    requires { All (InShape problem.now) replica.old.log }
{
    for step in 0..1_000_u32 {
        let skipped = few && !step.is_power_of_two();
        if !skipped && !points_agree(alloc, problem, replica)? {
            return Ok(false);
        }
        if !grow(alloc, problem, replica)? {
            return points_agree(alloc, problem, replica);
        }
    }
    Ok(false)
}

/// The number of these entries where they are those of the least table by the plain program.
pub(crate) fn least_entries(
    alloc: Global,
    problem: &Problem,
    log: &[Entry],
) -> Result<Option<usize>, OutOfMemory> {
    match table_within(alloc, problem, 1_000)? {
        None => Ok(None),
        Some(table) => {
            let is_least = table.len() == log.len() && are_same(log, table.as_slice());
            Ok(if is_least { Some(log.len()) } else { None })
        }
    }
}

/// The number of entries of the least table, or `None` where the programs don't agree on the way to
/// it, from the log on.
fn entries_from(
    alloc: Global,
    problem: &Problem,
    replica: &mut Replica,
    few: bool,
) -> Result<Option<usize>, OutOfMemory>
    requires { All (InShape problem.now) replica.old.log }
{
    if !all_agree(alloc, problem, replica, few)? {
        return Ok(None);
    }
    let log = trees(alloc, replica)?;
    let entries = least_entries(alloc, problem, log.as_slice());
    drop(log);
    entries
}

/// The number of entries of the least table, or `None` where the programs don't agree on the way to
/// it: at each length of the log, or where `few` is set at the powers of two and at the end.
pub(crate) fn entries_of(
    alloc: Global,
    problem: &Problem,
    few: bool,
) -> Result<Option<usize>, OutOfMemory> {
    let mut replica = Replica::new(alloc);
    let entries = entries_from(alloc, problem, &mut replica, few);
    forget(replica);
    entries
}
