//! The order of types and entries on small cases, and copies.

use crate::entries::{Row, entry_of};
use crate::seeing::see;
use hs_scheme::OutOfMemory;
use hs_table::Entry;
use std::alloc::Global;
use std::cmp::Ordering;
use std::test::Fail;

/// Entries whose types ascend: three states, and then arrows.
const TYPES: &[Row] = &[
    (0, &[], None, 0),
    (0, &[], None, 1),
    (0, &[], None, 7),
    (0, &[], Some(&[]), 0),
    (0, &[], Some(&[0]), 0),
    (0, &[], Some(&[0, 1]), 0),
    (0, &[], Some(&[1]), 0),
    (0, &[], Some(&[]), 1),
    (0, &[], Some(&[0]), 1),
];

/// Entries that ascend by point, environment and type.
const ENTRIES: &[Row] = &[
    (0, &[&[9], &[]], None, 5),
    (1, &[&[], &[]], None, 0),
    (1, &[&[], &[]], None, 4),
    (1, &[&[], &[3]], None, 0),
    (1, &[&[2], &[]], None, 0),
    (1, &[&[2, 3], &[]], None, 0),
    (1, &[&[3], &[0]], None, 0),
];

/// An entry whose type is an arrow.
const COPIED: Row = (3, &[&[0, 1], &[]], Some(&[1, 2]), 0);

/// These entries.
fn entries_of(alloc: Global, rows: &[Row]) -> Result<Vec<Entry>, OutOfMemory> {
    let mut entries = Vec::new(alloc);
    for row in rows {
        entries.push(entry_of(alloc, row)?)?;
    }
    Ok(entries)
}

/// The order of the types alone, or of the entries.
fn order(by_type: bool, a: &Entry, b: &Entry) -> Ordering {
    if by_type {
        a.ty.compare(&b.ty)
    } else {
        a.compare(b)
    }
}

/// The places of two entries whose order isn't that of their places.
fn disordered(entries: &[Entry], by_type: bool) -> Option<(usize, usize)> {
    for (i, a) in entries.iter().enumerate() {
        for (j, b) in entries.iter().enumerate() {
            if order(by_type, a, b) != i.cmp(&j) {
                return Some((i, j));
            }
        }
    }
    None
}

/// The same of the entries of these rows.
fn disordered_rows(
    alloc: Global,
    rows: &[Row],
    by_type: bool,
) -> Result<Option<(usize, usize)>, OutOfMemory> {
    let entries = entries_of(alloc, rows)?;
    Ok(disordered(entries.as_slice(), by_type))
}

/// The order of an entry and its copy, and the copy's point and number of sets.
fn copied(alloc: Global, made: &Entry) -> Result<(Ordering, u32, usize), OutOfMemory> {
    let copy = made.copy(alloc)?;
    Ok((made.compare(&copy), copy.point, copy.env.len()))
}

/// The same of the entry of this row.
fn copied_row(alloc: Global, row: &Row) -> Result<(Ordering, u32, usize), OutOfMemory> {
    let made = entry_of(alloc, row)?;
    let seen = copied(alloc, &made);
    drop(made);
    seen
}

#[test]
fn types_and_entries_are_ordered_and_copies_equal(rt: HostRuntime) -> Result<(), Fail> {
    let types = disordered_rows(rt.alloc(), TYPES, true)?;
    see(&rt, types, None, "types");
    let entries = disordered_rows(rt.alloc(), ENTRIES, false)?;
    see(&rt, entries, None, "entries");
    let copy = copied_row(rt.alloc(), &COPIED)?;
    see(&rt, copy, (Ordering::Equal, 3, 2), "a copy");
    Ok(())
}
