//! Entries chosen for the types of a head's sets.

ghost use Rattle.std.specs.Prelude.{◌≡◌, ◌++◌, map, IfOk, OnOk};
ghost use Rattle.std.specs.List.{flat_map};
ghost use Rattle.hs_table_plain.specs.Enumeration as plain;

use crate::union::joined;
use hs_scheme::OutOfMemory;
use hs_table::{Entry, Shape, Ty};
use std::alloc::Global;
use std::cmp::Ordering;

/// Adds the entry joined with the candidate, where that is at the argument and has the type.
fn extend_by(
    alloc: Global,
    entry: &Entry,
    candidate: &Entry,
    arg: u32,
    ty: &Ty,
    out: &mut Vec<Entry>,
) -> Result<(), OutOfMemory>
    ensures { OnOk result (out.new.items
        ≡ out.old.items ++ plain.extended arg ty.now entry.now candidate.now) }
{
    if candidate.point == arg && candidate.ty.compare(ty) == Ordering::Equal {
        out.push(joined(alloc, entry, candidate)?)?;
    }
    Ok(())
}

/// Adds the entry joined with each candidate.
fn extend(
    alloc: Global,
    log: &[Entry],
    entry: &Entry,
    arg: u32,
    ty: &Ty,
    out: &mut Vec<Entry>,
) -> Result<(), OutOfMemory>
    ensures { OnOk result (out.new.items ≡ out.old.items ++ flat_map
        (plain.extended arg ty.now entry.now) log.now) }
{
    for candidate in log {
        extend_by(alloc, entry, candidate, arg, ty, out)?;
    }
    Ok(())
}

/// Each entry joined with each candidate for the type at the argument.
fn extended(
    alloc: Global,
    log: &[Entry],
    arg: u32,
    ty: &Ty,
    entries: &[Entry],
) -> Result<Vec<Entry>, OutOfMemory>
    ensures { IfOk result (λ out. out.items ≡ flat_map
        (λ e. flat_map (plain.extended arg ty.now e) log.now) entries.now) }
{
    let mut out = Vec::new(alloc);
    for entry in entries {
        extend(alloc, log, entry, arg, ty, &mut out)?;
    }
    Ok(out)
}

/// Each entry joined with one candidate for each type of the set.
fn picks(
    alloc: Global,
    log: &[Entry],
    arg: u32,
    set: &[Ty],
    entries: Vec<Entry>,
) -> Result<Vec<Entry>, OutOfMemory>
    ensures { IfOk result (λ out. out.items ≡ plain.picks log.now arg set.now entries.items) }
{
    let mut found = entries;
    for ty in set {
        found = extended(alloc, log, arg, ty, found.as_slice())?;
    }
    Ok(found)
}

/// The entries with this type in place of theirs.
fn retyped(alloc: Global, ty: &Ty, entries: &[Entry]) -> Result<Vec<Entry>, OutOfMemory>
    ensures { IfOk result (λ out. out.items ≡ map (plain.retyped ty.now) entries.now) }
{
    let mut out = Vec::with_capacity(alloc, entries.len())?;
    for entry in entries {
        let mut made = entry.copy(alloc)?;
        made.ty = ty.copy(alloc)?;
        out.push(made)?;
    }
    Ok(out)
}

/// Each entry joined with one candidate for each type of each argument's set, with the type that
/// is left. Recurses as deep as the type.
pub(crate) fn through(
    alloc: Global,
    log: &[Entry],
    args: &[u32],
    ty: &Ty,
    entries: Vec<Entry>,
) -> Result<Vec<Entry>, OutOfMemory>
    ensures { IfOk result (λ out. out.items ≡ plain.through log.now args.now ty.now entries.items) }
{
    let Some(arg) = args.first() else {
        return retyped(alloc, ty, entries.as_slice());
    };
    match &ty.shape {
        Shape::State(_) => Ok(Vec::new(alloc)),
        Shape::Arrow(set, rest) => {
            let chosen = picks(alloc, log, *arg, set.as_slice(), entries)?;
            through(alloc, log, &args[1..], rest, chosen)
        }
    }
}
