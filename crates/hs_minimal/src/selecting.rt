//! The entries from which others may follow at a point with those that came at one of its sources.
//!
//! What is selected is only as much as it takes that little is left for the last look at each point, and
//! contracts say no more of it than that it was added.

ghost use Rattle.std.specs.Prelude.{◌≡◌, ◌<◌, Contains, IfOk, IfSome, OnOk, length};
ghost use Rattle.std.specs.List.Sorted.{IsNonDecreasingBy};
ghost use Rattle.hs_types.specs.Interned.{RowData, IsRow};
ghost use Rattle.hs_minimal.specs.Growing.{IsGrowing, AreAdded};

use crate::choosing::has_each;
use crate::gathering::{add_head, add_rows, args_at, head_at};
use crate::growing::Growing;
use hs_choices::Compared;
use hs_scheme::{Head, OutOfMemory};
use hs_strength::{has_last_state, last_state};
use hs_types::{Interner, Row, SetId, TyId, View};

/// The set at this place, counted from 0, of those in front of the type.
fn set_before(types: &Interner, ty: TyId, place: usize) -> Option<SetId>
    requires { ty < length types.now.types }
    ensures { IfSome result (λ set. set < length types.now.sets) }
{
    let mut rest = ty;
    for _ in 0..place {
        match types.view(rest) {
            View::State(_) => return None,
            View::Arrow(_, next) => rest = next,
        }
    }
    match types.view(rest) {
        View::State(_) => None,
        View::Arrow(set, _) => Some(set),
    }
}

/// What an entry that says something of the head asks of the argument at this place, counted from 0.
fn asked_of(types: &Interner, head: Head, row: &Row, place: usize) -> Option<SetId>
    requires { IsRow types.now row.now }
    ensures { IfSome result (λ set. set < length types.now.sets) }
{
    match head {
        Head::Var(_) => set_before(types, row.ty, place),
        _ => types.sets(row.env).get(place).copied(),
    }
}

/// Whether a type of the set has the state at its end that the type of one of the new entries has.
fn asks_some(types: &Interner, set: SetId, new: &[Row]) -> bool
    requires set { set < length types.now.sets }
    requires new { (r : RowData) → Contains new.now r → IsRow types.now r }
{
    for row in new {
        if has_last_state(types, set, last_state(types, row.ty)) {
            return true;
        }
    }
    false
}

/// Whether an entry that says something of the head may ask an argument for one of the new entries, which
/// are at this point.
fn asks_new(
    types: &Interner,
    head: Head,
    args: &[u32],
    said: &Row,
    source: u32,
    new: &[Row],
) -> bool
    requires said { IsRow types.now said.now }
    requires new { (r : RowData) → Contains new.now r → IsRow types.now r }
{
    for (place, arg) in args.iter().enumerate() {
        if *arg != source {
            continue;
        }
        if let Some(set) = asked_of(types, head, said, place) {
            if asks_some(types, set, new) {
                return true;
            }
        }
    }
    false
}

/// The entries that say something of the head of the point and may ask an argument for one of the new
/// entries.
fn heads_with(
    types: &Interner,
    growing: &Growing,
    point: u32,
    source: u32,
    new: &[Row],
) -> Result<Vec<Row>, OutOfMemory>
    requires growing { IsGrowing types.now growing.now }
    requires point { point < length growing.now.problem.points.points }
    requires new { AreAdded growing.now new.now }
    ensures { IfOk result (λ rows. AreAdded growing.now rows.items) }
{
    let problem = growing.problem();
    let args = args_at(problem, point);
    let head = head_at(problem, point);
    let mut chosen = Vec::new(growing.alloc);
    let mut all = Vec::new(growing.alloc);
    add_head(growing, point, &mut all)?;
    for said in all.as_slice() {
        if !asks_new(types, head, args, said, source, new) {
            continue;
        }
        chosen.push(*said)?;
    }
    Ok(chosen)
}

/// Adds the entries that are kept at the arguments but this one.
fn add_other_args(
    types: &Interner,
    growing: &Growing,
    args: &[u32],
    source: u32,
    rows: &mut Vec<Row>,
) -> Result<(), OutOfMemory>
    requires growing { IsGrowing types.now growing.now }
    requires rows { AreAdded growing.now rows.old.items }
    ensures { OnOk result (AreAdded growing.now rows.new.items) }
{
    let _ = types;
    for arg in args {
        if *arg == source {
            continue;
        }
        add_rows(growing, *arg, rows)?;
    }
    Ok(())
}

/// Whether for all that an entry that says something of the head asks of the arguments there is an entry to
/// choose that is kept.
fn may_be_met(
    types: &mut Compared,
    growing: &Growing,
    head: Head,
    args: &[u32],
    said: &Row,
) -> Result<bool, OutOfMemory>
    requires growing { IsGrowing types.old growing.now }
    requires said { IsRow types.old said.now }
    ensures { types.new ≡ types.old }
{
    for (place, arg) in args.iter().enumerate() {
        let Some(set) = asked_of(types.interner(), head, said, place) else {
            continue;
        };
        if !has_each(types, growing.rows_at(*arg), set)? {
            return Ok(false);
        }
    }
    Ok(true)
}

/// Adds those of the entries, which say something of the head of the point, for which that is so.
fn add_met(
    types: &mut Compared,
    growing: &Growing,
    point: u32,
    said: &[Row],
    rows: &mut Vec<Row>,
) -> Result<(), OutOfMemory>
    requires growing { IsGrowing types.old growing.now }
    requires point { point < length growing.now.problem.points.points }
    requires said { AreAdded growing.now said.now }
    requires rows { AreAdded growing.now rows.old.items }
    ensures added { OnOk result (AreAdded growing.now rows.new.items) }
    ensures same { types.new ≡ types.old }
{
    let head = head_at(growing.problem(), point);
    let args = args_at(growing.problem(), point);
    for row in said {
        if !may_be_met(types, growing, head, args, row)? {
            continue;
        }
        rows.push(*row)?;
    }
    Ok(())
}

/// Adds the entries that say something of the head of the point and may be met, and of which one or another
/// entry is new; and the new ones, where they are at an argument.
fn add_said(
    types: &mut Compared,
    growing: &Growing,
    point: u32,
    source: u32,
    new: &[Row],
    rows: &mut Vec<Row>,
) -> Result<(), OutOfMemory>
    requires growing { IsGrowing types.old growing.now }
    requires point { point < length growing.now.problem.points.points }
    requires new { AreAdded growing.now new.now }
    requires rows { AreAdded growing.now rows.old.items }
    ensures added { OnOk result (AreAdded growing.now rows.new.items) }
    ensures same { types.new ≡ types.old }
{
    if !args_at(growing.problem(), point).contains(&source) {
        return add_met(types, growing, point, new, rows);
    }
    let said = heads_with(types.interner(), growing, point, source, new)?;
    add_met(types, growing, point, said.as_slice(), rows)?;
    rows.extend_from_slice(new)?;
    Ok(())
}

/// The new entries, which are at this source of the point, with those that say something of its head and
/// may ask for them, and with all at its other arguments, in the order of their points. An entry that says
/// something of the head is left out where nothing is kept that could be chosen for what it asks.
pub(crate) fn selected(
    types: &mut Compared,
    growing: &Growing,
    point: u32,
    source: u32,
    new: &[Row],
) -> Result<Vec<Row>, OutOfMemory>
    requires growing { IsGrowing types.old growing.now }
    requires point { point < length growing.now.problem.points.points }
    requires new { AreAdded growing.now new.now }
    ensures added { IfOk result (λ rows. AreAdded growing.now rows.items) }
    ensures order { IfOk result (λ rows. IsNonDecreasingBy (λ (r : RowData). r.point) rows.items) }
    ensures same { types.new ≡ types.old }
{
    let mut rows = Vec::new(growing.alloc);
    add_said(types, growing, point, source, new, &mut rows)?;
    let args = args_at(growing.problem(), point);
    add_other_args(types.interner(), growing, args, source, &mut rows)?;
    rows.sort_unstable_by_key(|row| row.point);
    Ok(rows)
}
