//! How places come into the lists of their types, when these are wanted of their point.

ghost use Rattle.std.specs.Prelude.{◌≡◌, ℕ, ◌<◌, ◌≤◌, ◌↔◌, All, OnOk, IsTrue, length, slice_index_or};
ghost use Rattle.hs_types.specs.Interned.{type_of_id, set_of_id, IsRow};
ghost use Rattle.hs_replica.specs.Index.{list_at, log_of, IsTypedIndex, KeepsTyped, IsNextTyped, Gains, ListsAll, OfTypes, TakesAt, TakesBy, BeginsTyped, TakesFirst};

use crate::key::Key;
use crate::lists::{Lists, add_once};
use crate::reaching::{lengthen, next_at};
use hs_scheme::OutOfMemory;
use hs_types::{Interner, Row, SetId, TyId, View};

/// Lists the place under each type of the set, as taken as this argument.
fn add_taken(
    lists: &mut Lists,
    interner: &Interner,
    point: u32,
    arg: u32,
    set: SetId,
    place: u32,
) -> Result<(), OutOfMemory>
    requires { set < length interner.now.sets }
    ensures gains { Gains interner.now (TakesAt point arg (set_of_id interner.now set)) place
        (list_at lists.old) (list_at lists.new) }
    ensures all { OnOk result (ListsAll interner.now (TakesAt point arg (set_of_id interner.now set)) place
        (list_at lists.new)) }
{
    for ty in interner.members(set) {
        add_once(lists, Key::Taking(point, arg, *ty), place)?;
    }
    Ok(())
}

/// Lists the place under all that the type takes.
fn add_taking(
    lists: &mut Lists,
    interner: &Interner,
    point: u32,
    ty: TyId,
    place: u32,
) -> Result<(), OutOfMemory>
    requires { ty < length interner.now.types }
    ensures gains { Gains interner.now (TakesBy point (type_of_id interner.now ty)) place (list_at lists.old)
        (list_at lists.new) }
    ensures all { OnOk result (ListsAll interner.now (TakesBy point (type_of_id interner.now ty)) place
        (list_at lists.new)) }
{
    let mut rest = ty;
    let mut arg: u32 = 0;
    while let View::Arrow(set, next) = interner.view(rest) {
        add_taken(lists, interner, point, arg, set, place)?;
        let Some(following) = arg.checked_add(1) else {
            // No interner has a type with 2^32 arguments.
            return Err(OutOfMemory);
        };
        rest = next;
        arg = following;
    }
    Ok(())
}

/// Lists the place, which is listed by its point and its type, under what its type takes, where no
/// entry before it has its point and its type.
fn add_first(
    lists: &mut Lists,
    interner: &Interner,
    row: Row,
    place: u32,
    first: bool,
) -> Result<(), OutOfMemory>
    requires row { IsRow interner.now row }
    requires first { IsTrue first ↔ BeginsTyped row place (list_at lists.old) }
    ensures gains { Gains interner.now (TakesFirst interner.now row (list_at lists.old) place) place
        (list_at lists.old) (list_at lists.new) }
    ensures all { OnOk result (ListsAll interner.now
        (TakesFirst interner.now row (list_at lists.old) place) place (list_at lists.new)) }
{
    if first {
        return add_taking(lists, interner, row.point, row.ty, place);
    }
    Ok(())
}

/// Lists the place by its type, and where that is the first at its point, under what it takes. After
/// a refusal of memory it may be listed under some of that.
fn add_typed(
    lists: &mut Lists,
    interner: &Interner,
    rows: &[Row],
    place: u32,
) -> Result<(), OutOfMemory>
    requires rows { All (IsRow interner.now) rows.now }
    requires place { place < length rows.now }
    requires next { IsNextTyped interner.now (log_of interner.now rows.now) place (list_at lists.old) }
    ensures gains { Gains interner.now (OfTypes (log_of interner.now rows.now) place) place
        (list_at lists.old) (list_at lists.new) }
    ensures all { OnOk result (ListsAll interner.now (OfTypes (log_of interner.now rows.now) place) place
        (list_at lists.new)) }
{
    interner.know_numbers();
    let row = rows[place as usize];
    let first = add_once(lists, Key::Typed(row.point, row.ty), place)?;
    add_first(lists, interner, row, place, first)
}

/// Lists the places of the point, of the first `indexed`, by their types. `by_type` says for each
/// point how many places of the log that has been done for, so it goes on from there, and after a
/// refusal of memory it tells how far this came.
pub(crate) fn add_types(
    lists: &mut Lists,
    by_type: &mut Vec<u32>,
    interner: &Interner,
    rows: &[Row],
    indexed: u32,
    point: u32,
) -> Result<(), OutOfMemory>
    requires rows { All (IsRow interner.now) rows.now }
    requires within { indexed ≤ length rows.now }
    requires index { IsTypedIndex interner.now (log_of interner.now rows.now) indexed by_type.old.items
        (list_at lists.old) }
    ensures index { KeepsTyped interner.now (log_of interner.now rows.now) indexed by_type.old.items
        by_type.new.items (list_at lists.old) (list_at lists.new) }
    ensures ok { OnOk result (slice_index_or by_type.new.items point 0 ≡ indexed) }
    ensures more { (p : ℕ) → slice_index_or by_type.old.items p 0 ≤ slice_index_or by_type.new.items p 0 }
{
    interner.know_numbers();
    lengthen(by_type, point)?;
    if by_type[point as usize] == indexed {
        return Ok(());
    }
    while let Some(place) = next_at(lists, point, by_type[point as usize], indexed) {
        by_type[point as usize] = place;
        add_typed(lists, interner, rows, place)?;
        by_type[point as usize] = place + 1;
    }
    by_type[point as usize] = indexed;
    Ok(())
}
