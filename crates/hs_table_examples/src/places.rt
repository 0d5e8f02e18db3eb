//! A log that is made in two ways, and look-ups on a small log.

ghost use Rattle.std.specs.Prelude.{◌≡◌, ◌<◌, length, IfOk};
ghost use Rattle.hs_types.specs.Interned.{IsRow};

use crate::seeing::see;
use hs_replica::Replica;
use hs_scheme::OutOfMemory;
use hs_types::{Interner, Row, TyId};
use std::mem::forget;
use std::test::Fail;

/// The row of the entry of this point with state 0 and no parameters.
fn plain_row(interner: &mut Interner, point: u32) -> Result<Row, OutOfMemory>
    ensures { IfOk result (IsRow interner.new) }
{
    let env = interner.empty_env(0)?;
    let ty = interner.base(0)?;
    Ok(Row { point, env, ty })
}

/// The row, to be handed on once more.
fn again(row: &Row) -> Row
    ensures { result ≡ row.now }
{
    Row {
        point: row.point,
        env: row.env,
        ty: row.ty,
    }
}

/// Adds the entry of the row, unless it is there.
fn add_new(replica: &mut Replica, row: &Row) -> Result<(), OutOfMemory>
    requires { IsRow replica.old.ids row.now }
{
    replica.reserve(1)?;
    if replica.len() < 1_000 && replica.find(again(row)).is_none() {
        replica.add(again(row));
    }
    Ok(())
}

/// Appends the plain row of point 1, unless the log has entries.
fn append_plain(from: &mut Interner, replica: &mut Replica) -> Result<(), OutOfMemory> {
    let row = plain_row(from, 1)?;
    if replica.len() == 0 {
        replica.append(from, row)?;
    }
    Ok(())
}

/// Adds it, after it is imported.
fn add_plain(from: &mut Interner, replica: &mut Replica) -> Result<(), OutOfMemory> {
    let row = plain_row(from, 1)?;
    let own = replica.import(from, row)?;
    add_new(replica, &own)
}

/// Whether the log has just the entry of point 1 with state 0 and no parameters.
fn has_plain_alone(replica: &mut Replica) -> Result<bool, OutOfMemory> {
    let env = replica.empty_env(0)?;
    let ty = replica.base(0)?;
    let found = replica.find(Row { point: 1, env, ty });
    Ok(found == Some(0) && replica.len() == 1)
}

/// Whether one new log has the plain row once after it is appended, and after it is imported and added,
/// too, and the other one after it is imported and added.
fn plain_rows(
    from: &mut Interner,
    appended: &mut Replica,
    added: &mut Replica,
) -> Result<[bool; 3], OutOfMemory> {
    append_plain(from, appended)?;
    let once = has_plain_alone(appended)?;
    add_plain(from, appended)?;
    let again = has_plain_alone(appended)?;
    add_plain(from, added)?;
    Ok([once, again, has_plain_alone(added)?])
}

/// The type that takes an argument with state `taken` and then is state 0.
fn arrow_type(replica: &mut Replica, taken: u32) -> Result<TyId, OutOfMemory>
    ensures { IfOk result (λ ty. ty < length replica.new.ids.types) }
{
    let rest = replica.base(0)?;
    let member = replica.base(taken)?;
    let set = replica.set(&[member])?;
    replica.arrow(set, rest)
}

/// Adds the entry whose environment has just the state `asked`, at its one parameter.
fn add_asking(replica: &mut Replica, point: u32, asked: u32, q: u32) -> Result<(), OutOfMemory> {
    let member = replica.base(asked)?;
    let env = replica.single_env(1, 0, member)?;
    let ty = replica.base(q)?;
    add_new(replica, &Row { point, env, ty })
}

/// Adds the entry with so many empty sets whose type takes an argument with state `taken`.
fn add_taking(
    replica: &mut Replica,
    point: u32,
    params: usize,
    taken: u32,
) -> Result<(), OutOfMemory> {
    let ty = arrow_type(replica, taken)?;
    let env = replica.empty_env(params)?;
    add_new(replica, &Row { point, env, ty })
}

/// Fills a log with entries that ask at point 3 and entries that take at point 4, and indexes all
/// but the last.
fn fill(replica: &mut Replica) -> Result<(), OutOfMemory> {
    add_asking(replica, 3, 1, 0)?;
    add_taking(replica, 4, 0, 1)?;
    add_taking(replica, 4, 1, 1)?;
    add_asking(replica, 3, 1, 2)?;
    replica.index()?;
    add_asking(replica, 3, 1, 5)
}

/// Whether just these places ask for state 1 at this parameter of point 3.
fn are_asking(replica: &mut Replica, param: u32, expected: &[u32]) -> Result<bool, OutOfMemory> {
    let one = replica.base(1)?;
    let asked = replica.asking(3, param, one)?;
    Ok(asked.as_slice() == expected)
}

/// Whether the right places are at point 3, and ask at its parameters before the last is indexed and
/// after that.
fn who_asks(replica: &mut Replica) -> Result<[bool; 4], OutOfMemory> {
    let at_point = replica.at_point(3) == [0, 3].as_slice();
    let first = are_asking(replica, 0, &[0, 3])?;
    let other = are_asking(replica, 1, &[])?;
    replica.index()?;
    Ok([at_point, first, other, are_asking(replica, 0, &[0, 3, 4])?])
}

/// Whether just these places of point 4 have the type that takes an argument with state 1.
fn have_type(replica: &mut Replica, expected: &[u32]) -> Result<bool, OutOfMemory> {
    let ty = arrow_type(replica, 1)?;
    Ok(replica.with_type(4, ty) == expected)
}

/// Whether just these places of point 4 take as this argument one with state 1.
fn are_taking(replica: &mut Replica, arg: u32, expected: &[u32]) -> Result<bool, OutOfMemory> {
    let one = replica.base(1)?;
    Ok(replica.taking(4, arg, one) == expected)
}

/// Whether the right places of point 4 have the type, and take arguments.
fn who_takes(replica: &mut Replica) -> Result<[bool; 3], OutOfMemory> {
    replica.list_types(4)?;
    Ok([
        have_type(replica, &[1, 2])?,
        are_taking(replica, 0, &[1])?,
        are_taking(replica, 1, &[])?,
    ])
}

/// Both of a new log that is filled.
fn places(replica: &mut Replica) -> Result<([bool; 4], [bool; 3]), OutOfMemory> {
    fill(replica)?;
    let asks = who_asks(replica)?;
    Ok((asks, who_takes(replica)?))
}

#[test]
fn rows_are_added_once_and_found_by_what_they_ask_and_take(rt: HostRuntime) -> Result<(), Fail> {
    let mut from = Interner::new(rt.alloc());
    let mut appended = Replica::new(rt.alloc());
    let mut added = Replica::new(rt.alloc());
    let rows = plain_rows(&mut from, &mut appended, &mut added);
    forget(from);
    forget(appended);
    forget(added);
    let mut replica = Replica::new(rt.alloc());
    let places = places(&mut replica);
    forget(replica);
    see(&rt, rows?, [true; 3], "once, again, added");
    see(&rt, places?, ([true; 4], [true; 3]), "places");
    Ok(())
}
