//! How places come into the lists of what environments ask for, when their point is asked about.

ghost use Rattle.std.specs.Prelude.{◌≡◌, ◌<◌, ◌≤◌, All, IfOk, OnOk, length};
ghost use Rattle.hs_types.specs.Interned.{set_of_id, env_of_id, IsRow};
ghost use Rattle.hs_replica.specs.Index.{list_at, log_of, IsAskedIndex, KeepsAsked, HasAsked, Gains, ListsAll, AsksAt, AsksIn, AsksBy};

use crate::key::Key;
use crate::lists::{Lists, add_once};
use crate::reaching::{lengthen, next_at};
use hs_scheme::OutOfMemory;
use hs_types::{EnvId, Interner, Row, SetId, View};

/// Lists the place under each type of the set, as asked for at this parameter.
fn add_asked(
    lists: &mut Lists,
    interner: &Interner,
    point: u32,
    param: u32,
    set: SetId,
    place: u32,
) -> Result<(), OutOfMemory>
    requires { set < length interner.now.sets }
    ensures gains { Gains interner.now (AsksAt point param (set_of_id interner.now set)) place
        (list_at lists.old) (list_at lists.new) }
    ensures all { OnOk result (ListsAll interner.now (AsksAt point param (set_of_id interner.now set)) place
        (list_at lists.new)) }
{
    for ty in interner.members(set) {
        add_once(lists, Key::Asking(point, param, *ty), place)?;
    }
    Ok(())
}

/// The parameter's number in 4 bytes, or want of memory where there are more.
fn numbered(param: usize) -> Result<u32, OutOfMemory>
    ensures { IfOk result (λ number. number ≡ param) }
{
    if param > u32::MAX as usize {
        return Err(OutOfMemory);
    }
    Ok(param as u32)
}

/// Lists the place under all that the environment asks for.
fn add_asking(
    lists: &mut Lists,
    interner: &Interner,
    point: u32,
    env: EnvId,
    place: u32,
) -> Result<(), OutOfMemory>
    requires { env < length interner.now.envs }
    ensures gains { Gains interner.now (AsksIn point (env_of_id interner.now env)) place (list_at lists.old)
        (list_at lists.new) }
    ensures all { OnOk result (ListsAll interner.now (AsksIn point (env_of_id interner.now env)) place
        (list_at lists.new)) }
{
    for (param, set) in interner.sets(env).iter().enumerate() {
        let number = numbered(param)?;
        add_asked(lists, interner, point, number, *set, place)?;
    }
    Ok(())
}

/// Lists the place under what its row's environment asks for, where its type is a state.
fn add_row(lists: &mut Lists, interner: &Interner, row: Row, place: u32) -> Result<(), OutOfMemory>
    requires { IsRow interner.now row }
    ensures gains { Gains interner.now (AsksBy interner.now row) place (list_at lists.old)
        (list_at lists.new) }
    ensures all { OnOk result (ListsAll interner.now (AsksBy interner.now row) place (list_at lists.new)) }
{
    if let View::State(_) = interner.view(row.ty) {
        return add_asking(lists, interner, row.point, row.env, place);
    }
    Ok(())
}

/// Lists the places of the point, of the first `indexed`, under what their entries ask for. `asked`
/// says for each point how many places of the log that has been done for, so it goes on from there,
/// and after a refusal of memory it tells how far this came.
pub(crate) fn add_asks(
    lists: &mut Lists,
    asked: &mut Vec<u32>,
    interner: &Interner,
    rows: &[Row],
    indexed: u32,
    point: u32,
) -> Result<(), OutOfMemory>
    requires rows { All (IsRow interner.now) rows.now }
    requires within { indexed ≤ length rows.now }
    requires index { IsAskedIndex interner.now (log_of interner.now rows.now) indexed asked.old.items
        (list_at lists.old) }
    ensures index { KeepsAsked interner.now (log_of interner.now rows.now) indexed asked.old.items
        asked.new.items (list_at lists.old) (list_at lists.new) }
    ensures ok { OnOk result (HasAsked interner.now (log_of interner.now rows.now) indexed point
        (list_at lists.new)) }
{
    interner.know_numbers();
    lengthen(asked, point)?;
    while let Some(place) = next_at(lists, point, asked[point as usize], indexed) {
        asked[point as usize] = place;
        add_row(lists, interner, rows[place as usize], place)?;
        asked[point as usize] = place + 1;
    }
    Ok(())
}
