//! How places come into the lists of their points.

ghost use Rattle.std.specs.Prelude.{◌≡◌, ◌+◌, ◌^◌, ◌<◌, ◌≤◌, OnOk, length};
ghost use Rattle.hs_replica.specs.Index.{list_at, KeepsIndex};

use crate::key::Key;
use crate::lists::{Lists, add_once};
use hs_scheme::OutOfMemory;
use hs_types::Row;

/// Lists the place by its point.
fn add_place(lists: &mut Lists, rows: &[Row], place: u32) -> Result<(), OutOfMemory>
    requires place { place < length rows.now }
    ensures index { KeepsIndex rows.now place place (list_at lists.old)
        (list_at lists.new) }
    ensures ok { OnOk result (KeepsIndex rows.now place (place + 1)
        (list_at lists.old) (list_at lists.new)) }
{
    let row = rows[place as usize];
    add_once(lists, Key::At(row.point), place)?;
    Ok(())
}

/// Lists the places from `indexed` on. After a refusal of memory `indexed` says how many are listed.
pub(crate) fn add_places(
    lists: &mut Lists,
    rows: &[Row],
    indexed: &mut u32,
) -> Result<(), OutOfMemory>
    requires short { length rows.now < 2 ^ 32 }
    requires within { indexed.old ≤ length rows.now }
    ensures ok { OnOk result (indexed.new ≡ length rows.now) }
    ensures more { indexed.old ≤ indexed.new }
    ensures within { indexed.new ≤ length rows.now }
    ensures index { KeepsIndex rows.now indexed.old indexed.new
        (list_at lists.old) (list_at lists.new) }
{
    while (*indexed as usize) < rows.len() {
        add_place(lists, rows, *indexed)?;
        *indexed += 1;
    }
    Ok(())
}
