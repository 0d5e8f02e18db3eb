//! The environments of the entries that follow by one type of a head: for each type of its sets a row is
//! chosen, and what they ask is joined. Environments are kept once each.

ghost use Rattle.std.specs.Prelude.{◌≡◌, ◌<◌, ◌↔◌, ◌⊎◌, ℕ, length, map, slice_index_or, Contains, IfOk, OnOk};
ghost use Rattle.std.specs.Borrow.{Bor};
ghost use Rattle.std.specs.List.{flat_map};
ghost use Rattle.std.specs.Ordering.{nat_cmp};
ghost use Rattle.hs_table.specs.Entries.{EntryData};
ghost use Rattle.hs_table_plain.specs.Enumeration as plain;
ghost use Rattle.hs_types.specs.Interned.{type_of_id, set_of_id, env_of_id, RowData, IsRow, Grows};
ghost use Rattle.hs_checker.specs.Any.{AnyOf};
ghost use Rattle.hs_checker.specs.Numbers.{entries_of, opened_by, AreRows, AreEnvs, AreLong, AreRowsFor, IsJoined};

use crate::index::RowIndex;
use hs_scheme::OutOfMemory;
use hs_types::{EnvId, Interner, Row, SetId, TyId, View};
use std::alloc::Global;
use std::cmp::Ordering;

/// How many unions are kept before repeats among them are dropped.
const ROOM: usize = 1_024;

/// Adds the union of each of the environments with that of the row.
fn add_unions(
    types: &mut Interner,
    kept: &[EnvId],
    row: &Row,
    found: &mut Vec<EnvId>,
) -> Result<(), OutOfMemory>
    requires row { IsRow types.old row.now }
    requires kept { AreEnvs (length (env_of_id types.old row.now.env)) types.old kept.now }
    requires found { AreEnvs (length (env_of_id types.old row.now.env)) types.old found.old.items }
    ensures range { OnOk result (AreEnvs (length (env_of_id types.old row.now.env)) types.new found.new.items) }
    ensures each { OnOk result ((u : ℕ) (e : EntryData) → Contains (opened_by types.new u found.new.items) e
        ↔ (Contains (opened_by types.old u found.old.items) e
        ⊎ IsJoined types.old u kept.now row.now e)) }
    ensures grows { OnOk result (Grows types.old types.new) }
{
    types.know_numbers();
    for env in kept {
        found.push(types.union_envs(*env, row.env)?)?;
    }
    Ok(())
}

/// The order of environments' numbers.
fn order(env: &EnvId, other: &EnvId) -> Ordering
    ensures { result ≡ nat_cmp env.now other.now }
{
    env.number().cmp(&other.number())
}

/// The environments, but for those that are the same as the one before.
fn drop_repeats(found: &mut Vec<EnvId>)
    ensures { (k : ℕ) → Contains found.new.items k ↔ Contains found.old.items k }
{
    found.dedup_by(|a, b| order(a, b) == Ordering::Equal);
}

/// The environments in the order of their numbers, each once. Many stand side by side already where they come of
/// one environment and some rows, so repeats are dropped before the sorting, too.
fn thin(found: &mut Vec<EnvId>) -> Result<(), OutOfMemory>
    ensures { OnOk result ((k : ℕ) → Contains found.new.items k ↔ Contains found.old.items k) }
{
    drop_repeats(found);
    if found.len() < 2 {
        return Ok(());
    }
    found.sort_by(|a, b| order(a, b))?;
    drop_repeats(found);
    Ok(())
}

/// The same, where there are more environments than there is room for. Gives the room for the next ones,
/// which is at least twice as many as are left, so that the sorting takes little more than once.
fn thin_past(found: &mut Vec<EnvId>, room: usize) -> Result<usize, OutOfMemory>
    ensures { OnOk result ((k : ℕ) → Contains found.new.items k ↔ Contains found.old.items k) }
{
    if found.len() <= room {
        return Ok(room);
    }
    thin(found)?;
    Ok(found.len().saturating_mul(2).max(ROOM))
}

/// The unions of each of the environments with that of each row, each once.
fn unions_with(
    alloc: Global,
    types: &mut Interner,
    kept: &[EnvId],
    rows: &[&Row],
) -> Result<Vec<EnvId>, OutOfMemory>
    requires rows { AreRows types.old (map (λ r. r.now) rows.now) }
    requires long { (n : ℕ) × (AreEnvs n types.old kept.now × AreRowsFor n types.old rows.now) }
    ensures range { IfOk result (λ found. (n : ℕ) → AreEnvs n types.old kept.now
        → AreRowsFor n types.old rows.now → AreEnvs n types.new found.items) }
    ensures each { IfOk result (λ found. (u : ℕ) (e : EntryData) → Contains (opened_by types.new u found.items) e
        ↔ AnyOf (λ (r : Bor RowData) y. IsJoined types.old u kept.now r.now y) rows.now e) }
    ensures grows { OnOk result (Grows types.old types.new) }
{
    let mut found = Vec::new(alloc);
    let mut room = ROOM;
    for row in rows {
        add_unions(types, kept, row, &mut found)?;
        room = thin_past(&mut found, room)?;
    }
    thin(&mut found)?;
    Ok(found)
}

/// The unions of each of the environments with that of each row for the type at the argument, each once.
fn extended(
    alloc: Global,
    types: &mut Interner,
    index: &RowIndex,
    arg: u32,
    ty: TyId,
    kept: &[EnvId],
) -> Result<Vec<EnvId>, OutOfMemory>
    requires rows { AreRows types.old index.now }
    requires ty { ty < length types.old.types }
    requires long { (n : ℕ) × (AreEnvs n types.old kept.now × AreLong n (entries_of types.old index.now) arg) }
    ensures range { IfOk result (λ found. (n : ℕ) → AreEnvs n types.old kept.now
        → AreLong n (entries_of types.old index.now) arg → AreEnvs n types.new found.items) }
    ensures each { IfOk result (λ found. (u : ℕ) (e : EntryData) → Contains (opened_by types.new u found.items) e
        ↔ Contains (flat_map (λ x. flat_map (plain.extended arg (type_of_id types.old ty) x)
        (entries_of types.old index.now)) (opened_by types.old u kept.now)) e) }
    ensures grows { OnOk result (Grows types.old types.new) }
{
    types.know_numbers();
    unions_with(alloc, types, kept, index.at(arg, ty))
}

/// The type at the place of the set, counted from 0.
fn member(types: &Interner, set: SetId, place: usize) -> TyId
    requires set { set < length types.now.sets }
    requires place { place < length (set_of_id types.now set) }
    ensures range { result < length types.now.types }
    ensures is { type_of_id types.now result ≡ slice_index_or (set_of_id types.now set) place
        (type_of_id types.now result) }
{
    types.members(set)[place]
}

/// How many types the set has.
fn size(types: &Interner, set: SetId) -> usize
    requires { set < length types.now.sets }
    ensures { result ≡ length (set_of_id types.now set) }
{
    types.members(set).len()
}

/// The unions of each of the environments with that of one row for each type of the set at the argument,
/// each once.
fn picks(
    alloc: Global,
    types: &mut Interner,
    index: &RowIndex,
    arg: u32,
    set: SetId,
    kept: Vec<EnvId>,
) -> Result<Vec<EnvId>, OutOfMemory>
    requires rows { AreRows types.old index.now }
    requires set { set < length types.old.sets }
    requires long { (n : ℕ) × (AreEnvs n types.old kept.items × AreLong n (entries_of types.old index.now) arg) }
    ensures range { IfOk result (λ found. (n : ℕ) → AreEnvs n types.old kept.items
        → AreLong n (entries_of types.old index.now) arg → AreEnvs n types.new found.items) }
    ensures each { IfOk result (λ found. (u : ℕ) (e : EntryData) → Contains (opened_by types.new u found.items) e
        ↔ Contains (plain.picks (entries_of types.old index.now) arg (set_of_id types.old set)
        (opened_by types.old u kept.items)) e) }
    ensures grows { OnOk result (Grows types.old types.new) }
{
    let mut found = kept;
    for place in 0..size(types, set) {
        let ty = member(types, set, place);
        found = extended(alloc, types, index, arg, ty, found.as_slice())?;
    }
    Ok(found)
}

/// Entries at one point, with one type, that follow there.
#[derive(Drop)]
pub(crate) struct Following {
    /// The type of all.
    pub(crate) ty: TyId,
    /// Their environments.
    pub(crate) envs: Vec<EnvId>,
}

/// The environments joined with that of one row for each type of each argument's set, and the type that is
/// left. Recurses as deep as the type.
///
/// Time is in the number of distinct partial results, times that of the rows that they meet.
pub(crate) fn through(
    alloc: Global,
    types: &mut Interner,
    index: &RowIndex,
    args: &[u32],
    ty: TyId,
    kept: Vec<EnvId>,
) -> Result<Following, OutOfMemory>
    requires rows { AreRows types.old index.now }
    requires ty { ty < length types.old.types }
    requires long { (n : ℕ) × (AreEnvs n types.old kept.items × ((u : ℕ) → Contains args.now u
        → AreLong n (entries_of types.old index.now) u)) }
    ensures ty { IfOk result (λ found. found.ty < length types.new.types) }
    ensures range { IfOk result (λ found. (k : ℕ) → Contains found.envs.items k → k < length types.new.envs) }
    ensures each { IfOk result (λ found. (u : ℕ) (e : EntryData) →
        Contains (map (plain.retyped (type_of_id types.new found.ty)) (opened_by types.new u found.envs.items)) e
        ↔ Contains (plain.through (entries_of types.old index.now) args.now (type_of_id types.old ty)
        (opened_by types.old u kept.items)) e) }
    ensures grows { OnOk result (Grows types.old types.new) }
{
    let Some(arg) = args.first() else {
        return Ok(Following { ty, envs: kept });
    };
    match types.view(ty) {
        View::State(_) => Ok(Following {
            ty,
            envs: Vec::new(alloc),
        }),
        View::Arrow(set, rest) => {
            let chosen = picks(alloc, types, index, *arg, set, kept)?;
            through(alloc, types, index, &args[1..], rest, chosen)
        }
    }
}
