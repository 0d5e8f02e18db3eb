//! What is found, and what the types of a head lead to.

ghost use Rattle.std.specs.Prelude.{◌≡◌, ◌<◌, ◌≤◌, ◌++◌, ◌∷◌, ◌⊎◌, [], ℕ, List, length, map, take, Contains, IfOk, MatchOption, OnOk};
ghost use Rattle.std.specs.Bool.{OnTrue};
ghost use Rattle.hs_table.specs.Entries.{Env};
ghost use Rattle.hs_table.specs.Follows.{premises};
ghost use Rattle.hs_types.specs.Interned.{env_of_id, set_of_id};
ghost use Rattle.hs_replica.specs.Replica.{KeepsLog};
ghost use Rattle.hs_rules.specs.Order.{IsNoGreater};
ghost use Rattle.hs_rules.specs.Conclusions.{DeducedData};
ghost use Rattle.hs_rules.specs.Filling.{CanSearch, fixed_of, AreFilled};
ghost use Rattle.hs_rules.specs.Joins.{PartialData};
ghost use Rattle.hs_rules.specs.Found.{HeadData, seek, HasKnownNumbers, HaveEnvs, RowsAre, HasRowAt, HasNoGreater, Lowers, IsRowOf, HasRow, slots_of_head, HeadLeadsTo, IsDeducedBy, HasEnvFound, IsAlike};

use crate::deduced::Deduced;
use crate::grouping::{count_alike, group};
use crate::joining::{FEW, Partial, PartialList};
use crate::joins::joined;
use crate::order::compare;
use crate::search::{Filled, Search, Slots, fill};
use hs_replica::Replica;
use hs_scheme::OutOfMemory;
use hs_table::HeadBy;
use hs_types::{EnvId, Row, SetId, TyId};
use indexmap::IndexSet;
use smallvec::SmallVec;
use std::alloc::Global;
use std::cmp::Ordering;
use std::default::MadeWith;
use std::marker::Model;

/// Sets of types. Four of them lie in the value itself.
pub(crate) type Sets = SmallVec<SetId, 4>;

/// A type `s1 -> .. -> sk -> t` of the head of a point with k arguments.
#[derive(Drop)]
pub(crate) struct HeadType {
    pub(crate) by: HeadBy,
    /// What the head itself asks of the parameters.
    pub(crate) own: EnvId,
    pub(crate) sets: Sets,
    pub(crate) rest: TyId,
}

impl Model for HeadType {
    ghost use Rattle.hs_rules.specs.Found.{HeadData};

    ghost Value = { HeadData };

    ghost view = { λ a. record { by = a.by; own = a.own; sets = a.sets.items; rest = a.rest } };
}

impl MadeWith<Global> for HeadType {
    fn made_with(alloc: Global) -> HeadType {
        HeadType {
            by: HeadBy::Rule { place: 0 },
            own: EnvId::default(),
            sets: SmallVec::new(alloc),
            rest: TyId::default(),
        }
    }
}

/// Types of a head. Two of them lie in the value itself.
pub(crate) type HeadTypes = SmallVec<HeadType, 2>;

/// What is found, each row once, with the least support by which it was. The first few rows are looked
/// through one by one.
#[derive(Drop)]
pub(crate) struct Found {
    /// What is found, in the order in which the rows came.
    pub(crate) list: Vec<Deduced>,
    /// The rows behind the first `FEW`, in the same order.
    pub(crate) rows: IndexSet<Row>,
}

/// Nothing found.
pub(crate) fn none_found(alloc: Global) -> Found
    ensures list { result.list.items ≡ [] }
    ensures rows { result.rows.keys ≡ [] }
{
    Found {
        list: Vec::new(alloc),
        rows: IndexSet::new(alloc),
    }
}

/// Where one of these has the row.
fn position(list: &[Deduced], row: &Row) -> Option<usize>
    ensures { MatchOption result
        (Contains (map (λ d. d.row) list.now) row.now → ⊥)
        (λ place. HasRowAt list.now place row.now) }
{
    for (place, deduced) in list.iter().enumerate() {
        if deduced.row == *row {
            return Some(place);
        }
    }
    None
}

/// Where the row is found behind the first `FEW`.
fn find_behind(found: &Found, row: &Row) -> Option<usize>
    requires { RowsAre found.now.rows.keys found.now.list.items }
    ensures { MatchOption result
        (Contains found.now.rows.keys row.now → ⊥)
        (λ place. HasRowAt found.now.list.items place row.now) }
{
    match found.rows.get_index_of(row) {
        Some(place) => Some(FEW + place),
        None => None,
    }
}

/// Where what is found has this row, counted from 0. Takes constant time on average.
fn find_deduced(found: &Found, row: &Row) -> Option<usize>
    requires { RowsAre found.now.rows.keys found.now.list.items }
    ensures { MatchOption result
        (Contains (map (λ d. d.row) found.now.list.items) row.now → ⊥)
        (λ place. HasRowAt found.now.list.items place row.now) }
{
    let list = found.list.as_slice();
    if list.len() <= FEW {
        return position(list, row);
    }
    if let Some(place) = position(&list[..FEW], row) {
        return Some(place);
    }
    find_behind(found, row)
}

/// Keeps the lesser one of what it is deduced by and this support.
fn lower(
    alloc: Global,
    deduced: &mut Deduced,
    head: HeadBy,
    args: &[(u32, u32)],
) -> Result<(), OutOfMemory>
    ensures row { deduced.new.row ≡ deduced.old.row }
    ensures one { OnOk result ((deduced.new ≡ deduced.old)
        ⊎ (deduced.new.support ≡ record { head = head; args = args.now })) }
    ensures least { OnOk result (IsNoGreater (premises deduced.new.support) (premises deduced.old.support)) }
    ensures new_least { OnOk result (IsNoGreater (premises deduced.new.support)
        (premises (record { head = head; args = args.now }))) }
{
    let order = compare(head, args, deduced.head, deduced.args.as_slice());
    if order != Ordering::Less {
        return Ok(());
    }
    let lesser = args.to_vec(alloc)?;
    deduced.args = lesser;
    deduced.head = head;
    Ok(())
}

/// Keeps the row of what is found at this place, unless it is among the first few.
fn keep(rows: &mut IndexSet<Row>, place: usize, row: Row) -> Result<(), OutOfMemory>
    requires { Contains rows.old.keys row → ⊥ }
    ensures few { place < FEW → rows.new.keys ≡ rows.old.keys }
    ensures more { FEW ≤ place → OnOk result (rows.new.keys ≡ rows.old.keys ++ row ∷ []) }
{
    if place < FEW {
        return Ok(());
    }
    rows.insert(row)?;
    Ok(())
}

/// Adds what was deduced, whose row isn't there.
fn push_new(found: &mut Found, deduced: Deduced) -> Result<(), OutOfMemory>
    requires rows { RowsAre found.old.rows.keys found.old.list.items }
    requires absent { Contains (map (λ d. d.row) found.old.list.items) deduced.row → ⊥ }
    ensures rows { OnOk result (RowsAre found.new.rows.keys found.new.list.items) }
    ensures added { OnOk result (found.new.list.items ≡ found.old.list.items ++ deduced ∷ []) }
{
    let Deduced { row, head, args } = deduced;
    let key = Row {
        point: row.point,
        env: row.env,
        ty: row.ty,
    };
    keep(&mut found.rows, found.list.len(), key)?;
    found.list.push(Deduced { row, head, args })?;
    Ok(())
}

/// Adds the row with its support; where the row is there, with the lesser one.
///
/// Takes constant time on average, and a comparison of two supports where the row is there.
fn add_found(
    alloc: Global,
    found: &mut Found,
    row: Row,
    head: HeadBy,
    args: &[(u32, u32)],
) -> Result<(), OutOfMemory>
    requires { RowsAre found.old.rows.keys found.old.list.items }
    ensures rows { OnOk result (RowsAre found.new.rows.keys found.new.list.items) }
    ensures lowers { OnOk result (Lowers found.old.list.items found.new.list.items) }
    ensures only { OnOk result ((d : DeducedData) → Contains found.new.list.items d
        → Contains found.old.list.items d
        ⊎ (d ≡ record { row = row; support = record { head = head; args = args.now } })) }
    ensures there { OnOk result (HasNoGreater found.new.list.items row
        (record { head = head; args = args.now })) }
{
    let key = Row {
        point: row.point,
        env: row.env,
        ty: row.ty,
    };
    if let Some(place) = find_deduced(found, &key) {
        let there = &mut found.list[place];
        return lower(alloc, there, head, args);
    }
    let args = args.to_vec(alloc)?;
    push_new(found, Deduced { row, head, args })
}

/// Makes room for so many rows more, where some of them come behind the first few.
fn make_room(found: &mut Found, more: usize) -> Result<(), OutOfMemory>
    ensures rows { found.new.rows.keys ≡ found.old.rows.keys }
    ensures list { found.new.list.items ≡ found.old.list.items }
{
    if found.list.len().saturating_add(more) > FEW {
        found.rows.reserve(more)?;
    }
    Ok(())
}

/// Adds a row for each of these environments.
fn add_all(
    alloc: Global,
    found: &mut Found,
    point: u32,
    head: &HeadType,
    partials: &[Partial],
) -> Result<(), OutOfMemory>
    requires { RowsAre found.old.rows.keys found.old.list.items }
    ensures rows { OnOk result (RowsAre found.new.rows.keys found.new.list.items) }
    ensures lowers { OnOk result (Lowers found.old.list.items found.new.list.items) }
    ensures only { OnOk result ((d : DeducedData) → Contains found.new.list.items d
        → Contains found.old.list.items d
        ⊎ IsRowOf point head.now partials.now d) }
    ensures all { OnOk result ((x : PartialData) → Contains partials.now x
        → HasRow point head.now x found.new.list.items) }
{
    make_room(found, partials.len())?;
    let by = head.by;
    let ty = head.rest;
    for partial in partials {
        let row = Row {
            point,
            env: partial.env,
            ty,
        };
        add_found(alloc, found, row, by, partial.args.as_slice())?;
    }
    Ok(())
}

/// Adds a row for each of these environments by each of these types of the head, type by type, or so much of that
/// that more than so many are found. So no more come than of one type beyond it.
fn add_each(
    alloc: Global,
    found: &mut Found,
    point: u32,
    head: &HeadType,
    alike: &[HeadType],
    partials: &[Partial],
    most: usize,
) -> Result<(), OutOfMemory>
    requires { RowsAre found.old.rows.keys found.old.list.items }
    ensures rows { OnOk result (RowsAre found.new.rows.keys found.new.list.items) }
    ensures lowers { OnOk result (Lowers found.old.list.items found.new.list.items) }
    ensures only { OnOk result ((d : DeducedData) → Contains found.new.list.items d
        → Contains found.old.list.items d
        ⊎ ((h : HeadData) × Contains (head.now ∷ alike.now) h × IsRowOf point h partials.now d)) }
    ensures all { OnOk result (length found.new.list.items ≤ most
        → (h : HeadData) → Contains (head.now ∷ alike.now) h
        → (x : PartialData) → Contains partials.now x → HasRow point h x found.new.list.items) }
{
    add_all(alloc, found, point, head, partials)?;
    for other in alike {
        if found.list.len() > most {
            return Ok(());
        }
        add_all(alloc, found, point, other, partials)?;
    }
    Ok(())
}

/// How often the environments of a head's type are joined, at most.
const STEPS: usize = 22;

/// By what the number of environments that are joined for a slot grows from one time to the next.
const GROWTH: usize = 8;

/// Adds some of what one type of the head, and those that ask for the same, lead to with these slots: all of it
/// where it answers `true` and no more is found than the search asks for. When it answers so, no clause says: were
/// that never, joins would be made again, up to `STEPS` times, and then answered as want of memory. The
/// environments are listed in the list, whatever was there.
fn conclude_some(
    replica: &mut Replica,
    search: &Search,
    head: &HeadType,
    alike: &[HeadType],
    slots: &[Filled],
    most: usize,
    partials: &mut PartialList,
    found: &mut Found,
) -> Result<bool, OutOfMemory>
    requires search { CanSearch replica.old search.now.args.now search.now.limit search.now.fixed }
    requires head { HasKnownNumbers replica.old.ids search.now.args.now head.now }
    requires alike { (h : HeadData) → Contains alike.now h → IsAlike head.now h }
    requires envs { HaveEnvs (take search.now.limit replica.old.log) search.now.args.now
        (length (env_of_id replica.old.ids head.now.own)) }
    requires filled { AreFilled (take search.now.limit replica.old.log)
        (fixed_of replica.old.log search.now.fixed)
        (slots_of_head replica.old.ids search.now.args.now head.now) slots.now }
    requires rows { RowsAre found.old.rows.keys found.old.list.items }
    ensures rows { OnOk result (RowsAre found.new.rows.keys found.new.list.items) }
    ensures lowers { OnOk result (Lowers found.old.list.items found.new.list.items) }
    ensures only { OnOk result ((d : DeducedData) → Contains found.new.list.items d
        → Contains found.old.list.items d
        ⊎ ((h : HeadData) × Contains (head.now ∷ alike.now) h
        × IsDeducedBy replica.old.ids replica.new.ids replica.old.log (seek search.now) h d)) }
    ensures all { IfOk result (λ whole. OnTrue whole (length found.new.list.items ≤ search.now.most
        → (h : HeadData) → Contains (head.now ∷ alike.now) h → (args : List (ℕ × ℕ)) (env : Env) →
        HeadLeadsTo replica.old.ids replica.old.log (seek search.now) h args env →
        HasEnvFound replica.new.ids (seek search.now) h args env found.new.list.items)) }
    ensures kept { KeepsLog replica.old replica.new }
{
    partials.clear();
    let whole = joined(search.alloc, replica, head.own, slots, most, partials)?;
    let joins = partials.as_slice();
    add_each(
        search.alloc,
        found,
        search.point,
        head,
        alike,
        joins,
        search.most,
    )?;
    Ok(whole)
}

/// Adds what one type of the head, and those that ask for the same, lead to with these slots, or so much of it
/// that more than the search asks for is found. The environments are listed in the list, whatever was there.
///
/// They are joined again, with `GROWTH` times as many for each slot, where no more conclusions come of those
/// that were joined. The last of the `STEPS` times asks for 2^63 of them or more, which is more than a list
/// can hold, so the answer behind the loop never comes; where none is asked for, the first time finds one.
fn conclude_filled(
    replica: &mut Replica,
    search: &Search,
    head: &HeadType,
    alike: &[HeadType],
    slots: &[Filled],
    partials: &mut PartialList,
    found: &mut Found,
) -> Result<(), OutOfMemory>
    requires search { CanSearch replica.old search.now.args.now search.now.limit search.now.fixed }
    requires head { HasKnownNumbers replica.old.ids search.now.args.now head.now }
    requires known { (h : HeadData) → Contains alike.now h
        → HasKnownNumbers replica.old.ids search.now.args.now h }
    requires alike { (h : HeadData) → Contains alike.now h → IsAlike head.now h }
    requires envs { HaveEnvs (take search.now.limit replica.old.log) search.now.args.now
        (length (env_of_id replica.old.ids head.now.own)) }
    requires filled { AreFilled (take search.now.limit replica.old.log)
        (fixed_of replica.old.log search.now.fixed)
        (slots_of_head replica.old.ids search.now.args.now head.now) slots.now }
    requires rows { RowsAre found.old.rows.keys found.old.list.items }
    ensures rows { OnOk result (RowsAre found.new.rows.keys found.new.list.items) }
    ensures lowers { OnOk result (Lowers found.old.list.items found.new.list.items) }
    ensures only { OnOk result ((d : DeducedData) → Contains found.new.list.items d
        → Contains found.old.list.items d
        ⊎ ((h : HeadData) × Contains (head.now ∷ alike.now) h
        × IsDeducedBy replica.old.ids replica.new.ids replica.old.log (seek search.now) h d)) }
    ensures all { OnOk result (length found.new.list.items ≤ search.now.most
        → (h : HeadData) → Contains (head.now ∷ alike.now) h → (args : List (ℕ × ℕ)) (env : Env) →
        HeadLeadsTo replica.old.ids replica.old.log (seek search.now) h args env →
        HasEnvFound replica.new.ids (seek search.now) h args env found.new.list.items) }
    ensures kept { KeepsLog replica.old replica.new }
{
    let mut most = search.most;
    for _ in 0..STEPS {
        let whole = conclude_some(replica, search, head, alike, slots, most, partials, found)?;
        if whole || found.list.len() > search.most {
            return Ok(());
        }
        most = most.saturating_mul(GROWTH);
    }
    Err(OutOfMemory)
}

/// Adds what one type of the head, and those that ask for the same, lead to, or so much of it that more than the
/// search asks for is found. That is joined once for all of them. The slots and their environments are listed in
/// the two lists, whatever was there.
fn conclude(
    replica: &mut Replica,
    search: &Search,
    head: &HeadType,
    alike: &[HeadType],
    slots: &mut Slots,
    partials: &mut PartialList,
    found: &mut Found,
) -> Result<(), OutOfMemory>
    requires search { CanSearch replica.old search.now.args.now search.now.limit search.now.fixed }
    requires head { HasKnownNumbers replica.old.ids search.now.args.now head.now }
    requires known { (h : HeadData) → Contains alike.now h
        → HasKnownNumbers replica.old.ids search.now.args.now h }
    requires alike { (h : HeadData) → Contains alike.now h → IsAlike head.now h }
    requires envs { HaveEnvs (take search.now.limit replica.old.log) search.now.args.now
        (length (env_of_id replica.old.ids head.now.own)) }
    requires rows { RowsAre found.old.rows.keys found.old.list.items }
    ensures rows { OnOk result (RowsAre found.new.rows.keys found.new.list.items) }
    ensures lowers { OnOk result (Lowers found.old.list.items found.new.list.items) }
    ensures only { OnOk result ((d : DeducedData) → Contains found.new.list.items d
        → Contains found.old.list.items d
        ⊎ ((h : HeadData) × Contains (head.now ∷ alike.now) h
        × IsDeducedBy replica.old.ids replica.new.ids replica.old.log (seek search.now) h d)) }
    ensures all { OnOk result (length found.new.list.items ≤ search.now.most
        → (h : HeadData) → Contains (head.now ∷ alike.now) h → (args : List (ℕ × ℕ)) (env : Env) →
        HeadLeadsTo replica.old.ids replica.old.log (seek search.now) h args env →
        HasEnvFound replica.new.ids (seek search.now) h args env found.new.list.items) }
    ensures kept { KeepsLog replica.old replica.new }
{
    slots.clear();
    let sets = head.sets.as_slice();
    let complete = fill(replica, search, sets, slots)?;
    if !complete {
        return Ok(());
    }
    let filled = slots.as_slice();
    conclude_filled(replica, search, head, alike, filled, partials, found)
}

/// Adds what these types of the head lead to, or so much of it that more than the search asks for is found. Those
/// in a row that ask for the same are joined once.
fn conclude_grouped(
    replica: &mut Replica,
    search: &Search,
    heads: &[HeadType],
    found: &mut Found,
) -> Result<(), OutOfMemory>
    requires search { CanSearch replica.old search.now.args.now search.now.limit search.now.fixed }
    requires heads { (h : HeadData) → Contains heads.now h
        → HasKnownNumbers replica.old.ids search.now.args.now h }
    requires envs { (h : HeadData) → Contains heads.now h →
        HaveEnvs (take search.now.limit replica.old.log) search.now.args.now
        (length (env_of_id replica.old.ids h.own)) }
    requires rows { RowsAre found.old.rows.keys found.old.list.items }
    ensures rows { OnOk result (RowsAre found.new.rows.keys found.new.list.items) }
    ensures lowers { OnOk result (Lowers found.old.list.items found.new.list.items) }
    ensures only { OnOk result ((d : DeducedData) → Contains found.new.list.items d
        → Contains found.old.list.items d
        ⊎ ((h : HeadData) × Contains heads.now h
        × IsDeducedBy replica.old.ids replica.new.ids replica.old.log (seek search.now) h d)) }
    ensures all { OnOk result (length found.new.list.items ≤ search.now.most
        → (h : HeadData) → Contains heads.now h → (args : List (ℕ × ℕ)) (env : Env) →
        HeadLeadsTo replica.old.ids replica.old.log (seek search.now) h args env →
        HasEnvFound replica.new.ids (seek search.now) h args env found.new.list.items) }
    ensures kept { KeepsLog replica.old replica.new }
{
    let mut slots = SmallVec::new(search.alloc);
    let mut partials = SmallVec::new(search.alloc);
    let mut done = 0;
    while done < heads.len() {
        let head = &heads[done];
        let others = &heads[done + 1..];
        let count = count_alike(head, others);
        let alike = &others[..count];
        conclude(
            replica,
            search,
            head,
            alike,
            &mut slots,
            &mut partials,
            found,
        )?;
        if found.list.len() > search.most {
            return Ok(());
        }
        done += 1 + count;
    }
    Ok(())
}

/// Adds what these types of the head lead to, or so much of it that more than the search asks for is found. They
/// come into another order, in which those that ask for the same stand side by side.
pub(crate) fn conclude_all(
    replica: &mut Replica,
    search: &Search,
    heads: &mut [HeadType],
    found: &mut Found,
) -> Result<(), OutOfMemory>
    requires search { CanSearch replica.old search.now.args.now search.now.limit search.now.fixed }
    requires heads { (h : HeadData) → Contains heads.old h
        → HasKnownNumbers replica.old.ids search.now.args.now h }
    requires envs { (h : HeadData) → Contains heads.old h →
        HaveEnvs (take search.now.limit replica.old.log) search.now.args.now
        (length (env_of_id replica.old.ids h.own)) }
    requires rows { RowsAre found.old.rows.keys found.old.list.items }
    ensures rows { OnOk result (RowsAre found.new.rows.keys found.new.list.items) }
    ensures lowers { OnOk result (Lowers found.old.list.items found.new.list.items) }
    ensures only { OnOk result ((d : DeducedData) → Contains found.new.list.items d
        → Contains found.old.list.items d
        ⊎ ((h : HeadData) × Contains heads.old h
        × IsDeducedBy replica.old.ids replica.new.ids replica.old.log (seek search.now) h d)) }
    ensures all { OnOk result (length found.new.list.items ≤ search.now.most
        → (h : HeadData) → Contains heads.old h → (args : List (ℕ × ℕ)) (env : Env) →
        HeadLeadsTo replica.old.ids replica.old.log (seek search.now) h args env →
        HasEnvFound replica.new.ids (seek search.now) h args env found.new.list.items) }
    ensures kept { KeepsLog replica.old replica.new }
{
    if heads.is_empty() {
        return Ok(());
    }
    group(heads);
    conclude_grouped(replica, search, heads, found)
}
