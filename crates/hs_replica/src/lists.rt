//! Lists of places by key.

ghost use Rattle.std.specs.Prelude.{◌≡◌, [], ℕ, ◌<◌, ◌-◌, ◌↔◌, length, slice_get, Some, IsTrue, Contains, IfOk, OnOk};
ghost use Rattle.std.specs.List.Sorted.{IsStrictlyIncreasing};
ghost use Rattle.hs_replica.specs.Index.{list_at, row_at, keyed_at, RisesTo, AddsTo, AddsAt};

use crate::key::Key;
use hs_scheme::OutOfMemory;
use indexmap::IndexMap;
use smallvec::SmallVec;
use std::alloc::Global;

/// Places of the log, ascending. Up to four of them lie in the value itself.
pub type Places = SmallVec<u32, 4>;

/// For each key its places: those of a point by its number, and the others in a table.
#[derive(Drop)]
pub(crate) struct Lists {
    at: Vec<Places>,
    keyed: IndexMap<Key, Places>,
}

impl Lists {
    /// No places. Takes no memory.
    pub(crate) fn new(alloc: Global) -> Lists
        ensures at { result.at.items ≡ [] }
        ensures keyed { result.keyed.entries ≡ [] }
    {
        Lists {
            at: Vec::new(alloc),
            keyed: IndexMap::new(alloc),
        }
    }

    /// Takes all places out, and keeps the memory.
    pub(crate) fn clear(&mut self)
        ensures at { self.new.at.items ≡ [] }
        ensures keyed { self.new.keyed.entries ≡ [] }
    {
        self.at.clear();
        self.keyed.clear();
    }
}

/// Whether the place is the last of the list.
fn ends_with(list: &[u32], place: u32) -> bool
    ensures { IsTrue result ↔ (slice_get list.now (length list.now - 1) ≡ Some place) }
{
    match list.last() {
        Some(last) => *last == place,
        None => false,
    }
}

/// Whether the place is the first of the list.
fn begins_with(list: &[u32], place: u32) -> bool
    ensures { IsTrue result ↔ (slice_get list.now 0 ≡ Some place) }
{
    match list.first() {
        Some(first) => *first == place,
        None => false,
    }
}

/// Adds the place to the list, unless it is the last there, and tells whether it is the first.
fn push_once(list: &mut Places, place: u32) -> Result<bool, OutOfMemory>
    ensures adds { AddsTo place list.old.items list.new.items }
    ensures there { OnOk result (Contains list.new.items place) }
    ensures first { IfOk result (λ first. IsTrue first ↔ (slice_get list.new.items 0 ≡ Some place)) }
{
    if !ends_with(list.as_slice(), place) {
        list.push(place)?;
    }
    Ok(begins_with(list.as_slice(), place))
}

/// Adds empty lists until the point has one.
fn lengthen(at: &mut Vec<Places>, point: u32) -> Result<(), OutOfMemory>
    ensures same { (p : ℕ) → row_at at.new.items p ≡ row_at at.old.items p }
    ensures long { OnOk result (point < length at.new.items) }
{
    while at.len() <= point as usize {
        at.push(SmallVec::new(*at.allocator()))?;
    }
    Ok(())
}

/// Adds the place to the list of this point, unless it is the last there, and tells whether it is
/// the first.
fn add_at(at: &mut Vec<Places>, point: u32, place: u32) -> Result<bool, OutOfMemory>
    ensures adds { AddsAt point place (row_at at.old.items) (row_at at.new.items) }
    ensures there { OnOk result (Contains (row_at at.new.items point) place) }
    ensures first { IfOk result (λ first. IsTrue first ↔ (slice_get (row_at at.new.items point) 0
        ≡ Some place)) }
{
    lengthen(at, point)?;
    let list = &mut at[point as usize];
    push_once(list, place)
}

/// Adds the place to the list of this key in the table, unless it is the last there, and tells
/// whether it is the first.
fn add_keyed(keyed: &mut IndexMap<Key, Places>, key: Key, place: u32) -> Result<bool, OutOfMemory>
    ensures adds { AddsAt key place (keyed_at keyed.old) (keyed_at keyed.new) }
    ensures there { OnOk result (Contains (keyed_at keyed.new key) place) }
    ensures first { IfOk result (λ first. IsTrue first ↔ (slice_get (keyed_at keyed.new key) 0
        ≡ Some place)) }
{
    let none = SmallVec::new(*keyed.allocator());
    let list = keyed.entry(key)?.or_insert(none);
    push_once(list, place)
}

/// Adds the place to the list of this key, unless it is the last there, and tells whether it is the
/// first.
pub(crate) fn add_once(lists: &mut Lists, key: Key, place: u32) -> Result<bool, OutOfMemory>
    ensures adds { AddsAt key place (list_at lists.old) (list_at lists.new) }
    ensures there { OnOk result (Contains (list_at lists.new key) place) }
    ensures first { IfOk result (λ first. IsTrue first ↔ (slice_get (list_at lists.new key) 0
        ≡ Some place)) }
{
    match key {
        Key::At(point) => add_at(&mut lists.at, point, place),
        _ => add_keyed(&mut lists.keyed, key, place),
    }
}

/// The places of this key in the table.
fn keyed_of(keyed: &IndexMap<Key, Places>, key: Key) -> &[u32]
    ensures { result.now ≡ keyed_at keyed.now key }
{
    match keyed.get(&key) {
        Some(list) => list.as_slice(),
        None => &[],
    }
}

/// The places of this point.
fn row_of(at: &[Places], point: u32) -> &[u32]
    ensures { result.now ≡ row_at at.now point }
{
    match at.get(point as usize) {
        Some(list) => list.as_slice(),
        None => &[],
    }
}

/// The places of this key.
pub(crate) fn list_of(lists: &Lists, key: Key) -> &[u32]
    ensures { result.now ≡ list_at lists.now key }
{
    match key {
        Key::At(point) => row_of(lists.at.as_slice(), point),
        _ => keyed_of(&lists.keyed, key),
    }
}

/// The numbers of the list that are below `end`, of which none is above it.
pub(crate) fn below(list: &[u32], end: u32) -> &[u32]
    requires { RisesTo end list.now }
    ensures ascending { IsStrictlyIncreasing result.now }
    ensures exact { (i : ℕ) → Contains result.now i ↔ ((i < end) × Contains list.now i) }
{
    if ends_with(list, end) {
        &list[..list.len() - 1]
    } else {
        list
    }
}
