//! Places of the entries that answer a question.

ghost use Rattle.std.specs.Prelude.{◌≡◌, ◌<◌, ℕ, List, Some, IfOk, OnOk, length, slice_get};
ghost use Rattle.hs_table.specs.Entries.{EntryData};
ghost use Rattle.hs_types.specs.Interned.{type_of_id};
ghost use Rattle.hs_replica.specs.Places.{here, typed, asks, takes, IsFirstLike, ArePlaces};
ghost use Rattle.hs_replica.specs.Replica.{typed_to, ListsMore};
ghost use Rattle.hs_replica.specs.Index.{question, IsKey, IsByType};

use crate::asking::add_asks;
use crate::key::Key;
use crate::lists::{Places, below, list_of};
use crate::reaching::number_of;
use crate::replica::Replica;
use crate::typing::add_types;
use hs_scheme::OutOfMemory;
use hs_types::TyId;
use smallvec::SmallVec;

/// Each entry of a log has a first one with its point and its type, so that `taking` misses no type.
/// A law; does nothing.
pub fn each_entry_has_a_first()
    ensures { (log : List EntryData) (i : ℕ) (e : EntryData) → slice_get log i ≡ Some e
        → IsFirstLike log i e }
{}

impl Replica {
    /// The places of the entries at this point, ascending, of those that are indexed. Takes no
    /// memory, and constant time.
    pub fn at_point(&self, point: u32) -> &[u32]
        ensures { ArePlaces self.now.log self.now.indexed (here point) result.now }
    {
        self.interner.know_numbers();
        below(list_of(&self.lists, Key::At(point)), self.indexed)
    }

    /// Makes `with_type` and `taking` tell of all that are indexed of the entries at this point. After
    /// a refusal of memory they tell of as much as before or of more, and the next call goes on from
    /// there.
    ///
    /// This lists the entries at the point that were indexed since it was last called for it, each by
    /// its type and, where it is the first with that, by each type in the sets of its type. So a point
    /// whose types are never asked about costs nothing. Time is in proportion to what is listed, with a
    /// binary search in the places of the point for each of these entries; it is constant where nothing
    /// was indexed since. A point takes 4 bytes, and so does each below it.
    pub fn list_types(&mut self, point: u32) -> Result<(), OutOfMemory>
        ensures ok { OnOk result (typed_to self.new point ≡ self.new.indexed) }
        ensures kept { ListsMore self.old self.new }
    {
        if number_of(self.by_type.as_slice(), point) == self.indexed {
            return Ok(());
        }
        add_types(
            &mut self.lists,
            &mut self.by_type,
            self.interner.interner(),
            self.rows.as_slice(),
            self.indexed,
            point,
        )
    }

    /// The places that are listed by this key, which is about the types at this point.
    fn places(&self, point: u32, key: Key) -> &[u32]
        requires known { IsKey self.now.ids key }
        requires by_type { IsByType point key }
        ensures { ArePlaces self.now.log (typed_to self.now point) (question self.now.ids key) result.now }
    {
        self.interner.know_numbers();
        let end = number_of(self.by_type.as_slice(), point);
        below(list_of(&self.lists, key), end)
    }

    /// The places of the entries at this point with this type, ascending, of those that `list_types`
    /// has listed there. This and `taking` take no memory, and constant time on average.
    pub fn with_type(&self, point: u32, ty: TyId) -> &[u32]
        requires { ty < length self.now.ids.types }
        ensures { ArePlaces self.now.log (typed_to self.now point)
            (typed point (type_of_id self.now.ids ty)) result.now }
    {
        self.places(point, Key::Typed(point, ty))
    }

    /// The places of the entries at this point whose type takes as this argument, counted from 0,
    /// something with this type, of those that `list_types` has listed there: of each such type the
    /// first place.
    pub fn taking(&self, point: u32, arg: u32, ty: TyId) -> &[u32]
        requires { ty < length self.now.ids.types }
        ensures { ArePlaces self.now.log (typed_to self.now point)
            (takes point arg (type_of_id self.now.ids ty)) result.now }
    {
        self.places(point, Key::Taking(point, arg, ty))
    }

    /// The places of the entries at this point whose type is a state, and whose environment has
    /// this type at this parameter, counted from 0.
    ///
    /// What environments ask for is listed for a point when it is asked about: this lists first the
    /// entries at the point that were indexed since it was last called for it, so a point that is
    /// never asked about costs nothing. Time is in proportion to the types in their environments and
    /// to the places of the result, with a binary search in the places of the point for each of these
    /// entries. After a refusal of memory the next call goes on from there.
    pub fn asking(&mut self, point: u32, param: u32, ty: TyId) -> Result<Places, OutOfMemory>
        requires { ty < length self.old.ids.types }
        ensures exact { IfOk result (λ places. ArePlaces self.old.log self.old.indexed
            (asks point param (type_of_id self.old.ids ty)) places.items) }
        ensures kept { self.new ≡ self.old }
    {
        self.interner.know_numbers();
        add_asks(
            &mut self.lists,
            &mut self.asked,
            self.interner.interner(),
            self.rows.as_slice(),
            self.indexed,
            point,
        )?;
        let list = list_of(&self.lists, Key::Asking(point, param, ty));
        let places = SmallVec::from_slice(*self.asked.allocator(), below(list, self.indexed))?;
        Ok(places)
    }
}
