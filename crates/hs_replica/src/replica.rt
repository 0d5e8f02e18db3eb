//! The log.

ghost use Rattle.std.specs.Prelude.{◌≡◌, ◌+◌, ◌-◌, ◌^◌, ◌<◌, ◌≤◌, ◌++◌, ◌∷◌, [], length, max, slice_get, Some, Contains, IfNone, IfOk, IfSome, OnErr, OnOk};
ghost use mathlib.Core.List.{IsPrefix};
ghost use Rattle.hs_types.specs.Interned.{IsRow, entry_of, Grows};
ghost use Rattle.hs_types.specs.Translations.{AreFound};
ghost use Rattle.hs_replica.specs.Replica.{IsReplica, KeepsLog};
ghost use Rattle.hs_replica.specs.Extending.{CanExtend, extended};

use crate::indexing::add_places;
use crate::lists::Lists;
use crate::masked::MaskedInterner;
use hs_scheme::OutOfMemory;
use hs_types::{ImportedNumbers, Interner, Row};
use indexmap::IndexSet;
use std::alloc::Global;
use std::marker::Model;

/// A log of entries without repeats, each a row of three numbers, with the interner that reads
/// them. It finds the place of an entry, and the places of entries by their point, by their type, by
/// what they ask of a parameter and by what they take as an argument. It also counts what joins over it
/// cost, for those who choose what to do next.
///
/// Contracts see the entries themselves, and how many can be added without memory. An entry takes a
/// row of 12 bytes and about as much again for finding it, beside what its environment and its type
/// take in the interner, which entries share, and what `index` adds.
#[derive(Drop)]
pub struct Replica {
    pub(crate) interner: MaskedInterner,
    pub(crate) rows: IndexSet<Row>,
    pub(crate) lists: Lists,
    /// For each point, so many places of the log, from the first, are listed by their types there.
    pub(crate) by_type: Vec<u32>,
    /// For each point, so many places of the log, from the first, are listed by what environments
    /// ask for there.
    pub(crate) asked: Vec<u32>,
    /// So many rows can be added without memory; there may be room for more.
    reserved: u32,
    /// So many places are listed.
    pub(crate) indexed: u32,
    /// So many pairs were noted.
    pairs: u64,
}

impl Model for Replica {
    ghost use Rattle.indexmap.specs.IndexSet.{spare};
    ghost use Rattle.hs_replica.specs.Replica.{ReplicaData, coded_replica};
    ghost use Rattle.hs_replica.specs.Index.{log_of, list_at, IsKept};

    ghost Value = { ReplicaData };

    ghost coded = { coded_replica };

    ghost view = { λ a. record {
      ids = a.interner;
      log = log_of a.interner a.rows.keys;
      spare = a.reserved;
      indexed = a.indexed;
      by_type = a.by_type.items;
    } };

    ghost invariant = { λ a. IsKept a.interner a.rows.keys (spare a.rows) a.reserved a.indexed
        a.by_type.items a.asked.items (list_at a.lists) };
}

impl Replica {
    /// A replica without entries. Takes no memory.
    pub fn new(alloc: Global) -> Replica
        ensures { result ≡ record {
          ids = record { types = []; sets = []; envs = [] };
          log = [];
          spare = 0;
          indexed = 0;
          by_type = [];
        } }
    {
        Replica {
            interner: MaskedInterner::new(alloc),
            rows: IndexSet::new(alloc),
            lists: Lists::new(alloc),
            by_type: Vec::new(alloc),
            asked: Vec::new(alloc),
            reserved: 0,
            indexed: 0,
            pairs: 0,
        }
    }

    /// Takes all entries out. What the interner has stays there, and so does the memory. Time is in
    /// proportion to what was listed.
    pub fn clear(&mut self)
        ensures { self.new ≡ record {
          ids = self.old.ids;
          log = [];
          spare = 0;
          indexed = 0;
          by_type = [];
        } }
    {
        self.rows.clear();
        self.lists.clear();
        self.by_type.clear();
        self.asked.clear();
        self.reserved = 0;
        self.indexed = 0;
    }

    /// The number of entries. Takes no memory.
    pub fn len(&self) -> u32
        ensures len { result ≡ length self.now.log }
        ensures replica { IsReplica self.now }
    {
        self.rows.len() as u32
    }

    /// The row of the entry at this place, counted from 0. Takes no memory.
    pub fn row(&self, place: u32) -> Row
        requires { place < length self.now.log }
        ensures row { IsRow self.now.ids result }
        ensures entry { slice_get self.now.log place ≡ Some (entry_of self.now.ids result) }
    {
        self.rows[place as usize]
    }

    /// Notes that a join unites so many pairs of environments. Takes no memory.
    pub fn note_pairs(&mut self, count: usize)
        ensures { self.new ≡ self.old }
    {
        self.pairs = self.pairs.saturating_add(count as u64);
    }

    /// How many pairs were noted since the replica was made: a measure of the time that joins took. No
    /// clause tells of it, so nothing that is proved may rest on it. Takes no memory.
    pub fn pairs(&self) -> u64 {
        self.pairs
    }

    /// The interner that reads the rows. Takes no memory.
    pub fn interner(&self) -> &Interner
        ensures { result.now ≡ self.now.ids }
    {
        self.interner.interner()
    }

    /// The interner that reads the rows. All else is dropped.
    pub fn into_interner(self) -> Interner
        ensures { result ≡ self.ids }
    {
        self.interner.into_interner()
    }

    /// The place of the entry of this row of the replica's interner, or `None` where the log lacks
    /// it. Takes no memory, and constant time on average.
    pub fn find(&self, row: Row) -> Option<u32>
        requires { IsRow self.now.ids row }
        ensures found { IfSome result (λ place. slice_get self.now.log place ≡ Some
            (entry_of self.now.ids row)) }
        ensures absent { IfNone result (Contains self.now.log (entry_of self.now.ids row) → ⊥) }
    {
        self.interner.know_numbers();
        match self.rows.get_index_of(&row) {
            Some(place) => Some(place as u32),
            None => None,
        }
    }

    /// Adds the entry of a row of `from` at the end, where the log lacks it. Constant time on
    /// average, beside the import. After a refusal of memory the log is as before.
    pub fn append(&mut self, from: &Interner, row: Row) -> Result<(), OutOfMemory>
        requires row { IsRow from.now row }
        requires absent { Contains self.old.log (entry_of from.now row) → ⊥ }
        requires room { length self.old.log + 1 < 2 ^ 32 }
        ensures ok { OnOk result (self.new.log ≡ self.old.log ++ entry_of from.now row ∷ []) }
        ensures err { OnErr result (self.new.log ≡ self.old.log) }
        ensures spare { self.new.spare ≡ self.old.spare }
        ensures indexed { self.new.indexed ≡ self.old.indexed }
        ensures by_type { self.new.by_type ≡ self.old.by_type }
        ensures grows { Grows self.old.ids self.new.ids }
    {
        let own = self.interner.import(from, row)?;
        self.rows.reserve(self.reserved as usize + 1)?;
        self.rows.insert(own)?;
        Ok(())
    }

    /// The row of the replica's interner that stands for the entry for which this row of `from`
    /// stands.
    pub fn import(&mut self, from: &Interner, row: Row) -> Result<Row, OutOfMemory>
        requires { IsRow from.now row }
        ensures row { IfOk result (λ r. IsRow self.new.ids r) }
        ensures entry { IfOk result (λ r. entry_of self.new.ids r ≡ entry_of from.now row) }
        ensures kept { KeepsLog self.old self.new }
    {
        self.interner.import(from, row)
    }

    /// The same, where `found` tells what was imported from there: walks only what isn't told of, and tells
    /// of it then.
    pub fn import_with(
        &mut self,
        found: &mut ImportedNumbers,
        from: &Interner,
        row: Row,
    ) -> Result<Row, OutOfMemory>
        requires row { IsRow from.now row }
        requires found { AreFound from.now self.old.ids found.old }
        ensures row { IfOk result (λ r. IsRow self.new.ids r) }
        ensures entry { IfOk result (λ r. entry_of self.new.ids r ≡ entry_of from.now row) }
        ensures found { AreFound from.now self.new.ids found.new }
        ensures kept { KeepsLog self.old self.new }
    {
        self.interner.import_with(found, from, row)
    }

    /// Makes room for `k` entries.
    fn make_room(&mut self, k: u32) -> Result<(), OutOfMemory>
        ensures ok { OnOk result (self.new ≡ record self.old { spare = max self.old.spare k }) }
        ensures err { OnErr result (self.new ≡ self.old) }
    {
        self.rows.reserve(k as usize)?;
        self.reserved = self.reserved.max(k);
        Ok(())
    }

    /// The rows, in the replica's interner, of the entries that the other log has and this one lacks,
    /// which begins it; then there is room for them, and `extend` adds them. Takes less time than to
    /// append them, since each type and each environment is walked once, and none of the rows is hashed.
    pub fn read_new(
        &mut self,
        found: &mut ImportedNumbers,
        from: &Replica,
    ) -> Result<Vec<Row>, OutOfMemory>
        requires { IsPrefix self.old.log from.now.log }
        ensures fits { IfOk result (λ rows. CanExtend self.new rows.items) }
        ensures whole { IfOk result (λ rows. extended self.new rows.items ≡ from.now.log) }
        ensures log { self.new.log ≡ self.old.log }
        ensures indexed { self.new.indexed ≡ self.old.indexed }
        ensures by_type { self.new.by_type ≡ self.old.by_type }
        ensures grows { Grows self.old.ids self.new.ids }
    {
        let begin = self.rows.len();
        found.clear();
        let rows = self.interner.import_rows(
            found,
            from.interner.interner(),
            &from.rows.as_slice()[begin..],
        )?;
        self.make_room(rows.len() as u32)?;
        Ok(rows)
    }

    /// Adds the entries of these rows at the end. Takes no memory, and constant time for each, on
    /// average.
    pub fn extend(&mut self, rows: &[Row])
        requires { CanExtend self.old rows.now }
        ensures { self.new ≡ record self.old {
          log = extended self.old rows.now;
          spare = self.old.spare - length rows.now;
        } }
    {
        for row in rows {
            self.add(*row);
        }
    }

    /// Makes room for `k` entries, at most 1,000,000, so that they can be added without memory.
    /// After a refusal of memory nothing has changed.
    pub fn reserve(&mut self, k: u32) -> Result<(), OutOfMemory>
        requires { k ≤ 1000000 }
        ensures ok { OnOk result (self.new ≡ record self.old { spare = max self.old.spare k }) }
        ensures err { OnErr result (self.new ≡ self.old) }
    {
        self.make_room(k)
    }

    /// Adds the entry of a row of the replica's interner at the end, where the log lacks it. Takes no
    /// memory, and constant time on average.
    pub fn add(&mut self, row: Row)
        requires spare { 1 ≤ self.old.spare }
        requires row { IsRow self.old.ids row }
        requires absent { Contains self.old.log (entry_of self.old.ids row) → ⊥ }
        requires room { length self.old.log + 1 < 2 ^ 32 }
        ensures { self.new ≡ record self.old {
          log = self.old.log ++ entry_of self.old.ids row ∷ [];
          spare = self.old.spare - 1;
        } }
    {
        let _added = self.rows.insert(row).unwrap();
        self.reserved -= 1;
    }

    /// Makes the look-ups tell of the whole log. After a refusal of memory they tell of as much as
    /// before or of more.
    ///
    /// An entry is listed by its point; `list_types` lists it by its type, and `asking` by each type in
    /// its environment. A place in a list costs 4 bytes beyond the first four; a list of a point takes
    /// 32 bytes, which each point below takes, too, and another one about 64 with its first four. Time
    /// is in proportion to the places, and to the points that are new.
    pub fn index(&mut self) -> Result<(), OutOfMemory>
        ensures ok { OnOk result (self.new.indexed ≡ length self.new.log) }
        ensures kept { self.new ≡ record self.old { indexed = self.new.indexed } }
        ensures more { self.old.indexed ≤ self.new.indexed }
    {
        if self.indexed as usize == self.rows.len() {
            return Ok(());
        }
        add_places(&mut self.lists, self.rows.as_slice(), &mut self.indexed)
    }
}
