//! Conclusions that were formed and wait to be published.

ghost use Rattle.std.specs.Prelude.{◌≡◌, ◌<◌, ◌⊎◌, [], length, IfSome, IfNone, OnOk};
ghost use Rattle.hs_types.specs.Interned.{IsRow, entry_of};
ghost use Rattle.hs_rules.specs.Conclusions.{DeducedData};
ghost use Rattle.hs_core.specs.Waiting.{Waits, HasRow, IsKeyed, IsThereOrWaits};

use crate::priority::Priority;
use hs_rules::{Deduced, Replica};
use hs_scheme::OutOfMemory;
use hs_types::Row;
use indexmap::IndexMap;
use std::alloc::Global;

/// Conclusions that wait, each entry once, and which of them comes next.
///
/// One takes some 100 bytes while it waits, and some 40 from then on.
#[derive(Drop)]
pub(crate) struct Waiting {
    pub(crate) found: IndexMap<Row, Deduced>,
    priority: Priority,
    ghost keyed: { IsKeyed found },
}

impl Waiting {
    /// Nothing waits. Takes no memory.
    pub(crate) fn new(alloc: Global) -> Waiting
        ensures { result.found.entries ≡ [] }
    {
        Waiting {
            found: IndexMap::new(alloc),
            priority: Priority::new(alloc),
        }
    }

    /// How many wait.
    pub(crate) fn len(&self) -> usize
        ensures { result ≡ length self.now.found.entries }
    {
        self.found.len()
    }

    /// Lets the conclusion wait, unless its entry is in the log or waits already.
    pub(crate) fn add(&mut self, replica: &Replica, deduced: Deduced) -> Result<(), OutOfMemory>
        requires { IsRow replica.now.ids deduced.row }
        ensures keeps { (d : DeducedData) → Waits self.old.found d → Waits self.new.found d }
        ensures only { (d : DeducedData) → Waits self.new.found d → Waits self.old.found d ⊎ (d ≡ deduced) }
        ensures known { OnOk result (IsThereOrWaits replica.now.ids replica.now.log (Waits self.new.found)
            (entry_of replica.now.ids deduced.row)) }
    {
        let row = deduced.row;
        if let Some(_place) = replica.find(row) {
            return Ok(());
        }
        if let Some(_other) = self.found.get(&row) {
            return Ok(());
        }
        self.priority.add(replica, row)?;
        self.found.insert(row, deduced)?;
        Ok(())
    }

    /// A work on an entry at the point has united so many pairs of environments, and formed so many
    /// conclusions, of which so many were new.
    pub(crate) fn tell(
        &mut self,
        point: u32,
        pairs: u64,
        formed: u64,
        new: u64,
    ) -> Result<(), OutOfMemory>
        ensures { self.new.found ≡ self.old.found }
    {
        self.priority.tell(point, pairs, formed, new)
    }

    /// The row of the one that is taken in the least time, the last of the table.
    fn last_row(&self) -> Option<Row>
        ensures some { IfSome result (λ row. HasRow self.now.found row) }
        ensures none { IfNone result (length self.now.found.entries ≡ 0) }
    {
        let last = self.found.len().checked_sub(1)?;
        let (row, _) = self.found.get_index(last)?;
        Some(*row)
    }

    /// The row of the one that comes next: in order, or whichever is at hand.
    fn next_row(&mut self, in_order: bool) -> Option<Row>
        ensures found { self.new.found ≡ self.old.found }
        ensures some { IfSome result (λ row. HasRow self.old.found row) }
        ensures none { IfNone result (length self.old.found.entries ≡ 0) }
    {
        if in_order {
            if let Some(row) = self.priority.next(&self.found) {
                return Some(row);
            }
        }
        self.last_row()
    }

    /// Takes the one that comes next: in order, or whichever is at hand, which takes less time.
    pub(crate) fn next(&mut self, in_order: bool) -> Option<Deduced>
        ensures some { IfSome result (λ d. Waits self.old.found d) }
        ensures others { IfSome result (λ d. (x : DeducedData) → Waits self.old.found x →
            (x ≡ d) ⊎ Waits self.new.found x) }
        ensures fewer { (x : DeducedData) → Waits self.new.found x → Waits self.old.found x }
        ensures less { IfSome result (λ d. length self.new.found.entries < length self.old.found.entries) }
        ensures none { IfNone result ((x : DeducedData) → Waits self.old.found x → ⊥) }
    {
        let row = self.next_row(in_order)?;
        self.found.swap_remove(&row)
    }
}
