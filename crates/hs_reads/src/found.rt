//! The pairs of a point and a state that are found.

ghost use Rattle.std.specs.Prelude.{◌≡◌, ◌<◌, ◌++◌, ◌∷◌, [], true, false, vec_len, Contains, IfOk, IfSome, IfNone, OnOk, OnErr, IsErrOf};
ghost use Rattle.hs_reads.specs.declared.stop.Stop.TheVariants.{Limit};
ghost use Rattle.hs_reads.specs.Growing.{AddsOnly, AreTooMany};
ghost use Rattle.hs_reads.specs.Found.{Gains};
ghost use Rattle.hs_reads.specs.ByPoint.{pairs_by_point, IsOneMore};

use crate::becoming::MOST;
use crate::state_set::StateSet;
use crate::stop::Stop;
use hs_scheme::OutOfMemory;
use std::alloc::Global;
use std::marker::Model;

/// Pairs of a point and a state, each once, and which of them wait to be taken. Contracts see both as
/// lists.
#[derive(Drop)]
pub(crate) struct FoundPairs {
    alloc: Global,
    /// The states in which each point is read, at the point's number.
    rows: Vec<StateSet>,
    /// How many pairs there are.
    count: usize,
    waiting: Vec<(u32, u32)>,
}

impl Model for FoundPairs {
    ghost use Rattle.std.specs.Prelude.{List};
    ghost use Rattle.hs_reads.specs.Found.{FoundData, AreFound};
    ghost use Rattle.hs_reads.specs.ByPoint.{pairs_by_point};

    ghost Value = { FoundData };

    ghost view = { λ a. record { pairs = pairs_by_point a.rows.items; waiting = a.waiting.items } };

    ghost invariant = { λ a. AreFound (pairs_by_point a.rows.items) a.waiting.items a.count };
}

/// Puts points without states behind the others, up to this one.
fn reach(alloc: Global, rows: &mut Vec<StateSet>, point: usize) -> Result<(), OutOfMemory>
    ensures len { OnOk result (point < vec_len rows.new) }
    ensures same { pairs_by_point rows.new.items ≡ pairs_by_point rows.old.items }
{
    while rows.len() <= point {
        rows.push(StateSet::empty(alloc))?;
    }
    Ok(())
}

/// Adds the state to those at the number. Answers whether it wasn't there.
pub(crate) fn add_state(
    alloc: Global,
    rows: &mut Vec<StateSet>,
    point: u32,
    state: u32,
) -> Result<bool, OutOfMemory>
    ensures there { IfOk result (λ is_new. is_new ≡ false
        → Contains (pairs_by_point rows.old.items) (point, state)) }
    ensures kept { IfOk result (λ is_new. is_new ≡ false
        → pairs_by_point rows.new.items ≡ pairs_by_point rows.old.items) }
    ensures absent { IfOk result (λ is_new. is_new ≡ true
        → Contains (pairs_by_point rows.old.items) (point, state) → ⊥) }
    ensures more { IfOk result (λ is_new. is_new ≡ true
        → IsOneMore (point, state) (pairs_by_point rows.old.items) (pairs_by_point rows.new.items)) }
    ensures same { OnErr result (pairs_by_point rows.new.items ≡ pairs_by_point rows.old.items) }
{
    reach(alloc, rows, point as usize)?;
    let row = &mut rows[point as usize];
    if row.contains(state) {
        return Ok(false);
    }
    row.push(state)?;
    Ok(true)
}

impl FoundPairs {
    /// No pairs, with room for the states of this many points.
    pub(crate) fn new(alloc: Global, points: usize) -> Result<FoundPairs, OutOfMemory>
        ensures pairs { IfOk result (λ found. found.pairs ≡ []) }
        ensures waiting { IfOk result (λ found. found.waiting ≡ []) }
    {
        Ok(FoundPairs {
            alloc,
            rows: Vec::with_capacity(alloc, points)?,
            count: 0,
            waiting: Vec::new(alloc),
        })
    }

    /// Adds the pair, unless it is there; it waits then. `Limit` comes where there are then more than
    /// `MOST`.
    pub(crate) fn add(&mut self, point: u32, state: u32) -> Result<(), Stop>
        ensures gains { OnOk result (Gains self.old self.new) }
        ensures there { OnOk result (Contains self.new.pairs (point, state)) }
        ensures only { AddsOnly (λ x. x ≡ (point, state)) self.old.pairs self.new.pairs }
        ensures limit { IsErrOf result Limit → AreTooMany self.new.pairs }
    {
        if self.count > MOST {
            return Err(Stop::Limit);
        }
        self.waiting.reserve(1)?;
        if !add_state(self.alloc, &mut self.rows, point, state)? {
            return Ok(());
        }
        self.waiting.push_reserved((point, state));
        self.count += 1;
        if self.count > MOST {
            return Err(Stop::Limit);
        }
        Ok(())
    }

    /// Takes one of the pairs that wait, where there is one.
    pub(crate) fn take(&mut self) -> Option<(u32, u32)>
        ensures same { self.new.pairs ≡ self.old.pairs }
        ensures taken { IfSome result (λ x. self.old.waiting ≡ self.new.waiting ++ x ∷ []) }
        ensures there { IfSome result (λ x. Contains self.new.pairs x) }
        ensures none { IfNone result (self.old.waiting ≡ []) }
    {
        self.waiting.pop()
    }

    /// The states of the pairs, at their point's number.
    pub(crate) fn into_rows(self) -> Vec<StateSet>
        ensures { pairs_by_point result.items ≡ self.pairs }
    {
        self.rows
    }
}
