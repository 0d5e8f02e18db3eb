//! A set of states.

ghost use Rattle.std.specs.Prelude.{◌≡◌, ◌↔◌, ◌⊎◌, ◌++◌, ◌∷◌, [], ℕ, Contains, IsTrue, OnOk, OnErr};
ghost use Rattle.hs_reads.specs.Lists.{list_of};
ghost use Rattle.hs_reads.specs.Bits.{HasBit, AreBitsOf};

use crate::bits::{has_bit, set_bit};
use hs_scheme::OutOfMemory;
use std::alloc::Global;
use std::marker::Model;

/// As many states are looked through; where there are more, bits tell which are there.
const LOOKED_THROUGH: usize = 64;

/// States, in the order in which they were added. Contracts see their list.
///
/// It takes four to eight bytes for each state and, where there are more than 64, one to two bits for each
/// number up to the largest: of the 10,000 states that an automaton may have, at most some 40 bytes for each
/// that is there.
#[derive(Drop)]
pub(crate) struct StateSet {
    states: Vec<u32>,
    /// Where there are more than `LOOKED_THROUGH` states, their bits.
    words: Vec<u64>,
}

impl Model for StateSet {
    ghost use Rattle.std.specs.Prelude.{List, ℕ};
    ghost use Rattle.hs_reads.specs.Bits.{AreBitsOf};

    ghost Value = { List ℕ };

    ghost view = { λ a. a.states.items };

    ghost invariant = { λ a. AreBitsOf a.states.items a.words.items };
}

/// Adds the bits of these states.
fn set_bits(words: &mut Vec<u64>, states: &[u32]) -> Result<(), OutOfMemory>
    ensures { OnOk result ((q : ℕ) → HasBit words.new.items q
        ↔ (HasBit words.old.items q ⊎ Contains states.now q)) }
{
    for state in states {
        set_bit(words, *state)?;
    }
    Ok(())
}

/// Adds the state to the bits, which are those of these states, where there are enough of them.
fn add_bit(words: &mut Vec<u64>, states: &[u32], state: u32) -> Result<(), OutOfMemory>
    requires { AreBitsOf states.now words.old.items }
    ensures added { OnOk result (AreBitsOf (states.now ++ state ∷ []) words.new.items) }
    ensures same { OnErr result (AreBitsOf states.now words.new.items) }
{
    if states.len() < LOOKED_THROUGH {
        return Ok(());
    }
    if states.len() > LOOKED_THROUGH {
        return set_bit(words, state);
    }
    words.clear();
    set_bits(words, states)?;
    set_bit(words, state)
}

impl StateSet {
    /// No states.
    pub(crate) fn empty(alloc: Global) -> StateSet
        ensures { result ≡ [] }
    {
        StateSet {
            states: Vec::new(alloc),
            words: Vec::new(alloc),
        }
    }

    /// The states.
    pub(crate) fn as_slice(&self) -> &[u32]
        ensures { result.now ≡ self.now }
    {
        self.states.as_slice()
    }

    /// Whether the state is there. Takes no memory, and constant time.
    pub(crate) fn contains(&self, state: u32) -> bool
        ensures { IsTrue result ↔ Contains self.now state }
    {
        if self.states.len() <= LOOKED_THROUGH {
            self.states.contains(&state)
        } else {
            has_bit(self.words.as_slice(), state)
        }
    }

    /// Adds a state, which isn't there, behind the others.
    pub(crate) fn push(&mut self, state: u32) -> Result<(), OutOfMemory>
        ensures pushed { OnOk result (self.new ≡ self.old ++ state ∷ []) }
        ensures same { OnErr result (self.new ≡ self.old) }
    {
        self.states.reserve(1)?;
        add_bit(&mut self.words, self.states.as_slice(), state)?;
        self.states.push_reserved(state);
        Ok(())
    }
}

/// The states of this number, none where there are no such.
pub(crate) fn states_in(rows: &[StateSet], number: u32) -> &[u32]
    ensures { result.now ≡ list_of rows.now number }
{
    match rows.get(number as usize) {
        Some(states) => states.as_slice(),
        None => &[],
    }
}

/// Whether the state is among those of this number.
pub(crate) fn is_in(rows: &[StateSet], number: u32, state: u32) -> bool
    ensures { IsTrue result ↔ Contains (list_of rows.now number) state }
{
    match rows.get(number as usize) {
        Some(states) => states.contains(state),
        None => false,
    }
}
