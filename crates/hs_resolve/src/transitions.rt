//! The transitions that stand twice, and the lengths of those of a terminal.

ghost use Rattle.std.specs.Prelude.{◌≡◌, ◌<◌, ◌≤◌, ◌^◌, ℕ, List, None, map, length, All, IfOk, OnOk};
ghost use Rattle.indexmap.specs.IndexSet.{IsEmpty};
ghost use Rattle.hs_resolve.specs.Numbering.{rank_of};
ghost use Rattle.hs_resolve.specs.Least.{IsLeast};
ghost use Rattle.hs_resolve.specs.LineFaults.{Somewhere, RepeatsLeft, Clashes};
ghost use Rattle.hs_resolve.specs.Lengths.{length_of, first_or, own_length, clash_line};

use crate::line::earliest;
use hs_reader::RawTransition;
use hs_scheme::OutOfMemory;
use indexmap::{IndexMap, IndexSet};
use std::alloc::Global;

/// The least line of a transition whose state and terminal an earlier one has. Those that are met are
/// put into the set, which is empty.
fn repeated_in<'a>(
    met: &mut IndexSet<(&'a [u8], &'a [u8])>,
    transitions: &[RawTransition<'a>],
) -> Result<Option<u32>, OutOfMemory>
    requires { IsEmpty met.old }
    ensures { IfOk result (λ least. IsLeast
        (λ line. Somewhere (λ i t. RepeatsLeft transitions.now i t line) transitions.now) least) }
{
    let mut least = None;
    for transition in transitions {
        let left = (
            transition.from.text.bytes(),
            transition.terminal.text.bytes(),
        );
        let (_, fresh) = met.insert_full(left)?;
        let line = if fresh {
            None
        } else {
            Some(transition.from.line)
        };
        least = earliest(least, line);
    }
    Ok(least)
}

/// The least line of a transition whose state and terminal an earlier one has.
pub(crate) fn repeated_of(
    alloc: Global,
    transitions: &[RawTransition],
) -> Result<Option<u32>, OutOfMemory>
    ensures { IfOk result (λ least. IsLeast
        (λ line. Somewhere (λ i t. RepeatsLeft transitions.now i t line) transitions.now) least) }
{
    let mut met = IndexSet::new(alloc);
    let least = repeated_in(&mut met, transitions);
    drop(met);
    least
}

/// Notes the length of a transition where it is the first of its terminal, and answers its line
/// where the first has another.
fn note_length<'a>(
    lengths: &mut IndexMap<&'a [u8], u32>,
    transition: &RawTransition<'a>,
) -> Result<Option<u32>, OutOfMemory>
    requires { length transition.now.to < 2 ^ 32 }
    ensures lengths { OnOk result ((x : List ℕ) → length_of lengths.new x
        ≡ first_or (length_of lengths.old x) (own_length transition.now x)) }
    ensures clash { IfOk result (λ line. line
        ≡ clash_line (length_of lengths.old transition.now.terminal.text) transition.now) }
{
    let terminal = transition.terminal.text.bytes();
    let length = transition.to.len() as u32;
    let Some(first) = lengths.get(terminal).copied() else {
        lengths.insert(terminal, length)?;
        return Ok(None);
    };
    if first == length {
        return Ok(None);
    }
    Ok(Some(transition.from.line))
}

/// Notes the lengths of the right sides of the first transitions of the terminals, where none is noted
/// yet, and answers the least line of a transition of another length.
pub(crate) fn note_lengths<'a>(
    lengths: &mut IndexMap<&'a [u8], u32>,
    transitions: &[RawTransition<'a>],
) -> Result<Option<u32>, OutOfMemory>
    requires few { All (λ t. length t.to ≤ 64) transitions.now }
    requires empty { (x : List ℕ) → length_of lengths.old x ≡ None }
    ensures lengths { OnOk result ((x : List ℕ)
        → length_of lengths.new x ≡ rank_of transitions.now x) }
    ensures clash { IfOk result (λ least. IsLeast
        (λ line. Somewhere (λ _ t. Clashes transitions.now t line) transitions.now) least) }
{
    let mut clash = None;
    for transition in transitions {
        let line = note_length(lengths, transition)?;
        clash = earliest(clash, line);
    }
    Ok(clash)
}
