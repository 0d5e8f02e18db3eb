//! The pass that folds aliases.

ghost use Rattle.std.specs.Prelude.{◌≡◌, ◌<◌, ℕ, length, nat_eq, vec_len, IfOk};
ghost use Rattle.hs_passes.specs.Aliases.{without_aliases};
ghost use Rattle.hs_passes.specs.Selection.{stays, number_in};

use crate::aliases::representatives;
use crate::pass::Pass;
use crate::selecting::{is_sorted, number_at, places, selection};
use crate::weighing::weight_of;
use hs_scheme::{OutOfMemory, Sorted};
use std::alloc::Global;

/// Which nonterminals stand for themselves.
fn own(alloc: Global, reps: &[u32]) -> Result<Vec<bool>, OutOfMemory>
    ensures each { IfOk result (λ kept. vec_len kept ≡ length reps.now) }
    ensures is { IfOk result (λ kept. (h : ℕ) → h < length reps.now
        → stays kept.items h ≡ nat_eq (number_in reps.now h) h) }
{
    let mut kept = Vec::with_capacity(alloc, reps.len())?;
    for (number, rep) in reps.iter().enumerate() {
        kept.push_reserved(*rep as usize == number);
    }
    Ok(kept)
}

/// The new number of what stands for each nonterminal, by those of the rules that stay.
fn new_numbers(alloc: Global, reps: &[u32], places: &[u32]) -> Result<Vec<u32>, OutOfMemory>
    ensures each { IfOk result (λ numbers. vec_len numbers ≡ length reps.now) }
    ensures is { IfOk result (λ numbers. (h : ℕ) → h < length reps.now
        → number_in numbers.items h ≡ number_in places.now (number_in reps.now h)) }
{
    let mut numbers = Vec::with_capacity(alloc, reps.len())?;
    for rep in reps {
        numbers.push_reserved(number_at(places, *rep));
    }
    Ok(numbers)
}

/// The scheme where its aliases are folded. In time and memory nearly in proportion to its size.
fn folded(alloc: Global, sorted: &Sorted) -> Result<Sorted, OutOfMemory>
    ensures { IfOk result (λ s. s ≡ without_aliases sorted.now) }
{
    is_sorted(sorted);
    let reps = representatives(alloc, &sorted.scheme)?;
    let kept = own(alloc, reps.as_slice())?;
    let places = places(alloc, kept.as_slice())?;
    let numbers = new_numbers(alloc, reps.as_slice(), places.as_slice())?;
    selection(alloc, sorted, kept.as_slice(), numbers.as_slice())
}

/// Folds aliases. An alias is a rule other than the start whose body is another nonterminal applied
/// to exactly its own parameters, in order. Until there is none, the first one goes, and the other
/// nonterminal stands for its own wherever that occurs. In time and memory nearly in proportion to
/// the size of the scheme.
#[derive(Drop)]
pub struct FoldAliases {
    tally: u64,
}

impl FoldAliases {
    /// A pass with tally 0. Takes no memory.
    pub fn new() -> FoldAliases
        ensures { ⟦<FoldAliases as Pass>⟧.taken result ≡ 0 }
    {
        FoldAliases { tally: 0 }
    }
}

impl Pass for FoldAliases {
    ghost taken = { λ pass. pass.tally };

    ghost image = { λ pass. without_aliases };

    fn apply(&mut self, alloc: Global, sorted: &Sorted) -> Result<Sorted, OutOfMemory> {
        is_sorted(sorted);
        let made = folded(alloc, sorted)?;
        self.tally += weight_of(sorted) - weight_of(&made);
        Ok(made)
    }

    fn tally(&self) -> u64 {
        self.tally
    }
}
