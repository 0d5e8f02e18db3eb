//! The pass that drops parameters that aren't used.

ghost use Rattle.std.specs.Prelude.{◌≡◌, IfOk};
ghost use Rattle.hs_scheme.specs.sorting.Parameters.{counts_of};
ghost use Rattle.hs_passes.specs.Needing.{kept, IsGreatest};
ghost use Rattle.hs_passes.specs.Unused as definition;

use crate::in_order::droppable;
use crate::leaving::with_parameters;
use crate::needing::settled;
use crate::pass::Pass;
use crate::selecting::{is_scheme, is_sorted};
use crate::weighing::weight_of;
use hs_scheme::{OutOfMemory, Parameters, Scheme, Sorted};
use std::alloc::Global;

/// Which parameters stay. Counting finds at once which can go, so that one look at the bodies is
/// enough to see that there are no others.
fn needed(alloc: Global, parameters: &Parameters, scheme: &Scheme) -> Result<Vec<bool>, OutOfMemory>
    requires { parameters.now ≡ counts_of scheme.now.rules }
    ensures { IfOk result (λ flags. IsGreatest scheme.now.rules (kept parameters.now flags.items)) }
{
    is_scheme(scheme);
    let rules = scheme.rules.as_slice();
    let first = droppable(alloc, parameters, scheme)?;
    settled(alloc, parameters, rules, first)
}

/// The scheme without the parameters that aren't used.
fn without_unused(alloc: Global, sorted: &Sorted) -> Result<Sorted, OutOfMemory>
    ensures { IfOk result (λ s. s ≡ definition.without_unused sorted.now) }
{
    is_sorted(sorted);
    let rules = sorted.scheme.rules.as_slice();
    let parameters = Parameters::of(alloc, rules)?;
    let flags = needed(alloc, &parameters, &sorted.scheme)?;
    with_parameters(alloc, &parameters, flags.as_slice(), sorted)
}

/// Drops parameters that aren't used. A parameter can go where it doesn't occur in its rule's body
/// and each occurrence of its nonterminal in any body has an argument at its position. Until there
/// is none, the first one goes, by rule and then by position, and with it the argument at that
/// position of each occurrence. In time and memory in proportion to the size of the scheme, where each
/// occurrence of a nonterminal or a parameter counts with the parameters of one rule; but in a scheme
/// of more than 500,000 points in time in proportion to that and to the longest row of parameters of
/// which each can only go after the one before.
#[derive(Drop)]
pub struct DropUnused {
    tally: u64,
}

impl DropUnused {
    /// A pass with tally 0. Takes no memory.
    pub fn new() -> DropUnused
        ensures { ⟦<DropUnused as Pass>⟧.taken result ≡ 0 }
    {
        DropUnused { tally: 0 }
    }
}

impl Pass for DropUnused {
    ghost taken = { λ pass. pass.tally };

    ghost image = { λ pass. definition.without_unused };

    fn apply(&mut self, alloc: Global, sorted: &Sorted) -> Result<Sorted, OutOfMemory> {
        is_sorted(sorted);
        let made = without_unused(alloc, sorted)?;
        self.tally += weight_of(sorted) - weight_of(&made);
        Ok(made)
    }

    fn tally(&self) -> u64 {
        self.tally
    }
}
