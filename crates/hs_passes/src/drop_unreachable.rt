//! The pass that drops what the start doesn't need.

ghost use Rattle.std.specs.Prelude.{◌≡◌, IfOk};
ghost use Rattle.hs_passes.specs.Reachable.{without_unreachable};

use crate::pass::Pass;
use crate::reachable::reachable;
use crate::selecting::{is_sorted, places, selection};
use crate::weighing::weight_of;
use hs_scheme::{OutOfMemory, Sorted};
use std::alloc::Global;

/// The scheme without the rules that the start doesn't need. In time and memory in proportion to
/// its size.
fn needed(alloc: Global, sorted: &Sorted) -> Result<Sorted, OutOfMemory>
    ensures { IfOk result (λ s. s ≡ without_unreachable sorted.now) }
{
    is_sorted(sorted);
    let kept = reachable(alloc, &sorted.scheme)?;
    let numbers = places(alloc, kept.as_slice())?;
    selection(alloc, sorted, kept.as_slice(), numbers.as_slice())
}

/// Drops exactly the rules to which no chain of occurrences in bodies leads from the start, and
/// numbers the others in their order. In time and memory in proportion to the size of the scheme.
#[derive(Drop)]
pub struct DropUnreachable {
    tally: u64,
}

impl DropUnreachable {
    /// A pass with tally 0. Takes no memory.
    pub fn new() -> DropUnreachable
        ensures { ⟦<DropUnreachable as Pass>⟧.taken result ≡ 0 }
    {
        DropUnreachable { tally: 0 }
    }
}

impl Pass for DropUnreachable {
    ghost taken = { λ pass. pass.tally };

    ghost image = { λ pass. without_unreachable };

    fn apply(&mut self, alloc: Global, sorted: &Sorted) -> Result<Sorted, OutOfMemory> {
        is_sorted(sorted);
        let made = needed(alloc, sorted)?;
        self.tally += weight_of(sorted) - weight_of(&made);
        Ok(made)
    }

    fn tally(&self) -> u64 {
        self.tally
    }
}
