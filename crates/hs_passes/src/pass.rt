//! What a pass is.

ghost use Rattle.std.specs.Prelude.{◌≡◌, ◌+◌, ◌≤◌, ◌^◌, ℕ, IfOk, OnErr};
ghost use Rattle.hs_scheme.specs.sorting.Sorted.{SortedData};
ghost use Rattle.hs_scheme.specs.SameTree.{HaveSameTree};
ghost use Rattle.hs_passes.specs.Weight.{weight};
ghost use Rattle.hs_passes.specs.Passing.{KeepsRest, Image};

use hs_scheme::{OutOfMemory, Sorted};
use std::alloc::Global;

/// A way to make schemes smaller that keeps their value tree.
///
/// A scheme's weight is the number of its rules and of all their parameters.
pub trait Pass: Drop {
    /// How much weight the pass has taken off so far.
    ghost taken: { Self → ℕ };

    /// What the pass makes of a scheme.
    ghost image: { Self → Image };

    /// What the pass makes of the scheme. The tally rises by the weight that it takes off, so it is at
    /// most 2^63 before. After `OutOfMemory` it is as before.
    fn apply(&mut self, alloc: Global, sorted: &Sorted) -> Result<Sorted, OutOfMemory>
        requires { taken self.old ≤ 2 ^ 63 }
        ensures made { IfOk result (λ s. s ≡ image self.old sorted.now) }
        ensures same_image { image self.new ≡ image self.old }
        ensures rest { IfOk result (λ s. KeepsRest sorted.now s) }
        ensures same_tree { IfOk result
            (λ s. HaveSameTree sorted.now.scheme.ranks sorted.now.scheme.rules s.scheme.rules) }
        ensures lighter { IfOk result (λ s. weight s ≤ weight sorted.now) }
        ensures rose { IfOk result (λ s. taken self.new + weight s ≡ taken self.old + weight sorted.now) }
        ensures refused { OnErr result (taken self.new ≡ taken self.old) };

    /// How much weight the pass has taken off so far. Takes no memory.
    fn tally(&self) -> u64
        ensures { result ≡ taken self.now };
}
