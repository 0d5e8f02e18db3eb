//! Passes one after another.

ghost use Rattle.std.specs.Prelude.{◌≡◌, ◌+◌, ◌≤◌, ◌^◌, ◌++◌, ◌∷◌, [], map, sum_by, All, IfOk, OnOk, OnErr};
ghost use Rattle.hs_scheme.specs.SameTree.{HaveSameTree};
ghost use Rattle.hs_passes.specs.Weight.{weight};
ghost use Rattle.hs_passes.specs.Passing.{KeepsRest, composed, raised, RaisedUpTo};

use crate::pass::Pass;
use hs_scheme::{OutOfMemory, Sorted};
use std::alloc::Global;
use std::mem::replace;

/// One pass.
fn apply_boxed(
    alloc: Global,
    pass: &mut Box<dyn Pass>,
    sorted: &Sorted,
) -> Result<Sorted, OutOfMemory>
    requires { taken pass.old ≤ 2 ^ 63 }
    ensures made { IfOk result (λ s. s ≡ image pass.old sorted.now) }
    ensures same_image { image pass.new ≡ image pass.old }
    ensures rest { IfOk result (λ s. KeepsRest sorted.now s) }
    ensures same_tree { IfOk result
        (λ s. HaveSameTree sorted.now.scheme.ranks sorted.now.scheme.rules s.scheme.rules) }
    ensures lighter { IfOk result (λ s. weight s ≤ weight sorted.now) }
    ensures rose { IfOk result (λ s. taken pass.new + weight s ≡ taken pass.old + weight sorted.now) }
    ensures refused { OnErr result (taken pass.new ≡ taken pass.old) }
{
    pass.apply(alloc, sorted)
}

/// Adds a pass at the end of a list, both without a tally so far. After a refusal of memory the list is
/// as it was.
pub fn add(passes: &mut Vec<Box<dyn Pass>>, pass: Box<dyn Pass>) -> Result<(), OutOfMemory>
    requires passes { All (λ p. taken p ≡ 0) passes.old.items }
    requires pass { taken pass ≡ 0 }
    ensures last { OnOk result (passes.new.items ≡ passes.old.items ++ pass ∷ []) }
    ensures tallies { OnOk result (All (λ p. taken p ≡ 0) passes.new.items) }
    ensures refused { OnErr result (passes.new.items ≡ passes.old.items) }
{
    passes.push(pass)?;
    Ok(())
}

/// Applies each pass once.
pub fn simplify(
    alloc: Global,
    passes: &mut Vec<Box<dyn Pass>>,
    sorted: Sorted,
) -> Result<Sorted, OutOfMemory>
    requires { All (λ p. taken p ≤ 2 ^ 63) passes.old.items }
    ensures made { IfOk result (λ s. s ≡ composed (map (λ p. image p) passes.old.items) sorted) }
    ensures same_images { map (λ p. image p) passes.new.items ≡ map (λ p. image p) passes.old.items }
    ensures rest { IfOk result (λ s. KeepsRest sorted s) }
    ensures same_tree { IfOk result
        (λ s. HaveSameTree sorted.scheme.ranks sorted.scheme.rules s.scheme.rules) }
    ensures lighter { IfOk result (λ s. weight s ≤ weight sorted) }
    ensures tallies { OnOk result (map (λ p. taken p) passes.new.items ≡ raised
        (map (λ p. image p) passes.old.items) (map (λ p. taken p) passes.old.items) sorted) }
    ensures rose { IfOk result (λ s. sum_by (λ p. taken p) passes.new.items + weight s ≡ sum_by
        (λ p. taken p) passes.old.items + weight sorted) }
    ensures refused { OnErr result
        (RaisedUpTo (map (λ p. image p) passes.old.items) (map (λ p. taken p) passes.old.items)
        (map (λ p. taken p) passes.new.items) sorted) }
{
    let mut simplified = sorted;
    for pass in passes.iter_mut() {
        match apply_boxed(alloc, pass, &simplified) {
            Ok(next) => drop(replace(&mut simplified, next)),
            Err(refused) => {
                drop(simplified);
                return Err(refused);
            }
        }
    }
    Ok(simplified)
}
