//! The problem of a scheme: its points and its flow, within their limits.

ghost use Rattle.std.specs.Prelude.{◌≡◌, ◌+◌, ◌<◌, ◌≤◌, ◌⊎◌, length, Ok, Err, IfOk, MatchResult};
ghost use Rattle.hs_scheme.specs.Scheme.{AreRules};
ghost use Rattle.hs_scheme.specs.flow.Points.{points_of};
ghost use Rattle.hs_scheme.specs.declared.flow.Pair.{Pair};
ghost use Rattle.hs_front.specs.Problems.{IsProblemOf, IsPastLimits};
ghost use Rattle.hs_front.specs.Yields.{Yields};

use crate::refusal::Refusal;
use crate::sorted::sorted_of;
use hs_flow::{FlowFault, analyse};
use hs_reader::MAX_BYTES;
use hs_scheme::{OutOfMemory, Points, PointsFault, Problem, Sorted};
use std::alloc::Global;
use std::mem;

/// The most pairs of the flow, of both kinds together.
const MAX_PAIRS: u32 = 4_000_000;

/// The problem of a scheme with these points. `FlowLimit` comes exactly where it has more than
/// 4,000,000 pairs of flow.
fn with_flow(alloc: Global, sorted: Sorted, points: Points) -> Result<Problem, Refusal>
    requires points { points ≡ points_of sorted.scheme.rules }
    requires few { length points.points ≤ 500000 }
    ensures { MatchResult result (IsProblemOf sorted) (IsPastLimits sorted) }
{
    match analyse(alloc, &sorted.scheme, &points, MAX_PAIRS) {
        Ok(flow) => Ok(Problem::new(sorted, points, flow)),
        Err(FlowFault::FlowLimit) => {
            drop((sorted, points));
            Err(Refusal::FlowLimit)
        }
        Err(FlowFault::OutOfMemory) => {
            drop((sorted, points));
            Err(Refusal::OutOfMemory)
        }
    }
}

/// The problem of a scheme. `PointLimit` and `FlowLimit` come exactly where it has more than 500,000
/// points, or more than 4,000,000 pairs of flow.
///
/// Takes time and memory in proportion to the points and the pairs of flow.
pub fn problem_of(alloc: Global, sorted: Sorted) -> Result<Problem, Refusal>
    ensures problem { MatchResult result (IsProblemOf sorted) (IsPastLimits sorted) }
    ensures rules { IfOk result (λ _. AreRules sorted.scheme.rules (length sorted.scheme.ranks)) }
{
    match Points::of(alloc, &sorted.scheme) {
        Ok(points) => with_flow(alloc, sorted, points),
        Err(PointsFault::TooMany) => {
            // The run ends: a large scheme isn't given back piece by piece.
            mem::forget(sorted);
            Err(Refusal::PointLimit)
        }
        Err(PointsFault::OutOfMemory) => Err(Refusal::OutOfMemory),
    }
}

/// The problem of the scheme that the bytes are a file of, or why there is none.
///
/// Takes time and memory in proportion to the bytes, the points and the pairs of flow, on average.
pub fn problem_of_file(alloc: Global, bytes: &[u8]) -> Result<Problem, Refusal>
    requires { length bytes.now ≤ MAX_BYTES }
    ensures { MatchResult result (λ problem. Yields bytes.now (Ok problem))
        (λ refusal. (refusal ≡ Refusal.OutOfMemory) ⊎ Yields bytes.now (Err refusal)) }
{
    match sorted_of(alloc, bytes) {
        Ok(sorted) => problem_of(alloc, sorted),
        Err(refusal) => Err(refusal),
    }
}
