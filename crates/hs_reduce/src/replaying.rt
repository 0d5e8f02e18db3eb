//! Reduction along a path.

ghost use Rattle.std.specs.Prelude.{◌≡◌, ℕ, ◌<◌, ◌≤◌, ◌+◌, ◌⊎◌, ◌↔◌, List, [], length, slice_get, Some, IfOk, MatchOption, option_map};
ghost use Rattle.hs_scheme.specs.declared.term.Head.TheVariants.{Tm};
ghost use Rattle.hs_reduce.specs.declared.answers.Replay.{Replay};
ghost use Rattle.hs_reduce.specs.declared.answers.ReductionStep.{ReductionStep as AnyStep};
ghost use Rattle.hs_reduce.specs.Graph.{term_at, head_of};
ghost use Rattle.hs_reduce.specs.Replays.{IsReplayAnswer, IsFailureAlong};
ghost use Rattle.hs_reduce.specs.Trace.{IsTraceAlong};
ghost use Rattle.hs_reduce.specs.Advances.{HasKnownSorts, IsTraced, Keeps, EndsTrail, Advances};

use crate::answers::{ReductionStep, Replay, Trace};
use crate::graph::Graph;
use crate::limits::MAX_STEPS;
use crate::replacement::replace;
use crate::trail::Trail;
use hs_scheme::{FailingPath, Head, OutOfMemory, Sorted};
use std::alloc::Global;

/// How far a reduction has come: the place of the term, the state, and how many children were
/// followed and steps made.
#[derive(Clone, Copy, Drop)]
pub(crate) struct Progress {
    pub(crate) place: usize,
    pub(crate) state: u32,
    pub(crate) at: usize,
    pub(crate) used: u64,
}

/// What comes of going on from there: what is met, nothing, or one step.
#[derive(Drop)]
pub(crate) enum Advance {
    Met(Replay),
    Stays,
    Moved(ReductionStep, Progress),
}

/// The place and the state of the child with this number, counted from 1.
fn child_at(to: &[u32], args: &[usize], number: u32) -> Option<(usize, u32)>
    ensures { MatchOption result ((number ≡ 0) ⊎ (length args.now < number) ⊎ (length to.now < number))
        (λ child. (i : ℕ) × (number ≡ i + 1) × (slice_get args.now i ≡ Some child.0)
        × (slice_get to.now i ≡ Some child.1)) }
{
    if number == 0 {
        return None;
    }
    let index = (number - 1) as usize;
    if args.len() <= index || to.len() <= index {
        return None;
    }
    Some((args[index], to[index]))
}

/// From a terminal: what is met there, or the descent to the path's next child.
fn descend(
    sorted: &Sorted,
    graph: &Graph,
    progress: Progress,
    path: &[u32],
    terminal: u32,
) -> Advance
    requires sorted { HasKnownSorts sorted.now }
    requires place { progress.place < length graph.now }
    requires on_path { progress.at ≤ length path.now }
    requires few { progress.used ≤ MAX_STEPS }
    requires short { length path.now ≤ MAX_STEPS }
    requires head { head_of (term_at graph.now progress.place) ≡ Tm terminal }
    ensures { (all : List AnyStep) → IsTraced sorted.now path.now all progress (term_at graph.now progress.place)
        → Advances sorted.now path.now all progress (term_at graph.now progress.place) graph.now result }
{
    let at = progress.at as u32;
    let Some(to) = sorted.automaton.next(progress.state, terminal) else {
        return Advance::Met(Replay::Stuck {
            terminal,
            state: progress.state,
            at,
            used: progress.used,
        });
    };
    let Some(number) = path.get(progress.at) else {
        return Advance::Met(Replay::Ended {
            used: progress.used,
        });
    };
    match child_at(to, graph.arguments(progress.place), *number) {
        None => Advance::Met(Replay::NoChild { at }),
        Some((place, state)) => Advance::Moved(
            ReductionStep::Descent {
                terminal,
                child: *number,
                from: progress.state,
                to: state,
            },
            Progress {
                place,
                state,
                at: progress.at + 1,
                used: progress.used + 1,
            },
        ),
    }
}

/// One step along the path, or what is met instead of it.
fn next_step(
    alloc: Global,
    sorted: &Sorted,
    graph: &mut Graph,
    progress: Progress,
    path: &[u32],
) -> Result<Advance, OutOfMemory>
    requires sorted { HasKnownSorts sorted.now }
    requires place { progress.place < length graph.old }
    requires on_path { progress.at ≤ length path.now }
    requires few { progress.used ≤ MAX_STEPS }
    requires short { length path.now ≤ MAX_STEPS }
    ensures { IfOk result (λ advance. (all : List AnyStep)
        → IsTraced sorted.now path.now all progress (term_at graph.old progress.place)
        → Advances sorted.now path.now all progress (term_at graph.old progress.place) graph.new advance) }
{
    match graph.head(progress.place) {
        Head::Var(_) => Ok(Advance::Stays),
        Head::Nt(number) => match replace(alloc, sorted, graph, progress.place, number)? {
            None => Ok(Advance::Stays),
            Some(place) => Ok(Advance::Moved(
                ReductionStep::Call { rule: number },
                Progress {
                    place,
                    state: progress.state,
                    at: progress.at,
                    used: progress.used + 1,
                },
            )),
        },
        Head::Tm(terminal) => Ok(descend(sorted, graph, progress, path, terminal)),
    }
}

/// Reduces the start along these child numbers, and puts each step on the trail, which is empty before
/// and keeps so many steps.
fn follow(
    alloc: Global,
    sorted: &Sorted,
    path: &[u32],
    steps: u64,
    most: usize,
    trail: &mut Trail,
) -> Result<Replay, OutOfMemory>
    requires few { steps ≤ 4000000 }
    requires short { length path.now ≤ 4000000 }
    requires empty { Keeps most [] trail.old }
    ensures answer { IfOk result (λ found. (answer : Replay) → (found ≡ answer)
        ↔ IsReplayAnswer sorted.now path.now steps answer) }
    ensures trail { IfOk result (λ found. (all : List AnyStep) × Keeps most all trail.new
        × EndsTrail sorted.now path.now all found) }
{
    // What the types of `sorted` and of its scheme keep is known where their fields are read.
    let scheme = &sorted.scheme;
    let _rules = &scheme.rules;
    let mut graph = Graph::new(alloc);
    let mut progress = Progress {
        place: graph.add(Head::Nt(0), &[])?,
        state: 0,
        at: 0,
        used: 0,
    };
    loop {
        match next_step(alloc, sorted, &mut graph, progress, path)? {
            Advance::Met(answer) => return Ok(answer),
            Advance::Stays => return Ok(Replay::Runs),
            Advance::Moved(step, further) => {
                if progress.used == steps {
                    return Ok(Replay::Runs);
                }
                trail.push(most, step)?;
                progress = further;
            }
        }
    }
}

/// Reduces the start along these child numbers, counted from 1, by an automaton that reads from its
/// initial state on. At most `steps` steps are counted: replacements and descents.
///
/// Time and memory grow with the number of steps times the size of the rules' bodies. Nothing
/// recurses deeper than a rule's body.
pub fn replay(
    alloc: Global,
    sorted: &Sorted,
    path: &[u32],
    steps: u64,
) -> Result<Replay, OutOfMemory>
    requires few { steps ≤ 4000000 }
    requires short { length path.now ≤ 4000000 }
    ensures { IfOk result (λ found. (answer : Replay) → (found ≡ answer)
        ↔ IsReplayAnswer sorted.now path.now steps answer) }
{
    let mut trail = Trail::new(alloc);
    follow(alloc, sorted, path, steps, 0, &mut trail)
}

/// Reduces the start likewise, and where a terminal without transition is met, gives the path to it, the
/// first of the children with their terminals, and the first `most` steps of the reduction. `None` comes
/// exactly where none is met. Time and memory are those of `replay`, and `most` steps are kept.
pub fn trace_along(
    alloc: Global,
    sorted: &Sorted,
    path: &[u32],
    steps: u64,
    most: usize,
) -> Result<Option<Trace>, OutOfMemory>
    requires few { steps ≤ 4000000 }
    requires short { length path.now ≤ 4000000 }
    ensures { IfOk result (IsTraceAlong sorted.now path.now steps most) }
{
    let mut trail = Trail::new(alloc);
    match follow(alloc, sorted, path, steps, most, &mut trail)? {
        Replay::Stuck {
            terminal,
            state,
            at: _,
            used,
        } => Ok(Some(Trace {
            path: FailingPath {
                steps: trail.labels,
                last: terminal,
                state,
                used,
            },
            steps: trail.steps,
        })),
        _ => Ok(None),
    }
}

/// Reduces the start likewise, and gives the path alone.
pub fn failure_along(
    alloc: Global,
    sorted: &Sorted,
    path: &[u32],
    steps: u64,
) -> Result<Option<FailingPath>, OutOfMemory>
    requires few { steps ≤ 4000000 }
    requires short { length path.now ≤ 4000000 }
    ensures { IfOk result (IsFailureAlong sorted.now path.now steps) }
{
    match trace_along(alloc, sorted, path, steps, 0)? {
        Some(trace) => Ok(Some(trace.path)),
        None => Ok(None),
    }
}
