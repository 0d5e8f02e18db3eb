//! One move of the naming.

ghost use Rattle.std.specs.Prelude.{◌≡◌, ◌<◌, ℕ, length, IfOk};
ghost use Rattle.hs_scheme.specs.flow.Points.{point_at};
ghost use Rattle.hs_table.specs.Tables.{HasSupports};
ghost use Rattle.hs_verdict.specs.Evidence.{Evidence, Packs, evidence, first, child_pack};
ghost use Rattle.hs_verdict.specs.Naming.{terminal_of};
ghost use Rattle.hs_core.specs.Core.{log_of, state_of};
ghost use Rattle.hs_path.specs.Stored.{Stands, Piled, KnowsCurrent, GrowsStore, Nothing};
ghost use Rattle.hs_path.specs.Moved.{HeadBefore, IsContinuationAt, owns, Moves, MovesAt};

use crate::adding::{of_stack, own_evidence, put_arguments};
use crate::asking::row_at;
use crate::evidence::{Continuation, Node, Store};
use hs_core::Core;
use hs_scheme::{Head, OutOfMemory, Problem};
use hs_table::HeadBy;

/// What one move of the naming comes to.
#[derive(Drop)]
pub(crate) enum NamingMove {
    /// A terminal without transition in this state: the end.
    End { terminal: u32, state: u32 },
    /// A parameter was in front. That is no step.
    Silent(Continuation),
    /// One step: a replacement, or the descent from a terminal to a child, counted from 1.
    Step(Option<(u32, u32)>, Continuation),
}

/// The terminal at the head of this point.
fn terminal_at(problem: &Problem, point: u32) -> u32
    requires { point < length problem.now.points.points }
    ensures { result ≡ terminal_of (point_at problem.now.points point).head }
{
    match problem.points.head_of(point) {
        Head::Tm(terminal) => terminal,
        Head::Nt(_) | Head::Var(_) => 0,
    }
}

/// The continuation of the evidence with this number.
fn continuation_of(store: &Store, number: u32) -> Continuation
    ensures number { result.number ≡ number }
    ensures continuation { (bound : ℕ) (e : Evidence) → Nothing bound store.now → Stands bound store.now number e →
        IsContinuationAt bound store.now result e }
{
    Continuation {
        node: store.get(number),
        number,
    }
}

/// The number of the only evidence of this child, counted from 1, by the packs of the stack.
fn child_evidence(store: &Store, stack: &[u32], child: u32) -> u32
    ensures { (bound below : ℕ) (packs : Packs) → Nothing bound store.now → 0 < below →
        Piled bound store.now below stack.now 0 (length stack.now) packs →
        (result < below) × Stands bound store.now result (first (child_pack packs child)) }
{
    if child == 0 {
        return 0;
    }
    let pack = store.pack_at(stack, 0, stack.len(), child as usize - 1);
    store.first(pack)
}

/// The move from the node by the head of its support, once the packs of its point's arguments are on
/// the stack.
fn by_head(
    core: &Core,
    store: &mut Store,
    stack: &mut Vec<u32>,
    node: Node,
    head: HeadBy,
    terminal: u32,
) -> Result<NamingMove, OutOfMemory>
    requires node { node.place < length (log_of core.now) }
    requires head { HeadBefore (length (log_of core.now)) head }
    ensures grows { IfOk result (λ taken. GrowsStore store.old store.new) }
    ensures taken { IfOk result (λ taken. (below : ℕ) (own packs : Packs) →
        KnowsCurrent (length (log_of core.now)) store.old below node own →
        Piled (length (log_of core.now)) store.old (length store.old.nodes.items)
        stack.old.items 0 (length stack.old.items) packs →
        Moves (length (log_of core.now)) store.new below head terminal
        (owns (log_of core.now) node.place own) packs stack.new.items taken) }
{
    match head {
        HeadBy::Param { param, place } => {
            let ty = row_at(core, place).ty;
            let evidence = own_evidence(store, core, node, param as usize, ty);
            Ok(NamingMove::Silent(continuation_of(store, evidence)))
        }
        HeadBy::Rule { place } => {
            let next = of_stack(store, stack, place)?;
            Ok(NamingMove::Step(None, next))
        }
        HeadBy::Terminal { state, child: None } => Ok(NamingMove::End { terminal, state }),
        HeadBy::Terminal {
            child: Some(child),
            ..
        } => {
            let evidence = child_evidence(store, stack.as_slice(), child);
            stack.clear();
            Ok(NamingMove::Step(Some((terminal, child)), continuation_of(store, evidence)))
        }
    }
}

/// One move of the naming from the continuation, with the packs of the stack, whose front is its end.
pub(crate) fn next_move(
    problem: &Problem,
    core: &Core,
    store: &mut Store,
    stack: &mut Vec<u32>,
    continuation: Continuation,
) -> Result<NamingMove, OutOfMemory>
    requires log { HasSupports problem.now (log_of core.now) (state_of core.now).supports }
    requires place { continuation.node.place < length (log_of core.now) }
    ensures grows { IfOk result (λ taken. GrowsStore store.old store.new) }
    ensures taken { IfOk result (λ taken. (own packs : Packs) → Nothing (length (log_of core.now)) store.old →
        IsContinuationAt (length (log_of core.now)) store.old continuation (evidence continuation.node.place own) →
        Piled (length (log_of core.now)) store.old (length store.old.nodes.items)
        stack.old.items 0 (length stack.old.items) packs →
        MovesAt problem.now (log_of core.now) (state_of core.now).supports
        store.new stack.new.items continuation own packs taken) }
{
    let point = row_at(core, continuation.node.place).point;
    let (head, chosen) = core.support(continuation.node.place);
    let arguments = problem.points.args_of(point);
    put_arguments(store, core, stack, continuation.node, arguments, chosen)?;
    let terminal = terminal_at(problem, point);
    let taken = by_head(core, store, stack, continuation.node, *head, terminal)?;
    Ok(taken)
}
