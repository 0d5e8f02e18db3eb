//! The types of a terminal, in numbers.

ghost use Rattle.std.specs.Prelude.{◌≡◌, ◌<◌, ◌^◌, ◌∷◌, [], All, IfOk, OnOk, length, map, replicate, set, slice_index};
ghost use Rattle.hs_scheme.specs.declared.term.Head.TheVariants.{Tm};
ghost use Rattle.hs_table.specs.Types as types;
ghost use Rattle.hs_types.specs.Interned.{type_of_id, set_of_id, env_of_id};
ghost use Rattle.hs_replica.specs.Replica.{KeepsLog};
ghost use Rattle.hs_rules.specs.Heads.{GainsHeads, Just, AtSome, AtRange, ChildAt, ReadIn, InState, IsRankOf, AreHeads, Asks, AsksNothing, AnyHead};
ghost use Rattle.hs_rules.specs.Seeking.{CanSeekHeads, with_head, AreHeadsFor};

use crate::found::{HeadTypes, Sets};
use crate::head_search::{AskedType, HeadSearch};
use crate::heads::push_given;
use hs_replica::Replica;
use hs_scheme::{Automaton, OutOfMemory};
use hs_table::{HeadBy, rank};
use hs_types::{EnvId, SetId, View};
use smallvec::SmallVec;
use std::alloc::Global;

/// The set without types.
fn empty_set(replica: &mut Replica) -> Result<SetId, OutOfMemory>
    ensures range { IfOk result (λ id. id < length replica.new.ids.sets) }
    ensures is { IfOk result (λ id. set_of_id replica.new.ids id ≡ []) }
    ensures kept { KeepsLog replica.old replica.new }
{
    replica.set(&[])
}

/// The set with one state.
fn state_set(replica: &mut Replica, q: u32) -> Result<SetId, OutOfMemory>
    ensures range { IfOk result (λ id. id < length replica.new.ids.sets) }
    ensures is { IfOk result (λ id. set_of_id replica.new.ids id ≡ types.state q ∷ []) }
    ensures kept { KeepsLog replica.old replica.new }
{
    let state = replica.base(q)?;
    replica.set(&[state])
}

/// So many times this set.
fn repeated(alloc: Global, set: SetId, count: usize) -> Result<Sets, OutOfMemory>
    ensures { IfOk result (λ sets. sets.items ≡ replicate count set) }
{
    let mut sets = SmallVec::new(alloc);
    for _ in 0..count {
        sets.push(set)?;
    }
    Ok(sets)
}

/// So many empty sets.
fn empty_sets(alloc: Global, replica: &mut Replica, count: usize) -> Result<Sets, OutOfMemory>
    ensures range { IfOk result (λ sets. All (λ s. s < length replica.new.ids.sets) sets.items) }
    ensures are { IfOk result (λ sets. map (set_of_id replica.new.ids) sets.items ≡ replicate count []) }
    ensures kept { KeepsLog replica.old replica.new }
{
    let empty = empty_set(replica)?;
    repeated(alloc, empty, count)
}

/// As many sets as children, all empty but for that at this place, which has the child's state.
fn child_sets(
    alloc: Global,
    replica: &mut Replica,
    to: &[u32],
    place: usize,
) -> Result<Sets, OutOfMemory>
    requires { place < length to.now }
    ensures range { IfOk result (λ sets. All (λ s. s < length replica.new.ids.sets) sets.items) }
    ensures are { IfOk result (λ sets. map (set_of_id replica.new.ids) sets.items
        ≡ set (replicate (length to.now) []) place (types.state (slice_index to.now place) ∷ [])) }
    ensures kept { KeepsLog replica.old replica.new }
{
    let mut sets = empty_sets(alloc, replica, to.len())?;
    let one = state_set(replica, to[place])?;
    sets[place] = one;
    Ok(sets)
}

/// A terminal of this rank at the head of a point, with what its types ask of the parameters themselves:
/// nothing, for each of them.
#[derive(Clone, Copy)]
pub(crate) struct TerminalHead<'a> {
    at: &'a HeadSearch<'a>,
    automaton: &'a Automaton,
    number: u32,
    rank: u32,
    own: EnvId,
}

/// Adds the type that asks for these sets and then is the state, where it has a set for each argument.
#[inline]
fn push_state(
    terminal: &TerminalHead,
    replica: &mut Replica,
    by: HeadBy,
    full: &[SetId],
    q: u32,
    out: &mut HeadTypes,
) -> Result<(), OutOfMemory>
    requires own { terminal.now.own < length replica.old.ids.envs }
    requires full { All (λ s. s < length replica.old.ids.sets) full.now }
    ensures gains { OnOk result (GainsHeads replica.new.ids (length terminal.now.at.now.search.args.now)
        (Just by (env_of_id replica.old.ids terminal.now.own)
        (types.arrows (map (set_of_id replica.old.ids) full.now) (types.state q)))
        out.old.items out.new.items) }
    ensures kept { KeepsLog replica.old replica.new }
{
    let ty = replica.base(q)?;
    push_given(terminal.at, replica, by, terminal.own, full, ty, out)
}

/// Adds the type of the terminal in state q whose child at this place is rejected.
fn push_child(
    terminal: &TerminalHead,
    replica: &mut Replica,
    q: u32,
    to: &[u32],
    place: u32,
    out: &mut HeadTypes,
) -> Result<(), OutOfMemory>
    requires place { place < length to.now }
    requires few { length to.now < 2 ^ 32 }
    requires own { terminal.now.own < length replica.old.ids.envs }
    ensures gains { OnOk result (GainsHeads replica.new.ids (length terminal.now.at.now.search.args.now)
        (ChildAt (env_of_id replica.old.ids terminal.now.own) q to.now place) out.old.items out.new.items) }
    ensures kept { KeepsLog replica.old replica.new }
{
    let full = child_sets(terminal.at.search.alloc, replica, to, place as usize)?;
    let by = HeadBy::Terminal {
        state: q,
        child: Some(place + 1),
    };
    push_state(terminal, replica, by, full.as_slice(), q, out)
}

/// Adds the types of the terminal in state q whose children from a place on are rejected.
fn push_children(
    terminal: &TerminalHead,
    replica: &mut Replica,
    q: u32,
    to: &[u32],
    from: u32,
    out: &mut HeadTypes,
) -> Result<(), OutOfMemory>
    requires few { length to.now < 2 ^ 32 }
    requires own { terminal.now.own < length replica.old.ids.envs }
    ensures gains { OnOk result (GainsHeads replica.new.ids (length terminal.now.at.now.search.args.now)
        (AtRange (ChildAt (env_of_id replica.old.ids terminal.now.own) q to.now) from
        (length to.now)) out.old.items out.new.items) }
    ensures kept { KeepsLog replica.old replica.new }
{
    for place in from..to.len() as u32 {
        push_child(terminal, replica, q, to, place, out)?;
    }
    Ok(())
}

/// Adds the types of the terminal in state q, where it has a transition only those by its children from
/// a place on.
fn push_in_state(
    terminal: &TerminalHead,
    replica: &mut Replica,
    from: u32,
    q: u32,
    out: &mut HeadTypes,
) -> Result<(), OutOfMemory>
    requires ranks { IsRankOf terminal.now.automaton.now.transitions terminal.now.number terminal.now.rank }
    requires own { terminal.now.own < length replica.old.ids.envs }
    ensures gains { OnOk result (GainsHeads replica.new.ids (length terminal.now.at.now.search.args.now)
        (InState terminal.now.automaton.now.transitions terminal.now.number terminal.now.rank from
        (env_of_id replica.old.ids terminal.now.own) q) out.old.items out.new.items) }
    ensures kept { KeepsLog replica.old replica.new }
{
    let automaton = terminal.automaton;
    let rank = terminal.rank as usize;
    match automaton.next(q, terminal.number) {
        None => {
            let full = empty_sets(terminal.at.search.alloc, replica, rank)?;
            let by = HeadBy::Terminal {
                state: q,
                child: None,
            };
            push_state(terminal, replica, by, full.as_slice(), q, out)
        }
        Some(to) => push_children(terminal, replica, q, to, from, out),
    }
}

/// Adds the types of the terminal, where it has a transition only those by its children from a place on.
fn push_terminal(
    terminal: &TerminalHead,
    replica: &mut Replica,
    from: u32,
    out: &mut HeadTypes,
) -> Result<(), OutOfMemory>
    requires ranks { IsRankOf terminal.now.automaton.now.transitions terminal.now.number terminal.now.rank }
    requires own { terminal.now.own < length replica.old.ids.envs }
    ensures gains { OnOk result (GainsHeads replica.new.ids (length terminal.now.at.now.search.args.now)
        (AtRange (InState terminal.now.automaton.now.transitions terminal.now.number terminal.now.rank from
        (env_of_id replica.old.ids terminal.now.own)) 0 terminal.now.automaton.now.states)
        out.old.items out.new.items) }
    ensures kept { KeepsLog replica.old replica.new }
{
    let automaton = terminal.automaton;
    for q in 0..automaton.states() {
        push_in_state(terminal, replica, from, q, out)?;
    }
    Ok(())
}

/// Adds the types of the terminal in these states, by its child at this place.
fn push_reading(
    terminal: &TerminalHead,
    replica: &mut Replica,
    place: u32,
    states: &[u32],
    out: &mut HeadTypes,
) -> Result<(), OutOfMemory>
    requires ranks { IsRankOf terminal.now.automaton.now.transitions terminal.now.number terminal.now.rank }
    requires own { terminal.now.own < length replica.old.ids.envs }
    ensures gains { OnOk result (GainsHeads replica.new.ids (length terminal.now.at.now.search.args.now)
        (AtSome (ReadIn terminal.now.automaton.now.states terminal.now.automaton.now.transitions
        terminal.now.number (env_of_id replica.old.ids terminal.now.own) place) states.now)
        out.old.items out.new.items) }
    ensures kept { KeepsLog replica.old replica.new }
{
    for q in states {
        push_reads(terminal, replica, place, *q, out)?;
    }
    Ok(())
}

/// Adds the type of the terminal in state q, by its child at this place, where it has one.
fn push_reads(
    terminal: &TerminalHead,
    replica: &mut Replica,
    place: u32,
    q: u32,
    out: &mut HeadTypes,
) -> Result<(), OutOfMemory>
    requires ranks { IsRankOf terminal.now.automaton.now.transitions terminal.now.number terminal.now.rank }
    requires own { terminal.now.own < length replica.old.ids.envs }
    ensures gains { OnOk result (GainsHeads replica.new.ids (length terminal.now.at.now.search.args.now)
        (ReadIn terminal.now.automaton.now.states terminal.now.automaton.now.transitions
        terminal.now.number (env_of_id replica.old.ids terminal.now.own) place q)
        out.old.items out.new.items) }
    ensures kept { KeepsLog replica.old replica.new }
{
    let automaton = terminal.automaton;
    let Some(to) = automaton.next(q, terminal.number) else {
        return Ok(());
    };
    if q >= automaton.states() || place >= terminal.rank {
        return Ok(());
    }
    push_child(terminal, replica, q, to, place, out)
}

/// Adds the types of the terminal of this number at the head that ask for the type at the argument.
pub(crate) fn terminal_asking(
    at: &HeadSearch,
    replica: &mut Replica,
    number: u32,
    asked: &AskedType,
    out: &mut HeadTypes,
) -> Result<(), OutOfMemory>
    requires can { CanSeekHeads replica.old at.now }
    requires arg { asked.now.arg < length at.now.search.args.now }
    requires ty { asked.now.ty < length replica.old.ids.types }
    requires none { out.old.items ≡ [] }
    ensures heads { OnOk result (AreHeadsFor at.now (Tm number) replica.old.log replica.new.ids
        (Asks asked.now.arg (type_of_id replica.old.ids asked.now.ty)) out.new.items) }
    ensures kept { KeepsLog replica.old replica.new }
{
    let View::State(state) = replica.interner().view(asked.ty) else {
        return Ok(());
    };
    let problem = at.problem;
    let rank = rank(problem, number);
    let sorted = &problem.sorted;
    let automaton = &sorted.automaton;
    let own = replica.empty_env(at.params as usize)?;
    let states = automaton.reading(number, asked.arg as usize, state);
    let terminal = TerminalHead {
        at,
        automaton,
        number,
        rank,
        own,
    };
    push_reading(&terminal, replica, asked.arg, states, out)
}

/// Adds all types of the terminal of this number at the head.
pub(crate) fn terminal_all(
    at: &HeadSearch,
    replica: &mut Replica,
    number: u32,
    out: &mut HeadTypes,
) -> Result<(), OutOfMemory>
    requires can { CanSeekHeads replica.old at.now }
    requires none { out.old.items ≡ [] }
    ensures heads { OnOk result (AreHeadsFor at.now (Tm number) replica.old.log replica.new.ids
        AnyHead out.new.items) }
    ensures kept { KeepsLog replica.old replica.new }
{
    let problem = at.problem;
    let rank = rank(problem, number);
    let sorted = &problem.sorted;
    let automaton = &sorted.automaton;
    let own = replica.empty_env(at.params as usize)?;
    let terminal = TerminalHead {
        at,
        automaton,
        number,
        rank,
        own,
    };
    push_terminal(&terminal, replica, 0, out)
}

/// Adds the types of the terminal of this number at the head that ask for no argument.
pub(crate) fn terminal_nothing(
    at: &HeadSearch,
    replica: &mut Replica,
    number: u32,
    out: &mut HeadTypes,
) -> Result<(), OutOfMemory>
    requires can { CanSeekHeads replica.old at.now }
    requires none { out.old.items ≡ [] }
    ensures heads { OnOk result (AreHeads at.now.problem.now [] (with_head at.now (Tm number))
        replica.new.ids AsksNothing out.new.items) }
    ensures kept { KeepsLog replica.old replica.new }
{
    let problem = at.problem;
    let rank = rank(problem, number);
    let sorted = &problem.sorted;
    let automaton = &sorted.automaton;
    let own = replica.empty_env(at.params as usize)?;
    let from = at.search.args.len() as u32;
    let terminal = TerminalHead {
        at,
        automaton,
        number,
        rank,
        own,
    };
    push_terminal(&terminal, replica, from, out)
}
