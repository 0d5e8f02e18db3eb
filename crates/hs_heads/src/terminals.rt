//! The types of a terminal.

ghost use Rattle.std.specs.Prelude.{◌≡◌, ◌<◌, [], List, ℕ, Some, length, option_copied, replicate, OnOk};
ghost use Rattle.hs_scheme.specs.acceptance.Automaton.{next};
ghost use Rattle.hs_table.specs.Types as trees;
ghost use Rattle.hs_table.specs.Types.{TypeTree};
ghost use Rattle.hs_table.specs.Follows.{rank_of};
ghost use Rattle.hs_heads.specs.Sources.{GainsTypes, FromSome, FromPlace, ByChild, InState};

use crate::arrows::add_arrows;
use hs_choices::Compared;
use hs_scheme::{OutOfMemory, Problem};
use hs_table::rank;
use hs_types::TyId;
use indexmap::IndexSet;

/// Adds the type of a terminal of this rank without transition in state q.
fn add_lacking(
    types: &mut Compared,
    rank: u32,
    q: u32,
    found: &mut IndexSet<TyId>,
) -> Result<(), OutOfMemory>
    ensures { OnOk result (GainsTypes types.old types.new found.old.keys found.new.keys
        (λ (ty : TypeTree). ty ≡ trees.arrows (replicate rank []) (trees.state q))) }
{
    let env = types.empty_env(rank as usize)?;
    let last = types.base(q)?;
    add_arrows(types, env, last, found)
}

/// Adds the type of a terminal in state q whose child at this place is rejected.
fn add_child(
    types: &mut Compared,
    to: &[u32],
    place: u32,
    q: u32,
    found: &mut IndexSet<TyId>,
) -> Result<(), OutOfMemory>
    requires { place < length to.now }
    ensures { OnOk result (GainsTypes types.old types.new found.old.keys found.new.keys
        (ByChild q to.now place)) }
{
    let child = types.base(to[place as usize])?;
    let env = types.single_env(to.len(), place, child)?;
    let last = types.base(q)?;
    add_arrows(types, env, last, found)
}

/// Adds the types of a terminal of this rank in state q, by its children.
fn add_children(
    types: &mut Compared,
    to: &[u32],
    rank: u32,
    q: u32,
    found: &mut IndexSet<TyId>,
) -> Result<(), OutOfMemory>
    requires { length to.now ≡ rank }
    ensures { OnOk result (GainsTypes types.old types.new found.old.keys found.new.keys
        (FromPlace (ByChild q to.now) rank)) }
{
    for place in 0..rank {
        add_child(types, to, place, q, found)?;
    }
    Ok(())
}

/// The states in which the children of a node with this terminal are read in this state.
fn next_of(problem: &Problem, q: u32, terminal: u32) -> Option<&[u32]>
    ensures moves { option_copied result ≡ next problem.now.sorted.automaton.transitions q terminal }
    ensures ranks { (to : List ℕ) → next problem.now.sorted.automaton.transitions q terminal
        ≡ Some to → length to ≡ rank_of problem.now terminal }
{
    let sorted = &problem.sorted;
    sorted.automaton.next(q, terminal)
}

/// The number of states.
fn states(problem: &Problem) -> u32
    ensures { result ≡ problem.now.sorted.automaton.states }
{
    problem.sorted.automaton.states()
}

/// Adds the types of the terminal in state q, where it is one.
fn add_in_state(
    types: &mut Compared,
    problem: &Problem,
    terminal: u32,
    q: u32,
    found: &mut IndexSet<TyId>,
) -> Result<(), OutOfMemory>
    ensures { OnOk result (GainsTypes types.old types.new found.old.keys found.new.keys
        (InState problem.now terminal q)) }
{
    if q >= states(problem) {
        return Ok(());
    }
    let rank = rank(problem, terminal);
    match next_of(problem, q, terminal) {
        None => add_lacking(types, rank, q, found),
        Some(to) => add_children(types, to, rank, q, found),
    }
}

/// Adds the types of the terminal in these states: where one has a transition a type for each child, and
/// else one type.
pub(crate) fn add_terminal(
    types: &mut Compared,
    problem: &Problem,
    terminal: u32,
    states: &[u32],
    found: &mut IndexSet<TyId>,
) -> Result<(), OutOfMemory>
    ensures { OnOk result (GainsTypes types.old types.new found.old.keys found.new.keys
        (FromSome (InState problem.now terminal) states.now)) }
{
    for q in states {
        add_in_state(types, problem, terminal, *q, found)?;
    }
    Ok(())
}
