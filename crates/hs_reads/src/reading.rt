//! What one pair of a point and a state demands.

ghost use Rattle.std.specs.Prelude.{◌≡◌, ◌+◌, ◌<◌, ℕ, List, Some, Contains, OnOk, IsErrOf, drop, length, option_copied, slice_get};
ghost use Rattle.hs_scheme.specs.declared.flow.FlowPair.{FlowPair as AnyFlow};
ghost use Rattle.hs_scheme.specs.declared.term.Head.TheVariants.{Var, Tm};
ghost use Rattle.hs_scheme.specs.flow.Points.{point_at};
ghost use Rattle.hs_scheme.specs.sorting.Parameters.{IsParameter};
ghost use Rattle.hs_scheme.specs.acceptance.Automaton.{next};
ghost use Rattle.hs_weak.specs.Reads.{FlowsTo};
ghost use Rattle.hs_reads.specs.declared.stop.Stop.TheVariants.{Limit};
ghost use Rattle.hs_reads.specs.Growing.{AddsOnly, AreTooMany};
ghost use Rattle.hs_reads.specs.Becomings.{AnyBecoming, HasTerminals, HasTerminalsOnly};
ghost use Rattle.hs_reads.specs.Found.{Gains};
ghost use Rattle.hs_reads.specs.ByPoint.{pairs_by_point};
ghost use Rattle.hs_reads.specs.Pairs.{HasStart, Demands, IsDemandedBy, IsArgumentRead, IsReadBehind, AreHanded};

use crate::becoming::{Becoming, list_at};
use crate::found::{FoundPairs, add_state};
use crate::lists::Lists;
use crate::state_set::StateSet;
use crate::stop::Stop;
use hs_scheme::{FlowPair, Head, Problem, Sorted};
use std::alloc::Global;

/// Adds each argument with the state at its place.
fn add_children(found: &mut FoundPairs, args: &[u32], states: &[u32]) -> Result<(), Stop>
    ensures gains { OnOk result (Gains found.old found.new) }
    ensures there { OnOk result ((i u r : ℕ) → slice_get args.now i ≡ Some u → slice_get states.now i ≡ Some r
        → Contains found.new.pairs (u, r)) }
    ensures only { AddsOnly (IsArgumentRead args.now states.now) found.old.pairs found.new.pairs }
    ensures limit { IsErrOf result Limit → AreTooMany found.new.pairs }
{
    for (place, arg) in args.iter().enumerate() {
        let Some(state) = states.get(place) else {
            return Ok(());
        };
        found.add(*arg, *state)?;
    }
    Ok(())
}

/// The states in which the children of a node with this terminal are read in this state.
fn next_of(sorted: &Sorted, state: u32, terminal: u32) -> Option<&[u32]>
    ensures { option_copied result ≡ next sorted.now.automaton.transitions state terminal }
{
    sorted.automaton.next(state, terminal)
}

/// The states behind the first `given`, none where there are fewer.
fn behind(states: &[u32], given: usize) -> &[u32]
    ensures { result.now ≡ drop given states.now }
{
    if given > states.len() {
        return &[];
    }
    &states[given..]
}

/// Adds the arguments that stand behind those that are given to the terminal.
fn add_behind(
    sorted: &Sorted,
    found: &mut FoundPairs,
    state: u32,
    becoming: &Becoming,
    args: &[u32],
) -> Result<(), Stop>
    ensures gains { OnOk result (Gains found.old found.new) }
    ensures there { OnOk result ((j u r : ℕ) (qs : List ℕ)
        → next sorted.now.automaton.transitions state becoming.now.terminal ≡ Some qs
        → slice_get args.now j ≡ Some u → slice_get qs (becoming.now.given + j) ≡ Some r
        → Contains found.new.pairs (u, r)) }
    ensures only { AddsOnly (IsReadBehind sorted.now.automaton.transitions state becoming.now args.now)
        found.old.pairs found.new.pairs }
    ensures limit { IsErrOf result Limit → AreTooMany found.new.pairs }
{
    match next_of(sorted, state, becoming.terminal) {
        Some(states) => add_children(found, args, behind(states, becoming.given)),
        None => Ok(()),
    }
}

/// So for each of the terminals.
fn add_all_behind(
    sorted: &Sorted,
    found: &mut FoundPairs,
    state: u32,
    terminals: &[Becoming],
    args: &[u32],
) -> Result<(), Stop>
    ensures gains { OnOk result (Gains found.old found.new) }
    ensures there { OnOk result ((b : AnyBecoming) (j u r : ℕ) (qs : List ℕ) → Contains terminals.now b
        → next sorted.now.automaton.transitions state b.terminal ≡ Some qs
        → slice_get args.now j ≡ Some u → slice_get qs (b.given + j) ≡ Some r
        → Contains found.new.pairs (u, r)) }
    ensures only { AddsOnly (λ x. (b : AnyBecoming) × (Contains terminals.now b
        × IsReadBehind sorted.now.automaton.transitions state b args.now x)) found.old.pairs found.new.pairs }
    ensures limit { IsErrOf result Limit → AreTooMany found.new.pairs }
{
    for becoming in terminals {
        add_behind(sorted, found, state, becoming, args)?;
    }
    Ok(())
}

/// Adds the point of each flow pair, with the state.
fn add_points(found: &mut FoundPairs, row: &[FlowPair], state: u32) -> Result<(), Stop>
    ensures gains { OnOk result (Gains found.old found.new) }
    ensures there { OnOk result ((f : AnyFlow) → Contains row.now f
        → Contains found.new.pairs (f.point, state)) }
    ensures only { AddsOnly (λ x. (f : AnyFlow) × (Contains row.now f × (x ≡ (f.point, state))))
        found.old.pairs found.new.pairs }
    ensures limit { IsErrOf result Limit → AreTooMany found.new.pairs }
{
    for pair in row {
        found.add(pair.point, state)?;
    }
    Ok(())
}

/// Adds each point that may stand for the parameter, with the state. That is done once, however many
/// points have the parameter at their heads: `handed` has the states in which it was done, at the
/// parameter's number.
fn hand_on(
    alloc: Global,
    problem: &Problem,
    found: &mut FoundPairs,
    handed: &mut Vec<StateSet>,
    rule: u32,
    param: u32,
    state: u32,
) -> Result<(), Stop>
    requires parameter { IsParameter problem.now.points.params rule param }
    requires handed { AreHanded problem.now (pairs_by_point handed.old.items) found.old.pairs }
    ensures gains { OnOk result (Gains found.old found.new) }
    ensures handed { OnOk result
        (AreHanded problem.now (pairs_by_point handed.new.items) found.new.pairs) }
    ensures there { OnOk result ((v : ℕ) → FlowsTo problem.now rule param v
        → Contains found.new.pairs (v, state)) }
    ensures only { AddsOnly (λ x. FlowsTo problem.now rule param x.0 × (x.1 ≡ state))
        found.old.pairs found.new.pairs }
    ensures limit { IsErrOf result Limit → AreTooMany found.new.pairs }
{
    let number = problem.points.params().number(rule, param).unwrap();
    if !add_state(alloc, handed, number, state)? {
        return Ok(());
    }
    add_points(found, problem.flow.flow_of(rule, param), state)
}

/// Adds what a point with a parameter at its head demands.
fn add_by_parameter(
    alloc: Global,
    problem: &Problem,
    terminals: &Lists<Becoming>,
    found: &mut FoundPairs,
    handed: &mut Vec<StateSet>,
    point: u32,
    param: u32,
    state: u32,
) -> Result<(), Stop>
    requires point { point < length problem.now.points.points }
    requires head { (point_at problem.now.points point).head ≡ Var param }
    requires parameter { IsParameter problem.now.points.params (point_at problem.now.points point).rule
        param }
    requires handed { AreHanded problem.now (pairs_by_point handed.old.items) found.old.pairs }
    requires terminals { HasTerminals problem.now terminals.now }
    requires only { HasTerminalsOnly problem.now terminals.now }
    ensures gains { OnOk result (Gains found.old found.new) }
    ensures handed { OnOk result
        (AreHanded problem.now (pairs_by_point handed.new.items) found.new.pairs) }
    ensures there { OnOk result (HasStart problem.now found.old.pairs
        → Demands problem.now (point, state) found.new.pairs) }
    ensures only { AddsOnly (IsDemandedBy problem.now (point, state)) found.old.pairs found.new.pairs }
    ensures limit { IsErrOf result Limit → AreTooMany found.new.pairs }
{
    let rule = problem.points.rule_of(point);
    hand_on(alloc, problem, found, handed, rule, param, state)?;
    let args = problem.points.args_of(point);
    if args.is_empty() {
        return Ok(());
    }
    let list = list_at(terminals, problem.points.params(), rule, param);
    add_all_behind(&problem.sorted, found, state, list, args)
}

/// Adds what a point with a terminal at its head demands.
fn add_by_terminal(
    problem: &Problem,
    found: &mut FoundPairs,
    point: u32,
    terminal: u32,
    state: u32,
) -> Result<(), Stop>
    requires point { point < length problem.now.points.points }
    requires head { (point_at problem.now.points point).head ≡ Tm terminal }
    ensures gains { OnOk result (Gains found.old found.new) }
    ensures there { OnOk result (HasStart problem.now found.old.pairs
        → Demands problem.now (point, state) found.new.pairs) }
    ensures only { AddsOnly (IsDemandedBy problem.now (point, state)) found.old.pairs found.new.pairs }
    ensures limit { IsErrOf result Limit → AreTooMany found.new.pairs }
{
    match next_of(&problem.sorted, state, terminal) {
        Some(states) => add_children(found, problem.points.args_of(point), states),
        None => Ok(()),
    }
}

/// Adds the body of the start, in the initial state.
pub(crate) fn add_start(problem: &Problem, found: &mut FoundPairs) -> Result<(), Stop>
    ensures gains { OnOk result (Gains found.old found.new) }
    ensures there { OnOk result (HasStart problem.now found.new.pairs) }
    ensures only { AddsOnly (λ x. (slice_get problem.now.points.bodies 0 ≡ Some x.0) × (x.1 ≡ 0))
        found.old.pairs found.new.pairs }
    ensures limit { IsErrOf result Limit → AreTooMany found.new.pairs }
{
    if problem.points.params().rules() == 0 {
        return Ok(());
    }
    found.add(problem.points.body_of(0), 0)
}

/// Adds what a pair demands. A number behind the last point demands nothing.
pub(crate) fn add_demanded(
    alloc: Global,
    problem: &Problem,
    terminals: &Lists<Becoming>,
    found: &mut FoundPairs,
    handed: &mut Vec<StateSet>,
    point: u32,
    state: u32,
) -> Result<(), Stop>
    requires handed { AreHanded problem.now (pairs_by_point handed.old.items) found.old.pairs }
    requires terminals { HasTerminals problem.now terminals.now }
    requires only { HasTerminalsOnly problem.now terminals.now }
    ensures gains { OnOk result (Gains found.old found.new) }
    ensures handed { OnOk result
        (AreHanded problem.now (pairs_by_point handed.new.items) found.new.pairs) }
    ensures there { OnOk result (HasStart problem.now found.old.pairs
        → Demands problem.now (point, state) found.new.pairs) }
    ensures only { AddsOnly (IsDemandedBy problem.now (point, state)) found.old.pairs found.new.pairs }
    ensures limit { IsErrOf result Limit → AreTooMany found.new.pairs }
{
    if point >= problem.points.count() {
        return Ok(());
    }
    match problem.points.head_of(point) {
        Head::Nt(f) => found.add(problem.points.body_of(f), state),
        Head::Tm(terminal) => add_by_terminal(problem, found, point, terminal, state),
        Head::Var(param) => {
            add_by_parameter(
                alloc, problem, terminals, found, handed, point, param, state,
            )
        }
    }
}
