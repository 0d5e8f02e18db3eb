//! The types of a point's head.

ghost use Rattle.std.specs.Prelude.{◌≡◌, ◌<◌, ◌++◌, length, IfOk, OnOk};
ghost use Rattle.std.specs.List.{flat_map};
ghost use Rattle.hs_scheme.specs.flow.Points.{NonterminalWithin};
ghost use Rattle.hs_scheme.specs.acceptance.Automaton as automaton;
ghost use Rattle.hs_table_plain.specs.Enumeration as plain;

use hs_scheme::{Head, OutOfMemory, Problem};
use hs_table::{Entry, Shape, Ty, TypeSet, empty_sets, rank};
use std::alloc::Global;

/// The type of a terminal whose child at this place, counted from 0, is rejected.
pub fn child_type(alloc: Global, to: &[u32], q: u32, place: usize) -> Result<Ty, OutOfMemory>
    requires { place < length to.now }
    ensures { IfOk result (λ ty. ty ≡ plain.child_type to.now q place) }
{
    let mut sets = empty_sets(alloc, to.len())?;
    sets[place] = TypeSet::single(alloc, Ty::state(to[place]))?;
    Ty::arrows(alloc, sets.as_slice(), Ty::state(q))
}

fn child_types(alloc: Global, to: &[u32], q: u32, out: &mut Vec<Ty>) -> Result<(), OutOfMemory>
    ensures { OnOk result (out.new.items ≡ out.old.items ++ plain.child_types to.now q (length to.now)) }
{
    for place in 0..to.len() {
        out.push(child_type(alloc, to, q, place)?)?;
    }
    Ok(())
}

/// The types of the terminal in one state: without a transition the type with empty sets, with one
/// a type for each child.
fn types_in(
    alloc: Global,
    problem: &Problem,
    terminal: u32,
    q: u32,
    out: &mut Vec<Ty>,
) -> Result<(), OutOfMemory>
    ensures { OnOk result (out.new.items ≡ out.old.items ++ plain.types_in problem.now terminal q
        (automaton.next problem.now.sorted.automaton.transitions q terminal)) }
{
    match problem.sorted.automaton.next(q, terminal) {
        None => {
            let sets = empty_sets(alloc, rank(problem, terminal) as usize)?;
            out.push(Ty::arrows(alloc, sets.as_slice(), Ty::state(q))?)?;
            Ok(())
        }
        Some(to) => child_types(alloc, to, q, out),
    }
}

fn terminal_types(alloc: Global, problem: &Problem, terminal: u32) -> Result<Vec<Ty>, OutOfMemory>
    ensures { IfOk result (λ out. out.items
        ≡ plain.terminal_types problem.now terminal problem.now.sorted.automaton.states) }
{
    let mut out = Vec::new(alloc);
    for q in 0..problem.sorted.automaton.states() {
        types_in(alloc, problem, terminal, q, &mut out)?;
    }
    Ok(out)
}

/// What an entry at the body says of its nonterminal, where its type is a state.
fn add_body_type(
    alloc: Global,
    entry: &Entry,
    body: u32,
    out: &mut Vec<Ty>,
) -> Result<(), OutOfMemory>
    ensures { OnOk result (out.new.items ≡ out.old.items ++ plain.body_type body entry.now) }
{
    if entry.point == body {
        if let Shape::State(q) = &entry.ty.shape {
            out.push(Ty::arrows(alloc, entry.env.as_slice(), Ty::state(*q))?)?;
        }
    }
    Ok(())
}

/// The type of an entry at a point that may stand for the parameter.
fn add_flow_type(
    alloc: Global,
    problem: &Problem,
    entry: &Entry,
    parameter: (u32, u32),
    out: &mut Vec<Ty>,
) -> Result<(), OutOfMemory>
    ensures { OnOk result (out.new.items
        ≡ out.old.items ++ plain.flow_type problem.now.flow.pairs parameter.0 parameter.1 entry.now) }
{
    if problem.flow.holds(parameter.0, parameter.1, entry.point) {
        out.push(entry.ty.copy(alloc)?)?;
    }
    Ok(())
}

fn nonterminal_types(alloc: Global, log: &[Entry], body: u32) -> Result<Vec<Ty>, OutOfMemory>
    ensures { IfOk result (λ out. out.items ≡ flat_map (plain.body_type body) log.now) }
{
    let mut out = Vec::new(alloc);
    for entry in log {
        add_body_type(alloc, entry, body, &mut out)?;
    }
    Ok(out)
}

fn parameter_types(
    alloc: Global,
    problem: &Problem,
    log: &[Entry],
    parameter: (u32, u32),
) -> Result<Vec<Ty>, OutOfMemory>
    ensures { IfOk result (λ out. out.items ≡ flat_map
        (plain.flow_type problem.now.flow.pairs parameter.0 parameter.1) log.now) }
{
    let mut out = Vec::new(alloc);
    for entry in log {
        add_flow_type(alloc, problem, entry, parameter, &mut out)?;
    }
    Ok(out)
}

/// The types of the head of a point in this rule.
pub(crate) fn head_types(
    alloc: Global,
    problem: &Problem,
    log: &[Entry],
    rule: u32,
    head: Head,
) -> Result<Vec<Ty>, OutOfMemory>
    requires { NonterminalWithin (length problem.now.points.bodies) head }
    ensures { IfOk result (λ out. out.items ≡ plain.head_types problem.now log.now rule head) }
{
    match head {
        Head::Tm(terminal) => terminal_types(alloc, problem, terminal),
        Head::Nt(nonterminal) => nonterminal_types(alloc, log, problem.points.body_of(nonterminal)),
        Head::Var(parameter) => parameter_types(alloc, problem, log, (rule, parameter)),
    }
}
