//! The instances at a point: the types of its head whose sets have entries at the arguments.

ghost use Rattle.std.specs.Prelude.{◌≡◌, ◌↔◌, ◌<◌, ℕ, length, Contains, IfOk, OnOk};
ghost use Rattle.std.specs.Ordering.{nat_cmp};
ghost use Rattle.hs_scheme.specs.flow.Flow.{IsAscending};
ghost use Rattle.hs_scheme.specs.flow.Points.{NonterminalWithin};
ghost use Rattle.hs_table.specs.Types.{TypeTree};
ghost use Rattle.hs_table.specs.Tables.{IsInstance};
ghost use Rattle.hs_table_plain.specs.Enumeration as plain;
ghost use Rattle.hs_types.specs.Interned.{Grows};
ghost use Rattle.hs_checker.specs.Slots.{FitsSets, AreInShape, AreComplete};
ghost use Rattle.hs_checker.specs.Numbers.{entries_of, trees_of, AreRows, AreTypes};

use crate::fits::fitting;
use crate::heads::{body_types, in_order, parameter_types};
use crate::index::RowIndex;
use crate::terminals::terminal_instances;
use hs_scheme::{Head, OutOfMemory, Problem};
use hs_types::{Interner, TyId};
use std::alloc::Global;

/// The types that the entries at the body of the nonterminal say of it, whose sets have entries at the
/// arguments.
fn nonterminal_instances(
    alloc: Global,
    types: &mut Interner,
    problem: &Problem,
    index: &RowIndex,
    nonterminal: u32,
    args: &[u32],
) -> Result<Vec<TyId>, OutOfMemory>
    requires rows { AreRows types.old index.now }
    requires within { nonterminal < length problem.now.points.bodies }
    ensures range { IfOk result (λ found. AreTypes types.new found.items) }
    ensures each { IfOk result (λ found. (t : TypeTree) → (rule : ℕ) → Contains (trees_of types.new found.items) t
        ↔ (Contains (plain.head_types problem.now (entries_of types.old index.now) rule
        (Head.Nt nonterminal)) t × FitsSets (entries_of types.old index.now) args.now t)) }
    ensures grows { OnOk result (Grows types.old types.new) }
{
    let all = body_types(alloc, types, index, problem.points.body_of(nonterminal))?;
    fitting(alloc, types, index, args, all.as_slice())
}

/// The types of the parameter of the rule whose sets have entries at the arguments.
fn parameter_instances(
    alloc: Global,
    types: &Interner,
    problem: &Problem,
    index: &RowIndex,
    rule: u32,
    parameter: u32,
    args: &[u32],
) -> Result<Vec<TyId>, OutOfMemory>
    requires { AreRows types.now index.now }
    ensures range { IfOk result (λ found. AreTypes types.now found.items) }
    ensures each { IfOk result (λ found. (t : TypeTree) → Contains (trees_of types.now found.items) t
        ↔ (Contains (plain.head_types problem.now (entries_of types.now index.now) rule
        (Head.Var parameter)) t × FitsSets (entries_of types.now index.now) args.now t)) }
{
    let all = parameter_types(alloc, problem, index, rule, parameter)?;
    fitting(alloc, types, index, args, all.as_slice())
}

/// The types of this head in this rule whose sets have entries at the arguments, in any order.
fn fitting_types(
    alloc: Global,
    types: &mut Interner,
    problem: &Problem,
    complete: &[bool],
    index: &RowIndex,
    rule: u32,
    head: Head,
    args: &[u32],
) -> Result<Vec<TyId>, OutOfMemory>
    requires rows { AreRows types.old index.now }
    requires head { NonterminalWithin (length problem.now.points.bodies) head }
    requires complete { AreComplete problem.now complete.now }
    ensures range { IfOk result (λ found. AreTypes types.new found.items) }
    ensures each { IfOk result (λ found. (t : TypeTree) → Contains (trees_of types.new found.items) t
        ↔ (Contains (plain.head_types problem.now (entries_of types.old index.now) rule head) t
        × FitsSets (entries_of types.old index.now) args.now t)) }
    ensures grows { OnOk result (Grows types.old types.new) }
{
    match head {
        Head::Tm(terminal) => {
            terminal_instances(alloc, types, problem, complete, index, args, terminal)
        }
        Head::Nt(nonterminal) => {
            nonterminal_instances(alloc, types, problem, index, nonterminal, args)
        }
        Head::Var(parameter) => {
            parameter_instances(alloc, types, problem, index, rule, parameter, args)
        }
    }
}

/// The types of the point's head whose sets have entries, each once.
pub(crate) fn instances(
    alloc: Global,
    types: &mut Interner,
    problem: &Problem,
    complete: &[bool],
    index: &RowIndex,
    point: u32,
) -> Result<Vec<TyId>, OutOfMemory>
    requires point { point < length problem.now.points.points }
    requires rows { AreRows types.old index.now }
    requires shape { AreInShape problem.now (entries_of types.old index.now) }
    requires complete { AreComplete problem.now complete.now }
    ensures once { IfOk result (λ found. IsAscending nat_cmp found.items) }
    ensures range { IfOk result (λ found. AreTypes types.new found.items) }
    ensures each { IfOk result (λ found. (t : TypeTree) → Contains (trees_of types.new found.items) t
        ↔ IsInstance problem.now (entries_of types.old index.now) point t) }
    ensures grows { OnOk result (Grows types.old types.new) }
{
    let rule = problem.points.rule_of(point);
    let head = problem.points.head_of(point);
    let args = problem.points.args_of(point);
    let found = fitting_types(alloc, types, problem, complete, index, rule, head, args)?;
    in_order(found)
}
