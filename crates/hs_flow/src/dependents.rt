//! The dependents of each point.

ghost use Rattle.std.specs.Prelude.{◌≡◌, ◌<◌, ℕ, length, All, Contains, Some, slice_get, OnOk, IfOk};
ghost use Rattle.hs_scheme.specs.declared.flow.FlowPair.{FlowPair};
ghost use Rattle.hs_scheme.specs.flow.Points.{NonterminalWithin};
ghost use Rattle.hs_scheme.specs.flow.Dependents.{HeadReads, IsDependent};
ghost use Rattle.hs_flow.specs.Dependents.{HasDependents, AddsPoint, HasPoint};

use crate::short_lists::ShortLists;
use hs_scheme::{FlowPair, FlowTable, Head, OutOfMemory, Points, Problem};
use std::alloc::Global;
use std::marker::Model;

/// For each point, the points that must look again when an entry is added there: those of which it
/// is an argument; where it is a rule's body, those with that rule's nonterminal at their head;
/// where it may stand for a parameter, those with that parameter at their head.
///
/// Contracts see the list of the points' lists.
#[derive(Debug, Drop)]
pub struct Dependents {
    lists: ShortLists,
}

impl Model for Dependents {
    ghost use Rattle.std.specs.Prelude.{List, ℕ};

    ghost Value = { List (List ℕ) };

    ghost view = { λ a. a.lists };
}

/// Adds the point to the list of this number, unless it is the last there.
fn add_once(lists: &mut ShortLists, number: u32, point: u32) -> Result<(), OutOfMemory>
    requires { number < length lists.old }
    ensures { OnOk result (AddsPoint (λ p. p ≡ number) point lists.old lists.new) }
{
    if let Some(last) = lists.list(number as usize).last() {
        if *last == point {
            return Ok(());
        }
    }
    lists.push(number as usize, point)
}

/// Adds the point to the lists of its arguments.
fn add_to_arguments(lists: &mut ShortLists, args: &[u32], point: u32) -> Result<(), OutOfMemory>
    requires { All (λ a. a < length lists.old) args.now }
    ensures { OnOk result (AddsPoint (Contains args.now) point lists.old lists.new) }
{
    for arg in args {
        add_once(lists, *arg, point)?;
    }
    Ok(())
}

/// Adds the point to the lists of the points of these flow pairs.
fn add_to_flow(lists: &mut ShortLists, flow: &[FlowPair], point: u32) -> Result<(), OutOfMemory>
    requires { All (λ (f : FlowPair). f.point < length lists.old) flow.now }
    ensures { OnOk result (AddsPoint (HasPoint flow.now) point lists.old lists.new) }
{
    for pair in flow {
        add_once(lists, pair.point, point)?;
    }
    Ok(())
}

/// Adds the point to the lists of those from which the types of its head come.
fn add_to_head(
    lists: &mut ShortLists,
    points: &Points,
    flow: &FlowTable,
    rule: u32,
    head: Head,
    point: u32,
) -> Result<(), OutOfMemory>
    requires lists { length lists.old ≡ length points.now.points }
    requires flow { All (λ (f : FlowPair). f.point < length points.now.points) flow.now.pairs }
    requires head { NonterminalWithin (length points.now.bodies) head }
    ensures { OnOk result
        (AddsPoint (HeadReads points.now.bodies flow.now.pairs rule head) point lists.old lists.new) }
{
    match head {
        Head::Var(param) => add_to_flow(lists, flow.flow_of(rule, param), point),
        Head::Nt(base) => add_once(lists, points.body_of(base), point),
        Head::Tm(_) => Ok(()),
    }
}

/// Adds the point to the lists of all those of which it is a dependent.
fn add_point(
    lists: &mut ShortLists,
    points: &Points,
    flow: &FlowTable,
    point: u32,
) -> Result<(), OutOfMemory>
    requires lists { length lists.old ≡ length points.now.points }
    requires flow { All (λ (f : FlowPair). f.point < length points.now.points) flow.now.pairs }
    requires point { point < length points.now.points }
    ensures { OnOk result
        (AddsPoint (λ p. IsDependent points.now flow.now.pairs p point) point lists.old lists.new) }
{
    add_to_arguments(lists, points.args_of(point), point)?;
    let rule = points.rule_of(point);
    add_to_head(lists, points, flow, rule, points.head_of(point), point)
}

/// The dependents of each of these points by this flow.
pub(crate) fn lists_of(
    alloc: Global,
    points: &Points,
    flow: &FlowTable,
) -> Result<Dependents, OutOfMemory>
    requires { All (λ (f : FlowPair). f.point < length points.now.points) flow.now.pairs }
    ensures { IfOk result (HasDependents points.now flow.now.pairs) }
{
    let mut lists = ShortLists::empty(alloc, points.count() as usize)?;
    for point in 0..points.count() {
        add_point(&mut lists, points, flow, point)?;
    }
    Ok(Dependents { lists })
}

impl Dependents {
    /// The dependents of each point. Memory and time are in proportion to the points and the dependents.
    pub fn of(alloc: Global, problem: &Problem) -> Result<Dependents, OutOfMemory>
        ensures { IfOk result (HasDependents problem.now.points problem.now.flow.pairs) }
    {
        lists_of(alloc, &problem.points, &problem.flow)
    }

    /// The dependents of this point, which is one of the problem's, ascending and each once. Takes
    /// no memory.
    pub fn list(&self, p: u32) -> &[u32]
        requires { p < length self.now }
        ensures { slice_get self.now p ≡ Some result.now }
    {
        self.lists.list(p as usize)
    }
}
