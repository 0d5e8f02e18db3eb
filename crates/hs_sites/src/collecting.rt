//! The sites are collected point by point.

ghost use Rattle.std.specs.Prelude.{◌≡◌, ◌<◌, Contains, OnOk, IfOk, length};
ghost use Rattle.hs_scheme.specs.declared.term.Head.TheVariants.{Var};
ghost use Rattle.hs_scheme.specs.flow.Points.{point_at};
ghost use Rattle.hs_sites.specs.Listed.{AnySite, AreSites};
ghost use Rattle.hs_sites.specs.Collecting.{AnyOrder, IsSiteAt, HasBases, AddsTo, IsFrom, AreOrders};

use crate::bases::{Base, ParameterBases};
use crate::sites::Site;
use hs_flow_checker::HeadPairs;
use hs_scheme::{Head, OutOfMemory, Problem};
use std::alloc::Global;

/// When the sites at a point are collected: those of a rule in the order of the parameters at their
/// heads. So what a parameter may become is looked for once.
#[derive(Clone, Copy, Debug, PartialEq, Eq, PartialOrd, Ord)]
struct CollectingOrder {
    rule: u32,
    /// The parameter at the point's head, or 0 where the head is none.
    param: u32,
    point: u32,
}

/// Where the point stands in that order.
fn order_of(problem: &Problem, point: u32) -> CollectingOrder
    requires { point < length problem.now.points.points }
    ensures { result.point ≡ point }
{
    let rule = problem.points.rule_of(point);
    let param = match problem.points.head_of(point) {
        Head::Var(param) => param,
        Head::Nt(_) | Head::Tm(_) => 0,
    };
    CollectingOrder { rule, param, point }
}

/// All points in that order.
fn orders_of(alloc: Global, problem: &Problem) -> Result<Vec<CollectingOrder>, OutOfMemory>
    ensures { IfOk result (λ orders. AreOrders problem.now orders.items) }
{
    let count = problem.points.count();
    let mut orders = Vec::with_capacity(alloc, count as usize)?;
    for point in 0..count {
        orders.push_reserved(order_of(problem, point));
    }
    orders.sort_unstable();
    Ok(orders)
}

/// Adds the sites at the point by these bases of its head.
fn add_by_bases(sites: &mut Vec<Site>, bases: &[Base], point: u32) -> Result<(), OutOfMemory>
    ensures { OnOk result (AddsTo (λ (s : AnySite). IsFrom bases.now point s) sites.old.items
        sites.new.items) }
{
    for base in bases {
        let site = Site {
            nonterminal: base.nonterminal,
            given: base.given,
            point,
        };
        sites.push(site)?;
    }
    Ok(())
}

/// Adds the sites at the point, with this parameter at its head. `bases` are those of a parameter, and
/// then of this one.
fn add_by_parameter(
    alloc: Global,
    problem: &Problem,
    heads: &HeadPairs,
    bases: &mut ParameterBases,
    sites: &mut Vec<Site>,
    point: u32,
    param: u32,
) -> Result<(), OutOfMemory>
    requires point { point < length problem.now.points.points }
    requires head { (point_at problem.now.points point).head ≡ Var param }
    requires args { 0 < length (point_at problem.now.points point).args }
    requires heads { heads.now ≡ problem.now.flow.heads }
    requires bases { HasBases problem.now bases.old }
    ensures bases { OnOk result (HasBases problem.now bases.new) }
    ensures sites { OnOk result (AddsTo (IsSiteAt problem.now point) sites.old.items sites.new.items) }
{
    bases.turn_to(alloc, problem, heads, problem.points.rule_of(point), param)?;
    add_by_bases(sites, bases.bases(), point)
}

/// Adds the sites at the point.
fn add_at(
    alloc: Global,
    problem: &Problem,
    heads: &HeadPairs,
    bases: &mut ParameterBases,
    sites: &mut Vec<Site>,
    point: u32,
) -> Result<(), OutOfMemory>
    requires point { point < length problem.now.points.points }
    requires heads { heads.now ≡ problem.now.flow.heads }
    requires bases { HasBases problem.now bases.old }
    ensures bases { OnOk result (HasBases problem.now bases.new) }
    ensures sites { OnOk result (AddsTo (IsSiteAt problem.now point) sites.old.items sites.new.items) }
{
    if problem.points.args_of(point).is_empty() {
        return Ok(());
    }
    match problem.points.head_of(point) {
        Head::Tm(_) => Ok(()),
        Head::Nt(nonterminal) => {
            let site = Site {
                nonterminal,
                given: 0,
                point,
            };
            sites.push(site)?;
            Ok(())
        }
        Head::Var(param) => add_by_parameter(alloc, problem, heads, bases, sites, point, param),
    }
}

/// Adds the sites at the points in this order.
fn add_in_order(
    alloc: Global,
    problem: &Problem,
    heads: &HeadPairs,
    orders: &[CollectingOrder],
    bases: &mut ParameterBases,
    sites: &mut Vec<Site>,
) -> Result<(), OutOfMemory>
    requires points { (t : AnyOrder) → Contains orders.now t → t.point < length problem.now.points.points }
    requires heads { heads.now ≡ problem.now.flow.heads }
    requires bases { HasBases problem.now bases.old }
    ensures { OnOk result (AddsTo (λ (s : AnySite). (t : AnyOrder) × (Contains orders.now t
        × IsSiteAt problem.now t.point s))
        sites.old.items sites.new.items) }
{
    for order in orders {
        add_at(alloc, problem, heads, bases, sites, order.point)?;
    }
    Ok(())
}

/// Adds all sites to none.
fn add_all(alloc: Global, problem: &Problem, sites: &mut Vec<Site>) -> Result<(), OutOfMemory>
    requires { length sites.old.items ≡ 0 }
    ensures { OnOk result (AreSites problem.now sites.new.items) }
{
    let orders = orders_of(alloc, problem)?;
    let heads = HeadPairs::of(alloc, problem)?;
    let mut bases = ParameterBases::of(alloc, problem, &heads, 0, 0)?;
    add_in_order(alloc, problem, &heads, orders.as_slice(), &mut bases, sites)
}

/// All sites of the problem, by rule, by the parameter at the head of their points, and by point.
pub(crate) fn collect(alloc: Global, problem: &Problem) -> Result<Vec<Site>, OutOfMemory>
    ensures { IfOk result (λ sites. AreSites problem.now sites.items) }
{
    let mut sites = Vec::new(alloc);
    add_all(alloc, problem, &mut sites)?;
    Ok(sites)
}
