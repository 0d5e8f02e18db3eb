//! The pairs that are found.

ghost use Rattle.std.specs.Prelude.{◌≡◌, ◌≤◌, ◌<◌, [], ℕ, Some, All};
ghost use Rattle.std.specs.Prelude.{length, slice_get, Contains, OnOk, IfOk, IsFalse};
ghost use Rattle.hs_scheme.specs.declared.flow.FlowPair.{FlowPair as AnyFlowPair};
ghost use Rattle.hs_scheme.specs.declared.flow.HeadPair.{HeadPair as AnyHeadPair};
ghost use Rattle.hs_scheme.specs.declared.flow.Pair.{Pair as AnyPair};
ghost use Rattle.hs_scheme.specs.declared.flow.Pair.TheVariants.{OfFlow, OfHead};
ghost use Rattle.hs_scheme.specs.flow.Points.{points_of};
ghost use Rattle.hs_scheme.specs.flow.Flow.{IsSupported};
ghost use Rattle.hs_flow.specs.Users.{IsUser, IsUserMap};
ghost use Rattle.hs_flow.specs.Passing.{PassedBy, PassedAtFirst, PassedFor, MayBecome};
ghost use Rattle.hs_flow.specs.Pairs.{HasBaseAt, AreNone, IsAddable, IsReady, FindsOnly, Extends, TellsLimit};

use crate::bases::{Base, Bases};
use crate::fault::FlowFault;
use crate::users::Users;
use hs_scheme::{FlowPair, Head, HeadPair, OutOfMemory, Pair, Points, Rule};
use std::alloc::Global;
use std::marker::Model;

/// The pairs that are found, in the order in which they were found, and what parameters may become,
/// so that the points with a parameter at their head pass on each of that once.
///
/// Contracts see the rules, the most pairs, the pairs and the bases.
#[derive(Drop)]
pub(crate) struct Pairs<'a> {
    rules: &'a [Rule],
    points: &'a Points,
    users: &'a Users,
    max: u32,
    found: Vec<Pair>,
    bases: Bases,
}

impl<'a> Model for Pairs<'a> {
    ghost use Rattle.hs_flow.specs.Pairs.{PairsData, coded_pairs, ArePairs};

    ghost Value = { PairsData };

    ghost coded = { coded_pairs };

    ghost view = { λ a. record { rules = a.rules.now; max = a.max; found = a.found.items; bases = a.bases } };

    ghost invariant = { λ a. ArePairs a.points.now a.users.now
        (record { rules = a.rules.now; max = a.max; found = a.found.items; bases = a.bases }) };
}

impl<'a> Pairs<'a> {
    /// No pairs. There are to be at most `max`.
    pub(crate) fn new(
        alloc: Global,
        rules: &'a [Rule],
        points: &'a Points,
        users: &'a Users,
        max: u32,
    ) -> Result<Pairs<'a>, OutOfMemory>
        requires points { points.now ≡ points_of rules.now }
        requires users { IsUserMap points.now.points users.now }
        ensures { IfOk result (AreNone rules.now max) }
    {
        let bases = Bases::new(alloc, points.params())?;
        Ok(Pairs {
            rules,
            points,
            users,
            max,
            found: Vec::new(alloc),
            bases,
        })
    }

    /// The pairs, in the order in which they were found.
    pub(crate) fn found(&self) -> &[Pair]
        ensures found { result.now ≡ self.now.found }
        ensures supported { IsSupported self.now.rules result.now }
    {
        self.found.as_slice()
    }

    /// The pairs, in the order in which they were found. All else is given back.
    pub(crate) fn into_found(self) -> Vec<Pair>
        ensures found { result.items ≡ self.entry.found }
        ensures supported { IsSupported self.entry.rules result.items }
    {
        let Pairs { found, .. } = self;
        found
    }

    /// Whether a point has this parameter at its head.
    pub(crate) fn is_used(&self, rule: u32, param: u32) -> bool
        ensures { IsFalse result → (p : ℕ) → IsUser (points_of self.now.rules).points rule param p → ⊥ }
    {
        !self.users.list(rule, param).is_empty()
    }

    /// Adds a pair. `FlowLimit` comes where there are then more than `max`.
    fn add(&mut self, pair: Pair) -> Result<(), FlowFault>
        requires { IsAddable self.old pair }
        ensures finds { FindsOnly (λ q. q ≡ pair) self.old self.new }
        ensures there { OnOk result (Contains self.new.found pair) }
        ensures limit { TellsLimit result self.new }
    {
        self.found.push(pair)?;
        if self.found.len() > self.max as usize {
            return Err(FlowFault::FlowLimit);
        }
        Ok(())
    }

    /// Adds what a point passes on where its head may become the nonterminal of rule `base` with
    /// `given` arguments. An argument belongs to one point, so that no other point and no other base
    /// passes it on to the same parameter.
    fn pass(&mut self, point: u32, base: u32, given: u32) -> Result<(), FlowFault>
        requires point { point < length (points_of self.old.rules).points }
        requires within { length self.old.found ≤ self.old.max }
        requires addable { (q : AnyPair) → PassedBy self.old.rules base given point q → IsAddable self.old q }
        ensures finds { FindsOnly (PassedBy self.old.rules base given point) self.old self.new }
        ensures all { OnOk result ((q : AnyPair) →
            PassedBy self.old.rules base given point q → Contains self.new.found q) }
        ensures limit { TellsLimit result self.new }
    {
        let rules = self.rules;
        let points = self.points;
        let Some(rule) = rules.get(base as usize) else {
            return Ok(());
        };
        let args = points.args_of(point);
        let mut param = given;
        for arg in args {
            if rule.params <= param {
                return Ok(());
            }
            let pair = FlowPair {
                rule: base,
                param,
                point: *arg,
            };
            self.add(Pair::OfFlow(pair))?;
            param += 1;
        }
        if param >= rule.params {
            return Ok(());
        }
        let pair = HeadPair {
            point,
            rule: base,
            given: param,
        };
        self.add(Pair::OfHead(pair))
    }

    /// Adds what the points whose head is a nonterminal pass on.
    pub(crate) fn start(&mut self) -> Result<(), FlowFault>
        requires { self.old.found ≡ [] }
        ensures finds { FindsOnly (PassedAtFirst self.old.rules) self.old self.new }
        ensures all { OnOk result ((q : AnyPair) →
            PassedAtFirst self.old.rules q → Contains self.new.found q) }
        ensures limit { TellsLimit result self.new }
    {
        let points = self.points;
        for point in 0..points.count() {
            if let Head::Nt(base) = points.head_of(point) {
                self.pass(point, base, 0)?;
            }
        }
        Ok(())
    }

    /// Adds what the users of a parameter pass on where it may become this.
    fn pass_all(&mut self, base: Base) -> Result<(), FlowFault>
        requires within { length self.old.found ≤ self.old.max }
        requires addable { (q : AnyPair) → PassedFor self.old.rules base q → IsAddable self.old q }
        ensures finds { FindsOnly (PassedFor self.old.rules base) self.old self.new }
        ensures all { OnOk result ((q : AnyPair) →
            PassedFor self.old.rules base q → Contains self.new.found q) }
        ensures limit { TellsLimit result self.new }
    {
        let users = self.users;
        let list = users.list(base.rule, base.param);
        for point in list {
            self.pass(*point, base.base, base.given)?;
        }
        Ok(())
    }

    /// Notes what a parameter may become, and adds what its users then pass on, unless they have done
    /// so.
    fn pass_once(&mut self, base: Base) -> Result<(), FlowFault>
        requires ready { IsReady self.old }
        requires may { MayBecome self.old.found base }
        ensures extends { Extends self.old self.new }
        ensures ready { OnOk result (IsReady self.new) }
        ensures base { OnOk result (HasBaseAt self.new base) }
        ensures limit { TellsLimit result self.new }
    {
        if !self.bases.insert(self.points.params(), base)? {
            return Ok(());
        }
        self.pass_all(base)
    }

    /// Passes on what the parameter of this flow pair may become by these head pairs of its point. Most
    /// of that is known, and so costs one look at a flag.
    pub(crate) fn spread_flow(
        &mut self,
        flow: FlowPair,
        heads: &[HeadPair],
    ) -> Result<(), FlowFault>
        requires ready { IsReady self.old }
        requires flow { Contains self.old.found (OfFlow flow) }
        requires heads { All (λ h. (h.point ≡ flow.point) × Contains self.old.found (OfHead h)) heads.now }
        ensures extends { Extends self.old self.new }
        ensures ready { OnOk result (IsReady self.new) }
        ensures bases { OnOk result ((h : AnyHeadPair) → Contains heads.now h →
            HasBaseAt self.new (record {
              rule = flow.rule;
              param = flow.param;
              base = h.rule;
              given = h.given;
            })) }
        ensures limit { TellsLimit result self.new }
    {
        let points = self.points;
        let params = points.params();
        let number = params.number(flow.rule, flow.param);
        for head in heads {
            let flag = params.number(head.rule, head.given);
            if !self.bases.is_flagged(number, flag) {
                self.pass_once(Base {
                    rule: flow.rule,
                    param: flow.param,
                    base: head.rule,
                    given: head.given,
                })?;
            }
        }
        Ok(())
    }

    /// Passes on what the parameters of these flow pairs may become by this head pair of their point.
    pub(crate) fn spread_head(
        &mut self,
        flows: &[FlowPair],
        head: HeadPair,
    ) -> Result<(), FlowFault>
        requires ready { IsReady self.old }
        requires flows { All (λ f. (f.point ≡ head.point) × Contains self.old.found (OfFlow f)) flows.now }
        requires head { Contains self.old.found (OfHead head) }
        ensures extends { Extends self.old self.new }
        ensures ready { OnOk result (IsReady self.new) }
        ensures bases { OnOk result ((f : AnyFlowPair) → Contains flows.now f →
            HasBaseAt self.new (record {
              rule = f.rule;
              param = f.param;
              base = head.rule;
              given = head.given;
            })) }
        ensures limit { TellsLimit result self.new }
    {
        let points = self.points;
        let params = points.params();
        let flag = params.number(head.rule, head.given);
        for flow in flows {
            let number = params.number(flow.rule, flow.param);
            if !self.bases.is_flagged(number, flag) {
                self.pass_once(Base {
                    rule: flow.rule,
                    param: flow.param,
                    base: head.rule,
                    given: head.given,
                })?;
            }
        }
        Ok(())
    }
}
