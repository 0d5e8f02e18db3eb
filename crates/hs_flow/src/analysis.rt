//! The flow analysis.

ghost use Rattle.std.specs.Prelude.{◌≡◌, ◌+◌, ◌≤◌, ◌<◌, List, Some, length};
ghost use Rattle.std.specs.Prelude.{slice_get, All, IfOk, IfSome, IfNone, OnOk, IsErrOf};
ghost use Rattle.hs_scheme.specs.declared.flow.Pair.{Pair as AnyPair};
ghost use Rattle.hs_scheme.specs.declared.flow.Pair.TheVariants.{OfFlow, OfHead};
ghost use Rattle.hs_scheme.specs.flow.Points.{points_of};
ghost use Rattle.hs_scheme.specs.flow.Flow.{IsClosed, IsSupported, IsFlow, IsFlowTable};
ghost use Rattle.hs_scheme.specs.Problem.{FlowWithin, HeadWithin};
ghost use Rattle.hs_flow.specs.declared.fault.FlowFault.TheVariants.{FlowLimit};
ghost use Rattle.hs_flow.specs.Users.{IsUserMap};
ghost use Rattle.hs_flow.specs.Analysis.{point_of, HasBases};
ghost use Rattle.hs_flow.specs.Pairs.{AreNone, IsReady, Extends, TellsLimit};

use crate::fault::FlowFault;
use crate::lists::Lists;
use crate::pairs::Pairs;
use crate::table::table;
use crate::users::Users;
use hs_scheme::{FlowPair, FlowTable, HeadPair, OutOfMemory, Pair, Points, Rule, Scheme};
use std::alloc::Global;
use std::marker::Model;

/// The pairs that are found, and how many of them were taken: of these all that they demand together
/// is found. Contracts see the two.
#[derive(Drop)]
struct Analysis<'a> {
    pairs: Pairs<'a>,
    taken: usize,
    /// For each point, the flow pairs of it that were taken, but for those of parameters that no
    /// point has at its head.
    flows: Lists<FlowPair>,
    /// For each point, the head pairs of it that were taken.
    heads: Lists<HeadPair>,
}

impl<'a> Model for Analysis<'a> {
    ghost use Rattle.hs_flow.specs.Analysis.{AnalysisData, coded_analysis, IsAnalysis};

    ghost Value = { AnalysisData };

    ghost coded = { coded_analysis };

    ghost view = { λ a. record { pairs = a.pairs; taken = a.taken } };

    ghost invariant = { λ a. IsAnalysis a.flows a.heads (record { pairs = a.pairs; taken = a.taken }) };
}

/// The pair at this place, where there is one.
fn pair_at(found: &[Pair], place: usize) -> Option<Pair>
    ensures { result ≡ slice_get found.now place }
{
    found.get(place).copied()
}

impl<'a> Analysis<'a> {
    /// Nothing is found. There are to be at most `max` pairs.
    fn new(
        alloc: Global,
        rules: &'a [Rule],
        points: &'a Points,
        users: &'a Users,
        max: u32,
    ) -> Result<Analysis<'a>, OutOfMemory>
        requires points { points.now ≡ points_of rules.now }
        requires users { IsUserMap points.now.points users.now }
        ensures none { IfOk result (λ a. AreNone rules.now max a.pairs) }
        ensures taken { IfOk result (λ a. a.taken ≡ 0) }
    {
        let count = points.count() as usize;
        let flows = Lists::empty(alloc, count)?;
        let heads = Lists::empty(alloc, count)?;
        let pairs = Pairs::new(alloc, rules, points, users, max)?;
        Ok(Analysis {
            pairs,
            taken: 0,
            flows,
            heads,
        })
    }

    /// The pairs, in the order in which they were found. All else is given back.
    fn into_found(self) -> Vec<Pair>
        ensures found { result.items ≡ self.entry.pairs.found }
        ensures supported { IsSupported self.entry.pairs.rules result.items }
    {
        let Analysis { pairs, .. } = self;
        pairs.into_found()
    }

    /// Takes the next pair, which is this flow pair: finds what is demanded from it and a head pair
    /// that was taken before.
    fn take_flow(&mut self, flow: FlowPair) -> Result<(), FlowFault>
        requires ready { IsReady self.old.pairs }
        requires next { slice_get self.old.pairs.found self.old.taken ≡ Some (OfFlow flow) }
        requires point { flow.point < length (points_of self.old.pairs.rules).points }
        ensures extends { Extends self.old.pairs self.new.pairs }
        ensures ready { OnOk result (IsReady self.new.pairs) }
        ensures taken { OnOk result (self.new.taken ≡ self.old.taken + 1) }
        ensures limit { TellsLimit result self.new.pairs }
    {
        if !self.pairs.is_used(flow.rule, flow.param) {
            self.taken += 1;
            return Ok(());
        }
        let heads = self.heads.list(flow.point as usize);
        self.pairs.spread_flow(flow, heads)?;
        self.flows.push(flow.point as usize, flow)?;
        self.taken += 1;
        Ok(())
    }

    /// Takes the next pair, which is this head pair: finds what is demanded from it and a flow pair
    /// that was taken before.
    fn take_head(&mut self, head: HeadPair) -> Result<(), FlowFault>
        requires ready { IsReady self.old.pairs }
        requires next { slice_get self.old.pairs.found self.old.taken ≡ Some (OfHead head) }
        requires point { head.point < length (points_of self.old.pairs.rules).points }
        ensures extends { Extends self.old.pairs self.new.pairs }
        ensures ready { OnOk result (IsReady self.new.pairs) }
        ensures taken { OnOk result (self.new.taken ≡ self.old.taken + 1) }
        ensures limit { TellsLimit result self.new.pairs }
    {
        let flows = self.flows.list(head.point as usize);
        self.pairs.spread_head(flows, head)?;
        self.heads.push(head.point as usize, head)?;
        self.taken += 1;
        Ok(())
    }

    /// Takes the next pair, which is this one: finds what is demanded from it and the pairs that were
    /// taken before.
    fn take(&mut self, pair: Pair) -> Result<(), FlowFault>
        requires ready { IsReady self.old.pairs }
        requires next { slice_get self.old.pairs.found self.old.taken ≡ Some pair }
        requires point { point_of pair < length (points_of self.old.pairs.rules).points }
        ensures extends { Extends self.old.pairs self.new.pairs }
        ensures ready { OnOk result (IsReady self.new.pairs) }
        ensures taken { OnOk result (self.new.taken ≡ self.old.taken + 1) }
        ensures limit { TellsLimit result self.new.pairs }
    {
        match pair {
            Pair::OfFlow(flow) => self.take_flow(flow),
            Pair::OfHead(head) => self.take_head(head),
        }
    }

    /// The next pair, or `None` where all were taken.
    fn next(&self) -> Option<Pair>
        ensures next { result ≡ slice_get self.now.pairs.found self.now.taken }
        ensures point { IfSome result (λ q. point_of q < length (points_of self.now.pairs.rules).points) }
        ensures bases { IfNone result (HasBases self.now.pairs self.now.pairs.found) }
    {
        pair_at(self.pairs.found(), self.taken)
    }

    /// Finds all pairs that are demanded from the start on.
    fn run(&mut self) -> Result<(), FlowFault>
        requires none { AreNone self.old.pairs.rules self.old.pairs.max self.old.pairs }
        requires taken { self.old.taken ≡ 0 }
        ensures extends { Extends self.old.pairs self.new.pairs }
        ensures closed { OnOk result (IsClosed self.new.pairs.rules self.new.pairs.found) }
        ensures limit { TellsLimit result self.new.pairs }
    {
        self.pairs.start()?;
        while let Some(pair) = self.next() {
            self.take(pair)?;
        }
        Ok(())
    }
}

/// All pairs that are demanded from the start on, in the order in which they were found.
fn demanded(
    alloc: Global,
    rules: &[Rule],
    points: &Points,
    users: &Users,
    max: u32,
) -> Result<Vec<Pair>, FlowFault>
    requires points { points.now ≡ points_of rules.now }
    requires users { IsUserMap points.now.points users.now }
    ensures supported { IfOk result (λ found. IsSupported rules.now found.items) }
    ensures closed { IfOk result (λ found. IsClosed rules.now found.items) }
    ensures within { IfOk result (λ found. length found.items ≤ max) }
    ensures limit { IsErrOf result FlowLimit →
        (order : List AnyPair) × (IsSupported rules.now order × (max < length order)) }
{
    let mut analysis = Analysis::new(alloc, rules, points, users, max)?;
    let ran = analysis.run();
    let found = analysis.into_found();
    ran?;
    Ok(found)
}

/// The flow of a scheme, by a worklist that takes each pair once: Broadbent and Kobayashi,
/// "Saturation-based model checking of higher-order recursion schemes" (CSL 2013), restrict
/// saturation by such an analysis.
///
/// The points are those of the scheme. `FlowLimit` comes exactly where there are more than `max` pairs
/// of both kinds together.
///
/// No pair is found twice, since an argument belongs to one point at one place. Memory is in
/// proportion to the points and the pairs. Time is in proportion to these and to the meetings of a
/// flow pair and a head pair of one point, each of which looks one flag up, or one hash where there are
/// more than 8,192 parameters; the sorting at the end, of each parameter's flow pairs by themselves and
/// of all head pairs, adds the pairs times their logarithm. The meetings aren't bounded by the pairs: n
/// pairs have at most the root of n^3 meetings.
pub fn analyse(
    alloc: Global,
    scheme: &Scheme,
    points: &Points,
    max: u32,
) -> Result<FlowTable, FlowFault>
    requires { points.now ≡ points_of scheme.now.rules }
    ensures flow { IfOk result (λ table. IsFlow scheme.now.rules table.pairs table.heads) }
    ensures ascending { IfOk result IsFlowTable }
    ensures pairs { IfOk result (λ table.
        All (FlowWithin scheme.now.rules (length points.now.points)) table.pairs) }
    ensures heads { IfOk result (λ table.
        All (HeadWithin scheme.now.rules (length points.now.points)) table.heads) }
    ensures within { IfOk result (λ table. length table.pairs + length table.heads ≤ max) }
    ensures limit { IsErrOf result FlowLimit →
        (order : List AnyPair) × (IsSupported scheme.now.rules order × (max < length order)) }
{
    let users = Users::of(alloc, points)?;
    let found = demanded(alloc, scheme.rules.as_slice(), points, &users, max);
    drop(users);
    let table = table(alloc, points.params(), found?)?;
    Ok(table)
}
