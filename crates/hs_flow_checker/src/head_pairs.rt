//! The head pairs of a flow by their points.

ghost use Rattle.std.specs.Prelude.{◌≡◌, ◌↔◌, ◌⊎◌, ◌+◌, ◌<◌, ◌≤◌, ℕ, false, Contains, IfOk, IsTrue, MatchOption, length, slice_index_or};
ghost use Rattle.hs_scheme.specs.declared.flow.FlowPair.{FlowPair as AnyFlow};
ghost use Rattle.hs_scheme.specs.declared.flow.HeadPair.{HeadPair as AnyHead};
ghost use Rattle.hs_scheme.specs.flow.Flow.{IsAscending, head_cmp};
ghost use Rattle.hs_flow_checker.specs.Starts.{AreHeadStarts, IsStartBy};
ghost use Rattle.hs_flow_checker.specs.PassedOn.{HasTaken};

use crate::starts::from_first_with;
use hs_scheme::{FlowPair, HeadPair, OutOfMemory, Problem};
use std::alloc::Global;
use std::marker::Model;

/// The head pairs of a flow, and where those of each point begin. Contracts see the list of them.
#[derive(Drop)]
pub struct HeadPairs<'a> {
    pairs: &'a [HeadPair],
    /// For each point, and for one past the last, how many pairs are of lesser points.
    starts: Vec<usize>,
}

impl<'a> Model for HeadPairs<'a> {
    ghost use Rattle.std.specs.Prelude.{List};
    ghost use Rattle.std.specs.Coded.{coded_list};
    ghost use Rattle.hs_scheme.specs.declared.flow.HeadPair.{HeadPair};
    ghost use Rattle.hs_scheme.specs.flow.Flow.{IsAscending, head_cmp, coded_head_pair};
    ghost use Rattle.hs_flow_checker.specs.Starts.{AreHeadStarts};

    ghost Value = { List HeadPair };

    ghost coded = { coded_list coded_head_pair };

    ghost view = { λ a. a.pairs.now };

    ghost invariant = { λ a. record {
      ascending : IsAscending head_cmp a.pairs.now;
      starts : AreHeadStarts a.pairs.now a.starts.items;
    } };
}

/// Whether the pairs from this place on are of no lesser points than this one.
fn are_behind(pairs: &[HeadPair], place: usize, point: u32) -> bool
    ensures behind { IsTrue result → (d : AnyHead) → place < length pairs.now
        → point ≤ (slice_index_or pairs.now place d).point }
    ensures before { result ≡ false → (d : AnyHead) → place < length pairs.now
        → (slice_index_or pairs.now place d).point < point }
{
    match pairs.get(place) {
        None => true,
        Some(pair) => pair.point >= point,
    }
}

/// How many of the pairs, which are in order, are of lesser points. So many are known to be.
fn start_at(pairs: &[HeadPair], point: u32, known: usize) -> usize
    requires ascending { IsAscending head_cmp pairs.now }
    requires within { known ≤ length pairs.now }
    requires before { (k : ℕ) (d : AnyHead) → k < known → (slice_index_or pairs.now k d).point < point }
    ensures { IsStartBy (λ (h : AnyHead). h.point) pairs.now point result }
{
    for start in known..pairs.len() {
        if are_behind(pairs, start, point) {
            return start;
        }
    }
    pairs.len()
}

/// For each of so many points, and for one past them, how many of the pairs are of lesser points. The
/// pairs are in order, and of these points.
fn starts_of(alloc: Global, pairs: &[HeadPair], points: u32) -> Result<Vec<usize>, OutOfMemory>
    requires ascending { IsAscending head_cmp pairs.now }
    requires within { (h : AnyHead) → Contains pairs.now h → h.point < points }
    ensures { IfOk result (λ starts. AreHeadStarts pairs.now starts.items) }
{
    let mut starts = Vec::with_capacity(alloc, points as usize + 1)?;
    let mut known = 0;
    for point in 0..points {
        known = start_at(pairs, point, known);
        starts.push_reserved(known);
    }
    starts.push_reserved(pairs.len());
    Ok(starts)
}

/// Whether a pair of the rule with so many arguments stands at this place.
pub(crate) fn is_head_at(pairs: &[HeadPair], place: usize, rule: u32, given: u32) -> bool
    ensures { IsTrue result → (h : AnyHead) × (Contains pairs.now h × ((h.rule ≡ rule) × (h.given ≡ given))) }
{
    match pairs.get(place) {
        None => false,
        Some(pair) => pair.rule == rule && pair.given == given,
    }
}

/// Whether the pair is of the base with so many arguments more.
fn is_of_base(pair: &HeadPair, base: &HeadPair, count: u32) -> bool
    ensures { IsTrue result → (pair.now.rule ≡ base.now.rule) × (pair.now.given ≡ base.now.given + count) }
{
    pair.rule == base.rule && pair.given as u64 == base.given as u64 + count as u64
}

/// The pairs from this place on.
fn from_place(pairs: &[HeadPair], place: usize) -> &[HeadPair]
    ensures { (h : AnyHead) → Contains result.now h → Contains pairs.now h }
{
    if place > pairs.len() {
        return &pairs[..0];
    }
    &pairs[place..]
}

/// The bases from the first on for which the pair of the base with so many arguments more doesn't
/// stand at its turn, from this place on.
pub(crate) fn not_in_turn<'b>(
    pairs: &[HeadPair],
    from: usize,
    bases: &'b [HeadPair],
    count: usize,
) -> &'b [HeadPair]
    ensures part { (b : AnyHead) → Contains result.now b → Contains bases.now b }
    ensures rest { (b : AnyHead) → Contains bases.now b → Contains result.now b
        ⊎ HasTaken pairs.now b count }
{
    let Ok(more) = u32::try_from(count) else {
        return bases;
    };
    let own = from_place(pairs, from);
    let most = own.len().min(bases.len());
    for number in 0..most {
        if !is_of_base(&own[number], &bases[number], more) {
            return &bases[number..];
        }
    }
    &bases[most..]
}

impl<'a> HeadPairs<'a> {
    /// The head pairs of the problem's flow. Memory is for a number for each point, and time is in
    /// their number and in that of the pairs. The one error is want of memory.
    pub fn of(alloc: Global, problem: &'a Problem) -> Result<HeadPairs<'a>, OutOfMemory>
        ensures { IfOk result (λ heads. heads ≡ problem.now.flow.heads) }
    {
        let pairs = problem.flow.heads.as_slice();
        let starts = starts_of(alloc, pairs, problem.points.count())?;
        Ok(HeadPairs { pairs, starts })
    }

    /// The pairs of the point, counted from 0, ascending; none where there is no such point. Takes
    /// constant time.
    pub fn at_point(&self, point: u32) -> &[HeadPair]
        ensures has { (h : AnyHead) → Contains result.now h ↔ (Contains self.now h × (h.point ≡ point)) }
        ensures ascending { IsAscending head_cmp result.now }
    {
        let starts = self.starts.as_slice();
        let place = point as usize;
        if place + 1 >= starts.len() {
            return &self.pairs[..0];
        }
        let from = starts[place];
        let to = starts[place + 1];
        &self.pairs[from..to]
    }

    /// The pairs from the first on whose point becomes something. Takes constant time for each of
    /// those before it.
    pub(crate) fn from_first_headed<'b>(&self, row: &'b [FlowPair]) -> &'b [FlowPair]
        ensures part { (f : AnyFlow) → Contains result.now f → Contains row.now f }
        ensures rest { (f : AnyFlow) (h : AnyHead) → Contains row.now f → Contains self.now h
            → h.point ≡ f.point → Contains result.now f }
    {
        from_first_with(self.starts.as_slice(), row)
    }

    /// The place of the pair among those of its point, if it is there. Takes time in the logarithm of
    /// their number.
    pub(crate) fn find(&self, pair: HeadPair) -> Option<usize>
        ensures { MatchOption result (Contains self.now pair → ⊥) (λ _. Contains self.now pair) }
    {
        let pairs = self.at_point(pair.point);
        match pairs.binary_search(&pair) {
            Ok(place) => Some(place),
            Err(_) => None,
        }
    }
}
