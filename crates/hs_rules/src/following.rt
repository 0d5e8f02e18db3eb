//! What follows at a point.

ghost use Rattle.std.specs.Prelude.{◌≡◌, ◌+◌, ◌^◌, ◌<◌, ◌≤◌, [], ℕ, length, slice_get, take, Some, All, IfOk, OnOk};
ghost use Rattle.hs_scheme.specs.flow.Points.{point_at};
ghost use Rattle.hs_table.specs.Entries.{InShape};
ghost use Rattle.hs_types.specs.Interned.{Grows};
ghost use Rattle.hs_rules.specs.Conclusions.{AnySupport, Uses, AreSomeConclusions, AreConclusions};
ghost use Rattle.hs_rules.specs.Listed.{TellsAsMuch};
ghost use Rattle.hs_rules.specs.Parts.{IsInRule};

use crate::deduced::Deduced;
use crate::found::none_found;
use crate::gathering::{add_all, add_seeds, add_with};
use crate::head_search::HeadSearch;
use crate::search::Search;
use crate::seeds::starts_nothing;
use hs_replica::Replica;
use hs_scheme::{OutOfMemory, Problem};
use hs_table::parameters;
use std::alloc::Global;

/// The points of the arguments of this point, which stand in its rule.
fn arguments(problem: &Problem, point: u32) -> &[u32]
    requires { point < length problem.now.points.points }
    ensures args { result.now ≡ (point_at problem.now.points point).args }
    ensures few { length result.now < 2 ^ 32 }
    ensures in_rule { (j a : ℕ) → slice_get result.now j ≡ Some a
        → IsInRule problem.now.points a (point_at problem.now.points point).rule }
{
    let points = &problem.points;
    let _ = points.count();
    points.args_of(point)
}

/// Every entry at the point that follows from the log, each once, with the support whose list of
/// places is the least: the head's first, where there is one, then those of the arguments, compared
/// place by place. The point is in range, and the entries of the log are in shape.
///
/// For each type of the point's head the entries for its sets are joined slot by slot, each
/// environment that comes of it once, and for types that ask for the same once for all. The log stays;
/// the interner gains the environments. The look-ups then tell of the whole log, and after a refusal of
/// memory of as much as before or of more.
pub fn conclusions(
    alloc: Global,
    problem: &Problem,
    replica: &mut Replica,
    point: u32,
) -> Result<Vec<Deduced>, OutOfMemory>
    requires point { point < length problem.now.points.points }
    requires shape { All (InShape problem.now) replica.old.log }
    ensures found { IfOk result (λ found.
        AreConclusions problem.now replica.new.ids replica.old.log point AnySupport found.items) }
    ensures log { replica.new.log ≡ replica.old.log }
    ensures spare { replica.new.spare ≡ replica.old.spare }
    ensures grows { Grows replica.old.ids replica.new.ids }
    ensures whole { OnOk result (replica.new.indexed ≡ length replica.new.log) }
    ensures listed { TellsAsMuch replica.old replica.new }
{
    replica.index()?;
    let limit = replica.len();
    let points = &problem.points;
    let rule = points.rule_of(point);
    let head = points.head_of(point);
    let search = Search {
        alloc,
        point,
        args: arguments(problem, point),
        limit,
        most: usize::MAX,
        fixed: None,
    };
    let at = HeadSearch {
        problem,
        rule,
        params: parameters(problem, rule),
        head,
        search,
    };
    let mut found = none_found(alloc);
    add_all(&at, replica, &mut found)?;
    replica.interner().know_numbers();
    Ok(found.list)
}

/// Every entry at the point that follows from no entries, each once: where the point's head is a
/// terminal, those by a state without a transition for it, and those by a child for which the point
/// has no argument yet. The point is in range.
///
/// Time is in proportion to the states and the children. Where nothing follows it is constant, but for a
/// terminal, which takes a step for each state, and nothing is allocated; that is found so where the
/// transitions of the terminal are in the order of their states.
pub fn seed_conclusions(
    alloc: Global,
    problem: &Problem,
    replica: &mut Replica,
    point: u32,
) -> Result<Vec<Deduced>, OutOfMemory>
    requires point { point < length problem.now.points.points }
    ensures found { IfOk result (λ found.
        AreConclusions problem.now replica.new.ids [] point AnySupport found.items) }
    ensures log { replica.new.log ≡ replica.old.log }
    ensures spare { replica.new.spare ≡ replica.old.spare }
    ensures grows { Grows replica.old.ids replica.new.ids }
    ensures listed { TellsAsMuch replica.old replica.new }
{
    let points = &problem.points;
    let rule = points.rule_of(point);
    let head = points.head_of(point);
    let args = arguments(problem, point);
    replica.interner().know_numbers();
    if starts_nothing(problem, head, args) {
        return Ok(Vec::new(alloc));
    }
    replica.index()?;
    let search = Search {
        alloc,
        point,
        args,
        limit: 0,
        most: usize::MAX,
        fixed: None,
    };
    let at = HeadSearch {
        problem,
        rule,
        params: parameters(problem, rule),
        head,
        search,
    };
    let mut found = none_found(alloc);
    add_seeds(&at, replica, &mut found)?;
    replica.interner().know_numbers();
    Ok(found.list)
}

/// Entries at the point that follow from the log up to and with this place with the entry at the place as
/// a premise, each once, with a support of this kind: all of them, each with the support whose list of
/// places is the least, or some of them that are more than `most`. The point is in range, the place is in
/// the log, and the entries of the log are in shape.
///
/// Only the types of the point's head that want this entry are looked at: the entry is an argument
/// of the point, a body of the nonterminal at its head, or one that may stand for the parameter
/// there.
///
/// `most` may be any number; with `usize::MAX` all are found, and more than `most` may be many more. The
/// search ends behind the types of the head with which there are more. For each type of the head, and for those
/// that ask for the same once for all, environments are joined slot by slot: no more than `most` + 1 of them are
/// kept for a slot, and each is united with each candidate for the next one. Where no more than `most` conclusions come of that, and environments were left
/// out at a slot, they are joined again with eight times as many for each slot. Where the slots have
/// 65,536 choices of candidates or more, those by which environments grow least, as a few environments and
/// candidates tell, are joined first; else they are joined in their order. So only a join whose first slots in
/// that order lead to many environments that later ones bring to few goes beyond `most`.
/// After a refusal of memory the log stays, and the look-ups tell of as much as before or of more.
pub fn conclusions_within(
    alloc: Global,
    problem: &Problem,
    replica: &mut Replica,
    point: u32,
    place: u32,
    most: usize,
) -> Result<Vec<Deduced>, OutOfMemory>
    requires point { point < length problem.now.points.points }
    requires place { place < length replica.old.log }
    requires shape { All (InShape problem.now) replica.old.log }
    ensures some { IfOk result (λ found.
        AreSomeConclusions problem.now replica.new.ids (take (place + 1) replica.old.log) point
        (Uses place) found.items) }
    ensures all { IfOk result (λ found. length found.items ≤ most →
        AreConclusions problem.now replica.new.ids (take (place + 1) replica.old.log) point
        (Uses place) found.items) }
    ensures log { replica.new.log ≡ replica.old.log }
    ensures spare { replica.new.spare ≡ replica.old.spare }
    ensures grows { Grows replica.old.ids replica.new.ids }
    ensures whole { OnOk result (replica.new.indexed ≡ length replica.new.log) }
    ensures listed { TellsAsMuch replica.old replica.new }
{
    replica.index()?;
    let _ = replica.len();
    let points = &problem.points;
    let rule = points.rule_of(point);
    let head = points.head_of(point);
    let search = Search {
        alloc,
        point,
        args: arguments(problem, point),
        limit: place + 1,
        most,
        fixed: None,
    };
    let at = HeadSearch {
        problem,
        rule,
        params: parameters(problem, rule),
        head,
        search,
    };
    let mut found = none_found(alloc);
    add_with(&at, replica, place, &mut found)?;
    replica.interner().know_numbers();
    Ok(found.list)
}

/// Every entry at the point that follows from the log up to and with this place with the entry at
/// the place as a premise, each once, with the support of this kind whose list of places is the least.
/// The point is in range, the place is in the log, and the entries of the log are in shape.
///
/// That is `conclusions_within` without a bound: time and memory are in what follows, and in what is joined
/// for it.
pub fn conclusions_with(
    alloc: Global,
    problem: &Problem,
    replica: &mut Replica,
    point: u32,
    place: u32,
) -> Result<Vec<Deduced>, OutOfMemory>
    requires point { point < length problem.now.points.points }
    requires place { place < length replica.old.log }
    requires shape { All (InShape problem.now) replica.old.log }
    ensures found { IfOk result (λ found.
        AreConclusions problem.now replica.new.ids (take (place + 1) replica.old.log) point
        (Uses place) found.items) }
    ensures log { replica.new.log ≡ replica.old.log }
    ensures spare { replica.new.spare ≡ replica.old.spare }
    ensures grows { Grows replica.old.ids replica.new.ids }
    ensures whole { OnOk result (replica.new.indexed ≡ length replica.new.log) }
    ensures listed { TellsAsMuch replica.old replica.new }
{
    conclusions_within(alloc, problem, replica, point, place, usize::MAX)
}
