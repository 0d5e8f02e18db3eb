//! What a point with arguments demands by one of the bases that its head may become: flow pairs of its
//! arguments, and a head pair of its own.

ghost use Rattle.std.specs.Prelude.{◌≡◌, ◌+◌, ◌-◌, ◌^◌, ◌<◌, Contains, IsTrue, MatchOption, MatchResult};
ghost use Rattle.hs_scheme.specs.declared.flow.FlowPair.{FlowPair as AnyFlow};
ghost use Rattle.hs_scheme.specs.declared.flow.HeadPair.{HeadPair as AnyHead};
ghost use Rattle.hs_table.specs.Entries.{params_of};
ghost use Rattle.hs_flow_checker.specs.PassedOn.{base_of, PassesArgument, PassesFlow, PassesHead};

use crate::distances::left_at_one_distance;
use crate::head_pairs::{HeadPairs, is_head_at, not_in_turn};
use hs_scheme::{FlowPair, FlowTable, HeadPair, Problem};

/// A head may become the nonterminal of this rule with `given` arguments.
#[derive(Clone, Copy, Drop)]
pub(crate) struct Base {
    pub(crate) rule: u32,
    pub(crate) given: u32,
}

/// How many parameters of the base's rule are still missing.
fn missing_parameters(problem: &Problem, base: Base) -> u32
    ensures count { result ≡ params_of problem.now base.rule - base.given }
    ensures within { base.given + result < 2 ^ 32 }
{
    match problem.sorted.scheme.rules.get(base.rule as usize) {
        None => 0,
        Some(rule) => rule.params.saturating_sub(base.given),
    }
}

/// Whether a pair of the point stands at this place.
fn is_at(row: &[FlowPair], place: usize, point: u32) -> bool
    ensures { IsTrue result → (f : AnyFlow) × (Contains row.now f × (f.point ≡ point)) }
{
    match row.get(place) {
        None => false,
        Some(pair) => pair.point == point,
    }
}

/// Whether the base's parameter behind so many others may be the argument, by a pair at this place
/// among those of the parameter.
fn is_passed(flow: &FlowTable, base: Base, number: usize, arg: u32, place: usize) -> bool
    ensures { IsTrue result → Contains flow.now.pairs
        (record { rule = base.rule; param = base.given + number; point = arg }) }
{
    let Ok(number) = u32::try_from(number) else {
        return false;
    };
    match base.given.checked_add(number) {
        None => false,
        Some(param) => is_at(flow.flow_of(base.rule, param), place, arg),
    }
}

/// The place of the pair among those of its parameter, if the flow holds it.
fn find(flow: &FlowTable, pair: FlowPair) -> Option<usize>
    ensures { MatchOption result (Contains flow.now.pairs pair → ⊥) (λ _. Contains flow.now.pairs pair) }
{
    let row = flow.flow_of(pair.rule, pair.param);
    match row.binary_search(&pair) {
        Ok(place) => Some(place),
        Err(_) => None,
    }
}

/// The place of the flow pair that the argument of this number demands by the base, among those of its
/// parameter, or the pair where it isn't held. The place `guess` is looked at first, and it is the
/// answer, too, where nothing is demanded.
fn flow_place(
    problem: &Problem,
    base: Base,
    number: usize,
    arg: u32,
    guess: usize,
) -> Result<usize, FlowPair>
    ensures { MatchResult result
        (λ _. (f : AnyFlow) → PassesArgument problem.now base number arg f
        → Contains problem.now.flow.pairs f)
        (λ f. PassesArgument problem.now base number arg f × (Contains problem.now.flow.pairs f → ⊥)) }
{
    if is_passed(&problem.flow, base, number, arg, guess) {
        return Ok(guess);
    }
    if number >= missing_parameters(problem, base) as usize {
        return Ok(guess);
    }
    let pair = FlowPair {
        rule: base.rule,
        param: base.given + number as u32,
        point: arg,
    };
    match find(&problem.flow, pair) {
        None => Err(pair),
        Some(place) => Ok(place),
    }
}

/// The flow pairs of all parameters.
fn all_pairs(problem: &Problem) -> &[FlowPair]
    ensures { result.now ≡ problem.now.flow.pairs }
{
    problem.flow.pairs.as_slice()
}

/// The first flow pair that the argument of this number demands by one of the bases and that isn't
/// held, or the place where the last that is held was found.
fn flow_gap_by(
    problem: &Problem,
    bases: &[HeadPair],
    number: usize,
    arg: u32,
    guess: usize,
) -> Result<usize, FlowPair>
    ensures { MatchResult result
        (λ _. (h : AnyHead) → Contains bases.now h → (f : AnyFlow) →
        PassesArgument problem.now (base_of h) number arg f → Contains problem.now.flow.pairs f)
        (λ f. (h : AnyHead) × (Contains bases.now h
        × (PassesArgument problem.now (base_of h) number arg f × (Contains problem.now.flow.pairs f → ⊥)))) }
{
    let mut place = guess;
    for head in left_at_one_distance(all_pairs(problem), bases, number, arg) {
        let base = Base {
            rule: head.rule,
            given: head.given,
        };
        match flow_place(problem, base, number, arg, place) {
            Ok(found) => place = found,
            Err(pair) => return Err(pair),
        }
    }
    Ok(place)
}

/// The first flow pair that a point with these arguments demands by one of the bases and that isn't
/// held. The last that is held was found at the place `guess`.
pub(crate) fn flow_gap(
    problem: &Problem,
    args: &[u32],
    bases: &[HeadPair],
    guess: &mut usize,
) -> Option<FlowPair>
    ensures { MatchOption result
        ((h : AnyHead) → Contains bases.now h → (f : AnyFlow) →
        PassesFlow problem.now args.now (base_of h) f → Contains problem.now.flow.pairs f)
        (λ f. (h : AnyHead) × (Contains bases.now h
        × (PassesFlow problem.now args.now (base_of h) f × (Contains problem.now.flow.pairs f → ⊥)))) }
{
    for (number, arg) in args.iter().enumerate() {
        match flow_gap_by(problem, bases, number, *arg, *guess) {
            Ok(place) => *guess = place,
            Err(pair) => return Some(pair),
        }
    }
    None
}

/// Whether the point with these head pairs may become the base with so many arguments more, by the
/// pair at this place.
fn is_taken(own: &[HeadPair], base: Base, count: usize, place: usize) -> bool
    ensures { IsTrue result → (h : AnyHead)
        × (Contains own.now h × ((h.rule ≡ base.rule) × (h.given ≡ base.given + count))) }
{
    let Ok(count) = u32::try_from(count) else {
        return false;
    };
    match base.given.checked_add(count) {
        None => false,
        Some(given) => is_head_at(own, place, base.rule, given),
    }
}

/// The place behind the head pair that a point with these arguments demands by the base, among those
/// of the point, or the pair where it isn't held. The place `guess` is looked at first, and it is the
/// answer, too, where nothing is demanded.
fn head_place(
    problem: &Problem,
    heads: &HeadPairs,
    own: &[HeadPair],
    point: u32,
    args: &[u32],
    base: Base,
    guess: usize,
) -> Result<usize, HeadPair>
    requires heads { heads.now ≡ problem.now.flow.heads }
    requires own { (h : AnyHead) → Contains own.now h → Contains heads.now h × (h.point ≡ point) }
    ensures { MatchResult result
        (λ _. (h : AnyHead) → PassesHead problem.now point args.now base h
        → Contains problem.now.flow.heads h)
        (λ h. PassesHead problem.now point args.now base h × (Contains problem.now.flow.heads h → ⊥)) }
{
    if is_taken(own, base, args.len(), guess) {
        return Ok(guess.saturating_add(1));
    }
    if args.len() >= missing_parameters(problem, base) as usize {
        return Ok(guess);
    }
    let pair = HeadPair {
        point,
        rule: base.rule,
        given: base.given + args.len() as u32,
    };
    match heads.find(pair) {
        None => Err(pair),
        Some(place) => Ok(place.saturating_add(1)),
    }
}

/// The first head pair that a point with these arguments demands by one of the bases and that isn't
/// held. The last that is held was found before the place `guess`.
pub(crate) fn head_gap(
    problem: &Problem,
    heads: &HeadPairs,
    point: u32,
    args: &[u32],
    bases: &[HeadPair],
    guess: &mut usize,
) -> Option<HeadPair>
    requires { heads.now ≡ problem.now.flow.heads }
    ensures { MatchOption result
        ((b : AnyHead) → Contains bases.now b → (h : AnyHead) →
        PassesHead problem.now point args.now (base_of b) h → Contains problem.now.flow.heads h)
        (λ h. (b : AnyHead) × (Contains bases.now b
        × (PassesHead problem.now point args.now (base_of b) h × (Contains problem.now.flow.heads h → ⊥)))) }
{
    let own = heads.at_point(point);
    let rest = not_in_turn(own, *guess, bases, args.len());
    let mut place = guess.saturating_add(bases.len()).saturating_sub(rest.len());
    for head in rest {
        let base = Base {
            rule: head.rule,
            given: head.given,
        };
        match head_place(problem, heads, own, point, args, base, place) {
            Ok(found) => place = found,
            Err(pair) => return Some(pair),
        }
    }
    *guess = place;
    None
}
