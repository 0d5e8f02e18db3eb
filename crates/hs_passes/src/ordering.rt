//! An order in which unused parameters can be dropped, found by counting what needs them: each time
//! that a parameter goes, the points in the arguments for it go, and what none of the others needs
//! can go next (William F. Dowling and Jean H. Gallier, Linear-time algorithms for testing the
//! satisfiability of propositional Horn formulae, 1984).
//!
//! Nothing is claimed of the order here. Who uses it checks it.

ghost use Rattle.std.specs.Prelude.{◌≡◌, ◌<◌, length, sum, vec_len, IfOk};

use hs_scheme::{Head, OutOfMemory, Parameters, Points, PointsFault, Scheme};
use std::alloc::Global;
use std::mem::replace;

/// The rank of a parameter that isn't dropped, higher than there are parameters.
pub(crate) const NEVER: u32 = 2_000_000_000;

/// Parameters of one rule, from the first of them on to the last but one.
#[derive(Clone, Copy)]
struct Span {
    rule: u32,
    from: u32,
    to: u32,
}

/// No point.
const NO_POINT: u32 = u32::MAX;

/// What is left while parameters go.
#[derive(Drop)]
struct Left {
    /// How many of the points that are left need each parameter, by its number.
    needs: Vec<u32>,
    /// Which points are left.
    points: Vec<bool>,
    /// For each rule the last of the points with its nonterminal in front.
    last: Vec<u32>,
    /// For each of these points the one before, with the same nonterminal.
    before: Vec<u32>,
    /// The parameters that can go next, each with its rule.
    pending: Vec<(u32, u32)>,
    /// The points that go next.
    going: Vec<u32>,
    /// Whether memory sufficed so far. Nothing is added to `pending` and `going` once it didn't.
    is_whole: bool,
}

/// The parameters that the point needs: its own, or those for which it has no argument.
fn needs_of(points: &Points, parameters: &Parameters, point: u32) -> Span
    requires { point < length points.now.points }
{
    match points.head_of(point) {
        Head::Var(param) => Span {
            rule: points.rule_of(point),
            from: param,
            to: param.saturating_add(1),
        },
        Head::Nt(rule) => Span {
            rule,
            from: u32::try_from(points.args_of(point).len()).unwrap_or(u32::MAX),
            to: parameters.count_of(rule),
        },
        Head::Tm(_) => Span {
            rule: 0,
            from: 0,
            to: 0,
        },
    }
}

/// Sets the item at this place, where there is one.
fn put(list: &mut [u32], place: u32, value: u32) {
    if let Some(item) = list.get_mut(place as usize) {
        *item = value;
    }
}

/// The item at this place, or `NO_POINT` past the end.
fn get(list: &[u32], place: u32) -> u32 {
    list.get(place as usize).copied().unwrap_or(NO_POINT)
}

/// Whether the point was left; now it isn't.
fn take(left: &mut [bool], point: u32) -> bool {
    match left.get_mut(point as usize) {
        Some(here) => replace(here, false),
        None => false,
    }
}

/// Counts these parameters once more.
fn count(parameters: &Parameters, span: Span, needs: &mut [u32]) {
    for param in span.from..span.to {
        if let Some(number) = parameters.number(span.rule, param) {
            let count = get(needs, number);
            put(needs, number, count.saturating_add(1));
        }
    }
}

/// Counts this parameter once less, and tells whether nothing needs it any more.
fn discount(parameters: &Parameters, rule: u32, param: u32, needs: &mut [u32]) -> bool {
    match parameters.number(rule, param) {
        Some(number) => {
            let count = get(needs, number).saturating_sub(1);
            put(needs, number, count);
            count == 0
        }
        None => false,
    }
}

impl Left {
    /// Nothing yet.
    fn new(alloc: Global) -> Left {
        Left {
            needs: Vec::new(alloc),
            points: Vec::new(alloc),
            last: Vec::new(alloc),
            before: Vec::new(alloc),
            pending: Vec::new(alloc),
            going: Vec::new(alloc),
            is_whole: true,
        }
    }

    /// All points, before any of them is looked at. Each parameter is counted once.
    fn fill(&mut self, points: usize, parameters: usize, rules: usize) {
        self.is_whole = self.needs.resize(parameters, 1).is_ok()
            && self.points.resize(points, true).is_ok()
            && self.last.resize(rules, NO_POINT).is_ok()
            && self.before.resize(points, NO_POINT).is_ok();
    }

    /// Notes the point among those with this rule's nonterminal in front.
    fn note(&mut self, rule: u32, point: u32) {
        let before = get(self.last.as_slice(), rule);
        put(self.before.as_mut_slice(), point, before);
        put(self.last.as_mut_slice(), rule, point);
    }

    /// Counts what each point needs.
    fn look(&mut self, points: &Points, parameters: &Parameters) {
        for point in 0..points.count() {
            count(
                parameters,
                needs_of(points, parameters, point),
                self.needs.as_mut_slice(),
            );
            if let Head::Nt(rule) = points.head_of(point) {
                self.note(rule, point);
            }
        }
    }

    /// Adds a parameter that can go.
    fn free(&mut self, rule: u32, param: u32) {
        if self.is_whole {
            self.is_whole = self.pending.push((rule, param)).is_ok();
        }
    }

    /// Adds points that go.
    fn go(&mut self, points: &[u32]) {
        if self.is_whole {
            self.is_whole = self.going.extend_from_slice(points).is_ok();
        }
    }

    /// Counts these parameters once less, and adds those that nothing needs any more.
    fn release(&mut self, parameters: &Parameters, span: Span) {
        for param in span.from..span.to {
            if discount(parameters, span.rule, param, self.needs.as_mut_slice()) {
                self.free(span.rule, param);
            }
        }
    }

    /// Takes the points away that go, with all that is in their arguments.
    fn remove(&mut self, points: &Points, parameters: &Parameters) {
        for _ in 0..points.count() {
            let Some(point) = self.going.pop() else {
                return;
            };
            if point < points.count() && take(self.points.as_mut_slice(), point) {
                self.release(parameters, needs_of(points, parameters, point));
                self.go(points.args_of(point));
            }
        }
    }

    /// Takes the arguments for this parameter away.
    fn remove_arguments(
        &mut self,
        points: &Points,
        parameters: &Parameters,
        rule: u32,
        param: u32,
    ) {
        let mut point = get(self.last.as_slice(), rule);
        for _ in 0..points.count() {
            if point >= points.count() {
                return;
            }
            if let Some(arg) = points.args_of(point).get(param as usize) {
                self.go(&[*arg]);
                self.remove(points, parameters);
            }
            point = get(self.before.as_slice(), point);
        }
    }

    /// Gives ranks in the order in which the parameters go.
    fn rank(&mut self, points: &Points, parameters: &Parameters, ranks: &mut [u32]) {
        for next in 0..parameters.count() {
            let Some((rule, param)) = self.pending.pop() else {
                return;
            };
            if let Some(number) = parameters.number(rule, param) {
                put(ranks, number, next);
            }
            self.remove_arguments(points, parameters, rule, param);
        }
    }

    /// Adds the parameters that no point needs: each was counted once more than points need it.
    fn release_all(&mut self, parameters: &Parameters, rules: u32) {
        for rule in 0..rules {
            let to = parameters.count_of(rule);
            self.release(parameters, Span { rule, from: 0, to });
        }
    }

    /// Gives ranks where memory suffices.
    fn work(
        &mut self,
        points: &Points,
        parameters: &Parameters,
        rules: u32,
        ranks: &mut [u32],
    ) -> Result<(), OutOfMemory> {
        self.fill(points.count() as usize, ranks.len(), rules as usize);
        self.look(points, parameters);
        self.release_all(parameters, rules);
        self.rank(points, parameters, ranks);
        if self.is_whole {
            Ok(())
        } else {
            Err(OutOfMemory)
        }
    }
}

/// Ranks the parameters that go, where these are the points of the scheme.
fn rank_over(
    alloc: Global,
    points: &Points,
    parameters: &Parameters,
    rules: u32,
    ranks: &mut [u32],
) -> Result<(), OutOfMemory> {
    let mut left = Left::new(alloc);
    let done = left.work(points, parameters, rules, ranks);
    drop(left);
    done
}

/// Ranks the parameters that go, none where there are too many points.
fn rank_all(
    alloc: Global,
    parameters: &Parameters,
    scheme: &Scheme,
    ranks: &mut [u32],
) -> Result<(), OutOfMemory> {
    let points = match Points::of(alloc, scheme) {
        Ok(points) => points,
        Err(PointsFault::TooMany) => return Ok(()),
        Err(PointsFault::OutOfMemory) => return Err(OutOfMemory),
    };
    let done = rank_over(alloc, &points, parameters, scheme.rules.len() as u32, ranks);
    drop(points);
    done
}

/// Ranks of the parameters by their numbers: lower ones for those that go earlier, and `NEVER` for
/// those that stay, as all do in a scheme with more points than `Points` take. In time and memory in
/// proportion to the size of the scheme, where each point counts with the parameters that it needs.
pub(crate) fn ranks(
    alloc: Global,
    parameters: &Parameters,
    scheme: &Scheme,
) -> Result<Vec<u32>, OutOfMemory>
    ensures { IfOk result (λ ranks. vec_len ranks ≡ sum parameters.now) }
{
    let mut ranks = vec![in alloc; NEVER; parameters.count() as usize]?;
    rank_all(alloc, parameters, scheme, ranks.as_mut_slice())?;
    Ok(ranks)
}
