//! Look-ups in a problem by numbers that aren't shown to be in range.

use hs_scheme::{Argument, Head, Problem};

/// What stands at a point.
#[derive(Clone, Copy)]
pub(crate) struct At<'a> {
    pub(crate) rule: u32,
    pub(crate) head: Head,
    pub(crate) args: &'a [u32],
}

/// What stands at the point; a parameter without arguments where there is no such point.
pub(crate) fn at_point(problem: &Problem, point: u32) -> At {
    if point >= problem.points.count() {
        return At {
            rule: 0,
            head: Head::Var(0),
            args: &[],
        };
    }
    At {
        rule: problem.points.rule_of(point),
        head: problem.points.head_of(point),
        args: problem.points.args_of(point),
    }
}

/// Whose argument the point is, if any.
pub(crate) fn argument_of(problem: &Problem, point: u32) -> Option<Argument> {
    if point >= problem.points.count() {
        return None;
    }
    problem.points.argument_of(point)
}

/// The point of the rule's body.
pub(crate) fn body_of(problem: &Problem, rule: u32) -> u32 {
    if rule as usize >= problem.points.params().rules() {
        return u32::MAX;
    }
    problem.points.body_of(rule)
}

/// How many parameters the rule has.
pub(crate) fn params_of(problem: &Problem, rule: u32) -> u32 {
    problem.points.params().count_of(rule)
}

/// The number of a rule's parameter among all parameters; one behind the last where there is none.
pub(crate) fn number_of(problem: &Problem, rule: u32, param: u32) -> u32 {
    match problem.points.params().number(rule, param) {
        Some(number) => number,
        None => u32::MAX,
    }
}
