//! The points of a scheme in preorder, its parameters, its flow by parameter, and the dependents of its
//! points.

ghost use Rattle.std.specs.Prelude.{◌≡◌, length};

use crate::seeing::see;
use hs_fixtures::{BRANCHING, PARTIAL, problem_of, unsorted_of};
use hs_flow::Dependents;
use hs_scheme::{
    Argument, FlowPair, FlowTable, Head, OutOfMemory, Points, Problem, Rule, Unsorted, scheme_of,
};
use std::alloc::Global;
use std::mem::forget;
use std::process::Abort;
use std::test::Fail;

/// Looks at the points of the branching scheme and at their arguments.
fn see_points(rt: &impl Abort, points: &Points)
    requires { length points.now.points ≡ 8 }
{
    assert_eq!(rt; points.params().rules(), 2);
    let numbers = [
        points.body_of(0),
        points.body_of(1),
        points.rule_of(1),
        points.rule_of(7),
    ];
    see(rt, numbers, [0, 2, 0, 1], "bodies and rules");
    see(rt, points.args_of(0), [1].as_slice(), "of 0");
    see(rt, points.args_of(2), [3, 4].as_slice(), "of 2");
    see(rt, points.args_of(4), [5].as_slice(), "of 4");
    see(rt, points.args_of(7), [].as_slice(), "of 7");
}

/// Looks at their heads, at whose arguments they are, and at the parameters. The terminals are c, br, a
/// and b.
fn see_heads(rt: &impl Abort, points: &Points)
    requires { length points.now.points ≡ 8 }
{
    see(rt, points.head_of(5), Head::Nt(1), "of 5");
    see(rt, points.head_of(6), Head::Tm(3), "of 6");
    see(rt, points.argument_of(2), None, "of 2");
    let second = Argument { point: 2, place: 1 };
    see(rt, points.argument_of(4), Some(second), "of 4");
    let params = points.params();
    let numbers = [params.number(1, 0), params.number(0, 0)];
    see(rt, numbers, [Some(0), None], "parameters");
}

/// Looks at all of these, and at the dependents of the points.
fn see_branching(rt: &impl Abort, alloc: Global, problem: &Problem) -> Result<(), OutOfMemory> {
    assert_eq!(rt; problem.points.count(), 8);
    see_points(rt, &problem.points);
    see_heads(rt, &problem.points);
    let dependents = Dependents::of(alloc, problem)?;
    see(rt, dependents.list(0), [].as_slice(), "of 0");
    see(rt, dependents.list(2), [0, 5].as_slice(), "of 2");
    see(rt, dependents.list(6), [3, 5, 7].as_slice(), "of 6");
    forget(dependents);
    Ok(())
}

/// Looks at the pairs of a partial application.
fn see_pairs(rt: &impl Abort, flow: &FlowTable) {
    let held = (flow.holds(2, 1, 5), flow.holds(2, 1, 2));
    see(rt, held, (true, false), "holds");
    let pair = FlowPair {
        rule: 2,
        param: 0,
        point: 2,
    };
    see(rt, flow.flow_of(2, 0), [pair].as_slice(), "one pair");
    see(rt, flow.flow_of(0, 0), [].as_slice(), "no pair");
}

/// Looks at a problem whose scheme has no parameter.
fn see_no_pairs(rt: &impl Abort, none: &Problem) {
    see(rt, none.points.params().count(), 0, "parameters");
    see(rt, none.flow.flow_of(0, 0), [].as_slice(), "no pair");
    see(rt, none.flow.holds(0, 0, 0), false, "holds");
}

/// What a problem is that of.
#[derive(Clone, Copy)]
enum Of {
    Branching,
    Partial,
    NoParameter,
}

/// Looks at it.
fn see_problem(
    rt: &impl Abort,
    alloc: Global,
    problem: &Problem,
    of: Of,
) -> Result<(), OutOfMemory> {
    match of {
        Of::Branching => return see_branching(rt, alloc, problem),
        Of::Partial => see_pairs(rt, &problem.flow),
        Of::NoParameter => see_no_pairs(rt, problem),
    }
    Ok(())
}

/// Looks at the problem of a file with these rules.
fn see_rules(rt: &impl Abort, alloc: Global, rules: &str, of: Of) -> Result<(), Fail> {
    let problem = problem_of(alloc, rules, "q0 c -> .")?;
    let seen = see_problem(rt, alloc, &problem, of);
    forget(problem);
    Ok(seen?)
}

#[test]
fn points_pairs_and_dependents(rt: HostRuntime) -> Result<(), Fail> {
    let alloc = rt.alloc();
    see_rules(&rt, alloc, BRANCHING, Of::Branching)?;
    see_rules(&rt, alloc, PARTIAL, Of::Partial)?;
    see_rules(&rt, alloc, "S -> c.", Of::NoParameter)
}

/// Whether the rules are those of a scheme with terminals of these ranks.
fn are_of_a_scheme(alloc: Global, rules: Vec<Rule>, ranks: &[u32]) -> Result<bool, OutOfMemory> {
    let ranks = ranks.to_vec(alloc);
    let Ok(ranks) = ranks else {
        forget(rules);
        return Err(OutOfMemory);
    };
    let scheme = scheme_of(rules, ranks);
    let is_some = scheme.is_some();
    forget(scheme);
    Ok(is_some)
}

/// The rules of a small file.
fn rules_of_a_file(alloc: Global) -> Result<Vec<Rule>, Fail> {
    let Unsorted {
        rules,
        ranks: _,
        automaton,
        names,
    } = unsorted_of(alloc, "S -> a.", "q0 a -> .")?;
    forget(names);
    forget(automaton);
    Ok(rules)
}

/// Looks at whether the rules of a small file are those of a scheme with terminals of these ranks.
fn see_ranks(rt: &impl Abort, alloc: Global, ranks: &[u32], expected: bool) -> Result<(), Fail> {
    let rules = rules_of_a_file(alloc)?;
    let found = are_of_a_scheme(alloc, rules, ranks)?;
    see(rt, found, expected, "a rule");
    Ok(())
}

#[test]
fn rules_that_are_no_scheme(rt: HostRuntime) -> Result<(), Fail> {
    let alloc = rt.alloc();
    let of_none = are_of_a_scheme(alloc, Vec::new(alloc), &[])?;
    see(&rt, of_none, false, "no rule");
    see_ranks(&rt, alloc, &[], false)?;
    see_ranks(&rt, alloc, &[0], true)
}
