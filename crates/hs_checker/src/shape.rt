//! Whether entries are in shape.

ghost use Rattle.std.specs.Prelude.{◌≡◌, ◌↔◌, ℕ, IsTrue, IfSome};
ghost use Rattle.hs_table.specs.Types.{TypeTree, IsSet, IsType, type_cmp};
ghost use Rattle.hs_table.specs.Entries.{Has, IsEnv, InShape, params_of};
ghost use Rattle.hs_checker.specs.Shape.{AreAllTypes};

use hs_scheme::Problem;
use hs_table::{Entry, Shape, Ty, TypeSet, parameters};
use std::cmp::Ordering;

/// The order of types where both are states.
fn by_states(ty: &Ty, other: &Ty) -> Option<Ordering>
    ensures { IfSome result (λ order. order ≡ type_cmp ty.now other.now) }
{
    if let Shape::State(q) = &ty.shape {
        if let Shape::State(p) = &other.shape {
            return Some(q.cmp(p));
        }
    }
    None
}

/// The order of types where both are arrows to states that differ.
fn by_results(ty: &Ty, other: &Ty) -> Option<Ordering>
    ensures { IfSome result (λ order. order ≡ type_cmp ty.now other.now) }
{
    if let Shape::Arrow(_, rest) = &ty.shape {
        if let Shape::Arrow(_, other_rest) = &other.shape {
            return match by_states(rest, other_rest) {
                None => None,
                Some(Ordering::Equal) => None,
                Some(order) => Some(order),
            };
        }
    }
    None
}

/// The order of types. Most are states, which are compared at once.
fn compare(ty: &Ty, other: &Ty) -> Ordering
    ensures { result ≡ type_cmp ty.now other.now }
{
    match by_states(ty, other) {
        None => ty.compare(other),
        Some(order) => order,
    }
}

/// The order of types, where many are arrows. Most of these lead to states that differ, which are compared at
/// once, too.
fn compare_arrows(ty: &Ty, other: &Ty) -> Ordering
    ensures { result ≡ type_cmp ty.now other.now }
{
    match by_results(ty, other) {
        None => compare(ty, other),
        Some(order) => order,
    }
}

/// Whether each type is less than the next.
pub(crate) fn is_set(types: &[Ty]) -> bool
    ensures { IsTrue result ↔ IsSet types.now }
{
    for place in 1..types.len() {
        if compare_arrows(&types[place - 1], &types[place]) != Ordering::Less {
            return false;
        }
    }
    true
}

/// Whether the type's states are in range, and its sets ascending. Recurses as deep as the type.
fn is_type(ty: &Ty, states: u32) -> bool
    ensures { IsTrue result ↔ IsType states ty.now }
{
    match &ty.shape {
        Shape::State(q) => *q < states,
        Shape::Arrow(set, rest) => {
            for member in set {
                if !is_type(member, states) {
                    return false;
                }
            }
            is_set(set.as_slice()) && is_type(rest, states)
        }
    }
}

/// Whether so are all of these.
fn are_types(types: &[Ty], states: u32) -> bool
    ensures { IsTrue result ↔ AreAllTypes states types.now }
{
    for member in types {
        if !is_type(member, states) {
            return false;
        }
    }
    true
}

/// Whether there are so many sets, of types in range.
fn is_env(env: &[TypeSet], params: u32, states: u32) -> bool
    ensures { IsTrue result ↔ (IsEnv params env.now
        × ((j : ℕ) (a : TypeTree) → Has env.now j a → IsType states a)) }
{
    if env.len() != params as usize {
        return false;
    }
    for set in env {
        if !is_set(set.types.as_slice()) {
            return false;
        }
        if !are_types(set.types.as_slice(), states) {
            return false;
        }
    }
    true
}

/// The number of states.
pub(crate) fn states(problem: &Problem) -> u32
    ensures { result ≡ problem.now.sorted.automaton.states }
{
    problem.sorted.automaton.states()
}

/// Whether the environment is one for the parameters of the rule, counted from 0: a set for each of
/// them, whose types are in shape. Calls recurse as deep as the types.
pub fn is_env_of(problem: &Problem, rule: u32, env: &[TypeSet]) -> bool
    ensures { IsTrue result ↔ (IsEnv (params_of problem.now rule) env.now
        × ((j : ℕ) (a : TypeTree) → Has env.now j a → IsType problem.now.sorted.automaton.states a)) }
{
    is_env(env, parameters(problem, rule), states(problem))
}

/// Whether the entry is in shape. Calls recurse as deep as its types.
pub fn is_in_shape(problem: &Problem, entry: &Entry) -> bool
    ensures { IsTrue result ↔ InShape problem.now entry.now }
{
    if entry.point >= problem.points.count() {
        return false;
    }
    let rule = problem.points.rule_of(entry.point);
    let states = states(problem);
    is_env(entry.env.as_slice(), parameters(problem, rule), states) && is_type(&entry.ty, states)
}
