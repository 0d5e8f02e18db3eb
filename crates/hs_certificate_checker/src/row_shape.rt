//! Whether rows stand for entries and for void pairs that are in shape.

ghost use Rattle.std.specs.Prelude.{◌≡◌, ◌↔◌, ◌<◌, ℕ, All, IsTrue, MatchOption, length, map};
ghost use Rattle.hs_table.specs.Types.{TypeTree, IsType};
ghost use Rattle.hs_table.specs.Entries.{Has, IsEnv, InShape, params_of};
ghost use Rattle.hs_weak.specs.Void.{IsVoidShape};
ghost use Rattle.hs_types.specs.Interned.{type_of_id, set_of_id, env_of_id, IsRow, entry_of};
ghost use Rattle.hs_numbered.specs.Certificates.{IsVoidRow, void_of};
ghost use Rattle.hs_checker.specs.Shape.{AreAllTypes};
ghost use Rattle.hs_certificate_checker.specs.Faults.{IsFirstOther, AreInVoidShape};

use crate::shape::rule_count;
use hs_numbered::VoidRow;
use hs_scheme::Problem;
use hs_table::parameters;
use hs_types::{EnvId, Interner, Row, SetId, TyId, View};

/// Whether the type's states are in range. Its sets are ascending, as all sets that have numbers. Recurses as
/// deep as the type.
fn is_type(interner: &Interner, states: u32, ty: TyId) -> bool
    requires { ty < length interner.now.types }
    ensures { IsTrue result ↔ IsType states (type_of_id interner.now ty) }
{
    interner.know_numbers();
    match interner.view(ty) {
        View::State(q) => q < states,
        View::Arrow(set, rest) => {
            for member in interner.members(set) {
                if !is_type(interner, states, *member) {
                    return false;
                }
            }
            is_type(interner, states, rest)
        }
    }
}

/// Whether so are all types of the set.
fn are_types(interner: &Interner, states: u32, set: SetId) -> bool
    requires { set < length interner.now.sets }
    ensures { IsTrue result ↔ AreAllTypes states (set_of_id interner.now set) }
{
    for member in interner.members(set) {
        if !is_type(interner, states, *member) {
            return false;
        }
    }
    true
}

/// Whether there are so many sets, of types in range.
fn is_env(interner: &Interner, params: u32, states: u32, env: EnvId) -> bool
    requires { env < length interner.now.envs }
    ensures { IsTrue result ↔ (IsEnv params (env_of_id interner.now env)
        × ((j : ℕ) (a : TypeTree) → Has (env_of_id interner.now env) j a → IsType states a)) }
{
    interner.know_numbers();
    let sets = interner.sets(env);
    if sets.len() != params as usize {
        return false;
    }
    for set in sets {
        if !are_types(interner, states, *set) {
            return false;
        }
    }
    true
}

/// The number of states.
fn state_count(problem: &Problem) -> u32
    ensures { result ≡ problem.now.sorted.automaton.states }
{
    problem.sorted.automaton.states()
}

/// Whether the environment is one for the parameters of the rule, counted from 0.
fn is_env_of_rule(problem: &Problem, interner: &Interner, rule: u32, env: EnvId) -> bool
    requires { env < length interner.now.envs }
    ensures { IsTrue result ↔ (IsEnv (params_of problem.now rule) (env_of_id interner.now env)
        × ((j : ℕ) (a : TypeTree) → Has (env_of_id interner.now env) j a
        → IsType problem.now.sorted.automaton.states a)) }
{
    let states = state_count(problem);
    is_env(interner, parameters(problem, rule), states, env)
}

/// Whether the entry that the row stands for is in shape. Time is in the size of its types. Recurses as deep as
/// they are.
pub fn is_row_in_shape(problem: &Problem, interner: &Interner, row: &Row) -> bool
    requires { IsRow interner.now row.now }
    ensures { IsTrue result ↔ InShape problem.now (entry_of interner.now row.now) }
{
    if row.point >= problem.points.count() {
        return false;
    }
    let rule = problem.points.rule_of(row.point);
    let states = state_count(problem);
    is_env(interner, parameters(problem, rule), states, row.env)
        && is_type(interner, states, row.ty)
}

/// Whether the pair that the row stands for is in shape.
fn is_void_row_in_shape(problem: &Problem, interner: &Interner, row: &VoidRow) -> bool
    requires { IsVoidRow interner.now row.now }
    ensures { IsTrue result ↔ IsVoidShape problem.now (void_of interner.now row.now) }
{
    if row.rule as usize >= rule_count(problem) {
        return false;
    }
    is_env_of_rule(problem, interner, row.rule, row.env)
}

/// The place of the first pair that is out of shape, counted from 0.
pub(crate) fn first_row_out_of_shape(
    problem: &Problem,
    interner: &Interner,
    void: &[VoidRow],
) -> Option<usize>
    requires { All (IsVoidRow interner.now) void.now }
    ensures { MatchOption result (AreInVoidShape problem.now (map (void_of interner.now) void.now))
        (IsFirstOther (IsVoidShape problem.now) (map (void_of interner.now) void.now)) }
{
    for (place, row) in void.iter().enumerate() {
        if !is_void_row_in_shape(problem, interner, row) {
            return Some(place);
        }
    }
    None
}
