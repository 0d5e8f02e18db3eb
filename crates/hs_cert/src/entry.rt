//! Entries.

ghost use Rattle.std.specs.Prelude.{◌≡◌, ◌≢◌, ◌<◌, ◌≤◌, ◌++◌, ℕ, List, [], length, IfOk, OnOk, IsErrOf, codes, if◌then◌else◌, ◌==◌};
ghost use Rattle.hs_scheme.specs.flow.Points.{point_at};
ghost use Rattle.hs_table.specs.Entries as table;
ghost use Rattle.hs_table.specs.Entries.{Env, EntryData};
ghost use Rattle.hs_text.specs.Canonical.{name_at, params_at};
ghost use Rattle.hs_cert.specs.declared.fault.Misread.TheVariants.{Faulty};
ghost use Rattle.hs_cert.specs.Certificate.{IsEntry};
ghost use Rattle.hs_cert.specs.Front.{AreIndexed, IsOfProblem, IsSetsFront, IsPlaceFront, label_text};

use crate::ahead::Ahead;
use crate::fault::Misread;
use crate::names::NameTable;
use crate::number::number_of;
use crate::types::{read_members, read_type};
use hs_scheme::{Name, Problem};
use hs_table::{Entry, TypeSet, parameters};
use std::alloc::Global;

/// How deep the types of a table may be nested.
const MAX_NESTING: u32 = 1_000;

/// The name with this number; nothing where there is none.
fn name_of(names: &[Name], number: usize) -> &[u8]
    ensures { result.now ≡ name_at names.now number }
{
    match names.get(number) {
        Some(name) => name.bytes(),
        None => &[],
    }
}

/// What stands before the parameter of this number: nothing before the first.
fn separator_before(number: usize) -> &'static [u8]
    ensures { result.now ≡ (if number == 0 then [] else codes "; ") }
{
    if number == 0 { b"" } else { b"; " }
}

/// Takes off the front what stands before the set of this parameter.
fn expect_label(params: &[Name], number: usize, ahead: &mut Ahead<'_>) -> Result<(), Misread>
    ensures read { OnOk result (ahead.old.bytes.now ≡ label_text params.now number ++ ahead.new.bytes.now) }
    ensures faulty { IsErrOf result Faulty → (rest : List ℕ)
        → ahead.old.bytes.now ≢ label_text params.now number ++ rest }
{
    ahead.expect(separator_before(number))?;
    ahead.expect(name_of(params, number))?;
    ahead.expect(b":{")?;
    Ok(())
}

/// The environment at the front, behind its bracket, with so many sets, where these are the names of
/// the parameters.
pub(crate) fn read_env(
    alloc: Global,
    states: &NameTable,
    params: &[Name],
    count: u32,
    ahead: &mut Ahead<'_>,
) -> Result<Vec<TypeSet>, Misread>
    requires { AreIndexed states.now }
    ensures read { IfOk result (λ env. IsSetsFront states.now params.now count ahead.old.bytes.now
        env.items ahead.new.bytes.now) }
    ensures faulty { IsErrOf result Faulty → (env : Env) (rest : List ℕ)
        → IsSetsFront states.now params.now count ahead.old.bytes.now env rest → ⊥ }
{
    let mut env = Vec::with_capacity(alloc, count as usize)?;
    for number in 0..count {
        expect_label(params, number as usize, ahead)?;
        let mut types = Vec::new(alloc);
        read_members(alloc, states, MAX_NESTING, &mut types, ahead)?;
        env.push(TypeSet { types })?;
    }
    ahead.expect(b"]")?;
    Ok(env)
}

/// The number of points.
fn point_count(problem: &Problem) -> u32
    ensures count { result ≡ length problem.now.points.points }
    ensures few { length problem.now.points.points ≤ 500000 }
{
    problem.points.count()
}

/// The name of the rule in which the point stands.
fn rule_name(problem: &Problem, point: u32) -> &[u8]
    requires { point < length problem.now.points.points }
    ensures { result.now
        ≡ name_at problem.now.sorted.names.rules (point_at problem.now.points point).rule }
{
    let rule = problem.points.rule_of(point);
    name_of(problem.sorted.names.rules.as_slice(), rule as usize)
}

/// The names of the parameters of the point's rule.
fn params_of(problem: &Problem, point: u32) -> &[Name]
    requires { point < length problem.now.points.points }
    ensures { result.now
        ≡ params_at problem.now.sorted.names.params (point_at problem.now.points point).rule }
{
    let rule = problem.points.rule_of(point);
    match problem.sorted.names.params.get(rule as usize) {
        Some(params) => params.as_slice(),
        None => &[],
    }
}

/// How many parameters the point's rule has.
fn param_count(problem: &Problem, point: u32) -> u32
    requires { point < length problem.now.points.points }
    ensures { result ≡ table.params_of problem.now (point_at problem.now.points point).rule }
{
    parameters(problem, problem.points.rule_of(point))
}

/// The number of a point at the front, with the name of its rule and the bracket behind it.
fn read_place(problem: &Problem, ahead: &mut Ahead<'_>) -> Result<u32, Misread>
    ensures read { IfOk result (λ point. IsPlaceFront problem.now ahead.old.bytes.now point ahead.new.bytes.now) }
    ensures faulty { IsErrOf result Faulty → (point : ℕ) (rest : List ℕ)
        → IsPlaceFront problem.now ahead.old.bytes.now point rest → ⊥ }
{
    let count = point_count(problem);
    let point = match number_of(ahead.take_run()) {
        Some(number) => {
            if number >= u64::from(count) {
                return Err(Misread::Faulty);
            }
            number as u32
        }
        None => return Err(Misread::Faulty),
    };
    ahead.expect(b" ")?;
    ahead.expect(rule_name(problem, point))?;
    ahead.expect(b" [")?;
    Ok(point)
}

/// The entry whose text the line is, which is in shape, with types nested at most 1,000 deep.
/// Recurses as deep as the types.
pub(crate) fn read_entry(
    alloc: Global,
    problem: &Problem,
    states: &NameTable,
    line: &[u8],
) -> Result<Entry, Misread>
    requires states { AreIndexed states.now }
    requires same { IsOfProblem problem.now states.now }
    ensures read { IfOk result (λ e. IsEntry problem.now line.now e) }
    ensures faulty { IsErrOf result Faulty → (e : EntryData) → IsEntry problem.now line.now e → ⊥ }
{
    let mut ahead = Ahead::new(line);
    let point = read_place(problem, &mut ahead)?;
    let params = params_of(problem, point);
    let env = read_env(
        alloc,
        states,
        params,
        param_count(problem, point),
        &mut ahead,
    )?;
    ahead.expect(b" ")?;
    let ty = read_type(alloc, states, MAX_NESTING, &mut ahead)?;
    if ahead.is_empty() {
        Ok(Entry { point, env, ty })
    } else {
        Err(Misread::Faulty)
    }
}
