//! Void environments with their nonterminals.

ghost use Rattle.std.specs.Prelude.{◌≡◌, ◌<◌, ℕ, List, IfOk, IsErrOf, length};
ghost use Rattle.hs_table.specs.Entries as table;
ghost use Rattle.hs_text.specs.Canonical.{params_at};
ghost use Rattle.hs_weak.specs.Void.{VoidData};
ghost use Rattle.hs_cert.specs.declared.fault.Misread.TheVariants.{Faulty};
ghost use Rattle.hs_cert.specs.Certificate.{IsPair};
ghost use Rattle.hs_cert.specs.Front.{AreIndexed, IsOfProblem, AreOfRules, IsRuleFront};

use crate::ahead::Ahead;
use crate::entry::read_env;
use crate::fault::Misread;
use crate::names::NameTable;
use hs_scheme::{Name, Problem};
use hs_table::parameters;
use hs_weak::Void;
use std::alloc::Global;

/// The names of the parameters of a rule.
fn params_of(problem: &Problem, rule: u32) -> &[Name]
    ensures { result.now ≡ params_at problem.now.sorted.names.params rule }
{
    match problem.sorted.names.params.get(rule as usize) {
        Some(params) => params.as_slice(),
        None => &[],
    }
}

/// How many parameters a rule has.
fn param_count(problem: &Problem, rule: u32) -> u32
    ensures { result ≡ table.params_of problem.now rule }
{
    parameters(problem, rule)
}

/// The rule whose name stands at the front, with the word before it and the bracket behind it.
fn read_rule(rules: &NameTable, ahead: &mut Ahead<'_>) -> Result<u32, Misread>
    requires { AreIndexed rules.now }
    ensures read { IfOk result (λ rule. IsRuleFront rules.now ahead.old.bytes.now rule ahead.new.bytes.now) }
    ensures faulty { IsErrOf result Faulty → (rule : ℕ) (rest : List ℕ)
        → IsRuleFront rules.now ahead.old.bytes.now rule rest → ⊥ }
{
    ahead.expect(b"void ")?;
    let rule = match rules.number(ahead.take_run()) {
        Some(rule) => rule,
        None => return Err(Misread::Faulty),
    };
    ahead.expect(b" [")?;
    Ok(rule)
}

/// The pair whose text the line is, which is in shape, with types nested at most 1,000 deep.
/// Recurses as deep as the types.
pub(crate) fn read_pair(
    alloc: Global,
    problem: &Problem,
    states: &NameTable,
    rules: &NameTable,
    line: &[u8],
) -> Result<Void, Misread>
    requires states { AreIndexed states.now }
    requires same { IsOfProblem problem.now states.now }
    requires rules { AreIndexed rules.now }
    requires own { AreOfRules problem.now rules.now }
    ensures read { IfOk result (λ v. IsPair problem.now line.now v) }
    ensures faulty { IsErrOf result Faulty → (v : VoidData) → IsPair problem.now line.now v → ⊥ }
{
    let mut ahead = Ahead::new(line);
    let rule = read_rule(rules, &mut ahead)?;
    let params = params_of(problem, rule);
    let env = read_env(
        alloc,
        states,
        params,
        param_count(problem, rule),
        &mut ahead,
    )?;
    if ahead.is_empty() {
        Ok(Void { rule, env })
    } else {
        Err(Misread::Faulty)
    }
}
