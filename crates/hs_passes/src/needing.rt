//! Which parameters are needed by what is left of the bodies.

ghost use Rattle.std.specs.Prelude.{◌≡◌, ◌≤◌, ◌<◌, ℕ, ◌&&◌, ◌||◌, false, true, nat_eq, nat_le, length, sum, replicate, vec_len, IfOk, IsTrue};
ghost use Rattle.hs_scheme.specs.sorting.Parameters.{counts_of, IsParameter, parameter_of};
ghost use Rattle.hs_passes.specs.Unused.{needs_at};
ghost use Rattle.hs_passes.specs.Needing.{live, is_live, kept, GainsFlags, IsAbove, IsGreatest};
ghost use Rattle.hs_passes.specs.Narrowing.{count_true};
ghost use Rattle.hs_passes.specs.Selection.{stays};

use crate::keeping::stays_behind;
use hs_scheme::{Head, OutOfMemory, Parameters, Rule, Term};
use std::alloc::Global;

/// Marks the parameter, where the rule has it.
fn mark(parameters: &Parameters, rule: u32, param: u32, needed: &mut [bool])
    requires { length needed.old ≡ sum parameters.now }
    ensures { GainsFlags parameters.now needed.old needed.new (λ f j. nat_eq rule f && nat_eq param j) }
{
    if let Some(number) = parameters.number(rule, param) {
        needed[number as usize] = true;
    }
}

/// Marks the rule's parameters behind the first ones, as many as are given.
fn mark_missing(parameters: &Parameters, rule: u32, given: usize, needed: &mut [bool])
    requires { length needed.old ≡ sum parameters.now }
    ensures { GainsFlags parameters.now needed.old needed.new (λ f j. nat_eq rule f && nat_le given j) }
{
    for param in 0..parameters.count_of(rule) {
        if param as usize >= given {
            mark(parameters, rule, param, needed);
        }
    }
}

/// Marks the parameters that a head with this many arguments needs in the rule's body.
fn mark_head(parameters: &Parameters, rule: u32, head: Head, given: usize, needed: &mut [bool])
    requires { length needed.old ≡ sum parameters.now }
    ensures { GainsFlags parameters.now needed.old needed.new (λ f j. needs_at rule f j head given) }
{
    match head {
        Head::Var(param) => mark(parameters, rule, param, needed),
        Head::Nt(other) => mark_missing(parameters, other, given, needed),
        Head::Tm(_) => {}
    }
}

/// Marks the parameters that what is left of the term needs. Recurses as deep as the term.
fn mark_term(parameters: &Parameters, flags: &[bool], rule: u32, term: &Term, needed: &mut [bool])
    requires { length needed.old ≡ sum parameters.now }
    ensures { GainsFlags parameters.now needed.old needed.new
        (λ f j. live (kept parameters.now flags.now) rule f j term.now) }
{
    mark_head(parameters, rule, term.head, term.args.len(), needed);
    for (i, arg) in term.args.iter().enumerate() {
        if stays_behind(parameters, flags, term.head, i) {
            mark_term(parameters, flags, rule, arg, needed);
        }
    }
}

/// The same flag for each parameter.
pub(crate) fn all_flags(
    alloc: Global,
    parameters: &Parameters,
    flag: bool,
) -> Result<Vec<bool>, OutOfMemory>
    ensures { IfOk result (λ flags. flags.items ≡ replicate (sum parameters.now) flag) }
{
    Ok(vec![in alloc; flag; parameters.count() as usize]?)
}

/// Which parameters what is left of the bodies needs.
fn needed(
    alloc: Global,
    parameters: &Parameters,
    flags: &[bool],
    rules: &[Rule],
) -> Result<Vec<bool>, OutOfMemory>
    requires { length rules.now ≤ 20000 }
    ensures each { IfOk result (λ marks. vec_len marks ≡ sum parameters.now) }
    ensures is { IfOk result (λ marks. (f j : ℕ) → IsParameter parameters.now f j →
        stays marks.items (parameter_of parameters.now f j) ≡ is_live
        (kept parameters.now flags.now) rules.now f j) }
{
    let mut marks = all_flags(alloc, parameters, false)?;
    for (i, rule) in rules.iter().enumerate() {
        mark_term(
            parameters,
            flags,
            i as u32,
            &rule.body,
            marks.as_mut_slice(),
        );
    }
    Ok(marks)
}

/// Clears the flags of what isn't needed, and tells whether there was one.
fn narrow(flags: &mut [bool], needed: &[bool]) -> bool
    requires { length needed.now ≡ length flags.old }
    ensures each { (n : ℕ) → stays flags.new n ≡ (stays flags.old n && stays needed.now n) }
    ensures same { result ≡ false → flags.new ≡ flags.old }
    ensures fewer { result ≡ true → count_true flags.new < count_true flags.old }
{
    let mut changed = false;
    for i in 0..flags.len() {
        if flags[i] && !needed[i] {
            flags[i] = false;
            changed = true;
        }
    }
    changed
}

/// The parameters that stay where those that nothing needs are dropped until there is none, begun
/// with flags that no parameter lacks which stays then. In time in proportion to the size of the
/// scheme for each time that there is one more.
pub(crate) fn settled(
    alloc: Global,
    parameters: &Parameters,
    rules: &[Rule],
    flags: Vec<bool>,
) -> Result<Vec<bool>, OutOfMemory>
    requires few { length rules.now ≤ 20000 }
    requires counted { parameters.now ≡ counts_of rules.now }
    requires each { vec_len flags ≡ sum parameters.now }
    requires above { IsAbove rules.now (kept parameters.now flags.items) }
    ensures { IfOk result (λ settled. IsGreatest rules.now (kept parameters.now settled.items)) }
{
    let mut settled = flags;
    let mut changed = true;
    while changed {
        let marks = needed(alloc, parameters, settled.as_slice(), rules)?;
        changed = narrow(settled.as_mut_slice(), marks.as_slice());
    }
    Ok(settled)
}
