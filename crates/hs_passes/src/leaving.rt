//! Building a scheme with some of another one's parameters.

ghost use Rattle.std.specs.Prelude.{◌≡◌, ◌≤◌, length, map, IfOk};
ghost use Rattle.hs_scheme.specs.Scheme.{IsScheme};
ghost use Rattle.hs_passes.specs.Leaving as definition;
ghost use Rattle.hs_passes.specs.Leaving.{by_number};
ghost use Rattle.hs_passes.specs.Needing.{kept, IsGreatest};
ghost use Rattle.hs_passes.specs.Selection.{chosen};
ghost use Rattle.hs_passes.specs.Unused.{without_unused};

use crate::keeping::{is_kept, place_of, stays_behind};
use crate::selecting::is_sorted;
use hs_scheme::{Head, Name, Names, OutOfMemory, Parameters, Rule, Scheme, Sort, Sorted, Term};
use std::alloc::Global;

/// The head in the rule's body, with the new number of its parameter.
fn head_left(parameters: &Parameters, flags: &[bool], rule: u32, head: Head) -> Head
    ensures { result ≡ definition.head_left (kept parameters.now flags.now rule) head }
{
    match head {
        Head::Var(param) => Head::Var(place_of(parameters, flags, rule, param)),
        other => other,
    }
}

/// What is left of a term in the rule's body. Recurses as deep as the term.
fn term_left(
    alloc: Global,
    parameters: &Parameters,
    flags: &[bool],
    rule: u32,
    term: &Term,
) -> Result<Term, OutOfMemory>
    ensures { IfOk result (λ t. t ≡ definition.term_left (kept parameters.now flags.now)
        (kept parameters.now flags.now rule) term.now) }
{
    let head = head_left(parameters, flags, rule, term.head);
    let mut args = Vec::new(alloc);
    for (i, arg) in term.args.iter().enumerate() {
        if stays_behind(parameters, flags, term.head, i) {
            args.push(term_left(alloc, parameters, flags, rule, arg)?)?;
        }
    }
    Ok(Term { head, args })
}

/// What is left of the rules.
fn rules_left(
    alloc: Global,
    parameters: &Parameters,
    flags: &[bool],
    rules: &[Rule],
) -> Result<Vec<Rule>, OutOfMemory>
    requires { length rules.now ≤ 20000 }
    ensures { IfOk result (λ out. out.items ≡ by_number
        (λ f. definition.rule_left (kept parameters.now flags.now)
        (kept parameters.now flags.now f)) rules.now) }
{
    let mut out = Vec::with_capacity(alloc, rules.len())?;
    for (i, rule) in rules.iter().enumerate() {
        let params = place_of(parameters, flags, i as u32, rule.params);
        let body = term_left(alloc, parameters, flags, i as u32, &rule.body)?;
        out.push_reserved(Rule { params, body });
    }
    Ok(out)
}

/// The names of the rule's parameters that stay.
fn names_left(
    alloc: Global,
    parameters: &Parameters,
    flags: &[bool],
    rule: u32,
    names: &[Name],
) -> Result<Vec<Name>, OutOfMemory>
    ensures { IfOk result (λ out. out.items ≡ chosen (kept parameters.now flags.now rule) names.now) }
{
    let mut out = Vec::new(alloc);
    for (i, name) in names.iter().enumerate() {
        if is_kept(parameters, flags, rule, i) {
            out.push(name.copy(alloc)?)?;
        }
    }
    Ok(out)
}

/// The names of all parameters that stay.
fn params_left(
    alloc: Global,
    parameters: &Parameters,
    flags: &[bool],
    params: &[Vec<Name>],
) -> Result<Vec<Vec<Name>>, OutOfMemory>
    requires { length params.now ≤ 20000 }
    ensures { IfOk result (λ out. map (λ names. names.items) out.items ≡ by_number
        (λ f. chosen (kept parameters.now flags.now f)) (map (λ names. names.items) params.now)) }
{
    let mut out = Vec::with_capacity(alloc, params.len())?;
    for (i, names) in params.iter().enumerate() {
        out.push_reserved(names_left(alloc, parameters, flags, i as u32, names.as_slice())?);
    }
    Ok(out)
}

/// The rule's sort without the arguments for parameters that go.
fn sort_left(
    alloc: Global,
    parameters: &Parameters,
    flags: &[bool],
    rule: u32,
    sort: &Sort,
) -> Result<Sort, OutOfMemory>
    ensures { IfOk result (λ k. k ≡ definition.sort_left (kept parameters.now flags.now rule) sort.now) }
{
    let mut args = Vec::new(alloc);
    for (i, arg) in sort.args.iter().enumerate() {
        if is_kept(parameters, flags, rule, i) {
            args.push(arg.copy(alloc)?)?;
        }
    }
    Ok(Sort { args })
}

/// The sorts of all rules without those arguments.
fn sorts_left(
    alloc: Global,
    parameters: &Parameters,
    flags: &[bool],
    sorts: &[Sort],
) -> Result<Vec<Sort>, OutOfMemory>
    requires { length sorts.now ≤ 20000 }
    ensures { IfOk result (λ out. out.items ≡ by_number
        (λ f. definition.sort_left (kept parameters.now flags.now f)) sorts.now) }
{
    let mut out = Vec::with_capacity(alloc, sorts.len())?;
    for (i, sort) in sorts.iter().enumerate() {
        out.push_reserved(sort_left(alloc, parameters, flags, i as u32, sort)?);
    }
    Ok(out)
}

/// What is left of the rules, and all terminals.
fn scheme_left(
    alloc: Global,
    parameters: &Parameters,
    flags: &[bool],
    scheme: &Scheme,
) -> Result<Scheme, OutOfMemory>
    requires few { length scheme.now.rules ≤ 20000 }
    requires fits { IsScheme (definition.scheme_left (kept parameters.now flags.now) scheme.now) }
    ensures { IfOk result (λ s. s ≡ definition.scheme_left (kept parameters.now flags.now) scheme.now) }
{
    let rules = rules_left(alloc, parameters, flags, scheme.rules.as_slice())?;
    let ranks = scheme.ranks.to_vec(alloc)?;
    Ok(Scheme { rules, ranks })
}

/// The names without those of parameters that go.
fn all_names_left(
    alloc: Global,
    parameters: &Parameters,
    flags: &[bool],
    names: &Names,
) -> Result<Names, OutOfMemory>
    requires { length names.now.params ≤ 20000 }
    ensures { IfOk result (λ n. n ≡ definition.all_names_left (kept parameters.now flags.now) names.now) }
{
    let rules = Name::copy_all(alloc, names.rules.as_slice())?;
    let params = params_left(alloc, parameters, flags, names.params.as_slice())?;
    let terminals = Name::copy_all(alloc, names.terminals.as_slice())?;
    let states = Name::copy_all(alloc, names.states.as_slice())?;
    Ok(Names {
        rules,
        params,
        terminals,
        states,
    })
}

/// The scheme with the parameters that stay, which are the greatest set of parameters each of which
/// what is left needs. In time and memory in proportion to the size of the scheme, where each
/// occurrence of a parameter counts with the parameters before it.
pub(crate) fn with_parameters(
    alloc: Global,
    parameters: &Parameters,
    flags: &[bool],
    sorted: &Sorted,
) -> Result<Sorted, OutOfMemory>
    requires { IsGreatest sorted.now.scheme.rules (kept parameters.now flags.now) }
    ensures { IfOk result (λ s. s ≡ without_unused sorted.now) }
{
    is_sorted(sorted);
    let sorts = sorts_left(alloc, parameters, flags, sorted.sorts.as_slice())?;
    let scheme = scheme_left(alloc, parameters, flags, &sorted.scheme)?;
    let names = all_names_left(alloc, parameters, flags, &sorted.names)?;
    let automaton = sorted.automaton.copy(alloc)?;
    Ok(Sorted {
        scheme,
        automaton,
        names,
        sorts,
    })
}
