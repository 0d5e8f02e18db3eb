//! Building a scheme of some of another one's rules.

ghost use Rattle.std.specs.Prelude.{◌≡◌, ◌<◌, ◌≤◌, ℕ, [], length, map, vec_len, IfOk, OnOk};
ghost use Rattle.hs_scheme.specs.Copying.{MakesEqual};
ghost use Rattle.hs_scheme.specs.Scheme.{IsScheme};
ghost use Rattle.hs_scheme.specs.sorting.Sorted.{IsSorted};
ghost use Rattle.hs_passes.specs.Selection as definition;
ghost use Rattle.hs_passes.specs.Selection.{stays, number_in, place, chosen, selected, IsSelection};

use hs_scheme::{Head, Name, Names, OutOfMemory, Rule, Scheme, Sort, Sorted, Term};
use std::alloc::Global;

/// For each rule how many of those before it stay, which is its new number where it stays.
pub(crate) fn places(alloc: Global, keep: &[bool]) -> Result<Vec<u32>, OutOfMemory>
    requires { length keep.now ≤ 20000 }
    ensures each { IfOk result (λ numbers. vec_len numbers ≡ length keep.now) }
    ensures is { IfOk result (λ numbers. (f : ℕ) → f < length keep.now
        → number_in numbers.items f ≡ place (stays keep.now) f) }
{
    let mut numbers = Vec::with_capacity(alloc, keep.len())?;
    let mut next = 0;
    for stays in keep {
        numbers.push_reserved(next);
        if *stays {
            next += 1;
        }
    }
    Ok(numbers)
}

/// The new number of this one, or 0 past the end.
pub(crate) fn number_at(numbers: &[u32], number: u32) -> u32
    ensures { result ≡ number_in numbers.now number }
{
    numbers.get(number as usize).copied().unwrap_or(0)
}

/// The head with the new number of its nonterminal.
fn renamed(head: Head, numbers: &[u32]) -> Head
    ensures { result ≡ definition.renamed_head (number_in numbers.now) head }
{
    match head {
        Head::Nt(rule) => Head::Nt(number_at(numbers, rule)),
        other => other,
    }
}

/// The term with the new numbers of its nonterminals. Recurses as deep as the term.
fn renamed_term(alloc: Global, term: &Term, numbers: &[u32]) -> Result<Term, OutOfMemory>
    ensures { IfOk result (λ t. t ≡ definition.renamed (number_in numbers.now) term.now) }
{
    let head = renamed(term.head, numbers);
    let mut args = Vec::with_capacity(alloc, term.args.len())?;
    for arg in &term.args {
        args.push_reserved(renamed_term(alloc, arg, numbers)?);
    }
    Ok(Term { head, args })
}

/// The rules that stay, with the new numbers.
fn chosen_rules(
    alloc: Global,
    rules: &[Rule],
    keep: &[bool],
    numbers: &[u32],
) -> Result<Vec<Rule>, OutOfMemory>
    requires { length keep.now ≡ length rules.now }
    ensures { IfOk result (λ out. out.items ≡ chosen (stays keep.now)
        (map (definition.renamed_rule (number_in numbers.now)) rules.now)) }
{
    let mut out = Vec::new(alloc);
    for (i, rule) in rules.iter().enumerate() {
        if keep[i] {
            out.push(Rule {
                params: rule.params,
                body: renamed_term(alloc, &rule.body, numbers)?,
            })?;
        }
    }
    Ok(out)
}

/// Items equal to those that stay, in their order, each made by `copy`.
fn chosen_copies<T: Drop, F: Fn(&T) -> Result<T, OutOfMemory>>(
    alloc: Global,
    items: &[T],
    keep: &[bool],
    copy: F,
) -> Result<Vec<T>, OutOfMemory>
    requires callable { F.IsAlwaysCallable copy }
    requires equal { MakesEqual F.Fn copy }
    requires each { length keep.now ≡ length items.now }
    ensures { IfOk result (λ out. out.items ≡ chosen (stays keep.now) items.now) }
{
    let mut out = Vec::new(alloc);
    for (i, item) in items.iter().enumerate() {
        if keep[i] {
            out.push(copy(item)?)?;
        }
    }
    Ok(out)
}

/// The names of the rules that stay.
fn chosen_names(alloc: Global, names: &[Name], keep: &[bool]) -> Result<Vec<Name>, OutOfMemory>
    requires { length keep.now ≡ length names.now }
    ensures { IfOk result (λ out. out.items ≡ chosen (stays keep.now) names.now) }
{
    chosen_copies(alloc, names, keep, |name| name.copy(alloc))
}

/// Adds the names of the parameters of the rules that stay to a list that has none so far.
fn add_params(
    alloc: Global,
    params: &[Vec<Name>],
    keep: &[bool],
    out: &mut Vec<Vec<Name>>,
) -> Result<(), OutOfMemory>
    requires each { length keep.now ≡ length params.now }
    requires empty { out.old.items ≡ [] }
    ensures { OnOk result (map (λ names. names.items) out.new.items ≡ chosen (stays keep.now)
        (map (λ names. names.items) params.now)) }
{
    for (i, names) in params.iter().enumerate() {
        if keep[i] {
            out.push(Name::copy_all(alloc, names.as_slice())?)?;
        }
    }
    Ok(())
}

/// The names of the parameters of the rules that stay.
fn chosen_params(
    alloc: Global,
    params: &[Vec<Name>],
    keep: &[bool],
) -> Result<Vec<Vec<Name>>, OutOfMemory>
    requires { length keep.now ≡ length params.now }
    ensures { IfOk result (λ out. map (λ names. names.items) out.items ≡ chosen (stays keep.now)
        (map (λ names. names.items) params.now)) }
{
    let mut out = Vec::new(alloc);
    add_params(alloc, params, keep, &mut out)?;
    Ok(out)
}

/// The sorts of the rules that stay.
fn chosen_sorts(alloc: Global, sorts: &[Sort], keep: &[bool]) -> Result<Vec<Sort>, OutOfMemory>
    requires { length keep.now ≡ length sorts.now }
    ensures { IfOk result (λ out. out.items ≡ chosen (stays keep.now) sorts.now) }
{
    chosen_copies(alloc, sorts, keep, |sort| sort.copy(alloc))
}

/// The rules that stay, with the new numbers, and all terminals.
fn chosen_scheme(
    alloc: Global,
    scheme: &Scheme,
    keep: &[bool],
    numbers: &[u32],
) -> Result<Scheme, OutOfMemory>
    requires each { length keep.now ≡ length scheme.now.rules }
    requires fits { IsScheme (definition.selected_scheme (stays keep.now)
        (number_in numbers.now) scheme.now) }
    ensures { IfOk result (λ s. s ≡ definition.selected_scheme (stays keep.now)
        (number_in numbers.now) scheme.now) }
{
    let rules = chosen_rules(alloc, scheme.rules.as_slice(), keep, numbers)?;
    let ranks = scheme.ranks.to_vec(alloc)?;
    Ok(Scheme { rules, ranks })
}

/// The names of the rules that stay and of their parameters, and those of all terminals and states.
fn names_left(alloc: Global, names: &Names, keep: &[bool]) -> Result<Names, OutOfMemory>
    requires rules { length keep.now ≡ length names.now.rules }
    requires params { length keep.now ≡ length names.now.params }
    ensures { IfOk result (λ n. n ≡ definition.selected_names (stays keep.now) names.now) }
{
    let rules = chosen_names(alloc, names.rules.as_slice(), keep)?;
    let params = chosen_params(alloc, names.params.as_slice(), keep)?;
    let terminals = Name::copy_all(alloc, names.terminals.as_slice())?;
    let states = Name::copy_all(alloc, names.states.as_slice())?;
    Ok(Names {
        rules,
        params,
        terminals,
        states,
    })
}

/// What holds of each scheme. It does nothing.
pub(crate) fn is_scheme(scheme: &Scheme)
    ensures { IsScheme scheme.now }
{
    let _ = &scheme.rules;
}

/// What holds of each sorted scheme. It does nothing.
pub(crate) fn is_sorted(sorted: &Sorted)
    ensures scheme { IsScheme sorted.now.scheme }
    ensures sorted { IsSorted sorted.now }
{
    let _ = &sorted.scheme.rules;
}

/// The scheme with the rules that stay, in which each nonterminal has its new number. In time and
/// memory in proportion to the size of the scheme.
pub(crate) fn selection(
    alloc: Global,
    sorted: &Sorted,
    keep: &[bool],
    numbers: &[u32],
) -> Result<Sorted, OutOfMemory>
    requires each { length keep.now ≡ length sorted.now.scheme.rules }
    requires selection { IsSelection (stays keep.now) (number_in numbers.now) sorted.now }
    ensures { IfOk result (λ s. s ≡ selected (stays keep.now) (number_in numbers.now) sorted.now) }
{
    is_sorted(sorted);
    let sorts = chosen_sorts(alloc, sorted.sorts.as_slice(), keep)?;
    let scheme = chosen_scheme(alloc, &sorted.scheme, keep, numbers)?;
    let names = names_left(alloc, &sorted.names, keep)?;
    let automaton = sorted.automaton.copy(alloc)?;
    Ok(Sorted {
        scheme,
        automaton,
        names,
        sorts,
    })
}
