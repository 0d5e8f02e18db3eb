//! Which rules are aliases, and what stands for each nonterminal where they are folded.

ghost use Rattle.std.specs.Prelude.{◌≡◌, ◌<◌, ◌≤◌, ℕ, Some, length, slice_index, vec_len, IfOk};
ghost use Rattle.hs_scheme.specs.Tree.{forest};
ghost use Rattle.hs_passes.specs.Aliases as definition;
ghost use Rattle.hs_passes.specs.Links.{AreLinks, Follow};
ghost use Rattle.hs_passes.specs.Scan.{stood, scanned};
ghost use Rattle.hs_passes.specs.Selection.{number_in};

use crate::selecting::is_scheme;
use hs_scheme::{Head, OutOfMemory, Rule, Scheme, Term};
use std::alloc::Global;

/// Whether the term is just the parameter of this number.
fn is_parameter(term: &Term, number: u32) -> bool
    ensures { result ≡ definition.is_parameter number term.now }
{
    match term.head {
        Head::Var(parameter) => parameter == number && term.args.is_empty(),
        _ => false,
    }
}

/// Whether the terms are just this many parameters, in order from the first on.
fn are_parameters(terms: &[Term], count: u32) -> bool
    ensures { result ≡ definition.are_parameters 0 count (forest terms.now) }
{
    if terms.len() != count as usize {
        return false;
    }
    for (i, term) in terms.iter().enumerate() {
        if !is_parameter(term, i as u32) {
            return false;
        }
    }
    true
}

/// The nonterminal that the one of this number is an alias of, by its rule.
fn alias_target(number: u32, rule: &Rule) -> Option<u32>
    ensures { result ≡ definition.alias_target number rule.now }
{
    let Head::Nt(target) = rule.body.head else {
        return None;
    };
    if target != number && are_parameters(rule.body.args.as_slice(), rule.params) {
        Some(target)
    } else {
        None
    }
}

/// Where the links lead from this number. Each link on the way comes to lead two further, so many
/// calls take together little more time than there are links and calls.
fn root(links: &mut [u32], from: u32) -> u32
    requires links { AreLinks links.old }
    requires from { from < length links.old }
    ensures links { AreLinks links.new }
    ensures in_range { result < length links.new }
    ensures own { slice_index links.new result ≡ result }
    ensures roots { (h : ℕ) → slice_index links.old h ≡ h → slice_index links.new h ≡ h }
    ensures root { (rep : ℕ → ℕ) → Follow rep links.old → result ≡ rep from }
    ensures follow { (rep : ℕ → ℕ) → Follow rep links.old → Follow rep links.new }
{
    let mut at = from;
    while links[at as usize] != at {
        let next = links[at as usize];
        let after = links[next as usize];
        links[at as usize] = after;
        at = after;
    }
    at
}

/// Each number linked to itself.
fn own_links(alloc: Global, count: u32) -> Result<Vec<u32>, OutOfMemory>
    ensures each { IfOk result (λ links. vec_len links ≡ count) }
    ensures own { IfOk result (λ links. (h : ℕ) → h < count → number_in links.items h ≡ h) }
{
    let mut links = Vec::with_capacity(alloc, count as usize)?;
    for number in 0..count {
        links.push_reserved(number);
    }
    Ok(links)
}

/// Lets a nonterminal that stands for itself, as all behind it do, stand for what its target stands
/// for, where that is another one.
fn fold_one(links: &mut [u32], number: u32, target: u32)
    requires links { AreLinks links.old }
    requires number { number < length links.old }
    requires target { target < length links.old }
    requires ahead { (h : ℕ) → number ≤ h → h < length links.old → slice_index links.old h ≡ h }
    ensures links { AreLinks links.new }
    ensures ahead { (h : ℕ) → number < h → h < length links.new → slice_index links.new h ≡ h }
    ensures follow { (rep : ℕ → ℕ) → Follow rep links.old
        → Follow (stood rep number (Some target)) links.new }
{
    let found = root(links, target);
    if found != number {
        links[number as usize] = found;
    }
}

/// The links of all nonterminals, where the aliases are folded.
fn linked(alloc: Global, scheme: &Scheme) -> Result<Vec<u32>, OutOfMemory>
    ensures each { IfOk result (λ links. vec_len links ≡ length scheme.now.rules) }
    ensures links { IfOk result (λ links. AreLinks links.items) }
    ensures follow { IfOk result (λ links. Follow
        (scanned scheme.now.rules (length scheme.now.rules)) links.items) }
{
    let rules = scheme.rules.as_slice();
    let mut links = own_links(alloc, rules.len() as u32)?;
    for i in 1..rules.len() {
        if let Some(target) = alias_target(i as u32, &rules[i]) {
            fold_one(links.as_mut_slice(), i as u32, target);
        }
    }
    Ok(links)
}

/// Where the links lead from each number.
fn roots(alloc: Global, links: &mut [u32]) -> Result<Vec<u32>, OutOfMemory>
    requires links { AreLinks links.old }
    requires few { length links.old ≤ 20000 }
    ensures each { IfOk result (λ roots. vec_len roots ≡ length links.old) }
    ensures roots { IfOk result (λ roots. (rep : ℕ → ℕ) → Follow rep links.old → (h : ℕ)
        → h < length links.old → number_in roots.items h ≡ rep h) }
{
    let count = links.len() as u32;
    let mut roots = Vec::with_capacity(alloc, links.len())?;
    for number in 0..count {
        roots.push_reserved(root(links, number));
    }
    Ok(roots)
}

/// What stands for each nonterminal, where the aliases are folded. In time and memory nearly in
/// proportion to the size of the rules (Robert E. Tarjan and Jan van Leeuwen, Worst-case analysis of
/// set union algorithms, 1984: path halving).
pub(crate) fn representatives(alloc: Global, scheme: &Scheme) -> Result<Vec<u32>, OutOfMemory>
    ensures each { IfOk result (λ reps. vec_len reps ≡ length scheme.now.rules) }
    ensures is { IfOk result (λ reps. (h : ℕ) → h < length scheme.now.rules →
        number_in reps.items h ≡ scanned scheme.now.rules (length scheme.now.rules) h) }
{
    is_scheme(scheme);
    let mut links = linked(alloc, scheme)?;
    roots(alloc, links.as_mut_slice())
}
