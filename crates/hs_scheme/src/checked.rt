//! Schemes of parts that are not known to fit.

ghost use Rattle.std.specs.Prelude.{◌≡◌, ◌↔◌, IsTrue, IsSome, IfSome};
ghost use Rattle.hs_scheme.specs.Scheme.{HeadInRange, TermInRange, AreRules, IsScheme};

use crate::limits::{MAX_ARGUMENTS, MAX_PARAMETERS, MAX_RULES};
use crate::scheme::Scheme;
use crate::term::{Head, Rule, Term};

/// Whether the head is one of these many parameters, rules and terminals.
fn is_head_in_range(head: Head, params: u32, rules: usize, terminals: usize) -> bool
    ensures { IsTrue result ↔ HeadInRange params rules terminals head }
{
    match head {
        Head::Var(parameter) => parameter < params,
        Head::Nt(rule) => (rule as usize) < rules,
        Head::Tm(terminal) => (terminal as usize) < terminals,
    }
}

/// Whether so is each head of the term, and no application has more arguments than the limit.
/// Recurses as deep as the term.
fn is_in_range(term: &Term, params: u32, rules: usize, terminals: usize) -> bool
    ensures { IsTrue result ↔ TermInRange params rules terminals term.now }
{
    if !is_head_in_range(term.head, params, rules, terminals) {
        return false;
    }
    if term.args.len() > MAX_ARGUMENTS {
        return false;
    }
    for arg in &term.args {
        if !is_in_range(arg, params, rules, terminals) {
            return false;
        }
    }
    true
}

/// Whether these are the rules of a scheme with this many terminals.
fn are_rules(rules: &[Rule], terminals: usize) -> bool
    ensures { IsTrue result ↔ AreRules rules.now terminals }
{
    let Some(start) = rules.first() else {
        return false;
    };
    if start.params != 0 {
        return false;
    }
    if rules.len() > MAX_RULES {
        return false;
    }
    for rule in rules {
        if rule.params as usize > MAX_PARAMETERS {
            return false;
        }
        if !is_in_range(&rule.body, rule.params, rules.len(), terminals) {
            return false;
        }
    }
    true
}

/// The scheme of these rules and ranks, or `None` exactly where they are none: where there is no
/// rule, the first has parameters, a head is out of range, or a limit is passed. Takes no memory,
/// and time in proportion to the size of the rules.
pub fn scheme_of(rules: Vec<Rule>, ranks: Vec<u32>) -> Option<Scheme>
    ensures some { IsSome result ↔ IsScheme (record { rules = rules.items; ranks = ranks.items }) }
    ensures value { IfSome result (λ scheme. scheme ≡ record { rules = rules.items; ranks = ranks.items }) }
{
    if are_rules(rules.as_slice(), ranks.len()) {
        Some(Scheme { rules, ranks })
    } else {
        None
    }
}
