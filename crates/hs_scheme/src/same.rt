//! Equality of what a problem is made of, part by part. Nothing here takes memory.

ghost use Rattle.std.specs.Prelude.{◌≡◌, ◌↔◌, IsTrue, map};
ghost use Rattle.hs_scheme.specs.Same.{DecidesEquality};

use crate::automaton::{Automaton, Transition};
use crate::flow::FlowTable;
use crate::name::Name;
use crate::scheme::{Names, Scheme};
use crate::sort::Sort;
use crate::sorted::Sorted;
use crate::term::{Rule, Term};

/// Whether the terms are equal. Recurses as deep as the terms.
fn is_same_term(a: &Term, b: &Term) -> bool
    ensures { IsTrue result ↔ (a.now ≡ b.now) }
{
    if a.head != b.head {
        return false;
    }
    if a.args.len() != b.args.len() {
        return false;
    }
    for (place, arg) in a.args.iter().enumerate() {
        if !is_same_term(arg, &b.args[place]) {
            return false;
        }
    }
    true
}

/// Whether the sorts are equal. Recurses as deep as the sorts.
fn is_same_sort(a: &Sort, b: &Sort) -> bool
    ensures { IsTrue result ↔ (a.now ≡ b.now) }
{
    if a.args.len() != b.args.len() {
        return false;
    }
    for (place, arg) in a.args.iter().enumerate() {
        if !is_same_sort(arg, &b.args[place]) {
            return false;
        }
    }
    true
}

fn is_same_rule(a: &Rule, b: &Rule) -> bool
    ensures { IsTrue result ↔ (a.now ≡ b.now) }
{
    a.params == b.params && is_same_term(&a.body, &b.body)
}

fn is_same_transition(a: &Transition, b: &Transition) -> bool
    ensures { IsTrue result ↔ (a.now ≡ b.now) }
{
    a.from == b.from && a.terminal == b.terminal && a.to.as_slice() == b.to.as_slice()
}

fn is_same_name(a: &Name, b: &Name) -> bool
    ensures { IsTrue result ↔ (a.now ≡ b.now) }
{
    a.bytes() == b.bytes()
}

/// Whether the lists are equal, item by item.
fn are_same<T, F: Fn(&T, &T) -> bool>(a: &[T], b: &[T], is_same: F) -> bool
    requires callable { F.IsAlwaysCallable is_same }
    requires decides { DecidesEquality F.Fn is_same }
    ensures { IsTrue result ↔ (a.now ≡ b.now) }
{
    if a.len() != b.len() {
        return false;
    }
    for (place, item) in a.iter().enumerate() {
        if !is_same(item, &b[place]) {
            return false;
        }
    }
    true
}

fn are_same_names(a: &[Name], b: &[Name]) -> bool
    ensures { IsTrue result ↔ (a.now ≡ b.now) }
{
    are_same(a, b, is_same_name)
}

fn are_same_name_lists(a: &[Vec<Name>], b: &[Vec<Name>]) -> bool
    ensures { IsTrue result ↔ (map (λ names. names.items) a.now ≡ map (λ names. names.items) b.now) }
{
    if a.len() != b.len() {
        return false;
    }
    for (place, names) in a.iter().enumerate() {
        if !are_same_names(names.as_slice(), b[place].as_slice()) {
            return false;
        }
    }
    true
}

fn are_all_names_same(a: &Names, b: &Names) -> bool
    ensures { IsTrue result ↔ (a.now ≡ b.now) }
{
    are_same_names(a.rules.as_slice(), b.rules.as_slice())
        && are_same_name_lists(a.params.as_slice(), b.params.as_slice())
        && are_same_names(a.terminals.as_slice(), b.terminals.as_slice())
        && are_same_names(a.states.as_slice(), b.states.as_slice())
}

fn is_same_scheme(a: &Scheme, b: &Scheme) -> bool
    ensures { IsTrue result ↔ (a.now ≡ b.now) }
{
    are_same(a.rules.as_slice(), b.rules.as_slice(), is_same_rule)
        && a.ranks.as_slice() == b.ranks.as_slice()
}

fn is_same_automaton(a: &Automaton, b: &Automaton) -> bool
    ensures { IsTrue result ↔ (a.now ≡ b.now) }
{
    a.states() == b.states() && are_same(a.transitions(), b.transitions(), is_same_transition)
}

/// Whether the sorted schemes are equal.
pub(crate) fn is_same_sorted(a: &Sorted, b: &Sorted) -> bool
    ensures { IsTrue result ↔ (a.now ≡ b.now) }
{
    is_same_scheme(&a.scheme, &b.scheme)
        && is_same_automaton(&a.automaton, &b.automaton)
        && are_all_names_same(&a.names, &b.names)
        && are_same(a.sorts.as_slice(), b.sorts.as_slice(), is_same_sort)
}

/// Whether the flow tables are equal.
pub(crate) fn is_same_flow(a: &FlowTable, b: &FlowTable) -> bool
    ensures { IsTrue result ↔ (a.now ≡ b.now) }
{
    a.pairs.as_slice() == b.pairs.as_slice() && a.heads.as_slice() == b.heads.as_slice()
}
