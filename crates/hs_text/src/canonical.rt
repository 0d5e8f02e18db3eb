//! The canonical file of a scheme.

ghost use Rattle.std.specs.Prelude.{◌≡◌, IfOk};
ghost use Rattle.std.specs.List.{flat_map};
ghost use Rattle.hs_text.specs.Canonical as canonical;
ghost use Rattle.hs_text.specs.Pieces.{Puts};

use crate::pieces::{Text, name_of, params_of, rule_name, state_name, terminal_name};
use hs_scheme::{Head, Name, Names, OutOfMemory, Rule, Term, Transition, Unsorted};
use std::alloc::Global;

/// The name of a head, where these are the names of the parameters.
fn head_name<'a>(names: &'a Names, params: &'a [Name], head: Head) -> &'a [u8]
    ensures { result.now ≡ canonical.head_text names.now params.now head }
{
    match head {
        Head::Var(parameter) => name_of(params, parameter as usize),
        Head::Nt(rule) => rule_name(names, rule as usize),
        Head::Tm(terminal) => terminal_name(names, terminal),
    }
}

/// What stands before an argument.
fn opening(term: &Term) -> &[u8]
    ensures { result.now ≡ canonical.opening term.now }
{
    if term.args.is_empty() { b" " } else { b" (" }
}

/// What stands behind an argument.
fn closing(term: &Term) -> &[u8]
    ensures { result.now ≡ canonical.closing term.now }
{
    if term.args.is_empty() { b"" } else { b")" }
}

/// Puts a term at the end. Recurses as deep as the term.
fn push_term(names: &Names, params: &[Name], term: &Term, text: &mut Text)
    ensures { Puts text.old text.new (canonical.term_text names.now params.now term.now) }
{
    text.push(head_name(names, params, term.head));
    for arg in &term.args {
        text.push(opening(arg));
        push_term(names, params, arg, text);
        text.push(closing(arg));
    }
}

/// Puts each of the names and a blank behind it at the end.
fn push_params(params: &[Name], text: &mut Text)
    ensures { Puts text.old text.new (canonical.params_text params.now) }
{
    for param in params {
        text.push(param.bytes());
        text.push(b" ");
    }
}

/// Puts a rule at the end, where these are the names of its parameters.
fn push_rule(names: &Names, number: usize, params: &[Name], rule: &Rule, text: &mut Text)
    ensures { Puts text.old text.new (canonical.rule_text names.now number params.now rule.now) }
{
    text.push(rule_name(names, number));
    text.push(b" ");
    push_params(params, text);
    text.push(b"-> ");
    push_term(names, params, &rule.body, text);
    text.push(b".\n");
}

/// Puts the rules at the end.
fn push_rules(names: &Names, rules: &[Rule], text: &mut Text)
    ensures { Puts text.old text.new (canonical.rules_text names.now rules.now) }
{
    for (number, rule) in rules.iter().enumerate() {
        push_rule(names, number, params_of(names, number), rule, text);
    }
}

/// Puts the states on the right of a transition at the end.
fn push_states(names: &Names, states: &[u32], text: &mut Text)
    ensures { Puts text.old text.new (canonical.states_text names.now states.now) }
{
    if states.is_empty() {
        return text.push(b" ");
    }
    for state in states {
        text.push(b" ");
        text.push(state_name(names, *state));
    }
}

/// Puts a transition at the end.
fn push_transition(names: &Names, transition: &Transition, text: &mut Text)
    ensures { Puts text.old text.new (canonical.transition_text names.now transition.now) }
{
    text.push(state_name(names, transition.from));
    text.push(b" ");
    text.push(terminal_name(names, transition.terminal));
    text.push(b" ->");
    push_states(names, transition.to.as_slice(), text);
    text.push(b".\n");
}

/// Puts the transitions at the end.
fn push_transitions(names: &Names, transitions: &[Transition], text: &mut Text)
    ensures { Puts text.old text.new (flat_map (canonical.transition_text names.now) transitions.now) }
{
    for transition in transitions {
        push_transition(names, transition, text);
    }
}

/// Puts the canonical file of a scheme at the end.
fn push_scheme(unsorted: &Unsorted, text: &mut Text)
    ensures { Puts text.old text.new (canonical.canonical unsorted.now) }
{
    text.push(b"%BEGING\n");
    push_rules(&unsorted.names, unsorted.rules.as_slice(), text);
    text.push(b"%ENDG\n%BEGINA\n");
    push_transitions(&unsorted.names, unsorted.automaton.transitions(), text);
    text.push(b"%ENDA\n");
}

/// The canonical file of a scheme with its automaton: the rules and the transitions in order, each
/// on a line, with parentheses round an argument only where it has arguments itself.
///
/// Time and memory are in proportion to the text. Recurses as deep as the terms.
pub fn scheme_text(alloc: Global, unsorted: &Unsorted) -> Result<Vec<u8>, OutOfMemory>
    ensures { IfOk result (λ text. text.items ≡ canonical.canonical unsorted.now) }
{
    let mut text = Text::new(alloc);
    push_scheme(unsorted, &mut text);
    text.finish()
}
