//! The definitions of replacement, cut and run as plain programs.
//!
//! They unfold the tree, so they are slow: a cut at n may have exponentially many nodes, and in a
//! scheme of high order many more. They serve to compare the fast ways to a verdict with.

ghost use Rattle.std.specs.Prelude.{◌≡◌, IfOk};
ghost use Rattle.hs_scheme.specs.acceptance.Replacement as replacement;
ghost use Rattle.hs_scheme.specs.acceptance.Cut as definition;
ghost use Rattle.hs_scheme.specs.acceptance.Run as acceptance;
ghost use Rattle.hs_scheme.specs.Tree.{forest};

use crate::automaton::Automaton;
use crate::memory::OutOfMemory;
use crate::term::{Head, Rule, Term};
use std::alloc::Global;
use std::marker::Model;

/// A finite tree of terminals, as a cut of a value tree is. A node without a terminal is undefined
/// and has no children.
#[derive(Debug, Drop)]
pub struct ValueTree {
    pub terminal: Option<u32>,
    pub children: Vec<ValueTree>,
}

impl Model for ValueTree {
    ghost use Rattle.std.specs.Prelude.{ℕ, Option};
    ghost use Rattle.std.specs.Coded.{coded_ℕ, coded_option};
    ghost use Rattle.hs_scheme.specs.Tree.{Tree, node, forest, height, most_le-heights, tree_code};

    ghost Value = { Tree (Option ℕ) };

    ghost coded = { tree_code (coded_option coded_ℕ) };

    ghost view = { λ a. node a.terminal (forest a.children.items) };

    ghost size = { height };

    ghost use Rattle.std.proofs.Common.{arith};

    ghost size_decreases = { λ a h. omega (arith, most_le-heights a.children.items) };
}

/// What stands for a head when these terms stand for the parameters.
fn replaced(alloc: Global, head: Head, with: &[Term]) -> Result<Term, OutOfMemory>
    ensures { IfOk result (λ t. t ≡ replacement.replaced head with.now) }
{
    if let Head::Var(parameter) = head {
        if let Some(term) = with.get(parameter as usize) {
            return term.copy(alloc);
        }
    }
    Ok(Term {
        head,
        args: Vec::new(alloc),
    })
}

/// The term with these terms for its parameters. Where a parameter has arguments, they come after
/// those of the term that stands for it. Recurses as deep as the term, and as the terms put in.
pub fn substitute(alloc: Global, term: &Term, with: &[Term]) -> Result<Term, OutOfMemory>
    ensures { IfOk result (λ t. t ≡ replacement.subst term.now with.now) }
{
    let mut made = replaced(alloc, term.head, with)?;
    for arg in &term.args {
        made.args.push(substitute(alloc, arg, with)?)?;
    }
    Ok(made)
}

/// The term with further arguments, copied, behind its own.
fn applied(alloc: Global, term: Term, rest: &[Term]) -> Result<Term, OutOfMemory>
    ensures { IfOk result (λ t. t ≡ replacement.applied term (forest rest.now)) }
{
    let mut args = term.args;
    for arg in rest {
        args.push(arg.copy(alloc)?)?;
    }
    Ok(Term {
        head: term.head,
        args,
    })
}

/// What a nonterminal with these arguments is replaced by, where it has as many as it has
/// parameters, or more.
fn unfolded(
    alloc: Global,
    rules: &[Rule],
    number: u32,
    args: &[Term],
) -> Result<Option<Term>, OutOfMemory>
    ensures { IfOk result (λ t. t ≡ definition.unfolded rules.now number args.now) }
{
    let Some(rule) = rules.get(number as usize) else {
        return Ok(None);
    };
    let params = rule.params as usize;
    if args.len() < params {
        return Ok(None);
    }
    let body = substitute(alloc, &rule.body, &args[..params])?;
    Ok(Some(applied(alloc, body, &args[params..])?))
}

/// The value tree of a term, cut off after n steps of outermost reduction on each branch. Recurses
/// n deep, and as deep as the terms on the way, which may grow at each step.
pub fn cut(alloc: Global, rules: &[Rule], n: u8, term: &Term) -> Result<ValueTree, OutOfMemory>
    ensures { IfOk result (λ tree. tree ≡ definition.cut rules.now n term.now) }
{
    let mut children = Vec::new(alloc);
    let mut terminal = None;
    if n > 0 {
        match term.head {
            Head::Var(_) => {}
            Head::Nt(number) => {
                if let Some(body) = unfolded(alloc, rules, number, term.args.as_slice())? {
                    return cut(alloc, rules, n - 1, &body);
                }
            }
            Head::Tm(symbol) => {
                terminal = Some(symbol);
                for arg in &term.args {
                    children.push(cut(alloc, rules, n - 1, arg)?)?;
                }
            }
        }
    }
    Ok(ValueTree { terminal, children })
}

/// Whether the automaton, in this state, reads the tree to its end. Recurses as deep as the tree.
pub fn run(automaton: &Automaton, state: u32, tree: &ValueTree) -> bool
    ensures { result ≡ acceptance.run automaton.now.transitions state tree.now }
{
    let Some(terminal) = tree.terminal else {
        return true;
    };
    let Some(to) = automaton.next(state, terminal) else {
        return false;
    };
    if to.len() != tree.children.len() {
        return false;
    }
    for (place, child) in tree.children.iter().enumerate() {
        if !run(automaton, to[place], child) {
            return false;
        }
    }
    true
}

/// Whether the automaton reads the tree of the start, cut at n, from the initial state.
pub fn accepts_cut(
    alloc: Global,
    rules: &[Rule],
    automaton: &Automaton,
    n: u8,
) -> Result<bool, OutOfMemory>
    ensures { IfOk result (λ yes. yes ≡ acceptance.run automaton.now.transitions 0
        (definition.cut rules.now n acceptance.start)) }
{
    let start = Term {
        head: Head::Nt(0),
        args: Vec::new(alloc),
    };
    let tree = cut(alloc, rules, n, &start)?;
    Ok(run(automaton, 0, &tree))
}
