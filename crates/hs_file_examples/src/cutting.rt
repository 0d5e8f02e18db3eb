//! Replacement, cuts and what an automaton reads of them, by the plain programs.

use crate::seeing::see;
use hs_fixtures::{name_of, unsorted_of};
use hs_scheme::{
    Automaton, Head, Name, OutOfMemory, Term, Unsorted, ValueTree, accepts_cut, cut, run,
    substitute,
};
use std::alloc::Global;
use std::mem::forget;
use std::process::Abort;
use std::test::Fail;

/// Adds the tree as text: each terminal with its children in parentheses, `_` where it is undefined.
/// Recurses as deep as the tree.
fn push_tree(out: &mut String, names: &[Name], tree: &ValueTree) -> Result<(), OutOfMemory> {
    match tree.terminal {
        None => out.push_str("_")?,
        Some(terminal) => out.push_str(name_of(names, terminal as usize))?,
    }
    out.push_str("(")?;
    for child in &tree.children {
        push_tree(out, names, child)?;
    }
    out.push_str(")")?;
    Ok(())
}

/// Adds the cut of a term.
fn push_cut(
    out: &mut String,
    alloc: Global,
    unsorted: &Unsorted,
    term: &Term,
    n: u8,
) -> Result<(), OutOfMemory> {
    let tree = cut(alloc, unsorted.rules.as_slice(), n, term)?;
    let pushed = push_tree(out, unsorted.names.terminals.as_slice(), &tree);
    forget(tree);
    pushed
}

/// Adds the cut of a head without arguments, and answers whether the automaton reads that of the start.
fn push_and_read(
    out: &mut String,
    alloc: Global,
    unsorted: &Unsorted,
    head: Head,
    n: u8,
) -> Result<bool, OutOfMemory> {
    let args = Vec::new(alloc);
    let term = Term { head, args };
    let pushed = push_cut(out, alloc, unsorted, &term, n);
    forget(term);
    pushed?;
    accepts_cut(alloc, unsorted.rules.as_slice(), &unsorted.automaton, n)
}

/// Adds the cut of the body of the second rule, with the arguments in that of the first for its
/// parameters.
fn push_replaced(
    out: &mut String,
    alloc: Global,
    unsorted: &Unsorted,
) -> Result<bool, OutOfMemory> {
    let [start, rule] = unsorted.rules.as_slice() else {
        return Ok(false);
    };
    let made = substitute(alloc, &rule.body, start.body.args.as_slice())?;
    let pushed = push_cut(out, alloc, unsorted, &made, 9);
    forget(made);
    pushed?;
    Ok(true)
}

/// What is asked of a file.
#[derive(Clone, Copy)]
enum Asked {
    /// The cut of a head without arguments, and whether that of the start is accepted.
    Cut(Head, u8),
    /// A replacement in the second of two rules, and whether there are two.
    Replaced,
}

/// Looks at the answer.
fn see_asked(
    rt: &impl Abort,
    alloc: Global,
    unsorted: &Unsorted,
    asked: Asked,
    expected: (&str, bool),
) {
    let mut out = String::new(alloc);
    let answer = match asked {
        Asked::Cut(head, n) => push_and_read(&mut out, alloc, unsorted, head, n),
        Asked::Replaced => push_replaced(&mut out, alloc, unsorted),
    };
    see(rt, answer.ok(), Some(expected.1), expected.0);
    see(rt, out.as_str(), expected.0, "text");
    forget(out);
}

/// Looks at the answer for the file with these rules and the automaton `q0 a -> q0.`
fn see_file(
    rt: &impl Abort,
    alloc: Global,
    rules: &str,
    asked: Asked,
    expected: (&str, bool),
) -> Result<(), Fail> {
    let unsorted = unsorted_of(alloc, rules, "q0 a -> q0.")?;
    see_asked(rt, alloc, &unsorted, asked, expected);
    forget(unsorted);
    Ok(())
}

/// A nonterminal that is given one argument more than it has parameters.
const SHORT: &str = "S -> F c. F -> a.";

/// One whose body is its parameter, with one argument more.
const IDENTITY: &str = "S -> Ap a c. Ap f -> f.";

/// One that is given too few.
const FEW: &str = "S -> F b. F x -> a x.";

/// Rules, what is asked of them, and the answer.
const FILES: [(&str, Asked, &str, bool); 27] = [
    // The cut of the start ends after its steps. Where a rule is shorter than its sort, the arguments that
    // are left come behind those of its body. A node without a transition is rejected where the cut has it,
    // and so is one with more children than states.
    ("S -> a S.", Asked::Cut(Head::Nt(0), 0), "_()", true),
    ("S -> a S.", Asked::Cut(Head::Nt(0), 1), "_()", true),
    ("S -> a S.", Asked::Cut(Head::Nt(0), 2), "a(_())", true),
    ("S -> a S.", Asked::Cut(Head::Nt(0), 3), "a(_())", true),
    ("S -> a S.", Asked::Cut(Head::Nt(0), 4), "a(a(_()))", true),
    (
        "S -> a S.",
        Asked::Cut(Head::Nt(0), 30),
        "a(a(a(a(a(a(a(a(a(a(a(a(a(a(a(_())))))))))))))))",
        true,
    ),
    ("S -> S.", Asked::Cut(Head::Nt(0), 3), "_()", true),
    ("S -> S.", Asked::Cut(Head::Nt(0), 30), "_()", true),
    ("S -> a b.", Asked::Cut(Head::Nt(0), 2), "a(_())", true),
    ("S -> a b.", Asked::Cut(Head::Nt(0), 3), "a(b())", false),
    (
        "S -> a S S.",
        Asked::Cut(Head::Nt(0), 2),
        "a(_()_())",
        false,
    ),
    (SHORT, Asked::Cut(Head::Nt(0), 0), "_()", true),
    (SHORT, Asked::Cut(Head::Nt(0), 1), "_()", true),
    (SHORT, Asked::Cut(Head::Nt(0), 2), "_()", true),
    (SHORT, Asked::Cut(Head::Nt(0), 3), "a(_())", true),
    (SHORT, Asked::Cut(Head::Nt(0), 4), "a(c())", false),
    (SHORT, Asked::Cut(Head::Nt(0), 5), "a(c())", false),
    (IDENTITY, Asked::Cut(Head::Nt(0), 0), "_()", true),
    (IDENTITY, Asked::Cut(Head::Nt(0), 1), "_()", true),
    (IDENTITY, Asked::Cut(Head::Nt(0), 2), "_()", true),
    (IDENTITY, Asked::Cut(Head::Nt(0), 3), "a(_())", true),
    (IDENTITY, Asked::Cut(Head::Nt(0), 4), "a(c())", false),
    (IDENTITY, Asked::Cut(Head::Nt(0), 5), "a(c())", false),
    (
        "S -> F b c d. F x -> a x.",
        Asked::Cut(Head::Nt(0), 4),
        "a(b()c()d())",
        false,
    ),
    // A parameter and a nonterminal with too few arguments are undefined.
    (FEW, Asked::Cut(Head::Var(0), 9), "_()", false),
    (FEW, Asked::Cut(Head::Nt(1), 9), "_()", false),
    // The arguments of a parameter come behind those of its term.
    (
        "S -> e (a b) c. F x y -> x y (x b).",
        Asked::Replaced,
        "a(b()c()a(b()b()))",
        true,
    ),
];

#[test]
fn cuts_whether_they_are_accepted_and_replacement(rt: HostRuntime) -> Result<(), Fail> {
    for (rules, asked, text, answer) in &FILES {
        see_file(&rt, rt.alloc(), rules, *asked, (*text, *answer))?;
    }
    Ok(())
}

/// A state, a terminal, and where the automaton `q0 a -> q0 q1. q1 a -> q1 q1.` goes, where `a` has
/// number 3.
const NEXT: [(u32, u32, Option<&[u32]>); 4] = [
    (0, 3, Some(&[0, 1])),
    (1, 3, Some(&[1, 1])),
    (0, 1, None),
    (3, 0, None),
];

/// A terminal, the number of a child, a state, and the states in which the child is read.
const READINGS: [(u32, usize, u32, &[u32]); 3] = [
    (3, 0, 0, &[0]),
    (3, 1, 1, &[0, 1]),
    (3, 2, 1, &[]),
];

/// Looks at its transitions, at the states in which children are read, and at the places of the
/// transitions.
fn see_all(rt: &impl Abort, automaton: &Automaton) {
    see(rt, automaton.states(), 2, "states");
    for (state, terminal, expected) in &NEXT {
        see(rt, automaton.next(*state, *terminal), *expected, "next");
    }
    for (terminal, child, state, expected) in &READINGS {
        let found = automaton.reading(*terminal, *child, *state);
        see(rt, found, *expected, "reading");
    }
    see(rt, automaton.transitions().len(), 2, "transitions");
    let found = automaton.with_terminal(3);
    see(rt, found, [0, 1].as_slice(), "with terminal 3");
    let none = automaton.with_terminal(0);
    see(rt, none, [].as_slice(), "with terminal 0");
}

/// Looks at it and at a copy, and reads a tree in a state that has no transition.
fn see_automaton(rt: &impl Abort, alloc: Global, automaton: &Automaton) -> Result<(), OutOfMemory> {
    see_all(rt, automaton);
    let copy = automaton.copy(alloc)?;
    see_all(rt, &copy);
    forget(copy);
    let tree = ValueTree {
        terminal: Some(3),
        children: Vec::new(alloc),
    };
    let accepted = run(automaton, 2, &tree);
    forget(tree);
    see(rt, accepted, false, "a state without a transition");
    Ok(())
}

#[test]
fn transitions_by_state_by_terminal_and_by_child(rt: HostRuntime) -> Result<(), Fail> {
    let alloc = rt.alloc();
    let unsorted = unsorted_of(alloc, "S -> b c d a.", "q0 a -> q0 q1. q1 a -> q1 q1.")?;
    let seen = see_automaton(&rt, alloc, &unsorted.automaton);
    forget(unsorted);
    seen?;
    Ok(())
}

#[test]
fn names_are_their_bytes(rt: HostRuntime) -> Result<(), Fail> {
    let name = Name::of(rt.alloc(), b"x'0$")?;
    see(&rt, name.bytes(), b"x'0$", "bytes");
    forget(name);
    let empty = Name::of(rt.alloc(), b"")?;
    see(&rt, empty.bytes(), b"", "no byte");
    forget(empty);
    Ok(())
}
