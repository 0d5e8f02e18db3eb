//! Small files, each simplified by hand.

ghost use Rattle.std.specs.Prelude.{◌≡◌, All, IfOk};

use crate::seeing::see;
use hs_fixtures::{PARTIAL, name_of, sorted_of};
use hs_passes::{DropUnreachable, DropUnused, FoldAliases, Pass, add, simplify};
use hs_scheme::{Head, Names, OutOfMemory, Sorted, Term};
use std::alloc::Global;
use std::mem::forget;
use std::test::Fail;

/// Adds the term, with each argument in parentheses. Recurses as deep as the term.
fn push_term(out: &mut String, names: &Names, term: &Term) -> Result<(), OutOfMemory> {
    match term.head {
        Head::Var(parameter) => write!(out, "x{parameter}")?,
        Head::Nt(rule) => out.push_str(name_of(names.rules.as_slice(), rule as usize))?,
        Head::Tm(terminal) => out.push_str(name_of(names.terminals.as_slice(), terminal as usize))?,
    }
    for arg in &term.args {
        out.push_str("(")?;
        push_term(out, names, arg)?;
        out.push_str(")")?;
    }
    Ok(())
}

/// Adds the rules, each on a line with the number of its parameters.
fn push_rules(out: &mut String, sorted: &Sorted) -> Result<(), OutOfMemory> {
    for (i, rule) in sorted.scheme.rules.iter().enumerate() {
        out.push_str(name_of(sorted.names.rules.as_slice(), i))?;
        let params = rule.params;
        write!(out, " {params} -> ")?;
        push_term(out, &sorted.names, &rule.body)?;
        out.push_str("\n")?;
    }
    Ok(())
}

/// Adds the tallies of the passes, each behind a blank.
fn push_tallies(out: &mut String, passes: &[Box<dyn Pass>]) -> Result<(), OutOfMemory> {
    for pass in passes {
        let tally = pass.tally();
        write!(out, " {tally}")?;
    }
    Ok(())
}

const EXAMPLE: &str = "S -> H c. H x -> F x. F x -> br x (a (F (b x))). D -> b c.";

/// A pass that changes nothing.
#[derive(Drop)]
struct Copying;

impl Pass for Copying {
    ghost taken = { λ _. 0 };

    ghost image = { λ _ s. s };

    fn apply(&mut self, alloc: Global, sorted: &Sorted) -> Result<Sorted, OutOfMemory> {
        sorted.copy(alloc)
    }

    fn tally(&self) -> u64 {
        0
    }
}

/// A pass that finds no memory.
#[derive(Drop)]
struct Refusing;

impl Pass for Refusing {
    ghost taken = { λ _. 0 };

    ghost image = { λ _ s. s };

    fn apply(&mut self, _alloc: Global, _sorted: &Sorted) -> Result<Sorted, OutOfMemory> {
        Err(OutOfMemory)
    }

    fn tally(&self) -> u64 {
        0
    }
}

/// Some passes.
#[derive(Clone, Copy)]
enum Which {
    Unreachable,
    Aliases,
    Unused,
    Four,
    Copying,
    Three,
}

/// The four passes.
fn four(alloc: Global) -> Result<Vec<Box<dyn Pass>>, OutOfMemory>
    ensures { IfOk result (λ passes. All (λ p. taken p ≡ 0) passes.items) }
{
    let mut passes: Vec<Box<dyn Pass>> = Vec::new(alloc);
    add(&mut passes, Box::new(alloc, FoldAliases::new())?)?;
    add(&mut passes, Box::new(alloc, DropUnreachable::new())?)?;
    add(&mut passes, Box::new(alloc, DropUnused::new())?)?;
    add(&mut passes, Box::new(alloc, DropUnreachable::new())?)?;
    Ok(passes)
}

/// Three passes, the second of which finds no memory.
fn one_refusing(alloc: Global) -> Result<Vec<Box<dyn Pass>>, OutOfMemory>
    ensures { IfOk result (λ passes. All (λ p. taken p ≡ 0) passes.items) }
{
    let mut passes: Vec<Box<dyn Pass>> = Vec::new(alloc);
    add(&mut passes, Box::new(alloc, FoldAliases::new())?)?;
    add(&mut passes, Box::new(alloc, Refusing)?)?;
    add(&mut passes, Box::new(alloc, DropUnreachable::new())?)?;
    Ok(passes)
}

/// This pass alone.
fn one(alloc: Global, pass: Box<dyn Pass>) -> Result<Vec<Box<dyn Pass>>, OutOfMemory>
    requires { taken pass ≡ 0 }
    ensures { IfOk result (λ passes. All (λ p. taken p ≡ 0) passes.items) }
{
    let mut passes: Vec<Box<dyn Pass>> = Vec::new(alloc);
    add(&mut passes, pass)?;
    Ok(passes)
}

/// These passes.
fn passes_of(alloc: Global, which: Which) -> Result<Vec<Box<dyn Pass>>, OutOfMemory>
    ensures { IfOk result (λ passes. All (λ p. taken p ≡ 0) passes.items) }
{
    match which {
        Which::Unreachable => one(alloc, Box::new(alloc, DropUnreachable::new())?),
        Which::Aliases => one(alloc, Box::new(alloc, FoldAliases::new())?),
        Which::Unused => one(alloc, Box::new(alloc, DropUnused::new())?),
        Which::Copying => one(alloc, Box::new(alloc, Copying)?),
        Which::Four => four(alloc),
        Which::Three => one_refusing(alloc),
    }
}

/// Adds what the passes make of the scheme, or `refused`, and their tallies.
fn push_applied(
    out: &mut String,
    alloc: Global,
    passes: &mut Vec<Box<dyn Pass>>,
    sorted: Sorted,
) -> Result<(), OutOfMemory>
    requires { All (λ p. taken p ≡ 0) passes.old.items }
{
    match simplify(alloc, passes, sorted) {
        Ok(made) => {
            let pushed = push_rules(out, &made);
            forget(made);
            pushed?;
        }
        Err(_) => out.push_str("refused")?,
    }
    push_tallies(out, passes.as_slice())
}

/// The same as text.
fn applied(
    alloc: Global,
    passes: &mut Vec<Box<dyn Pass>>,
    sorted: Sorted,
) -> Result<String, OutOfMemory>
    requires { All (λ p. taken p ≡ 0) passes.old.items }
{
    let mut out = String::new(alloc);
    push_applied(&mut out, alloc, passes, sorted)?;
    Ok(out)
}

/// The same on a file with these rules.
fn applied_to(alloc: Global, passes: &mut Vec<Box<dyn Pass>>, rules: &str) -> Result<String, Fail>
    requires { All (λ p. taken p ≡ 0) passes.old.items }
{
    let sorted = sorted_of(alloc, rules, "q0 c -> .")?;
    Ok(applied(alloc, passes, sorted)?)
}

/// The same with these passes.
fn simplified(alloc: Global, which: Which, rules: &str) -> Result<String, Fail> {
    let mut passes = passes_of(alloc, which)?;
    let text = applied_to(alloc, &mut passes, rules);
    forget(passes);
    text
}

/// A pass, rules, and what it makes of them.
const EACH: [(Which, &str, &str); 8] = [
    // A rule that is not needed goes.
    (
        Which::Unreachable,
        EXAMPLE,
        "S 0 -> H(c)\nH 1 -> F(x0)\nF 1 -> br(x0)(a(F(b(x0))))\n 1",
    ),
    // The last alias of a cycle stays.
    (
        Which::Aliases,
        "S -> A. A -> B. B -> A.",
        "S 0 -> B\nB 0 -> B\n 1",
    ),
    // A parameter that is never used goes with its argument.
    (
        Which::Unused,
        "S -> F c (d c). F x y -> a x.",
        "S 0 -> F(c)\nF 1 -> a(x0)\n 1",
    ),
    // K occurs with one argument, so that its second parameter stays.
    (
        Which::Unused,
        PARTIAL,
        "S 0 -> Ap(K(c))(c)\nAp 2 -> x0(x1)\nK 2 -> x0\n 0",
    ),
    // It is used only in an argument that goes: each can go after the one before.
    (
        Which::Unused,
        "S -> G c c. G x y -> F x y. F x y -> H y x. H x y -> a y.",
        "S 0 -> G(c)\nG 1 -> F(x0)\nF 1 -> H(x0)\nH 1 -> a(x0)\n 3",
    ),
    // Two that are used by one another stay.
    (
        Which::Unused,
        "S -> F c c c. F x y z -> a (F y x z).",
        "S 0 -> F(c)(c)(c)\nF 3 -> a(F(x1)(x0)(x2))\n 0",
    ),
    // An occurrence without an argument counts only where it is left.
    (
        Which::Unused,
        "S -> F G c. F g x -> a x. G x -> c.",
        "S 0 -> F(c)\nF 1 -> a(x0)\nG 0 -> c\n 2",
    ),
    // An equal copy takes nothing off.
    (
        Which::Copying,
        EXAMPLE,
        "S 0 -> H(c)\nH 1 -> F(x0)\nF 1 -> br(x0)(a(F(b(x0))))\nD 0 -> b(c)\n 0",
    ),
];

#[test]
fn each_pass_by_itself(rt: HostRuntime) -> Result<(), Fail> {
    for (which, rules, expected) in &EACH {
        let text = simplified(rt.alloc(), *which, rules)?;
        see(&rt, text.as_str(), *expected, rules);
    }
    Ok(())
}

/// Passes, rules, and what they make of them.
const TOGETHER: [(Which, &str, &str); 3] = [
    (
        Which::Four,
        EXAMPLE,
        "S 0 -> F(c)\nF 1 -> br(x0)(a(F(b(x0))))\n 2 1 0 0",
    ),
    // Dropped arguments leave a rule that is not needed.
    (
        Which::Four,
        "S -> F c (D c). F x y -> a x. D x -> d x x.",
        "S 0 -> F(c)\nF 1 -> a(x0)\n 0 0 1 2",
    ),
    // The passes before the one without memory have raised their tallies.
    (Which::Three, EXAMPLE, "refused 2 0 0"),
];

#[test]
fn passes_are_applied_in_their_order(rt: HostRuntime) -> Result<(), Fail> {
    for (which, rules, expected) in &TOGETHER {
        let text = simplified(rt.alloc(), *which, rules)?;
        see(&rt, text.as_str(), *expected, rules);
    }
    Ok(())
}
