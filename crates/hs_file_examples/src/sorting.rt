//! What inference answers: sizes of sorts, and lengthened rules. Schemes without a sorting are rows of
//! `.ci/rows`.

use crate::seeing::see;
use crate::told::{Asked, see_told, told};
use hs_fixtures::name_of;
use hs_scheme::{OutOfMemory, Sort, Sorted};
use std::alloc::Global;
use std::mem::forget;
use std::process::Abort;
use std::test::Fail;

/// The transitions of the files: c, a and d have no, one and two children.
const TRANSITIONS: &str = "q0 c -> . q0 a -> q0. q0 d -> q0 q0.";

/// The size of a sort, by its definition. Recurses as deep as the sort.
fn size(sort: &Sort) -> u32 {
    let mut total = 1_u32;
    for arg in &sort.args {
        total = total.saturating_add(1).saturating_add(size(arg));
    }
    total
}

/// Adds the sizes of the sorts, each behind a blank.
pub(crate) fn push_sizes(out: &mut String, sorted: &Sorted) -> Result<(), OutOfMemory> {
    for sort in &sorted.sorts {
        let size = size(sort);
        write!(out, " {size}")?;
    }
    Ok(())
}

/// Adds the rules `S -> c.`, `T0 x -> x.` and `Ti f -> f T(i-1).` for i up to `last`.
fn push_chain(rules: &mut String, last: u32) -> Result<(), OutOfMemory> {
    rules.push_str("S -> c. T0 x -> x.")?;
    for before in 0..last {
        let number = before.saturating_add(1);
        write!(rules, " T{number} f -> f T{before}.")?;
    }
    Ok(())
}

/// Looks at the first and the last sizes of these rules.
fn see_ends(rt: &impl Abort, alloc: Global, rules: &str) -> Result<(), Fail> {
    let text = told(alloc, rules, TRANSITIONS, Asked::Sizes)?;
    let ends = (
        text.starts_with(" 1 3 7 11 15"),
        text.ends_with(" 991 995 999"),
    );
    forget(text);
    see(rt, ends, (true, true), "the first and the last sizes");
    Ok(())
}

#[test]
fn sorts_have_their_least_sizes(rt: HostRuntime) -> Result<(), Fail> {
    let alloc = rt.alloc();
    see_told(
        &rt,
        alloc,
        "S -> G b. G x -> c.",
        TRANSITIONS,
        Asked::Sizes,
        " 1 3",
    )?;
    let mut rules = String::new(alloc);
    push_chain(&mut rules, 249)?;
    let seen = see_ends(&rt, alloc, rules.as_str());
    forget(rules);
    seen
}

/// Adds the names of the parameters, each behind a blank, and a full stop behind those of a rule.
pub(crate) fn push_parameters(out: &mut String, sorted: &Sorted) -> Result<(), OutOfMemory> {
    for names in &sorted.names.params {
        for number in 0..names.len() {
            out.push_str(" ")?;
            out.push_str(name_of(names.as_slice(), number))?;
        }
        out.push_str(".")?;
    }
    Ok(())
}

/// Looks at whether the rules become the same as the full ones.
fn see_inferred(rt: &impl Abort, alloc: Global, short: &str, full: &str) -> Result<(), Fail> {
    let expected = told(alloc, full, TRANSITIONS, Asked::Whole)?;
    let seen = see_told(
        rt,
        alloc,
        short,
        TRANSITIONS,
        Asked::Whole,
        expected.as_str(),
    );
    forget(expected);
    seen
}

/// Short rules, the full ones, and the parameters of these.
const LENGTHENED: [(&str, &str, &str); 3] = [
    ("S -> F c. F -> a.", "S -> F c. F x -> a x.", ". ~1."),
    (
        "S -> Ap a c. Ap f -> f.",
        "S -> Ap a c. Ap f x -> f x.",
        ". f ~1.",
    ),
    (
        "S -> F c c. F -> G. G -> H. H -> d.",
        "S -> F c c. F x y -> G x y. G x y -> H x y. H x y -> d x y.",
        ". ~1 ~2. ~1 ~2. ~1 ~2.",
    ),
];

#[test]
fn short_rules_become_the_full_ones(rt: HostRuntime) -> Result<(), Fail> {
    let alloc = rt.alloc();
    for (short, full, names) in &LENGTHENED {
        see_inferred(&rt, alloc, short, full)?;
        see_told(&rt, alloc, short, TRANSITIONS, Asked::Parameters, names)?;
    }
    Ok(())
}
