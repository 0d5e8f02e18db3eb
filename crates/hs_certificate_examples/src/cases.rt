//! Certificates by hand, and what is none. Points are counted from 0, through the bodies of the rules in
//! their order, each term before its arguments.

use crate::shorts::{ShortEntry, ShortVoid};
use hs_fixtures::{
    BRANCHING, BRANCHING_ACCEPTED, BRANCHING_REJECTED, PARTIAL, RESOURCE, RESOURCE_TRANSITIONS,
};

/// What the checker is to answer.
#[derive(Clone, Copy)]
pub(crate) enum Expected {
    /// That it is a certificate.
    Certificate,
    /// That the table has the start entry.
    Start,
    /// That the void pair at this place is none.
    NotVoid(usize),
    /// That this entry is missing, which is the only one.
    Missing(&'static ShortEntry),
}

/// A table and void pairs, the answer, and which case it is.
pub(crate) type Case = (
    &'static [ShortEntry],
    &'static [ShortVoid],
    Expected,
    &'static str,
);

/// A parameter that is read below b, in q1. The points are 0 `F c`, 1 `c`, 2 `b x` and 3 `x`. Where c is
/// rejected in q1, so is x where its argument is, then `b x` in q0 where x is in q1, and so the start.
const CALLED: &str = "S -> F c. F x -> b x.";

const ARGUMENT: ShortEntry = (1, &[], (None, 1));

const ARGUMENT_IN_START: ShortEntry = (1, &[], (None, 0));

const PARAMETER: ShortEntry = (3, &[&[(None, 1)]], (None, 1));

const BODY: ShortEntry = (2, &[&[(None, 1)]], (None, 0));

const START: ShortEntry = (0, &[], (None, 0));

/// A nonterminal that is its parameter. The points are 0 `F c`, 1 `c` and 2 `x`.
const HANDED: &str = "S -> F c. F x -> x.";

/// Two nonterminals that hand their parameters to one another. The points are 0 `F c`, 1 `c`, 2 `G x`,
/// 3 `x`, 4 `F y` and 5 `y`.
const CIRCLE: &str = "S -> F c. F x -> G x. G y -> F y.";

const X: ShortEntry = (3, &[&[(None, 0)]], (None, 0));

const Y: ShortEntry = (5, &[&[(None, 0)]], (None, 0));

const F_ASKS: ShortVoid = (1, &[&[(None, 0)]]);

const G_ASKS: ShortVoid = (2, &[&[(None, 0)]]);

/// A nonterminal that hands its parameter on to itself, and reads it. The points are 0 `F c`, 1 `c`,
/// 2 `b x (F x)`, 3 `x`, 4 `F x` and 5 `x`.
const AGAIN: &str = "S -> F c. F x -> b x (F x).";

/// Two functions, each with its own argument. The points are 0 `br (Ap a c) (Ap b d)`, 1 `Ap a c`, 2 `a`,
/// 3 `c`, 4 `Ap b d`, 5 `b`, 6 `d`, 7 `f x` and 8 `x`. Both are read in q1 and in q2, and both arguments in
/// q3 below a and in q4 below b.
const TWO_FUNCTIONS: &str = "S -> br (Ap a c) (Ap b d). Ap f x -> f x.";

const TWO_FUNCTIONS_TRANSITIONS: &str =
    "q0 br -> q1 q2. q1 a -> q3. q2 a -> q3. q1 b -> q4. q2 b -> q4. q3 c -> . q4 d -> .";

/// The arguments are rejected below the other function, and so is the parameter. No call hands Ap a function
/// with an argument that is rejected below it.
const TWO_FUNCTIONS_TABLE: &[ShortEntry] = &[
    (2, &[], (Some(&[3]), 1)),
    (2, &[], (Some(&[3]), 2)),
    (3, &[], (None, 4)),
    (5, &[], (Some(&[4]), 1)),
    (5, &[], (Some(&[4]), 2)),
    (6, &[], (None, 3)),
    (8, &[&[], &[(None, 3)]], (None, 3)),
    (8, &[&[], &[(None, 4)]], (None, 4)),
];

/// A nonterminal that is called twice. The points are 0 `br (F c) (F d)`, 1 `F c`, 2 `c`, 3 `F d`, 4 `d` and
/// 5 `x`, and the arguments are read in q1 and q2.
const TWO_CALLS: &str = "S -> br (F c) (F d). F x -> x.";

const TWO_CALLS_TRANSITIONS: &str = "q0 br -> q1 q2. q1 c -> . q2 d -> .";

/// Each argument is rejected in the state in which the other one is read, and so is the parameter.
const TWO_CALLS_TABLE: &[ShortEntry] = &[
    (2, &[], (None, 2)),
    (4, &[], (None, 1)),
    (5, &[&[(None, 1)]], (None, 1)),
    (5, &[&[(None, 2)]], (None, 2)),
];

/// Certificates of which each entry is missing where it is left out, with no void pairs.
pub(crate) const NEEDED: &[(&str, &str, &[ShortEntry])] = &[
    (TWO_CALLS, TWO_CALLS_TRANSITIONS, TWO_CALLS_TABLE),
    (
        TWO_FUNCTIONS,
        TWO_FUNCTIONS_TRANSITIONS,
        TWO_FUNCTIONS_TABLE,
    ),
];

/// Schemes with cases.
pub(crate) const CASES: &[(&str, &str, &[Case])] = &[
    (
        CALLED,
        "q0 b -> q1. q1 c -> .",
        &[
            (&[], &[], Expected::Certificate, "nothing is rejected"),
            (&[START], &[], Expected::Start, "the start entry"),
            (
                &[(0, &[&[]], (None, 0))],
                &[],
                Expected::Certificate,
                "the start entry with a set more",
            ),
            (
                &[],
                &[(1, &[&[(None, 1)]])],
                Expected::Certificate,
                "no entry at the argument",
            ),
            (
                &[START],
                &[(0, &[])],
                Expected::Start,
                "the start entry and a pair that isn't void",
            ),
        ],
    ),
    (
        CALLED,
        "q0 b -> q1. q0 c -> .",
        &[
            (&[], &[], Expected::Missing(&ARGUMENT), "c in q1"),
            (
                &[ARGUMENT],
                &[],
                Expected::Missing(&PARAMETER),
                "x by its argument",
            ),
            (
                &[ARGUMENT, PARAMETER],
                &[],
                Expected::Missing(&BODY),
                "b by its child",
            ),
            (
                &[ARGUMENT, PARAMETER, BODY],
                &[],
                Expected::Missing(&START),
                "F by its body",
            ),
            (
                &[ARGUMENT, PARAMETER, BODY, START],
                &[],
                Expected::Start,
                "all that follows",
            ),
            (
                &[PARAMETER, BODY],
                &[],
                Expected::Missing(&ARGUMENT),
                "the first is left out",
            ),
            (
                &[],
                &[(0, &[])],
                Expected::NotVoid(0),
                "a pair that isn't void before an entry that is missing",
            ),
        ],
    ),
    (
        HANDED,
        "q0 c -> .",
        &[
            (
                &[],
                &[(1, &[&[(None, 0)]])],
                Expected::Certificate,
                "no entry at the argument",
            ),
            (
                &[ARGUMENT_IN_START],
                &[(1, &[&[(None, 0)]])],
                Expected::NotVoid(0),
                "an entry that asks nothing",
            ),
            (
                &[ARGUMENT_IN_START],
                &[],
                Expected::Missing(&(2, &[&[(None, 0)]], (None, 0))),
                "x by its argument",
            ),
            (
                &[],
                &[(0, &[])],
                Expected::NotVoid(0),
                "the empty chain of a rule without parameters",
            ),
            (
                &[],
                &[(1, &[&[(None, 0)]]), (0, &[])],
                Expected::NotVoid(1),
                "one that is void, and one that isn't",
            ),
            (
                &[],
                &[(1, &[&[]])],
                Expected::NotVoid(0),
                "an environment that asks nothing",
            ),
            (&[], &[(2, &[])], Expected::NotVoid(0), "no such rule"),
            (
                &[],
                &[(0, &[]), (1, &[])],
                Expected::NotVoid(1),
                "one out of shape behind one that isn't void",
            ),
        ],
    ),
    (
        CIRCLE,
        "q0 c -> .",
        &[
            (
                &[X, Y],
                &[F_ASKS, G_ASKS],
                Expected::Certificate,
                "void by way of one another",
            ),
            (&[X, Y], &[F_ASKS], Expected::NotVoid(0), "one of them"),
            (&[X, Y], &[G_ASKS], Expected::NotVoid(0), "the other one"),
            (
                &[Y],
                &[F_ASKS, G_ASKS],
                Expected::Certificate,
                "an entry whose environment is void",
            ),
            (
                &[X],
                &[F_ASKS, G_ASKS],
                Expected::Certificate,
                "the other one",
            ),
            (&[], &[], Expected::Certificate, "nothing is rejected"),
            (
                &[ARGUMENT_IN_START, X, Y],
                &[F_ASKS, G_ASKS],
                Expected::NotVoid(0),
                "a circle that is entered",
            ),
            (
                &[ARGUMENT_IN_START, X, Y],
                &[G_ASKS, F_ASKS],
                Expected::NotVoid(1),
                "the same in another order",
            ),
        ],
    ),
    (
        AGAIN,
        "q0 b -> q0 q0. q0 c -> .",
        &[
            (&[Y], &[F_ASKS], Expected::Certificate, "void by itself"),
            (&[Y], &[], Expected::Missing(&X), "the pair is left out"),
            (&[], &[F_ASKS], Expected::Certificate, "no entries"),
        ],
    ),
    (
        TWO_CALLS,
        TWO_CALLS_TRANSITIONS,
        &[
            (TWO_CALLS_TABLE, &[], Expected::Certificate, "whole"),
            (
                TWO_CALLS_TABLE,
                &[(1, &[&[(None, 1), (None, 2)]])],
                Expected::Certificate,
                "no call gives both",
            ),
            (
                TWO_CALLS_TABLE,
                &[(1, &[&[(None, 1)]])],
                Expected::NotVoid(0),
                "one of the calls gives it",
            ),
        ],
    ),
    (
        TWO_FUNCTIONS,
        TWO_FUNCTIONS_TRANSITIONS,
        &[
            (TWO_FUNCTIONS_TABLE, &[], Expected::Certificate, "whole"),
            (
                TWO_FUNCTIONS_TABLE,
                &[(1, &[&[(Some(&[3]), 1)], &[(None, 3)]])],
                Expected::Certificate,
                "a function of one call, and an argument of the other",
            ),
            (
                TWO_FUNCTIONS_TABLE,
                &[(1, &[&[(Some(&[3]), 1)], &[]])],
                Expected::NotVoid(0),
                "the function alone",
            ),
        ],
    ),
    (
        BRANCHING,
        BRANCHING_ACCEPTED,
        &[(
            &[],
            &[],
            Expected::Certificate,
            "what is rejected isn't read",
        )],
    ),
    (
        BRANCHING,
        BRANCHING_REJECTED,
        &[(
            &[],
            &[],
            Expected::Missing(&(6, &[&[]], (None, 1))),
            "b is read in q1",
        )],
    ),
    (
        "S -> a S.",
        "q0 a -> q0.",
        &[
            (&[], &[], Expected::Certificate, "a loop"),
            (&[START], &[], Expected::Start, "the start of a loop"),
        ],
    ),
    (
        "S -> S.",
        "q0 a -> .",
        &[(&[], &[], Expected::Certificate, "a tree without a root")],
    ),
    (
        RESOURCE,
        RESOURCE_TRANSITIONS,
        &[
            (&[], &[], Expected::Certificate, "end is read in q1 alone"),
            (
                &[ARGUMENT_IN_START],
                &[],
                Expected::Certificate,
                "an entry in whose state the point isn't read",
            ),
        ],
    ),
    (
        PARTIAL,
        "q0 b -> q1. q1 c -> .",
        &[
            (
                &[],
                &[],
                Expected::Missing(&(2, &[], (None, 0))),
                "the argument of K that is read",
            ),
            (
                &[(2, &[], (None, 0))],
                &[],
                Expected::Missing(&(6, &[&[(None, 0)], &[]], (None, 0))),
                "x of K",
            ),
        ],
    ),
    (
        PARTIAL,
        "q0 c -> .",
        &[(&[], &[], Expected::Certificate, "nothing is rejected")],
    ),
];
