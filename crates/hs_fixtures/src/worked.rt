//! Worked schemes: rules, and transitions of automata for their trees.

/// A nonterminal that goes on below a terminal of two children. Its terminals are c, br, a and b.
pub const BRANCHING: &str = "S -> F c. F x -> br x (a (F (b x))).";

/// An automaton that accepts its tree.
pub const BRANCHING_ACCEPTED: &str =
    "q0 br -> q0 q0. q0 a -> q0. q0 b -> q1. q1 b -> q1. q0 c -> . q1 c -> .";

/// One that doesn't.
pub const BRANCHING_REJECTED: &str = "q0 br -> q0 q0. q0 a -> q0. q0 b -> q1. q0 c -> . q1 c -> .";

/// A function that is applied twice.
pub const TWICE: &str = "S -> Tw a c. Tw f x -> f (f x).";

/// An automaton with three states, which rejects its tree.
pub const TWICE_TRANSITIONS: &str = "q0 a -> q1. q1 a -> q2. q2 a -> q2. q0 c -> . q1 c -> .";

/// A loop that closes what it reads.
pub const RESOURCE: &str = "S -> Loop end. Loop k -> br (close k) (read (Loop k)).";

/// An automaton that accepts its tree.
pub const RESOURCE_TRANSITIONS: &str = "q0 br -> q0 q0. q0 read -> q0. q0 close -> q1. q1 end -> .";

/// A nonterminal that is handed on with one of its two arguments.
pub const PARTIAL: &str = "S -> Ap (K c) c. Ap f x -> f x. K x y -> x.";
