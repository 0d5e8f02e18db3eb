//! Failing paths.

use std::marker::Model;

/// A path of a value tree at whose end the automaton fails.
#[derive(Debug, Drop)]
pub struct FailingPath {
    /// Each terminal on the way, with the number of the child that follows, counted from 1.
    pub steps: Vec<(u32, u32)>,
    /// The terminal at the end.
    pub last: u32,
    /// The state in which it is read, which has no transition for it.
    pub state: u32,
    /// How many reduction steps lead there.
    pub used: u64,
}

impl Model for FailingPath {
    ghost use Rattle.hs_scheme.specs.acceptance.FailingPath.{FailingPathData, coded_failing_path};

    ghost Value = { FailingPathData };

    ghost coded = { coded_failing_path };

    ghost view = { λ a. record { steps = a.steps.items; last = a.last; state = a.state; used = a.used } };
}
