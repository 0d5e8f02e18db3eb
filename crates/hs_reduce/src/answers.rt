//! What the calls answer.

use hs_scheme::FailingPath;

/// What a reduction along a path comes to.
#[derive(Clone, Copy, Debug, PartialEq, Eq, Drop)]
pub enum Replay {
    /// A terminal without transition is met.
    Stuck {
        terminal: u32,
        /// The state in which it has no transition.
        state: u32,
        /// How many children were followed before.
        at: u32,
        /// How many steps were made before.
        used: u64,
    },
    /// All children were followed, and the next terminal has a transition. It is met after `used`
    /// steps.
    Ended {
        used: u64,
    },
    /// After `at` children a terminal with a transition is met, and it has no child of the next
    /// number.
    NoChild {
        at: u32,
    },
    /// None of these is met.
    Runs,
}

/// What reduction along every path, up to a number of steps, comes to.
#[derive(Debug, Drop)]
pub enum Bounded {
    /// The automaton reads the cut to its end.
    NoError,
    /// It doesn't, and the path leads to an error in fewer steps than the cut has.
    Error(FailingPath),
}

/// A step of a reduction along a path.
#[derive(Clone, Copy, Debug, PartialEq, Eq, Drop)]
pub enum ReductionStep {
    /// The nonterminal in front, by the number of its rule, counted from 0, is replaced.
    Call {
        rule: u32,
    },
    /// From the terminal in front, counted from 0, the reduction goes down to its child, counted from
    /// 1, and from a state to the one in which the child is read.
    Descent {
        terminal: u32,
        child: u32,
        from: u32,
        to: u32,
    },
}

/// The reduction of the start along a path to a terminal without transition.
#[derive(Debug, Drop)]
pub struct Trace {
    /// The path. Its `used` is the number of all steps.
    pub path: FailingPath,
    /// The first of the steps, in their order.
    pub steps: Vec<ReductionStep>,
}
