//! Sorted schemes with their points and their flow.

ghost use Rattle.std.specs.Prelude.{◌≡◌, ◌↔◌, IsTrue};
ghost use Rattle.hs_scheme.specs.Problem.{ProblemData, IsProblem};

use crate::flow::FlowTable;
use crate::points::Points;
use crate::same::{is_same_flow, is_same_sorted};
use crate::sorted::Sorted;
use std::marker::Model;

/// What saturation works on: a sorted scheme, its points, and which of them may stand for which
/// parameters.
///
/// The points are those of the scheme. The flow names points, rules and parameters in range, and
/// the arguments given in a head pair are fewer than its rule's parameters.
#[derive(Drop)]
pub struct Problem {
    pub sorted: Sorted,
    pub points: Points,
    pub flow: FlowTable,
}

impl Model for Problem {
    ghost use Rattle.hs_scheme.specs.Problem.{ProblemData, coded_problem, IsProblem};

    ghost Value = { ProblemData };

    ghost coded = { coded_problem };

    ghost view = { λ a. record { sorted = a.sorted; points = a.points; flow = a.flow } };

    ghost invariant = { λ a. IsProblem (record { sorted = a.sorted; points = a.points; flow = a.flow }) };
}

impl Problem {
    /// The problem of these parts. The points are those of the scheme, and the flow names points,
    /// rules and parameters of it, as `analyse` in `hs_flow` answers it. Takes no memory.
    pub fn new(sorted: Sorted, points: Points, flow: FlowTable) -> Problem
        requires { IsProblem (record { sorted = sorted; points = points; flow = flow }) }
        ensures { result ≡ record { sorted = sorted; points = points; flow = flow } }
    {
        Problem {
            sorted,
            points,
            flow,
        }
    }

    /// Whether the two problems are equal. Takes no memory, and time in proportion to their size
    /// without the points, which are those of their schemes.
    pub fn same(&self, other: &Problem) -> bool
        ensures { IsTrue result ↔ (self.now ≡ other.now) }
    {
        is_same_sorted(&self.sorted, &other.sorted) && is_same_flow(&self.flow, &other.flow)
    }
}
