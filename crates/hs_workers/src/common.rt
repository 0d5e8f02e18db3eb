//! What all workers have in common.

use crate::bell::Bell;
use hs_flow::Dependents;
use hs_scheme::Problem;
use hs_shared::SharedTable;
use std::alloc::Global;
use std::marker::Model;

/// What all workers have in common: the table, its problem with the dependents of the problem's points,
/// and where they wait. Contracts see which table it is, and the problem.
#[derive(Drop)]
pub(crate) struct Common<'a, 'p> {
    pub(crate) alloc: Global,
    pub(crate) table: &'a SharedTable<'p>,
    pub(crate) problem: &'a Problem,
    pub(crate) dependents: &'a Dependents,
    pub(crate) bell: &'a Bell,
}

impl<'a, 'p> Model for Common<'a, 'p> {
    ghost use Rattle.std.specs.Coded.{codes};
    ghost use Rattle.hs_scheme.specs.Problem.{coded_problem};
    ghost use Rattle.hs_flow.specs.Dependents.{HasDependents};
    ghost use Rattle.hs_workers.specs.Working.{CommonData};

    ghost Value = { CommonData };

    ghost coded = { Prim.hlevel (codes, coded_problem) };

    ghost view = { λ a. record { table = a.table.now; problem = a.problem.now } };

    ghost invariant = { λ a. HasDependents a.problem.now.points a.problem.now.flow.pairs a.dependents.now };
}
