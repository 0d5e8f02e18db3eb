//! What is kept of a reduction while it goes on.

ghost use Rattle.std.specs.Prelude.{◌∷◌, ◌++◌, [], ℕ, List, OnOk};
ghost use Rattle.hs_reduce.specs.declared.answers.ReductionStep.{ReductionStep as AnyStep};
ghost use Rattle.hs_reduce.specs.Advances.{Keeps};

use crate::answers::ReductionStep;
use hs_scheme::OutOfMemory;
use std::alloc::Global;

/// The labels of the steps that were made, and the first of these steps.
#[derive(Drop)]
pub(crate) struct Trail {
    pub(crate) labels: Vec<(u32, u32)>,
    pub(crate) steps: Vec<ReductionStep>,
}

impl Trail {
    /// That of no steps.
    pub(crate) fn new(alloc: Global) -> Trail
        ensures { (most : ℕ) → Keeps most [] result }
    {
        Trail {
            labels: Vec::new(alloc),
            steps: Vec::new(alloc),
        }
    }

    /// Adds a step, whose label is kept, and which is kept itself unless there are as many as this.
    pub(crate) fn push(&mut self, most: usize, step: ReductionStep) -> Result<(), OutOfMemory>
        ensures { OnOk result ((all : List AnyStep) → Keeps most all self.old
            → Keeps most (all ++ step ∷ []) self.new) }
    {
        if let ReductionStep::Descent {
            terminal,
            child,
            from: _,
            to: _,
        } = step
        {
            self.labels.push((terminal, child))?;
        }
        if self.steps.len() < most {
            self.steps.push(step)?;
        }
        Ok(())
    }
}
