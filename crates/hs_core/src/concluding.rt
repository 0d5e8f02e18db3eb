//! What follows in a core.

ghost use Rattle.std.specs.Prelude.{◌≡◌, ◌+◌, ◌<◌, ◌≤◌, [], length, take, IfOk};
ghost use Rattle.hs_types.specs.Interned.{Grows};
ghost use Rattle.hs_rules.specs.Conclusions.{AnySupport, Uses, AreSomeConclusions, AreConclusions};
ghost use Rattle.hs_core.specs.Core.{log_of};

use crate::state::Core;
use hs_rules::{Deduced, conclusions_with, conclusions_within, seed_conclusions};
use hs_scheme::OutOfMemory;
use hs_verdict::know_sorted_problem;
use std::alloc::Global;

impl<'p> Core<'p> {
    /// What follows at the point from no entry. The log stays, and nothing is published.
    pub fn at_seed(&mut self, alloc: Global, point: u32) -> Result<Vec<Deduced>, OutOfMemory>
        requires { point < length self.old.base.problem.points.points }
        ensures found { IfOk result (λ found.
            AreConclusions self.old.base.problem self.new.ids [] point AnySupport found.items) }
        ensures kept { self.new ≡ record self.old { ids = self.new.ids } }
        ensures grows { Grows self.old.ids self.new.ids }
    {
        seed_conclusions(alloc, self.problem, &mut self.replica, point)
    }

    /// What follows at the point from the log up to this place, with the entry at the place, each with
    /// the least support of this kind. The log stays, and nothing is published.
    pub fn at_place(
        &mut self,
        alloc: Global,
        point: u32,
        place: u32,
    ) -> Result<Vec<Deduced>, OutOfMemory>
        requires point { point < length self.old.base.problem.points.points }
        requires place { place < length (log_of self.old) }
        ensures found { IfOk result (λ found.
            AreConclusions self.old.base.problem self.new.ids (take (place + 1) (log_of self.old)) point
            (Uses place) found.items) }
        ensures kept { self.new ≡ record self.old { ids = self.new.ids } }
        ensures grows { Grows self.old.ids self.new.ids }
    {
        know_sorted_problem(self.problem);
        conclusions_with(alloc, self.problem, &mut self.replica, point, place)
    }

    /// What follows at the point from the log up to this place, with the entry at the place: all of it, each
    /// with the least support of this kind, or some of it that is more than `most`. `conclusions_within` says
    /// what bounds its time. The log stays, and nothing is published.
    pub(crate) fn at_place_within(
        &mut self,
        alloc: Global,
        point: u32,
        place: u32,
        most: usize,
    ) -> Result<Vec<Deduced>, OutOfMemory>
        requires point { point < length self.old.base.problem.points.points }
        requires place { place < length (log_of self.old) }
        ensures some { IfOk result (λ found.
            AreSomeConclusions self.old.base.problem self.new.ids (take (place + 1) (log_of self.old)) point
            (Uses place) found.items) }
        ensures all { IfOk result (λ found. length found.items ≤ most →
            AreConclusions self.old.base.problem self.new.ids (take (place + 1) (log_of self.old)) point
            (Uses place) found.items) }
        ensures kept { self.new ≡ record self.old { ids = self.new.ids } }
        ensures grows { Grows self.old.ids self.new.ids }
    {
        know_sorted_problem(self.problem);
        conclusions_within(alloc, self.problem, &mut self.replica, point, place, most)
    }
}
