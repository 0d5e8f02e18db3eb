//! The work that is left, smaller environments first.

use crate::ended::put;
use crate::joins::Origin;
use std::alloc::Global;
use std::collections::VecDeque;

/// What an environment was found for.
#[derive(Clone, Copy)]
pub(crate) enum Goal {
    Pool(u32),
    /// The conclusion of an instance.
    Instance(u32),
}

/// An environment that is to be put into a pool, or to become that of an entry.
#[derive(Clone, Copy)]
pub(crate) struct Work {
    pub(crate) goal: Goal,
    pub(crate) env: u32,
    pub(crate) origin: Origin,
}

/// Works by the sizes of their environments; those of one size come out in the order in which they
/// came in.
#[derive(Drop)]
pub(crate) struct Queue {
    alloc: Global,
    by_size: Vec<VecDeque<Work>>,
    /// No work is of a smaller size.
    least: usize,
    /// Whether memory was refused.
    pub(crate) refused: bool,
}

impl Queue {
    /// No work.
    pub(crate) fn new(alloc: Global) -> Queue {
        Queue {
            alloc,
            by_size: Vec::new(alloc),
            least: 0,
            refused: false,
        }
    }

    /// Adds a work whose environment has this size.
    pub(crate) fn push(&mut self, size: usize, work: Work) {
        for _ in self.by_size.len()..size.saturating_add(1) {
            put(
                &mut self.by_size,
                VecDeque::new(self.alloc),
                &mut self.refused,
            );
        }
        if let Some(works) = self.by_size.get_mut(size) {
            if works.push_back(work).is_err() {
                self.refused = true;
            }
        }
        self.least = self.least.min(size);
    }

    /// The first work of the least size.
    pub(crate) fn pop(&mut self) -> Option<Work> {
        for size in self.least..self.by_size.len() {
            if let Some(works) = self.by_size.get_mut(size) {
                if let Some(work) = works.pop_front() {
                    self.least = size;
                    return Some(work);
                }
            }
        }
        None
    }
}
