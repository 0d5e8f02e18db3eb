//! Lists by number.

use crate::ended::put;
use std::alloc::Global;

/// Lists, numbered from 0.
#[derive(Drop)]
pub(crate) struct Lists<T> {
    alloc: Global,
    rows: Vec<Vec<T>>,
    /// Whether memory was refused.
    pub(crate) refused: bool,
}

impl<T: Drop> Lists<T> {
    /// No lists. Takes no memory.
    pub(crate) fn new(alloc: Global) -> Lists<T> {
        Lists {
            alloc,
            rows: Vec::new(alloc),
            refused: false,
        }
    }

    /// Adds this many empty lists.
    pub(crate) fn grow(&mut self, count: usize) {
        for _ in 0..count {
            put(&mut self.rows, Vec::new(self.alloc), &mut self.refused);
        }
    }

    /// Adds empty lists up to the one of this number.
    pub(crate) fn reach(&mut self, number: u32) {
        let wanted = (number as usize).saturating_add(1);
        let missing = wanted.saturating_sub(self.rows.len());
        self.grow(missing);
    }

    /// The list of this number, empty where there is none.
    pub(crate) fn list(&self, number: u32) -> &[T] {
        match self.rows.get(number as usize) {
            Some(row) => row.as_slice(),
            None => &[],
        }
    }

    /// The list of this number, for change.
    pub(crate) fn list_mut(&mut self, number: u32) -> Option<&mut Vec<T>> {
        self.rows.get_mut(number as usize)
    }

    /// Adds an item at the end of the list of this number, where there is one.
    pub(crate) fn push(&mut self, number: u32, item: T) {
        if let Some(row) = self.rows.get_mut(number as usize) {
            put(row, item, &mut self.refused);
        }
    }

    /// Makes this the list of the number, where there is one.
    pub(crate) fn set(&mut self, number: u32, list: Vec<T>) {
        if let Some(row) = self.rows.get_mut(number as usize) {
            *row = list;
        }
    }

    /// Empties each list.
    pub(crate) fn clear(&mut self) {
        for row in self.rows.iter_mut() {
            row.clear();
        }
    }
}
