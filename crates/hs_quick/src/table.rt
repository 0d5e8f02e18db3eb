//! The entries, and those that no other one covers.

use crate::ended::{numbered, put};
use crate::envs::{EMPTY, Envs};
use crate::joins::Origin;
use crate::lists::Lists;
use std::alloc::Global;

/// An entry that was added: where the parameters have the environment's types, the point has the type.
#[derive(Clone, Copy)]
pub(crate) struct Row {
    pub(crate) point: u32,
    pub(crate) env: u32,
    pub(crate) ty: u32,
    /// What it follows by.
    pub(crate) instance: u32,
    pub(crate) origin: Origin,
}

/// The entries of one type at a point that no other one covers.
#[derive(Clone, Copy)]
pub(crate) struct Kind {
    pub(crate) ty: u32,
    /// The number of the list of their places in the log.
    pub(crate) rows: u32,
}

/// All entries that were added, and for each point those that no other one covers, by type.
#[derive(Drop)]
pub(crate) struct Table {
    alloc: Global,
    log: Vec<Row>,
    /// The kinds of each point.
    pub(crate) kinds: Lists<Kind>,
    /// The places of each kind.
    pub(crate) rows: Lists<u32>,
    /// How many kinds there are.
    count: usize,
    refused: bool,
}

impl Table {
    /// No entries. Takes no memory.
    pub(crate) fn new(alloc: Global) -> Table {
        Table {
            alloc,
            log: Vec::new(alloc),
            kinds: Lists::new(alloc),
            rows: Lists::new(alloc),
            count: 0,
            refused: false,
        }
    }

    /// Whether memory was refused.
    pub(crate) fn is_refused(&self) -> bool {
        self.refused || self.kinds.refused || self.rows.refused
    }

    /// How many entries were added.
    pub(crate) fn len(&self) -> usize {
        self.log.len()
    }

    /// How many lists of places there are, numbered from 0.
    pub(crate) fn lists(&self) -> u32 {
        numbered(self.count)
    }

    /// The entry at the place.
    pub(crate) fn row(&self, place: u32) -> Row {
        match self.log.get(place as usize) {
            Some(row) => *row,
            None => Row {
                point: 0,
                env: EMPTY,
                ty: 0,
                instance: 0,
                origin: Origin::Nothing,
            },
        }
    }

    /// Whether some entry at the point has a type as strong as this one.
    pub(crate) fn has_type(&self, envs: &mut Envs, point: u32, ty: u32) -> bool {
        for kind in self.kinds.list(point) {
            if envs.types.is_as_strong(kind.ty, ty) {
                return true;
            }
        }
        false
    }

    /// Whether the environment asks at least that of one of these entries.
    fn asks_one(&self, envs: &mut Envs, env: u32, rows: &[u32]) -> bool {
        for place in rows {
            if envs.asks(env, self.row(*place).env) {
                return true;
            }
        }
        false
    }

    /// Whether an entry covers the one with this point, environment and type: its type is as strong, and
    /// it asks no more.
    pub(crate) fn covers(&self, envs: &mut Envs, point: u32, env: u32, ty: u32) -> bool {
        for kind in self.kinds.list(point) {
            if envs.types.is_as_strong(kind.ty, ty)
                && self.asks_one(envs, env, self.rows.list(kind.rows))
            {
                return true;
            }
        }
        false
    }

    /// Whether one of these entries asks at least what the environment asks.
    fn has_asking(&self, envs: &mut Envs, rows: &[u32], env: u32) -> bool {
        for place in rows {
            if envs.asks(self.row(*place).env, env) {
                return true;
            }
        }
        false
    }

    /// Drops those of the entries of a kind that ask at least what the environment asks.
    fn narrow(&mut self, envs: &mut Envs, rows: u32, env: u32) {
        if !self.has_asking(envs, self.rows.list(rows), env) {
            return;
        }
        let mut left = Vec::new(self.alloc);
        for place in self.rows.list(rows) {
            if !envs.asks(self.row(*place).env, env) {
                put(&mut left, *place, &mut envs.types.refused);
            }
        }
        self.rows.set(rows, left);
    }

    /// Drops the entries that an entry with this point, environment and type covers.
    fn drop_covered(&mut self, envs: &mut Envs, point: u32, env: u32, ty: u32) {
        for place in 0..self.kinds.list(point).len() {
            if let Some(kind) = self.kinds.list(point).get(place).copied() {
                if envs.types.is_as_strong(ty, kind.ty) {
                    self.narrow(envs, kind.rows, env);
                }
            }
        }
    }

    /// The number of the list of the type's entries at the point, and whether the point had none.
    fn rows_of(&mut self, point: u32, ty: u32) -> (u32, bool) {
        for kind in self.kinds.list(point) {
            if kind.ty == ty {
                return (kind.rows, false);
            }
        }
        let rows = numbered(self.count);
        self.count = self.count.saturating_add(1);
        self.rows.grow(1);
        self.kinds.push(point, Kind { ty, rows });
        (rows, true)
    }

    /// Adds an entry that none covers, and drops those that it covers. Answers its place, and whether it
    /// is the first of its type at the point.
    pub(crate) fn add(&mut self, envs: &mut Envs, row: Row) -> (u32, bool) {
        self.drop_covered(envs, row.point, row.env, row.ty);
        let place = numbered(self.log.len());
        put(&mut self.log, row, &mut self.refused);
        let (rows, first) = self.rows_of(row.point, row.ty);
        self.rows.push(rows, place);
        (place, first)
    }
}
