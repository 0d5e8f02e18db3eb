//! Pools of environments, and what waits for their items.

use crate::ended::{numbered, put};
use crate::envs::{EMPTY, Envs};
use crate::lists::Lists;
use crate::queue::Goal;
use indexmap::IndexMap;
use std::alloc::Global;

/// What an environment is the union of.
#[derive(Clone, Copy)]
pub(crate) enum Origin {
    Nothing,
    /// That of the entry at this place in the log.
    Entry(u32),
    /// That of the item, and what the instance asks itself.
    One(u32),
    /// Those of two items.
    Both(u32, u32),
}

/// An environment that was found for a pool.
#[derive(Clone, Copy)]
pub(crate) struct Item {
    pub(crate) env: u32,
    pub(crate) origin: Origin,
}

/// A pool that joins the pool which keeps this to the other one.
#[derive(Clone, Copy)]
pub(crate) struct Join {
    pub(crate) pool: u32,
    pub(crate) other: u32,
}

/// What waits at a point for entries whose types are as strong as this one: a pool that takes their
/// environments, or an instance that asks nothing else.
#[derive(Clone, Copy)]
pub(crate) struct Cell {
    pub(crate) ty: u32,
    pub(crate) goal: Goal,
}

/// All pools. Each demand that is joined with others, or asked for by itself, and each pair of pools, has
/// one: environments of which none asks at least another, those of the entries at a point whose types are
/// as strong as a type, or the unions of two pools.
#[derive(Drop)]
pub(crate) struct Pools {
    alloc: Global,
    /// The items of each pool.
    pub(crate) items: Lists<u32>,
    /// What each pool is joined to.
    pub(crate) joins: Lists<Join>,
    /// The instances that each item of a pool gives a conclusion.
    pub(crate) instances: Lists<u32>,
    /// What waits for the entries at each point.
    pub(crate) cells: Lists<Cell>,
    found: Vec<Item>,
    demands: IndexMap<(u32, u32), u32>,
    pairs: IndexMap<(u32, u32), u32>,
    /// How many pools there are.
    count: usize,
    refused: bool,
}

impl Pools {
    /// No pools. Takes no memory.
    pub(crate) fn new(alloc: Global) -> Pools {
        Pools {
            alloc,
            items: Lists::new(alloc),
            joins: Lists::new(alloc),
            instances: Lists::new(alloc),
            cells: Lists::new(alloc),
            found: Vec::new(alloc),
            demands: IndexMap::new(alloc),
            pairs: IndexMap::new(alloc),
            count: 0,
            refused: false,
        }
    }

    /// Whether memory was refused.
    pub(crate) fn is_refused(&self) -> bool {
        self.refused
            || self.items.refused
            || self.joins.refused
            || self.instances.refused
            || self.cells.refused
    }

    pub(crate) fn item(&self, item: u32) -> Item {
        match self.found.get(item as usize) {
            Some(item) => *item,
            None => Item {
                env: EMPTY,
                origin: Origin::Nothing,
            },
        }
    }

    fn add_pool(&mut self) -> u32 {
        let number = numbered(self.count);
        self.count = self.count.saturating_add(1);
        self.items.grow(1);
        self.joins.grow(1);
        self.instances.grow(1);
        number
    }

    /// The pool of the demand for a type as strong as this one at the point, and whether it is new.
    pub(crate) fn demand(&mut self, point: u32, ty: u32) -> (u32, bool) {
        if let Some(pool) = self.demands.get(&(point, ty)) {
            return (*pool, false);
        }
        let pool = self.add_pool();
        if self.demands.insert((point, ty), pool).is_err() {
            self.refused = true;
        }
        let goal = Goal::Pool(pool);
        self.cells.push(point, Cell { ty, goal });
        (pool, true)
    }

    /// The pool of the unions of the two pools, and whether it is new.
    pub(crate) fn join(&mut self, first: u32, second: u32) -> (u32, bool) {
        let key = (first.min(second), first.max(second));
        if let Some(pool) = self.pairs.get(&key) {
            return (*pool, false);
        }
        let pool = self.add_pool();
        if self.pairs.insert(key, pool).is_err() {
            self.refused = true;
        }
        self.joins.push(
            first,
            Join {
                pool,
                other: second,
            },
        );
        self.joins.push(second, Join { pool, other: first });
        (pool, true)
    }

    /// Whether the environment asks at least one of the pool.
    pub(crate) fn covers(&self, envs: &mut Envs, pool: u32, env: u32) -> bool {
        for item in self.items.list(pool) {
            if envs.asks(env, self.item(*item).env) {
                return true;
            }
        }
        false
    }

    /// Whether some environment of the pool asks at least this one.
    fn has_asking(&self, envs: &mut Envs, pool: u32, env: u32) -> bool {
        for item in self.items.list(pool) {
            if envs.asks(self.item(*item).env, env) {
                return true;
            }
        }
        false
    }

    /// Drops those of the pool that ask at least this environment.
    fn narrow(&mut self, envs: &mut Envs, pool: u32, env: u32) {
        if !self.has_asking(envs, pool, env) {
            return;
        }
        let mut left = Vec::new(self.alloc);
        for item in self.items.list(pool) {
            if !envs.asks(self.item(*item).env, env) {
                put(&mut left, *item, &mut envs.types.refused);
            }
        }
        self.items.set(pool, left);
    }

    /// Adds an environment that asks at least none of the pool, drops those that ask at least it, and
    /// answers the new item.
    pub(crate) fn put(&mut self, envs: &mut Envs, pool: u32, item: Item) -> u32 {
        let number = numbered(self.found.len());
        self.narrow(envs, pool, item.env);
        put(&mut self.found, item, &mut self.refused);
        self.items.push(pool, number);
        number
    }
}
