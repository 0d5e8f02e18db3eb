//! The state of the search, and how conclusions are formed.

use crate::ended::{Ended, number_at, numbered, put};
use crate::envs::{EMPTY, Envs};
use crate::joins::{Cell, Item, Origin, Pools};
use crate::limits::Limits;
use crate::lists::Lists;
use crate::queue::{Goal, Queue, Work};
use crate::sites::Sites;
use crate::table::Table;
use crate::uses::Uses;
use hs_reads::Reads;
use hs_scheme::Problem;
use std::alloc::Global;

/// By what a point's head has its type.
#[derive(Clone, Copy)]
pub(crate) enum HeadBy {
    /// A terminal, by its child of this number, counted from 1; or by none, which is 0.
    Terminal(u32),
    /// A nonterminal, by the entry of its body at this place.
    Rule(u32),
    /// A parameter, by the atom of this number.
    Parameter(u32),
}

/// A head type at a point: what a conclusion there has as its type, and what the head asks.
#[derive(Clone, Copy)]
pub(crate) struct Instance {
    pub(crate) point: u32,
    pub(crate) ty: u32,
    pub(crate) env: u32,
    pub(crate) head: HeadBy,
}

/// A head type asks for an entry at the point whose type is as strong as this one.
#[derive(Clone, Copy)]
pub(crate) struct Demand {
    pub(crate) point: u32,
    pub(crate) ty: u32,
}

/// The search.
#[derive(Drop)]
pub(crate) struct Search<'a> {
    pub(crate) alloc: Global,
    pub(crate) problem: &'a Problem,
    pub(crate) reads: &'a Reads,
    pub(crate) uses: Uses,
    pub(crate) envs: Envs,
    pub(crate) table: Table,
    pub(crate) pools: Pools,
    pub(crate) sites: Sites,
    pub(crate) queue: Queue,
    instances: Vec<Instance>,
    /// Which parameters' types were met, by the numbers of their atoms.
    pub(crate) met: Vec<bool>,
    /// The works that wait until their environments aren't void.
    pub(crate) parked: Vec<Work>,
    /// The void environments of each rule.
    pub(crate) void: Lists<u32>,
    /// How many questions were begun, whether an environment is void.
    pub(crate) questions: u32,
    /// The environments that are provisional, in the order in which they were found to be so.
    pub(crate) provisional: Vec<u32>,
    /// So many entries may still be added.
    pub(crate) left: u64,
    /// Whether memory was refused, as far as no part of the search remembers it.
    pub(crate) refused: bool,
}

/// Drops what is there, and puts the other in its place.
fn renew<T: Drop>(own: &mut T, other: T) {
    *own = other;
}

impl<'a> Search<'a> {
    /// A search that may add so many entries, form so many unions, and take so many steps. Takes no
    /// memory.
    pub(crate) fn new(
        alloc: Global,
        problem: &'a Problem,
        reads: &'a Reads,
        limits: Limits,
    ) -> Search<'a> {
        Search {
            alloc,
            problem,
            reads,
            uses: Uses::new(alloc),
            envs: Envs::new(alloc, limits.unions, limits.steps),
            table: Table::new(alloc),
            pools: Pools::new(alloc),
            sites: Sites::new(alloc),
            queue: Queue::new(alloc),
            instances: Vec::new(alloc),
            met: Vec::new(alloc),
            parked: Vec::new(alloc),
            void: Lists::new(alloc),
            questions: 0,
            provisional: Vec::new(alloc),
            left: limits.entries,
            refused: false,
        }
    }

    /// Finds what the problem says without entries, and makes room for these.
    pub(crate) fn prepare(&mut self) {
        let problem = self.problem;
        let points = problem.points.count() as usize;
        self.uses.fill(self.alloc, problem);
        self.table.kinds.grow(points);
        self.pools.cells.grow(points);
        self.sites.grow(problem);
        self.void.grow(problem.points.params().rules());
        self.envs
            .types
            .add_states(problem.sorted.automaton.states());
        self.envs.add_empty();
    }

    /// Gives back what the entries and the void environments aren't read from.
    pub(crate) fn release(&mut self) {
        renew(&mut self.uses, Uses::new(self.alloc));
        renew(&mut self.pools, Pools::new(self.alloc));
        renew(&mut self.sites, Sites::new(self.alloc));
        renew(&mut self.queue, Queue::new(self.alloc));
    }

    /// Why the search ends, if it does.
    pub(crate) fn ended(&self) -> Option<Ended> {
        if self.refused
            || self.queue.refused
            || self.void.refused
            || self.uses.is_refused()
            || self.table.is_refused()
            || self.pools.is_refused()
            || self.sites.is_refused()
        {
            return Some(Ended::OutOfMemory);
        }
        self.envs.ended()
    }

    pub(crate) fn instance(&self, number: u32) -> Instance {
        match self.instances.get(number as usize) {
            Some(instance) => *instance,
            None => Instance {
                point: 0,
                ty: 0,
                env: EMPTY,
                head: HeadBy::Terminal(0),
            },
        }
    }

    /// Adds the work for later.
    pub(crate) fn push(&mut self, work: Work) {
        self.envs.count(1);
        self.queue.push(self.envs.atoms(work.env).len(), work);
    }

    /// Forms the conclusion of the instance whose arguments ask this.
    fn conclude(&mut self, number: u32, env: u32, origin: Origin) {
        let instance = self.instance(number);
        let env = self.envs.union(env, instance.env);
        if !self
            .table
            .covers(&mut self.envs, instance.point, env, instance.ty)
        {
            self.push(Work {
                goal: Goal::Instance(number),
                env,
                origin,
            });
        }
    }

    /// Forms the unions of the item and all of the other pool.
    fn unite_all(&mut self, pool: u32, item: u32, other: u32) {
        let own = self.pools.item(item).env;
        for place in 0..self.pools.items.list(other).len() {
            let second = number_at(self.pools.items.list(other), place);
            let env = self.envs.union(own, self.pools.item(second).env);
            if !self.pools.covers(&mut self.envs, pool, env) {
                self.push(Work {
                    goal: Goal::Pool(pool),
                    env,
                    origin: Origin::Both(item, second),
                });
            }
        }
    }

    /// Forms what the instances that wait for the pool conclude from its new item.
    fn conclude_all(&mut self, pool: u32, item: u32) {
        let env = self.pools.item(item).env;
        for place in 0..self.pools.instances.list(pool).len() {
            let number = number_at(self.pools.instances.list(pool), place);
            self.conclude(number, env, Origin::One(item));
        }
    }

    /// Puts an environment into the pool, of which it asks at least none, and forms what comes of it.
    pub(crate) fn admit(&mut self, pool: u32, env: u32, origin: Origin) {
        let item = self.pools.put(&mut self.envs, pool, Item { env, origin });
        self.conclude_all(pool, item);
        for place in 0..self.pools.joins.list(pool).len() {
            if let Some(join) = self.pools.joins.list(pool).get(place).copied() {
                self.unite_all(join.pool, item, join.other);
            }
        }
    }

    /// Gives what waits the environment of the entry: a pool takes it unless it asks at least one there, and
    /// an instance concludes from it.
    pub(crate) fn offer(&mut self, goal: Goal, place: u32) {
        let env = self.table.row(place).env;
        match goal {
            Goal::Instance(number) => self.conclude(number, env, Origin::Entry(place)),
            Goal::Pool(pool) => {
                if !self.pools.covers(&mut self.envs, pool, env) {
                    self.admit(pool, env, Origin::Entry(place));
                }
            }
        }
    }

    /// Offers these entries.
    fn offer_rows(&mut self, goal: Goal, rows: u32) {
        for place in 0..self.table.rows.list(rows).len() {
            let row = number_at(self.table.rows.list(rows), place);
            self.offer(goal, row);
        }
    }

    /// Offers the entries that are there and meet the demand.
    fn offer_present(&mut self, goal: Goal, demand: Demand) {
        for place in 0..self.table.kinds.list(demand.point).len() {
            if let Some(kind) = self.table.kinds.list(demand.point).get(place).copied() {
                if self.envs.types.is_as_strong(kind.ty, demand.ty) {
                    self.offer_rows(goal, kind.rows);
                }
            }
        }
    }

    /// The pool from which the demand is met.
    pub(crate) fn cell(&mut self, demand: Demand) -> u32 {
        let (pool, new) = self.pools.demand(demand.point, demand.ty);
        if new {
            self.offer_present(Goal::Pool(pool), demand);
        }
        pool
    }

    /// The pool of the unions of the two pools.
    fn join(&mut self, first: u32, second: u32) -> u32 {
        let (pool, new) = self.pools.join(first, second);
        if !new {
            return pool;
        }
        for place in 0..self.pools.items.list(first).len() {
            let item = number_at(self.pools.items.list(first), place);
            self.unite_all(pool, item, second);
        }
        pool
    }

    /// The pool of the unions of all these pools, or none where there are none.
    fn join_all(&mut self, cells: &[u32]) -> Option<u32> {
        let mut all = None;
        for cell in cells {
            all = match all {
                Some(pool) => Some(self.join(pool, *cell)),
                None => Some(*cell),
            };
        }
        all
    }

    /// Lets the instance wait for entries that meet its one demand.
    fn wait(&mut self, number: u32, demand: Demand) {
        let goal = Goal::Instance(number);
        let ty = demand.ty;
        self.pools.cells.push(demand.point, Cell { ty, goal });
        self.offer_present(goal, demand);
    }

    /// The pool of what all demands ask together, or none where there are no demands.
    fn pool_of(&mut self, demands: &[Demand]) -> Option<u32> {
        let mut cells = Vec::new(self.alloc);
        for demand in demands {
            let pool = self.cell(*demand);
            put(&mut cells, pool, &mut self.refused);
        }
        cells.sort_unstable();
        cells.dedup();
        self.join_all(cells.as_slice())
    }

    /// Adds the instance with its demands, and forms what it concludes from what is there.
    pub(crate) fn add_instance(&mut self, instance: Instance, demands: &[Demand]) {
        self.envs.count(1);
        let number = numbered(self.instances.len());
        put(&mut self.instances, instance, &mut self.refused);
        if demands.len() == 1 {
            return self.wait(number, demands[0]);
        }
        let Some(pool) = self.pool_of(demands) else {
            return self.conclude(number, EMPTY, Origin::Nothing);
        };
        self.pools.instances.push(pool, number);
        for place in 0..self.pools.items.list(pool).len() {
            let item = number_at(self.pools.items.list(pool), place);
            let env = self.pools.item(item).env;
            self.conclude(number, env, Origin::One(item));
        }
    }
}
