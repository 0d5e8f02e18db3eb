//! The loop of the search.

use crate::ended::{Ended, put};
use crate::envs::Status;
use crate::look::body_of;
use crate::queue::{Goal, Work};
use crate::search::Search;
use crate::table::Row;

impl<'a> Search<'a> {
    /// Whether the work's environment asks at least one that is there already.
    fn is_known(&mut self, work: Work) -> bool {
        match work.goal {
            Goal::Pool(pool) => self.pools.covers(&mut self.envs, pool, work.env),
            Goal::Instance(number) => {
                let instance = self.instance(number);
                self.table
                    .covers(&mut self.envs, instance.point, work.env, instance.ty)
            }
        }
    }

    /// Adds the entry that the work concludes, and forms what comes of it. The search ends with that of
    /// the start: its body, in the initial state.
    fn add_entry(&mut self, number: u32, work: Work) {
        match self.left.checked_sub(1) {
            Some(less) => self.left = less,
            None => return self.envs.end(Ended::GivenUp),
        }
        let instance = self.instance(number);
        let row = Row {
            point: instance.point,
            env: work.env,
            ty: instance.ty,
            instance: number,
            origin: work.origin,
        };
        let (place, first) = self.table.add(&mut self.envs, row);
        if row.point == body_of(self.problem, 0) && row.ty == self.envs.types.state(0) {
            return self.envs.end(Ended::StartFound);
        }
        self.spread(place, row, first);
    }

    /// Does the work, unless it is known; where its environment is void, it waits.
    fn do_work(&mut self, work: Work) {
        if self.is_known(work) {
            return;
        }
        if !self.is_backed(work.env) {
            return put(&mut self.parked, work, &mut self.refused);
        }
        match work.goal {
            Goal::Pool(pool) => self.admit(pool, work.env, work.origin),
            Goal::Instance(number) => self.add_entry(number, work),
        }
    }

    /// Does all work that is there and that comes of it. Answers why the search ends, if it does.
    fn do_all(&mut self) -> Option<Ended> {
        for _ in 0..u64::MAX {
            if let Some(ended) = self.ended() {
                return Some(ended);
            }
            let Some(work) = self.queue.pop() else {
                return None;
            };
            self.do_work(work);
        }
        None
    }

    /// Forgets which environments are void, and takes up all works that wait.
    fn take_up(&mut self) {
        self.envs.forget_void();
        self.void.clear();
        for place in 0..self.parked.len() {
            if let Some(work) = self.parked.get(place).copied() {
                self.push(work);
            }
        }
        self.parked.clear();
    }

    /// Searches until nothing is left, with all entries known that were added: then what waits is void
    /// for good. Answers why the search ends before, if it does.
    pub(crate) fn run(&mut self) -> Option<Ended> {
        self.prepare();
        self.seed_all();
        let mut backed = usize::MAX;
        for _ in 0..u64::MAX {
            if let Some(ended) = self.do_all() {
                return Some(ended);
            }
            let count = self.envs.count_with(Status::Backed);
            if count == backed {
                return None;
            }
            backed = count;
            self.take_up();
        }
        None
    }
}
