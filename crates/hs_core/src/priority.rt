//! Which of the conclusions that wait comes next.

ghost use Rattle.std.specs.Prelude.{◌<◌, length, IfSome};
ghost use Rattle.hs_types.specs.Interned.{IsRow};
ghost use Rattle.hs_core.specs.Waiting.{HasRow};

use hs_rules::{Deduced, Replica};
use hs_scheme::OutOfMemory;
use hs_types::{EnvId, Interner, Row};
use indexmap::IndexMap;
use std::alloc::Global;
use std::collections::BinaryHeap;

/// What a work costs beside the pairs of environments that it unites and the conclusions that it forms. Each of
/// these counts as one.
const WORK: u64 = 5;

/// Where the works at a point have cost more than this, what they cost and yielded is halved: what was
/// lately counts more.
const LONG: u64 = 20_000;

/// A yield is a number of such parts.
const PARTS: u64 = 1 << 20;

/// A conclusion: how much its environment is smaller than the largest, and its number. The greatest key
/// comes first: that of the smallest environment, and of equal ones the newest.
type Key = (u32, u32);

/// The key of the conclusion of this number, whose environment asks for so many types. Where either is past
/// 2^32, which needs more memory than there is, the order is another.
fn key_of(size: usize, number: usize) -> Key {
    (u32::MAX - narrowed(size), narrowed(number))
}

/// The number, or the largest of 32 bits where that is smaller.
fn narrowed(number: usize) -> u32 {
    number.min(u32::MAX as usize) as u32
}

/// The conclusions at one point, and what works at it have yielded lately.
#[derive(Drop)]
struct PointQueue {
    keys: BinaryHeap<Key>,
    /// How many conclusions were new.
    new: u64,
    /// What works cost.
    cost: u64,
}

impl PointQueue {
    /// No conclusions; every point begins with the same yield.
    fn new(alloc: Global) -> PointQueue {
        PointQueue {
            keys: BinaryHeap::new(alloc),
            new: 1,
            cost: 1,
        }
    }

    /// How many conclusions were new for what works cost, in parts.
    fn yielded(&self) -> u64 {
        self.new.saturating_mul(PARTS) / self.cost.max(1)
    }

    /// A work has cost so much, and so many of its conclusions were new.
    fn tell(&mut self, cost: u64, new: u64) {
        self.new = self.new.saturating_add(new);
        self.cost = self.cost.saturating_add(cost);
        if self.cost > LONG {
            self.new /= 2;
            self.cost /= 2;
        }
    }
}

/// Adds queues until the point has one.
fn lengthen(queues: &mut Vec<PointQueue>, alloc: Global, point: u32) -> Result<(), OutOfMemory> {
    for _ in queues.len()..point as usize + 1 {
        queues.push(PointQueue::new(alloc))?;
    }
    Ok(())
}

/// Adds the key to the point's queue. Answers what the queue yields, where it was empty.
fn queue_up(
    queues: &mut Vec<PointQueue>,
    point: u32,
    key: Key,
) -> Result<Option<u64>, OutOfMemory> {
    let Some(queue) = queues.get_mut(point as usize) else {
        return Ok(None);
    };
    let was_empty = queue.keys.is_empty();
    queue.keys.push(key)?;
    Ok(if was_empty {
        Some(queue.yielded())
    } else {
        None
    })
}

/// Tells the point's queue of a work. Answers what the queue yields, where it isn't empty.
fn tell_of(queues: &mut Vec<PointQueue>, point: u32, cost: u64, new: u64) -> Option<u64> {
    let queue = queues.get_mut(point as usize)?;
    queue.tell(cost, new);
    if queue.keys.is_empty() {
        None
    } else {
        Some(queue.yielded())
    }
}

/// Takes the first key of the point's queue, where the queue yields so much.
fn first_of(queues: &mut Vec<PointQueue>, point: u32, yielded: u64) -> Option<Key> {
    let queue = queues.get_mut(point as usize)?;
    if queue.yielded() == yielded {
        queue.keys.pop()
    } else {
        None
    }
}

/// How many types the environment asks for.
fn size_of(interner: &Interner, env: EnvId) -> usize
    requires { env < length interner.now.envs }
{
    let mut size = 0_usize;
    for set in interner.sets(env) {
        size = size.saturating_add(interner.members(*set).len());
    }
    size
}

/// An order of conclusions, made of two that take turns, so that either costs as much as the other: the
/// smallest environment comes first; or the point comes first at which works have yielded most for what
/// they cost, and there the smallest environment. Either alone gets stuck on schemes of its own kind.
///
/// Each conclusion has a key in both; what was taken from one of them is still in the other. No clause
/// speaks of an order. A call takes time in the logarithm of the number of keys, on average.
#[derive(Drop)]
pub(crate) struct Priority {
    alloc: Global,
    /// The conclusions by their numbers, counted from 0.
    rows: Vec<Row>,
    smallest: BinaryHeap<Key>,
    /// By point.
    queues: Vec<PointQueue>,
    /// What queues yield, with their points. A pair counts only while it has what its queue yields.
    richest: BinaryHeap<(u64, u32)>,
    /// What works have cost whose entries came in the first and in the second order.
    cost_by_size: u64,
    cost_by_yield: u64,
    is_by_size: bool,
    /// How many keys are in the two, those that were taken already among them.
    keys: usize,
}

impl Priority {
    /// No conclusions. Takes no memory.
    pub(crate) fn new(alloc: Global) -> Priority {
        Priority {
            alloc,
            rows: Vec::new(alloc),
            smallest: BinaryHeap::new(alloc),
            queues: Vec::new(alloc),
            richest: BinaryHeap::new(alloc),
            cost_by_size: 0,
            cost_by_yield: 0,
            is_by_size: true,
            keys: 0,
        }
    }

    /// Adds the conclusion.
    pub(crate) fn add(&mut self, replica: &Replica, row: Row) -> Result<(), OutOfMemory>
        requires { IsRow replica.now.ids row }
    {
        let size = size_of(replica.interner(), row.env);
        let key = key_of(size, self.rows.len());
        let point = row.point;
        self.rows.push(row)?;
        self.smallest.push(key)?;
        self.keys = self.keys.saturating_add(2);
        lengthen(&mut self.queues, self.alloc, point)?;
        if let Some(yielded) = queue_up(&mut self.queues, point, key)? {
            self.richest.push((yielded, point))?;
        }
        Ok(())
    }

    /// A work on an entry at the point has united so many pairs of environments, and formed so many
    /// conclusions, of which so many were new.
    pub(crate) fn tell(
        &mut self,
        point: u32,
        pairs: u64,
        formed: u64,
        new: u64,
    ) -> Result<(), OutOfMemory> {
        let cost = pairs.saturating_add(formed).saturating_add(WORK);
        if self.is_by_size {
            self.cost_by_size = self.cost_by_size.saturating_add(cost);
        } else {
            self.cost_by_yield = self.cost_by_yield.saturating_add(cost);
        }
        lengthen(&mut self.queues, self.alloc, point)?;
        if let Some(yielded) = tell_of(&mut self.queues, point, cost, new) {
            self.richest.push((yielded, point))?;
        }
        Ok(())
    }

    /// Takes the first key of the second order.
    fn richest_key(&mut self) -> Option<Key> {
        for _ in 0..self.richest.len() {
            let (yielded, point) = *self.richest.peek()?;
            if let Some(key) = first_of(&mut self.queues, point, yielded) {
                return Some(key);
            }
            let _past = self.richest.pop();
        }
        None
    }

    /// Takes the first key of the order whose turn it is, and answers its row.
    fn take(&mut self) -> Option<Row> {
        self.is_by_size = self.cost_by_size <= self.cost_by_yield;
        let key = if self.is_by_size {
            self.smallest.pop()
        } else {
            self.richest_key()
        };
        let (_, number) = key?;
        self.rows.get(number as usize).copied()
    }

    /// Takes keys up to one under whose row a conclusion waits, and answers the row.
    pub(crate) fn next(&mut self, found: &IndexMap<Row, Deduced>) -> Option<Row>
        ensures { IfSome result (λ row. HasRow found.now row) }
    {
        for _ in 0..self.keys {
            let row = self.take()?;
            if found.contains_key(&row) {
                return Some(row);
            }
        }
        None
    }
}
