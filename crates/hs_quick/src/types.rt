//! Types by number, and which of them are as strong as others.

use crate::ended::{number_at, numbered, put};
use crate::lists::Lists;
use indexmap::{IndexMap, IndexSet};
use std::alloc::Global;

/// Types are nested at most so deep: no sort has more than 1,000 levels.
pub(crate) const MOST_DEPTH: u32 = 4_000;

/// What is known of the strength of types of lesser numbers than this stands in rows.
const NEAR: u32 = 1_000;

/// What is known of whether a type is as strong as another one.
#[derive(Clone, Copy)]
enum Strength {
    Unknown,
    AsStrong,
    Weaker,
}

/// What a type is: a state, or a set of types with a result. Sets and results are named by number.
#[derive(Clone, Copy)]
pub(crate) enum Shape {
    State(u32),
    Arrow(u32, u32),
}

/// Types and sets of types, each with one number. The types of the first numbers are the states, of which
/// nothing is kept, and behind them come the arrows.
///
/// A set is a list of numbers, ascending. No type of a set is as strong as another one of it.
#[derive(Drop)]
pub(crate) struct Types {
    /// How many states there are.
    states: u32,
    /// The set and the result of each arrow.
    arrows: IndexSet<(u32, u32)>,
    /// The state at the end of each arrow.
    last: Vec<u32>,
    sets: IndexSet<Vec<u32>>,
    /// What is known of the strength of each type beside those of lesser numbers than its row is long.
    near: Lists<Strength>,
    /// What is known of other types.
    strengths: IndexMap<(u32, u32), bool>,
    /// Whether memory was refused.
    pub(crate) refused: bool,
}

impl Types {
    /// No types.
    pub(crate) fn new(alloc: Global) -> Types {
        Types {
            states: 0,
            arrows: IndexSet::new(alloc),
            last: Vec::new(alloc),
            sets: IndexSet::new(alloc),
            near: Lists::new(alloc),
            strengths: IndexMap::new(alloc),
            refused: false,
        }
    }

    /// Whether memory was refused.
    pub(crate) fn is_refused(&self) -> bool {
        self.refused || self.near.refused
    }

    /// How many types there are.
    pub(crate) fn len(&self) -> usize {
        (self.states as usize).saturating_add(self.arrows.len())
    }

    /// How many sets there are.
    pub(crate) fn sets(&self) -> usize {
        self.sets.len()
    }

    /// What the type is.
    pub(crate) fn shape(&self, ty: u32) -> Shape {
        if ty < self.states {
            return Shape::State(ty);
        }
        match self.arrows.get_index((ty - self.states) as usize) {
            Some((set, rest)) => Shape::Arrow(*set, *rest),
            None => Shape::State(0),
        }
    }

    /// The types of the set.
    pub(crate) fn members(&self, set: u32) -> &[u32] {
        match self.sets.get_index(set as usize) {
            Some(members) => members.as_slice(),
            None => &[],
        }
    }

    /// The state at the end of the type.
    pub(crate) fn last_state(&self, ty: u32) -> u32 {
        if ty < self.states {
            return ty;
        }
        number_at(self.last.as_slice(), (ty - self.states) as usize)
    }

    /// Adds so many states, before any other type: the number of each is its own.
    pub(crate) fn add_states(&mut self, count: u32) {
        self.states = count;
    }

    /// The state, which was added, as a type.
    pub(crate) fn state(&self, state: u32) -> u32 {
        state
    }

    /// The type with this set and this result.
    pub(crate) fn arrow(&mut self, set: u32, rest: u32) -> u32 {
        match self.arrows.insert_full((set, rest)) {
            Ok((place, new)) => {
                if new {
                    let last = self.last_state(rest);
                    put(&mut self.last, last, &mut self.refused);
                }
                self.states.saturating_add(numbered(place))
            }
            Err(_) => {
                self.refused = true;
                0
            }
        }
    }

    /// The set of these types, which ascend.
    pub(crate) fn set(&mut self, members: Vec<u32>) -> u32 {
        match self.sets.insert_full(members) {
            Ok((place, _)) => numbered(place),
            Err(_) => {
                self.refused = true;
                0
            }
        }
    }

    /// Whether the type is as strong as the other one: they are one state; or two arrows, whose
    /// results are so, and for each type of the first set some type of the second is as strong as it.
    pub(crate) fn is_as_strong(&mut self, ty: u32, other: u32) -> bool {
        self.compare(MOST_DEPTH, ty, other)
    }

    /// What is known of the strength of the two types at a look.
    fn known_strength(&self, ty: u32, other: u32) -> Option<bool> {
        if ty == other {
            return Some(true);
        }
        let is_state = ty < self.states || other < self.states;
        if is_state || self.last_state(ty) != self.last_state(other) {
            return Some(false);
        }
        match self.near.list(ty).get(other as usize) {
            Some(Strength::AsStrong) => Some(true),
            Some(Strength::Weaker) => Some(false),
            _ if ty < NEAR && other < NEAR => None,
            _ => self.strengths.get(&(ty, other)).copied(),
        }
    }

    /// Keeps what is known of two types whose numbers are small.
    fn keep_near(&mut self, ty: u32, other: u32, strength: Strength) {
        self.near.reach(ty);
        let row = (other as usize).saturating_add(1);
        for _ in self.near.list(ty).len()..row {
            self.near.push(ty, Strength::Unknown);
        }
        if let Some(row) = self.near.list_mut(ty) {
            if let Some(known) = row.get_mut(other as usize) {
                *known = strength;
            }
        }
    }

    /// Keeps whether the type is as strong as the other one.
    fn keep(&mut self, ty: u32, other: u32, strong: bool) {
        if ty < NEAR && other < NEAR {
            let strength = if strong {
                Strength::AsStrong
            } else {
                Strength::Weaker
            };
            self.keep_near(ty, other, strength);
        } else if self.strengths.insert((ty, other), strong).is_err() {
            self.refused = true;
        }
    }

    #[cycle(strength)]
    fn compare(&mut self, depth: u32, ty: u32, other: u32) -> bool {
        if let Some(known) = self.known_strength(ty, other) {
            return known;
        }
        if depth == 0 {
            return false;
        }
        let strong = match (self.shape(ty), self.shape(other)) {
            (Shape::Arrow(set, rest), Shape::Arrow(others, other_rest)) => {
                self.compare(depth - 1, rest, other_rest) && self.has_all(depth - 1, others, set)
            }
            _ => false,
        };
        self.keep(ty, other, strong);
        strong
    }

    /// Whether for each type of the second set some type of the first is as strong as it.
    #[cycle(strength)]
    fn has_all(&mut self, depth: u32, set: u32, others: u32) -> bool {
        if depth == 0 {
            return false;
        }
        for place in 0..self.members(others).len() {
            let other = number_at(self.members(others), place);
            if !self.has_one(depth - 1, set, other) {
                return false;
            }
        }
        true
    }

    /// Whether some type of the set is as strong as the type.
    #[cycle(strength)]
    fn has_one(&mut self, depth: u32, set: u32, other: u32) -> bool {
        if depth == 0 {
            return false;
        }
        for place in 0..self.members(set).len() {
            let ty = number_at(self.members(set), place);
            if self.compare(depth - 1, ty, other) {
                return true;
            }
        }
        false
    }
}
