//! The order of reports, by the numbers of the search.
//!
//! A type comes before another one as in `hs_table`: states first, by number; arrows by their results, and
//! then by their sets, as lists in this order, a proper prefix first.

use crate::ended::{number_at, numbered, put};
use crate::lists::Lists;
use crate::types::{MOST_DEPTH, Shape, Types};
use std::alloc::Global;
use std::cmp::Ordering;

/// The rank of each type, and the sets in order.
#[derive(Drop)]
pub(crate) struct Order {
    alloc: Global,
    /// The types of each set in order, where it has two or more.
    sorted: Lists<u32>,
    /// The rank of each type.
    ranks: Vec<u32>,
    /// Whether memory was refused.
    refused: bool,
}

/// How two types compare.
enum Compared {
    Told(Ordering),
    /// As these two types, which are parts of them.
    As(u32, u32),
}

impl Order {
    /// The order of these types.
    pub(crate) fn of(alloc: Global, types: &Types) -> Order {
        let mut order = Order {
            alloc,
            sorted: Lists::new(alloc),
            ranks: Vec::new(alloc),
            refused: false,
        };
        order.sorted.grow(types.sets());
        for set in 0..numbered(types.sets()) {
            order.sort(types, set);
        }
        order.rank(types);
        order
    }

    /// Whether memory was refused.
    pub(crate) fn is_refused(&self) -> bool {
        self.refused || self.sorted.refused
    }

    /// The rank of the type: a type with a lesser one comes before.
    pub(crate) fn rank_of(&self, ty: u32) -> u32 {
        number_at(self.ranks.as_slice(), ty as usize)
    }

    /// Sorts the types of the set, in which only sets of lesser numbers occur.
    fn sort(&mut self, types: &Types, set: u32) {
        let members = types.members(set);
        if members.len() < 2 {
            return;
        }
        let mut sorted = Vec::new(self.alloc);
        if sorted.extend_from_slice(members).is_err() {
            self.refused = true;
        }
        sorted.sort_unstable_by(|ty: &u32, other: &u32| self.compare(types, *ty, *other));
        self.sorted.set(set, sorted);
    }

    /// Gives each type its rank.
    fn rank(&mut self, types: &Types) {
        let mut sorted = Vec::new(self.alloc);
        for ty in 0..numbered(types.len()) {
            put(&mut sorted, ty, &mut self.refused);
            put(&mut self.ranks, 0, &mut self.refused);
        }
        sorted.sort_unstable_by(|ty: &u32, other: &u32| self.compare(types, *ty, *other));
        for (rank, ty) in sorted.iter().enumerate() {
            if let Some(own) = self.ranks.get_mut(*ty as usize) {
                *own = numbered(rank);
            }
        }
    }

    /// The types of the set in order.
    fn members<'a>(&'a self, types: &'a Types, set: u32) -> &'a [u32] {
        let members = types.members(set);
        if members.len() < 2 {
            members
        } else {
            self.sorted.list(set)
        }
    }

    /// How two arrows compare whose results are one type.
    fn compare_sets(&self, types: &Types, set: u32, other: u32) -> Compared {
        let others = self.members(types, other);
        let members = self.members(types, set);
        for (place, member) in members.iter().enumerate() {
            let Some(beside) = others.get(place) else {
                return Compared::Told(Ordering::Greater);
            };
            if *member != *beside {
                return Compared::As(*member, *beside);
            }
        }
        Compared::Told(members.len().cmp(&others.len()))
    }

    /// How two different types compare.
    fn compare_shapes(&self, types: &Types, ty: u32, other: u32) -> Compared {
        match (types.shape(ty), types.shape(other)) {
            (Shape::State(state), Shape::State(beside)) => Compared::Told(state.cmp(&beside)),
            (Shape::State(_), Shape::Arrow(_, _)) => Compared::Told(Ordering::Less),
            (Shape::Arrow(_, _), Shape::State(_)) => Compared::Told(Ordering::Greater),
            (Shape::Arrow(set, rest), Shape::Arrow(beside, other_rest)) => {
                if rest != other_rest {
                    Compared::As(rest, other_rest)
                } else {
                    self.compare_sets(types, set, beside)
                }
            }
        }
    }

    /// The order of the two types. Time is in proportion to their depth and their sets.
    fn compare(&self, types: &Types, ty: u32, other: u32) -> Ordering {
        let (mut own, mut beside) = (ty, other);
        for _ in 0..MOST_DEPTH {
            if own == beside {
                return Ordering::Equal;
            }
            match self.compare_shapes(types, own, beside) {
                Compared::Told(ordering) => return ordering,
                Compared::As(part, other_part) => {
                    own = part;
                    beside = other_part;
                }
            }
        }
        Ordering::Equal
    }
}
