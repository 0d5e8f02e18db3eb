//! What is proposed, in the order of reports: entries, void environments, and the environments of both.

use crate::ended::{number_at, numbered, put};
use crate::envs::Status;
use crate::look::params_of;
use crate::order::Order;
use crate::search::Search;
use crate::sites::set;
use std::alloc::Global;

/// A type of an environment: how many parameters there are from its own on, its rank, and its number. Lists of
/// these, by parameter and then by rank, have the order of their environments.
#[derive(Clone, Copy, PartialEq, Eq, PartialOrd, Ord)]
pub(crate) struct Place {
    pub(crate) params: u32,
    rank: u32,
    pub(crate) ty: u32,
}

/// An environment of the search with its types, by parameter and then by rank.
#[derive(Drop)]
pub(crate) struct Listed {
    pub(crate) env: u32,
    pub(crate) places: Vec<Place>,
}

/// An entry at a point, or a void environment of a rule, with the ranks of its environment and its type.
#[derive(Clone, Copy)]
pub(crate) struct Line {
    pub(crate) at: u32,
    env_rank: u32,
    rank: u32,
    pub(crate) env: u32,
    pub(crate) ty: u32,
}

/// What is proposed.
#[derive(Drop)]
pub(crate) struct Listing {
    alloc: Global,
    pub(crate) order: Order,
    /// The environments that occur, ascending.
    pub(crate) envs: Vec<Listed>,
    /// The rank of each environment of the search, 0 where it doesn't occur.
    ranks: Vec<u32>,
    /// The entries, ascending.
    pub(crate) entries: Vec<Line>,
    /// The void environments, ascending.
    pub(crate) void: Vec<Line>,
    /// Whether memory was refused.
    refused: bool,
}

/// Notes that the environments of the lines occur.
fn mark(used: &mut Vec<bool>, lines: &[Line]) {
    for line in lines {
        set(used, line.env);
    }
}

/// Gives the lines the ranks of their environments, and brings them into their order. Environments and types
/// have ranks of their own, so there is no more to compare.
fn rank_lines(ranks: &[u32], lines: &mut Vec<Line>) {
    for line in lines.iter_mut() {
        line.env_rank = number_at(ranks, line.env as usize);
    }
    lines.sort_unstable_by_key(|line: &Line| (line.at, line.env_rank, line.rank));
}

impl Listing {
    /// What the search proposes: the entries that no other one covers, and the environments that are void
    /// by way of others.
    pub(crate) fn of(alloc: Global, search: &Search) -> Listing {
        let mut listing = Listing {
            alloc,
            order: Order::of(alloc, &search.envs.types),
            envs: Vec::new(alloc),
            ranks: Vec::new(alloc),
            entries: Vec::new(alloc),
            void: Vec::new(alloc),
            refused: false,
        };
        listing.find_entries(search);
        listing.find_void(search);
        listing.list_envs(search);
        rank_lines(listing.ranks.as_slice(), &mut listing.entries);
        rank_lines(listing.ranks.as_slice(), &mut listing.void);
        listing
    }

    /// Whether memory was refused.
    pub(crate) fn is_refused(&self) -> bool {
        self.refused || self.order.is_refused()
    }

    /// Lists the entries, in any order, and without the ranks of their environments.
    fn find_entries(&mut self, search: &Search) {
        for rows in 0..search.table.lists() {
            for place in search.table.rows.list(rows) {
                let row = search.table.row(*place);
                let line = Line {
                    at: row.point,
                    env_rank: 0,
                    rank: self.order.rank_of(row.ty),
                    env: row.env,
                    ty: row.ty,
                };
                put(&mut self.entries, line, &mut self.refused);
            }
        }
    }

    /// Lists the void environments, so as well.
    fn find_void(&mut self, search: &Search) {
        for env in 0..search.envs.len() {
            if search.envs.status(env) == Status::Void {
                let line = Line {
                    at: search.envs.rule(env),
                    env_rank: 0,
                    rank: 0,
                    env,
                    ty: 0,
                };
                put(&mut self.void, line, &mut self.refused);
            }
        }
    }

    /// Whether each environment of the search occurs.
    fn used(&mut self, search: &Search) -> Vec<bool> {
        let mut used = Vec::new(self.alloc);
        for _ in 0..search.envs.len() {
            put(&mut used, false, &mut self.refused);
            put(&mut self.ranks, 0, &mut self.refused);
        }
        mark(&mut used, self.entries.as_slice());
        mark(&mut used, self.void.as_slice());
        used
    }

    /// The types of the environment.
    fn places(&mut self, search: &Search, env: u32) -> Vec<Place> {
        let params = params_of(search.problem, search.envs.rule(env));
        let mut places = Vec::new(self.alloc);
        for number in search.envs.atoms(env) {
            let atom = search.envs.atom(*number);
            let place = Place {
                params: params.saturating_sub(atom.param),
                rank: self.order.rank_of(atom.ty),
                ty: atom.ty,
            };
            put(&mut places, place, &mut self.refused);
        }
        places.sort_unstable_by_key(|place: &Place| (u32::MAX - place.params, place.rank));
        places
    }

    /// Lists the environments that occur, and gives them their ranks.
    fn list_envs(&mut self, search: &Search) {
        let used = self.used(search);
        for (env, is_used) in used.iter().enumerate() {
            if *is_used {
                let env = numbered(env);
                let places = self.places(search, env);
                put(&mut self.envs, Listed { env, places }, &mut self.refused);
            }
        }
        self.envs.sort_unstable_by(|env: &Listed, other: &Listed| env.places.cmp(&other.places));
        for (rank, listed) in self.envs.iter().enumerate() {
            if let Some(own) = self.ranks.get_mut(listed.env as usize) {
                *own = numbered(rank);
            }
        }
    }
}
