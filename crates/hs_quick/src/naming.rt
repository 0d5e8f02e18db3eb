//! The path to the start entry's rejection, read from the log.
//!
//! The walk goes from the start entry along the premises of the entries, as reduction goes along the
//! heads of terms. An evidence is an entry with what stands for the parameters of its point's rule: for
//! each parameter a pack of evidences, in which some evidence is as strong as each type that the entry
//! asks there.

use crate::ended::{numbered, put};
use crate::joins::Origin;
use crate::look::{at_point, params_of};
use crate::search::{HeadBy, Search};
use crate::table::Row;
use hs_scheme::Head;
use std::alloc::Global;

/// So many evidences are kept at most.
const MOST_EVIDENCES: usize = 8_000_000;

/// An entry by its place in the log, and what stands for its parameters: the packs from that of this
/// number on.
#[derive(Clone, Copy)]
struct Evidence {
    row: u32,
    frame: usize,
}

/// The evidences of an argument: those from one number to before another.
#[derive(Clone, Copy)]
struct Pack {
    from: usize,
    to: usize,
}

/// A walk along the premises.
#[derive(Drop)]
struct Walk {
    evidences: Vec<Evidence>,
    /// The packs of the parameters, those of one rule in a row.
    packs: Vec<Pack>,
    /// The packs of the arguments that the front still takes, the first one last.
    stack: Vec<Pack>,
    /// The child numbers of the path so far.
    path: Vec<u32>,
    /// The entries at the arguments by which the last entry follows.
    premises: Vec<u32>,
    /// What is still to be taken apart for them.
    left: Vec<Origin>,
    /// Whether memory was refused.
    refused: bool,
}

impl Walk {
    fn new(alloc: Global) -> Walk {
        Walk {
            evidences: Vec::new(alloc),
            packs: Vec::new(alloc),
            stack: Vec::new(alloc),
            path: Vec::new(alloc),
            premises: Vec::new(alloc),
            left: Vec::new(alloc),
            refused: false,
        }
    }

    /// An evidence of the pack whose type is as strong as this one.
    fn find(&self, search: &mut Search, pack: Pack, ty: u32) -> Option<Evidence> {
        for number in pack.from..pack.to {
            let evidence = self.evidences.get(number).copied()?;
            let own = search.table.row(evidence.row).ty;
            if search.envs.types.is_as_strong(own, ty) {
                return Some(evidence);
            }
        }
        None
    }

    /// Puts the pack of the argument at the point on the stack: the premises there.
    fn push_pack(&mut self, search: &Search, point: u32, frame: usize) {
        let from = self.evidences.len();
        for row in &self.premises {
            if search.table.row(*row).point == point {
                let evidence = Evidence { row: *row, frame };
                put(&mut self.evidences, evidence, &mut self.refused);
            }
        }
        let to = self.evidences.len();
        put(&mut self.stack, Pack { from, to }, &mut self.refused);
    }

    /// Makes the first packs of the stack those of a rule's parameters, and answers the first one's number.
    fn enter(&mut self, params: u32) -> usize {
        let frame = self.packs.len();
        for _ in 0..params {
            if let Some(pack) = self.stack.pop() {
                put(&mut self.packs, pack, &mut self.refused);
            }
        }
        frame
    }

    /// Goes from a terminal to its child of this number, counted from 1, which is rejected in the state.
    fn descend(&mut self, search: &mut Search, child: u32, state: u32) -> Option<Evidence> {
        // Where there are fewer packs, this is no place.
        let place = self.stack.len().wrapping_sub(child as usize);
        let pack = self.stack.get(place).copied()?;
        let ty = search.envs.types.state(state);
        put(&mut self.path, child, &mut self.refused);
        self.stack.clear();
        self.find(search, pack, ty)
    }

    /// Finds the entries at the arguments by which the entry follows: takes its origin apart.
    fn find_premises(&mut self, search: &Search, row: Row) {
        self.premises.clear();
        put(&mut self.left, row.origin, &mut self.refused);
        for _ in 0..u32::MAX {
            let Some(origin) = self.left.pop() else {
                return;
            };
            match origin {
                Origin::Nothing => (),
                Origin::Entry(row) => put(&mut self.premises, row, &mut self.refused),
                Origin::One(item) => {
                    let own = search.pools.item(item).origin;
                    put(&mut self.left, own, &mut self.refused);
                }
                Origin::Both(first, second) => {
                    let own = search.pools.item(first).origin;
                    let other = search.pools.item(second).origin;
                    put(&mut self.left, own, &mut self.refused);
                    put(&mut self.left, other, &mut self.refused);
                }
            }
        }
    }

    /// Goes from one evidence to the next, if there is one.
    fn next(&mut self, search: &mut Search, from: Evidence) -> Option<Evidence> {
        let row = search.table.row(from.row);
        self.find_premises(search, row);
        for point in at_point(search.problem, row.point).args.iter().rev() {
            self.push_pack(search, *point, from.frame);
        }
        match search.instance(row.instance).head {
            HeadBy::Terminal(child) => {
                let state = state_below(search, row, child)?;
                self.descend(search, child, state)
            }
            HeadBy::Rule(place) => {
                let rule = at_point(search.problem, search.table.row(place).point).rule;
                let frame = self.enter(params_of(search.problem, rule));
                Some(Evidence { row: place, frame })
            }
            HeadBy::Parameter(number) => {
                let atom = search.envs.atom(number);
                let place = from.frame.saturating_add(atom.param as usize);
                let pack = self.packs.get(place).copied()?;
                self.find(search, pack, atom.ty)
            }
        }
    }

    /// Walks at most so many steps, as long as there is memory, and tells whether it came to an end.
    fn walk(&mut self, search: &mut Search, steps: u64) -> bool {
        let mut front = Evidence {
            row: numbered(search.table.len().saturating_sub(1)),
            frame: 0,
        };
        for _ in 0..steps {
            match self.next(search, front) {
                Some(next) => front = next,
                None => return true,
            }
            if self.refused || self.evidences.len() > MOST_EVIDENCES {
                return false;
            }
        }
        false
    }
}

/// The state in which the terminal's child is read, none where it has no transition.
fn state_below(search: &Search, row: Row, child: u32) -> Option<u32> {
    let problem = search.problem;
    let Head::Tm(terminal) = at_point(problem, row.point).head else {
        return None;
    };
    let state = search.envs.types.last_state(row.ty);
    let to = problem.sorted.automaton.next(state, terminal)?;
    // Behind no child comes no place.
    to.get((child as usize).wrapping_sub(1)).copied()
}

/// The child numbers of the path along which the start entry, which was added last, is rejected. So
/// many moves at most are made; there is none where they don't suffice.
pub(crate) fn path_of(search: &mut Search, moves: u64) -> Option<Vec<u32>> {
    let mut walk = Walk::new(search.alloc);
    let whole = walk.walk(search, moves);
    if walk.refused {
        search.refused = true;
    }
    if whole { Some(walk.path) } else { None }
}
