//! The calls that may give a nonterminal its parameters.

use crate::ended::{Ended, number_at, numbered};
use crate::envs::Envs;
use crate::lists::Lists;
use crate::look::{at_point, number_of, params_of};
use crate::table::Table;
use crate::uses::Uses;
use hs_scheme::{HeadPair, Problem};
use indexmap::IndexSet;
use std::alloc::Global;

/// So many sites are found at most.
const MOST_SITES: usize = 4_000_000;

/// A point with arguments whose head may become a nonterminal with so many arguments given: the first
/// argument is for the parameter `given`, and the last for that before `end`, all counted from 0.
#[derive(Clone, Copy, PartialEq, Eq, PartialOrd, Ord)]
pub(crate) struct Site {
    pub(crate) given: u32,
    pub(crate) point: u32,
    pub(crate) end: u32,
}

impl Site {
    /// The point of the argument that the site gives to the parameter, if it gives it one.
    pub(crate) fn argument(self, problem: &Problem, param: u32) -> Option<u32> {
        let place = param.checked_sub(self.given)?;
        at_point(problem, self.point)
            .args
            .get(place as usize)
            .copied()
    }
}

/// The site with this number among those of the rule gives its parameter an argument at a point.
#[derive(Clone, Copy)]
struct Giving {
    rule: u32,
    site: u32,
    param: u32,
}

/// The sites that an environment's types leave, and whether the last parameter can be reached over
/// them from behind so many parameters.
#[derive(Drop)]
pub(crate) struct Allowed {
    pub(crate) sites: Vec<u64>,
    pub(crate) useful: Vec<bool>,
}

/// The sites of the rules that were asked for, and for each atom that was asked for a mask with a bit
/// for each site of its rule: whether it doesn't give the atom's parameter, or an entry at its
/// argument there has a type as strong as the atom's.
#[derive(Drop)]
pub(crate) struct Sites {
    alloc: Global,
    of_rule: Lists<Site>,
    found: IndexSet<u32>,
    count: usize,
    giving: Lists<Giving>,
    /// The masks by the numbers of the atoms, empty where none was made.
    masks: Lists<u64>,
    /// The atoms with masks, by the numbers of their parameters.
    masked: Lists<u32>,
}

/// Whether the bit is set.
pub(crate) fn has_bit(mask: &[u64], bit: usize) -> bool {
    match mask.get(bit / 64) {
        Some(word) => (*word >> (bit % 64) as u32) & 1 == 1,
        None => false,
    }
}

fn set_bit(mask: &mut Vec<u64>, bit: usize) {
    if let Some(word) = mask.get_mut(bit / 64) {
        *word |= 1 << (bit % 64) as u32;
    }
}

/// Keeps the bits that the other mask has, too, and tells whether one is left.
fn intersect(mask: &mut Vec<u64>, other: &[u64]) -> bool {
    let mut any = false;
    for (place, word) in mask.iter_mut().enumerate() {
        match other.get(place) {
            Some(bits) => *word &= *bits,
            None => *word = 0,
        }
        if *word != 0 {
            any = true;
        }
    }
    any
}

impl Sites {
    /// No sites. Takes no memory.
    pub(crate) fn new(alloc: Global) -> Sites {
        Sites {
            alloc,
            of_rule: Lists::new(alloc),
            found: IndexSet::new(alloc),
            count: 0,
            giving: Lists::new(alloc),
            masks: Lists::new(alloc),
            masked: Lists::new(alloc),
        }
    }

    /// Whether memory was refused.
    pub(crate) fn is_refused(&self) -> bool {
        self.of_rule.refused || self.giving.refused || self.masks.refused || self.masked.refused
    }

    /// Makes room for the sites of the problem's rules.
    pub(crate) fn grow(&mut self, problem: &Problem) {
        let params = problem.points.params();
        self.of_rule.grow(params.rules());
        self.masked.grow(params.count() as usize);
        self.giving.grow(problem.points.count() as usize);
    }

    /// The sites of the rule, as far as they were found, those with fewer arguments given first.
    pub(crate) fn list(&self, rule: u32) -> &[Site] {
        self.of_rule.list(rule)
    }

    /// Adds the points that begin to give the rule's parameters behind so many of them.
    fn add_points(
        &mut self,
        problem: &Problem,
        envs: &mut Envs,
        rule: u32,
        given: u32,
        points: &[u32],
    ) {
        let most = params_of(problem, rule);
        for point in points {
            let count = numbered(at_point(problem, *point).args.len());
            if count > 0 && self.count < MOST_SITES {
                self.count += 1;
                let end = given.saturating_add(count).min(most);
                let point = *point;
                self.of_rule.push(rule, Site { given, point, end });
            }
        }
        if self.count == MOST_SITES {
            envs.end(Ended::GivenUp);
        }
    }

    /// Adds the sites whose heads are parameters for which the point may stand, which may become the
    /// rule's nonterminal.
    fn add_uses(&mut self, problem: &Problem, envs: &mut Envs, uses: &Uses, pair: HeadPair) {
        for parameter in uses.flows.list(pair.point) {
            let points = uses.applied(problem, *parameter);
            self.add_points(problem, envs, pair.rule, pair.given, points);
        }
    }

    /// Notes at the points of the site's arguments which parameters they are for.
    fn note(&mut self, problem: &Problem, rule: u32, site: u32, of: Site) {
        for param in of.given..of.end {
            if let Some(point) = of.argument(problem, param) {
                self.giving.push(point, Giving { rule, site, param });
            }
        }
    }

    /// Finds the sites of the rule, where this wasn't done.
    pub(crate) fn find(&mut self, problem: &Problem, envs: &mut Envs, uses: &Uses, rule: u32) {
        match self.found.insert(rule) {
            Ok(true) => (),
            Ok(false) => return,
            Err(_) => return envs.end(Ended::OutOfMemory),
        }
        self.add_points(problem, envs, rule, 0, uses.of_rule.list(rule));
        for pair in uses.becoming.list(rule) {
            self.add_uses(problem, envs, uses, *pair);
        }
        if let Some(sites) = self.of_rule.list_mut(rule) {
            sites.sort_unstable();
            sites.dedup();
        }
        for number in 0..self.list(rule).len() {
            if let Some(site) = self.list(rule).get(number).copied() {
                self.note(problem, rule, numbered(number), site);
            }
        }
    }

    /// Makes the mask of the atom of this number, where it has none. The sites of its rule were found.
    fn mask(&mut self, problem: &Problem, envs: &mut Envs, table: &Table, number: u32) {
        if !self.masks.list(number).is_empty() {
            return;
        }
        let atom = envs.atom(number);
        let sites = self.of_rule.list(atom.rule);
        let Ok(mut mask) = Vec::from_elem(self.alloc, 0, sites.len() / 64 + 1) else {
            return envs.end(Ended::OutOfMemory);
        };
        for (place, site) in sites.iter().enumerate() {
            let allows = match site.argument(problem, atom.param) {
                Some(point) => table.has_type(envs, point, atom.ty),
                None => true,
            };
            if allows {
                set_bit(&mut mask, place);
            }
        }
        self.masks.reach(number);
        self.masks.set(number, mask);
        self.masked
            .push(number_of(problem, atom.rule, atom.param), number);
    }

    /// Sets the site's bit in the masks of those atoms than whose types this one is as strong.
    fn mark_site(&mut self, envs: &mut Envs, param: u32, site: u32, ty: u32) {
        for number in self.masked.list(param) {
            let atom = envs.atom(*number);
            if envs.types.is_as_strong(ty, atom.ty) {
                if let Some(mask) = self.masks.list_mut(*number) {
                    set_bit(mask, site as usize);
                }
            }
        }
    }

    /// Notes in the masks that the point has an entry of this type.
    pub(crate) fn mark(&mut self, problem: &Problem, envs: &mut Envs, point: u32, ty: u32) {
        for place in 0..self.giving.list(point).len() {
            if let Some(giving) = self.giving.list(point).get(place).copied() {
                let param = number_of(problem, giving.rule, giving.param);
                self.mark_site(envs, param, giving.site, ty);
            }
        }
    }

    /// Leaves those of the sites that the atoms of the environment leave, and tells whether there is one.
    fn narrow(
        &mut self,
        problem: &Problem,
        envs: &mut Envs,
        table: &Table,
        env: u32,
        sites: &mut Vec<u64>,
    ) -> bool {
        for place in 0..envs.atoms(env).len() {
            let number = number_at(envs.atoms(env), place);
            self.mask(problem, envs, table, number);
            if !intersect(sites, self.masks.list(number)) {
                return false;
            }
        }
        true
    }

    /// The sites that all types of the environment leave. None where no chain of them gives all, or memory is
    /// refused, which ends the search.
    pub(crate) fn allowed(
        &mut self,
        problem: &Problem,
        envs: &mut Envs,
        table: &Table,
        env: u32,
    ) -> Option<Allowed> {
        let rule = envs.rule(env);
        let params = params_of(problem, rule) as usize;
        let words = self.list(rule).len() / 64 + 1;
        let Ok(mut sites) = Vec::from_elem(self.alloc, u64::MAX, words) else {
            envs.end(Ended::OutOfMemory);
            return None;
        };
        let Ok(mut useful) = Vec::from_elem(self.alloc, false, params + 1) else {
            envs.end(Ended::OutOfMemory);
            return None;
        };
        if self.narrow(problem, envs, table, env, &mut sites) {
            find_useful(self.list(rule), sites.as_slice(), &mut useful);
        }
        if holds(useful.as_slice(), 0) {
            Some(Allowed { sites, useful })
        } else {
            None
        }
    }
}

/// The flag at the place, which isn't set where there is none.
pub(crate) fn holds(flags: &[bool], place: u32) -> bool {
    match flags.get(place as usize) {
        Some(flag) => *flag,
        None => false,
    }
}

/// Sets the flag at the place.
pub(crate) fn set(flags: &mut Vec<bool>, place: u32) {
    if let Some(flag) = flags.get_mut(place as usize) {
        *flag = true;
    }
}

/// Sets the flag of each number of parameters from behind which the last one can be reached over these
/// sites, of which those with fewer arguments given come first.
fn find_useful(list: &[Site], sites: &[u64], useful: &mut Vec<bool>) {
    if let Some(last) = useful.last_mut() {
        *last = true;
    }
    for number in (0..list.len()).rev() {
        if let Some(site) = list.get(number) {
            if has_bit(sites, number) && holds(useful.as_slice(), site.end) {
                set(useful, site.given);
            }
        }
    }
}
