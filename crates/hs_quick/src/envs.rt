//! Environments by number, and their unions.

use crate::ended::{Ended, numbered, put};
use crate::types::Types;
use indexmap::{IndexMap, IndexSet};
use std::alloc::Global;

/// The environment that asks nothing.
pub(crate) const EMPTY: u32 = 0;

/// A type of a rule's parameter, both counted from 0.
#[derive(Clone, Copy, PartialEq, Eq, Hash)]
pub(crate) struct Atom {
    pub(crate) rule: u32,
    pub(crate) param: u32,
    pub(crate) ty: u32,
}

/// What is known of whether closures can have an environment.
#[derive(Clone, Copy, PartialEq, Eq)]
pub(crate) enum Status {
    /// Nothing yet.
    Open,
    /// It is being asked.
    Asked,
    /// No calls give it unless they give one that is still being asked.
    Provisional,
    /// Some calls may give what it asks.
    Backed,
    /// No calls give it, as far as entries are known.
    Void,
    /// The same, and this needs no proof of its own: it asks at least a void one, or the sites tell at
    /// a look.
    Missed,
}

/// What is kept of an environment beside its atoms.
#[derive(Clone, Copy)]
struct Note {
    rule: u32,
    /// A bit for each parameter and last state of its types, of which several may share one.
    kinds: u64,
    status: Status,
    /// While it is asked, the number of its question. While it is provisional, the least number of those
    /// questions on which this relies.
    question: u32,
}

/// Environments. Each is a list of the numbers of its atoms, ascending, of which none is as strong as
/// another.
#[derive(Drop)]
pub(crate) struct Envs {
    alloc: Global,
    pub(crate) types: Types,
    atoms: IndexSet<Atom>,
    envs: IndexSet<Vec<u32>>,
    notes: Vec<Note>,
    unions: IndexMap<(u32, u32), u32>,
    /// So many unions may still be formed.
    unions_left: u64,
    /// So many steps may still be taken.
    steps_left: u64,
    /// Why the search ends, once it does.
    ended: Option<Ended>,
}

/// The numbers of the environment's atoms.
fn listed(envs: &IndexSet<Vec<u32>>, env: u32) -> &[u32] {
    match envs.get_index(env as usize) {
        Some(atoms) => atoms.as_slice(),
        None => &[],
    }
}

/// The atom of this number.
fn atom_of(atoms: &IndexSet<Atom>, number: u32) -> Atom {
    match atoms.get_index(number as usize) {
        Some(atom) => *atom,
        None => Atom {
            rule: 0,
            param: 0,
            ty: 0,
        },
    }
}

/// Whether some atom of the list, which ascends, is of the same parameter as the atom, and its type is as
/// strong.
fn has_as_strong(types: &mut Types, atoms: &IndexSet<Atom>, list: &[u32], weaker: u32) -> bool {
    if list.binary_search(&weaker).is_ok() {
        return true;
    }
    let least = atom_of(atoms, weaker);
    for number in list {
        let atom = atom_of(atoms, *number);
        if atom.param == least.param && types.is_as_strong(atom.ty, least.ty) {
            return true;
        }
    }
    false
}

/// Adds the atoms of the list than which none of the others is as strong.
fn add_strongest(
    types: &mut Types,
    atoms: &IndexSet<Atom>,
    list: &[u32],
    others: &[u32],
    all: &mut Vec<u32>,
) {
    for number in list {
        if !has_as_strong(types, atoms, others, *number) {
            put(all, *number, &mut types.refused);
        }
    }
}

impl Envs {
    /// No environments. So many unions may be formed, and so many steps taken.
    pub(crate) fn new(alloc: Global, unions: u64, steps: u64) -> Envs {
        Envs {
            alloc,
            types: Types::new(alloc),
            atoms: IndexSet::new(alloc),
            envs: IndexSet::new(alloc),
            notes: Vec::new(alloc),
            unions: IndexMap::new(alloc),
            unions_left: unions,
            steps_left: steps,
            ended: None,
        }
    }

    /// Why the search ends, if it does.
    pub(crate) fn ended(&self) -> Option<Ended> {
        if self.types.is_refused() {
            return Some(Ended::OutOfMemory);
        }
        self.ended
    }

    /// Ends the search for this reason, unless it has ended.
    pub(crate) fn end(&mut self, why: Ended) {
        if self.ended.is_none() {
            self.ended = Some(why);
        }
    }

    /// Counts so many steps.
    pub(crate) fn count(&mut self, steps: usize) {
        match self.steps_left.checked_sub(steps as u64) {
            Some(less) => self.steps_left = less,
            None => self.end(Ended::GivenUp),
        }
    }

    /// How many environments there are.
    pub(crate) fn len(&self) -> u32 {
        numbered(self.notes.len())
    }

    /// How many environments have this status.
    pub(crate) fn count_with(&self, status: Status) -> usize {
        let mut count: usize = 0;
        for note in &self.notes {
            if note.status == status {
                count = count.saturating_add(1);
            }
        }
        count
    }

    /// The numbers of the environment's atoms.
    pub(crate) fn atoms(&self, env: u32) -> &[u32] {
        listed(&self.envs, env)
    }

    /// The atom of this number.
    pub(crate) fn atom(&self, number: u32) -> Atom {
        atom_of(&self.atoms, number)
    }

    /// The number of the atom.
    pub(crate) fn number(&mut self, atom: Atom) -> u32 {
        match self.atoms.insert_full(atom) {
            Ok((place, _)) => numbered(place),
            Err(_) => {
                self.end(Ended::OutOfMemory);
                0
            }
        }
    }

    /// What is kept of the environment.
    fn note(&self, env: u32) -> Note {
        match self.notes.get(env as usize) {
            Some(note) => *note,
            None => Note {
                rule: 0,
                kinds: 0,
                status: Status::Missed,
                question: 0,
            },
        }
    }

    /// The rule to whose parameters the environment belongs.
    pub(crate) fn rule(&self, env: u32) -> u32 {
        self.note(env).rule
    }

    pub(crate) fn status(&self, env: u32) -> Status {
        self.note(env).status
    }

    pub(crate) fn set_status(&mut self, env: u32, status: Status) {
        if let Some(note) = self.notes.get_mut(env as usize) {
            note.status = status;
        }
    }

    /// The number of the question on which the status of the environment relies.
    pub(crate) fn question(&self, env: u32) -> u32 {
        self.note(env).question
    }

    /// Sets the status, which relies on the question of this number.
    pub(crate) fn set_relying(&mut self, env: u32, status: Status, question: u32) {
        if let Some(note) = self.notes.get_mut(env as usize) {
            note.status = status;
            note.question = question;
        }
    }

    /// Forgets which environments are void.
    pub(crate) fn forget_void(&mut self) {
        for note in self.notes.iter_mut() {
            if note.status == Status::Void || note.status == Status::Missed {
                note.status = Status::Open;
            }
        }
    }

    /// The bits of these atoms.
    fn kinds(&self, atoms: &[u32]) -> u64 {
        let mut kinds: u64 = 0;
        for number in atoms {
            let atom = self.atom(*number);
            let last = self.types.last_state(atom.ty);
            let bit = atom.param.wrapping_mul(31).wrapping_add(last) % 64;
            kinds |= 1 << bit;
        }
        kinds
    }

    /// The environment of these atoms of the rule, which ascend, and of which none is as strong as
    /// another.
    fn add(&mut self, rule: u32, atoms: Vec<u32>) -> u32 {
        let kinds = self.kinds(atoms.as_slice());
        let status = if atoms.len() < 2 {
            Status::Backed
        } else {
            Status::Open
        };
        match self.envs.insert_full(atoms) {
            Ok((place, new)) => {
                let note = Note {
                    rule,
                    kinds,
                    status,
                    question: 0,
                };
                if new {
                    put(&mut self.notes, note, &mut self.types.refused);
                }
                numbered(place)
            }
            Err(_) => {
                self.end(Ended::OutOfMemory);
                EMPTY
            }
        }
    }

    /// Gives the environment that asks nothing its number.
    pub(crate) fn add_empty(&mut self) {
        self.add(0, Vec::new(self.alloc));
    }

    /// The environment of one atom.
    pub(crate) fn single(&mut self, number: u32) -> u32 {
        let mut atoms = Vec::new(self.alloc);
        put(&mut atoms, number, &mut self.types.refused);
        let rule = self.atom(number).rule;
        self.add(rule, atoms)
    }

    /// Counts a step for each sixteen pairs of an atom of the one with an atom of the other.
    fn count_pairs(&mut self, env: u32, other: u32) {
        let pairs = self
            .atoms(env)
            .len()
            .saturating_mul(self.atoms(other).len());
        self.count(pairs / 16);
    }

    /// Whether the environment asks at least the other one: for each type of the other one some type of
    /// it, at the same parameter, is as strong.
    pub(crate) fn asks(&mut self, env: u32, least: u32) -> bool {
        if env == least || least == EMPTY {
            return true;
        }
        self.count(1);
        if self.note(least).kinds & !self.note(env).kinds != 0 {
            return false;
        }
        self.count_pairs(env, least);
        let list = listed(&self.envs, env);
        for other in listed(&self.envs, least) {
            if !has_as_strong(&mut self.types, &self.atoms, list, *other) {
                return false;
            }
        }
        true
    }

    /// Makes the union of two environments, of which neither asks at least the other.
    fn join(&mut self, first: u32, second: u32) -> u32 {
        self.count_pairs(first, second);
        let mut own = Vec::new(self.alloc);
        let mut all = Vec::new(self.alloc);
        let list = listed(&self.envs, first);
        let others = listed(&self.envs, second);
        add_strongest(&mut self.types, &self.atoms, list, others, &mut own);
        add_strongest(
            &mut self.types,
            &self.atoms,
            others,
            own.as_slice(),
            &mut all,
        );
        if all.extend_from_slice(own.as_slice()).is_err() {
            self.end(Ended::OutOfMemory);
        }
        all.sort_unstable();
        let rule = self.rule(first);
        self.add(rule, all)
    }

    /// The union of the two environments of one rule, without the types than which another one is as
    /// strong.
    pub(crate) fn union(&mut self, first: u32, second: u32) -> u32 {
        if first == second || second == EMPTY {
            return first;
        }
        if first == EMPTY {
            return second;
        }
        let key = (first.min(second), first.max(second));
        if let Some(union) = self.unions.get(&key) {
            return *union;
        }
        match self.unions_left.checked_sub(1) {
            Some(less) => self.unions_left = less,
            None => {
                self.end(Ended::GivenUp);
                return first;
            }
        }
        let union = self.make_union(first, second);
        if self.unions.insert(key, union).is_err() {
            self.end(Ended::OutOfMemory);
        }
        union
    }

    fn make_union(&mut self, first: u32, second: u32) -> u32 {
        if self.asks(first, second) {
            return first;
        }
        if self.asks(second, first) {
            return second;
        }
        self.join(first, second)
    }
}
