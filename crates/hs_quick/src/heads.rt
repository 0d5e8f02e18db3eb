//! The head types at points, and what they ask of the arguments.

use crate::ended::{number_at, numbered, put};
use crate::envs::{Atom, EMPTY};
use crate::look::{argument_of, at_point, body_of, number_of, params_of};
use crate::search::{Demand, HeadBy, Instance, Search};
use crate::table::Row;
use crate::types::Shape;
use hs_scheme::Head;
use std::mem;

impl<'a> Search<'a> {
    /// The type of a terminal that still takes the children from the one behind `given` to the last,
    /// of which it asks the type of the one at `child`, and nothing of the others.
    fn terminal_type(
        &mut self,
        terminal: u32,
        state: u32,
        given: usize,
        wanted: Option<(usize, u32)>,
    ) -> u32 {
        let problem = self.problem;
        let ranks = problem.sorted.scheme.ranks.as_slice();
        let rank = number_at(ranks, terminal as usize) as usize;
        let mut ty = self.envs.types.state(state);
        for place in (given..rank).rev() {
            let mut members = Vec::new(self.alloc);
            if let Some((child, wanted)) = wanted {
                if child == place {
                    let wanted = self.envs.types.state(wanted);
                    put(&mut members, wanted, &mut self.refused);
                }
            }
            let set = self.envs.types.set(members);
            ty = self.envs.types.arrow(set, ty);
        }
        ty
    }

    /// Adds what follows at a point with a terminal as its head where the terminal has no transition in
    /// the state, or a child that isn't given yet is rejected.
    fn seed(&mut self, point: u32, terminal: u32, given: usize, state: u32) {
        self.envs.count(1);
        let problem = self.problem;
        let Some(to) = problem.sorted.automaton.next(state, terminal) else {
            let ty = self.terminal_type(terminal, state, given, None);
            return self.add_instance(instance_of(point, ty, 0), &[]);
        };
        for (child, wanted) in to.iter().enumerate() {
            if child >= given {
                let ty = self.terminal_type(terminal, state, given, Some((child, *wanted)));
                let number = numbered(child).saturating_add(1);
                self.add_instance(instance_of(point, ty, number), &[]);
            }
        }
    }

    /// Adds what follows at the point without other entries, in each state in which it is read.
    fn seed_point(&mut self, point: u32) {
        let at = at_point(self.problem, point);
        if let Head::Tm(terminal) = at.head {
            let reads = self.reads;
            for state in reads.states_at(point) {
                self.seed(point, terminal, at.args.len(), *state);
            }
        }
    }

    /// Adds what follows without other entries.
    pub(crate) fn seed_all(&mut self) {
        let problem = self.problem;
        for point in 0..problem.points.count() {
            if self.envs.ended().is_some() {
                return;
            }
            self.seed_point(point);
        }
    }

    /// The first entry of this type at the point: where the point is a child of a terminal, the terminal
    /// has the types that reject by this child.
    fn add_terminals(&mut self, point: u32, ty: u32) {
        let problem = self.problem;
        let Shape::State(state) = self.envs.types.shape(ty) else {
            return;
        };
        let Some(argument) = argument_of(problem, point) else {
            return;
        };
        let at = at_point(problem, argument.point);
        let Head::Tm(terminal) = at.head else {
            return;
        };
        let child = argument.place as usize;
        let number = numbered(child).saturating_add(1);
        for from in problem.sorted.automaton.reading(terminal, child, state) {
            if self.reads.holds(argument.point, *from) {
                let own = self.terminal_type(terminal, *from, at.args.len(), None);
                let instance = instance_of(argument.point, own, number);
                self.add_instance(instance, &[Demand { point, ty }]);
            }
        }
    }

    /// The set of the environment's types at the parameter.
    fn set_at(&mut self, env: u32, param: u32) -> u32 {
        let mut types = Vec::new(self.alloc);
        for number in self.envs.atoms(env) {
            let atom = self.envs.atom(*number);
            if atom.param == param {
                put(&mut types, atom.ty, &mut self.refused);
            }
        }
        types.sort_unstable();
        self.envs.types.set(types)
    }

    /// The type that an entry of the rule's body gives its nonterminal with so many arguments given.
    fn rule_type(&mut self, rule: u32, given: usize, row: Row) -> u32 {
        let mut own = row.ty;
        for param in (numbered(given)..params_of(self.problem, rule)).rev() {
            let set = self.set_at(row.env, param);
            own = self.envs.types.arrow(set, own);
        }
        own
    }

    /// Adds the instance at the point by the entry of its nonterminal's body.
    fn add_call(&mut self, rule: u32, place: u32, row: Row, point: u32) {
        let args = at_point(self.problem, point).args;
        let ty = self.rule_type(rule, args.len(), row);
        let mut demands = Vec::new(self.alloc);
        for number in self.envs.atoms(row.env) {
            let atom = self.envs.atom(*number);
            if let Some(argument) = args.get(atom.param as usize) {
                let demand = Demand {
                    point: *argument,
                    ty: atom.ty,
                };
                put(&mut demands, demand, &mut self.refused);
            }
        }
        let instance = Instance {
            point,
            ty,
            env: EMPTY,
            head: HeadBy::Rule(place),
        };
        self.add_instance(instance, demands.as_slice());
    }

    /// Adds the instances at the calls of the nonterminal of whose body the entry is.
    fn add_calls(&mut self, place: u32, row: Row) {
        let rule = at_point(self.problem, row.point).rule;
        let Shape::State(state) = self.envs.types.shape(row.ty) else {
            return;
        };
        if body_of(self.problem, rule) != row.point {
            return;
        }
        for number in 0..self.uses.of_rule.list(rule).len() {
            let point = number_at(self.uses.of_rule.list(rule), number);
            if self.reads.holds(point, state) {
                self.add_call(rule, place, row, point);
            }
        }
    }

    /// What the type asks of the arguments is added to the demands. Answers the type that is left, none
    /// where it takes fewer.
    fn apply(&mut self, ty: u32, args: &[u32], demands: &mut Vec<Demand>) -> Option<u32> {
        let mut own = ty;
        for point in args {
            let Shape::Arrow(set, rest) = self.envs.types.shape(own) else {
                return None;
            };
            for ty in self.envs.types.members(set) {
                let demand = Demand {
                    point: *point,
                    ty: *ty,
                };
                put(demands, demand, &mut self.refused);
            }
            own = rest;
        }
        Some(own)
    }

    /// Adds the instance at a point whose head is the parameter of the atom, which the environment asks.
    fn add_use(&mut self, number: u32, env: u32, point: u32) {
        let ty = self.envs.atom(number).ty;
        let mut demands = Vec::new(self.alloc);
        let args = at_point(self.problem, point).args;
        if let Some(own) = self.apply(ty, args, &mut demands) {
            let instance = Instance {
                point,
                ty: own,
                env,
                head: HeadBy::Parameter(number),
            };
            self.add_instance(instance, demands.as_slice());
        }
    }

    /// Whether the atom of this number was met before. It is, from now on.
    fn is_met(&mut self, number: u32) -> bool {
        for _ in self.met.len()..(number as usize).saturating_add(1) {
            put(&mut self.met, false, &mut self.refused);
        }
        match self.met.get_mut(number as usize) {
            Some(met) => mem::replace(met, true),
            None => false,
        }
    }

    /// Adds the instances at the uses of a parameter for which something with this type may stand,
    /// unless they were added.
    fn add_uses(&mut self, atom: Atom) {
        let number = self.envs.number(atom);
        if self.is_met(number) {
            return;
        }
        let env = self.envs.single(number);
        let last = self.envs.types.last_state(atom.ty);
        let param = number_of(self.problem, atom.rule, atom.param);
        for place in 0..self.uses.of_param.list(param).len() {
            let point = number_at(self.uses.of_param.list(param), place);
            if self.reads.holds(point, last) {
                self.add_use(number, env, point);
            }
        }
    }

    /// Offers the new entry to the demands at its point.
    fn offer_all(&mut self, place: u32, row: Row) {
        for number in 0..self.pools.cells.list(row.point).len() {
            if let Some(cell) = self.pools.cells.list(row.point).get(number).copied() {
                if self.envs.types.is_as_strong(row.ty, cell.ty) {
                    self.offer(cell.goal, place);
                }
            }
        }
    }

    /// The first entry of this type at the point: the parameters for which the point may stand have the
    /// type.
    fn add_flows(&mut self, point: u32, ty: u32) {
        for number in 0..self.uses.flows.list(point).len() {
            if let Some(parameter) = self.uses.flows.list(point).get(number).copied() {
                self.add_uses(Atom {
                    rule: parameter.rule,
                    param: parameter.param,
                    ty,
                });
            }
        }
    }

    /// Forms what comes of the new entry, which is the first of its type at its point or not.
    pub(crate) fn spread(&mut self, place: u32, row: Row, first: bool) {
        if first {
            self.sites
                .mark(self.problem, &mut self.envs, row.point, row.ty);
        }
        self.offer_all(place, row);
        if first {
            self.add_terminals(row.point, row.ty);
        }
        self.add_calls(place, row);
        if first {
            self.add_flows(row.point, row.ty);
        }
    }
}

/// The instance of a point whose head is a terminal, by its child of this number, or by none.
fn instance_of(point: u32, ty: u32, child: u32) -> Instance {
    Instance {
        point,
        ty,
        env: EMPTY,
        head: HeadBy::Terminal(child),
    }
}
