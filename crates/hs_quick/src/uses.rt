//! Where the nonterminals and parameters of a problem are used.

ghost use Rattle.std.specs.Prelude.{◌<◌, length};

use crate::ended::numbered;
use crate::lists::Lists;
use crate::look::{number_of, params_of};
use crate::sites::{holds, set};
use hs_scheme::{Head, HeadPair, Problem};
use std::alloc::Global;

/// A parameter of a rule, both counted from 0.
#[derive(Clone, Copy)]
pub(crate) struct Parameter {
    pub(crate) rule: u32,
    pub(crate) param: u32,
}

/// For each nonterminal and each parameter the points that it heads, for each parameter those of them that
/// have arguments, for each point the parameters for which it may stand, and for each nonterminal those of
/// its head pairs whose points may stand at the head of a point with arguments.
#[derive(Drop)]
pub(crate) struct Uses {
    pub(crate) of_rule: Lists<u32>,
    pub(crate) of_param: Lists<u32>,
    pub(crate) applied: Lists<u32>,
    pub(crate) flows: Lists<Parameter>,
    pub(crate) becoming: Lists<HeadPair>,
    refused: bool,
}

impl Uses {
    /// No uses. Takes no memory.
    pub(crate) fn new(alloc: Global) -> Uses {
        Uses {
            of_rule: Lists::new(alloc),
            of_param: Lists::new(alloc),
            applied: Lists::new(alloc),
            flows: Lists::new(alloc),
            becoming: Lists::new(alloc),
            refused: false,
        }
    }

    /// Whether memory was refused.
    pub(crate) fn is_refused(&self) -> bool {
        self.refused
            || self.of_rule.refused
            || self.of_param.refused
            || self.applied.refused
            || self.flows.refused
            || self.becoming.refused
    }

    /// Finds the uses in the problem, in time in proportion to its points and its pairs.
    pub(crate) fn fill(&mut self, alloc: Global, problem: &Problem) {
        let rules = problem.points.params().rules();
        self.of_rule.grow(rules);
        self.becoming.grow(rules);
        let params = problem.points.params().count() as usize;
        self.of_param.grow(params);
        self.applied.grow(params);
        self.flows.grow(problem.points.count() as usize);
        self.add_heads(problem);
        match Vec::from_elem(alloc, false, problem.points.count() as usize) {
            Ok(mut heading) => self.add_pairs(problem, &mut heading),
            Err(_) => self.refused = true,
        }
    }

    /// Adds a point with a parameter of its rule as its head.
    fn add_applied(&mut self, problem: &Problem, param: u32, point: u32)
        requires { point < length problem.now.points.points }
    {
        let number = number_of(problem, problem.points.rule_of(point), param);
        self.of_param.push(number, point);
        if !problem.points.args_of(point).is_empty() {
            self.applied.push(number, point);
        }
    }

    fn add_heads(&mut self, problem: &Problem) {
        for point in 0..problem.points.count() {
            match problem.points.head_of(point) {
                Head::Nt(rule) => self.of_rule.push(rule, point),
                Head::Var(param) => self.add_applied(problem, param, point),
                Head::Tm(_) => (),
            }
        }
    }

    /// The points with arguments that the parameter heads.
    pub(crate) fn applied(&self, problem: &Problem, parameter: Parameter) -> &[u32] {
        let number = number_of(problem, parameter.rule, parameter.param);
        self.applied.list(number)
    }

    /// Adds the flow of the parameter, and sets the flags of its points where it heads points with arguments.
    fn add_flow(&mut self, problem: &Problem, parameter: Parameter, heading: &mut Vec<bool>) {
        let is_applied = !self.applied(problem, parameter).is_empty();
        for pair in problem.flow.flow_of(parameter.rule, parameter.param) {
            self.flows.push(pair.point, parameter);
            if is_applied {
                set(heading, pair.point);
            }
        }
    }

    /// Adds the flow, and the head pairs of the points that may stand at the head of a point with arguments.
    fn add_pairs(&mut self, problem: &Problem, heading: &mut Vec<bool>) {
        for rule in 0..numbered(problem.points.params().rules()) {
            for param in 0..params_of(problem, rule) {
                self.add_flow(problem, Parameter { rule, param }, heading);
            }
        }
        for pair in problem.flow.heads.iter() {
            if holds(heading.as_slice(), pair.point) {
                self.becoming.push(pair.rule, *pair);
            }
        }
    }
}
