//! What of a scheme is met, by the states in which its points may be read.

ghost use Rattle.std.specs.Prelude.{◌≡◌, ◌<◌, length};

use hs_reads::Reads;
use hs_scheme::{Head, OutOfMemory, Problem};
use indexmap::IndexSet;
use std::alloc::Global;

/// The most pairs of a point and a state that are looked at.
const MOST_PAIRS: usize = 4_000_000;

/// What is met, by number. More may be said to be met than is.
#[derive(Drop)]
pub(crate) struct Met {
    /// Of each rule whether its body is read.
    pub(crate) rules: Vec<bool>,
    /// Of each state whether something is read in it.
    pub(crate) states: Vec<bool>,
    /// The terminals that are read, with the states in which they are.
    pub(crate) terminals: IndexSet<(u32, u32)>,
    /// Of each terminal a rule in which it stands.
    pub(crate) homes: Vec<Option<u32>>,
}

/// As many of the same value.
fn repeated<T: Copy + Drop>(alloc: Global, value: T, count: usize) -> Result<Vec<T>, OutOfMemory> {
    let mut values = Vec::new(alloc);
    for _ in 0..count {
        values.push(value)?;
    }
    Ok(values)
}

/// Says of this number that it is met.
fn mark(met: &mut Vec<bool>, number: u32) {
    if let Some(is_met) = met.get_mut(number as usize) {
        *is_met = true;
    }
}

impl Met {
    /// Nothing of this problem.
    fn nothing(alloc: Global, problem: &Problem) -> Result<Met, OutOfMemory> {
        let names = &problem.sorted.names;
        Ok(Met {
            rules: repeated(alloc, false, names.rules.len())?,
            states: repeated(alloc, false, names.states.len())?,
            terminals: IndexSet::new(alloc),
            homes: repeated(alloc, None, names.terminals.len())?,
        })
    }

    /// Adds a point with a terminal at its head, which is read in these states.
    fn add_terminal(
        &mut self,
        terminal: u32,
        rule: u32,
        states: &[u32],
    ) -> Result<(), OutOfMemory> {
        if let Some(home) = self.homes.get_mut(terminal as usize) {
            if home.is_none() {
                *home = Some(rule);
            }
        }
        for state in states {
            self.terminals.insert((*state, terminal))?;
        }
        Ok(())
    }

    /// Adds a point, which is read in these states.
    fn add(&mut self, problem: &Problem, point: u32, states: &[u32]) -> Result<(), OutOfMemory>
        requires { point < length problem.now.points.points }
    {
        let rule = problem.points.rule_of(point);
        if !states.is_empty() && problem.points.argument_of(point).is_none() {
            mark(&mut self.rules, rule);
        }
        for state in states {
            mark(&mut self.states, *state);
        }
        match problem.points.head_of(point) {
            Head::Tm(terminal) => self.add_terminal(terminal, rule, states),
            _ => Ok(()),
        }
    }

    /// What of a problem is met, where the points are read in these states. None comes where memory
    /// doesn't suffice, or there are more than 4,000,000 pairs of a point and a state.
    ///
    /// Takes time and memory in proportion to the points, the states, and the pairs, on average.
    pub(crate) fn of(alloc: Global, problem: &Problem, reads: &Reads) -> Option<Met> {
        let mut met = Met::nothing(alloc, problem).ok()?;
        let mut left = MOST_PAIRS;
        for point in 0..problem.points.count() {
            let states = reads.states_at(point);
            if states.len() > left || met.add(problem, point, states).is_err() {
                return None;
            }
            left -= states.len();
        }
        Some(met)
    }
}
