//! Which environments some calls may give.
//!
//! A closure has a type where some entry at its point has one as strong, and the closures of the
//! point's own rule have what that entry asks. So an environment with two types or more may be one
//! that no calls give: each type has an entry at the argument of some call, but not all at one chain of
//! calls that gives all parameters, or only with entries that together ask of the caller what no calls
//! give it. Such an environment is *void*, and an entry that asks it says nothing. One that isn't void
//! is *backed*: along some chain of sites each has a witness, which is one entry for each type that it
//! has to give, so that the union of what they ask is backed at the rule where the site stands.
//!
//! Questions form circles. One that is still being asked is taken for void by those that are asked for its
//! sake; so their "no" is *provisional*, and relies on it. Where it is backed in the end, they are open
//! again; where it is void and relies on no earlier one, so are they, for good (the strongly connected
//! components of Tarjan, "Depth-first search and linear graph algorithms", SIAM Journal on Computing 1972).

use crate::ended::{number_at, put};
use crate::envs::{EMPTY, Status};
use crate::look::params_of;
use crate::search::{Demand, Search};
use crate::sites::{Allowed, Site, has_bit, holds, set};

/// After so many unions for one environment it counts as backed.
const MOST_UNIONS: u32 = 2_000;

/// A choice of entries for the first demands: the place of the entry for the last of these, and the
/// union of what those for the ones before ask.
#[derive(Clone, Copy)]
struct Level {
    next: usize,
    union: u32,
}

/// An environment that is being asked.
#[derive(Drop)]
struct Question {
    env: u32,
    rule: u32,
    allowed: Allowed,
    /// Behind which numbers of parameters sites with witnesses lead.
    reached: Vec<bool>,
    /// The number of the next site to try.
    next: usize,
    /// Before which parameter the site ends at which a witness is searched for.
    end: u32,
    /// The pools of what is asked of that site's arguments.
    cells: Vec<u32>,
    /// The choices so far, none where no witness is searched for.
    levels: Vec<Level>,
    /// How many unions were formed.
    unions: u32,
    /// Its number among the questions, in the order in which they began.
    number: u32,
    /// The least number of the questions that were taken for void meanwhile, or its own.
    least: u32,
    /// How many environments were provisional when it began.
    from: usize,
}

/// What comes next of a question.
enum Step {
    Again,
    /// Another environment is to be asked first.
    Ask(u32),
    Settled(Status),
}

impl<'a> Search<'a> {
    /// The status of the environment, where it can be told at a look.
    fn look(&mut self, env: u32) -> Status {
        let status = self.envs.status(env);
        if status != Status::Open {
            return status;
        }
        for known in self.void.list(self.envs.rule(env)) {
            if self.envs.asks(env, *known) {
                self.envs.set_status(env, Status::Missed);
                return Status::Missed;
            }
        }
        Status::Open
    }

    /// Begins to ask the environment, unless the sites tell at a look that it is missed.
    fn open(&mut self, env: u32, stack: &mut Vec<Question>) {
        let rule = self.envs.rule(env);
        self.sites
            .find(self.problem, &mut self.envs, &self.uses, rule);
        match self
            .sites
            .allowed(self.problem, &mut self.envs, &self.table, env)
        {
            Some(allowed) => self.ask(env, rule, allowed, stack),
            None => self.envs.set_status(env, Status::Missed),
        }
    }

    /// Begins to ask the environment at the sites that are allowed.
    fn ask(&mut self, env: u32, rule: u32, allowed: Allowed, stack: &mut Vec<Question>) {
        let number = self.questions;
        self.questions = number.saturating_add(1);
        self.envs.set_relying(env, Status::Asked, number);
        let mut reached = Vec::new(self.alloc);
        for place in 0..allowed.useful.len() {
            put(&mut reached, place == 0, &mut self.refused);
        }
        let question = Question {
            env,
            rule,
            allowed,
            reached,
            next: 0,
            end: 0,
            cells: Vec::new(self.alloc),
            levels: Vec::new(self.alloc),
            unions: 0,
            number,
            least: number,
            from: self.provisional.len(),
        };
        put(stack, question, &mut self.refused);
    }

    /// Finds the pools of what the environment asks of the site's arguments, that with the fewest items first.
    fn find_cells(&mut self, env: u32, site: Site, cells: &mut Vec<u32>) {
        cells.clear();
        for place in 0..self.envs.atoms(env).len() {
            let atom = self.envs.atom(number_at(self.envs.atoms(env), place));
            if let Some(point) = site.argument(self.problem, atom.param) {
                let pool = self.cell(Demand { point, ty: atom.ty });
                put(cells, pool, &mut self.refused);
            }
        }
        cells.sort_unstable();
        cells.dedup();
        let (mut least, mut fewest) = (0, usize::MAX);
        for place in 0..cells.len() {
            let count = self.count_of(cells.as_slice(), place);
            if count < fewest {
                least = place;
                fewest = count;
            }
        }
        if least < cells.len() {
            cells.swap(0, least);
        }
    }

    /// How many items the pool at the place has.
    fn count_of(&self, cells: &[u32], place: usize) -> usize {
        self.pools.items.list(number_at(cells, place)).len()
    }

    /// Tries the site: one demand or none has a witness if its pool isn't empty, and for more of them
    /// one is searched for.
    fn try_site(&mut self, question: &mut Question, site: Site) {
        self.find_cells(question.env, site, &mut question.cells);
        let count = question.cells.len();
        if count > 0 && self.count_of(question.cells.as_slice(), 0) == 0 {
            return;
        }
        if count < 2 {
            set(&mut question.reached, site.end);
            return;
        }
        question.end = site.end;
        begin(&mut question.levels, EMPTY, &mut self.refused);
    }

    /// Goes on to the next site that may lead further.
    fn next_site(&mut self, question: &mut Question) -> Step {
        let last = params_of(self.problem, question.rule);
        if holds(question.reached.as_slice(), last) {
            return Step::Settled(Status::Backed);
        }
        for number in question.next..self.sites.list(question.rule).len() {
            if let Some(site) = self.sites.list(question.rule).get(number).copied() {
                if leads_on(question, number, site) {
                    question.next = number.saturating_add(1);
                    self.try_site(question, site);
                    return Step::Again;
                }
            }
        }
        Step::Settled(Status::Void)
    }

    /// Tries the next choice for the last of the demands.
    fn next_choice(&mut self, question: &mut Question) -> Step {
        let Some(level) = question.levels.last().copied() else {
            return self.next_site(question);
        };
        let place = question.levels.len().saturating_sub(1);
        let cell = number_at(question.cells.as_slice(), place);
        if level.next >= self.pools.items.list(cell).len() {
            question.levels.pop();
            skip(&mut question.levels);
            return Step::Again;
        }
        question.unions = question.unions.saturating_add(1);
        if question.unions > MOST_UNIONS {
            return Step::Settled(Status::Backed);
        }
        let item = number_at(self.pools.items.list(cell), level.next);
        let union = self.envs.union(level.union, self.pools.item(item).env);
        match self.look(union) {
            Status::Open => return Step::Ask(union),
            Status::Backed => self.take(question, union),
            Status::Asked | Status::Provisional => {
                question.least = question.least.min(self.envs.question(union));
                skip(&mut question.levels);
            }
            _ => skip(&mut question.levels),
        }
        Step::Again
    }

    /// Takes the choice, whose union is backed: the next demand is to be met, or the site has a witness.
    fn take(&mut self, question: &mut Question, union: u32) {
        if question.levels.len() < question.cells.len() {
            begin(&mut question.levels, union, &mut self.refused);
            return;
        }
        set(&mut question.reached, question.end);
        question.levels.clear();
    }

    /// Gives the environments that were found to be provisional since then this status.
    fn settle_since(&mut self, from: usize, status: Status) {
        for _ in from..self.provisional.len() {
            if let Some(env) = self.provisional.pop() {
                self.envs.set_status(env, status);
                if status == Status::Void {
                    self.void.push(self.envs.rule(env), env);
                }
            }
        }
    }

    /// Ends the question with this status: void for good, unless that relies on an earlier question.
    fn settle(&mut self, question: &Question, status: Status) {
        if status == Status::Backed {
            self.envs.set_status(question.env, status);
            return self.settle_since(question.from, Status::Open);
        }
        let least = question.least;
        self.envs
            .set_relying(question.env, Status::Provisional, least);
        put(&mut self.provisional, question.env, &mut self.refused);
        if least == question.number {
            self.settle_since(question.from, Status::Void);
        }
    }

    /// Does one step of the last question, and tells whether there was one.
    fn step(&mut self, stack: &mut Vec<Question>) -> bool {
        let Some(question) = stack.last_mut() else {
            return false;
        };
        match self.next_choice(question) {
            Step::Again => (),
            Step::Ask(env) => self.open(env, stack),
            Step::Settled(status) => {
                self.settle(question, status);
                stack.pop();
            }
        }
        true
    }

    /// Answers all questions, unless the search ends before.
    fn answer(&mut self, stack: &mut Vec<Question>) {
        for _ in 0..u64::MAX {
            self.envs.count(1);
            if self.refused || self.envs.ended().is_some() || !self.step(stack) {
                return;
            }
        }
    }

    /// Whether the environment is backed, as far as entries are known.
    pub(crate) fn is_backed(&mut self, env: u32) -> bool {
        if self.look(env) == Status::Open {
            let mut stack = Vec::new(self.alloc);
            self.open(env, &mut stack);
            self.answer(&mut stack);
            drop(stack);
        }
        self.envs.status(env) == Status::Backed
    }
}

/// Begins with the choices for the next demand, where those for the ones before ask this.
fn begin(levels: &mut Vec<Level>, union: u32, refused: &mut bool) {
    put(levels, Level { next: 0, union }, refused);
}

/// Whether the site is left, begins where sites with witnesses lead, and ends where none does yet, but
/// from where the last parameter can be reached.
fn leads_on(question: &Question, number: usize, site: Site) -> bool {
    has_bit(question.allowed.sites.as_slice(), number)
        && holds(question.reached.as_slice(), site.given)
        && !holds(question.reached.as_slice(), site.end)
        && holds(question.allowed.useful.as_slice(), site.end)
}

/// Goes on to the next choice for the last demand that has one.
fn skip(levels: &mut Vec<Level>) {
    if let Some(level) = levels.last_mut() {
        level.next = level.next.saturating_add(1);
    }
}
