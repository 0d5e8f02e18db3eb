//! The pairs of a point and a state in which the point may be read.

ghost use Rattle.std.specs.Prelude.{◌≡◌, ◌↔◌, ◌⊎◌, ◌+◌, ◌<◌, ◌≤◌, [], ℕ, Contains, IfOk, OnOk, IsErrOf, IsTrue, length, slice_get};
ghost use Rattle.hs_weak.specs.Reads.{IsClosedReads};
ghost use Rattle.hs_reads.specs.declared.stop.Stop.TheVariants.{Limit};
ghost use Rattle.hs_reads.specs.Growing.{AreTooMany};
ghost use Rattle.hs_reads.specs.Becomings.{HasTerminals, HasTerminalsOnly};
ghost use Rattle.hs_reads.specs.Pairs.{HasStart, AreNeeded};
ghost use Rattle.hs_reads.specs.Own.{HasManyReads, AreAllPairs, AreReadsOf};
ghost use Rattle.hs_reads.specs.Found.{AllWait};

use crate::becoming::{Becoming, terminals};
use crate::found::FoundPairs;
use crate::lists::Lists;
use crate::reading::{add_demanded, add_start};
use crate::state_set::{StateSet, is_in, states_in};
use crate::stop::Stop;
use hs_scheme::{OutOfMemory, Problem, Sorted};
use hs_verdict::know_sorted_problem;
use std::alloc::Global;
use std::marker::Model;

/// Pairs of a point and a state in which the automaton may read the point: those that are listed, or
/// where none are listed all pairs of this many points and states, which aren't stored. Contracts see
/// the list of the pairs.
#[derive(Drop)]
pub struct Reads {
    /// The states in which each point is read, at the point's number.
    listed: Option<Vec<StateSet>>,
    points: u32,
    states: u32,
    /// All states, where no pairs are listed.
    every: Vec<u32>,
}

impl Model for Reads {
    ghost use Rattle.std.specs.Prelude.{List, ℕ};
    ghost use Rattle.std.specs.Option.{option_map};
    ghost use Rattle.std.specs.Coded.{coded_list, coded×, coded_ℕ};
    ghost use Rattle.hs_reads.specs.ByPoint.{pairs_in, HasEvery};

    ghost Value = { List (ℕ × ℕ) };

    ghost coded = { coded_list (coded× coded_ℕ coded_ℕ) };

    ghost view = { λ a. pairs_in (option_map (λ s. s.items) a.listed) a.points a.states };

    ghost invariant = { λ a. HasEvery (option_map (λ s. s.items) a.listed) a.states a.every.items };
}

/// Adds all pairs that are demanded by those that wait.
fn spread(
    alloc: Global,
    problem: &Problem,
    terminals: &Lists<Becoming>,
    found: &mut FoundPairs,
) -> Result<(), Stop>
    requires terminals { HasTerminals problem.now terminals.now }
    requires only { HasTerminalsOnly problem.now terminals.now }
    requires start { HasStart problem.now found.old.pairs }
    requires few { length found.old.pairs ≤ 4000000 }
    requires waiting { AllWait found.old }
    requires needed { AreNeeded problem.now found.old.pairs }
    ensures closed { OnOk result (IsClosedReads problem.now found.new.pairs) }
    ensures few { OnOk result (length found.new.pairs ≤ 4000000) }
    ensures needed { AreNeeded problem.now found.new.pairs }
    ensures limit { IsErrOf result Limit → AreTooMany found.new.pairs }
{
    let mut handed = Vec::new(alloc);
    while let Some((point, state)) = found.take() {
        add_demanded(alloc, problem, terminals, found, &mut handed, point, state)?;
    }
    Ok(())
}

/// Adds the pairs that are demanded from the start on.
fn find(alloc: Global, problem: &Problem, found: &mut FoundPairs) -> Result<(), Stop>
    requires { found.old.pairs ≡ [] }
    ensures closed { OnOk result (IsClosedReads problem.now found.new.pairs) }
    ensures needed { OnOk result (AreNeeded problem.now found.new.pairs) }
    ensures few { OnOk result (HasManyReads problem.now → ⊥) }
    ensures limit { IsErrOf result Limit → HasManyReads problem.now }
{
    let terminals = terminals(alloc, problem)?;
    add_start(problem, found)?;
    spread(alloc, problem, &terminals, found)
}

/// The number of states.
fn states_of(sorted: &Sorted) -> u32
    ensures { result ≡ sorted.now.automaton.states }
{
    sorted.automaton.states()
}

/// The numbers below this one.
fn all_below(alloc: Global, states: u32) -> Result<Vec<u32>, OutOfMemory>
    ensures { IfOk result (λ every. (q : ℕ) → Contains every.items q ↔ q < states) }
{
    let mut every = Vec::new(alloc);
    for q in 0..states {
        every.push(q)?;
    }
    Ok(every)
}

/// The pairs that are found.
fn listed(alloc: Global, found: FoundPairs) -> Reads
    ensures { result ≡ found.pairs }
{
    Reads {
        listed: Some(found.into_rows()),
        points: 0,
        states: 0,
        every: Vec::new(alloc),
    }
}

impl Reads {
    /// The states in which each point of the problem may be read, by a worklist that takes each pair once.
    /// Where more than 4,000,000 pairs come, or parameters may become more than 4,000,000 terminals together,
    /// they are all pairs, which aren't stored.
    ///
    /// Memory is in proportion to the points, the parameters, the states, the flow and the pairs: 48 bytes for
    /// a point, four to eight for a pair, where a point has more than 64 states bits for all states, and 8 to
    /// 16 for each pair that waits, at most all, until the search ends; until then also 48 for a parameter, and
    /// four to eight for each state in which it is handed on to the points that may stand for it, which is done
    /// once, however many points have it at their heads. Time is in proportion to these, to each parameter's
    /// flow times the states in which it is handed on, to the terminals that a parameter may become times the
    /// parameters for which points with it at their heads may stand, and to these terminals times the arguments
    /// of such a point, in each state in which it is read; for each of those terminals one transition is looked
    /// up, on average in constant time.
    pub fn of(alloc: Global, problem: &Problem) -> Result<Reads, OutOfMemory>
        ensures reads { IfOk result (AreReadsOf problem.now) }
        ensures closed { IfOk result (IsClosedReads problem.now) }
    {
        let mut found = FoundPairs::new(alloc, problem.points.count() as usize)?;
        match find(alloc, problem, &mut found) {
            Ok(()) => Ok(listed(alloc, found)),
            Err(Stop::Limit) => Reads::all(alloc, problem),
            Err(Stop::OutOfMemory) => Err(OutOfMemory),
        }
    }

    /// All pairs of a point and a state of the problem, which aren't stored. They are closed. Memory and
    /// time are in proportion to the states.
    pub fn all(alloc: Global, problem: &Problem) -> Result<Reads, OutOfMemory>
        ensures all { IfOk result (AreAllPairs problem.now) }
        ensures closed { IfOk result (IsClosedReads problem.now) }
    {
        know_sorted_problem(problem);
        let states = states_of(&problem.sorted);
        let every = all_below(alloc, states)?;
        Ok(Reads {
            listed: None,
            points: problem.points.count(),
            states,
            every,
        })
    }

    /// Whether the point, counted from 0, may be read in the state. Takes no memory, and constant time.
    pub fn holds(&self, point: u32, state: u32) -> bool
        ensures { IsTrue result ↔ Contains self.now (point, state) }
    {
        match &self.listed {
            Some(rows) => is_in(rows.as_slice(), point, state),
            None => point < self.points && state < self.states,
        }
    }

    /// The states in which the point, counted from 0, may be read, in any order. Takes no memory, and
    /// constant time.
    pub fn states_at(&self, point: u32) -> &[u32]
        ensures { (q : ℕ) → Contains result.now q ↔ Contains self.now (point, q) }
    {
        match &self.listed {
            Some(rows) => states_in(rows.as_slice(), point),
            None => {
                if point < self.points {
                    self.every.as_slice()
                } else {
                    &[]
                }
            }
        }
    }
}
