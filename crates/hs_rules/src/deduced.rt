//! What is deduced.

ghost use Rattle.std.specs.Prelude.{List, All};
ghost use Rattle.hs_scheme.specs.acceptance.Automaton.{IsAutomaton};
ghost use Rattle.hs_table.specs.Entries.{EntryData};
ghost use Rattle.hs_rules.specs.Conclusions.{IsDeduced, IsShaped};

use hs_replica::Replica;
use hs_scheme::Problem;
use hs_table::HeadBy;
use hs_table_laws::what_follows_is_in_shape;
use hs_types::Row;
use std::marker::Model;

/// An entry that follows, and what it follows from.
#[derive(Debug, Drop)]
pub struct Deduced {
    /// The entry, in the numbers of an interner.
    pub row: Row,
    /// Where the type of its point's head comes from.
    pub head: HeadBy,
    /// Each chosen argument, counted from 0, with the place of its entry, by argument and then in the
    /// order of types.
    pub args: Vec<(u32, u32)>,
}

impl Model for Deduced {
    ghost use Rattle.hs_rules.specs.Conclusions.{DeducedData};

    ghost Value = { DeducedData };

    ghost view = { λ a. record { row = a.row; support = record { head = a.head; args = a.args.items } } };
}

/// What holds of the automaton of each problem.
fn know(problem: &Problem)
    ensures { IsAutomaton problem.now.sorted.automaton }
{
    let sorted = &problem.sorted;
    sorted.automaton.know_automaton();
}

/// Entries that follow from others, in the numbers of the replica's interner, are in shape, so they may
/// be added to its log. Does nothing.
pub fn deduced_entries_are_in_shape(problem: &Problem, replica: &Replica, found: &[Deduced])
    requires { (log : List EntryData) × All (IsDeduced problem.now replica.now.ids log) found.now }
    ensures { All (IsShaped problem.now replica.now.ids) found.now }
{
    know(problem);
    what_follows_is_in_shape();
}
