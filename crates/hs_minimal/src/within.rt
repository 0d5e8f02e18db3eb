//! A compact table within the least one.

ghost use Rattle.std.specs.Prelude.{◌≤◌, ◌≡◌, All, IfOk, IfSome, length, map};
ghost use Rattle.hs_table.specs.Tables.{IsLeastTable};
ghost use Rattle.hs_types.specs.Interned.{IsRow, entry_of};
ghost use Rattle.hs_minimal.specs.Compact.{IsTable, IsCompactAnswer};
ghost use Rattle.hs_minimal.specs.Strongest.{MatchExactly, AreStrongest};

use crate::answer::Compact;
use crate::compacting::compact;
use crate::matching::match_exactly;
use crate::strongest::strongest;
use hs_scheme::{OutOfMemory, Problem};
use hs_strength::{Strengths, what_is_remembered_stays};
use hs_table::Entry;
use hs_types::{Interner, Row};
use hs_verdict::know_sorted_problem;
use std::alloc::Global;

/// The entries of the rows, in their order.
fn trees(alloc: Global, types: &Interner, rows: &[Row]) -> Result<Vec<Entry>, OutOfMemory>
    requires { All (IsRow types.now) rows.now }
    ensures { IfOk result (λ trees. trees.items ≡ map (entry_of types.now) rows.now) }
{
    let mut trees = Vec::with_capacity(alloc, rows.len())?;
    for row in rows {
        trees.push_reserved(types.tree(alloc, *row)?);
    }
    Ok(trees)
}

/// The strongest entries of a table, where no type of an entry is as strong as another that is asked for.
fn strongest_that_match(
    alloc: Global,
    problem: &Problem,
    types: &Interner,
    rows: &[Row],
) -> Result<Option<Vec<Row>>, OutOfMemory>
    requires rows { All (IsRow types.now) rows.now }
    requires least { IsLeastTable problem.now (map (entry_of types.now) rows.now) }
    ensures { IfOk result (λ found. IfSome found (λ kept. AreStrongest types.now rows.now kept.items
        × MatchExactly types.now rows.now)) }
{
    know_sorted_problem(problem);
    what_is_remembered_stays();
    let mut strengths = Strengths::new(alloc);
    if !match_exactly(alloc, types, &mut strengths, rows)? {
        return Ok(None);
    }
    strongest(
        alloc,
        types,
        &mut strengths,
        problem.points.count() as usize,
        rows,
    )
}

/// A compact list of the problem, or that more entries than the budget came on the way, where the rows are
/// the entries of its least table. The budget is 1 to 1,000,000 entries.
///
/// Where no type of an entry is as strong as another that some entry asks for, what weakly follows from
/// the strongest entries of the least table is in it: then these are the list, which takes a look at each
/// entry with those that may cover it. Else, and where entries cover one another, it is that of `compact`.
pub fn compact_within(
    alloc: Global,
    problem: &Problem,
    types: &Interner,
    rows: &[Row],
    budget: u32,
) -> Result<Compact, OutOfMemory>
    requires least_budget { 1 ≤ budget }
    requires most { budget ≤ 1000000 }
    requires rows { All (IsRow types.now) rows.now }
    requires few { length rows.now ≤ budget }
    requires least { IsLeastTable problem.now (map (entry_of types.now) rows.now) }
    ensures { IfOk result (IsCompactAnswer problem.now budget) }
{
    know_sorted_problem(problem);
    match strongest_that_match(alloc, problem, types, rows)? {
        Some(kept) => {
            let mut table = trees(alloc, types, kept.as_slice())?;
            table.sort_by(|a, b| a.compare(b))?;
            Ok(Compact::Table(table))
        }
        None => compact(alloc, problem, budget),
    }
}
