//! The start entry of a problem.

ghost use Rattle.std.specs.Prelude.{◌≡◌, ◌↔◌, slice_get, Some, IsTrue};
ghost use Rattle.hs_table.specs.Tables.{IsStart};
ghost use Rattle.hs_types.specs.Interned.{IsRow, entry_of};

use hs_scheme::Problem;
use hs_types::{Interner, Row, View};
use hs_verdict::know_sorted_problem;

/// The point of the start's body.
fn start_body(problem: &Problem) -> u32
    ensures { slice_get problem.now.points.bodies 0 ≡ Some result }
{
    know_sorted_problem(problem);
    problem.points.body_of(0)
}

/// Whether the row stands for the start entry.
pub(crate) fn is_start(problem: &Problem, interner: &Interner, row: Row) -> bool
    requires { IsRow interner.now row }
    ensures { IsTrue result ↔ IsStart problem.now (entry_of interner.now row) }
{
    if row.point != start_body(problem) {
        return false;
    }
    if !interner.sets(row.env).is_empty() {
        return false;
    }
    match interner.view(row.ty) {
        View::State(q) => q == 0,
        View::Arrow(_, _) => false,
    }
}
