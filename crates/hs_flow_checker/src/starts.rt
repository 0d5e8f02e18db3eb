//! Where the items of each point begin in a list in the order of points.

ghost use Rattle.std.specs.Prelude.{◌⊎◌, Contains, IsTrue};
ghost use Rattle.hs_scheme.specs.declared.flow.FlowPair.{FlowPair as AnyFlow};
ghost use Rattle.hs_flow_checker.specs.Starts.{IsEmptyAt};

use hs_scheme::FlowPair;

/// Whether no item is of the point.
fn is_empty_at(starts: &[usize], point: u32) -> bool
    ensures { IsTrue result → IsEmptyAt starts.now point }
{
    let place = point as usize;
    if place + 1 >= starts.len() {
        return true;
    }
    starts[place] == starts[place + 1]
}

/// The pairs from the first on of whose point there is an item. `starts` says for each point, counted
/// from 0, and for one past the last, how many items are of lesser points. Takes constant time for each
/// of the pairs before the first.
pub fn from_first_with<'a>(starts: &[usize], row: &'a [FlowPair]) -> &'a [FlowPair]
    ensures part { (f : AnyFlow) → Contains result.now f → Contains row.now f }
    ensures rest { (f : AnyFlow) → Contains row.now f → Contains result.now f ⊎ IsEmptyAt starts.now f.point }
{
    for (place, pair) in row.iter().enumerate() {
        if !is_empty_at(starts, pair.point) {
            return &row[place..];
        }
    }
    &row[..0]
}
