//! What the search for a compact table comes to.

use hs_table::Entry;

/// What the search for a compact table comes to.
#[derive(Debug, Drop)]
pub enum Compact {
    /// A compact list, ascending.
    Table(Vec<Entry>),
    /// More entries came than are allowed: one more than that, in the order in which they came. Each
    /// weakly follows from those before it, and none before it covers it.
    Over(Vec<Entry>),
}
