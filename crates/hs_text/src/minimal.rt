//! What the search for a compact table came to.

use hs_table::Entry;

/// What the search for a compact table came to, where it was asked for.
#[derive(Debug, Drop)]
pub enum Minimal {
    /// A compact list of entries.
    Table(Vec<Entry>),
    /// More entries were added on the way than this many.
    More { budget: u32 },
}
