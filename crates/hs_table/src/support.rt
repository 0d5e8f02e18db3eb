//! What an entry follows from.

/// Where the type of a point's head comes from.
#[derive(Clone, Copy, Debug, PartialEq, Eq, Drop)]
pub enum HeadBy {
    /// The head is a terminal, read in this state: the child of this number, counted from 1, is
    /// rejected, or there is no transition.
    Terminal { state: u32, child: Option<u32> },
    /// The head is a nonterminal: the entry at this place of the list is one of its body.
    Rule { place: u32 },
    /// The head is this parameter, counted from 0: the entry at this place of the list is one of a
    /// point that may stand for it.
    Param { param: u32, place: u32 },
}
