//! Which nodes stand for the heads of a body.

ghost use Rattle.std.specs.Prelude.{◌≡◌, ◌<◌, ◌^◌};
ghost use Rattle.hs_sorts.specs.Constraints.{node_of};

use hs_scheme::Head;

/// The nonterminals' nodes come first, by rule, then the terminals'. Those of a rule's parameters are
/// added with the rule, in a row.
#[derive(Clone, Copy, Drop)]
pub(crate) struct Heads {
    /// The number of rules.
    pub(crate) rules: u32,
    /// The node of the rule's first parameter.
    pub(crate) first: u32,
}

impl Heads {
    /// The node of a head in the rule's body. Takes no memory.
    pub(crate) fn node_of(&self, head: Head) -> u32
        requires { node_of self.now.rules self.now.first head < 2 ^ 32 }
        ensures { result ≡ node_of self.now.rules self.now.first head }
    {
        match head {
            Head::Var(parameter) => self.first + parameter,
            Head::Nt(number) => number,
            Head::Tm(terminal) => self.rules + terminal,
        }
    }
}
