//! Terms and rules.

ghost use Rattle.std.specs.Prelude.{◌≡◌, IfOk};

use crate::memory::OutOfMemory;
use std::alloc::Global;
use std::marker::Model;

/// What stands at the front of a term.
#[derive(Clone, Copy, Debug, PartialEq, Eq, Drop)]
pub enum Head {
    /// A parameter of the term's rule, counted from 0.
    Var(u32),
    /// A nonterminal, by the number of its rule, counted from 0.
    Nt(u32),
    /// A terminal, by its number, counted from 0.
    Tm(u32),
}

/// A head applied to the arguments, none or more.
///
/// Contracts see a term as a finite tree with a head at each node.
#[derive(Debug, Drop)]
pub struct Term {
    pub head: Head,
    pub args: Vec<Term>,
}

impl Model for Term {
    ghost use Rattle.hs_scheme.specs.declared.term.Head.{Head};
    ghost use Rattle.hs_scheme.specs.Tree.{Tree, node, forest, height, most_le-heights, tree_code};
    ghost use Rattle.hs_scheme.specs.Code.{coded_head};

    ghost Value = { Tree Head };

    ghost coded = { tree_code coded_head };

    ghost view = { λ a. node a.head (forest a.args.items) };

    ghost size = { height };

    ghost use Rattle.std.proofs.Common.{arith};

    ghost size_decreases = { λ a h. omega (arith, most_le-heights a.args.items) };
}

impl Term {
    /// An equal term. Recurses as deep as the term.
    pub fn copy(&self, alloc: Global) -> Result<Term, OutOfMemory>
        ensures { IfOk result (λ copy. copy ≡ self.now) }
    {
        let mut args = Vec::with_capacity(alloc, self.args.len())?;
        for arg in &self.args {
            args.push_reserved(arg.copy(alloc)?);
        }
        Ok(Term {
            head: self.head,
            args,
        })
    }
}

/// A rule `F x1 .. xn -> body`.
#[derive(Debug, Drop)]
pub struct Rule {
    /// The number of the rule's parameters.
    pub params: u32,
    /// The right side.
    pub body: Term,
}

impl Rule {
    /// An equal rule. Recurses as deep as its right side.
    pub fn copy(&self, alloc: Global) -> Result<Rule, OutOfMemory>
        ensures { IfOk result (λ copy. copy ≡ self.now) }
    {
        Ok(Rule {
            params: self.params,
            body: self.body.copy(alloc)?,
        })
    }
}
