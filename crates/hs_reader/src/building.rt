//! The right side of a rule, while it is read.

ghost use Rattle.std.specs.Prelude.{◌≡◌, ◌∷◌, [], List, Some, None, is_none, length, false, IfErr, OnOk};
ghost use Rattle.std.specs.Option.{option_map};
ghost use Rattle.hs_reader.specs.declared.raw.RawName.{RawName};
ghost use Rattle.hs_reader.specs.Raw.{Rule};
ghost use Rattle.hs_reader.specs.ReadingStages.{in_body, in_rules, with_rule, leaf, added, is_full, when, closes, ends, IsMemory};

use crate::fault::ReadFault;
use crate::raw::{RawName, RawNode, RawTerm};
use hs_scheme::MAX_ARGUMENTS;
use std::alloc::Global;
use std::marker::Model;

/// The terms that are begun, each with the arguments so far: before each open parenthesis, and behind
/// the innermost.
///
/// Their nodes lie in one list, the outermost first.
#[derive(Drop)]
pub(crate) struct Building<'a> {
    nodes: Vec<RawNode<'a>>,
    /// Where the term before each open parenthesis begins, the innermost last.
    outer: Vec<usize>,
    /// Where the term behind the innermost begins.
    start: usize,
}

impl<'a> Model for Building<'a> {
    ghost use Rattle.hs_reader.specs.Building.{Begun, coded_begun, begun_at, IsBuilding};

    ghost Value = { Begun };

    ghost coded = { coded_begun };

    ghost view = { λ a. begun_at a.nodes.items a.outer.items a.start };

    ghost invariant = { λ a. IsBuilding a.nodes.items a.outer.items a.start
        (begun_at a.nodes.items a.outer.items a.start) };
}

impl<'a> Building<'a> {
    /// Nothing is begun.
    pub(crate) fn new(alloc: Global) -> Building<'a>
        ensures { result ≡ record { outer = []; top = None } }
    {
        Building {
            nodes: Vec::new(alloc),
            outer: Vec::new(alloc),
            start: 0,
        }
    }

    /// How many parentheses are open.
    pub(crate) fn depth(&self) -> usize
        ensures { result ≡ length self.now.outer }
    {
        self.outer.len()
    }

    /// Whether no term is begun behind the innermost parenthesis.
    fn is_bare(&self) -> bool
        ensures { result ≡ is_none self.now.top }
    {
        self.start == self.nodes.len()
    }

    /// Whether the term begun has as many arguments as it may.
    pub(crate) fn is_full(&self) -> bool
        ensures { result ≡ is_full self.now.top }
    {
        !self.is_bare() && self.nodes[self.start].args as usize == MAX_ARGUMENTS
    }

    /// Puts a name at the end of the arguments of the term begun, or begins with it.
    pub(crate) fn add(&mut self, name: RawName<'a>) -> Result<(), ReadFault>
        requires room { is_full self.old.top ≡ false }
        ensures added { OnOk result (self.new
            ≡ record { outer = self.old.outer; top = Some (added self.old.top (leaf name.entry)) }) }
        ensures fault { IfErr result IsMemory }
    {
        let bare = self.is_bare();
        let RawName { text, line } = name;
        let args = 0;
        self.nodes.push(RawNode { text, line, args })?;
        if !bare {
            self.nodes[self.start].args += 1;
        }
        Ok(())
    }

    /// Opens a parenthesis.
    pub(crate) fn open(&mut self) -> Result<(), ReadFault>
        requires room { is_full self.old.top ≡ false }
        ensures opened { OnOk result (self.new
            ≡ record { outer = self.old.top ∷ self.old.outer; top = None }) }
        ensures fault { IfErr result IsMemory }
    {
        self.outer.push(self.start)?;
        self.start = self.nodes.len();
        Ok(())
    }

    /// Closes the innermost parenthesis, and answers whether one is open and a term begun behind it.
    pub(crate) fn close(&mut self) -> bool
        ensures { (rs : List Rule) (n : RawName) (ps : List RawName)
            → closes rs n ps self.old.outer self.old.top
            ≡ when result (in_body rs n ps self.new.outer self.new.top) }
    {
        if self.is_bare() {
            return false;
        }
        let Some(below) = self.outer.pop() else {
            return false;
        };
        if below == self.start {
            return true;
        }
        self.nodes[below].args += 1;
        self.start = below;
        true
    }

    /// The term, where one is begun and no parenthesis is open.
    pub(crate) fn term(self) -> Option<RawTerm<'a>>
        ensures { (rs : List Rule) (n : RawName) (ps : List RawName)
            → ends rs n ps self.entry.outer self.entry.top
            ≡ option_map (λ t. in_rules (with_rule rs n ps t)) result }
    {
        if self.is_bare() || self.depth() > 0 {
            return None;
        }
        Some(RawTerm::of(self.nodes))
    }
}
