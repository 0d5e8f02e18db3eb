//! Which environments were found to be void, and which not.

ghost use Rattle.std.specs.Prelude.{◌≡◌, ◌⊎◌, [], IfSome, Bool, Contains};
ghost use Rattle.hs_numbered.specs.Certificates.{VoidRowData};

use hs_numbered::VoidRow;
use hs_scheme::OutOfMemory;
use indexmap::IndexMap;
use std::alloc::Global;
use std::marker::Model;

/// So many answers are kept at most, in some 40 MiB. Past that all are forgotten.
const MOST_ANSWERS: usize = 1_048_576;

/// Whether an environment is void for the nonterminal of a rule. Contracts see the list of these answers.
#[derive(Drop)]
pub(crate) struct VoidAnswers {
    known: IndexMap<VoidRow, bool>,
}

impl Model for VoidAnswers {
    ghost use Rattle.std.specs.Prelude.{List, Bool};
    ghost use Rattle.hs_numbered.specs.Certificates.{VoidRowData};

    ghost Value = { List (VoidRowData × Bool) };

    ghost view = { λ a. a.known.entries };
}

impl VoidAnswers {
    /// No answers. Takes no memory.
    pub(crate) fn new(alloc: Global) -> VoidAnswers
        ensures { result ≡ [] }
    {
        VoidAnswers {
            known: IndexMap::new(alloc),
        }
    }

    /// The answer, where it is remembered. Constant time on average.
    pub(crate) fn find(&self, pair: VoidRow) -> Option<bool>
        ensures { IfSome result (λ void. Contains self.now (pair, void)) }
    {
        let void = self.known.get(&pair)?;
        Some(*void)
    }

    /// Forgets all answers where they are too many.
    fn make_room(&mut self)
        ensures { (a : VoidRowData × Bool) → Contains self.new a → Contains self.old a }
    {
        if self.known.len() >= MOST_ANSWERS {
            self.known.clear();
        }
    }

    /// Remembers the answer.
    pub(crate) fn keep(&mut self, pair: VoidRow, void: bool) -> Result<(), OutOfMemory>
        ensures { (a : VoidRowData × Bool) → Contains self.new a
            → Contains self.old a ⊎ (a ≡ (pair, void)) }
    {
        self.make_room();
        self.known.insert(pair, void)?;
        Ok(())
    }
}
