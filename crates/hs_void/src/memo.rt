//! What was found of the sites of nonterminals.

ghost use Rattle.std.specs.Prelude.{◌≡◌, ◌⊎◌, [], IfSome, Bool, List, Contains};
ghost use Rattle.hs_void.specs.declared.memo.Question.{Question as AnyQuestion};

use hs_scheme::OutOfMemory;
use hs_types::TyId;
use indexmap::IndexMap;
use std::alloc::Global;
use std::marker::Model;

/// So many marks are kept at most, and those of one question. Past that all are forgotten.
const MOST_MARKS: usize = 67_108_864;

/// Which sites of the rule's nonterminal give the parameter, counted from 0, an argument without a row
/// that has a type as strong as this one.
#[derive(Clone, Copy, PartialEq, Eq, Hash)]
pub(crate) struct Question {
    pub(crate) rule: u32,
    pub(crate) parameter: usize,
    pub(crate) ty: TyId,
}

/// A mark for each site.
#[derive(Drop)]
struct Marks {
    marks: Vec<bool>,
}

impl Model for Marks {
    ghost use Rattle.std.specs.Prelude.{List, Bool};

    ghost Value = { List Bool };

    ghost view = { λ a. a.marks.items };
}

/// Questions with their answers. Contracts see the list of them.
#[derive(Drop)]
pub(crate) struct Memo {
    known: IndexMap<Question, Marks>,
    /// No fewer than the marks that are kept.
    held: usize,
}

impl Model for Memo {
    ghost use Rattle.std.specs.Prelude.{List, Bool};
    ghost use Rattle.hs_void.specs.declared.memo.Question.{Question};

    ghost Value = { List (Question × List Bool) };

    ghost view = { λ a. a.known.entries };
}

impl Memo {
    /// Nothing is remembered. Takes no memory.
    pub(crate) fn new(alloc: Global) -> Memo
        ensures { result ≡ [] }
    {
        Memo {
            known: IndexMap::new(alloc),
            held: 0,
        }
    }

    /// The marks, where they are remembered. Constant time on average.
    pub(crate) fn find(&self, question: Question) -> Option<&[bool]>
        ensures { IfSome result (λ marks. Contains self.now (question, marks.now)) }
    {
        let found = self.known.get(&question)?;
        Some(found.marks.as_slice())
    }

    /// Forgets all where so many marks more would be too many.
    fn make_room(&mut self, more: usize)
        ensures { (a : AnyQuestion × List Bool) → Contains self.new a → Contains self.old a }
    {
        self.held = self.held.saturating_add(more);
        if self.held > MOST_MARKS {
            self.known.clear();
            self.held = more;
        }
    }

    /// Remembers the marks.
    pub(crate) fn keep(&mut self, question: Question, marks: Vec<bool>) -> Result<(), OutOfMemory>
        ensures { (a : AnyQuestion × List Bool) → Contains self.new a
            → Contains self.old a ⊎ (a ≡ (question, marks.items)) }
    {
        self.make_room(marks.len());
        self.known.insert(question, Marks { marks })?;
        Ok(())
    }
}
