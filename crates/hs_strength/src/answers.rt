//! Answers that are known.

ghost use Rattle.std.specs.Prelude.{◌≡◌, ◌⊎◌, Bool, [], IfSome, OnOk};
ghost use Rattle.hs_strength.specs.declared.answers.Question.{Question as AnyQuestion};
ghost use Rattle.hs_strength.specs.Memo.{Knows, KnowsMore};

use hs_scheme::OutOfMemory;
use hs_types::{SetId, TyId};
use std::alloc::Global;

/// So many places the table has when the first answer is kept.
const FEWEST_PLACES: usize = 256;

/// So many places the table has at most, in 20 MiB.
const MOST_PLACES: usize = 1_048_576;

/// An odd number whose multiples differ in their upper bits: 2^64 by the golden ratio (Knuth, "The Art of
/// Computer Programming", volume 3, 1973).
const MULTIPLIER: u64 = 0x9e37_79b9_7f4a_7c15;

/// Whether the first type is as strong as the second; whether for each type of the second set some
/// type of the first is as strong.
#[derive(Clone, Copy, PartialEq, Eq)]
pub(crate) enum Question {
    Types(TyId, TyId),
    Sets(SetId, SetId),
}

/// A question with its answer.
#[derive(Clone, Copy)]
pub(crate) struct Known {
    question: Question,
    answer: bool,
}

/// The two numbers side by side.
fn side_by_side(first: usize, second: usize) -> u64 {
    first as u64 | (second as u64) << 32
}

/// Where the answer stands among so many places, a power of two: with twice as many at the same place or
/// so many behind it. Types and sets of the same numbers mostly differ in their places.
fn place_of_question(question: &Question, places: usize) -> usize {
    let both = match question {
        Question::Types(ty, other) => side_by_side(ty.number(), other.number()),
        Question::Sets(set, other) => !side_by_side(set.number(), other.number()),
    };
    (both.wrapping_mul(MULTIPLIER) >> 40) as usize & places.wrapping_sub(1)
}

/// The answers that were kept last: at each place one of those that belong there.
#[derive(Drop)]
pub(crate) struct Answers {
    known: Vec<Option<Known>>,
    /// How many were kept since the table grew.
    count: usize,
}

impl Answers {
    /// None is known. Takes no memory.
    pub(crate) fn new(alloc: Global) -> Answers
        ensures { result.known.items ≡ [] }
    {
        Answers {
            known: Vec::new(alloc),
            count: 0,
        }
    }

    /// The answer, where it is known. Constant time.
    pub(crate) fn find(&self, question: Question) -> Option<bool>
        ensures { IfSome result (λ answer. Knows self.now.known.items question answer) }
    {
        let place = place_of_question(&question, self.known.len());
        let kept = (*self.known.get(place)?)?;
        if kept.question == question {
            Some(kept.answer)
        } else {
            None
        }
    }

    /// Doubles the table where a quarter as many answers were kept as it has places. What is known then
    /// stands at both of the places where it may belong.
    fn make_room(&mut self) -> Result<(), OutOfMemory>
        ensures { (q : AnyQuestion) (answer : Bool) → Knows self.new.known.items q answer
            → Knows self.old.known.items q answer }
    {
        let places = self.known.len();
        if self.count < places / 4 || places >= MOST_PLACES {
            return Ok(());
        }
        if places == 0 {
            self.known.resize(FEWEST_PLACES, None)?;
        } else {
            self.known.extend_from_within(..)?;
        }
        self.count = 0;
        Ok(())
    }

    /// Keeps the answer, in the place of one that stood at its place. Constant time on average.
    pub(crate) fn keep(&mut self, question: Question, answer: bool) -> Result<(), OutOfMemory>
        ensures { KnowsMore self.old.known.items self.new.known.items question answer }
    {
        self.make_room()?;
        let place = place_of_question(&question, self.known.len());
        if place < self.known.len() {
            self.known[place] = Some(Known { question, answer });
        }
        self.count = self.count.saturating_add(1);
        Ok(())
    }
}
