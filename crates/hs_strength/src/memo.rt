//! What was compared, with the answers.

ghost use Rattle.std.specs.Prelude.{◌≡◌, ◌<◌, ℕ, [], OnOk, IfSome, IsTrue, true, Some, slice_get, vec_len};
ghost use Rattle.hs_strength.specs.Memo.{Knows};
ghost use Rattle.hs_strength.specs.Remembered.{Learns, Sees, Notes};

use crate::answers::{Answers, Question};
use hs_scheme::OutOfMemory;
use hs_types::{EnvId, TyId};
use std::alloc::Global;
use std::marker::Model;

/// Makes the place, and marks none.
fn make_place(seen: &mut Vec<bool>, place: usize) -> Result<(), OutOfMemory>
    ensures there { OnOk result (place < vec_len seen.new) }
    ensures marks { (t : ℕ) → slice_get seen.new.items t ≡ Some true
        → slice_get seen.old.items t ≡ Some true }
{
    while seen.len() <= place {
        seen.push(false)?;
    }
    Ok(())
}

/// Makes the place, and puts no kinds there.
fn make_place_for_kinds(kinds: &mut Vec<Option<u64>>, place: usize) -> Result<(), OutOfMemory>
    ensures there { OnOk result (place < vec_len kinds.new) }
    ensures kinds { (e k : ℕ) → slice_get kinds.new.items e ≡ Some (Some k)
        → slice_get kinds.old.items e ≡ Some (Some k) }
{
    while kinds.len() <= place {
        kinds.push(None)?;
    }
    Ok(())
}

/// What was found of the strength of types and sets, in one interner.
///
/// Contracts see the answers, which types were seen to be as strong as themselves, and the kinds of
/// types that environments ask for. What is remembered stays true while the interner grows, and where
/// a call answers want of memory. A call with numbers of another interner than before begins with a new
/// `Strengths`.
///
/// The answers that were found last take some 20 MiB at most, a type one byte, and an environment 16.
#[derive(Drop)]
pub struct Strengths {
    answers: Answers,
    /// By the number of a type, whether it was seen to be as strong as itself.
    seen: Vec<bool>,
    /// By the number of an environment, the kinds of its types, once they were formed.
    kinds: Vec<Option<u64>>,
}

impl Model for Strengths {
    ghost use Rattle.hs_strength.specs.Memo.{MemoData};

    ghost Value = { MemoData };

    ghost view = { λ a. record { answers = a.answers.known.items; seen = a.seen.items; kinds = a.kinds.items } };
}

impl Strengths {
    /// Nothing is remembered. Takes no memory.
    pub fn new(alloc: Global) -> Strengths
        ensures { result ≡ record { answers = []; seen = []; kinds = [] } }
    {
        Strengths {
            answers: Answers::new(alloc),
            seen: Vec::new(alloc),
            kinds: Vec::new(alloc),
        }
    }

    /// The answer, where it is remembered. Constant time.
    pub(crate) fn find(&self, question: Question) -> Option<bool>
        ensures { IfSome result (λ answer. Knows self.now.answers question answer) }
    {
        self.answers.find(question)
    }

    /// Remembers the answer.
    pub(crate) fn keep(&mut self, question: Question, answer: bool) -> Result<(), OutOfMemory>
        ensures { Learns self.old self.new question answer }
    {
        self.answers.keep(question, answer)
    }

    /// Whether the type was seen to be as strong as itself.
    pub(crate) fn has_seen(&self, ty: TyId) -> bool
        ensures { IsTrue result → slice_get self.now.seen ty ≡ Some true }
    {
        match self.seen.get(ty.number()) {
            Some(seen) => *seen,
            None => false,
        }
    }

    /// Remembers that the type is as strong as itself.
    pub(crate) fn see(&mut self, ty: TyId) -> Result<(), OutOfMemory>
        ensures { Sees self.old self.new ty }
    {
        let place = ty.number();
        make_place(&mut self.seen, place)?;
        self.seen[place] = true;
        Ok(())
    }

    /// The kinds of the environment's types, where they are remembered.
    pub(crate) fn find_kinds(&self, env: EnvId) -> Option<u64>
        ensures { IfSome result (λ kinds. slice_get self.now.kinds env ≡ Some (Some kinds)) }
    {
        let kinds = self.kinds.get(env.number())?;
        *kinds
    }

    /// Remembers them.
    pub(crate) fn keep_kinds(&mut self, env: EnvId, kinds: u64) -> Result<(), OutOfMemory>
        ensures { Notes self.old self.new env kinds }
    {
        let place = env.number();
        make_place_for_kinds(&mut self.kinds, place)?;
        self.kinds[place] = Some(kinds);
        Ok(())
    }
}
