//! Which types and sets are as strong as others.

ghost use Rattle.std.specs.Prelude.{◌<◌, ◌↔◌, length, IfOk, IsTrue};
ghost use Rattle.hs_weak.specs.Strength.{AsStrongAs, AsksFor, AsksEach};
ghost use Rattle.hs_types.specs.Interned.{type_of_id, set_of_id};
ghost use Rattle.hs_strength.specs.Remembered.{Remembers};

use crate::answers::Question;
use crate::last_states::may_ask_each;
use crate::memo::Strengths;
use hs_scheme::OutOfMemory;
use hs_types::{Interner, SetId, TyId, View};

/// Whether two types have the same number of arguments and the same last state, without which neither
/// is as strong as the other. Looks at no set.
fn end_alike(types: &Interner, ty: TyId, other: TyId) -> bool
    requires ty { ty < length types.now.types }
    requires other { other < length types.now.types }
    ensures { AsStrongAs (type_of_id types.now ty) (type_of_id types.now other) → IsTrue result }
{
    match types.view(ty) {
        View::State(q) => match types.view(other) {
            View::State(p) => q == p,
            View::Arrow(_, _) => false,
        },
        View::Arrow(_, rest) => match types.view(other) {
            View::State(_) => false,
            View::Arrow(_, other_rest) => end_alike(types, rest, other_rest),
        },
    }
}

impl Strengths {
    /// Whether the type is as strong as the other, as `hs_weak::is_as_strong` answers for the trees.
    ///
    /// Constant time for equal numbers, after each type was walked once, and for a pair that was asked for
    /// not too long ago. Else in proportion to the number of arguments for types with different last
    /// states; and for others the time of their pairs of sets, of which each is a look-up, too, where it was
    /// compared not too long ago. Recurses as deep as the types are nested.
    #[cycle(strength)]
    pub fn is_as_strong(
        &mut self,
        types: &Interner,
        ty: TyId,
        other: TyId,
    ) -> Result<bool, OutOfMemory>
        requires ty { ty < length types.now.types }
        requires other { other < length types.now.types }
        requires memo { Remembers types.now self.old }
        ensures ok { IfOk result (λ answer. IsTrue answer
            ↔ AsStrongAs (type_of_id types.now ty) (type_of_id types.now other)) }
        ensures memo { Remembers types.now self.new }
    {
        if ty == other {
            self.see_type(types, ty)?;
            return Ok(true);
        }
        if let Some(answer) = self.find(Question::Types(ty, other)) {
            return Ok(answer);
        }
        let answer = self.compare(types, ty, other)?;
        self.keep(Question::Types(ty, other), answer)?;
        Ok(answer)
    }

    /// Whether the type is as strong as the other: compares their ends, their results, and then their sets.
    #[cycle(strength)]
    fn compare(&mut self, types: &Interner, ty: TyId, other: TyId) -> Result<bool, OutOfMemory>
        requires ty { ty < length types.now.types }
        requires other { other < length types.now.types }
        requires memo { Remembers types.now self.old }
        ensures ok { IfOk result (λ answer. IsTrue answer
            ↔ AsStrongAs (type_of_id types.now ty) (type_of_id types.now other)) }
        ensures memo { Remembers types.now self.new }
    {
        if !end_alike(types, ty, other) {
            return Ok(false);
        }
        match types.view(ty) {
            View::State(q) => match types.view(other) {
                View::State(p) => Ok(q == p),
                View::Arrow(_, _) => Ok(false),
            },
            View::Arrow(set, rest) => match types.view(other) {
                View::State(_) => Ok(false),
                View::Arrow(other_set, other_rest) => {
                    if !self.is_as_strong(types, rest, other_rest)? {
                        return Ok(false);
                    }
                    self.asks_each(types, other_set, set)
                }
            },
        }
    }

    /// Whether for each type of the other set some type of the set is as strong. No types are compared where
    /// the sets are equal or the other is empty, nor for a pair that was asked for not too long ago.
    #[cycle(strength)]
    pub(crate) fn asks_each(
        &mut self,
        types: &Interner,
        set: SetId,
        other: SetId,
    ) -> Result<bool, OutOfMemory>
        requires set { set < length types.now.sets }
        requires other { other < length types.now.sets }
        requires memo { Remembers types.now self.old }
        ensures ok { IfOk result (λ answer. IsTrue answer
            ↔ AsksEach AsStrongAs (set_of_id types.now set) (set_of_id types.now other)) }
        ensures memo { Remembers types.now self.new }
    {
        if types.members(other).is_empty() {
            return Ok(true);
        }
        if set == other {
            self.see_set(types, set)?;
            return Ok(true);
        }
        if let Some(answer) = self.find(Question::Sets(set, other)) {
            return Ok(answer);
        }
        let answer = self.compare_sets(types, set, other)?;
        self.keep(Question::Sets(set, other), answer)?;
        Ok(answer)
    }

    /// Whether for each type of the other set some type of the set is as strong: compares them, unless the
    /// state at the end of the other's first type tells.
    #[cycle(strength)]
    fn compare_sets(
        &mut self,
        types: &Interner,
        set: SetId,
        other: SetId,
    ) -> Result<bool, OutOfMemory>
        requires set { set < length types.now.sets }
        requires other { other < length types.now.sets }
        requires memo { Remembers types.now self.old }
        ensures ok { IfOk result (λ answer. IsTrue answer
            ↔ AsksEach AsStrongAs (set_of_id types.now set) (set_of_id types.now other)) }
        ensures memo { Remembers types.now self.new }
    {
        if !may_ask_each(types, set, other) {
            return Ok(false);
        }
        let members = types.members(other);
        for member in members {
            if !self.asks(types, set, *member)? {
                return Ok(false);
            }
        }
        Ok(true)
    }

    /// Whether some type of the set is as strong as this one.
    #[cycle(strength)]
    fn asks(&mut self, types: &Interner, set: SetId, ty: TyId) -> Result<bool, OutOfMemory>
        requires set { set < length types.now.sets }
        requires ty { ty < length types.now.types }
        requires memo { Remembers types.now self.old }
        ensures ok { IfOk result (λ answer. IsTrue answer
            ↔ AsksFor AsStrongAs (set_of_id types.now set) (type_of_id types.now ty)) }
        ensures memo { Remembers types.now self.new }
    {
        let members = types.members(set);
        for member in members {
            if self.is_as_strong(types, *member, ty)? {
                return Ok(true);
            }
        }
        Ok(false)
    }
}
