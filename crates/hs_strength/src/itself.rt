//! Types that are as strong as themselves, and sets of them.

ghost use Rattle.std.specs.Prelude.{◌<◌, length, OnOk};
ghost use Rattle.hs_weak.specs.Strength.{AsStrongAs, AsksEach};
ghost use Rattle.hs_types.specs.Interned.{type_of_id, set_of_id};
ghost use Rattle.hs_strength.specs.Remembered.{Remembers};

use crate::memo::Strengths;
use hs_scheme::OutOfMemory;
use hs_types::{Interner, SetId, TyId, View};

impl Strengths {
    /// Sees that the type is as strong as itself: it is, since it is built of states and arrows. Walks
    /// what wasn't seen before, as deep as it is.
    #[cycle(itself)]
    pub(crate) fn see_type(&mut self, types: &Interner, ty: TyId) -> Result<(), OutOfMemory>
        requires ty { ty < length types.now.types }
        requires memo { Remembers types.now self.old }
        ensures itself { OnOk result (AsStrongAs (type_of_id types.now ty) (type_of_id types.now ty)) }
        ensures memo { Remembers types.now self.new }
    {
        if self.has_seen(ty) {
            return Ok(());
        }
        match types.view(ty) {
            View::State(_) => self.see(ty),
            View::Arrow(set, rest) => {
                self.see_type(types, rest)?;
                self.see_set(types, set)?;
                self.see(ty)
            }
        }
    }

    /// Sees that each type of the set is as strong as itself.
    #[cycle(itself)]
    pub(crate) fn see_set(&mut self, types: &Interner, set: SetId) -> Result<(), OutOfMemory>
        requires set { set < length types.now.sets }
        requires memo { Remembers types.now self.old }
        ensures itself { OnOk result (AsksEach AsStrongAs (set_of_id types.now set) (set_of_id types.now set)) }
        ensures memo { Remembers types.now self.new }
    {
        let members = types.members(set);
        for member in members {
            self.see_type(types, *member)?;
        }
        Ok(())
    }
}
