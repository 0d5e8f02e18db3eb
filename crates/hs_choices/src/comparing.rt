//! What types and environments by number can do.

ghost use Rattle.std.specs.Prelude.{◌≡◌, ◌↔◌, ◌<◌, ℕ, Some, length, slice_get, IfOk, IsTrue};
ghost use Rattle.hs_table.specs.Types.{IsSet};
ghost use Rattle.hs_table.specs.Entries.{set_at};
ghost use Rattle.hs_weak.specs.Strength.{AsStrongAs, AsksAtLeast};
ghost use Rattle.hs_types.specs.Interned.{InternerData, type_of_id, set_of_id, env_of_id, Grows};
ghost use Rattle.hs_choices.specs.Numbered.{IsUnionMade};

use hs_scheme::OutOfMemory;
use hs_types::{EnvId, SetId, TyId};

/// Types and environments that have numbers, which are joined and compared. How they are kept is open: a
/// number keeps what it stands for.
pub trait Comparing {
    /// What the numbers stand for.
    ghost known: { Self → InternerData };

    /// The sets of environments are in order. A law; does nothing.
    fn sets_ascend(&self)
        ensures { (e j : ℕ) → IsSet (set_at (env_of_id (known self.now) e) j) };

    /// How many types the set has. Takes no memory.
    fn count(&self, set: SetId) -> usize
        requires { set < length (known self.now).sets }
        ensures { result ≡ length (set_of_id (known self.now) set) };

    /// The type at this place of the set, counted from 0. Takes no memory.
    fn member(&self, set: SetId, place: usize) -> TyId
        requires set { set < length (known self.now).sets }
        requires place { place < length (set_of_id (known self.now) set) }
        ensures range { result < length (known self.now).types }
        ensures is { slice_get (set_of_id (known self.now) set) place ≡ Some
            (type_of_id (known self.now) result) };

    /// The union of two environments with the same number of parameters.
    fn union(&mut self, env: EnvId, other: EnvId) -> Result<EnvId, OutOfMemory>
        requires env { env < length (known self.old).envs }
        requires other { other < length (known self.old).envs }
        requires long { length (env_of_id (known self.old) env) ≡ length (env_of_id (known self.old) other) }
        ensures ok { IfOk result (λ union. IsUnionMade (known self.old) (known self.new) env other union) }
        ensures grows { Grows (known self.old) (known self.new) };

    /// Whether an environment asks at least what another asks.
    fn asks_at_least(&mut self, env: EnvId, other: EnvId) -> Result<bool, OutOfMemory>
        requires env { env < length (known self.old).envs }
        requires other { other < length (known self.old).envs }
        ensures ok { IfOk result (λ asks. IsTrue asks
            ↔ AsksAtLeast AsStrongAs (env_of_id (known self.old) env) (env_of_id (known self.old) other)) }
        ensures same { known self.new ≡ known self.old };

    /// Whether a type is as strong as another.
    fn is_as_strong(&mut self, ty: TyId, other: TyId) -> Result<bool, OutOfMemory>
        requires ty { ty < length (known self.old).types }
        requires other { other < length (known self.old).types }
        ensures ok { IfOk result (λ strong. IsTrue strong
            ↔ AsStrongAs (type_of_id (known self.old) ty) (type_of_id (known self.old) other)) }
        ensures same { known self.new ≡ known self.old };
}
