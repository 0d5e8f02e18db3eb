//! What may be left out of unions.

ghost use Rattle.std.specs.Prelude.{◌≡◌, ◌<◌, ℕ, length, IfOk, IsTrue};
ghost use Rattle.hs_table.specs.Entries.{Env};
ghost use Rattle.hs_weak.specs.Strength.{AsStrongAs, AsksAtLeast};
ghost use Rattle.hs_types.specs.Interned.{InternerData, env_of_id, Grows};

use crate::comparing::Comparing;
use hs_scheme::OutOfMemory;
use hs_types::EnvId;

/// Tells of environments for the parameters of a rule that nothing has to be looked at for them, nor for
/// any that asks at least what one of them asks. They have numbers, and what is remembered of numbers
/// stays so while there come more.
pub trait Dropping<T: Comparing> {
    /// The rule's environments that are left out, where these are the numbers.
    ghost dropped: { Self → InternerData → ℕ → Env → Type 0 };

    /// What is remembered of these numbers is so.
    ghost fits: { Self → InternerData → Type 0 };

    /// The second is what the first has become, and leaves out no more.
    ghost stays: { Self → Self → Type 0 };

    /// Whether the environment is left out. It need not be told of each.
    fn drops(&mut self, types: &mut T, rule: u32, env: EnvId) -> Result<bool, OutOfMemory>
        requires env { env < length (T.known types.old).envs }
        requires fits { fits self.old (T.known types.old) }
        ensures ok { IfOk result (λ drops. IsTrue drops
            → dropped self.old (T.known types.old) rule (env_of_id (T.known types.old) env)) }
        ensures same { T.known types.new ≡ T.known types.old }
        ensures fits { fits self.new (T.known types.new) }
        ensures stays { stays self.old self.new };

    /// What asks more is left out, too.
    ghost asks_more: { (d : Self) (I : InternerData) (rule : ℕ) (E B : Env) → AsksAtLeast AsStrongAs E B
        → dropped d I rule B → dropped d I rule E };

    ghost fits_grown: { (d : Self) (I J : InternerData) → Grows I J → fits d I → fits d J };

    /// More numbers leave out no more.
    ghost dropped_before: { (d e : Self) (I J : InternerData) (rule : ℕ) (E : Env) → stays d e → Grows I J
        → dropped e J rule E → dropped d I rule E };

    ghost stays_at_first: { (d : Self) → stays d d };

    ghost stays_on: { (d e f : Self) → stays d e → stays e f → stays d f };
}
