//! Which types, sets, environments and entries are as strong as others.

ghost use Rattle.std.specs.Prelude.{◌↔◌, IsTrue};
ghost use Rattle.hs_table.specs.Entries.{set_at};
ghost use Rattle.hs_weak.specs.Strength.{AsStrongAs, AsksFor, AsksEach, AsksAtLeast, Covers};

use hs_table::{Entry, Shape, Ty, TypeSet};

/// Whether a type is as strong as another. Recurses as deep as the deeper of them. Compares each pair
/// of types that stand equally deep in the two, at most.
#[cycle(strength)]
pub fn is_as_strong(ty: &Ty, other: &Ty) -> bool
    ensures { IsTrue result ↔ AsStrongAs ty.now other.now }
{
    match (&ty.shape, &other.shape) {
        (Shape::State(q), Shape::State(r)) => q == r,
        (Shape::State(_), Shape::Arrow(_, _)) => false,
        (Shape::Arrow(_, _), Shape::State(_)) => false,
        (Shape::Arrow(set, rest), Shape::Arrow(others, other_rest)) => {
            is_as_strong(rest, other_rest) && asks_each(others.as_slice(), set.as_slice())
        }
    }
}

/// Whether some type of a set is as strong as this one.
#[cycle(strength)]
fn asks(set: &[Ty], ty: &Ty) -> bool
    ensures { IsTrue result ↔ AsksFor AsStrongAs set.now ty.now }
{
    for member in set {
        if is_as_strong(member, ty) {
            return true;
        }
    }
    false
}

/// Whether for each type of the other set some type of the set is as strong.
#[cycle(strength)]
fn asks_each(set: &[Ty], other: &[Ty]) -> bool
    ensures { IsTrue result ↔ AsksEach AsStrongAs set.now other.now }
{
    for member in other {
        if !asks(set, member) {
            return false;
        }
    }
    true
}

/// Whether the environment's set at a parameter asks each of these types. A set that is missing is
/// empty.
fn asks_at(env: &[TypeSet], parameter: usize, set: &[Ty]) -> bool
    ensures { IsTrue result ↔ AsksEach AsStrongAs (set_at env.now parameter) set.now }
{
    match env.get(parameter) {
        Some(own) => asks_each(own.types.as_slice(), set),
        None => set.is_empty(),
    }
}

/// Whether an environment asks at least what another asks: for each parameter, and each type in the
/// other's set, some type in its own is as strong. A set that is missing is empty.
pub fn asks_at_least(env: &[TypeSet], other: &[TypeSet]) -> bool
    ensures { IsTrue result ↔ AsksAtLeast AsStrongAs env.now other.now }
{
    for (parameter, set) in other.iter().enumerate() {
        if !asks_at(env, parameter, set.types.as_slice()) {
            return false;
        }
    }
    true
}

/// Whether an entry covers another: it is at the same point, its type is as strong, and the other's
/// environment asks at least what its own asks.
pub fn covers(entry: &Entry, other: &Entry) -> bool
    ensures { IsTrue result ↔ Covers AsStrongAs entry.now other.now }
{
    if entry.point != other.point {
        return false;
    }
    if !is_as_strong(&entry.ty, &other.ty) {
        return false;
    }
    asks_at_least(other.env.as_slice(), entry.env.as_slice())
}
