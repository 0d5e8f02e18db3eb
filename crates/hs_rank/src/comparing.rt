//! The order of entries, read in an interner.

ghost use Rattle.std.specs.Prelude.{◌≡◌, ◌<◌, length, map, All, slice_get};
ghost use Rattle.std.specs.Option.{option_cmp};
ghost use Rattle.std.specs.Cmp.Lexicographic.{slice_cmp};
ghost use Rattle.hs_table.specs.Types.{type_cmp};
ghost use Rattle.hs_table.specs.Entries.{env_cmp, entry_cmp};
ghost use Rattle.hs_types.specs.Interned.{set_of_id, env_of_id, IsRow, entry_of};
ghost use Rattle.hs_rank.specs.Ordering.{entries_of};

use hs_rules::Deduced;
use hs_types::{EnvId, Interner, Row, SetId};
use std::cmp::Ordering;

/// The order of two sets: as lists of types, a proper prefix first.
fn compare_sets(interner: &Interner, set: SetId, other: SetId) -> Ordering
    requires set { set < length interner.now.sets }
    requires other { other < length interner.now.sets }
    ensures { result ≡ slice_cmp type_cmp (set_of_id interner.now set) (set_of_id interner.now other) }
{
    if set == other {
        return Ordering::Equal;
    }
    let members = interner.members(set);
    let others = interner.members(other);
    for (place, member) in members.iter().enumerate() {
        if place == others.len() {
            return Ordering::Greater;
        }
        let by_member = interner.compare(*member, others[place]);
        if by_member != Ordering::Equal {
            return by_member;
        }
    }
    members.len().cmp(&others.len())
}

/// The order of two environments: set by set, a proper prefix first.
fn compare_envs(interner: &Interner, env: EnvId, other: EnvId) -> Ordering
    requires env { env < length interner.now.envs }
    requires other { other < length interner.now.envs }
    ensures { result ≡ env_cmp (env_of_id interner.now env) (env_of_id interner.now other) }
{
    if env == other {
        return Ordering::Equal;
    }
    let sets = interner.sets(env);
    let others = interner.sets(other);
    for (place, set) in sets.iter().enumerate() {
        if place == others.len() {
            return Ordering::Greater;
        }
        let by_set = compare_sets(interner, *set, others[place]);
        if by_set != Ordering::Equal {
            return by_set;
        }
    }
    sets.len().cmp(&others.len())
}

/// The order of the entries of two rows. Sets and types are walked only where their numbers differ.
fn compare_rows(interner: &Interner, row: Row, other: Row) -> Ordering
    requires row { IsRow interner.now row }
    requires other { IsRow interner.now other }
    ensures { result ≡ entry_cmp (entry_of interner.now row) (entry_of interner.now other) }
{
    let by_point = row.point.cmp(&other.point);
    if by_point != Ordering::Equal {
        return by_point;
    }
    let by_env = compare_envs(interner, row.env, other.env);
    if by_env != Ordering::Equal {
        return by_env;
    }
    interner.compare(row.ty, other.ty)
}

/// The order of the entries at two places of what was found; behind its end there is none, which is
/// less.
#[inline(always)]
pub(crate) fn compare_places(
    interner: &Interner,
    found: &[Deduced],
    place: usize,
    other: usize,
) -> Ordering
    requires { All (λ d. IsRow interner.now d.row) found.now }
    ensures { result ≡ option_cmp entry_cmp (slice_get (entries_of interner.now found.now) place)
        (slice_get (entries_of interner.now found.now) other) }
{
    match (found.get(place), found.get(other)) {
        (Some(first), Some(second)) => compare_rows(interner, first.row, second.row),
        (Some(_), None) => Ordering::Greater,
        (None, Some(_)) => Ordering::Less,
        (None, None) => Ordering::Equal,
    }
}
