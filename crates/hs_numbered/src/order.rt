//! The order of entries and of void pairs, by number.

ghost use Rattle.std.specs.Prelude.{◌≡◌, ◌<◌, length};
ghost use Rattle.std.specs.Cmp.Lexicographic.{slice_cmp};
ghost use Rattle.hs_table.specs.Types.{type_cmp};
ghost use Rattle.hs_table.specs.Entries.{env_cmp, entry_cmp};
ghost use Rattle.hs_weak.specs.Void.{void_cmp};
ghost use Rattle.hs_types.specs.Interned.{set_of_id, env_of_id, IsRow, entry_of};
ghost use Rattle.hs_numbered.specs.Certificates.{IsVoidRow, void_of};

use crate::void_row::VoidRow;
use hs_types::{EnvId, Interner, Row, SetId};
use std::cmp::Ordering;

/// The order of two sets: as lists of types, a proper prefix first.
fn compare_sets(interner: &Interner, set: SetId, other: SetId) -> Ordering
    requires set { set < length interner.now.sets }
    requires other { other < length interner.now.sets }
    ensures { result ≡ slice_cmp type_cmp (set_of_id interner.now set) (set_of_id interner.now other) }
{
    let members = interner.members(set);
    let others = interner.members(other);
    for (place, member) in members.iter().enumerate() {
        if place == others.len() {
            return Ordering::Greater;
        }
        let by_member = interner.compare(*member, others[place]);
        if by_member != Ordering::Equal {
            return by_member;
        }
    }
    members.len().cmp(&others.len())
}

/// The order of two environments: set by set, a proper prefix first.
fn compare_envs(interner: &Interner, env: EnvId, other: EnvId) -> Ordering
    requires env { env < length interner.now.envs }
    requires other { other < length interner.now.envs }
    ensures { result ≡ env_cmp (env_of_id interner.now env) (env_of_id interner.now other) }
{
    let sets = interner.sets(env);
    let others = interner.sets(other);
    for (place, set) in sets.iter().enumerate() {
        if place == others.len() {
            return Ordering::Greater;
        }
        let by_set = compare_sets(interner, *set, others[place]);
        if by_set != Ordering::Equal {
            return by_set;
        }
    }
    sets.len().cmp(&others.len())
}

/// The order of the entries that two rows stand for: by point, then by environment, then by type. Walks types
/// only where their numbers differ, and takes no memory.
pub fn compare_rows(interner: &Interner, row: &Row, other: &Row) -> Ordering
    requires row { IsRow interner.now row.now }
    requires other { IsRow interner.now other.now }
    ensures { result ≡ entry_cmp (entry_of interner.now row.now) (entry_of interner.now other.now) }
{
    let by_point = row.point.cmp(&other.point);
    if by_point != Ordering::Equal {
        return by_point;
    }
    let by_env = compare_envs(interner, row.env, other.env);
    if by_env != Ordering::Equal {
        return by_env;
    }
    interner.compare(row.ty, other.ty)
}

/// The order of the pairs that two void rows stand for: by rule, then by environment. Takes no memory.
pub fn compare_void_rows(interner: &Interner, row: &VoidRow, other: &VoidRow) -> Ordering
    requires row { IsVoidRow interner.now row.now }
    requires other { IsVoidRow interner.now other.now }
    ensures { result ≡ void_cmp (void_of interner.now row.now) (void_of interner.now other.now) }
{
    let by_rule = row.rule.cmp(&other.rule);
    if by_rule != Ordering::Equal {
        return by_rule;
    }
    compare_envs(interner, row.env, other.env)
}
