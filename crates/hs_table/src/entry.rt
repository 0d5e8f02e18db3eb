//! Entries.

ghost use Rattle.std.specs.Prelude.{◌≡◌, IfOk};
ghost use Rattle.std.specs.Cmp.Lexicographic.{slice_cmp};
ghost use Rattle.hs_table.specs.Types.{type_cmp};
ghost use Rattle.hs_table.specs.Entries.{env_cmp, entry_cmp};

use crate::ty::Ty;
use hs_scheme::{OutOfMemory, copied};
use std::alloc::Global;
use std::cmp::Ordering;
use std::marker::Model;

/// Some types in order: a set, where they are strictly ascending. Contracts see the list of them.
#[derive(Debug, Drop)]
pub struct TypeSet {
    pub types: Vec<Ty>,
}

impl Model for TypeSet {
    ghost use Rattle.std.specs.Prelude.{List};
    ghost use Rattle.std.specs.Coded.{coded_list};
    ghost use Rattle.hs_table.specs.Types.{TypeTree, coded_type};

    ghost Value = { List TypeTree };

    ghost coded = { coded_list coded_type };

    ghost view = { λ a. a.types.items };
}

impl TypeSet {
    /// An equal set. Recurses as deep as its types.
    pub fn copy(&self, alloc: Global) -> Result<TypeSet, OutOfMemory>
        ensures { IfOk result (λ copy. copy ≡ self.now) }
    {
        let types = copied(alloc, self.types.as_slice(), |member| member.copy(alloc))?;
        Ok(TypeSet { types })
    }

    /// The order of sets: as lists of types, a proper prefix first. Takes no memory.
    pub fn compare(&self, other: &TypeSet) -> Ordering
        ensures { result ≡ slice_cmp type_cmp self.now other.now }
    {
        for (place, member) in self.types.iter().enumerate() {
            if place == other.types.len() {
                return Ordering::Greater;
            }
            let by_member = member.compare(&other.types[place]);
            if by_member != Ordering::Equal {
                return by_member;
            }
        }
        self.types.len().cmp(&other.types.len())
    }
}

/// An entry: where each parameter of the point's rule is rejected by the types of its set, the
/// point is rejected by the type.
#[derive(Debug, Drop)]
pub struct Entry {
    /// A point of the scheme, counted from 0.
    pub point: u32,
    /// One set for each parameter of the point's rule.
    pub env: Vec<TypeSet>,
    pub ty: Ty,
}

impl Model for Entry {
    ghost use Rattle.hs_table.specs.Entries.{EntryData, coded_entry};

    ghost Value = { EntryData };

    ghost coded = { coded_entry };

    ghost view = { λ a. record { point = a.point; env = a.env.items; ty = a.ty } };
}

/// The order of environments: set by set, a proper prefix first.
fn compare_envs(env: &[TypeSet], other: &[TypeSet]) -> Ordering
    ensures { result ≡ env_cmp env.now other.now }
{
    for (place, set) in env.iter().enumerate() {
        if place == other.len() {
            return Ordering::Greater;
        }
        let by_set = set.compare(&other[place]);
        if by_set != Ordering::Equal {
            return by_set;
        }
    }
    env.len().cmp(&other.len())
}

impl Entry {
    /// An equal entry. Recurses as deep as its types.
    pub fn copy(&self, alloc: Global) -> Result<Entry, OutOfMemory>
        ensures { IfOk result (λ copy. copy ≡ self.now) }
    {
        let env = copied(alloc, self.env.as_slice(), |set| set.copy(alloc))?;
        Ok(Entry {
            point: self.point,
            env,
            ty: self.ty.copy(alloc)?,
        })
    }

    /// The order of entries: by point, then by environment, then by type. Takes no memory.
    pub fn compare(&self, other: &Entry) -> Ordering
        ensures { result ≡ entry_cmp self.now other.now }
    {
        let by_point = self.point.cmp(&other.point);
        if by_point != Ordering::Equal {
            return by_point;
        }
        let by_env = compare_envs(self.env.as_slice(), other.env.as_slice());
        if by_env != Ordering::Equal {
            return by_env;
        }
        self.ty.compare(&other.ty)
    }
}
