//! Types, environments and entries that are trees get numbers.

ghost use Rattle.std.specs.Prelude.{◌≡◌, ◌<◌, IfOk, Some, length, slice_get};
ghost use Rattle.hs_types.specs.Interned.{set_of_id, IsRow, entry_of, Grows};
ghost use Rattle.hs_numbered.specs.Trees.{IsSomeType, IsSomeSet, IsSomeEnv, IsSomeEntry};

use hs_scheme::OutOfMemory;
use hs_table::{Entry, Shape, Ty, TypeSet};
use hs_types::{EnvId, Interner, Row, SetId, TyId};
use smallvec::SmallVec;
use std::alloc::Global;

/// The number of the type. Recurses as deep as the type.
#[cycle(import)]
fn import_type(alloc: Global, interner: &mut Interner, ty: &Ty) -> Result<TyId, OutOfMemory>
    requires { IsSomeType ty.now }
    ensures ok { IfOk result (λ id. slice_get interner.new.types id ≡ Some ty.now) }
    ensures grows { Grows interner.old interner.new }
{
    match &ty.shape {
        Shape::State(q) => interner.base(*q),
        Shape::Arrow(set, rest) => {
            let own_set = import_set(alloc, interner, set.as_slice())?;
            let own_rest = import_type(alloc, interner, rest)?;
            interner.arrow(own_set, own_rest)
        }
    }
}

/// The number of the set.
#[cycle(import)]
fn import_set(alloc: Global, interner: &mut Interner, set: &[Ty]) -> Result<SetId, OutOfMemory>
    requires { IsSomeSet set.now }
    ensures ok { IfOk result (λ id. slice_get interner.new.sets id ≡ Some set.now) }
    ensures grows { Grows interner.old interner.new }
{
    let mut members: SmallVec<TyId, 8> = SmallVec::new(alloc);
    for member in set {
        members.push(import_type(alloc, interner, member)?)?;
    }
    interner.set(members.as_slice())
}

/// The number of the environment, which is in shape for some number of states. Time is in the size of its
/// types, on average. Recurses as deep as they are.
pub fn import_env(
    alloc: Global,
    interner: &mut Interner,
    env: &[TypeSet],
) -> Result<EnvId, OutOfMemory>
    requires { IsSomeEnv env.now }
    ensures ok { IfOk result (λ id. slice_get interner.new.envs id ≡ Some env.now) }
    ensures grows { Grows interner.old interner.new }
{
    let mut sets: SmallVec<SetId, 8> = SmallVec::new(alloc);
    for set in env {
        sets.push(import_set(alloc, interner, set.types.as_slice())?)?;
    }
    interner.env(sets.as_slice())
}

/// The row of the entry, which is in shape for some problem. Time is in the size of its types, on average.
/// Recurses as deep as they are.
pub fn import_entry(
    alloc: Global,
    interner: &mut Interner,
    entry: &Entry,
) -> Result<Row, OutOfMemory>
    requires { IsSomeEntry entry.now }
    ensures row { IfOk result (λ row. IsRow interner.new row) }
    ensures entry { IfOk result (λ row. entry_of interner.new row ≡ entry.now) }
    ensures grows { Grows interner.old interner.new }
{
    let env = import_env(alloc, interner, entry.env.as_slice())?;
    let ty = import_type(alloc, interner, &entry.ty)?;
    Ok(Row {
        point: entry.point,
        env,
        ty,
    })
}
