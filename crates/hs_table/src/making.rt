//! Types and sets, made of their parts.

ghost use Rattle.std.specs.Prelude.{◌≡◌, [], ◌∷◌, replicate, IfOk};
ghost use Rattle.hs_table.specs.Types as types;

use crate::entry::TypeSet;
use crate::ty::{Shape, Ty};
use hs_scheme::OutOfMemory;
use std::alloc::Global;

impl Ty {
    /// The state, counted from 0, as a type. Takes no memory.
    pub fn state(q: u32) -> Ty
        ensures { result ≡ types.state q }
    {
        Ty {
            shape: Shape::State(q),
        }
    }

    /// `s1 -> .. -> sk -> t` for the sets `s1` to `sk` and the result `t`. The sets are copied, so
    /// this takes time and memory as their types.
    pub fn arrows(alloc: Global, sets: &[TypeSet], result_type: Ty) -> Result<Ty, OutOfMemory>
        ensures { IfOk result (λ ty. ty ≡ types.arrows sets.now result_type) }
    {
        let mut ty = result_type;
        let mut left = sets.len();
        while left > 0 {
            left -= 1;
            let set = sets[left].copy(alloc)?.types;
            ty = Ty {
                shape: Shape::Arrow(set, Box::new(alloc, ty)?),
            };
        }
        Ok(ty)
    }
}

impl TypeSet {
    /// The set with one type.
    pub fn single(alloc: Global, ty: Ty) -> Result<TypeSet, OutOfMemory>
        ensures { IfOk result (λ set. set ≡ ty ∷ []) }
    {
        let mut types = Vec::new(alloc);
        types.push(ty)?;
        Ok(TypeSet { types })
    }
}

/// So many sets without a type.
pub fn empty_sets(alloc: Global, count: usize) -> Result<Vec<TypeSet>, OutOfMemory>
    ensures { IfOk result (λ sets. sets.items ≡ replicate count []) }
{
    let mut sets = Vec::with_capacity(alloc, count)?;
    for _ in 0..count {
        sets.push(TypeSet {
            types: Vec::new(alloc),
        })?;
    }
    Ok(sets)
}
