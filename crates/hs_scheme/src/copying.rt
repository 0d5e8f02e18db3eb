//! Lists of equal items.

ghost use Rattle.std.specs.Prelude.{◌≡◌, IfOk};
ghost use Rattle.hs_scheme.specs.Copying.{MakesEqual};

use crate::memory::OutOfMemory;
use std::alloc::Global;

/// Items equal to these, in their order, each made by `copy`.
pub fn copied<T: Drop, F: Fn(&T) -> Result<T, OutOfMemory>>(
    alloc: Global,
    items: &[T],
    copy: F,
) -> Result<Vec<T>, OutOfMemory>
    requires callable { F.IsAlwaysCallable copy }
    requires equal { MakesEqual F.Fn copy }
    ensures { IfOk result (λ copies. copies.items ≡ items.now) }
{
    let mut copies = Vec::with_capacity(alloc, items.len())?;
    for item in items {
        copies.push_reserved(copy(item)?);
    }
    Ok(copies)
}
