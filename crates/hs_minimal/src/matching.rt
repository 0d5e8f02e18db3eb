//! Whether the types of a table's entries are as strong as no others that are asked for.

ghost use Rattle.std.specs.Prelude.{◌≡◌, ◌<◌, ℕ, false, All, Contains, IfOk, IsTrue, length};
ghost use Rattle.hs_weak.specs.Strength.{AsStrongAs};
ghost use Rattle.hs_types.specs.Interned.{IsRow, type_of_id};
ghost use Rattle.hs_strength.specs.Remembered.{Remembers};
ghost use Rattle.hs_minimal.specs.Strongest.{AreOfTypes, MatchExactly};

use crate::asked::{add_asked, add_types};
use hs_scheme::OutOfMemory;
use hs_strength::Strengths;
use hs_types::{Interner, Row, TyId};
use indexmap::IndexSet;
use std::alloc::Global;

/// So many types are compared with as many others at most: more would take longer than the search.
const MOST_TYPES: usize = 500;

/// Whether the type is as strong as one of the others, and not the same.
fn is_stronger(
    types: &Interner,
    strengths: &mut Strengths,
    ty: TyId,
    others: &[TyId],
) -> Result<bool, OutOfMemory>
    requires ty { ty < length types.now.types }
    requires others { AreOfTypes types.now others.now }
    requires memo { Remembers types.now strengths.old }
    ensures ok { IfOk result (λ stronger. stronger ≡ false → (t : ℕ) → Contains others.now t
        → AsStrongAs (type_of_id types.now ty) (type_of_id types.now t) → ty ≡ t) }
    ensures memo { Remembers types.now strengths.new }
{
    for other in others {
        if *other == ty {
            continue;
        }
        if strengths.is_as_strong(types, ty, *other)? {
            return Ok(true);
        }
    }
    Ok(false)
}

/// Whether one of the types is as strong as one of the others, and not the same.
fn has_stronger(
    types: &Interner,
    strengths: &mut Strengths,
    given: &[TyId],
    asked: &[TyId],
) -> Result<bool, OutOfMemory>
    requires given { AreOfTypes types.now given.now }
    requires asked { AreOfTypes types.now asked.now }
    requires memo { Remembers types.now strengths.old }
    ensures ok { IfOk result (λ stronger. stronger ≡ false → (s t : ℕ) → Contains given.now s
        → Contains asked.now t → AsStrongAs (type_of_id types.now s) (type_of_id types.now t) → s ≡ t) }
    ensures memo { Remembers types.now strengths.new }
{
    for ty in given {
        if is_stronger(types, strengths, *ty, asked)? {
            return Ok(true);
        }
    }
    Ok(false)
}

/// Whether no type of an entry is as strong as another that an entry, or the type of one, asks for. Where
/// there are more than 500 arrows among either, the answer is no.
pub(crate) fn match_exactly(
    alloc: Global,
    types: &Interner,
    strengths: &mut Strengths,
    rows: &[Row],
) -> Result<bool, OutOfMemory>
    requires rows { All (IsRow types.now) rows.now }
    requires memo { Remembers types.now strengths.old }
    ensures ok { IfOk result (λ exactly. IsTrue exactly → MatchExactly types.now rows.now) }
    ensures memo { Remembers types.now strengths.new }
{
    let mut given = IndexSet::new(alloc);
    let mut asked = IndexSet::new(alloc);
    add_types(types, rows, &mut given)?;
    add_asked(alloc, types, rows, &mut asked)?;
    if given.len() > MOST_TYPES || asked.len() > MOST_TYPES {
        return Ok(false);
    }
    let stronger = has_stronger(types, strengths, given.as_slice(), asked.as_slice())?;
    Ok(!stronger)
}
