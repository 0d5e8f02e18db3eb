//! Which entries cover others.

ghost use Rattle.std.specs.Prelude.{◌↔◌, All, IfOk, IsTrue};
ghost use Rattle.hs_weak.specs.Strength.{AsStrongAs, Covers};
ghost use Rattle.hs_types.specs.Interned.{IsRow, entry_of};
ghost use Rattle.hs_strength.specs.Remembered.{Remembers, IsCovered};

use crate::memo::Strengths;
use hs_scheme::OutOfMemory;
use hs_types::{Interner, Row};

impl Strengths {
    /// Whether an entry covers another, as `hs_weak::covers` answers for the trees.
    pub fn covers(
        &mut self,
        types: &Interner,
        entry: &Row,
        other: &Row,
    ) -> Result<bool, OutOfMemory>
        requires entry { IsRow types.now entry.now }
        requires other { IsRow types.now other.now }
        requires memo { Remembers types.now self.old }
        ensures ok { IfOk result (λ answer. IsTrue answer
            ↔ Covers AsStrongAs (entry_of types.now entry.now) (entry_of types.now other.now)) }
        ensures memo { Remembers types.now self.new }
    {
        if entry.point != other.point {
            return Ok(false);
        }
        if !self.is_as_strong(types, entry.ty, other.ty)? {
            return Ok(false);
        }
        self.asks_at_least(types, other.env, entry.env)
    }

    /// Whether one of these entries covers the entry. Ends at the first such one.
    pub fn is_covered(
        &mut self,
        types: &Interner,
        entry: &Row,
        by: &[Row],
    ) -> Result<bool, OutOfMemory>
        requires entry { IsRow types.now entry.now }
        requires by { All (IsRow types.now) by.now }
        requires memo { Remembers types.now self.old }
        ensures ok { IfOk result (λ answer. IsTrue answer ↔ IsCovered types.now entry.now by.now) }
        ensures memo { Remembers types.now self.new }
    {
        for row in by {
            if self.covers(types, row, entry)? {
                return Ok(true);
            }
        }
        Ok(false)
    }
}
