//! Laws of what is remembered.

ghost use Rattle.hs_types.specs.Interned.{InternerData, Grows};
ghost use Rattle.hs_strength.specs.Memo.{MemoData};
ghost use Rattle.hs_strength.specs.Remembered.{Remembers, nothing};

/// Nothing is so of every interner, and what is remembered of an interner is so once it has grown. A
/// law; does nothing.
pub fn what_is_remembered_stays()
    ensures at_first { (I : InternerData) → Remembers I nothing }
    ensures grown { (I J : InternerData) (memo : MemoData) → Grows I J → Remembers I memo
        → Remembers J memo }
{}
