//! A law of head types.

ghost use Rattle.std.specs.Prelude.{List, ℕ};
ghost use Rattle.hs_scheme.specs.flow.Points.{PointData};
ghost use Rattle.hs_scheme.specs.Problem.{ProblemData};
ghost use Rattle.hs_table.specs.Entries.{EntryData};
ghost use Rattle.hs_types.specs.Interned.{InternerData, Grows};
ghost use Rattle.hs_heads.specs.HeadTypes.{HeadTypeData, AreHeadTypes};

/// Head types stay what they are while more gets numbers. Does nothing.
pub fn head_types_stay()
    ensures { (p : ProblemData) (C : List EntryData) (R : List (ℕ × ℕ)) (point : ℕ) (of : PointData)
        (I J : InternerData) (found : List HeadTypeData) → Grows I J
        → AreHeadTypes p C R point of I found → AreHeadTypes p C R point of J found }
{}
