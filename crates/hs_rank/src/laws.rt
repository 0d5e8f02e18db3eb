//! Laws of canonical logs.

ghost use Rattle.std.specs.Prelude.{◌≡◌, ℕ, List, take, slice_get, Some};
ghost use Rattle.hs_scheme.specs.flow.Points.{IsPoints};
ghost use Rattle.hs_scheme.specs.Problem.{ProblemData};
ghost use Rattle.hs_table.specs.Entries.{EntryData};
ghost use Rattle.hs_table.specs.Follows.{Support, premises};
ghost use Rattle.hs_rank.specs.Canonical.{HasRank, IsCanonicalSupport, IsCanonicalLog};
ghost use Rattle.hs_rank.specs.Fronts.{IsFront, IsLeastSupport};

/// An entry has one rank at most, and a problem one canonical log at most, in which each entry has
/// one list of places that it follows from, and, where the points are those of a scheme, one support.
pub fn canonical_logs_are_equal()
    ensures rank { (p : ProblemData) (m n : ℕ) (e : EntryData) → HasRank p m e → HasRank p n e → m ≡ n }
    ensures log { (p : ProblemData) (T U : List EntryData) (ss rs : List Support) →
        IsCanonicalLog p T ss → IsCanonicalLog p U rs → T ≡ U }
    ensures places { (p : ProblemData) (T U : List EntryData) (ss rs : List Support) →
        IsCanonicalLog p T ss → IsCanonicalLog p U rs →
        (place : ℕ) (s r : Support) → slice_get ss place ≡ Some s → slice_get rs place ≡ Some r
        → premises s ≡ premises r }
    ensures supports { (p : ProblemData) (T U : List EntryData) (ss rs : List Support) →
        IsPoints p.points → IsCanonicalLog p T ss → IsCanonicalLog p U rs → ss ≡ rs }
{}

/// Where the front of a log has just its entries of lower rank, the least support by the front is the
/// canonical one.
pub fn least_supports_are_canonical()
    ensures { (p : ProblemData) (T : List EntryData) (n front : ℕ) (e : EntryData) (s : Support) →
        IsFront p T n front → HasRank p n e
        → IsLeastSupport p (take front T) s e → IsCanonicalSupport p T s e }
{}
