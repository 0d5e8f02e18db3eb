//! Laws of void environments and of least unions.

ghost use Rattle.std.specs.Prelude.{◌≡◌, ◌↔◌, ◌⊎◌, ◌<◌, ℕ, List, [], length, slice_get, Some, replicate};
ghost use Rattle.std.specs.Prelude.{Contains, All};
ghost use Rattle.hs_scheme.specs.flow.Points.{PointData};
ghost use Rattle.hs_scheme.specs.Problem.{ProblemData};
ghost use Rattle.hs_table.specs.declared.support.HeadBy.{HeadBy};
ghost use Rattle.hs_table.specs.Types.{TypeTree, arrows};
ghost use Rattle.hs_table.specs.Entries.{Env, EntryData, Has, IsEnv, params_of};
ghost use Rattle.hs_table.specs.Follows.{IsHeadType, HeadHas, AnyHas};
ghost use Rattle.hs_verdict.specs.Premises.{IsSortedProblem};
ghost use Rattle.hs_weak.specs.Strength.{AsStrongAs, AsksAtLeast};
ghost use Rattle.hs_weak.specs.Weak.{WeaklyChosen, WeaklyFollows};
ghost use Rattle.hs_weak.specs.Sites.{SiteData};
ghost use Rattle.hs_weak.specs.Void.{VoidData, IsVoid, sets_for, IsBlocked};
ghost use Rattle.hs_types.specs.Interned.{InternerData, RowData, IsRow, Grows};
ghost use Rattle.hs_choices.specs.Unions.{AreLeastUnions};
ghost use Rattle.hs_choices.specs.Slots.{AreSlots, IsHeadEnv, AscendAll, IsSettled};
ghost use Rattle.hs_choices.specs.Numbered.{slot_envs, AreOfLength, AreTableRows, AreOfArguments};
ghost use Rattle.hs_numbered.specs.Certificates.{VoidRowData};
ghost use Rattle.hs_choices.specs.Numbered.{AreNumbered};

/// An environment that asks at least what a void one asks is void. Does nothing.
pub fn what_asks_more_is_void()
    ensures { (p : ProblemData) (C : List EntryData) (V : List VoidData) (G : ℕ) (E B : Env)
        → AsksAtLeast AsStrongAs E B → IsVoid p C V G B → IsVoid p C V G E }
{}

/// A site is blocked exactly where the least unions of what may be chosen for its arguments are void.
/// Does nothing.
pub fn least_unions_decide_blocked()
    ensures { (p : ProblemData) (C : List EntryData) (V : List VoidData) → IsSortedProblem p
        → (s : SiteData) (of : PointData) → slice_get p.points.points s.point ≡ Some of
        → (B : Env) (slots : List (List Env)) → AreSlots p C of.args (sets_for B s.given of.args) slots
        → (kept : List Env) → AscendAll kept → AreLeastUnions (params_of p of.rule) (IsVoid p C V of.rule)
        (replicate (params_of p of.rule) []) slots kept
        → IsBlocked p C V s B ↔ ((K : Env) → Contains kept K → IsVoid p C V of.rule K) }
{}

/// For a type of the head of a point, the entries with the least unions of what may be chosen follow
/// weakly. Where each of them is covered or void, so is each that follows weakly by this type. Does nothing.
pub fn least_unions_decide_missing()
    ensures follow { (p : ProblemData) (C : List EntryData) (V : List VoidData) → IsSortedProblem p
        → (point : ℕ) (of : PointData) → slice_get p.points.points point ≡ Some of
        → (sets : Env) (ty : TypeTree) (by : HeadBy) → IsHeadType p C of.rule of.head by (arrows sets ty)
        → (first : Env) → IsHeadEnv (params_of p of.rule) of.head (arrows sets ty) first
        → (slots : List (List Env)) → AreSlots p C of.args sets slots
        → (kept : List Env) → AscendAll kept
        → AreLeastUnions (params_of p of.rule) (IsVoid p C V of.rule) first slots kept
        → (K : Env) → Contains kept K
        → WeaklyFollows AsStrongAs p C (record { point = point; env = K; ty = ty }) }
    ensures settled { (p : ProblemData) (C : List EntryData) (V : List VoidData) → IsSortedProblem p
        → (point : ℕ) (of : PointData) → slice_get p.points.points point ≡ Some of
        → (sets : Env) (ty : TypeTree) (by : HeadBy) → IsHeadType p C of.rule of.head by (arrows sets ty)
        → (first : Env) → IsHeadEnv (params_of p of.rule) of.head (arrows sets ty) first
        → (slots : List (List Env)) → AreSlots p C of.args sets slots
        → (kept : List Env)
        → AreLeastUnions (params_of p of.rule) (IsVoid p C V of.rule) first slots kept
        → ((K : Env) → Contains kept K → IsSettled p C V point of.rule ty K)
        → (places : List (ℕ × ℕ)) (es : List EntryData) → WeaklyChosen AsStrongAs p C 0 of.args sets places es
        → (U : Env) → IsEnv (params_of p of.rule) U
        → ((j : ℕ) (a : TypeTree) → j < length U
        → Has U j a ↔ (HeadHas of.head (arrows sets ty) j a ⊎ AnyHas es j a))
        → IsSettled p C V point of.rule ty U }
{}

/// The environments of rows with types as strong as those that are asked of arguments may be chosen for
/// them. Does nothing.
pub fn rows_may_be_chosen()
    ensures { (p : ProblemData) (C : List EntryData) (I : InternerData) (table : List RowData)
        → AreTableRows p C I table
        → (us : List ℕ) (ss : Env) (slots : List (List ℕ)) → AreOfArguments I table us ss slots
        → AreSlots p C us ss (slot_envs I slots) }
{}

/// The environments of rows that may be chosen for the arguments of a point are for the parameters of the
/// point's rule, as the unions of them. Does nothing.
pub fn rows_of_arguments_are_of_one_rule()
    ensures { (p : ProblemData) (C : List EntryData) (I : InternerData) (table : List RowData)
        → IsSortedProblem p → AreTableRows p C I table → All (IsRow I) table
        → (point : ℕ) (of : PointData) → slice_get p.points.points point ≡ Some of
        → (ss : Env) (slots : List (List ℕ)) → AreOfArguments I table of.args ss slots
        → All (AreOfLength (params_of p of.rule) I) slots }
{}

/// Rows stand for the same once there are more numbers. Does nothing.
pub fn what_is_numbered_stays()
    ensures { (p : ProblemData) (C : List EntryData) (V : List VoidData) (I J : InternerData)
        (table : List RowData) (void : List VoidRowData) → Grows I J → AreNumbered p C V I table void
        → AreNumbered p C V J table void }
{}
