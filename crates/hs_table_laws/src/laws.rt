//! Laws of orders, of sets, of what follows and of least tables.

ghost use Rattle.std.specs.Prelude.{◌≡◌, ◌<◌, ◌≤◌, ◌++◌, ℕ, List, length, take, slice_get, Some, Contains, ◌↔◌};
ghost use Rattle.std.specs.Ordering.{ordering_then};
ghost use Rattle.std.specs.Cmp.{IsTotalOrder};
ghost use Rattle.std.specs.Cmp.Lexicographic.{slice_cmp};
ghost use Rattle.std.specs.declared.cmp.Ordering.TheVariants.{Equal};
ghost use Rattle.hs_scheme.specs.Tree.{forest};
ghost use Rattle.hs_scheme.specs.flow.Flow.{IsAscending};
ghost use Rattle.hs_scheme.specs.acceptance.Automaton.{IsAutomaton};
ghost use Rattle.hs_scheme.specs.Problem.{ProblemData};
ghost use Rattle.hs_table.specs.Types.{TypeTree, arrow, type_cmp, types_cmp, IsSet};
ghost use Rattle.hs_table.specs.Entries.{Env, EntryData, Has, IsEnv, InShape, entry_cmp};
ghost use Rattle.hs_table.specs.Follows.{Support, FollowsBy, Follows};
ghost use Rattle.hs_table.specs.Tables.{IsSupportedTable, IsClosedTable, IsLeastTable, Exceeds, HasSupports};

/// The orders of types and of entries are total, and sets are compared as lists.
pub fn orders_are_total()
    ensures types { IsTotalOrder type_cmp }
    ensures same_type { (t u : TypeTree) → type_cmp t u ≡ Equal → t ≡ u }
    ensures arrows { (s r : List TypeTree) (t u : TypeTree) →
        type_cmp (arrow s t) (arrow r u) ≡ ordering_then (type_cmp t u) (slice_cmp type_cmp s r) }
    ensures entries { IsTotalOrder entry_cmp }
    ensures same_entry { (a b : EntryData) → entry_cmp a b ≡ Equal → a ≡ b }
{}

/// A strictly ascending list is determined by its members, and so is an environment. Each list of
/// types has a set with its members.
pub fn members_determine_sets()
    ensures sets { (s r : List TypeTree) → IsSet s → IsSet r →
        ((a : TypeTree) → Contains s a ↔ Contains r a) → s ≡ r }
    ensures envs { (n : ℕ) (e f : Env) → IsEnv n e → IsEnv n f →
        ((j : ℕ) (a : TypeTree) → j < n → Has e j a ↔ Has f j a) → e ≡ f }
    ensures entries { (s r : List EntryData) → IsAscending entry_cmp s → IsAscending entry_cmp r →
        ((e : EntryData) → Contains s e ↔ Contains r e) → s ≡ r }
    ensures each_has_one { (xs : List TypeTree) →
        (s : List TypeTree) × (IsSet s × ((a : TypeTree) → Contains s a ↔ Contains xs a)) }
{}

/// What follows from a list follows from each list with its entries; where the list only grows at
/// its end, by the same support.
pub fn follows_grows()
    ensures more { (p : ProblemData) (E F : List EntryData)
        → ((e : EntryData) → Contains E e → Contains F e) →
        (e : EntryData) → Follows p E e → Follows p F e }
    ensures appended { (p : ProblemData) (E F : List EntryData) (s : Support) (e : EntryData) →
        FollowsBy p E s e → FollowsBy p (E ++ F) s e }
    ensures front { (p : ProblemData) (E : List EntryData) (m n : ℕ) (s : Support) (e : EntryData) → m ≤ n →
        FollowsBy p (take m E) s e → FollowsBy p (take n E) s e }
{}

/// A supported table lies inside each closed one. So two least tables have the same entries, and
/// the length of one says which budgets are exceeded.
pub fn least_tables_are_equal()
    ensures within { (p : ProblemData) (T C : List EntryData) → IsSupportedTable p T → IsClosedTable p C →
        (e : EntryData) → Contains T e → Contains C e }
    ensures fewer { (p : ProblemData) (T C : List EntryData) → IsSupportedTable p T → IsClosedTable p C →
        length T ≤ length C }
    ensures same { (p : ProblemData) (T U : List EntryData) → IsLeastTable p T → IsLeastTable p U →
        (e : EntryData) → Contains T e ↔ Contains U e }
    ensures exceeds { (p : ProblemData) (T : List EntryData) (budget : ℕ) → IsLeastTable p T →
        Exceeds p budget ↔ (budget < length T) }
    ensures supports { (p : ProblemData) (T : List EntryData) (supports : List Support) →
        HasSupports p T supports → IsSupportedTable p T }
{}

/// What follows is in shape. So a supported table has only entries in shape.
pub fn what_follows_is_in_shape()
    ensures shape { (p : ProblemData) (E : List EntryData) → IsAutomaton p.sorted.automaton →
        (e : EntryData) → Follows p E e → InShape p e }
    ensures table { (p : ProblemData) (T : List EntryData) → IsAutomaton p.sorted.automaton
        → IsSupportedTable p T →
        (e : EntryData) → Contains T e → InShape p e }
{}
