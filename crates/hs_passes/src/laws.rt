//! Laws of the definitions, each the contract of a function that does nothing.

ghost use Rattle.std.specs.Prelude.{◌≡◌, ◌<◌, ◌↔◌, ℕ, List, None, length, true};
ghost use Rattle.hs_scheme.specs.declared.term.Rule.{Rule};
ghost use Rattle.hs_scheme.specs.Scheme.{AreRules};
ghost use Rattle.hs_scheme.specs.sorting.Sorted.{SortedData};
ghost use Rattle.hs_passes.specs.Aliases.{first_alias, without_aliases};
ghost use Rattle.hs_passes.specs.Reachable.{IsReachable, is_reachable};
ghost use Rattle.hs_passes.specs.Unused.{first_unused, without_unused};
ghost use Rattle.hs_passes.specs.Needing.{IsGreatest};
ghost use Rattle.hs_passes.specs.Leaving.{Keep, with_parameters};

/// The rules that stay are exactly those to which a chain of occurrences in bodies leads from the start.
pub fn reachable_rules_stay()
    ensures { (rules : List Rule) (terminals : ℕ) → AreRules rules terminals → (f : ℕ) → f < length rules
        → (is_reachable rules f ≡ true) ↔ IsReachable rules f }
{}

/// Where the aliases are folded, none is left.
pub fn no_alias_is_left()
    ensures { (s : SortedData) → first_alias (without_aliases s).scheme.rules ≡ None }
{}

/// Where the unused parameters are dropped, none is left.
pub fn no_unused_parameter_is_left()
    ensures { (s : SortedData) → first_unused (without_unused s).scheme.rules ≡ None }
{}

/// The parameters that stay are the greatest set of parameters each of which is needed by what is
/// left of the bodies.
pub fn needed_parameters_stay()
    ensures { (s : SortedData) (keep : Keep) → IsGreatest s.scheme.rules keep
        → without_unused s ≡ with_parameters keep s }
{}
