//! Laws of the flow analysis, each the contract of a function that does nothing.

ghost use Rattle.std.specs.Prelude.{◌≡◌, ◌≤◌, ◌↔◌, List, length, Contains};
ghost use Rattle.hs_scheme.specs.declared.term.Rule.{Rule};
ghost use Rattle.hs_scheme.specs.declared.flow.FlowPair.{FlowPair};
ghost use Rattle.hs_scheme.specs.declared.flow.HeadPair.{HeadPair};
ghost use Rattle.hs_scheme.specs.declared.flow.Pair.{Pair};
ghost use Rattle.hs_scheme.specs.flow.Flow.{IsClosed, IsSupported, IsFlow, pairs_of};

/// As a set the flow is unique, and no supported list has more pairs than it.
pub fn flow_is_unique()
    ensures unique { (rules : List Rule) (flows others : List FlowPair) (heads rest : List HeadPair) →
        IsFlow rules flows heads → IsFlow rules others rest →
        (pair : Pair) → Contains (pairs_of flows heads) pair ↔ Contains (pairs_of others rest) pair }
    ensures within { (rules : List Rule) (order found : List Pair) →
        IsSupported rules order → IsClosed rules found → (pair : Pair) → Contains order pair
        → Contains found pair }
    ensures fewer { (rules : List Rule) (order found : List Pair) →
        IsSupported rules order → IsClosed rules found → length order ≤ length found }
{}
