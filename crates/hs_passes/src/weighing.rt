//! The weight of a scheme.

ghost use Rattle.std.specs.Prelude.{◌≡◌, ◌≤◌};
ghost use Rattle.hs_passes.specs.Weight.{weight};

use hs_scheme::Sorted;

/// The weight of the scheme: the number of its rules and of all their parameters.
pub fn weight_of(sorted: &Sorted) -> u64
    ensures is { result ≡ weight sorted.now }
    ensures small { result ≤ 1_300_000 }
{
    let rules = sorted.scheme.rules.as_slice();
    let mut weight = rules.len() as u64;
    for rule in rules {
        weight += u64::from(rule.params);
    }
    weight
}
