//! The order of types.

ghost use Rattle.std.specs.Prelude.{◌≡◌, ◌<◌, length, Contains, IsTrue, ◌↔◌};
ghost use Rattle.std.specs.Cmp.Lexicographic.{slice_cmp};
ghost use Rattle.hs_table.specs.Types.{type_cmp};
ghost use Rattle.hs_types.specs.Interned.{type_of_id, set_of_id};

use crate::ids::{SetId, TyId, View};
use crate::nodes::Nodes;
use std::cmp::Ordering;

impl Nodes {
    /// The order of two types, which are walked only where their numbers differ.
    #[cycle(compare)]
    pub(crate) fn compare(&self, a: TyId, b: TyId) -> Ordering
        requires a { a < length self.now.types }
        requires b { b < length self.now.types }
        ensures { result ≡ type_cmp (type_of_id self.now a) (type_of_id self.now b) }
    {
        if a == b {
            return Ordering::Equal;
        }
        match self.view(a) {
            View::State(q) => match self.view(b) {
                View::State(p) => q.cmp(&p),
                View::Arrow(_, _) => Ordering::Less,
            },
            View::Arrow(set, rest) => match self.view(b) {
                View::State(_) => Ordering::Greater,
                View::Arrow(other_set, other_rest) => {
                    let by_result = self.compare(rest, other_rest);
                    if by_result != Ordering::Equal {
                        return by_result;
                    }
                    self.compare_sets(set, other_set)
                }
            },
        }
    }

    /// The order of two sets: as lists of types, a proper prefix first.
    #[cycle(compare)]
    fn compare_sets(&self, set: SetId, other: SetId) -> Ordering
        requires set { set < length self.now.sets }
        requires other { other < length self.now.sets }
        ensures { result ≡ slice_cmp type_cmp (set_of_id self.now set) (set_of_id self.now other) }
    {
        let members = self.members(set);
        let others = self.members(other);
        for (place, member) in members.iter().enumerate() {
            if place == others.len() {
                return Ordering::Greater;
            }
            let by_member = self.compare(*member, others[place]);
            if by_member != Ordering::Equal {
                return by_member;
            }
        }
        members.len().cmp(&others.len())
    }

    /// Whether the set has the type. Compares about as often as the binary logarithm of its size.
    pub(crate) fn contains(&self, set: SetId, ty: TyId) -> bool
        requires set { set < length self.now.sets }
        requires ty { ty < length self.now.types }
        ensures { IsTrue result ↔ Contains (set_of_id self.now set) (type_of_id self.now ty) }
    {
        self.know_numbers();
        let members = self.members(set);
        let mut low = 0;
        let mut high = members.len();
        while low < high {
            let middle = low + (high - low) / 2;
            match self.compare(members[middle], ty) {
                Ordering::Less => low = middle + 1,
                Ordering::Equal => return true,
                Ordering::Greater => high = middle,
            }
        }
        false
    }
}
