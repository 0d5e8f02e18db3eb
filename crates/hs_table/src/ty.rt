//! Types of rejected terms.

ghost use Rattle.std.specs.Prelude.{◌≡◌, IfOk};
ghost use Rattle.hs_table.specs.Types.{type_cmp};

use hs_scheme::OutOfMemory;
use std::alloc::Global;
use std::cmp::Ordering;
use std::marker::Model;

/// What a type is.
#[cycle(ty)]
#[derive(Debug, Drop)]
pub enum Shape {
    /// A state of the automaton, counted from 0: it rejects a tree from there.
    State(u32),
    /// A set of types, strictly ascending, and a result: given an argument that is rejected by each
    /// type of the set, a term is rejected by the result.
    Arrow(Vec<Ty>, Box<Ty>),
}

/// A type of rejected terms.
///
/// Contracts see a type as a finite tree: a leaf with the state, or a node whose first child is the
/// result and whose other children are the types of the set.
#[cycle(ty)]
#[derive(Debug, Drop)]
pub struct Ty {
    pub shape: Shape,
}

impl Model for Ty {
    ghost use Rattle.hs_table.specs.Types.{TypeTree, coded_type};

    ghost Value = { TypeTree };

    ghost coded = { coded_type };

    ghost use Rattle.hs_table.specs.TypeView.{type_of};

    ghost view = { λ a. type_of a.shape };

    ghost use Rattle.hs_scheme.specs.Tree.{height};

    ghost size = { height };

    ghost use Rattle.hs_table.specs.TypeFalls.{depth_le-height};

    ghost size_decreases = { λ a h. depth_le-height a.shape };
}

impl Ty {
    /// An equal type. Recurses as deep as the type.
    pub fn copy(&self, alloc: Global) -> Result<Ty, OutOfMemory>
        ensures { IfOk result (λ copy. copy ≡ self.now) }
    {
        match &self.shape {
            Shape::State(q) => Ok(Ty {
                shape: Shape::State(*q),
            }),
            Shape::Arrow(set, result_type) => {
                let mut copies = Vec::with_capacity(alloc, set.len())?;
                for member in set {
                    copies.push(member.copy(alloc)?)?;
                }
                let rest = Box::new(alloc, result_type.copy(alloc)?)?;
                Ok(Ty {
                    shape: Shape::Arrow(copies, rest),
                })
            }
        }
    }

    /// The order of types: states come before arrows and are ordered by number; arrows are ordered
    /// by result, then by set, as lists, a proper prefix first. Recurses as deep as the types, and
    /// takes no memory.
    pub fn compare(&self, other: &Ty) -> Ordering
        ensures { result ≡ type_cmp self.now other.now }
    {
        match (&self.shape, &other.shape) {
            (Shape::State(q), Shape::State(p)) => q.cmp(p),
            (Shape::State(_), Shape::Arrow(_, _)) => Ordering::Less,
            (Shape::Arrow(_, _), Shape::State(_)) => Ordering::Greater,
            (Shape::Arrow(set, rest), Shape::Arrow(others, other_rest)) => {
                let by_result = rest.compare(other_rest);
                if by_result != Ordering::Equal {
                    return by_result;
                }
                for (place, member) in set.iter().enumerate() {
                    if place == others.len() {
                        return Ordering::Greater;
                    }
                    let by_member = member.compare(&others[place]);
                    if by_member != Ordering::Equal {
                        return by_member;
                    }
                }
                set.len().cmp(&others.len())
            }
        }
    }
}
