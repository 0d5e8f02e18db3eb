//! The sorts that nodes stand for, as trees.

ghost use Rattle.std.specs.Prelude.{◌≡◌, ◌<◌, ◌≤◌, length, IfOk};
ghost use Rattle.hs_sorts.specs.Nodes.{Valuation, IsStore, IsFlat};
ghost use Rattle.hs_sorts.specs.Measures.{IsReading};
ghost use Rattle.hs_sorts.specs.Search.{Measuring};
ghost use Rattle.hs_sorts.specs.Reading as reading;
ghost use Rattle.hs_sorts.specs.Reading.{size_at, IsSplitAt};

use crate::measures::Measures;
use crate::store::{Node, Shape, Store};
use hs_scheme::{OutOfMemory, Sort};
use std::alloc::Global;

/// The nodes of an arrow's argument and of the rest.
fn parts(shape: Shape) -> Option<(u32, u32)>
    ensures { result ≡ reading.parts shape }
{
    match shape {
        Shape::Open => None,
        Shape::Base => None,
        Shape::Arrow(argument, rest) => Some((argument, rest)),
    }
}

/// The nodes of the first argument and of what is left, or `None` where the sort is `o`. Takes
/// constant time, since no link leads to a link.
fn split(store: &Store, node: u32) -> Option<(u32, u32)>
    requires store { IsStore store.now }
    requires flat { IsFlat store.now }
    requires node { node < length store.now }
    ensures { IsSplitAt store.now node result }
{
    match store.node_at(node) {
        Node::Root(shape) => parts(shape),
        Node::Link(up) => match store.node_at(up) {
            Node::Root(shape) => parts(shape),
            Node::Link(_top) => None,
        },
    }
}

/// The sort that a node stands for, where an open node is `o`. Recurses as deep as the sort, which
/// is at most 1,000 in size.
pub(crate) fn read_sort(
    alloc: Global,
    store: &Store,
    measures: &Measures,
    node: u32,
) -> Result<Sort, OutOfMemory>
    requires store { IsStore store.now }
    requires flat { IsFlat store.now }
    requires measures { Measuring store.now measures.now }
    requires node { node < length store.now }
    requires small { size_at measures.now node ≤ 1000 }
    ensures { IfOk result (λ sort. (v : Valuation) → IsReading v store.now → sort ≡ v node) }
{
    let mut args = Vec::new(alloc);
    let mut at = node;
    while let Some((argument, rest)) = split(store, at) {
        args.push(read_sort(alloc, store, measures, argument)?)?;
        at = rest;
    }
    Ok(Sort { args })
}
