//! Terms as nodes of a graph.
//!
//! A term of a long reduction may be as deep as the reduction is long. So terms are nodes in a list,
//! each named by its place, and arguments are shared: a replacement makes nodes for the body of the
//! rule alone, and nothing recurses over what stands in the graph.

ghost use Rattle.std.specs.Prelude.{◌≡◌, ◌<◌, ◌≤◌, [], All, length, IfOk};
ghost use Rattle.hs_scheme.specs.Tree.{node, forest};
ghost use Rattle.hs_reduce.specs.Graph.{term_at, terms_at, head_of, arguments_of, places_of, NamesTerms, AddsTerm};

use hs_scheme::{Head, OutOfMemory};
use std::alloc::Global;
use std::marker::Model;

/// A head, and where the places of its arguments stand among the links: from `from` up to `to`.
#[derive(Clone, Copy, Drop)]
pub(crate) struct Node {
    pub(crate) head: Head,
    pub(crate) from: usize,
    pub(crate) to: usize,
}

/// A list of terms. It only grows.
///
/// Contracts see the list of the terms, by their places.
#[derive(Drop)]
pub(crate) struct Graph {
    nodes: Vec<Node>,
    links: Vec<usize>,
}

impl Model for Graph {
    ghost use Rattle.std.specs.Prelude.{List, []};
    ghost use Rattle.hs_scheme.specs.declared.term.Head.{Head};
    ghost use Rattle.hs_scheme.specs.Tree.{Tree, tree_code};
    ghost use Rattle.hs_scheme.specs.Code.{coded_head};
    ghost use Rattle.std.specs.Coded.{coded_list};

    ghost Value = { List (Tree Head) };

    ghost coded = { coded_list (tree_code coded_head) };

    ghost use Rattle.hs_reduce.specs.Graph.{trees_of, AreGraphNodes};

    ghost view = { λ a. trees_of a.links.items [] a.nodes.items };

    ghost invariant = { λ a. AreGraphNodes a.links.items a.nodes.items };
}

/// The places of the node's arguments.
fn part(links: &[usize], node: Node) -> &[usize]
    requires ordered { node.from ≤ node.to }
    requires within { node.to ≤ length links.now }
    ensures { result.now ≡ places_of links.now node }
{
    &links[node.from..node.to]
}

impl Graph {
    /// No terms.
    pub(crate) fn new(alloc: Global) -> Graph
        ensures { result ≡ [] }
    {
        Graph {
            nodes: Vec::new(alloc),
            links: Vec::new(alloc),
        }
    }

    /// The head of the term at this place.
    pub(crate) fn head(&self, place: usize) -> Head
        requires { place < length self.now }
        ensures { result ≡ head_of (term_at self.now place) }
    {
        self.nodes[place].head
    }

    /// The places of the arguments of the term at this place.
    pub(crate) fn arguments(&self, place: usize) -> &[usize]
        requires { place < length self.now }
        ensures { NamesTerms self.now result.now (arguments_of (term_at self.now place)) }
    {
        let node = self.nodes[place];
        part(self.links.as_slice(), node)
    }

    /// Adds the term with this head and the terms at these places as its arguments, and answers its
    /// place.
    pub(crate) fn add(&mut self, head: Head, args: &[usize]) -> Result<usize, OutOfMemory>
        requires { All (λ i. i < length self.old) args.now }
        ensures { IfOk result (λ place. AddsTerm self.old self.new place
            (node head (forest (terms_at self.old args.now)))) }
    {
        let from = self.links.len();
        self.links.extend_from_slice(args)?;
        let to = self.links.len();
        let place = self.nodes.len();
        self.nodes.push(Node { head, from, to })?;
        Ok(place)
    }
}
