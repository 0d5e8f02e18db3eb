//! Unknown sorts as shared nodes, and unification over them.

ghost use Rattle.std.specs.Prelude.{◌≡◌, ◌+◌, ◌++◌, ◌∷◌, [], ◌<◌, ◌≤◌, ◌^◌};
ghost use Rattle.std.specs.Prelude.{IfOk, length, replicate, slice_get, slice_set, Some, min, max};
ghost use Rattle.hs_sorts.specs.declared.store.Shape.TheVariants.{Open};
ghost use Rattle.hs_sorts.specs.declared.store.Node.TheVariants.{Root, Link};
ghost use Rattle.hs_sorts.specs.Nodes.{Valuation, IsValuationOf, IsStore, ShapeInRange, NodeInRange, IsSameStore, FlatBelow, IsFlat, AreRoots};
ghost use Rattle.hs_sorts.specs.Nodes.{linked, with_arrow, IsRootOf, IsMerge, JoinsOrRefuses, IsEquation};
ghost use Rattle.hs_sorts.specs.Cells.{node_in};

use hs_scheme::OutOfMemory;
use std::alloc::Global;
use std::marker::Model;

/// What is known of a sort: nothing, that it is `o`, or that it takes an argument. The numbers are
/// those of the nodes of the argument and of the rest.
#[derive(Clone, Copy, Drop)]
pub(crate) enum Shape {
    Open,
    Base,
    Arrow(u32, u32),
}

/// A node stands for a sort: either it says what is known of it, or it has the sort of another
/// node, which has a smaller number.
#[derive(Clone, Copy, Drop)]
pub(crate) enum Node {
    Root(Shape),
    Link(u32),
}

/// How a node is kept: in 12 bytes, where a `Node` has 16.
#[derive(Clone, Copy, Drop)]
enum Cell {
    Open,
    Base,
    Arrow(u32, u32),
    Link(u32),
}

impl Cell {
    /// How this node is kept.
    fn of(node: Node) -> Cell
        ensures { node_in result ≡ node }
    {
        match node {
            Node::Root(Shape::Open) => Cell::Open,
            Node::Root(Shape::Base) => Cell::Base,
            Node::Root(Shape::Arrow(argument, rest)) => Cell::Arrow(argument, rest),
            Node::Link(up) => Cell::Link(up),
        }
    }

    /// The node that is kept so.
    fn node(self) -> Node
        ensures { result ≡ node_in self }
    {
        match self {
            Cell::Open => Node::Root(Shape::Open),
            Cell::Base => Node::Root(Shape::Base),
            Cell::Arrow(argument, rest) => Node::Root(Shape::Arrow(argument, rest)),
            Cell::Link(up) => Node::Link(up),
        }
    }
}

/// Nodes by number, counted from 0, of which there are at most 2^32.
#[derive(Drop)]
pub(crate) struct Store {
    cells: Vec<Cell>,
}

impl Model for Store {
    ghost use Rattle.std.specs.Prelude.{List};
    ghost use Rattle.hs_sorts.specs.declared.store.Node.{Node};
    ghost use Rattle.hs_sorts.specs.Nodes.{IsStore};
    ghost use Rattle.hs_sorts.specs.Cells.{nodes_in};

    ghost Value = { List Node };

    ghost view = { λ s. nodes_in s.cells.items };

    ghost invariant = { λ s. IsStore (nodes_in s.cells.items) };
}

impl Store {
    /// A store without nodes. Takes no memory.
    pub(crate) fn new(alloc: Global) -> Store
        ensures { result ≡ [] }
    {
        Store {
            cells: Vec::new(alloc),
        }
    }

    /// The number of nodes.
    pub(crate) fn len(&self) -> usize
        ensures len { result ≡ length self.now }
        ensures store { IsStore self.now }
    {
        self.cells.len()
    }

    /// A node.
    pub(crate) fn node_at(&self, number: u32) -> Node
        requires { number < length self.now }
        ensures node { slice_get self.now number ≡ Some result }
        ensures store { IsStore self.now }
    {
        self.cells[number as usize].node()
    }

    /// Puts a node in the place of another.
    fn put(&mut self, number: u32, node: Node)
        requires within { number < length self.old }
        requires in_range { NodeInRange (length self.old) number node }
        ensures { self.new ≡ slice_set self.old number node }
    {
        self.cells[number as usize] = Cell::of(node);
    }

    /// Adds a node, and gives its number. More than 2^32 nodes are want of memory.
    pub(crate) fn add(&mut self, shape: Shape) -> Result<u32, OutOfMemory>
        requires { ShapeInRange (length self.old) shape }
        ensures added { IfOk result (λ node.
            (node ≡ length self.old) × (self.new ≡ self.old ++ Root shape ∷ [])) }
        ensures before { IfOk result (λ _. IsStore self.old) }
        ensures few { IfOk result (λ _. length self.old < 2 ^ 32) }
    {
        let Ok(node) = u32::try_from(self.cells.len()) else {
            return Err(OutOfMemory);
        };
        self.cells.push(Cell::of(Node::Root(shape)))?;
        Ok(node)
    }

    /// Adds nodes of the same shape, and gives the number of the first.
    pub(crate) fn add_all(&mut self, count: u32, shape: Shape) -> Result<u32, OutOfMemory>
        requires { ShapeInRange (length self.old) shape }
        ensures added { IfOk result (λ first.
            (first ≡ length self.old) × (self.new ≡ self.old ++ replicate count (Root shape))) }
        ensures before { IfOk result (λ _. IsStore self.old) }
        ensures few { IfOk result (λ _. length self.new ≤ 2 ^ 32) }
    {
        let Ok(first) = u32::try_from(self.cells.len()) else {
            return Err(OutOfMemory);
        };
        for _added in 0..count {
            self.add(shape)?;
        }
        Ok(first)
    }

    /// Makes an open root the arrow from this argument to a new open node, whose number it gives.
    pub(crate) fn make_arrow(&mut self, root: u32, argument: u32) -> Result<u32, OutOfMemory>
        requires root { slice_get self.old root ≡ Some (Root Open) }
        requires argument { argument < length self.old }
        ensures arrow { IfOk result (λ rest.
            (rest ≡ length self.old) × (self.new ≡ with_arrow self.old root argument)) }
        ensures before { IfOk result (λ _. IsStore self.old) }
        ensures few { IfOk result (λ _. length self.old < 2 ^ 32) }
    {
        let rest = self.add(Shape::Open)?;
        self.put(root, Node::Root(Shape::Arrow(argument, rest)));
        Ok(rest)
    }

    /// Turns the link from `at` to `up` to where the link from `up` leads, if there is one.
    fn shorten(&mut self, at: u32, up: u32)
        requires link { slice_get self.old at ≡ Some (Link up) }
        requires within { up < length self.old }
        ensures same { IsSameStore self.old self.new }
        ensures flat { FlatBelow at self.old → FlatBelow (at + 1) self.new }
    {
        if let Node::Link(top) = self.node_at(up) {
            self.put(at, Node::Link(top));
        }
    }

    /// Turns each link to the node at the end of the links from it. Links lead to smaller numbers, so
    /// that one pass does: linear in the number of nodes.
    pub(crate) fn flatten(&mut self)
        ensures same { IsSameStore self.old self.new }
        ensures flat { IsFlat self.new }
    {
        for node in 0..self.len() {
            if let Node::Link(up) = self.node_at(node as u32) {
                self.shorten(node as u32, up);
            }
        }
    }

    /// The node at the end of the links from this one, and what is known of its sort. Each link on
    /// the way is turned to the one after the next (path splitting).
    pub(crate) fn find(&mut self, node: u32) -> (u32, Shape)
        requires { node < length self.old }
        ensures { IsRootOf self.old self.new node result.0 result.1 }
    {
        let mut at = node;
        loop {
            match self.node_at(at) {
                Node::Root(shape) => return (at, shape),
                Node::Link(up) => {
                    self.shorten(at, up);
                    at = up;
                }
            }
        }
    }

    /// Makes two roots one: the greater number gets a link to the smaller, which gets the shape.
    fn link(&mut self, a: u32, b: u32, shape: Shape)
        requires roots { AreRoots self.old a b }
        requires in_range { ShapeInRange (length self.old) shape }
        ensures { self.new ≡ linked self.old (min a b) (max a b) shape }
    {
        let first = a.min(b);
        let second = a.max(b);
        self.put(first, Node::Root(shape));
        self.put(second, Node::Link(first));
    }

    /// Makes two nodes one, where no more than the pairs are to be one after it. `false` where the
    /// two can't be one.
    fn join(&mut self, pairs: &mut Vec<(u32, u32)>, a: u32, b: u32) -> Result<bool, OutOfMemory>
        requires a { a < length self.old }
        requires b { b < length self.old }
        ensures { IfOk result (λ yes.
            JoinsOrRefuses a b self.old self.new pairs.old.items pairs.new.items yes) }
    {
        let (a, left) = self.find(a);
        let (b, right) = self.find(b);
        if a == b {
            return Ok(true);
        }
        let Some(shape) = merged(pairs, left, right)? else {
            return Ok(false);
        };
        self.link(a, b, shape);
        Ok(true)
    }

    /// The node that this one has a link to, or the node itself. Takes no memory.
    fn above(&self, node: u32) -> u32
        requires { node < length self.now }
        ensures { (v : Valuation) → IsValuationOf v self.now → v node ≡ v result }
    {
        match self.node_at(node) {
            Node::Root(_shape) => node,
            Node::Link(up) => up,
        }
    }

    /// Makes two nodes one, and whatever nodes then have to be one. `false` where no sorts respect
    /// that. Almost linear in the number of nodes that become one.
    pub(crate) fn equate(&mut self, alloc: Global, a: u32, b: u32) -> Result<bool, OutOfMemory>
        requires a { a < length self.old }
        requires b { b < length self.old }
        ensures { IfOk result (λ yes. IsEquation a b self.old self.new yes) }
    {
        // Most nodes that are made one are one already, and most links lead to a root.
        let left = self.above(a);
        let right = self.above(b);
        if left == right {
            return Ok(true);
        }
        let (first, _) = self.find(a);
        let (second, _) = self.find(b);
        if first == second {
            return Ok(true);
        }
        self.unify(alloc, first, second)
    }

    /// The same where it isn't known that they are one.
    fn unify(&mut self, alloc: Global, a: u32, b: u32) -> Result<bool, OutOfMemory>
        requires a { a < length self.old }
        requires b { b < length self.old }
        ensures { IfOk result (λ yes. IsEquation a b self.old self.new yes) }
    {
        let mut pairs = Vec::new(alloc);
        if !self.join(&mut pairs, a, b)? {
            return Ok(false);
        }
        while let Some((a, b)) = pairs.pop() {
            if !self.join(&mut pairs, a, b)? {
                return Ok(false);
            }
        }
        Ok(true)
    }
}

/// The shape of the sorts that have both shapes, where there are any. Their parts have to be one,
/// and are added to the pairs.
fn merged(
    pairs: &mut Vec<(u32, u32)>,
    left: Shape,
    right: Shape,
) -> Result<Option<Shape>, OutOfMemory>
    ensures { IfOk result (λ shape. IsMerge left right pairs.old.items pairs.new.items shape) }
{
    match (left, right) {
        (Shape::Open, shape) => Ok(Some(shape)),
        (shape, Shape::Open) => Ok(Some(shape)),
        (Shape::Base, Shape::Base) => Ok(Some(Shape::Base)),
        (Shape::Arrow(a, b), Shape::Arrow(c, d)) => {
            pairs.push((a, c))?;
            pairs.push((b, d))?;
            Ok(Some(left))
        }
        _ => Ok(None),
    }
}
