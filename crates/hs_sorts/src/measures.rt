//! The occurs check, with the sizes of the sorts that the nodes stand for.

ghost use Rattle.std.specs.Prelude.{◌≡◌, ◌<◌, length, slice_get, Some, IfOk};
ghost use Rattle.hs_scheme.specs.sorting.Sorting.{SortTree, o, arrow};
ghost use Rattle.hs_sorts.specs.declared.store.Node.{Node};
ghost use Rattle.hs_sorts.specs.Nodes.{IsStore};
ghost use Rattle.hs_sorts.specs.declared.store.Node.TheVariants.{Root};
ghost use Rattle.hs_sorts.specs.declared.store.Shape.TheVariants.{Arrow};
ghost use Rattle.hs_sorts.specs.Measures as measures;
ghost use Rattle.hs_sorts.specs.Measures.{Describes, ChildrenBelow, IsMeasureIn, measures_in, IsMeasuringStep};

use crate::store::{Node, Shape};
use hs_scheme::OutOfMemory;
use std::marker::Model;

/// Sizes are counted to this number.
pub(crate) const COUNTED_SIZE: u16 = 1_001;

/// What is counted of a sort.
#[derive(Clone, Copy, Drop)]
pub(crate) struct Measure {
    /// The size, or 1,001 where it is greater.
    pub(crate) size: u16,
    /// The number of arguments.
    pub(crate) arity: u32,
    /// Whether all arguments are `o`.
    pub(crate) first_order: bool,
}

impl Measure {
    /// What stands for the measure of a node that isn't measured.
    fn unmeasured() -> Measure
        ensures { result ≡ measures.unmeasured }
    {
        Measure {
            size: 0,
            arity: 0,
            first_order: false,
        }
    }

    /// The measure of `o`.
    fn base() -> Measure
        ensures { Describes result o }
    {
        Measure {
            size: 1,
            arity: 0,
            first_order: true,
        }
    }

    /// The measure of the sort with this argument before those of the rest.
    fn arrow(argument: Measure, rest: Measure) -> Result<Measure, OutOfMemory>
        ensures { IfOk result (λ w. (a b : SortTree) → Describes argument a → Describes rest b
            → Describes w (arrow a b)) }
    {
        let Some(arity) = rest.arity.checked_add(1) else {
            return Err(OutOfMemory);
        };
        let parts = argument.size.saturating_add(rest.size);
        Ok(Measure {
            size: parts.saturating_add(1).min(COUNTED_SIZE),
            arity,
            first_order: argument.size == 1 && rest.first_order,
        })
    }
}

/// How far a node is: not yet come to, on the path, or measured. There are as many marks as nodes, and
/// the fields of a measure stand in the order in which a mark has 8 bytes.
#[derive(Clone, Copy, Drop)]
pub(crate) enum Mark {
    New,
    Entered,
    Measured {
        first_order: bool,
        size: u16,
        arity: u32,
    },
}

impl Mark {
    /// The mark of a node of this measure.
    pub(crate) fn measured(measure: Measure) -> Mark
        ensures { result ≡ measures.measured measure }
    {
        Mark::Measured {
            first_order: measure.first_order,
            size: measure.size,
            arity: measure.arity,
        }
    }

    /// The measure, where the node is measured.
    pub(crate) fn measure(self) -> Option<Measure>
        ensures { IsMeasureIn self result }
    {
        match self {
            Mark::Measured {
                first_order,
                size,
                arity,
            } => Some(Measure {
                size,
                arity,
                first_order,
            }),
            _ => None,
        }
    }
}

/// The measures of nodes, by number, as the marks of a walk that has measured them. Contracts see the
/// list of the measures.
#[derive(Drop)]
pub(crate) struct Measures {
    marks: Vec<Mark>,
}

impl Model for Measures {
    ghost use Rattle.std.specs.Prelude.{List};
    ghost use Rattle.hs_sorts.specs.declared.measures.Measure.{Measure};
    ghost use Rattle.hs_sorts.specs.Measures.{measures_in};

    ghost Value = { List Measure };

    ghost view = { λ s. measures_in s.marks.items };
}

impl Measures {
    /// The measures in these marks. Takes no memory.
    pub(crate) fn of(marks: Vec<Mark>) -> Measures
        ensures { result ≡ measures_in marks.items }
    {
        Measures { marks }
    }

    /// The measure of a node.
    pub(crate) fn at(&self, node: usize) -> Measure
        requires { node < length self.now }
        ensures { slice_get self.now node ≡ Some result }
    {
        self.marks[node].measure().unwrap_or(Measure::unmeasured())
    }
}

/// A node's measure, or a child that has to be measured first.
pub(crate) enum Step {
    Done(Measure),
    Child(u32),
}

/// What comes next at a node.
pub(crate) fn step_at(marks: &[Mark], node: Node) -> Result<Step, OutOfMemory>
    requires { ChildrenBelow (length marks.now) node }
    ensures { IfOk result (λ step. IsMeasuringStep marks.now node step) }
{
    match node {
        Node::Link(up) => match marks[up as usize].measure() {
            Some(measure) => Ok(Step::Done(measure)),
            None => Ok(Step::Child(up)),
        },
        Node::Root(shape) => step_at_root(marks, shape),
    }
}

/// The same where the node has no link.
fn step_at_root(marks: &[Mark], shape: Shape) -> Result<Step, OutOfMemory>
    requires { ChildrenBelow (length marks.now) (Root shape) }
    ensures { IfOk result (λ step. IsMeasuringStep marks.now (Root shape) step) }
{
    match shape {
        Shape::Open => Ok(Step::Done(Measure::base())),
        Shape::Base => Ok(Step::Done(Measure::base())),
        Shape::Arrow(argument, rest) => step_at_arrow(marks, argument, rest),
    }
}

/// The same at an arrow.
fn step_at_arrow(marks: &[Mark], argument: u32, rest: u32) -> Result<Step, OutOfMemory>
    requires argument { argument < length marks.now }
    requires rest { rest < length marks.now }
    ensures { IfOk result (λ step. IsMeasuringStep marks.now (Root (Arrow argument rest)) step) }
{
    let Some(first) = marks[argument as usize].measure() else {
        return Ok(Step::Child(argument));
    };
    let Some(second) = marks[rest as usize].measure() else {
        return Ok(Step::Child(rest));
    };
    let measure = Measure::arrow(first, second)?;
    Ok(Step::Done(measure))
}
