//! Sorts while they are sought, for what is said of a rule that has none.

use hs_scheme::OutOfMemory;
use std::alloc::Global;

/// The most sorts that one equation, or one search through a sort, looks at.
const MOST_LOOKS: usize = 1_000_000;

/// The most steps of all searches together. Behind them all ends as where memory is refused.
const MOST_IN_ALL: u64 = 50_000_000;

/// What is known of a sort, by the numbers of sorts.
#[derive(Clone, Copy)]
pub(crate) enum Shape {
    /// Nothing yet.
    Open,
    /// It is the sort with this number.
    Same(u32),
    /// That of trees.
    Base,
    /// From the first to the second.
    Arrow(u32, u32),
}

/// Sorts by number, and what was changed since the last equation was begun.
#[derive(Drop)]
pub(crate) struct Shapes {
    shapes: Vec<Shape>,
    changed: Vec<(u32, Shape)>,
    /// For each sort the search that came to it last.
    visits: Vec<u32>,
    /// The number of the present search.
    search: u32,
    /// How many steps all searches took.
    steps: u64,
    /// Whether the last equation that failed asked for a sort that stands within itself.
    is_circular: bool,
}

impl Shapes {
    /// No sorts.
    pub(crate) fn new(alloc: Global) -> Shapes {
        Shapes {
            shapes: Vec::new(alloc),
            changed: Vec::new(alloc),
            visits: Vec::new(alloc),
            search: 0,
            steps: 0,
            is_circular: false,
        }
    }

    /// The number of a further sort.
    pub(crate) fn add(&mut self, shape: Shape) -> Result<u32, OutOfMemory> {
        let Ok(number) = u32::try_from(self.shapes.len()) else {
            return Err(OutOfMemory);
        };
        self.visits.push(0)?;
        self.shapes.push(shape)?;
        Ok(number)
    }

    /// What is known of a sort.
    pub(crate) fn shape(&self, number: u32) -> Shape {
        match self.shapes.get(number as usize) {
            Some(shape) => *shape,
            None => Shape::Base,
        }
    }

    /// The number under which a sort is known.
    pub(crate) fn known(&self, number: u32) -> u32 {
        let mut at = number;
        for _ in 0..self.shapes.len() {
            match self.shape(at) {
                Shape::Same(next) => at = next,
                _ => return at,
            }
        }
        at
    }

    /// Says that a sort is the other one.
    fn link(&mut self, number: u32, other: u32) -> Result<(), OutOfMemory> {
        let before = self.shape(number);
        self.changed.push((number, before))?;
        if let Some(shape) = self.shapes.get_mut(number as usize) {
            *shape = Shape::Same(other);
        }
        Ok(())
    }

    /// Takes back what was changed since the last equation was begun.
    fn take_back(&mut self) {
        for (number, before) in self.changed.iter().rev() {
            if let Some(shape) = self.shapes.get_mut(*number as usize) {
                *shape = *before;
            }
        }
        self.changed.clear();
    }

    /// Whether the present search comes to a sort for the first time.
    fn visit(&mut self, number: u32) -> Result<bool, OutOfMemory> {
        self.steps = self.steps.saturating_add(1);
        if self.steps > MOST_IN_ALL {
            return Err(OutOfMemory);
        }
        match self.visits.get_mut(number as usize) {
            Some(visit) if *visit != self.search => {
                *visit = self.search;
                Ok(true)
            }
            _ => Ok(false),
        }
    }

    /// Whether a sort stands in another.
    fn stands_in(&mut self, alloc: Global, number: u32, other: u32) -> Result<bool, OutOfMemory> {
        self.search = self.search.saturating_add(1);
        let mut left = Vec::new(alloc);
        left.push(other)?;
        for _ in 0..MOST_LOOKS {
            let Some(next) = left.pop() else {
                return Ok(false);
            };
            let at = self.known(next);
            if at == number {
                return Ok(true);
            }
            if self.visit(at)? {
                if let Shape::Arrow(from, to) = self.shape(at) {
                    left.push(from)?;
                    left.push(to)?;
                }
            }
        }
        Ok(false)
    }

    /// Makes a sort of which nothing is known the other one, where it doesn't stand in that.
    fn bind(&mut self, alloc: Global, open: u32, other: u32) -> Result<bool, OutOfMemory> {
        if self.stands_in(alloc, open, other)? {
            self.is_circular = true;
            return Ok(false);
        }
        self.link(open, other)?;
        Ok(true)
    }

    /// Makes two sorts one, as far as it goes without their parts, which are left to do.
    fn meet(
        &mut self,
        alloc: Global,
        first: u32,
        second: u32,
        left: &mut Vec<(u32, u32)>,
    ) -> Result<bool, OutOfMemory> {
        let (first, second) = (self.known(first), self.known(second));
        if first == second {
            return Ok(true);
        }
        match (self.shape(first), self.shape(second)) {
            (Shape::Open, _) => self.bind(alloc, first, second),
            (_, Shape::Open) => self.bind(alloc, second, first),
            (Shape::Base, Shape::Base) => Ok(true),
            (Shape::Arrow(a, b), Shape::Arrow(c, d)) => {
                self.link(first, second)?;
                left.push((b, d))?;
                left.push((a, c))?;
                Ok(true)
            }
            _ => Ok(false),
        }
    }

    /// Makes two sorts one, and answers whether that goes; else all is as it was.
    pub(crate) fn equate(
        &mut self,
        alloc: Global,
        first: u32,
        second: u32,
    ) -> Result<bool, OutOfMemory> {
        self.changed.clear();
        self.is_circular = false;
        let mut left = Vec::new(alloc);
        left.push((first, second))?;
        for _ in 0..MOST_LOOKS {
            let Some((a, b)) = left.pop() else {
                return Ok(true);
            };
            if !self.meet(alloc, a, b, &mut left)? {
                self.take_back();
                return Ok(false);
            }
        }
        Ok(true)
    }

    /// Whether the last equation that failed asked for a sort that stands within itself.
    pub(crate) fn is_circular(&self) -> bool {
        self.is_circular
    }

    /// The size of a sort: 1, and for each argument 1 and its size; the most that is counted is
    /// 1,000,000. A sort of which nothing is known is taken as that of trees.
    pub(crate) fn size(&self, alloc: Global, number: u32) -> Result<u64, OutOfMemory> {
        let mut left = Vec::new(alloc);
        left.push(number)?;
        let mut size = 0;
        for _ in 0..MOST_LOOKS {
            let Some(next) = left.pop() else {
                return Ok(size);
            };
            size = size.saturating_add(1);
            if let Shape::Arrow(from, to) = self.shape(self.known(next)) {
                left.push(to)?;
                left.push(from)?;
            }
        }
        Ok(size)
    }

    /// How many arguments a sort has, at most 1,000,000 of them.
    pub(crate) fn arguments(&self, number: u32) -> u64 {
        let mut rest = number;
        let mut count = 0;
        for _ in 0..MOST_LOOKS {
            match self.shape(self.known(rest)) {
                Shape::Arrow(_, to) => rest = to,
                _ => return count,
            }
            count = count.saturating_add(1);
        }
        count
    }

    /// Puts a sort at the end of a text, in parentheses where it is an arrow and `is_inner`. A sort of
    /// which nothing is known is shown as that of trees. Of one that is deeper than `depth` dots are shown.
    pub(crate) fn push(
        &self,
        number: u32,
        is_inner: bool,
        depth: u32,
        text: &mut Vec<u8>,
    ) -> Result<(), OutOfMemory> {
        let Shape::Arrow(from, to) = self.shape(self.known(number)) else {
            text.extend_from_slice(b"o")?;
            return Ok(());
        };
        if depth == 0 {
            text.extend_from_slice(b"..")?;
            return Ok(());
        }
        if is_inner {
            text.extend_from_slice(b"(")?;
        }
        self.push(from, true, depth - 1, text)?;
        text.extend_from_slice(b" -> ")?;
        self.push(to, false, depth - 1, text)?;
        if is_inner {
            text.extend_from_slice(b")")?;
        }
        Ok(())
    }
}
