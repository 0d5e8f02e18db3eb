//! Unions that are known.

ghost use Rattle.std.specs.Prelude.{◌≡◌, ℕ, [], IfSome};
ghost use Rattle.hs_types.specs.declared.unions.Operands.{Operands as AnyOperands};
ghost use Rattle.hs_types.specs.Unions.{AreOperands, KeepsUnion, KnowsUnion, KnowsMore};

use hs_scheme::OutOfMemory;
use std::alloc::Global;

/// So many places the table has when the first union is kept.
const FEWEST_PLACES: usize = 256;

/// So many places the table has at most, in 1 MiB.
const MOST_PLACES: usize = 65_536;

/// An odd number whose multiples differ in their upper bits: 2^64 by the golden ratio (Knuth, "The Art of
/// Computer Programming", volume 3, 1973).
const MULTIPLIER: u64 = 0x9e37_79b9_7f4a_7c15;

/// Two numbers, the smaller first.
#[derive(Clone, Copy, PartialEq, Eq)]
pub(crate) struct Operands {
    first: u32,
    second: u32,
}

/// Two numbers and that of their union.
#[derive(Clone, Copy)]
pub(crate) struct Kept {
    operands: Operands,
    union: u32,
}

fn ordered(a: u32, b: u32) -> Operands
    ensures { AreOperands result a b }
{
    if a <= b {
        Operands {
            first: a,
            second: b,
        }
    } else {
        Operands {
            first: b,
            second: a,
        }
    }
}

/// Where the union of the two stands among so many places, a power of two: with twice as many at the
/// same place or so many behind it.
fn place_of_operands(operands: Operands, places: usize) -> usize {
    let both = operands.first as u64 | (operands.second as u64) << 32;
    (both.wrapping_mul(MULTIPLIER) >> 40) as usize & places.wrapping_sub(1)
}

/// The unions of pairs of numbers that were kept last: at each place one of those that belong there.
#[derive(Drop)]
pub(crate) struct Unions {
    known: Vec<Option<Kept>>,
    /// How many were kept since the table grew.
    count: usize,
}

impl Unions {
    /// None is known. Takes no memory.
    pub(crate) fn new(alloc: Global) -> Unions
        ensures { result.known.items ≡ [] }
    {
        Unions {
            known: Vec::new(alloc),
            count: 0,
        }
    }

    /// The union of a and b, where it is known. Constant time.
    pub(crate) fn find(&self, a: u32, b: u32) -> Option<u32>
        ensures { IfSome result (λ union. KnowsUnion self.now.known.items a b union) }
    {
        let operands = ordered(a, b);
        let place = place_of_operands(operands, self.known.len());
        let kept = (*self.known.get(place)?)?;
        if kept.operands == operands {
            Some(kept.union)
        } else {
            None
        }
    }

    /// Doubles the table where a quarter as many unions were kept as it has places. What is known then
    /// stands at both of the places where it may belong.
    fn make_room(&mut self) -> Result<(), OutOfMemory>
        ensures { (p : AnyOperands) (u : ℕ) → KeepsUnion self.new.known.items p u
            → KeepsUnion self.old.known.items p u }
    {
        let places = self.known.len();
        if self.count < places / 4 || places >= MOST_PLACES {
            return Ok(());
        }
        if places == 0 {
            self.known.resize(FEWEST_PLACES, None)?;
        } else {
            self.known.extend_from_within(..)?;
        }
        self.count = 0;
        Ok(())
    }

    /// Keeps the union of a and b, in the place of one that stood at its place. Constant time on average.
    pub(crate) fn keep(&mut self, a: u32, b: u32, union: u32) -> Result<(), OutOfMemory>
        ensures { KnowsMore self.old.known.items self.new.known.items a b union }
    {
        self.make_room()?;
        let operands = ordered(a, b);
        let place = place_of_operands(operands, self.known.len());
        if place < self.known.len() {
            self.known[place] = Some(Kept { operands, union });
        }
        self.count = self.count.saturating_add(1);
        Ok(())
    }
}
