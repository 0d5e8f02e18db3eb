//! Runs with passes of the caller.

ghost use Rattle.std.specs.Prelude.{◌≡◌, All, IfOk};

use crate::running::{CALM, Ended, REJECTED, outside_of, see_run_with};
use hs_passes::{DropUnreachable, FoldAliases, Pass, add};
use hs_scheme::{OutOfMemory, Sorted};
use hs_workers::Open;
use std::alloc::Global;
use std::process::Abort;
use std::sync::Wait;
use std::test::Fail;
use std::thread::Threads;

/// A pass that changes nothing.
#[derive(Drop)]
struct Copying;

impl Pass for Copying {
    ghost taken = { λ _. 0 };

    ghost image = { λ _ s. s };

    fn apply(&mut self, alloc: Global, sorted: &Sorted) -> Result<Sorted, OutOfMemory> {
        sorted.copy(alloc)
    }

    fn tally(&self) -> u64 {
        0
    }
}

/// A pass that finds no memory.
#[derive(Drop)]
struct Refusing;

impl Pass for Refusing {
    ghost taken = { λ _. 0 };

    ghost image = { λ _ s. s };

    fn apply(&mut self, _alloc: Global, _sorted: &Sorted) -> Result<Sorted, OutOfMemory> {
        Err(OutOfMemory)
    }

    fn tally(&self) -> u64 {
        0
    }
}

/// Two passes.
fn both(
    alloc: Global,
    first: Box<dyn Pass>,
    second: Box<dyn Pass>,
) -> Result<Vec<Box<dyn Pass>>, OutOfMemory>
    requires first { taken first ≡ 0 }
    requires second { taken second ≡ 0 }
    ensures { IfOk result (λ passes. All (λ p. taken p ≡ 0) passes.items) }
{
    let mut passes: Vec<Box<dyn Pass>> = Vec::new(alloc);
    add(&mut passes, first)?;
    add(&mut passes, second)?;
    Ok(passes)
}

/// Looks at a run that simplifies the file by these passes.
fn see_simplified<R: Abort + Threads + Wait + Sync>(
    rt: &R,
    alloc: Global,
    text: &str,
    passes: Vec<Box<dyn Pass>>,
    expected: Ended,
) -> Result<(), Fail>
    requires { All (λ p. taken p ≡ 0) passes.items }
{
    let mut outside = outside_of(alloc, text.as_bytes(), CALM)?;
    let words = ["horsat", "--simplify", "f"];
    see_run_with(rt, alloc, &mut outside, &words, passes, &Open, expected);
    drop(outside);
    Ok(())
}

/// A rule that names another one, one that nothing reaches, and those of the file that is rejected.
const LONGER: &str =
    "%BEGING\nS -> H c. H x -> F x. F x -> br x (a (F (b x))). D -> b c.\n%ENDG\n%BEGINA\n\
     q0 br -> q0 q0. q0 a -> q0. q0 b -> q1. q0 c -> . q1 c -> .\n%ENDA\n";

const SMALLER: Ended = (
    1,
    b"rejected\nentries 18\npath br/2 a/1 br/2 a/1 br/1 b/1 b\nstate q1\nsimplified 3\n",
    "",
);

#[test]
fn the_weight_that_the_passes_take_off_is_told(rt: HostRuntime) -> Result<(), Fail> {
    let alloc = rt.alloc();
    let fold = Box::new(alloc, FoldAliases::new())?;
    let passes = both(alloc, fold, Box::new(alloc, DropUnreachable::new())?)?;
    see_simplified(&rt, alloc, LONGER, passes, SMALLER)
}

const AS_BEFORE: Ended = (
    1,
    b"rejected\nentries 18\npath br/2 a/1 br/2 a/1 br/1 b/1 b\nstate q1\nsimplified 0\n",
    "",
);

#[test]
fn passes_of_the_caller_may_change_nothing(rt: HostRuntime) -> Result<(), Fail> {
    let alloc = rt.alloc();
    let passes = both(alloc, Box::new(alloc, Copying)?, Box::new(alloc, Copying)?)?;
    see_simplified(&rt, alloc, REJECTED, passes, AS_BEFORE)
}

#[test]
fn a_pass_without_memory_ends_the_run(rt: HostRuntime) -> Result<(), Fail> {
    let alloc = rt.alloc();
    let fold = Box::new(alloc, FoldAliases::new())?;
    let passes = both(alloc, fold, Box::new(alloc, Refusing)?)?;
    see_simplified(&rt, alloc, LONGER, passes, (10, b"", "out of memory\n"))
}
