//! A run of `hs_app::run` between a source and two sinks in memory.

ghost use Rattle.std.specs.Prelude.{◌≡◌, ◌<◌, All};

use crate::seeing::see;
use hs_app::run;
use hs_edge::{MemSink, MemSource, OutOfMemory};
use hs_passes::Pass;
use hs_workers::{Gate, Open};
use std::alloc::Global;
use std::process::Abort;
use std::sync::Wait;
use std::test::Fail;
use std::thread::Threads;

/// A file whose tree is accepted.
pub(crate) const ACCEPTED: &str = "%BEGING\nS -> F c. F x -> br x (a (F (b x))).\n%ENDG\n%BEGINA\n\
     q0 br -> q0 q0. q0 a -> q0. q0 b -> q1. q1 b -> q1. q0 c -> . q1 c -> .\n%ENDA\n";

/// A file whose tree is rejected, and its report.
pub(crate) const REJECTED: &str = "%BEGING\nS -> F c. F x -> br x (a (F (b x))).\n%ENDG\n%BEGINA\n\
     q0 br -> q0 q0. q0 a -> q0. q0 b -> q1. q0 c -> . q1 c -> .\n%ENDA\n";

pub(crate) const REPORT: &[u8] =
    b"rejected\nentries 18\npath br/2 a/1 br/2 a/1 br/1 b/1 b\nstate q1\n";

/// The words of a run on the file.
pub(crate) const WORDS: [&str; 2] = ["horsat", "f"];

/// The most bytes that a call of the source, of `out` and of `err` gives or takes, and the number of the
/// one call that fails, 0 where none does.
#[derive(Clone, Copy)]
pub(crate) struct Ways {
    pub(crate) source: (usize, u64),
    pub(crate) out: (usize, u64),
    pub(crate) err: (usize, u64),
}

/// Long pieces, and nothing fails.
pub(crate) const CALM: Ways = Ways {
    source: (4_096, 0),
    out: (4_096, 0),
    err: (4_096, 0),
};

/// What a run answers, and what it leaves on `out` and `err`.
pub(crate) type Ended<'a> = (u8, &'a [u8], &'a str);

/// What lies around a run.
#[derive(Drop)]
pub(crate) struct Outside {
    source: MemSource,
    out: MemSink,
    err: MemSink,
}

/// A sink that takes what the rows write.
fn sink_of(alloc: Global, way: (usize, u64)) -> Result<MemSink, OutOfMemory> {
    MemSink::new(alloc, 65_536, way.0.max(1), &[way.1])
}

/// The file `f` with these bytes, and two sinks.
pub(crate) fn outside_of(alloc: Global, bytes: &[u8], ways: Ways) -> Result<Outside, OutOfMemory> {
    Ok(Outside {
        source: MemSource::new(alloc, "f", bytes, ways.source.0.max(1), &[ways.source.1])?,
        out: sink_of(alloc, ways.out)?,
        err: sink_of(alloc, ways.err)?,
    })
}

/// Looks at the run with these passes and this gate.
pub(crate) fn see_run_with<R: Abort + Threads + Wait + Sync, G: Gate + Sync>(
    rt: &R,
    alloc: Global,
    outside: &mut Outside,
    words: &[&str],
    passes: Vec<Box<dyn Pass>>,
    gate: &G,
    expected: Ended,
)
    requires { All (λ p. taken p ≡ 0) passes.items }
{
    let status = run(
        rt,
        alloc,
        words,
        &mut outside.source,
        &mut outside.out,
        &mut outside.err,
        gate,
        passes,
    );
    let found = (status, outside.out.bytes(), outside.err.bytes());
    let (status, out, err) = expected;
    see(rt, found, (status, out, err.as_bytes()), err);
}

/// Looks at the run on the file.
pub(crate) fn see_run<R: Abort + Threads + Wait + Sync>(
    rt: &R,
    alloc: Global,
    bytes: &[u8],
    ways: Ways,
    words: &[&str],
    expected: Ended,
) -> Result<(), Fail> {
    let mut outside = outside_of(alloc, bytes, ways)?;
    see_run_with(
        rt,
        alloc,
        &mut outside,
        words,
        Vec::new(alloc),
        &Open,
        expected,
    );
    drop(outside);
    Ok(())
}
