//! `horsat FILE`: whether the automaton of a file accepts the value tree of its scheme.
#![tactic(auto)]

use hs_app::run_on;
use hs_edge::{FileSource, Sink, Source, StdSink};
use hs_front::NO_MEMORY;
use hs_passes::{DropUnreachable, DropUnused, FoldAliases, Pass, add};
use hs_scheme::OutOfMemory;
use std::alloc::Global;
use std::env::{self, Args};
use std::io;
use std::process::ExitCode;
use std::sync::Wait;
use std::thread::Threads;

/// The run on the words, with the passes of `--simplify` in their order.
fn run_with_passes<R: Threads + Wait + Sync, S: Source, O: Sink, E: Sink>(
    rt: &R,
    alloc: Global,
    words: io::Result<Args>,
    source: &mut S,
    out: &mut O,
    err: &mut E,
) -> Result<u8, OutOfMemory> {
    let mut passes: Vec<Box<dyn Pass>> = Vec::new(alloc);
    add(&mut passes, Box::new(alloc, FoldAliases::new())?)?;
    add(&mut passes, Box::new(alloc, DropUnreachable::new())?)?;
    add(&mut passes, Box::new(alloc, DropUnused::new())?)?;
    add(&mut passes, Box::new(alloc, DropUnreachable::new())?)?;
    Ok(run_on(rt, alloc, words, source, out, err, passes))
}

fn main(rt: HostRuntime) -> ExitCode {
    let status = run_with_passes(
        &rt,
        rt.alloc(),
        env::args(&rt),
        &mut FileSource::new(&rt),
        &mut StdSink::out(&rt),
        &mut StdSink::err(&rt),
    );
    ExitCode::from(status.unwrap_or(NO_MEMORY))
}
