//! `horsat_check FILE TABLE`: whether a table shows that the automaton of a file accepts the value tree
//! of its scheme.
#![tactic(auto)]

use hs_check::check_run_on;
use hs_edge::{FileSource, StdSink};
use std::env;
use std::process::ExitCode;

fn main(rt: HostRuntime) -> ExitCode {
    ExitCode::from(check_run_on(
        rt.alloc(),
        env::args(&rt),
        &mut FileSource::new(&rt),
        &mut FileSource::new(&rt),
        &mut StdSink::out(&rt),
        &mut StdSink::err(&rt),
    ))
}
