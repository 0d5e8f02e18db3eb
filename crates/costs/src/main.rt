//! Prints what parts of `horsat` come to and cost, for benchmarks. Without a word behind the program's
//! name: how many pairs the flow of the file on standard input has, or that there are more than
//! `MOST_PAIRS`, and how many entries its table has, formed by a plain loop over the calls that say what
//! follows, with how many conclusions they gave. With the word `flow` the flow alone; with `core` the
//! entries of a core with one worker in the place of the loop; with `turn` what the turn costs, see
//! `show_turn`.
#![tactic(auto)]

ghost use Rattle.std.specs.Prelude.{All};
ghost use Rattle.hs_flow.specs.Dependents.{HasDependents};
ghost use Rattle.hs_table.specs.Entries.{InShape};

mod forming;
mod reading;
mod turn;

use crate::forming::{core_entries, fill};
use crate::reading::{Fault, MOST_PAIRS, problem_of};
use crate::turn::show_turn;
use hs_edge::{FileSource, Sink, StdSink, write_all};
use hs_flow::Dependents;
use hs_rules::Replica;
use hs_scheme::{OutOfMemory, Problem};
use std::alloc::Global;
use std::env::{self, Args};
use std::io;
use std::mem::forget;
use std::process::ExitCode;

/// What is looked at.
#[derive(Clone, Copy)]
enum Part {
    Flow,
    Loop,
    Core,
    Turn,
}

/// What this word says.
fn part_named(word: &str) -> Option<Part> {
    match word {
        "flow" => Some(Part::Flow),
        "core" => Some(Part::Core),
        "turn" => Some(Part::Turn),
        _ => None,
    }
}

/// What the word behind the program's name says.
fn part_behind(words: &[String]) -> Option<Part> {
    match words.get(1) {
        None => Some(Part::Loop),
        Some(word) => part_named(word.as_str()),
    }
}

/// What the command line says.
fn part_of(alloc: Global, words: io::Result<Args>) -> Option<Part> {
    let words = words.ok()?.collect::<Vec<String>>(alloc).ok()?;
    part_behind(words.as_slice())
}

/// The line of the core's table.
fn core_line(
    alloc: Global,
    problem: &Problem,
    dependents: &Dependents,
) -> Result<String, OutOfMemory>
    requires { HasDependents problem.now.points problem.now.flow.pairs dependents.now }
{
    let entries = core_entries(alloc, problem, dependents)?;
    Ok(format!(in alloc; "{entries} entries\n")?)
}

/// The line of the table that the loop forms in a log.
fn filled_line(
    alloc: Global,
    problem: &Problem,
    dependents: &Dependents,
    replica: &mut Replica,
) -> Result<String, OutOfMemory>
    requires shape { All (InShape problem.now) replica.old.log }
    requires dependents { HasDependents problem.now.points problem.now.flow.pairs dependents.now }
{
    let conclusions = fill(alloc, problem, dependents, replica)?;
    let entries = replica.len();
    Ok(format!(in alloc; "{entries} entries, {conclusions} conclusions\n")?)
}

/// The line of the table that the loop forms in an empty log.
fn loop_line(
    alloc: Global,
    problem: &Problem,
    dependents: &Dependents,
) -> Result<String, OutOfMemory>
    requires { HasDependents problem.now.points problem.now.flow.pairs dependents.now }
{
    let mut replica = Replica::new(alloc);
    let line = filled_line(alloc, problem, dependents, &mut replica);
    // As after a core, nothing is given back.
    forget(replica);
    line
}

/// The line of the problem's table.
fn table_line(alloc: Global, problem: &Problem, part: Part) -> Result<String, OutOfMemory> {
    let dependents = Dependents::of(alloc, problem)?;
    let line = match part {
        Part::Core => core_line(alloc, problem, &dependents),
        _ => loop_line(alloc, problem, &dependents),
    };
    drop(dependents);
    line
}

/// The lines of the problem.
fn lines_with(alloc: Global, problem: &Problem, part: Part) -> Result<String, OutOfMemory> {
    let table = match part {
        Part::Flow => String::new(alloc),
        _ => table_line(alloc, problem, part)?,
    };
    let pairs = problem.flow.pairs.len();
    let heads = problem.flow.heads.len();
    Ok(format!(in alloc; "{pairs} flow pairs, {heads} head pairs\n{table}")?)
}

/// The lines that are printed, or `None` where there is no problem or not enough memory.
fn lines_of(alloc: Global, source: &mut FileSource, part: Part) -> Option<String> {
    match problem_of(alloc, source) {
        Ok(problem) => {
            let lines = lines_with(alloc, &problem, part);
            drop(problem);
            lines.ok()
        }
        Err(Fault::TooManyPairs) => format!(in alloc; "more than {MOST_PAIRS} pairs\n").ok(),
        Err(Fault::NoScheme) => None,
    }
}

/// Prints the lines of the file on standard input, and says whether there were any and all is written.
fn show_lines(alloc: Global, source: &mut FileSource, out: &mut StdSink, part: Part) -> bool {
    match lines_of(alloc, source, part) {
        Some(lines) => write_all(out, lines.as_bytes()).is_ok(),
        None => false,
    }
}

fn main(rt: HostRuntime) -> ExitCode {
    let shown = match part_of(rt.alloc(), env::args(&rt)) {
        None => false,
        Some(Part::Turn) => show_turn(&rt, rt.alloc()).is_ok(),
        Some(part) => show_lines(
            rt.alloc(),
            &mut FileSource::new(&rt),
            &mut StdSink::out(&rt),
            part,
        ),
    };
    ExitCode::from(if shown { 0 } else { 1 })
}
