//! The top call.

ghost use Rattle.std.specs.Prelude.{◌≡◌, ◌≢◌, ◌≤◌, ℕ, List, Option, map, true, Ok, Err, Some, None, IfOk, OnOk, MatchResult};
ghost use Rattle.hs_scheme.specs.acceptance.Run.{Accepts};
ghost use Rattle.hs_front.specs.Line.{bytes_of};
ghost use Rattle.hs_front.specs.Outside.{SourceRun, source_run, sink_run, IsUntouched, IsReadFromFront, IsCalm, KeepsSource};
ghost use Rattle.hs_front.specs.Files.{IsAccepted};
ghost use Rattle.hs_front.specs.Yields.{Yields};
ghost use Rattle.hs_verdict.specs.Premises.{HasClosedFlow};
ghost use Rattle.hs_cert.specs.Certificate.{AreNames};
ghost use Rattle.hs_check.specs.Words.{FilePair, files_in, named};
ghost use Rattle.hs_check.specs.declared.verified.Shown.TheVariants.{Compact};
ghost use Rattle.hs_check.specs.Fault.{verified_text};
ghost use Rattle.hs_check.specs.Outcome as outcome;

use crate::fault::{Fault, USAGE, line, line_behind, no_memory, status, table_fault};
use crate::files::{Files, files_in};
use crate::verified::{Shown, verified};
use hs_edge::{Sink, Source, write_all};
use hs_front::{
    Line, OUT_OF_MEMORY, Refusal, line_with_number, problem_of_file, read, refuse as refuse_front,
    status as status_of_refusal, tell,
};
use hs_reader::MAX_BYTES;
use hs_scheme::{OutOfMemory, Problem};
use std::alloc::Global;
use std::mem::forget;

/// The most bytes of a table: 256 MiB.
const MAX_TABLE: usize = 268_435_456;

/// The problem of the scheme in the file of this name.
fn problem_in<S: Source>(alloc: Global, name: &str, scheme: &mut S) -> Result<Problem, Refusal>
    ensures answer { MatchResult result
        (λ problem. Yields (S.reading scheme.new).given (Ok problem) × IsReadFromFront
        (source_run S.file S.left S.reading S.faults scheme.old scheme.new) true name.now)
        (λ refusal. (other : List ℕ) (table : SourceRun) → IsUntouched table
        → outcome.HasCause (Some (record { scheme = name.now; table = other }))
        (source_run S.file S.left S.reading S.faults scheme.old scheme.new) table (Fault.Front refusal)) }
    ensures calm { result ≢ Err Refusal.Source
        → IsCalm (source_run S.file S.left S.reading S.faults scheme.old scheme.new) }
    ensures keeps { KeepsSource (source_run S.file S.left S.reading S.faults scheme.old scheme.new) }
{
    match read(alloc, name, scheme, MAX_BYTES) {
        Ok(bytes) => problem_of_file(alloc, bytes.as_slice()),
        Err(refusal) => Err(refusal),
    }
}

/// What the table in the file of this name shows of the problem.
fn shown_in<T: Source>(
    alloc: Global,
    problem: &Problem,
    name: &str,
    table: &mut T,
) -> Result<Shown, Fault>
    requires states { AreNames problem.now.sorted.names.states }
    requires rules { AreNames problem.now.sorted.names.rules }
    requires flow { HasClosedFlow problem.now }
    ensures answer { (other : List ℕ) (scheme : SourceRun) → Yields scheme.after.given (Ok problem.now)
        → IsReadFromFront scheme true other
        → outcome.IsAnswerOfRun (Some (record { scheme = other; table = name.now })) scheme
        (source_run T.file T.left T.reading T.faults table.old table.new) result }
    ensures accepted { OnOk result
        (Accepts problem.now.sorted.scheme.rules problem.now.sorted.automaton.transitions) }
    ensures calm { result ≢ Err (Fault.Front Refusal.Source)
        → IsCalm (source_run T.file T.left T.reading T.faults table.old table.new) }
    ensures keeps { KeepsSource (source_run T.file T.left T.reading T.faults table.old table.new) }
{
    match read(alloc, name, table, MAX_TABLE) {
        Ok(bytes) => verified(alloc, problem, bytes.as_slice()),
        Err(refusal) => Err(table_fault(refusal)),
    }
}

/// What the two files come to: what a table shows that is verified, or why it isn't.
fn answer_of<S: Source, T: Source>(
    alloc: Global,
    files: Files<'_>,
    scheme: &mut S,
    table: &mut T,
) -> Result<Shown, Fault>
    ensures answer { outcome.IsAnswerOfRun (Some (named files.entry))
        (source_run S.file S.left S.reading S.faults scheme.old scheme.new)
        (source_run T.file T.left T.reading T.faults table.old table.new) result }
    ensures accepted { OnOk result (IsAccepted (S.reading scheme.new).given) }
    ensures calm { result ≢ Err (Fault.Front Refusal.Source)
        → IsCalm (source_run S.file S.left S.reading S.faults scheme.old scheme.new)
        × IsCalm (source_run T.file T.left T.reading T.faults table.old table.new) }
    ensures keeps_scheme { KeepsSource (source_run S.file S.left S.reading S.faults scheme.old scheme.new) }
    ensures keeps_table { KeepsSource (source_run T.file T.left T.reading T.faults table.old table.new) }
{
    match problem_in(alloc, files.scheme, scheme) {
        Ok(problem) => {
            let shown = shown_in(alloc, &problem, files.table, table);
            // A run ends here: a large problem isn't given back piece by piece.
            forget(problem);
            shown
        }
        Err(refusal) => Err(Fault::Front { refusal }),
    }
}

/// What the words come to.
fn answer<S: Source, T: Source>(
    alloc: Global,
    words: &[&str],
    scheme: &mut S,
    table: &mut T,
) -> Result<Shown, Fault>
    ensures answer { outcome.IsAnswerOfRun (files_in (map (λ word. word.now) words.now))
        (source_run S.file S.left S.reading S.faults scheme.old scheme.new)
        (source_run T.file T.left T.reading T.faults table.old table.new) result }
    ensures accepted { OnOk result (IsAccepted (S.reading scheme.new).given) }
    ensures calm { result ≢ Err (Fault.Front Refusal.Source)
        → IsCalm (source_run S.file S.left S.reading S.faults scheme.old scheme.new)
        × IsCalm (source_run T.file T.left T.reading T.faults table.old table.new) }
    ensures keeps_scheme { KeepsSource (source_run S.file S.left S.reading S.faults scheme.old scheme.new) }
    ensures keeps_table { KeepsSource (source_run T.file T.left T.reading T.faults table.old table.new) }
    ensures untouched { files_in (map (λ word. word.now) words.now) ≡ None
        → (scheme.new ≡ scheme.old) × (table.new ≡ table.old) }
{
    match files_in(words) {
        Some(files) => answer_of(alloc, files, scheme, table),
        None => Err(Fault::Front {
            refusal: Refusal::Usage,
        }),
    }
}

/// Writes the line of a fault, and answers the fault that was told: want of memory, where it is
/// refused while the line is formed.
fn refuse<E: Sink>(alloc: Global, err: &mut E, fault: Fault) -> Fault
    ensures tells { outcome.TellsFault fault (sink_run E.writing E.faults err.old err.new) result }
    ensures never_falls { E.faults err.old ≤ E.faults err.new }
{
    match line(alloc, &fault) {
        Ok(line) => {
            tell(err, line.bytes());
            fault
        }
        Err(_) => {
            tell(err, OUT_OF_MEMORY.as_bytes());
            no_memory()
        }
    }
}

/// How a run ends.
#[derive(Drop)]
pub(crate) enum Ending {
    /// The table is verified, which was reported; it shows this.
    Verified { shown: Shown },
    /// It is, and the report met a fault.
    CutOff { shown: Shown },
    /// It isn't verified.
    Failed { fault: Fault },
}

/// What is written of a certificate of acceptance that is verified.
fn certificate_lines(alloc: Global, entries: u64, void: u64) -> Result<Line, OutOfMemory>
    ensures { IfOk result (λ line. bytes_of line ≡ verified_text (Compact entries void)) }
{
    let first = line_with_number(alloc, b"verified\ncompact ", entries, b"")?;
    let second = line_with_number(alloc, b"void ", void, b"")?;
    line_behind(alloc, first.bytes(), second.bytes())
}

/// What is written of a table that is verified.
fn verified_lines(alloc: Global, shown: Shown) -> Result<Line, OutOfMemory>
    ensures { IfOk result (λ line. bytes_of line ≡ verified_text shown) }
{
    match shown {
        Shown::Full { count } => line_with_number(alloc, b"verified\ninstances ", count, b""),
        Shown::Compact { entries, void } => certificate_lines(alloc, entries, void),
    }
}

/// Reports that a table is verified.
fn reported<O: Sink, E: Sink>(alloc: Global, shown: Shown, out: &mut O, err: &mut E) -> Ending
    ensures ends { (files : Option FilePair) (scheme table : SourceRun)
        → outcome.IsAnswerOfRun files scheme table (Ok shown)
        → outcome.Ends files scheme table (sink_run O.writing O.faults out.old out.new)
        (sink_run E.writing E.faults err.old err.new) result }
    ensures of_out { O.faults out.old ≤ O.faults out.new }
    ensures of_err { E.faults err.old ≤ E.faults err.new }
{
    match verified_lines(alloc, shown) {
        Ok(lines) => match write_all(out, lines.bytes()) {
            Ok(()) => Ending::Verified { shown },
            Err(_) => {
                let _ = refuse_front(alloc, err, USAGE, Refusal::Sink);
                Ending::CutOff { shown }
            }
        },
        Err(_) => {
            tell(err, OUT_OF_MEMORY.as_bytes());
            Ending::Failed { fault: no_memory() }
        }
    }
}

/// The run, up to its exit status.
fn end<S: Source, T: Source, O: Sink, E: Sink>(
    alloc: Global,
    words: &[&str],
    scheme: &mut S,
    table: &mut T,
    out: &mut O,
    err: &mut E,
) -> Ending
    ensures ends { outcome.Ends (files_in (map (λ word. word.now) words.now))
        (source_run S.file S.left S.reading S.faults scheme.old scheme.new)
        (source_run T.file T.left T.reading T.faults table.old table.new)
        (sink_run O.writing O.faults out.old out.new) (sink_run E.writing E.faults err.old err.new) result }
    ensures accepted { (shown : Shown) → result ≡ Ending.Verified shown
        → IsAccepted (S.reading scheme.new).given }
    ensures calm { result ≢ Ending.Failed (Fault.Front Refusal.Source)
        → IsCalm (source_run S.file S.left S.reading S.faults scheme.old scheme.new)
        × IsCalm (source_run T.file T.left T.reading T.faults table.old table.new) }
    ensures keeps { outcome.Keeps (source_run S.file S.left S.reading S.faults scheme.old scheme.new)
        (source_run T.file T.left T.reading T.faults table.old table.new)
        (sink_run O.writing O.faults out.old out.new) (sink_run E.writing E.faults err.old err.new) }
    ensures untouched { files_in (map (λ word. word.now) words.now) ≡ None
        → (scheme.new ≡ scheme.old) × (table.new ≡ table.old) }
{
    match answer(alloc, words, scheme, table) {
        Ok(shown) => reported(alloc, shown, out, err),
        Err(fault) => Ending::Failed {
            fault: refuse(alloc, err, fault),
        },
    }
}

/// The exit status of an ending.
fn exit_status(ending: &Ending) -> u8
    ensures { result ≡ outcome.status_at ending.now }
{
    match ending {
        Ending::Verified { shown: _ } => 0,
        Ending::CutOff { shown: _ } => status_of_refusal(&Refusal::Sink),
        Ending::Failed { fault } => status(fault),
    }
}

/// Runs the program: reads the file of a scheme and a file with a table of it, and writes to `out`
/// that the table is verified, with the number of its instances, or of its entries and void
/// environments, or a line to `err` that says why it isn't, and answers the exit status.
///
/// `words` has the program's name first, which isn't looked at, and behind it the names of the two
/// files, of which none begins with `-`; with other words nothing is started. Each source is started
/// once at most, with its name, `table` only where `scheme` was read to its end and its file has a
/// problem; nothing is read behind an end. What is written is formed before the first write. A fault
/// of `err` changes no status.
///
/// The two files are read in time and memory in proportion to them and to the points and pairs of the
/// flow, on average; the check takes what `hs_checker::check`
/// or `hs_certificate_checker::check_certificate` says.
pub fn check_run<S: Source, T: Source, O: Sink, E: Sink>(
    alloc: Global,
    words: &[&str],
    scheme: &mut S,
    table: &mut T,
    out: &mut O,
    err: &mut E,
) -> u8
    ensures verified { result ≡ 0 → outcome.OfBothFiles (files_in (map (λ word. word.now) words.now))
        (source_run S.file S.left S.reading S.faults scheme.old scheme.new)
        (source_run T.file T.left T.reading T.faults table.old table.new) outcome.IsVerified }
    // All that is claimed of a run, from which the clause above follows.
    ensures rows { outcome.Rows (files_in (map (λ word. word.now) words.now))
        (source_run S.file S.left S.reading S.faults scheme.old scheme.new)
        (source_run T.file T.left T.reading T.faults table.old table.new)
        (sink_run O.writing O.faults out.old out.new) (sink_run E.writing E.faults err.old err.new) result }
    ensures keeps { outcome.Keeps (source_run S.file S.left S.reading S.faults scheme.old scheme.new)
        (source_run T.file T.left T.reading T.faults table.old table.new)
        (sink_run O.writing O.faults out.old out.new) (sink_run E.writing E.faults err.old err.new) }
    ensures untouched { files_in (map (λ word. word.now) words.now) ≡ None
        → (scheme.new ≡ scheme.old) × (table.new ≡ table.old) }
{
    exit_status(&end(alloc, words, scheme, table, out, err))
}
