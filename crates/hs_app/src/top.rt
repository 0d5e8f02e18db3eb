//! The top call.

ghost use Rattle.std.specs.Prelude.{◌≡◌, ◌≢◌, ◌⊎◌, ◌≤◌, ◌^◌, [], map, Some, All};
ghost use Rattle.hs_words.specs.Words.{texts};
ghost use Rattle.hs_front.specs.Files.{IsAccepted, IsRejected};
ghost use Rattle.hs_front.specs.Outside.{source_run, sink_run, IsCalm, KeepsSource};
ghost use Rattle.hs_app.specs.Order.{read_file, ordered, ReadsNothing};
ghost use Rattle.hs_app.specs.Problems.{asked_of};
ghost use Rattle.hs_app.specs.Headline as headline;
ghost use Rattle.hs_app.specs.Outcome as outcome;
ghost use Rattle.hs_app.specs.OneReport as one;
ghost use Rattle.hs_app.specs.Verdict.{HasAnswer};
ghost use Rattle.hs_app.specs.Explaining.{IsExplanation, mentions_explain};
ghost use Rattle.hs_gen.specs.Cycle.{cycle_file_text};

use crate::explaining::{
    explain, explanation, refuse_and_explain, unread_explanation, words_explanation,
};
use crate::verdict::{Decided, Decision, decide};
use hs_edge::{Sink, Source, write_all};
use hs_front::{Refusal, read, refuse, status};
use hs_gen::cycle_file;
use hs_passes::Pass;
use hs_reader::MAX_BYTES;
use hs_words::{Settings, WordsFault, read_words};
use hs_workers::Gate;
use std::alloc::Global;
use std::sync::Wait;
use std::thread::Threads;

/// The name under which standard input is read.
const STANDARD_INPUT: &str = "-";

/// The line where the words are refused.
const USAGE: &str =
    "usage: horsat [--workers N] [--entries N] [--steps N] [--table] [--first] [--minimal] [--quick] \
     [--explain] [--simplify] [--gen K] [FILE]\n";

/// Reads the file of this name, and gives the verdict on it. What explains it becomes the text `told`.
fn verdict_on<R: Threads + Wait + Sync, S: Source, G: Gate + Sync>(
    rt: &R,
    alloc: Global,
    name: &str,
    settings: Settings,
    source: &mut S,
    passes: &mut Vec<Box<dyn Pass>>,
    gate: &G,
    told: &mut Vec<u8>,
) -> Result<Decided, Refusal>
    requires tallies { All (λ p. taken p ≡ 0) passes.old.items }
    requires untold { told.old.items ≡ [] }
    ensures explains { IsExplanation settings.explain (S.reading source.new).given result told.new.items }
    ensures answer { outcome.IsAnswerOfRun
        (Some (record {
          job = read_file name.now;
          asked = asked_of settings
              (map (λ p. image p) passes.old.items);
        }))
        (source_run S.file S.left S.reading S.faults source.old source.new) result }
    ensures calm { result ≢ Err Refusal.Source
        → IsCalm (source_run S.file S.left S.reading S.faults source.old source.new) }
    ensures keeps { KeepsSource (source_run S.file S.left S.reading S.faults source.old source.new) }
{
    match read(alloc, name, source, MAX_BYTES) {
        Ok(bytes) => {
            let decided = decide(rt, alloc, bytes.as_slice(), settings, passes, gate);
            *told = explanation(alloc, bytes.as_slice(), settings, &decided);
            decided
        }
        Err(refusal) => {
            *told = unread_explanation(alloc, name, settings.explain, &refusal);
            Err(refusal)
        }
    }
}

/// The verdict on the generated file of this number. What explains it becomes the text `told`.
fn verdict_on_cycle<R: Threads + Wait + Sync, G: Gate + Sync>(
    rt: &R,
    alloc: Global,
    k: u32,
    settings: Settings,
    passes: &mut Vec<Box<dyn Pass>>,
    gate: &G,
    told: &mut Vec<u8>,
) -> Result<Decided, Refusal>
    requires least { 1 ≤ k }
    requires most { k ≤ 300 }
    requires tallies { All (λ p. taken p ≡ 0) passes.old.items }
    requires untold { told.old.items ≡ [] }
    ensures explains { IsExplanation settings.explain (cycle_file_text k) result told.new.items }
    ensures answer { HasAnswer (asked_of settings (map (λ p. image p) passes.old.items)) result
        (cycle_file_text k) }
{
    match cycle_file(alloc, k) {
        Ok(bytes) => {
            let decided = decide(rt, alloc, bytes.as_slice(), settings, passes, gate);
            *told = explanation(alloc, bytes.as_slice(), settings, &decided);
            decided
        }
        Err(_) => Err(Refusal::OutOfMemory),
    }
}

/// The verdict on what the words name: the file of a name, or the generated file of a number. What
/// explains it becomes the text `told`, which is empty before, and stays so where no explanation is asked
/// for.
fn answer<R: Threads + Wait + Sync, S: Source, G: Gate + Sync>(
    rt: &R,
    alloc: Global,
    words: &[&str],
    source: &mut S,
    passes: &mut Vec<Box<dyn Pass>>,
    gate: &G,
    told: &mut Vec<u8>,
) -> Result<Decided, Refusal>
    requires tallies { All (λ p. taken p ≡ 0) passes.old.items }
    requires untold { told.old.items ≡ [] }
    ensures explains { outcome.MayExplain (mentions_explain (texts words.now))
        (source_run S.file S.left S.reading S.faults source.old source.new) result told.new.items
        (ordered (map (λ p. image p) passes.old.items) (texts words.now)) }
    ensures answer { outcome.IsAnswerOfRun (ordered (map (λ p. image p) passes.old.items) (texts words.now))
        (source_run S.file S.left S.reading S.faults source.old source.new) result }
    ensures calm { result ≢ Err Refusal.Source
        → IsCalm (source_run S.file S.left S.reading S.faults source.old source.new) }
    ensures keeps { KeepsSource (source_run S.file S.left S.reading S.faults source.old source.new) }
    ensures untouched { ReadsNothing (ordered (map (λ p. image p) passes.old.items) (texts words.now))
        → source.new ≡ source.old }
{
    let options = match read_words(alloc, words) {
        Ok(options) => options,
        Err(WordsFault::Usage) => {
            *told = words_explanation(alloc, words);
            return Err(Refusal::Usage);
        }
        Err(WordsFault::OutOfMemory) => return Err(Refusal::OutOfMemory),
    };
    let settings = options.settings;
    match options.cycle {
        Some(k) => verdict_on_cycle(rt, alloc, k, settings, passes, gate, told),
        None => verdict_on(
            rt,
            alloc,
            options.file.unwrap_or(STANDARD_INPUT),
            settings,
            source,
            passes,
            gate,
            told,
        ),
    }
}

/// How a run ends.
#[derive(Drop)]
pub(crate) enum Ending {
    /// The verdict was reported.
    Reported(Decided),
    /// The report of the verdict met a fault.
    CutOff(Decided),
    /// There is no verdict.
    Refused(Refusal),
}

/// The run, up to its exit status.
fn end<R: Threads + Wait + Sync, S: Source, O: Sink, E: Sink, G: Gate + Sync>(
    rt: &R,
    alloc: Global,
    words: &[&str],
    source: &mut S,
    out: &mut O,
    err: &mut E,
    passes: &mut Vec<Box<dyn Pass>>,
    gate: &G,
) -> Ending
    requires { All (λ p. taken p ≡ 0) passes.old.items }
    ensures ends { outcome.Ends (mentions_explain (texts words.now))
        (ordered (map (λ p. image p) passes.old.items) (texts words.now))
        (source_run S.file S.left S.reading S.faults source.old source.new)
        (sink_run O.writing O.faults out.old out.new) (sink_run E.writing E.faults err.old err.new) result }
    ensures calm { result ≢ Ending.Refused Refusal.Source
        → IsCalm (source_run S.file S.left S.reading S.faults source.old source.new) }
    ensures keeps { outcome.Keeps (source_run S.file S.left S.reading S.faults source.old source.new)
        (sink_run O.writing O.faults out.old out.new) (sink_run E.writing E.faults err.old err.new) }
    ensures untouched { ReadsNothing (ordered (map (λ p. image p) passes.old.items) (texts words.now))
        → source.new ≡ source.old }
{
    let mut told = Vec::new(alloc);
    match answer(rt, alloc, words, source, passes, gate, &mut told) {
        Ok(decided) => match write_all(out, decided.report.as_slice()) {
            Ok(()) => {
                explain(err, told.as_slice());
                Ending::Reported(decided)
            }
            Err(_) => {
                let _ = refuse(alloc, err, USAGE, Refusal::Sink);
                Ending::CutOff(decided)
            }
        },
        Err(refusal) => Ending::Refused(refuse_and_explain(
            alloc,
            err,
            USAGE,
            refusal,
            told.as_slice(),
        )),
    }
}

/// The exit status of a verdict.
fn verdict_status(verdict: Decision) -> u8
    ensures { result ≡ outcome.status_of_verdict verdict }
{
    match verdict {
        Decision::Accepted => 0,
        Decision::Rejected => 1,
        Decision::Long => 2,
    }
}

/// The exit status of an ending.
fn exit_status(ending: &Ending) -> u8
    ensures { result ≡ outcome.status_at ending.now }
{
    match ending {
        Ending::Reported(decided) => verdict_status(decided.verdict),
        Ending::CutOff(_) => status(&Refusal::Sink),
        Ending::Refused(refusal) => status(refusal),
    }
}

/// Runs the program: decides what the words name, writes the report to `out`, or a line to `err`
/// that says why there is none, and answers the exit status.
///
/// `words` has the program's name first, which isn't looked at. The others are read as `hs_words` says: the
/// name of a file, or `--gen K` for the generated file of that number, or neither, and then the source is
/// started with the name `-`; `--entries N` and `--steps N` bound the table and the path, `--table` shows
/// the table, and with `--first` the first start entry is enough; with `--quick` evidence is sought before
/// the table is filled, and checked; with `--explain` a text on `err` explains the answer; `--workers N`
/// workers fill the table, and `--simplify` makes the scheme smaller before. The path is that of the
/// canonical log, so their number changes nothing of the report, unless `--first` or `--quick` is given.
/// The source is started once at most, and nothing is read behind its end. The report is formed before the
/// first write. A fault of `err` changes no status.
///
/// Reading takes time and memory in proportion to the file. What saturation takes isn't bounded by the
/// file: a table has at most `--entries` entries, and a path is followed for at most `--steps` steps; for
/// the canonical log of a rejected file one worker forms the table a second time. Each of the workers
/// passes `gate` before it does a work; with `Open` nobody waits there. The passes, none of which has a
/// tally yet, are applied in their order with `--simplify`, and dropped at the end in any case.
pub fn run<R: Threads + Wait + Sync, S: Source, O: Sink, E: Sink, G: Gate + Sync>(
    rt: &R,
    alloc: Global,
    words: &[&str],
    source: &mut S,
    out: &mut O,
    err: &mut E,
    gate: &G,
    mut passes: Vec<Box<dyn Pass>>,
) -> u8
    requires { All (λ p. taken p ≡ 0) passes.items }
    ensures accepted { result ≡ 0 → headline.OfInput (texts words.now)
        (source_run S.file S.left S.reading S.faults source.old source.new) IsAccepted }
    ensures rejected { (result ≡ 1) ⊎ (result ≡ 2) → headline.OfInput (texts words.now)
        (source_run S.file S.left S.reading S.faults source.old source.new) IsRejected }
    ensures decided { headline.IsDecided (map (λ p. image p) passes.items) (texts words.now)
        (source_run S.file S.left S.reading S.faults source.old source.new)
        (sink_run O.writing O.faults out.old out.new) result }
    // All that is claimed of a run, from which the three above follow.
    ensures rows { outcome.Rows (mentions_explain (texts words.now))
        (ordered (map (λ p. image p) passes.items) (texts words.now))
        (source_run S.file S.left S.reading S.faults source.old source.new)
        (sink_run O.writing O.faults out.old out.new) (sink_run E.writing E.faults err.old err.new) result }
    // Each run of the same words but for the number of workers, on the same bytes, comes to the same status
    // and report.
    ensures one_report { one.HasOneReport (ordered (map (λ p. image p) passes.items) (texts words.now))
        (source_run S.file S.left S.reading S.faults source.old source.new)
        (sink_run O.writing O.faults out.old out.new) (sink_run E.writing E.faults err.old err.new) result }
    ensures keeps { outcome.Keeps (source_run S.file S.left S.reading S.faults source.old source.new)
        (sink_run O.writing O.faults out.old out.new) (sink_run E.writing E.faults err.old err.new) }
    // Where the words are refused, or a file is generated, nothing is started or read.
    ensures untouched { ReadsNothing (ordered (map (λ p. image p) passes.items) (texts words.now))
        → source.new ≡ source.old }
{
    exit_status(&end(rt, alloc, words, source, out, err, &mut passes, gate))
}
