//! The run on the words of the command line, as the system gives them.

ghost use Rattle.std.specs.Prelude.{◌≡◌, ◌≢◌, ◌⊎◌, map, All, IsOkAnd, IfOk, IfErr, OnErr, string_bytes};
ghost use Rattle.std.specs.IoError.{error_kind};
ghost use Rattle.std.specs.Vec.Iter.{into_iter_items};
ghost use Rattle.hs_front.specs.Files.{IsAccepted, IsRejected};
ghost use Rattle.hs_front.specs.Outside.{source_run, sink_run};
ghost use Rattle.hs_app.specs.Order.{ordered};
ghost use Rattle.hs_app.specs.Explaining.{mentions_explain};
ghost use Rattle.hs_app.specs.Headline as headline;
ghost use Rattle.hs_app.specs.Outcome as outcome;
ghost use Rattle.hs_app.specs.OneReport as one;

use crate::top::run;
use hs_edge::{Sink, Source};
use hs_front::{NO_MEMORY, NO_WORDS, borrowed, collected};
use hs_passes::Pass;
use hs_workers::Open;
use std::alloc::Global;
use std::env::Args;
use std::io::{self, ErrorKind};
use std::sync::Wait;
use std::thread::Threads;

/// The run on the words that the system gave: the status is that of `run` on all of them, in their
/// order. Where the system gives none, or one isn't UTF-8, it is 13, and 10 where there is no memory
/// for them; then nothing is touched.
pub fn run_on<R: Threads + Wait + Sync, S: Source, O: Sink, E: Sink>(
    rt: &R,
    alloc: Global,
    words: io::Result<Args>,
    source: &mut S,
    out: &mut O,
    err: &mut E,
    passes: Vec<Box<dyn Pass>>,
) -> u8
    requires { All (λ p. taken p ≡ 0) passes.items }
    ensures accepted { result ≡ 0 → IsOkAnd words (λ given.
        headline.OfInput (map string_bytes (into_iter_items given))
        (source_run S.file S.left S.reading S.faults source.old source.new) IsAccepted) }
    ensures rejected { (result ≡ 1) ⊎ (result ≡ 2) → IsOkAnd words (λ given.
        headline.OfInput (map string_bytes (into_iter_items given))
        (source_run S.file S.left S.reading S.faults source.old source.new) IsRejected) }
    ensures decided { IfOk words (λ given.
        headline.IsDecided (map (λ p. image p) passes.items) (map string_bytes (into_iter_items given))
        (source_run S.file S.left S.reading S.faults source.old source.new)
        (sink_run O.writing O.faults out.old out.new) result) }
    ensures rows { IfOk words (λ given.
        ((result ≡ 10) × (source.new ≡ source.old) × (out.new ≡ out.old) × (err.new ≡ err.old))
        ⊎ outcome.Rows (mentions_explain (map string_bytes (into_iter_items given)))
        (ordered (map (λ p. image p) passes.items) (map string_bytes (into_iter_items given)))
        (source_run S.file S.left S.reading S.faults source.old source.new)
        (sink_run O.writing O.faults out.old out.new) (sink_run E.writing E.faults err.old err.new) result) }
    ensures one_report { IfOk words (λ given. one.HasOneReport
        (ordered (map (λ p. image p) passes.items) (map string_bytes (into_iter_items given)))
        (source_run S.file S.left S.reading S.faults source.old source.new)
        (sink_run O.writing O.faults out.old out.new) (sink_run E.writing E.faults err.old err.new) result) }
    ensures keeps { outcome.Keeps (source_run S.file S.left S.reading S.faults source.old source.new)
        (sink_run O.writing O.faults out.old out.new) (sink_run E.writing E.faults err.old err.new) }
    ensures no_words { IfErr words (λ error. error_kind error ≢ ErrorKind.OutOfMemory → result ≡ 13) }
    ensures no_memory { IfErr words (λ error. error_kind error ≡ ErrorKind.OutOfMemory → result ≡ 10) }
    ensures untouched { OnErr words ((source.new ≡ source.old) × (out.new ≡ out.old) × (err.new ≡ err.old)) }
{
    let words = match words {
        Ok(words) => words,
        Err(error) if error.kind() == ErrorKind::OutOfMemory => return NO_MEMORY,
        Err(_) => return NO_WORDS,
    };
    let Ok(words) = collected(alloc, words) else {
        return NO_MEMORY;
    };
    match borrowed(alloc, words.as_slice()) {
        Ok(texts) => run(rt, alloc, texts.as_slice(), source, out, err, &Open, passes),
        Err(_) => NO_MEMORY,
    }
}
