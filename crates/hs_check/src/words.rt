//! The run on the words of the command line, as the system gives them.

ghost use Rattle.std.specs.Prelude.{◌≡◌, ◌≢◌, ◌⊎◌, map, IsOkAnd, IfOk, IfErr, OnErr, string_bytes};
ghost use Rattle.std.specs.IoError.{error_kind};
ghost use Rattle.std.specs.Vec.Iter.{into_iter_items};
ghost use Rattle.hs_front.specs.Outside.{source_run, sink_run};
ghost use Rattle.hs_check.specs.Words.{files_in};
ghost use Rattle.hs_check.specs.Outcome as outcome;

use crate::top::check_run;
use hs_edge::{Sink, Source};
use hs_front::{NO_MEMORY, NO_WORDS, borrowed, collected};
use std::alloc::Global;
use std::env::Args;
use std::io::{self, ErrorKind};

/// The run on the words that the system gave: the status is that of `check_run` on all of them, in
/// their order. Where the system gives none, or one isn't UTF-8, it is 13, and 10 where there is no
/// memory for them; then nothing is touched.
pub fn check_run_on<S: Source, T: Source, O: Sink, E: Sink>(
    alloc: Global,
    words: io::Result<Args>,
    scheme: &mut S,
    table: &mut T,
    out: &mut O,
    err: &mut E,
) -> u8
    ensures verified { result ≡ 0 → IsOkAnd words (λ given.
        outcome.OfBothFiles (files_in (map string_bytes (into_iter_items given)))
        (source_run S.file S.left S.reading S.faults scheme.old scheme.new)
        (source_run T.file T.left T.reading T.faults table.old table.new) outcome.IsVerified) }
    ensures rows { IfOk words (λ given.
        ((result ≡ 10) × (scheme.new ≡ scheme.old) × (table.new ≡ table.old) × (out.new ≡ out.old) × (err.new ≡ err.old))
        ⊎ outcome.Rows (files_in (map string_bytes (into_iter_items given)))
        (source_run S.file S.left S.reading S.faults scheme.old scheme.new)
        (source_run T.file T.left T.reading T.faults table.old table.new)
        (sink_run O.writing O.faults out.old out.new) (sink_run E.writing E.faults err.old err.new) result) }
    ensures keeps { outcome.Keeps (source_run S.file S.left S.reading S.faults scheme.old scheme.new)
        (source_run T.file T.left T.reading T.faults table.old table.new)
        (sink_run O.writing O.faults out.old out.new) (sink_run E.writing E.faults err.old err.new) }
    ensures no_words { IfErr words (λ error. error_kind error ≢ ErrorKind.OutOfMemory → result ≡ 13) }
    ensures no_memory { IfErr words (λ error. error_kind error ≡ ErrorKind.OutOfMemory → result ≡ 10) }
    ensures untouched { OnErr words ((scheme.new ≡ scheme.old) × (table.new ≡ table.old)
        × (out.new ≡ out.old) × (err.new ≡ err.old)) }
{
    let words = match words {
        Ok(words) => words,
        Err(error) if error.kind() == ErrorKind::OutOfMemory => return NO_MEMORY,
        Err(_) => return NO_WORDS,
    };
    let Ok(words) = collected(alloc, words) else {
        return NO_MEMORY;
    };
    match borrowed(alloc, words.as_slice()) {
        Ok(texts) => check_run(alloc, texts.as_slice(), scheme, table, out, err),
        Err(_) => NO_MEMORY,
    }
}
