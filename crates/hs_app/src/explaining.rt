//! What explains an answer, on standard error.

ghost use Rattle.std.specs.Prelude.{◌≡◌, ◌⊎◌, ◌≤◌, ◌++◌, [], length, true, IfSome};
ghost use Rattle.hs_words.specs.Words.{texts};
ghost use Rattle.hs_front.specs.Outside.{sink_run, HasTakenOrFailed};
ghost use Rattle.hs_front.specs.Refusal.{line_of};
ghost use Rattle.hs_app.specs.Explaining.{ExplainsAnswer, ExplainsVerdict, IsExplanation, TellsAndExplains, mentions_explain};
ghost use Rattle.hs_app.specs.Outcome.{usage};

use crate::verdict::{Decided, Decision};
use hs_edge::{Sink, write_all};
use hs_explain::{refusal_text, unmet_text, unread_text, words_text};
use hs_front::{Refusal, line, refuse, tell};
use hs_reader::MAX_BYTES;
use hs_trace::trace_of_report;
use hs_words::Settings;
use std::alloc::Global;

/// What explains a verdict on the bytes of a file.
fn of_verdict(alloc: Global, bytes: &[u8], decided: &Decided) -> Option<Vec<u8>>
    requires { length bytes.now ≤ MAX_BYTES }
    ensures { IfSome result (λ text.
        ExplainsVerdict bytes.now decided.now.verdict decided.now.report.items text.items) }
{
    match decided.verdict {
        Decision::Accepted => unmet_text(alloc, bytes),
        Decision::Rejected => match &decided.path {
            Some(path) => trace_of_report(alloc, bytes, path, decided.report.as_slice()),
            None => None,
        },
        Decision::Long => None,
    }
}

/// What explains the answer on the bytes of a file.
fn of_answer(
    alloc: Global,
    bytes: &[u8],
    entries: u32,
    answer: &Result<Decided, Refusal>,
) -> Option<Vec<u8>>
    requires { length bytes.now ≤ MAX_BYTES }
    ensures { IfSome result (λ text. ExplainsAnswer bytes.now answer.now text.items) }
{
    match answer {
        Ok(decided) => of_verdict(alloc, bytes, decided),
        Err(refusal) => refusal_text(alloc, bytes, entries, refusal),
    }
}

/// The text that explains the answer on the bytes of a file, where that is asked for; none where it isn't,
/// there is nothing to say, or memory doesn't suffice.
pub(crate) fn explanation(
    alloc: Global,
    bytes: &[u8],
    settings: Settings,
    answer: &Result<Decided, Refusal>,
) -> Vec<u8>
    requires { length bytes.now ≤ MAX_BYTES }
    ensures { IsExplanation settings.explain bytes.now answer.now result.items }
{
    if settings.explain {
        if let Some(text) = of_answer(alloc, bytes, settings.entries, answer) {
            return text;
        }
    }
    Vec::new(alloc)
}

/// The text that explains why the file of this name wasn't read, where that is asked for; none where it
/// isn't, there is nothing to say, or memory doesn't suffice.
pub(crate) fn unread_explanation(
    alloc: Global,
    name: &str,
    asked: bool,
    refusal: &Refusal,
) -> Vec<u8>
    ensures { (result.items ≡ []) ⊎ (asked ≡ true) }
{
    if asked {
        if let Some(text) = unread_text(alloc, name, refusal) {
            return text;
        }
    }
    Vec::new(alloc)
}

/// Whether `--explain` is among the words.
fn has_explain(words: &[&str]) -> bool
    ensures { result ≡ mentions_explain (texts words.now) }
{
    words.contains(&"--explain")
}

/// The text that explains why the words are refused, where `--explain` is among them; none where it isn't,
/// there is nothing to say, or memory doesn't suffice.
pub(crate) fn words_explanation(alloc: Global, words: &[&str]) -> Vec<u8>
    ensures { (result.items ≡ []) ⊎ (mentions_explain (texts words.now) ≡ true) }
{
    if has_explain(words) {
        if let Some(text) = words_text(alloc, words) {
            return text;
        }
    }
    Vec::new(alloc)
}

/// Writes what explains a verdict, if anything does. A fault changes nothing else.
pub(crate) fn explain<E: Sink>(err: &mut E, text: &[u8])
    ensures nothing { text.now ≡ [] → err.new ≡ err.old }
    ensures gains { HasTakenOrFailed (sink_run E.writing E.faults err.old err.new) text.now }
    ensures never_falls { E.faults err.old ≤ E.faults err.new }
{
    if text.is_empty() {
        return;
    }
    tell(err, text);
}

/// Writes the line of a refusal and what explains it, if anything does, and answers the refusal that was
/// told: want of memory, where it is refused while the line is formed. A fault changes nothing else.
pub(crate) fn refuse_and_explain<E: Sink>(
    alloc: Global,
    err: &mut E,
    words: &'static str,
    refusal: Refusal,
    text: &[u8],
) -> Refusal
    ensures tells { TellsAndExplains words.now refusal text.now (sink_run E.writing E.faults err.old err.new) result }
    ensures never_falls { E.faults err.old ≤ E.faults err.new }
{
    if text.is_empty() {
        return refuse(alloc, err, words, refusal);
    }
    match line(alloc, words, &refusal) {
        Ok(line) => match write_all(err, line.bytes()) {
            Ok(()) => {
                tell(err, text);
                refusal
            }
            Err(_) => refusal,
        },
        Err(_) => refuse(alloc, err, words, Refusal::OutOfMemory),
    }
}
