//! The report of a run.

ghost use Rattle.std.specs.Prelude.{◌≡◌, ◌≢◌, ◌++◌, ℕ, List, Some, true, All, AllPairs, IfOk, option_map};
ghost use Rattle.std.specs.List.{flat_map};
ghost use Rattle.std.specs.Option.{ForSome};
ghost use Rattle.hs_table.specs.Entries.{InShape};
ghost use Rattle.hs_text.specs.Pieces.{Puts};
ghost use Rattle.hs_text.specs.Report as lines;
ghost use Rattle.hs_text.specs.Report.{HoldsOfList, IsTableText, HasCompactText, IsReport};

use crate::minimal::Minimal;
use crate::pieces::{Text, names_of, push_number, state_name, terminal_name};
use crate::table::push_table;
use crate::verdict::Verdict;
use hs_scheme::{FailingPath, Names, OutOfMemory, Problem};
use hs_table::Entry;
use std::alloc::Global;

/// Puts a line of these words and a number at the end.
pub(crate) fn push_line(words: &[u8], number: u64, text: &mut Text)
    ensures { Puts text.old text.new (lines.number_line words.now number) }
{
    text.push(words);
    push_number(number, text);
    text.push(b"\n");
}

/// Puts such a line at the end where there is a number.
pub(crate) fn push_line_if(words: &[u8], number: Option<u64>, text: &mut Text)
    ensures { Puts text.old text.new (lines.number_line_if words.now number) }
{
    if let Some(number) = number {
        push_line(words, number, text);
    }
}

/// Puts the terminals of these steps, each with its child, at the end.
fn push_steps(names: &Names, steps: &[(u32, u32)], text: &mut Text)
    ensures { Puts text.old text.new (flat_map (lines.step_text names.now) steps.now) }
{
    for (terminal, child) in steps {
        text.push(terminal_name(names, *terminal));
        text.push(b"/");
        push_number(u64::from(*child), text);
        text.push(b" ");
    }
}

/// Puts the lines of a path at the end.
pub(crate) fn push_path(names: &Names, path: &FailingPath, text: &mut Text)
    ensures { Puts text.old text.new (lines.path_lines names.now path.now) }
{
    text.push(b"path ");
    push_steps(names, path.steps.as_slice(), text);
    text.push(terminal_name(names, path.last));
    text.push(b"\nstate ");
    text.push(state_name(names, path.state));
    text.push(b"\n");
}

/// The lines of a path, as they stand in a report.
///
/// The terminals and states of the path are to be those of the names: another number has no name, and
/// nothing is written for it. Time and memory are in proportion to the text.
pub fn path_text(alloc: Global, names: &Names, path: &FailingPath) -> Result<Vec<u8>, OutOfMemory>
    ensures { IfOk result (λ text. text.items ≡ lines.path_lines names.now path.now) }
{
    let mut text = Text::new(alloc);
    push_path(names, path, &mut text);
    text.finish()
}

/// Puts an answer and the number of entries at the end.
fn push_head(answer: &[u8], entries: u32, text: &mut Text)
    ensures { Puts text.old text.new (lines.head_lines answer.now entries) }
{
    text.push(answer);
    push_line(b"entries ", u64::from(entries), text);
}

/// Puts the lines of a verdict at the end.
fn push_verdict(names: &Names, verdict: &Verdict, text: &mut Text)
    ensures { Puts text.old text.new (lines.verdict_lines names.now verdict.now) }
{
    match verdict {
        Verdict::Accepted { entries, checked } => {
            push_head(b"accepted\n", *entries, text);
            push_line(b"checked ", *checked, text);
        }
        Verdict::Rejected { entries, path } => {
            push_head(b"rejected\n", *entries, text);
            push_path(names, path, text);
        }
        Verdict::Long { entries, steps } => {
            push_head(b"rejected\n", *entries, text);
            text.push(b"path longer than ");
            push_number(*steps, text);
            text.push(b" steps\n");
        }
    }
}

/// Puts the line on what the search for a compact list came to at the end.
fn push_minimal(minimal: &Minimal, text: &mut Text)
    ensures { Puts text.old text.new (lines.minimal_line minimal.now) }
{
    match minimal {
        Minimal::Table(entries) => push_line(b"minimal ", entries.len() as u64, text),
        Minimal::More { budget } => push_line(b"minimal more than ", u64::from(*budget), text),
    }
}

/// Puts that line at the end where a compact list was sought.
fn push_minimal_if(minimal: Option<&Minimal>, text: &mut Text)
    ensures { Puts text.old text.new (lines.minimal_line_if (option_map (λ m. m.now) minimal.entry)) }
{
    if let Some(minimal) = minimal {
        push_minimal(minimal, text);
    }
}

/// Puts the lines of a verdict at the end, the weight that was removed where there was one, and the line
/// on a compact list where one was sought.
fn push_summary(
    problem: &Problem,
    verdict: &Verdict,
    removed: Option<u64>,
    minimal: Option<&Minimal>,
    text: &mut Text,
)
    ensures { Puts text.old text.new (lines.summary problem.now verdict.now removed
        (option_map (λ m. m.now) minimal.entry)) }
{
    push_verdict(names_of(problem), verdict, text);
    push_line_if(b"simplified ", removed, text);
    push_minimal_if(minimal, text);
}

/// Puts the word `compact` with the lines of the compact list at the end, where there is one.
fn push_compact(alloc: Global, problem: &Problem, minimal: &Minimal, text: &mut Text)
    requires shape { HoldsOfList (All (InShape problem.now)) (Some minimal.now) }
    requires distinct { HoldsOfList (AllPairs (λ a b. a ≢ b)) (Some minimal.now) }
    ensures { text.new.is_whole ≡ true → text.old.is_whole ≡ true
        × HasCompactText problem.now (Some minimal.now) text.old.bytes.items text.new.bytes.items }
{
    match minimal {
        Minimal::Table(entries) => {
            text.push(b"compact\n");
            push_table(alloc, problem, entries.as_slice(), text);
        }
        Minimal::More { budget: _ } => {}
    }
}

/// Puts the lines of a table at the end, and behind them those of the compact list where one was sought.
fn push_tables(
    alloc: Global,
    problem: &Problem,
    table: &[Entry],
    minimal: Option<&Minimal>,
    text: &mut Text,
)
    requires shape { All (InShape problem.now) table.now }
    requires distinct { AllPairs (λ a b. a ≢ b) table.now }
    requires list_shape { HoldsOfList (All (InShape problem.now)) (option_map (λ m. m.now) minimal) }
    requires list_distinct { HoldsOfList (AllPairs (λ a b. a ≢ b)) (option_map (λ m. m.now) minimal) }
    ensures { text.new.is_whole ≡ true → text.old.is_whole ≡ true × ((written : List ℕ)
        × IsTableText problem.now table.now written × HasCompactText problem.now
        (option_map (λ m. m.now) minimal.entry) (text.old.bytes.items ++ written) text.new.bytes.items) }
{
    push_table(alloc, problem, table, text);
    if let Some(minimal) = minimal {
        push_compact(alloc, problem, minimal, text);
    }
}

/// The report of a run: the verdict, the weight that simplification removed where there was one, the
/// line on a compact list where one was sought, and the lines of the table and of the compact list where
/// the table is asked for.
///
/// The terminals and states of a path are to be those of the problem: another number has no name,
/// and nothing is written for it. The entries of the table are in shape, and no two are equal; so are
/// those of the compact list. Cost and depth are those of `table_text`.
pub fn report(
    alloc: Global,
    problem: &Problem,
    verdict: &Verdict,
    table: Option<&[Entry]>,
    removed: Option<u64>,
    minimal: Option<&Minimal>,
) -> Result<Vec<u8>, OutOfMemory>
    requires shape { ForSome (option_map (λ t. t.now) table) (λ t. All (InShape problem.now) t) }
    requires distinct { ForSome (option_map (λ t. t.now) table) (λ t. AllPairs (λ a b. a ≢ b) t) }
    requires list_shape { HoldsOfList (All (InShape problem.now)) (option_map (λ m. m.now) minimal) }
    requires list_distinct { HoldsOfList (AllPairs (λ a b. a ≢ b)) (option_map (λ m. m.now) minimal) }
    ensures { IfOk result (λ text. IsReport problem.now verdict.now
        (option_map (λ t. t.now) table.entry) removed (option_map (λ m. m.now) minimal.entry) text.items) }
{
    let mut text = Text::new(alloc);
    push_summary(problem, verdict, removed, minimal, &mut text);
    if let Some(table) = table {
        push_tables(alloc, problem, table, minimal, &mut text);
    }
    text.finish()
}
