//! The reports of what was found without a table: a certificate of acceptance, or a path to a failure.

ghost use Rattle.std.specs.Prelude.{◌≡◌, ◌≢◌, ℕ, List, length, map, true, All, AllPairs, Contains, ◌↔◌, IfOk};
ghost use Rattle.std.specs.List.{flat_map};
ghost use Rattle.hs_scheme.specs.flow.Flow.{IsAscending};
ghost use Rattle.hs_table.specs.Entries.{InShape};
ghost use Rattle.hs_weak.specs.Void.{VoidData, void_cmp};
ghost use Rattle.hs_text.specs.Pieces.{Puts};
ghost use Rattle.hs_text.specs.Report as lines;
ghost use Rattle.hs_text.specs.Report.{IsVoidText, IsCertificateReport};

use crate::pieces::{Text, names_of, params_of, rule_name};
use crate::summary::{push_line, push_line_if, push_path};
use crate::table::{push_env, push_table};
use hs_scheme::{FailingPath, Names, OutOfMemory, Problem};
use hs_table::Entry;
use hs_weak::Void;
use std::alloc::Global;

/// Puts a void environment with its nonterminal at the end.
fn push_pair(names: &Names, void: &Void, text: &mut Text)
    ensures { Puts text.old text.new (lines.void_text names.now void.now) }
{
    let rule = void.rule as usize;
    text.push(b"void ");
    text.push(rule_name(names, rule));
    text.push(b" ");
    let states = names.states.as_slice();
    push_env(states, params_of(names, rule), void.env.as_slice(), text);
}

/// Puts the line of a void environment at the end.
fn push_void_line(problem: &Problem, void: &Void, text: &mut Text)
    ensures { Puts text.old text.new (lines.void_line problem.now void.now) }
{
    push_pair(names_of(problem), void, text);
    text.push(b"\n");
}

/// The pairs in ascending order.
fn in_order(alloc: Global, void: &[Void]) -> Result<Vec<&Void>, OutOfMemory>
    requires { AllPairs (λ a b. a ≢ b) void.now }
    ensures ascending { IfOk result (λ pairs. IsAscending void_cmp (map (λ v. v.now) pairs.items)) }
    ensures same { IfOk result (λ pairs. (v : VoidData) →
        Contains (map (λ v. v.now) pairs.items) v ↔ Contains void.now v) }
{
    let mut pairs: Vec<&Void> = void.iter().collect(alloc)?;
    pairs.sort_by(|a, b| a.compare(b))?;
    Ok(pairs)
}

/// Puts the lines of these pairs at the end.
fn push_pairs(problem: &Problem, pairs: &[&Void], text: &mut Text)
    ensures { Puts text.old text.new (flat_map (λ v. lines.void_line problem.now v.now) pairs.now) }
{
    for pair in pairs {
        push_void_line(problem, pair, text);
    }
}

/// Puts the lines of void environments at the end.
fn push_void(alloc: Global, problem: &Problem, void: &[Void], text: &mut Text)
    requires { AllPairs (λ a b. a ≢ b) void.now }
    ensures { text.new.is_whole ≡ true → (written : List ℕ)
        × IsVoidText problem.now void.now written × Puts text.old text.new written }
{
    match in_order(alloc, void) {
        Ok(pairs) => push_pairs(problem, pairs.as_slice(), text),
        Err(OutOfMemory) => text.refuse(),
    }
}

/// Puts the lines of a certificate with so many entries and void environments at the end, and the
/// weight that was removed where there was one.
fn push_certificate(entries: usize, void: usize, removed: Option<u64>, text: &mut Text)
    ensures { Puts text.old text.new (lines.certificate_summary entries void removed) }
{
    text.push(b"accepted\n");
    push_line(b"compact ", entries as u64, text);
    push_line(b"void ", void as u64, text);
    push_line_if(b"simplified ", removed, text);
}

/// The report of a certificate of acceptance: the numbers of its entries and of its void
/// environments, the weight that simplification removed where there was one, and, where `listed`, the
/// lines of the entries and of the void environments, both in ascending order.
///
/// The entries are in shape, no two of them are equal, and no two void environments. Time and memory
/// are in proportion to the text, and to the numbers of comparisons of a sort. Recurses as deep as
/// the types.
pub fn certificate_report(
    alloc: Global,
    problem: &Problem,
    table: &[Entry],
    void: &[Void],
    listed: bool,
    removed: Option<u64>,
) -> Result<Vec<u8>, OutOfMemory>
    requires shape { All (InShape problem.now) table.now }
    requires distinct { AllPairs (λ a b. a ≢ b) table.now }
    requires distinct_void { AllPairs (λ a b. a ≢ b) void.now }
    ensures { IfOk result (λ text.
        IsCertificateReport problem.now table.now void.now listed removed text.items) }
{
    let mut text = Text::new(alloc);
    push_certificate(table.len(), void.len(), removed, &mut text);
    if listed {
        push_table(alloc, problem, table, &mut text);
        push_void(alloc, problem, void, &mut text);
    }
    text.finish()
}

/// The report of a certificate of acceptance with so many entries and void environments, without their lines:
/// that of `certificate_report` where it isn't `listed`.
pub fn certificate_summary(
    alloc: Global,
    entries: usize,
    void: usize,
    removed: Option<u64>,
) -> Result<Vec<u8>, OutOfMemory>
    ensures { IfOk result (λ text. text.items ≡ lines.certificate_summary entries void removed) }
{
    let mut text = Text::new(alloc);
    push_certificate(entries, void, removed, &mut text);
    text.finish()
}

/// The line of a void environment, with the LF at its end. Recurses as deep as its types.
pub fn void_line(alloc: Global, problem: &Problem, void: &Void) -> Result<Vec<u8>, OutOfMemory>
    ensures { IfOk result (λ text. text.items ≡ lines.void_line problem.now void.now) }
{
    let mut text = Text::new(alloc);
    push_void_line(problem, void, &mut text);
    text.finish()
}

/// Puts the lines of a rejection at the end, and the weight that was removed where there was one.
fn push_rejection(problem: &Problem, path: &FailingPath, removed: Option<u64>, text: &mut Text)
    ensures { Puts text.old text.new (lines.path_summary problem.now path.now removed) }
{
    text.push(b"rejected\n");
    push_path(names_of(problem), path, text);
    push_line_if(b"simplified ", removed, text);
}

/// The report of a path to a failure that was found without a table, and the weight that
/// simplification removed where there was one.
///
/// The terminals and states of the path are to be those of the problem: another number has no name,
/// and nothing is written for it. Time and memory are in proportion to the text.
pub fn path_report(
    alloc: Global,
    problem: &Problem,
    path: &FailingPath,
    removed: Option<u64>,
) -> Result<Vec<u8>, OutOfMemory>
    ensures { IfOk result (λ text. text.items ≡ lines.path_summary problem.now path.now removed) }
{
    let mut text = Text::new(alloc);
    push_rejection(problem, path, removed, &mut text);
    text.finish()
}
