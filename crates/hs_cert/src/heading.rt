//! The first three lines.

ghost use Rattle.std.specs.Prelude.{◌≡◌, ◌≢◌, ◌++◌, ◌≤◌, ℕ, List, false, IfOk, IfErr, IfSome, IfNone, IsTrue, decimal};
ghost use Rattle.hs_scheme.specs.Problem.{ProblemData};
ghost use Rattle.hs_cert.specs.Certificate.{IsTableFault, ended, IsInLine, verdict_line, count_line, number_line, IsWithin};
ghost use Rattle.hs_cert.specs.Front.{HasHead};

use crate::fault::TableFault;
use crate::lines::Lines;
use crate::number::number_behind;

/// The most entries of a table, and the most void environments.
const MAX_ROWS: u64 = 1_000_000;

/// The form of evidence.
#[derive(Clone, Copy, Debug, PartialEq, Eq, Drop)]
pub(crate) enum Form {
    /// The entries of a table that is closed, and the number of its instances.
    Full,
    /// Entries that are strong enough, and void environments.
    Compact,
}

/// What the first lines say.
#[derive(Clone, Copy, Debug, Drop)]
pub(crate) struct Heading {
    pub(crate) form: Form,
    /// At most 1,000,000.
    pub(crate) entries: u32,
    /// In the full form that of the instances; in the compact one that of the void environments, which
    /// is at most 1,000,000.
    pub(crate) number: u64,
}

/// Whether the next line is that of the verdict.
fn read_verdict(lines: &mut Lines<'_>) -> bool
    ensures read { IsTrue result → lines.old.rest.now ≡ ended verdict_line ++ lines.new.rest.now }
    ensures faulty { result ≡ false → (behind : List ℕ) → lines.old.rest.now ≢ ended verdict_line ++ behind }
{
    match lines.next() {
        Some(line) => line == b"accepted".as_slice(),
        None => false,
    }
}

/// The number behind these words, where it is at most 1,000,000.
fn few_behind(words: &[u8], line: &[u8]) -> Option<u32>
    ensures some { IfSome result (λ n. line.now ≡ words.now ++ decimal n) }
    ensures few { IfSome result (λ n. n ≤ 1000000) }
    ensures none { IfNone result ((n : ℕ) → n ≤ 1000000 → line.now ≢ words.now ++ decimal n) }
{
    match number_behind(words, line) {
        Some(number) => {
            if number <= MAX_ROWS {
                Some(number as u32)
            } else {
                None
            }
        }
        None => None,
    }
}

/// The form, and how many entries there are, where the line says so.
fn count_in(line: &[u8]) -> Option<(Form, u32)>
    ensures some { IfSome result (λ c. line.now ≡ count_line c.0 c.1) }
    ensures few { IfSome result (λ c. c.1 ≤ 1000000) }
    ensures none { IfNone result ((form : Form) (n : ℕ) → n ≤ 1000000 → line.now ≢ count_line form n) }
{
    match few_behind(b"entries ", line) {
        Some(entries) => Some((Form::Full, entries)),
        None => match few_behind(b"compact ", line) {
            Some(entries) => Some((Form::Compact, entries)),
            None => None,
        },
    }
}

/// The form, and how many entries follow, where the next line says so.
fn read_count(lines: &mut Lines<'_>) -> Option<(Form, u32)>
    ensures read { IfSome result (λ c. lines.old.rest.now ≡ ended (count_line c.0 c.1) ++ lines.new.rest.now) }
    ensures inside { IfSome result (λ c. IsInLine (count_line c.0 c.1)) }
    ensures few { IfSome result (λ c. c.1 ≤ 1000000) }
    ensures none { IfNone result ((form : Form) (n : ℕ) (behind : List ℕ) → n ≤ 1000000
        → IsInLine (count_line form n)
        → lines.old.rest.now ≢ ended (count_line form n) ++ behind) }
{
    match lines.next() {
        Some(line) => count_in(line),
        None => None,
    }
}

/// The number of instances, or of void environments, where the line says so.
fn number_in(form: Form, line: &[u8]) -> Option<u64>
    ensures some { IfSome result (λ m. line.now ≡ number_line form m) }
    ensures within { IfSome result (λ m. IsWithin form m) }
    ensures none { IfNone result ((m : ℕ) → IsWithin form m → line.now ≢ number_line form m) }
{
    match form {
        Form::Full => number_behind(b"checked ", line),
        Form::Compact => match few_behind(b"void ", line) {
            Some(void) => Some(u64::from(void)),
            None => None,
        },
    }
}

/// The number of instances, or of void environments, where the next line says so.
fn read_number(form: Form, lines: &mut Lines<'_>) -> Option<u64>
    ensures read { IfSome result (λ m. lines.old.rest.now ≡ ended (number_line form m) ++ lines.new.rest.now) }
    ensures inside { IfSome result (λ m. IsInLine (number_line form m)) }
    ensures within { IfSome result (λ m. IsWithin form m) }
    ensures none { IfNone result ((m : ℕ) (behind : List ℕ) → IsWithin form m
        → IsInLine (number_line form m)
        → lines.old.rest.now ≢ ended (number_line form m) ++ behind) }
{
    match lines.next() {
        Some(line) => number_in(form, line),
        None => None,
    }
}

/// What the first three lines say.
pub(crate) fn read_heading(lines: &mut Lines<'_>) -> Result<Heading, TableFault>
    ensures read { IfOk result (λ h. HasHead lines.old.rest.now h lines.new.rest.now) }
    ensures fault { (p : ProblemData) → IfErr result (λ e. IsTableFault p lines.old.rest.now e) }
{
    if !read_verdict(lines) {
        return Err(TableFault::Line { line: 1 });
    }
    let (form, entries) = match read_count(lines) {
        Some(count) => count,
        None => return Err(TableFault::Line { line: 2 }),
    };
    match read_number(form, lines) {
        Some(number) => Ok(Heading {
            form,
            entries,
            number,
        }),
        None => Err(TableFault::Line { line: 3 }),
    }
}
