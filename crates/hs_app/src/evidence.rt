//! The verdict by evidence: what is proposed, once it was checked.
//!
//! Nothing is known of a proposal. A certificate is checked, and a path is followed by reduction; where
//! either fails, or memory doesn't suffice for it, there is no verdict from here, and the table decides.

ghost use Rattle.std.specs.Prelude.{◌≡◌, true, All, IfOk, IfSome, IsTrue};
ghost use Rattle.hs_scheme.specs.flow.Flow.{IsAscending};
ghost use Rattle.hs_scheme.specs.sorting.Sorted.{SortedData};
ghost use Rattle.hs_table.specs.Entries.{InShape, entry_cmp};
ghost use Rattle.hs_weak.specs.Reads.{IsClosedReads};
ghost use Rattle.hs_weak.specs.Void.{void_cmp};
ghost use Rattle.hs_reads.specs.Own.{AreReadsOf};
ghost use Rattle.hs_text.specs.Report.{IsCertificateReport, path_summary};
ghost use Rattle.hs_app.specs.declared.verdict.Decision.TheVariants.{Rejected};
ghost use Rattle.hs_app.specs.Verdict.{AreListed, DecidesQuickly};

use crate::verdict::{Decided, Decision};
use hs_certificate_checker::{check_numbered, is_row_in_shape};
use hs_numbered::{NumberedCertificate, compare_rows, compare_void_rows};
use hs_quick::Proposal;
use hs_reads::Reads;
use hs_reduce::{MAX_STEPS, failure_along};
use hs_scheme::{FailingPath, OutOfMemory, Problem, Sorted};
use hs_table::Entry;
use hs_text::{certificate_report, certificate_summary, path_report};
use hs_weak::Void;
use hs_words::Settings;
use std::alloc::Global;
use std::cmp::Ordering;

/// Whether the entries are in shape.
fn are_in_shape(problem: &Problem, certificate: &NumberedCertificate) -> bool
    ensures { IsTrue result → All (InShape problem.now) certificate.now.table }
{
    let numbers = certificate.interner();
    let rows = certificate.rows();
    for row in rows {
        if !is_row_in_shape(problem, numbers, row) {
            return false;
        }
    }
    true
}

/// Whether each entry is less than the next.
fn are_ascending(certificate: &NumberedCertificate) -> bool
    ensures { IsTrue result → IsAscending entry_cmp certificate.now.table }
{
    let numbers = certificate.interner();
    let rows = certificate.rows();
    for place in 1..rows.len() {
        if compare_rows(numbers, &rows[place - 1], &rows[place]) != Ordering::Less {
            return false;
        }
    }
    true
}

/// Whether each pair is less than the next.
fn are_pairs_ascending(certificate: &NumberedCertificate) -> bool
    ensures { IsTrue result → IsAscending void_cmp certificate.now.void }
{
    let numbers = certificate.interner();
    let rows = certificate.void_rows();
    for place in 1..rows.len() {
        if compare_void_rows(numbers, &rows[place - 1], &rows[place]) != Ordering::Less {
            return false;
        }
    }
    true
}

/// Whether entries and pairs are as a report lists them.
fn are_listed(problem: &Problem, certificate: &NumberedCertificate) -> bool
    ensures { IsTrue result → AreListed problem.now certificate.now.table certificate.now.void }
{
    are_in_shape(problem, certificate)
        && are_ascending(certificate)
        && are_pairs_ascending(certificate)
}

/// The entries as trees.
fn entries_of(alloc: Global, certificate: &NumberedCertificate) -> Result<Vec<Entry>, OutOfMemory>
    ensures { IfOk result (λ table. table.items ≡ certificate.now.table) }
{
    let count = certificate.rows().len();
    let mut table = Vec::with_capacity(alloc, count)?;
    for place in 0..count {
        table.push_reserved(certificate.entry(place)?);
    }
    Ok(table)
}

/// The void environments as trees.
fn pairs_of(alloc: Global, certificate: &mut NumberedCertificate) -> Result<Vec<Void>, OutOfMemory>
    ensures pairs { IfOk result (λ void. void.items ≡ certificate.old.void) }
    ensures table { certificate.new.table ≡ certificate.old.table }
    ensures void { certificate.new.void ≡ certificate.old.void }
{
    let count = certificate.void_rows().len();
    let mut void = Vec::with_capacity(alloc, count)?;
    for place in 0..count {
        void.push_reserved(certificate.pair(place)?);
    }
    Ok(void)
}

/// The report of a certificate with the lines of its entries and its void environments.
fn listed_report(
    alloc: Global,
    problem: &Problem,
    certificate: &mut NumberedCertificate,
    removed: Option<u64>,
) -> Result<Vec<u8>, OutOfMemory>
    requires { AreListed problem.now certificate.old.table certificate.old.void }
    ensures report { IfOk result (λ text. IsCertificateReport problem.now certificate.old.table
        certificate.old.void true removed text.items) }
    ensures table { certificate.new.table ≡ certificate.old.table }
    ensures void { certificate.new.void ≡ certificate.old.void }
{
    let void = pairs_of(alloc, certificate)?;
    let table = entries_of(alloc, certificate)?;
    certificate_report(
        alloc,
        problem,
        table.as_slice(),
        void.as_slice(),
        true,
        removed,
    )
}

/// The report of a certificate, with its lines where they are asked for.
fn report_of(
    alloc: Global,
    problem: &Problem,
    certificate: &mut NumberedCertificate,
    listed: bool,
    removed: Option<u64>,
) -> Result<Vec<u8>, OutOfMemory>
    requires { AreListed problem.now certificate.old.table certificate.old.void }
    ensures report { IfOk result (λ text. IsCertificateReport problem.now certificate.old.table
        certificate.old.void listed removed text.items) }
    ensures table { certificate.new.table ≡ certificate.old.table }
    ensures void { certificate.new.void ≡ certificate.old.void }
{
    if listed {
        return listed_report(alloc, problem, certificate, removed);
    }
    let (entries, void) = (certificate.rows().len(), certificate.void_rows().len());
    certificate_summary(alloc, entries, void, removed)
}

/// The verdict by a certificate, where this is one.
fn by_certificate(
    alloc: Global,
    problem: &Problem,
    reads: &Reads,
    mut certificate: NumberedCertificate,
    removed: Option<u64>,
    settings: Settings,
) -> Option<Decided>
    requires quick { settings.quick ≡ true }
    requires reads { IsClosedReads problem.now reads.now }
    requires own { AreReadsOf problem.now reads.now }
    ensures { IfSome result (λ decided. (before : SortedData)
        → DecidesQuickly settings before problem.now removed decided) }
{
    if !are_listed(problem, &certificate) {
        return None;
    }
    let report = report_of(alloc, problem, &mut certificate, settings.table, removed);
    let checked = check_numbered(alloc, problem, reads, certificate);
    match (checked, report) {
        (Ok(()), Ok(report)) => Some(Decided {
            verdict: Decision::Accepted,
            report,
            path: None,
        }),
        _ => None,
    }
}

/// The verdict by a failing path.
fn rejected_along(
    alloc: Global,
    problem: &Problem,
    path: FailingPath,
    removed: Option<u64>,
) -> Option<Decided>
    ensures { IfSome result (λ decided. (decided.verdict ≡ Rejected)
        × (decided.report.items ≡ path_summary problem.now path removed)) }
{
    match path_report(alloc, problem, &path, removed) {
        Ok(report) => Some(Decided {
            verdict: Decision::Rejected,
            report,
            path: Some(path),
        }),
        Err(_) => None,
    }
}

/// The verdict by the path with these child numbers, where it leads to a terminal without transition
/// along the rules of the scheme, from which the problem's were made.
fn by_path(
    alloc: Global,
    before: &Sorted,
    problem: &Problem,
    path: &[u32],
    removed: Option<u64>,
    settings: Settings,
) -> Option<Decided>
    requires quick { settings.quick ≡ true }
    ensures { IfSome result (DecidesQuickly settings before.now problem.now removed) }
{
    if path.len() as u64 > MAX_STEPS {
        return None;
    }
    match failure_along(alloc, before, path, settings.steps) {
        Ok(Some(failing)) => rejected_along(alloc, problem, failing, removed),
        Ok(None) => None,
        Err(_) => None,
    }
}

/// The verdict by the proposal, where it stands.
pub(crate) fn by_proposal(
    alloc: Global,
    before: &Sorted,
    problem: &Problem,
    reads: &Reads,
    proposal: Proposal,
    removed: Option<u64>,
    settings: Settings,
) -> Option<Decided>
    requires quick { settings.quick ≡ true }
    requires reads { IsClosedReads problem.now reads.now }
    requires own { AreReadsOf problem.now reads.now }
    ensures { IfSome result (DecidesQuickly settings before.now problem.now removed) }
{
    match proposal {
        Proposal::Accepted(certificate) => {
            by_certificate(alloc, problem, reads, certificate, removed, settings)
        }
        Proposal::Rejected(path) => {
            by_path(alloc, before, problem, path.as_slice(), removed, settings)
        }
        Proposal::None => None,
    }
}
