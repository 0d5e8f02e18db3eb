//! The check of a certificate that is told by number.

ghost use Rattle.std.specs.Prelude.{ℕ, List, All, IfErr, IfOk, OnOk, map};
ghost use Rattle.std.specs.List.Sorted.{IsNonDecreasingBy};
ghost use Rattle.hs_scheme.specs.acceptance.Run.{Accepts};
ghost use Rattle.hs_table.specs.Tables.{HasStart};
ghost use Rattle.hs_verdict.specs.Premises.{HasClosedFlow};
ghost use Rattle.hs_weak.specs.Reads.{IsClosedReads};
ghost use Rattle.hs_weak.specs.Void.{IsVoidList};
ghost use Rattle.hs_weak.specs.Certificate.{IsAcceptanceCertificate};
ghost use Rattle.hs_types.specs.Interned.{RowData, IsRow, entry_of};
ghost use Rattle.hs_numbered.specs.Certificates.{IsVoidRow, void_of};
ghost use Rattle.hs_choices.specs.Numbered.{AreTableRows};
ghost use Rattle.hs_certificate_checker.specs.Faults.{AreInVoidShape, HasCause, IsFlaw};
ghost use Rattle.hs_certificate_checker.specs.Settled.{AreSettled};

use crate::checking::check_numbers;
use crate::fault::CertificateFault;
use crate::flow::check_flow;
use crate::row_shape::{first_row_out_of_shape, is_row_in_shape};
use hs_checker::has_start_row;
use hs_numbered::{CertificateParts, NumberedCertificate};
use hs_reads::Reads;
use hs_scheme::{OutOfMemory, Problem};
use hs_types::{Interner, Row};
use hs_verdict::know_sorted_problem;
use hs_weak_laws::certificates_accept;
use std::alloc::Global;

/// The rows whose entries are in shape, in the order of their points. Time is in the size of all their types,
/// and as a sort of the rows.
fn ordered_rows(
    alloc: Global,
    problem: &Problem,
    interner: &Interner,
    table: &[Row],
) -> Result<Vec<Row>, OutOfMemory>
    requires { All (IsRow interner.now) table.now }
    ensures rows { IfOk result (λ rows. AreTableRows problem.now (map (entry_of interner.now) table.now)
        interner.now rows.items) }
    ensures range { IfOk result (λ rows. All (IsRow interner.now) rows.items) }
    ensures order { IfOk result (λ rows. IsNonDecreasingBy (λ (r : RowData). r.point) rows.items) }
{
    let mut rows = Vec::with_capacity(alloc, table.len())?;
    for row in table {
        if is_row_in_shape(problem, interner, row) {
            rows.push_reserved(*row);
        }
    }
    rows.sort_unstable_by_key(|row| row.point);
    Ok(rows)
}

/// What is looked at before what follows: whether the flow is closed, the table lacks the start entry, and the
/// void pairs are in shape.
fn check_parts(
    alloc: Global,
    problem: &Problem,
    certificate: &NumberedCertificate,
) -> Result<(), CertificateFault>
    ensures fine { OnOk result (HasClosedFlow problem.now × (HasStart problem.now certificate.now.table → ⊥)
        × AreInVoidShape problem.now certificate.now.void) }
    ensures fault { IfErr result (λ fault. (R : List (ℕ × ℕ))
        → HasCause problem.now certificate.now.table certificate.now.void R fault) }
{
    check_flow(alloc, problem)?;
    let interner = certificate.interner();
    if has_start_row(problem, interner, certificate.rows()) {
        return Err(CertificateFault::HasStart);
    }
    match first_row_out_of_shape(problem, interner, certificate.void_rows()) {
        Some(place) => Err(CertificateFault::NotVoid { place }),
        None => Ok(()),
    }
}

/// The check of void pairs, which are in shape, and of what follows.
fn check_taken_apart(
    alloc: Global,
    problem: &Problem,
    reads: &Reads,
    parts: CertificateParts,
) -> Result<(), CertificateFault>
    requires rows { All (IsRow parts.interner) parts.table.items }
    requires void_rows { All (IsVoidRow parts.interner) parts.void.items }
    requires shapes { AreInVoidShape problem.now (map (void_of parts.interner) parts.void.items) }
    ensures whole { OnOk result (IsVoidList problem.now (map (entry_of parts.interner) parts.table.items)
        (map (void_of parts.interner) parts.void.items)
        × AreSettled problem.now (map (entry_of parts.interner) parts.table.items)
        (map (void_of parts.interner) parts.void.items) reads.now) }
    ensures flaw { IfErr result (IsFlaw problem.now (map (entry_of parts.interner) parts.table.items)
        (map (void_of parts.interner) parts.void.items) reads.now) }
{
    let CertificateParts {
        interner,
        table,
        void,
    } = parts;
    let ordered = ordered_rows(alloc, problem, &interner, table.as_slice());
    drop(table);
    match ordered {
        Ok(rows) => check_numbers(
            alloc,
            problem,
            reads,
            interner,
            rows.as_slice(),
            void.as_slice(),
        ),
        Err(_) => {
            drop(interner);
            Err(CertificateFault::OutOfMemory)
        }
    }
}

/// Whether the certificate and the read pairs, which are closed, are a certificate of acceptance, and the flow
/// is closed. Then the automaton accepts the scheme's value tree.
///
/// What is answered, and the faults with their order, are those of `check_certificate` for the entries and the
/// pairs as trees. The interner goes on to the check, so no type is told once more.
pub fn check_numbered(
    alloc: Global,
    problem: &Problem,
    reads: &Reads,
    certificate: NumberedCertificate,
) -> Result<(), CertificateFault>
    requires reads { IsClosedReads problem.now reads.now }
    ensures certificate { OnOk result (HasClosedFlow problem.now
        × IsAcceptanceCertificate problem.now certificate.table certificate.void reads.now) }
    ensures accepts { OnOk result
        (Accepts problem.now.sorted.scheme.rules problem.now.sorted.automaton.transitions) }
    ensures fault { IfErr result (HasCause problem.now certificate.table certificate.void reads.now) }
{
    know_sorted_problem(problem);
    certificates_accept();
    match check_parts(alloc, problem, &certificate) {
        Ok(()) => check_taken_apart(alloc, problem, reads, certificate.into_parts()),
        Err(fault) => {
            drop(certificate);
            Err(fault)
        }
    }
}
