//! The check of a certificate.

ghost use Rattle.std.specs.Prelude.{List, IfErr, OnOk};
ghost use Rattle.hs_scheme.specs.acceptance.Run.{Accepts};
ghost use Rattle.hs_verdict.specs.Premises.{HasClosedFlow};
ghost use Rattle.hs_weak.specs.Reads.{IsClosedReads};
ghost use Rattle.hs_table.specs.Entries.{EntryData};
ghost use Rattle.hs_weak.specs.Void.{VoidData, IsVoidList};
ghost use Rattle.hs_weak.specs.Certificate.{IsAcceptanceCertificate};
ghost use Rattle.hs_certificate_checker.specs.Faults.{AreInVoidShape, HasCause, IsFlaw};
ghost use Rattle.hs_choices.specs.Numbered.{AreNumbered};
ghost use Rattle.hs_certificate_checker.specs.Settled.{IsNumbered, AreSettled};

use crate::fault::CertificateFault;
use crate::flow::check_flow;
use crate::numbers::numbered;
use crate::rows::check_rows;
use crate::shape::first_out_of_shape;
use hs_checker::has_start;
use hs_choices::Compared;
use hs_numbered::VoidRow;
use hs_reads::Reads;
use hs_scheme::Problem;
use hs_table::Entry;
use hs_types::{Interner, Row};
use hs_verdict::know_sorted_problem;
use hs_weak::Void;
use hs_weak_laws::certificates_accept;
use std::alloc::Global;

/// The check of the rows of a table and of void pairs, which are in shape.
pub(crate) fn check_numbers(
    alloc: Global,
    problem: &Problem,
    reads: &Reads,
    interner: Interner,
    table: &[Row],
    void: &[VoidRow],
) -> Result<(), CertificateFault>
    requires { IsNumbered problem.now interner table.now void.now }
    ensures whole { (C : List EntryData) (V : List VoidData)
        → AreNumbered problem.now C V interner table.now void.now → AreInVoidShape problem.now V
        → OnOk result (IsVoidList problem.now C V × AreSettled problem.now C V reads.now) }
    ensures flaw { (C : List EntryData) (V : List VoidData)
        → AreNumbered problem.now C V interner table.now void.now → AreInVoidShape problem.now V
        → IfErr result (IsFlaw problem.now C V reads.now) }
{
    let mut types = Compared::new(alloc, interner);
    let checked = check_rows(alloc, problem, reads, &mut types, table, void);
    drop(types);
    checked
}

/// The check of a table and of void pairs, which are in shape.
fn check_pairs(
    alloc: Global,
    problem: &Problem,
    reads: &Reads,
    table: &[Entry],
    void: &[Void],
) -> Result<(), CertificateFault>
    requires { AreInVoidShape problem.now void.now }
    ensures whole { OnOk result (IsVoidList problem.now table.now void.now
        × AreSettled problem.now table.now void.now reads.now) }
    ensures flaw { IfErr result (IsFlaw problem.now table.now void.now reads.now) }
{
    let mut interner = Interner::new(alloc);
    match numbered(alloc, problem, &mut interner, table, void) {
        Ok(numbers) => {
            let (rows, pairs) = (numbers.table.as_slice(), numbers.void.as_slice());
            check_numbers(alloc, problem, reads, interner, rows, pairs)
        }
        Err(_) => {
            drop(interner);
            Err(CertificateFault::OutOfMemory)
        }
    }
}

/// Whether the table, the void pairs and the read pairs, which are closed, are a certificate of
/// acceptance, and the flow is closed. Then the automaton accepts the scheme's value tree.
///
/// Table and void pairs may be any lists: entries out of shape don't count, and repeats change nothing. The
/// faults are looked for in their order: `FlowOpen`, `HeadOpen`, `HasStart`, `NotVoid`, `Missing`, each
/// only where there is such a pair or entry; where there is one and memory suffices, a fault comes.
///
/// Types get numbers, and what was compared of them is remembered. Time is as for a search of such a table:
/// for each void pair and site of its nonterminal, and for each point and type of its head in whose last
/// state it is read, the least unions of what may be chosen are formed, of which those that are void are left
/// out. Calls recurse as deep as types.
pub fn check_certificate(
    alloc: Global,
    problem: &Problem,
    reads: &Reads,
    table: &[Entry],
    void: &[Void],
) -> Result<(), CertificateFault>
    requires reads { IsClosedReads problem.now reads.now }
    ensures certificate { OnOk result (HasClosedFlow problem.now
        × IsAcceptanceCertificate problem.now table.now void.now reads.now) }
    ensures accepts { OnOk result
        (Accepts problem.now.sorted.scheme.rules problem.now.sorted.automaton.transitions) }
    ensures fault { IfErr result (HasCause problem.now table.now void.now reads.now) }
{
    know_sorted_problem(problem);
    certificates_accept();
    check_flow(alloc, problem)?;
    if has_start(problem, table) {
        return Err(CertificateFault::HasStart);
    }
    if let Some(place) = first_out_of_shape(problem, void) {
        return Err(CertificateFault::NotVoid { place });
    }
    check_pairs(alloc, problem, reads, table, void)
}
