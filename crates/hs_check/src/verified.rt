//! Whether the text of a table shows that a scheme is accepted.

ghost use Rattle.std.specs.Prelude.{◌≡◌, ◌⊎◌, ◌<◌, ◌≤◌, ◌+◌, ℕ, List, length, Err, OnOk};
ghost use Rattle.hs_scheme.specs.acceptance.Run.{Accepts};
ghost use Rattle.hs_scheme.specs.Problem.{ProblemData};
ghost use Rattle.hs_verdict.specs.Premises.{HasClosedFlow};
ghost use Rattle.hs_weak.specs.Reads.{IsClosedReads};
ghost use Rattle.hs_weak.specs.Void.{VoidData};
ghost use Rattle.hs_cert.specs.Certificate.{AreNames, IsLine, IsCert, IsCompactCertificate, pair_text};
ghost use Rattle.hs_check.specs.Fault.{no_memory};
ghost use Rattle.hs_check.specs.Evidence.{TellsMissing, TellsNotVoid, TableShows, CompactShows, CertShows, OwnReads, TextShows};

use crate::fault::{Fault, ended, no_memory};
use hs_cert::{Cert, TableFault, line_at, read_table};
use hs_certificate_checker::{CertificateFault, check_numbered};
use hs_checker::{CheckFault, check};
use hs_numbered::NumberedCertificate;
use hs_reads::Reads;
use hs_scheme::{OutOfMemory, Problem};
use hs_table::Entry;
use hs_text::entry_line;
use std::alloc::Global;
use std::mem::forget;

/// What a table that is verified shows.
#[derive(Clone, Copy, Drop)]
pub(crate) enum Shown {
    /// It is closed and lacks the start entry, and has so many instances.
    Full { count: u64 },
    /// It is a certificate of acceptance with so many entries and void environments.
    Compact { entries: u64, void: u64 },
}

/// That an entry is missing, told by its line.
fn missing(alloc: Global, problem: &Problem, entry: &Entry) -> Fault
    requires { entry.now.point < length problem.now.points.points }
    ensures { (result ≡ no_memory) ⊎ TellsMissing problem.now entry.now result }
{
    match entry_line(alloc, problem, entry) {
        Ok(line) => Fault::Missing { entry: line },
        Err(_) => no_memory(),
    }
}

/// That the environment on the line of this number, counted from 0, isn't void, told by this line.
fn not_void(alloc: Global, bytes: &[u8], number: u32) -> Fault
    requires { (text : List ℕ) × IsLine bytes.now number text }
    ensures { (result ≡ no_memory) ⊎ ((p : ProblemData) (v : VoidData)
        → IsLine bytes.now number (pair_text p v) → TellsNotVoid p v result) }
{
    match line_at(bytes, number) {
        Some(line) => match ended(alloc, line) {
            Ok(pair) => Fault::NotVoid { pair },
            Err(_) => no_memory(),
        },
        None => unreachable!(),
    }
}

/// The number of instances of a table, where it is closed, lacks the start entry, and has as many as
/// it says.
fn shown_full(
    alloc: Global,
    problem: &Problem,
    table: &[Entry],
    checked: u64,
) -> Result<Shown, Fault>
    requires flow { HasClosedFlow problem.now }
    ensures shows { (result ≡ Err no_memory) ⊎ TableShows problem.now table.now checked result }
    ensures accepted { OnOk result
        (Accepts problem.now.sorted.scheme.rules problem.now.sorted.automaton.transitions) }
{
    match check(alloc, problem, table) {
        Ok(count) => {
            if count == checked {
                Ok(Shown::Full { count })
            } else {
                Err(Fault::Instances { count })
            }
        }
        Err(CheckFault::Missing { entry }) => Err(missing(alloc, problem, &entry)),
        Err(CheckFault::HasStart) => Err(Fault::HasStart),
        Err(CheckFault::OutOfMemory) => Err(no_memory()),
        // The flow holds all that is demanded.
        Err(_) => unreachable!(),
    }
}

/// How many entries there are.
fn entry_count(certificate: &NumberedCertificate) -> usize
    ensures { result ≡ length certificate.now.table }
{
    certificate.rows().len()
}

/// How many void environments there are.
fn pair_count(certificate: &NumberedCertificate) -> usize
    ensures { result ≡ length certificate.now.void }
{
    certificate.void_rows().len()
}

/// The line of the void environment at this place, counted from 0, as lines are: it stands behind three lines
/// and those of so many entries.
fn line_of_pair(entries: usize, place: usize) -> u32
    requires entries { entries ≤ 1000000 }
    requires place { place ≤ 1000000 }
    ensures { result ≡ 3 + entries + place }
{
    (3 + entries + place) as u32
}

/// The numbers of entries and of void environments, where they are a certificate of acceptance with
/// these read pairs. The bytes are the text that they were read from.
fn shown_by(
    alloc: Global,
    problem: &Problem,
    reads: &Reads,
    bytes: &[u8],
    certificate: NumberedCertificate,
) -> Result<Shown, Fault>
    requires flow { HasClosedFlow problem.now }
    requires reads { IsClosedReads problem.now reads.now }
    requires text { IsCompactCertificate problem.now bytes.now certificate.table certificate.void }
    ensures shows { (result ≡ Err no_memory)
        ⊎ CompactShows problem.now certificate.table certificate.void reads.now result }
    ensures accepted { OnOk result
        (Accepts problem.now.sorted.scheme.rules problem.now.sorted.automaton.transitions) }
{
    let entries = entry_count(&certificate);
    let void = pair_count(&certificate);
    match check_numbered(alloc, problem, reads, certificate) {
        Ok(()) => Ok(Shown::Compact {
            entries: entries as u64,
            void: void as u64,
        }),
        Err(CertificateFault::HasStart) => Err(Fault::HasStart),
        Err(CertificateFault::NotVoid { place }) => {
            Err(not_void(alloc, bytes, line_of_pair(entries, place)))
        }
        Err(CertificateFault::Missing { entry }) => Err(missing(alloc, problem, &entry)),
        Err(CertificateFault::OutOfMemory) => Err(no_memory()),
        // The flow holds all that is demanded.
        Err(_) => unreachable!(),
    }
}

/// The numbers of entries and of void environments, where they are a certificate of acceptance with
/// the read pairs of the problem. The bytes are the text that they were read from.
fn shown_compact(
    alloc: Global,
    problem: &Problem,
    bytes: &[u8],
    certificate: NumberedCertificate,
) -> Result<Shown, Fault>
    requires flow { HasClosedFlow problem.now }
    requires text { IsCompactCertificate problem.now bytes.now certificate.table certificate.void }
    ensures shows { (result ≡ Err no_memory) ⊎ OwnReads problem.now (λ reads.
        CompactShows problem.now certificate.table certificate.void reads result) }
    ensures accepted { OnOk result
        (Accepts problem.now.sorted.scheme.rules problem.now.sorted.automaton.transitions) }
{
    match Reads::of(alloc, problem) {
        Ok(reads) => {
            let shown = shown_by(alloc, problem, &reads, bytes, certificate);
            forget(reads);
            shown
        }
        Err(OutOfMemory) => {
            forget(certificate);
            Err(no_memory())
        }
    }
}

/// What a certificate in the full form shows.
fn shown_table(
    alloc: Global,
    problem: &Problem,
    table: Vec<Entry>,
    checked: u64,
) -> Result<Shown, Fault>
    requires flow { HasClosedFlow problem.now }
    ensures shows { (result ≡ Err no_memory) ⊎ TableShows problem.now table.items checked result }
    ensures accepted { OnOk result
        (Accepts problem.now.sorted.scheme.rules problem.now.sorted.automaton.transitions) }
{
    let shown = shown_full(alloc, problem, table.as_slice(), checked);
    // A run ends here, and to give back a million entries one by one would take longer than the
    // system does.
    forget(table);
    shown
}

/// What a certificate shows that was read from these bytes.
fn shown_of(alloc: Global, problem: &Problem, bytes: &[u8], cert: Cert) -> Result<Shown, Fault>
    requires flow { HasClosedFlow problem.now }
    requires text { IsCert problem.now bytes.now cert }
    ensures shows { CertShows problem.now cert result }
    ensures accepted { OnOk result
        (Accepts problem.now.sorted.scheme.rules problem.now.sorted.automaton.transitions) }
{
    match cert {
        Cert::Full { table, checked } => shown_table(alloc, problem, table, checked),
        Cert::Compact { certificate } => shown_compact(alloc, problem, bytes, certificate),
    }
}

/// What the table of these bytes shows, where it shows that the scheme is accepted.
pub(crate) fn verified(alloc: Global, problem: &Problem, bytes: &[u8]) -> Result<Shown, Fault>
    requires states { AreNames problem.now.sorted.names.states }
    requires rules { AreNames problem.now.sorted.names.rules }
    requires flow { HasClosedFlow problem.now }
    ensures answers { (result ≡ Err no_memory) ⊎ TextShows problem.now bytes.now result }
    ensures accepted { OnOk result
        (Accepts problem.now.sorted.scheme.rules problem.now.sorted.automaton.transitions) }
{
    match read_table(alloc, problem, bytes) {
        Ok(cert) => shown_of(alloc, problem, bytes, cert),
        Err(TableFault::Line { line }) => Err(Fault::TableLine { line }),
        Err(TableFault::OutOfMemory) => Err(no_memory()),
    }
}
