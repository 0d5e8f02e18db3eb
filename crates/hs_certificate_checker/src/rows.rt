//! The check of rows and of void pairs by number.

ghost use Rattle.std.specs.Prelude.{◌≡◌, List, IfErr, OnOk};
ghost use Rattle.hs_table.specs.Entries.{EntryData};
ghost use Rattle.hs_weak.specs.Void.{VoidData, IsVoidList};
ghost use Rattle.hs_types.specs.Interned.{IsRow};
ghost use Rattle.hs_choices.specs.Numbered.{AreNumbered};
ghost use Rattle.hs_void.specs.Voids.{Fits};
ghost use Rattle.hs_certificate_checker.specs.Faults.{AreInVoidShape, IsFlaw, NamesRow};
ghost use Rattle.hs_certificate_checker.specs.Settled.{StandFor, IsNumbered, AreSettled};

use crate::fault::CertificateFault;
use crate::missing::first_missing;
use hs_choices::Compared;
use hs_numbered::VoidRow;
use hs_reads::Reads;
use hs_scheme::Problem;
use hs_sites::Sites;
use hs_types::Row;
use hs_void::Voids;
use std::alloc::Global;

/// The fault of the row's entry, which is missing.
fn missing(alloc: Global, types: &Compared, row: Row) -> CertificateFault
    requires { IsRow types.now row }
    ensures { NamesRow types.now row result }
{
    match types.interner().tree(alloc, row) {
        Ok(entry) => CertificateFault::Missing { entry },
        Err(_) => CertificateFault::OutOfMemory,
    }
}

/// The check of void pairs, and of what follows from the rows of a table, by which environments are void.
fn check_voids(
    alloc: Global,
    problem: &Problem,
    reads: &Reads,
    types: &mut Compared,
    voids: &mut Voids,
    table: &[Row],
) -> Result<(), CertificateFault>
    requires fits { Fits types.old voids.old }
    requires problem { problem.now ≡ voids.old.basis.problem }
    requires table { table.now ≡ voids.old.basis.table }
    ensures whole { (C : List EntryData) (V : List VoidData) → StandFor voids.old.basis types.old C V
        → AreInVoidShape problem.now V
        → OnOk result (IsVoidList problem.now C V × AreSettled problem.now C V reads.now) }
    ensures flaw { (C : List EntryData) (V : List VoidData) → StandFor voids.old.basis types.old C V
        → AreInVoidShape problem.now V → IfErr result (IsFlaw problem.now C V reads.now) }
{
    if let Some(place) = voids.first_not_void(types)? {
        return Err(CertificateFault::NotVoid { place });
    }
    match first_missing(alloc, problem, reads, types, voids, table)? {
        Some(row) => Err(missing(alloc, types, row)),
        None => Ok(()),
    }
}

/// The check of the rows of a table and of void pairs, which are in shape.
pub(crate) fn check_rows(
    alloc: Global,
    problem: &Problem,
    reads: &Reads,
    types: &mut Compared,
    table: &[Row],
    void: &[VoidRow],
) -> Result<(), CertificateFault>
    requires { IsNumbered problem.now types.old table.now void.now }
    ensures whole { (C : List EntryData) (V : List VoidData)
        → AreNumbered problem.now C V types.old table.now void.now → AreInVoidShape problem.now V
        → OnOk result (IsVoidList problem.now C V × AreSettled problem.now C V reads.now) }
    ensures flaw { (C : List EntryData) (V : List VoidData)
        → AreNumbered problem.now C V types.old table.now void.now → AreInVoidShape problem.now V
        → IfErr result (IsFlaw problem.now C V reads.now) }
{
    let sites = Sites::of(alloc, problem)?;
    let mut voids = Voids::new(alloc, problem, &sites, table, void)?;
    check_voids(alloc, problem, reads, types, &mut voids, table)
}
