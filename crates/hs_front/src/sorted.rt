//! From the bytes of a file to its scheme with sorts.

ghost use Rattle.std.specs.Prelude.{◌≡◌, ◌≤◌, ◌<◌, length, slice_get, Some, IfOk, IfErr};
ghost use Rattle.hs_scheme.specs.sorting.Unsorted.{UnsortedData, IsUnsorted};
ghost use Rattle.hs_scheme.specs.sorting.Sorted.{IsSorted};
ghost use Rattle.hs_sorts.specs.Inference.{IsSortFault};
ghost use Rattle.hs_front.specs.Files.{IsSchemeOf};
ghost use Rattle.hs_front.specs.Problems.{IsSortedFile};
ghost use Rattle.hs_front.specs.Faults.{IsSortRefusal, IsFileFault};

use crate::refusal::Refusal;
use hs_reader::{MAX_BYTES, read_file};
use hs_resolve::resolve_owned;
use hs_scheme::{Name, OutOfMemory, Sorted, Unsorted};
use hs_sorts::{SortFault, infer};
use std::alloc::Global;

/// The scheme of the bytes of a file. What the file says is given back as soon as it is numbered.
fn scheme_of(alloc: Global, bytes: &[u8]) -> Result<Unsorted, Refusal>
    requires { length bytes.now ≤ MAX_BYTES }
    ensures scheme { IfOk result (λ u. IsSchemeOf bytes.now u) }
    ensures refused { IfErr result (IsFileFault bytes.now) }
{
    let raw = read_file(alloc, bytes)?;
    Ok(resolve_owned(alloc, raw)?)
}

/// The name of a terminal of a scheme.
fn name_in(alloc: Global, unsorted: Unsorted, terminal: u32) -> Result<Name, OutOfMemory>
    requires { terminal < length unsorted.ranks }
    ensures { IfOk result (λ name. slice_get unsorted.names.terminals terminal ≡ Some name) }
{
    let names = unsorted.names;
    let terminals = names.terminals;
    terminals[terminal as usize].copy(alloc)
}

/// The name of a terminal. Inference consumes the names, so the file is read anew for it.
fn terminal_name(alloc: Global, bytes: &[u8], terminal: u32) -> Result<Name, OutOfMemory>
    requires length { length bytes.now ≤ MAX_BYTES }
    requires in_range { (u : UnsortedData) → IsSchemeOf bytes.now u → terminal < length u.ranks }
    ensures { IfOk result (λ name. (u : UnsortedData) → IsSchemeOf bytes.now u
        → slice_get u.names.terminals terminal ≡ Some name) }
{
    let Ok(unsorted) = scheme_of(alloc, bytes) else {
        return Err(OutOfMemory);
    };
    name_in(alloc, unsorted, terminal)
}

/// The refusal of a fault in the sorts.
fn sort_refusal(alloc: Global, bytes: &[u8], fault: SortFault) -> Refusal
    requires length { length bytes.now ≤ MAX_BYTES }
    requires fault { (u : UnsortedData) → IsSchemeOf bytes.now u → IsSortFault u.rules u.ranks fault }
    ensures { (u : UnsortedData) → IsSchemeOf bytes.now u → IsSortRefusal u result }
{
    match fault {
        SortFault::IllSorted { rule } => Refusal::IllSorted { rule },
        SortFault::TerminalNotFirstOrder { terminal } => {
            match terminal_name(alloc, bytes, terminal) {
                Ok(terminal) => Refusal::NotFirstOrder { terminal },
                Err(_) => Refusal::OutOfMemory,
            }
        }
        SortFault::SortTooLarge { rule } => Refusal::SortTooLarge { rule },
        SortFault::RuleTooLong { rule } => Refusal::RuleTooLong { rule },
        SortFault::OutOfMemory => Refusal::OutOfMemory,
    }
}

/// What holds of each scheme before its sorts are known.
fn know_unsorted(unsorted: &Unsorted)
    ensures { IsUnsorted unsorted.now }
{
    let _ = &unsorted.rules;
}

/// What holds of each scheme with its sorts.
fn know_sorted(sorted: &Sorted)
    ensures { IsSorted sorted.now }
{
    let _ = &sorted.names;
}

/// The scheme of the bytes of a file with its sorts, or why there is none: `Syntax`, `Limit`, `Names`
/// and the refusals by sorts, each with its cause.
///
/// Takes time and memory in proportion to the bytes, on average.
pub fn sorted_of(alloc: Global, bytes: &[u8]) -> Result<Sorted, Refusal>
    requires { length bytes.now ≤ MAX_BYTES }
    ensures sorted { IfOk result (λ sorted. IsSortedFile bytes.now sorted) }
    ensures refused { IfErr result (IsFileFault bytes.now) }
{
    let unsorted = scheme_of(alloc, bytes)?;
    know_unsorted(&unsorted);
    match infer(alloc, unsorted) {
        Ok(sorted) => {
            know_sorted(&sorted);
            Ok(sorted)
        }
        Err(fault) => Err(sort_refusal(alloc, bytes, fault)),
    }
}
