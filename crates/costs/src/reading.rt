//! The problem of a file on standard input.

ghost use Rattle.std.specs.Prelude.{◌≤◌, length};

use hs_edge::{FileSource, Source, read_all};
use hs_flow::{FlowFault, analyse};
use hs_reader::{MAX_BYTES, read_file};
use hs_resolve::resolve_owned;
use hs_scheme::{Points, Problem, Sorted, Unsorted};
use hs_sorts::infer;
use std::alloc::Global;

/// The most pairs of a flow.
pub(crate) const MOST_PAIRS: u32 = 4_000_000;

/// Why there is no problem.
pub(crate) enum Fault {
    /// The bytes aren't those of a scheme with sorts, they can't be read, or there is not enough memory.
    NoScheme,
    TooManyPairs,
}

/// The scheme of a file, without sorts.
fn unsorted_of(alloc: Global, bytes: &[u8]) -> Option<Unsorted>
    requires { length bytes.now ≤ 16777216 }
{
    let raw = read_file(alloc, bytes).ok()?;
    resolve_owned(alloc, raw).ok()
}

/// The scheme of the file on standard input.
fn scheme_of(alloc: Global, source: &mut FileSource) -> Option<Sorted> {
    let Ok(()) = source.start("-") else {
        return None;
    };
    let Ok(bytes) = read_all(alloc, source, MAX_BYTES) else {
        return None;
    };
    let unsorted = unsorted_of(alloc, bytes.as_slice());
    drop(bytes);
    infer(alloc, unsorted?).ok()
}

/// Why there is no flow.
fn fault_of(fault: FlowFault) -> Fault {
    match fault {
        FlowFault::FlowLimit => Fault::TooManyPairs,
        FlowFault::OutOfMemory => Fault::NoScheme,
    }
}

/// The problem of the file on standard input.
pub(crate) fn problem_of(alloc: Global, source: &mut FileSource) -> Result<Problem, Fault> {
    let Some(sorted) = scheme_of(alloc, source) else {
        return Err(Fault::NoScheme);
    };
    let Ok(points) = Points::of(alloc, &sorted.scheme) else {
        drop(sorted);
        return Err(Fault::NoScheme);
    };
    match analyse(alloc, &sorted.scheme, &points, MOST_PAIRS) {
        Ok(flow) => Ok(Problem::new(sorted, points, flow)),
        Err(fault) => {
            drop(points);
            drop(sorted);
            Err(fault_of(fault))
        }
    }
}
