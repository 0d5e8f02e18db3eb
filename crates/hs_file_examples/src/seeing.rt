//! The assertions that the tests share.

use hs_edge::{ReadAll, Source, read_all};
use std::alloc::Global;
use std::fmt::Debug;
use std::process::Abort;

/// Sees that what was found is what was expected, in the case that the note tells of.
pub(crate) fn see<T: PartialEq + Debug + Copy>(rt: &impl Abort, found: T, expected: T, note: &str) {
    assert_eq!(rt; found, expected, "{note}");
}

/// Looks at why not all is read of a source, with a limit of so many bytes.
pub(crate) fn see_refused<S: Source>(
    rt: &impl Abort,
    alloc: Global,
    source: &mut S,
    limit: usize,
    expected: ReadAll,
) {
    let refused = read_all(alloc, source, limit).err();
    see(rt, refused, Some(expected), "refused");
}
