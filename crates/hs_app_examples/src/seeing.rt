//! The assertion that the tests share.

use std::fmt::Debug;
use std::process::Abort;

/// Sees that what was found is what was expected, in the case that the note tells of.
pub(crate) fn see<T: PartialEq + Debug + Copy>(rt: &impl Abort, found: T, expected: T, note: &str) {
    assert_eq!(rt; found, expected, "{note}");
}
