//! Canonical files.

use crate::seeing::see;
use hs_fixtures::{unsorted_of, unsorted_of_text};
use hs_scheme::Unsorted;
use hs_text::scheme_text;
use std::alloc::Global;
use std::mem::forget;
use std::process::Abort;
use std::test::Fail;

/// A file that is closed twice, or not at all.
const RESOURCE_USE: &[u8] = b"%BEGING
S -> Loop end.
Loop k -> br (close k) (read (Loop k)).
%ENDG
%BEGINA
q0 br -> q0 q0.
q0 read -> q0.
q0 close -> q1.
q1 end -> .
%ENDA
";

/// Looks at the canonical file of a scheme.
fn see_written(
    rt: &impl Abort,
    alloc: Global,
    unsorted: &Unsorted,
    note: &str,
) -> Result<(), Fail> {
    let text = scheme_text(alloc, unsorted)?;
    see(rt, text.as_slice(), RESOURCE_USE, note);
    forget(text);
    Ok(())
}

#[test]
fn canonical_file_of_a_file_and_of_itself(rt: HostRuntime) -> Result<(), Fail> {
    let alloc = rt.alloc();
    let written = unsorted_of(
        alloc,
        "S->(Loop end)./* a loop */ Loop k\n->br((close)k)\n(read(Loop k)).",
        "q0 br->q0 q0.q0 read->q0.q0 close->q1.q1 end->.",
    )?;
    let seen = see_written(&rt, alloc, &written, "written otherwise");
    forget(written);
    seen?;
    let again = unsorted_of_text(alloc, RESOURCE_USE)?;
    let seen = see_written(&rt, alloc, &again, "read again");
    forget(again);
    seen
}
