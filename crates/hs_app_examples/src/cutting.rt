//! A file that is cut off.

use crate::running::{ACCEPTED, CALM, WORDS, see_run};
use std::test::Fail;

/// The lines of the file, and where each begins.
const LINES: [(usize, &str); 6] = [
    (0, "line 1: syntax\n"),
    (8, "line 2: syntax\n"),
    (45, "line 3: syntax\n"),
    (51, "line 4: syntax\n"),
    (59, "line 5: syntax\n"),
    (131, "line 6: syntax\n"),
];

/// The line of a refusal at this place of the file.
fn line_at(place: usize) -> &'static str {
    let mut found = "";
    for (begin, line) in &LINES {
        if *begin <= place {
            found = line;
        }
    }
    found
}

#[test]
fn a_file_is_cut_off_after_each_byte(rt: HostRuntime) -> Result<(), Fail> {
    let bytes = ACCEPTED.as_bytes();
    // The last byte of `%ENDA` has a line feed behind it.
    for end in 0..bytes.len().saturating_sub(1) {
        let begin = &bytes[..end];
        see_run(&rt, rt.alloc(), begin, CALM, &WORDS, (5, b"", line_at(end)))?;
    }
    Ok(())
}
