//! Runs in which a call of the source or of a sink fails.

use crate::running::{ACCEPTED, CALM, Ended, REJECTED, REPORT, WORDS, Ways, see_run};
use std::alloc::Global;
use std::mem::forget;
use std::process::Abort;
use std::sync::Wait;
use std::test::Fail;
use std::thread::Threads;

/// What is written where a run is refused.
const NOTHING: &[u8] = b"";

/// How often the source is called where it gives seven of the 125 bytes at a time: its start, 18 pieces and
/// the end.
const READS: u64 = 20;

#[test]
fn each_call_of_the_source_fails_in_turn(rt: HostRuntime) -> Result<(), Fail> {
    for call in 1..=READS + 1 {
        let ways = Ways {
            source: (7, call),
            ..CALM
        };
        let expected = if call > READS {
            (1, REPORT, "")
        } else {
            (8, NOTHING, "read fault\n")
        };
        see_run(&rt, rt.alloc(), REJECTED.as_bytes(), ways, &WORDS, expected)?;
    }
    Ok(())
}

/// How often `out` is called where it takes five of the 63 bytes at a time.
const WRITES: u64 = 13;

/// What was taken before this call.
fn taken(call: u64) -> &'static [u8] {
    let count = (call as usize).saturating_sub(1).saturating_mul(5);
    &REPORT[..count.min(REPORT.len())]
}

#[test]
fn each_call_of_the_sink_fails_in_turn(rt: HostRuntime) -> Result<(), Fail> {
    for call in 1..=WRITES + 1 {
        let ways = Ways {
            out: (5, call),
            ..CALM
        };
        let expected = if call > WRITES {
            (1, REPORT, "")
        } else {
            (9, taken(call), "write fault\n")
        };
        see_run(&rt, rt.alloc(), REJECTED.as_bytes(), ways, &WORDS, expected)?;
    }
    Ok(())
}

/// The numbers of the calls of the source, of `out` and of `err` that fail, 0 where none does.
type Calls = (u64, u64, u64);

/// Ways on which these calls fail, and `out` takes five bytes at a time.
fn failing(calls: Calls) -> Ways {
    let (source, out, err) = calls;
    Ways {
        source: (4_096, source),
        out: (5, out),
        err: (4_096, err),
    }
}

/// A file, which calls fail, the words, and how the run ends.
const FAULTS: [(&str, Calls, &[&str], Ended); 14] = [
    // The second read fails; the second write; there is no file of that name; `err` fails.
    (ACCEPTED, (3, 0, 0), &WORDS, (8, b"", "read fault\n")),
    (ACCEPTED, (0, 2, 0), &WORDS, (9, b"accep", "write fault\n")),
    (
        ACCEPTED,
        (0, 0, 0),
        &["horsat", "g"],
        (8, b"", "read fault\n"),
    ),
    ("", (0, 0, 1), &WORDS, (5, b"", "")),
    // Of two faults the earlier one: the words, reading, the bytes read so far, the budget, the verdict.
    (
        ACCEPTED,
        (1, 1, 0),
        &["horsat", "--nosuch", "g"],
        (4, b"", USAGE),
    ),
    ("S", (3, 1, 0), &WORDS, (8, b"", "read fault\n")),
    ("S", (0, 1, 0), &WORDS, (5, b"", "line 1: syntax\n")),
    (
        ACCEPTED,
        (0, 1, 0),
        &["horsat", "--entries", "3", "f"],
        (3, b"", "limit: entries\n"),
    ),
    (
        REJECTED,
        (0, 3, 0),
        &["horsat", "--steps", "9", "f"],
        (9, b"rejected\ne", "write fault\n"),
    ),
    // Where `err` fails, too, the status is the same.
    (ACCEPTED, (2, 0, 1), &WORDS, (8, b"", "")),
    (ACCEPTED, (0, 1, 1), &WORDS, (9, b"", "")),
    (ACCEPTED, (1, 0, 1), &["horsat", "--table=x"], (4, b"", "")),
    // A generated file reads nothing.
    (
        "",
        (1, 0, 1),
        &["horsat", "--gen", "1"],
        (1, b"rejected\nentries 7\npath br/1 c\nstate s0\n", ""),
    ),
    // Standard input has the name `-`.
    (ACCEPTED, (0, 0, 0), &["horsat"], (8, b"", "read fault\n")),
];

const USAGE: &str =
    "usage: horsat [--workers N] [--entries N] [--steps N] [--table] [--first] [--minimal] [--quick] \
     [--explain] [--simplify] [--gen K] [FILE]\n";

#[test]
fn of_several_faults_the_first_is_told(rt: HostRuntime) -> Result<(), Fail> {
    for (text, calls, words, expected) in &FAULTS {
        let ways = failing(*calls);
        see_run(&rt, rt.alloc(), text.as_bytes(), ways, words, *expected)?;
    }
    Ok(())
}

#[test]
fn a_byte_at_a_time(rt: HostRuntime) -> Result<(), Fail> {
    let ways = Ways {
        source: (1, 0),
        out: (1, 0),
        err: (1, 0),
    };
    see_run(
        &rt,
        rt.alloc(),
        REJECTED.as_bytes(),
        ways,
        &WORDS,
        (1, REPORT, ""),
    )
}

/// Looks at runs on a byte more than a file may have. The source gives it at its call 4,098, if that doesn't
/// fail, and is not called again.
fn see_too_long<R: Abort + Threads + Wait + Sync>(
    rt: &R,
    alloc: Global,
    bytes: &[u8],
) -> Result<(), Fail> {
    let last = failing((4_098, 0, 0));
    see_run(rt, alloc, bytes, last, &WORDS, (8, b"", "read fault\n"))?;
    let next = failing((4_099, 0, 0));
    see_run(rt, alloc, bytes, next, &WORDS, (7, b"", "limit: file\n"))
}

#[test]
fn nothing_is_read_behind_the_limit(rt: HostRuntime) -> Result<(), Fail> {
    let bytes = vec![in rt.alloc(); b' '; 16_777_217]?;
    let seen = see_too_long(&rt, rt.alloc(), bytes.as_slice());
    forget(bytes);
    seen
}
