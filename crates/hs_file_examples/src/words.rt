//! What the words of the command line say. Words that are refused are rows of `.ci/rows`.

use hs_words::{Options, read_words};
use std::alloc::Global;
use std::process::Abort;

/// What words say, whatever their numbers are.
#[derive(Clone, Copy, Debug, PartialEq, Eq)]
struct Said<'w> {
    workers: u32,
    entries: u32,
    steps: u64,
    table: bool,
    first: bool,
    minimal: bool,
    quick: bool,
    explain: bool,
    simplify: bool,
    cycle: Option<u32>,
    file: Option<&'w str>,
}

/// What no words say.
const DEFAULT: Said = Said {
    workers: 4,
    entries: 200_000,
    steps: 1_000_000,
    table: false,
    first: false,
    minimal: false,
    quick: false,
    explain: false,
    simplify: false,
    cycle: None,
    file: None,
};

/// What these options are.
fn said_by<'w>(options: &Options<'w>) -> Said<'w> {
    let settings = options.settings;
    Said {
        workers: settings.workers,
        entries: settings.entries,
        steps: settings.steps,
        table: settings.table,
        first: settings.first,
        minimal: settings.minimal,
        quick: settings.quick,
        explain: settings.explain,
        simplify: settings.simplify,
        cycle: options.cycle,
        file: options.file,
    }
}

/// Looks at what these words say.
fn see_words<'w>(rt: &impl Abort, alloc: Global, words: &'w [&'w str], expected: Said<'w>) {
    let said = match read_words(alloc, words) {
        Ok(options) => Some(said_by(&options)),
        Err(_) => None,
    };
    assert_eq!(rt; said, Some(expected), "{words:?}");
}

/// Words, whether the table, the first entry and evidence are asked for, and the file.
const FLAGS: [(&[&str], bool, bool, bool, Option<&str>); 14] = [
    (&["horsat"], false, false, false, None),
    (&["--nosuch"], false, false, false, None),
    (&["horsat", "f"], false, false, false, Some("f")),
    (&["horsat", "-"], false, false, false, Some("-")),
    (&["horsat", ""], false, false, false, Some("")),
    (&["horsat", "--table"], true, false, false, None),
    (&["horsat", "--quick"], false, false, true, None),
    (&["horsat", "--first", "f"], false, true, false, Some("f")),
    (
        &["horsat", "f", "--table", "--first"],
        true,
        true,
        false,
        Some("f"),
    ),
    (
        &["horsat", "--quick", "--table", "f"],
        true,
        false,
        true,
        Some("f"),
    ),
    (&["horsat", "--"], false, false, false, None),
    (
        &["horsat", "--first", "--", "f"],
        false,
        true,
        false,
        Some("f"),
    ),
    (
        &["horsat", "--", "--table"],
        false,
        false,
        false,
        Some("--table"),
    ),
    (&["horsat", "--", "-"], false, false, false, Some("-")),
];

#[test]
fn files_and_flags(rt: HostRuntime) {
    for (words, table, first, quick, file) in &FLAGS {
        let expected = Said {
            table: *table,
            first: *first,
            quick: *quick,
            file: *file,
            ..DEFAULT
        };
        see_words(&rt, rt.alloc(), words, expected);
    }
}

/// Words, whether a compact table and an explanation are asked for, and the file.
const FURTHER_FLAGS: [(&[&str], bool, bool, Option<&str>); 4] = [
    (&["horsat", "--minimal"], true, false, None),
    (&["horsat", "--explain", "f"], false, true, Some("f")),
    (
        &["horsat", "--explain", "f", "--minimal"],
        true,
        true,
        Some("f"),
    ),
    (
        &["horsat", "--", "--minimal"],
        false,
        false,
        Some("--minimal"),
    ),
];

#[test]
fn compact_tables_and_explanations(rt: HostRuntime) {
    for (words, minimal, explain, file) in &FURTHER_FLAGS {
        let expected = Said {
            minimal: *minimal,
            explain: *explain,
            file: *file,
            ..DEFAULT
        };
        see_words(&rt, rt.alloc(), words, expected);
    }
}

/// Words, the most entries and steps, and the number of the generated file.
const NUMBERS: [(&[&str], u32, u64, Option<u32>); 11] = [
    (&["horsat", "--entries", "1"], 1, 1_000_000, None),
    (&["horsat", "--entries=1000000"], 1_000_000, 1_000_000, None),
    (&["horsat", "--entries", "000000007"], 7, 1_000_000, None),
    (&["horsat", "--steps", "1"], 200_000, 1, None),
    (&["horsat", "--steps=4000000"], 200_000, 4_000_000, None),
    (&["horsat", "--gen", "1"], 200_000, 1_000_000, Some(1)),
    (&["horsat", "--gen=300"], 200_000, 1_000_000, Some(300)),
    (
        &["horsat", "--gen", "04", "--"],
        200_000,
        1_000_000,
        Some(4),
    ),
    (&["horsat", "--steps", "9", "--entries", "8"], 8, 9, None),
    (
        &["horsat", "--entries=8", "--gen=2", "--steps=9"],
        8,
        9,
        Some(2),
    ),
    (&["horsat", "--entries", "200000"], 200_000, 1_000_000, None),
];

#[test]
fn numbers_within_their_ranges(rt: HostRuntime) {
    for (words, entries, steps, cycle) in &NUMBERS {
        let expected = Said {
            entries: *entries,
            steps: *steps,
            cycle: *cycle,
            ..DEFAULT
        };
        see_words(&rt, rt.alloc(), words, expected);
    }
}

/// Words, the number of workers, whether the scheme is made smaller, and the file.
const WORKERS: [(&[&str], u32, bool, Option<&str>); 6] = [
    (&["horsat", "--workers", "1"], 1, false, None),
    (&["horsat", "--workers=16", "f"], 16, false, Some("f")),
    (&["horsat", "--workers", "04"], 4, false, None),
    (&["horsat", "--simplify"], 4, true, None),
    (&["horsat", "f", "--simplify"], 4, true, Some("f")),
    (&["horsat", "--simplify", "--workers=3"], 3, true, None),
];

#[test]
fn workers_and_simplification(rt: HostRuntime) {
    for (words, workers, simplify, file) in &WORKERS {
        let expected = Said {
            workers: *workers,
            simplify: *simplify,
            file: *file,
            ..DEFAULT
        };
        see_words(&rt, rt.alloc(), words, expected);
    }
}
