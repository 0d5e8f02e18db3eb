//! What the words say.

use std::marker::Model;

/// How the verdict is found, and what is shown with it. Each number is in its range.
#[derive(Clone, Copy, Debug, PartialEq, Eq)]
pub struct Settings {
    /// How many workers saturate, 1 to 16.
    pub workers: u32,
    /// The most entries of a table, 1 to 1,000,000.
    pub entries: u32,
    /// The most reduction steps of a path, 1 to 4,000,000.
    pub steps: u64,
    /// Whether the table is asked for.
    pub table: bool,
    /// Whether no more work is taken once the start entry stands.
    pub first: bool,
    /// Whether a compact table is shown beside the least one.
    pub minimal: bool,
    /// Whether a verdict by evidence is sought before the table is filled.
    pub quick: bool,
    /// Whether the answer is explained on standard error.
    pub explain: bool,
    /// Whether the scheme is made smaller before it is decided.
    pub simplify: bool,
}

impl Model for Settings {
    ghost use Rattle.hs_words.specs.Settings.{SettingsData, settings_of, AreSettingsWithin};

    ghost Value = { SettingsData };

    ghost view = { settings_of };

    ghost invariant = { λ a. AreSettingsWithin (settings_of a) };

    ghost inverse = { λ s. record {
      workers = s.workers;
      entries = s.entries;
      steps = s.steps;
      table = s.table;
      first = s.first;
      minimal = s.minimal;
      quick = s.quick;
      explain = s.explain;
      simplify = s.simplify;
    } };
}

/// What the words of the command line say.
#[derive(Clone, Copy, Debug, PartialEq, Eq)]
pub struct Options<'a> {
    pub settings: Settings,
    /// The number of states of the generated file that is read in place of a file, 1 to 300: the
    /// value of `--gen`.
    pub cycle: Option<u32>,
    /// The name of the file to read. There is none where there is a `cycle`; where neither is given,
    /// standard input is read.
    pub file: Option<&'a str>,
}
