//! The command.

ghost use Rattle.std.specs.Prelude.{◌≡◌, Some, None, false, map, option_map, IfOk, IfSome, IsErrOf};
ghost use Rattle.clap.specs.Matches.{found_of};
ghost use Rattle.clap.specs.Walk.{first_of, rows_of, rule_of};
ghost use Rattle.clap.specs.Words.{app_of};
ghost use Rattle.hs_words.specs.Words as words;
ghost use Rattle.hs_words.specs.Settings.{AreSettingsWithin};
ghost use Rattle.hs_words.specs.Words.{AreWithin, options_of, said_by, texts};
ghost use Rattle.hs_words.specs.declared.fault.WordsFault.TheVariants.{Usage};

use crate::fault::WordsFault;
use crate::number::{is_set, number_if, number_or};
use crate::options::{Options, Settings};
use clap::{Arg, ArgAction, ArgMatches, Command};
use std::alloc::{AllocError, Global};

/// An option with a value.
fn option<'a>(alloc: Global, name: &'a str) -> Arg<'a>
    ensures rule { rule_of result ≡ words.option name.entry.now }
    ensures local { result.global ≡ false }
{
    Arg::new(alloc, name).long(name)
}

/// An option without a value.
fn flag<'a>(alloc: Global, name: &'a str) -> Arg<'a>
    ensures rule { rule_of result ≡ words.flag name.entry.now }
    ensures local { result.global ≡ false }
{
    option(alloc, name).action(ArgAction::SetTrue)
}

/// The command without options.
fn bare<'a>(alloc: Global) -> Command<'a>
    ensures { app_of result ≡ words.bare }
{
    Command::new(alloc, "horsat").disable_help_flag(true)
}

/// The command with the options that bound a run.
fn with_bounds<'a>(alloc: Global, command: Command<'a>) -> Result<Command<'a>, AllocError>
    ensures { IfOk result (λ added. app_of added ≡ words.with_bounds (app_of command.entry)) }
{
    command
        .arg(option(alloc, "workers"))?
        .arg(option(alloc, "entries"))?
        .arg(option(alloc, "steps"))
}

/// The command with the options without a value.
fn with_flags<'a>(alloc: Global, command: Command<'a>) -> Result<Command<'a>, AllocError>
    ensures { IfOk result (λ added. app_of added ≡ words.with_flags (app_of command.entry)) }
{
    command
        .arg(flag(alloc, "table"))?
        .arg(flag(alloc, "first"))?
        .arg(flag(alloc, "minimal"))?
        .arg(flag(alloc, "quick"))?
        .arg(flag(alloc, "explain"))?
        .arg(flag(alloc, "simplify"))
}

/// The command, to which help and version are unknown words like others.
fn horsat<'a>(alloc: Global) -> Result<Command<'a>, AllocError>
    ensures { IfOk result (λ command. app_of command ≡ words.horsat) }
{
    with_flags(alloc, with_bounds(alloc, bare(alloc))?)?
        .arg(option(alloc, "gen"))?
        .arg(Arg::new(alloc, "file"))
}

/// The value of an option, a flag or FILE, by its name.
fn value<'a>(matches: &ArgMatches<'a>, name: &str) -> Option<&'a str>
    ensures { option_map (λ t. t.now) result ≡ first_of name.now (rows_of (found_of matches.now)) }
{
    matches.get_str(name)
}

/// The settings among the matches. `None` where a number is refused.
fn settings<'a>(matches: &ArgMatches<'a>) -> Option<Settings>
    ensures said { result ≡ words.settings_in (rows_of (found_of matches.now)) }
    ensures within { IfSome result AreSettingsWithin }
{
    let workers = number_or(4, 1, 16, value(matches, "workers"))?;
    let entries = number_or(200_000, 1, 1_000_000, value(matches, "entries"))?;
    let steps = number_or(1_000_000, 1, 4_000_000, value(matches, "steps"))?;
    Some(Settings {
        workers,
        entries,
        steps: u64::from(steps),
        table: is_set(value(matches, "table")),
        first: is_set(value(matches, "first")),
        minimal: is_set(value(matches, "minimal")),
        quick: is_set(value(matches, "quick")),
        explain: is_set(value(matches, "explain")),
        simplify: is_set(value(matches, "simplify")),
    })
}

/// What the matches say. `None` where a number is refused, or FILE and `--gen` are both given.
fn options<'a>(matches: &ArgMatches<'a>) -> Option<Options<'a>>
    ensures said { option_map said_by result ≡ words.said (rows_of (found_of matches.now)) }
    ensures within { IfSome result AreWithin }
{
    let settings = settings(matches)?;
    let cycle = number_if(1, 300, value(matches, "gen"))?;
    let file = value(matches, "file");
    if cycle.is_some() && file.is_some() {
        return None;
    }
    Some(Options {
        settings,
        cycle,
        file,
    })
}

/// Reads the words of the command line, of which the first is the program's name and isn't looked
/// at.
///
/// The command is a simple one of `clap`: `--workers`, `--entries`, `--steps` and `--gen` take one
/// number each, as `--gen 2` or `--gen=2`; `--table`, `--first`, `--minimal`, `--quick`, `--explain` and
/// `--simplify` take no value; another word is the file, and behind `--` every word is. Nothing is given
/// twice. A number is one to nine ASCII digits with a value in its range. `Usage` comes exactly where the
/// words aren't of this form, a number is out of form or range, or a file and `--gen` are both given. Time
/// and memory are in proportion to the words.
pub fn read_words<'a>(alloc: Global, words: &'a [&'a str]) -> Result<Options<'a>, WordsFault>
    ensures ok { IfOk result (λ options. options_of (texts words.entry.now) ≡ Some (said_by options)) }
    ensures within { IfOk result AreWithin }
    ensures usage { IsErrOf result Usage → options_of (texts words.entry.now) ≡ None }
{
    let command = horsat(alloc)?;
    let matches = command.try_get_matches_from(words)?;
    match options(&matches) {
        Some(options) => Ok(options),
        None => Err(WordsFault::Usage),
    }
}
