//! The two files that the words name.

ghost use Rattle.std.specs.Prelude.{◌≡◌, List, ℕ, map, option_map};
ghost use Rattle.hs_check.specs.Words as words_of;

/// The names of the two files.
#[derive(Clone, Copy)]
pub(crate) struct Files<'a> {
    pub(crate) scheme: &'a str,
    pub(crate) table: &'a str,
}

/// Whether a word begins with `-`.
fn is_option(word: &str) -> bool
    ensures { result ≡ words_of.is_option word.now }
{
    match word.as_bytes() {
        [first, ..] => *first == b'-',
        [] => false,
    }
}

/// The files that these two words name, where neither begins with `-`.
fn pair_of<'a>(scheme: &'a str, table: &'a str) -> Option<Files<'a>>
    ensures { option_map words_of.named result ≡ words_of.pair_of scheme.now table.now }
{
    if is_option(scheme) || is_option(table) {
        None
    } else {
        Some(Files { scheme, table })
    }
}

/// The files that the words name, of which the first is the program's name.
pub(crate) fn files_in<'a>(words: &[&'a str]) -> Option<Files<'a>>
    ensures { option_map words_of.named result ≡ words_of.files_in (map (λ word. word.now) words.now) }
{
    match words {
        [_, scheme, table] => pair_of(*scheme, *table),
        _ => None,
    }
}
