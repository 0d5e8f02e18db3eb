//! Names by number.

use hs_scheme::Name;

/// The name with this number, counted from 0, or `?` where there is none.
pub fn name_of(names: &[Name], number: usize) -> &str {
    match names.get(number) {
        Some(name) => str::from_utf8(name.bytes()).unwrap_or("?"),
        None => "?",
    }
}
