//! Numbers in words.

ghost use Rattle.std.specs.Prelude.{◌≡◌, ◌≤◌, IfSome, option_map};
ghost use Rattle.std.specs.Char.{is_ascii_digit};
ghost use Rattle.std.specs.List.{list_all};
ghost use Rattle.hs_words.specs.Words as words;

/// Whether all bytes are ASCII digits.
fn are_digits(bytes: &[u8]) -> bool
    ensures { result ≡ list_all is_ascii_digit bytes.now }
{
    bytes.iter().all(|byte| byte.is_ascii_digit())
}

/// Whether the text is one to nine ASCII digits.
fn is_numeral(text: &str) -> bool
    ensures { result ≡ words.is_numeral text.now }
{
    let bytes = text.as_bytes();
    1 <= bytes.len() && bytes.len() <= 9 && are_digits(bytes)
}

/// The number that one to nine digits write, where it is from `least` to `most`.
fn number_in(least: u32, most: u32, text: &str) -> Option<u32>
    ensures number { result ≡ words.number_in least most text.now }
    ensures within { IfSome result (λ n. (least ≤ n) × (n ≤ most)) }
{
    if !is_numeral(text) {
        return None;
    }
    match text.parse::<u32>() {
        Ok(number) => {
            if least <= number && number <= most {
                Some(number)
            } else {
                None
            }
        }
        Err(_) => None,
    }
}

/// The number of an option with a default. `None` where its value is refused.
pub(crate) fn number_or(default: u32, least: u32, most: u32, value: Option<&str>) -> Option<u32>
    requires { (least ≤ default) × (default ≤ most) }
    ensures number { result ≡ words.number_or default least most (option_map (λ t. t.now) value.entry) }
    ensures within { IfSome result (λ n. (least ≤ n) × (n ≤ most)) }
{
    match value {
        Some(text) => number_in(least, most, text),
        None => Some(default),
    }
}

/// The number of an option without a default. `None` where its value is refused.
pub(crate) fn number_if(least: u32, most: u32, value: Option<&str>) -> Option<Option<u32>>
    ensures number { result ≡ words.number_if least most (option_map (λ t. t.now) value.entry) }
    ensures within { IfSome result (λ number. IfSome number (λ n. (least ≤ n) × (n ≤ most))) }
{
    match value {
        Some(text) => match number_in(least, most, text) {
            Some(number) => Some(Some(number)),
            None => None,
        },
        None => Some(None),
    }
}

/// The value of a flag.
pub(crate) fn is_set(value: Option<&str>) -> bool
    ensures { result ≡ words.is_set (option_map (λ t. t.now) value.entry) }
{
    match value {
        Some(text) => text == "true",
        None => false,
    }
}
