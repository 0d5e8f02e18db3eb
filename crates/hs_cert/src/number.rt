//! Numbers.

ghost use Rattle.std.specs.Prelude.{◌≡◌, ◌≢◌, ◌<◌, ◌^◌, ◌++◌, ℕ, IfSome, IfNone, IsTrue, ◌↔◌, decimal};

use itoa::Buffer;

/// Whether this is the number in decimal, without leading zeros.
fn is_text_of(number: u64, digits: &str) -> bool
    ensures { IsTrue result ↔ (digits.now ≡ decimal number) }
{
    let mut buffer = Buffer::new();
    buffer.format(number) == digits
}

/// The number that this is in decimal, without leading zeros. What the digits stand for is written
/// once more: only the text that it has is taken.
fn number_in(digits: &str) -> Option<u64>
    ensures some { IfSome result (λ n. digits.now ≡ decimal n) }
    ensures fits { IfSome result (λ n. n < 2 ^ 64) }
    ensures none { IfNone result ((n : ℕ) → n < 2 ^ 64 → digits.now ≢ decimal n) }
{
    match u64::from_str_radix(digits, 10) {
        Ok(number) => {
            if is_text_of(number, digits) {
                Some(number)
            } else {
                None
            }
        }
        Err(_) => None,
    }
}

/// The number that these bytes are in decimal, without leading zeros.
pub(crate) fn number_of(text: &[u8]) -> Option<u64>
    ensures some { IfSome result (λ n. text.now ≡ decimal n) }
    ensures fits { IfSome result (λ n. n < 2 ^ 64) }
    ensures none { IfNone result ((n : ℕ) → n < 2 ^ 64 → text.now ≢ decimal n) }
{
    match str::from_utf8(text) {
        Ok(digits) => number_in(digits),
        Err(_) => None,
    }
}

/// The number that stands behind these words, to the end of the line.
pub(crate) fn number_behind(words: &[u8], line: &[u8]) -> Option<u64>
    ensures some { IfSome result (λ n. line.now ≡ words.now ++ decimal n) }
    ensures fits { IfSome result (λ n. n < 2 ^ 64) }
    ensures none { IfNone result ((n : ℕ) → n < 2 ^ 64 → line.now ≢ words.now ++ decimal n) }
{
    match line.strip_prefix(words) {
        Some(digits) => number_of(digits),
        None => None,
    }
}
