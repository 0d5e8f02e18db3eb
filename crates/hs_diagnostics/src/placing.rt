//! Places of a file in a text.

use hs_reader::RawFile;
use hs_scheme::OutOfMemory;
use hs_trace::push_number;

/// The digits of base 16.
const DIGITS: [u8; 16] = *b"0123456789abcdef";

/// Whether bytes are text without control characters.
fn is_printable(bytes: &[u8]) -> bool {
    match str::from_utf8(bytes) {
        Ok(text) => {
            for character in text.chars() {
                if character.is_control() {
                    return false;
                }
            }
            true
        }
        Err(_) => false,
    }
}

/// A digit of base 16.
fn hex_digit(digit: u8) -> u8 {
    match DIGITS.get(usize::from(digit)) {
        Some(byte) => *byte,
        None => b'?',
    }
}

/// Puts bytes of a file or of a command line at the end, so that a terminal only shows them: as they are where they
/// are text, else each that isn't a printable character of ASCII as `\x` with two digits of base 16. Takes memory
/// for that alone.
pub fn push_shown(bytes: &[u8], text: &mut Vec<u8>) -> Result<(), OutOfMemory> {
    if is_printable(bytes) {
        text.extend_from_slice(bytes)?;
        return Ok(());
    }
    for byte in bytes {
        if byte.is_ascii_graphic() || *byte == b' ' {
            text.push(*byte)?;
        } else {
            text.extend_from_slice(&[b'\\', b'x', hex_digit(*byte / 16), hex_digit(*byte % 16)])?;
        }
    }
    Ok(())
}

/// Puts what stands on a line of the file at the end: what it is, its name or its two names, of which the
/// second may be empty, and the line, counted from 1. Takes memory for that alone.
pub fn push_placed(
    what: &[u8],
    first: &[u8],
    second: &[u8],
    line: u32,
    text: &mut Vec<u8>,
) -> Result<(), OutOfMemory> {
    text.extend_from_slice(what)?;
    text.extend_from_slice(b" ")?;
    text.extend_from_slice(first)?;
    if !second.is_empty() {
        text.extend_from_slice(b" ")?;
        text.extend_from_slice(second)?;
    }
    text.extend_from_slice(b" (line ")?;
    push_number(u64::from(line), text)?;
    text.extend_from_slice(b")")?;
    Ok(())
}

/// Puts the rule with this number, counted from 0, at the end, with its line. None comes where memory
/// doesn't suffice, or there is no such rule.
pub fn push_rule(raw: &RawFile, rule: u32, text: &mut Vec<u8>) -> Option<()> {
    let name = &raw.rules.get(rule as usize)?.name;
    push_placed(b"rule", name.text.bytes(), b"", name.line, text).ok()
}

/// Puts what is counted at the end: a number, how many there are, and how many there may be.
pub(crate) fn push_count(
    number: u64,
    all: u64,
    most: u64,
    text: &mut Vec<u8>,
) -> Result<(), OutOfMemory> {
    push_number(number, text)?;
    text.extend_from_slice(b" of ")?;
    push_number(all, text)?;
    text.extend_from_slice(b", at most ")?;
    push_number(most, text)?;
    text.extend_from_slice(b"\n")?;
    Ok(())
}
