//! The tokens of a file, one after another.

ghost use Rattle.std.specs.Prelude.{◌≡◌, ◌≤◌, ◌<◌, ◌+◌, ◌^◌, ◌==◌, ◌&&◌, true, false, length, drop, Option, MatchOption, IfSome, None, ℕ};
ghost use Rattle.std.specs.Option.{option_map};
ghost use Rattle.hs_reader.specs.Reading.{view, marker, arrow_front, sign_front, front, line_behind, starts_with, comment_rest, gap_rest, tokens, from_token};
ghost use Rattle.hs_reader.specs.ReadingStages.{Shortens};

use crate::token::{Token, is_blank, is_name_byte, run_length};

fn marker(run: &[u8]) -> Token<'static>
    ensures { (line : ℕ) → view line result ≡ marker run.now }
{
    if run == b"BEGING".as_slice() {
        Token::RulesBegin
    } else if run == b"ENDG".as_slice() {
        Token::RulesEnd
    } else if run == b"BEGINA".as_slice() {
        Token::AutomatonBegin
    } else if run == b"ENDA".as_slice() {
        Token::AutomatonEnd
    } else {
        Token::Bad
    }
}

fn arrow_front(behind: &[u8]) -> (Token<'_>, &[u8])
    ensures { (line : ℕ) → (view line result.0, result.1.now) ≡ arrow_front behind.now }
{
    match behind {
        [b'>', rest @ ..] => (Token::Arrow, rest),
        _ => (Token::Bad, behind),
    }
}

fn sign_front(first: u8, behind: &[u8]) -> (Token<'_>, &[u8])
    ensures { (line : ℕ) → (view line result.0, result.1.now) ≡ sign_front first behind.now }
{
    match first {
        b'.' => (Token::Dot, behind),
        b'(' => (Token::Left, behind),
        b')' => (Token::Right, behind),
        b'-' => arrow_front(behind),
        _ => (Token::Bad, behind),
    }
}

fn line_behind(line: u32, byte: u8) -> u32
    requires { line + 1 < 2 ^ 32 }
    ensures { result ≡ line_behind line byte }
{
    if byte == b'\n' { line + 1 } else { line }
}

/// The bytes behind `*/`, where these two stand at the front.
fn comment_end(first: u8, behind: &[u8]) -> Option<&[u8]>
    ensures { MatchOption result ((first == 42 && starts_with 47 behind.now) ≡ false)
        (λ rest. ((first == 42 && starts_with 47 behind.now) ≡ true) × (rest.now ≡ drop 1 behind.now)) }
{
    match behind {
        [b'/', rest @ ..] => { if first == b'*' { Some(rest) } else { None } }
        _ => None,
    }
}

/// The line and the bytes behind the first `*/`.
fn comment_rest(line: u32, bytes: &[u8]) -> Option<(u32, &[u8])>
    requires { line + length bytes.now < 2 ^ 32 }
    ensures value { option_map (λ p. (p.0, p.1.now)) result ≡ comment_rest line bytes.now }
    ensures within { IfSome result (λ p. p.0 + length p.1.now ≤ line + length bytes.now) }
    ensures shorter { IfSome result (λ p. length p.1.now ≤ length bytes.now) }
{
    let mut at = line;
    let mut rest = bytes;
    while let [first, behind @ ..] = rest {
        if let Some(after) = comment_end(*first, behind) {
            return Some((at, after));
        }
        at = line_behind(at, *first);
        rest = behind;
    }
    None
}

/// The line and the bytes behind a blank or a comment at the front.
fn gap_rest(line: u32, bytes: &[u8]) -> Option<(u32, &[u8])>
    requires { line + length bytes.now < 2 ^ 32 }
    ensures value { option_map (λ p. (p.0, p.1.now)) result ≡ gap_rest line bytes.now }
    ensures within { IfSome result (λ p. p.0 + length p.1.now ≤ line + length bytes.now) }
    ensures shorter { IfSome result (λ p. length p.1.now < length bytes.now) }
{
    let [first, behind @ ..] = bytes else {
        return None;
    };
    if is_blank(*first) {
        return Some((line_behind(line, *first), behind));
    }
    if *first != b'/' {
        return None;
    }
    let [b'*', text @ ..] = behind else {
        return None;
    };
    comment_rest(line, text)
}

/// The line and the bytes of the next token. A comment that isn't closed is none.
fn skip_gaps(line: u32, bytes: &[u8]) -> (u32, &[u8])
    requires { line + length bytes.now < 2 ^ 32 }
    ensures value { tokens line bytes.now ≡ from_token tokens result.0 (front result.0 result.1.now) }
    ensures within { result.0 + length result.1.now ≤ line + length bytes.now }
    ensures shorter { length result.1.now ≤ length bytes.now }
{
    let mut at = line;
    let mut rest = bytes;
    while let Some((line_after, after)) = gap_rest(at, rest) {
        at = line_after;
        rest = after;
    }
    (at, rest)
}

/// The token at the front and the bytes behind it.
#[tactic(auto, unfolding(crate::specs::Reading::front))]
fn front(bytes: &[u8]) -> (Token<'_>, &[u8])
    ensures { (line : ℕ) → (view line result.0, result.1.now) ≡ front line bytes.now }
{
    match bytes {
        [] => (Token::End, bytes),
        [first, behind @ ..] => {
            if is_name_byte(*first) {
                let (name, rest) = bytes.split_at(run_length(bytes));
                (Token::Name(name), rest)
            } else if *first == b'%' {
                let (run, rest) = behind.split_at(run_length(behind));
                (marker(run), rest)
            } else {
                sign_front(*first, behind)
            }
        }
    }
}

/// The bytes that are still to be read.
#[derive(Drop)]
pub(crate) struct Cursor<'a> {
    rest: &'a [u8],
    /// The line of the token that was read last, counted from 1.
    pub(crate) line: u32,
    ghost few_lines: { line + length rest.now < 2 ^ 32 },
}

impl<'a> Cursor<'a> {
    pub(crate) fn new(bytes: &'a [u8]) -> Self
        requires { length bytes.now ≤ 16777216 }
        ensures rest { result.rest.now ≡ bytes.now }
        ensures line { result.line ≡ 1 }
    {
        Cursor {
            rest: bytes,
            line: 1,
        }
    }

    /// The next token. Behind the last one it says nothing.
    pub(crate) fn next(&mut self) -> Token<'a>
        ensures value { tokens self.old.line self.old.rest.now
            ≡ from_token tokens self.new.line (view self.new.line result, self.new.rest.now) }
        ensures shorter { Shortens (view self.new.line result)
            (length self.new.rest.now) (length self.old.rest.now) }
    {
        let (line, rest) = skip_gaps(self.line, self.rest);
        let (token, rest) = front(rest);
        self.line = line;
        self.rest = rest;
        token
    }
}
