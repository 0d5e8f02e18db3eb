//! Where a text leaves the grammar, and what could stand there.

use crate::grammar::{Place, expected_at, place_behind};
use crate::lexemes::{Follows, Lexeme, Span, follow_all};
use crate::placing::push_shown;
use hs_scheme::OutOfMemory;
use hs_trace::push_number;
use std::alloc::Global;

/// The most bytes of a lexeme that are shown.
const MOST_SHOWN: usize = 60;

/// The lexeme that can't stand where it does.
#[derive(Clone, Copy)]
struct Offence {
    place: Place,
    lexeme: Lexeme,
    span: Span,
}

/// A text that is followed in the grammar, up to the lexeme that can't stand where it does.
#[derive(Drop)]
struct Parsing {
    place: Place,
    offence: Option<Offence>,
}

impl Follows for Parsing {
    fn follow(&mut self, lexeme: Lexeme, text: &[u8], span: Span) {
        if self.offence.is_some() {
            return;
        }
        match place_behind(self.place, lexeme, text) {
            Some(place) => self.place = place,
            None => {
                self.offence = Some(Offence {
                    place: self.place,
                    lexeme,
                    span,
                });
            }
        }
    }

    fn is_done(&self) -> bool {
        self.offence.is_some()
    }
}

/// Puts a line and a column at the end.
pub(crate) fn push_span(span: Span, text: &mut Vec<u8>) -> Result<(), OutOfMemory> {
    text.extend_from_slice(b"line ")?;
    push_number(u64::from(span.line), text)?;
    text.extend_from_slice(b", column ")?;
    push_number(u64::from(span.column), text)?;
    text.extend_from_slice(b": ")?;
    Ok(())
}

/// Puts what stands at a place at the end: a name or a sign in quotes, not more than 60 bytes of it.
fn push_found(bytes: &[u8], offence: Offence, text: &mut Vec<u8>) -> Result<(), OutOfMemory> {
    if offence.lexeme == Lexeme::End {
        text.extend_from_slice(b"the file ends")?;
        return Ok(());
    }
    let found = offence.span.text(bytes);
    let shown = match found.get(..MOST_SHOWN) {
        Some(front) => front,
        None => found,
    };
    text.extend_from_slice(b"`")?;
    push_shown(shown, text)?;
    text.extend_from_slice(b"` stands")?;
    Ok(())
}

/// The line on a lexeme that can't stand where it does.
fn offence_line(alloc: Global, bytes: &[u8], offence: Offence) -> Result<Vec<u8>, OutOfMemory> {
    let mut text = Vec::new(alloc);
    push_span(offence.span, &mut text)?;
    push_found(bytes, offence, &mut text)?;
    text.extend_from_slice(b" where ")?;
    text.extend_from_slice(expected_at(offence.place))?;
    text.extend_from_slice(b" could stand\n")?;
    Ok(text)
}

/// What stands where the text leaves the grammar, on this line, counted from 1, and what could stand
/// there, as a line. None comes where memory doesn't suffice, or nothing is found on that line. Takes time
/// in proportion to the bytes.
pub fn syntax_text(alloc: Global, bytes: &[u8], line: u32) -> Option<Vec<u8>> {
    let mut parsing = Parsing {
        place: Place::Front,
        offence: None,
    };
    follow_all(bytes, &mut parsing);
    match parsing.offence {
        Some(offence) if offence.span.line == line => offence_line(alloc, bytes, offence).ok(),
        _ => None,
    }
}
