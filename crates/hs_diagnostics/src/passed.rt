//! Where a text passes a limit, and by how much.

use crate::grammar::{Place, place_behind};
use crate::lexemes::{Follows, Lexeme, Span, follow_all};
use crate::placing::push_count;
use crate::syntax::push_span;
use hs_reader::Which;
use hs_scheme::{MAX_ARGUMENTS, MAX_PARAMETERS, MAX_RULES, OutOfMemory};
use std::alloc::Global;

/// What is counted, and how many there may be.
fn limit_of(which: Which) -> (&'static [u8], u64) {
    match which {
        Which::Name => (b"a name's byte ", 200),
        Which::Rules => (b"rule ", MAX_RULES as u64),
        Which::Parameters => (b"parameter ", MAX_PARAMETERS as u64),
        Which::Depth => (b"open parenthesis ", 200),
        Which::Arguments => (b"argument ", MAX_ARGUMENTS as u64),
        Which::Transitions => (b"transition ", 200_000),
        Which::Children => (b"state on the right ", 64),
    }
}

/// What a lexeme does to what is counted.
#[derive(Clone, Copy)]
enum Step {
    /// It begins what is counted anew.
    Begins,
    /// It is one more.
    OneMore,
    /// It ends what has them.
    Ends,
    Nothing,
}

/// What a lexeme at a place does to what is counted, but for parentheses and arguments.
fn step_of(which: Which, place: Place, lexeme: Lexeme) -> Step {
    let is_name = lexeme == Lexeme::Upper || lexeme == Lexeme::Lower;
    match (which, place) {
        (Which::Rules, Place::Rules(_)) if is_name => Step::OneMore,
        (Which::Rules, Place::Rules(_)) => Step::Ends,
        (Which::Parameters, Place::Rules(_)) => Step::Begins,
        (Which::Parameters, Place::Head) if is_name => Step::OneMore,
        (Which::Parameters, Place::Head) => Step::Ends,
        (Which::Transitions, Place::Transitions(_)) if is_name => Step::OneMore,
        (Which::Transitions, Place::Transitions(_)) => Step::Ends,
        (Which::Children, Place::Terminal) => Step::Begins,
        (Which::Children, Place::Children) if is_name => Step::OneMore,
        (Which::Children, Place::Children) => Step::Ends,
        _ => Step::Nothing,
    }
}

/// A text in which something is counted, up to the end of what has too many of it.
#[derive(Drop)]
struct Counting {
    which: Which,
    /// How many there may be.
    most: u64,
    place: Place,
    /// How many there are so far.
    count: u64,
    /// Of each term that is begun, the innermost last, how many atoms it has so far.
    atoms: Vec<u64>,
    /// The first place that passes the limit.
    passed: Option<Span>,
    /// How many terms are begun where that is an argument.
    level: usize,
    is_done: bool,
}

impl Counting {
    /// Nothing was read.
    fn new(alloc: Global, which: Which, most: u64) -> Counting {
        Counting {
            which,
            most,
            place: Place::Front,
            count: 0,
            atoms: Vec::new(alloc),
            passed: None,
            level: 0,
            is_done: false,
        }
    }

    /// Says that there are so many, the last of them at this place.
    fn reach(&mut self, number: u64, span: Span) {
        if self.passed.is_none() && number > self.most {
            self.passed = Some(span);
            self.level = self.atoms.len();
        }
        self.count = self.count.max(number);
    }

    /// Ends what has them: if they were too many, all is known.
    fn end(&mut self) {
        self.is_done = self.passed.is_some();
        if !self.is_done {
            self.count = 0;
        }
    }

    /// Counts a lexeme, where it is a part of what is counted.
    fn step(&mut self, lexeme: Lexeme, span: Span) {
        match step_of(self.which, self.place, lexeme) {
            Step::Begins => self.count = 0,
            Step::OneMore => self.reach(self.count.saturating_add(1), span),
            Step::Ends => self.end(),
            Step::Nothing => (),
        }
    }

    /// Counts the bytes of a name.
    fn name(&mut self, lexeme: Lexeme, span: Span) {
        if lexeme == Lexeme::Upper || lexeme == Lexeme::Lower {
            self.reach(span.to.saturating_sub(span.from) as u64, span);
            self.end();
        }
    }

    /// Counts the parentheses that are open in a right side.
    fn parenthesis(&mut self, lexeme: Lexeme, span: Span) {
        match (self.place, lexeme) {
            (Place::Body(depth, _), Lexeme::Left) => {
                self.reach(u64::from(depth).saturating_add(1), span);
            }
            (Place::Body(_, _), Lexeme::Dot) => self.end(),
            _ => (),
        }
    }

    /// Counts an atom of the innermost term: all but the first are arguments.
    fn atom(&mut self, span: Span) {
        let Some(last) = self.atoms.last_mut() else {
            return;
        };
        let number = *last;
        *last = number.saturating_add(1);
        if self.passed.is_none() || self.level == self.atoms.len() {
            self.reach(number, span);
        }
    }

    /// Ends the innermost term. Where it is the first atom of its own, its arguments are those of that.
    fn close(&mut self) {
        let own = self.level == self.atoms.len();
        let Some(inner) = self.atoms.pop() else {
            return;
        };
        match self.atoms.last_mut() {
            Some(last) if *last == 1 => {
                *last = inner;
                if own {
                    self.level = self.atoms.len();
                }
            }
            _ => {
                if own {
                    self.end();
                }
            }
        }
    }

    /// Counts the arguments of the terms in a right side.
    fn argument(&mut self, lexeme: Lexeme, span: Span) -> Result<(), OutOfMemory> {
        match (self.place, lexeme) {
            (Place::Head, Lexeme::Arrow) => {
                self.atoms.clear();
                self.atoms.push(0)?;
            }
            (Place::Body(_, _), Lexeme::Upper | Lexeme::Lower) => self.atom(span),
            (Place::Body(_, _), Lexeme::Left) => {
                self.atom(span);
                self.atoms.push(0)?;
            }
            (Place::Body(_, _), Lexeme::Right) => self.close(),
            (Place::Body(_, _), Lexeme::Dot) => self.end(),
            _ => (),
        }
        Ok(())
    }
}

impl Follows for Counting {
    fn follow(&mut self, lexeme: Lexeme, text: &[u8], span: Span) {
        let Some(next) = place_behind(self.place, lexeme, text) else {
            self.is_done = true;
            return;
        };
        match self.which {
            Which::Name => self.name(lexeme, span),
            Which::Depth => self.parenthesis(lexeme, span),
            Which::Arguments => {
                if self.argument(lexeme, span).is_err() {
                    self.passed = None;
                    self.is_done = true;
                }
            }
            _ => self.step(lexeme, span),
        }
        self.place = next;
    }

    fn is_done(&self) -> bool {
        self.is_done
    }
}

/// The line on a place that passes a limit.
fn passed_line(
    alloc: Global,
    what: &[u8],
    counting: &Counting,
    span: Span,
) -> Result<Vec<u8>, OutOfMemory> {
    let mut text = Vec::new(alloc);
    push_span(span, &mut text)?;
    text.extend_from_slice(what)?;
    let number = counting.most.saturating_add(1);
    push_count(number, counting.count, counting.most, &mut text)?;
    Ok(text)
}

/// Where the text passes this limit, how many there are of what is limited, up to the end of what has them
/// or to where the text leaves the grammar, and how many there may be, as a line. None comes where memory
/// doesn't suffice, or the limit isn't passed. Takes time in proportion to the bytes, and memory to the
/// parentheses that are open.
pub fn limit_text(alloc: Global, bytes: &[u8], which: Which) -> Option<Vec<u8>> {
    let (what, most) = limit_of(which);
    let mut counting = Counting::new(alloc, which, most);
    follow_all(bytes, &mut counting);
    let span = counting.passed?;
    passed_line(alloc, what, &counting, span).ok()
}
