//! The grammar of a file, lexeme by lexeme.

use crate::lexemes::Lexeme;

/// What was read of the grammar.
#[derive(Clone, Copy)]
pub(crate) enum Place {
    Front,
    /// Where a rule may begin, and whether one was read before.
    Rules(bool),
    /// Behind the name of a rule.
    Head,
    /// In a right side: how many parentheses are open, and whether a term is begun behind the last.
    Body(u32, bool),
    BehindRules,
    /// Where a transition may begin, and whether one was read before.
    Transitions(bool),
    /// Behind the state of a transition.
    State,
    /// Behind its terminal.
    Terminal,
    /// Behind its arrow.
    Children,
    Behind,
}

/// What is read behind a marker, where it may stand.
fn place_behind_marker(place: Place, marker: &[u8]) -> Option<Place> {
    match place {
        Place::Front if marker == b"%BEGING".as_slice() => Some(Place::Rules(false)),
        Place::Rules(true) if marker == b"%ENDG".as_slice() => Some(Place::BehindRules),
        Place::BehindRules if marker == b"%BEGINA".as_slice() => Some(Place::Transitions(false)),
        Place::Transitions(true) if marker == b"%ENDA".as_slice() => Some(Place::Behind),
        _ => None,
    }
}

/// What is read behind a lexeme in a right side, where it may stand.
fn place_in_body(depth: u32, is_begun: bool, lexeme: Lexeme) -> Option<Place> {
    match lexeme {
        Lexeme::Upper | Lexeme::Lower => Some(Place::Body(depth, true)),
        Lexeme::Left => Some(Place::Body(depth.saturating_add(1), false)),
        Lexeme::Right if is_begun && depth > 0 => Some(Place::Body(depth - 1, true)),
        Lexeme::Dot if is_begun && depth == 0 => Some(Place::Rules(true)),
        _ => None,
    }
}

/// What is read behind a lexeme with this text, where it may stand.
pub(crate) fn place_behind(place: Place, lexeme: Lexeme, text: &[u8]) -> Option<Place> {
    if lexeme == Lexeme::Marker {
        return place_behind_marker(place, text);
    }
    let is_name = lexeme == Lexeme::Upper || lexeme == Lexeme::Lower;
    let next = match place {
        Place::Body(depth, is_begun) => return place_in_body(depth, is_begun, lexeme),
        Place::Rules(_) if lexeme == Lexeme::Upper => Place::Head,
        Place::Head if lexeme == Lexeme::Lower => Place::Head,
        Place::Head if lexeme == Lexeme::Arrow => Place::Body(0, false),
        Place::Transitions(_) if is_name => Place::State,
        Place::State if lexeme == Lexeme::Lower => Place::Terminal,
        Place::Terminal if lexeme == Lexeme::Arrow => Place::Children,
        Place::Children if is_name => Place::Children,
        Place::Children if lexeme == Lexeme::Dot => Place::Transitions(true),
        Place::Behind if lexeme == Lexeme::End => Place::Behind,
        _ => return None,
    };
    Some(next)
}

/// What could stand at a place.
pub(crate) fn expected_at(place: Place) -> &'static [u8] {
    match place {
        Place::Front => b"`%BEGING`",
        Place::Rules(false) => b"a rule's name, which begins with an upper letter,",
        Place::Rules(true) => b"a rule's name, which begins with an upper letter, or `%ENDG`",
        Place::Head => b"a parameter, which begins with no upper letter, or `->`",
        Place::Body(_, false) => b"a name or `(`",
        Place::Body(0, true) => b"a name, `(` or `.`",
        Place::Body(_, true) => b"a name, `(` or `)`",
        Place::BehindRules => b"`%BEGINA`",
        Place::Transitions(false) => b"a state",
        Place::Transitions(true) => b"a state or `%ENDA`",
        Place::State => b"a terminal, which begins with no upper letter,",
        Place::Terminal => b"`->`",
        Place::Children => b"a state or `.`",
        Place::Behind => b"the end of the file",
    }
}
