//! The lexemes of a text, with their places.
//!
//! The text is read byte by byte: a run of bytes becomes a lexeme, and each is handed to one who follows.

use hs_reader::is_upper;

/// What a run of bytes is.
#[derive(Clone, Copy, PartialEq, Eq)]
pub(crate) enum Lexeme {
    Upper,
    Lower,
    Marker,
    Arrow,
    Dot,
    Left,
    Right,
    End,
    Other,
}

/// Where a run begins, and where it ends. Lines and columns are counted from 1, columns in bytes.
#[derive(Clone, Copy)]
pub(crate) struct Span {
    pub(crate) from: usize,
    pub(crate) to: usize,
    pub(crate) line: u32,
    pub(crate) column: u32,
}

impl Span {
    /// The bytes of a run.
    pub(crate) fn text<'a>(&self, bytes: &'a [u8]) -> &'a [u8] {
        match bytes.get(self.from..self.to) {
            Some(text) => text,
            None => &[],
        }
    }
}

/// One who is handed the lexemes of a text, in their order.
pub(crate) trait Follows {
    /// Takes the next lexeme, with its bytes and its place.
    fn follow(&mut self, lexeme: Lexeme, text: &[u8], span: Span);

    /// Whether no more lexemes are wanted.
    fn is_done(&self) -> bool;
}

/// A run of bytes that is begun.
#[derive(Clone, Copy)]
enum Run {
    None,
    Name,
    Marker,
    /// `-`, behind which `>` may stand.
    Dash,
    /// `/`, behind which `*` may stand.
    Slash,
    /// A comment, and whether its last byte is `*`.
    Comment(bool),
}

/// A text that is read.
#[derive(Drop)]
struct Reading<'a> {
    bytes: &'a [u8],
    run: Run,
    /// Where the run began.
    start: Span,
    line: u32,
    /// How many bytes of the line were read.
    column: u32,
}

impl<'a> Reading<'a> {
    /// Nothing was read.
    fn new(bytes: &'a [u8]) -> Reading<'a> {
        Reading {
            bytes,
            run: Run::None,
            start: Span {
                from: 0,
                to: 0,
                line: 1,
                column: 1,
            },
            line: 1,
            column: 0,
        }
    }

    /// Ends the run that is begun, in front of this byte.
    fn end_run<F: Follows>(&mut self, at: usize, follower: &mut F) {
        let span = Span {
            to: at,
            ..self.start
        };
        let text = span.text(self.bytes);
        match self.run {
            Run::None => (),
            Run::Name if is_upper(text) => follower.follow(Lexeme::Upper, text, span),
            Run::Name => follower.follow(Lexeme::Lower, text, span),
            Run::Marker => follower.follow(Lexeme::Marker, text, span),
            Run::Dash | Run::Slash => follower.follow(Lexeme::Other, text, span),
            Run::Comment(_) => {
                let to = span.from.saturating_add(2);
                let opened = Span { to, ..span };
                follower.follow(Lexeme::Other, opened.text(self.bytes), opened);
            }
        }
        self.run = Run::None;
    }

    /// Begins a run, or hands over a sign.
    fn begin<F: Follows>(&mut self, at: usize, byte: u8, follower: &mut F) {
        self.start = Span {
            from: at,
            to: at.saturating_add(1),
            line: self.line,
            column: self.column,
        };
        let span = self.start;
        let text = span.text(self.bytes);
        match byte {
            b' ' | b'\t' | b'\n' | b'\r' => (),
            b'%' => self.run = Run::Marker,
            b'-' => self.run = Run::Dash,
            b'/' => self.run = Run::Slash,
            b'.' => follower.follow(Lexeme::Dot, text, span),
            b'(' => follower.follow(Lexeme::Left, text, span),
            b')' => follower.follow(Lexeme::Right, text, span),
            _ if is_name_byte(byte) => self.run = Run::Name,
            _ => {
                let to = at.saturating_add(character_length(byte));
                let whole = Span { to, ..span };
                follower.follow(Lexeme::Other, whole.text(self.bytes), whole);
            }
        }
    }

    /// Reads a byte.
    fn read<F: Follows>(&mut self, at: usize, byte: u8, follower: &mut F) {
        self.column = self.column.saturating_add(1);
        match self.run {
            Run::Comment(is_star) => {
                self.run = if is_star && byte == b'/' {
                    Run::None
                } else {
                    Run::Comment(byte == b'*')
                };
            }
            Run::Slash if byte == b'*' => self.run = Run::Comment(false),
            Run::Dash if byte == b'>' => {
                let span = Span {
                    to: at.saturating_add(1),
                    ..self.start
                };
                self.run = Run::None;
                follower.follow(Lexeme::Arrow, span.text(self.bytes), span);
            }
            Run::Name | Run::Marker if is_name_byte(byte) => (),
            _ => {
                self.end_run(at, follower);
                self.begin(at, byte, follower);
            }
        }
        if byte == b'\n' {
            self.line = self.line.saturating_add(1);
            self.column = 0;
        }
    }

    /// Reads the end of the file.
    fn end<F: Follows>(&mut self, follower: &mut F) {
        let length = self.bytes.len();
        self.end_run(length, follower);
        let span = Span {
            from: length,
            to: length,
            line: self.line,
            column: self.column.saturating_add(1),
        };
        follower.follow(Lexeme::End, &[], span);
    }
}

/// Whether a byte may stand in a name.
fn is_name_byte(byte: u8) -> bool {
    byte.is_ascii_alphanumeric() || matches!(byte, b'_' | b'\'' | b'$' | b'#')
}

/// How many bytes a character has in UTF-8 that begins with this one.
fn character_length(byte: u8) -> usize {
    match byte {
        0xc0..=0xdf => 2,
        0xe0..=0xef => 3,
        0xf0..=0xf7 => 4,
        _ => 1,
    }
}

/// Hands the lexemes of a text to one who follows, up to the end of the file, or until no more are wanted.
/// Takes time in proportion to the bytes, and no memory.
pub(crate) fn follow_all<F: Follows>(bytes: &[u8], follower: &mut F) {
    let mut reading = Reading::new(bytes);
    for (at, byte) in bytes.iter().enumerate() {
        reading.read(at, *byte, follower);
        if follower.is_done() {
            return;
        }
    }
    reading.end(follower);
}
