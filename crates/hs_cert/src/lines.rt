//! The lines of a text, one after another.

ghost use Rattle.std.specs.Prelude.{◌≡◌, ◌≢◌, ◌≤◌, ◌++◌, ◌==◌, not, ℕ, List, [], length, IfSome, IfNone, IsTrue, ◌↔◌};
ghost use Rattle.std.specs.List.{prefix_len};
ghost use Rattle.hs_cert.specs.Certificate.{ended, IsInLine, IsLine};

/// How many bytes stand before the first LF.
fn line_length(bytes: &[u8]) -> usize
    ensures run { result ≡ prefix_len (λ b. not (b == 10)) bytes.now }
    ensures within { result ≤ length bytes.now }
{
    bytes.iter().take_while(|b| **b != b'\n').count()
}

/// What is still to be read of a text.
#[derive(Drop)]
pub(crate) struct Lines<'a> {
    pub(crate) rest: &'a [u8],
}

impl<'a> Lines<'a> {
    pub(crate) fn new(bytes: &'a [u8]) -> Lines<'a>
        ensures { result.rest.now ≡ bytes.now }
    {
        Lines { rest: bytes }
    }

    /// The next line, without its LF; none where no LF is ahead. Takes time in proportion to the line.
    pub(crate) fn next(&mut self) -> Option<&'a [u8]>
        ensures some { IfSome result (λ line. self.old.rest.now ≡ ended line.now ++ self.new.rest.now) }
        ensures inside { IfSome result (λ line. IsInLine line.now) }
        ensures none { IfNone result ((line behind : List ℕ) → self.old.rest.now ≢ ended line ++ behind) }
    {
        let (line, behind) = self.rest.split_at(line_length(self.rest));
        let [_, rest @ ..] = behind else {
            return None;
        };
        self.rest = rest;
        Some(line)
    }

    /// Whether nothing is left.
    pub(crate) fn is_empty(&self) -> bool
        ensures { IsTrue result ↔ (self.now.rest.now ≡ []) }
    {
        self.rest.is_empty()
    }
}

/// The line of this number, counted from 0, without its LF; none where there is no such line. Time is in the
/// bytes up to its end.
pub fn line_at(bytes: &[u8], number: u32) -> Option<&[u8]>
    ensures some { IfSome result (λ line. IsLine bytes.now number line.now) }
    ensures none { IfNone result ((text : List ℕ) → IsLine bytes.now number text → ⊥) }
{
    let mut lines = Lines::new(bytes);
    for _ in 0..number {
        lines.next()?;
    }
    lines.next()
}
