//! A line on standard error.

ghost use Rattle.std.specs.Prelude.{◌≡◌, IfOk};
ghost use Rattle.hs_front.specs.Line as lines;

use hs_scheme::OutOfMemory;
use itoa::Buffer;
use std::alloc::Global;

/// The line where memory was refused.
pub const OUT_OF_MEMORY: &str = "out of memory\n";

/// A line, with the LF at its end.
#[derive(Drop)]
pub enum Line {
    /// A line without a number or a name in it, which takes no memory.
    Fixed(&'static [u8]),
    /// A line with a number or a name in it.
    Made(Vec<u8>),
}

impl Line {
    /// The bytes of the line. Takes no memory.
    pub fn bytes(&self) -> &[u8]
        ensures { result.now ≡ lines.bytes_of self.now }
    {
        match self {
            Line::Fixed(bytes) => bytes,
            Line::Made(bytes) => bytes.as_slice(),
        }
    }
}

/// The line of these words with a name between them. Time and memory are in proportion to the line.
pub fn line_with_name(
    alloc: Global,
    before: &[u8],
    name: &[u8],
    behind: &[u8],
) -> Result<Line, OutOfMemory>
    ensures { IfOk result (λ line. lines.bytes_of line
        ≡ lines.line_with_name before.now name.now behind.now) }
{
    let mut text = Vec::new(alloc);
    text.extend_from_slice(before)?;
    text.extend_from_slice(name)?;
    text.extend_from_slice(behind)?;
    text.extend_from_slice(b"\n")?;
    Ok(Line::Made(text))
}

/// The line of these words with a number between them, in decimal. Time and memory are in proportion to
/// the line.
pub fn line_with_number(
    alloc: Global,
    before: &[u8],
    number: u64,
    behind: &[u8],
) -> Result<Line, OutOfMemory>
    ensures { IfOk result (λ line. lines.bytes_of line
        ≡ lines.line_with_number before.now number behind.now) }
{
    let mut buffer = Buffer::new();
    line_with_name(alloc, before, buffer.format(number).as_bytes(), behind)
}
