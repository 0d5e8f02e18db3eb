//! Numbers in a text.

ghost use Rattle.std.specs.Prelude.{◌≡◌, ◌++◌, decimal, OnOk};

use hs_scheme::OutOfMemory;
use itoa::Buffer;

/// Puts a number in decimal at the end. Takes memory for its digits alone.
pub fn push_number(number: u64, text: &mut Vec<u8>) -> Result<(), OutOfMemory>
    ensures { OnOk result (text.new.items ≡ text.old.items ++ decimal number) }
{
    let mut buffer = Buffer::new();
    text.extend_from_slice(buffer.format(number).as_bytes())?;
    Ok(())
}
