//! Why a file wasn't read.

use hs_diagnostics::push_shown;
use hs_front::Refusal;
use hs_reader::MAX_BYTES;
use hs_scheme::OutOfMemory;
use hs_trace::push_number;
use std::alloc::Global;

/// The line on a file of this name: what is said of it.
fn named(alloc: Global, name: &str, says: &[u8]) -> Result<Vec<u8>, OutOfMemory> {
    let mut text = Vec::new(alloc);
    if name == "-" {
        text.extend_from_slice(b"standard input")?;
    } else {
        text.extend_from_slice(b"`")?;
        push_shown(name.as_bytes(), &mut text)?;
        text.extend_from_slice(b"`")?;
    }
    text.extend_from_slice(says)?;
    Ok(text)
}

/// The line on a file that is too long.
fn too_long(alloc: Global, name: &str) -> Result<Vec<u8>, OutOfMemory> {
    let mut text = named(alloc, name, b": more than ")?;
    push_number(MAX_BYTES as u64, &mut text)?;
    text.extend_from_slice(b" bytes\n")?;
    Ok(text)
}

/// Why the file of this name wasn't read, as a line: it can't be opened or read, or it has too many bytes.
/// None comes where memory doesn't suffice, or nothing more can be said. Takes memory for the line alone.
pub fn unread_text(alloc: Global, name: &str, refusal: &Refusal) -> Option<Vec<u8>> {
    match refusal {
        Refusal::Source => named(alloc, name, b": can't be opened or read\n").ok(),
        Refusal::FileTooLong => too_long(alloc, name).ok(),
        _ => None,
    }
}
