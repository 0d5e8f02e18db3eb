//! Why the search ends, and look-ups that can't fail.
//!
//! What is made here remembers that memory was refused, or a limit was passed, and answers some number or
//! list from then on, which nobody takes: the search ends at its next step.

/// Why the search ends.
#[derive(Clone, Copy)]
pub(crate) enum Ended {
    /// Memory was refused.
    OutOfMemory,
    /// A limit is passed.
    GivenUp,
    /// The start entry was added.
    StartFound,
}

/// Puts the item at the end of the list, or notes that memory was refused.
pub(crate) fn put<T: Drop>(list: &mut Vec<T>, item: T, refused: &mut bool) {
    if list.push(item).is_err() {
        *refused = true;
    }
}

/// The number at the place, 0 where there is none.
pub(crate) fn number_at(list: &[u32], place: usize) -> u32 {
    match list.get(place) {
        Some(number) => *number,
        None => 0,
    }
}

/// A place as a number, the greatest one where it is past that.
pub(crate) fn numbered(place: usize) -> u32 {
    if place > u32::MAX as usize {
        return u32::MAX;
    }
    place as u32
}
