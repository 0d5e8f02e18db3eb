//! Guesses of one's own numbers.

use hs_scheme::OutOfMemory;

/// The guess for this number.
pub(crate) fn guess(guesses: &[u32], number: u32) -> u32 {
    match guesses.get(number as usize) {
        Some(own) => *own,
        None => 0,
    }
}

/// Keeps the guess for this number.
pub(crate) fn keep(guesses: &mut Vec<u32>, number: u32, own: u32) -> Result<(), OutOfMemory> {
    let place = number as usize;
    if guesses.len() <= place {
        guesses.resize(place + 1, 0)?;
    }
    guesses[place] = own;
    Ok(())
}
