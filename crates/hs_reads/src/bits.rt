//! Sets of numbers as bits in words.

ghost use Rattle.std.specs.Prelude.{◌≡◌, ◌↔◌, ◌⊎◌, ◌<◌, ℕ, IsTrue, OnOk, OnErr, vec_len};
ghost use Rattle.hs_reads.specs.Bits.{HasBit, word_at};

use hs_scheme::OutOfMemory;

/// The bits in a word.
const WORD: u32 = 64;

/// The word at this place, 0 where there is none.
fn word_at(words: &[u64], place: usize) -> u64
    ensures { result ≡ word_at words.now place }
{
    match words.get(place) {
        Some(word) => *word,
        None => 0,
    }
}

/// Whether the bit of this number is set.
pub(crate) fn has_bit(words: &[u64], number: u32) -> bool
    ensures { IsTrue result ↔ HasBit words.now number }
{
    word_at(words, (number / WORD) as usize) >> (number % WORD) & 1 == 1
}

/// Puts words without bits behind the others, up to this place.
fn reach(words: &mut Vec<u64>, place: usize) -> Result<(), OutOfMemory>
    ensures len { OnOk result (place < vec_len words.new) }
    ensures same { (k : ℕ) → word_at words.new.items k ≡ word_at words.old.items k }
{
    while words.len() <= place {
        words.push(0)?;
    }
    Ok(())
}

/// Sets the bit of this number.
pub(crate) fn set_bit(words: &mut Vec<u64>, number: u32) -> Result<(), OutOfMemory>
    ensures added { OnOk result ((q : ℕ) → HasBit words.new.items q
        ↔ (HasBit words.old.items q ⊎ (q ≡ number))) }
    ensures same { OnErr result ((q : ℕ) → HasBit words.new.items q ↔ HasBit words.old.items q) }
{
    let place = (number / WORD) as usize;
    reach(words, place)?;
    words[place] |= 1 << (number % WORD);
    Ok(())
}
