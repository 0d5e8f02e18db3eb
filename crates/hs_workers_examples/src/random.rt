//! Small schemes made at random, the same one for the same number.

use hs_scheme::OutOfMemory;
use rand_core::utils::NextWord;
use rand_pcg::Pcg32;
use std::alloc::Global;

/// The most words that a file is made of.
const MANY: u32 = 10_000;

/// So many words are replaced by any of their choices, and those after them by the first, which soon
/// comes to an end.
const FREE: u32 = 100;

/// What words stand for: any of these texts, in which again there are such words. Another word stands
/// for itself.
///
/// `bS` is the body of S, `tS` a tree and `fS` a function from trees to trees in it, and so on. In the
/// other rules these may have parameters in them.
const CHOICES: &[(&str, &[&str])] = &[
    (
        "file",
        &[
            "%BEGING S -> bS . F x -> bF . H x y -> bH . G f x -> bG . %ENDG \
             %BEGINA q0 br -> q q . B1 A0 A1 C0 C1 %ENDA",
        ],
    ),
    (
        "bS",
        &["( F tS )", "( H tS tS )", "( G fS tS )", "( br tS tS )"],
    ),
    (
        "bF",
        &["( a tF )", "( br tF tF )", "( H tF tF )", "( G fF tF )"],
    ),
    (
        "bH",
        &["( a tH )", "( br tH tH )", "( F tH )", "( G fH tH )"],
    ),
    (
        "bG",
        &["( f tG )", "( br tG tG )", "( a tG )", "( G fG tG )"],
    ),
    ("tS", &["c", "c", "bS"]),
    ("tF", &["x", "x", "bF"]),
    ("tH", &["x", "y", "bH"]),
    ("tG", &["x", "( f x )", "bG"]),
    ("fS", &["a", "F", "( br tS )", "( H tS )", "( G fS )"]),
    ("fF", &["a", "F", "( br tF )", "( H tF )", "( G fF )"]),
    ("fH", &["a", "F", "( br tH )", "( H tH )"]),
    ("fG", &["f", "f", "a", "( H tG )"]),
    ("q", &["q0", "q1"]),
    ("B1", &["q1 br -> q q .", ""]),
    ("A0", &["q0 a -> q .", "q0 a -> q .", ""]),
    ("A1", &["q1 a -> q .", "q1 a -> q .", ""]),
    ("C0", &["q0 c -> .", "q0 c -> .", ""]),
    ("C1", &["q1 c -> .", "q1 c -> .", ""]),
];

/// What the word stands for.
fn choices(word: &str) -> &'static [&'static str] {
    for (name, texts) in CHOICES {
        if *name == word {
            return texts;
        }
    }
    &[]
}

/// The choice that a number names, or none where there are no choices.
fn choice(choices: &'static [&'static str], number: u32) -> Option<&'static str> {
    let count = choices.len().max(1);
    choices.get(number as usize % count).copied()
}

/// The first word of the text, and what is left of it.
fn first_word(text: &'static str) -> (&'static str, Option<&'static str>) {
    match text.split_once(' ') {
        Some((word, rest)) => (word, Some(rest)),
        None => (text, None),
    }
}

/// Takes the first word of the last text off what is left, where there is one.
fn next_word(left: &mut Vec<&'static str>) -> Result<Option<&'static str>, OutOfMemory> {
    let Some(text) = left.pop() else {
        return Ok(None);
    };
    let (word, rest) = first_word(text);
    if let Some(rest) = rest {
        left.push(rest)?;
    }
    Ok(Some(word))
}

/// Puts the word at the end, and a space.
fn put(file: &mut String, word: &str) -> Result<(), OutOfMemory> {
    file.push_str(word)?;
    file.push_str(" ")?;
    Ok(())
}

/// Puts the words that are left at the end, each as what it stands for.
fn put_words(
    numbers: &mut Pcg32,
    left: &mut Vec<&'static str>,
    file: &mut String,
) -> Result<(), OutOfMemory> {
    let mut free = FREE;
    for _ in 0..MANY {
        let Some(word) = next_word(left)? else {
            break;
        };
        let number = if free > 0 { numbers.next_word() } else { 0 };
        match choice(choices(word), number) {
            Some(chosen) => {
                free = free.saturating_sub(1);
                left.push(chosen)?;
            }
            None => put(file, word)?,
        }
    }
    Ok(())
}

/// The file of a scheme of order 2 with four rules, and of an automaton with two states.
pub(crate) fn random_file(alloc: Global, number: u32) -> Result<String, OutOfMemory> {
    let mut numbers = Pcg32::new(u64::from(number), 0);
    let mut left = vec![in alloc; "file"]?;
    let mut file = String::new(alloc);
    put_words(&mut numbers, &mut left, &mut file)?;
    Ok(file)
}
