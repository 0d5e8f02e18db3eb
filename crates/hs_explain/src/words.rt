//! Which word of a command line is wrong.

use hs_diagnostics::push_shown;
use hs_scheme::OutOfMemory;
use hs_trace::push_number;
use std::alloc::Global;

/// The options by name, with the range of their numbers. Those up to 0 take no number.
const OPTIONS: [(&str, u32, u32); 10] = [
    ("workers", 1, 16),
    ("entries", 1, 1_000_000),
    ("steps", 1, 4_000_000),
    ("table", 0, 0),
    ("first", 0, 0),
    ("minimal", 0, 0),
    ("quick", 0, 0),
    ("explain", 0, 0),
    ("simplify", 0, 0),
    ("gen", 1, 300),
];

/// The place of `--gen` among the options.
const GEN: usize = 9;

/// What is wrong with a word. Options are named by their place.
#[derive(Clone, Copy)]
enum Wrong {
    /// It begins as an option does, and is none.
    Unknown,
    /// The option was given before.
    Twice,
    /// The option takes no value, and has one.
    HasValue,
    /// It isn't in the range of the option's number, or there is none.
    OutOfRange(usize),
    /// A file was named before.
    SecondFile,
    /// A file and `--gen` are both given.
    Both,
}

/// The place of an option by its name.
fn option_of(name: &str) -> Option<usize> {
    for (place, option) in OPTIONS.iter().enumerate() {
        if option.0 == name {
            return Some(place);
        }
    }
    None
}

/// Whether a text is a number of one to nine digits in the range of the option at this place.
fn is_in_range(option: usize, text: &str) -> bool {
    let bytes = text.as_bytes();
    if bytes.is_empty() || bytes.len() > 9 || !bytes.iter().all(|byte| byte.is_ascii_digit()) {
        return false;
    }
    match (text.parse::<u32>(), OPTIONS.get(option)) {
        (Ok(number), Some((_, least, most))) => *least <= number && number <= *most,
        _ => false,
    }
}

/// What was given by the words so far.
#[derive(Drop)]
struct Given {
    /// Which options, by their places.
    options: [bool; 10],
    has_file: bool,
    /// Behind `--` each word is a file.
    are_files: bool,
    /// The option whose number comes next.
    awaits: Option<usize>,
}

impl Given {
    /// Takes the name of a file.
    fn file(&mut self) -> Option<Wrong> {
        if self.has_file {
            return Some(Wrong::SecondFile);
        }
        self.has_file = true;
        self.both()
    }

    /// Whether a file and `--gen` are both given.
    fn both(&self) -> Option<Wrong> {
        if self.has_file && self.options[GEN] {
            Some(Wrong::Both)
        } else {
            None
        }
    }

    /// Takes the number of the option at this place.
    fn number(&self, option: usize, text: &str) -> Option<Wrong> {
        if is_in_range(option, text) {
            self.both()
        } else {
            Some(Wrong::OutOfRange(option))
        }
    }

    /// Takes the option at this place, with the value that stands behind `=`, if any does.
    fn option(&mut self, option: usize, value: Option<&str>) -> Option<Wrong> {
        let Some(is_given) = self.options.get_mut(option) else {
            return Some(Wrong::Unknown);
        };
        if *is_given {
            return Some(Wrong::Twice);
        }
        *is_given = true;
        let takes_number = match OPTIONS.get(option) {
            Some((_, _, most)) => *most > 0,
            None => false,
        };
        match value {
            Some(text) if takes_number => self.number(option, text),
            Some(_) => Some(Wrong::HasValue),
            None if takes_number => {
                self.awaits = Some(option);
                None
            }
            None => None,
        }
    }

    /// Takes a word that begins as an option does.
    fn flag(&mut self, word: &str) -> Option<Wrong> {
        let Some(text) = word.strip_prefix("--") else {
            return Some(Wrong::Unknown);
        };
        let (name, value) = match text.split_once('=') {
            Some((name, value)) => (name, Some(value)),
            None => (text, None),
        };
        match option_of(name) {
            Some(option) => self.option(option, value),
            None => Some(Wrong::Unknown),
        }
    }

    /// Takes the next word.
    fn word(&mut self, word: &str) -> Option<Wrong> {
        let begins_option = word.len() > 1 && word.starts_with('-');
        if let Some(option) = self.awaits {
            self.awaits = None;
            return if begins_option {
                Some(Wrong::OutOfRange(option))
            } else {
                self.number(option, word)
            };
        }
        if self.are_files || !begins_option {
            return self.file();
        }
        if word == "--" {
            self.are_files = true;
            return None;
        }
        self.flag(word)
    }
}

/// Puts what is wrong at the end.
fn push_wrong(wrong: Wrong, text: &mut Vec<u8>) -> Result<(), OutOfMemory> {
    let says: &[u8] = match wrong {
        Wrong::Unknown => b"there is no such option\n",
        Wrong::Twice => b"given twice\n",
        Wrong::HasValue => b"the option takes no value\n",
        Wrong::SecondFile => b"a second file\n",
        Wrong::Both => b"a file and --gen are both given\n",
        Wrong::OutOfRange(option) => return push_range(option, text),
    };
    text.extend_from_slice(says)?;
    Ok(())
}

/// Puts the range of an option's number at the end.
fn push_range(option: usize, text: &mut Vec<u8>) -> Result<(), OutOfMemory> {
    let Some((name, least, most)) = OPTIONS.get(option) else {
        return Ok(());
    };
    text.extend_from_slice(b"--")?;
    text.extend_from_slice(name.as_bytes())?;
    text.extend_from_slice(b" takes a number from ")?;
    push_number(u64::from(*least), text)?;
    text.extend_from_slice(b" to ")?;
    push_number(u64::from(*most), text)?;
    text.extend_from_slice(b"\n")?;
    Ok(())
}

/// The line on a wrong word, by its place, counted from 1 behind the program's name. Where a number is
/// missing there is no word.
fn wrong_line(
    alloc: Global,
    place: usize,
    word: &str,
    wrong: Wrong,
) -> Result<Vec<u8>, OutOfMemory> {
    let mut text = Vec::new(alloc);
    text.extend_from_slice(b"word ")?;
    push_number(place as u64, &mut text)?;
    text.extend_from_slice(b" `")?;
    push_shown(word.as_bytes(), &mut text)?;
    text.extend_from_slice(b"`: ")?;
    push_wrong(wrong, &mut text)?;
    Ok(text)
}

/// The first of the words that is wrong, behind the program's name, and why, as a line. Of an option whose
/// number is missing it is the option. None comes where memory doesn't suffice, or no word is found to be
/// wrong; `hs_words` alone decides which are. Takes time in proportion to the words.
pub fn words_text(alloc: Global, words: &[&str]) -> Option<Vec<u8>> {
    let mut given = Given {
        options: [false; 10],
        has_file: false,
        are_files: false,
        awaits: None,
    };
    let mut before = "";
    for (place, word) in words.iter().enumerate() {
        before = *word;
        if place > 0 {
            if let Some(wrong) = given.word(before) {
                return wrong_line(alloc, place, before, wrong).ok();
            }
        }
    }
    let option = given.awaits?;
    let place = words.len().saturating_sub(1);
    wrong_line(alloc, place, before, Wrong::OutOfRange(option)).ok()
}
