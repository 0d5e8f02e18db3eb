//! What the texts are made of.

ghost use Rattle.std.specs.Prelude.{◌≡◌, ◌==◌, [], true, if◌then◌else◌, decimal, IfOk};
ghost use Rattle.hs_text.specs.Canonical.{name_at, params_at};
ghost use Rattle.hs_text.specs.Pieces.{Puts};

use hs_scheme::{Name, Names, OutOfMemory, Problem};
use itoa::Buffer;
use std::alloc::Global;

/// A text that is written piece by piece. Once memory was refused nothing is put any more, and the
/// text is not given out: so whoever writes a piece has no refusal to hand on.
#[derive(Drop)]
pub(crate) struct Text {
    bytes: Vec<u8>,
    is_whole: bool,
}

impl Text {
    /// No piece yet.
    pub(crate) fn new(alloc: Global) -> Text
        ensures { result.bytes.items ≡ [] }
    {
        Text {
            bytes: Vec::new(alloc),
            is_whole: true,
        }
    }

    /// Puts these bytes at the end.
    pub(crate) fn push(&mut self, bytes: &[u8])
        ensures { Puts self.old self.new bytes.now }
    {
        if self.is_whole {
            self.is_whole = self.bytes.extend_from_slice(bytes).is_ok();
        }
    }

    /// Remembers that memory was refused.
    pub(crate) fn refuse(&mut self)
        ensures { self.new.is_whole ≡ true → ⊥ }
    {
        self.is_whole = false;
    }

    /// The text, where memory sufficed for the whole.
    pub(crate) fn finish(self) -> Result<Vec<u8>, OutOfMemory>
        ensures { IfOk result (λ text. (self.is_whole ≡ true) × (text.items ≡ self.bytes.items)) }
    {
        if self.is_whole {
            Ok(self.bytes)
        } else {
            Err(OutOfMemory)
        }
    }
}

/// The name with this number; nothing where there is none. Takes no memory.
pub fn name_of(names: &[Name], number: usize) -> &[u8]
    ensures { result.now ≡ name_at names.now number }
{
    match names.get(number) {
        Some(name) => name.bytes(),
        None => &[],
    }
}

/// The names of a problem.
pub(crate) fn names_of(problem: &Problem) -> &Names
    ensures { result.now ≡ problem.now.sorted.names }
{
    &problem.sorted.names
}

/// The name of the rule with this number.
pub(crate) fn rule_name(names: &Names, rule: usize) -> &[u8]
    ensures { result.now ≡ name_at names.now.rules rule }
{
    name_of(names.rules.as_slice(), rule)
}

/// The name of the terminal with this number.
pub(crate) fn terminal_name(names: &Names, terminal: u32) -> &[u8]
    ensures { result.now ≡ name_at names.now.terminals terminal }
{
    name_of(names.terminals.as_slice(), terminal as usize)
}

/// The name of the state with this number.
pub(crate) fn state_name(names: &Names, state: u32) -> &[u8]
    ensures { result.now ≡ name_at names.now.states state }
{
    name_of(names.states.as_slice(), state as usize)
}

/// The names of the parameters of the rule with this number.
pub(crate) fn params_of(names: &Names, number: usize) -> &[Name]
    ensures { result.now ≡ params_at names.now.params number }
{
    match names.params.get(number) {
        Some(params) => params.as_slice(),
        None => &[],
    }
}

/// Puts a number in decimal at the end.
pub(crate) fn push_number(number: u64, text: &mut Text)
    ensures { Puts text.old text.new (decimal number) }
{
    let mut buffer = Buffer::new();
    text.push(buffer.format(number).as_bytes());
}

/// What stands before the item at this place: nothing before the first.
pub(crate) fn separator_before(place: usize, separator: &[u8]) -> &[u8]
    ensures { result.now ≡ (if place == 0 then [] else separator.now) }
{
    if place == 0 { &[] } else { separator }
}
