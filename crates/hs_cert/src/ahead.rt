//! What is still to be read of a line.

ghost use Rattle.std.specs.Prelude.{◌≡◌, ◌≢◌, ◌≤◌, ◌++◌, ℕ, List, [], false, IsTrue, OnOk, IsErrOf, length, ◌↔◌};
ghost use Rattle.std.specs.List.{list_all, prefix_len};
ghost use Rattle.hs_reader.specs.Tokens.{is_name_byte, EndsRun};
ghost use Rattle.hs_cert.specs.declared.fault.Misread.TheVariants.{Faulty};

use crate::fault::Misread;

/// Whether a byte may stand in a name.
fn is_name_byte(b: u8) -> bool
    ensures { result ≡ is_name_byte b }
{
    b.is_ascii_alphanumeric() || matches!(b, b'_' | b'\'' | b'$' | b'#')
}

/// How many name bytes stand at the front.
fn run_length(bytes: &[u8]) -> usize
    ensures run { result ≡ prefix_len is_name_byte bytes.now }
    ensures within { result ≤ length bytes.now }
{
    bytes.iter().take_while(|b| is_name_byte(**b)).count()
}

/// What is still to be read of a line.
#[derive(Drop)]
pub(crate) struct Ahead<'a> {
    pub(crate) bytes: &'a [u8],
}

impl<'a> Ahead<'a> {
    pub(crate) fn new(bytes: &'a [u8]) -> Ahead<'a>
        ensures { result.bytes.now ≡ bytes.now }
    {
        Ahead { bytes }
    }

    /// Takes these bytes off the front, where they stand there, and answers whether they did.
    pub(crate) fn take(&mut self, text: &[u8]) -> bool
        ensures taken { IsTrue result → self.old.bytes.now ≡ text.now ++ self.new.bytes.now }
        ensures kept { result ≡ false → self.new.bytes.now ≡ self.old.bytes.now }
        ensures differs { result ≡ false → (rest : List ℕ) → self.old.bytes.now ≢ text.now ++ rest }
    {
        match self.bytes.strip_prefix(text) {
            Some(rest) => {
                self.bytes = rest;
                true
            }
            None => false,
        }
    }

    /// Takes these bytes off the front; where they don't stand there, the line is faulty.
    pub(crate) fn expect(&mut self, text: &[u8]) -> Result<(), Misread>
        ensures read { OnOk result (self.old.bytes.now ≡ text.now ++ self.new.bytes.now) }
        ensures faulty { IsErrOf result Faulty → (rest : List ℕ) → self.old.bytes.now ≢ text.now ++ rest }
    {
        if self.take(text) {
            Ok(())
        } else {
            Err(Misread::Faulty)
        }
    }

    /// Takes all name bytes off the front.
    pub(crate) fn take_run(&mut self) -> &'a [u8]
        ensures whole { self.old.bytes.now ≡ result.now ++ self.new.bytes.now }
        ensures run { IsTrue (list_all is_name_byte result.now) }
        ensures ends { EndsRun self.new.bytes.now }
    {
        let (run, rest) = self.bytes.split_at(run_length(self.bytes));
        self.bytes = rest;
        run
    }

    /// Whether nothing is left.
    pub(crate) fn is_empty(&self) -> bool
        ensures { IsTrue result ↔ (self.now.bytes.now ≡ []) }
    {
        self.bytes.is_empty()
    }
}
