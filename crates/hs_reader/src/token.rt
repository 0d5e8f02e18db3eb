//! Tokens, and where they begin and end.

ghost use Rattle.std.specs.Prelude.{◌≡◌, ◌≤◌, length};
ghost use Rattle.std.specs.List.{prefix_len};
ghost use Rattle.hs_reader.specs.Grammar.{begins_upper};
ghost use Rattle.hs_reader.specs.Tokens.{is_blank, is_name_byte};

/// A token of a file.
#[derive(Clone, Copy)]
pub(crate) enum Token<'a> {
    Name(&'a [u8]),
    RulesBegin,
    RulesEnd,
    AutomatonBegin,
    AutomatonEnd,
    Arrow,
    Dot,
    Left,
    Right,
    End,
    Bad,
}

/// Whether a byte separates tokens.
pub(crate) fn is_blank(b: u8) -> bool
    ensures { result ≡ is_blank b }
{
    matches!(b, b' ' | b'\t' | b'\n' | b'\r')
}

/// Whether a byte may stand in a name.
pub(crate) fn is_name_byte(b: u8) -> bool
    ensures { result ≡ is_name_byte b }
{
    b.is_ascii_alphanumeric() || matches!(b, b'_' | b'\'' | b'$' | b'#')
}

/// How many name bytes stand at the front.
pub(crate) fn run_length(bytes: &[u8]) -> usize
    ensures run { result ≡ prefix_len is_name_byte bytes.now }
    ensures within { result ≤ length bytes.now }
{
    bytes.iter().take_while(|b| is_name_byte(**b)).count()
}

/// Whether a name begins with an upper letter, `A` to `Z`.
pub fn is_upper(name: &[u8]) -> bool
    ensures { result ≡ begins_upper name.now }
{
    match name {
        [first, ..] => first.is_ascii_uppercase(),
        [] => false,
    }
}
