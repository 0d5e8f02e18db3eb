//! Which parameters stay, as a list with a flag for each parameter tells.

ghost use Rattle.std.specs.Prelude.{◌≡◌};
ghost use Rattle.hs_passes.specs.Leaving.{keeps};
ghost use Rattle.hs_passes.specs.Needing.{kept};
ghost use Rattle.hs_passes.specs.Selection as definition;
ghost use Rattle.hs_passes.specs.Selection.{place};

use hs_scheme::{Head, Parameters};

/// The flag of this number, or `false` past the end.
pub(crate) fn flag_at(flags: &[bool], number: u32) -> bool
    ensures { result ≡ definition.stays flags.now number }
{
    flags.get(number as usize).copied().unwrap_or(false)
}

/// Whether the parameter stays, as one does that the rule doesn't have.
pub(crate) fn is_kept(parameters: &Parameters, flags: &[bool], rule: u32, param: usize) -> bool
    ensures { result ≡ kept parameters.now flags.now rule param }
{
    if param >= parameters.count_of(rule) as usize {
        return true;
    }
    match parameters.number(rule, param as u32) {
        Some(number) => flag_at(flags, number),
        None => true,
    }
}

/// Whether an argument behind this head stays.
pub(crate) fn stays_behind(parameters: &Parameters, flags: &[bool], head: Head, arg: usize) -> bool
    ensures { result ≡ keeps (kept parameters.now flags.now) head arg }
{
    match head {
        Head::Nt(rule) => is_kept(parameters, flags, rule, arg),
        _ => true,
    }
}

/// How many of the rule's parameters before this one stay, at most 64 in a scheme.
pub(crate) fn place_of(parameters: &Parameters, flags: &[bool], rule: u32, param: u32) -> u32
    ensures { result ≡ place (kept parameters.now flags.now rule) param }
{
    let mut place = 0;
    for other in 0..param {
        if is_kept(parameters, flags, rule, other as usize) {
            place += 1;
        }
    }
    place
}
