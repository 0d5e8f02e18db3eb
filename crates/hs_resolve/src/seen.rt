//! The names on the left of rules and the names of parameters, and those that stand twice.

ghost use Rattle.std.specs.Prelude.{◌≡◌, ◌++◌, ◌∷◌, [], map, IfOk, OnOk};
ghost use Rattle.hs_reader.specs.Raw.{Rule};
ghost use Rattle.hs_resolve.specs.Names.{texts, distinct, with_name, repeat_of};
ghost use Rattle.hs_resolve.specs.Least as least;
ghost use Rattle.hs_resolve.specs.Least.{IsLeast};
ghost use Rattle.hs_resolve.specs.LineFaults.{Somewhere, Repeats};

use crate::line::earliest;
use crate::name_index::NameIndex;
use hs_reader::{RawName, RawRule};
use hs_scheme::OutOfMemory;
use std::alloc::Global;

/// Puts a name at the end of those that were met before. Where it is among them, its line is noted.
fn note_name<'a>(
    names: &mut NameIndex<'a>,
    name: &RawName<'a>,
    repeated: &mut Option<u32>,
) -> Result<(), OutOfMemory>
    ensures names { OnOk result (names.new ≡ with_name names.old name.now.text) }
    ensures repeated { OnOk result (repeated.new
        ≡ least.earliest repeated.old (repeat_of names.old name.now)) }
{
    let fresh = names.add(name.text.bytes())?;
    let line = if fresh { None } else { Some(name.line) };
    *repeated = earliest(*repeated, line);
    Ok(())
}

/// Puts the names on the left of the rules into the index, which is empty, and answers the least line of
/// one that stands there twice.
pub(crate) fn number_left<'a>(
    left: &mut NameIndex<'a>,
    rules: &[RawRule<'a>],
) -> Result<Option<u32>, OutOfMemory>
    requires { left.old ≡ [] }
    ensures names { OnOk result (left.new ≡ distinct (texts (map (λ r. r.name) rules.now))) }
    ensures repeated { IfOk result (λ line. IsLeast (Repeats (map (λ r. r.name) rules.now)) line) }
{
    let mut repeated = None;
    for rule in rules {
        note_name(left, &rule.name, &mut repeated)?;
    }
    Ok(repeated)
}

/// Puts the names of a rule's parameters into the index, which is empty, and answers the least line of
/// one that stands there twice.
fn number_params<'a>(
    scope: &mut NameIndex<'a>,
    params: &[RawName<'a>],
) -> Result<Option<u32>, OutOfMemory>
    requires { scope.old ≡ [] }
    ensures names { OnOk result (scope.new ≡ distinct (texts params.now)) }
    ensures repeated { IfOk result (λ line. IsLeast (Repeats params.now) line) }
{
    let mut repeated = None;
    for param in params {
        note_name(scope, param, &mut repeated)?;
    }
    Ok(repeated)
}

/// Adds the names of a rule's parameters, and answers the least line of one that stands there twice.
fn add_scope<'a>(
    alloc: Global,
    scopes: &mut Vec<NameIndex<'a>>,
    params: &[RawName<'a>],
) -> Result<Option<u32>, OutOfMemory>
    ensures names { OnOk result (scopes.new.items ≡ scopes.old.items ++ distinct (texts params.now) ∷ []) }
    ensures repeated { IfOk result (λ line. IsLeast (Repeats params.now) line) }
{
    let mut scope = NameIndex::new(alloc);
    let repeated = number_params(&mut scope, params);
    scopes.push(scope)?;
    repeated
}

/// Adds the names of the parameters of each of the rules, where none are there yet, and answers the
/// least line of one that an earlier parameter of its rule has.
pub(crate) fn add_scopes<'a>(
    alloc: Global,
    scopes: &mut Vec<NameIndex<'a>>,
    rules: &[RawRule<'a>],
) -> Result<Option<u32>, OutOfMemory>
    requires { scopes.old.items ≡ [] }
    ensures names { OnOk result (scopes.new.items ≡ map (λ r. distinct (texts r.params)) rules.now) }
    ensures repeated { IfOk result (IsLeast
        (λ line. Somewhere (λ _ r. Repeats r.params line) rules.now)) }
{
    let mut repeated = None;
    for rule in rules {
        let line = add_scope(alloc, scopes, rule.params.as_slice())?;
        repeated = earliest(repeated, line);
    }
    Ok(repeated)
}
