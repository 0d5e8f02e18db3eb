//! The numbers for the names of transitions, and the names of parameters.

ghost use Rattle.std.specs.Prelude.{◌≡◌, ◌++◌, ◌∷◌, [], List, ℕ, map, IfOk, OnOk};
ghost use Rattle.std.specs.List.{flat_map};
ghost use Rattle.hs_resolve.specs.Names as names;
ghost use Rattle.hs_resolve.specs.Names.{texts, distinct, with_name, with_names};
ghost use Rattle.hs_resolve.specs.Numbering as definition;
ghost use Rattle.hs_resolve.specs.Numbering.{states_in};
ghost use Rattle.hs_resolve.specs.Moves.{AreNumbers, IsMove};

use crate::name_index::NameIndex;
use hs_reader::{RawName, RawTransition};
use hs_scheme::{Name, OutOfMemory, Transition};
use std::alloc::Global;

/// The number of a name, which is put at the end where it isn't there yet. More than 2^32 names are
/// want of memory.
pub(crate) fn number_in<'a>(
    index: &mut NameIndex<'a>,
    name: &RawName<'a>,
) -> Result<u32, OutOfMemory>
    ensures added { OnOk result (index.new ≡ with_name index.old name.now.text) }
    ensures number { IfOk result (λ n. (later : List (List ℕ))
        → n ≡ names.number (index.new ++ later) name.now.text) }
{
    let number = index.number_or_add(name.text.bytes())?;
    let Ok(number) = u32::try_from(number) else {
        return Err(OutOfMemory);
    };
    Ok(number)
}

/// The numbers of these states, which are put at the end of those that were met before.
fn numbers_of<'a>(
    alloc: Global,
    states: &mut NameIndex<'a>,
    to: &[RawName<'a>],
) -> Result<Vec<u32>, OutOfMemory>
    ensures states { OnOk result (states.new ≡ with_names states.old (texts to.now)) }
    ensures numbers { IfOk result (λ qs. AreNumbers states.new to.now qs.items) }
{
    let mut numbers = Vec::with_capacity(alloc, to.len())?;
    for name in to {
        numbers.push(number_in(states, name)?)?;
    }
    Ok(numbers)
}

/// The transition with numbers for its names.
fn transition_of<'a>(
    alloc: Global,
    states: &mut NameIndex<'a>,
    terminals: &mut NameIndex<'a>,
    raw: &RawTransition<'a>,
) -> Result<Transition, OutOfMemory>
    ensures states { OnOk result (states.new ≡ with_names states.old (states_in raw.now)) }
    ensures terminals { OnOk result (terminals.new ≡ with_name terminals.old raw.now.terminal.text) }
    ensures transition { IfOk result (λ t. IsMove states.new terminals.new raw.now t) }
{
    let from = number_in(states, &raw.from)?;
    let to = numbers_of(alloc, states, raw.to.as_slice())?;
    let terminal = number_in(terminals, &raw.terminal)?;
    Ok(Transition { from, terminal, to })
}

/// Adds the transitions with numbers for their names, and puts the states into an index; both are empty
/// before. Their terminals are put at the end of those that were met before.
pub(crate) fn number_transitions<'a>(
    alloc: Global,
    states: &mut NameIndex<'a>,
    terminals: &mut NameIndex<'a>,
    transitions: &[RawTransition<'a>],
    numbered: &mut Vec<Transition>,
) -> Result<(), OutOfMemory>
    requires states { states.old ≡ [] }
    requires numbered { numbered.old.items ≡ [] }
    ensures terminals { OnOk result (terminals.new
        ≡ with_names terminals.old (map (λ t. t.terminal.text) transitions.now)) }
    ensures states { OnOk result (states.new ≡ distinct (flat_map states_in transitions.now)) }
    ensures transitions { OnOk result (numbered.new.items
        ≡ map (definition.transition_of states.new terminals.new) transitions.now) }
{
    numbered.reserve(transitions.len())?;
    for transition in transitions {
        numbered.push(transition_of(alloc, states, terminals, transition)?)?;
    }
    Ok(())
}

/// Adds the names of a rule's parameters.
fn copy_scope(
    alloc: Global,
    scope: &NameIndex,
    names: &mut Vec<Vec<Name>>,
) -> Result<(), OutOfMemory>
    ensures { OnOk result (map (λ n. n.items) names.new.items
        ≡ map (λ n. n.items) names.old.items ++ scope.now ∷ []) }
{
    let mut row = Vec::new(alloc);
    let copied = scope.copy(alloc, &mut row);
    names.push(row)?;
    copied
}

/// Adds the names of the parameters of each rule, where there are none yet.
pub(crate) fn copy_scopes(
    alloc: Global,
    scopes: &[NameIndex],
    names: &mut Vec<Vec<Name>>,
) -> Result<(), OutOfMemory>
    requires { names.old.items ≡ [] }
    ensures { OnOk result (map (λ n. n.items) names.new.items ≡ scopes.now) }
{
    names.reserve(scopes.len())?;
    for scope in scopes {
        copy_scope(alloc, scope, names)?;
    }
    Ok(())
}
