//! Evidences that are made of the packs of another.

ghost use Rattle.std.specs.Prelude.{◌≡◌, ◌+◌, ◌<◌, ◌≤◌, [], ℕ, length, All, IfOk, OnOk};
ghost use Rattle.hs_table.specs.Entries.{set_at, entry_at};
ghost use Rattle.hs_types.specs.Interned.{type_of_id};
ghost use Rattle.hs_verdict.specs.Evidence.{Evidence, Packs, evidence, stacked, own_evidence, pack_for};
ghost use Rattle.hs_verdict.specs.Naming.{chosen_pack, argument_packs};
ghost use Rattle.hs_core.specs.Core.{log_of};
ghost use Rattle.hs_path.specs.Stored.{Stands, Piled, IsPack, GrowsStore, Nothing, KnowsCurrent, premise, ArePremises};
ghost use Rattle.hs_path.specs.Moved.{IsContinuationAt};

use crate::asking::{asked, asked_params};
use crate::evidence::{Continuation, Node, Span, Store, number};
use hs_core::Core;
use hs_scheme::OutOfMemory;
use hs_types::TyId;

/// The number of the node's evidence for this type at this parameter, counted from 0.
pub(crate) fn own_evidence(store: &Store, core: &Core, node: Node, param: usize, ty: TyId) -> u32
    requires node { node.place < length (log_of core.now) }
    requires ty { ty < length core.now.ids.types }
    ensures { (below : ℕ) (own : Packs) → KnowsCurrent (length (log_of core.now)) store.now below node own →
        (result < below) × Stands (length (log_of core.now)) store.now result
        (own_evidence (entry_at (log_of core.now) node.place).env own param (type_of_id core.now.ids ty)) }
{
    let numbers = store.owns.as_slice();
    let pack = store.pack_at(numbers, node.own.from as usize, node.own.to as usize, param);
    let types = asked(core, node.place, param);
    store.pick(core.replica().interner(), types, pack, ty)
}

/// Adds the pack of the node's evidences for what the entry at this place asks of the parameter.
fn add_own_pack(
    store: &mut Store,
    core: &Core,
    node: Node,
    place: u32,
    param: usize,
) -> Result<u32, OutOfMemory>
    requires node { node.place < length (log_of core.now) }
    requires place { place < length (log_of core.now) }
    ensures grows { IfOk result (λ pack. GrowsStore store.old store.new) }
    ensures owns { IfOk result (λ pack. store.new.owns.items ≡ store.old.owns.items) }
    ensures nodes { IfOk result (λ pack. store.new.nodes.items ≡ store.old.nodes.items) }
    ensures pack { IfOk result (λ pack. (below : ℕ) (own : Packs) →
        KnowsCurrent (length (log_of core.now)) store.old below node own →
        IsPack (length (log_of core.now)) store.new below pack
        (pack_for (own_evidence (entry_at (log_of core.now) node.place).env own param)
        (set_at (entry_at (log_of core.now) place).env param))) }
{
    let from = number(store.members.len())?;
    let types = asked(core, place, param);
    for at in (0..types.len()).rev() {
        let evidence = own_evidence(store, core, node, param, types[at]);
        store.members.push(evidence)?;
    }
    let pack = store.close_pack(from)?;
    Ok(pack)
}

/// Adds the evidence of this place that is made of the node's. Its number is how many there were.
fn add(store: &mut Store, core: &Core, node: Node, place: u32) -> Result<(), OutOfMemory>
    requires node { node.place < length (log_of core.now) }
    requires place { place < length (log_of core.now) }
    ensures grows { OnOk result (GrowsStore store.old store.new) }
    ensures one { OnOk result (length store.new.nodes.items ≡ length store.old.nodes.items + 1) }
    ensures evidence { OnOk result ((own : Packs) →
        KnowsCurrent (length (log_of core.now)) store.old (length store.old.nodes.items) node own →
        Stands (length (log_of core.now)) store.new (length store.old.nodes.items)
        (premise (log_of core.now) node.place own place)) }
{
    let from = number(store.owns.len())?;
    for param in (0..asked_params(core, place)).rev() {
        let pack = add_own_pack(store, core, node, place, param)?;
        store.owns.push(pack)?;
    }
    let to = number(store.owns.len())?;
    store.nodes.push(Node {
        place,
        own: Span { from, to },
    })?;
    Ok(())
}

/// Adds an evidence for each chosen place, and answers the number of the first.
fn add_chosen(
    store: &mut Store,
    core: &Core,
    node: Node,
    chosen: &[(u32, u32)],
) -> Result<usize, OutOfMemory>
    requires node { node.place < length (log_of core.now) }
    requires places { All (λ c. c.1 < length (log_of core.now)) chosen.now }
    ensures grows { IfOk result (λ first. GrowsStore store.old store.new) }
    ensures count { IfOk result (λ first. first + length chosen.now ≡ length store.new.nodes.items) }
    ensures premises { IfOk result (λ first. (own : Packs) →
        KnowsCurrent (length (log_of core.now)) store.old (length store.old.nodes.items) node own →
        ArePremises (length (log_of core.now)) store.new first
        (premise (log_of core.now) node.place own) chosen.now) }
{
    let first = store.nodes.len();
    for choice in chosen {
        add(store, core, node, choice.1)?;
    }
    Ok(first)
}

/// Adds the pack of an argument, counted from 0: those of the evidences from number `first` on that
/// are chosen for it.
fn add_argument_pack(
    store: &mut Store,
    chosen: &[(u32, u32)],
    first: usize,
    argument: usize,
) -> Result<u32, OutOfMemory>
    requires { first + length chosen.now ≤ length store.old.nodes.items }
    ensures nodes { IfOk result (λ pack. store.new.nodes.items ≡ store.old.nodes.items) }
    ensures grows { IfOk result (λ pack. GrowsStore store.old store.new) }
    ensures pack { IfOk result (λ pack. (bound : ℕ) (give : ℕ → Evidence) →
        ArePremises bound store.old first give chosen.now →
        IsPack bound store.new (length store.old.nodes.items) pack (chosen_pack give argument chosen.now)) }
{
    let from = number(store.members.len())?;
    for at in (0..chosen.len()).rev() {
        if chosen[at].0 as usize == argument {
            store.members.push(number(first + at)?)?;
        }
    }
    let pack = store.close_pack(from)?;
    Ok(pack)
}

/// Puts a pack for each argument of the node's point on the stack, whose front is its end.
pub(crate) fn put_arguments(
    store: &mut Store,
    core: &Core,
    stack: &mut Vec<u32>,
    node: Node,
    arguments: &[u32],
    chosen: &[(u32, u32)],
) -> Result<(), OutOfMemory>
    requires node { node.place < length (log_of core.now) }
    requires places { All (λ c. c.1 < length (log_of core.now)) chosen.now }
    ensures grows { OnOk result (GrowsStore store.old store.new) }
    ensures stack { OnOk result ((own packs : Packs) →
        KnowsCurrent (length (log_of core.now)) store.old (length store.old.nodes.items) node own →
        Piled (length (log_of core.now)) store.old (length store.old.nodes.items)
        stack.old.items 0 (length stack.old.items) packs →
        Piled (length (log_of core.now)) store.new (length store.new.nodes.items)
        stack.new.items 0 (length stack.new.items)
        (stacked (argument_packs (premise (log_of core.now) node.place own) 0 arguments.now chosen.now)
        packs)) }
{
    let first = add_chosen(store, core, node, chosen)?;
    for argument in (0..arguments.len()).rev() {
        let pack = add_argument_pack(store, chosen, first, argument)?;
        stack.push(pack)?;
    }
    Ok(())
}

/// The evidence of this place with the packs of the stack, which is empty then.
pub(crate) fn of_stack(
    store: &mut Store,
    stack: &mut Vec<u32>,
    place: u32,
) -> Result<Continuation, OutOfMemory>
    ensures grows { IfOk result (λ continuation. GrowsStore store.old store.new) }
    ensures cleared { IfOk result (λ continuation. stack.new.items ≡ []) }
    ensures continuation { IfOk result (λ continuation. (bound : ℕ) (packs : Packs) →
        Nothing bound store.old → place < bound →
        Piled bound store.old (length store.old.nodes.items)
        stack.old.items 0 (length stack.old.items) packs →
        IsContinuationAt bound store.new continuation (evidence place packs)) }
{
    let from = number(store.owns.len())?;
    store.owns.extend_from_slice(stack.as_slice())?;
    stack.clear();
    let to = number(store.owns.len())?;
    Ok(Continuation {
        node: Node {
            place,
            own: Span { from, to },
        },
        number: number(store.nodes.len())?,
    })
}
