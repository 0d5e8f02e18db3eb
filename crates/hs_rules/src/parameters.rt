//! The types of a parameter at a point's head, as they are wanted.

ghost use Rattle.std.specs.Prelude.{◌≡◌, ◌<◌, [], OnOk, length};
ghost use Rattle.hs_scheme.specs.declared.term.Head.TheVariants.{Var};
ghost use Rattle.hs_types.specs.Interned.{type_of_id};
ghost use Rattle.hs_replica.specs.Places.{here, takes};
ghost use Rattle.hs_replica.specs.Replica.{KeepsLog};
ghost use Rattle.hs_rules.specs.Heads.{GainsHeads, AtFlow, Asks, ComesFrom, AnyHead};
ghost use Rattle.hs_rules.specs.Seeking.{CanSeekHeads, AreHeadsFor};

use crate::found::HeadTypes;
use crate::head_search::{AskedType, HeadSearch};
use crate::heads::push_params;
use crate::search::below;
use hs_replica::Replica;
use hs_scheme::{FlowPair, OutOfMemory};

/// Adds the types of parameter x that take an argument of the type, from the points of
/// these pairs.
fn push_taking(
    at: &HeadSearch,
    replica: &mut Replica,
    pairs: &[FlowPair],
    x: u32,
    asked: &AskedType,
    out: &mut HeadTypes,
) -> Result<(), OutOfMemory>
    requires can { CanSeekHeads replica.old at.now }
    requires x { x < at.now.params }
    requires ty { asked.now.ty < length replica.old.ids.types }
    ensures gains { OnOk result (GainsHeads replica.new.ids (length at.now.search.args.now)
        (AtFlow replica.old.log at.now.params x at.now.search.limit
        (λ u. takes u asked.now.arg (type_of_id replica.old.ids asked.now.ty)) pairs.now)
        out.old.items out.new.items) }
    ensures kept { KeepsLog replica.old replica.new }
{
    for pair in pairs {
        replica.list_types(pair.point)?;
        let places = below(
            at.search.alloc,
            replica.taking(pair.point, asked.arg, asked.ty),
            at.search.limit,
        )?;
        push_params(at, replica, places.as_slice(), x, out)?;
    }
    Ok(())
}

/// Adds all types of parameter x, from the points of these pairs.
fn push_flowing(
    at: &HeadSearch,
    replica: &mut Replica,
    pairs: &[FlowPair],
    x: u32,
    out: &mut HeadTypes,
) -> Result<(), OutOfMemory>
    requires can { CanSeekHeads replica.old at.now }
    requires x { x < at.now.params }
    ensures gains { OnOk result (GainsHeads replica.new.ids (length at.now.search.args.now)
        (AtFlow replica.old.log at.now.params x at.now.search.limit here pairs.now) out.old.items out.new.items) }
    ensures kept { KeepsLog replica.old replica.new }
{
    for pair in pairs {
        let places = below(
            at.search.alloc,
            replica.at_point(pair.point),
            at.search.limit,
        )?;
        push_params(at, replica, places.as_slice(), x, out)?;
    }
    Ok(())
}

/// Adds the types of parameter x at the head that ask for the type at the argument.
pub(crate) fn parameter_asking(
    at: &HeadSearch,
    replica: &mut Replica,
    x: u32,
    asked: &AskedType,
    out: &mut HeadTypes,
) -> Result<(), OutOfMemory>
    requires can { CanSeekHeads replica.old at.now }
    requires head { x < at.now.params }
    requires arg { asked.now.arg < length at.now.search.args.now }
    requires ty { asked.now.ty < length replica.old.ids.types }
    requires none { out.old.items ≡ [] }
    ensures heads { OnOk result (AreHeadsFor at.now (Var x) replica.old.log replica.new.ids
        (Asks asked.now.arg (type_of_id replica.old.ids asked.now.ty)) out.new.items) }
    ensures kept { KeepsLog replica.old replica.new }
{
    let problem = at.problem;
    let pairs = problem.flow.flow_of(at.rule, x);
    push_taking(at, replica, pairs, x, asked, out)
}

/// Adds the type of parameter x at the head that comes from the place.
pub(crate) fn parameter_at(
    at: &HeadSearch,
    replica: &mut Replica,
    x: u32,
    place: u32,
    out: &mut HeadTypes,
) -> Result<(), OutOfMemory>
    requires can { CanSeekHeads replica.old at.now }
    requires head { x < at.now.params }
    requires place { place < at.now.search.limit }
    requires none { out.old.items ≡ [] }
    ensures heads { OnOk result (AreHeadsFor at.now (Var x) replica.old.log replica.new.ids
        (ComesFrom place) out.new.items) }
    ensures kept { KeepsLog replica.old replica.new }
{
    let problem = at.problem;
    let row = replica.row(place);
    if !problem.flow.holds(at.rule, x, row.point) {
        return Ok(());
    }
    push_params(at, replica, &[place], x, out)
}

/// Adds all types of parameter x at the head.
pub(crate) fn parameter_all(
    at: &HeadSearch,
    replica: &mut Replica,
    x: u32,
    out: &mut HeadTypes,
) -> Result<(), OutOfMemory>
    requires can { CanSeekHeads replica.old at.now }
    requires head { x < at.now.params }
    requires none { out.old.items ≡ [] }
    ensures heads { OnOk result (AreHeadsFor at.now (Var x) replica.old.log replica.new.ids
        AnyHead out.new.items) }
    ensures kept { KeepsLog replica.old replica.new }
{
    let problem = at.problem;
    let pairs = problem.flow.flow_of(at.rule, x);
    push_flowing(at, replica, pairs, x, out)
}
