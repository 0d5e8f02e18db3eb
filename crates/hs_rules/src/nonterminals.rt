//! The types of a nonterminal at a point's head, as they are wanted.

ghost use Rattle.std.specs.Prelude.{◌≡◌, ◌<◌, [], IfOk, OnOk, length, take};
ghost use Rattle.std.specs.Bool.{OnFalse};
ghost use Rattle.hs_scheme.specs.declared.term.Head.TheVariants.{Nt};
ghost use Rattle.hs_types.specs.Interned.{type_of_id};
ghost use Rattle.hs_replica.specs.Replica.{ListsMore, KeepsLog};
ghost use Rattle.hs_rules.specs.Filling.{fixed_of};
ghost use Rattle.hs_rules.specs.Heads.{Asks, ComesFrom, AnyHead};
ghost use Rattle.hs_rules.specs.Seeking.{CanSeekHeads, AreHeadsFor};
ghost use Rattle.hs_rules.specs.Shut.{IsBodyShut};

use crate::found::HeadTypes;
use crate::head_search::{AskedType, HeadSearch};
use crate::heads::push_bodies;
use crate::search::{begin_below, below, is_open, list_args};
use hs_replica::Replica;
use hs_scheme::OutOfMemory;

/// Adds the types of a nonterminal at the head that ask for the type at the argument.
pub(crate) fn nonterminal_asking(
    at: &HeadSearch,
    replica: &mut Replica,
    nonterminal: u32,
    asked: &AskedType,
    out: &mut HeadTypes,
) -> Result<(), OutOfMemory>
    requires can { CanSeekHeads replica.old at.now }
    requires head { nonterminal < length at.now.problem.now.points.bodies }
    requires arg { asked.now.arg < length at.now.search.args.now }
    requires ty { asked.now.ty < length replica.old.ids.types }
    requires none { out.old.items ≡ [] }
    ensures heads { OnOk result (AreHeadsFor at.now (Nt nonterminal) replica.old.log replica.new.ids
        (Asks asked.now.arg (type_of_id replica.old.ids asked.now.ty)) out.new.items) }
    ensures kept { KeepsLog replica.old replica.new }
{
    let problem = at.problem;
    let body = problem.points.body_of(nonterminal);
    let entries = replica.asking(body, asked.arg, asked.ty)?;
    let places = begin_below(entries.as_slice(), at.search.limit);
    let own = replica.empty_env(at.params as usize)?;
    push_bodies(at, replica, places, own, out)
}

/// Whether the entry at the place may lead to something as one at the nonterminal's body: it is
/// there, and there may be candidates for all slots of the type that it gives.
pub(crate) fn is_body_open(
    at: &HeadSearch,
    replica: &mut Replica,
    nonterminal: u32,
    place: u32,
) -> Result<bool, OutOfMemory>
    requires can { CanSeekHeads replica.old at.now }
    requires head { nonterminal < length at.now.problem.now.points.bodies }
    requires place { place < at.now.search.limit }
    ensures shut { IfOk result (λ may. OnFalse may (IsBodyShut at.now.problem.now
        (take at.now.search.limit replica.old.log) (fixed_of replica.old.log at.now.search.fixed)
        at.now.search.args.now nonterminal place)) }
    ensures kept { ListsMore replica.old replica.new }
{
    let problem = at.problem;
    let row = replica.row(place);
    if row.point != problem.points.body_of(nonterminal) {
        return Ok(false);
    }
    list_args(replica, at.search.args)?;
    let sets = replica.interner().sets(row.env);
    let count = at.search.args.len();
    if sets.len() < count {
        return Ok(false);
    }
    Ok(is_open(replica, &at.search, &sets[..count]))
}

/// Adds the type of a nonterminal at the head that comes from the place.
pub(crate) fn nonterminal_at(
    at: &HeadSearch,
    replica: &mut Replica,
    nonterminal: u32,
    place: u32,
    out: &mut HeadTypes,
) -> Result<(), OutOfMemory>
    requires can { CanSeekHeads replica.old at.now }
    requires head { nonterminal < length at.now.problem.now.points.bodies }
    requires place { place < at.now.search.limit }
    requires none { out.old.items ≡ [] }
    ensures heads { OnOk result (AreHeadsFor at.now (Nt nonterminal) replica.old.log replica.new.ids
        (ComesFrom place) out.new.items) }
    ensures kept { KeepsLog replica.old replica.new }
{
    let problem = at.problem;
    let body = problem.points.body_of(nonterminal);
    if replica.row(place).point != body {
        return Ok(());
    }
    let own = replica.empty_env(at.params as usize)?;
    push_bodies(at, replica, &[place], own, out)
}

/// Adds all types of a nonterminal at the head.
pub(crate) fn nonterminal_all(
    at: &HeadSearch,
    replica: &mut Replica,
    nonterminal: u32,
    out: &mut HeadTypes,
) -> Result<(), OutOfMemory>
    requires can { CanSeekHeads replica.old at.now }
    requires head { nonterminal < length at.now.problem.now.points.bodies }
    requires none { out.old.items ≡ [] }
    ensures heads { OnOk result (AreHeadsFor at.now (Nt nonterminal) replica.old.log replica.new.ids
        AnyHead out.new.items) }
    ensures kept { KeepsLog replica.old replica.new }
{
    let problem = at.problem;
    let own = replica.empty_env(at.params as usize)?;
    let body = problem.points.body_of(nonterminal);
    let places = below(at.search.alloc, replica.at_point(body), at.search.limit)?;
    push_bodies(at, replica, places.as_slice(), own, out)
}
