//! The types of a point's head, as they are wanted.

ghost use Rattle.std.specs.Prelude.{◌≡◌, ◌<◌, [], OnOk, length};
ghost use Rattle.hs_types.specs.Interned.{type_of_id};
ghost use Rattle.hs_replica.specs.Replica.{KeepsLog};
ghost use Rattle.hs_rules.specs.Heads.{AreHeads, Asks, ComesFrom, AsksNothing, AnyHead};
ghost use Rattle.hs_rules.specs.Seeking.{CanSeekHeads, with_head, AreHeadsFor};

use crate::found::HeadTypes;
use crate::head_search::{AskedType, HeadSearch};
use crate::nonterminals::{nonterminal_all, nonterminal_asking, nonterminal_at};
use crate::parameters::{parameter_all, parameter_asking, parameter_at};
use crate::terminals::{terminal_all, terminal_asking, terminal_nothing};
use hs_replica::Replica;
use hs_scheme::{Head, OutOfMemory};

/// Adds the types of the head that there are without entries, and that ask for no argument.
pub(crate) fn heads_nothing(
    at: &HeadSearch,
    replica: &mut Replica,
    out: &mut HeadTypes,
) -> Result<(), OutOfMemory>
    requires can { CanSeekHeads replica.old at.now }
    requires none { out.old.items ≡ [] }
    ensures heads { OnOk result (AreHeads at.now.problem.now [] (with_head at.now at.now.head)
        replica.new.ids AsksNothing out.new.items) }
    ensures kept { KeepsLog replica.old replica.new }
{
    match at.head {
        Head::Tm(terminal) => terminal_nothing(at, replica, terminal, out),
        Head::Nt(_) => Ok(()),
        Head::Var(_) => Ok(()),
    }
}

/// Adds the types of the head that ask for the type at the argument.
pub(crate) fn heads_asking(
    at: &HeadSearch,
    replica: &mut Replica,
    asked: &AskedType,
    out: &mut HeadTypes,
) -> Result<(), OutOfMemory>
    requires can { CanSeekHeads replica.old at.now }
    requires arg { asked.now.arg < length at.now.search.args.now }
    requires ty { asked.now.ty < length replica.old.ids.types }
    requires none { out.old.items ≡ [] }
    ensures heads { OnOk result (AreHeadsFor at.now at.now.head replica.old.log replica.new.ids
        (Asks asked.now.arg (type_of_id replica.old.ids asked.now.ty)) out.new.items) }
    ensures kept { KeepsLog replica.old replica.new }
{
    match at.head {
        Head::Tm(terminal) => terminal_asking(at, replica, terminal, asked, out),
        Head::Nt(nonterminal) => nonterminal_asking(at, replica, nonterminal, asked, out),
        Head::Var(x) => parameter_asking(at, replica, x, asked, out),
    }
}

/// Adds the type of the head that comes from the place.
pub(crate) fn heads_at(
    at: &HeadSearch,
    replica: &mut Replica,
    place: u32,
    out: &mut HeadTypes,
) -> Result<(), OutOfMemory>
    requires can { CanSeekHeads replica.old at.now }
    requires place { place < at.now.search.limit }
    requires none { out.old.items ≡ [] }
    ensures heads { OnOk result (AreHeadsFor at.now at.now.head replica.old.log replica.new.ids
        (ComesFrom place) out.new.items) }
    ensures kept { KeepsLog replica.old replica.new }
{
    match at.head {
        Head::Tm(_) => Ok(()),
        Head::Nt(nonterminal) => nonterminal_at(at, replica, nonterminal, place, out),
        Head::Var(x) => parameter_at(at, replica, x, place, out),
    }
}

/// Adds all types of the head.
pub(crate) fn heads_all(
    at: &HeadSearch,
    replica: &mut Replica,
    out: &mut HeadTypes,
) -> Result<(), OutOfMemory>
    requires can { CanSeekHeads replica.old at.now }
    requires none { out.old.items ≡ [] }
    ensures heads { OnOk result (AreHeadsFor at.now at.now.head replica.old.log replica.new.ids
        AnyHead out.new.items) }
    ensures kept { KeepsLog replica.old replica.new }
{
    match at.head {
        Head::Tm(terminal) => terminal_all(at, replica, terminal, out),
        Head::Nt(nonterminal) => nonterminal_all(at, replica, nonterminal, out),
        Head::Var(x) => parameter_all(at, replica, x, out),
    }
}
