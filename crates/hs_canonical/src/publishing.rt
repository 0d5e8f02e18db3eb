//! A round is published under one ticket, in the order of its entries.

ghost use Rattle.std.specs.Prelude.{◌≡◌, ◌<◌, ◌≤◌, ◌∷◌, [], length, false, IfNone, IfSome, OnOk, Contains};
ghost use Rattle.hs_types.specs.Interned.{IsRow, entry_of};
ghost use Rattle.hs_table.specs.Follows.{FollowsBy};
ghost use Rattle.hs_history.specs.CoreStep.{Holds};
ghost use Rattle.hs_core.specs.Core.{state_of, log_of};
ghost use Rattle.hs_rank.specs.Ordering.{picked};
ghost use Rattle.hs_canonical.specs.Publishing.{HasNoStory, HasNothing, HasPublished, CanPublish};

use hs_core::{Core, Taken};
use hs_rank::take_out;
use hs_rules::Deduced;
use hs_scheme::OutOfMemory;
use std::alloc::Global;

/// The worker in whose name all is done.
const WORKER: u32 = 1;

/// Takes the first seed of a core in which nothing has happened. The ticket under which it is in
/// flight, or `None` where there are no points.
pub(crate) fn first_ticket(core: &mut Core) -> Option<u32>
    requires all { core.old.base.first ≡ false }
    requires opened { HasNoStory core.old }
    requires spare { 1 ≤ core.old.spare }
    ensures base { core.new.base ≡ core.old.base }
    ensures nothing { HasNothing core.new }
    ensures taken { IfSome result (λ ticket. Holds (state_of core.new) WORKER ticket) }
    ensures none { IfNone result (core.old.base.problem.points.points ≡ []) }
{
    match core.take(WORKER) {
        Taken::Item {
            work: _work,
            ticket,
        } => Some(ticket),
        Taken::Quiet => None,
        Taken::Idle => None,
        Taken::Over => None,
        Taken::Found { place: _ } => None,
    }
}

/// Publishes the entry, which the log lacks and for which there is room, under the ticket.
fn publish_new(core: &mut Core, ticket: u32, deduced: Deduced) -> Result<(), OutOfMemory>
    requires holds { Holds (state_of core.old) WORKER ticket }
    requires row { IsRow core.old.ids deduced.row }
    requires follows { FollowsBy core.old.base.problem (log_of core.old) deduced.support
        (entry_of core.old.ids deduced.row) }
    requires new { Contains (log_of core.old) (entry_of core.old.ids deduced.row) → ⊥ }
    requires room { length (log_of core.old) < core.old.base.budget }
    ensures { OnOk result (HasPublished WORKER ticket core.old (deduced ∷ []) core.new) }
{
    core.reserve_some()?;
    let _place = core.append(WORKER, ticket, deduced);
    Ok(())
}

/// Publishes what was found under the ticket, in the order of these places. What was found is left
/// without its arguments.
pub(crate) fn publish_round(
    alloc: Global,
    core: &mut Core,
    ticket: u32,
    found: &mut Vec<Deduced>,
    places: &[usize],
) -> Result<(), OutOfMemory>
    requires holds { Holds (state_of core.old) WORKER ticket }
    requires can { CanPublish core.old found.old.items places.now }
    ensures { OnOk result (HasPublished WORKER ticket core.old (picked found.old.items places.now)
        core.new) }
{
    for place in places {
        let deduced = take_out(alloc, found, *place);
        publish_new(core, ticket, deduced)?;
    }
    Ok(())
}
