//! What is done while the turn is held.

ghost use Rattle.std.specs.Prelude.{◌≡◌, ◌<◌, ◌^◌, ◌++◌, ℕ, true, length, IfOk, OnOk, OnErr, take, ◌+◌};
ghost use mathlib.Core.List.{IsPrefix};
ghost use Rattle.hs_table.specs.Follows.{FollowsBy};
ghost use Rattle.hs_types.specs.Interned.{IsRow, entry_of, Grows};
ghost use Rattle.hs_types.specs.Translations.{AreFound};
ghost use Rattle.hs_history.specs.CoreStep.{Holds};
ghost use Rattle.hs_core.specs.Core.{CoreData, IsCore, state_of, log_of, deduction_of};
ghost use Rattle.hs_history.specs.Story.{Story};
ghost use Rattle.hs_core.specs.Answers.{Takes, Publishes, AreOfWorker};
ghost use Rattle.hs_shared.specs.Seats.{HasSeenOwn};
ghost use Rattle.hs_shared.specs.Calls.{GrowsOnce};
ghost use Rattle.hs_shared.specs.Holding.{HasTold};

use crate::held::Held;
use hs_core::{Core, Deduced, Published, Replica, Taken};
use hs_scheme::OutOfMemory;
use hs_turn::{Guard, Seat};
use hs_types::ImportedNumbers;

/// How many steps the core has gone through.
pub(crate) fn count(core: &Core) -> usize
    ensures count { result ≡ length core.now.story }
    ensures short { result < 2 ^ 63 }
    ensures core { IsCore core.now }
{
    core.know_core();
    core.journal().len()
}

/// Tells of the step by which the story has grown since it had so many steps, where it has.
pub(crate) fn tell<'p>(guard: &mut Guard<'_, Held<'p>>, seat: &mut Seat<Held<'p>>, before: usize)
    requires turn { seat.old.turn ≡ guard.old.turn.now }
    requires holds { seat.old.known.holds ≡ true }
    requires own { HasSeenOwn seat.old }
    requires before { before ≡ length seat.old.known.seen }
    requires once { GrowsOnce seat.old.known.number seat.old.known.seen guard.old.state.core.story }
    ensures guard { guard.new ≡ guard.old }
    ensures seat { HasTold seat.old guard.old.state.core.story seat.new }
    ensures own { HasSeenOwn seat.new }
    ensures core { IsCore guard.old.state.core }
{
    let now = count(&guard.state.core);
    if now == before {
        return;
    }
    guard.tell(seat);
}

/// Tells of the steps by which the story has grown since it had so many steps.
pub(crate) fn tell_all<'p>(
    guard: &mut Guard<'_, Held<'p>>,
    seat: &mut Seat<Held<'p>>,
    before: usize,
)
    requires turn { seat.old.turn ≡ guard.old.turn.now }
    requires holds { seat.old.known.holds ≡ true }
    requires own { HasSeenOwn seat.old }
    requires before { before ≡ length seat.old.known.seen }
    requires grown { (more : Story) × (guard.old.state.core.story ≡ seat.old.known.seen ++ more)
        × AreOfWorker seat.old.known.number more }
    ensures guard { guard.new ≡ guard.old }
    ensures seat { HasTold seat.old guard.old.state.core.story seat.new }
    ensures own { HasSeenOwn seat.new }
    ensures core { IsCore guard.old.state.core }
{
    let now = count(&guard.state.core);
    guard.tell_all(seat, (now - before) as u64);
}

/// Makes room for an event, and takes a work.
pub(crate) fn take_work(core: &mut Core, worker: u32) -> Result<Taken, OutOfMemory>
    ensures ok { IfOk result (λ taken. (spare : ℕ)
        × Takes (record core.old { spare = spare }) worker taken core.new) }
    ensures err { OnErr result (core.new ≡ core.old) }
{
    core.reserve_some()?;
    Ok(core.take(worker))
}

/// Makes room for an event, brings the deduction from the replica's interner and publishes it.
pub(crate) fn publish_deduction(
    core: &mut Core,
    worker: u32,
    ticket: u32,
    replica: &Replica,
    deduced: &Deduced,
    found: &mut ImportedNumbers,
) -> Result<Published, OutOfMemory>
    requires holds { Holds (state_of core.old) worker ticket }
    requires row { IsRow replica.now.ids deduced.now.row }
    requires follows { FollowsBy core.old.base.problem (log_of core.old) deduced.now.support
        (entry_of replica.now.ids deduced.now.row) }
    requires found { AreFound replica.now.ids core.old.ids found.old }
    ensures ok { IfOk result (λ published. (prepared : CoreData) × IsCore prepared
        × (prepared.base ≡ core.old.base) × (prepared.story ≡ core.old.story)
        × Publishes prepared worker ticket (deduction_of replica.now.ids deduced.now) published core.new) }
    ensures err { OnErr result ((core.new.base ≡ core.old.base) × (core.new.story ≡ core.old.story)) }
    ensures found { AreFound replica.now.ids core.new.ids found.new }
{
    core.reserve_some()?;
    let brought = core.bring_with(found, replica.interner(), deduced)?;
    core.know_core();
    Ok(core.publish(worker, ticket, brought))
}

/// Adds the entry at this place of the log to the replica, which has those before it.
fn copy_entry(from: &Replica, to: &mut Replica, place: u32) -> Result<(), OutOfMemory>
    requires place { place < length from.now.log }
    requires before { to.old.log ≡ take place from.now.log }
    ensures ok { OnOk result (to.new.log ≡ take (place + 1) from.now.log) }
    ensures err { OnErr result (to.new.log ≡ to.old.log) }
    ensures more { IsPrefix to.old.log to.new.log }
    ensures kept { (to.new.spare ≡ to.old.spare) × (to.new.indexed ≡ to.old.indexed)
        × Grows to.old.ids to.new.ids }
{
    let _entries = from.len();
    to.append(from.interner(), from.row(place))
}

/// Adds the entries of a log that the replica lacks, whose log begins it. After a refusal of memory
/// it has some of them.
pub(crate) fn copy_log(from: &Replica, to: &mut Replica) -> Result<(), OutOfMemory>
    requires { IsPrefix to.old.log from.now.log }
    ensures ok { OnOk result (to.new.log ≡ from.now.log) }
    ensures begins { IsPrefix to.new.log from.now.log }
    ensures more { IsPrefix to.old.log to.new.log }
    ensures kept { (to.new.spare ≡ to.old.spare) × (to.new.indexed ≡ to.old.indexed)
        × Grows to.old.ids to.new.ids }
{
    for place in to.len()..from.len() {
        copy_entry(from, to, place)?;
    }
    Ok(())
}
