//! The verdict where evidence is sought before the table is filled.
//!
//! A run with `--quick` searches, and decides on what was proposed. The second half is a call of its own,
//! for whoever has another search, and for tests of proposals that don't stand. Who has a file and a
//! question calls `run`.

ghost use Rattle.std.specs.Prelude.{◌≡◌, true};
ghost use Rattle.hs_verdict.specs.Premises.{HasClosedFlow};
ghost use Rattle.hs_weak.specs.Reads.{IsClosedReads};
ghost use Rattle.hs_reads.specs.Own.{AreReadsOf};
ghost use Rattle.hs_app.specs.Verdict.{Decides};

use crate::deciding::by_table;
use crate::evidence::by_proposal;
use crate::verdict::Decided;
use hs_front::Refusal;
use hs_quick::{Limits, Proposal, propose};
use hs_reads::Reads;
use hs_scheme::{Problem, Sorted};
use hs_words::Settings;
use hs_workers::Gate;
use std::alloc::Global;
use std::sync::Wait;
use std::thread::Threads;

/// The verdict on a problem by the proposal, where that stands, and else by the least table; or that this
/// has more entries than are allowed.
///
/// Any proposal may be given. A certificate of acceptance is checked, with the problem's own read pairs.
/// The child numbers of a path, counted from 1, are followed by reduction along the rules of the scheme
/// `before`, which the passes made smaller, or of the problem's own; `removed` is the weight that they took
/// off. What doesn't stand, or for which memory doesn't suffice, changes nothing: the answer is then that
/// of the table, as without a proposal.
///
/// Takes the time of the check, or of so many steps as the settings have, and then, where the proposal
/// didn't stand, that of saturation.
pub fn decide_on<R: Threads + Wait + Sync, G: Gate + Sync>(
    rt: &R,
    alloc: Global,
    before: &Sorted,
    problem: &Problem,
    reads: Reads,
    proposal: Proposal,
    removed: Option<u64>,
    settings: Settings,
    gate: &G,
) -> Result<Decided, Refusal>
    requires quick { settings.quick ≡ true }
    requires flow { HasClosedFlow problem.now }
    requires reads { IsClosedReads problem.now reads }
    requires own { AreReadsOf problem.now reads }
    ensures { Decides settings before.now problem.now removed result }
{
    let decided = by_proposal(alloc, before, problem, &reads, proposal, removed, settings);
    drop(reads);
    match decided {
        Some(decided) => Ok(decided),
        None => by_table(rt, alloc, problem, removed, settings, gate),
    }
}

/// What a search proposes. Nothing where memory doesn't suffice.
fn proposal_of(alloc: Global, problem: &Problem, reads: &Reads) -> Proposal {
    match propose(alloc, problem, reads, Limits::usual()) {
        Ok(proposal) => proposal,
        Err(_) => Proposal::None,
    }
}

/// The verdict on a problem by evidence, where some is found that stands, and else by the least table. A
/// path leads along the rules of the scheme `before`.
pub(crate) fn decide_by_search<R: Threads + Wait + Sync, G: Gate + Sync>(
    rt: &R,
    alloc: Global,
    before: &Sorted,
    problem: &Problem,
    removed: Option<u64>,
    settings: Settings,
    gate: &G,
) -> Result<Decided, Refusal>
    requires quick { settings.quick ≡ true }
    requires flow { HasClosedFlow problem.now }
    ensures { Decides settings before.now problem.now removed result }
{
    match Reads::of(alloc, problem) {
        Ok(reads) => {
            let proposal = proposal_of(alloc, problem, &reads);
            decide_on(
                rt, alloc, before, problem, reads, proposal, removed, settings, gate,
            )
        }
        Err(_) => by_table(rt, alloc, problem, removed, settings, gate),
    }
}
