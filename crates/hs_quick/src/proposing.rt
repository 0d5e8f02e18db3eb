//! The proposal.

use crate::certificate::Telling;
use crate::ended::Ended;
use crate::limits::Limits;
use crate::naming::path_of;
use crate::search::Search;
use hs_numbered::NumberedCertificate;
use hs_reads::Reads;
use hs_scheme::{OutOfMemory, Problem};
use std::alloc::Global;

/// What a search found.
#[derive(Drop)]
pub enum Proposal {
    /// That the scheme is accepted, by these entries and these void environments, both in ascending
    /// order and without repeats.
    Accepted(NumberedCertificate),
    /// That it is rejected along the path with these child numbers, counted from 1.
    Rejected(Vec<u32>),
    /// Nothing.
    None,
}

/// What a search came to.
#[derive(Drop)]
enum Found {
    /// What is told.
    Certificate,
    Path(Vec<u32>),
    Nothing,
}

/// Tells what the search found.
fn accepting(search: &mut Search, telling: &mut Telling) -> Found {
    search.release();
    telling.tell(search);
    Found::Certificate
}

/// Runs the search, and reads what it found from it.
fn find(search: &mut Search, telling: &mut Telling, limits: Limits) -> Found {
    match search.run() {
        None => accepting(search, telling),
        Some(Ended::StartFound) => match path_of(search, limits.moves) {
            Some(path) => Found::Path(path),
            None => Found::Nothing,
        },
        Some(_) => Found::Nothing,
    }
}

/// The proposal of what was found, unless memory was refused. There is none where too much was to be told.
fn proposal_of(found: Found, telling: Telling, refused: bool) -> Result<Proposal, OutOfMemory> {
    match found {
        _ if refused => Err(OutOfMemory),
        Found::Certificate if telling.left > 0 => Ok(Proposal::Accepted(telling.certificate)),
        Found::Path(path) => Ok(Proposal::Rejected(path)),
        _ => Ok(Proposal::None),
    }
}

/// Searches for evidence that the scheme is accepted or rejected. The problem's flow is to be closed:
/// with another one the search looks past calls.
///
/// Nothing is promised of what is proposed: whoever takes it checks it. The search ends, since what it
/// does is counted, and bounded by the limits; it looks at them between two works, and one work may
/// take as many steps more as a pool has items. `Proposal::None` comes where a limit is passed, or where
/// more is found than is kept: 4,000,000 sites, 6,000,000 types in the proposal, those in other types
/// counted with them, or 8,000,000 entries with their arguments along a path. `OutOfMemory` comes where
/// memory is refused.
///
/// Time is in proportion to the points, the flow, the pairs of a point with a terminal and a state in which
/// it is read, and the steps that are taken: some 0.1 to 0.5 microseconds each. Memory is in proportion to
/// the points, the flow, the entries and the unions.
pub fn propose(
    alloc: Global,
    problem: &Problem,
    reads: &Reads,
    limits: Limits,
) -> Result<Proposal, OutOfMemory> {
    let mut search = Search::new(alloc, problem, reads, limits);
    let mut telling = Telling::new(alloc);
    let found = find(&mut search, &mut telling, limits);
    let refused = match search.ended() {
        Some(Ended::OutOfMemory) => true,
        _ => telling.refused,
    };
    drop(search);
    proposal_of(found, telling, refused)
}
