//! What is gathered of a round: conclusions whose entries the log lacks.

ghost use Rattle.std.specs.Prelude.{◌≡◌, [], All, IfOk, OnOk, Contains};
ghost use Rattle.hs_types.specs.Interned.{IsRow};
ghost use Rattle.hs_rules.specs.Conclusions.{DeducedData};
ghost use Rattle.hs_rules.specs.Found.{Lowers};
ghost use Rattle.hs_rank.specs.Gathering.{AddsNew};

use crate::merging::merged;
use hs_rules::{Deduced, Replica};
use hs_scheme::OutOfMemory;
use std::alloc::Global;

/// Fewer than so many stay as they came until their round is whole.
const FEW: usize = 4096;

/// Conclusions of one entry are merged where there are so many times as many as were left the last
/// time.
const TIMES: usize = 4;

/// What is gathered of a round. An entry may stand there several times, by several supports.
#[derive(Drop)]
pub struct Fresh {
    /// What was gathered.
    pub list: Vec<Deduced>,
    /// Where there are so many, those of one entry are merged.
    bound: usize,
}

/// Where so many are merged that were this many the last time.
fn bound_for(count: usize) -> usize {
    count.saturating_mul(TIMES).max(FEW)
}

/// Nothing gathered, with room for so much.
pub fn room_for(alloc: Global, count: usize) -> Result<Fresh, OutOfMemory>
    ensures { IfOk result (λ fresh. fresh.list.items ≡ []) }
{
    Ok(Fresh {
        list: Vec::with_capacity(alloc, count)?,
        bound: bound_for(count),
    })
}

/// Adds what was deduced where the log lacks its entry.
fn keep(replica: &Replica, deduced: Deduced, fresh: &mut Fresh) -> Result<(), OutOfMemory>
    requires { IsRow replica.now.ids deduced.row }
    ensures { OnOk result (AddsNew replica.now.ids replica.now.log (λ d. d ≡ deduced)
        fresh.old.list.items fresh.new.list.items) }
{
    if let Some(_place) = replica.find(deduced.row) {
        return Ok(());
    }
    fresh.list.push(deduced)?;
    Ok(())
}

/// Adds of what was found that of which the log lacks the entries.
fn keep_all(replica: &Replica, found: Vec<Deduced>, fresh: &mut Fresh) -> Result<(), OutOfMemory>
    requires { All (λ d. IsRow replica.now.ids d.row) found.items }
    ensures { OnOk result (AddsNew replica.now.ids replica.now.log (Contains found.items)
        fresh.old.list.items fresh.new.list.items) }
{
    let mut left = found;
    while let Some(deduced) = left.pop() {
        keep(replica, deduced, fresh)?;
    }
    Ok(())
}

/// Keeps of each entry the conclusion with the least support.
fn merge(replica: &Replica, fresh: &mut Fresh) -> Result<(), OutOfMemory>
    requires { All (λ d. IsRow replica.now.ids d.row) fresh.old.list.items }
    ensures lowers { OnOk result (Lowers fresh.old.list.items fresh.new.list.items) }
    ensures only { OnOk result ((d : DeducedData) → Contains fresh.new.list.items d
        → Contains fresh.old.list.items d) }
{
    let alloc = *fresh.list.allocator();
    let left = merged(alloc, replica, &mut fresh.list)?;
    fresh.bound = bound_for(left.len());
    fresh.list = left;
    Ok(())
}

/// Adds of what was found that of which the log lacks the entries. An entry may come to stand there
/// several times, by several supports. Once there are 4,096 conclusions, and four times as many as
/// there was room for or as were left the last time, of each entry the one with the least support is
/// kept. No clause says so. Takes constant time for each, on average, and that of sorting where
/// conclusions are merged.
pub fn keep_new(
    replica: &Replica,
    found: Vec<Deduced>,
    fresh: &mut Fresh,
) -> Result<(), OutOfMemory>
    requires known { All (λ d. IsRow replica.now.ids d.row) found.items }
    requires gathered { All (λ d. IsRow replica.now.ids d.row) fresh.old.list.items }
    ensures { OnOk result (AddsNew replica.now.ids replica.now.log (Contains found.items)
        fresh.old.list.items fresh.new.list.items) }
{
    keep_all(replica, found, fresh)?;
    if fresh.list.len() < fresh.bound {
        return Ok(());
    }
    merge(replica, fresh)
}
