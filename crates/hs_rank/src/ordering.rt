//! The places of what was gathered, sorted by the entries there.

ghost use Rattle.std.specs.Prelude.{◌≡◌, length, All, IfOk, OnOk};
ghost use Rattle.std.specs.List.{concat, range_with_len};
ghost use Rattle.std.specs.List.Sorted.{IsPermutation};
ghost use Rattle.hs_types.specs.Interned.{IsRow};
ghost use Rattle.hs_rank.specs.Buckets.{lists_in, IsLinked, AreApart};
ghost use Rattle.hs_rank.specs.Ordering.{AreSorted, HasSorted};

use crate::buckets::{Buckets, bucket_count, buckets_of, list_bucket};
use crate::comparing::compare_places;
use hs_rules::Deduced;
use hs_scheme::OutOfMemory;
use hs_types::Interner;
use std::alloc::Global;

/// Fewer than so many are sorted without buckets.
const FEW: usize = 64;

/// The numbers below n, in their order.
fn numbers_below(alloc: Global, n: usize) -> Result<Vec<usize>, OutOfMemory>
    ensures { IfOk result (λ numbers. numbers.items ≡ range_with_len 0 n) }
{
    let mut numbers = Vec::with_capacity(alloc, n)?;
    for number in 0..n {
        numbers.push_reserved(number);
    }
    Ok(numbers)
}

/// The places of what was found, counted from 0, each once, sorted by the entries there without buckets.
fn sorted_at_once(
    alloc: Global,
    interner: &Interner,
    found: &[Deduced],
) -> Result<Vec<usize>, OutOfMemory>
    requires { All (λ d. IsRow interner.now d.row) found.now }
    ensures { IfOk result (λ places. AreSorted interner.now found.now places.items) }
{
    let mut places = numbers_below(alloc, found.len())?;
    places.sort_by(|a, b| compare_places(interner, found, *a, *b))?;
    Ok(places)
}

/// Adds the places at the end, in ascending order of the entries there.
fn add_sorted(
    interner: &Interner,
    found: &[Deduced],
    bucket: &mut Vec<usize>,
    places: &mut Vec<usize>,
) -> Result<(), OutOfMemory>
    requires { All (λ d. IsRow interner.now d.row) found.now }
    ensures { OnOk result (HasSorted interner.now found.now bucket.old.items places.old.items
        places.new.items) }
{
    bucket.sort_by(|a, b| compare_places(interner, found, *a, *b))?;
    places.extend_from_slice(bucket.as_slice())?;
    Ok(())
}

/// The places in these buckets, those of each bucket in ascending order of the entries there.
fn joined(
    alloc: Global,
    interner: &Interner,
    found: &[Deduced],
    buckets: &Buckets,
) -> Result<Vec<usize>, OutOfMemory>
    requires known { All (λ d. IsRow interner.now d.row) found.now }
    requires linked { IsLinked buckets.now.before.items buckets.now.lasts.items }
    requires all { IsPermutation (range_with_len 0 (length found.now))
        (concat (lists_in buckets.now.before.items buckets.now.lasts.items)) }
    requires apart { AreApart found.now (lists_in buckets.now.before.items buckets.now.lasts.items) }
    ensures { IfOk result (λ places. AreSorted interner.now found.now places.items) }
{
    let mut places = Vec::with_capacity(alloc, found.len())?;
    let mut bucket = Vec::new(alloc);
    for number in 0..bucket_count(buckets) {
        list_bucket(buckets, number, &mut bucket)?;
        add_sorted(interner, found, &mut bucket, &mut places)?;
    }
    Ok(places)
}

/// The places of what was found, counted from 0, each once, so that no entry there is less than the one
/// before it. Few are sorted at once, for which buckets would cost more than they save.
pub(crate) fn sorted_places(
    alloc: Global,
    interner: &Interner,
    found: &[Deduced],
) -> Result<Vec<usize>, OutOfMemory>
    requires { All (λ d. IsRow interner.now d.row) found.now }
    ensures { IfOk result (λ places. AreSorted interner.now found.now places.items) }
{
    if found.len() < FEW {
        return sorted_at_once(alloc, interner, found);
    }
    let buckets = buckets_of(alloc, found)?;
    joined(alloc, interner, found, &buckets)
}
