//! The places of what was found, in buckets by their points, so that few have to be compared.

ghost use Rattle.std.specs.Prelude.{◌≡◌, ◌+◌, ◌<◌, ◌≤◌, [], ◌∷◌, ◌++◌, ℕ, length, set, vec_len, vec_capacity, IfOk, OnOk};
ghost use Rattle.std.specs.List.{concat, range_with_len};
ghost use Rattle.std.specs.List.Sorted.{IsPermutation};
ghost use Rattle.hs_flow.specs.Lists.{list_of};
ghost use Rattle.hs_rules.specs.Conclusions.{DeducedData};
ghost use Rattle.hs_rank.specs.Buckets.{bucket_of, lists_in, IsLinked, AreApart};

use hs_rules::Deduced;
use hs_scheme::OutOfMemory;
use std::alloc::Global;

/// A bucket has about so many places.
const SHARE: usize = 4;

/// Lists of places, each place in one of them. A list is told from its last place back.
#[derive(Drop)]
pub(crate) struct Buckets {
    /// For each bucket the place that was added to it last, counted from 1, or 0.
    lasts: Vec<usize>,
    /// For each place the one that was added to its bucket before it, counted from 1, or 0.
    before: Vec<usize>,
}

/// So many empty buckets, with room for so many places.
fn empty_buckets(alloc: Global, count: usize, places: usize) -> Result<Buckets, OutOfMemory>
    ensures len { IfOk result (λ buckets. length buckets.lasts.items ≡ count) }
    ensures none { IfOk result (λ buckets. buckets.before.items ≡ []) }
    ensures linked { IfOk result (λ buckets. IsLinked buckets.before.items buckets.lasts.items) }
    ensures empty { IfOk result (λ buckets. (k : ℕ)
        → list_of (lists_in buckets.before.items buckets.lasts.items) k ≡ []) }
    ensures room { IfOk result (λ buckets. places ≤ vec_capacity buckets.before) }
{
    let before = Vec::with_capacity(alloc, places)?;
    let mut lasts = Vec::with_capacity(alloc, count)?;
    for _ in 0..count {
        lasts.push_reserved(0);
    }
    Ok(Buckets { lasts, before })
}

/// Adds the next place to the bucket of this number. There is room.
fn add_next(buckets: &mut Buckets, number: usize)
    requires number { number < length buckets.old.lasts.items }
    requires linked { IsLinked buckets.old.before.items buckets.old.lasts.items }
    requires room { vec_len buckets.old.before < vec_capacity buckets.old.before }
    ensures linked { IsLinked buckets.new.before.items buckets.new.lasts.items }
    ensures added { lists_in buckets.new.before.items buckets.new.lasts.items
        ≡ set (lists_in buckets.old.before.items buckets.old.lasts.items) number
        (list_of (lists_in buckets.old.before.items buckets.old.lasts.items) number
        ++ length buckets.old.before.items ∷ []) }
    ensures next { length buckets.new.before.items ≡ length buckets.old.before.items + 1 }
    ensures len { length buckets.new.lasts.items ≡ length buckets.old.lasts.items }
    ensures room { vec_capacity buckets.new.before ≡ vec_capacity buckets.old.before }
{
    let last = buckets.lasts[number];
    buckets.before.push_reserved(last);
    buckets.lasts[number] = buckets.before.len();
}

/// Lists the places in the bucket of this number, in the order in which they were added.
pub(crate) fn list_bucket(
    buckets: &Buckets,
    number: usize,
    places: &mut Vec<usize>,
) -> Result<(), OutOfMemory>
    requires number { number < length buckets.now.lasts.items }
    requires linked { IsLinked buckets.now.before.items buckets.now.lasts.items }
    ensures { OnOk result (places.new.items
        ≡ list_of (lists_in buckets.now.before.items buckets.now.lasts.items) number) }
{
    places.clear();
    let mut at = buckets.lasts[number];
    while at != 0 {
        at -= 1;
        places.push(at)?;
        at = buckets.before[at];
    }
    places.reverse();
    Ok(())
}

/// How many buckets there are.
pub(crate) fn bucket_count(buckets: &Buckets) -> usize
    ensures { result ≡ length buckets.now.lasts.items }
{
    buckets.lasts.len()
}

/// How points are spread over buckets, the lesser ones over the first.
#[derive(Clone, Copy, Debug)]
struct Spread {
    /// No point is less.
    least: u32,
    /// So many points share a bucket.
    width: usize,
    /// How many buckets there are.
    count: usize,
}

/// How the points of what was found are spread.
fn spread_of(found: &[Deduced]) -> Spread
    ensures width { 1 ≤ result.width }
    ensures count { 1 ≤ result.count }
{
    let mut least = u32::MAX;
    let mut greatest = 0;
    for deduced in found {
        least = least.min(deduced.row.point);
        greatest = greatest.max(deduced.row.point);
    }
    let count = found.len() / SHARE + 1;
    let range = greatest.saturating_sub(least) as usize;
    Spread {
        least,
        width: range / count + 1,
        count,
    }
}

/// The number of the point's bucket.
fn bucket_for(spread: Spread, point: u32) -> usize
    requires width { 1 ≤ spread.width }
    requires count { 1 ≤ spread.count }
    ensures { result ≡ bucket_of spread point }
{
    let number = point.saturating_sub(spread.least) as usize / spread.width;
    number.min(spread.count - 1)
}

/// The places of what was found, counted from 0, in buckets, where lesser points come first. Takes time
/// in proportion to their number, and some 10 bytes for each.
pub(crate) fn buckets_of(alloc: Global, found: &[Deduced]) -> Result<Buckets, OutOfMemory>
    ensures linked { IfOk result (λ buckets. IsLinked buckets.before.items buckets.lasts.items) }
    ensures all { IfOk result (λ buckets. IsPermutation (range_with_len 0 (length found.now))
        (concat (lists_in buckets.before.items buckets.lasts.items))) }
    ensures apart { IfOk result (λ buckets. AreApart found.now
        (lists_in buckets.before.items buckets.lasts.items)) }
{
    let spread = spread_of(found);
    let mut buckets = empty_buckets(alloc, spread.count, found.len())?;
    for place in 0..found.len() {
        let deduced = &found[place];
        let number = bucket_for(spread, deduced.row.point);
        add_next(&mut buckets, number);
    }
    Ok(buckets)
}
