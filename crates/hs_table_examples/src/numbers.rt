//! Types as numbers: sets and arrows in two orders of arrival, what is made again, an entry that comes
//! from another interner, and a union.

ghost use Rattle.std.specs.Prelude.{◌<◌, All, IfOk, length};
ghost use Rattle.hs_types.specs.Interned.{Grows, IsRow};

use crate::seeing::see;
use hs_scheme::OutOfMemory;
use hs_table::{Entry, Shape};
use hs_types::{EnvId, Interner, Row, SetId, TyId, View};
use std::alloc::Global;
use std::cmp::Ordering;
use std::mem::forget;
use std::test::Fail;

/// The set of these states, which get their numbers in this order, and which are given to the set
/// in reverse, the first twice.
fn set_of_two(interner: &mut Interner, first: u32, second: u32) -> Result<SetId, OutOfMemory>
    ensures { IfOk result (λ set. set < length interner.new.sets) }
{
    let a = interner.base(first)?;
    let b = interner.base(second)?;
    let set = interner.set(&[b, a, a])?;
    Ok(set)
}

/// Whether the set has just states 0 and 1, in this order.
fn is_two(interner: &Interner, set: SetId) -> bool
    requires { set < length interner.now.sets }
{
    let members = interner.members(set);
    members.len() == 2
        && interner.view(members[0]) == View::State(0)
        && interner.view(members[1]) == View::State(1)
}

/// Whether that set is so.
fn is_set(interner: &mut Interner, first: u32, second: u32) -> Result<bool, OutOfMemory> {
    let set = set_of_two(interner, first, second)?;
    Ok(is_two(interner, set))
}

/// Three types.
#[derive(Clone, Copy)]
struct Three {
    first: TyId,
    second: TyId,
    third: TyId,
}

/// The type with these types as its set.
fn arrow_of(interner: &mut Interner, ids: &[TyId], rest: TyId) -> Result<TyId, OutOfMemory>
    requires ids { All (λ t. t < length interner.old.types) ids.now }
    requires rest { rest < length interner.old.types }
    ensures within { IfOk result (λ id. id < length interner.new.types) }
    ensures grows { Grows interner.old interner.new }
{
    let set = interner.set(ids)?;
    let id = interner.arrow(set, rest)?;
    Ok(id)
}

/// Arrows in order, which get their numbers in reverse.
fn three_arrows(interner: &mut Interner) -> Result<Three, OutOfMemory>
    ensures first { IfOk result (λ t. t.first < length interner.new.types) }
    ensures second { IfOk result (λ t. t.second < length interner.new.types) }
    ensures third { IfOk result (λ t. t.third < length interner.new.types) }
{
    let b = interner.base(1)?;
    let a = interner.base(0)?;
    let third = arrow_of(interner, &[a], b)?;
    let second = arrow_of(interner, &[a, b], a)?;
    let first = arrow_of(interner, &[], a)?;
    Ok(Three {
        first,
        second,
        third,
    })
}

/// Whether arrows are ordered by result and then by set.
fn are_ordered(interner: &mut Interner) -> Result<bool, OutOfMemory> {
    let t = three_arrows(interner)?;
    Ok(
        interner.compare(t.first, t.second) == Ordering::Less
            && interner.compare(t.second, t.third) == Ordering::Less
            && interner.compare(t.third, t.first) == Ordering::Greater,
    )
}

/// An arrow from nothing to state 2, another one, and the first made again.
fn made_again(interner: &mut Interner) -> Result<Three, OutOfMemory> {
    let a = interner.base(2)?;
    let first = arrow_of(interner, &[], a)?;
    let second = arrow_of(interner, &[a], a)?;
    let third = arrow_of(interner, &[], a)?;
    Ok(Three {
        first,
        second,
        third,
    })
}

/// Whether what is made again has its number, and another one another.
fn has_its_number(interner: &mut Interner) -> Result<bool, OutOfMemory> {
    let t = made_again(interner)?;
    Ok(t.third == t.first && t.second != t.first)
}

/// The row of the entry at point 0 without sets whose type is state 0.
fn start_row(interner: &mut Interner) -> Result<Row, OutOfMemory>
    ensures { IfOk result (IsRow interner.new) }
{
    let ty = interner.base(0)?;
    let env = interner.env(&[])?;
    Ok(Row { point: 0, env, ty })
}

/// The entry of that row, made in the first interner, by way of the other one, in which another type
/// has the number of its type.
fn imported(
    alloc: Global,
    from: &mut Interner,
    interner: &mut Interner,
) -> Result<Entry, OutOfMemory> {
    let row = start_row(from)?;
    let own = interner.import(from, row)?;
    interner.tree(alloc, own)
}

/// Whether it is that entry.
fn is_start_entry(entry: &Entry) -> bool {
    entry.point == 0 && entry.env.is_empty() && matches!(&entry.ty.shape, Shape::State(0))
}

/// Whether an entry goes from one interner to another.
fn is_imported(
    alloc: Global,
    from: &mut Interner,
    interner: &mut Interner,
) -> Result<bool, OutOfMemory> {
    let entry = imported(alloc, from, interner)?;
    Ok(is_start_entry(&entry))
}

/// The union of environments of two sets, of which the first has a state.
fn union_of_two(interner: &mut Interner) -> Result<EnvId, OutOfMemory>
    ensures { IfOk result (λ env. env < length interner.new.envs) }
{
    let b = interner.base(1)?;
    let first = interner.single_env(2, 0, b)?;
    let a = interner.base(0)?;
    let second = interner.single_env(2, 0, a)?;
    let env = interner.union_envs(first, second)?;
    Ok(env)
}

/// Whether that union is made set by set.
fn is_union(interner: &mut Interner) -> Result<bool, OutOfMemory> {
    let env = union_of_two(interner)?;
    let sets = interner.sets(env);
    Ok(sets.len() == 2 && is_two(interner, sets[0]) && interner.members(sets[1]).is_empty())
}

/// What is so in two new interners: a set is in order and without repeats, whichever of its states came
/// first; arrows are ordered by result and then by set; what is made again has its number; an entry goes
/// from one interner to the other; and unions are made set by set.
fn told(
    alloc: Global,
    from: &mut Interner,
    interner: &mut Interner,
) -> Result<[bool; 6], OutOfMemory> {
    Ok([
        is_set(from, 0, 1)?,
        is_set(interner, 1, 0)?,
        are_ordered(interner)?,
        has_its_number(interner)?,
        is_imported(alloc, from, interner)?,
        is_union(interner)?,
    ])
}

#[test]
fn types_sets_and_entries_as_numbers(rt: HostRuntime) -> Result<(), Fail> {
    let mut from = Interner::new(rt.alloc());
    let mut interner = Interner::new(rt.alloc());
    let told = told(rt.alloc(), &mut from, &mut interner);
    forget(from);
    forget(interner);
    see(&rt, told?, [true; 6], "numbers");
    Ok(())
}
