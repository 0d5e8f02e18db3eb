//! Conclusions by the kinds of their supports: all of a kind, or more than the search asks for.

ghost use Rattle.std.specs.Prelude.{◌≡◌, ◌<◌, ◌∷◌, [], ℕ, IfOk, MatchOption, OnOk, length, take};
ghost use Rattle.std.specs.Bool.{OnFalse};
ghost use Rattle.hs_scheme.specs.flow.Points.{IsArgument};
ghost use Rattle.hs_table.specs.Entries.{EntryData};
ghost use Rattle.hs_table.specs.Follows.{head_premise, Support, FollowsBy};
ghost use Rattle.hs_replica.specs.Replica.{ListsMore, KeepsLog};
ghost use Rattle.hs_rules.specs.Conclusions.{AnySupport, Uses};
ghost use Rattle.hs_rules.specs.Found.{Lowers};
ghost use Rattle.hs_rules.specs.Parts.{UsesArgument, IsOnlyPlaceOf};
ghost use Rattle.hs_rules.specs.Seeking.{CanGather, ArePartFor, HasAllOrMany};

use crate::found::{Found, conclude_all};
use crate::head_search::{AskedType, HeadSearch};
use crate::nonterminals::is_body_open;
use crate::search::{Fixed, Search};
use crate::sources::{heads_all, heads_asking, heads_at, heads_nothing};
use hs_replica::Replica;
use hs_scheme::{Head, OutOfMemory, Points};
use smallvec::SmallVec;

/// The place at which one point is an argument of another, where it is one.
fn place_of(points: &Points, point: u32, argument: u32) -> Option<u32>
    requires { argument < length points.now.points }
    ensures { MatchOption result ((i : ℕ) → IsArgument points.now point i argument
        → ⊥) (λ place. IsOnlyPlaceOf points.now point argument place) }
{
    let whose = points.argument_of(argument)?;
    if whose.point != point {
        return None;
    }
    Some(whose.place)
}

/// Adds what follows with the entry at the place as an argument.
fn add_by_argument(
    at: &HeadSearch,
    replica: &mut Replica,
    place: u32,
    found: &mut Found,
) -> Result<(), OutOfMemory>
    requires can { CanGather replica.old at.now }
    requires place { place < at.now.search.limit }
    requires part { ArePartFor at.now replica.old.log replica.old.ids (Uses place) found.old }
    ensures part { OnOk result (ArePartFor at.now replica.old.log replica.new.ids (Uses place) found.new) }
    ensures lowers { OnOk result (Lowers found.old.list.items found.new.list.items) }
    ensures all { OnOk result (HasAllOrMany at.now replica.old.log replica.new.ids (UsesArgument place)
        found.new) }
    ensures kept { KeepsLog replica.old replica.new }
{
    let problem = at.problem;
    let row = replica.row(place);
    let Some(arg) = place_of(&problem.points, at.search.point, row.point) else {
        return Ok(());
    };
    let search = Search {
        fixed: Some(Fixed { arg, place }),
        ..at.search
    };
    let with = HeadSearch { search, ..*at };
    let asked = AskedType { arg, ty: row.ty };
    let mut heads = SmallVec::new(search.alloc);
    heads_asking(&with, replica, &asked, &mut heads)?;
    replica.interner().know_numbers();
    conclude_all(replica, &search, heads.as_mut_slice(), found)
}

/// Whether something may follow with the entry at the place as the head's. Of a nonterminal's type
/// the slots are asked for candidates, before anything of it is copied.
fn may_follow(at: &HeadSearch, replica: &mut Replica, place: u32) -> Result<bool, OutOfMemory>
    requires can { CanGather replica.old at.now }
    requires place { place < at.now.search.limit }
    ensures nothing { IfOk result (λ may. OnFalse may ((s : Support) (e : EntryData)
        → e.point ≡ at.now.search.point →
        FollowsBy at.now.problem.now (take at.now.search.limit replica.old.log) s e
        → head_premise s.head ≡ place ∷ [] → ⊥)) }
    ensures kept { ListsMore replica.old replica.new }
{
    match at.head {
        Head::Nt(nonterminal) => is_body_open(at, replica, nonterminal, place),
        Head::Tm(_) => Ok(true),
        Head::Var(_) => Ok(true),
    }
}

/// Adds what follows by the types of the head that come from the entry at the place.
fn add_from_head(
    at: &HeadSearch,
    replica: &mut Replica,
    place: u32,
    found: &mut Found,
) -> Result<(), OutOfMemory>
    requires can { CanGather replica.old at.now }
    requires place { place < at.now.search.limit }
    requires part { ArePartFor at.now replica.old.log replica.old.ids (Uses place) found.old }
    ensures part { OnOk result (ArePartFor at.now replica.old.log replica.new.ids (Uses place) found.new) }
    ensures lowers { OnOk result (Lowers found.old.list.items found.new.list.items) }
    ensures all { OnOk result (HasAllOrMany at.now replica.old.log replica.new.ids
        (λ s. head_premise s.head ≡ place ∷ []) found.new) }
    ensures kept { KeepsLog replica.old replica.new }
{
    let mut heads = SmallVec::new(at.search.alloc);
    heads_at(at, replica, place, &mut heads)?;
    conclude_all(replica, &at.search, heads.as_mut_slice(), found)
}

/// Adds what follows with the entry at the place as the head's.
fn add_by_head(
    at: &HeadSearch,
    replica: &mut Replica,
    place: u32,
    found: &mut Found,
) -> Result<(), OutOfMemory>
    requires can { CanGather replica.old at.now }
    requires place { place < at.now.search.limit }
    requires part { ArePartFor at.now replica.old.log replica.old.ids (Uses place) found.old }
    ensures part { OnOk result (ArePartFor at.now replica.old.log replica.new.ids (Uses place) found.new) }
    ensures lowers { OnOk result (Lowers found.old.list.items found.new.list.items) }
    ensures all { OnOk result (HasAllOrMany at.now replica.old.log replica.new.ids
        (λ s. head_premise s.head ≡ place ∷ []) found.new) }
    ensures kept { KeepsLog replica.old replica.new }
{
    let may = may_follow(at, replica, place)?;
    if !may {
        return Ok(());
    }
    add_from_head(at, replica, place, found)
}

/// Adds what follows with the entry at the place, as the head's or as an argument.
pub(crate) fn add_with(
    at: &HeadSearch,
    replica: &mut Replica,
    place: u32,
    found: &mut Found,
) -> Result<(), OutOfMemory>
    requires can { CanGather replica.old at.now }
    requires place { place < at.now.search.limit }
    requires part { ArePartFor at.now replica.old.log replica.old.ids (Uses place) found.old }
    ensures part { OnOk result (ArePartFor at.now replica.old.log replica.new.ids (Uses place) found.new) }
    ensures all { OnOk result (HasAllOrMany at.now replica.old.log replica.new.ids (Uses place) found.new) }
    ensures kept { KeepsLog replica.old replica.new }
{
    add_by_head(at, replica, place, found)?;
    if found.list.len() > at.search.most {
        return Ok(());
    }
    add_by_argument(at, replica, place, found)
}

/// Adds all that follows.
pub(crate) fn add_all(
    at: &HeadSearch,
    replica: &mut Replica,
    found: &mut Found,
) -> Result<(), OutOfMemory>
    requires can { CanGather replica.old at.now }
    requires part { ArePartFor at.now replica.old.log replica.old.ids AnySupport found.old }
    ensures part { OnOk result (ArePartFor at.now replica.old.log replica.new.ids AnySupport found.new) }
    ensures all { OnOk result (HasAllOrMany at.now replica.old.log replica.new.ids AnySupport found.new) }
    ensures kept { KeepsLog replica.old replica.new }
{
    let mut heads = SmallVec::new(at.search.alloc);
    heads_all(at, replica, &mut heads)?;
    conclude_all(replica, &at.search, heads.as_mut_slice(), found)
}

/// Adds what follows from no entries, where no place of the log counts.
pub(crate) fn add_seeds(
    at: &HeadSearch,
    replica: &mut Replica,
    found: &mut Found,
) -> Result<(), OutOfMemory>
    requires can { CanGather replica.old at.now }
    requires none { at.now.search.limit ≡ 0 }
    requires part { ArePartFor at.now replica.old.log replica.old.ids AnySupport found.old }
    ensures part { OnOk result (ArePartFor at.now replica.old.log replica.new.ids AnySupport found.new) }
    ensures all { OnOk result (HasAllOrMany at.now replica.old.log replica.new.ids AnySupport found.new) }
    ensures kept { KeepsLog replica.old replica.new }
{
    let mut heads = SmallVec::new(at.search.alloc);
    heads_nothing(at, replica, &mut heads)?;
    conclude_all(replica, &at.search, heads.as_mut_slice(), found)
}
