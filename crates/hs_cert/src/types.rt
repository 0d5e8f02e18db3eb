//! Types.

ghost use Rattle.std.specs.Prelude.{◌≡◌, ◌≢◌, ◌<◌, ◌++◌, ℕ, List, [], length, IfOk, OnOk, IsErrOf, IsTrue, ◌↔◌};
ghost use Rattle.hs_reader.specs.Tokens.{EndsRun};
ghost use Rattle.hs_table.specs.Types as types;
ghost use Rattle.hs_table.specs.Types.{TypeTree};
ghost use Rattle.hs_text.specs.Canonical.{name_at};
ghost use Rattle.hs_cert.specs.declared.fault.Misread.TheVariants.{Faulty};
ghost use Rattle.hs_numbered.specs.Certificates.{IsAboveLast};
ghost use Rattle.hs_cert.specs.Front.{AreIndexed, IsTypeFront, IsMembersFront};

use crate::ahead::Ahead;
use crate::fault::Misread;
use crate::names::NameTable;
use hs_table::{Shape, Ty};
use std::alloc::{AllocError, Global};
use std::cmp::Ordering;

/// The state whose name stands at the front.
fn read_state(states: &NameTable, ahead: &mut Ahead<'_>) -> Result<Ty, Misread>
    requires { AreIndexed states.now }
    ensures read { IfOk result (λ t. IsTypeFront states.now 1 ahead.old.bytes.now t ahead.new.bytes.now) }
    ensures faulty { IsErrOf result Faulty → (q : ℕ) (rest : List ℕ) → q < length states.now
        → EndsRun rest → ahead.old.bytes.now ≢ name_at states.now q ++ rest }
{
    match states.number(ahead.take_run()) {
        Some(q) => Ok(Ty::state(q)),
        None => Err(Misread::Faulty),
    }
}

/// Whether the type is greater than the last of these.
fn is_above(set: &[Ty], ty: &Ty) -> bool
    ensures { IsTrue result ↔ IsAboveLast types.type_cmp set.now ty.now }
{
    match set {
        [] => true,
        [.., last] => last.compare(ty) == Ordering::Less,
    }
}

/// Makes room for one type more. The first two get no more than they need: most sets have no others, and a
/// table may have a million sets.
fn make_room_for_one(set: &mut Vec<Ty>) -> Result<(), AllocError>
    ensures { set.new.items ≡ set.old.items }
{
    if set.len() < 2 {
        set.reserve_exact(1)
    } else {
        Ok(())
    }
}

/// The type at the front, which is nested at most `limit` deep. Recurses as deep as that.
#[cycle(types)]
pub(crate) fn read_type(
    alloc: Global,
    states: &NameTable,
    limit: u32,
    ahead: &mut Ahead<'_>,
) -> Result<Ty, Misread>
    requires { AreIndexed states.now }
    ensures read { IfOk result (λ t.
        IsTypeFront states.now limit ahead.old.bytes.now t ahead.new.bytes.now) }
    ensures faulty { IsErrOf result Faulty → (t : TypeTree) (rest : List ℕ)
        → IsTypeFront states.now limit ahead.old.bytes.now t rest → ⊥ }
{
    if limit == 0 {
        return Err(Misread::Faulty);
    }
    if !ahead.take(b"{") {
        return read_state(states, ahead);
    }
    let mut set = Vec::new(alloc);
    read_members(alloc, states, limit - 1, &mut set, ahead)?;
    ahead.expect(b" -> ")?;
    let rest = read_type(alloc, states, limit - 1, ahead)?;
    Ok(Ty {
        shape: Shape::Arrow(set, Box::new(alloc, rest)?),
    })
}

/// Adds the types of the set whose brace was read. They are ascending, and nested at most `limit`
/// deep. Recurses as deep as that.
#[cycle(types)]
pub(crate) fn read_members(
    alloc: Global,
    states: &NameTable,
    limit: u32,
    set: &mut Vec<Ty>,
    ahead: &mut Ahead<'_>,
) -> Result<(), Misread>
    requires states { AreIndexed states.now }
    requires set { set.old.items ≡ [] }
    ensures read { OnOk result (IsMembersFront states.now limit ahead.old.bytes.now set.new.items
        ahead.new.bytes.now) }
    ensures faulty { IsErrOf result Faulty → (s : List TypeTree) (rest : List ℕ)
        → IsMembersFront states.now limit ahead.old.bytes.now s rest → ⊥ }
{
    if ahead.take(b"}") {
        return Ok(());
    }
    'members: loop {
        let ty = read_type(alloc, states, limit, ahead)?;
        if !is_above(set.as_slice(), &ty) {
            return Err(Misread::Faulty);
        }
        make_room_for_one(set)?;
        set.push(ty)?;
        if !ahead.take(b",") {
            ahead.expect(b"}")?;
            return Ok(());
        }
    }
}
