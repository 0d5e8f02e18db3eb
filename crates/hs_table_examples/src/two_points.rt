//! The scheme `S -> a b.`, in whose table the entry at point 1 comes first and that at point 0 follows with
//! it: a log of one entry, step by step, what a core tells, and three workers.

ghost use Rattle.std.specs.Prelude.{◌≡◌, [], All, IfOk, IsTrue};
ghost use Rattle.hs_table.specs.Entries.{InShape};
ghost use Rattle.hs_types.specs.Interned.{IsRow};
ghost use Rattle.hs_rules.specs.Conclusions.{DeducedData};

use crate::accessors::tell;
use crate::comparing::are_same;
use crate::growing::{grow, trees};
use crate::scripts::see_scripts;
use crate::seeing::see;
use crate::telling::terminal;
use hs_fixtures::problem_of;
use hs_rules::{Deduced, Replica, conclusions, conclusions_with};
use hs_scheme::{OutOfMemory, Problem};
use hs_table::HeadBy;
use hs_types::View;
use std::alloc::Global;
use std::mem::forget;
use std::test::Fail;

/// Whether one entry was found, without parameters and of state 0, that follows by this.
fn is_one(
    replica: &Replica,
    found: &[Deduced],
    point: u32,
    head: HeadBy,
    args: &[(u32, u32)],
) -> bool
    requires { All (λ (d : DeducedData). IsRow replica.now.ids d.row) found.now }
{
    if found.len() != 1 {
        return false;
    }
    let deduced = &found[0];
    deduced.row.point == point
        && replica.interner().sets(deduced.row.env).is_empty()
        && replica.interner().view(deduced.row.ty) == View::State(0)
        && deduced.head == head
        && deduced.args.as_slice() == args
}

/// Whether nothing follows from no entry at point 0, and one entry at point 1.
fn begins(alloc: Global, problem: &Problem, replica: &mut Replica) -> Result<bool, OutOfMemory>
    requires { All (InShape problem.now) replica.old.log }
    ensures { replica.new.log ≡ replica.old.log }
{
    if problem.points.count() != 2 || replica.len() != 0 {
        return Ok(false);
    }
    let none = conclusions(alloc, problem, replica, 0)?;
    let found = conclusions(alloc, problem, replica, 1)?;
    Ok(none.is_empty() && is_one(replica, found.as_slice(), 1, terminal(None), &[]))
}

/// Whether from that entry one follows at point 0.
fn goes_on(alloc: Global, problem: &Problem, replica: &mut Replica) -> Result<bool, OutOfMemory>
    requires { All (InShape problem.now) replica.old.log }
{
    if problem.points.count() != 2 || replica.len() != 1 {
        return Ok(false);
    }
    let found = conclusions(alloc, problem, replica, 0)?;
    let with = conclusions_with(alloc, problem, replica, 0, 0)?;
    let head = terminal(Some(1));
    Ok(
        is_one(replica, found.as_slice(), 0, head, &[(0, 0)])
            && is_one(replica, with.as_slice(), 0, head, &[(0, 0)]),
    )
}

/// Appends the one entry of the other log to an empty one. Answers whether the logs were so.
fn is_appended(from: &Replica, own: &mut Replica) -> Result<bool, OutOfMemory>
    requires { own.old.log ≡ [] }
    ensures { IfOk result (λ appended. IsTrue appended → own.new.log ≡ from.now.log) }
{
    if from.len() != 1 {
        return Ok(false);
    }
    own.append(from.interner(), from.row(0))?;
    Ok(true)
}

/// The same by `reserve`, `import` and `add`.
fn is_added(from: &Replica, own: &mut Replica) -> Result<bool, OutOfMemory>
    requires { own.old.log ≡ [] }
{
    if from.len() != 1 {
        return Ok(false);
    }
    own.reserve(1)?;
    let row = own.import(from.interner(), from.row(0))?;
    own.add(row);
    Ok(true)
}

/// Whether the logs have the same entries, one each.
fn are_one(alloc: Global, one: &Replica, other: &Replica) -> Result<bool, OutOfMemory> {
    let own = trees(alloc, one)?;
    let others = trees(alloc, other)?;
    Ok(own.len() == 1 && others.len() == 1 && are_same(own.as_slice(), others.as_slice()))
}

/// Whether the other entry follows from the one entry of a log, once that is appended to an empty one.
fn appended_goes_on(
    alloc: Global,
    problem: &Problem,
    from: &Replica,
    own: &mut Replica,
) -> Result<bool, OutOfMemory>
    requires from { All (InShape problem.now) from.now.log }
    requires own { own.old.log ≡ [] }
{
    if !is_appended(from, own)? {
        return Ok(false);
    }
    goes_on(alloc, problem, own)
}

/// Whether a log grows by one entry, and two others get that, one as it is appended and the other as it is
/// added.
fn one_entry(
    alloc: Global,
    problem: &Problem,
    replica: &mut Replica,
    appended: &mut Replica,
    added: &mut Replica,
) -> Result<[bool; 5], OutOfMemory>
    requires replica { replica.old.log ≡ [] }
    requires appended { appended.old.log ≡ [] }
    requires added { added.old.log ≡ [] }
{
    Ok([
        begins(alloc, problem, replica)?,
        grow(alloc, problem, replica)?,
        appended_goes_on(alloc, problem, replica, appended)?,
        is_added(replica, added)?,
        are_one(alloc, appended, added)?,
    ])
}

/// The same of new logs.
fn one_entry_of(alloc: Global, problem: &Problem) -> Result<[bool; 5], OutOfMemory> {
    let mut replica = Replica::new(alloc);
    let mut appended = Replica::new(alloc);
    let mut added = Replica::new(alloc);
    let told = one_entry(alloc, problem, &mut replica, &mut appended, &mut added);
    forget(replica);
    forget(appended);
    forget(added);
    told
}

#[test]
fn a_log_a_core_and_three_workers_step_by_step(rt: HostRuntime) -> Result<(), Fail> {
    let problem = problem_of(rt.alloc(), "S -> a b.", "q0 a -> q0.")?;
    let entries = one_entry_of(rt.alloc(), &problem);
    let cores = tell(rt.alloc(), &problem);
    let scripts = see_scripts(&rt, rt.alloc(), &problem);
    forget(problem);
    see(&rt, entries?, [true; 5], "a log of one entry");
    see(&rt, cores?, [true; 3], "what a core tells");
    scripts?;
    Ok(())
}
