//! Proposals of evidence that stand, and those that don't: then the run goes on, and answers by the least
//! table.

ghost use Rattle.std.specs.Prelude.{◌≡◌, true, IfOk};
ghost use Rattle.hs_verdict.specs.Premises.{HasClosedFlow};

use crate::running::{REJECTED, REPORT};
use crate::seeing::see;
use hs_app::{Decided, decide_on};
use hs_front::{Refusal, problem_of, sorted_of};
use hs_numbered::NumberedCertificate;
use hs_quick::Proposal;
use hs_reader::MAX_BYTES;
use hs_reads::Reads;
use hs_scheme::{OutOfMemory, Problem};
use hs_types::{EnvId, SetId};
use hs_words::Settings;
use hs_workers::Open;
use std::alloc::Global;
use std::mem::forget;
use std::process::Abort;
use std::sync::Wait;
use std::test::Fail;
use std::thread::Threads;

/// An environment in short: the states in the set of each parameter.
type ShortEnv = &'static [&'static [u32]];

/// An entry in short: its point, its environment and its state.
type ShortEntry = (u32, ShortEnv, u32);

/// A void environment in short, behind its rule.
type ShortVoid = (u32, ShortEnv);

/// The set of these states.
fn set_of(
    alloc: Global,
    certificate: &mut NumberedCertificate,
    states: &[u32],
) -> Result<Option<SetId>, OutOfMemory> {
    let mut types = Vec::new(alloc);
    for q in states {
        types.push(certificate.base(*q)?)?;
    }
    certificate.set(types.as_slice())
}

/// The environment of these sets.
fn env_of(
    alloc: Global,
    certificate: &mut NumberedCertificate,
    shorts: &[&[u32]],
) -> Result<Option<EnvId>, OutOfMemory> {
    let mut sets = Vec::new(alloc);
    for states in shorts {
        match set_of(alloc, certificate, states)? {
            Some(set) => sets.push(set)?,
            None => return Ok(None),
        }
    }
    certificate.env(sets.as_slice())
}

/// Adds the entry.
fn add_entry(
    alloc: Global,
    certificate: &mut NumberedCertificate,
    short: ShortEntry,
) -> Result<bool, OutOfMemory> {
    let ty = certificate.base(short.2)?;
    match env_of(alloc, certificate, short.1)? {
        Some(env) => certificate.add_entry(short.0, env, ty),
        None => Ok(false),
    }
}

/// Adds the void environment.
fn add_void(
    alloc: Global,
    certificate: &mut NumberedCertificate,
    short: ShortVoid,
) -> Result<bool, OutOfMemory> {
    match env_of(alloc, certificate, short.1)? {
        Some(env) => certificate.add_void(short.0, env),
        None => Ok(false),
    }
}

/// A certificate of these entries and void environments, in their order.
fn certificate_of(
    alloc: Global,
    entries: &[ShortEntry],
    pairs: &[ShortVoid],
) -> Result<Proposal, OutOfMemory> {
    let mut certificate = NumberedCertificate::new(alloc);
    for entry in entries {
        add_entry(alloc, &mut certificate, *entry)?;
    }
    for pair in pairs {
        add_void(alloc, &mut certificate, *pair)?;
    }
    Ok(Proposal::Accepted(certificate))
}

/// A path along these children.
fn path_of(alloc: Global, children: &[u32]) -> Result<Proposal, OutOfMemory> {
    let mut path = Vec::new(alloc);
    for child in children {
        path.push(*child)?;
    }
    Ok(Proposal::Rejected(path))
}

/// What a run asks for with `--quick`, for a path of at most three steps or of as many as without `--steps`.
fn settings(three: bool) -> Settings
    ensures quick { result.quick ≡ true }
{
    Settings {
        workers: 1,
        entries: 200_000,
        steps: if three { 3 } else { 1_000_000 },
        table: false,
        first: false,
        minimal: false,
        quick: true,
        explain: false,
        simplify: false,
    }
}

/// The verdict where this is proposed.
fn decided<R: Threads + Wait + Sync>(
    rt: &R,
    alloc: Global,
    problem: &Problem,
    proposal: Proposal,
    three: bool,
) -> Result<Decided, Refusal>
    requires { HasClosedFlow problem.now }
{
    let reads = Reads::of(alloc, problem)?;
    decide_on(
        rt,
        alloc,
        &problem.sorted,
        problem,
        reads,
        proposal,
        None,
        settings(three),
        &Open,
    )
}

/// Looks at the report where this is proposed.
fn see_report<R: Abort + Threads + Wait + Sync>(
    rt: &R,
    alloc: Global,
    problem: &Problem,
    proposal: Proposal,
    three: bool,
    expected: &[u8],
    note: &str,
)
    requires { HasClosedFlow problem.now }
{
    match decided(rt, alloc, problem, proposal, three) {
        Ok(decided) => {
            see(rt, decided.report.as_slice(), expected, note);
            forget(decided);
        }
        Err(_) => see(rt, b"a refusal".as_slice(), expected, note),
    }
}

/// The problem of a file.
fn problem_of_text(alloc: Global, text: &str) -> Result<Problem, Refusal>
    ensures { IfOk result (λ problem. HasClosedFlow problem) }
{
    if text.len() > MAX_BYTES {
        return Err(Refusal::FileTooLong);
    }
    let sorted = sorted_of(alloc, text.as_bytes())?;
    match problem_of(alloc, sorted) {
        Ok(problem) => Ok(problem),
        Err(refusal) => Err(refusal),
    }
}

/// A nonterminal that is called twice. The points are 0 `br (F c) (F d)`, 1 `F c`, 2 `c`, 3 `F d`, 4 `d` and
/// 5 `x`, and the arguments are read in q1 and q2. The tree is accepted.
const TWO_CALLS: &str = "%BEGING\nS -> br (F c) (F d). F x -> x.\n%ENDG\n%BEGINA\n\
     q0 br -> q1 q2. q1 c -> . q2 d -> .\n%ENDA\n";

/// Each argument is rejected in the state in which the other one is read, and so is the parameter.
const C: ShortEntry = (2, &[], 2);

const D: ShortEntry = (4, &[], 1);

const X_IN_Q1: ShortEntry = (5, &[&[1]], 1);

const X_IN_Q2: ShortEntry = (5, &[&[2]], 2);

const CERTIFIED: &[u8] = b"accepted\ncompact 4\nvoid 0\n";

/// The least table rejects each body and argument in each state in which it has no transition.
const LEAST: &[u8] = b"accepted\nentries 13\nchecked 13\n";

/// Certificates for the two calls, and the report.
const CERTIFICATES: [(&[ShortEntry], &[ShortVoid], &[u8], &str); 16] = [
    (&[C, D, X_IN_Q1, X_IN_Q2], &[], CERTIFIED, "all four"),
    (&[D, X_IN_Q1, X_IN_Q2], &[], LEAST, "without c"),
    (&[C, X_IN_Q1, X_IN_Q2], &[], LEAST, "without d"),
    (&[C, D, X_IN_Q2], &[], LEAST, "without x in q1"),
    (&[C, D, X_IN_Q1], &[], LEAST, "without x in q2"),
    (&[], &[], LEAST, "without entries"),
    (
        &[(2, &[], 1), C, D, X_IN_Q1, X_IN_Q2],
        &[],
        LEAST,
        "c in q1, from which more follows",
    ),
    (
        &[(0, &[], 0), C, D, X_IN_Q1, X_IN_Q2],
        &[],
        LEAST,
        "the start entry",
    ),
    (
        &[C, D, X_IN_Q1, X_IN_Q2, (5, &[&[2], &[]], 2)],
        &[],
        LEAST,
        "a parameter more",
    ),
    (
        &[C, D, X_IN_Q1, X_IN_Q2, (5, &[&[2]], 3)],
        &[],
        LEAST,
        "a state that there isn't",
    ),
    (
        &[C, D, X_IN_Q1, X_IN_Q2, (6, &[], 0)],
        &[],
        LEAST,
        "a point that there isn't",
    ),
    (&[D, C, X_IN_Q1, X_IN_Q2], &[], LEAST, "in another order"),
    (&[C, C, D, X_IN_Q1, X_IN_Q2], &[], LEAST, "an entry twice"),
    (
        &[C, D, X_IN_Q1, X_IN_Q2],
        &[(1, &[&[1]])],
        LEAST,
        "an environment that isn't void, as d has it",
    ),
    (
        &[C, D, X_IN_Q2],
        &[(1, &[&[1]])],
        LEAST,
        "an entry fewer, and its environment as void",
    ),
    (
        &[C, D, X_IN_Q1, X_IN_Q2],
        &[(2, &[])],
        LEAST,
        "an environment of a rule that there isn't",
    ),
];

/// The report of the least table of the file that is rejected, where a path may have three steps.
const LONG: &[u8] = b"rejected\nentries 18\npath longer than 3 steps\n";

const ALONG: &[u8] = b"rejected\npath br/2 a/1 br/2 a/1 br/1 b/1 b\nstate q1\n";

/// Children along which the file is to be rejected, whether a path may have three steps only, and the report.
const PATHS: [(&[u32], bool, &[u8], &str); 10] = [
    (&[2, 1, 2, 1, 1, 1], false, ALONG, "to b in q1"),
    (&[2, 1, 2, 1, 1, 1], true, LONG, "in more than three steps"),
    (&[2, 1, 2, 1, 1, 2], false, REPORT, "another child of b"),
    (&[2, 1, 1, 1, 1, 1], false, REPORT, "another child of br"),
    (&[2, 1, 2, 1, 1, 0], false, REPORT, "no child"),
    (&[2, 1, 2, 1, 1], false, REPORT, "a child fewer"),
    (
        &[2, 1, 2, 1, 1, 1, 1],
        false,
        ALONG,
        "a child more, below b",
    ),
    (&[1], false, REPORT, "to c in q0, which is accepted"),
    (&[], false, REPORT, "to the root"),
    (&[4_294_967_295], false, REPORT, "the greatest child"),
];

/// Looks at the reports where these certificates are proposed, and a path.
fn see_certificates<R: Abort + Threads + Wait + Sync>(
    rt: &R,
    alloc: Global,
    problem: &Problem,
) -> Result<(), OutOfMemory>
    requires { HasClosedFlow problem.now }
{
    for (entries, pairs, expected, note) in &CERTIFICATES {
        let proposal = certificate_of(alloc, entries, pairs)?;
        see_report(rt, alloc, problem, proposal, false, expected, note);
    }
    let path = path_of(alloc, &[1])?;
    see_report(rt, alloc, problem, path, false, LEAST, "a path");
    see_report(rt, alloc, problem, Proposal::None, false, LEAST, "nothing");
    Ok(())
}

/// Looks at the reports where these paths are proposed, and a certificate.
fn see_paths<R: Abort + Threads + Wait + Sync>(
    rt: &R,
    alloc: Global,
    problem: &Problem,
) -> Result<(), OutOfMemory>
    requires { HasClosedFlow problem.now }
{
    for (children, three, expected, note) in &PATHS {
        let proposal = path_of(alloc, children)?;
        see_report(rt, alloc, problem, proposal, *three, expected, note);
    }
    let empty = certificate_of(alloc, &[], &[])?;
    see_report(rt, alloc, problem, empty, false, REPORT, "a certificate");
    Ok(())
}

#[test]
fn a_certificate_stands_or_the_table_decides(rt: HostRuntime) -> Result<(), Fail> {
    match problem_of_text(rt.alloc(), TWO_CALLS) {
        Ok(problem) => {
            let seen = see_certificates(&rt, rt.alloc(), &problem);
            forget(problem);
            Ok(seen?)
        }
        Err(_) => Err("no problem")?,
    }
}

#[test]
fn a_path_stands_or_the_table_decides(rt: HostRuntime) -> Result<(), Fail> {
    match problem_of_text(rt.alloc(), REJECTED) {
        Ok(problem) => {
            let seen = see_paths(&rt, rt.alloc(), &problem);
            forget(problem);
            Ok(seen?)
        }
        Err(_) => Err("no problem")?,
    }
}
