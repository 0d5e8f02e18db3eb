//! Which terminals parameters may become.

ghost use Rattle.std.specs.Prelude.{◌≡◌, [], ◌+◌, ◌*◌, ◌<◌, ◌≤◌, ℕ, List, Contains, IfOk, OnOk, IsErrOf, IsTrue, length, slice_get, sum};
ghost use Rattle.hs_scheme.specs.declared.flow.FlowPair.{FlowPair as AnyFlow};
ghost use Rattle.hs_scheme.specs.declared.term.Head.{Head as AnyHead};
ghost use Rattle.hs_scheme.specs.declared.term.Head.TheVariants.{Var, Tm};
ghost use Rattle.hs_scheme.specs.flow.Points.{point_at};
ghost use Rattle.hs_scheme.specs.sorting.Parameters.{IsParameter, parameter_of};
ghost use Rattle.hs_weak.specs.Reads.{PointIs};
ghost use Rattle.hs_reads.specs.Lists.{list_of};
ghost use Rattle.hs_reads.specs.declared.stop.Stop.TheVariants.{Limit};
ghost use Rattle.hs_reads.specs.Growing.{Grows, AddsOnly, AreTooMany};
ghost use Rattle.hs_reads.specs.Own.{IsBecoming, AreMany};
ghost use Rattle.hs_reads.specs.Becomings.{AnyBecoming, HasTerminals, HasTerminalsOnly, AreBecomings, AreShort, IsHeadedAt, AreHeaded, IsByHead, IsByParameter, AreApart, IsTold};

use crate::lists::Lists;
use crate::stop::Stop;
use hs_scheme::{FlowPair, Head, OutOfMemory, Parameters, Problem};
use hs_verdict::know_sorted_problem;
use indexmap::IndexSet;
use std::alloc::Global;

/// The most of what is found.
pub(crate) const MOST: usize = 4_000_000;

/// The parameter may become the terminal with so many arguments given.
#[derive(Clone, Copy, Debug, PartialEq, Eq, Hash)]
pub(crate) struct Becoming {
    pub(crate) rule: u32,
    pub(crate) param: u32,
    pub(crate) terminal: u32,
    pub(crate) given: usize,
}

/// Adds this, unless it is there. `Limit` comes where there is then more than `MOST`.
fn add(found: &mut IndexSet<Becoming>, becoming: Becoming) -> Result<(), Stop>
    ensures grows { OnOk result (Grows found.old.keys found.new.keys) }
    ensures there { OnOk result (Contains found.new.keys becoming) }
    ensures only { AddsOnly (λ b. b ≡ becoming) found.old.keys found.new.keys }
    ensures short { becoming.given ≤ 500000 * (length found.old.keys + 1) → AreShort found.old.keys
        → AreShort found.new.keys }
    ensures limit { IsErrOf result Limit → AreTooMany found.new.keys }
{
    found.insert(becoming)?;
    if found.len() > MOST {
        return Err(Stop::Limit);
    }
    Ok(())
}

/// How many arguments this point has, fewer than there are points.
fn given_at(problem: &Problem, point: u32) -> usize
    requires { point < length problem.now.points.points }
    ensures len { result ≡ length (point_at problem.now.points point).args }
    ensures few { result ≤ 500000 }
{
    know_sorted_problem(problem);
    problem.points.count();
    problem.points.args_of(point).len()
}

/// Adds what the pair's parameter becomes by the pair, where its point has a terminal at its head.
fn add_terminal(
    problem: &Problem,
    found: &mut IndexSet<Becoming>,
    pair: &FlowPair,
) -> Result<(), Stop>
    requires point { pair.now.point < length problem.now.points.points }
    requires flows { Contains problem.now.flow.pairs pair.now }
    ensures grows { OnOk result (Grows found.old.keys found.new.keys) }
    ensures there { OnOk result ((rule a : ℕ) (args : List ℕ)
        → PointIs problem.now pair.now.point rule (Tm a) args
        → Contains found.new.keys (record {
          rule = pair.now.rule;
          param = pair.now.param;
          terminal = a;
          given = length args;
        })) }
    ensures only { AddsOnly (IsBecoming problem.now) found.old.keys found.new.keys }
    ensures short { AreShort found.old.keys → AreShort found.new.keys }
    ensures limit { IsErrOf result Limit → AreTooMany found.new.keys }
{
    let Head::Tm(terminal) = problem.points.head_of(pair.point) else {
        return Ok(());
    };
    let given = given_at(problem, pair.point);
    add(
        found,
        Becoming {
            rule: pair.rule,
            param: pair.param,
            terminal,
            given,
        },
    )
}

/// The flow pairs.
fn flow_pairs(problem: &Problem) -> &[FlowPair]
    ensures { result.now ≡ problem.now.flow.pairs }
{
    problem.flow.pairs.as_slice()
}

/// Adds what parameters become by points with a terminal at their head.
fn add_terminals(problem: &Problem, found: &mut IndexSet<Becoming>) -> Result<(), Stop>
    ensures grows { OnOk result (Grows found.old.keys found.new.keys) }
    ensures there { OnOk result ((f : AnyFlow) (rule a : ℕ) (args : List ℕ)
        → Contains problem.now.flow.pairs f
        → PointIs problem.now f.point rule (Tm a) args
        → Contains found.new.keys (record {
          rule = f.rule;
          param = f.param;
          terminal = a;
          given = length args;
        })) }
    ensures only { AddsOnly (IsBecoming problem.now) found.old.keys found.new.keys }
    ensures short { AreShort found.old.keys → AreShort found.new.keys }
    ensures limit { IsErrOf result Limit → AreTooMany found.new.keys }
{
    know_sorted_problem(problem);
    for pair in flow_pairs(problem) {
        add_terminal(problem, found, pair)?;
    }
    Ok(())
}

/// Whether the last pair of the row passes on the same as this one: to the same parameter, with as many
/// arguments.
fn is_told(problem: &Problem, row: &[FlowPair], pair: FlowPair) -> bool
    requires point { pair.point < length problem.now.points.points }
    requires row { (f : AnyFlow) → Contains row.now f → f.point < length problem.now.points.points }
    ensures { IsTrue result → IsTold problem.now row.now pair }
{
    let Some(last) = row.last() else {
        return false;
    };
    last.rule == pair.rule
        && last.param == pair.param
        && given_at(problem, last.point) == given_at(problem, pair.point)
}

/// Adds the pair to the list of the parameter at its point's head, unless the last one there passes on the
/// same.
fn add_by_head(
    problem: &Problem,
    lists: &mut Lists<FlowPair>,
    pair: FlowPair,
) -> Result<(), OutOfMemory>
    requires point { pair.point < length problem.now.points.points }
    requires flows { Contains problem.now.flow.pairs pair }
    requires lists { length lists.old ≡ sum problem.now.points.params }
    requires only { AreHeaded problem.now lists.old }
    ensures len { OnOk result (length lists.new ≡ sum problem.now.points.params) }
    ensures kept { OnOk result ((k : ℕ) (f : AnyFlow) → Contains (list_of lists.old k) f → Contains (list_of
        lists.new k) f) }
    ensures there { OnOk result ((rule x : ℕ) (args : List ℕ)
        → PointIs problem.now pair.point rule (Var x) args
        → IsParameter problem.now.points.params rule x
        × IsTold problem.now (list_of lists.new (parameter_of problem.now.points.params rule x)) pair) }
    ensures only { OnOk result (AreHeaded problem.now lists.new) }
{
    let Head::Var(param) = problem.points.head_of(pair.point) else {
        return Ok(());
    };
    let rule = problem.points.rule_of(pair.point);
    let Some(number) = problem.points.params().number(rule, param) else {
        return Ok(());
    };
    if is_told(problem, lists.list(number as usize), pair) {
        return Ok(());
    }
    lists.push(number as usize, pair)
}

/// The flow pairs by the parameter at their point's head, in the list of its number.
fn by_head(alloc: Global, problem: &Problem) -> Result<Lists<FlowPair>, OutOfMemory>
    ensures { IfOk result (IsByHead problem.now problem.now.flow.pairs) }
{
    know_sorted_problem(problem);
    let mut lists = Lists::empty(alloc, problem.points.params().count() as usize)?;
    for pair in flow_pairs(problem) {
        add_by_head(problem, &mut lists, *pair)?;
    }
    Ok(lists)
}

/// Adds what the pair's parameter becomes by the pair, where the parameter at its point's head becomes
/// this.
fn pass(
    problem: &Problem,
    found: &mut IndexSet<Becoming>,
    becoming: Becoming,
    pair: &FlowPair,
) -> Result<(), Stop>
    requires point { pair.now.point < length problem.now.points.points }
    requires headed { IsHeadedAt problem.now becoming.rule becoming.param pair.now }
    requires known { IsBecoming problem.now becoming }
    requires few { length found.old.keys ≤ 4000000 }
    requires short { becoming.given ≤ 500000 * length found.old.keys }
    ensures grows { OnOk result (Grows found.old.keys found.new.keys) }
    ensures there { OnOk result ((rule : ℕ) (h : AnyHead) (args : List ℕ)
        → PointIs problem.now pair.now.point rule h args
        → Contains found.new.keys (record {
          rule = pair.now.rule;
          param = pair.now.param;
          terminal = becoming.terminal;
          given = becoming.given + length args;
        })) }
    ensures only { AddsOnly (IsBecoming problem.now) found.old.keys found.new.keys }
    ensures short { AreShort found.old.keys → AreShort found.new.keys }
    ensures limit { IsErrOf result Limit → AreTooMany found.new.keys }
{
    let more = given_at(problem, pair.point);
    let Some(given) = becoming.given.checked_add(more) else {
        return Err(Stop::Limit);
    };
    add(
        found,
        Becoming {
            rule: pair.rule,
            param: pair.param,
            terminal: becoming.terminal,
            given,
        },
    )
}

/// Adds what the parameters of these pairs become, where the parameter at their points' heads becomes
/// this.
fn pass_all(
    problem: &Problem,
    found: &mut IndexSet<Becoming>,
    becoming: Becoming,
    pairs: &[FlowPair],
) -> Result<(), Stop>
    requires headed { (f : AnyFlow) → Contains pairs.now f
        → IsHeadedAt problem.now becoming.rule becoming.param f }
    requires known { IsBecoming problem.now becoming }
    requires few { length found.old.keys ≤ 4000000 }
    requires short { becoming.given ≤ 500000 * length found.old.keys }
    ensures grows { OnOk result (Grows found.old.keys found.new.keys) }
    ensures there { OnOk result ((f : AnyFlow) (rule : ℕ) (h : AnyHead) (args : List ℕ) → Contains pairs.now f
        → PointIs problem.now f.point rule h args
        → Contains found.new.keys (record {
          rule = f.rule;
          param = f.param;
          terminal = becoming.terminal;
          given = becoming.given + length args;
        })) }
    ensures only { AddsOnly (IsBecoming problem.now) found.old.keys found.new.keys }
    ensures short { AreShort found.old.keys → AreShort found.new.keys }
    ensures limit { IsErrOf result Limit → AreTooMany found.new.keys }
{
    for pair in pairs {
        pass(problem, found, becoming, pair)?;
    }
    Ok(())
}

/// What was found at this place, where there is something.
fn becoming_at(found: &IndexSet<Becoming>, place: usize) -> Option<Becoming>
    ensures { result ≡ slice_get found.now.keys place }
{
    found.get_index(place).copied()
}

/// The list of a parameter's number, empty where it is none.
pub(crate) fn list_at<'a, T: Drop>(
    lists: &'a Lists<T>,
    params: &Parameters,
    rule: u32,
    param: u32,
) -> &'a [T]
    ensures list { IsParameter params.now rule param
        → result.now ≡ list_of lists.now (parameter_of params.now rule param) }
    ensures parameter { (x : T) → Contains result.now x → IsParameter params.now rule param }
{
    match params.number(rule, param) {
        Some(number) => lists.list(number as usize),
        None => &[],
    }
}

/// Adds all that parameters become by what they are found to become.
fn spread(
    problem: &Problem,
    lists: &Lists<FlowPair>,
    found: &mut IndexSet<Becoming>,
) -> Result<(), Stop>
    requires lists { IsByHead problem.now problem.now.flow.pairs lists.now }
    requires few { length found.old.keys ≤ 4000000 }
    requires first { (f : AnyFlow) (rule a : ℕ) (args : List ℕ) → Contains problem.now.flow.pairs f
        → PointIs problem.now f.point rule (Tm a) args
        → Contains found.old.keys (record {
          rule = f.rule;
          param = f.param;
          terminal = a;
          given = length args;
        }) }
    requires known { (b : AnyBecoming) → Contains found.old.keys b → IsBecoming problem.now b }
    requires short { AreShort found.old.keys }
    ensures all { OnOk result (AreBecomings problem.now found.new.keys) }
    ensures few { OnOk result (length found.new.keys ≤ 4000000) }
    ensures known { (b : AnyBecoming) → Contains found.new.keys b → IsBecoming problem.now b }
    ensures limit { IsErrOf result Limit → AreTooMany found.new.keys }
{
    let mut taken = 0;
    while let Some(becoming) = becoming_at(found, taken) {
        let pairs = list_at(
            lists,
            problem.points.params(),
            becoming.rule,
            becoming.param,
        );
        pass_all(problem, found, becoming, pairs)?;
        taken += 1;
    }
    Ok(())
}

/// Adds this to the list of its parameter's number.
fn add_to_list(
    params: &Parameters,
    lists: &mut Lists<Becoming>,
    becoming: Becoming,
) -> Result<(), OutOfMemory>
    requires { length lists.old ≡ sum params.now }
    ensures len { OnOk result (length lists.new ≡ sum params.now) }
    ensures kept { OnOk result ((k : ℕ) (b : AnyBecoming) → Contains (list_of lists.old k) b
        → Contains (list_of lists.new k) b) }
    ensures there { OnOk result (IsParameter params.now becoming.rule becoming.param
        → Contains (list_of lists.new (parameter_of params.now becoming.rule becoming.param)) becoming) }
    ensures only { OnOk result ((found : List AnyBecoming) → Contains found becoming
        → AreApart params.now found lists.old → AreApart params.now found lists.new) }
{
    let Some(number) = params.number(becoming.rule, becoming.param) else {
        return Ok(());
    };
    lists.push(number as usize, becoming)
}

/// What is found, in the list of its parameter's number.
fn by_parameter(
    alloc: Global,
    params: &Parameters,
    found: &[Becoming],
) -> Result<Lists<Becoming>, OutOfMemory>
    ensures has { IfOk result (IsByParameter params.now found.now) }
    ensures only { IfOk result (AreApart params.now found.now) }
{
    let mut lists = Lists::empty(alloc, params.count() as usize)?;
    for becoming in found {
        add_to_list(params, &mut lists, *becoming)?;
    }
    Ok(lists)
}

/// What parameters become.
fn find(alloc: Global, problem: &Problem, found: &mut IndexSet<Becoming>) -> Result<(), Stop>
    requires { found.old.keys ≡ [] }
    ensures all { OnOk result (AreBecomings problem.now found.new.keys) }
    ensures few { OnOk result (length found.new.keys ≤ 4000000) }
    ensures known { (b : AnyBecoming) → Contains found.new.keys b → IsBecoming problem.now b }
    ensures limit { IsErrOf result Limit → AreTooMany found.new.keys }
{
    add_terminals(problem, found)?;
    let lists = by_head(alloc, problem)?;
    spread(problem, &lists, found)
}

/// The terminals that each parameter may become, in the list of its number. `Limit` comes where there
/// are more than `MOST`.
pub(crate) fn terminals(alloc: Global, problem: &Problem) -> Result<Lists<Becoming>, Stop>
    ensures all { IfOk result (HasTerminals problem.now) }
    ensures only { IfOk result (HasTerminalsOnly problem.now) }
    ensures few { OnOk result (AreMany (IsBecoming problem.now) → ⊥) }
    ensures limit { IsErrOf result Limit → AreMany (IsBecoming problem.now) }
{
    let mut found = IndexSet::new(alloc);
    find(alloc, problem, &mut found)?;
    let lists = by_parameter(alloc, problem.points.params(), found.as_slice())?;
    Ok(lists)
}
