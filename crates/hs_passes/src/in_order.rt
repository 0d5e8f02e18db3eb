//! Whether parameters can be dropped in an order, by one look at each body.

ghost use Rattle.std.specs.Prelude.{◌≡◌, ◌≤◌, length, map, sum, true, nat_le, vec_len, IfOk};
ghost use Rattle.hs_scheme.specs.sorting.Parameters.{counts_of};
ghost use Rattle.hs_passes.specs.Needing.{kept, IsAbove};
ghost use Rattle.hs_passes.specs.Order as definition;
ghost use Rattle.hs_passes.specs.Order.{never, IsHeadInOrder, IsInOrder, AllInOrder};
ghost use Rattle.hs_scheme.specs.declared.term.Head.TheVariants.{Nt};

use crate::needing::all_flags;
use crate::ordering::{NEVER, ranks};
use crate::selecting::is_scheme;
use hs_scheme::{Head, OutOfMemory, Parameters, Rule, Scheme, Term};
use std::alloc::Global;

/// The parameter's rank, or `NEVER` where the rule doesn't have it.
fn rank_of(parameters: &Parameters, ranks: &[u32], rule: u32, param: usize) -> u32
    ensures { result ≡ definition.rank_of parameters.now ranks.now rule param }
{
    if param >= parameters.count_of(rule) as usize {
        return NEVER;
    }
    match parameters.number(rule, param as u32) {
        Some(number) => ranks.get(number as usize).copied().unwrap_or(NEVER),
        None => NEVER,
    }
}

/// The rank at which an argument behind this head goes.
fn rank_behind(parameters: &Parameters, ranks: &[u32], head: Head, arg: usize) -> u32
    ensures { result ≡ definition.rank_behind (definition.rank_of parameters.now ranks.now) head arg }
{
    match head {
        Head::Nt(rule) => rank_of(parameters, ranks, rule, arg),
        _ => NEVER,
    }
}

/// Whether the rule's parameters behind the given ones go later than at this rank, or never.
fn are_missing_later(
    parameters: &Parameters,
    ranks: &[u32],
    rule: u32,
    given: usize,
    low: u32,
) -> bool
    ensures { result ≡ true → IsHeadInOrder (definition.rank_of parameters.now ranks.now) 0 low
        (Nt rule) given }
{
    for param in 0..parameters.count_of(rule) {
        let rank = rank_of(parameters, ranks, rule, param as usize);
        if param as usize >= given && rank < NEVER && rank <= low {
            return false;
        }
    }
    true
}

/// Whether what the head needs in the rule's body goes later than at this rank, or never.
fn is_head_in_order(
    parameters: &Parameters,
    ranks: &[u32],
    rule: u32,
    head: Head,
    given: usize,
    low: u32,
) -> bool
    ensures { result ≡ true → IsHeadInOrder
        (definition.rank_of parameters.now ranks.now) rule low head given }
{
    match head {
        Head::Var(param) => {
            let rank = rank_of(parameters, ranks, rule, param as usize);
            rank >= NEVER || rank > low
        }
        Head::Nt(other) => are_missing_later(parameters, ranks, other, given, low),
        Head::Tm(_) => true,
    }
}

/// Whether each parameter that the term needs in the rule's body stays, or goes later than something
/// around the term or around an argument with what needs it; `low` is the least rank around the term.
/// Recurses as deep as the term.
fn is_in_order(parameters: &Parameters, ranks: &[u32], rule: u32, term: &Term, low: u32) -> bool
    ensures { result ≡ true → IsInOrder (definition.rank_of parameters.now ranks.now) rule low term.now }
{
    if !is_head_in_order(parameters, ranks, rule, term.head, term.args.len(), low) {
        return false;
    }
    for (i, arg) in term.args.iter().enumerate() {
        let rank = rank_behind(parameters, ranks, term.head, i);
        let least = if rank < low { rank } else { low };
        if !is_in_order(parameters, ranks, rule, arg, least) {
            return false;
        }
    }
    true
}

/// Whether so it is in each body.
fn are_in_order(parameters: &Parameters, ranks: &[u32], rules: &[Rule]) -> bool
    requires { length rules.now ≤ 20000 }
    ensures { result ≡ true → AllInOrder (definition.rank_of parameters.now ranks.now) rules.now
        (length rules.now) }
{
    for (i, rule) in rules.iter().enumerate() {
        if !is_in_order(parameters, ranks, i as u32, &rule.body, NEVER) {
            return false;
        }
    }
    true
}

/// Which parameters never go.
fn staying(alloc: Global, ranks: &[u32]) -> Result<Vec<bool>, OutOfMemory>
    ensures { IfOk result (λ flags. flags.items ≡ map (λ rank. nat_le never rank) ranks.now) }
{
    let mut flags = Vec::with_capacity(alloc, ranks.len())?;
    for rank in ranks {
        flags.push_reserved(*rank >= NEVER);
    }
    Ok(flags)
}

/// The flags of parameters that may stay, of which none is lacking that stays where those that
/// nothing needs are dropped until there is none. They are found by counting, and hold just those;
/// but it isn't claimed here that there are no others.
pub(crate) fn droppable(
    alloc: Global,
    parameters: &Parameters,
    scheme: &Scheme,
) -> Result<Vec<bool>, OutOfMemory>
    requires { parameters.now ≡ counts_of scheme.now.rules }
    ensures each { IfOk result (λ flags. vec_len flags ≡ sum parameters.now) }
    ensures above { IfOk result (λ flags. IsAbove scheme.now.rules (kept parameters.now flags.items)) }
{
    is_scheme(scheme);
    let ranks = ranks(alloc, parameters, scheme)?;
    let order = ranks.as_slice();
    let rules = scheme.rules.as_slice();
    if are_in_order(parameters, order, rules) {
        staying(alloc, order)
    } else {
        all_flags(alloc, parameters, true)
    }
}
