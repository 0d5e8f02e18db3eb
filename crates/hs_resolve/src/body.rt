//! The names in the bodies of rules, and the numbers for them.

ghost use Rattle.std.specs.Prelude.{◌≡◌, ◌++◌, ◌≤◌, [], List, ℕ, map, filter, length, if◌then◌else◌, All, IfOk, OnOk};
ghost use Rattle.std.specs.List.{flat_map};
ghost use Rattle.hs_scheme.specs.declared.term.Head.TheVariants.{Nt, Tm};
ghost use Rattle.hs_reader.specs.Limits.{term_names};
ghost use Rattle.hs_reader.specs.Preorder.{first_term, behind, BeginsTerm};
ghost use Rattle.hs_resolve.specs.Names as names;
ghost use Rattle.hs_resolve.specs.Names.{texts, distinct, with_name, with_names};
ghost use Rattle.hs_resolve.specs.Numbering as numbering;
ghost use Rattle.hs_resolve.specs.Numbering.{terminals_in};
ghost use Rattle.hs_resolve.specs.Least as least;
ghost use Rattle.hs_resolve.specs.Least.{IsLeast};
ghost use Rattle.hs_resolve.specs.LineFaults.{Somewhere, IsUndefined};
ghost use Rattle.hs_resolve.specs.Tables.{HasNumbers};
ghost use Rattle.hs_resolve.specs.Bodies.{unknown_at, undefined_at, undefined_in, IsHead, IsNumberedTerm, IsScoped, AreScoped};

use crate::line::earliest;
use crate::name_index::NameIndex;
use crate::numbering::number_in;
use hs_reader::{RawName, RawNode, RawRule, is_upper};
use hs_scheme::{Head, OutOfMemory, Rule, Term};
use std::alloc::Global;

/// The nonterminal of an upper name. One that isn't on the left of a rule gets the number 0, and its
/// line is noted.
fn nonterminal(left: &NameIndex, name: &RawName, undefined: &mut Option<u32>) -> Head
    requires { HasNumbers left.now }
    ensures head { result ≡ Nt (names.number left.now name.now.text) }
    ensures undefined { undefined.new ≡ least.earliest undefined.old (unknown_at left.now name.now) }
{
    match left.number(name.text.bytes()) {
        Some(number) => Head::Nt(number as u32),
        None => {
            *undefined = earliest(*undefined, Some(name.line));
            Head::Nt(0)
        }
    }
}

/// The terminal of a lower name, which is put at the end of those that were met before.
fn terminal<'a>(name: &RawName<'a>, terminals: &mut NameIndex<'a>) -> Result<Head, OutOfMemory>
    ensures added { OnOk result (terminals.new ≡ with_name terminals.old name.now.text) }
    ensures head { IfOk result (λ head. (later : List (List ℕ))
        → head ≡ Tm (names.number (terminals.new ++ later) name.now.text)) }
{
    Ok(Head::Tm(number_in(terminals, name)?))
}

/// What a name in a body stands for.
fn head_of<'a>(
    left: &NameIndex,
    params: &NameIndex,
    name: &RawName<'a>,
    terminals: &mut NameIndex<'a>,
    undefined: &mut Option<u32>,
) -> Result<Head, OutOfMemory>
    requires left { HasNumbers left.now }
    requires params { HasNumbers params.now }
    ensures terminals { OnOk result (terminals.new ≡ (if numbering.is_terminal params.now name.now.text
        then with_name terminals.old name.now.text else terminals.old)) }
    ensures undefined { OnOk result (undefined.new
        ≡ least.earliest undefined.old (undefined_at left.now name.now)) }
    ensures head { IfOk result (λ head. IsHead left.now params.now terminals.new name.now head) }
{
    let text = name.text.bytes();
    if is_upper(text) {
        return Ok(nonterminal(left, name, undefined));
    }
    match params.number(text) {
        Some(parameter) => Ok(Head::Var(parameter as u32)),
        None => terminal(name, terminals),
    }
}

/// The nodes of a body that are still to be numbered.
#[derive(Drop)]
struct Ahead<'r, 'a> {
    nodes: &'r [RawNode<'a>],
}

/// The first term of the nodes, with a head for each of its names. Recurses as deep as the term.
fn term_of<'a>(
    alloc: Global,
    left: &NameIndex,
    params: &NameIndex,
    ahead: &mut Ahead<'_, 'a>,
    terminals: &mut NameIndex<'a>,
    undefined: &mut Option<u32>,
) -> Result<Term, OutOfMemory>
    requires left { HasNumbers left.now }
    requires params { HasNumbers params.now }
    requires begins { BeginsTerm ahead.old.nodes.now }
    ensures ahead { OnOk result (ahead.new.nodes.now ≡ behind ahead.old.nodes.now) }
    ensures terminals { OnOk result (terminals.new ≡ with_names terminals.old
        (filter (numbering.is_terminal params.now) (texts (term_names (first_term ahead.old.nodes.now))))) }
    ensures undefined { OnOk result (undefined.new
        ≡ undefined_in left.now undefined.old (term_names (first_term ahead.old.nodes.now))) }
    ensures term { IfOk result (λ term.
        IsNumberedTerm left.now params.now terminals.new (first_term ahead.old.nodes.now) term) }
{
    let [node, behind @ ..] = ahead.nodes else {
        unreachable!()
    };
    let name = node.name();
    let head = head_of(left, params, &name, terminals, undefined)?;
    let mut args = Vec::with_capacity(alloc, node.args as usize)?;
    ahead.nodes = behind;
    for _ in 0..node.args {
        args.push(term_of(alloc, left, params, ahead, terminals, undefined)?)?;
    }
    Ok(Term { head, args })
}

/// The rule with numbers for its names.
fn rule_of<'a>(
    alloc: Global,
    left: &NameIndex,
    params: &NameIndex,
    raw: &RawRule<'a>,
    terminals: &mut NameIndex<'a>,
    undefined: &mut Option<u32>,
) -> Result<Rule, OutOfMemory>
    requires left { HasNumbers left.now }
    requires params { params.now ≡ distinct (texts raw.now.params) }
    requires few { length raw.now.params ≤ 64 }
    ensures terminals { OnOk result (terminals.new ≡ with_names terminals.old
        (filter (numbering.is_terminal params.now) (texts (term_names raw.now.body)))) }
    ensures undefined { OnOk result (undefined.new
        ≡ undefined_in left.now undefined.old (term_names raw.now.body)) }
    ensures rule { IfOk result (λ rule. IsScoped left.now terminals.new raw.now rule) }
{
    let mut ahead = Ahead {
        nodes: raw.body.nodes(),
    };
    let body = term_of(alloc, left, params, &mut ahead, terminals, undefined)?;
    Ok(Rule {
        params: raw.params.len() as u32,
        body,
    })
}

/// Adds the rules with numbers for their names, where these are the parameters of each, and puts the
/// terminals of their bodies into an index; both are empty before. Answers the least line of an upper
/// name that isn't on the left of a rule.
pub(crate) fn number_bodies<'a>(
    alloc: Global,
    left: &NameIndex,
    params: &[NameIndex],
    rules: &[RawRule<'a>],
    terminals: &mut NameIndex<'a>,
    numbered: &mut Vec<Rule>,
) -> Result<Option<u32>, OutOfMemory>
    requires left { HasNumbers left.now }
    requires params { params.now ≡ map (λ r. distinct (texts r.params)) rules.now }
    requires few { All (λ r. length r.params ≤ 64) rules.now }
    requires terminals { terminals.old ≡ [] }
    requires numbered { numbered.old.items ≡ [] }
    ensures terminals { OnOk result (terminals.new ≡ distinct (flat_map terminals_in rules.now)) }
    ensures undefined { IfOk result (IsLeast
        (λ line. Somewhere (λ _ r. Somewhere (λ _ n. IsUndefined left.now n line)
        (term_names r.body)) rules.now)) }
    ensures rules { OnOk result (AreScoped left.now terminals.new rules.now numbered.new.items) }
{
    numbered.reserve(rules.len())?;
    let mut undefined = None;
    for (number, rule) in rules.iter().enumerate() {
        let scope = &params[number];
        numbered.push(rule_of(alloc, left, scope, rule, terminals, &mut undefined)?)?;
    }
    Ok(undefined)
}
