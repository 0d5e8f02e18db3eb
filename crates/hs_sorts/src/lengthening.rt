//! Rules with as many parameters as their nonterminal's sort has arguments.

ghost use Rattle.std.specs.Prelude.{◌≡◌, ◌+◌, ◌++◌, ◌<◌, ◌≤◌, ◌^◌, All, IfOk, length, map};
ghost use Rattle.hs_scheme.specs.sorting.Sorting.{arguments};
ghost use Rattle.hs_scheme.specs.acceptance.Replacement.{applied};
ghost use Rattle.hs_scheme.specs.sorting.Lengthening.{parameters, lengthened, lengthening};
ghost use Rattle.hs_sorts.specs.Naming as naming;

use hs_scheme::{Head, Name, Names, OutOfMemory, Rule, Sort, Term};
use itoa::Buffer;
use std::alloc::Global;

/// Gives the term the parameters from `first` on as its last arguments.
fn add_arguments(alloc: Global, term: &mut Term, first: u32, count: u32) -> Result<(), OutOfMemory>
    requires { first + count < 2 ^ 32 }
    ensures { IfOk result (λ _. term.new ≡ applied term.old (parameters first count)) }
{
    for number in 0..count {
        term.args.push(Term {
            head: Head::Var(first + number),
            args: Vec::new(alloc),
        })?;
    }
    Ok(())
}

/// Gives the rule further parameters at its end, which its body takes as its last arguments.
fn lengthen_rule(alloc: Global, rule: &mut Rule, missing: u32) -> Result<(), OutOfMemory>
    requires { rule.old.params + missing < 2 ^ 32 }
    ensures { IfOk result (λ _. rule.new ≡ lengthened missing rule.old) }
{
    add_arguments(alloc, &mut rule.body, rule.params, missing)?;
    rule.params += missing;
    Ok(())
}

/// The name of an added parameter, by its number among these, counted from 1.
fn added_name(alloc: Global, number: u32) -> Result<Name, OutOfMemory>
    ensures { IfOk result (λ name. name ≡ naming.added_name number) }
{
    let mut text = Vec::new(alloc);
    let mut buffer = Buffer::new();
    text.push(b'~')?;
    text.extend_from_slice(buffer.format(number).as_bytes())?;
    Name::of(alloc, text.as_slice())
}

/// Adds the names of this many added parameters.
fn add_names(alloc: Global, names: &mut Vec<Name>, count: u32) -> Result<(), OutOfMemory>
    ensures { IfOk result (λ _. names.new.items ≡ names.old.items ++ naming.added_names count) }
{
    for number in 0..count {
        names.push(added_name(alloc, number + 1)?)?;
    }
    Ok(())
}

/// Gives each rule as many parameters as its nonterminal's sort has arguments.
fn lengthen_rules(alloc: Global, rules: &mut Vec<Rule>, sorts: &[Sort]) -> Result<(), OutOfMemory>
    requires each_rule { length sorts.now ≡ length rules.old.items }
    requires rules { All (λ r. r.params ≤ 64) rules.old.items }
    requires sorts { All (λ k. length (arguments k) ≤ 1000) sorts.now }
    ensures { IfOk result (λ _. rules.new.items ≡ lengthening rules.old.items sorts.now) }
{
    for (number, sort) in sorts.iter().enumerate() {
        let rule = &mut rules[number];
        let missing = sort.args.len().saturating_sub(rule.params as usize);
        lengthen_rule(alloc, rule, missing as u32)?;
    }
    Ok(())
}

/// Adds the names of the further parameters of each rule.
fn lengthen_params(
    alloc: Global,
    params: &mut Vec<Vec<Name>>,
    sorts: &[Sort],
) -> Result<(), OutOfMemory>
    requires each_rule { length sorts.now ≡ length params.old.items }
    requires sorts { All (λ k. length (arguments k) ≤ 1000) sorts.now }
    ensures { IfOk result (λ _. map (λ ns. ns.items) params.new.items ≡ naming.lengthened_params
        (map (λ ns. ns.items) params.old.items) sorts.now) }
{
    for (number, sort) in sorts.iter().enumerate() {
        let names = &mut params[number];
        let missing = sort.args.len().saturating_sub(names.len());
        add_names(alloc, names, missing as u32)?;
    }
    Ok(())
}

/// Gives each rule as many parameters as its nonterminal's sort has arguments, and the further ones
/// names. Time is linear in the number of rules and in what is added, and memory in what is added.
pub(crate) fn lengthen(
    alloc: Global,
    rules: &mut Vec<Rule>,
    names: &mut Names,
    sorts: &[Sort],
) -> Result<(), OutOfMemory>
    requires each_rule { length sorts.now ≡ length rules.old.items }
    requires each_name { length sorts.now ≡ length names.old.params }
    requires rules { All (λ r. r.params ≤ 64) rules.old.items }
    requires sorts { All (λ k. length (arguments k) ≤ 1000) sorts.now }
    ensures rules { IfOk result (λ _. rules.new.items ≡ lengthening rules.old.items sorts.now) }
    ensures names { IfOk result (λ _. names.new ≡ naming.lengthened_names names.old sorts.now) }
{
    lengthen_rules(alloc, rules, sorts)?;
    lengthen_params(alloc, &mut names.params, sorts)
}
