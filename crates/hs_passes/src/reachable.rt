//! Which rules the start needs.

ghost use Rattle.std.specs.Prelude.{◌≡◌, ◌<◌, ◌++◌, ℕ, All, false, length, replicate, vec_len, IfOk, OnOk};
ghost use Rattle.hs_passes.specs.Marking.{marked, newly};
ghost use Rattle.hs_passes.specs.Occurrences.{own_nonterminal, nonterminals};
ghost use Rattle.hs_passes.specs.Reachable.{is_reachable};
ghost use Rattle.hs_passes.specs.Selection.{stays};

use hs_scheme::{Head, OutOfMemory, Scheme, Term};
use std::alloc::Global;

/// Adds the head's nonterminal, where it is one.
fn collect_own(head: Head, names: &mut Vec<u32>) -> Result<(), OutOfMemory>
    ensures { OnOk result (names.new.items ≡ names.old.items ++ own_nonterminal head) }
{
    if let Head::Nt(rule) = head {
        names.push(rule)?;
    }
    Ok(())
}

/// Adds the nonterminals of the term, from left to right. Recurses as deep as the term.
fn collect(term: &Term, names: &mut Vec<u32>) -> Result<(), OutOfMemory>
    ensures { OnOk result (names.new.items ≡ names.old.items ++ nonterminals term.now) }
{
    collect_own(term.head, names)?;
    for arg in &term.args {
        collect(arg, names)?;
    }
    Ok(())
}

/// Marks these rules, and adds those that weren't marked to the pending ones.
fn mark(names: &[u32], kept: &mut Vec<bool>, pending: &mut Vec<u32>) -> Result<(), OutOfMemory>
    requires { All (λ n. n < vec_len kept.old) names.now }
    ensures kept { OnOk result (kept.new.items ≡ marked names.now kept.old.items) }
    ensures pending { OnOk result (pending.new.items ≡ pending.old.items ++ newly names.now kept.old.items) }
{
    for name in names {
        let rule = *name as usize;
        if !kept[rule] {
            kept[rule] = true;
            pending.push(*name)?;
        }
    }
    Ok(())
}

/// No mark.
fn no_marks(alloc: Global, count: usize) -> Result<Vec<bool>, OutOfMemory>
    ensures { IfOk result (λ marks. marks.items ≡ replicate count false) }
{
    Ok(vec![in alloc; false; count]?)
}

/// For each rule whether a chain of occurrences in bodies leads from the start to it. In time and
/// memory in proportion to the size of the scheme.
pub(crate) fn reachable(alloc: Global, scheme: &Scheme) -> Result<Vec<bool>, OutOfMemory>
    ensures each { IfOk result (λ kept. vec_len kept ≡ length scheme.now.rules) }
    ensures is { IfOk result (λ kept. (f : ℕ) → stays kept.items f ≡ is_reachable scheme.now.rules f) }
{
    let rules = scheme.rules.as_slice();
    let mut kept = no_marks(alloc, rules.len())?;
    kept[0] = true;
    let mut pending = vec![in alloc; 0_u32]?;
    while let Some(rule) = pending.pop() {
        let mut names = Vec::new(alloc);
        collect(&rules[rule as usize].body, &mut names)?;
        mark(names.as_slice(), &mut kept, &mut pending)?;
    }
    Ok(kept)
}
