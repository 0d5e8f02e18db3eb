//! The lines of a table.

ghost use Rattle.std.specs.Prelude.{◌≡◌, ◌≢◌, ◌<◌, ℕ, List, length, map, true, All, AllPairs, Contains, ◌↔◌, IfOk};
ghost use Rattle.std.specs.List.{flat_map};
ghost use Rattle.hs_scheme.specs.flow.Flow.{IsAscending};
ghost use Rattle.hs_table.specs.Entries.{EntryData, InShape, entry_cmp};
ghost use Rattle.hs_text.specs.Pieces.{Puts};
ghost use Rattle.hs_text.specs.Report as lines;
ghost use Rattle.hs_text.specs.Report.{IsTableText};

use crate::pieces::{Text, name_of, params_of, push_number, rule_name, separator_before};
use hs_scheme::{Name, Names, OutOfMemory, Problem};
use hs_table::{Entry, Shape, Ty, TypeSet};
use std::alloc::Global;

/// Puts a type at the end. Recurses as deep as the type.
#[cycle(types)]
fn push_type(states: &[Name], ty: &Ty, text: &mut Text)
    ensures { Puts text.old text.new (lines.type_text states.now ty.now) }
{
    match &ty.shape {
        Shape::State(q) => text.push(name_of(states, *q as usize)),
        Shape::Arrow(set, rest) => {
            push_set(states, set.as_slice(), text);
            text.push(b" -> ");
            push_type(states, rest, text);
        }
    }
}

/// Puts the types of a set, in their order, at the end. Recurses as deep as the types.
#[cycle(types)]
fn push_set(states: &[Name], set: &[Ty], text: &mut Text)
    ensures { Puts text.old text.new (lines.set_text states.now set.now) }
{
    text.push(b"{");
    for (place, ty) in set.iter().enumerate() {
        text.push(separator_before(place, b","));
        push_type(states, ty, text);
    }
    text.push(b"}");
}

/// Puts the parameter with this number, and its set, at the end.
fn push_binding(states: &[Name], params: &[Name], number: usize, set: &TypeSet, text: &mut Text)
    ensures { Puts text.old text.new (lines.binding_text states.now params.now (number, set.now)) }
{
    text.push(name_of(params, number));
    text.push(b":");
    push_set(states, set.types.as_slice(), text);
}

/// Puts an environment at the end, where these are the names of the parameters.
pub(crate) fn push_env(states: &[Name], params: &[Name], env: &[TypeSet], text: &mut Text)
    ensures { Puts text.old text.new (lines.env_text states.now params.now env.now) }
{
    text.push(b"[");
    for (number, set) in env.iter().enumerate() {
        text.push(separator_before(number, b"; "));
        push_binding(states, params, number, set, text);
    }
    text.push(b"]");
}

/// Puts the number of a point and the name of its rule at the end.
fn push_place(names: &Names, rule: usize, point: u32, text: &mut Text)
    ensures { Puts text.old text.new (lines.place_text names.now rule point) }
{
    push_number(u64::from(point), text);
    text.push(b" ");
    text.push(rule_name(names, rule));
    text.push(b" ");
}

/// Puts an entry at the end, whose point stands in this rule.
fn push_entry(names: &Names, rule: usize, entry: &Entry, text: &mut Text)
    ensures { Puts text.old text.new (lines.entry_text names.now rule entry.now) }
{
    let states = names.states.as_slice();
    push_place(names, rule, entry.point, text);
    push_env(states, params_of(names, rule), entry.env.as_slice(), text);
    text.push(b" ");
    push_type(states, &entry.ty, text);
}

/// Puts the line of an entry at the end.
fn push_entry_line(problem: &Problem, entry: &Entry, text: &mut Text)
    requires { entry.now.point < length problem.now.points.points }
    ensures { Puts text.old text.new (lines.entry_line problem.now entry.now) }
{
    let rule = problem.points.rule_of(entry.point) as usize;
    push_entry(&problem.sorted.names, rule, entry, text);
    text.push(b"\n");
}

/// The entries in ascending order.
fn in_order(alloc: Global, table: &[Entry]) -> Result<Vec<&Entry>, OutOfMemory>
    requires { AllPairs (λ a b. a ≢ b) table.now }
    ensures ascending { IfOk result (λ entries. IsAscending entry_cmp (map (λ e. e.now) entries.items)) }
    ensures same { IfOk result (λ entries. (e : EntryData) →
        Contains (map (λ e. e.now) entries.items) e ↔ Contains table.now e) }
{
    let mut entries: Vec<&Entry> = table.iter().collect(alloc)?;
    entries.sort_by(|a, b| a.compare(b))?;
    Ok(entries)
}

/// Puts the lines of these entries at the end.
fn push_entries(problem: &Problem, entries: &[&Entry], text: &mut Text)
    requires { All (λ e. e.now.point < length problem.now.points.points) entries.now }
    ensures { Puts text.old text.new (flat_map (λ e. lines.entry_line problem.now e.now) entries.now) }
{
    for entry in entries {
        push_entry_line(problem, entry, text);
    }
}

/// Puts the lines of a table at the end.
pub(crate) fn push_table(alloc: Global, problem: &Problem, table: &[Entry], text: &mut Text)
    requires shape { All (InShape problem.now) table.now }
    requires distinct { AllPairs (λ a b. a ≢ b) table.now }
    ensures { text.new.is_whole ≡ true → (written : List ℕ)
        × IsTableText problem.now table.now written × Puts text.old text.new written }
{
    match in_order(alloc, table) {
        Ok(entries) => push_entries(problem, entries.as_slice(), text),
        Err(OutOfMemory) => text.refuse(),
    }
}

/// The lines of a table: its entries in ascending order, each on a line.
///
/// The entries are in shape, and no two are equal. Time and memory are in proportion to the text,
/// and to the number of comparisons of a sort. Recurses as deep as the types.
pub fn table_text(alloc: Global, problem: &Problem, table: &[Entry]) -> Result<Vec<u8>, OutOfMemory>
    requires shape { All (InShape problem.now) table.now }
    requires distinct { AllPairs (λ a b. a ≢ b) table.now }
    ensures { IfOk result (λ text. IsTableText problem.now table.now text.items) }
{
    let mut text = Text::new(alloc);
    push_table(alloc, problem, table, &mut text);
    text.finish()
}

/// The line of an entry, with the LF at its end. Recurses as deep as its types.
pub fn entry_line(alloc: Global, problem: &Problem, entry: &Entry) -> Result<Vec<u8>, OutOfMemory>
    requires { entry.now.point < length problem.now.points.points }
    ensures { IfOk result (λ text. text.items ≡ lines.entry_line problem.now entry.now) }
{
    let mut text = Text::new(alloc);
    push_entry_line(problem, entry, &mut text);
    text.finish()
}
