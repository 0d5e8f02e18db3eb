//! Names by number.

ghost use Rattle.std.specs.Prelude.{◌≡◌, ◌<◌, ◌++◌, List, ℕ, [], not, IfOk, OnOk, IfSome, length, map};
ghost use Rattle.hs_resolve.specs.Names.{is_among, number_of, number, with_name};
ghost use Rattle.hs_resolve.specs.Lengths.{length_of};

use hs_scheme::{Name, OutOfMemory};
use indexmap::{IndexMap, IndexSet};
use std::alloc::Global;
use std::marker::Model;

/// Names without repeats. The number of a name is its place, counted from 0.
#[derive(Drop)]
pub(crate) struct NameIndex<'a> {
    names: IndexSet<&'a [u8]>,
}

impl<'a> Model for NameIndex<'a> {
    ghost use Rattle.std.specs.Prelude.{List, ℕ, map};

    ghost Value = { List (List ℕ) };

    ghost view = { λ a. map (λ name. name.now) a.names.keys };
}

impl<'a> NameIndex<'a> {
    pub(crate) fn new(alloc: Global) -> NameIndex<'a>
        ensures { result ≡ [] }
    {
        NameIndex {
            names: IndexSet::new(alloc),
        }
    }

    /// The number of names. Takes no memory.
    pub(crate) fn len(&self) -> usize
        ensures { result ≡ length self.now }
    {
        self.names.len()
    }

    /// Puts a name at the end, where it isn't there yet, and answers whether it was new. Constant
    /// time on average in the number of names.
    pub(crate) fn add(&mut self, name: &'a [u8]) -> Result<bool, OutOfMemory>
        ensures new { IfOk result (λ fresh. fresh ≡ not (is_among self.old name.now)) }
        ensures added { OnOk result (self.new ≡ with_name self.old name.now) }
    {
        let (_, fresh) = self.names.insert_full(name)?;
        Ok(fresh)
    }

    /// The number of a name, which is put at the end where it isn't there yet. Constant time on
    /// average in the number of names.
    pub(crate) fn number_or_add(&mut self, name: &'a [u8]) -> Result<usize, OutOfMemory>
        ensures number { IfOk result (λ n. (later : List (List ℕ))
            → n ≡ number (self.new ++ later) name.now) }
        ensures added { OnOk result (self.new ≡ with_name self.old name.now) }
    {
        let (number, _) = self.names.insert_full(name)?;
        Ok(number)
    }

    /// The number of a name. Takes no memory, and constant time on average.
    pub(crate) fn number(&self, name: &[u8]) -> Option<usize>
        ensures number { result ≡ number_of self.now name.now }
        ensures within { IfSome result (λ n. n < length self.now) }
    {
        // No name is hashed in the body of a rule without parameters.
        if self.names.is_empty() {
            return None;
        }
        self.names.get_index_of(name)
    }

    /// Adds a copy of each of the names, in order, where there are none yet.
    pub(crate) fn copy(&self, alloc: Global, names: &mut Vec<Name>) -> Result<(), OutOfMemory>
        requires { names.old.items ≡ [] }
        ensures { OnOk result (names.new.items ≡ self.now) }
    {
        copy_texts(alloc, self.names.as_slice(), names)
    }

    /// For each of the names the value that the map has for it.
    pub(crate) fn values_in(
        &self,
        alloc: Global,
        table: &IndexMap<&'a [u8], u32>,
    ) -> Result<Vec<Option<u32>>, OutOfMemory>
        ensures { IfOk result (λ values. values.items ≡ map (length_of table.now) self.now) }
    {
        values_of(alloc, &self.names, table)
    }
}

/// Adds the texts as names, where there are none yet.
fn copy_texts(alloc: Global, texts: &[&[u8]], names: &mut Vec<Name>) -> Result<(), OutOfMemory>
    requires { names.old.items ≡ [] }
    ensures { OnOk result (names.new.items ≡ map (λ t. t.now) texts.now) }
{
    names.reserve(texts.len())?;
    for text in texts {
        names.push(Name::of(alloc, text)?)?;
    }
    Ok(())
}

/// For each of the names the value that the map has for it, on average in time in proportion to the
/// names and the map. It is the map's names that are looked up: few of a file's terminals need have
/// a transition.
fn values_of<'a>(
    alloc: Global,
    names: &IndexSet<&'a [u8]>,
    table: &IndexMap<&'a [u8], u32>,
) -> Result<Vec<Option<u32>>, OutOfMemory>
    ensures { IfOk result (λ values. values.items ≡ map (λ t. length_of table.now t.now) names.now.keys) }
{
    let mut values = vec![in alloc; None; names.len()]?;
    for (name, value) in table.iter() {
        if let Some(number) = names.get_index_of(*name) {
            values[number] = Some(*value);
        }
    }
    Ok(values)
}
