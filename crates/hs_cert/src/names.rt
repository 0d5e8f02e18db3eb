//! Names by number.

ghost use Rattle.std.specs.Prelude.{◌≡◌, ◌<◌, ◌^◌, IfOk, IfSome, IfNone, Contains, length};
ghost use Rattle.hs_cert.specs.Certificate.{AreNames};
ghost use Rattle.hs_text.specs.Canonical.{name_at};

use hs_scheme::{Name, OutOfMemory};
use indexmap::IndexSet;
use std::alloc::Global;
use std::marker::Model;

/// The names of the states, or of the rules, by number, looked up by a hash table.
#[derive(Drop)]
pub(crate) struct NameTable<'a> {
    names: IndexSet<&'a [u8]>,
}

impl<'a> Model for NameTable<'a> {
    ghost use Rattle.std.specs.Prelude.{List, ℕ, map};

    ghost Value = { List (List ℕ) };

    ghost view = { λ a. map (λ name. name.now) a.names.keys };
}

impl<'a> NameTable<'a> {
    /// These names, of which no two are equal.
    pub(crate) fn of(alloc: Global, names: &'a [Name]) -> Result<NameTable<'a>, OutOfMemory>
        requires { AreNames names.now }
        ensures { IfOk result (λ table. table ≡ names.now) }
    {
        let mut index = IndexSet::new(alloc);
        for name in names {
            index.insert(name.bytes())?;
        }
        Ok(NameTable { names: index })
    }

    /// The number of a name. Takes no memory, and constant time on average.
    pub(crate) fn number(&self, name: &[u8]) -> Option<u32>
        requires { length self.now < 2 ^ 32 }
        ensures at { IfSome result (λ q. name_at self.now q ≡ name.now) }
        ensures within { IfSome result (λ q. q < length self.now) }
        ensures none { IfNone result (Contains self.now name.now → ⊥) }
    {
        match self.names.get_index_of(name) {
            Some(number) => Some(number as u32),
            None => None,
        }
    }
}
