//! Names.

ghost use Rattle.std.specs.Prelude.{◌≡◌, IfOk};

use crate::copying::copied;
use crate::memory::OutOfMemory;
use smallvec::SmallVec;
use std::alloc::Global;
use std::marker::Model;

/// So many bytes stand in the name itself; a longer name has a block of its own.
const SHORT: usize = 16;

/// A name, as its bytes. Contracts see the list of these bytes.
#[derive(Drop, Debug)]
pub struct Name {
    bytes: SmallVec<u8, SHORT>,
}

impl Model for Name {
    ghost use Rattle.std.specs.Prelude.{List, ℕ};

    ghost Value = { List ℕ };

    ghost view = { λ name. name.bytes.items };
}

impl Name {
    /// Makes a name of these bytes, in time and memory in proportion to their number.
    pub fn of(alloc: Global, bytes: &[u8]) -> Result<Name, OutOfMemory>
        ensures { IfOk result (λ name. name ≡ bytes.now) }
    {
        let bytes = SmallVec::from_slice(alloc, bytes)?;
        Ok(Name { bytes })
    }

    /// The bytes of the name. Takes no memory.
    pub fn bytes(&self) -> &[u8]
        ensures { result.now ≡ self.now }
    {
        self.bytes.as_slice()
    }

    /// An equal name, in time and memory in proportion to its length.
    pub fn copy(&self, alloc: Global) -> Result<Name, OutOfMemory>
        ensures { IfOk result (λ copy. copy ≡ self.now) }
    {
        Name::of(alloc, self.bytes.as_slice())
    }

    /// Names equal to these, in their order, in time and memory in proportion to their lengths.
    pub fn copy_all(alloc: Global, names: &[Name]) -> Result<Vec<Name>, OutOfMemory>
        ensures { IfOk result (λ copies. copies.items ≡ names.now) }
    {
        copied(alloc, names, |name| name.copy(alloc))
    }
}
