//! Numbers of another interner with those that were found for them here.

ghost use Rattle.std.specs.Prelude.{◌≡◌, ◌++◌, ◌∷◌, [], IfSome, OnOk, OnErr, Contains};
ghost use Rattle.hs_types.specs.declared.translations.Translation.{Translation as AnyTranslation};

use hs_scheme::OutOfMemory;
use std::alloc::Global;
use std::marker::Model;

/// A number of another interner, and the number here of what it stands for there.
#[derive(Clone, Copy)]
pub(crate) struct Translation {
    other: u32,
    own: u32,
}

/// Translations of numbers, found by the other's number.
#[derive(Drop)]
pub(crate) struct Translations {
    pairs: Vec<Translation>,
    /// By the other's number the place of its pair, where it has one. What stands here from earlier
    /// pairs is harmless, since the pair at the place is looked at.
    places: Vec<u32>,
}

impl Translations {
    /// No pairs. Takes no memory.
    pub(crate) fn new(alloc: Global) -> Translations
        ensures { result.pairs.items ≡ [] }
    {
        Translations {
            pairs: Vec::new(alloc),
            places: Vec::new(alloc),
        }
    }

    /// Forgets all pairs. Takes no memory, and constant time.
    pub(crate) fn clear(&mut self)
        ensures { self.new.pairs.items ≡ [] }
    {
        self.pairs.clear();
    }

    /// The number here for the other's number, where it was kept.
    pub(crate) fn find(&self, other: u32) -> Option<u32>
        ensures { IfSome result (λ own. Contains self.now.pairs.items (record { other = other; own = own })) }
    {
        let place = self.places.get(other as usize)?;
        let pair = self.pairs.get(*place as usize)?;
        if pair.other == other {
            Some(pair.own)
        } else {
            None
        }
    }

    /// Keeps the number here for the other's number.
    pub(crate) fn keep(&mut self, other: u32, own: u32) -> Result<(), OutOfMemory>
        ensures ok { OnOk result (self.new.pairs.items ≡ self.old.pairs.items ++ record {
          other = other;
          own = own;
        } ∷ []) }
        ensures err { OnErr result (self.new.pairs.items ≡ self.old.pairs.items) }
    {
        let at = other as usize;
        if self.places.len() <= at {
            self.places.resize(at + 1, 0)?;
        }
        let place = self.pairs.len();
        if place > u32::MAX as usize {
            return Err(OutOfMemory);
        }
        self.places[at] = place as u32;
        self.pairs.push(Translation { other, own })?;
        Ok(())
    }
}

/// What was imported: the types, sets and environments of another interner that have been numbered here
/// lately, so that none of them is walked a second time. It tells of one other interner, and of one here.
/// It takes some 4 bytes for each number of the other interner, and 8 for each that it tells of.
///
/// Contracts see the three lists of translations.
#[derive(Drop)]
pub struct ImportedNumbers {
    pub(crate) types: Translations,
    pub(crate) sets: Translations,
    pub(crate) envs: Translations,
}

impl Model for ImportedNumbers {
    ghost use Rattle.hs_types.specs.Translations.{ImportedData};

    ghost Value = { ImportedData };

    ghost view = { λ a. record { types = a.types.pairs.items; sets = a.sets.pairs.items; envs = a.envs.pairs.items } };
}

impl ImportedNumbers {
    /// Nothing was imported. Takes no memory.
    pub fn new(alloc: Global) -> ImportedNumbers
        ensures { result ≡ record { types = []; sets = []; envs = [] } }
    {
        ImportedNumbers {
            types: Translations::new(alloc),
            sets: Translations::new(alloc),
            envs: Translations::new(alloc),
        }
    }

    /// Forgets all, but keeps its memory. Takes constant time.
    pub fn clear(&mut self)
        ensures { self.new ≡ record { types = []; sets = []; envs = [] } }
    {
        self.types.clear();
        self.sets.clear();
        self.envs.clear();
    }
}
