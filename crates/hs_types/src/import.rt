//! Numbers that are guessed, and what has a number elsewhere gets one here.

ghost use Rattle.std.specs.Prelude.{◌≡◌, ◌<◌, All, IfOk, IfSome, Some, length, map, slice_get};
ghost use Rattle.hs_table.specs.Types.{IsSet};
ghost use Rattle.hs_types.specs.Interned.{type_of_id, set_of_id, env_of_id, Grows};
ghost use Rattle.hs_types.specs.Nodes.{node_type, IsInRange};
ghost use Rattle.hs_types.specs.Translations.{AreFound};

use crate::guesses::{guess, keep};
use crate::ids::{EnvId, SetId, TyId, View};
use crate::nodes::Nodes;
use crate::translations::ImportedNumbers;
use hs_scheme::OutOfMemory;
use smallvec::SmallVec;
use std::alloc::Global;

impl Nodes {
    /// The guess, where it is the node's type.
    fn guessed_type(&self, guess: TyId, node: &View) -> Option<TyId>
        ensures { IfSome result (λ own. slice_get self.now.types own ≡ Some (node_type self.now node.now)) }
    {
        if guess.number() >= self.count_types() || self.view(guess) != *node {
            return None;
        }
        Some(guess)
    }

    /// The guess, where it is the set of these types.
    pub(crate) fn guessed_set(&self, guess: SetId, types: &[TyId]) -> Option<SetId>
        ensures { IfSome result (λ own. slice_get self.now.sets own ≡ Some
            (map (type_of_id self.now) types.now)) }
    {
        if guess.number() >= self.count_sets() || self.members(guess) != types {
            return None;
        }
        Some(guess)
    }

    /// The guess, where it is the environment of these sets.
    pub(crate) fn guessed_env(&self, guess: EnvId, sets: &[SetId]) -> Option<EnvId>
        ensures { IfSome result (λ own. slice_get self.now.envs own ≡ Some
            (map (set_of_id self.now) sets.now)) }
    {
        if guess.number() >= self.count_envs() || self.sets(guess) != sets {
            return None;
        }
        Some(guess)
    }

    /// The number of the type of this node. Looks first at the guess at the place.
    pub(crate) fn number_type(
        &mut self,
        guesses: &mut Vec<u32>,
        place: u32,
        node: View,
    ) -> Result<TyId, OutOfMemory>
        requires { IsInRange self.old node }
        ensures ok { IfOk result (λ own. slice_get self.new.types own ≡ Some (node_type self.old node)) }
        ensures grows { Grows self.old self.new }
    {
        let guessed = TyId::at(guess(guesses.as_slice(), place));
        if let Some(own) = self.guessed_type(guessed, &node) {
            return Ok(own);
        }
        let own = self.add_type(node)?;
        keep(guesses, place, own.stored())?;
        Ok(own)
    }

    /// The number of the set of these types, which are in order. Looks first at the guess at the place.
    pub(crate) fn number_set(
        &mut self,
        guesses: &mut Vec<u32>,
        place: u32,
        types: &[TyId],
    ) -> Result<SetId, OutOfMemory>
        requires range { All (λ t. t < length self.old.types) types.now }
        requires ascends { IsSet (map (type_of_id self.old) types.now) }
        ensures ok { IfOk result (λ own. slice_get self.new.sets own ≡ Some
            (map (type_of_id self.old) types.now)) }
        ensures grows { Grows self.old self.new }
    {
        let guessed = SetId::at(guess(guesses.as_slice(), place));
        if let Some(own) = self.guessed_set(guessed, types) {
            return Ok(own);
        }
        let own = self.add_set(types)?;
        keep(guesses, place, own.stored())?;
        Ok(own)
    }

    /// The number of the environment of these sets. Looks first at the guess at the place.
    pub(crate) fn number_env(
        &mut self,
        guesses: &mut Vec<u32>,
        place: u32,
        sets: &[SetId],
    ) -> Result<EnvId, OutOfMemory>
        requires { All (λ s. s < length self.old.sets) sets.now }
        ensures ok { IfOk result (λ own. slice_get self.new.envs own ≡ Some
            (map (set_of_id self.old) sets.now)) }
        ensures grows { Grows self.old self.new }
    {
        let guessed = EnvId::at(guess(guesses.as_slice(), place));
        if let Some(own) = self.guessed_env(guessed, sets) {
            return Ok(own);
        }
        let own = self.add_env(sets)?;
        keep(guesses, place, own.stored())?;
        Ok(own)
    }

    /// The number here of the other's type, which isn't sought in `found`.
    #[cycle(import)]
    fn make_type(
        &mut self,
        alloc: Global,
        found: &mut ImportedNumbers,
        from: &Nodes,
        id: TyId,
    ) -> Result<TyId, OutOfMemory>
        requires id { id < length from.now.types }
        requires found { AreFound from.now self.old found.old }
        ensures ok { IfOk result (λ own. slice_get self.new.types own ≡ Some (type_of_id from.now id)) }
        ensures found { AreFound from.now self.new found.new }
        ensures grows { Grows self.old self.new }
    {
        match from.view(id) {
            View::State(q) => self.add_type(View::State(q)),
            View::Arrow(set, rest) => {
                let own_set = self.import_set(alloc, found, from, set)?;
                let own_rest = self.import_type(alloc, found, from, rest)?;
                self.add_type(View::Arrow(own_set, own_rest))
            }
        }
    }

    /// The number here of the other's type. Recurses as deep as it is, where it isn't found.
    #[cycle(import)]
    pub(crate) fn import_type(
        &mut self,
        alloc: Global,
        found: &mut ImportedNumbers,
        from: &Nodes,
        id: TyId,
    ) -> Result<TyId, OutOfMemory>
        requires id { id < length from.now.types }
        requires found { AreFound from.now self.old found.old }
        ensures ok { IfOk result (λ own. slice_get self.new.types own ≡ Some (type_of_id from.now id)) }
        ensures found { AreFound from.now self.new found.new }
        ensures grows { Grows self.old self.new }
    {
        if let Some(own) = found.types.find(id.stored()) {
            return Ok(TyId::at(own));
        }
        let own = self.make_type(alloc, found, from, id)?;
        found.types.keep(id.stored(), own.stored())?;
        Ok(own)
    }

    /// The number here of the other's set, whose types are in order here, too.
    #[cycle(import)]
    fn import_set(
        &mut self,
        alloc: Global,
        found: &mut ImportedNumbers,
        from: &Nodes,
        id: SetId,
    ) -> Result<SetId, OutOfMemory>
        requires id { id < length from.now.sets }
        requires found { AreFound from.now self.old found.old }
        ensures ok { IfOk result (λ own. slice_get self.new.sets own ≡ Some (set_of_id from.now id)) }
        ensures found { AreFound from.now self.new found.new }
        ensures grows { Grows self.old self.new }
    {
        if let Some(own) = found.sets.find(id.stored()) {
            return Ok(SetId::at(own));
        }
        from.know_numbers();
        let members = from.members(id);
        let mut types: SmallVec<TyId, 8> = SmallVec::new(alloc);
        for member in members {
            types.push(self.import_type(alloc, found, from, *member)?)?;
        }
        let own = self.add_set(types.as_slice())?;
        found.sets.keep(id.stored(), own.stored())?;
        Ok(own)
    }

    /// The number here of the other's environment.
    pub(crate) fn import_env(
        &mut self,
        alloc: Global,
        found: &mut ImportedNumbers,
        from: &Nodes,
        id: EnvId,
    ) -> Result<EnvId, OutOfMemory>
        requires id { id < length from.now.envs }
        requires found { AreFound from.now self.old found.old }
        ensures ok { IfOk result (λ own. slice_get self.new.envs own ≡ Some (env_of_id from.now id)) }
        ensures found { AreFound from.now self.new found.new }
        ensures grows { Grows self.old self.new }
    {
        if let Some(own) = found.envs.find(id.stored()) {
            return Ok(EnvId::at(own));
        }
        let sets = from.sets(id);
        let mut own_sets: SmallVec<SetId, 8> = SmallVec::new(alloc);
        for set in sets {
            own_sets.push(self.import_set(alloc, found, from, *set)?)?;
        }
        let own = self.add_env(own_sets.as_slice())?;
        found.envs.keep(id.stored(), own.stored())?;
        Ok(own)
    }
}
