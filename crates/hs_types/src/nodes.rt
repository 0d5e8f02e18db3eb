//! Types, sets and environments as nodes that name one another by number.

ghost use Rattle.std.specs.Prelude.{◌≡◌, ◌<◌, [], IfOk, All, Some, length, map, slice_get};
ghost use Rattle.hs_table.specs.Types.{IsSet};
ghost use Rattle.hs_types.specs.Interned.{type_of_id, set_of_id, env_of_id, IsView, IsInterner, Grows};
ghost use Rattle.hs_types.specs.Nodes.{node_type, IsInRange, Adds, lists_of};

use crate::ids::{EnvId, SetId, TyId, View};
use hs_scheme::OutOfMemory;
use indexmap::IndexSet;
use std::alloc::Global;
use std::marker::Model;

/// What has numbers. A number is a place in one of the three sets.
#[derive(Drop)]
pub(crate) struct Nodes {
    alloc: Global,
    types: IndexSet<View>,
    sets: IndexSet<Vec<TyId>>,
    envs: IndexSet<Vec<SetId>>,
}

impl Model for Nodes {
    ghost use Rattle.hs_types.specs.Interned.{InternerData, coded_interner};
    ghost use Rattle.hs_types.specs.Nodes.{data_of, AreNodes, lists_of};

    ghost Value = { InternerData };

    ghost coded = { coded_interner };

    ghost view = { λ a. data_of a.types.keys (lists_of a.sets.keys) (lists_of a.envs.keys) };

    ghost invariant = { λ a. AreNodes a.types.keys (lists_of a.sets.keys) (lists_of a.envs.keys)
        (data_of a.types.keys (lists_of a.sets.keys) (lists_of a.envs.keys)) };
}

/// The number of what stands at the place, or want of memory: no interner has more than 2^32 types,
/// sets or environments.
fn numbered(place: usize) -> Result<u32, OutOfMemory>
    ensures { IfOk result (λ number. number ≡ place) }
{
    if place > u32::MAX as usize {
        return Err(OutOfMemory);
    }
    Ok(place as u32)
}

/// The place of the node, which is stored where it wasn't.
fn store_node(types: &mut IndexSet<View>, node: View) -> Result<usize, OutOfMemory>
    ensures at { IfOk result (λ place. slice_get types.new.keys place ≡ Some node) }
    ensures adds { Adds types.old.keys types.new.keys node }
{
    let (place, _) = types.insert_full(node)?;
    Ok(place)
}

/// The place of the list of types, which is stored where it wasn't.
fn store_set(
    alloc: Global,
    sets: &mut IndexSet<Vec<TyId>>,
    types: &[TyId],
) -> Result<usize, OutOfMemory>
    ensures at { IfOk result (λ place. slice_get (lists_of sets.new.keys) place ≡ Some types.now) }
    ensures adds { Adds (lists_of sets.old.keys) (lists_of sets.new.keys) types.now }
{
    if let Some(place) = sets.get_index_of(types) {
        return Ok(place);
    }
    let (place, _) = sets.insert_full(types.to_vec(alloc)?)?;
    Ok(place)
}

/// The place of the list of sets, which is stored where it wasn't.
fn store_env(
    alloc: Global,
    envs: &mut IndexSet<Vec<SetId>>,
    sets: &[SetId],
) -> Result<usize, OutOfMemory>
    ensures at { IfOk result (λ place. slice_get (lists_of envs.new.keys) place ≡ Some sets.now) }
    ensures adds { Adds (lists_of envs.old.keys) (lists_of envs.new.keys) sets.now }
{
    if let Some(place) = envs.get_index_of(sets) {
        return Ok(place);
    }
    let (place, _) = envs.insert_full(sets.to_vec(alloc)?)?;
    Ok(place)
}

/// The number of the node, which is stored where it wasn't.
fn add_node(types: &mut IndexSet<View>, node: View) -> Result<u32, OutOfMemory>
    ensures at { IfOk result (λ place. slice_get types.new.keys place ≡ Some node) }
    ensures adds { Adds types.old.keys types.new.keys node }
{
    let place = store_node(types, node)?;
    numbered(place)
}

/// The number of the list of types, which is stored where it wasn't.
fn add_set(
    alloc: Global,
    sets: &mut IndexSet<Vec<TyId>>,
    types: &[TyId],
) -> Result<u32, OutOfMemory>
    ensures at { IfOk result (λ place. slice_get (lists_of sets.new.keys) place ≡ Some types.now) }
    ensures adds { Adds (lists_of sets.old.keys) (lists_of sets.new.keys) types.now }
{
    let place = store_set(alloc, sets, types)?;
    numbered(place)
}

/// The number of the list of sets, which is stored where it wasn't.
fn add_env(
    alloc: Global,
    envs: &mut IndexSet<Vec<SetId>>,
    sets: &[SetId],
) -> Result<u32, OutOfMemory>
    ensures at { IfOk result (λ place. slice_get (lists_of envs.new.keys) place ≡ Some sets.now) }
    ensures adds { Adds (lists_of envs.old.keys) (lists_of envs.new.keys) sets.now }
{
    let place = store_env(alloc, envs, sets)?;
    numbered(place)
}

impl Nodes {
    /// Nothing is stored. Takes no memory.
    pub(crate) fn new(alloc: Global) -> Nodes
        ensures { result ≡ record { types = []; sets = []; envs = [] } }
    {
        Nodes {
            alloc,
            types: IndexSet::new(alloc),
            sets: IndexSet::new(alloc),
            envs: IndexSet::new(alloc),
        }
    }

    /// A law; does nothing.
    pub(crate) fn know_numbers(&self)
        ensures { IsInterner self.now }
    {
        let _ = &self.types;
    }

    /// How many types have numbers.
    pub(crate) fn count_types(&self) -> usize
        ensures { result ≡ length self.now.types }
    {
        self.types.len()
    }

    /// How many sets have numbers.
    pub(crate) fn count_sets(&self) -> usize
        ensures { result ≡ length self.now.sets }
    {
        self.sets.len()
    }

    /// How many environments have numbers.
    pub(crate) fn count_envs(&self) -> usize
        ensures { result ≡ length self.now.envs }
    {
        self.envs.len()
    }

    /// The number of the type of this node.
    pub(crate) fn add_type(&mut self, node: View) -> Result<TyId, OutOfMemory>
        requires { IsInRange self.old node }
        ensures ok { IfOk result (λ id. slice_get self.new.types id ≡ Some (node_type self.old node)) }
        ensures grows { Grows self.old self.new }
    {
        let place = add_node(&mut self.types, node)?;
        Ok(TyId::at(place))
    }

    /// The number of the set of these types, which are in order.
    pub(crate) fn add_set(&mut self, types: &[TyId]) -> Result<SetId, OutOfMemory>
        requires range { All (λ t. t < length self.old.types) types.now }
        requires ascends { IsSet (map (type_of_id self.old) types.now) }
        ensures ok { IfOk result (λ id. slice_get self.new.sets id ≡ Some
            (map (type_of_id self.old) types.now)) }
        ensures grows { Grows self.old self.new }
    {
        let place = add_set(self.alloc, &mut self.sets, types)?;
        Ok(SetId::at(place))
    }

    /// The number of the environment of these sets.
    pub(crate) fn add_env(&mut self, sets: &[SetId]) -> Result<EnvId, OutOfMemory>
        requires { All (λ s. s < length self.old.sets) sets.now }
        ensures ok { IfOk result (λ id. slice_get self.new.envs id ≡ Some
            (map (set_of_id self.old) sets.now)) }
        ensures grows { Grows self.old self.new }
    {
        let place = add_env(self.alloc, &mut self.envs, sets)?;
        Ok(EnvId::at(place))
    }

    /// What the type is.
    pub(crate) fn view(&self, id: TyId) -> View
        requires { id < length self.now.types }
        ensures { IsView self.now id result }
    {
        self.types.as_slice()[id.number()]
    }

    /// The types of the set, in order.
    pub(crate) fn members(&self, id: SetId) -> &[TyId]
        requires { id < length self.now.sets }
        ensures members { map (type_of_id self.now) result.now ≡ set_of_id self.now id }
        ensures range { All (λ t. t < length self.now.types) result.now }
    {
        self.sets.as_slice()[id.number()].as_slice()
    }

    /// The sets of the environment.
    pub(crate) fn sets(&self, id: EnvId) -> &[SetId]
        requires { id < length self.now.envs }
        ensures sets { map (set_of_id self.now) result.now ≡ env_of_id self.now id }
        ensures range { All (λ s. s < length self.now.sets) result.now }
    {
        self.envs.as_slice()[id.number()].as_slice()
    }
}
