//! Evidences, and packs of them, by number.

ghost use Rattle.std.specs.Prelude.{◌≡◌, ◌<◌, ◌++◌, ◌∷◌, [], ℕ, List, length, All, IfOk, map};
ghost use Rattle.hs_types.specs.Interned.{type_of_id};
ghost use Rattle.hs_verdict.specs.Evidence.{Evidence, Packs, Pack, pack_at, pick, first};
ghost use Rattle.hs_path.specs.Stored.{Stands, IsNode, Piled, Members, IsPack, GrowsStore, Nothing};

use hs_scheme::OutOfMemory;
use hs_types::{Interner, TyId};
use std::alloc::Global;

/// A part of a list: from one place up to before another.
#[derive(Clone, Copy, Drop)]
pub(crate) struct Span {
    pub(crate) from: u32,
    pub(crate) to: u32,
}

/// No part.
pub(crate) const NOTHING: Span = Span { from: 0, to: 0 };

/// An evidence: a place of the log, and which numbers of packs are those of its parameters, the first
/// of them last.
#[derive(Clone, Copy, Drop)]
pub(crate) struct Node {
    pub(crate) place: u32,
    pub(crate) own: Span,
}

/// What a look-up that finds nothing gives.
pub(crate) const NO_EVIDENCE: Node = Node {
    place: 0,
    own: NOTHING,
};

/// An evidence to go on at. The evidences of its packs have smaller numbers than it has; one that has
/// no number yet is given the next.
#[derive(Clone, Copy, Drop)]
pub(crate) struct Continuation {
    pub(crate) node: Node,
    pub(crate) number: u32,
}

/// Evidences and packs, each named by its number. They only become more.
#[derive(Drop)]
pub(crate) struct Store {
    pub(crate) nodes: Vec<Node>,
    /// The numbers of the packs of evidences.
    pub(crate) owns: Vec<u32>,
    /// Each pack as a part of `members`, the first of its evidences last.
    pub(crate) packs: Vec<Span>,
    /// The numbers of the evidences of packs.
    pub(crate) members: Vec<u32>,
}

/// The number in 32 bits. A list with more items is want of memory.
pub(crate) fn number(n: usize) -> Result<u32, OutOfMemory>
    ensures { IfOk result (λ m. m ≡ n) }
{
    if n > u32::MAX as usize {
        return Err(OutOfMemory);
    }
    Ok(n as u32)
}

impl Store {
    /// The evidence of look-ups that find nothing, as number 0, and no pack.
    pub(crate) fn new(alloc: Global) -> Result<Store, OutOfMemory>
        ensures { IfOk result (λ store. (bound : ℕ) → 0 < bound → Nothing bound store) }
    {
        let mut nodes = Vec::new(alloc);
        nodes.push(NO_EVIDENCE)?;
        Ok(Store {
            nodes,
            owns: Vec::new(alloc),
            packs: Vec::new(alloc),
            members: Vec::new(alloc),
        })
    }

    /// The evidence of this number.
    pub(crate) fn get(&self, number: u32) -> Node
        ensures { (bound : ℕ) (e : Evidence) → Stands bound self.now number e →
            IsNode bound self.now number result e }
    {
        match self.nodes.get(number as usize) {
            Some(node) => *node,
            None => NO_EVIDENCE,
        }
    }

    /// The pack of this number.
    fn pack(&self, number: u32) -> Span
        ensures { (bound below : ℕ) (p : Pack) → IsPack bound self.now below number p →
            Members bound self.now below result.from result.to p }
    {
        match self.packs.get(number as usize) {
            Some(pack) => *pack,
            None => NOTHING,
        }
    }

    /// The pack at this place, counted from 0, of those whose numbers stand from `from` up to before
    /// `to`, the first of them last.
    pub(crate) fn pack_at(&self, numbers: &[u32], from: usize, to: usize, place: usize) -> Span
        ensures { (bound below : ℕ) (packs : Packs) → Piled bound self.now below numbers.now from to packs →
            Members bound self.now below result.from result.to (pack_at packs place) }
    {
        if to <= from || to - from <= place {
            return NOTHING;
        }
        match numbers.get(to - 1 - place) {
            Some(number) => self.pack(*number),
            None => NOTHING,
        }
    }

    /// The number of the first evidence of a pack.
    pub(crate) fn first(&self, pack: Span) -> u32
        ensures { (bound below : ℕ) (p : Pack) → Nothing bound self.now → 0 < below →
            Members bound self.now below pack.from pack.to p →
            (result < below) × Stands bound self.now result (first p) }
    {
        if pack.to <= pack.from {
            return 0;
        }
        match self.members.get(pack.to as usize - 1) {
            Some(number) => *number,
            None => 0,
        }
    }

    /// The number of the evidence for this type, in the pack of a set with these types.
    pub(crate) fn pick(&self, interner: &Interner, types: &[TyId], pack: Span, ty: TyId) -> u32
        requires types { All (λ t. t < length interner.now.types) types.now }
        requires ty { ty < length interner.now.types }
        ensures { (bound below : ℕ) (p : Pack) → Nothing bound self.now → 0 < below →
            Members bound self.now below pack.from pack.to p →
            (result < below) × Stands bound self.now result
            (pick (map (type_of_id interner.now) types.now) p (type_of_id interner.now ty)) }
    {
        interner.know_numbers();
        let mut left = pack;
        for other in types {
            if *other == ty {
                return self.first(left);
            }
            if left.to > left.from {
                left.to -= 1;
            }
        }
        0
    }

    /// Makes a pack of the evidences whose numbers stand from `from` on, and answers its number.
    pub(crate) fn close_pack(&mut self, from: u32) -> Result<u32, OutOfMemory>
        ensures grows { IfOk result (λ pack. GrowsStore self.old self.new) }
        ensures owns { IfOk result (λ pack. self.new.owns.items ≡ self.old.owns.items) }
        ensures nodes { IfOk result (λ pack. self.new.nodes.items ≡ self.old.nodes.items) }
        ensures pack { IfOk result (λ pack. (bound below : ℕ) (p : Pack) →
            Members bound self.old below from (length self.old.members.items) p →
            IsPack bound self.new below pack p) }
    {
        let to = number(self.members.len())?;
        let pack = number(self.packs.len())?;
        self.packs.push(Span { from, to })?;
        Ok(pack)
    }
}
