//! Sets that are merged, and sets of any list of types.

ghost use Rattle.std.specs.Prelude.{◌≡◌, ◌<◌, [], IfOk, OnOk, IsTrue, All, length, map};
ghost use Rattle.hs_table.specs.Types.{IsSet};
ghost use Rattle.hs_types.specs.Interned.{type_of_id, IsSetOf, IsUnion};

use crate::ids::TyId;
use crate::nodes::Nodes;
use hs_scheme::OutOfMemory;
use std::alloc::Global;
use std::cmp::Ordering;

impl Nodes {
    /// Fills the empty list with the types of both, in order. Compares as often as there are types in both.
    fn merge_into(
        &self,
        xs: &[TyId],
        ys: &[TyId],
        merged: &mut Vec<TyId>,
    ) -> Result<(), OutOfMemory>
        requires xs_range { All (λ t. t < length self.now.types) xs.now }
        requires ys_range { All (λ t. t < length self.now.types) ys.now }
        requires xs_ascend { IsSet (map (type_of_id self.now) xs.now) }
        requires ys_ascend { IsSet (map (type_of_id self.now) ys.now) }
        requires empty { merged.old.items ≡ [] }
        ensures range { OnOk result (All (λ t. t < length self.now.types) merged.new.items) }
        ensures union { OnOk result (IsUnion (map (type_of_id self.now) xs.now)
            (map (type_of_id self.now) ys.now) (map (type_of_id self.now) merged.new.items)) }
    {
        let mut i = 0;
        let mut j = 0;
        while i < xs.len() && j < ys.len() {
            let x = xs[i];
            let y = ys[j];
            match self.compare(x, y) {
                Ordering::Less => {
                    merged.push(x)?;
                    i += 1;
                }
                Ordering::Equal => {
                    merged.push(x)?;
                    i += 1;
                    j += 1;
                }
                Ordering::Greater => {
                    merged.push(y)?;
                    j += 1;
                }
            }
        }
        merged.extend_from_slice(&xs[i..])?;
        merged.extend_from_slice(&ys[j..])?;
        Ok(())
    }

    /// The types of both, in order. Compares as often as there are types in both.
    pub(crate) fn merge(
        &self,
        alloc: Global,
        xs: &[TyId],
        ys: &[TyId],
    ) -> Result<Vec<TyId>, OutOfMemory>
        requires xs_range { All (λ t. t < length self.now.types) xs.now }
        requires ys_range { All (λ t. t < length self.now.types) ys.now }
        requires xs_ascend { IsSet (map (type_of_id self.now) xs.now) }
        requires ys_ascend { IsSet (map (type_of_id self.now) ys.now) }
        ensures range { IfOk result (λ r. All (λ t. t < length self.now.types) r.items) }
        ensures union { IfOk result (λ r.
            IsUnion (map (type_of_id self.now) xs.now) (map (type_of_id self.now) ys.now)
            (map (type_of_id self.now) r.items)) }
    {
        let mut merged = Vec::with_capacity(alloc, xs.len() + ys.len())?;
        self.merge_into(xs, ys, &mut merged)?;
        Ok(merged)
    }

    /// Whether each of these types comes before the next one.
    pub(crate) fn ascends(&self, ids: &[TyId]) -> bool
        requires { All (λ t. t < length self.now.types) ids.now }
        ensures { IsTrue result → IsSet (map (type_of_id self.now) ids.now) }
    {
        for place in 1..ids.len() {
            let last = place - 1;
            match self.compare(ids[last], ids[place]) {
                Ordering::Less => {}
                Ordering::Equal | Ordering::Greater => return false,
            }
        }
        true
    }

    /// These types, in order and each once. Compares about as often as a merge sort.
    pub(crate) fn sorted(&self, alloc: Global, ids: &[TyId]) -> Result<Vec<TyId>, OutOfMemory>
        requires { All (λ t. t < length self.now.types) ids.now }
        ensures range { IfOk result (λ r. All (λ t. t < length self.now.types) r.items) }
        ensures set { IfOk result (λ r. IsSetOf (map (type_of_id self.now) ids.now)
            (map (type_of_id self.now) r.items)) }
    {
        if ids.len() <= 1 {
            return Ok(ids.to_vec(alloc)?);
        }
        let middle = ids.len() / 2;
        let first = self.sorted(alloc, &ids[..middle])?;
        let second = self.sorted(alloc, &ids[middle..])?;
        self.merge(alloc, first.as_slice(), second.as_slice())
    }
}
