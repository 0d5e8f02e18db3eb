//! Types and entries as trees.

ghost use Rattle.std.specs.Prelude.{◌≡◌, ◌<◌, IfOk, length};
ghost use Rattle.hs_types.specs.Interned.{type_of_id, set_of_id, env_of_id, IsRow, entry_of};

use crate::ids::{EnvId, Row, SetId, TyId, View};
use crate::nodes::Nodes;
use hs_scheme::OutOfMemory;
use hs_table::{Entry, Shape, Ty, TypeSet};
use std::alloc::Global;

impl Nodes {
    /// The type. Recurses as deep as it is.
    #[cycle(tree)]
    fn tree_of_type(&self, alloc: Global, id: TyId) -> Result<Ty, OutOfMemory>
        requires { id < length self.now.types }
        ensures { IfOk result (λ t. t ≡ type_of_id self.now id) }
    {
        match self.view(id) {
            View::State(q) => Ok(Ty {
                shape: Shape::State(q),
            }),
            View::Arrow(set, rest) => {
                let types = self.trees_of_set(alloc, set)?;
                let rest_type = Box::new(alloc, self.tree_of_type(alloc, rest)?)?;
                Ok(Ty {
                    shape: Shape::Arrow(types, rest_type),
                })
            }
        }
    }

    /// The types of the set, in order.
    #[cycle(tree)]
    fn trees_of_set(&self, alloc: Global, id: SetId) -> Result<Vec<Ty>, OutOfMemory>
        requires { id < length self.now.sets }
        ensures { IfOk result (λ types. types.items ≡ set_of_id self.now id) }
    {
        let members = self.members(id);
        let mut types = Vec::with_capacity(alloc, members.len())?;
        for member in members {
            types.push_reserved(self.tree_of_type(alloc, *member)?);
        }
        Ok(types)
    }

    /// The sets of the environment.
    fn trees_of_env(&self, alloc: Global, id: EnvId) -> Result<Vec<TypeSet>, OutOfMemory>
        requires { id < length self.now.envs }
        ensures { IfOk result (λ sets. sets.items ≡ env_of_id self.now id) }
    {
        let sets = self.sets(id);
        let mut trees = Vec::with_capacity(alloc, sets.len())?;
        for set in sets {
            let types = self.trees_of_set(alloc, *set)?;
            trees.push_reserved(TypeSet { types });
        }
        Ok(trees)
    }

    /// The entry that the row stands for.
    pub(crate) fn tree(&self, alloc: Global, row: Row) -> Result<Entry, OutOfMemory>
        requires { IsRow self.now row }
        ensures { IfOk result (λ e. e ≡ entry_of self.now row) }
    {
        let env = self.trees_of_env(alloc, row.env)?;
        let ty = self.tree_of_type(alloc, row.ty)?;
        Ok(Entry {
            point: row.point,
            env,
            ty,
        })
    }
}
