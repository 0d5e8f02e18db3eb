//! The walk over the nodes that measures each after its children.

ghost use Rattle.std.specs.Prelude.{◌≡◌, ◌<◌, [], length, IfOk};
ghost use Rattle.hs_sorts.specs.Nodes.{IsStore};
ghost use Rattle.hs_sorts.specs.Search.{IsSearch, IsLastOnPath, IsAdvance, IsEntry, IsNodeWalk, IsMeasuring};

use crate::measures::{Mark, Measures, Step, step_at};
use crate::store::Store;
use hs_scheme::OutOfMemory;
use std::alloc::Global;

/// How far each node is, and the nodes on the path from where the walk started to where it is.
#[derive(Drop)]
struct Search {
    marks: Vec<Mark>,
    path: Vec<u32>,
}

impl Search {
    /// Puts a new node on the path. `false` where it isn't new.
    fn enter(&mut self, node: u32) -> Result<bool, OutOfMemory>
        requires { node < length self.old.marks.items }
        ensures { IfOk result (λ yes. IsEntry self.old.marks.items self.old.path.items node
            self.new.marks.items self.new.path.items yes) }
    {
        let Mark::New = self.marks[node as usize] else {
            return Ok(false);
        };
        self.marks[node as usize] = Mark::Entered;
        self.path.push(node)?;
        Ok(true)
    }

    /// Measures the last node of the path, or goes on to a child that has to be measured first.
    /// `false` where that child is on the path, so that a sort would be a part of itself.
    fn advance(&mut self, store: &Store, at: u32) -> Result<bool, OutOfMemory>
        requires search { IsSearch store.now self.old.marks.items self.old.path.items }
        requires store { IsStore store.now }
        requires last { IsLastOnPath self.old.path.items at }
        ensures { IfOk result (λ yes. IsAdvance store.now self.old.marks.items self.old.path.items
            self.new.marks.items self.new.path.items yes) }
    {
        match step_at(self.marks.as_slice(), store.node_at(at))? {
            Step::Done(measure) => {
                self.marks[at as usize] = Mark::measured(measure);
                let _ = self.path.pop();
                Ok(true)
            }
            Step::Child(child) => self.enter(child),
        }
    }

    /// Measures a node and all nodes that its sort is read from. `false` where a sort would be a
    /// part of itself.
    fn walk(&mut self, store: &Store, start: u32) -> Result<bool, OutOfMemory>
        requires start { start < length store.now }
        requires search { IsSearch store.now self.old.marks.items self.old.path.items }
        requires empty { self.old.path.items ≡ [] }
        requires store { IsStore store.now }
        ensures { IfOk result (λ yes. IsNodeWalk store.now self.old.marks.items self.new.marks.items
            self.new.path.items start yes) }
    {
        if !self.enter(start)? {
            return Ok(true);
        }
        while let Some(at) = self.path.last().copied() {
            if !self.advance(store, at)? {
                return Ok(false);
            }
        }
        Ok(true)
    }
}

/// The measures of the sorts that the nodes stand for, where the sort of an open node is `o`, or
/// `None` where some sort would be a part of itself. Time and memory are linear in the number of
/// nodes: a sort that many nodes have a part in is measured once, however large it is as a tree.
pub(crate) fn measure(alloc: Global, store: &Store) -> Result<Option<Measures>, OutOfMemory>
    ensures { IfOk result (λ measures. IsMeasuring store.now measures) }
{
    let count = store.len();
    let marks = vec![in alloc; Mark::New; count]?;
    let mut search = Search {
        marks,
        path: Vec::new(alloc),
    };
    for start in 0..count {
        if !search.walk(store, start as u32)? {
            return Ok(None);
        }
    }
    Ok(Some(Measures::of(search.marks)))
}
