//! Which void pairs are none.

ghost use Rattle.std.specs.Prelude.{◌≡◌, ◌↔◌, ◌<◌, List, length, slice_get, Some, IfOk, IsTrue};
ghost use Rattle.hs_table.specs.Entries.{EntryData};
ghost use Rattle.hs_weak.specs.Sites.{SiteData};
ghost use Rattle.hs_weak.specs.Void.{VoidData, IsBlocked};
ghost use Rattle.hs_types.specs.Interned.{env_of_id, Grows};
ghost use Rattle.hs_sites.specs.Listed.{AreSitesOf};
ghost use Rattle.hs_numbered.specs.Certificates.{void_of};
ghost use Rattle.hs_choices.specs.Numbered.{AreNumbered};
ghost use Rattle.hs_void.specs.Rows.{AreMarks};
ghost use Rattle.hs_void.specs.Voids.{Fits, HasBlocked, IsFirstWithout};

use crate::blocking::is_blocked;
use crate::voids::Voids;
use hs_choices::Compared;
use hs_numbered::VoidRow;
use hs_scheme::OutOfMemory;
use hs_sites::{Site, each_chain_has_marked};
use hs_types::EnvId;
use std::alloc::Global;

/// Marks the sites, which are all those of the nonterminal, that are blocked for the environment.
fn blocked_marks(
    alloc: Global,
    types: &mut Compared,
    voids: &mut Voids,
    rule: u32,
    sites: &[Site],
    env: EnvId,
) -> Result<Vec<bool>, OutOfMemory>
    requires fits { Fits types.old voids.old }
    requires sites { AreSitesOf voids.old.basis.problem rule sites.now }
    requires env { env < length types.old.envs }
    ensures marks { IfOk result (λ marks. (C : List EntryData) (V : List VoidData)
        → AreNumbered voids.old.basis.problem C V types.old voids.old.basis.table voids.old.basis.void
        → AreMarks (λ (s : SiteData). IsBlocked voids.old.basis.problem C V s (env_of_id types.old env))
        sites.now marks.items) }
    ensures grows { Grows types.old types.new }
    ensures fits { Fits types.new voids.new }
    ensures basis { voids.new.basis ≡ voids.old.basis }
{
    let mut marks = Vec::with_capacity(alloc, sites.len())?;
    for site in sites {
        let mark = is_blocked(alloc, types, voids, site, env)?;
        marks.push_reserved(mark);
    }
    Ok(marks)
}

/// Whether each chain of the pair's nonterminal has a site that is blocked for its environment. Where there
/// is no such rule, the empty chain has none.
fn has_blocked(
    alloc: Global,
    types: &mut Compared,
    voids: &mut Voids,
    pair: VoidRow,
) -> Result<bool, OutOfMemory>
    requires fits { Fits types.old voids.old }
    requires env { pair.env < length types.old.envs }
    ensures ok { IfOk result (λ has. (C : List EntryData) (V : List VoidData)
        → AreNumbered voids.old.basis.problem C V types.old voids.old.basis.table voids.old.basis.void
        → IsTrue has ↔ HasBlocked voids.old.basis.problem C V (void_of types.old pair)) }
    ensures grows { Grows types.old types.new }
    ensures fits { Fits types.new voids.new }
    ensures basis { voids.new.basis ≡ voids.old.basis }
{
    match voids.sites_of(pair.rule) {
        None => Ok(false),
        Some(sites) => {
            let marks = blocked_marks(alloc, types, voids, pair.rule, sites, pair.env)?;
            each_chain_has_marked(alloc, voids.problem(), pair.rule, sites, marks.as_slice())
        }
    }
}

impl<'a> Voids<'a> {
    /// The place, counted from 0, of the first void row whose pair isn't one of a void list, by the rows:
    /// some chain of its nonterminal has no site that is blocked for its environment. `None` where each
    /// chain of each pair has one. Costs, for each site of each pair's nonterminal, the least unions of what
    /// may be chosen for its arguments.
    pub fn first_not_void(&mut self, types: &mut Compared) -> Result<Option<usize>, OutOfMemory>
        requires { Fits types.old self.old }
        ensures first { IfOk result (λ first. (C : List EntryData) (V : List VoidData)
            → AreNumbered self.old.basis.problem C V types.old self.old.basis.table self.old.basis.void
            → IsFirstWithout self.old.basis.problem C V first) }
        ensures grows { Grows types.old types.new }
        ensures fits { Fits types.new self.new }
        ensures basis { self.new.basis ≡ self.old.basis }
    {
        let alloc = self.alloc;
        let pairs = self.void();
        for (place, pair) in pairs.iter().enumerate() {
            if !has_blocked(alloc, types, self, *pair)? {
                return Ok(Some(place));
            }
        }
        Ok(None)
    }
}
