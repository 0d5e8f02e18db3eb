//! The sites of each nonterminal.

ghost use Rattle.std.specs.Prelude.{◌+◌, IfOk};
ghost use Rattle.hs_scheme.specs.Problem.{ProblemData};
ghost use Rattle.hs_flow_checker.specs.Starts.{IsStartBy};
ghost use Rattle.std.specs.List.Sorted.{IsSorted};
ghost use Rattle.hs_sites.specs.Listed.{AnySite, AreSites, AreSitesOf, site_cmp};

use crate::collecting::collect;
use hs_scheme::{OutOfMemory, Problem};
use std::alloc::Global;
use std::marker::Model;

/// A site of a nonterminal: at the point, which has arguments, the head may become the nonterminal of
/// this rule with `given` arguments before those of the point. So the point's first argument goes to
/// the parameter of the number `given`, counted from 0.
#[derive(Clone, Copy, Debug, PartialEq, Eq, PartialOrd, Ord)]
pub struct Site {
    pub nonterminal: u32,
    pub given: u32,
    pub point: u32,
}

/// The sites of all nonterminals, ascending. Contracts see the list of them.
#[derive(Debug, Drop)]
pub struct Sites {
    sites: Vec<Site>,
}

impl Model for Sites {
    ghost use Rattle.std.specs.Prelude.{List};
    ghost use Rattle.std.specs.Coded.{coded_list};
    ghost use Rattle.std.specs.List.Sorted.{IsSorted};
    ghost use Rattle.hs_sites.specs.declared.sites.Site.{Site};
    ghost use Rattle.hs_sites.specs.Listed.{site_cmp, coded_site};

    ghost Value = { List Site };

    ghost coded = { coded_list coded_site };

    ghost view = { λ a. a.sites.items };

    ghost invariant = { λ a. IsSorted site_cmp a.sites.items };
}

/// How many of the sites, which ascend, are of lesser nonterminals.
fn start_of(sites: &[Site], nonterminal: u32) -> usize
    requires { IsSorted site_cmp sites.now }
    ensures { IsStartBy (λ (s : AnySite). s.nonterminal) sites.now nonterminal result }
{
    sites.partition_point(|site| site.nonterminal < nonterminal)
}

/// How many are of this one or of lesser ones.
fn end_of(sites: &[Site], nonterminal: u32) -> usize
    requires { IsSorted site_cmp sites.now }
    ensures { IsStartBy (λ (s : AnySite). s.nonterminal) sites.now (nonterminal + 1) result }
{
    sites.partition_point(|site| site.nonterminal <= nonterminal)
}

impl Sites {
    /// The sites of all nonterminals of the problem.
    ///
    /// Over a closed flow there are no more sites than flow pairs, since each gives its first argument
    /// to a parameter. Memory is in proportion to the points and the sites. Time is in proportion to
    /// these, with the logarithm of their number, and to the pairs of a flow pair, of a parameter that
    /// is the head of a point with arguments, and of a head pair of the same point. The one error is want
    /// of memory.
    pub fn of(alloc: Global, problem: &Problem) -> Result<Sites, OutOfMemory>
        ensures { IfOk result (AreSites problem.now) }
    {
        let mut sites = collect(alloc, problem)?;
        sites.sort_unstable();
        Ok(Sites { sites })
    }

    /// The sites of the nonterminal of this rule, counted from 0; none where there is no such rule. Takes
    /// no memory, and time in the logarithm of the number of all sites.
    pub fn of_nonterminal(&self, nonterminal: u32) -> &[Site]
        ensures { (p : ProblemData) → AreSites p self.now → AreSitesOf p nonterminal result.now }
    {
        let from = start_of(self.sites.as_slice(), nonterminal);
        let to = end_of(self.sites.as_slice(), nonterminal);
        &self.sites[from..to]
    }
}
