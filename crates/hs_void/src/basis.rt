//! What is asked of: a problem with its sites, and rows.

ghost use Rattle.std.specs.Prelude.{◌≡◌, ◌+◌, ◌≤◌, ◌↔◌, length, map, slice_get, Contains, Some, IfOk, MatchOption};
ghost use Rattle.std.specs.List.Sorted.{IsNonDecreasingBy};
ghost use Rattle.hs_sites.specs.Listed.{AreSites};
ghost use Rattle.hs_flow_checker.specs.Starts.{IsStartBy};
ghost use Rattle.hs_numbered.specs.Certificates.{VoidRowData};
ghost use Rattle.hs_void.specs.Voids.{AreSitesBy};

use hs_numbered::VoidRow;
use hs_scheme::{OutOfMemory, Problem};
use hs_sites::{Site, Sites};
use hs_types::Row;
use hs_verdict::know_sorted_problem;
use std::alloc::Global;
use std::marker::Model;

/// A problem with the sites of each of its nonterminals, the rows of a table and those of void pairs.
#[derive(Drop)]
pub(crate) struct Basis<'a> {
    problem: &'a Problem,
    /// By rule.
    sites: Vec<&'a [Site]>,
    table: &'a [Row],
    void: &'a [VoidRow],
    /// The same, in the order of rules.
    by_rule: Vec<VoidRow>,
}

impl<'a> Model for Basis<'a> {
    ghost use Rattle.std.specs.Prelude.{map, Contains, ◌↔◌};
    ghost use Rattle.std.specs.List.Sorted.{IsNonDecreasingBy};
    ghost use Rattle.hs_numbered.specs.Certificates.{VoidRowData};
    ghost use Rattle.hs_void.specs.Voids.{BasisData, coded_basis};

    ghost Value = { BasisData };

    ghost coded = { coded_basis };

    ghost view = { λ a. record {
      problem = a.problem.now;
      sites = map (λ r. r.now) a.sites.items;
      table = a.table.now;
      void = a.void.now;
    } };

    ghost invariant = { λ a. record {
      order : IsNonDecreasingBy (λ (v : VoidRowData). v.rule) a.by_rule.items;
      same : (v : VoidRowData) → Contains a.by_rule.items v ↔ Contains a.void.now v;
    } };
}

/// The sites of each nonterminal of the problem, by rule.
fn sites_by_rule<'a>(
    alloc: Global,
    problem: &Problem,
    sites: &'a Sites,
) -> Result<Vec<&'a [Site]>, OutOfMemory>
    requires { AreSites problem.now sites.now }
    ensures { IfOk result (λ found. AreSitesBy problem.now (map (λ r. r.now) found.items)) }
{
    know_sorted_problem(problem);
    let count = problem.sorted.scheme.rules.len();
    let mut found = Vec::with_capacity(alloc, count)?;
    for rule in 0..count {
        found.push_reserved(sites.of_nonterminal(rule as u32));
    }
    Ok(found)
}

/// The rows in the order of their rules.
fn in_order(alloc: Global, void: &[VoidRow]) -> Result<Vec<VoidRow>, OutOfMemory>
    ensures order { IfOk result (λ rows. IsNonDecreasingBy (λ (v : VoidRowData). v.rule) rows.items) }
    ensures same { IfOk result (λ rows. (v : VoidRowData) → Contains rows.items v ↔ Contains void.now v) }
{
    let mut rows = Vec::with_capacity(alloc, void.len())?;
    for row in void {
        rows.push_reserved(*row);
    }
    rows.sort_unstable_by_key(|row| row.rule);
    Ok(rows)
}

/// How many of the rows are of lesser rules.
fn start_of(rows: &[VoidRow], rule: u32) -> usize
    requires { IsNonDecreasingBy (λ (v : VoidRowData). v.rule) rows.now }
    ensures { IsStartBy (λ (v : VoidRowData). v.rule) rows.now rule result }
{
    rows.partition_point(|row| row.rule < rule)
}

/// How many are of this one or of lesser ones.
fn end_of(rows: &[VoidRow], rule: u32) -> usize
    requires { IsNonDecreasingBy (λ (v : VoidRowData). v.rule) rows.now }
    ensures { IsStartBy (λ (v : VoidRowData). v.rule) rows.now (rule + 1) result }
{
    rows.partition_point(|row| row.rule <= rule)
}

/// The rows of the rule.
fn part_of(rows: &[VoidRow], rule: u32) -> &[VoidRow]
    requires { IsNonDecreasingBy (λ (v : VoidRowData). v.rule) rows.now }
    ensures { (v : VoidRowData) → Contains result.now v ↔ (Contains rows.now v × (v.rule ≡ rule)) }
{
    let from = start_of(rows, rule);
    let to = end_of(rows, rule);
    &rows[from..to]
}

impl<'a> Basis<'a> {
    /// Memory is for 16 bytes for each rule, and for the void rows once more. Time is in their numbers,
    /// with the logarithm of the latter and of that of all sites.
    pub(crate) fn new(
        alloc: Global,
        problem: &'a Problem,
        sites: &'a Sites,
        table: &'a [Row],
        void: &'a [VoidRow],
    ) -> Result<Basis<'a>, OutOfMemory>
        requires { AreSites problem.now sites.now }
        ensures problem { IfOk result (λ basis. basis.problem ≡ problem.now) }
        ensures sites { IfOk result (λ basis. AreSitesBy problem.now basis.sites) }
        ensures table { IfOk result (λ basis. basis.table ≡ table.now) }
        ensures void { IfOk result (λ basis. basis.void ≡ void.now) }
    {
        let by_rule = in_order(alloc, void)?;
        let sites = sites_by_rule(alloc, problem, sites)?;
        Ok(Basis {
            problem,
            sites,
            table,
            void,
            by_rule,
        })
    }

    /// The problem.
    pub(crate) fn problem(&self) -> &'a Problem
        ensures { result.now ≡ self.now.problem }
    {
        self.problem
    }

    /// The rows of the table.
    pub(crate) fn table(&self) -> &'a [Row]
        ensures { result.now ≡ self.now.table }
    {
        self.table
    }

    /// The rows of the void pairs.
    pub(crate) fn void(&self) -> &'a [VoidRow]
        ensures { result.now ≡ self.now.void }
    {
        self.void
    }

    /// Those of the nonterminal of this rule.
    pub(crate) fn void_of(&self, rule: u32) -> &[VoidRow]
        ensures { (v : VoidRowData) → Contains result.now v ↔ (Contains self.now.void v × (v.rule ≡ rule)) }
    {
        part_of(self.by_rule.as_slice(), rule)
    }

    /// The sites of the nonterminal of this rule, if there is such a rule.
    pub(crate) fn sites_of(&self, rule: u32) -> Option<&'a [Site]>
        ensures { MatchOption result (length self.now.sites ≤ rule)
            (λ sites. slice_get self.now.sites rule ≡ Some sites.now) }
    {
        let sites = self.sites.get(rule as usize)?;
        Some(*sites)
    }
}
