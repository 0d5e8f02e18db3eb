//! The equations of sorts that a file's rules ask for, up to the first one that fails.

use crate::shapes::{Shape, Shapes};
use hs_scheme::{Head, OutOfMemory, Rule, Term, Unsorted};
use std::alloc::Global;

/// A term, how many of its arguments are meant, the sort that it has, and the one that is wanted, or whether
/// its sort would stand within itself; and where it is an argument, whose it is and which, counted from 1.
#[derive(Clone, Copy)]
pub(crate) struct Clash<'a> {
    pub(crate) term: &'a Term,
    pub(crate) count: usize,
    pub(crate) found: u32,
    pub(crate) wanted: u32,
    pub(crate) is_circular: bool,
    pub(crate) argument: Option<(Head, usize)>,
}

/// The sorts of the nonterminals and the terminals, and of the parameters of one rule, by number.
#[derive(Drop)]
pub(crate) struct Sought {
    pub(crate) shapes: Shapes,
    pub(crate) nonterminals: Vec<u32>,
    terminals: Vec<u32>,
    params: Vec<u32>,
}

/// Why a search ends.
#[derive(Clone, Copy)]
enum Ended<'a> {
    Found(Clash<'a>),
    OutOfMemory,
}

impl<'a> From<OutOfMemory> for Ended<'a> {
    fn from(_refused: OutOfMemory) -> Ended<'a> {
        Ended::OutOfMemory
    }
}

/// The sort of a rule's nonterminal, of which no more is known than that it takes the rule's parameters, and
/// that the start takes nothing.
fn rule_sort(shapes: &mut Shapes, number: usize, params: u32) -> Result<u32, OutOfMemory> {
    if number == 0 {
        return shapes.add(Shape::Base);
    }
    let mut sort = shapes.add(Shape::Open)?;
    for _ in 0..params {
        let param = shapes.add(Shape::Open)?;
        sort = shapes.add(Shape::Arrow(param, sort))?;
    }
    Ok(sort)
}

/// The sort of a terminal with so many children, or one of which nothing is known.
fn terminal_sort(shapes: &mut Shapes, rank: Option<u32>) -> Result<u32, OutOfMemory> {
    let Some(rank) = rank else {
        return shapes.add(Shape::Open);
    };
    let base = shapes.add(Shape::Base)?;
    let mut sort = base;
    for _ in 0..rank {
        sort = shapes.add(Shape::Arrow(base, sort))?;
    }
    Ok(sort)
}

impl Sought {
    /// Nothing is known but the ranks of terminals and the parameters of rules.
    pub(crate) fn new(alloc: Global, unsorted: &Unsorted) -> Result<Sought, OutOfMemory> {
        let mut shapes = Shapes::new(alloc);
        let mut nonterminals = Vec::new(alloc);
        for (number, rule) in unsorted.rules.iter().enumerate() {
            let sort = rule_sort(&mut shapes, number, rule.params)?;
            nonterminals.push(sort)?;
        }
        let mut terminals = Vec::new(alloc);
        for rank in &unsorted.ranks {
            let sort = terminal_sort(&mut shapes, *rank)?;
            terminals.push(sort)?;
        }
        Ok(Sought {
            shapes,
            nonterminals,
            terminals,
            params: Vec::new(alloc),
        })
    }

    /// The sort of a head, where it has a number in range.
    fn sort_of(&self, head: Head) -> Option<u32> {
        match head {
            Head::Var(number) => self.params.get(number as usize).copied(),
            Head::Nt(number) => self.nonterminals.get(number as usize).copied(),
            Head::Tm(number) => self.terminals.get(number as usize).copied(),
        }
    }

    /// The sort of a head.
    fn head(&mut self, head: Head) -> Result<u32, OutOfMemory> {
        match self.sort_of(head) {
            Some(sort) => Ok(sort),
            None => self.shapes.add(Shape::Open),
        }
    }

    /// The sort of a term of this sort that is applied to an argument of that one, or of which sort the
    /// argument is to be, where it isn't; or the sort that the term is to be of, where it takes none.
    fn apply(
        &mut self,
        alloc: Global,
        function: u32,
        argument: u32,
    ) -> Result<Result<u32, Option<u32>>, OutOfMemory> {
        let known = self.shapes.known(function);
        if let Shape::Arrow(from, to) = self.shapes.shape(known) {
            let is_met = self.shapes.equate(alloc, argument, from)?;
            return Ok(if is_met { Ok(to) } else { Err(Some(from)) });
        }
        let to = self.shapes.add(Shape::Open)?;
        let arrow = self.shapes.add(Shape::Arrow(argument, to))?;
        let is_met = self.shapes.equate(alloc, known, arrow)?;
        Ok(if is_met { Ok(to) } else { Err(None) })
    }

    /// The sort of a term. Recurses as deep as the term.
    fn term<'a>(&mut self, alloc: Global, term: &'a Term) -> Result<u32, Ended<'a>> {
        let mut sort = self.head(term.head)?;
        for (place, arg) in term.args.iter().enumerate() {
            let found = self.term(alloc, arg)?;
            match self.apply(alloc, sort, found)? {
                Ok(behind) => sort = behind,
                Err(Some(wanted)) => {
                    return Err(Ended::Found(Clash {
                        term: arg,
                        count: arg.args.len(),
                        found,
                        wanted,
                        is_circular: self.shapes.is_circular(),
                        argument: Some((term.head, place.saturating_add(1))),
                    }));
                }
                Err(None) if self.shapes.is_circular() => {
                    return Err(Ended::Found(Clash {
                        term: arg,
                        count: arg.args.len(),
                        found,
                        wanted: found,
                        is_circular: true,
                        argument: Some((term.head, place.saturating_add(1))),
                    }));
                }
                Err(None) => {
                    let to = self.shapes.add(Shape::Open)?;
                    let wanted = self.shapes.add(Shape::Arrow(found, to))?;
                    return Err(Ended::Found(Clash {
                        term,
                        count: place,
                        found: sort,
                        wanted,
                        is_circular: false,
                        argument: None,
                    }));
                }
            }
        }
        Ok(sort)
    }

    /// Takes the sorts of a rule's parameters from that of its nonterminal, and answers what is left of
    /// that.
    fn enter(&mut self, alloc: Global, sort: u32, params: u32) -> Result<u32, OutOfMemory> {
        let mut sorts = Vec::new(alloc);
        let mut rest = sort;
        for _ in 0..params {
            if let Shape::Arrow(from, to) = self.shapes.shape(self.shapes.known(rest)) {
                sorts.push(from)?;
                rest = to;
            }
        }
        self.params = sorts;
        Ok(rest)
    }

    /// Equates what is left of the sort of a nonterminal behind its parameters with that of its rule's right
    /// side.
    fn rule<'a>(&mut self, alloc: Global, number: usize, rule: &'a Rule) -> Result<(), Ended<'a>> {
        let Some(sort) = self.nonterminals.get(number).copied() else {
            return Ok(());
        };
        let wanted = self.enter(alloc, sort, rule.params)?;
        let found = self.term(alloc, &rule.body)?;
        if self.shapes.equate(alloc, wanted, found)? {
            return Ok(());
        }
        Err(Ended::Found(Clash {
            term: &rule.body,
            count: rule.body.args.len(),
            found,
            wanted,
            is_circular: self.shapes.is_circular(),
            argument: None,
        }))
    }

    /// The first clash in these rules.
    pub(crate) fn first<'a>(&mut self, alloc: Global, rules: &'a [Rule]) -> Option<Clash<'a>> {
        for (number, rule) in rules.iter().enumerate() {
            match self.rule(alloc, number, rule) {
                Ok(()) => (),
                Err(Ended::Found(clash)) => return Some(clash),
                Err(Ended::OutOfMemory) => return None,
            }
        }
        None
    }
}
