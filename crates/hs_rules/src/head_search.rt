//! Where the types of a point's head are sought.

use crate::search::Search;
use hs_scheme::{Head, Problem};
use hs_types::TyId;

/// A point of a problem: its rule with the number of the rule's parameters, its head, and what is sought
/// at the point.
#[derive(Clone, Copy)]
pub(crate) struct HeadSearch<'a> {
    pub(crate) problem: &'a Problem,
    pub(crate) rule: u32,
    pub(crate) params: u32,
    pub(crate) head: Head,
    pub(crate) search: Search<'a>,
}

/// A type in the set of the argument of this number, counted from 0, for which types of a head are to ask.
#[derive(Clone, Copy)]
pub(crate) struct AskedType {
    pub(crate) arg: u32,
    pub(crate) ty: TyId,
}
