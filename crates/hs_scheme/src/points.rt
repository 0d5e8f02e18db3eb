//! The points of a scheme.

ghost use Rattle.std.specs.Prelude.{◌≡◌, ◌↔◌, ℕ, ◌+◌, ◌<◌, ◌≤◌, ◌++◌, length, All, slice_index, Some, IfOk, OnOk, IsErrOf};
ghost use Rattle.hs_scheme.specs.declared.points.PointsFault.TheVariants.{TooMany, OutOfMemory};
ghost use Rattle.hs_scheme.specs.flow.Points.{NonterminalWithin, ParameterWithin, IsArgument, point_at, size, term_points, points_of};
ghost use Rattle.hs_scheme.specs.flow.Rows.{points_in, places_in, Fits, term_places};

use crate::parameters::Parameters;
use crate::scheme::Scheme;
use crate::term::{Head, Term};
use std::alloc::{AllocError, AllocFailed, Global};
use std::error::Error;
use std::fmt;
use std::marker::Model;

/// The most points of a scheme.
pub const MAX_POINTS: usize = 500_000;

/// Why a scheme has no `Points`.
#[derive(Clone, Copy, Debug, PartialEq, Eq)]
pub enum PointsFault {
    /// There are more than `MAX_POINTS` points.
    TooMany,
    /// Memory was refused.
    OutOfMemory,
}

impl fmt::Display for PointsFault {
    fn fmt<W: fmt::Write>(&self, f: &mut fmt::Formatter<W>) -> fmt::Result {
        match self {
            PointsFault::TooMany => write!(f, "more than {MAX_POINTS} points"),
            PointsFault::OutOfMemory => write!(f, "out of memory"),
        }
    }
}

impl Error for PointsFault {}

impl From<AllocError> for PointsFault {
    ghost from_gives = { λ _ e. e ≡ OutOfMemory };

    fn from(_refused: AllocError) -> PointsFault {
        PointsFault::OutOfMemory
    }
}

impl<T: Drop> From<AllocFailed<T>> for PointsFault {
    ghost from_gives = { λ _ e. e ≡ OutOfMemory };

    fn from(_refused: AllocFailed<T>) -> PointsFault {
        PointsFault::OutOfMemory
    }
}

impl From<crate::memory::OutOfMemory> for PointsFault {
    ghost from_gives = { λ _ e. e ≡ OutOfMemory };

    fn from(_refused: crate::memory::OutOfMemory) -> PointsFault {
        PointsFault::OutOfMemory
    }
}

/// Whose argument a point is: that of the point `point`, at `place`, counted from 0.
#[derive(Clone, Copy, Debug, PartialEq, Eq)]
pub struct Argument {
    pub point: u32,
    pub place: u32,
}

/// A rule's body or an argument in it.
#[derive(Clone, Copy, Debug)]
struct Row {
    rule: u32,
    head: Head,
    argument: Option<Argument>,
    /// Where its arguments stand in the list of all arguments.
    from: u32,
    to: u32,
}

/// The points, by number, and the points of their arguments, those of each point in a row.
#[derive(Debug, Drop)]
struct Rows {
    points: Vec<Row>,
    args: Vec<u32>,
}

/// The points of a scheme: each rule's body and each argument in it.
///
/// They are numbered from 0: rule by rule, in each rule the body first and then its arguments in
/// preorder.
#[derive(Debug, Drop)]
pub struct Points {
    rows: Rows,
    bodies: Vec<u32>,
    params: Parameters,
}

impl Model for Points {
    ghost use Rattle.hs_scheme.specs.flow.Points.{PointsData, coded_points};
    ghost use Rattle.hs_scheme.specs.flow.Rows.{points_in, AreRows};

    ghost Value = { PointsData };

    ghost coded = { coded_points };

    ghost view = { λ a. record {
      points = points_in a.rows.args.items a.rows.points.items;
      bodies = a.bodies.items;
      params = a.params;
    } };

    ghost invariant = { λ a. AreRows a.rows.points.items a.rows.args.items
        (record {
          points = points_in a.rows.args.items a.rows.points.items;
          bodies = a.bodies.items;
          params = a.params;
        }) };
}

/// Adds the points of a term of this rule, itself an argument or none. `pending` has the arguments of
/// the terms around it, and keeps them. Recurses as deep as the term.
fn add_term(
    rows: &mut Rows,
    pending: &mut Vec<u32>,
    rule: u32,
    argument: Option<Argument>,
    term: &Term,
) -> Result<(), PointsFault>
    requires few { length rows.old.points.items ≤ 500000 }
    requires args { length rows.old.args.items ≤ length rows.old.points.items }
    requires ranges { All (Fits rows.old.args.items) rows.old.points.items }
    ensures added { OnOk result (points_in rows.new.args.items rows.new.points.items
        ≡ points_in rows.old.args.items rows.old.points.items ++ term_points rule
        (length rows.old.points.items) term.now) }
    ensures places { OnOk result (places_in rows.new.points.items
        ≡ places_in rows.old.points.items ++ term_places argument (length rows.old.points.items) term.now) }
    ensures pending { OnOk result (pending.new.items ≡ pending.old.items) }
    ensures ranges { OnOk result (All (Fits rows.new.args.items) rows.new.points.items) }
    ensures few { OnOk result (length rows.new.points.items ≤ 500000) }
    ensures args { OnOk result (length rows.new.args.items + length rows.old.points.items + 1 ≤ length
        rows.new.points.items + length rows.old.args.items) }
    ensures many { IsErrOf result TooMany → 500000 < length rows.old.points.items + size term.now }
{
    if rows.points.len() >= MAX_POINTS {
        return Err(PointsFault::TooMany);
    }
    let number = rows.points.len();
    rows.points.push(Row {
        rule,
        head: term.head,
        argument,
        from: 0,
        to: 0,
    })?;
    let start = pending.len();
    for (place, arg) in term.args.iter().enumerate() {
        pending.push(rows.points.len() as u32)?;
        let argument = Argument {
            point: number as u32,
            place: place as u32,
        };
        add_term(rows, pending, rule, Some(argument), arg)?;
    }
    let own = &pending[start..];
    let from = rows.args.len() as u32;
    rows.args.extend_from_slice(own)?;
    let to = rows.args.len() as u32;
    pending.truncate(start);
    let row = &mut rows.points[number];
    row.from = from;
    row.to = to;
    Ok(())
}

impl Points {
    /// The points of a scheme, in time and memory in proportion to their number. `TooMany` comes
    /// exactly where there are more than `MAX_POINTS`.
    pub fn of(alloc: Global, scheme: &Scheme) -> Result<Points, PointsFault>
        ensures points { IfOk result (λ points. points ≡ points_of scheme.now.rules) }
        ensures few { IfOk result (λ points. length points.points ≤ 500000) }
        ensures many { IsErrOf result TooMany → 500000 < length (points_of scheme.now.rules).points }
    {
        let params = Parameters::of(alloc, scheme.rules.as_slice())?;
        let mut bodies = Vec::with_capacity(alloc, scheme.rules.len())?;
        let mut rows = Rows {
            points: Vec::new(alloc),
            args: Vec::new(alloc),
        };
        let mut pending = Vec::new(alloc);
        for (number, rule) in scheme.rules.iter().enumerate() {
            bodies.push_reserved(rows.points.len() as u32);
            add_term(&mut rows, &mut pending, number as u32, None, &rule.body)?;
        }
        Ok(Points {
            rows,
            bodies,
            params,
        })
    }

    /// The number of points. Takes no memory.
    pub fn count(&self) -> u32
        ensures points { result ≡ length self.now.points }
        ensures few { result ≤ 500000 }
    {
        self.rows.points.len() as u32
    }

    /// The rule in which this point stands, which is less than `count`. Takes no memory.
    pub fn rule_of(&self, p: u32) -> u32
        requires { p < length self.now.points }
        ensures rule { result ≡ (point_at self.now p).rule }
        ensures within { result < length self.now.bodies }
    {
        self.rows.points[p as usize].rule
    }

    /// The head of this point, which is less than `count`. Takes no memory.
    pub fn head_of(&self, p: u32) -> Head
        requires { p < length self.now.points }
        ensures head { result ≡ (point_at self.now p).head }
        ensures within { NonterminalWithin (length self.now.bodies) result }
        ensures parameter { ParameterWithin self.now.params (point_at self.now p).rule result }
    {
        self.rows.points[p as usize].head
    }

    /// The points of the arguments of this point, which is less than `count`, in order. Takes no
    /// memory.
    pub fn args_of(&self, p: u32) -> &[u32]
        requires { p < length self.now.points }
        ensures args { result.now ≡ (point_at self.now p).args }
        ensures within { All (λ a. a < length self.now.points) result.now }
    {
        let row = &self.rows.points[p as usize];
        &self.rows.args[row.from as usize..row.to as usize]
    }

    /// Whose argument this point is, which is less than `count`, or `None` where it is a rule's
    /// body. No point is an argument twice. Takes no memory.
    pub fn argument_of(&self, p: u32) -> Option<Argument>
        requires { p < length self.now.points }
        ensures { (q place : ℕ) → (result ≡ Some (record { point = q; place = place }))
            ↔ IsArgument self.now q place p }
    {
        self.rows.points[p as usize].argument
    }

    /// The point of the body of this rule, which is one of the scheme's. Takes no memory.
    pub fn body_of(&self, rule: u32) -> u32
        requires { rule < length self.now.bodies }
        ensures body { result ≡ slice_index self.now.bodies rule }
        ensures within { result < length self.now.points }
    {
        self.bodies[rule as usize]
    }

    /// How many parameters each rule has, with a number for each parameter. Takes no memory.
    pub fn params(&self) -> &Parameters
        ensures params { result.now ≡ self.now.params }
        ensures rules { length result.now ≡ length self.now.bodies }
    {
        &self.params
    }
}
