//! What a source or a sink has answered so far. Only contracts and proofs read it: it takes no memory,
//! and noting something takes no time.

ghost use Rattle.std.specs.Prelude.{◌≡◌, length, take};
ghost use Rattle.hs_edge.specs.Reading.{unread, started, handed};
ghost use Rattle.hs_edge.specs.Writing.{unwritten, written};

use logbook::{Opening, Rule, Seen, Start};
use std::fmt;
use std::marker::Model;

/// The rule of a book that says nothing of its log.
struct Any;

impl<E> Rule<E, ()> for Any {
    ghost use Rattle.std.specs.Prelude.{[]};
    ghost use base.Fml.{ftrue};

    ghost holds = { λ cells log. Unit {0} };

    ghost first = { [] };

    ghost hinted = { λ n log. Unit {0} };

    ghost shows = { λ log. [] };

    ghost keeps = { λ names log. ftrue };

    ghost moves = { λ ask before after answer. Unit {0} };
}

/// An entry of a book: what a source has answered.
struct ReadEntry;

impl Model for ReadEntry {
    ghost use Rattle.hs_edge.specs.Reading.{Reading, unread};

    ghost Value = { Reading };

    ghost view = { λ _. unread };
}

/// What a source has answered since it was made. Whoever implements `Source` keeps one, and notes each
/// call that answers `Ok`.
#[derive(Drop)]
pub struct Reading {
    seen: Seen<ReadEntry, (), Any>,
}

impl Model for Reading {
    ghost use Rattle.std.specs.Prelude.{unwrap_or, slice_get};
    ghost use Rattle.hs_edge.specs.Reading.{Reading, unread};

    ghost Value = { Reading };

    ghost view = { λ r. unwrap_or (slice_get r.seen.log 0) unread };
}

/// A source is started.
#[derive(Drop)]
struct Started<'a> {
    before: &'a Reading,
    name: &'a str,
}

/// A source hands out bytes.
#[derive(Drop)]
struct Handed<'a> {
    before: &'a Reading,
    buf: &'a [u8],
    count: usize,
}

struct After;

impl<'a> Opening<Started<'a>, ReadEntry> for After {
    ghost use Rattle.std.specs.Prelude.{◌∷◌, []};
    ghost use Rattle.hs_edge.specs.Reading.{started};

    ghost log = { λ _ s. started s.name.now s.before.now ∷ [] };
}

impl<'a> Opening<Handed<'a>, ReadEntry> for After {
    ghost use Rattle.std.specs.Prelude.{◌∷◌, [], length, take};
    ghost use Rattle.hs_edge.specs.Reading.{handed};

    ghost log = { λ _ h. handed (length h.buf.now) (take h.count h.buf.now) h.before.now ∷ [] };
}

impl Reading {
    /// Nothing was answered yet.
    pub fn new() -> Reading
        ensures { result ≡ unread }
    {
        let (seen, _first, _second) = Seen::open(Start::alone(), 0, 0);
        Reading { seen }
    }

    /// Notes a `start` that answers `Ok`.
    pub fn note_start(&mut self, name: &str)
        ensures { self.new ≡ started name.now self.old }
    {
        let (seen, _pens) = {
            let about = Started { before: self, name };
            Seen::open_row::<Started, After>(&about, Start::alone(), 0)
        };
        self.seen = seen;
    }

    /// Notes a `read` into `buf` that answers `Ok(count)`.
    pub fn note_read(&mut self, buf: &[u8], count: usize)
        ensures { self.new ≡ handed (length buf.now) (take count buf.now) self.old }
    {
        let (seen, _pens) = {
            let about = Handed {
                before: self,
                buf,
                count,
            };
            Seen::open_row::<Handed, After>(&about, Start::alone(), 0)
        };
        self.seen = seen;
    }
}

impl fmt::Debug for Reading {
    fn fmt<W: fmt::Write>(&self, f: &mut fmt::Formatter<W>) -> fmt::Result {
        f.write_str("Reading")
    }
}

/// An entry of a book: what a sink has answered.
struct WriteEntry;

impl Model for WriteEntry {
    ghost use Rattle.hs_edge.specs.Writing.{Writing, unwritten};

    ghost Value = { Writing };

    ghost view = { λ _. unwritten };
}

/// What a sink has answered since it was made. Whoever implements `Sink` keeps one, and notes each
/// write that answers `Ok`.
#[derive(Drop)]
pub struct Writing {
    seen: Seen<WriteEntry, (), Any>,
}

impl Model for Writing {
    ghost use Rattle.std.specs.Prelude.{unwrap_or, slice_get};
    ghost use Rattle.hs_edge.specs.Writing.{Writing, unwritten};

    ghost Value = { Writing };

    ghost view = { λ w. unwrap_or (slice_get w.seen.log 0) unwritten };
}

/// A sink takes bytes.
#[derive(Drop)]
struct Taken<'a> {
    before: &'a Writing,
    piece: &'a [u8],
    count: usize,
}

impl<'a> Opening<Taken<'a>, WriteEntry> for After {
    ghost use Rattle.std.specs.Prelude.{◌∷◌, []};
    ghost use Rattle.hs_edge.specs.Writing.{written};

    ghost log = { λ _ t. written t.piece.now t.count t.before.now ∷ [] };
}

impl Writing {
    /// Nothing was answered yet.
    pub fn new() -> Writing
        ensures { result ≡ unwritten }
    {
        let (seen, _first, _second) = Seen::open(Start::alone(), 0, 0);
        Writing { seen }
    }

    /// Notes a `write` of `piece` that answers `Ok(count)`.
    pub fn note_write(&mut self, piece: &[u8], count: usize)
        ensures { self.new ≡ written piece.now count self.old }
    {
        let (seen, _pens) = {
            let about = Taken {
                before: self,
                piece,
                count,
            };
            Seen::open_row::<Taken, After>(&about, Start::alone(), 0)
        };
        self.seen = seen;
    }
}

impl fmt::Debug for Writing {
    fn fmt<W: fmt::Write>(&self, f: &mut fmt::Formatter<W>) -> fmt::Result {
        f.write_str("Writing")
    }
}
