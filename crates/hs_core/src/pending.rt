//! Pending works, in little memory.

ghost use Rattle.std.specs.Prelude.{◌≡◌, ◌==◌, ◌↔◌, ◌+◌, ◌<◌, ◌≤◌, ◌^◌, ◌∷◌, ◌++◌, [], length, slice_get, drop, IsTrue, OnOk, OnErr};
ghost use Rattle.hs_history.specs.CoreStep.{seeds};
ghost use Rattle.hs_core.specs.Works.{work_number, work_beyond};

use hs_history::Work;
use hs_scheme::OutOfMemory;
use std::alloc::Global;
use std::collections::VecDeque;
use std::marker::Model;

/// Works of one kind whose numbers follow one another: the first one, and how many others there are.
#[derive(Clone, Copy, Drop)]
struct Stretch {
    first: Work,
    others: u32,
    ghost fits: { work_number first + others < 2 ^ 32 },
}

/// Works in the order in which they are taken. Contracts see them as a list, with the number of works
/// for which there is room.
///
/// A stretch of works takes 12 bytes, however long it is.
#[derive(Drop)]
pub(crate) struct Pending {
    stretches: VecDeque<Stretch>,
    len: usize,
    room: usize,
}

impl Model for Pending {
    ghost use Rattle.std.specs.Prelude.{◌≡◌, ◌+◌, ◌<◌, ◌≤◌, ◌^◌, length};
    ghost use Rattle.std.specs.VecDeque.{deque_len, deque_capacity};
    ghost use Rattle.hs_core.specs.Pending.{PendingData, works_in};

    ghost Value = { PendingData };

    ghost view = { λ a. record { works = works_in a.stretches.items; room = a.room } };

    ghost invariant = { λ a.
        (a.len ≡ length (works_in a.stretches.items))
        × (deque_len a.stretches + a.room ≤ deque_capacity a.stretches)
        × (a.len + a.room < 2 ^ 64) };
}

/// The work of the same kind with the next number.
fn next_work(work: Work) -> Work
    requires { work_number work + 1 < 2 ^ 32 }
    ensures { result ≡ work_beyond work 1 }
{
    match work {
        Work::Seed(point) => Work::Seed(point + 1),
        Work::Place(place) => Work::Place(place + 1),
    }
}

/// Whether the number is the one behind the first and so many others.
fn is_behind(first: u32, others: u32, number: u32) -> bool
    ensures { IsTrue result ↔ (number ≡ first + (others + 1)) }
{
    u64::from(first) + u64::from(others) + 1 == u64::from(number)
}

impl Stretch {
    /// Whether the work is the one behind the last.
    fn ends_before(self, work: Work) -> bool
        ensures { IsTrue result ↔ (work ≡ work_beyond self.first (self.others + 1)) }
    {
        match (self.first, work) {
            (Work::Seed(first), Work::Seed(point)) => is_behind(first, self.others, point),
            (Work::Place(first), Work::Place(place)) => is_behind(first, self.others, place),
            _ => false,
        }
    }
}

impl Pending {
    /// No works. Takes no memory.
    pub(crate) fn new(alloc: Global) -> Pending
        ensures { result ≡ record { works = []; room = 0 } }
    {
        Pending {
            stretches: VecDeque::new(alloc),
            len: 0,
            room: 0,
        }
    }

    /// Puts the seeds of the points below `n`, in their order, in the place of what there was. After a
    /// refusal of memory nothing has changed.
    pub(crate) fn put_seeds(&mut self, n: u32) -> Result<(), OutOfMemory>
        ensures ok { OnOk result (self.new.works ≡ seeds n) }
        ensures err { OnErr result (self.new ≡ self.old) }
    {
        self.stretches.reserve(1)?;
        self.stretches.clear();
        if n != 0 {
            self.stretches.push_back_reserved(Stretch {
                first: Work::Seed(0),
                others: n - 1,
            });
        }
        self.len = n as usize;
        self.room = 0;
        Ok(())
    }

    /// Makes room for `k` more works. After a refusal nothing has changed.
    pub(crate) fn reserve(&mut self, k: usize) -> Result<(), OutOfMemory>
        ensures works { self.new.works ≡ self.old.works }
        ensures ok { OnOk result (k ≤ self.new.room) }
        ensures more { self.old.room ≤ self.new.room }
        ensures err { OnErr result (self.new ≡ self.old) }
    {
        if k <= self.room {
            return Ok(());
        }
        if k > usize::MAX - self.len {
            return Err(OutOfMemory);
        }
        self.stretches.reserve(k)?;
        self.room = k;
        Ok(())
    }

    /// Adds a work behind the others. There is room.
    pub(crate) fn push_back(&mut self, work: Work)
        requires { 1 ≤ self.old.room }
        ensures works { self.new.works ≡ self.old.works ++ work ∷ [] }
        ensures room { self.new.room + 1 ≡ self.old.room }
    {
        self.len += 1;
        self.room -= 1;
        if let Some(last) = self.stretches.back_mut()
            && last.ends_before(work)
        {
            last.others += 1;
            return;
        }
        self.stretches.push_back_reserved(Stretch {
            first: work,
            others: 0,
        });
    }

    /// The first work.
    pub(crate) fn front(&self) -> Option<Work>
        ensures { result ≡ slice_get self.now.works 0 }
    {
        let stretch = self.stretches.front()?;
        Some(stretch.first)
    }

    /// Takes the first work out, where there is one.
    pub(crate) fn pop_front(&mut self)
        ensures works { self.new.works ≡ drop 1 self.old.works }
        ensures room { self.new.room ≡ self.old.room }
    {
        let Some(stretch) = self.stretches.front_mut() else {
            return;
        };
        self.len -= 1;
        if stretch.others == 0 {
            let _ended = self.stretches.pop_front();
            return;
        }
        stretch.first = next_work(stretch.first);
        stretch.others -= 1;
    }

    /// How many works there are.
    pub(crate) fn len(&self) -> usize
        ensures { result ≡ length self.now.works }
    {
        self.len
    }

    /// Whether there is none.
    pub(crate) fn is_empty(&self) -> bool
        ensures { result ≡ (length self.now.works == 0) }
    {
        self.len == 0
    }
}
