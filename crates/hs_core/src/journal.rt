//! What has happened, in few bytes.

ghost use Rattle.std.specs.Prelude.{◌≡◌, ◌==◌, ◌+◌, ◌<◌, ◌≤◌, ◌^◌, ◌∷◌, ◌++◌, [], false, length, vec_len, vec_capacity, OnOk, OnErr};
ghost use Rattle.std.specs.Iterator.{YieldsFirst, item_count};
ghost use Rattle.hs_core.specs.Journal.{following, work_after, due_after, event_of, kind_of, ticket_of, due_for, step_of, taken_at, finished_at, pick, left, only};

use hs_history::{Event, Step, Work};
use hs_scheme::OutOfMemory;
use std::alloc::Global;
use std::marker::Model;

/// Room is made for at least so many steps at once.
const BLOCK: usize = 1024;

/// The actor before the first step.
const FIRST_ACTOR: Actor = Actor {
    worker: 0,
    ticket: 0,
};

/// What is due at the first step.
const FIRST_DUE: Due = Due {
    work: Work::Seed(0),
    place: 0,
};

/// What a worker does.
#[derive(Clone, Copy, Drop)]
enum Kind {
    Taking,
    Adding,
    Passing,
    Finishing,
    GivingBack,
}

/// Who does it, and under which ticket.
#[derive(Clone, Copy, PartialEq, Eq, Drop)]
struct Actor {
    worker: u32,
    ticket: u32,
}

/// Which work is taken next, and at which place the next entry is added, where nothing else is said.
#[derive(Clone, Copy, PartialEq, Eq, Drop)]
struct Due {
    work: Work,
    place: u32,
}

/// A step: what is done, whether the worker or the ticket is another than before, and whether the
/// work or the place is another than the one that was due.
#[derive(Clone, Copy, Drop)]
struct Mark {
    kind: Kind,
    changed: bool,
    jumped: bool,
}

/// A list of steps. Contracts see it as that, with the number of steps for which there is room.
///
/// A step takes 3 bytes; 8 more where the worker or the ticket is another than at the step before,
/// and 12 more where the work or the place doesn't follow the last one.
#[derive(Drop)]
pub struct Journal {
    marks: Vec<Mark>,
    actors: Vec<Actor>,
    dues: Vec<Due>,
    actor: Actor,
    due: Due,
    room: usize,
}

impl Model for Journal {
    ghost use Rattle.std.specs.Prelude.{◌+◌, ◌≤◌};
    ghost use Rattle.std.specs.Vec.{vec_len, vec_capacity};
    ghost use Rattle.hs_core.specs.Journal.{JournalData, opened, steps_read, IsJournalOf};

    ghost Value = { JournalData };

    ghost view = { λ a. record {
      steps = steps_read (opened a.actors.items a.dues.items) a.marks.items;
      room = a.room;
    } };

    ghost invariant = { λ a.
        IsJournalOf a.actors.items a.dues.items a.marks.items a.actor a.due
        × (vec_len a.marks + a.room ≤ vec_capacity a.marks)
        × (vec_len a.actors + a.room ≤ vec_capacity a.actors)
        × (vec_len a.dues + a.room ≤ vec_capacity a.dues) };
}

/// The number after this one, or the greatest.
fn next_number(number: u32) -> u32
    ensures { result ≡ following number }
{
    number.saturating_add(1)
}

/// What is due after a step of this kind.
fn after(kind: Kind, due: Due) -> Due
    ensures { result ≡ due_after kind due }
{
    match kind {
        Kind::Taking => Due {
            work: match due.work {
                Work::Seed(point) => Work::Seed(next_number(point)),
                Work::Place(place) => Work::Place(next_number(place)),
            },
            place: due.place,
        },
        Kind::Adding => Due {
            work: due.work,
            place: next_number(due.place),
        },
        Kind::Passing | Kind::Finishing | Kind::GivingBack => due,
    }
}

/// What the event is.
fn kind_at(event: Event) -> Kind
    ensures { result ≡ kind_of event }
{
    match event {
        Event::Take { .. } => Kind::Taking,
        Event::Added { .. } => Kind::Adding,
        Event::PastBudget { .. } => Kind::Passing,
        Event::Finish { .. } => Kind::Finishing,
        Event::GiveBack { .. } => Kind::GivingBack,
    }
}

/// The ticket of the event.
fn ticket_at(event: Event) -> u32
    ensures { result ≡ ticket_of event }
{
    match event {
        Event::Take { work: _, ticket } => ticket,
        Event::Added { ticket, place: _ } => ticket,
        Event::PastBudget { ticket } => ticket,
        Event::Finish { ticket } => ticket,
        Event::GiveBack { ticket } => ticket,
    }
}

/// What has to be due at the event, where this is.
fn due_at(event: Event, due: Due) -> Due
    ensures { result ≡ due_for event due }
{
    match event {
        Event::Take { work, ticket: _ } => Due {
            work,
            place: due.place,
        },
        Event::Added { ticket: _, place } => Due {
            work: due.work,
            place,
        },
        _ => due,
    }
}

/// The event of this kind.
fn event_at(kind: Kind, ticket: u32, due: Due) -> Event
    ensures { result ≡ event_of kind ticket due }
{
    match kind {
        Kind::Taking => Event::Take {
            work: due.work,
            ticket,
        },
        Kind::Adding => Event::Added {
            ticket,
            place: due.place,
        },
        Kind::Passing => Event::PastBudget { ticket },
        Kind::Finishing => Event::Finish { ticket },
        Kind::GivingBack => Event::GiveBack { ticket },
    }
}

/// Whether the actor is another than the last one.
fn is_other_actor(actor: Actor, last: Actor) -> bool
    ensures { result ≡ false → actor ≡ last }
{
    actor != last
}

/// Whether this is another than what is due.
fn is_other_due(asked: Due, due: Due) -> bool
    ensures { result ≡ false → asked ≡ due }
{
    asked != due
}

/// Adds the item where it is asked for. There is room.
fn push_actor(actors: &mut Vec<Actor>, asked: bool, actor: Actor)
    requires { vec_len actors.old < vec_capacity actors.old }
    ensures items { actors.new.items ≡ actors.old.items ++ only asked actor }
    ensures len { vec_len actors.new ≤ vec_len actors.old + 1 }
    ensures capacity { vec_capacity actors.new ≡ vec_capacity actors.old }
{
    if asked {
        actors.push_reserved(actor);
    }
}

/// Adds the item where it is asked for. There is room.
fn push_due(dues: &mut Vec<Due>, asked: bool, due: Due)
    requires { vec_len dues.old < vec_capacity dues.old }
    ensures items { dues.new.items ≡ dues.old.items ++ only asked due }
    ensures len { vec_len dues.new ≤ vec_len dues.old + 1 }
    ensures capacity { vec_capacity dues.new ≡ vec_capacity dues.old }
{
    if asked {
        dues.push_reserved(due);
    }
}

impl Journal {
    /// A journal without steps.
    pub(crate) fn new(alloc: Global) -> Journal
        ensures { result ≡ record { steps = []; room = 0 } }
    {
        Journal {
            marks: Vec::new(alloc),
            actors: Vec::new(alloc),
            dues: Vec::new(alloc),
            actor: FIRST_ACTOR,
            due: FIRST_DUE,
            room: 0,
        }
    }

    /// Makes room for `k` more steps. After a refusal nothing has changed.
    pub(crate) fn reserve(&mut self, k: usize) -> Result<(), OutOfMemory>
        ensures steps { self.new.steps ≡ self.old.steps }
        ensures ok { OnOk result (k ≤ self.new.room) }
        ensures more { self.old.room ≤ self.new.room }
        ensures err { OnErr result (self.new ≡ self.old) }
    {
        if k <= self.room {
            return Ok(());
        }
        let more = k.max(BLOCK);
        self.marks.reserve(more)?;
        self.actors.reserve(more)?;
        self.dues.reserve(more)?;
        self.room = more;
        Ok(())
    }

    /// Adds the step of this kind by the actor, at which this is due. There is room.
    #[inline(always)]
    fn mark(&mut self, kind: Kind, actor: Actor, due: Due)
        requires { 1 ≤ self.old.room }
        ensures steps { self.new.steps ≡ self.old.steps ++ step_of kind actor due ∷ [] }
        ensures room { self.new.room + 1 ≡ self.old.room }
    {
        let mark = Mark {
            kind,
            changed: is_other_actor(actor, self.actor),
            jumped: is_other_due(due, self.due),
        };
        push_actor(&mut self.actors, mark.changed, actor);
        push_due(&mut self.dues, mark.jumped, due);
        self.marks.push_reserved(mark);
        self.actor = actor;
        self.due = after(kind, due);
        self.room -= 1;
    }

    /// Adds a step. There is room.
    pub(crate) fn push(&mut self, step: Step)
        requires { 1 ≤ self.old.room }
        ensures steps { self.new.steps ≡ self.old.steps ++ step ∷ [] }
        ensures room { self.new.room + 1 ≡ self.old.room }
    {
        let actor = Actor {
            worker: step.worker,
            ticket: ticket_at(step.event),
        };
        let due = due_at(step.event, self.due);
        self.mark(kind_at(step.event), actor, due);
    }

    /// Adds two steps, for which there is room: the worker takes the seed of the point under the
    /// ticket, and closes it. Costs less than two calls of `push`.
    pub(crate) fn push_passed(&mut self, worker: u32, ticket: u32, point: u32)
        requires { 2 ≤ self.old.room }
        ensures steps { self.new.steps ≡ (self.old.steps ++ taken_at worker ticket point ∷ [])
            ++ finished_at worker ticket ∷ [] }
        ensures room { self.new.room + 2 ≡ self.old.room }
    {
        let actor = Actor { worker, ticket };
        let due = Due {
            work: Work::Seed(point),
            place: self.due.place,
        };
        self.mark(Kind::Taking, actor, due);
        let due = self.due;
        self.mark(Kind::Finishing, actor, due);
    }

    /// The number of steps.
    pub fn len(&self) -> usize
        ensures len { result ≡ length self.now.steps }
        ensures short { result < 2 ^ 63 }
    {
        self.marks.len()
    }

    /// Whether there is no step.
    pub fn is_empty(&self) -> bool
        ensures { result ≡ (length self.now.steps == 0) }
    {
        self.marks.is_empty()
    }

    /// The steps, the first one first. Takes no memory.
    pub fn iter(&self) -> JournalSteps<'_>
        ensures { result ≡ self.now.steps }
    {
        JournalSteps {
            marks: self.marks.as_slice(),
            actors: self.actors.as_slice(),
            dues: self.dues.as_slice(),
            actor: FIRST_ACTOR,
            due: FIRST_DUE,
        }
    }
}

/// The steps of a journal that are still to come. Contracts see them as a list.
#[derive(Drop)]
pub struct JournalSteps<'a> {
    marks: &'a [Mark],
    actors: &'a [Actor],
    dues: &'a [Due],
    actor: Actor,
    due: Due,
}

impl<'a> Model for JournalSteps<'a> {
    ghost use Rattle.std.specs.Prelude.{List};
    ghost use Rattle.hs_history.specs.declared.step.Step.{Step};
    ghost use Rattle.hs_core.specs.Journal.{steps_read};

    ghost Value = { List Step };

    ghost view = { λ a. steps_read
        (record { actor = a.actor; due = a.due; actors = a.actors.now; dues = a.dues.now }) a.marks.now };
}

/// The actor at a step, and those to come.
fn actor_at(asked: bool, actor: Actor, actors: &[Actor]) -> (Actor, &[Actor])
    ensures actor { result.0 ≡ pick asked actor actors.now }
    ensures others { result.1.now ≡ left asked actors.now }
{
    if asked && let Some((first, others)) = actors.split_first() {
        return (*first, others);
    }
    (actor, actors)
}

/// What is due at a step, and what comes later.
fn due_from(asked: bool, due: Due, dues: &[Due]) -> (Due, &[Due])
    ensures due { result.0 ≡ pick asked due dues.now }
    ensures others { result.1.now ≡ left asked dues.now }
{
    if asked && let Some((first, others)) = dues.split_first() {
        return (*first, others);
    }
    (due, dues)
}

impl<'a> Iterator for JournalSteps<'a> {
    type Item = Step;

    ghost next_gives = { YieldsFirst (λ s. s) };

    ghost remaining = { item_count (λ s. s) };

    fn next(&mut self) -> Option<Step> {
        let (mark, marks) = self.marks.split_first()?;
        let (actor, actors) = actor_at(mark.changed, self.actor, self.actors);
        let (due, dues) = due_from(mark.jumped, self.due, self.dues);
        self.marks = marks;
        self.actors = actors;
        self.dues = dues;
        self.actor = actor;
        self.due = after(mark.kind, due);
        Some(Step {
            worker: actor.worker,
            event: event_at(mark.kind, actor.ticket, due),
        })
    }
}
